//! Files that are written in parts and replaced as a whole.

use crate::asserts::{equal, equal_at};
use crate::calls::{ANY, NEW, called, counts, disk_with, has, old, put};
use crate::disk::{Desk, Disk, Kind};
use crate::handle::Handle;
use jk_files::{Output, Refusal, Rules, abandon_output, create_output, finish_output};
use std::alloc::Global;
use std::io::{self, ErrorKind, Write};
use std::process::Abort;

/// The calls that replace a file where the first name beside it is taken.
const IN_ORDER: &str = "look d/out;open d/out;\
    look d/.jk-tmp-0;ask d/.jk-tmp-0;open d/.jk-tmp-0;lock d/.jk-tmp-0;\
    look d/.jk-tmp-1;look d/.jk-tmp-2;look d/.jk-tmp-3;make d/.jk-tmp-0;\
    make d/.jk-tmp-1;lock d/.jk-tmp-1;look d/.jk-tmp-1;allow d/.jk-tmp-1;\
    write d/.jk-tmp-1;write d/.jk-tmp-1;sync d/.jk-tmp-1;open d/;rename d/.jk-tmp-1;sync d/;";

/// Writes two parts.
fn write_both(output: &mut impl Write) -> io::Result<()> {
    output.write_all(b"ne")?;
    output.write_all(b"w")
}

/// Replaces what has the path by a file that was written. What can't be written whole is abandoned.
fn end(desk: &Desk, output: Output<Handle>, written: io::Result<()>) -> Result<(), Refusal> {
    match written {
        Ok(()) => finish_output(desk, output),
        Err(said) => {
            abandon_output(desk, output);
            Err(Refusal::System(said))
        }
    }
}

/// Writes a file in two parts.
fn write_parts(disk: &Disk, alloc: Global, path: &str, rules: Rules<'_>) -> Result<(), Refusal> {
    let desk = Desk(disk);
    let mut output = create_output(&desk, alloc, path, rules)?;
    let written = write_both(&mut output);
    end(&desk, output, written)
}

/// A file is written in parts.
fn writes(rt: &impl Abort, alloc: Global, disk: &Disk, path: &str) {
    write_parts(disk, alloc, path, ANY).expect(rt, path);
    has(rt, disk, path, b"new");
}

#[test]
fn in_order(rt: HostRuntime) {
    // Another process has the lock of its file, and none has that of this one.
    let disk = old(&rt, rt.alloc());
    put(&rt, &disk, "d/.jk-tmp-0", Kind::File, b"another's");
    disk.taken.set(1);
    writes(&rt, rt.alloc(), &disk, "d/out");
    called(&rt, &disk, IN_ORDER);
    has(&rt, &disk, "d/.jk-tmp-0", b"another's");
}

/// Files under numbers that no process has the lock of, and so many paths that are left then.
fn sweeps(rt: &impl Abort, alloc: Global, left: &[&str], count: usize) {
    let disk = old(rt, alloc);
    for path in left {
        put(rt, &disk, *path, Kind::File, b"left");
    }
    writes(rt, alloc, &disk, "d/out");
    counts(rt, &disk, count);
}

/// The files that interrupted processes left are removed, but for one behind a gap of three numbers;
/// and so is what another left in the time between the search and the making.
#[test]
fn left_files(rt: HostRuntime) {
    let near = ["d/.jk-tmp-0", "d/.jk-tmp-1", "d/.jk-tmp-4", "d/.jk-tmp-5"];
    sweeps(&rt, rt.alloc(), &near, 1);
    sweeps(&rt, rt.alloc(), &["d/.jk-tmp-3"], 2);
}

/// What isn't a regular file isn't removed.
#[test]
fn others_stay(rt: HostRuntime) {
    let disk = old(&rt, rt.alloc());
    put(&rt, &disk, "d/.jk-tmp-0", Kind::Pipe, b"");
    put(&rt, &disk, "d/.jk-tmp-1", Kind::Folder, b"");
    writes(&rt, rt.alloc(), &disk, "d/out");
    counts(&rt, &disk, 3);
}

/// A file that another process takes for a left one before it is locked isn't written.
#[test]
fn taken_for_left(rt: HostRuntime) {
    let disk = Disk::new(rt.alloc());
    disk.taken.set(1);
    writes(&rt, rt.alloc(), &disk, "out");
    called(&rt, &disk, TAKEN);
    has(&rt, &disk, "./.jk-tmp-0", b"");
}

/// The calls of it.
const TAKEN: &str = "look out;look ./.jk-tmp-0;look ./.jk-tmp-1;look ./.jk-tmp-2;\
    make ./.jk-tmp-0;lock ./.jk-tmp-0;make ./.jk-tmp-1;lock ./.jk-tmp-1;look ./.jk-tmp-1;\
    write ./.jk-tmp-1;write ./.jk-tmp-1;sync ./.jk-tmp-1;open ./;rename ./.jk-tmp-1;sync ./;";

/// Where a call fails, the old file stays, and nothing beside it.
fn fails_at(rt: &impl Abort, alloc: Global, call: u64) {
    let disk = old(rt, alloc);
    disk.fails_at.set(call);
    let answer = write_parts(&disk, alloc, "d/out", ANY);
    equal_at(rt, "a refusal", call, answer.is_err(), true);
    has(rt, &disk, "d/out", b"old");
    counts(rt, &disk, 1);
}

#[test]
fn failing_at_each_call(rt: HostRuntime) {
    // To look, to open, to make, to look at what was made, to allow, to write twice, to store the
    // file, to open the folder, to rename.
    for call in &[1, 2, 6, 8, 9, 10, 11, 12, 13, 14] {
        fails_at(&rt, rt.alloc(), *call);
    }
}

/// Where the folder can't be stored, that is told, and the file has its path.
#[test]
fn folder_that_fails(rt: HostRuntime) {
    let disk = old(&rt, rt.alloc());
    disk.fails_at.set(15);
    let answer = write_parts(&disk, rt.alloc(), "d/out", ANY);
    equal(&rt, "a refusal", answer.is_err(), true);
    has(&rt, &disk, "d/out", b"new");
    counts(&rt, &disk, 1);
}

/// A file system that can't store a folder's names.
#[test]
fn folder_that_is_not_stored(rt: HostRuntime) {
    let disk = old(&rt, rt.alloc());
    disk.unstored.set(true);
    writes(&rt, rt.alloc(), &disk, "d/out");
}

/// What has a path stays where the output must be new, whatever it is: nothing is made.
fn stays(rt: &impl Abort, alloc: Global, kind: Kind) {
    let disk = disk_with(rt, alloc, "d/out", kind, b"old");
    let answer = write_parts(&disk, alloc, "d/out", NEW);
    equal_at(rt, "a refusal", kind, answer.is_err(), true);
    called(rt, &disk, "look d/out;");
    has(rt, &disk, "d/out", b"old");
}

#[test]
fn is_never_replaced(rt: HostRuntime) {
    for kind in &[Kind::File, Kind::Folder, Kind::Pipe, Kind::Adrift] {
        stays(&rt, rt.alloc(), *kind);
    }
}

/// What came under the path after it was looked at stays too, and nothing beside it.
fn comes_meanwhile(rt: &impl Abort, alloc: Global, linkless: bool) {
    let (disk, path) = (Disk::new(alloc), "d/out");
    disk.linkless.set(linkless);
    let desk = Desk(&disk);
    let mut output = create_output(&desk, alloc, path, NEW).expect(rt, path);
    let written = write_both(&mut output);
    put(rt, &disk, path, Kind::File, b"came");
    let answer = end(&desk, output, written);
    equal_at(rt, "a refusal", linkless, answer.is_err(), true);
    has(rt, &disk, path, b"came");
    counts(rt, &disk, 1);
}

#[test]
fn what_comes_meanwhile_stays(rt: HostRuntime) {
    comes_meanwhile(&rt, rt.alloc(), false);
    comes_meanwhile(&rt, rt.alloc(), true);
}

/// A new output has its path, where a file may have a second name and where it may not.
fn is_made(rt: &impl Abort, alloc: Global, linkless: bool) {
    let disk = Disk::new(alloc);
    disk.linkless.set(linkless);
    write_parts(&disk, alloc, "d/out", NEW).expect(rt, "a file");
    has(rt, &disk, "d/out", b"new");
    counts(rt, &disk, 1);
}

#[test]
fn new_output(rt: HostRuntime) {
    is_made(&rt, rt.alloc(), false);
    is_made(&rt, rt.alloc(), true);
}

/// The calls that write a file where none is.
const IN_NO_PLACE: &str = "look out;look ./.jk-tmp-0;look ./.jk-tmp-1;look ./.jk-tmp-2;\
    make ./.jk-tmp-0;lock ./.jk-tmp-0;look ./.jk-tmp-0;\
    write ./.jk-tmp-0;write ./.jk-tmp-0;sync ./.jk-tmp-0;open ./;rename ./.jk-tmp-0;sync ./;";

#[test]
fn where_nothing_is(rt: HostRuntime) {
    let disk = Disk::new(rt.alloc());
    writes(&rt, rt.alloc(), &disk, "out");
    called(&rt, &disk, IN_NO_PLACE);
}

/// The calls that write a pipe.
const PIPE: &str = "look d/pipe;ask d/pipe;empty d/pipe;write d/pipe;write d/pipe;sync d/pipe;";

#[test]
fn a_pipe(rt: HostRuntime) {
    let disk = disk_with(&rt, rt.alloc(), "d/pipe", Kind::Pipe, b"");
    writes(&rt, rt.alloc(), &disk, "d/pipe");
    called(&rt, &disk, PIPE);
}

/// A file in a folder where none can be made.
#[test]
fn in_a_closed_folder(rt: HostRuntime) {
    let disk = old(&rt, rt.alloc());
    disk.closed.set(Some(ErrorKind::PermissionDenied));
    writes(&rt, rt.alloc(), &disk, "d/out");
}

/// A file that no other can take the place of.
#[test]
fn fixed_in_its_place(rt: HostRuntime) {
    let disk = old(&rt, rt.alloc());
    disk.fixed.set(Some(ErrorKind::ResourceBusy));
    writes(&rt, rt.alloc(), &disk, "d/out");
    counts(&rt, &disk, 1);
}

#[test]
fn may_not_be_written(rt: HostRuntime) {
    let disk = disk_with(&rt, rt.alloc(), "d/out", Kind::Refused, b"old");
    let answer = write_parts(&disk, rt.alloc(), "d/out", ANY);
    equal(&rt, "a refusal", answer.is_err(), true);
    has(&rt, &disk, "d/out", b"old");
}
