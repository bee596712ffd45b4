//! Files that are written in parts beside a path, or not at all.

use crate::asserts::{equal, equal_at};
use crate::calls::{ANY, called, counts, disk_with, has, old};
use crate::disk::{Desk, Disk, Kind};
use crate::scratch::{folder, has_text, is_link, link, remove, within, write};
use jk_files::{Lockable, Ownable, Refusal, abandon_output, create_beside_output, finish_output};
use std::alloc::Global;
use std::fs::File;
use std::io::{ErrorKind, Write};
use std::process::{self, Abort};
use std::rt::Files;

/// Writes a file beside a path, which takes it where that is said. Whether a file was opened.
fn write_beside<R: Files>(
    rt: &R,
    alloc: Global,
    path: &str,
    is_whole: bool,
) -> Result<bool, Refusal>
where
    R::File: Lockable + Ownable,
{
    let Some(mut output) = create_beside_output(rt, alloc, path, ANY)? else {
        return Ok(false);
    };
    output.write_all(b"new")?;
    if is_whole {
        finish_output(rt, output)?;
    } else {
        abandon_output(rt, output);
    }
    Ok(true)
}

/// Writes a file beside a path of a disk, or opens none.
fn writes(rt: &impl Abort, alloc: Global, disk: &Disk, path: &str, is_whole: bool, opens: bool) {
    let answer = write_beside(&Desk(disk), alloc, path, is_whole).expect(rt, path);
    equal_at(rt, "a file beside a path", path, answer, opens);
}

#[test]
fn over_a_file(rt: HostRuntime) {
    let disk = old(&rt, rt.alloc());
    writes(&rt, rt.alloc(), &disk, "d/out", false, true);
    has(&rt, &disk, "d/out", b"old");
    counts(&rt, &disk, 1);
    writes(&rt, rt.alloc(), &disk, "d/out", true, true);
    has(&rt, &disk, "d/out", b"new");
    counts(&rt, &disk, 1);
}

#[test]
fn where_nothing_is(rt: HostRuntime) {
    let disk = Disk::new(rt.alloc());
    writes(&rt, rt.alloc(), &disk, "out", false, true);
    counts(&rt, &disk, 0);
    writes(&rt, rt.alloc(), &disk, "out", true, true);
    has(&rt, &disk, "out", b"new");
    counts(&rt, &disk, 1);
}

/// What has a path of a disk is asked for by these calls, and left alone.
fn is_left(rt: &impl Abort, alloc: Global, disk: &Disk, calls: &str) {
    writes(rt, alloc, disk, "d/out", true, false);
    called(rt, disk, calls);
    has(rt, disk, "d/out", b"old");
    counts(rt, disk, 1);
}

/// Kinds that no file takes the place of, and the calls that find them.
static OTHERS: [(Kind, &str); 4] = [
    (Kind::Folder, "look d/out;"),
    (Kind::Pipe, "look d/out;ask d/out;"),
    (Kind::Adrift, "look d/out;ask d/out;"),
    (Kind::Loop, "look d/out;ask d/out;"),
];

/// What is of a kind has a path of a disk, is asked for by these calls, and left alone.
fn other_is_left(rt: &impl Abort, alloc: Global, kind: Kind, calls: &str) {
    let disk = disk_with(rt, alloc, "d/out", kind, b"old");
    is_left(rt, alloc, &disk, calls);
}

#[test]
fn where_no_file_is(rt: HostRuntime) {
    for (kind, calls) in &OTHERS {
        other_is_left(&rt, rt.alloc(), *kind, *calls);
    }
}

/// Why a folder takes no new file.
static REASONS: [ErrorKind; 3] = [
    ErrorKind::PermissionDenied,
    ErrorKind::ReadOnlyFilesystem,
    ErrorKind::ResourceBusy,
];

/// The calls that find a folder that takes no new file.
const CLOSED: &str = "look d/out;open d/out;look d/.jk-tmp-0;look d/.jk-tmp-1;look d/.jk-tmp-2;\
    make d/.jk-tmp-0;";

/// A file of a folder that takes no new one, for this reason, is left alone.
fn in_closed(rt: &impl Abort, alloc: Global, reason: ErrorKind) {
    let disk = old(rt, alloc);
    disk.closed.set(Some(reason));
    is_left(rt, alloc, &disk, CLOSED);
}

#[test]
fn in_a_closed_folder(rt: HostRuntime) {
    for reason in &REASONS {
        in_closed(&rt, rt.alloc(), *reason);
    }
}

/// Whether no file can be opened beside one of a disk, for a reason that is told.
fn is_refused(disk: &Disk, alloc: Global) -> bool {
    create_beside_output(&Desk(disk), alloc, "d/out", ANY).is_err()
}

/// Where a call fails for another reason, that is answered, and what was there stays.
fn fails_at(rt: &impl Abort, alloc: Global, call: u64) {
    let disk = old(rt, alloc);
    disk.fails_at.set(call);
    equal_at(rt, "a refusal", call, is_refused(&disk, alloc), true);
    has(rt, &disk, "d/out", b"old");
    counts(rt, &disk, 1);
}

#[test]
fn failing_at_each_call(rt: HostRuntime) {
    // To look, to open, to make, to look at what was made, to allow. A look for left files that fails,
    // or a lock, is no failure.
    for call in &[1, 2, 6, 8, 9] {
        fails_at(&rt, rt.alloc(), *call);
    }
}

/// Writes a file beside a path of the system, which takes it. Whether a file was opened.
fn is_written<R: Files<File = File> + Abort>(rt: &R, alloc: Global, path: &str) -> bool {
    write_beside(rt, alloc, path, true).expect(rt, path)
}

/// Whether files were opened beside a link to a file, a link that leads nowhere and a device; whether
/// the link stays; and whether the file has the new text.
fn written<R: Files<File = File> + Abort>(rt: &R, alloc: Global, folder: &str) -> [bool; 5] {
    let file = within(rt, alloc, folder, "out");
    let linked = within(rt, alloc, folder, "link");
    let adrift = within(rt, alloc, folder, "adrift");
    write(rt, file.as_str(), b"old");
    link(rt, "out", linked.as_str());
    link(rt, "none", adrift.as_str());
    [
        is_written(rt, alloc, linked.as_str()),
        is_written(rt, alloc, adrift.as_str()),
        is_written(rt, alloc, "/dev/null"),
        is_link(rt, linked.as_str()),
        has_text(rt, alloc, file.as_str(), "new"),
    ]
}

/// A file of the system is replaced through a link, which stays; nothing is opened beside a link
/// that leads nowhere, nor beside a device.
#[test]
fn of_the_system(rt: HostRuntime) {
    let path = folder(&rt, rt.alloc(), process::id(rt.process()), "beside");
    let found = written(&rt, rt.alloc(), path.as_str());
    remove(&rt, rt.alloc(), path.as_str());
    let due = [true, false, false, true, true];
    equal(&rt, "files beside, the link and the file", found, due);
}
