//! Files that are replaced as a whole.

use crate::asserts::{equal, equal_at};
use crate::calls::{ANY, called, counts, disk_with, has, old, put, replace_file};
use crate::disk::{Disk, Kind};
use crate::scratch::{folder, is_link, link, remove, within};
use jk_files::{list, read_file};
use std::alloc::Global;
use std::fs::{self, File, Permissions};
use std::io::ErrorKind;
use std::os::unix::fs::PermissionsExt;
use std::process::{self, Abort};
use std::rt::Files;

/// The calls that replace a file.
const IN_ORDER: &str = "look d/out;open d/out;\
    look d/.jk-tmp-0;look d/.jk-tmp-1;look d/.jk-tmp-2;\
    make d/.jk-tmp-0;lock d/.jk-tmp-0;look d/.jk-tmp-0;allow d/.jk-tmp-0;\
    write d/.jk-tmp-0;sync d/.jk-tmp-0;open d/;rename d/.jk-tmp-0;sync d/;";

/// Replaces a file by a new one.
fn replace(rt: &impl Abort, disk: &Disk, alloc: Global, path: &str) {
    replace_file(disk, alloc, path, b"new").expect(rt, path);
}

#[test]
fn in_order(rt: HostRuntime) {
    let disk = old(&rt, rt.alloc());
    replace(&rt, &disk, rt.alloc(), "d/out");
    called(&rt, &disk, IN_ORDER);
    has(&rt, &disk, "d/out", b"new");
}

/// Where a call fails, the old file stays, and nothing beside it.
fn fails_at(rt: &impl Abort, alloc: Global, call: u64) {
    let disk = old(rt, alloc);
    disk.piece.set(2);
    disk.fails_at.set(call);
    let answer = replace_file(&disk, alloc, "d/out", b"new");
    equal_at(rt, "a refusal", call, answer.is_err(), true);
    has(rt, &disk, "d/out", b"old");
    counts(rt, &disk, 1);
}

#[test]
fn failing_at_each_call(rt: HostRuntime) {
    // To look, to open, to make, to look at what was made, to allow, to write twice, to store the
    // file, to open the folder, to rename.
    for call in &[1, 2, 6, 8, 9, 10, 11, 12, 13, 14] {
        fails_at(&rt, rt.alloc(), *call);
    }
}

/// A file is written where none is, by these calls.
fn is_new(rt: &impl Abort, alloc: Global, path: &str, calls: &str) {
    let disk = Disk::new(alloc);
    replace(rt, &disk, alloc, path);
    called(rt, &disk, calls);
    has(rt, &disk, path, b"new");
}

#[test]
fn where_nothing_is(rt: HostRuntime) {
    is_new(
        &rt,
        rt.alloc(),
        "out",
        "look out;look ./.jk-tmp-0;look ./.jk-tmp-1;look ./.jk-tmp-2;\
            make ./.jk-tmp-0;lock ./.jk-tmp-0;look ./.jk-tmp-0;\
            write ./.jk-tmp-0;sync ./.jk-tmp-0;open ./;rename ./.jk-tmp-0;sync ./;",
    );
    is_new(
        &rt,
        rt.alloc(),
        "/out",
        "look /out;look /.jk-tmp-0;look /.jk-tmp-1;look /.jk-tmp-2;\
            make /.jk-tmp-0;lock /.jk-tmp-0;look /.jk-tmp-0;\
            write /.jk-tmp-0;sync /.jk-tmp-0;open /;rename /.jk-tmp-0;sync /;",
    );
}

/// A file in a folder where none can be made, for this reason.
fn in_closed(rt: &impl Abort, alloc: Global, reason: ErrorKind) {
    let disk = old(rt, alloc);
    disk.closed.set(Some(reason));
    replace(rt, &disk, alloc, "d/out");
    has(rt, &disk, "d/out", b"new");
}

#[test]
fn as_it_is(rt: HostRuntime) {
    // A pipe, and a file in a folder where none can be made.
    let disk = disk_with(&rt, rt.alloc(), "d/pipe", Kind::Pipe, b"");
    replace(&rt, &disk, rt.alloc(), "d/pipe");
    called(
        &rt,
        &disk,
        "look d/pipe;ask d/pipe;empty d/pipe;write d/pipe;sync d/pipe;",
    );
    has(&rt, &disk, "d/pipe", b"new");
    in_closed(&rt, rt.alloc(), ErrorKind::PermissionDenied);
    in_closed(&rt, rt.alloc(), ErrorKind::ReadOnlyFilesystem);
}

#[test]
fn may_not_be_written(rt: HostRuntime) {
    let disk = disk_with(&rt, rt.alloc(), "d/out", Kind::Refused, b"old");
    let answer = replace_file(&disk, rt.alloc(), "d/out", b"new");
    equal(&rt, "a refusal", answer.is_err(), true);
    has(&rt, &disk, "d/out", b"old");
}

/// Replaces a file of the system.
fn replace_in_system<R: Files<File = File> + Abort>(
    rt: &R,
    alloc: Global,
    path: &str,
    bytes: &[u8],
) {
    jk_files::replace_file(rt, alloc, path, ANY, bytes).expect(rt, path);
}

/// Reads a file of the system.
fn read_in_system<R: Files + Abort>(rt: &R, alloc: Global, path: &str) -> Vec<u8> {
    read_file(rt, alloc, path).expect(rt, path)
}

/// Whether a file of the system has these bytes.
fn is_in_system<R: Files + Abort>(rt: &R, alloc: Global, path: &str, bytes: &[u8]) -> bool {
    read_in_system(rt, alloc, path).as_slice() == bytes
}

/// Replaces a file, and then again through a link to it. Whether the first one was read through the
/// link in between.
fn replace_twice<R: Files<File = File> + Abort>(
    rt: &R,
    alloc: Global,
    file: &str,
    linked: &str,
) -> bool {
    replace_in_system(rt, alloc, file, b"one");
    fs::set_permissions(rt, file, Permissions::from_mode(0o600)).expect(rt, file);
    link(rt, "out", linked);
    let is_first = is_in_system(rt, alloc, linked, b"one");
    replace_in_system(rt, alloc, linked, b"two");
    is_first
}

/// Replaces a file by what is read of it. Whether the second one is read then.
fn replace_by_itself<R: Files<File = File> + Abort>(rt: &R, alloc: Global, file: &str) -> bool {
    let bytes = read_in_system(rt, alloc, file);
    replace_in_system(rt, alloc, file, &bytes);
    is_in_system(rt, alloc, file, b"two")
}

/// How many files and how many others a folder has.
fn counted<R: Files + Abort>(rt: &R, alloc: Global, path: &str) -> (usize, usize) {
    let listing = list(rt, alloc, path, |_| true).expect(rt, path);
    (listing.files.len(), listing.others.len())
}

/// The mode of a file.
fn mode<R: Files + Abort>(rt: &R, file: &str) -> u32 {
    rt.metadata(file).expect(rt, file).permissions().mode() & 0o777
}

/// Replaces a file of a folder. Whether it was read as the first and the second one, whether the link
/// stays, the file's mode, and what the folder has.
fn replaced<R: Files<File = File> + Abort>(
    rt: &R,
    alloc: Global,
    folder: &str,
) -> ((bool, bool), (bool, u32), (usize, usize)) {
    let file = within(rt, alloc, folder, "out");
    let linked = within(rt, alloc, folder, "link");
    let first = replace_twice(rt, alloc, file.as_str(), linked.as_str());
    let second = replace_by_itself(rt, alloc, file.as_str());
    let kinds = (is_link(rt, linked.as_str()), mode(rt, file.as_str()));
    ((first, second), kinds, counted(rt, alloc, folder))
}

#[test]
fn of_the_system(rt: HostRuntime) {
    let path = folder(&rt, rt.alloc(), process::id(rt.process()), "replacing");
    let found = replaced(&rt, rt.alloc(), path.as_str());
    remove(&rt, rt.alloc(), path.as_str());
    let due = ((true, true), (true, 0o600), (2, 0));
    equal(
        &rt,
        "both files, a link, a mode, and files and others",
        found,
        due,
    );
}

#[test]
fn a_device(rt: HostRuntime) {
    replace_in_system(&rt, rt.alloc(), "/dev/null", b"nothing");
}
