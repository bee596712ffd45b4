//! The lock of a folder.

use crate::asserts::{equal, equal_at};
use crate::calls::{disk_with, is_refused, put, shares, word};
use crate::disk::{Desk, Disk, Kind};
use crate::scratch::{folder, remove};
use jk_files::{try_exclusive, try_shared, wait_exclusive};
use std::alloc::Global;
use std::cell::Cell;
use std::fs::File;
use std::io::ErrorKind;
use std::process::{self, Abort};
use std::rt::{Clock, Files};

/// Whether a folder's lock can be taken.
fn is_free<R: Files<File = File> + Abort>(rt: &R, alloc: Global, path: &str) -> bool {
    let lock = try_exclusive(rt, alloc, path);
    lock.expect(rt, "a lock").is_some()
}

/// Whether a folder's lock can be taken, and what a try to share it gives.
fn tries<R: Files<File = File> + Abort>(rt: &R, alloc: Global, path: &str) -> (bool, &'static str) {
    let held = is_free(rt, alloc, path);
    (held, word(try_shared(rt, alloc, path)))
}

/// The same while the lock is held alone.
fn while_alone<R: Files<File = File> + Abort>(
    rt: &R,
    alloc: Global,
    path: &str,
) -> (bool, &'static str) {
    let alone = try_exclusive(rt, alloc, path).expect(rt, "a lock");
    let answers = tries(rt, alloc, path);
    drop(alone);
    answers
}

/// The same while the lock is shared.
fn while_shared<R: Files<File = File> + Abort>(
    rt: &R,
    alloc: Global,
    path: &str,
) -> (bool, &'static str) {
    let shared = try_shared(rt, alloc, path).expect(rt, "a lock");
    let answers = tries(rt, alloc, path);
    drop(shared);
    answers
}

/// The same while the lock is held that was waited for.
fn while_waited<R: Files<File = File> + Clock + Abort>(
    rt: &R,
    alloc: Global,
    path: &str,
) -> (bool, &'static str) {
    let waited = wait_exclusive(rt, alloc, path, || ()).expect(rt, "a lock");
    let answers = tries(rt, alloc, path);
    drop(waited);
    answers
}

#[test]
fn of_the_system(rt: HostRuntime) {
    let alloc = rt.alloc();
    let path = folder(&rt, alloc, process::id(rt.process()), "locking");
    let alone = while_alone(&rt, alloc, path.as_str());
    let shared = while_shared(&rt, alloc, path.as_str());
    let at_last = tries(&rt, alloc, path.as_str());
    let waited = while_waited(&rt, alloc, path.as_str());
    remove(&rt, alloc, path.as_str());
    equal(&rt, "while it is held alone", alone, (false, "taken"));
    equal(&rt, "while it is shared", shared, (false, "held"));
    equal(&rt, "while it is free", at_last, (true, "held"));
    equal(&rt, "while it was waited for", waited, (false, "taken"));
}

/// Whether the lock of a disk's folder is had that is waited for, and whether that is told.
fn waited(disk: &Disk, alloc: Global) -> (bool, u64) {
    let calls = Cell::new(0);
    let answer = wait_exclusive(&Desk(disk), alloc, "d", || calls.set(1));
    (answer.is_ok(), calls.get())
}

/// How often a lock is found taken, whether it is had, how often that is told, and how often is slept.
fn waits(rt: &impl Abort, alloc: Global, taken: u64, held: bool, told: u64, sleeps: u64) {
    let disk = Disk::new(alloc);
    disk.taken.set(taken);
    let found = waited(&disk, alloc);
    let due = ((held, told), sleeps);
    equal_at(
        rt,
        "a lock, calls and pauses",
        taken,
        (found, disk.sleeps.get()),
        due,
    );
}

#[test]
fn waiting(rt: HostRuntime) {
    // Free at once; free after three pauses; free after the last; never free in time.
    waits(&rt, rt.alloc(), 0, true, 0, 0);
    waits(&rt, rt.alloc(), 3, true, 1, 3);
    waits(&rt, rt.alloc(), 200, true, 1, 200);
    waits(&rt, rt.alloc(), 201, false, 1, 200);
}

/// What a try to share gives where no file can be made for this reason, and where one is there.
fn closed(rt: &impl Abort, alloc: Global, reason: ErrorKind, due: &str) {
    let disk = Disk::new(alloc);
    disk.closed.set(Some(reason));
    let found = (shares(&disk, alloc), is_refused(&disk, alloc));
    put(rt, &disk, "d/.lock", Kind::File, b"");
    let both = (found, shares(&disk, alloc));
    equal_at(rt, "a lock", reason, both, ((due, true), "held"));
}

#[test]
fn where_no_file_can_be_made(rt: HostRuntime) {
    closed(&rt, rt.alloc(), ErrorKind::PermissionDenied, "unwritable");
    closed(&rt, rt.alloc(), ErrorKind::ReadOnlyFilesystem, "unwritable");
    closed(&rt, rt.alloc(), ErrorKind::StorageFull, "refused");
}

/// Where no regular file is, no lock is taken.
fn no_lock(rt: &impl Abort, alloc: Global, kind: Kind) {
    let disk = disk_with(rt, alloc, "d/.lock", kind, b"");
    let found = (shares(&disk, alloc), is_refused(&disk, alloc));
    equal_at(rt, "a lock", kind, found, ("refused", true));
}

#[test]
fn no_regular_lock(rt: HostRuntime) {
    no_lock(&rt, rt.alloc(), Kind::Pipe);
    no_lock(&rt, rt.alloc(), Kind::Folder);
    no_lock(&rt, rt.alloc(), Kind::Refused);
}
