//! The calls that the tests make of a disk in memory, and what they claim of it then. What a call
//! promises is left out: a test says what is answered, and proves nothing by it.

use crate::asserts::{equal, equal_at};
use crate::disk::{Desk, Disk, Kind};
use jk_files::{Refusal, Rules, SharedLock};
use std::alloc::Global;
use std::process::Abort;

/// An output that may replace everything.
pub(crate) const ANY: Rules<'static> = Rules {
    input: None,
    is_new: false,
};

/// An output that may replace nothing.
pub(crate) const NEW: Rules<'static> = Rules {
    input: None,
    is_new: true,
};

/// A disk with one thing under a path.
pub(crate) fn disk_with(
    rt: &impl Abort,
    alloc: Global,
    path: &str,
    kind: Kind,
    bytes: &[u8],
) -> Disk {
    let disk = Disk::new(alloc);
    put(rt, &disk, path, kind, bytes);
    disk
}

/// A disk with one old file.
pub(crate) fn old(rt: &impl Abort, alloc: Global) -> Disk {
    disk_with(rt, alloc, "d/out", Kind::File, b"old")
}

/// Puts something under a path of a disk.
pub(crate) fn put(rt: &impl Abort, disk: &Disk, path: &str, kind: Kind, bytes: &[u8]) {
    disk.put(path, kind, bytes).expect(rt, path);
}

/// A file has these bytes.
pub(crate) fn has(rt: &impl Abort, disk: &Disk, path: &str, bytes: &[u8]) {
    let found = disk.bytes(path).expect(rt, path);
    equal_at(rt, "a file", path, found.as_slice(), bytes);
}

/// These calls were made.
pub(crate) fn called(rt: &impl Abort, disk: &Disk, calls: &str) {
    let found = disk.calls().expect(rt, "calls");
    equal(rt, "calls", found.as_str(), calls);
}

/// So many paths have something.
pub(crate) fn counts(rt: &impl Abort, disk: &Disk, count: usize) {
    let found = disk.count().expect(rt, "paths");
    equal(rt, "paths", found, count);
}

pub(crate) fn write_new(
    disk: &Disk,
    alloc: Global,
    folder: &str,
    name: &str,
    bytes: &[u8],
) -> Result<(), Refusal> {
    jk_files::write_new(&Desk(disk), alloc, folder, name, bytes)
}

pub(crate) fn rename_new(
    disk: &Disk,
    alloc: Global,
    folder: &str,
    from: &str,
    to: &str,
) -> Result<bool, Refusal> {
    jk_files::rename_new(&Desk(disk), alloc, folder, from, to)
}

pub(crate) fn rename(
    disk: &Disk,
    alloc: Global,
    folder: &str,
    from: &str,
    to: &str,
) -> Result<(), Refusal> {
    jk_files::rename(&Desk(disk), alloc, folder, from, to)
}

pub(crate) fn replace_file(
    disk: &Disk,
    alloc: Global,
    path: &str,
    bytes: &[u8],
) -> Result<(), Refusal> {
    jk_files::replace_file(&Desk(disk), alloc, path, ANY, bytes)
}

pub(crate) fn read_file(disk: &Disk, alloc: Global, path: &str) -> Result<Vec<u8>, Refusal> {
    jk_files::read_file(&Desk(disk), alloc, path)
}

pub(crate) fn read_inside_at(
    disk: &Disk,
    alloc: Global,
    name: &str,
    start: u64,
    most: usize,
) -> Result<Vec<u8>, Refusal> {
    jk_files::read_inside_at(&Desk(disk), alloc, "d", name, start, most)
}

/// Whether the lock of a folder can't be had alone.
pub(crate) fn is_refused(disk: &Disk, alloc: Global) -> bool {
    jk_files::try_exclusive(&Desk(disk), alloc, "d").is_err()
}

/// What a try to share the lock of a folder gives.
pub(crate) fn shares(disk: &Disk, alloc: Global) -> &'static str {
    word(jk_files::try_shared(&Desk(disk), alloc, "d"))
}

/// What a lock that was asked for is.
fn lock_word<F>(lock: &SharedLock<F>) -> &'static str {
    match lock {
        SharedLock::Held(_) => "held",
        SharedLock::Taken => "taken",
        SharedLock::Unwritable => "unwritable",
    }
}

/// What a try to share a lock gave.
pub(crate) fn word<F: Drop>(answer: Result<SharedLock<F>, Refusal>) -> &'static str {
    match answer {
        Ok(lock) => lock_word(&lock),
        Err(_) => "refused",
    }
}
