//! In which order files are written and renamed, and what is left alone.

use crate::asserts::{equal, equal_at};
use crate::calls::{called, counts, disk_with, has, put, rename, rename_new, write_new};
use crate::disk::{Disk, Kind};
use crate::scratch::{folder, has_text, is_link, link, remove, within, write};
use jk_files::is_file_name;
use std::alloc::Global;
use std::fs;
use std::process::{self, Abort};
use std::rt::Files;

#[test]
fn in_order(rt: HostRuntime) {
    let disk = Disk::new(rt.alloc());
    write_new(&disk, rt.alloc(), "d", "a", b"one").expect(&rt, "a file");
    rename(&disk, rt.alloc(), "d", "a", "b").expect(&rt, "a name");
    called(
        &rt,
        &disk,
        "make d/a;write d/a;sync d/a;open d/;rename d/a;sync d/;",
    );
    has(&rt, &disk, "d/b", b"one");
}

#[test]
fn over_what_is_left(rt: HostRuntime) {
    let disk = disk_with(&rt, rt.alloc(), "d/a", Kind::Pipe, b"left");
    disk.piece.set(2);
    write_new(&disk, rt.alloc(), "d/", "a", b"one").expect(&rt, "a file");
    called(
        &rt,
        &disk,
        "make d/a;remove d/a;make d/a;write d/a;write d/a;sync d/a;",
    );
    has(&rt, &disk, "d/a", b"one");
}

/// No new file is written where a call fails, and nothing of it is left.
fn writing_fails_at(rt: &impl Abort, alloc: Global, call: u64) {
    let disk = Disk::new(alloc);
    disk.piece.set(2);
    disk.fails_at.set(call);
    let answer = write_new(&disk, alloc, "d", "a", b"one");
    equal_at(rt, "a refusal", call, answer.is_err(), true);
    counts(rt, &disk, 0);
}

/// No file is renamed where a call fails.
fn renaming_fails_at(rt: &impl Abort, alloc: Global, call: u64) {
    let disk = disk_with(rt, alloc, "d/a", Kind::File, b"");
    disk.fails_at.set(call);
    let answer = rename(&disk, alloc, "d", "a", "b");
    equal_at(rt, "a refusal", call, answer.is_err(), true);
}

#[test]
fn failing(rt: HostRuntime) {
    // To make the file, to write it twice, to have it stored.
    for call in 1..5 {
        writing_fails_at(&rt, rt.alloc(), call);
    }
    // To open the folder, to rename, to have the folder stored.
    for call in 1..4 {
        renaming_fails_at(&rt, rt.alloc(), call);
    }
}

/// A file gets a name that nothing has, by these calls.
fn is_placed(rt: &impl Abort, alloc: Global, linkless: bool, calls: &str) {
    let disk = disk_with(rt, alloc, "d/a", Kind::File, b"one");
    disk.linkless.set(linkless);
    let answer = rename_new(&disk, alloc, "d", "a", "b").expect(rt, "a name");
    equal_at(rt, "a new name", linkless, answer, true);
    called(rt, &disk, calls);
    has(rt, &disk, "d/b", b"one");
    counts(rt, &disk, 1);
}

#[test]
fn to_a_new_name(rt: HostRuntime) {
    let linked = "open d/;link d/a;remove d/a;sync d/;";
    is_placed(&rt, rt.alloc(), false, linked);
    let reserved = "open d/;link d/a;make d/b;rename d/a;sync d/;";
    is_placed(&rt, rt.alloc(), true, reserved);
}

/// What has the name stays, and the file that was to have it is removed.
fn is_not_placed(rt: &impl Abort, alloc: Global, linkless: bool) {
    let disk = disk_with(rt, alloc, "d/a", Kind::File, b"one");
    put(rt, &disk, "d/b", Kind::File, b"came");
    disk.linkless.set(linkless);
    let answer = rename_new(&disk, alloc, "d", "a", "b").expect(rt, "a name");
    equal_at(rt, "a new name", linkless, answer, false);
    has(rt, &disk, "d/b", b"came");
    counts(rt, &disk, 1);
}

#[test]
fn to_a_taken_name(rt: HostRuntime) {
    is_not_placed(&rt, rt.alloc(), false);
    is_not_placed(&rt, rt.alloc(), true);
    // Its own name is taken too, by itself.
    let disk = disk_with(&rt, rt.alloc(), "d/a", Kind::File, b"one");
    let answer = rename_new(&disk, rt.alloc(), "d", "a", "a").expect(&rt, "a name");
    equal(&rt, "a new name", answer, false);
    has(&rt, &disk, "d/a", b"one");
}

/// Where a call fails, the file doesn't get the name, and is removed.
fn placing_fails_at(rt: &impl Abort, alloc: Global, linkless: bool, call: u64) {
    let disk = disk_with(rt, alloc, "d/a", Kind::File, b"one");
    disk.linkless.set(linkless);
    disk.fails_at.set(call);
    let answer = rename_new(&disk, alloc, "d", "a", "b");
    equal_at(rt, "a refusal", call, answer.is_err(), true);
    counts(rt, &disk, 0);
}

#[test]
fn failing_to_a_new_name(rt: HostRuntime) {
    // To open the folder, to link; or where no file is linked, to reserve the name, and to rename.
    for call in &[1, 2] {
        placing_fails_at(&rt, rt.alloc(), false, *call);
    }
    for call in &[3, 4] {
        placing_fails_at(&rt, rt.alloc(), true, *call);
    }
}

#[test]
fn where_no_folder_is_stored(rt: HostRuntime) {
    let disk = Disk::new(rt.alloc());
    disk.unstored.set(true);
    write_new(&disk, rt.alloc(), "d", "a", b"one").expect(&rt, "a file");
    rename(&disk, rt.alloc(), "d", "a", "b").expect(&rt, "a name");
    has(&rt, &disk, "d/b", b"one");
}

/// Names, and whether a file inside a folder may have them.
static NAMES: [(&str, bool); 9] = [
    ("a", true),
    (".lock", true),
    ("...", true),
    ("", false),
    (".", false),
    ("..", false),
    ("../a", false),
    ("/", false),
    ("a/", false),
];

/// Whether a name is a file's, and a file is written under it, renamed from it, and to it.
fn takes(rt: &impl Abort, disk: &Disk, alloc: Global, name: &str, good: bool) {
    let found = [
        is_file_name(name),
        write_new(disk, alloc, "d", name, b"").is_ok(),
        rename(disk, alloc, "d", name, "z").is_ok(),
        rename(disk, alloc, "d", "z", name).is_ok(),
    ];
    let due = [good, good, good, good];
    equal_at(
        rt,
        "a name, a new file, an old and a new name",
        name,
        found,
        due,
    );
}

#[test]
fn names(rt: HostRuntime) {
    let disk = Disk::new(rt.alloc());
    for (name, good) in &NAMES {
        takes(&rt, &disk, rt.alloc(), *name, *good);
    }
}

/// Writes a new file where a link to another one is. Whether it is a link then.
fn write_over_link<R: Files + Abort>(rt: &R, alloc: Global, folder: &str, victim: &str) -> bool {
    let new = within(rt, alloc, folder, "a.tmp");
    write(rt, victim, b"kept");
    link(rt, "victim", new.as_str());
    jk_files::write_new(rt, alloc, folder, "a.tmp", b"new").expect(rt, "a file");
    is_link(rt, new.as_str())
}

/// Renames the new file to the other one. Whether it still has its name.
fn rename_over<R: Files + Abort>(rt: &R, alloc: Global, folder: &str) -> bool {
    jk_files::rename(rt, alloc, folder, "a.tmp", "victim").expect(rt, "a name");
    let new = within(rt, alloc, folder, "a.tmp");
    fs::exists(rt, new.as_str()).expect(rt, "a name")
}

/// Writes over a link in a folder, and renames over what it led to. Whether the new file is a link,
/// whether it still has its name, and whether the other file was kept, and was replaced then.
fn written<R: Files + Abort>(rt: &R, alloc: Global, folder: &str) -> (bool, bool, bool, bool) {
    let victim = within(rt, alloc, folder, "victim");
    let is_link = write_over_link(rt, alloc, folder, victim.as_str());
    let is_kept = has_text(rt, alloc, victim.as_str(), "kept");
    let exists = rename_over(rt, alloc, folder);
    let is_new = has_text(rt, alloc, victim.as_str(), "new");
    (is_link, exists, is_kept, is_new)
}

#[test]
fn of_the_system(rt: HostRuntime) {
    let path = folder(&rt, rt.alloc(), process::id(rt.process()), "writing");
    let found = written(&rt, rt.alloc(), path.as_str());
    remove(&rt, rt.alloc(), path.as_str());
    let due = (false, false, true, true);
    equal(
        &rt,
        "a link, the new file, and the other file twice",
        found,
        due,
    );
}
