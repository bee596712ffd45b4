//! What is listed of a folder.

use crate::asserts::{equal, equal_at};
use crate::calls::put;
use crate::disk::{Desk, Disk, Kind};
use crate::scratch::{folder, link, remove, within, write};
use jk_files::{Listing, list};
use std::alloc::Global;
use std::fs;
use std::process::{self, Abort};
use std::rt::Files;
use vectors::Told;

/// The names of files, and of others with what was said, in one text.
fn told(rt: &impl Abort, alloc: Global, listing: &Listing) -> String {
    let mut told = Told::new(alloc);
    for name in listing.files.iter() {
        told.word(name.as_str());
        told.word(" ");
    }
    for other in listing.others.iter() {
        told.word("|");
        told.word(other.name.as_str());
        told.word(" ");
        told.shown(&other.said.kind());
    }
    told.end().expect(rt, "a text")
}

/// One thing of each kind.
static ALL: [(&str, Kind); 9] = [
    ("d/file.jp2", Kind::File),
    ("d/folder.jp2", Kind::Folder),
    ("d/pipe.jp2", Kind::Pipe),
    ("d/refused.jp2", Kind::Refused),
    ("d/gone.jp2", Kind::Gone),
    ("d/adrift.jp2", Kind::Adrift),
    ("d/loop.jp2", Kind::Loop),
    ("d/pipe.txt", Kind::Pipe),
    ("d/last.jp2", Kind::File),
];

/// A folder with one thing of each kind.
fn folder_of_all(rt: &impl Abort, alloc: Global) -> Disk {
    let disk = Disk::new(alloc);
    for (path, kind) in &ALL {
        put(rt, &disk, *path, *kind, b"");
    }
    disk
}

/// What is told of it.
const ONE_OF_EACH: &str = "file.jp2 last.jp2 |folder.jp2 IsADirectory|pipe.jp2 InvalidInput\
    |refused.jp2 PermissionDenied|adrift.jp2 NotFound|loop.jp2 FilesystemLoop";

/// What is told of the files of a disk's folder whose names end so.
fn told_of(rt: &impl Abort, alloc: Global, disk: &Disk) -> String {
    let listing = list(&Desk(disk), alloc, "d", |name| name.ends_with(".jp2"));
    told(rt, alloc, &listing.expect(rt, "a folder"))
}

/// No call of a disk has a word.
fn lacks(rt: &impl Abort, calls: &str, word: &str) {
    equal_at(rt, "calls", (calls, word), calls.contains(word), false);
}

#[test]
fn one_of_each(rt: HostRuntime) {
    let disk = folder_of_all(&rt, rt.alloc());
    let text = told_of(&rt, rt.alloc(), &disk);
    equal(&rt, "a folder", text.as_str(), ONE_OF_EACH);
    let calls = disk.calls().expect(&rt, "calls");
    lacks(&rt, calls.as_str(), "open d/pipe");
    lacks(&rt, calls.as_str(), ".txt");
}

/// Whether a folder of the system can't be listed.
fn is_unreadable<R: Files>(rt: &R, alloc: Global, path: &str) -> bool {
    list(rt, alloc, path, |_| true).is_err()
}

#[test]
fn unreadable(rt: HostRuntime) {
    let disk = folder_of_all(&rt, rt.alloc());
    disk.fails_at.set(1);
    let found = [
        is_unreadable(&Desk(&disk), rt.alloc(), "d"),
        is_unreadable(&rt, rt.alloc(), "/nowhere/at/all"),
        is_unreadable(&rt, rt.alloc(), "/etc/hostname"),
    ];
    equal(
        &rt,
        "a folder of the disk, no folder and a file",
        found,
        [true, true, true],
    );
}

/// Makes a folder, a link to it, and in it a file, a link to that and a link to itself.
fn make_inner<R: Files + Abort>(rt: &R, alloc: Global, inner: &str, linked: &str) {
    fs::create_dir(rt, inner).expect(rt, inner);
    link(rt, "inner", linked);
    write(rt, within(rt, alloc, inner, "a").as_str(), b"");
    link(rt, "a", within(rt, alloc, inner, "b").as_str());
    link(rt, "c", within(rt, alloc, inner, "c").as_str());
}

/// What is told of a folder, with the files sorted.
fn sorted<R: Files + Abort>(rt: &R, alloc: Global, path: &str) -> String {
    let mut listing = list(rt, alloc, path, |_| true).expect(rt, path);
    listing.files.sort().expect(rt, "a list");
    told(rt, alloc, &listing)
}

/// What is told of the inner folder by a path.
fn is_inner<R: Files + Abort>(rt: &R, alloc: Global, path: &str) {
    let text = sorted(rt, alloc, path);
    equal_at(rt, "a folder", path, text.as_str(), "a b |c FilesystemLoop");
}

/// The inner folder of a folder is told, by its path, by that of a link to it, and behind the link.
fn are_inner<R: Files + Abort>(rt: &R, alloc: Global, folder: &str) {
    let inner = within(rt, alloc, folder, "inner");
    let linked = within(rt, alloc, folder, "link");
    make_inner(rt, alloc, inner.as_str(), linked.as_str());
    is_inner(rt, alloc, inner.as_str());
    is_inner(rt, alloc, linked.as_str());
    is_inner(rt, alloc, within(rt, alloc, linked.as_str(), "").as_str());
}

#[test]
fn of_the_system(rt: HostRuntime) {
    let path = folder(&rt, rt.alloc(), process::id(rt.process()), "listing");
    are_inner(&rt, rt.alloc(), path.as_str());
    remove(&rt, rt.alloc(), path.as_str());
}
