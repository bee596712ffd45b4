//! Archives of real files.

use crate::asserts::{equal, equal_at};
use crate::calls::{
    add, bytes, is_page, joined, listed, open, opened, read, rename, skipped, view, whole, window,
    write,
};
use crate::contents::Content;
use jk_math::Fault;
use jk_store::{Archive, Folder, Shelf};
use std::alloc::Global;
use std::fs;
use std::process::{self, Abort};
use std::rt::Files;
use vectors::Told;

/// A new directory for a test, whose process has this number.
fn directory<R: Files + Abort>(rt: &R, alloc: Global, number: u32, test: &str) -> String {
    let path = format!(in alloc; "jk_rows_store_{test}_{number}").expect(rt, "a path");
    fs::create_dir(rt, path.as_str()).expect(rt, "a directory");
    path
}

/// The path of something in a directory.
fn within(rt: &impl Abort, alloc: Global, path: &str, name: &str) -> String {
    format!(in alloc; "{path}/{name}").expect(rt, "a path")
}

/// Puts a file into a directory.
fn put<R: Files + Abort>(rt: &R, alloc: Global, path: &str, name: &str, content: Content) {
    let file = bytes(rt, alloc, content);
    let path = within(rt, alloc, path, name);
    fs::write(rt, path.as_str(), file.as_slice()).expect(rt, name);
}

/// Removes a directory and all in it.
fn remove<R: Files + Abort>(rt: &R, alloc: Global, path: &str) {
    rt.remove_dir_all(alloc, path).expect(rt, path);
}

/// The shelf of a directory.
fn folder_in<R: Files + Abort + Copy + Drop>(rt: R, alloc: Global, path: &str) -> Folder<R> {
    Folder::new(rt, alloc, path).expect(&rt, "a shelf")
}

/// The archive of a directory.
fn archive_in<R: Files + Abort + Copy + Drop>(
    rt: R,
    alloc: Global,
    path: &str,
) -> Archive<Folder<R>> {
    open(&rt, alloc, folder_in(rt, alloc, path))
}

/// Adds two images to an empty directory, whose names are then listed.
fn add_two<R: Files + Abort + Copy + Drop>(rt: R, alloc: Global, path: &str) -> String {
    let mut archive = archive_in(rt, alloc, path);
    add(&rt, &mut archive, alloc, "b", 127);
    add(&rt, &mut archive, alloc, "a", 128);
    listed(&rt, &archive, alloc)
}

/// The names of what isn't a file that can be opened, and those of files that were left while they
/// were written.
fn told<R: Files + Abort + Drop>(rt: &R, alloc: Global, folder: &Folder<R>) -> String {
    let mut told = Told::new(alloc);
    for other in folder.others() {
        told.word(other.name.as_str());
        told.word(";");
    }
    for name in folder.left() {
        told.word(name.as_str());
        told.word(";");
    }
    told.end().expect(rt, "names")
}

/// Puts other files and a directory beside the images.
fn put_others<R: Files + Abort>(rt: &R, alloc: Global, path: &str) {
    put(rt, alloc, path, "c.jp2", Content::Bare);
    put(rt, alloc, path, "x.txt", Content::Page);
    put(rt, alloc, path, "y.tmp", Content::Page);
    put(rt, alloc, path, "Z.tmp", Content::Page);
    put(rt, alloc, path, "B.jp2", Content::Page);
    let inner = within(rt, alloc, path, "d.jp2");
    fs::create_dir(rt, inner.as_str()).expect(rt, "a directory");
}

/// Which of these names have something that can't be opened as a file.
fn taken<R: Files + Abort + Drop>(rt: &R, alloc: Global, folder: &Folder<R>) -> String {
    let mut taken = Told::new(alloc);
    for name in ["a", "d", "d.jp2", "y"] {
        if folder.has_other(name) {
            taken.word(name);
            taken.word(";");
        }
    }
    taken.end().expect(rt, "names")
}

/// What is listed of a directory, what is skipped and what is told.
fn seen_in<R: Files + Abort + Copy + Drop>(rt: R, alloc: Global, path: &str) -> String {
    let archive = archive_in(rt, alloc, path);
    let names = listed(&rt, &archive, alloc);
    let others = skipped(&rt, &archive, alloc);
    let told = told(&rt, alloc, archive.shelf());
    let taken = taken(&rt, alloc, archive.shelf());
    let texts = [
        names.as_str(),
        others.as_str(),
        told.as_str(),
        taken.as_str(),
    ];
    joined(&rt, alloc, &texts)
}

/// Whether the JP2 file of one sample is given: as a file, as a window, after the file was changed,
/// and after all files were removed; and how many calls failed.
fn read_four<R: Files + Abort + Copy + Drop>(
    rt: R,
    alloc: Global,
    path: &str,
) -> ([Result<bool, Fault>; 4], u64) {
    let mut archive = archive_in(rt, alloc, path);
    let file = is_page(&rt, alloc, whole(&mut archive, alloc, "a"));
    let cut = is_page(&rt, alloc, window(&mut archive, alloc, "a", view(0, 1)));
    put(&rt, alloc, path, "a.jp2", Content::Byte);
    let changed = is_page(&rt, alloc, whole(&mut archive, alloc, "a"));
    remove(&rt, alloc, path);
    let removed = is_page(&rt, alloc, whole(&mut archive, alloc, "a"));
    let answers = [file, cut, changed, removed];
    (answers, archive.into_shelf().failures())
}

#[test]
fn an_archive_of_files(rt: HostRuntime) {
    let alloc = rt.alloc();
    let path = directory(&rt, alloc, process::id(rt.process()), "archive");
    let first = add_two(rt, alloc, path.as_str());
    put_others(&rt, alloc, path.as_str());
    let second = seen_in(rt, alloc, path.as_str());
    let third = read_four(rt, alloc, path.as_str());
    equal(&rt, first.as_str(), "b a ");
    equal(&rt, second.as_str(), "a b |c F13 BadBox;|d.jp2;y.tmp;|d;|");
    let faults = [Ok(true), Ok(true), Err(Fault::Changed), Err(Fault::Shelf)];
    equal(&rt, third, (faults, 1));
}

/// Writes a file twice and renames it to another's name; whether the last bytes are read then, and
/// how many files there are.
fn write_and_rename<S: Shelf>(rt: &impl Abort, alloc: Global, folder: &mut S) -> (bool, usize) {
    write(rt, folder, alloc, "a.jp2", b"longer than the next");
    write(rt, folder, alloc, "a.jp2", b"next");
    write(rt, folder, alloc, "b.jp2", b"");
    equal(rt, rename(folder, alloc, "a.jp2", "b.jp2"), None);
    let file = read(folder, alloc, "b.jp2").expect(rt, "a file");
    let names = folder.list(alloc).expect(rt, "names");
    (file.as_slice() == b"next".as_slice(), names.len())
}

/// Gives a file a name that is taken, and then again one that is free. Whether it has each, whether
/// what had the first is as it was, and whether the file is left.
fn place_twice<S: Shelf>(rt: &impl Abort, alloc: Global, folder: &mut S) -> [bool; 4] {
    write(rt, folder, alloc, "d.tmp", b"first");
    let taken = folder
        .place(alloc, "d.tmp", "b.jp2")
        .expect(rt, "an answer");
    let is_left = read(folder, alloc, "d.tmp").is_ok();
    write(rt, folder, alloc, "d.tmp", b"second");
    let free = folder
        .place(alloc, "d.tmp", "d.jp2")
        .expect(rt, "an answer");
    let old = read(folder, alloc, "b.jp2").expect(rt, "a file");
    let new = read(folder, alloc, "d.jp2").expect(rt, "a file");
    let stays = old.as_slice() == b"next".as_slice() && new.as_slice() == b"second".as_slice();
    [taken, free, stays, is_left]
}

/// The name at which the last call failed.
fn trouble<R: Files + Drop>(folder: &Folder<R>) -> &str {
    match folder.trouble() {
        Some(trouble) => trouble.name.as_str(),
        None => "none",
    }
}

/// The faults of calls that can't be made, the last after the directory was removed; and how many
/// failed.
fn fail_four<R: Files + Abort, S: Shelf>(
    rt: &R,
    alloc: Global,
    folder: &mut S,
    path: &str,
) -> ([Option<Fault>; 4], u64) {
    let unread = read(folder, alloc, "a.jp2").err();
    let renamed = rename(folder, alloc, "a.jp2", "b.jp2");
    let written = folder.write(alloc, "../b", b"").err();
    remove(rt, alloc, path);
    let listed = folder.list(alloc).err();
    ([unread, renamed, written, listed], folder.failures())
}

/// Whether each of these stretches of the file `b.jp2`, which has the bytes `next`, is what stands
/// there: its place, how many bytes at most, and these.
fn stretches<S: Shelf>(rt: &impl Abort, alloc: Global, folder: &mut S) {
    let all: [(u64, usize, &[u8]); 5] = [
        (0, 4, b"next"),
        (1, 2, b"ex"),
        (2, 9, b"xt"),
        (3, 0, b""),
        (4, 1, b""),
    ];
    for (start, most, wanted) in all {
        let part = folder.read_at(alloc, "b.jp2", start, most);
        let part = part.expect(rt, "a stretch");
        equal_at(rt, (start, most), part.as_slice(), wanted);
    }
}

#[test]
fn files_of_a_directory(rt: HostRuntime) {
    let alloc = rt.alloc();
    let path = directory(&rt, alloc, process::id(rt.process()), "files");
    let mut folder = folder_in(rt, alloc, path.as_str());
    let first = write_and_rename(&rt, alloc, &mut folder);
    equal(&rt, first, (true, 1));
    stretches(&rt, alloc, &mut folder);
    equal(&rt, trouble(&folder), "none");
    let failed = Some(Fault::Shelf);
    equal(&rt, read(&mut folder, alloc, "c.jp2").err(), failed);
    equal(&rt, trouble(&folder), "c.jp2");
    let placed = place_twice(&rt, alloc, &mut folder);
    equal(&rt, placed, [false, true, true, false]);
    let second = fail_four(&rt, alloc, &mut folder, path.as_str());
    equal(&rt, trouble(&folder), "");
    equal(&rt, second, ([failed, failed, failed, failed], 6));
}

#[test]
fn no_directory(rt: HostRuntime) {
    for path in ["/nowhere/at/all", "/etc/hostname"] {
        let fault = opened(rt.alloc(), folder_in(rt, rt.alloc(), path)).err();
        equal_at(&rt, path, fault, Some(Fault::Shelf));
    }
}
