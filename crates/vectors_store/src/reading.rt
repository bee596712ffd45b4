//! Files and windows read back.

use crate::asserts::{equal, equal_at};
use crate::calls::{archive_of, is_page, open, shelf_of, view, whole, window};
use crate::contents::Content;
use crate::shelves::{Act, act_at};
use jk_math::Fault;
use jk_store::{Archive, Entry, MemoryShelf, Shelf};
use std::alloc::Global;
use std::process::Abort;

/// What is read: the whole file, or a window from a column on, so wide.
#[derive(Clone, Copy)]
enum Asked {
    Whole,
    Window(u32, u32),
}

/// Whether what an archive gives by a name is the file of one sample.
fn is_given<S: Shelf>(
    rt: &impl Abort,
    archive: &mut Archive<S>,
    alloc: Global,
    name: &str,
    asked: Asked,
) -> Result<bool, Fault> {
    let answer = match asked {
        Asked::Whole => whole(archive, alloc, name),
        Asked::Window(x, width) => window(archive, alloc, name, view(x, width)),
    };
    is_page(rt, alloc, answer)
}

/// Whether what an archive of one image `a` gives by a name is that image's file.
fn by_a_name(rt: &impl Abort, alloc: Global, name: &str, asked: Asked) -> Result<bool, Fault> {
    let mut archive = archive_of(rt, alloc, &[("a.jp2", Content::Page)]);
    is_given(rt, &mut archive, alloc, name, asked)
}

static BY_NAME: [(&str, Asked, Result<bool, Fault>); 6] = [
    ("a", Asked::Whole, Ok(true)),
    ("a", Asked::Window(0, 5), Ok(true)),
    ("b", Asked::Whole, Err(Fault::NoSuchImage)),
    ("b", Asked::Window(0, 0), Err(Fault::NoSuchImage)),
    ("a", Asked::Window(0, 0), Err(Fault::BadWindow)),
    ("a", Asked::Window(1, 1), Err(Fault::BadWindow)),
];

#[test]
fn by_name(rt: HostRuntime) {
    for (name, asked, due) in &BY_NAME {
        equal_at(&rt, *name, by_a_name(&rt, rt.alloc(), name, *asked), *due);
    }
}

fn ask(
    entry: &Entry,
    alloc: Global,
    shelf: &mut MemoryShelf,
    asked: Asked,
) -> Result<Vec<u8>, Fault> {
    match asked {
        Asked::Whole => entry.whole(alloc, shelf),
        Asked::Window(x, width) => entry.window(alloc, shelf, view(x, width)),
    }
}

/// Whether what the entry of an image gives from a shelf with one file is the image's file; and the
/// shelf's failures.
fn by_the_entry(
    rt: &impl Abort,
    alloc: Global,
    file: (&str, Content),
    asked: Asked,
) -> (Result<bool, Fault>, u64) {
    let archive = archive_of(rt, alloc, &[("a.jp2", Content::Page)]);
    let mut shelf = shelf_of(rt, alloc, &[file]);
    let entry = archive.list().first().expect(rt, "an image");
    let answer = is_page(rt, alloc, ask(entry, alloc, &mut shelf, asked));
    (answer, shelf.failures())
}

static BY_ENTRY: [(&str, Content, Asked, Result<bool, Fault>, u64); 8] = [
    ("a.jp2", Content::Page, Asked::Whole, Ok(true), 0),
    ("a.jp2", Content::Page, Asked::Window(0, 1), Ok(true), 0),
    (
        "a.jp2",
        Content::Page,
        Asked::Window(0, 0),
        Err(Fault::BadWindow),
        0,
    ),
    ("a.jp2", Content::Byte, Asked::Whole, Err(Fault::Changed), 0),
    (
        "a.jp2",
        Content::Byte,
        Asked::Window(0, 1),
        Err(Fault::Changed),
        0,
    ),
    ("b.jp2", Content::Page, Asked::Whole, Err(Fault::Shelf), 1),
    (
        "b.jp2",
        Content::Page,
        Asked::Window(0, 1),
        Err(Fault::Shelf),
        1,
    ),
    (
        "b.jp2",
        Content::Page,
        Asked::Window(0, 0),
        Err(Fault::BadWindow),
        0,
    ),
];

#[test]
fn by_an_entry(rt: HostRuntime) {
    for (name, content, asked, due, failures) in &BY_ENTRY {
        let answer = by_the_entry(&rt, rt.alloc(), (*name, *content), *asked);
        equal_at(&rt, *name, answer, (*due, *failures));
    }
}

/// What is read where the shelf gives another file once, and what after that.
fn changing(rt: &impl Abort, alloc: Global, asked: Asked) -> [Result<bool, Fault>; 2] {
    // The calls are: list, read, and then this one.
    let shelf = shelf_of(rt, alloc, &[("a.jp2", Content::Page)]);
    let mut archive = open(rt, alloc, act_at(shelf, 3, Act::Change));
    let first = is_given(rt, &mut archive, alloc, "a", asked);
    let second = is_given(rt, &mut archive, alloc, "a", Asked::Whole);
    [first, second]
}

#[test]
fn a_file_that_changes(rt: HostRuntime) {
    for asked in [Asked::Whole, Asked::Window(0, 1)] {
        let answer = changing(&rt, rt.alloc(), asked);
        equal(&rt, answer, [Err(Fault::Changed), Ok(true)]);
    }
}
