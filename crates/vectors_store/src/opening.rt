//! Archives opened.

use crate::asserts::equal;
use crate::calls::{
    add, archive_of, bytes, is_page, joined, listed, open, put, shelf_of, skipped, whole, write,
};
use crate::contents::Content;
use jk_math::Fault;
use jk_store::MemoryShelf;
use std::alloc::Global;
use std::process::Abort;
use vectors::bytes_of;

/// What is listed and what is skipped.
fn opened(rt: &impl Abort, alloc: Global, shelf: MemoryShelf) -> String {
    let archive = open(rt, alloc, shelf);
    let names = listed(rt, &archive, alloc);
    let others = skipped(rt, &archive, alloc);
    joined(rt, alloc, &[names.as_str(), others.as_str()])
}

static FILES: [(&str, Content); 7] = [
    ("x.txt", Content::Page),
    ("c.jp2", Content::Bare),
    ("a.jp2", Content::Page),
    ("A.jp2", Content::Page),
    (".jp2", Content::Page),
    ("b.tmp", Content::Page),
    ("d.jp2.jp2", Content::Page),
];

#[test]
fn what_is_listed(rt: HostRuntime) {
    let alloc = rt.alloc();
    let answer = opened(&rt, alloc, shelf_of(&rt, alloc, &FILES));
    equal(&rt, answer.as_str(), "a |c F13 BadBox;|");
}

/// What is listed after these images were added, and after the archive was opened again.
fn added(rt: &impl Abort, alloc: Global, names: &[&str]) -> String {
    let mut archive = archive_of(rt, alloc, &[]);
    for name in names {
        add(rt, &mut archive, alloc, name, 128);
    }
    let before = listed(rt, &archive, alloc);
    let after = opened(rt, alloc, archive.into_shelf());
    joined(rt, alloc, &[before.as_str(), after.as_str()])
}

#[test]
fn the_order_of_names(rt: HostRuntime) {
    let names = ["b", "a-b", "a", "z0", "_", "-", "9", "aa"];
    let answer = added(&rt, rt.alloc(), &names);
    let due = "b a-b a z0 _ - 9 aa |- 9 _ a a-b aa b z0 |||";
    equal(&rt, answer.as_str(), due);
}

/// Whether two images that were added are the JP2 file of one sample of 128, after the archive was
/// opened again.
fn found(rt: &impl Abort, alloc: Global) -> [Result<bool, Fault>; 2] {
    let mut archive = archive_of(rt, alloc, &[]);
    add(rt, &mut archive, alloc, "b", 127);
    add(rt, &mut archive, alloc, "a", 128);
    let mut again = open(rt, alloc, archive.into_shelf());
    let first = is_page(rt, alloc, whole(&mut again, alloc, "a"));
    let second = is_page(rt, alloc, whole(&mut again, alloc, "b"));
    [first, second]
}

#[test]
fn an_added_image_found(rt: HostRuntime) {
    equal(&rt, found(&rt, rt.alloc()), [Ok(true), Ok(false)]);
}

/// Files that are skipped: how many bytes of the JP2 file of one sample they have, what stands
/// behind these, and why.
static SPOILT: [(usize, &str, &str); 5] = [
    (0, "", "|a F2 Truncated;|"),
    (0, "FF", "|a F2 Truncated;|"),
    (77, "", "|a F13 BadBox;|"),
    (166, "", "|a F2 Truncated;|"),
    (167, "00", "|a F2 Truncated;|"),
];

/// A shelf with a JP2 file of one sample that is cut, and has other bytes behind.
fn spoilt(rt: &impl Abort, alloc: Global, count: usize, behind: &str) -> MemoryShelf {
    let mut bytes = bytes(rt, alloc, Content::Page);
    bytes.truncate(count);
    put(
        rt,
        &mut bytes,
        &bytes_of(alloc, &[behind]).expect(rt, "bytes"),
    );
    let mut shelf = MemoryShelf::new(alloc);
    write(rt, &mut shelf, alloc, "a.jp2", &bytes);
    shelf
}

#[test]
fn what_is_skipped(rt: HostRuntime) {
    let alloc = rt.alloc();
    for (count, behind, fault) in &SPOILT {
        let answer = opened(&rt, alloc, spoilt(&rt, alloc, *count, behind));
        equal(&rt, answer.as_str(), *fault);
    }
}
