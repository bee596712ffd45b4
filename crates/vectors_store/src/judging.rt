//! Names that are judged by the names of files alone, and an image that is added beside files that
//! weren't read.

use crate::asserts::{equal, equal_at};
use crate::calls::{add, listed, open, shelf_of};
use crate::contents::Content;
use crate::shelves::{Act, act_at, alike};
use jk_math::Fault;
use jk_store::{Archive, Images, judge_name};
use std::alloc::Global;
use std::process::Abort;

/// What is said of a name beside two images, a bare codestream and another file, on a shelf that
/// fails at a call.
fn judged(rt: &impl Abort, alloc: Global, name: &str, call: u64) -> Result<bool, Fault> {
    let files = [
        ("a.jp2", Content::Page),
        ("b.jp2", Content::Bare),
        ("c.txt", Content::Page),
        ("e.jp2", Content::Page),
    ];
    let mut shelf = act_at(shelf_of(rt, alloc, &files), call, Act::Fail);
    judge_name(alloc, &mut shelf, name)
}

/// Names, and what is said of them.
static NAMES: [(&str, Result<bool, Fault>); 6] = [
    ("a", Err(Fault::NameTaken)),
    ("b", Err(Fault::NameTaken)),
    ("c", Ok(true)),
    ("d", Ok(true)),
    ("D", Err(Fault::BadName)),
    ("", Err(Fault::BadName)),
];

#[test]
fn names_beside_files(rt: HostRuntime) {
    // The listing is the first call, and there is no second, which would fail.
    for (name, wanted) in NAMES {
        equal_at(&rt, name, judged(&rt, rt.alloc(), name, 2), wanted);
    }
    equal(&rt, judged(&rt, rt.alloc(), "D", 1), Err(Fault::Shelf));
}

/// What is said of a name beside so many files `0000.jp2`, `0001.jp2` and so on.
fn beside(alloc: Global, name: &str, count: u16) -> Result<bool, Fault> {
    let mut shelf = alike(count, Vec::new(alloc));
    judge_name(alloc, &mut shelf, name)
}

#[test]
fn names_beside_many(rt: HostRuntime) {
    let alloc = rt.alloc();
    let few = [beside(alloc, "4095", 4095), beside(alloc, "4094", 4095)];
    equal(&rt, few, [Ok(true), Err(Fault::NameTaken)]);
    for name in ["4096", "D", "0000"] {
        equal_at(&rt, name, beside(alloc, name, 4096), Ok(false));
    }
}

/// What an archive says of a name that lists nothing of so many files `0000.jp2`, `0001.jp2` and so
/// on.
fn among(alloc: Global, name: &str, count: u16) -> Result<(), Fault> {
    let shelf = alike(count, Vec::new(alloc));
    Archive::with(shelf, Images::none(alloc)).judge_name(alloc, name)
}

/// Names, how many files there are, and what the archive says.
static AMONG: [(&str, u16, Result<(), Fault>); 6] = [
    ("4095", 4095, Ok(())),
    ("4094", 4095, Err(Fault::NameTaken)),
    ("D", 4095, Err(Fault::BadName)),
    ("4096", 4096, Err(Fault::Limit)),
    ("4095", 4096, Err(Fault::NameTaken)),
    ("D", 4096, Err(Fault::BadName)),
];

#[test]
fn names_among_many(rt: HostRuntime) {
    for (name, count, wanted) in AMONG {
        equal_at(&rt, (name, count), among(rt.alloc(), name, count), wanted);
    }
}

/// What an archive lists that is opened when an image was added beside files that weren't read.
fn added_beside(rt: &impl Abort, alloc: Global) -> String {
    let shelf = shelf_of(
        rt,
        alloc,
        &[("a.jp2", Content::Page), ("c.jp2", Content::Page)],
    );
    let mut archive = Archive::with(shelf, Images::none(alloc));
    add(rt, &mut archive, alloc, "b", 128);
    let archive = open(rt, alloc, archive.into_shelf());
    listed(rt, &archive, alloc)
}

#[test]
fn an_image_beside_others(rt: HostRuntime) {
    let names = added_beside(&rt, rt.alloc());
    equal(&rt, names.as_str(), "a b c ");
}
