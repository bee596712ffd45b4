//! Shelves that fail at one call.

use crate::asserts::{equal, equal_at};
use crate::calls::{
    self, add, is_page, joined, listed, read, refusal, rename, shelf_of, view, whole, window,
};
use crate::contents::Content;
use crate::shelves::{Act, Acting, act_at};
use jk_math::Fault;
use jk_store::{Archive, Finding, Shelf, check};
use std::alloc::Global;
use std::process::Abort;
use std::thread::Threads;

/// The archive of two images and another file on a shelf that fails at a call, if it can be opened.
fn opened(rt: &impl Abort, alloc: Global, call: u64) -> Result<Archive<Acting>, Fault> {
    let files = [
        ("a.jp2", Content::Page),
        ("b.jp2", Content::Bare),
        ("c.jp2", Content::Page),
    ];
    let shelf = shelf_of(rt, alloc, &files);
    calls::opened(alloc, act_at(shelf, call, Act::Fail))
}

/// How many images are listed, or why none is.
fn opening_at(rt: &impl Abort, alloc: Global, call: u64) -> Result<usize, Fault> {
    Ok(opened(rt, alloc, call)?.list().len())
}

#[test]
fn opening(rt: HostRuntime) {
    // One listing and three reads.
    for call in 1..5 {
        equal_at(
            &rt,
            call,
            opening_at(&rt, rt.alloc(), call),
            Err(Fault::Shelf),
        );
    }
    equal(&rt, opening_at(&rt, rt.alloc(), 5), Ok(2));
}

/// Why an image isn't added; what is listed before and after the next try; and how many calls
/// failed.
fn adding_at(rt: &impl Abort, alloc: Global, call: u64) -> (Option<Fault>, String, u64) {
    let mut archive = opened(rt, alloc, call).expect(rt, "an archive");
    let answer = refusal(rt, &mut archive, alloc, "d", 129);
    let before = listed(rt, &archive, alloc);
    add(rt, &mut archive, alloc, "d", 129);
    let after = listed(rt, &archive, alloc);
    let names = joined(rt, alloc, &[before.as_str(), after.as_str()]);
    (answer, names, archive.into_shelf().failures())
}

#[test]
fn adding(rt: HostRuntime) {
    for call in 5..7 {
        let (answer, names, failures) = adding_at(&rt, rt.alloc(), call);
        equal_at(&rt, call, names.as_str(), "a c |a c d |");
        equal_at(&rt, call, (answer, failures), (Some(Fault::Shelf), 1));
    }
}

/// What is found of three files by so many workers, where the shelf fails at a call: whether each is
/// whole, broken or unread.
fn checked_at<R: Abort + Threads + Sync>(
    rt: &R,
    alloc: Global,
    workers: usize,
    call: u64,
) -> Result<String, Fault> {
    let files = [
        ("c.jp2", Content::Page),
        ("b.jp2", Content::Bare),
        ("a.jp2", Content::Page),
    ];
    let mut shelf = act_at(shelf_of(rt, alloc, &files), call, Act::Fail);
    let mut text = String::new(alloc);
    for file in check(rt, alloc, workers, &mut shelf, call % 2 == 0)? {
        text.push_str(file.name.as_str())?;
        text.push_str(match file.finding {
            Finding::Whole(_) => " whole ",
            Finding::Broken(_, Fault::BadBox) => " broken ",
            Finding::Unread(Fault::Shelf) => " unread ",
            _ => " ? ",
        })?;
    }
    Ok(text)
}

/// A file that can't be read keeps no other from being checked.
#[test]
fn checking(rt: HostRuntime) {
    let alloc = rt.alloc();
    for workers in [1, 2] {
        for (call, found) in [
            (2, "a unread b broken c whole "),
            (3, "a whole b unread c whole "),
            (4, "a whole b broken c unread "),
            (5, "a whole b broken c whole "),
        ] {
            let answer = checked_at(&rt, alloc, workers, call).expect(&rt, "what is found");
            equal_at(&rt, call, answer.as_str(), found);
        }
        let unlisted = checked_at(&rt, alloc, workers, 1).err();
        equal(&rt, unlisted, Some(Fault::Shelf));
    }
    for workers in [0, 65] {
        let refused = checked_at(&rt, alloc, workers, 1).err();
        equal(&rt, refused, Some(Fault::BadParameters));
    }
}

/// What a read and a window give where the shelf fails at the first call, and what the next read
/// gives; and the failures.
fn reading_at(
    rt: &impl Abort,
    alloc: Global,
    whole_first: bool,
) -> (Option<Fault>, Result<bool, Fault>, u64) {
    let mut archive = opened(rt, alloc, 5).expect(rt, "an archive");
    let first = if whole_first {
        whole(&mut archive, alloc, "c")
    } else {
        window(&mut archive, alloc, "c", view(0, 1))
    };
    let second = is_page(rt, alloc, whole(&mut archive, alloc, "a"));
    (first.err(), second, archive.into_shelf().failures())
}

#[test]
fn reading(rt: HostRuntime) {
    for whole_first in [true, false] {
        let answer = reading_at(&rt, rt.alloc(), whole_first);
        equal(&rt, answer, (Some(Fault::Shelf), Ok(true), 1));
    }
}

/// The faults of calls with names that no file has, and with names that one has; and how many
/// failed.
fn calls(rt: &impl Abort, alloc: Global) -> ([Option<Fault>; 6], u64) {
    let mut shelf = shelf_of(rt, alloc, &[("a", Content::Byte), ("b", Content::Page)]);
    let faults = [
        read(&mut shelf, alloc, "c").err(),
        rename(&mut shelf, alloc, "c", "a"),
        rename(&mut shelf, alloc, "b", "b"),
        rename(&mut shelf, alloc, "b", "a"),
        read(&mut shelf, alloc, "b").err(),
        read(&mut shelf, alloc, "a").err(),
    ];
    (faults, shelf.failures())
}

#[test]
fn absent_names(rt: HostRuntime) {
    let answer = calls(&rt, rt.alloc());
    let failed = Some(Fault::Shelf);
    equal(&rt, answer, ([failed, failed, None, None, failed, None], 3));
}
