//! Images added to an archive.

use crate::asserts::{equal, equal_at};
use crate::calls::{
    add, archive_of, bytes, is_page, joined, listed, open, plain, read, refusal, refusal_with,
    shelf_of, skipped, with_levels,
};
use crate::contents::Content;
use crate::shelves::{Act, act_at};
use jk_math::Fault;
use jk_params::Container;
use jk_store::Shelf;
use std::alloc::Global;
use std::process::Abort;

/// Of an image that is added: whether it has the digest of its file, its width and levels, and how
/// many are listed.
fn added(rt: &impl Abort, alloc: Global) -> (bool, u32, u8, usize) {
    let mut archive = archive_of(rt, alloc, &[]);
    let entry = add(rt, &mut archive, alloc, "a", 128);
    let same = entry.digest.as_slice() == bytes(rt, alloc, Content::Digest).as_slice();
    let index = &entry.index;
    (same, index.width(), index.levels(), archive.list().len())
}

#[test]
fn an_image_added(rt: HostRuntime) {
    equal(&rt, added(&rt, rt.alloc()), (true, 1, 0, 1));
}

/// Why a bare codestream isn't added under a name beside an image `a`, and how many images are
/// listed then.
fn refused(rt: &impl Abort, alloc: Global, name: &str) -> (Option<Fault>, usize) {
    let mut archive = archive_of(rt, alloc, &[("a.jp2", Content::Page)]);
    let raw = plain(alloc, Container::Raw);
    let answer = refusal_with(rt, &mut archive, alloc, name, &raw);
    (answer, archive.list().len())
}

/// Names, and why they are refused.
static REFUSED: [(&str, Fault); 10] = [
    ("A", Fault::BadName),
    ("", Fault::BadName),
    ("a.b", Fault::BadName),
    ("a/b", Fault::BadName),
    ("ä", Fault::BadName),
    ("a b", Fault::BadName),
    (
        "01234567890123456789012345678901234567890123456789012345678901234",
        Fault::BadName,
    ),
    ("a", Fault::NameTaken),
    (
        "0123456789012345678901234567890123456789012345678901234567890123",
        Fault::BadParameters,
    ),
    ("a-b_9", Fault::BadParameters),
];

#[test]
fn refused_names(rt: HostRuntime) {
    for (name, fault) in &REFUSED {
        let answer = refused(&rt, rt.alloc(), name);
        equal_at(&rt, *name, answer, (Some(*fault), 1));
    }
}

/// Why an image isn't added a second time to an archive, the same one or another, and what is
/// listed then.
fn added_twice(rt: &impl Abort, alloc: Global, sample: i32) -> (Option<Fault>, String) {
    let mut archive = archive_of(rt, alloc, &[("b.jp2", Content::Page)]);
    add(rt, &mut archive, alloc, "a", 128);
    let answer = refusal(rt, &mut archive, alloc, "a", sample);
    (answer, listed(rt, &archive, alloc))
}

/// Why an image isn't added under the name of one whose file lay on the shelf before, and what is
/// listed then; and whether that file is as it was.
fn added_over(rt: &impl Abort, alloc: Global) -> (Option<Fault>, String, Result<bool, Fault>) {
    let mut archive = archive_of(rt, alloc, &[("a.jp2", Content::Page)]);
    let answer = refusal(rt, &mut archive, alloc, "a", 129);
    let names = listed(rt, &archive, alloc);
    let same = is_page(rt, alloc, read(&mut archive.into_shelf(), alloc, "a.jp2"));
    (answer, names, same)
}

#[test]
fn taken_names(rt: HostRuntime) {
    for sample in [128, 129] {
        let (fault, names) = added_twice(&rt, rt.alloc(), sample);
        equal_at(&rt, sample, fault, Some(Fault::NameTaken));
        equal_at(&rt, sample, names.as_str(), "b a ");
    }
}

#[test]
fn taken_files(rt: HostRuntime) {
    let (fault, names, same) = added_over(&rt, rt.alloc());
    equal(&rt, (fault, same), (Some(Fault::NameTaken), Ok(true)));
    equal(&rt, names.as_str(), "a ");
}

/// Why so many levels are refused, and how many images are listed then.
fn refused_levels(rt: &impl Abort, alloc: Global, levels: u8) -> (Option<Fault>, usize) {
    let mut archive = archive_of(rt, alloc, &[]);
    let answer = refusal_with(rt, &mut archive, alloc, "a", &with_levels(alloc, levels));
    (answer, archive.list().len())
}

#[test]
fn refused_parameters(rt: HostRuntime) {
    let answer = refused_levels(&rt, rt.alloc(), 6);
    equal(&rt, answer, (Some(Fault::BadParameters), 0));
}

/// What is skipped, what is listed after the name was added, and both after it was opened again.
fn replaced(rt: &impl Abort, alloc: Global) -> String {
    let mut archive = archive_of(rt, alloc, &[("c.jp2", Content::Bare)]);
    let before = skipped(rt, &archive, alloc);
    add(rt, &mut archive, alloc, "c", 128);
    let after = listed(rt, &archive, alloc);
    let again = open(rt, alloc, archive.into_shelf());
    let names = listed(rt, &again, alloc);
    let none = skipped(rt, &again, alloc);
    let texts = [
        before.as_str(),
        after.as_str(),
        names.as_str(),
        none.as_str(),
    ];
    joined(rt, alloc, &texts)
}

#[test]
fn a_skipped_name_added(rt: HostRuntime) {
    let answer = replaced(&rt, rt.alloc());
    equal(&rt, answer.as_str(), "c F13 BadBox;|c |c ||");
}

/// Why an image isn't added where the rename fails, and how many images are listed before and after
/// the next try.
fn renamed(rt: &impl Abort, alloc: Global) -> (Option<Fault>, usize, usize) {
    // The calls are: list, write, rename.
    let shelf = act_at(shelf_of(rt, alloc, &[]), 3, Act::Fail);
    let mut archive = open(rt, alloc, shelf);
    let answer = refusal(rt, &mut archive, alloc, "a", 128);
    let before = archive.list().len();
    add(rt, &mut archive, alloc, "a", 128);
    (answer, before, archive.list().len())
}

#[test]
fn a_rename_that_fails(rt: HostRuntime) {
    let answer = renamed(&rt, rt.alloc());
    equal(&rt, answer, (Some(Fault::Shelf), 0, 1));
}

/// Why an image isn't added with these parameters under a name beside an image `a`, where the shelf
/// fails at a call behind the opening, counted from 1; whether it is listed then; and how many calls
/// failed.
fn added_at(
    rt: &impl Abort,
    alloc: Global,
    name: &str,
    levels: u8,
    call: u64,
) -> (Option<Fault>, bool, u64) {
    // The calls of the opening are: list, read.
    let shelf = shelf_of(rt, alloc, &[("a.jp2", Content::Page)]);
    let mut archive = open(rt, alloc, act_at(shelf, call.saturating_add(2), Act::Fail));
    let answer = refusal_with(rt, &mut archive, alloc, name, &with_levels(alloc, levels));
    let is_listed = archive.list().len() == 2;
    (answer, is_listed, archive.into_shelf().failures())
}

/// A name, levels, the call that fails, and what comes of it: the name, whether it is taken, and the
/// parameters are judged before the shelf is called; then it is called twice, to write and to rename,
/// and no third time.
static IN_ORDER: [(&str, u8, u64, Option<Fault>, bool, u64); 8] = [
    ("A", 6, 1, Some(Fault::BadName), false, 0),
    ("", 6, 1, Some(Fault::BadName), false, 0),
    ("a", 6, 1, Some(Fault::NameTaken), false, 0),
    ("b", 6, 1, Some(Fault::BadParameters), false, 0),
    ("b", 0, 1, Some(Fault::Shelf), false, 1),
    ("b", 0, 2, Some(Fault::Shelf), false, 1),
    ("b", 0, 3, None, true, 0),
    ("b", 0, 4, None, true, 0),
];

#[test]
fn faults_in_order(rt: HostRuntime) {
    for (name, levels, call, due, is_listed, failures) in &IN_ORDER {
        let found = added_at(&rt, rt.alloc(), name, *levels, *call);
        equal_at(&rt, (*name, *call), found, (*due, *is_listed, *failures));
    }
}
