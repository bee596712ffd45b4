//! Images that are encoded first, and then stored or added.

use crate::asserts::{equal, equal_at};
use crate::calls::{
    add, add_prepared, archive_of, bytes, encoded, is_page, listed, open, plain, prepared, read,
    shelf_of, store, with_levels,
};
use crate::contents::Content;
use crate::dressed::asked;
use crate::shelves::{Act, Acting, CAME, act_at};
use jk_math::Fault;
use jk_params::Container;
use jk_store::{Encoded, MemoryShelf, Shelf, added_text, refused_text};
use std::alloc::Global;
use std::process::Abort;

/// What comes of adding a prepared image with so many levels under a name beside an image `a`, where
/// the shelf fails at a call behind the opening, counted from 1: the fault, whether it is listed
/// then, and how many calls failed.
fn added_at(
    rt: &impl Abort,
    alloc: Global,
    name: &str,
    levels: u8,
    call: u64,
) -> (Option<Fault>, bool, u64) {
    // The calls of the opening are: list, read.
    let shelf = shelf_of(rt, alloc, &[("a.jp2", Content::Page)]);
    let mut archive = open(rt, alloc, act_at(shelf, call.saturating_add(2), Act::Fail));
    let image = prepared(rt, alloc, name, &with_levels(alloc, levels), None);
    let fault = add_prepared(&mut archive, alloc, image).err();
    let is_listed = archive.list().len() == 2;
    (fault, is_listed, archive.into_shelf().failures())
}

/// A name, levels, the call that fails, and what comes of it. Of several faults that of the name is
/// told, and then that of the image, as where it is encoded when it is added; then the shelf is
/// called twice, to write and to rename, and no third time.
static IN_ORDER: [(&str, u8, u64, (Option<Fault>, bool, u64)); 8] = [
    ("A", 6, 1, (Some(Fault::BadName), false, 0)),
    ("", 6, 1, (Some(Fault::BadName), false, 0)),
    ("a", 6, 1, (Some(Fault::NameTaken), false, 0)),
    ("b", 6, 1, (Some(Fault::BadParameters), false, 0)),
    ("b", 0, 1, (Some(Fault::Shelf), false, 1)),
    ("b", 0, 2, (Some(Fault::Shelf), false, 1)),
    ("b", 0, 3, (None, true, 0)),
    ("b", 0, 4, (None, true, 0)),
];

#[test]
fn faults_in_order(rt: HostRuntime) {
    for (name, levels, call, due) in &IN_ORDER {
        let found = added_at(&rt, rt.alloc(), name, *levels, *call);
        equal_at(&rt, (*name, *call), found, *due);
    }
}

/// Of two images that are prepared under one name before either is added the first is added, and is
/// listed with the digest of its file.
#[test]
fn the_first_of_two_is_added(rt: HostRuntime) {
    let alloc = rt.alloc();
    let mut archive = archive_of(&rt, alloc, &[("b.jp2", Content::Page)]);
    let plain = plain(alloc, Container::Jp2);
    let first = prepared(&rt, alloc, "a", &plain, None);
    let second = prepared(&rt, alloc, "a", &plain, None);
    let entry = add_prepared(&mut archive, alloc, first).expect(&rt, "an image");
    let digest = bytes(&rt, alloc, Content::Digest);
    let is_same = entry.digest.as_slice() == digest.as_slice();
    let fault = add_prepared(&mut archive, alloc, second).err();
    let names = listed(&rt, &archive, alloc);
    let found = (is_same, fault, names.as_str());
    equal(&rt, found, (true, Some(Fault::NameTaken), "b a "));
}

/// Why an image isn't added that keeps something, with a profile or none, and so many levels; and
/// what an archive lists when it is opened again behind that.
fn dressed(
    rt: &impl Abort,
    alloc: Global,
    profile: Option<u8>,
    levels: u8,
) -> (Option<Fault>, String) {
    let mut archive = archive_of(rt, alloc, &[]);
    let extras = asked(rt, alloc, profile);
    let image = prepared(rt, alloc, "a", &with_levels(alloc, levels), Some(&extras));
    let fault = add_prepared(&mut archive, alloc, image).err();
    let again = open(rt, alloc, archive.into_shelf());
    (fault, listed(rt, &again, alloc))
}

/// A profile, levels, and what comes of it.
static DRESSED: [(Option<u8>, u8, (Option<Fault>, &str)); 3] = [
    (None, 0, (None, "a ")),
    (Some(1), 0, (Some(Fault::BadParameters), "")),
    (None, 6, (Some(Fault::BadParameters), "")),
];

#[test]
fn what_a_file_keeps_is_prepared_with_it(rt: HostRuntime) {
    for (profile, levels, due) in &DRESSED {
        let (fault, names) = dressed(&rt, rt.alloc(), *profile, *levels);
        equal_at(&rt, (*profile, *levels), (fault, names.as_str()), *due);
    }
}

/// What comes of storing on a shelf with `b.jp2`, where it fails at a call: the fault, and of what
/// the shelf has as `NAME.jp2` then, and as `b.jp2`, whether it is the file of one sample.
fn stored(
    rt: &impl Abort,
    alloc: Global,
    image: &Encoded,
    call: u64,
) -> (Option<Fault>, Option<bool>, Option<bool>) {
    let shelf = shelf_of(rt, alloc, &[("b.jp2", Content::Page)]);
    let mut shelf = act_at(shelf, call, Act::Fail);
    let fault = store(image, alloc, &mut shelf).err();
    let name = format!(in alloc; "{}.jp2", image.name()).expect(rt, "a name");
    let file = is_page(rt, alloc, read(&mut shelf, alloc, name.as_str())).ok();
    let other = is_page(rt, alloc, read(&mut shelf, alloc, "b.jp2")).ok();
    (fault, file, other)
}

/// A name, levels, the call that fails, and what comes of it.
static STORED: [(&str, u8, u64, (Option<Fault>, Option<bool>, Option<bool>)); 6] = [
    ("a", 0, 0, (None, Some(true), Some(true))),
    ("a", 6, 0, (Some(Fault::BadParameters), None, Some(true))),
    ("a", 0, 1, (Some(Fault::Shelf), None, Some(true))),
    ("a", 0, 2, (Some(Fault::Shelf), None, Some(true))),
    ("A", 6, 0, (Some(Fault::BadName), None, Some(true))),
    ("../a", 0, 0, (Some(Fault::BadName), None, Some(true))),
];

#[test]
fn images_are_stored(rt: HostRuntime) {
    let alloc = rt.alloc();
    for (name, levels, call, due) in &STORED {
        let image = encoded(&rt, alloc, name, &with_levels(alloc, *levels), None);
        equal_at(&rt, (*name, *call), stored(&rt, alloc, &image, *call), *due);
    }
    let refused = Encoded::refused(alloc, "a", Fault::BadPnm).expect(&rt, "an image");
    let due = (Some(Fault::BadPnm), None, Some(true));
    equal(&rt, stored(&rt, alloc, &refused, 0), due);
}

/// Of a shelf on which another file came under the name of an image `a`: whether that is there, and
/// whether the temporary one is.
fn has_come(shelf: &mut Acting, alloc: Global) -> (bool, bool) {
    let came = match read(shelf, alloc, "a.jp2") {
        Ok(found) => found.as_slice() == CAME,
        Err(_) => false,
    };
    (came, read(shelf, alloc, "a.tmp").is_ok())
}

/// A file that comes under the name of an image while it is stored isn't replaced: the image is
/// refused.
#[test]
fn what_comes_meanwhile_stays(rt: HostRuntime) {
    let alloc = rt.alloc();
    let plain = plain(alloc, Container::Jp2);
    // The calls are: write, place.
    let mut shelf = act_at(shelf_of(&rt, alloc, &[]), 2, Act::Come);
    let image = encoded(&rt, alloc, "a", &plain, None);
    let fault = store(&image, alloc, &mut shelf).err();
    let found = (fault, has_come(&mut shelf, alloc));
    equal(&rt, found, (Some(Fault::NameTaken), (true, false)));
    // The calls are: list, write, place.
    let mut archive = open(&rt, alloc, act_at(shelf_of(&rt, alloc, &[]), 3, Act::Come));
    let image = prepared(&rt, alloc, "a", &plain, None);
    let fault = add_prepared(&mut archive, alloc, image).err();
    let count = archive.list().len();
    let mut shelf = archive.into_shelf();
    let found = (fault, count, shelf.failures(), has_come(&mut shelf, alloc));
    equal(&rt, found, (Some(Fault::NameTaken), 0, 0, (true, false)));
}

/// What was stored is listed by the next opening, and more can be added to it.
#[test]
fn what_is_stored_is_listed_later(rt: HostRuntime) {
    let alloc = rt.alloc();
    let mut shelf = MemoryShelf::new(alloc);
    let extras = asked(&rt, alloc, None);
    let image = encoded(&rt, alloc, "d", &with_levels(alloc, 0), Some(&extras));
    store(&image, alloc, &mut shelf).expect(&rt, "a file");
    let mut archive = open(&rt, alloc, shelf);
    let before = listed(&rt, &archive, alloc);
    add(&rt, &mut archive, alloc, "a", 128);
    let after = listed(&rt, &archive, alloc);
    equal(&rt, (before.as_str(), after.as_str()), ("d ", "d a "));
}

#[test]
fn texts_name_the_image(rt: HostRuntime) {
    let alloc = rt.alloc();
    let added = added_text(alloc, "a-b").expect(&rt, "a text");
    let refused = refused_text(alloc, "A b", Fault::BadName).expect(&rt, "a text");
    let due = ("added a-b\n", "refused A b F19 BadName\n");
    equal(&rt, (added.as_str(), refused.as_str()), due);
}
