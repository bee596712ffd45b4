//! Images added with what their files are to keep beside the samples.

use crate::asserts::equal_at;
use crate::calls::{add_dressed, archive_of, bytes, listed, open, read};
use crate::contents::Content;
use jk_extras::{Colour, Extras, Other};
use jk_math::Fault;
use std::alloc::Global;
use std::process::Abort;

/// XML of four bytes, and a profile where there is one, which is none.
pub(crate) fn asked(rt: &impl Abort, alloc: Global, profile: Option<u8>) -> Extras {
    let mut extras = Extras::none(alloc);
    if let Some(byte) = profile {
        extras.colour = Colour::Profile(Vec::from_slice(alloc, &[byte]).expect(rt, "bytes"));
    }
    let xml = Vec::from_slice(alloc, b"<a/>").expect(rt, "bytes");
    extras.others.push(Other::Xml(xml)).expect(rt, "room");
    extras
}

/// What a shelf has under the name of an image.
fn kept_as(rt: &impl Abort, alloc: Global, answer: Result<Vec<u8>, Fault>) -> &'static str {
    let Ok(file) = answer else {
        return "none";
    };
    let file = file.as_slice();
    if file == bytes(rt, alloc, Content::Dressed).as_slice() {
        return "dressed";
    }
    let is_page = file == bytes(rt, alloc, Content::Page).as_slice();
    if is_page { "page" } else { "another" }
}

/// Why a grey sample isn't added under a name beside `b`, what the shelf has under the name then,
/// and how many images are listed when it is opened again.
fn added(
    rt: &impl Abort,
    alloc: Global,
    name: &str,
    profile: Option<u8>,
    levels: u8,
) -> (Option<Fault>, &'static str, usize) {
    let mut archive = archive_of(rt, alloc, &[("b.jp2", Content::Page)]);
    let extras = asked(rt, alloc, profile);
    let fault = add_dressed(rt, &mut archive, alloc, name, levels, &extras).err();
    let mut shelf = archive.into_shelf();
    let file = kept_as(rt, alloc, read(&mut shelf, alloc, "a.jp2"));
    let again = open(rt, alloc, shelf);
    (fault, file, again.list().len())
}

/// Names, profiles, levels; the fault, the file, and the images. Of several faults the first is
/// told: what `add` judges goes before what the file is to keep.
static ADDED: [(&str, Option<u8>, u8, (Option<Fault>, &str, usize)); 6] = [
    ("a", None, 0, (None, "dressed", 2)),
    ("a", Some(1), 0, (Some(Fault::BadParameters), "none", 1)),
    ("a", None, 6, (Some(Fault::BadParameters), "none", 1)),
    ("b", Some(1), 6, (Some(Fault::NameTaken), "none", 1)),
    ("A", Some(1), 6, (Some(Fault::BadName), "none", 1)),
    ("b", None, 0, (Some(Fault::NameTaken), "none", 1)),
];

#[test]
fn what_a_file_keeps_is_added_with_it(rt: HostRuntime) {
    for (name, profile, levels, due) in &ADDED {
        let answer = added(&rt, rt.alloc(), name, *profile, *levels);
        equal_at(&rt, (*name, *profile, *levels), answer, *due);
    }
}

/// What was listed of an image that was added so is listed when its shelf is opened again.
#[test]
fn its_entry_is_that_of_its_file(rt: HostRuntime) {
    let alloc = rt.alloc();
    let mut archive = archive_of(&rt, alloc, &[]);
    let extras = asked(&rt, alloc, None);
    let entry = add_dressed(&rt, &mut archive, alloc, "a", 0, &extras).expect(&rt, "an image");
    let names = listed(&rt, &archive, alloc);
    let again = open(&rt, alloc, archive.into_shelf());
    let mut same = false;
    for other in again.list() {
        same = other.digest == entry.digest && other.name.as_str() == entry.name.as_str();
    }
    equal_at(&rt, names.as_str(), same, true);
}
