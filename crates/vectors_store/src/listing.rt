//! Files that are opened one by one, and listed by an archive that is there already.

use crate::asserts::{equal, equal_at};
use crate::calls::{bytes, shelf_of, whole};
use crate::contents::Content;
use crate::shelves::{Act, act_at};
use jk_math::Fault;
use jk_store::{Archive, Images, Prepared, Shelf, image_name};
use std::alloc::Global;

/// The files of a shelf.
static FILES: [(&str, Content); 5] = [
    ("a.jp2", Content::Page),
    ("b.jp2", Content::Dressed),
    ("bare.jp2", Content::Bare),
    ("byte.jp2", Content::Byte),
    ("A.jp2", Content::Page),
];

/// What becomes of the file of an image that is read from a shelf and listed by an archive.
fn list<S: Shelf, T: Shelf>(
    alloc: Global,
    shelf: &mut S,
    archive: &mut Archive<T>,
    name: &str,
) -> Result<(), Fault> {
    let image = Prepared::read(alloc, shelf, name)?;
    archive.list_prepared(&image)?;
    Ok(())
}

/// Names, in the order in which their files are read and listed, and what becomes of each: the name
/// is judged before the file.
static ORDER: [(&str, Option<Fault>); 8] = [
    ("b", None),
    ("none", Some(Fault::Shelf)),
    ("A", Some(Fault::BadName)),
    ("a", None),
    ("b", Some(Fault::NameTaken)),
    ("bare", Some(Fault::BadBox)),
    ("byte", Some(Fault::Truncated)),
    ("a", Some(Fault::NameTaken)),
];

/// Images are listed in the order in which they are opened, and each is the file that stands there.
#[test]
fn files_are_listed_one_by_one(rt: HostRuntime) {
    let alloc = rt.alloc();
    let mut shelf = shelf_of(&rt, alloc, &FILES);
    let mut archive = Archive::with(shelf_of(&rt, alloc, &FILES), Images::none(alloc));
    for (name, due) in &ORDER {
        let found = list(alloc, &mut shelf, &mut archive, name).err();
        equal_at(&rt, *name, found, *due);
    }
    equal(&rt, archive.list().len(), 2);
    for (entry, content) in archive
        .list()
        .iter()
        .zip(&[Content::Dressed, Content::Page])
    {
        let file = bytes(&rt, alloc, *content);
        equal(&rt, entry.digest, jk_digest::sha256(&file));
    }
    let file = whole(&mut archive, alloc, "b").expect(&rt, "the file of an image");
    equal(
        &rt,
        file.as_slice() == bytes(&rt, alloc, Content::Dressed).as_slice(),
        true,
    );
}

/// A file that can't be read is told, and the next one is listed.
#[test]
fn a_read_that_fails(rt: HostRuntime) {
    let alloc = rt.alloc();
    let mut shelf = act_at(shelf_of(&rt, alloc, &FILES), 1, Act::Fail);
    let mut archive = Archive::with(shelf_of(&rt, alloc, &FILES), Images::none(alloc));
    let first = list(alloc, &mut shelf, &mut archive, "a").err();
    let second = list(alloc, &mut shelf, &mut archive, "a").err();
    equal(
        &rt,
        (first, second, shelf.failures()),
        (Some(Fault::Shelf), None, 1),
    );
}

/// The names of images by those of files.
#[test]
fn names_of_files(rt: HostRuntime) {
    for (file, due) in [
        ("a.jp2", Some("a")),
        ("A.jp2", None),
        ("a.jp2.jp2", None),
        (".jp2", None),
        ("a.tmp", None),
    ] {
        equal_at(&rt, file, image_name(file), due);
    }
}
