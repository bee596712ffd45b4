//! `jk check`: an archive is checked, and compared with a list of what it was.

use crate::archive::of_folder;
use crate::destination::STANDARD_OUTPUT;
use crate::failure::{Failure, INPUT, called, of_world};
use crate::status::Status;
use crate::streams::write;
use crate::unjudged::tell_unchecked;
use crate::workers::workers;
use crate::world::{Streams, World};
use jk_commands::{BadList, Sum, differences, differences_text, read_sums, sums_text};
use jk_math::Fault;
use jk_store::{Checked, Finding, check as check_files, is_image_file};
use jk_words::{Checking, cause_of};
use std::alloc::{AllocError, Global};

/// What a line of a list has.
const LINE_WORDS: &str = "64 hexadecimal digits, two spaces and the name of an image's file";

/// The files of a list, or the words for why it isn't one.
fn read_list(alloc: Global, bytes: &[u8]) -> Result<Result<Vec<Sum>, String>, Failure> {
    let Ok(text) = str::from_utf8(bytes) else {
        return Ok(Err(String::from_str(alloc, "not a text in UTF-8")?));
    };
    let sums = match read_sums(alloc, text) {
        Ok(sums) => sums,
        Err(BadList::Memory(refused)) => return Err(Failure::from(Fault::Memory(refused))),
        Err(BadList::Line(number)) => {
            return Ok(Err(format!(in alloc; "line {number} isn't {LINE_WORDS}")?));
        }
        Err(BadList::Again(number)) => {
            let words = format!(in alloc; "line {number} has the name of a line before it")?;
            return Ok(Err(words));
        }
    };
    let mut number = 0u64;
    for sum in &sums {
        number = number.saturating_add(1);
        if !is_image_file(sum.name.as_str()) {
            let name = sum.name.as_str();
            let words = format!(in alloc;
                "line {number}: {name} isn't the name of an image's file, which is 1 to 64 of a to z, 0 to 9, - and _, and .jp2"
            )?;
            return Ok(Err(words));
        }
    }
    Ok(Ok(sums))
}

/// The files of the list with which an archive is compared; none where the list can't be used,
/// which is told.
fn list<W: Streams>(alloc: Global, world: &mut W, name: &str) -> Result<Option<Vec<Sum>>, Failure> {
    let called = called(name, INPUT);
    let bytes = match world.read(alloc, name) {
        Ok(bytes) => bytes,
        Err(fault) => {
            match world.said() {
                Some(said) if fault == Fault::Shelf => {
                    let words = format!(in alloc; "jk: {called} can't be read: {said}\n")?;
                    world.tell(&words);
                    return Ok(None);
                }
                _ => return Err(Failure::from(fault)),
            }
        }
    };
    match read_list(alloc, &bytes)? {
        Ok(sums) => Ok(Some(sums)),
        Err(words) => {
            let line = format!(in alloc; "jk: {called}: {words}\n")?;
            world.tell(&line);
            Ok(None)
        }
    }
}

/// Tells that a file isn't an image, or that this isn't known, and why.
fn tell_file<W: Streams>(
    alloc: Global,
    world: &mut W,
    file: &Checked,
    in_words: bool,
) -> Result<bool, Failure> {
    let (fault, what) = match &file.finding {
        Finding::Whole(_) => return Ok(false),
        Finding::Broken(_, Fault::Memory(refused)) => (Fault::Memory(*refused), "can't be judged"),
        Finding::Broken(_, fault) => (*fault, "isn't an image"),
        Finding::Unread(fault) => (*fault, "can't be read"),
    };
    let line = format!(in alloc; "jk: {}.jp2 {what}: {fault}\n", file.name)?;
    world.tell(&line);
    if in_words {
        world.tell(&cause_of(&fault));
        world.tell(&"\n");
    }
    Ok(true)
}

/// The digest of a file, if it is an image or any file is asked for.
fn digest_of(finding: &Finding, any: bool) -> Option<[u8; 32]> {
    match finding {
        Finding::Whole(digest) => Some(*digest),
        Finding::Broken(digest, _) if any => Some(*digest),
        _ => None,
    }
}

/// The list of the files that are images, or of all that could be read.
fn sums_of(alloc: Global, checked: &[Checked], any: bool) -> Result<Vec<Sum>, AllocError> {
    let mut sums = Vec::new(alloc);
    for file in checked {
        if let Some(digest) = digest_of(&file.finding, any) {
            let name = format!(in alloc; "{}.jp2", file.name)?;
            sums.push(Sum { name, digest })?;
        }
    }
    Ok(sums)
}

/// Writes what was found: the list of the images, or what differs from a list. Answers whether
/// something differs.
fn write_found<W: Streams>(
    alloc: Global,
    world: &mut W,
    checked: &[Checked],
    before: Option<Vec<Sum>>,
) -> Result<bool, Failure> {
    match before {
        None => {
            let sums = sums_of(alloc, checked, false)?;
            let text = sums_text(alloc, &sums)?;
            write(alloc, world, STANDARD_OUTPUT, text.as_bytes())?;
            Ok(false)
        }
        Some(before) => {
            let now = sums_of(alloc, checked, true)?;
            let differing = differences(alloc, &before, &now)?;
            let text = differences_text(alloc, &differing)?;
            write(alloc, world, STANDARD_OUTPUT, text.as_bytes())?;
            Ok(!differing.is_empty())
        }
    }
}

/// What is found of the files of an archive's folder, and of how many names the folder has
/// something that can't be opened as a file, which is told.
fn checked<W: World>(
    alloc: Global,
    world: &mut W,
    workers: usize,
    name: &str,
    blocks: bool,
) -> Result<(Vec<Checked>, bool), Failure> {
    let mut folder = match world.folder(alloc, name) {
        Ok(folder) => folder,
        Err(fault) => return Err(of_world(alloc, world, fault, name, "opened")),
    };
    world.begin_opening(&mut folder);
    let found = check_files(world.runtime(), alloc, workers, &mut folder, blocks);
    world.end_opening(&mut folder);
    match found {
        Ok(found) => {
            let has_others = world.tell_others(&folder);
            world.give_back(alloc, name, folder)?;
            Ok((found, has_others))
        }
        Err(fault) => Err(of_folder(alloc, world, fault, name, &folder)),
    }
}

/// `jk check DIR`: how many workers there are, the list, and then the files. What isn't checked
/// because of its name is told. The status says whether all files are images and, where there is a
/// list, are as it says; and where that is asked, whether all are checked.
pub(crate) fn check<W: World>(
    alloc: Global,
    world: &mut W,
    line: &Checking<'_>,
    in_words: bool,
) -> Result<Status, Failure> {
    let workers = workers(alloc, world, line.workers)?;
    let before = match line.against {
        None => None,
        Some(name) => match list(alloc, world, name)? {
            Some(sums) => Some(sums),
            None => return Ok(Status::WrongLine),
        },
    };
    let (found, has_others) = checked(alloc, world, workers, line.folder, line.decode)?;
    let are_unchecked = tell_unchecked(alloc, world, line.folder)?;
    let mut is_bad = has_others || (line.strict && are_unchecked);
    for file in &found {
        if tell_file(alloc, world, file, in_words)? {
            is_bad = true;
        }
    }
    if write_found(alloc, world, &found, before)? {
        is_bad = true;
    }
    if is_bad {
        Ok(Status::Refused)
    } else {
        Ok(Status::Done)
    }
}
