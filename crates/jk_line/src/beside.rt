//! The folder of an archive to which an image is added: its name is judged by what is there, and its
//! file is stored.

use crate::archive::of_folder;
use crate::failure::{Failure, of_world};
use crate::world::World;
use jk_math::Fault;
use jk_store::{Archive, Encoded, Images, Shelf, is_good_name, judge_name};
use std::alloc::Global;

/// How many images an archive has at most.
pub(crate) const MOST_IMAGES: usize = 4096;

/// Why an image isn't stored: the folder can't be used, or the image is refused.
#[derive(Drop)]
pub(crate) enum Unstored {
    Folder(Failure),
    Image(Fault),
}

impl Unstored {
    /// The fault.
    pub(crate) fn fault(&self) -> Fault {
        match self {
            Unstored::Folder(failure) => failure.fault,
            Unstored::Image(fault) => *fault,
        }
    }

    /// The fault, with words where the folder has some.
    pub(crate) fn failure(self) -> Failure {
        match self {
            Unstored::Folder(failure) => failure,
            Unstored::Image(fault) => Failure::from(fault),
        }
    }
}

/// Judges a name by the names of a folder's files. Answers false where there may be 4,096 images:
/// then only opening the archive tells.
///
/// The first of these: Shelf; BadName; NameTaken, also by a file that wouldn't be listed, and by
/// what can't be opened as a file.
fn judge_by_files<W: World>(
    alloc: Global,
    world: &W,
    shelf: &mut W::Folder,
    name: &str,
) -> Result<bool, Fault> {
    let are_few = judge_name(alloc, shelf, name)?;
    if world.has_other(shelf, name) {
        return Err(Fault::NameTaken);
    }
    Ok(are_few)
}

/// Whether an archive has a file of a name, listed or not.
fn has<S: Shelf>(archive: &Archive<S>, name: &str) -> bool {
    for entry in archive.list() {
        if entry.name.as_str() == name {
            return true;
        }
    }
    for file in archive.skipped() {
        if file.name.as_str() == name {
            return true;
        }
    }
    false
}

/// Whether an archive takes an image of a name.
///
/// The first of these: BadName; NameTaken, also by a file that isn't listed; Limit where the
/// archive is full.
fn check_name<S: Shelf>(archive: &Archive<S>, name: &str) -> Result<(), Fault> {
    if !is_good_name(name) {
        return Err(Fault::BadName);
    }
    if has(archive, name) {
        return Err(Fault::NameTaken);
    }
    if MOST_IMAGES <= archive.list().len() {
        return Err(Fault::Limit);
    }
    Ok(())
}

/// Judges a name by the images of a folder that may have 4,096, all of which are read.
fn judge_by_images<W: World>(
    alloc: Global,
    world: &mut W,
    shelf: W::Folder,
    name: &str,
) -> (W::Folder, Result<(), Fault>) {
    let mut shelf = shelf;
    world.begin_opening(&mut shelf);
    let read = Images::read(alloc, &mut shelf);
    world.end_opening(&mut shelf);
    match read {
        Ok(images) => {
            let archive = Archive::with(shelf, images);
            let checked = check_name(&archive, name);
            (archive.into_shelf(), checked)
        }
        Err(fault) => (shelf, Err(fault)),
    }
}

/// Judges a name by what a folder has.
fn judge_beside<W: World>(
    alloc: Global,
    world: &mut W,
    shelf: W::Folder,
    name: &str,
) -> (W::Folder, Result<(), Fault>) {
    let mut shelf = shelf;
    match judge_by_files(alloc, world, &mut shelf, name) {
        Ok(true) => (shelf, Ok(())),
        Ok(false) => judge_by_images(alloc, world, shelf, name),
        Err(fault) => (shelf, Err(fault)),
    }
}

/// Why a name isn't taken by a folder.
fn of_judging<W: World>(
    alloc: Global,
    world: &mut W,
    fault: Fault,
    folder: &str,
    shelf: &W::Folder,
) -> Unstored {
    match fault {
        Fault::BadName | Fault::NameTaken | Fault::Limit => Unstored::Image(fault),
        _ => Unstored::Folder(of_folder(alloc, world, fault, folder, shelf)),
    }
}

/// The folder of an archive.
fn opened<W: World>(alloc: Global, world: &mut W, folder: &str) -> Result<W::Folder, Unstored> {
    match world.folder(alloc, folder) {
        Ok(shelf) => Ok(shelf),
        Err(fault) => {
            let failure = of_world(alloc, world, fault, folder, "opened");
            Err(Unstored::Folder(failure))
        }
    }
}

/// Takes the folder of an archive back.
fn given_back<W: World>(
    alloc: Global,
    world: &mut W,
    folder: &str,
    shelf: W::Folder,
) -> Result<(), Unstored> {
    match world.give_back(alloc, folder, shelf) {
        Ok(()) => Ok(()),
        Err(fault) => Err(Unstored::Folder(Failure::from(fault))),
    }
}

/// The folder of an archive, and whether it takes an image of a name by now, as its files tell.
fn looked<W: World>(
    alloc: Global,
    world: &mut W,
    folder: &str,
    name: &str,
) -> Result<(W::Folder, Result<(), Unstored>), Unstored> {
    let mut shelf = opened(alloc, world, folder)?;
    let judged = match judge_by_files(alloc, world, &mut shelf, name) {
        Ok(_) => Ok(()),
        Err(fault) => Err(of_judging(alloc, world, fault, folder, &shelf)),
    };
    Ok((shelf, judged))
}

/// A first look at a name, without the lock and before the image is encoded: what is taken by now
/// is refused early. What it passes is judged again while the folder is locked.
///
/// The first of these: Shelf; BadName; NameTaken.
pub(crate) fn look<W: World>(
    alloc: Global,
    world: &mut W,
    folder: &str,
    name: &str,
) -> Result<(), Unstored> {
    let (shelf, judged) = looked(alloc, world, folder, name)?;
    given_back(alloc, world, folder, shelf)?;
    judged
}

/// The same, where it is told what of the folder can't be opened as a file, if the name is taken by
/// none.
pub(crate) fn look_and_tell<W: World>(
    alloc: Global,
    world: &mut W,
    folder: &str,
    name: &str,
) -> Result<(), Unstored> {
    let (shelf, judged) = looked(alloc, world, folder, name)?;
    if judged.is_ok() {
        let _ = world.tell_others(&shelf);
    }
    given_back(alloc, world, folder, shelf)?;
    judged
}

/// Tells what of a folder can't be opened as a file. Shelf: its names can't be listed.
pub(crate) fn tell_others<W: World>(
    alloc: Global,
    world: &mut W,
    folder: &str,
) -> Result<(), Unstored> {
    let mut shelf = opened(alloc, world, folder)?;
    let listed = match shelf.list(alloc) {
        Ok(_) => {
            let _ = world.tell_others(&shelf);
            Ok(())
        }
        Err(fault) => Err(of_judging(alloc, world, fault, folder, &shelf)),
    };
    given_back(alloc, world, folder, shelf)?;
    listed
}

/// Stores an image in a folder that is locked. Its name is judged by what the folder has, and then
/// it is told what kept it from being encoded.
fn store_beside<W: World>(
    alloc: Global,
    world: &mut W,
    folder: &str,
    encoded: &Encoded,
) -> Result<(), Unstored> {
    let shelf = opened(alloc, world, folder)?;
    let (mut shelf, judged) = judge_beside(alloc, world, shelf, encoded.name());
    let stored = match judged {
        Ok(()) => match encoded.store(alloc, &mut shelf) {
            Ok(()) => Ok(()),
            Err(fault) => Err(Unstored::Image(fault)),
        },
        Err(fault) => Err(of_judging(alloc, world, fault, folder, &shelf)),
    };
    given_back(alloc, world, folder, shelf)?;
    stored
}

/// Stores an image in the folder of an archive, which is locked for that alone.
pub(crate) fn store<W: World>(
    alloc: Global,
    world: &mut W,
    folder: &str,
    encoded: &Encoded,
) -> Result<(), Unstored> {
    if let Err(fault) = world.lock(alloc, folder) {
        let failure = of_world(alloc, world, fault, folder, "locked");
        return Err(Unstored::Folder(failure));
    }
    let stored = store_beside(alloc, world, folder, encoded);
    world.release();
    stored
}
