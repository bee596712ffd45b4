//! What stands in the folder of an archive and isn't the file of an image by its name.

use crate::failure::{Failure, of_world};
use crate::world::World;
use jk_store::is_good_name;
use std::alloc::Global;

/// Something in the folder of an archive whose name isn't that of an image's file.
#[derive(Drop)]
pub struct Unjudged {
    /// The name, with a mark in place of each part of it that isn't UTF-8.
    pub name: String,
    /// Whether it is a folder.
    pub is_folder: bool,
}

/// How many characters the name of an image has at most.
const LONGEST: usize = 64;

/// Whether a file is one of an adding that goes on, or was interrupted.
fn is_left(name: &str) -> bool {
    match name.strip_suffix(".tmp") {
        Some(name) => is_good_name(name),
        None => false,
    }
}

/// Why something isn't checked.
fn cause(it: &Unjudged) -> &'static str {
    let name = it.name.as_str();
    if it.is_folder {
        return "it is a folder";
    }
    if is_left(name) {
        return "jk add is writing it, or was interrupted";
    }
    match name.strip_suffix(".jp2") {
        None => "its name doesn't end in .jp2",
        Some("") => "its name has nothing before .jp2",
        Some(name) if LONGEST < name.len() && name.is_ascii() => {
            "its name has more than 64 characters before .jp2"
        }
        Some(_) => "its name has other characters than a to z, 0 to 9, - and _",
    }
}

/// What of a folder isn't checked or served because of its name.
fn found<W: World>(alloc: Global, world: &mut W, folder: &str) -> Result<Vec<Unjudged>, Failure> {
    match world.unjudged(alloc, folder) {
        Ok(found) => Ok(found),
        Err(fault) => Err(of_world(alloc, world, fault, folder, "read")),
    }
}

/// Writes to standard error what of a folder isn't checked because of its name, and why. Whether
/// there is any.
pub(crate) fn tell_unchecked<W: World>(
    alloc: Global,
    world: &mut W,
    folder: &str,
) -> Result<bool, Failure> {
    let found = found(alloc, world, folder)?;
    for it in &found {
        let line = format!(in alloc; "jk: {} isn't checked: {}\n", it.name, cause(it))?;
        world.tell(&line);
    }
    Ok(!found.is_empty())
}

/// How many files and folders of a folder aren't served because of their names. Those of an adding
/// that goes on, or was interrupted, aren't counted.
pub(crate) fn count_unserved<W: World>(
    alloc: Global,
    world: &mut W,
    folder: &str,
) -> Result<usize, Failure> {
    let found = found(alloc, world, folder)?;
    let mut count = 0usize;
    for it in &found {
        if it.is_folder || !is_left(it.name.as_str()) {
            count = count.saturating_add(1);
        }
    }
    Ok(count)
}
