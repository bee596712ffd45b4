//! Where a file that is written anywhere goes.

use crate::owning::{Ownable, Owner, owner_of};
use crate::place::is_file_name;
use crate::sameness::are_same;
use std::fs::{Metadata, OpenFile, OpenOptions, Permissions};
use std::io::{self, ErrorKind};
use std::rt::Files;

/// What may not be replaced.
#[derive(Clone, Copy, Debug)]
pub struct Rules<'a> {
    /// The path of the input: the output may not be the same regular file, links followed.
    pub input: Option<&'a str>,
    /// Whether everything that has the output's path stays.
    pub is_new: bool,
}

/// What a file has that is to be replaced, and the new one is given.
#[derive(Drop)]
pub(crate) struct Old {
    permissions: Permissions,
    owner: Owner,
}

/// What the system tells of a file that is to be replaced.
fn old_of(metadata: &Metadata) -> Old {
    Old {
        permissions: metadata.permissions(),
        owner: owner_of(metadata),
    }
}

impl Old {
    /// Gives a new file the owner and the permissions. If the system doesn't allow another owner, the
    /// file keeps its own.
    pub(crate) fn give_to<F: OpenFile + Ownable>(self, file: &F) -> io::Result<()> {
        let Old { permissions, owner } = self;
        if owner_of(&file.metadata()?) != owner {
            let _ = file.give_to(owner);
        }
        file.set_permissions(permissions)
    }
}

/// Where what is written goes.
#[derive(Drop)]
pub(crate) enum Target {
    /// A name that nothing has.
    New,
    /// A regular file.
    File(Old),
    /// A link that leads to a regular file.
    Link(Old),
    /// Anything else, as a pipe or a device, which is opened and written.
    AsItIs,
}

/// A path that nothing has. One without a name at its end is left to the system.
fn new_target(path: &str) -> Target {
    if is_file_name(split(path).1) {
        Target::New
    } else {
        Target::AsItIs
    }
}

/// What stands under a path, where that may be replaced. A link below `/dev` is one of the system's
/// to an open file, so it is written as it is.
fn target_there<R: Files>(rt: &R, path: &str, metadata: &Metadata) -> Target {
    if metadata.is_file() {
        return Target::File(old_of(metadata));
    }
    if metadata.is_symlink() && !path.starts_with("/dev/") {
        return match rt.metadata(path) {
            Ok(metadata) if metadata.is_file() => Target::Link(old_of(&metadata)),
            _ => Target::AsItIs,
        };
    }
    Target::AsItIs
}

/// Refuses an output that is the input.
fn check_input<R: Files>(rt: &R, path: &str, rules: Rules<'_>) -> io::Result<()> {
    match rules.input {
        Some(input) if are_same(rt, input, path) => {
            Err(io::Error::new(ErrorKind::InvalidInput, "it is the input too"))
        }
        _ => Ok(()),
    }
}

/// What stands under a path, or why it may not be replaced.
pub(crate) fn target_of<R: Files>(rt: &R, path: &str, rules: Rules<'_>) -> io::Result<Target> {
    check_input(rt, path, rules)?;
    match rt.symlink_metadata(path) {
        Ok(_) if rules.is_new => Err(is_there()),
        Ok(metadata) => Ok(target_there(rt, path, &metadata)),
        Err(said) if said.kind() == ErrorKind::NotFound => Ok(new_target(path)),
        Err(said) => Err(said),
    }
}

/// What is said where something has a path that must be new.
pub(crate) fn is_there() -> io::Error {
    io::Error::new(ErrorKind::AlreadyExists, "it is there already")
}

/// A path's folder and the name inside it.
pub(crate) fn split(path: &str) -> (&str, &str) {
    match path.rsplit_once('/') {
        Some(("", name)) => ("/", name),
        Some((folder, name)) => (folder, name),
        None => ("", path),
    }
}

/// Refuses a file that may not be written.
pub(crate) fn check_writable<R: Files>(rt: &R, path: &str) -> io::Result<()> {
    let mut options = OpenOptions::new();
    options.write(true);
    let _ = rt.open_file(&options, path)?;
    Ok(())
}

/// Whether a folder doesn't allow that a file beside another is made or takes its place.
pub(crate) fn is_forbidden(said: &io::Error) -> bool {
    matches!(
        said.kind(),
        ErrorKind::PermissionDenied | ErrorKind::ReadOnlyFilesystem | ErrorKind::ResourceBusy
    )
}
