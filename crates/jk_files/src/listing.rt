//! The files of a folder.

ghost use Rattle.std.specs.Prelude.{◌≡◌, ◌++◌, [], ◌∷◌, IfOk, OnOk};
ghost use Rattle.std.specs.String.{string_bytes};
ghost use Rattle.jk_files.specs.Listings.{file_names, other_names, AddsName};

use crate::opening::open_to_read;
use crate::place::{folder_path, is_file_name, place};
use crate::reading::read_all;
use crate::refusal::Refusal;
use jk_math::Refused;
use std::alloc::Global;
use std::io::{self, ErrorKind};
use std::rt::Files;
use std::str;

/// What stands under a wanted name, but isn't a file that can be read.
#[derive(Drop)]
pub struct Other {
    /// The name.
    pub name: String,
    /// What the system said of it.
    pub said: io::Error,
}

/// What stands in a folder under the names that are wanted.
#[derive(Drop)]
pub struct Listing {
    /// The names of regular files, links followed, that can be opened to read them.
    pub files: Vec<String>,
    /// All else.
    pub others: Vec<Other>,
}

/// What stands under a name.
#[derive(Drop)]
enum Found {
    /// A regular file that can be read.
    File,
    /// Nothing any more.
    Gone,
    /// Something else, of which the system said this.
    Other(io::Error),
}

/// Whether nothing stands under a path, not even a link that leads nowhere.
fn is_gone<R: Files>(rt: &R, path: &str) -> bool {
    match rt.symlink_metadata(path) {
        Ok(_) => false,
        Err(said) => said.kind() == ErrorKind::NotFound,
    }
}

/// What stands under a path.
fn look<R: Files>(rt: &R, path: &str) -> Found {
    match open_to_read(rt, path) {
        Ok(_) => Found::File,
        Err(said) => {
            if said.kind() == ErrorKind::NotFound && is_gone(rt, path) {
                Found::Gone
            } else {
                Found::Other(said)
            }
        }
    }
}

/// A text of its own.
fn text(alloc: Global, name: &str) -> Result<String, Refused>
    ensures { IfOk result (λ s. string_bytes s ≡ name.now) }
{
    Ok(String::from_str(alloc, name)?)
}

impl Listing {
    /// Nothing yet.
    fn new(alloc: Global) -> Listing
        ensures files { file_names result ≡ [] }
        ensures others { other_names result ≡ [] }
    {
        Listing {
            files: Vec::new(alloc),
            others: Vec::new(alloc),
        }
    }

    /// Adds what stands in a folder under a name.
    fn add<R: Files>(
        &mut self,
        rt: &R,
        alloc: Global,
        folder: &str,
        name: &str,
    ) -> Result<(), Refusal>
        ensures { OnOk result (AddsName self.old self.new name.now) }
    {
        match look(rt, place(alloc, folder, name)?.as_str()) {
            Found::File => self.add_file(text(alloc, name)?)?,
            Found::Gone => {}
            Found::Other(said) => {
                let name = text(alloc, name)?;
                self.add_other(Other { name, said })?;
            }
        }
        Ok(())
    }

    /// Adds the name of a file.
    fn add_file(&mut self, name: String) -> Result<(), Refused>
        ensures files { OnOk result (file_names self.new ≡ file_names self.old ++ string_bytes name ∷ []) }
        ensures others { OnOk result (other_names self.new ≡ other_names self.old) }
    {
        Ok(self.files.push(name)?)
    }

    /// Adds something else.
    fn add_other(&mut self, other: Other) -> Result<(), Refused>
        ensures files { OnOk result (file_names self.new ≡ file_names self.old) }
        ensures others { OnOk result (other_names self.new ≡ other_names self.old ++ string_bytes other.name ∷ []) }
    {
        Ok(self.others.push(other)?)
    }
}

/// All names of a folder, each with a NUL after it.
fn all_names<R: Files>(rt: &R, alloc: Global, folder: &str) -> Result<Vec<u8>, Refusal> {
    let path = folder_path(alloc, folder)?;
    read_all(alloc, rt.open_dir(path.as_str())?)
}

/// What stands in a folder under the names that are wanted. The system is asked nothing of any
/// other name; a name that isn't UTF-8 is passed over, and so is one that is gone meanwhile.
///
/// System: the folder can't be read.
pub fn list<R: Files, W: Fn(&str) -> bool>(
    rt: &R,
    alloc: Global,
    folder: &str,
    wanted: W,
) -> Result<Listing, Refusal>
    requires { W.IsAlwaysCallable wanted }
{
    let mut listing = Listing::new(alloc);
    let names = all_names(rt, alloc, folder)?;
    for name in names.split(|byte| *byte == 0) {
        let Ok(name) = str::from_utf8(name) else {
            continue;
        };
        if is_file_name(name) && wanted(name) {
            listing.add(rt, alloc, folder, name)?;
        }
    }
    Ok(listing)
}

/// The names of a folder that are wanted. The system is asked nothing of what stands under them.
///
/// System: the folder can't be read.
pub fn names<R: Files, W: Fn(&str) -> bool>(
    rt: &R,
    alloc: Global,
    folder: &str,
    wanted: W,
) -> Result<Vec<String>, Refusal>
    requires { W.IsAlwaysCallable wanted }
{
    let mut found = Vec::new(alloc);
    let names = all_names(rt, alloc, folder)?;
    for name in names.split(|byte| *byte == 0) {
        let Ok(name) = str::from_utf8(name) else {
            continue;
        };
        if is_file_name(name) && wanted(name) {
            push(&mut found, text(alloc, name)?)?;
        }
    }
    Ok(found)
}

/// Adds a name.
fn push(names: &mut Vec<String>, name: String) -> Result<(), Refused> {
    Ok(names.push(name)?)
}
