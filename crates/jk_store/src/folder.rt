//! A shelf of the files of a directory.

ghost use Rattle.std.specs.Prelude.{◌≡◌, ◌<◌, IfOk, IfErr};
ghost use Rattle.std.specs.String.{string_bytes};
ghost use Rattle.jk_math.specs.Memory.{IsMemory};
ghost use Rattle.jk_store.specs.Counting.{last_count, Counts};

use crate::failures::Failures;
use crate::names::{image_name, is_image_file, is_left_file};
use crate::shelf::Shelf;
use jk_files::{Other, Refusal};
use jk_math::Fault;
use std::alloc::Global;
use std::io;
use std::rt::Files;

/// The files of a directory. A call fails where the system refuses it, and at a name that no file
/// can have.
///
/// Its list has the files of images alone: regular files that can be opened, whose name is
/// `NAME.jp2` with a good NAME. What else stands under such a name, and what was left while a file
/// was written, it keeps to be told. When `write`, `rename` and `place` return, the system has stored
/// what they did, as far as it keeps its word: a file before its name.
#[derive(Drop)]
pub struct Folder<R> {
    rt: R,
    path: String,
    failures: Failures,
    others: Vec<Other>,
    left: Vec<String>,
    trouble: Option<Other>,
}

/// What a listing finds in a directory.
#[derive(Drop)]
struct Found {
    files: Vec<String>,
    others: Vec<Other>,
    left: Vec<String>,
}

/// The files of images in a directory, what else has such a name, and the temporary files.
fn look<R: Files>(rt: &R, alloc: Global, folder: &str) -> Result<Found, Refusal> {
    let listing = jk_files::list(rt, alloc, folder, is_image_file)?;
    let left = jk_files::names(rt, alloc, folder, is_left_file)?;
    Ok(Found {
        files: listing.files,
        others: listing.others,
        left,
    })
}

impl<R: Files + Drop> Folder<R> {
    /// The files of the directory at a path. They are reached by the runtime alone that is given.
    pub fn new(rt: R, alloc: Global, path: &str) -> Result<Folder<R>, Fault>
        ensures path { IfOk result (λ f. string_bytes f.path ≡ path.now) }
        ensures failures { IfOk result (λ f. f.failures.count ≡ 0) }
        ensures err { IfErr result IsMemory }
    {
        Ok(Folder {
            rt,
            path: String::from_str(alloc, path)?,
            failures: Failures::none(),
            others: Vec::new(alloc),
            left: Vec::new(alloc),
            trouble: None,
        })
    }

    /// What the last listing left out: what stands under the name of an image's file and can't be
    /// opened as a file, each with what the system said.
    pub fn others(&self) -> &[Other] {
        &self.others
    }

    /// Whether the last listing left out something under the name of an image.
    pub fn has_other(&self, name: &str) -> bool {
        for other in &self.others {
            if image_name(other.name.as_str()) == Some(name) {
                return true;
            }
        }
        false
    }

    /// The temporary files that the last listing saw.
    pub fn left(&self) -> &[String] {
        &self.left
    }

    /// The name at which the last call failed, empty for the directory itself, and what the system
    /// said.
    pub fn trouble(&self) -> Option<&Other> {
        self.trouble.as_ref()
    }

    /// The answer of a call on a name, which is counted, and kept to be told, where it failed.
    fn answered<T>(
        &mut self,
        alloc: Global,
        name: &str,
        answer: Result<T, Refusal>,
    ) -> Result<T, Fault>
        requires { self.old.failures.count < last_count }
        ensures { Counts result self.old.failures.count self.new.failures.count }
    {
        match answer {
            Ok(value) => Ok(value),
            Err(Refusal::Memory(refused)) => Err(Fault::Memory(refused)),
            Err(Refusal::System(said)) => {
                self.note(alloc, name, said);
                Err(self.failures.fail())
            }
        }
    }

    /// Keeps what the system said of a name. Where there is no memory for the name, it is kept
    /// without.
    fn note(&mut self, alloc: Global, name: &str, said: io::Error)
        ensures { self.new.failures ≡ self.old.failures }
    {
        let name = match String::from_str(alloc, name) {
            Ok(name) => name,
            Err(_) => String::new(alloc),
        };
        self.trouble = Some(Other { name, said });
    }
}

// What a directory holds and gives can't be said.
impl<R: Files + Drop> Shelf for Folder<R> {
    ghost keeps = { λ _ _. ⊥ };

    ghost gave = { λ _ _ _ _. Unit {0} };

    ghost gave_at = { λ _ _ _ _ _ _. Unit {0} };

    ghost lists = { λ _ _ _. Unit {0} };

    ghost failed = { λ f. f.failures.count };

    fn list(&mut self, alloc: Global) -> Result<Vec<String>, Fault> {
        self.failures.ready()?;
        let answer = look(&self.rt, alloc, self.path.as_str());
        let found = self.answered(alloc, "", answer)?;
        self.others = found.others;
        self.left = found.left;
        Ok(found.files)
    }

    fn read(&mut self, alloc: Global, name: &str) -> Result<Vec<u8>, Fault> {
        self.failures.ready()?;
        let answer = jk_files::read_inside(&self.rt, alloc, self.path.as_str(), name);
        self.answered(alloc, name, answer)
    }

    fn length(&self, alloc: Global, name: &str) -> Option<u64> {
        let stamp = jk_files::stamp_of(&self.rt, alloc, self.path.as_str(), name).ok()?;
        Some(stamp.length)
    }

    fn read_at(
        &mut self,
        alloc: Global,
        name: &str,
        start: u64,
        most: usize,
    ) -> Result<Vec<u8>, Fault> {
        self.failures.ready()?;
        let answer = jk_files::read_inside_at(
            &self.rt,
            alloc,
            self.path.as_str(),
            name,
            start,
            most,
        );
        self.answered(alloc, name, answer)
    }

    fn write(&mut self, alloc: Global, name: &str, bytes: &[u8]) -> Result<(), Fault> {
        self.failures.ready()?;
        let answer = jk_files::write_new(&self.rt, alloc, self.path.as_str(), name, bytes);
        self.answered(alloc, name, answer)
    }

    fn rename(&mut self, alloc: Global, from: &str, to: &str) -> Result<(), Fault> {
        self.failures.ready()?;
        let answer = jk_files::rename(&self.rt, alloc, self.path.as_str(), from, to);
        self.answered(alloc, from, answer)
    }

    fn place(&mut self, alloc: Global, from: &str, to: &str) -> Result<bool, Fault> {
        self.failures.ready()?;
        let answer = jk_files::rename_new(&self.rt, alloc, self.path.as_str(), from, to);
        self.answered(alloc, from, answer)
    }

    fn failures(&self) -> u64 {
        self.failures.count()
    }
}
