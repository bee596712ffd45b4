//! Shelves that fail at a call, that change what they give, that have very many files, and that give
//! files in more room than they take.

ghost use Rattle.std.specs.Prelude.{◌≡◌};
ghost use Rattle.jk_store.specs.Counting.{Counts};

use jk_math::Fault;
use jk_store::{Failures, MemoryShelf, Shelf};
use std::alloc::Global;

/// What a shelf does at one of its calls.
#[derive(Clone, Copy, PartialEq, Eq)]
pub(crate) enum Act {
    /// It fails.
    Fail,
    /// It gives a byte more, where it is a read.
    Change,
    /// Another file comes under the name first, where a file is placed.
    Come,
}

/// The file that comes under a name.
pub(crate) const CAME: &[u8] = b"came";

/// A shelf in memory that acts at one of its calls, and at no other. It counts the stretches that
/// are read of its files, and their bytes.
#[derive(Drop)]
pub(crate) struct Acting {
    inner: MemoryShelf,
    left: u64,
    act: Act,
    failures: Failures,
    pub(crate) stretches: u64,
    pub(crate) bytes: u64,
}

/// A shelf that acts at its nth call, counted from 1; at the call 0 it never does.
pub(crate) fn act_at(inner: MemoryShelf, call: u64, act: Act) -> Acting {
    Acting {
        inner,
        left: call,
        act,
        failures: Failures::none(),
        stretches: 0,
        bytes: 0,
    }
}

impl Acting {
    /// Whether it acts so at the call that begins.
    fn acts(&mut self, act: Act) -> bool
        ensures { self.new.failures ≡ self.old.failures }
    {
        let due = self.left == 1;
        self.left = self.left.saturating_sub(1);
        due && self.act == act
    }

    /// Counts a stretch.
    fn note(&mut self, bytes: usize)
        ensures { self.new.failures ≡ self.old.failures }
    {
        self.stretches = self.stretches.saturating_add(1);
        self.bytes = self.bytes.saturating_add(bytes as u64);
    }
}

impl Shelf for Acting {
    ghost keeps = { λ _ _. ⊥ };

    ghost gave = { λ _ _ _ _. Unit {0} };

    ghost gave_at = { λ _ _ _ _ _ _. Unit {0} };

    ghost lists = { λ _ _ _. Unit {0} };

    ghost failed = { λ s. s.failures.count };

    fn list(&mut self, alloc: Global) -> Result<Vec<String>, Fault> {
        self.failures.ready()?;
        if self.acts(Act::Fail) {
            return Err(self.failures.fail());
        }
        let answer = self.inner.list(alloc);
        self.failures.counted(answer)
    }

    fn read(&mut self, alloc: Global, name: &str) -> Result<Vec<u8>, Fault> {
        self.failures.ready()?;
        let changes = self.act == Act::Change;
        if self.acts(self.act) && self.act != Act::Come {
            if !changes {
                return Err(self.failures.fail());
            }
            let mut bytes = self.failures.counted(self.inner.read(alloc, name))?;
            bytes.push(0)?;
            return Ok(bytes);
        }
        let answer = self.inner.read(alloc, name);
        self.failures.counted(answer)
    }

    fn read_at(
        &mut self,
        alloc: Global,
        name: &str,
        start: u64,
        most: usize,
    ) -> Result<Vec<u8>, Fault> {
        self.failures.ready()?;
        let changes = self.act == Act::Change;
        if self.acts(self.act) && self.act != Act::Come {
            if !changes {
                return Err(self.failures.fail());
            }
            let mut bytes = self
                .failures
                .counted(self.inner.read_at(alloc, name, start, most))?;
            bytes.push(0)?;
            return Ok(bytes);
        }
        let answer = self.inner.read_at(alloc, name, start, most);
        let bytes = self.failures.counted(answer)?;
        self.note(bytes.len());
        Ok(bytes)
    }

    fn write(&mut self, alloc: Global, name: &str, bytes: &[u8]) -> Result<(), Fault> {
        self.failures.ready()?;
        if self.acts(Act::Fail) {
            return Err(self.failures.fail());
        }
        let answer = self.inner.write(alloc, name, bytes);
        self.failures.counted(answer)
    }

    fn rename(&mut self, alloc: Global, from: &str, to: &str) -> Result<(), Fault> {
        self.failures.ready()?;
        if self.acts(Act::Fail) {
            return Err(self.failures.fail());
        }
        let answer = self.inner.rename(alloc, from, to);
        self.failures.counted(answer)
    }

    fn place(&mut self, alloc: Global, from: &str, to: &str) -> Result<bool, Fault> {
        self.failures.ready()?;
        let act = self.act;
        let due = self.acts(act);
        if due && act == Act::Fail {
            return Err(self.failures.fail());
        }
        if due && act == Act::Come {
            let came = self.inner.write(alloc, to, CAME);
            self.failures.counted(came)?;
        }
        let answer = self.inner.place(alloc, from, to);
        self.failures.counted(answer)
    }

    fn failures(&self) -> u64 {
        self.failures.count()
    }
}

/// A shelf of so many files `0000.jp2`, `0001.jp2` and so on, which all have the same bytes. Those of
/// the first are given in so much room at least: they take so much memory, of which most isn't
/// touched. It takes no other file.
#[derive(Drop)]
pub(crate) struct Many {
    pub(crate) count: u16,
    pub(crate) room: usize,
    pub(crate) bytes: Vec<u8>,
}

/// A shelf of so many files that all have the same bytes, and no room for more.
pub(crate) fn alike(count: u16, bytes: Vec<u8>) -> Many {
    Many {
        count,
        room: 0,
        bytes,
    }
}

/// Bytes in so much room at least.
fn in_room(alloc: Global, bytes: &[u8], room: usize) -> Result<Vec<u8>, Fault>
    ensures { Counts result 0 0 }
{
    let mut given = Vec::with_capacity(alloc, room.max(bytes.len()))?;
    given.extend_from_slice(bytes)?;
    Ok(given)
}

/// At most so many of bytes, from a place on.
fn stretch(alloc: Global, bytes: &[u8], start: u64, most: usize) -> Result<Vec<u8>, Fault>
    ensures { Counts result 0 0 }
{
    let start = start.min(bytes.len() as u64) as usize;
    let rest = &bytes[start..];
    Ok(Vec::from_slice(alloc, &rest[..most.min(rest.len())])?)
}

impl Shelf for Many {
    ghost keeps = { λ _ _. ⊥ };

    ghost gave = { λ _ _ _ _. Unit {0} };

    ghost gave_at = { λ _ _ _ _ _ _. Unit {0} };

    ghost lists = { λ _ _ _. Unit {0} };

    ghost failed = { λ _. 0 };

    fn list(&mut self, alloc: Global) -> Result<Vec<String>, Fault> {
        let mut names = Vec::new(alloc);
        for number in 0..self.count {
            names.push(format!(in alloc; "{number:04}.jp2")?)?;
        }
        Ok(names)
    }

    fn read(&mut self, alloc: Global, name: &str) -> Result<Vec<u8>, Fault> {
        let room = if name == "0000.jp2" { self.room } else { 0 };
        in_room(alloc, &self.bytes, room)
    }

    fn read_at(
        &mut self,
        alloc: Global,
        _name: &str,
        start: u64,
        most: usize,
    ) -> Result<Vec<u8>, Fault> {
        stretch(alloc, &self.bytes, start, most)
    }

    fn write(&mut self, _alloc: Global, _name: &str, _bytes: &[u8]) -> Result<(), Fault> {
        Ok(())
    }

    fn rename(&mut self, _alloc: Global, _from: &str, _to: &str) -> Result<(), Fault> {
        Ok(())
    }

    fn place(&mut self, _alloc: Global, _from: &str, _to: &str) -> Result<bool, Fault> {
        Ok(true)
    }

    fn failures(&self) -> u64 {
        0
    }
}

/// A file, and the room in which its bytes are given.
#[derive(Drop)]
pub(crate) struct Roomed {
    pub(crate) bytes: Vec<u8>,
    pub(crate) room: usize,
}

/// A shelf of up to ten files `0.jp2`, `1.jp2` and so on, whose bytes are given in room for more. It
/// takes no other.
#[derive(Drop)]
pub(crate) struct Roomy {
    pub(crate) files: Vec<Roomed>,
}

impl Roomy {
    /// The file of a name that begins with its number.
    fn file(&self, name: &str) -> Option<&Roomed> {
        let digit = *name.as_bytes().first()?;
        self.files.get(digit.checked_sub(b'0')? as usize)
    }
}

impl Shelf for Roomy {
    ghost keeps = { λ _ _. ⊥ };

    ghost gave = { λ _ _ _ _. Unit {0} };

    ghost gave_at = { λ _ _ _ _ _ _. Unit {0} };

    ghost lists = { λ _ _ _. Unit {0} };

    ghost failed = { λ _. 0 };

    fn list(&mut self, alloc: Global) -> Result<Vec<String>, Fault> {
        let mut names = Vec::new(alloc);
        for number in 0..self.files.len() {
            names.push(format!(in alloc; "{number}.jp2")?)?;
        }
        Ok(names)
    }

    fn read(&mut self, alloc: Global, name: &str) -> Result<Vec<u8>, Fault> {
        match self.file(name) {
            Some(file) => in_room(alloc, &file.bytes, file.room),
            None => Ok(Vec::new(alloc)),
        }
    }

    fn read_at(
        &mut self,
        alloc: Global,
        name: &str,
        start: u64,
        most: usize,
    ) -> Result<Vec<u8>, Fault> {
        match self.file(name) {
            Some(file) => stretch(alloc, &file.bytes, start, most),
            None => Ok(Vec::new(alloc)),
        }
    }

    fn write(&mut self, _alloc: Global, _name: &str, _bytes: &[u8]) -> Result<(), Fault> {
        Ok(())
    }

    fn rename(&mut self, _alloc: Global, _from: &str, _to: &str) -> Result<(), Fault> {
        Ok(())
    }

    fn place(&mut self, _alloc: Global, _from: &str, _to: &str) -> Result<bool, Fault> {
        Ok(true)
    }

    fn failures(&self) -> u64 {
        0
    }
}
