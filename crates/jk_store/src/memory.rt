//! A shelf in memory.

ghost use Rattle.std.specs.Prelude.{◌≡◌, ℕ, List, [], take, drop, Some, None, IfOk, OnOk, OnErr, IfErr};
ghost use Rattle.std.specs.Option.{option_map, is_some};
ghost use Rattle.jk_math.specs.Memory.{IsMemory};
ghost use Rattle.jk_store.specs.Memories.{KeepsFiles, Gave, GaveAt, Lists, Unlisted, CannotRead, Unwritten, Unrenamed, Taken, HoldSame};
ghost use Rattle.jk_store.specs.Memories.{HoldsInstead, held, names_of};

use crate::failures::Failures;
use crate::shelf::Shelf;
use jk_math::Fault;
use std::alloc::Global;
use std::collections::BTreeMap;

/// Files in memory. A call fails where no file has the name that it is given.
#[derive(Drop)]
pub struct MemoryShelf {
    files: BTreeMap<String, Vec<u8>>,
    failures: Failures,
}

/// At most so many bytes from a place on.
fn stretch(bytes: &[u8], start: u64, most: usize) -> &[u8]
    ensures { result.now ≡ take most (drop start bytes.now) }
{
    let start = start.min(bytes.len() as u64) as usize;
    let rest = &bytes[start..];
    &rest[..most.min(rest.len())]
}

impl MemoryShelf {
    /// A shelf without files.
    pub fn new(alloc: Global) -> MemoryShelf
        ensures files { (n : List ℕ) → held result n ≡ None }
        ensures names { names_of result ≡ [] }
        ensures failures { result.failures.count ≡ 0 }
    {
        MemoryShelf {
            files: BTreeMap::new(alloc),
            failures: Failures::none(),
        }
    }

    /// The bytes of a file.
    fn copy(&self, alloc: Global, name: &str) -> Result<Option<Vec<u8>>, Fault>
        ensures ok { IfOk result (λ o. option_map (λ v. v.items) o ≡ held self.now name.now) }
        ensures err { IfErr result IsMemory }
    {
        match self.files.get(name) {
            Some(bytes) => Ok(Some(Vec::from_slice(alloc, bytes)?)),
            None => Ok(None),
        }
    }

    /// At most so many bytes of a file from a place on.
    fn copy_at(
        &self,
        alloc: Global,
        name: &str,
        start: u64,
        most: usize,
    ) -> Result<Option<Vec<u8>>, Fault>
        ensures ok { IfOk result
            (λ o. option_map (λ v. v.items) o ≡ option_map (λ b. take most (drop start b)) (held self.now name.now)) }
        ensures err { IfErr result IsMemory }
    {
        match self.files.get(name) {
            Some(bytes) => Ok(Some(Vec::from_slice(alloc, stretch(bytes, start, most))?)),
            None => Ok(None),
        }
    }

    /// Whether a file has a name.
    fn has(&self, name: &str) -> bool
        ensures { result ≡ is_some (held self.now name.now) }
    {
        self.files.get(name).is_some()
    }

    /// Puts a file under a name.
    fn put(&mut self, alloc: Global, name: &str, bytes: Vec<u8>) -> Result<(), Fault>
        ensures ok { OnOk result (HoldsInstead self.old name.now (Some bytes.items) self.new) }
        ensures same { OnErr result (HoldSame self.old self.new) }
        ensures err { IfErr result IsMemory }
        ensures count { self.new.failures ≡ self.old.failures }
    {
        self.files.insert(String::from_str(alloc, name)?, bytes)?;
        Ok(())
    }

    /// Takes the file of a name away.
    fn take(&mut self, name: &str)
        ensures gone { HoldsInstead self.old name.now None self.new }
        ensures count { self.new.failures ≡ self.old.failures }
    {
        self.files.remove(name);
    }
}

impl Shelf for MemoryShelf {
    ghost keeps = { KeepsFiles };

    ghost gave = { Gave };

    ghost gave_at = { GaveAt };

    ghost lists = { Lists };

    ghost unlisted = { Unlisted };

    ghost unread = { CannotRead };

    ghost unwritten = { Unwritten };

    ghost unrenamed = { Unrenamed };

    ghost unplaced = { Unrenamed };

    ghost taken = { Taken };

    ghost failed = { λ s. s.failures.count };

    fn list(&mut self, alloc: Global) -> Result<Vec<String>, Fault> {
        self.failures.ready()?;
        let mut names = Vec::new(alloc);
        for name in self.files.keys() {
            names.push(name.clone()?)?;
        }
        Ok(names)
    }

    fn read(&mut self, alloc: Global, name: &str) -> Result<Vec<u8>, Fault> {
        self.failures.ready()?;
        match self.copy(alloc, name)? {
            Some(bytes) => Ok(bytes),
            None => Err(self.failures.fail()),
        }
    }

    fn length(&self, _alloc: Global, name: &str) -> Option<u64> {
        let bytes = self.files.get(name)?;
        Some(bytes.len() as u64)
    }

    fn read_at(
        &mut self,
        alloc: Global,
        name: &str,
        start: u64,
        most: usize,
    ) -> Result<Vec<u8>, Fault> {
        self.failures.ready()?;
        match self.copy_at(alloc, name, start, most)? {
            Some(bytes) => Ok(bytes),
            None => Err(self.failures.fail()),
        }
    }

    fn write(&mut self, alloc: Global, name: &str, bytes: &[u8]) -> Result<(), Fault> {
        self.failures.ready()?;
        self.put(alloc, name, Vec::from_slice(alloc, bytes)?)
    }

    fn rename(&mut self, alloc: Global, from: &str, to: &str) -> Result<(), Fault> {
        self.failures.ready()?;
        let bytes = match self.copy(alloc, from)? {
            Some(bytes) => bytes,
            None => return Err(self.failures.fail()),
        };
        self.put(alloc, to, bytes)?;
        if from != to {
            self.take(from);
        }
        Ok(())
    }

    fn place(&mut self, alloc: Global, from: &str, to: &str) -> Result<bool, Fault> {
        self.failures.ready()?;
        let bytes = match self.copy(alloc, from)? {
            Some(bytes) => bytes,
            None => return Err(self.failures.fail()),
        };
        if self.has(to) {
            if from != to {
                self.take(from);
            }
            return Ok(false);
        }
        self.put(alloc, to, bytes)?;
        self.take(from);
        Ok(true)
    }

    fn failures(&self) -> u64 {
        self.failures.count()
    }
}
