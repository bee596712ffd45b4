//! A shelf that counts how often its files are read.

ghost use Rattle.std.specs.Prelude.{◌≡◌};

use jk_math::Fault;
use jk_store::{Failures, MemoryShelf, Shelf};
use std::alloc::Global;

/// A shelf in memory, and how often a file or a stretch of one was read.
#[derive(Drop)]
pub(crate) struct Counted {
    inner: MemoryShelf,
    failures: Failures,
    pub(crate) reads: u64,
}

impl Counted {
    /// Nothing was read so far.
    pub(crate) fn new(inner: MemoryShelf) -> Counted {
        Counted {
            inner,
            failures: Failures::none(),
            reads: 0,
        }
    }

    fn count(&mut self)
        ensures { self.new.failures ≡ self.old.failures }
    {
        self.reads = self.reads.saturating_add(1);
    }
}

impl Shelf for Counted {
    ghost keeps = { λ _ _. ⊥ };

    ghost gave = { λ _ _ _ _. Unit {0} };

    ghost gave_at = { λ _ _ _ _ _ _. Unit {0} };

    ghost lists = { λ _ _ _. Unit {0} };

    ghost failed = { λ s. s.failures.count };

    fn list(&mut self, alloc: Global) -> Result<Vec<String>, Fault> {
        self.failures.ready()?;
        let answer = self.inner.list(alloc);
        self.failures.counted(answer)
    }

    fn read(&mut self, alloc: Global, name: &str) -> Result<Vec<u8>, Fault> {
        self.failures.ready()?;
        self.count();
        let answer = self.inner.read(alloc, name);
        self.failures.counted(answer)
    }

    fn read_at(
        &mut self,
        alloc: Global,
        name: &str,
        start: u64,
        most: usize,
    ) -> Result<Vec<u8>, Fault> {
        self.failures.ready()?;
        self.count();
        let answer = self.inner.read_at(alloc, name, start, most);
        self.failures.counted(answer)
    }

    fn write(&mut self, alloc: Global, name: &str, bytes: &[u8]) -> Result<(), Fault> {
        self.failures.ready()?;
        let answer = self.inner.write(alloc, name, bytes);
        self.failures.counted(answer)
    }

    fn rename(&mut self, alloc: Global, from: &str, to: &str) -> Result<(), Fault> {
        self.failures.ready()?;
        let answer = self.inner.rename(alloc, from, to);
        self.failures.counted(answer)
    }

    fn place(&mut self, alloc: Global, from: &str, to: &str) -> Result<bool, Fault> {
        self.failures.ready()?;
        let answer = self.inner.place(alloc, from, to);
        self.failures.counted(answer)
    }

    fn failures(&self) -> u64 {
        self.failures.count()
    }
}
