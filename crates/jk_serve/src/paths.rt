//! Files of the system by their paths.

ghost use Rattle.std.specs.Prelude.{◌≡◌, ◌<◌};
ghost use Rattle.jk_store.specs.Counting.{last_count, Counts};

use jk_files::{Refusal, read_file};
use jk_math::Fault;
use jk_store::{Failures, Shelf};
use std::alloc::Global;
use std::rt::Files;

/// The regular files of the system, each by its path, links followed, which are read alone: other calls
/// fail.
#[derive(Drop)]
pub struct Paths<R> {
    rt: R,
    failures: Failures,
}

impl<R> Paths<R> {
    /// The files that a runtime reaches.
    pub fn new(rt: R) -> Paths<R> {
        Paths {
            rt,
            failures: Failures::none(),
        }
    }
}

impl<R: Files> Paths<R> {
    /// The answer of a call, which is counted where it failed.
    fn answered<T: Drop>(&mut self, answer: Result<T, Refusal>) -> Result<T, Fault>
        requires { self.old.failures.count < last_count }
        ensures { Counts result self.old.failures.count self.new.failures.count }
    {
        match answer {
            Ok(value) => Ok(value),
            Err(Refusal::Memory(refused)) => Err(Fault::Memory(refused)),
            Err(Refusal::System(_)) => Err(self.failures.fail()),
        }
    }
}

// What the system's files hold and give can't be said.
impl<R: Files + Drop> Shelf for Paths<R> {
    ghost keeps = { λ _ _. ⊥ };

    ghost gave = { λ _ _ _ _. Unit {0} };

    ghost gave_at = { λ _ _ _ _ _ _. Unit {0} };

    ghost lists = { λ _ _ _. Unit {0} };

    ghost failed = { λ p. p.failures.count };

    fn list(&mut self, _alloc: Global) -> Result<Vec<String>, Fault> {
        self.failures.ready()?;
        Err(self.failures.fail())
    }

    fn read(&mut self, alloc: Global, name: &str) -> Result<Vec<u8>, Fault> {
        self.failures.ready()?;
        let answer = read_file(&self.rt, alloc, name);
        self.answered(answer)
    }

    fn read_at(
        &mut self,
        _alloc: Global,
        _name: &str,
        _start: u64,
        _most: usize,
    ) -> Result<Vec<u8>, Fault> {
        self.failures.ready()?;
        Err(self.failures.fail())
    }

    fn write(&mut self, _alloc: Global, _name: &str, _bytes: &[u8]) -> Result<(), Fault> {
        self.failures.ready()?;
        Err(self.failures.fail())
    }

    fn rename(&mut self, _alloc: Global, _from: &str, _to: &str) -> Result<(), Fault> {
        self.failures.ready()?;
        Err(self.failures.fail())
    }

    fn place(&mut self, _alloc: Global, _from: &str, _to: &str) -> Result<bool, Fault> {
        self.failures.ready()?;
        Err(self.failures.fail())
    }

    fn failures(&self) -> u64 {
        self.failures.count()
    }
}
