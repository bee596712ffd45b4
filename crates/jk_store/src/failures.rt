//! How often a shelf failed.

ghost use Rattle.std.specs.Prelude.{◌≡◌, ◌<◌, ◌⊎◌, ◌+◌, min, IfErr, OnOk};
ghost use Rattle.jk_math.specs.Memory.{IsMemory};
ghost use Rattle.jk_math.specs.declared.fault.Fault.TheVariants.{Shelf as ShelfFault};
ghost use Rattle.jk_store.specs.Counting.{last_count, Counts};

use jk_math::Fault;

/// The failures of a shelf, counted up to 2^64 - 1. Each type that is a shelf counts by one.
#[derive(Drop)]
pub struct Failures {
    count: u64,
}

impl Failures {
    /// No failure so far.
    pub fn none() -> Failures
        ensures { result.count ≡ 0 }
    {
        Failures { count: 0 }
    }

    /// How many there were.
    pub fn count(&self) -> u64
        ensures { result ≡ self.now.count }
    {
        self.count
    }

    /// Counts one more.
    pub fn fail(&mut self) -> Fault
        ensures fault { result ≡ Fault.Shelf }
        ensures after { self.new.count ≡ min (self.old.count + 1) last_count }
    {
        self.count = self.count.saturating_add(1);
        Fault::Shelf
    }

    /// Whether a call may be made: at the greatest count each one fails.
    pub fn ready(&self) -> Result<(), Fault>
        ensures ok { OnOk result (self.now.count < last_count) }
        ensures err { IfErr result (λ e. (e ≡ ShelfFault) × (self.now.count ≡ last_count)) }
    {
        if self.count < u64::MAX {
            Ok(())
        } else {
            Err(Fault::Shelf)
        }
    }

    /// The answer of a call that was made. If it is Shelf, it is counted.
    pub fn counted<T>(&mut self, answer: Result<T, Fault>) -> Result<T, Fault>
        requires ready { self.old.count < last_count }
        requires due { IfErr answer (λ e. IsMemory e ⊎ (e ≡ ShelfFault)) }
        ensures same { result ≡ answer }
        ensures counts { Counts result self.old.count self.new.count }
    {
        match answer {
            Ok(value) => Ok(value),
            Err(Fault::Shelf) => Err(self.fail()),
            Err(fault) => Err(fault),
        }
    }
}
