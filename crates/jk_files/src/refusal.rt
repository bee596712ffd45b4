//! Why a call on files was refused.

ghost use Rattle.std.specs.Prelude.{◌≡◌, ◌⊎◌};
ghost use Rattle.jk_math.specs.Memory.{IsMemory};
ghost use Rattle.jk_math.specs.declared.fault.Fault.TheVariants.{Shelf as ShelfFault};

use jk_math::{Fault, Refused};
use std::io;
use thiserror::Error;

/// Why a call on files was refused.
#[derive(Clone, Copy, Debug, Error)]
pub enum Refusal {
    /// A growth of memory was refused.
    #[error("F1 Memory")]
    Memory(Refused),
    /// The system refused, and said this.
    #[error("F20 Shelf: {0}")]
    System(io::Error),
}

impl Refusal {
    ghost use Rattle.jk_files.specs.Refusals.{fault_of, said_of};

    /// The fault: Memory, or Shelf where the system refused.
    pub fn fault(&self) -> Fault
        ensures fault { result ≡ fault_of self.now }
        ensures kind { IsMemory result ⊎ (result ≡ ShelfFault) }
    {
        match self {
            Refusal::Memory(refused) => Fault::Memory(*refused),
            Refusal::System(_) => Fault::Shelf,
        }
    }

    /// What the system said, if it is the system that refused.
    pub fn said(&self) -> Option<io::Error>
        ensures { result ≡ said_of self.now }
    {
        match self {
            Refusal::Memory(_) => None,
            Refusal::System(said) => Some(*said),
        }
    }
}

impl From<Refused> for Refusal {
    ghost use Rattle.jk_files.specs.declared.refusal.Refusal.TheVariants.{Memory};

    ghost from_gives = { λ refused e. e ≡ Memory refused };

    fn from(refused: Refused) -> Refusal {
        Refusal::Memory(refused)
    }
}

impl From<io::Error> for Refusal {
    ghost use Rattle.jk_files.specs.declared.refusal.Refusal.TheVariants.{System};

    ghost from_gives = { λ said e. e ≡ System said };

    fn from(said: io::Error) -> Refusal {
        Refusal::System(said)
    }
}

impl From<Refusal> for Fault {
    ghost from_gives = { λ _ e. IsMemory e ⊎ (e ≡ ShelfFault) };

    fn from(refusal: Refusal) -> Fault {
        refusal.fault()
    }
}
