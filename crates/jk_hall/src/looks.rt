//! Looks at what is shown, and how many there were.

ghost use Rattle.std.specs.Prelude.{◌≡◌, OnOk, OnErr, MatchResult};
ghost use Rattle.left_right.specs.Sides.{view};
ghost use Rattle.jk_hall.specs.Sights.{Publishes};
ghost use Rattle.jk_hall.specs.Looking.{IsLook, IsRefusedLook};

use crate::rule::{Prefixes, Sees, Sight};
use crate::shown::Shown;
use left_right::reader::{Reader, Reading};

/// How many looks there were, and how many were refused, each up to 2^64 - 1. Only `look` counts.
#[derive(Drop)]
pub struct Looks {
    made: u64,
    refused: u64,
}

impl Looks {
    /// No look so far.
    pub(crate) fn none() -> Looks {
        Looks {
            made: 0,
            refused: 0,
        }
    }

    /// Looks at what is shown, where `left_right` doesn't refuse it.
    pub(crate) fn look(
        &mut self,
        inner: Reader<Shown, Sight, Prefixes>,
    ) -> Result<Reading<Shown, Sight, Prefixes>, Reader<Shown, Sight, Prefixes>>
        ensures made { OnOk result (IsLook self.old self.new) }
        ensures refused { OnErr result (IsRefusedLook self.old self.new) }
        ensures sight { MatchResult result
            (λ r. Publishes (view inner.place) r.part.value r.part.value (view r.place))
            (λ r. view r.place ≡ view inner.place) }
    {
        match inner.enter_as::<Sees>() {
            Ok(reading) => {
                self.made = self.made.saturating_add(1);
                Ok(reading)
            }
            Err(inner) => {
                self.refused = self.refused.saturating_add(1);
                Err(inner)
            }
        }
    }
}
