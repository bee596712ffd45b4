//! Changes that are put behind those that wait.

ghost use Rattle.std.specs.Prelude.{◌≡◌, [], ◌∷◌, ◌++◌, drop, MatchResult};

use crate::rule::{Prefixes, Sight};
use crate::shown::{Change, Shown};
use std::alloc::AllocError;

/// Puts a change behind those that wait. An `Err` changes nothing.
///
/// `left_right` gives a change back where it was refused the memory for it, and nothing else with
/// it: this alone says so.
pub(crate) fn append(
    inner: &mut left_right::writer::Writer<Shown, Change, Sight, Prefixes>,
    change: Change,
) -> Result<(), AllocError>
    ensures desk { inner.new.desk ≡ inner.old.desk }
    ensures pending { MatchResult result
        (λ _. drop inner.new.behind inner.new.log.items ≡ drop inner.old.behind inner.old.log.items ++ change ∷ [])
        (λ _. drop inner.new.behind inner.new.log.items ≡ drop inner.old.behind inner.old.log.items) }
{
    match inner.append(change) {
        Ok(()) => Ok(()),
        Err(_given_back) => Err(AllocError),
    }
}
