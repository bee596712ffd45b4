//! The rule: what is shown is the beginning of the history that stands beside it, and each list
//! that was seen is a beginning of what is shown.

ghost use Rattle.jk_hall.specs.Sights.{Keeps, Publishes, newcomer};

use crate::shown::{Shown, Stamp};
use atomic_table::{Join, Split};
use crossbeam_utils::rule::{Outcome, Protocol};
use jk_store::Entry;
use std::collections::LinkedList;

/// What a place has seen, and of which history. No value of it is made.
pub struct Sight {
    pub known: bool,
    pub stamp: Stamp,
    pub seen: LinkedList<Entry>,
}

/// The rule.
pub struct Prefixes;

impl Protocol<Shown, Sight> for Prefixes {
    ghost holds = { Keeps };

    ghost first = { newcomer };
}

/// A step after which a place has seen what is shown.
pub(crate) struct Sees;

impl Outcome<Shown, Sight> for Sees {
    ghost then = { Publishes };
}

/// A new place takes over what the writer has seen.
pub(crate) struct Opens;

impl Split<Sight> for Opens {
    ghost left = { λ v. v };

    ghost right = { λ v. v };
}

impl Join<Sight> for Opens {
    ghost both = { λ v w. w };

    ghost spent = { newcomer };
}
