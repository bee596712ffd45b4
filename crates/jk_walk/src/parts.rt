//! What is left of the parts of a tile.

ghost use Rattle.std.specs.Prelude.{◌≡◌, ℕ, List, ◌∷◌, slice_get, OnSome};
ghost use Rattle.jk_walk.specs.WalkReading.{begun};

use std::marker::Model;

/// The places of a tile's parts, as far as they weren't read.
#[derive(Drop)]
pub(crate) struct PartsLeft<'a> {
    parts: &'a [(usize, usize)],
    next: usize,
    at: usize,
    end: usize,
}

impl<'a> Model for PartsLeft<'a> {
    ghost use Rattle.std.specs.Prelude.{ℕ, List, ◌∷◌, drop};

    ghost Value = { List (ℕ × ℕ) };

    ghost view = { λ p. (p.at, p.end) ∷ drop p.next p.parts.now };
}

impl<'a> PartsLeft<'a> {
    /// All of these parts, behind a part that is used up.
    pub(crate) fn new(parts: &'a [(usize, usize)]) -> PartsLeft<'a>
        ensures { result ≡ (0, 0) ∷ parts.now }
    {
        PartsLeft {
            parts,
            next: 0,
            at: 0,
            end: 0,
        }
    }

    /// What is left of the part in which the next packet stands: the first in which bytes are left.
    pub(crate) fn in_hand(&mut self) -> Option<(usize, usize)>
        ensures part { result ≡ slice_get (begun self.old) 0 }
        ensures left { OnSome result (self.new ≡ begun self.old) }
    {
        while self.at >= self.end && self.next < self.parts.len() {
            let (start, end) = self.parts[self.next];
            self.at = start;
            self.end = end;
            self.next += 1;
        }
        if self.at < self.end {
            Some((self.at, self.end))
        } else {
            None
        }
    }

    /// Goes on to a place in the part in hand.
    pub(crate) fn advance(&mut self, place: usize)
        ensures { (part : ℕ × ℕ) (later : List (ℕ × ℕ)) → self.old ≡ part ∷ later → self.new ≡ (place, part.1) ∷ later }
    {
        self.at = place;
    }
}
