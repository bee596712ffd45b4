//! What is known of the places of a block while it is written.

ghost use Rattle.std.specs.Prelude.{◌≡◌, ℕ, ◌%◌, ◌<◌, true, false};
ghost use Rattle.jk_scan.specs.Bits.{on};
ghost use Rattle.jk_scan.specs.Neighbours.{Field, seen_from};
ghost use Rattle.jk_scan.specs.Words.{of_rows, bordered};
ghost use Rattle.jk_scan.specs.Surroundings.{IsAround};
ghost use Rattle.jk_scan.specs.Flags.{IsSized, IsDrawn};
ghost use Rattle.jk_block.specs.Steps.{IsWordPlace};

use crate::ages::unmark;
use crate::word_place::WordPlace;
use jk_scan::{Around, BlockShape, seen_among, word_place};

/// Words of 32 places: which are significant, and which the significance propagation pass of this
/// plane has coded.
#[derive(Drop)]
pub struct Flags<'a> {
    pub significant: &'a mut [u64],
    pub visited: &'a mut [u64],
}

impl<'a> Flags<'a> {
    ghost use Rattle.std.specs.Prelude.{Bool};
    ghost use Rattle.jk_block.specs.Fields.{with_word};
    ghost use Rattle.jk_block.specs.encoding.Viewed.{HasFlagRoom};

    /// What these words show is significant, and is coded.
    #[inline(always)]
    pub fn new(significant: &'a mut [u64], visited: &'a mut [u64]) -> Flags<'a>
        ensures significant { result.significant.now ≡ significant.old }
        ensures visited { result.visited.now ≡ visited.old }
    {
        Flags {
            significant,
            visited,
        }
    }

    /// The significant places of a word and around it, as its stripe sees them.
    #[inline(always)]
    pub fn significant_around(&self, shape: BlockShape, spot: WordPlace) -> Around
        requires sized { IsSized shape }
        requires room { HasFlagRoom shape self.now }
        requires spot { IsWordPlace shape spot }
        ensures { (f : Field Bool) → IsDrawn shape f self.now.significant.now
            → IsAround (bordered (seen_from shape spot.stripe f)) spot.word spot.stripe result }
    {
        seen_among(&self.significant, shape, spot.word, spot.stripe)
    }

    /// Begins a plane: no place is coded.
    pub fn begin(&mut self, shape: BlockShape)
        requires sized { IsSized shape }
        requires room { HasFlagRoom shape self.old }
        ensures significant { self.new.significant.now ≡ self.old.significant.now }
        ensures visited { (f : Field Bool) → ((x y : ℕ) → f x y ≡ false) → IsDrawn shape f self.new.visited.now }
        ensures room { HasFlagRoom shape self.new }
    {
        unmark(shape, self.visited);
    }

    /// Flags these places of a word as coded by the significance propagation pass.
    #[inline(always)]
    pub fn visit_all(&mut self, shape: BlockShape, spot: WordPlace, places: u64)
        requires sized { IsSized shape }
        requires room { HasFlagRoom shape self.old }
        requires spot { IsWordPlace shape spot }
        requires rows { (m : ℕ) → m < 64 → on places m ≡ true → of_rows (m % 8) ≡ true }
        ensures significant { self.new.significant.now ≡ self.old.significant.now }
        ensures visited { (f : Field Bool) → IsDrawn shape f self.old.visited.now
            → IsDrawn shape (with_word f spot.word spot.stripe places) self.new.visited.now }
        ensures room { HasFlagRoom shape self.new }
    {
        let at = word_place(shape, spot.word + 1, spot.stripe + 1);
        let visited = &mut *self.visited;
        visited[at] |= places;
    }

    /// These places of a word become significant.
    #[inline(always)]
    pub fn light_all(&mut self, shape: BlockShape, spot: WordPlace, places: u64)
        requires sized { IsSized shape }
        requires room { HasFlagRoom shape self.old }
        requires spot { IsWordPlace shape spot }
        requires rows { (m : ℕ) → m < 64 → on places m ≡ true → of_rows (m % 8) ≡ true }
        ensures known_significant { (f : Field Bool) → IsDrawn shape f self.old.significant.now
            → IsDrawn shape (with_word f spot.word spot.stripe places) self.new.significant.now }
        ensures visited { self.new.visited.now ≡ self.old.visited.now }
        ensures room { HasFlagRoom shape self.new }
    {
        let at = word_place(shape, spot.word + 1, spot.stripe + 1);
        let significant = &mut *self.significant;
        significant[at] |= places;
    }
}
