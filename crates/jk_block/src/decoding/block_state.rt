//! The working state in which a block is read.

ghost use Rattle.std.specs.Prelude.{◌≡◌, ℕ, Bool, true, ◌&&◌, ◌+◌, ◌*◌, ◌%◌, ◌<◌, ◌≤◌, length, replicate, IfOk, IfErr};
ghost use Rattle.jk_math.specs.Memory.{IsMemory};
ghost use Rattle.jk_model.specs.Decisions.{State};
ghost use Rattle.jk_scan.specs.Bits.{on};
ghost use Rattle.jk_scan.specs.Neighbours.{is_inside, seen_from};
ghost use Rattle.jk_scan.specs.Surroundings.{IsAround};
ghost use Rattle.jk_scan.specs.Words.{of_rows, bordered, Shows};
ghost use Rattle.jk_scan.specs.WordPlaces.{column, row};
ghost use Rattle.jk_scan.specs.Flags.{IsSized, IsDrawn, word_at};
ghost use Rattle.jk_block.specs.Reading.{blank, begun};
ghost use Rattle.jk_block.specs.Fields.{significant_of, flagged, words_of, magnitude_of, with_word, AreUnmarked};
ghost use Rattle.jk_block.specs.Steps.{IsWordPlace};

use super::sight::Sight;
use crate::ages::{unmark, words_of};
use crate::word_place::WordPlace;
use jk_math::Fault;
use jk_scan::{Around, BlockShape, seen_among, word_place};
use std::alloc::Global;

/// A block as far as it is read, in words of 32 places: which are significant, which are negative,
/// which the significance propagation pass of this plane has coded, and plane by plane which have a
/// 1 there.
#[derive(Drop)]
pub struct BlockState<'a> {
    pub shape: BlockShape,
    pub planes: u32,
    pub significant: &'a mut [u64],
    pub negative: &'a mut [u64],
    pub visited: &'a mut [u64],
    pub bits: Vec<u64>,
    ghost sized: { IsSized shape },
    ghost significant_room: { words_of shape ≤ length significant.now },
    ghost negative_room: { words_of shape ≤ length negative.now },
    ghost visited_room: { words_of shape ≤ length visited.now },
    ghost few: { planes ≤ 23 },
    ghost room: { length bits.items ≡ planes * words_of shape },
    ghost known_significant: { IsDrawn shape
        (significant_of shape (magnitude_of shape planes bits.items)) significant.now },
    ghost signs: { IsDrawn shape (flagged shape negative.now) negative.now },
}

/// The words in which a block is read, as they are laid out: of the significant places, the negative
/// ones and those that significance propagation has coded, and of what was significant as the last
/// two planes began.
#[derive(Drop)]
pub struct BlockWords<'a> {
    pub significant: &'a mut [u64],
    pub negative: &'a mut [u64],
    pub visited: &'a mut [u64],
    pub even: &'a mut [u64],
    pub odd: &'a mut [u64],
}

/// Words of so many bit-planes, in which no place has a 1.
pub fn no_bits(alloc: Global, shape: BlockShape, planes: u32) -> Result<Vec<u64>, Fault>
    requires sized { IsSized shape }
    requires planes { planes ≤ 23 }
    ensures items { IfOk result (λ bits. bits.items ≡ replicate (planes * words_of shape) 0) }
    ensures memory { IfErr result IsMemory }
{
    Ok(vec![in alloc; 0; planes as usize * words_of(shape)]?)
}

impl<'a> BlockState<'a> {
    ghost use Rattle.jk_block.specs.declared.decoding.sight.Sight.{Sight};
    ghost use Rattle.jk_block.specs.decoding.BlockStates.{Draft, draft_of, progress, significant_in};
    ghost use Rattle.jk_block.specs.decoding.Sights.{IsHeld, Held, IsRefined, refined_in, seen_in};

    /// A block of which nothing is read, in words that mark no place: those of the significant
    /// places, of the negative ones, and of those that significance propagation has coded.
    #[inline(always)]
    pub fn new(
        shape: BlockShape,
        planes: u32,
        bits: Vec<u64>,
        significant: &'a mut [u64],
        negative: &'a mut [u64],
        visited: &'a mut [u64],
    ) -> BlockState<'a>
        requires sized { IsSized shape }
        requires few { planes ≤ 23 }
        requires bits { bits.items ≡ replicate (planes * words_of shape) 0 }
        requires significant { AreUnmarked shape significant.old }
        requires negative { AreUnmarked shape negative.old }
        requires visited { AreUnmarked shape visited.old }
        ensures shape { result.shape ≡ shape }
        ensures planes { result.planes ≡ planes }
        ensures blank { progress (draft_of result) blank.coder ≡ blank }
    {
        BlockState {
            shape,
            planes,
            significant,
            negative,
            visited,
            bits,
        }
    }

    /// The significant places of a word and around it, as its stripe sees them.
    #[inline(always)]
    pub fn significant_around(&self, spot: WordPlace) -> Around
        requires { IsWordPlace self.now.shape spot }
        ensures { IsAround (bordered (seen_in (draft_of self.now) spot.stripe)) spot.word spot.stripe result }
    {
        seen_among(&self.significant, self.shape, spot.word, spot.stripe)
    }

    /// The negative places of a word and around it, as its stripe sees them.
    #[inline(always)]
    pub fn negative_around(&self, spot: WordPlace) -> Around
        requires { IsWordPlace self.now.shape spot }
        ensures { IsAround (bordered (seen_from self.now.shape spot.stripe (draft_of self.now).negative))
            spot.word spot.stripe result }
    {
        seen_among(&self.negative, self.shape, spot.word, spot.stripe)
    }

    /// Begins a plane: no place is marked as coded.
    #[inline(always)]
    pub fn begin(&mut self)
        ensures shape { self.new.shape ≡ self.old.shape }
        ensures planes { self.new.planes ≡ self.old.planes }
        ensures begun { (c : State) → progress (draft_of self.new) c ≡ begun 0 (progress (draft_of self.old) c) }
    {
        unmark(self.shape, self.visited);
    }

    /// Marks these places of a word as coded by the significance propagation pass.
    #[inline(always)]
    pub fn visit_all(&mut self, spot: WordPlace, places: u64)
        requires spot { IsWordPlace self.old.shape spot }
        requires inside { (m : ℕ) → m < 64 → on places m ≡ true
            → (of_rows (m % 8) && is_inside self.old.shape (column spot.word m) (row spot.stripe m)) ≡ true }
        ensures visited { draft_of self.new ≡ record (draft_of self.old)
            { visited = with_word (draft_of self.old).visited spot.word spot.stripe places } }
        ensures planes { self.new.planes ≡ self.old.planes }
    {
        let at = word_place(self.shape, spot.word + 1, spot.stripe + 1);
        let visited = &mut *self.visited;
        visited[at] |= places;
    }

    /// Puts back a word in which places have become significant in this plane.
    #[inline(always)]
    pub fn light_all(&mut self, spot: WordPlace, limits: u64, sight: Sight)
        requires spot { IsWordPlace self.old.shape spot }
        requires plane { spot.plane < self.old.planes }
        requires limits { Shows of_rows (bordered (is_inside self.old.shape)) (spot.word + 1) (spot.stripe + 1) limits }
        requires held { IsHeld spot (draft_of self.old) sight }
        ensures known_significant { (d : Draft) → Held spot (draft_of self.old) sight d
            → draft_of self.new ≡ record d { visited = (draft_of self.old).visited } }
        ensures planes { self.new.planes ≡ self.old.planes }
    {
        let at = word_place(self.shape, spot.word + 1, spot.stripe + 1);
        let start = spot.plane as usize * words_of(self.shape);
        let known_significant = sight.significant.centre & limits;

        // All are lent before the first is written: together they show the block only behind the last.
        let significant = &mut *self.significant;
        let negative = &mut *self.negative;
        let bits = &mut self.bits;
        let new = known_significant & !significant[at];
        significant[at] = known_significant;
        negative[at] = sight.negative.centre & limits;
        bits[start + at] |= new;
    }

    /// Puts back the bits in this plane of places of a word that were significant before.
    #[inline(always)]
    pub fn refine_all(&mut self, spot: WordPlace, places: u64, ones: u64)
        requires spot { IsWordPlace self.old.shape spot }
        requires plane { spot.plane < self.old.planes }
        requires refined { IsRefined spot places ones (draft_of self.old) }
        ensures refined { draft_of self.new ≡ refined_in spot places ones (draft_of self.old) }
        ensures planes { self.new.planes ≡ self.old.planes }
    {
        let at = word_place(self.shape, spot.word + 1, spot.stripe + 1);
        let start = spot.plane as usize * words_of(self.shape);
        let bits = &mut self.bits;
        bits[start + at] = bits[start + at] & !places | ones;
    }
}
