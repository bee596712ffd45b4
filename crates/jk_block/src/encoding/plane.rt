//! A block as it is seen at a bit-plane.

ghost use Rattle.std.specs.Prelude.{◌≡◌, ℕ, nat_le, ◌&&◌, ◌+◌, ◌*◌, ◌/◌, ◌%◌, ◌<◌, ◌≤◌, length};
ghost use Rattle.jk_scan.specs.Bits.{on};
ghost use Rattle.jk_scan.specs.Flags.{IsSized, IsDrawn};
ghost use Rattle.jk_scan.specs.Words.{of_rows};
ghost use Rattle.jk_scan.specs.WordPlaces.{column, row};
ghost use Rattle.jk_block.specs.Meaning.{value_in, plane_at};
ghost use Rattle.jk_block.specs.Fields.{words_of};
ghost use Rattle.jk_block.specs.encoding.Slices.{IsSliced, negative_of, slices_of};
ghost use Rattle.jk_block.specs.Steps.{IsWordPlace};

use super::slices::ones;
use crate::word_place::WordPlace;
use jk_scan::{BlockShape, word_place};

/// A block at a bit-plane, with its coefficients row by row.
#[derive(Clone, Copy)]
pub struct BlockPlane<'a> {
    pub shape: BlockShape,
    pub values: &'a [i32],
    pub plane: u32,
    /// The slices with the bits of this plane.
    pub slices: &'a [u64],
    /// Words of the places that have a bit more than one plane above this one.
    pub refined: &'a [u64],
    /// Words of the negative places.
    pub negative: &'a [u64],
    ghost sized: { IsSized shape },
    ghost space: { slices_of shape ≤ length slices.now },
    ghost room: { words_of shape ≤ length refined.now },
    ghost wide: { words_of shape ≤ length negative.now },
    ghost whole: { length values.now ≡ shape.width * shape.height },
    ghost shallow: { plane < 23 },
    ghost sliced: { IsSliced shape (plane / 8 * 8) (value_in shape values.now) slices.now },
    ghost older: { IsDrawn shape
        (λ x y. nat_le 4 ((plane_at shape plane (value_in shape values.now)).magnitude x y)) refined.now },
    ghost signs: { IsDrawn shape (negative_of shape (value_in shape values.now)) negative.now },
}

impl<'a> BlockPlane<'a> {
    ghost use Rattle.jk_block.specs.encoding.Viewed.{seen, ShowsOnes};

    /// The places of a word that have the bit 1.
    #[inline(always)]
    pub fn ones(&self, spot: WordPlace) -> u64
        requires { IsWordPlace self.now.shape spot }
        ensures { ShowsOnes self.now spot.word spot.stripe result }
    {
        ones(self.slices, self.shape, spot, self.plane % 8)
    }

    /// The places of a word that were refined in a higher plane, if they were significant before
    /// this one.
    #[inline(always)]
    pub fn refined_places(&self, spot: WordPlace) -> u64
        requires { IsWordPlace self.now.shape spot }
        ensures { (m : ℕ) → m < 64
            → on result m ≡ (of_rows (m % 8)
            && nat_le 4 ((seen self.now).magnitude (column spot.word m) (row spot.stripe m))) }
    {
        let refined = self.refined;
        refined[word_place(self.shape, spot.word + 1, spot.stripe + 1)]
    }
}
