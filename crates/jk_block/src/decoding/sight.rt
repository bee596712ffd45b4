//! What is seen of a word and around it while it is read.

ghost use Rattle.std.specs.Prelude.{◌≡◌, ℕ, true, ◌+◌, ◌*◌, ◌%◌, ◌<◌, if◌then◌else◌};
ghost use Rattle.jk_scan.specs.Words.{of_rows};
ghost use Rattle.jk_scan.specs.WordPlaces.{column, row};
ghost use Rattle.jk_block.specs.declared.word_place.WordPlace.{WordPlace};
ghost use Rattle.jk_block.specs.Steps.{IsBitPlace};
ghost use Rattle.jk_block.specs.decoding.BlockStates.{Draft, coded_in};

use jk_scan::Around;

/// Words of the significant places and of the negative ones, with what is around them. While a word
/// is read, its own places change here alone.
#[derive(Clone, Copy)]
pub struct Sight {
    pub significant: Around,
    pub negative: Around,
}

/// A truth value as a number.
#[inline(always)]
pub fn digit(bit: bool) -> u64
    ensures { result ≡ (if bit then 1 else 0) }
{
    bit as u64
}

impl Sight {
    ghost use Rattle.jk_block.specs.decoding.Sights.{Sees, sign_seen};

    /// The place at bit k becomes significant, with this sign.
    #[inline(always)]
    pub fn light(&mut self, k: u32, negative: bool)
        requires { k < 64 }
        ensures sign { sign_seen self.new k ≡ negative }
        ensures sees { (at : WordPlace) (d : Draft) → IsBitPlace d.shape at k → Sees at d self.old
            → Sees at (coded_in at.plane (column at.word k) (row at.stripe k) true negative d) self.new }
    {
        let bit = 1 << k;
        self.significant.centre |= bit;
        self.negative.centre = self.negative.centre & !bit | digit(negative) << k;
    }
}
