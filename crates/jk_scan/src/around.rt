//! What is seen around a place.

ghost use Rattle.std.specs.Prelude.{◌≡◌, ℕ, Bool, not, ◌&&◌, ◌+◌, ◌-◌, ◌*◌, ◌<◌, ◌≤◌, ◌/◌, ◌%◌, true, false, nat_eq};
ghost use Rattle.jk_scan.specs.Bits.{on};
ghost use Rattle.jk_scan.specs.Neighbours.{zero_at, sign_at};
ghost use Rattle.jk_scan.specs.Words.{Truths, of_rows, of_gathered, Shows, bordered, any_of_six, IsNarrow};
ghost use Rattle.jk_scan.specs.Words.{IsNeighbourhood, IsQuietFrom};
ghost use Rattle.jk_scan.specs.WordPlaces.{column, row, also};
ghost use Rattle.jk_scan.specs.Surroundings.{IsAround};

use crate::columns::{columns_at, four_beside, nine_beside};
use crate::contexts::SignContext;
use crate::tables::{sign_context_of_eight, zero_context_of_nine};
use jk_math::Orientation;

/// A gathered word, and those left and right of it.
#[derive(Clone, Copy)]
pub struct Around {
    /// The word.
    pub centre: u64,
    /// The word of the eight columns to the left.
    pub west: u64,
    /// The word of the eight columns to the right.
    pub east: u64,
}

/// Bit 1 of each byte that is 0.
#[inline(always)]
pub fn quiet(d: u64) -> u64
    requires { IsNarrow d }
    ensures { (c i : ℕ) → c < 8 → i < 8 → on result (8 * c + i) ≡ (nat_eq i 1 && not (any_of_six d c)) }
{
    (0x8080_8080_8080_8080 - d) >> 6 & 0x0202_0202_0202_0202
}

/// The three by three places around bit k.
pub fn neighbourhood(centre: u64, west: u64, east: u64, k: u32) -> u128
    requires some { 1 ≤ k }
    requires within { k < 64 }
    ensures { (f : Truths) (j s c i : ℕ) → Shows of_gathered f (j + 1) s centre → Shows of_gathered f j s west
        → Shows of_gathered f (j + 2) s east → k ≡ 8 * c + i → c < 8 → 1 ≤ i → i < 5
        → IsNeighbourhood f (8 * (j + 1) + c) (4 * s + i - 1) result }
{
    ((west >> 56) as u128 | (centre as u128) << 8 | (east as u128) << 72) >> (k - 1)
}

/// The quiet columns behind a place that becomes significant.
pub fn quiet_behind(quiet: u64, k: u32) -> u64
    requires { k < 64 }
    ensures behind { (limits : ℕ → Bool) (f : Truths) (j s : ℕ) → of_rows (k % 8) ≡ true
        → IsQuietFrom limits f (j + 1) (s + 1) (k / 8 + 1) quiet
        → IsQuietFrom limits (also f (column (j + 1) k) (row (s + 1) k)) (j + 1) (s + 1) (k / 8 + 1) result }
    ensures fewer { (i : ℕ) → on quiet i ≡ false → on result i ≡ false }
{
    quiet & !(0x200 << (k & 0x38))
}

/// The nine places of a neighbourhood, without gaps.
pub fn nine(neighbourhood: u128) -> usize
    ensures small { result < 512 }
    ensures bits { (a t : ℕ) → a < 3 → t < 3 → on result (3 * a + t) ≡ on neighbourhood (8 * a + t) }
{
    (neighbourhood & 7 | neighbourhood >> 5 & 0x38 | neighbourhood >> 10 & 0x1c0) as usize
}

/// The context of the place at bit k, which isn't significant, by the significant places.
#[inline(always)]
pub fn zero_context_at(orientation: Orientation, significant: Around, k: u32) -> u8
    requires within { k < 64 }
    requires on_row { of_rows (k % 8) ≡ true }
    ensures value { (f : Truths) (j s : ℕ) → IsAround (bordered f) j s significant
        → result ≡ zero_at orientation f (column j k) (row s k) }
    ensures small { result < 9 }
{
    zero_context_of_nine(orientation, nine_beside(columns_at(significant, k)))
}

/// The context of the sign of the place at bit k, by the significant places and the negative ones.
#[inline(always)]
pub fn sign_context_at(significant: Around, negative: Around, k: u32) -> SignContext
    requires within { k < 64 }
    requires on_row { of_rows (k % 8) ≡ true }
    ensures value { (f n : Truths) (j s : ℕ) → IsAround (bordered f) j s significant
        → IsAround (bordered n) j s negative
        → result ≡ sign_at f n (column j k) (row s k) }
    ensures small { result.context < 14 }
{
    let places = four_beside(columns_at(significant, k));
    let signs = four_beside(columns_at(negative, k));
    sign_context_of_eight(places + 16 * signs)
}
