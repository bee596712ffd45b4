//! The bytes of eight columns, each in one number.

ghost use Rattle.std.specs.Prelude.{◌≡◌, ℕ, ◌+◌, ◌*◌, ◌<◌, ◌++◌, List, length, get_or};
ghost use Rattle.jk_scan.specs.WordNumbers.{byte_of};
ghost use Rattle.jk_columns.specs.Columns.{AreBytes, HasColumns, IsColumn};

use jk_scan::DecisionBytes;
use std::simd::prelude::*;

/// What a column in run mode begins with: none of its rows has the bit 1, or one has; a 0 or a 1 of
/// the number of that row.
const RUN: u64 = 0x2524_2322;

/// The bytes of four rows, a row behind another.
#[inline(always)]
pub fn row_bytes(rows: &[u64]) -> u8x32
    requires { length rows.now ≡ 4 }
    ensures bytes { AreBytes 32 result }
    ensures value { (r c : ℕ) → r < 4 → c < 8 → get_or result (8 * r + c) 0 ≡ byte_of (get_or rows.now r 0) c }
{
    u64x4::from_slice(rows).to_le_bytes()
}

/// Four rows of eight bytes and four more, turned: the first bytes of all rows in the first number,
/// the second ones in the second.
#[inline(always)]
fn turned(bits: u8x32, signs: u8x32) -> [u64; 8]
    requires bits { AreBytes 32 bits }
    requires signs { AreBytes 32 signs }
    ensures { (c k : ℕ) → c < 8 → k < 8 → byte_of (get_or result c 0) k ≡ get_or (bits ++ signs) (8 * k + c) 0 }
{
    let (first, second) = bits.interleave(signs);
    let (early, late) = first.interleave(second);
    let (low, high) = early.interleave(late);
    let left = u64x4::from_le_bytes(low);
    let right = u64x4::from_le_bytes(high);
    left.shuffle(right, [0, 1, 2, 3, 4, 5, 6, 7]).to_array()
}

/// The bytes of a word column by column: the bits of the four rows of each, then their signs.
#[inline(always)]
pub fn columns(rows: &DecisionBytes) -> [u64; 8]
    ensures { HasColumns rows.now.bits rows.now.signs result }
{
    turned(row_bytes(&rows.bits[..]), row_bytes(&rows.signs[..]))
}

/// A column with what it begins with in run mode.
#[inline(always)]
pub fn column(own: u64) -> u8x16
    ensures { (bits signs words : List ℕ) (c : ℕ) → c < 8 → HasColumns bits signs words
        → own ≡ get_or words c 0 → IsColumn bits signs c result }
{
    u64x2::from_array([own, RUN]).to_le_bytes()
}
