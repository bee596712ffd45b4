//! The decisions of all places of a word, in one byte for each place: its lowest bit is the
//! decision's, those above it are the number of its context.

ghost use Rattle.std.specs.Prelude.{◌≡◌, ℕ, ◌+◌, ◌-◌, ◌*◌, ◌/◌, ◌%◌, ◌^◌, ◌<◌, true, if◌then◌else◌, get_or};
ghost use Rattle.jk_scan.specs.Bits.{on};
ghost use Rattle.jk_scan.specs.Neighbours.{zero_at, sign_at};
ghost use Rattle.jk_scan.specs.Words.{Truths, of_rows, bordered};
ghost use Rattle.jk_scan.specs.WordPlaces.{column, row};
ghost use Rattle.jk_scan.specs.Surroundings.{IsAround, Turns};
ghost use Rattle.jk_scan.specs.WordNumbers.{of_digits, byte_of, byte_at, sign_byte};

use crate::around::Around;
use crate::digits::{Digits, sign_digits, zero_digits};
use crate::nearby::near_words;
use jk_math::Orientation;

/// The decisions of the places of a word, row by row: eight bytes in one number.
#[derive(Clone, Copy)]
pub struct DecisionBytes {
    /// The decision of each place's bit, where it isn't significant.
    pub bits: [u64; 4],
    /// The decision of its sign.
    pub signs: [u64; 4],
}

/// The places of two words, those of the second behind those of the first in each byte.
#[inline(always)]
fn paired(low: u64, high: u64) -> u64
    ensures low { (c r : ℕ) → c < 8 → r < 4 → on result (8 * c + r) ≡ on low (8 * c + (r + 1)) }
    ensures high { (c r : ℕ) → c < 8 → r < 4 → on result (8 * c + 4 + r) ≡ on high (8 * c + (r + 1)) }
{
    low >> 1 & 0x0F0F_0F0F_0F0F_0F0F | high << 3 & 0xF0F0_F0F0_F0F0_F0F0
}

/// The even bits of two words, each of the second behind that of the first.
#[inline(always)]
fn even_bits(a: u64, b: u64) -> u64
    ensures first { (k : ℕ) → k < 64 → k % 2 ≡ 0 → on result k ≡ on a k }
    ensures second { (k : ℕ) → k < 64 → k % 2 ≡ 0 → on result (k + 1) ≡ on b k }
{
    a & 0x5555_5555_5555_5555 | (b & 0x5555_5555_5555_5555) << 1
}

/// The odd bits of two words, each of the second behind that of the first.
#[inline(always)]
fn odd_bits(a: u64, b: u64) -> u64
    ensures first { (k : ℕ) → k < 64 → k % 2 ≡ 0 → on result k ≡ on a (k + 1) }
    ensures second { (k : ℕ) → k < 64 → k % 2 ≡ 0 → on result (k + 1) ≡ on b (k + 1) }
{
    a >> 1 & 0x5555_5555_5555_5555 | b & 0xAAAA_AAAA_AAAA_AAAA
}

/// The first two of each four bits of two words, those of the second behind those of the first.
#[inline(always)]
fn low_pairs(a: u64, b: u64) -> u64
    ensures first { (k : ℕ) → k < 64 → k % 4 < 2 → on result k ≡ on a k }
    ensures second { (k : ℕ) → k < 64 → k % 4 < 2 → on result (k + 2) ≡ on b k }
{
    a & 0x3333_3333_3333_3333 | (b & 0x3333_3333_3333_3333) << 2
}

/// The last two of each four bits of two words, those of the second behind those of the first.
#[inline(always)]
fn high_pairs(a: u64, b: u64) -> u64
    ensures first { (k : ℕ) → k < 64 → k % 4 < 2 → on result k ≡ on a (k + 2) }
    ensures second { (k : ℕ) → k < 64 → k % 4 < 2 → on result (k + 2) ≡ on b (k + 2) }
{
    a >> 2 & 0x3333_3333_3333_3333 | b & 0xCCCC_CCCC_CCCC_CCCC
}

/// Each four bits of four words turned: the first bits of all four words, then the second ones, and
/// so on.
#[inline(always)]
fn turned(a: u64, b: u64, d: u64, e: u64) -> [u64; 4]
    ensures { (r q : ℕ) → r < 4 → q < 64 → q % 4 ≡ 0 → of_digits (on (get_or result r 0) (q + 0))
        (on (get_or result r 0) (q + 1)) (on (get_or result r 0) (q + 2)) (on (get_or result r 0) (q + 3))
        ≡ of_digits (on a (q + r)) (on b (q + r)) (on d (q + r)) (on e (q + r)) }
{
    let even = even_bits(a, b);
    let odd = odd_bits(a, b);
    let even_behind = even_bits(d, e);
    let odd_behind = odd_bits(d, e);
    [
        low_pairs(even, even_behind),
        low_pairs(odd, odd_behind),
        high_pairs(even, even_behind),
        high_pairs(odd, odd_behind),
    ]
}

/// Twice the low half of each byte, and the bit of its place in a row.
#[inline(always)]
fn with_bits(numbers: u64, ones: u64, line: u32) -> u64
    requires { line < 4 }
    ensures { (c : ℕ) → c < 8 → byte_of result c ≡ 2 * of_digits (on numbers (8 * c + 0)) (on numbers (8 * c + 1))
        (on numbers (8 * c + 2)) (on numbers (8 * c + 3))
        + (if on ones (8 * c + (line + 1)) then 1 else 0) }
{
    (numbers & 0x0F0F_0F0F_0F0F_0F0F) << 1 | ones >> (line + 1) & 0x0101_0101_0101_0101
}

/// The high half of each byte, and 16.
#[inline(always)]
fn with_sixteen(numbers: u64) -> u64
    ensures { (c : ℕ) → c < 8 → byte_of result c ≡ 16 + of_digits (on numbers (8 * c + 4 + 0))
        (on numbers (8 * c + 4 + 1)) (on numbers (8 * c + 4 + 2)) (on numbers (8 * c + 4 + 3)) }
{
    numbers >> 4 & 0x0F0F_0F0F_0F0F_0F0F | 0x1010_1010_1010_1010
}

/// The decisions of the places of a word, where a place sees those before it in `seen` and those
/// behind it in `old`, by the negative places and those with the bit 1.
#[inline(always)]
pub fn decision_bytes(
    orientation: Orientation,
    seen: Around,
    old: u64,
    negative: Around,
    ones: u64,
) -> DecisionBytes
    ensures bits { (f : Truths) (j s centre k : ℕ) → k < 64 → of_rows (k % 8) ≡ true → centre < 2 ^ 64
        → Turns centre seen.centre old k
        → IsAround (bordered f) j s (record { centre = centre; west = seen.west; east = seen.east })
        → byte_at result.bits k
        ≡ 2 * zero_at orientation f (column j k) (row s k) + (if on ones k then 1 else 0) }
    ensures signs { (f n : Truths) (j s centre k : ℕ) → k < 64 → of_rows (k % 8) ≡ true → centre < 2 ^ 64
        → Turns centre seen.centre old k
        → IsAround (bordered f) j s (record { centre = centre; west = seen.west; east = seen.east })
        → IsAround (bordered n) j s negative
        → byte_at result.signs k ≡ sign_byte (sign_at f n (column j k) (row s k)) (on negative.centre k) }
    ensures small { (k : ℕ) → k < 64 → of_rows (k % 8) ≡ true → byte_at result.bits k < 32 }
    ensures small_signs { (k : ℕ) → k < 64 → of_rows (k % 8) ≡ true → byte_at result.signs k < 32 }
{
    let near = near_words(seen, old);
    let zeros = zero_digits(orientation, near);
    let signs = sign_digits(near, near_words(negative, negative.centre), negative.centre);
    let rows = turned(
        paired(zeros.ones, signs.ones),
        paired(zeros.twos, signs.twos),
        paired(zeros.fours, signs.fours),
        paired(zeros.eights, signs.eights),
    );
    DecisionBytes {
        bits: [
            with_bits(rows[0], ones, 0),
            with_bits(rows[1], ones, 1),
            with_bits(rows[2], ones, 2),
            with_bits(rows[3], ones, 3),
        ],
        signs: [
            with_sixteen(rows[0]),
            with_sixteen(rows[1]),
            with_sixteen(rows[2]),
            with_sixteen(rows[3]),
        ],
    }
}

/// The byte of the place at bit k.
#[inline(always)]
pub fn byte_in(rows: &[u64; 4], k: u32) -> u8
    requires within { k < 64 }
    requires on_row { of_rows (k % 8) ≡ true }
    ensures { result ≡ byte_at rows.now k }
{
    (rows[(k % 8) as usize - 1] >> (8 * (k / 8)) & 0xFF) as u8
}
