//! The magnitudes of a block in slices: one byte of each magnitude, eight beside each other in one
//! number. So the bits of a word of 32 places in a bit-plane are those of four slices.

ghost use Rattle.std.specs.Prelude.{◌≡◌, ℕ, ◌&&◌, ◌+◌, ◌*◌, ◌/◌, ◌%◌, ◌^◌, ◌<◌, ◌≤◌, nat_eq, nat_lt, length, pos, ℤ};
ghost use Rattle.std.specs.Prelude.{replicate, slice_index_or};
ghost use Rattle.jk_scan.specs.Bits.{on};
ghost use Rattle.jk_scan.specs.Flags.{IsSized, IsDrawn, across};
ghost use Rattle.jk_scan.specs.Moments.{stripes};
ghost use Rattle.jk_scan.specs.Neighbours.{Field};
ghost use Rattle.jk_block.specs.Fields.{words_of, AreUnmarked};
ghost use Rattle.jk_block.specs.Meaning.{value_in};
ghost use Rattle.jk_block.specs.encoding.Slices.{signed, negative_of, negative_to, IsShort, IsSliced, IsSlicedTo};
ghost use Rattle.jk_block.specs.encoding.Slices.{IsClearBehind, slices_of};
ghost use Rattle.jk_block.specs.encoding.Slices.{IsPlaneWord};
ghost use Rattle.jk_block.specs.Steps.{IsWordPlace};

use crate::word_place::WordPlace;
use jk_scan::{BlockShape, word_place, words_across};

/// How many slices are kept of the largest blocks, enough for each with the rows behind its last one
/// up to a whole stripe.
pub const SLICES: usize = 1032;

/// The byte of a magnitude from a bit on. Bit 31 is the sign.
#[inline(always)]
fn byte_at(values: &[i32], at: usize, shift: u32) -> u64
    requires within { at < length values.now }
    requires shift { shift < 32 }
    ensures { result ≡ signed (slice_index_or values.now at (pos 0)) / 2 ^ shift % 2 ^ 8 }
{
    let sign = (values[at] < 0) as u32;
    ((values[at].unsigned_abs() | sign << 31) >> shift & 0xFF) as u64
}

/// The slice of so many values, by a loop over them.
#[inline(always)]
fn slice_by(values: &[i32], start: usize, count: usize, shift: u32) -> u64
    requires within { start + count ≤ length values.now }
    requires few { count ≤ 8 }
    requires shift { shift < 32 }
    ensures { (c i : ℕ) → c < 8 → i < 8
        → on result (8 * c + i) ≡ (nat_lt c count
        && on (signed (slice_index_or values.now (start + c) (pos 0))) (shift + i)) }
{
    let mut word = 0;
    for c in 0..count {
        word |= byte_at(values, start + c, shift) << (8 * c);
    }
    word
}

/// The slice of so many values. Most have eight, for which the loop is laid out in full.
fn slice(values: &[i32], start: usize, count: usize, shift: u32) -> u64
    requires within { start + count ≤ length values.now }
    requires few { count ≤ 8 }
    requires shift { shift < 32 }
    ensures { (c i : ℕ) → c < 8 → i < 8
        → on result (8 * c + i) ≡ (nat_lt c count
        && on (signed (slice_index_or values.now (start + c) (pos 0))) (shift + i)) }
{
    if count == 8 {
        slice_by(values, start, 8, shift)
    } else {
        slice_by(values, start, count, shift)
    }
}

/// The slices of a row.
fn slice_row(slices: &mut [u64], shape: BlockShape, values: &[i32], row: usize, shift: u32)
    requires sized { IsSized shape }
    requires room { slices_of shape ≤ length slices.old }
    requires whole { length values.now ≡ shape.width * shape.height }
    requires row { row < shape.height }
    requires shift { shift < 32 }
    requires before { IsSlicedTo shape shift (value_in shape values.now) (row * across shape) slices.old }
    ensures sliced { IsSlicedTo shape shift (value_in shape values.now) ((row + 1) * across shape) slices.new }
    ensures length { length slices.new ≡ length slices.old }
{
    let across = words_across(shape);
    for word in 0..across {
        let first = 8 * word;
        let count = (shape.width - first).min(8);
        slices[row * across + word] = slice(values, row * shape.width + first, count, shift);
    }
}

/// No magnitude has a bit.
pub fn blank<const S: usize>() -> [u64; S]
    ensures { result ≡ replicate S 0 }
{
    [0; S]
}

/// Makes the slices of a block, of the bytes of its magnitudes from a bit on.
#[inline(never)]
pub fn slice_all(slices: &mut [u64], shape: BlockShape, values: &[i32], shift: u32)
    requires sized { IsSized shape }
    requires room { slices_of shape ≤ length slices.old }
    requires whole { length values.now ≡ shape.width * shape.height }
    requires shift { shift < 32 }
    requires clear { IsClearBehind shape slices.old }
    ensures sliced { IsSliced shape shift (value_in shape values.now) slices.new }
    ensures length { length slices.new ≡ length slices.old }
{
    for row in 0..shape.height {
        slice_row(slices, shape, values, row, shift);
    }
}

/// A bit of each byte of a slice.
#[inline(always)]
fn plane_of(slice: u64, bit: u32) -> u64
    requires { bit < 8 }
    ensures { (c i : ℕ) → c < 8 → i < 8 → on result (8 * c + i) ≡ (nat_eq i 0 && on slice (8 * c + bit)) }
{
    slice >> bit & 0x0101_0101_0101_0101
}

/// The places of a word that have a 1 in this bit of their bytes.
#[inline(always)]
pub fn ones(slices: &[u64], shape: BlockShape, spot: WordPlace, bit: u32) -> u64
    requires sized { IsSized shape }
    requires room { slices_of shape ≤ length slices.now }
    requires spot { IsWordPlace shape spot }
    requires bit { bit < 8 }
    ensures { (shift : ℕ) (q : Field ℤ) → IsSliced shape shift q slices.now
        → IsPlaneWord shape (shift + bit) q spot.word spot.stripe result }
{
    let across = words_across(shape);
    let first = 4 * spot.stripe * across + spot.word;
    plane_of(slices[first], bit) << 1
        | plane_of(slices[first + across], bit) << 2
        | plane_of(slices[first + 2 * across], bit) << 3
        | plane_of(slices[first + 3 * across], bit) << 4
}

/// Marks the negative places of a stripe.
fn mark_negative(slices: &[u64], shape: BlockShape, stripe: usize, words: &mut [u64])
    requires sized { IsSized shape }
    requires space { slices_of shape ≤ length slices.now }
    requires room { words_of shape ≤ length words.old }
    requires stripe { stripe < stripes shape }
    ensures marked { (q : Field ℤ) → IsShort shape q → IsSliced shape 24 q slices.now
        → IsDrawn shape (negative_to shape q (stripe * across shape)) words.old
        → IsDrawn shape (negative_to shape q ((stripe + 1) * across shape)) words.new }
    ensures length { length words.new ≡ length words.old }
{
    for word in 0..words_across(shape) {
        let spot = WordPlace {
            plane: 0,
            word,
            stripe,
        };
        words[word_place(shape, word + 1, stripe + 1)] = ones(slices, shape, spot, 7);
    }
}

/// Marks the negative places of a block, by the slices of its highest bytes.
#[inline(never)]
pub fn mark_all_negative(slices: &[u64], shape: BlockShape, words: &mut [u64])
    requires sized { IsSized shape }
    requires space { slices_of shape ≤ length slices.now }
    requires unmarked { AreUnmarked shape words.old }
    ensures marked { (q : Field ℤ) → IsShort shape q → IsSliced shape 24 q slices.now
        → IsDrawn shape (negative_of shape q) words.new }
    ensures length { length words.new ≡ length words.old }
{
    for stripe in 0..(shape.height + 3) / 4 {
        mark_negative(slices, shape, stripe, words);
    }
}
