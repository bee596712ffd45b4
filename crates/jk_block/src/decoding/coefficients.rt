//! The coefficients of a block that is read: eight of a row at once, out of the words of its
//! planes.

ghost use Rattle.std.specs.Prelude.{◌≡◌, ℕ, ◌++◌, ◌+◌, ◌*◌, ◌/◌, ◌%◌, ◌^◌, ◌<◌, ◌≤◌};
ghost use Rattle.std.specs.Prelude.{◌&&◌, map, nat_eq, IfOk, IfErr};
ghost use Rattle.std.specs.Vec.{vec_len, vec_capacity};
ghost use Rattle.std.specs.List.{range_with_len};
ghost use Rattle.jk_math.specs.Memory.{IsMemory};
ghost use Rattle.jk_model.specs.Decisions.{State};
ghost use Rattle.jk_scan.specs.Bits.{on};
ghost use Rattle.jk_scan.specs.Flags.{across};
ghost use Rattle.jk_block.specs.Meaning.{with_sign, values_of};
ghost use Rattle.jk_block.specs.Reading.{coefficients};
ghost use Rattle.jk_block.specs.Fields.{number_from, words_of};
ghost use Rattle.jk_block.specs.decoding.BlockStates.{draft_of, progress};
ghost use Rattle.jk_block.specs.decoding.Eights.{HasBits, IsEight, eight_bit, value_of};

use super::block_state::BlockState;
use crate::ages::words_of;
use jk_math::Fault;
use jk_scan::{word_place, words_across};
use std::alloc::Global;

/// Eight coefficients beside each other, a byte of each number for each of them.
#[derive(Clone, Copy)]
pub struct Eight {
    /// Bits 0 to 7 of the magnitudes.
    pub low: u64,
    /// Bits 8 to 15.
    pub middle: u64,
    /// Bits 16 to 23.
    pub high: u64,
    /// 1 for a negative one.
    pub negative: u64,
}

/// Bit k of each byte of a word, as bit 0.
#[inline(always)]
fn row_bits(word: u64, k: u32) -> u64
    requires { k < 8 }
    ensures { (c i : ℕ) → c < 8 → i < 8 → on result (8 * c + i) ≡ (nat_eq i 0 && on word (8 * c + k)) }
{
    word >> k & 0x0101_0101_0101_0101
}

/// A byte of the magnitudes of a row's eight places: their bits in eight planes from the first one
/// on.
#[inline(always)]
fn row_bytes(block_state: &BlockState, at: usize, k: u32, first: u32) -> u64
    requires at { at < words_of block_state.now.shape }
    requires k { k < 8 }
    requires first { first ≤ 16 }
    ensures { HasBits block_state.now at k first result }
{
    let bits = &block_state.bits;
    let room = words_of(block_state.shape);
    let count = block_state.planes.saturating_sub(first).min(8);
    let mut bytes = 0;
    for i in 0..count {
        let plane = first + (count - 1 - i);
        bytes = bytes << 1 | row_bits(bits[plane as usize * room + at], k);
    }
    bytes
}

/// The coefficients of a word of eight places in a row.
#[inline(always)]
fn eight_at(block_state: &BlockState, word: usize, y: usize) -> Eight
    requires word { word < across block_state.now.shape }
    requires y { y < block_state.now.shape.height }
    ensures { IsEight block_state.now word y result }
{
    let at = word_place(block_state.shape, word + 1, y / 4 + 1);
    let k = (y % 4) as u32 + 1;
    let negative = &block_state.negative;
    Eight {
        low: row_bytes(block_state, at, k, 0),
        middle: row_bytes(block_state, at, k, 8),
        high: row_bytes(block_state, at, k, 16),
        negative: row_bits(negative[at], k),
    }
}

/// The magnitude in column c of eight.
#[inline(always)]
fn magnitude(eight: Eight, c: usize) -> u64
    requires { c < 8 }
    ensures is { result ≡ number_from (eight_bit eight c) 0 24 }
    ensures small { result < 2 ^ 24 }
{
    let shift = 8 * c;
    let low = eight.low >> shift & 0xFF;
    let middle = eight.middle >> shift & 0xFF;
    let high = eight.high >> shift & 0xFF;
    low | middle << 8 | high << 16
}

/// The coefficient in column c of eight.
#[inline(always)]
fn coefficient(eight: Eight, c: usize) -> i32
    requires { c < 8 }
    ensures { result ≡ value_of eight c }
{
    let magnitude = magnitude(eight, c) as i32;
    if eight.negative >> (8 * c) & 1 == 1 {
        -magnitude
    } else {
        magnitude
    }
}

/// Appends the first of eight coefficients, by a loop over them.
#[inline(always)]
fn append_by(values: &mut Vec<i32>, eight: Eight, count: usize)
    requires few { count ≤ 8 }
    requires room { vec_len values.old + count ≤ vec_capacity values.old }
    ensures items { values.new.items ≡ values.old.items ++ map (value_of eight) (range_with_len 0 count) }
    ensures len { vec_len values.new ≡ vec_len values.old + count }
    ensures capacity { vec_capacity values.new ≡ vec_capacity values.old }
{
    for c in 0..count {
        values.push_reserved(coefficient(eight, c));
    }
}

/// Appends the first of eight coefficients, for which there is room. Mostly these are all eight,
/// with magnitudes of one byte, for which the loop is laid out in full.
#[inline(always)]
fn append_eight(values: &mut Vec<i32>, eight: Eight, count: usize)
    requires few { count ≤ 8 }
    requires room { vec_len values.old + count ≤ vec_capacity values.old }
    ensures items { values.new.items ≡ values.old.items ++ map (value_of eight) (range_with_len 0 count) }
    ensures len { vec_len values.new ≡ vec_len values.old + count }
    ensures capacity { vec_capacity values.new ≡ vec_capacity values.old }
{
    if count == 8 && eight.middle == 0 && eight.high == 0 {
        let bytes = Eight {
            middle: 0,
            high: 0,
            ..eight
        };
        append_by(values, bytes, 8);
    } else if count == 8 {
        append_by(values, eight, 8);
    } else {
        append_by(values, eight, count);
    }
}

/// Appends the coefficients of a row, for which there is room.
#[inline(always)]
fn append_row(values: &mut Vec<i32>, block_state: &BlockState, y: usize)
    requires row { y < block_state.now.shape.height }
    requires room { vec_len values.old + block_state.now.shape.width ≤ vec_capacity values.old }
    ensures items { values.new.items ≡ values.old.items
        ++ map (λ x. with_sign ((draft_of block_state.now).negative x y) ((draft_of block_state.now).magnitude x y))
        (range_with_len 0 block_state.now.shape.width) }
    ensures len { vec_len values.new ≡ vec_len values.old + block_state.now.shape.width }
    ensures capacity { vec_capacity values.new ≡ vec_capacity values.old }
{
    let width = block_state.shape.width;
    for word in 0..words_across(block_state.shape) {
        let eight = eight_at(block_state, word, y);
        append_eight(values, eight, (width - 8 * word).min(8));
    }
}

/// The coefficients of a sketch.
#[inline(always)]
pub fn values(alloc: Global, block_state: &BlockState) -> Result<Vec<i32>, Fault>
    ensures values { (c : State) → IfOk result
        (λ v. v.items ≡ values_of block_state.now.shape (coefficients (progress (draft_of block_state.now) c))) }
    ensures memory { IfErr result IsMemory }
{
    let mut values = Vec::with_capacity(alloc, block_state.shape.width * block_state.shape.height)?;
    for y in 0..block_state.shape.height {
        append_row(&mut values, block_state, y);
    }
    Ok(values)
}
