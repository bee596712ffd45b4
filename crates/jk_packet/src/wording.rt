//! The words of a code-block's piece, written (T.800 B.10.6, B.10.7).

ghost use Rattle.std.specs.Prelude.{◌≡◌, ◌-◌, ◌/◌, ◌%◌, ◌^◌, ◌<◌, ◌≤◌, ◌==◌, ◌++◌, true, replicate, MatchResult};
ghost use Rattle.jk_math.specs.Memory.{IsMemory};
ghost use Rattle.jk_bits.specs.Stuffing.{binary};
ghost use Rattle.jk_tree.specs.Telling.{with_bits};
ghost use Rattle.jk_packet.specs.Words.{width, pass_code, piece_bits};
ghost use Rattle.jk_packet.specs.Written.{least_growth};

use crate::words::{Addition, floor_log2};
use jk_bits::BitWriter;
use jk_math::Fault;

/// Bit `place` of a number, counted from the lowest.
fn bit_of(value: u32, place: u32) -> bool
    requires { place < 32 }
    ensures { result ≡ (value / 2 ^ place % 2 == 1) }
{
    value >> place & 1 == 1
}

/// The lowest `count` bits of a number, the highest of them first.
fn push_number(value: u32, count: u32, writer: &mut BitWriter) -> Result<(), Fault>
    requires { count ≤ 32 }
    ensures { MatchResult result
        (λ _. writer.new ≡ with_bits writer.old (binary count value)) (λ e. IsMemory e) }
{
    let mut left = count;
    while left > 0 {
        left -= 1;
        writer.push(bit_of(value, left))?;
    }
    Ok(())
}

/// So many ones.
fn push_ones(count: u8, writer: &mut BitWriter) -> Result<(), Fault>
    ensures { MatchResult result
        (λ _. writer.new ≡ with_bits writer.old (replicate count true)) (λ e. IsMemory e) }
{
    for _ in 0..count {
        writer.push(true)?;
    }
    Ok(())
}

/// The code-word of a number of coding passes, from 1 to 164 (Table B.4): so many ones, and behind
/// them so many bits of what the number is above another.
fn pass_word(passes: u8) -> (u8, u32, u8)
    requires some { 1 ≤ passes }
    ensures word { replicate result.0 true ++ binary result.1 (passes - result.2) ≡ pass_code passes }
    ensures narrow { result.1 ≤ 32 }
    ensures above { result.2 ≤ passes }
{
    if passes == 1 {
        return (0, 1, 1);
    }
    if passes == 2 {
        return (1, 1, 2);
    }
    if passes <= 5 {
        return (2, 2, 3);
    }
    if passes <= 36 {
        return (4, 5, 6);
    }
    (9, 7, 37)
}

/// The code-word of a number of coding passes.
fn push_pass_count(passes: u8, writer: &mut BitWriter) -> Result<(), Fault>
    requires { 1 ≤ passes }
    ensures { MatchResult result
        (λ _. writer.new ≡ with_bits writer.old (pass_code passes)) (λ e. IsMemory e) }
{
    let (ones, count, first) = pass_word(passes);
    push_ones(ones, writer)?;
    push_number((passes - first) as u32, count, writer)
}

/// By how much Lblock grows before the length of so many passes: the least that makes room for it
/// (B.10.7.1).
pub(crate) fn least_growth(length_bits: u8, passes: u8, size: u32) -> u8
    requires { 1 ≤ passes }
    ensures { result ≡ least_growth length_bits passes size }
{
    let digits = 32 - size.leading_zeros();
    digits.saturating_sub(length_bits as u32 + floor_log2(passes)) as u8
}

/// The words of a piece, behind an Lblock of `length_bits`.
pub(crate) fn push_piece(
    length_bits: u8,
    piece: Addition,
    writer: &mut BitWriter,
) -> Result<(), Fault>
    requires some { 1 ≤ piece.passes }
    requires narrow { width length_bits piece ≤ 32 }
    ensures { MatchResult result
        (λ _. writer.new ≡ with_bits writer.old (piece_bits length_bits piece)) (λ e. IsMemory e) }
{
    push_pass_count(piece.passes, writer)?;
    push_ones(piece.growth, writer)?;
    writer.push(false)?;
    let bits = length_bits as u32 + piece.growth as u32 + floor_log2(piece.passes);
    push_number(piece.length, bits, writer)?;
    Ok(())
}
