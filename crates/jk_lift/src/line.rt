//! One line of samples, and its low-pass and high-pass part.

ghost use Rattle.std.specs.Prelude.{◌≡◌, ◌+◌, ◌-◌, ◌*◌, ◌^◌, ◌%◌, ◌<◌, ◌≤◌, length, All};
ghost use Rattle.jk_lift.specs.Lifting.{high_at, even_at, before};
ghost use Rattle.jk_math.specs.Signed.{IsBelow, signed_at};
ghost use Rattle.jk_lift.specs.Samples.{line_of, woven, low_length, high_length, AnalysesLine, SynthesisesLine};
ghost use Rattle.jk_lift.specs.Pairs.{AreSamples, AreCoefficients};

use crate::steps::{even_sample, high_pass, low_pass, odd_sample};
use std::simd::prelude::*;

/// The coefficients of the line whose first sample is at place `start`: the low-pass ones, of its
/// even places, and the high-pass ones, of its odd places (1D_SD, and 2D_DEINTERLEAVE in one
/// direction: T.800 F.4.6, F.4.5).
pub fn analyse_line(start: u32, line: &[i32], low: &mut [i32], high: &mut [i32])
    requires low_length { length low.old ≡ low_length start (length line.now) }
    requires high_length { length high.old ≡ high_length start (length line.now) }
    requires small { All (IsBelow (2 ^ 29)) line.now }
    ensures { AnalysesLine start line.now low.new high.new }
{
    if line.len() > 1 {
        analyse_long(start, line, low, high);
    } else if line.len() == 1 {
        if start % 2 == 0 {
            low[0] = line[0];
        } else {
            high[0] = 2 * line[0];
        }
    }
}

/// The samples of the line whose first place is `start`, from its low-pass coefficients, of the
/// even places, and its high-pass ones, of the odd places (2D_INTERLEAVE in one direction, and
/// 1D_SR: T.800 F.3.3, F.3.6).
pub fn synthesise_line(start: u32, low: &[i32], high: &[i32], line: &mut [i32])
    requires low_length { length low.now ≡ low_length start (length line.old) }
    requires high_length { length high.now ≡ high_length start (length line.old) }
    requires small_low { All (IsBelow (2 ^ 29)) low.now }
    requires small_high { All (IsBelow (2 ^ 29)) high.now }
    ensures { SynthesisesLine start low.now high.now line.new }
{
    if line.len() > 1 {
        synthesise_long(start, low, high, line);
    } else if line.len() == 1 {
        if start % 2 == 0 {
            line[0] = low[0];
        } else {
            line[0] = high[0] >> 1;
        }
    }
}

/// Writes the high-pass coefficient at the start where that is an odd place, and gives the one
/// before the first even place of the extended signal.
fn first_coefficient(start: u32, line: &[i32], high: &mut [i32]) -> i32
    requires long { 2 ≤ length line.now }
    requires room { 0 < length high.old }
    requires small { All (IsBelow (2 ^ 29)) line.now }
    ensures value { result ≡ (let end = start + length line.now in
        high_at start end (line_of start line.now) (before start end (start + start % 2))) }
    ensures within { IsBelow (2 ^ 30 - 1) result }
    ensures written { start % 2 ≡ 1 → signed_at high.new 0 ≡ result }
{
    if start % 2 == 1 {
        let first = high_pass(line[0], line[1], line[1]);
        high[0] = first;
        first
    } else if line.len() > 2 {
        high_pass(line[1], line[0], line[2])
    } else {
        high_pass(line[1], line[0], line[0])
    }
}

/// The coefficients of eight pairs of samples from the k-th on: the even ones, of which the first
/// stands behind the coefficient `before`, and the odd ones. Gives the last of these.
#[inline(always)]
fn analyse_eight(
    line: &[i32],
    k: usize,
    shift: usize,
    before: i32,
    low: &mut [i32],
    high: &mut [i32],
) -> i32
    requires inside { 2 * k + shift + 17 ≤ length line.now }
    requires low_room { k + 8 ≤ length low.old }
    requires high_room { k + shift + 8 ≤ length high.old }
    requires small { All (IsBelow (2 ^ 29)) line.now }
    requires before { IsBelow (2 ^ 30 - 1) before }
    ensures coefficients { AreCoefficients line.now (2 * k + shift) before
        low.old low.new k high.old high.new (k + shift) }
    ensures last { result ≡ signed_at high.new (k + shift + 7) }
{
    let at = 2 * k + shift;
    let (even, odd) = i32x8::from_slice(&line[at..]).deinterleave(i32x8::from_slice(
        &line[at + 8..],
    ));
    let behind = even.shuffle(i32x8::splat(line[at + 16]), [1, 2, 3, 4, 5, 6, 7, 8]);
    let next = odd.strict_sub(even.strict_add(behind) >> 1);
    let last = i32x8::splat(before).shuffle(next, [0, 8, 9, 10, 11, 12, 13, 14]);
    let sample = even.strict_add(last.strict_add(next).strict_add(i32x8::splat(2)) >> 2);
    sample.copy_to_slice(&mut low[k..]);
    next.copy_to_slice(&mut high[k + shift..]);
    high[k + shift + 7]
}

/// The coefficients of a line of two samples or more: of eight pairs at once, and of what is left
/// one by one.
fn analyse_long(start: u32, line: &[i32], low: &mut [i32], high: &mut [i32])
    requires long { 2 ≤ length line.now }
    requires low_length { length low.old ≡ low_length start (length line.now) }
    requires high_length { length high.old ≡ high_length start (length line.now) }
    requires small { All (IsBelow (2 ^ 29)) line.now }
    ensures { AnalysesLine start line.now low.new high.new }
{
    let shift = (start % 2) as usize;
    let mut before = first_coefficient(start, line, high);
    let whole = (line.len() - 1 - shift) / 2;
    let eights = whole / 8;
    for eight in 0..eights {
        before = analyse_eight(line, 8 * eight, shift, before, low, high);
    }
    for k in 8 * eights..whole {
        let even = 2 * k + shift;
        let next = high_pass(line[even + 1], line[even], line[even + 2]);
        low[k] = low_pass(line[even], before, next);
        high[k + shift] = next;
        before = next;
    }
    let even = 2 * whole + shift;
    if even + 1 < line.len() {
        let next = high_pass(line[even + 1], line[even], line[even]);
        low[whole] = low_pass(line[even], before, next);
        high[whole + shift] = next;
    } else {
        low[whole] = low_pass(line[even], before, before);
    }
}

/// Writes the sample at the start where that is an even place, and gives the one before the first
/// odd place of the extended signal.
fn first_sample(start: u32, low: &[i32], high: &[i32], line: &mut [i32]) -> i32
    requires long { 2 ≤ length line.old }
    requires low_length { length low.now ≡ low_length start (length line.old) }
    requires high_length { length high.now ≡ high_length start (length line.old) }
    requires small_low { All (IsBelow (2 ^ 29)) low.now }
    requires small_high { All (IsBelow (2 ^ 29)) high.now }
    ensures value { result ≡ (let end = start + length line.old in
        even_at start end (woven start low.now high.now) (before start end (start + (1 - start % 2)))) }
    ensures within { IsBelow (2 ^ 30 - 1) result }
    ensures written { start % 2 ≡ 0 → signed_at line.new 0 ≡ result }
{
    if start % 2 == 0 {
        let first = even_sample(low[0], high[0], high[0]);
        line[0] = first;
        first
    } else if high.len() > 1 {
        even_sample(low[0], high[0], high[1])
    } else {
        even_sample(low[0], high[0], high[0])
    }
}

/// The samples of eight odd places from the k-th on, of which the first stands behind the sample
/// `before`, and of the even places behind them. Gives the last of these.
#[inline(always)]
fn synthesise_eight(
    low: &[i32],
    high: &[i32],
    k: usize,
    shift: usize,
    before: i32,
    line: &mut [i32],
) -> i32
    requires lows { k + shift + 8 ≤ length low.now }
    requires highs { k + 9 ≤ length high.now }
    requires inside { 2 * k + shift + 16 ≤ length line.old }
    requires small_low { All (IsBelow (2 ^ 29)) low.now }
    requires small_high { All (IsBelow (2 ^ 29)) high.now }
    requires before { IsBelow (2 ^ 30 - 1) before }
    ensures samples { AreSamples low.now (k + shift) high.now k before line.old line.new (2 * k + shift) }
    ensures last { result ≡ signed_at line.new (2 * k + shift + 15) }
{
    let here = i32x8::from_slice(&high[k..]);
    let behind = i32x8::from_slice(&high[k + 1..]);
    let even = i32x8::from_slice(&low[k + shift..]);
    let next = even.strict_sub(here.strict_add(behind).strict_add(i32x8::splat(2)) >> 2);
    let last = i32x8::splat(before).shuffle(next, [0, 8, 9, 10, 11, 12, 13, 14]);
    let odd = here.strict_add(last.strict_add(next) >> 1);
    let (first, second) = odd.interleave(next);
    let at = 2 * k + shift;
    first.copy_to_slice(&mut line[at..]);
    second.copy_to_slice(&mut line[at + 8..]);
    line[at + 15]
}

/// The samples of a line of two coefficients or more: of eight pairs at once, and of what is left
/// one by one.
fn synthesise_long(start: u32, low: &[i32], high: &[i32], line: &mut [i32])
    requires long { 2 ≤ length line.old }
    requires low_length { length low.now ≡ low_length start (length line.old) }
    requires high_length { length high.now ≡ high_length start (length line.old) }
    requires small_low { All (IsBelow (2 ^ 29)) low.now }
    requires small_high { All (IsBelow (2 ^ 29)) high.now }
    ensures { SynthesisesLine start low.now high.now line.new }
{
    let shift = 1 - (start % 2) as usize;
    let mut before = first_sample(start, low, high, line);
    let whole = (line.len() - 1 - shift) / 2;
    let eights = whole / 8;
    for eight in 0..eights {
        before = synthesise_eight(low, high, 8 * eight, shift, before, line);
    }
    for k in 8 * eights..whole {
        let odd = 2 * k + shift;
        let next = even_sample(low[k + shift], high[k], high[k + 1]);
        line[odd] = odd_sample(high[k], before, next);
        line[odd + 1] = next;
        before = next;
    }
    let odd = 2 * whole + shift;
    if odd + 1 < line.len() {
        let next = even_sample(low[whole + shift], high[whole], high[whole]);
        line[odd] = odd_sample(high[whole], before, next);
        line[odd + 1] = next;
    } else {
        line[odd] = odd_sample(high[whole], before, before);
    }
}
