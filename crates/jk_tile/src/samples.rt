//! From the values of a tile to its samples.

ghost use Rattle.std.specs.Prelude.{◌≡◌, ℕ, ◌+◌, ◌<◌, ◌≤◌, ◌^◌, length, map, All, pos, neg_ℤ, ◌≤ℤ◌, ◌+ℤ◌};
ghost use Rattle.jk_math.specs.Signed.{IsBelow, signed_at};
ghost use Rattle.jk_marks.specs.Siz.{IsSiz};
ghost use Rattle.jk_math.specs.Lists.{lists_of, list_at};
ghost use Rattle.jk_tile.specs.Samples.{sample_of, shift, clamped};

use jk_marks::Siz;
use jk_math::sample_range;

/// The level shift: the sample that stands for zero (T.800 G.1).
pub fn level_shift(depth: u8, signed: bool) -> i32
    requires some { 1 ≤ depth }
    requires few { depth ≤ 16 }
    ensures { result ≡ shift depth signed }
{
    if signed {
        0
    } else {
        (1u32 << (depth - 1)) as i32
    }
}

/// The nearest sample of the range.
#[inline(always)]
fn clamp(depth: u8, signed: bool, value: i32) -> i32
    requires some { 1 ≤ depth }
    requires few { depth ≤ 16 }
    ensures { result ≡ clamped depth signed value }
{
    let (lowest, greatest) = sample_range(depth, signed);
    value.max(lowest).min(greatest)
}

/// The sample of a value of the highest resolution.
#[inline(always)]
fn sample(depth: u8, signed: bool, value: i32) -> i32
    requires some { 1 ≤ depth }
    requires few { depth ≤ 16 }
    requires low { neg_ℤ (pos (2 ^ 30)) ≤ℤ value }
    requires high { value ≤ℤ pos (2 ^ 30) }
    ensures { result ≡ clamped depth signed (value +ℤ shift depth signed) }
{
    clamp(depth, signed, value + level_shift(depth, signed))
}

/// Puts the samples in the places of values.
pub(crate) fn to_samples(siz: &Siz, values: &mut [i32])
    requires siz { IsSiz siz.now }
    requires small { All (IsBelow (2 ^ 30)) values.old }
    ensures { values.new ≡ map (sample_of siz.now) values.old }
{
    let (depth, signed) = (siz.depth, siz.signed);
    for k in 0..values.len() {
        values[k] = sample(depth, signed, values[k]);
    }
}

/// Puts the samples in the places of the values of all components.
pub fn all_to_samples(siz: &Siz, values: &mut Vec<Vec<i32>>)
    requires siz { IsSiz siz.now }
    requires small { (c : ℕ) → All (IsBelow (2 ^ 30)) (list_at values.old.items c) }
    ensures { lists_of values.new.items ≡ map (map (sample_of siz.now)) (lists_of values.old.items) }
{
    for c in 0..values.len() {
        to_samples(siz, &mut values[c]);
    }
}
