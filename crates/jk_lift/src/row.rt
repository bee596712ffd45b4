//! One row of columns, lifted between the rows next to it.

ghost use Rattle.std.specs.Prelude.{◌≡◌, ℕ, ℤ, ◌-◌, ◌^◌, ◌<◌, length, All};
ghost use Rattle.jk_lift.specs.Lifting.{high_pass, low_pass, even_sample, odd_sample};
ghost use Rattle.jk_math.specs.Signed.{IsBelow, signed_at};

use crate::rows::{EvenSample, HighPass, LowPass, OddSample, Step};
use std::simd::prelude::*;

/// Lifts each number of a row between those of the rows next to it, eight at once, and what is left
/// one by one.
fn lift_between<S: Step>(row: &mut [i32], before: &[i32], after: &[i32])
    requires before_long { length before.now ≡ length row.old }
    requires after_long { length after.now ≡ length row.old }
    requires numbers { All (IsBelow (2 ^ 29)) row.old }
    requires befores { All (IsBelow (2 ^ 30 - 1)) before.now }
    requires afters { All (IsBelow (2 ^ 30 - 1)) after.now }
    ensures { (k : ℕ) → k < length row.old → signed_at row.new k
        ≡ S.formula (signed_at row.old k) (signed_at before.now k) (signed_at after.now k) }
{
    let whole = row.len() / 8;
    for eight in 0..whole {
        let at = 8 * eight;
        let lifted = S::lifted_eight(
            i32x8::from_slice(&row[at..]),
            i32x8::from_slice(&before[at..]),
            i32x8::from_slice(&after[at..]),
        );
        lifted.copy_to_slice(&mut row[at..]);
    }
    for k in 8 * whole..row.len() {
        row[k] = S::lifted(row[k], before[k], after[k]);
    }
}

/// Puts high-pass coefficients in the places of a row's samples, of which `before` and `after` are
/// the rows next to it (1D_FILTD of every column, T.800 F.4.8).
pub fn high_pass_row(row: &mut [i32], before: &[i32], after: &[i32])
    requires before_long { length before.now ≡ length row.old }
    requires after_long { length after.now ≡ length row.old }
    requires numbers { All (IsBelow (2 ^ 29)) row.old }
    requires befores { All (IsBelow (2 ^ 29)) before.now }
    requires afters { All (IsBelow (2 ^ 29)) after.now }
    ensures { (k : ℕ) → k < length row.old → signed_at row.new k
        ≡ high_pass (signed_at row.old k) (signed_at before.now k) (signed_at after.now k) }
{
    lift_between::<HighPass>(row, before, after);
}

/// Puts low-pass coefficients in the places of a row's samples, where `before` and `after` are the
/// high-pass coefficients of the rows next to it (1D_FILTD of every column, T.800 F.4.8).
pub fn low_pass_row(row: &mut [i32], before: &[i32], after: &[i32])
    requires before_long { length before.now ≡ length row.old }
    requires after_long { length after.now ≡ length row.old }
    requires numbers { All (IsBelow (2 ^ 29)) row.old }
    requires befores { All (IsBelow (2 ^ 30 - 1)) before.now }
    requires afters { All (IsBelow (2 ^ 30 - 1)) after.now }
    ensures { (k : ℕ) → k < length row.old → signed_at row.new k
        ≡ low_pass (signed_at row.old k) (signed_at before.now k) (signed_at after.now k) }
{
    lift_between::<LowPass>(row, before, after);
}

/// Puts samples in the places of a row's low-pass coefficients, of which `before` and `after` are
/// the high-pass coefficients of the rows next to it (1D_FILTR of every column, T.800 F.3.8).
pub fn even_sample_row(row: &mut [i32], before: &[i32], after: &[i32])
    requires before_long { length before.now ≡ length row.old }
    requires after_long { length after.now ≡ length row.old }
    requires numbers { All (IsBelow (2 ^ 29)) row.old }
    requires befores { All (IsBelow (2 ^ 29)) before.now }
    requires afters { All (IsBelow (2 ^ 29)) after.now }
    ensures { (k : ℕ) → k < length row.old → signed_at row.new k
        ≡ even_sample (signed_at row.old k) (signed_at before.now k) (signed_at after.now k) }
{
    lift_between::<EvenSample>(row, before, after);
}

/// Puts samples in the places of a row's high-pass coefficients, where `before` and `after` are the
/// samples of the rows next to it (1D_FILTR of every column, T.800 F.3.8).
pub fn odd_sample_row(row: &mut [i32], before: &[i32], after: &[i32])
    requires before_long { length before.now ≡ length row.old }
    requires after_long { length after.now ≡ length row.old }
    requires numbers { All (IsBelow (2 ^ 29)) row.old }
    requires befores { All (IsBelow (2 ^ 30 - 1)) before.now }
    requires afters { All (IsBelow (2 ^ 30 - 1)) after.now }
    ensures { (k : ℕ) → k < length row.old → signed_at row.new k
        ≡ odd_sample (signed_at row.old k) (signed_at before.now k) (signed_at after.now k) }
{
    lift_between::<OddSample>(row, before, after);
}
