//! Rows of columns: every column of a plane at once, a whole row at a time.

ghost use Rattle.std.specs.Prelude.{◌≡◌, ◌≢◌, ℕ, ℤ, ◌+◌, ◌-◌, ◌*◌, ◌/◌, ◌%◌, ◌^◌, ◌<◌, ◌≤◌, ◌+ℤ◌, length, All};
ghost use Rattle.jk_math.specs.Division.{floor_of};
ghost use Rattle.jk_lift.specs.Lifting.{high_pass, low_pass, even_sample, odd_sample};
ghost use Rattle.jk_math.specs.Signed.{IsBelow, signed_at};
ghost use Rattle.jk_lift.specs.Samples.{AnalysesRows, SynthesisesRows};
ghost use Rattle.jk_lift.specs.Sweep.{row_before, row_after, first_step, both_steps};

use crate::steps;
use std::simd::prelude::*;

/// A lifting step.
pub(crate) trait Step {
    /// What becomes of a number between two others.
    ghost formula: { ℤ → ℤ → ℤ → ℤ };

    fn lifted(number: i32, before: i32, after: i32) -> i32
        requires number { IsBelow (2 ^ 29) number }
        requires before { IsBelow (2 ^ 30 - 1) before }
        requires after { IsBelow (2 ^ 30 - 1) after }
        ensures value { result ≡ formula number before after };

    /// The same of eight numbers at once.
    fn lifted_eight(number: i32x8, before: i32x8, after: i32x8) -> i32x8
        requires lanes { (length number ≡ 8) × (length before ≡ 8) × (length after ≡ 8) }
        requires number { (j : ℕ) → j < 8 → IsBelow (2 ^ 29) (signed_at number j) }
        requires before { (j : ℕ) → j < 8 → IsBelow (2 ^ 30 - 1) (signed_at before j) }
        requires after { (j : ℕ) → j < 8 → IsBelow (2 ^ 30 - 1) (signed_at after j) }
        ensures lanes { length result ≡ 8 }
        ensures value { (j : ℕ) → j < 8 → signed_at result j
            ≡ formula (signed_at number j) (signed_at before j) (signed_at after j) }
        ensures within { (j : ℕ) → j < 8 → IsBelow (2 ^ 31) (signed_at result j) };
}

/// Samples at odd places become high-pass coefficients.
pub(crate) struct HighPass;

impl Step for HighPass {
    ghost formula = { high_pass };

    #[inline(always)]
    fn lifted(number: i32, before: i32, after: i32) -> i32 {
        steps::high_pass(number, before, after)
    }

    #[inline(always)]
    fn lifted_eight(number: i32x8, before: i32x8, after: i32x8) -> i32x8 {
        number.strict_sub(before.strict_add(after) >> 1)
    }
}

/// Samples at even places become low-pass coefficients.
pub(crate) struct LowPass;

impl Step for LowPass {
    ghost formula = { low_pass };

    #[inline(always)]
    fn lifted(number: i32, before: i32, after: i32) -> i32 {
        steps::low_pass(number, before, after)
    }

    #[inline(always)]
    fn lifted_eight(number: i32x8, before: i32x8, after: i32x8) -> i32x8 {
        number.strict_add(before.strict_add(after).strict_add(i32x8::splat(2)) >> 2)
    }
}

/// Low-pass coefficients become samples.
pub(crate) struct EvenSample;

impl Step for EvenSample {
    ghost formula = { even_sample };

    #[inline(always)]
    fn lifted(number: i32, before: i32, after: i32) -> i32 {
        steps::even_sample(number, before, after)
    }

    #[inline(always)]
    fn lifted_eight(number: i32x8, before: i32x8, after: i32x8) -> i32x8 {
        number.strict_sub(before.strict_add(after).strict_add(i32x8::splat(2)) >> 2)
    }
}

/// High-pass coefficients become samples.
pub(crate) struct OddSample;

impl Step for OddSample {
    ghost formula = { odd_sample };

    #[inline(always)]
    fn lifted(number: i32, before: i32, after: i32) -> i32 {
        steps::odd_sample(number, before, after)
    }

    #[inline(always)]
    fn lifted_eight(number: i32x8, before: i32x8, after: i32x8) -> i32x8 {
        number.strict_add(before.strict_add(after) >> 1)
    }
}

/// The row before a row, or the one after it at the start.
fn row_before(row: usize) -> usize
    ensures { result ≡ row_before row }
{
    if row == 0 { 1 } else { row - 1 }
}

/// The row after a row, or the one before it at the end.
fn row_after(height: usize, row: usize) -> usize
    requires { (2 ≤ height) × (row < height) }
    ensures { result ≡ row_after height row }
{
    if row + 1 == height { row - 1 } else { row + 1 }
}

/// The coefficients of every column of a plane, in place. `rows` holds whole rows of `width`
/// samples, one after another, and the first is at place `start`, so each row becomes low-pass or
/// high-pass by the parity of its own place (VER_SD, T.800 F.4.3).
pub fn analyse_rows(start: u32, width: usize, rows: &mut [i32])
    requires whole { length rows.old % width ≡ 0 }
    requires small { All (IsBelow (2 ^ 29)) rows.old }
    ensures { AnalysesRows start width rows.old rows.new }
{
    if !rows.is_empty() {
        let height = rows.len() / width;
        if height > 1 {
            lift_rows::<HighPass, LowPass>((start % 2) as usize, height, width, rows);
        } else if start % 2 == 1 {
            double(rows);
        }
    }
}

/// The samples of every column of a plane, in place: `rows` holds whole rows of `width`
/// coefficients, low-pass where the row's place is even and high-pass where it is odd, and the
/// first is at place `start` (VER_SR, T.800 F.3.5).
pub fn synthesise_rows(start: u32, width: usize, rows: &mut [i32])
    requires whole { length rows.old % width ≡ 0 }
    requires small { All (IsBelow (2 ^ 29)) rows.old }
    ensures { SynthesisesRows start width rows.old rows.new }
{
    if !rows.is_empty() {
        let height = rows.len() / width;
        if height > 1 {
            lift_rows::<EvenSample, OddSample>(1 - (start % 2) as usize, height, width, rows);
        } else if start % 2 == 1 {
            halve(rows);
        }
    }
}

/// Doubles each number.
fn double(row: &mut [i32])
    requires { All (IsBelow (2 ^ 29)) row.old }
    ensures { (k : ℕ) → signed_at row.new k ≡ signed_at row.old k +ℤ signed_at row.old k }
{
    for number in row.iter_mut() {
        *number = 2 * *number;
    }
}

/// Halves each number, rounding down.
fn halve(row: &mut [i32])
    requires { All (IsBelow (2 ^ 29)) row.old }
    ensures { (k : ℕ) → signed_at row.new k ≡ floor_of (signed_at row.old k) 2 }
{
    for number in row.iter_mut() {
        *number >>= 1;
    }
}

/// Lifts one row with the two rows next to it, eight numbers at once, and what is left one by one.
#[inline(never)]
fn lift_row<S: Step>(rows: &mut [i32], width: usize, row: usize, before: usize, after: usize)
    requires inside { row * width + width ≤ length rows.old }
    requires before_inside { before * width + width ≤ length rows.old }
    requires after_inside { after * width + width ≤ length rows.old }
    requires apart { (row ≢ before) × (row ≢ after) }
    requires numbers { (x : ℕ) → x < width → IsBelow (2 ^ 29) (signed_at rows.old (row * width + x)) }
    requires befores { (x : ℕ) → x < width → IsBelow (2 ^ 30 - 1) (signed_at rows.old (before * width + x)) }
    requires afters { (x : ℕ) → x < width → IsBelow (2 ^ 30 - 1) (signed_at rows.old (after * width + x)) }
    ensures lifted { (x : ℕ) → x < width → signed_at rows.new (row * width + x) ≡ S.formula
        (signed_at rows.old (row * width + x))
        (signed_at rows.old (before * width + x))
        (signed_at rows.old (after * width + x)) }
    ensures others { (r x : ℕ) → r ≢ row → x < width →
        signed_at rows.new (r * width + x) ≡ signed_at rows.old (r * width + x) }
{
    let (at, left, right) = (row * width, before * width, after * width);
    let whole = width / 8;
    for eight in 0..whole {
        let x = 8 * eight;
        let lifted = S::lifted_eight(
            i32x8::from_slice(&rows[at + x..]),
            i32x8::from_slice(&rows[left + x..]),
            i32x8::from_slice(&rows[right + x..]),
        );
        lifted.copy_to_slice(&mut rows[at + x..]);
    }
    for x in 8 * whole..width {
        rows[at + x] = S::lifted(rows[at + x], rows[left + x], rows[right + x]);
    }
}

/// Lifts a row of the plane with the rows next to it, and nothing where there is no such row.
fn lift_inside<S: Step>(rows: &mut [i32], width: usize, height: usize, row: usize)
    requires tall { 2 ≤ height }
    requires whole { length rows.old ≡ height * width }
    requires numbers { (x : ℕ) → x < width → row < height → IsBelow (2 ^ 29) (signed_at rows.old (row * width + x)) }
    requires befores { (x : ℕ) → x < width → row < height →
        IsBelow (2 ^ 30 - 1) (signed_at rows.old (row_before row * width + x)) }
    requires afters { (x : ℕ) → x < width → row < height →
        IsBelow (2 ^ 30 - 1) (signed_at rows.old (row_after height row * width + x)) }
    ensures lifted { (x : ℕ) → x < width → row < height → signed_at rows.new (row * width + x)
        ≡ first_step S.formula height (λ j. signed_at rows.old (j * width + x)) row }
    ensures others { (r x : ℕ) → r ≢ row → x < width →
        signed_at rows.new (r * width + x) ≡ signed_at rows.old (r * width + x) }
{
    if row < height {
        lift_row::<S>(rows, width, row, row_before(row), row_after(height, row));
    }
}

/// Lifts the rows from `second` on, every second one, by the step `G`, between rows that were
/// lifted by `F` just before.
fn lift_rows<F: Step, G: Step>(second: usize, height: usize, width: usize, rows: &mut [i32])
    requires tall { 2 ≤ height }
    requires wide { 0 < width }
    requires whole { length rows.old ≡ height * width }
    requires second { second < 2 }
    requires small { All (IsBelow (2 ^ 29)) rows.old }
    requires within { (x a b : ℤ) → IsBelow (2 ^ 29) x → IsBelow (2 ^ 29) a → IsBelow (2 ^ 29) b →
        IsBelow (2 ^ 30 - 1) (F.formula x a b) }
    ensures { (x j : ℕ) → x < width → j < height → signed_at rows.new (j * width + x)
        ≡ both_steps F.formula G.formula second height (λ j. signed_at rows.old (j * width + x)) j }
{
    if second == 1 {
        lift_inside::<F>(rows, width, height, 0);
    }
    let mut row = second;
    while row < height {
        lift_inside::<F>(rows, width, height, row + 1);
        lift_inside::<G>(rows, width, height, row);
        row += 2;
    }
}
