//! One row of a plane, lifted between the rows next to it.

ghost use Rattle.std.specs.Prelude.{◌≡◌, ℕ, ℤ, ◌+◌, ◌-◌, ◌%◌, ◌^◌, ◌<◌, ◌≤◌, length, All};
ghost use Rattle.jk_math.specs.Raster.{columns_of};
ghost use Rattle.jk_math.specs.Signed.{IsBelow};
ghost use Rattle.jk_lift.specs.Lifting.{before, after};
ghost use Rattle.jk_wave.specs.SourceRows.{IsRow, column_lifted, column_high};

use jk_lift::{analyse_rows, high_pass_row, low_pass_row};
use jk_math::Rect;

/// Makes the high-pass coefficients of the row at place `y` of its samples and of those of the rows
/// next to it.
pub(crate) fn make_high(area: &Rect, y: u32, row: &mut [i32], above: &[i32], below: &[i32])
    requires long { length row.old ≡ columns_of area.now }
    requires above_long { length above.now ≡ columns_of area.now }
    requires below_long { length below.now ≡ columns_of area.now }
    requires small { All (IsBelow (2 ^ 28 - 1)) row.old }
    requires above_small { All (IsBelow (2 ^ 28 - 1)) above.now }
    requires below_small { All (IsBelow (2 ^ 28 - 1)) below.now }
    ensures high { (f : ℕ → ℕ → ℤ) → IsRow area.now (λ x. f x y) row.old
        → IsRow area.now (λ x. f x (before area.now.y0 area.now.y1 y)) above.now
        → IsRow area.now (λ x. f x (after area.now.y0 area.now.y1 y)) below.now
        → IsRow area.now (column_high area.now f y) row.new }
    ensures small { All (IsBelow (2 ^ 29)) row.new }
{
    high_pass_row(row, above, below);
}

/// Makes the low-pass coefficients of the row at place `y`, which is even, of its samples and of the
/// high-pass coefficients of the rows next to it.
pub(crate) fn make_low(area: &Rect, y: u32, row: &mut [i32], above: &[i32], below: &[i32])
    requires tall { area.now.y0 + 2 ≤ area.now.y1 }
    requires even { y % 2 ≡ 0 }
    requires long { length row.old ≡ columns_of area.now }
    requires above_long { length above.now ≡ columns_of area.now }
    requires below_long { length below.now ≡ columns_of area.now }
    requires small { All (IsBelow (2 ^ 28 - 1)) row.old }
    requires above_small { All (IsBelow (2 ^ 29)) above.now }
    requires below_small { All (IsBelow (2 ^ 29)) below.now }
    ensures low { (f : ℕ → ℕ → ℤ) → IsRow area.now (λ x. f x y) row.old
        → IsRow area.now (column_high area.now f (before area.now.y0 area.now.y1 y)) above.now
        → IsRow area.now (column_high area.now f (after area.now.y0 area.now.y1 y)) below.now
        → IsRow area.now (column_lifted area.now f y) row.new }
    ensures small { All (IsBelow (2 ^ 29)) row.new }
{
    low_pass_row(row, above, below);
}

/// Makes the coefficients of the only row of a rectangle of its samples.
pub(crate) fn make_only(area: &Rect, row: &mut [i32])
    requires one { area.now.y0 + 1 ≡ area.now.y1 }
    requires wide { area.now.x0 < area.now.x1 }
    requires long { length row.old ≡ columns_of area.now }
    requires small { All (IsBelow (2 ^ 28 - 1)) row.old }
    ensures lifted { (f : ℕ → ℕ → ℤ) → IsRow area.now (λ x. f x area.now.y0) row.old
        → IsRow area.now (column_lifted area.now f area.now.y0) row.new }
    ensures small { All (IsBelow (2 ^ 29)) row.new }
{
    analyse_rows(area.y0, row.len(), row);
}
