//! One row of a plane, lifted between the rows next to it.

ghost use Rattle.std.specs.Prelude.{◌≡◌, ℕ, ℤ, ◌+◌, ◌-◌, ◌%◌, ◌^◌, ◌<◌, ◌≤◌, length, All};
ghost use Rattle.jk_math.specs.Raster.{columns_of};
ghost use Rattle.jk_math.specs.Signed.{IsBelow};
ghost use Rattle.jk_lift.specs.Lifting.{before, after};
ghost use Rattle.jk_wave.specs.SourceRows.{IsRow};
ghost use Rattle.jk_wave.specs.climbing.Held.{column_sample};

use jk_lift::{even_sample_row, odd_sample_row, synthesise_rows};
use jk_math::Rect;

/// Makes samples of the row at place `y`, which is even, from the coefficients above and below it.
pub(crate) fn make_even(area: &Rect, y: u32, row: &mut [i32], above: &[i32], below: &[i32])
    requires tall { area.now.y0 + 2 ≤ area.now.y1 }
    requires even { y % 2 ≡ 0 }
    requires long { length row.old ≡ columns_of area.now }
    requires above_long { length above.now ≡ columns_of area.now }
    requires below_long { length below.now ≡ columns_of area.now }
    requires small { All (IsBelow (2 ^ 29)) row.old }
    requires above_small { All (IsBelow (2 ^ 29)) above.now }
    requires below_small { All (IsBelow (2 ^ 29)) below.now }
    ensures samples { (f : ℕ → ℕ → ℤ) → IsRow area.now (λ x. f x y) row.old
        → IsRow area.now (λ x. f x (before area.now.y0 area.now.y1 y)) above.now
        → IsRow area.now (λ x. f x (after area.now.y0 area.now.y1 y)) below.now
        → IsRow area.now (λ x. column_sample area.now f x y) row.new }
    ensures small { All (IsBelow (2 ^ 30 - 1)) row.new }
{
    even_sample_row(row, above, below);
}

/// Makes samples of the row at place `y`, which is odd, from the samples above and below it.
pub(crate) fn make_odd(area: &Rect, y: u32, row: &mut [i32], above: &[i32], below: &[i32])
    requires tall { area.now.y0 + 2 ≤ area.now.y1 }
    requires from { area.now.y0 ≤ y }
    requires inside { y < area.now.y1 }
    requires odd { y % 2 ≡ 1 }
    requires long { length row.old ≡ columns_of area.now }
    requires above_long { length above.now ≡ columns_of area.now }
    requires below_long { length below.now ≡ columns_of area.now }
    requires small { All (IsBelow (2 ^ 29)) row.old }
    requires above_small { All (IsBelow (2 ^ 30 - 1)) above.now }
    requires below_small { All (IsBelow (2 ^ 30 - 1)) below.now }
    ensures { (f : ℕ → ℕ → ℤ) → IsRow area.now (λ x. f x y) row.old
        → IsRow area.now (λ x. column_sample area.now f x (before area.now.y0 area.now.y1 y)) above.now
        → IsRow area.now (λ x. column_sample area.now f x (after area.now.y0 area.now.y1 y)) below.now
        → IsRow area.now (λ x. column_sample area.now f x y) row.new }
{
    odd_sample_row(row, above, below);
}

/// Makes samples of the only row of a rectangle.
pub(crate) fn make_only(area: &Rect, row: &mut [i32])
    requires one { area.now.y0 + 1 ≡ area.now.y1 }
    requires long { length row.old ≡ columns_of area.now }
    requires small { All (IsBelow (2 ^ 29)) row.old }
    ensures { (f : ℕ → ℕ → ℤ) → IsRow area.now (λ x. f x area.now.y0) row.old
        → IsRow area.now (λ x. column_sample area.now f x area.now.y0) row.new }
{
    synthesise_rows(area.y0, row.len(), row);
}
