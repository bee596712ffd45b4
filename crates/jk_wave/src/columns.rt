//! One row of a plane, with its columns analysed.

ghost use Rattle.std.specs.Prelude.{◌≡◌, ℕ, ℤ, ◌+◌, ◌-◌, ◌%◌, ◌^◌, ◌<◌, ◌≤◌, length, All};
ghost use Rattle.jk_math.specs.Raster.{columns_of};
ghost use Rattle.jk_math.specs.Signed.{IsBelow};
ghost use Rattle.jk_geom.specs.Rectangles.{IsArea};
ghost use Rattle.jk_lift.specs.Lifting.{before, after};
ghost use Rattle.jk_wave.specs.SourceRows.{IsRow, AreBelow, column_lifted, column_high};

use crate::source::RowSource;
use jk_lift::{analyse_rows, high_pass_row, low_pass_row};
use jk_math::Rect;

/// Puts the samples of the row at place `y` into a row.
pub(crate) fn put_samples<S: RowSource>(source: &S, area: &Rect, y: u32, row: &mut [i32])
    requires area { IsArea area.now }
    requires stands { S.stands source.now }
    requires is { S.area_of source.now ≡ area.now }
    requires from { area.now.y0 ≤ y }
    requires inside { y < area.now.y1 }
    requires long { length row.old ≡ columns_of area.now }
    ensures { IsRow area.now (λ x. S.value_at source.now x y) row.new }
{
    source.put_row(y, row);
}

/// Puts the high-pass coefficients of the row at place `y` into a row, of which the samples of the
/// rows next to it are given.
pub(crate) fn put_high<S: RowSource>(
    source: &S,
    area: &Rect,
    y: u32,
    row: &mut [i32],
    above: &[i32],
    below: &[i32],
)
    requires area { IsArea area.now }
    requires stands { S.stands source.now }
    requires is { S.area_of source.now ≡ area.now }
    requires small { AreBelow (2 ^ 28 - 1) area.now (S.value_at source.now) }
    requires from { area.now.y0 ≤ y }
    requires inside { y < area.now.y1 }
    requires long { length row.old ≡ columns_of area.now }
    requires above_small { All (IsBelow (2 ^ 29)) above.now }
    requires below_small { All (IsBelow (2 ^ 29)) below.now }
    requires above { IsRow area.now (λ x. S.value_at source.now x (before area.now.y0 area.now.y1 y)) above.now }
    requires below { IsRow area.now (λ x. S.value_at source.now x (after area.now.y0 area.now.y1 y)) below.now }
    ensures { IsRow area.now (column_high area.now (S.value_at source.now) y) row.new }
{
    put_samples(source, area, y, row);
    high_pass_row(row, above, below);
}

/// Makes the low-pass coefficients of the row at place `y` of its samples, and of the high-pass
/// coefficients of the rows next to it.
pub(crate) fn make_low(area: &Rect, y: u32, row: &mut [i32], above: &[i32], below: &[i32])
    requires tall { area.now.y0 + 2 ≤ area.now.y1 }
    requires even { y % 2 ≡ 0 }
    requires long { length row.old ≡ columns_of area.now }
    requires above_long { length above.now ≡ columns_of area.now }
    requires below_long { length below.now ≡ columns_of area.now }
    requires small { All (IsBelow (2 ^ 29)) row.old }
    requires above_small { All (IsBelow (2 ^ 30 - 1)) above.now }
    requires below_small { All (IsBelow (2 ^ 30 - 1)) below.now }
    ensures { (f : ℕ → ℕ → ℤ) → IsRow area.now (λ x. f x y) row.old
        → IsRow area.now (column_high area.now f (before area.now.y0 area.now.y1 y)) above.now
        → IsRow area.now (column_high area.now f (after area.now.y0 area.now.y1 y)) below.now
        → IsRow area.now (column_lifted area.now f y) row.new }
{
    low_pass_row(row, above, below);
}

/// Puts the coefficients of the only row of a rectangle into a row.
pub(crate) fn put_only<S: RowSource>(source: &S, area: &Rect, row: &mut [i32])
    requires area { IsArea area.now }
    requires stands { S.stands source.now }
    requires is { S.area_of source.now ≡ area.now }
    requires small { AreBelow (2 ^ 28 - 1) area.now (S.value_at source.now) }
    requires wide { area.now.x0 < area.now.x1 }
    requires one { area.now.y0 + 1 ≡ area.now.y1 }
    requires long { length row.old ≡ columns_of area.now }
    ensures { IsRow area.now (column_lifted area.now (S.value_at source.now) area.now.y0) row.new }
{
    put_samples(source, area, area.y0, row);
    analyse_rows(area.y0, row.len(), row);
}
