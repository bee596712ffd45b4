//! The rows of a level, as many at a time as are there.

ghost use Rattle.std.specs.Prelude.{◌≡◌, ℕ, ℤ, [], IfOk, IfErr, OnOk, ◌+◌, ◌-◌, ◌%◌, ◌^◌, ◌<◌, ◌≤◌, ◌++◌, length, All};
ghost use Rattle.jk_math.specs.Memory.{IsMemory};
ghost use Rattle.jk_math.specs.Raster.{columns_of, raster};
ghost use Rattle.jk_math.specs.Signed.{IsBelow};
ghost use Rattle.jk_geom.specs.Rectangles.{IsArea};
ghost use Rattle.jk_wave.specs.SourceRows.{IsRow, AreBelow};
ghost use Rattle.jk_wave.specs.climbing.Held.{column_sample, rows_between, made, RowsAgree, HoldsRows, HasRoom, IsClimb};
ghost use Rattle.jk_wave.specs.climbing.Intervals.{rows_reached};

use crate::climbing::climb::{Climb, only};
use crate::source::RowSource;
use jk_math::{Fault, Rect};

/// Room for the next two rows of a level.
#[derive(Drop)]
pub struct NextRows {
    pub even: Vec<i32>,
    pub odd: Vec<i32>,
}

/// Puts row `y` of coefficients, whose columns are made, into a row; those from `v` up to `t` are
/// there.
fn put_row<S: RowSource>(source: &S, area: &Rect, v: u32, t: u32, y: u32, row: &mut Vec<i32>)
    requires stands { S.stands source.now }
    requires is { S.area_of source.now ≡ rows_between area.now v t }
    requires small { AreBelow (2 ^ 29) (rows_between area.now v t) (S.value_at source.now) }
    requires from { v ≤ y }
    requires inside { y < t }
    requires long { length row.old.items ≡ columns_of area.now }
    ensures row { (f : ℕ → ℕ → ℤ) → RowsAgree area.now v t (S.value_at source.now) f → IsRow area.now (λ x. f x y) row.new.items }
    ensures long { length row.new.items ≡ columns_of area.now }
    ensures small { All (IsBelow (2 ^ 29)) row.new.items }
{
    source.put_row(y, row);
}

/// Takes the first row, where it is odd, and says which even one is next.
fn start<S: RowSource>(
    climb: &mut Climb,
    source: &S,
    area: &Rect,
    v: u32,
    t: u32,
    row: &mut Vec<i32>,
) -> u32
    requires stands { S.stands source.now }
    requires is { S.area_of source.now ≡ rows_between area.now v t }
    requires small { AreBelow (2 ^ 29) (rows_between area.now v t) (S.value_at source.now) }
    requires area { IsArea area.now }
    requires from { area.now.y0 ≤ v }
    requires order { v < t }
    requires to { t ≤ area.now.y1 }
    requires pairs { area.now.y0 < v → v % 2 ≡ 0 }
    requires held { HoldsRows area.now climb.old }
    requires long { length row.old.items ≡ columns_of area.now }
    ensures even { result % 2 ≡ 0 }
    ensures from { v ≤ result }
    ensures next { result ≤ v + 1 }
    ensures made { made area.now result ≡ made area.now v }
    ensures climbs { (f : ℕ → ℕ → ℤ) → RowsAgree area.now v t (S.value_at source.now) f → IsClimb area.now f v climb.old
        → IsClimb area.now f result climb.new }
    ensures held { HoldsRows area.now climb.new }
    ensures long { length row.new.items ≡ columns_of area.now }
{
    if v % 2 == 0 {
        return v;
    }
    put_row(source, area, v, t, v, row);
    climb.begin(area, row);
    v + 1
}

/// Gives the samples of the rows that are left, where row `y` is the last one or the end.
fn end<S: RowSource>(
    climb: &mut Climb,
    source: &S,
    area: &Rect,
    v: u32,
    y: u32,
    row: &mut Vec<i32>,
    out: &mut Vec<i32>,
) -> Result<(), Fault>
    requires stands { S.stands source.now }
    requires is { S.area_of source.now ≡ rows_between area.now v area.now.y1 }
    requires small { AreBelow (2 ^ 29) (rows_between area.now v area.now.y1) (S.value_at source.now) }
    requires tall { area.now.y0 + 2 ≤ area.now.y1 }
    requires even { y % 2 ≡ 0 }
    requires from { v ≤ y }
    requires last { area.now.y1 ≤ y + 1 }
    requires to { y ≤ area.now.y1 }
    requires held { HoldsRows area.now climb.old }
    requires long { length row.old.items ≡ columns_of area.now }
    ensures samples { OnOk result ((f : ℕ → ℕ → ℤ) → RowsAgree area.now v area.now.y1 (S.value_at source.now) f
        → IsClimb area.now f y climb.old → out.new.items ≡ out.old.items
        ++ raster (rows_between area.now (made area.now y) area.now.y1) (column_sample area.now f)) }
    ensures err { IfErr result (λ e. IsMemory e) }
{
    if y == area.y1 {
        return climb.end_odd(area, out);
    }
    put_row(source, area, v, area.y1, y, row);
    climb.end_even(area, y, row, out)
}

/// Takes the rows from `v` up to `t` of a rectangle of two rows or more.
fn climb_pairs<S: RowSource>(
    climb: &mut Climb,
    source: &S,
    area: &Rect,
    v: u32,
    t: u32,
    next: &mut NextRows,
    out: &mut Vec<i32>,
) -> Result<(), Fault>
    requires stands { S.stands source.now }
    requires is { S.area_of source.now ≡ rows_between area.now v t }
    requires small { AreBelow (2 ^ 29) (rows_between area.now v t) (S.value_at source.now) }
    requires area { IsArea area.now }
    requires tall { area.now.y0 + 2 ≤ area.now.y1 }
    requires from { area.now.y0 ≤ v }
    requires order { v < t }
    requires to { t ≤ area.now.y1 }
    requires pairs { area.now.y0 < v → v % 2 ≡ 0 }
    requires even_end { t < area.now.y1 → t % 2 ≡ 0 }
    requires ready { HasRoom area.now climb.old next.old }
    ensures samples { OnOk result ((f : ℕ → ℕ → ℤ) → RowsAgree area.now v t (S.value_at source.now) f → IsClimb area.now f v climb.old
        → (t < area.now.y1 → IsClimb area.now f t climb.new) × (out.new.items ≡ out.old.items
        ++ raster (rows_between area.now (made area.now v) (rows_reached area.now t)) (column_sample area.now f))) }
    ensures ready { OnOk result (t < area.now.y1 → HasRoom area.now climb.new next.new) }
    ensures err { IfErr result (λ e. IsMemory e) }
{
    let mut y = start(climb, source, area, v, t, &mut next.odd);
    while y + 1 < t {
        put_row(source, area, v, t, y, &mut next.even);
        put_row(source, area, v, t, y + 1, &mut next.odd);
        climb.add_pair(area, y, &mut next.even, &mut next.odd, out)?;
        y += 2;
    }
    if t < area.y1 {
        return Ok(());
    }
    end(climb, source, area, v, y, &mut next.even, out)
}

/// Takes the rows of coefficients from `v` up to `t`, which is even or the end, and gives the samples
/// that are made of them.
pub fn climb_to<S: RowSource>(
    climb: &mut Climb,
    source: &S,
    area: &Rect,
    v: u32,
    t: u32,
    next: &mut NextRows,
    out: &mut Vec<i32>,
) -> Result<(), Fault>
    requires stands { S.stands source.now }
    requires is { S.area_of source.now ≡ rows_between area.now v t }
    requires small { AreBelow (2 ^ 29) (rows_between area.now v t) (S.value_at source.now) }
    requires area { IsArea area.now }
    requires from { area.now.y0 ≤ v }
    requires order { v ≤ t }
    requires to { t ≤ area.now.y1 }
    requires pairs { area.now.y0 < v → v < area.now.y1 → v % 2 ≡ 0 }
    requires even_end { area.now.y0 < t → t < area.now.y1 → t % 2 ≡ 0 }
    requires ready { v < area.now.y1 → HasRoom area.now climb.old next.old }
    ensures samples { OnOk result ((f : ℕ → ℕ → ℤ) → RowsAgree area.now v t (S.value_at source.now) f
        → (v < area.now.y1 → IsClimb area.now f v climb.old)
        → (t < area.now.y1 → IsClimb area.now f t climb.new) × (out.new.items ≡ out.old.items
        ++ raster (rows_between area.now (rows_reached area.now v) (rows_reached area.now t)) (column_sample area.now f))) }
    ensures ready { OnOk result (t < area.now.y1 → HasRoom area.now climb.new next.new) }
    ensures err { IfErr result (λ e. IsMemory e) }
{
    if v == t {
        return Ok(());
    }
    if area.y0 + 1 == area.y1 {
        put_row(source, area, v, t, v, &mut next.even);
        return only(area, &mut next.even, out);
    }
    climb_pairs(climb, source, area, v, t, next, out)
}
