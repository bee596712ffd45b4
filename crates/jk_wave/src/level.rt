//! One level backwards, in the list that its coefficients are written into.

ghost use Rattle.std.specs.Prelude.{◌≡◌, ◌≢◌, ℕ, ℤ, IfOk, IfErr, ◌+◌, ◌-◌, ◌*◌, ◌^◌, ◌<◌, ◌≤◌, length, All};
ghost use Rattle.jk_math.specs.Memory.{IsMemory};
ghost use Rattle.jk_math.specs.Raster.{columns_of, rows_of, places_of, raster};
ghost use Rattle.jk_math.specs.Signed.{IsBelow, signed_at};
ghost use Rattle.jk_geom.specs.Rectangles.{IsArea};
ghost use Rattle.jk_lift.specs.Lifting.{unlifted};
ghost use Rattle.jk_wave.specs.Levels.{half_area, row_of, unlifted_over};
ghost use Rattle.jk_wave.specs.LevelRows.{woven_rows, IsBegun, IsBoundedLevel};
ghost use Rattle.jk_wave.specs.Regions.{IsRegion, held};
ghost use Rattle.jk_wave.specs.RegionRows.{ShowsLevel, IsMadeSmall, IsLevel, IsBegunLevel};
ghost use Rattle.jk_wave.specs.Resolutions.{resolution_of};

use crate::cropping::crop;
use crate::places::{low_width, part_rows, put_rows, zeros};
use crate::region::{Region, around, held};
use jk_lift::{synthesise_line, synthesise_rows};
use jk_math::{Fault, Rect};
use std::alloc::Global;

/// A list for the coefficients of a rectangle, with these samples at the places of LL.
fn begin_rows(alloc: Global, area: &Rect, below: &[i32]) -> Result<Vec<i32>, Fault>
    requires area { IsArea area.now }
    requires whole { length below.now ≡ places_of (half_area area.now 0) }
    ensures begun { IfOk result (λ v. IsBegun area.now below.now v.items) }
    ensures err { IfErr result (λ e. IsMemory e) }
{
    let mut rows = zeros(alloc, area)?;
    put_rows(&part_rows(area, false, false), below, &mut rows);
    Ok(rows)
}

/// A list for the coefficients that what is looked at of resolution `r` is made of, from the
/// samples of what is looked at of the resolution below: these stand at the places of LL, and zeros
/// at those of the sub-bands of resolution `r`, where [`band_rows`](crate::band_rows) says that
/// these lie. Of resolution 0, which is LL, no resolution is below, and the list has zeros alone.
pub fn begin_level(
    alloc: Global,
    region: &Region,
    r: u8,
    below: Vec<i32>,
) -> Result<Vec<i32>, Fault>
    requires region { IsRegion region.now }
    requires r { r ≤ region.now.top }
    requires below { 0 < r → length below.items ≡ places_of (held region.now (region.now.top - (r - 1))) }
    ensures begun { IfOk result (λ v. IsBegunLevel region.now r below.items v.items) }
    ensures err { IfErr result (λ e. IsMemory e) }
{
    if r == 0 {
        return zeros(alloc, &held(region, region.top));
    }
    begin_rows(alloc, &around(region, region.top - r), &below)
}

/// Makes one row of a level's coefficients samples, which the columns are yet to be made of: the
/// low-pass ones in front and the high-pass ones behind are woven. `line` is room for a row.
fn synthesise_row(area: &Rect, row: usize, line: &mut [i32], rows: &mut [i32])
    requires area { IsArea area.now }
    requires row { row < rows_of area.now }
    requires whole { length rows.old ≡ places_of area.now }
    requires line { length line.old ≡ columns_of area.now }
    requires small { All (IsBelow (2 ^ 29)) (row_of (columns_of area.now) row rows.old) }
    ensures written { (x : ℕ) → x < columns_of area.now → signed_at rows.new (row * columns_of area.now + x)
        ≡ unlifted area.now.x0 area.now.x1 (λ i. woven_rows area.now rows.old i (area.now.y0 + row)) (area.now.x0 + x) }
    ensures others { (j x : ℕ) → j ≢ row → x < columns_of area.now →
        signed_at rows.new (j * columns_of area.now + x) ≡ signed_at rows.old (j * columns_of area.now + x) }
{
    let width = line.len();
    let at = row * width;
    let place = &mut rows[at..at + width];
    line.copy_from_slice(place);
    let (low, high) = line.split_at(low_width(area));
    synthesise_line(area.x0, low, high, place);
}

/// One level backwards over a rectangle, in place: rows first, then columns (2D_SR, T.800 F.3.2).
fn synthesise_level(area: &Rect, line: &mut [i32], rows: &mut [i32])
    requires area { IsArea area.now }
    requires whole { length rows.old ≡ places_of area.now }
    requires line { length line.old ≡ columns_of area.now }
    requires small { IsBoundedLevel area.now rows.old }
    ensures { rows.new ≡ raster area.now (unlifted_over area.now (woven_rows area.now rows.old)) }
{
    let width = (area.x1 - area.x0) as usize;
    let height = (area.y1 - area.y0) as usize;
    if !rows.is_empty() {
        for row in 0..height {
            synthesise_row(area, row, line, rows);
        }
        synthesise_rows(area.y0, width, rows);
    }
}

/// The samples of what is looked at of resolution `r`, row by row on its rectangle, from the list
/// of [`begin_level`] into which the coefficients of the sub-bands of resolution `r` were written
/// (2D_SR, T.800 F.3.2). They are made in the place of the coefficients.
pub fn finish_level(
    alloc: Global,
    region: &Region,
    r: u8,
    rows: Vec<i32>,
) -> Result<Vec<i32>, Fault>
    requires region { IsRegion region.now }
    requires r { r ≤ region.now.top }
    requires level { IsLevel region.now r rows.items }
    ensures samples { (c : ℕ → ℕ → ℕ → ℤ) → ShowsLevel region.now r c rows.items → IfOk result (λ v.
        v.items ≡ raster (held region.now (region.now.top - r)) (resolution_of region.now.rect region.now.levels c r)) }
    ensures made { IfOk result (λ v. IsMadeSmall region.now r v.items) }
    ensures small { IfOk result (λ v. All (IsBelow (2 ^ 29)) v.items) }
    ensures err { IfErr result (λ e. IsMemory e) }
{
    if r == 0 {
        return Ok(rows);
    }
    let n = region.top - r;
    let (near, shown) = (around(region, n), held(region, n));
    let mut line = vec![in alloc; 0; (near.x1 - near.x0) as usize]?;
    let mut rows = rows;
    synthesise_level(&near, &mut line, &mut rows);
    Ok(crop(rows, &near, &shown))
}
