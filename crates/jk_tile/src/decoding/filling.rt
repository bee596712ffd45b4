//! Parts of rectangles, written row by row.

ghost use Rattle.std.specs.Prelude.{◌≡◌, ◌≢◌, true, ℕ, ◌+◌, ◌-◌, ◌*◌, ◌<◌, ◌≤◌, ◌&&◌, nat_le, nat_lt, length, All};
ghost use Rattle.std.specs.Prelude.{if◌then◌else◌};
ghost use Rattle.jk_math.specs.Raster.{columns_of, places_of, plane_at};
ghost use Rattle.jk_math.specs.Signed.{IsBelow, signed_at};
ghost use Rattle.jk_geom.specs.Rectangles.{IsArea, IsWithin};
ghost use Rattle.jk_wave.specs.LevelRows.{index_in, coefficient_of, FitsIn};
ghost use Rattle.jk_tile.specs.Filling.{has, IsPartOf, touches};

use jk_geom::meet;
use jk_math::Rect;
use jk_wave::BandRows;

/// Writes a row into a plane at a place.
fn put_row(plane: &mut [i32], at: usize, row: &[i32])
    requires { at + length row.now ≤ length plane.old }
    ensures long { length plane.new ≡ length plane.old }
    ensures value { (k : ℕ) → signed_at plane.new k
        ≡ (if nat_le at k && nat_lt k (at + length row.now) then signed_at row.now (k - at)
        else signed_at plane.old k) }
    ensures small { (m : ℕ) → All (IsBelow m) plane.old → All (IsBelow m) row.now → All (IsBelow m) plane.new }
{
    plane[at..at + row.len()].copy_from_slice(row);
}

/// Writes the values of a part of a rectangle, row by row, at their places in the list of the
/// rectangle's.
pub fn put(area: &Rect, plane: &mut [i32], part: &Rect, values: &[i32])
    requires area { IsArea area.now }
    requires part { IsPartOf part.now area.now }
    requires whole { length plane.old ≡ places_of area.now }
    requires values { length values.now ≡ places_of part.now }
    ensures long { length plane.new ≡ length plane.old }
    ensures value { (x y : ℕ) → IsWithin area.now x y → plane_at area.now plane.new x y
        ≡ (if has part.now x y then plane_at part.now values.now x y else plane_at area.now plane.old x y) }
    ensures small { (m : ℕ) → All (IsBelow m) plane.old → All (IsBelow m) values.now → All (IsBelow m) plane.new }
{
    let width = (area.x1 - area.x0) as usize;
    let part_width = (part.x1 - part.x0) as usize;
    let left = (part.x0 - area.x0) as usize;
    let top = (part.y0 - area.y0) as usize;
    for row in 0..(part.y1 - part.y0) as usize {
        let from = row * part_width;
        put_row(
            plane,
            (top + row) * width + left,
            &values[from..from + part_width],
        );
    }
}

/// Writes what the values of a rectangle, row by row, have of a part of a sub-band at their places
/// in the list that the part lies in.
pub(crate) fn put_common(lies: &BandRows, rows: &mut [i32], place: &Rect, values: &[i32])
    requires area { IsArea lies.now.area }
    requires touches { touches place.now lies.now.area ≡ true }
    requires apart { columns_of lies.now.area ≤ lies.now.step }
    requires fits { FitsIn lies.now (length rows.old) }
    requires values { length values.now ≡ places_of place.now }
    ensures long { length rows.new ≡ length rows.old }
    ensures value { (x y : ℕ) → IsWithin lies.now.area x y → coefficient_of lies.now rows.new x y
        ≡ (if has place.now x y then plane_at place.now values.now x y else coefficient_of lies.now rows.old x y) }
    ensures others { (k : ℕ) → ((x y : ℕ) → IsWithin lies.now.area x y → index_in lies.now x y ≢ k)
        → signed_at rows.new k ≡ signed_at rows.old k }
{
    let area = &lies.area;
    let common = meet(place, area);
    let place_width = (place.x1 - place.x0) as usize;
    let common_width = (common.x1 - common.x0) as usize;
    let (left, top) = (
        (common.x0 - area.x0) as usize,
        (common.y0 - area.y0) as usize,
    );
    let (skipped, above) = (
        (common.x0 - place.x0) as usize,
        (common.y0 - place.y0) as usize,
    );
    for row in 0..(common.y1 - common.y0) as usize {
        let from = (above + row) * place_width + skipped;
        put_row(
            rows,
            lies.start + (top + row) * lies.step + left,
            &values[from..from + common_width],
        );
    }
}
