//! A part of a plane.

ghost use Rattle.std.specs.Prelude.{◌≡◌, ℕ, ◌+◌, ◌-◌, ◌*◌, ◌^◌, ◌<◌, ◌≤◌, length};
ghost use Rattle.jk_math.specs.Raster.{columns_of, rows_of, places_of, plane_at, raster};
ghost use Rattle.jk_math.specs.Signed.{signed_at};
ghost use Rattle.jk_geom.specs.Rectangles.{IsArea};
ghost use Rattle.jk_wave.specs.Regions.{IsPartOf};

use jk_math::Rect;

/// Moves the rows of a part of a rectangle to the front of the list of the rectangle's, one behind
/// another.
fn move_rows(plane: &mut [i32], area: &Rect, part: &Rect)
    requires area { IsArea area.now }
    requires part { IsPartOf part.now area.now }
    requires whole { length plane.old ≡ places_of area.now }
    ensures { (j x : ℕ) → j < rows_of part.now → x < columns_of part.now
        → signed_at plane.new (j * columns_of part.now + x)
        ≡ signed_at plane.old
        ((part.now.y0 - area.now.y0 + j) * columns_of area.now + (part.now.x0 - area.now.x0 + x)) }
{
    let width = (area.x1 - area.x0) as usize;
    let part_width = (part.x1 - part.x0) as usize;
    let left = (part.x0 - area.x0) as usize;
    let top = (part.y0 - area.y0) as usize;
    for row in 0..(part.y1 - part.y0) as usize {
        let start = (top + row) * width + left;
        plane.copy_within(start..start + part_width, row * part_width);
    }
}

/// What a plane over a rectangle has of a part of it.
pub(crate) fn crop(plane: Vec<i32>, area: &Rect, part: &Rect) -> Vec<i32>
    requires area { IsArea area.now }
    requires part { IsPartOf part.now area.now }
    requires whole { length plane.items ≡ places_of area.now }
    ensures { result.items ≡ raster part.now (plane_at area.now plane.items) }
{
    if *part == *area {
        return plane;
    }
    let width = (part.x1 - part.x0) as usize;
    let height = (part.y1 - part.y0) as usize;
    let mut plane = plane;
    move_rows(&mut plane, area, part);
    plane.truncate(height * width);
    plane
}
