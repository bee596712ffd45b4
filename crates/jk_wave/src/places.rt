//! Where the coefficients of a level lie in one list.

ghost use Rattle.std.specs.Prelude.{◌≡◌, ◌≢◌, ℕ, ◌+◌, ◌-◌, ◌*◌, ◌^◌, ◌<◌, ◌≤◌, length, take, drop, IfOk, IfErr, if◌then◌else◌};
ghost use Rattle.jk_math.specs.Memory.{IsMemory};
ghost use Rattle.jk_math.specs.Raster.{columns_of, rows_of, places_of, plane_at};
ghost use Rattle.jk_math.specs.Signed.{signed_at};
ghost use Rattle.jk_geom.specs.Rectangles.{IsArea, IsWithin};
ghost use Rattle.jk_wave.specs.Levels.{half_area};
ghost use Rattle.jk_wave.specs.LevelRows.{index_in, coefficient_of, part_rows, FitsIn, AreZeros};
ghost use Rattle.jk_wave.specs.Regions.{IsRegion, part_area};
ghost use Rattle.jk_wave.specs.RegionRows.{band_rows};

use crate::region::{Region, around, half_area, held};
use jk_math::{Fault, Rect};
use std::alloc::Global;

/// Where the coefficients of a part of a sub-band lie in the list of a level: those of the first
/// row of `area` from place `start` on, and of each further row `step` places behind.
#[derive(Clone, Copy, Debug)]
pub struct BandRows {
    pub area: Rect,
    pub start: usize,
    pub step: usize,
}

/// Some of the numbers of a list.
pub(crate) fn cut(numbers: &[i32], at: usize, count: usize) -> &[i32]
    requires { at + count ≤ length numbers.now }
    ensures { result.now ≡ take count (drop at numbers.now) }
{
    &numbers[at..at + count]
}

/// Zeros for the places of a rectangle.
pub(crate) fn zeros(alloc: Global, area: &Rect) -> Result<Vec<i32>, Fault>
    requires { IsArea area.now }
    ensures zeros { IfOk result (λ v. AreZeros (places_of area.now) v.items) }
    ensures err { IfErr result (λ e. IsMemory e) }
{
    let width = (area.x1 - area.x0) as usize;
    let height = (area.y1 - area.y0) as usize;
    Ok(vec![in alloc; 0; height * width]?)
}

/// How many coefficients of a row of a level are low-pass ones.
pub(crate) fn low_width(area: &Rect) -> usize
    requires { IsArea area.now }
    ensures { result ≡ columns_of (half_area area.now 0) }
{
    (area.x1 as usize + 1) / 2 - (area.x0 as usize + 1) / 2
}

/// Where the part of a level lies whose places are odd across, or down.
pub(crate) fn part_rows(area: &Rect, across: bool, down: bool) -> BandRows
    requires { IsArea area.now }
    ensures value { result ≡ part_rows area.now ((if across then 1 else 0) + (if down then 2 else 0)) }
    ensures area { IsArea result.area }
{
    let part = half_area(area, across, down);
    let width = (area.x1 - area.x0) as usize;
    let first = 2 * part.y0 as usize + down as usize - area.y0 as usize;
    let left = if across { low_width(area) } else { 0 };
    BandRows {
        area: part,
        start: first * width + left,
        step: 2 * width,
    }
}

/// Where the part of sub-band `b`, in the order of QCD, that a region depends on lies in the list
/// of its resolution, which [`begin_level`](crate::begin_level) makes.
pub fn band_rows(region: &Region, b: usize) -> BandRows
    requires region { IsRegion region.now }
    requires b { b ≤ 3 * region.now.top }
    ensures value { result ≡ band_rows region.now b }
    ensures area { IsArea result.area }
{
    if b == 0 {
        let area = held(region, region.top);
        return BandRows {
            area,
            start: 0,
            step: (area.x1 - area.x0) as usize,
        };
    }
    let (level, orientation) = ((b - 1) / 3, (b - 1) % 3 + 1);
    let near = around(region, region.top - (level + 1) as u8);
    part_rows(&near, orientation % 2 == 1, orientation / 2 == 1)
}

/// Copies coefficients, row by row on the rectangle of `place`, to their places in a list.
pub(crate) fn put_rows(place: &BandRows, band: &[i32], rows: &mut [i32])
    requires area { IsArea place.now.area }
    requires whole { length band.now ≡ places_of place.now.area }
    requires fits { FitsIn place.now (length rows.old) }
    requires apart { columns_of place.now.area ≤ place.now.step }
    ensures written { (x y : ℕ) → IsWithin place.now.area x y →
        coefficient_of place.now rows.new x y ≡ plane_at place.now.area band.now x y }
    ensures others { (k : ℕ) → ((x y : ℕ) → IsWithin place.now.area x y → index_in place.now x y ≢ k) →
        signed_at rows.new k ≡ signed_at rows.old k }
{
    let width = (place.area.x1 - place.area.x0) as usize;
    let height = (place.area.y1 - place.area.y0) as usize;
    if width > 0 {
        for row in 0..height {
            let at = place.start + row * place.step;
            let from = row * width;
            rows[at..at + width].copy_from_slice(&band[from..from + width]);
        }
    }
}
