//! From sub-bands to a resolution.

ghost use Rattle.std.specs.Prelude.{◌≡◌, ℕ, ℤ, [], Ok, IfOk, IfErr, MatchResult, ◌+◌, ◌-◌, ◌*◌, ◌^◌, ◌<◌, ◌≤◌, length};
ghost use Rattle.std.specs.Prelude.{All, slice_index_or};
ghost use Rattle.jk_math.specs.Answer.{Answers};
ghost use Rattle.jk_math.specs.Memory.{IsMemory};
ghost use Rattle.jk_math.specs.Raster.{plane_at, raster};
ghost use Rattle.jk_math.specs.Signed.{IsBelow};
ghost use Rattle.jk_geom.specs.Rectangles.{IsArea, resolution_area};
ghost use Rattle.jk_wave.specs.Bands.{AreBands, coefficients_of};
ghost use Rattle.jk_wave.specs.LevelRows.{coefficient_of};
ghost use Rattle.jk_wave.specs.Regions.{IsRegion, part_area, AreBandParts, ShowsParts};
ghost use Rattle.jk_wave.specs.RegionRows.{level_places, low_rows, ShowsLow, ShowsBands};
ghost use Rattle.jk_wave.specs.Resolutions.{resolution_of};

use crate::bands::{BandParts, Bands};
use crate::level::{begin_level, finish_level};
use crate::places::{band_rows, put_rows};
use crate::region::Region;
use jk_geom::resolution;
use jk_math::{Fault, Planes};
use std::alloc::Global;

/// Puts the parts of the sub-bands of resolution `r` at their places in its list.
fn put_bands(region: &Region, bands: &Planes, r: u8, rows: &mut [i32])
    requires region { IsRegion region.now }
    requires r { r ≤ region.now.top }
    requires parts { AreBandParts region.now bands.now }
    requires places { length rows.old ≡ level_places region.now r }
    ensures bands { ShowsBands region.now r
        (λ b. plane_at (part_area region.now b) (slice_index_or bands.now b [])) rows.new }
    ensures low { ShowsLow region.now r (coefficient_of (low_rows region.now r) rows.old) rows.new }
{
    let end = 3 * r as usize + 1;
    for b in end.saturating_sub(3)..end {
        put_rows(&band_rows(region, b), bands.plane(b), rows);
    }
}

/// A region of a resolution, row by row, from the parts of the sub-bands that it depends on.
fn synthesise_region(alloc: Global, region: &Region, bands: &Planes) -> Result<Vec<i32>, Fault>
    requires region { IsRegion region.now }
    requires parts { AreBandParts region.now bands.now }
    ensures part { (c : ℕ → ℕ → ℕ → ℤ) → ShowsParts region.now bands.now c
        → MatchResult result
        (λ v. v.items ≡ raster region.now.area (resolution_of region.now.rect region.now.levels c region.now.top))
        IsMemory }
    ensures small { IfOk result (λ v. All (IsBelow (2 ^ 29)) v.items) }
    ensures err { IfErr result (λ e. IsMemory e) }
{
    let mut samples = Vec::new(alloc);
    for r in 0..region.top + 1 {
        let mut rows = begin_level(alloc, region, r, samples)?;
        put_bands(region, bands, r, &mut rows);
        samples = finish_level(alloc, region, r, rows)?;
    }
    Ok(samples)
}

/// A region of a resolution of a tile-component, row by row on its rectangle, from the parts of the
/// sub-bands alone.
pub fn synthesise_part(alloc: Global, parts: &BandParts) -> Result<Vec<i32>, Fault>
    requires region { IsRegion parts.now.region }
    requires parts { AreBandParts parts.now.region parts.now.bands }
    ensures part { (c : ℕ → ℕ → ℕ → ℤ) → ShowsParts parts.now.region parts.now.bands c
        → MatchResult result (λ v. v.items ≡ raster parts.now.region.area
        (resolution_of parts.now.region.rect parts.now.region.levels c parts.now.region.top)) IsMemory }
    ensures small { IfOk result (λ v. All (IsBelow (2 ^ 29)) v.items) }
{
    synthesise_region(alloc, &parts.region, &parts.bands)
}

/// Resolution `r` of a tile-component, row by row on its rectangle (IDWT, T.800 F.3.1).
pub fn synthesise(alloc: Global, bands: &Bands, r: u8) -> Result<Vec<i32>, Fault>
    requires area { IsArea bands.now.rect }
    requires levels { bands.now.levels ≤ 10 }
    requires r { r ≤ bands.now.levels }
    requires bands { AreBands bands.now.rect bands.now.levels r bands.now.bands }
    ensures exact { Answers (λ v. v.items) result (Ok (raster (resolution_area bands.now.rect bands.now.levels r)
        (resolution_of bands.now.rect bands.now.levels
        (coefficients_of bands.now.rect bands.now.levels bands.now.bands) r))) }
    ensures small { IfOk result (λ v. All (IsBelow (2 ^ 29)) v.items) }
{
    let region = Region {
        rect: bands.rect,
        levels: bands.levels,
        top: r,
        area: resolution(&bands.rect, bands.levels, r),
    };
    Ok(synthesise_region(alloc, &region, &bands.bands)?)
}
