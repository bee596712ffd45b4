//! From samples to sub-bands.

ghost use Rattle.std.specs.Prelude.{◌≡◌, ℕ, [], ◌∷◌, ◌++◌, Ok, IfOk, IfErr, OnOk, ◌-◌, ◌*◌, ◌^◌, ◌<◌, ◌≤◌};
ghost use Rattle.std.specs.Prelude.{length, All, slice_index_or};
ghost use Rattle.jk_math.specs.Answer.{Answers};
ghost use Rattle.jk_math.specs.Memory.{IsMemory};
ghost use Rattle.jk_math.specs.Lists.{lists_of};
ghost use Rattle.jk_math.specs.Raster.{places_of, plane_at, raster};
ghost use Rattle.jk_math.specs.Signed.{IsBelow};
ghost use Rattle.jk_geom.specs.Rectangles.{IsArea};
ghost use Rattle.jk_wave.specs.Analysis.{analysed_bands};
ghost use Rattle.jk_wave.specs.Levels.{half_area, part_of};
ghost use Rattle.jk_wave.specs.SourceRows.{AreBelow};

use crate::bands::Bands;
use crate::columns::put_samples;
use crate::parts::LevelParts;
use crate::source::{PlaneRows, RowSource};
use crate::sweep::analyse_plane;
use jk_geom::resolution;
use jk_math::{Fault, Planes, Rect};
use std::alloc::Global;

/// One level forwards: gives the low-pass part, and puts HH, LH and HL behind the bands.
fn analyse_level<S: RowSource>(
    alloc: Global,
    source: &S,
    area: &Rect,
    bands: &mut Vec<Vec<i32>>,
) -> Result<Vec<i32>, Fault>
    requires area { IsArea area.now }
    requires stands { S.stands source.now }
    requires is { S.area_of source.now ≡ area.now }
    requires small { AreBelow (2 ^ 28 - 1) area.now (S.value_at source.now) }
    ensures ll { IfOk result
        (λ v. v.items ≡ raster (half_area area.now 0) (part_of area.now (S.value_at source.now) 0)) }
    ensures high { OnOk result (lists_of bands.new.items ≡ lists_of bands.old.items ++
        (raster (half_area area.now 3) (part_of area.now (S.value_at source.now) 3)
        ∷ raster (half_area area.now 2) (part_of area.now (S.value_at source.now) 2)
        ∷ raster (half_area area.now 1) (part_of area.now (S.value_at source.now) 1) ∷ [])) }
    ensures err { IfErr result (λ e. IsMemory e) }
{
    let LevelParts { ll, hl, lh, hh } = analyse_plane(alloc, source, area)?;
    bands.push(hh)?;
    bands.push(lh)?;
    bands.push(hl)?;
    Ok(ll)
}

/// All values, row by row.
fn all_rows<S: RowSource>(alloc: Global, source: &S, area: &Rect) -> Result<Vec<i32>, Fault>
    requires area { IsArea area.now }
    requires stands { S.stands source.now }
    requires is { S.area_of source.now ≡ area.now }
    ensures value { IfOk result (λ v. v.items ≡ raster area.now (S.value_at source.now)) }
    ensures err { IfErr result (λ e. IsMemory e) }
{
    let width = (area.x1 - area.x0) as usize;
    let height = (area.y1 - area.y0) as usize;
    let mut row = vec![in alloc; 0; width]?;
    let mut values = Vec::with_capacity(alloc, height * width)?;
    for y in area.y0..area.y1 {
        put_samples(source, area, y, &mut row);
        values.extend_from_slice(&row)?;
    }
    Ok(values)
}

/// The only sub-band where there is no level.
fn only_band<S: RowSource>(alloc: Global, source: &S, rect: &Rect) -> Result<Vec<Vec<i32>>, Fault>
    requires area { IsArea rect.now }
    requires stands { S.stands source.now }
    requires is { S.area_of source.now ≡ rect.now }
    ensures exact { IfOk result (λ v. lists_of v.items ≡ analysed_bands rect.now 0 (S.value_at source.now)) }
    ensures err { IfErr result (λ e. IsMemory e) }
{
    let mut bands = Vec::new(alloc);
    bands.push(all_rows(alloc, source, rect)?)?;
    Ok(bands)
}

/// The sub-bands of one level or more, in the order of QCD.
fn level_bands<S: RowSource>(
    alloc: Global,
    source: &S,
    rect: &Rect,
    levels: u8,
) -> Result<Vec<Vec<i32>>, Fault>
    requires area { IsArea rect.now }
    requires stands { S.stands source.now }
    requires is { S.area_of source.now ≡ rect.now }
    requires some { 0 < levels }
    requires levels { levels ≤ 10 }
    requires small { AreBelow (2 ^ 17) rect.now (S.value_at source.now) }
    ensures exact { IfOk result (λ v. lists_of v.items ≡ analysed_bands rect.now levels (S.value_at source.now)) }
    ensures err { IfErr result (λ e. IsMemory e) }
{
    let mut bands = Vec::new(alloc);
    let mut left = analyse_level(alloc, source, rect, &mut bands)?;
    for n in 1..levels {
        let area = resolution(rect, levels, levels - n);
        let rows = PlaneRows {
            area,
            values: &left,
        };
        left = analyse_level(alloc, &rows, &area, &mut bands)?;
    }
    bands.push(left)?;
    bands.reverse();
    Ok(bands)
}

/// The sub-bands in the order of QCD.
fn all_bands<S: RowSource>(
    alloc: Global,
    source: &S,
    rect: &Rect,
    levels: u8,
) -> Result<Vec<Vec<i32>>, Fault>
    requires area { IsArea rect.now }
    requires stands { S.stands source.now }
    requires is { S.area_of source.now ≡ rect.now }
    requires levels { levels ≤ 10 }
    requires small { AreBelow (2 ^ 17) rect.now (S.value_at source.now) }
    ensures exact { IfOk result (λ v. lists_of v.items ≡ analysed_bands rect.now levels (S.value_at source.now)) }
    ensures err { IfErr result (λ e. IsMemory e) }
{
    if levels == 0 {
        return only_band(alloc, source, rect);
    }
    level_bands(alloc, source, rect, levels)
}

/// The sub-bands of a tile-component from its samples, which a source gives row by row (FDWT,
/// T.800 F.4.1).
pub fn analyse_source<S: RowSource>(
    alloc: Global,
    rect: &Rect,
    levels: u8,
    source: &S,
) -> Result<Bands, Fault>
    requires area { IsArea rect.now }
    requires stands { S.stands source.now }
    requires is { S.area_of source.now ≡ rect.now }
    requires levels { levels ≤ 10 }
    requires small { AreBelow (2 ^ 17) rect.now (S.value_at source.now) }
    ensures exact { Answers (λ b. b.bands) result (Ok (analysed_bands rect.now levels (S.value_at source.now))) }
    ensures given { IfOk result (λ b. (b.rect ≡ rect.now) × (b.levels ≡ levels)) }
    ensures small { IfOk result (λ b. (n : ℕ) → All (IsBelow (2 ^ 30)) (slice_index_or b.bands n [])) }
{
    let bands = all_bands(alloc, source, rect, levels)?;
    Ok(Bands {
        rect: *rect,
        levels,
        bands: Planes::new(bands),
    })
}

/// The sub-bands of a tile-component from its samples row by row (FDWT, T.800 F.4.1).
pub fn analyse(alloc: Global, rect: &Rect, levels: u8, samples: Vec<i32>) -> Result<Bands, Fault>
    requires area { IsArea rect.now }
    requires levels { levels ≤ 10 }
    requires whole { length samples.items ≡ places_of rect.now }
    requires small { All (IsBelow (2 ^ 17)) samples.items }
    ensures exact { Answers (λ b. b.bands) result
        (Ok (analysed_bands rect.now levels (plane_at rect.now samples.items))) }
    ensures given { IfOk result (λ b. (b.rect ≡ rect.now) × (b.levels ≡ levels)) }
    ensures small { IfOk result (λ b. (n : ℕ) → All (IsBelow (2 ^ 30)) (slice_index_or b.bands n [])) }
{
    let rows = PlaneRows {
        area: *rect,
        values: &samples,
    };
    analyse_source(alloc, rect, levels, &rows)
}
