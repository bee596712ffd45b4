//! Levels one over another.

ghost use Rattle.std.specs.Prelude.{◌≡◌, ℕ, [], IfOk, IfErr, OnOk, ◌+◌, ◌-◌, ◌*◌, ◌^◌, ◌<◌, ◌≤◌};
ghost use Rattle.jk_math.specs.Memory.{IsMemory};
ghost use Rattle.jk_math.specs.Raster.{raster};
ghost use Rattle.jk_geom.specs.Rectangles.{IsArea, resolution_area};
ghost use Rattle.jk_wave.specs.Bands.{AreBands, coefficients_of};
ghost use Rattle.jk_wave.specs.Resolutions.{resolution_of};
ghost use Rattle.jk_wave.specs.climbing.Standing.{AreHigh, ShowHigh, IsStanding};
ghost use Rattle.jk_wave.specs.climbing.Stack.{taken_of, rows_of_step, IsLevelAt, AreLevelsAt};

use crate::bands::Bands;
use crate::climbing::intervals::{rows_asked, rows_taken};
use crate::climbing::level::{ClimbingLevel, HighRows};
use crate::climbing::parts::GivenRows;
use crate::places::cut;
use jk_geom::resolution;
use jk_math::Fault;
use std::alloc::Global;
use std::mem;

/// A step of a level, from row `from` up to row `to` of the highest resolution: the level makes the
/// resolution above `below`.
#[derive(Clone, Copy)]
struct LevelStep {
    below: u8,
    from: u32,
    to: u32,
}

/// How far the coefficients of resolution `q + 1` are taken, where the highest resolution is made up
/// to row `e`.
fn asked(bands: &Bands, top: u8, q: u8, e: u32) -> u32
    requires area { IsArea bands.now.rect }
    requires levels { bands.now.levels ≤ 10 }
    requires top { top ≤ bands.now.levels }
    requires q { q < top }
    requires e { e < 2 ^ 31 }
    ensures value { result ≡ taken_of bands.now.rect bands.now.levels top e q }
    ensures small { result < 2 ^ 31 }
{
    let area = resolution(&bands.rect, bands.levels, q + 1);
    rows_taken(
        &area,
        rows_asked(&bands.rect, bands.levels, top, e, top - (q + 1)),
    )
}

/// The sub-bands of resolution `q + 1`.
fn high_of<'a>(bands: &'a Bands, top: u8, q: u8) -> HighRows<'a>
    requires levels { bands.now.levels ≤ 10 }
    requires top { top ≤ bands.now.levels }
    requires q { q < top }
    requires bands { AreBands bands.now.rect bands.now.levels top bands.now.bands }
    requires area { IsArea bands.now.rect }
    ensures are { (v t : ℕ) → (resolution_area bands.now.rect bands.now.levels (q + 1)).y0 ≤ v
        → t ≤ (resolution_area bands.now.rect bands.now.levels (q + 1)).y1
        → AreHigh (resolution_area bands.now.rect bands.now.levels (q + 1)) v t result }
    ensures show { (v t : ℕ) → ShowHigh (resolution_area bands.now.rect bands.now.levels (q + 1)) v t
        (λ o. coefficients_of bands.now.rect bands.now.levels bands.now.bands (3 * q + o)) result }
{
    let first = 3 * q as usize;
    let y0 = resolution(&bands.rect, bands.levels, q + 1).y0;
    HighRows {
        hl: GivenRows {
            from: (y0 + 1) / 2,
            values: bands.bands.plane(first + 1),
        },
        lh: GivenRows {
            from: y0 / 2,
            values: bands.bands.plane(first + 2),
        },
        hh: GivenRows {
            from: y0 / 2,
            values: bands.bands.plane(first + 3),
        },
    }
}

/// Makes a level step, from the rows of the resolution below that were made, `fresh`, to those of its
/// own in `next`.
fn step_level(
    level: &mut ClimbingLevel,
    bands: &Bands,
    top: u8,
    at: LevelStep,
    fresh: &[i32],
    next: &mut Vec<i32>,
) -> Result<(), Fault>
    requires area { IsArea bands.now.rect }
    requires levels { bands.now.levels ≤ 10 }
    requires top { top ≤ bands.now.levels }
    requires q { at.below < top }
    requires bands { AreBands bands.now.rect bands.now.levels top bands.now.bands }
    requires e { at.to < 2 ^ 31 }
    requires order { at.from ≤ at.to }
    requires at { IsLevelAt bands.now.rect bands.now.levels top at.from
        (coefficients_of bands.now.rect bands.now.levels bands.now.bands) at.below level.old }
    requires fresh { fresh.now ≡ rows_of_step bands.now.rect bands.now.levels top at.from at.to
        (coefficients_of bands.now.rect bands.now.levels bands.now.bands) at.below }
    ensures at { OnOk result (IsLevelAt bands.now.rect bands.now.levels top at.to
        (coefficients_of bands.now.rect bands.now.levels bands.now.bands) at.below level.new) }
    ensures rows { OnOk result (next.new.items ≡ rows_of_step bands.now.rect bands.now.levels top at.from at.to
        (coefficients_of bands.now.rect bands.now.levels bands.now.bands) (at.below + 1)) }
    ensures err { IfErr result (λ e. IsMemory e) }
{
    prove!(at.from <= at.to);
    let t = asked(bands, top, at.below, at.to);
    next.clear();
    level.step(&high_of(bands, top, at.below), fresh, t, next)
}

/// Puts the rows of the lowest resolution that a step takes into `fresh`.
fn put_lowest(bands: &Bands, top: u8, from: u32, e: u32, fresh: &mut Vec<i32>) -> Result<(), Fault>
    requires area { IsArea bands.now.rect }
    requires levels { bands.now.levels ≤ 10 }
    requires top { top ≤ bands.now.levels }
    requires some { 0 < top }
    requires bands { AreBands bands.now.rect bands.now.levels top bands.now.bands }
    requires e { e < 2 ^ 31 }
    requires order { from ≤ e }
    ensures rows { OnOk result (fresh.new.items ≡ rows_of_step bands.now.rect bands.now.levels top from e
        (coefficients_of bands.now.rect bands.now.levels bands.now.bands) 0) }
    ensures err { IfErr result (λ e. IsMemory e) }
{
    let lowest = resolution(&bands.rect, bands.levels, 0);
    let first = (asked(bands, top, 0, from) + 1) / 2;
    let last = (asked(bands, top, 0, e) + 1) / 2;
    let width = (lowest.x1 - lowest.x0) as usize;
    let at = (first - lowest.y0) as usize * width;
    let count = (last - first) as usize * width;
    fresh.clear();
    Ok(fresh.extend_from_slice(cut(bands.bands.plane(0), at, count))?)
}

/// Makes all levels step, from the rows of the lowest resolution to those of the highest.
fn step_all(
    levels: &mut Vec<ClimbingLevel>,
    bands: &Bands,
    top: u8,
    from: u32,
    e: u32,
    fresh: &mut Vec<i32>,
    next: &mut Vec<i32>,
) -> Result<(), Fault>
    requires area { IsArea bands.now.rect }
    requires levels { bands.now.levels ≤ 10 }
    requires top { top ≤ bands.now.levels }
    requires bands { AreBands bands.now.rect bands.now.levels top bands.now.bands }
    requires e { e < 2 ^ 31 }
    requires order { from ≤ e }
    requires at { AreLevelsAt bands.now.rect bands.now.levels top from
        (coefficients_of bands.now.rect bands.now.levels bands.now.bands) levels.old.items }
    requires fresh { fresh.old.items ≡ rows_of_step bands.now.rect bands.now.levels top from e
        (coefficients_of bands.now.rect bands.now.levels bands.now.bands) 0 }
    ensures at { OnOk result (AreLevelsAt bands.now.rect bands.now.levels top e
        (coefficients_of bands.now.rect bands.now.levels bands.now.bands) levels.new.items) }
    ensures rows { OnOk result (fresh.new.items ≡ rows_of_step bands.now.rect bands.now.levels top from e
        (coefficients_of bands.now.rect bands.now.levels bands.now.bands) top) }
    ensures err { IfErr result (λ e. IsMemory e) }
{
    for q in 0..top {
        let at = LevelStep {
            below: q,
            from,
            to: e,
        };
        step_level(&mut levels[q as usize], bands, top, at, fresh, next)?;
        mem::swap(fresh, next);
    }
    Ok(())
}

/// Levels before their first rows.
fn first_levels(alloc: Global, bands: &Bands, top: u8) -> Result<Vec<ClimbingLevel>, Fault>
    requires area { IsArea bands.now.rect }
    requires levels { bands.now.levels ≤ 10 }
    requires top { top ≤ bands.now.levels }
    requires bands { AreBands bands.now.rect bands.now.levels top bands.now.bands }
    ensures at { IfOk result (λ v. AreLevelsAt bands.now.rect bands.now.levels top
        (resolution_area bands.now.rect bands.now.levels top).y0
        (coefficients_of bands.now.rect bands.now.levels bands.now.bands) v.items) }
    ensures err { IfErr result (λ e. IsMemory e) }
{
    let mut levels = Vec::new(alloc);
    for q in 0..top {
        levels.push(ClimbingLevel::new(alloc, &resolution(&bands.rect, bands.levels, q + 1))?)?;
    }
    Ok(levels)
}

/// Resolution `top` of a tile-component, row by row on its rectangle, made in steps of `step` rows of
/// it, for which the levels below take the rows that they need and no more (IDWT, T.800 F.3.1).
pub fn synthesise_by_rows(
    alloc: Global,
    bands: &Bands,
    top: u8,
    step: u32,
) -> Result<Vec<i32>, Fault>
    requires area { IsArea bands.now.rect }
    requires levels { bands.now.levels ≤ 10 }
    requires top { top ≤ bands.now.levels }
    requires some { 0 < top }
    requires bands { AreBands bands.now.rect bands.now.levels top bands.now.bands }
    requires step { 1 ≤ step }
    ensures samples { IfOk result (λ v. v.items ≡ raster (resolution_area bands.now.rect bands.now.levels top)
        (resolution_of bands.now.rect bands.now.levels
        (coefficients_of bands.now.rect bands.now.levels bands.now.bands) top)) }
    ensures err { IfErr result (λ e. IsMemory e) }
{
    let area = resolution(&bands.rect, bands.levels, top);
    let mut levels = first_levels(alloc, bands, top)?;
    let (width, height) = ((area.x1 - area.x0) as usize, (area.y1 - area.y0) as usize);
    let mut out = Vec::with_capacity(alloc, height * width)?;
    let (mut fresh, mut next) = (Vec::new(alloc), Vec::new(alloc));
    let mut e = area.y0;
    while e < area.y1 {
        let to = e.saturating_add(step).min(area.y1);
        put_lowest(bands, top, e, to, &mut fresh)?;
        step_all(&mut levels, bands, top, e, to, &mut fresh, &mut next)?;
        out.extend_from_slice(&fresh)?;
        e = to;
    }
    Ok(out)
}
