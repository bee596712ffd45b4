//! Precincts.

ghost use Rattle.std.specs.Prelude.{◌≡◌, ◌+◌, ◌-◌, ◌*◌, ◌/◌, ◌<◌, ◌≤◌, ◌^◌};
ghost use Rattle.jk_marks.specs.Coding.{IsCoding, precinct_size};
ghost use Rattle.jk_geom.specs.Rectangles.{ceil_div, IsArea};
ghost use Rattle.jk_geom.specs.Precincts.{span, precincts_across, precincts_down, precinct_number, precinct_column};
ghost use Rattle.jk_geom.specs.Precincts.{precinct_row, precinct_area, part_width, part_height};

use crate::bands::{band, resolution};
use crate::rounding::{part_of, shift_up};
use jk_marks::Coding;
use jk_math::{Orientation, Rect};

/// The exponents of the size of resolution `r`'s precincts.
pub fn precinct_size(coding: &Coding, r: u8) -> (u8, u8)
    requires coding { IsCoding coding.now }
    requires r { r ≤ coding.now.levels }
    ensures value { result ≡ precinct_size coding.now r }
    ensures small { (result.0 < 16) × (result.1 < 16) }
    ensures whole { 0 < r → (0 < result.0) × (0 < result.1) }
{
    coding.precincts.as_slice()[r as usize]
}

/// The exponents of the size of a precinct's part of a sub-band of resolution `r`.
pub fn precinct_part_size(coding: &Coding, r: u8) -> (u8, u8)
    requires coding { IsCoding coding.now }
    requires r { r ≤ coding.now.levels }
    ensures width { result.0 ≡ part_width coding.now r }
    ensures height { result.1 ≡ part_height coding.now r }
    ensures small { (result.0 < 16) × (result.1 < 16) }
{
    let (width, height) = precinct_size(coding, r);
    if r > 0 {
        (width - 1, height - 1)
    } else {
        (width, height)
    }
}

/// How many cells of a grid of `2^exponent` meet the places from `start` up to `end`.
fn cells(start: u32, end: u32, exponent: u8) -> u32
    requires order { start ≤ end }
    requires end { end < 2 ^ 31 }
    requires exponent { exponent ≤ 15 }
    ensures { result ≡ span start end exponent }
{
    if start == end {
        0
    } else {
        shift_up(end, exponent) - (start >> exponent)
    }
}

/// How many precincts resolution `r` of a tile-component has side by side, and how many one above
/// the other (T.800 B.6, equation B-16).
#[tactic(auto, unfolding(crate::specs::Precincts::precincts_across, crate::specs::Precincts::precincts_down))]
pub fn precinct_count(rect: &Rect, coding: &Coding, r: u8) -> (u32, u32)
    requires area { IsArea rect.now }
    requires coding { IsCoding coding.now }
    requires r { r ≤ coding.now.levels }
    ensures across { result.0 ≡ precincts_across rect.now coding.now r }
    ensures down { result.1 ≡ precincts_down rect.now coding.now r }
{
    let area = resolution(rect, coding.levels, r);
    let (width, height) = precinct_size(coding, r);
    (
        cells(area.x0, area.x1, width),
        cells(area.y0, area.y1, height),
    )
}

/// Cell `n` of those cells of a grid of `2^exponent` that meet the places from `start` up to `end`.
#[tactic(auto, using(crate::proofs::Ceilings::cell_small))]
fn nth_cell(start: u32, end: u32, exponent: u8, n: u32) -> u32
    requires end { end < 2 ^ 31 }
    requires exponent { exponent ≤ 15 }
    requires n { n < ceil_div end (2 ^ exponent) - start / 2 ^ exponent }
    ensures value { result ≡ start / 2 ^ exponent + n }
    ensures small { (result + 1) * 2 ^ exponent < 2 ^ 32 }
{
    (start >> exponent) + n
}

/// The column and the row of precinct `k` on the grid of the precincts.
#[tactic(auto, unfolding(crate::specs::Precincts::precincts_across, crate::specs::Precincts::precincts_down, crate::specs::Precincts::precinct_column, crate::specs::Precincts::precinct_row))]
pub(crate) fn place(rect: &Rect, coding: &Coding, r: u8, k: u32) -> (u32, u32)
    requires area { IsArea rect.now }
    requires coding { IsCoding coding.now }
    requires r { r ≤ coding.now.levels }
    requires k { k < precinct_number rect.now coding.now r }
    ensures column { result.0 ≡ precinct_column rect.now coding.now r k }
    ensures row { result.1 ≡ precinct_row rect.now coding.now r k }
    ensures right { (result.0 + 1) * 2 ^ (precinct_size coding.now r).0 < 2 ^ 32 }
    ensures lower { (result.1 + 1) * 2 ^ (precinct_size coding.now r).1 < 2 ^ 32 }
{
    let area = resolution(rect, coding.levels, r);
    let (width, height) = precinct_size(coding, r);
    let across = cells(area.x0, area.x1, width);
    (
        nth_cell(area.x0, area.x1, width, k % across),
        nth_cell(area.y0, area.y1, height, k / across),
    )
}

/// The part of a sub-band of resolution `r` that belongs to precinct `k`; it may be empty (T.800
/// B.6).
#[tactic(auto, using(crate::proofs::Ceilings::part_fits), unfolding(crate::specs::Precincts::precinct_area))]
pub fn precinct(rect: &Rect, coding: &Coding, r: u8, k: u32, orientation: Orientation) -> Rect
    requires area { IsArea rect.now }
    requires coding { IsCoding coding.now }
    requires r { r ≤ coding.now.levels }
    requires k { k < precinct_number rect.now coding.now r }
    ensures value { result ≡ precinct_area rect.now coding.now r k orientation }
    ensures right { result.x1 < 2 ^ 31 }
    ensures lower { result.y1 < 2 ^ 31 }
{
    let (column, row) = place(rect, coding, r, k);
    let (width, height) = precinct_part_size(coding, r);
    let area = band(rect, coding.levels, r, orientation);
    part_of(&area, column, row, width, height)
}
