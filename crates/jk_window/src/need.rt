//! Which precincts a window needs.

ghost use Rattle.std.specs.Prelude.{◌≡◌, ◌≤◌, ◌+◌, ◌-◌, ◌<◌, ◌^◌, ℕ, if◌then◌else◌};
ghost use Rattle.jk_math.specs.declared.rect.Rect.{Rect as Area};
ghost use Rattle.std.specs.List.{list_any};
ghost use Rattle.jk_marks.specs.Coding.{IsCoding};
ghost use Rattle.jk_geom.specs.Rectangles.{IsArea, touches};
ghost use Rattle.jk_geom.specs.Precincts.{precinct_number, precinct_area};
ghost use Rattle.jk_walk.specs.TilePackets.{orientations};
ghost use Rattle.jk_window.specs.Needs.{half_start, half_end, part_of_band, stretch, needed_part, needs};

use jk_geom::{precinct, touches};
use jk_marks::Coding;
use jk_math::{Orientation, Rect};

/// From which place on a half of a line is near the places from `start` on.
fn half_start(high: bool, start: u32) -> u32
    ensures value { result ≡ half_start (if high then 1 else 0) start }
    ensures small { result ≤ start }
{
    start.saturating_sub(if high { 2 } else { 1 }) / 2
}

/// Up to which place a half of a line is near the places up to `end`.
fn half_end(high: bool, end: u32) -> u32
    requires { end < 2 ^ 31 }
    ensures value { result ≡ half_end (if high then 1 else 0) end }
    ensures small { result < 2 ^ 31 }
{
    (end + if high { 2 } else { 3 }) / 2
}

/// The part of a sub-band of a resolution that a stretch of the resolution depends on.
fn part_of_band(stretch: &Rect, across: bool, down: bool) -> Rect
    requires right { stretch.now.x1 < 2 ^ 31 }
    requires lower { stretch.now.y1 < 2 ^ 31 }
    ensures x { (result.x0 ≡ half_start (if across then 1 else 0) stretch.now.x0)
        × (result.x1 ≡ half_end (if across then 1 else 0) stretch.now.x1) }
    ensures y { (result.y0 ≡ half_start (if down then 1 else 0) stretch.now.y0)
        × (result.y1 ≡ half_end (if down then 1 else 0) stretch.now.y1) }
    ensures right { result.x1 < 2 ^ 31 }
    ensures lower { result.y1 < 2 ^ 31 }
{
    Rect {
        x0: half_start(across, stretch.x0),
        y0: half_start(down, stretch.y0),
        x1: half_end(across, stretch.x1),
        y1: half_end(down, stretch.y1),
    }
}

/// The stretch of the resolution `below` levels below that a stretch depends on.
#[tactic(auto, using(crate::proofs::Stretches::stretch_none, crate::proofs::Stretches::stretch_more))]
pub(crate) fn stretch(top: &Rect, below: u8) -> Rect
    requires right { top.now.x1 < 2 ^ 31 }
    requires lower { top.now.y1 < 2 ^ 31 }
    ensures value { result ≡ stretch top.now below }
    ensures right { result.x1 < 2 ^ 31 }
    ensures lower { result.y1 < 2 ^ 31 }
{
    let mut area = *top;
    for _ in 0..below {
        area = part_of_band(&area, false, false);
    }
    area
}

/// What a stretch of a resolution depends on of a sub-band of it; LL is that of the lowest
/// resolution, which is the resolution itself.
pub(crate) fn needed_part(area: &Rect, orientation: Orientation) -> Rect
    requires right { area.now.x1 < 2 ^ 31 }
    requires lower { area.now.y1 < 2 ^ 31 }
    ensures { (u : Area) (n : ℕ) → area.now ≡ stretch u n → result ≡ needed_part u n orientation }
{
    match orientation {
        Orientation::LL => *area,
        Orientation::HL => part_of_band(area, true, false),
        Orientation::LH => part_of_band(area, false, true),
        Orientation::HH => part_of_band(area, true, true),
    }
}

/// Whether a stretch of a resolution depends on a place of a sub-band that belongs to precinct `k`.
fn touches_band(
    rect: &Rect,
    coding: &Coding,
    area: &Rect,
    r: u8,
    k: u32,
    orientation: Orientation,
) -> bool
    requires area { IsArea rect.now }
    requires coding { IsCoding coding.now }
    requires r { r ≤ coding.now.levels }
    requires k { k < precinct_number rect.now coding.now r }
    requires right { area.now.x1 < 2 ^ 31 }
    requires lower { area.now.y1 < 2 ^ 31 }
    ensures { (u : Area) (n : ℕ) → area.now ≡ stretch u n
        → result ≡ touches (precinct_area rect.now coding.now r k orientation) (needed_part u n orientation) }
{
    let part = needed_part(area, orientation);
    let precinct = precinct(rect, coding, r, k, orientation);
    touches(&precinct, &part)
}

/// The same of all sub-bands of the resolution.
fn touches_any(rect: &Rect, coding: &Coding, area: &Rect, r: u8, k: u32) -> bool
    requires area { IsArea rect.now }
    requires coding { IsCoding coding.now }
    requires r { r ≤ coding.now.levels }
    requires k { k < precinct_number rect.now coding.now r }
    requires right { area.now.x1 < 2 ^ 31 }
    requires lower { area.now.y1 < 2 ^ 31 }
    ensures { (u : Area) (n : ℕ) → area.now ≡ stretch u n
        → result ≡ list_any (λ o. touches (precinct_area rect.now coding.now r k o) (needed_part u n o))
        (orientations r) }
{
    if r == 0 {
        return touches_band(rect, coding, area, r, k, Orientation::LL);
    }
    touches_band(rect, coding, area, r, k, Orientation::HL)
        || touches_band(rect, coding, area, r, k, Orientation::LH)
        || touches_band(rect, coding, area, r, k, Orientation::HH)
}

/// Whether a stretch `top` of a tile-component, which is reduced by `reduce` levels, needs precinct
/// `k` of resolution `r`: a sub-band has a place that belongs to the precinct and on which the
/// stretch depends.
pub fn needs(rect: &Rect, coding: &Coding, top: &Rect, reduce: u8, r: u8, k: u32) -> bool
    requires area { IsArea rect.now }
    requires coding { IsCoding coding.now }
    requires reduce { reduce ≤ 10 }
    requires r { r ≤ coding.now.levels }
    requires k { k < precinct_number rect.now coding.now r }
    requires right { top.now.x1 < 2 ^ 31 }
    requires lower { top.now.y1 < 2 ^ 31 }
    ensures { result ≡ needs rect.now coding.now top.now reduce r k }
{
    if r + reduce > coding.levels {
        return false;
    }
    let area = stretch(top, coding.levels - (r + reduce));
    touches_any(rect, coding, &area, r, k)
}
