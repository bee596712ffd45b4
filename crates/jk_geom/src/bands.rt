//! Resolutions and sub-bands.

ghost use Rattle.std.specs.Prelude.{◌≡◌, ◌<◌, ◌≤◌, ◌^◌, if◌then◌else◌};
ghost use Rattle.jk_geom.specs.Rectangles.{IsArea, across_offset, down_offset, band_bound, resolution_area, band_area};
ghost use Rattle.jk_geom.specs.Rectangles.{level_area};

use crate::rounding::shift_up;
use jk_math::{Orientation, Rect};

/// Resolution `r` of a tile-component with `levels` decomposition levels (T.800 B.5, equation
/// B-14).
#[tactic(auto, unfolding(crate::specs::Rectangles::resolution_area))]
pub fn resolution(rect: &Rect, levels: u8, r: u8) -> Rect
    requires area { IsArea rect.now }
    requires levels { levels ≤ 10 }
    requires r { r ≤ levels }
    ensures value { result ≡ resolution_area rect.now levels r }
    ensures area { IsArea result }
{
    let down = levels - r;
    Rect {
        x0: shift_up(rect.x0, down),
        y0: shift_up(rect.y0, down),
        x1: shift_up(rect.x1, down),
        y1: shift_up(rect.y1, down),
    }
}

/// A bound of a sub-band of level `nb`, with offset 1 where `high`.
fn bound(value: u32, nb: u8, high: bool) -> u32
    requires value { value < 2 ^ 31 }
    requires some { 0 < nb }
    requires few { nb ≤ 11 }
    ensures { result ≡ band_bound value nb (if high then 1 else 0) }
{
    let half = 1 << (nb - 1);
    let more = if high { half } else { 2 * half };
    (value + more - 1) >> nb
}

/// A sub-band of level `nb` that isn't LL.
fn level_band(rect: &Rect, nb: u8, across: bool, down: bool) -> Rect
    requires area { IsArea rect.now }
    requires some { 0 < nb }
    requires few { nb ≤ 11 }
    ensures x { (result.x0 ≡ band_bound rect.now.x0 nb (if across then 1 else 0))
        × (result.x1 ≡ band_bound rect.now.x1 nb (if across then 1 else 0)) }
    ensures y { (result.y0 ≡ band_bound rect.now.y0 nb (if down then 1 else 0))
        × (result.y1 ≡ band_bound rect.now.y1 nb (if down then 1 else 0)) }
    ensures area { IsArea result }
{
    Rect {
        x0: bound(rect.x0, nb, across),
        y0: bound(rect.y0, nb, down),
        x1: bound(rect.x1, nb, across),
        y1: bound(rect.y1, nb, down),
    }
}

/// A sub-band of resolution `r` (T.800 B.5, equation B-15): LL, which is resolution 0, or HL, LH or
/// HH of a resolution above it.
#[tactic(auto, unfolding(crate::specs::Rectangles::band_area))]
pub fn band(rect: &Rect, levels: u8, r: u8, orientation: Orientation) -> Rect
    requires area { IsArea rect.now }
    requires levels { levels ≤ 10 }
    requires r { r ≤ levels }
    ensures value { result ≡ band_area rect.now levels r orientation }
    ensures area { IsArea result }
{
    let nb = levels - r + 1;
    match orientation {
        Orientation::LL => resolution(rect, levels, 0),
        Orientation::HL => level_band(rect, nb, true, false),
        Orientation::LH => level_band(rect, nb, false, true),
        Orientation::HH => level_band(rect, nb, true, true),
    }
}
