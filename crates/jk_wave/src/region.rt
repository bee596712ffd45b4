//! A region of a resolution, and which parts of the sub-bands it depends on.

ghost use Rattle.std.specs.Prelude.{◌≡◌, ◌+◌, ◌-◌, ◌*◌, ◌<◌, ◌≤◌, ◌^◌, if◌then◌else◌};
ghost use Rattle.jk_geom.specs.Rectangles.{IsArea, resolution_area};
ghost use Rattle.jk_lift.specs.Pieces.{near_area};
ghost use Rattle.jk_wave.specs.Bands.{numbered_area};
ghost use Rattle.jk_wave.specs.Levels.{half_bound, half_area};
ghost use Rattle.jk_wave.specs.Regions.{IsPartOf, IsRegion, held, around, part_area};

use jk_geom::resolution;
use jk_math::Rect;

/// The part `area` of resolution `top` of a tile-component on the rectangle `rect` with so many
/// decomposition levels.
#[derive(Clone, Copy, Debug)]
pub struct Region {
    pub rect: Rect,
    pub levels: u8,
    pub top: u8,
    pub area: Rect,
}

/// What a rectangle has around a part of it: two places more on each side.
fn near_area(area: &Rect, part: &Rect) -> Rect
    requires area { IsArea area.now }
    requires inside { IsPartOf part.now area.now }
    ensures value { result ≡ near_area area.now part.now }
    ensures inside { IsPartOf result area.now }
{
    Rect {
        x0: area.x0.max(part.x0.saturating_sub(2)),
        y0: area.y0.max(part.y0.saturating_sub(2)),
        x1: area.x1.min(part.x1 + 2),
        y1: area.y1.min(part.y1 + 2),
    }
}

/// Half of a bound, so that the places of this parity are counted.
fn half_bound(bound: u32, odd: bool) -> u32
    requires { bound < 2 ^ 31 }
    ensures { result ≡ half_bound bound (if odd then 1 else 0) }
{
    (bound + !odd as u32) / 2
}

/// The part of a rectangle whose places are odd across, or down, both halved.
pub(crate) fn half_area(area: &Rect, across: bool, down: bool) -> Rect
    requires { IsArea area.now }
    ensures value { result ≡ half_area area.now ((if across then 1 else 0) + (if down then 2 else 0)) }
    ensures area { IsArea result }
{
    Rect {
        x0: half_bound(area.x0, across),
        y0: half_bound(area.y0, down),
        x1: half_bound(area.x1, across),
        y1: half_bound(area.y1, down),
    }
}

/// What is looked at `n` resolutions below the highest.
pub(crate) fn held(region: &Region, n: u8) -> Rect
    requires region { IsRegion region.now }
    requires n { n ≤ region.now.top }
    ensures value { result ≡ held region.now n }
    ensures inside { IsPartOf result (resolution_area region.now.rect region.now.levels (region.now.top - n)) }
{
    let mut area = region.area;
    for below in 0..n {
        let whole = resolution(&region.rect, region.levels, region.top - below);
        area = half_area(&near_area(&whole, &area), false, false);
    }
    area
}

/// What is near that.
pub(crate) fn around(region: &Region, n: u8) -> Rect
    requires region { IsRegion region.now }
    requires n { n ≤ region.now.top }
    ensures value { result ≡ around region.now n }
    ensures inside { IsPartOf result (resolution_area region.now.rect region.now.levels (region.now.top - n)) }
    ensures area { IsArea result }
{
    let whole = resolution(&region.rect, region.levels, region.top - n);
    near_area(&whole, &held(region, n))
}

/// The part of sub-band `b`, in the order of QCD, that a region depends on.
pub fn part_area(region: &Region, b: usize) -> Rect
    requires region { IsRegion region.now }
    requires b { b ≤ 3 * region.now.top }
    ensures value { result ≡ part_area region.now b }
    ensures inside { IsPartOf result (numbered_area region.now.rect region.now.levels b) }
    ensures area { IsArea result }
{
    if b == 0 {
        return held(region, region.top);
    }
    let (level, orientation) = ((b - 1) / 3, (b - 1) % 3 + 1);
    let near = around(region, region.top - (level + 1) as u8);
    half_area(&near, orientation % 2 == 1, orientation / 2 == 1)
}
