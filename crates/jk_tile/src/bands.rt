//! The sub-bands of a resolution: which they are, their bit-planes, and their parts in precincts.

ghost use Rattle.std.specs.Prelude.{◌≡◌, ◌<◌, ◌≤◌, length};
ghost use Rattle.jk_params.specs.Coding.{HasPlanes};
ghost use Rattle.jk_walk.specs.TilePackets.{orientations, band_number, planes_of};
ghost use Rattle.jk_tile.specs.TileBlocks.{orientation_at, shape_of_area};

use jk_block::BlockShape;
use jk_geom::BlockGrid;
use jk_marks::Coding;
use jk_math::{Orientation, Rect, Style};

/// Which part of a sub-band it is: sub-band `band` of a resolution, in a precinct.
#[derive(Clone, Copy)]
pub(crate) struct BandPart {
    pub(crate) resolution: u8,
    pub(crate) precinct: u32,
    pub(crate) band: u8,
}

/// A code-block of a part of a sub-band: its number there in raster order, on the grid of the part.
#[derive(Clone, Copy)]
pub(crate) struct BandBlock<'a> {
    pub(crate) part: BandPart,
    pub(crate) grid: &'a BlockGrid,
    pub(crate) number: u32,
}

/// Sub-band `i` of a resolution, in the order of its packets.
pub(crate) fn orientation(r: u8, i: u8) -> Orientation
    requires { i < length (orientations r) }
    ensures { result ≡ orientation_at r i }
{
    if r == 0 {
        Orientation::LL
    } else {
        match i {
            0 => Orientation::HL,
            1 => Orientation::LH,
            _ => Orientation::HH,
        }
    }
}

/// How many sub-bands a resolution has.
pub(crate) fn band_count(r: u8) -> u8
    ensures { result ≡ length (orientations r) }
{
    if r == 0 { 1 } else { 3 }
}

/// The number of sub-band `i` of a resolution in the order of QCD.
pub(crate) fn band_number(r: u8, i: u8) -> usize
    ensures { result ≡ band_number r i }
{
    if r == 0 {
        0
    } else {
        3 * (r as usize - 1) + 1 + i as usize
    }
}

/// How many magnitude bit-planes sub-band `i` of a resolution has, Mb (T.800 E.1).
pub(crate) fn band_planes(coding: &Coding, r: u8, i: u8) -> u32
    requires planes { HasPlanes coding.now }
    requires r { r ≤ coding.now.levels }
    requires i { i < length (orientations r) }
    ensures value { result ≡ planes_of coding.now (band_number r i) }
    ensures few { result ≤ 23 }
{
    let number = band_number(r, i);
    coding.guard as u32 + coding.exponents.as_slice()[number] as u32 - 1
}

/// The shape of the code-block at a place of a sub-band, in a style.
pub(crate) fn shape_at(place: &Rect, orientation: Orientation, style: Style) -> BlockShape
    requires left { place.now.x0 ≤ place.now.x1 }
    requires upper { place.now.y0 ≤ place.now.y1 }
    ensures { result ≡ shape_of_area place.now orientation style }
{
    BlockShape {
        width: (place.x1 - place.x0) as usize,
        height: (place.y1 - place.y0) as usize,
        orientation,
        style,
    }
}
