//! The sub-bands of a precinct of a tile.

ghost use Rattle.std.specs.Prelude.{◌≡◌, ◌<◌, ◌≤◌};
ghost use Rattle.jk_marks.specs.Coding.{IsCoding};
ghost use Rattle.jk_geom.specs.Rectangles.{IsArea};
ghost use Rattle.jk_geom.specs.Precincts.{precinct_number};
ghost use Rattle.jk_packet.specs.Shapes.{bands_of};
ghost use Rattle.jk_params.specs.Coding.{band_count, HasPlanes};
ghost use Rattle.jk_walk.specs.TilePackets.{planes_of, band_part, bands_at};

use jk_geom::blocks;
use jk_marks::Coding;
use jk_math::{Orientation, Rect};
use jk_packet::{BandShape, PrecinctShape};

/// How many magnitude bit-planes the sub-band of a number in QCD has (T.800 E.1, equation E-2).
#[tactic(auto, using(crate::proofs::ShapeLaws::exponent_fits))]
fn planes(coding: &Coding, band: u8) -> u8
    requires planes { HasPlanes coding.now }
    requires band { band < band_count coding.now.levels }
    ensures { result ≡ planes_of coding.now band }
{
    coding.guard + coding.exponents.as_slice()[band as usize] - 1
}

/// The part of a sub-band that lies in precinct `k` of resolution `r`; `band` is its number in QCD.
fn band_shape(
    rect: &Rect,
    coding: &Coding,
    r: u8,
    k: u32,
    orientation: Orientation,
    band: u8,
) -> BandShape
    requires area { IsArea rect.now }
    requires coding { IsCoding coding.now }
    requires planes { HasPlanes coding.now }
    requires r { r ≤ coding.now.levels }
    requires k { k < precinct_number rect.now coding.now r }
    requires band { band < band_count coding.now.levels }
    ensures { result ≡ band_part rect.now coding.now r k orientation band }
{
    let grid = blocks(rect, coding, r, k, orientation);
    BandShape {
        across: grid.across as u16,
        down: grid.down as u16,
        planes: planes(coding, band),
    }
}

/// Precinct `k` of resolution `r` of a tile-component, whose packets have these markers: its
/// sub-bands in the order of the packet (T.800 B.9), each with its code-blocks and its magnitude
/// bit-planes.
///
/// `sop` tells whether an SOP marker segment may stand before a packet, and `eph` whether an EPH
/// marker must stand behind its header.
#[tactic(auto, using(crate::proofs::ShapeLaws::bands_lowest, crate::proofs::ShapeLaws::bands_higher))]
pub fn precinct_shape(
    rect: &Rect,
    coding: &Coding,
    r: u8,
    k: u32,
    sop: bool,
    eph: bool,
) -> PrecinctShape
    requires area { IsArea rect.now }
    requires coding { IsCoding coding.now }
    requires planes { HasPlanes coding.now }
    requires r { r ≤ coding.now.levels }
    requires k { k < precinct_number rect.now coding.now r }
    ensures bands { bands_of result ≡ bands_at rect.now coding.now r k }
    ensures sop { result.sop ≡ sop }
    ensures eph { result.eph ≡ eph }
{
    if r == 0 {
        let band = band_shape(rect, coding, r, k, Orientation::LL, 0);
        return PrecinctShape::lowest(band, sop, eph);
    }
    let first = 3 * r - 2;
    let bands = [
        band_shape(rect, coding, r, k, Orientation::HL, first),
        band_shape(rect, coding, r, k, Orientation::LH, first + 1),
        band_shape(rect, coding, r, k, Orientation::HH, first + 2),
    ];
    PrecinctShape::higher(bands, sop, eph)
}
