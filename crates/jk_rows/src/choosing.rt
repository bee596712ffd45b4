//! How a tile is made: row by row, or at once.

use jk_geom::{reduced, tile};
use jk_marks::{Coding, Siz};
use jk_tile::CodedTile;

/// The least height of tiles that are made row by row as fast as at once: what a tile begins with is
/// made for few rows of a lower one.
const TILE_ROWS: u32 = 128;

/// The same at a reduction, where there is less to decode of each tile.
const REDUCED_TILE_ROWS: u32 = 256;

/// A tile of so many rows or fewer is made at once, however few tiles there are: it takes half the
/// memory, since each level of a tile that is made row by row holds four rows.
const FEW_ROWS: u32 = 64;

/// Whether tiles are lower than the image, and so low at a reduction that they had better be made at
/// once.
fn are_low(siz: &Siz, reduce: u8) -> bool {
    let least = if reduce == 0 {
        TILE_ROWS
    } else {
        REDUCED_TILE_ROWS
    };
    siz.tile_height < siz.y1 && siz.tile_height >> reduce.min(31) < least
}

/// Whether few of the parts of packets are looked through where a component is made row by row: for
/// each row of code-blocks all that the packets of a precinct have of a sub-band, which is for each
/// code-block as many parts as there are rows of code-blocks and layers. Few are half as many as a
/// code-block has coefficients.
fn has_few_parts(coding: &Coding, rows: u32, layers: u16) -> bool {
    let (xcb, ycb) = (coding.xcb.min(10), coding.ycb.min(10));
    let block_rows = (rows >> ycb >> 1) as u64;
    block_rows.saturating_mul(layers as u64) <= 1 << (xcb + ycb) >> 1
}

/// Whether that is so of all components.
fn have_few_parts(codings: &[Coding], rows: u32, layers: u16) -> bool {
    let mut have_few = true;
    for coding in codings {
        have_few &= has_few_parts(coding, rows, layers);
    }
    have_few
}

/// Whether a tile is made at once, and not row by row: where it's low, or has the smallest code-blocks.
pub(crate) fn is_made_at_once(coded: &CodedTile<'_>) -> bool {
    let headers = coded.headers;
    let siz = headers.siz();
    let rect = tile(siz, coded.number as u32);
    let area = reduced(&rect, coded.reduce);
    let layers = headers.cod(coded.number).layers;
    let codings = headers.codings(coded.number).as_slice();
    area.y1 - area.y0 <= FEW_ROWS
        || are_low(siz, coded.reduce)
        || !have_few_parts(codings, rect.y1 - rect.y0, layers)
}
