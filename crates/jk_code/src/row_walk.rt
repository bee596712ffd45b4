//! A walk down the rows of an image that is decoded, one row of tiles after another.

ghost use Rattle.std.specs.Prelude.{◌≡◌, ℕ, ◌+◌, ◌%◌, ◌^◌, ◌<◌, ◌≤◌, IfOk, IfErr};
ghost use Rattle.jk_math.specs.Memory.{IsMemory};
ghost use Rattle.jk_marks.specs.Siz.{tile_count, tiles_across};
ghost use Rattle.jk_code.specs.Rows.{area_of_tile, IsFineTile, IsRowWalk};

use crate::coded::CodedImage;
use crate::rows::{TileRow, step_end, tile_row, tiles_across};
use jk_geom::{reduced, tile};
use jk_math::{Fault, Rect};
use std::alloc::Global;

/// The end of the rows of a step from row `end` on, or row `end` where it is the last.
pub(crate) fn next_end(end: u32, last: u32, step: u32) -> u32
    requires end { end ≤ last }
    requires last { last < 2 ^ 31 }
    requires step { 1 ≤ step }
    ensures from { end ≤ result }
    ensures more { end < last → end < result }
    ensures to { result ≤ last }
    ensures odd { result < last → result % 2 ≡ 1 }
    ensures inside { result < last → result + 1 < last }
    // So many rows, or one or two more; fewer at the end alone.
    ensures most { result ≤ end + step + 2 }
    ensures least { result < last → end + step ≤ result }
{
    if end == last {
        return last;
    }
    step_end(end, last, step)
}

/// A walk down the rows of an image: the rows before row `y` were given, and those up to row `end` come
/// next, of a row of tiles whose first one has this rectangle. Behind the last row there are no tiles.
#[derive(Drop)]
pub(crate) struct RowWalk {
    pub(crate) row: TileRow,
    pub(crate) area: Rect,
    pub(crate) y: u32,
    pub(crate) end: u32,
    pub(crate) step: u32,
}

/// A walk before the row of tiles from tile `first` on, or behind the last one.
pub(crate) fn walk_from(
    alloc: Global,
    coded: &CodedImage<'_>,
    first: usize,
    step: u32,
) -> Result<RowWalk, Fault>
    requires step { 1 ≤ step }
    requires begins { first % tiles_across coded.now.headers.siz ≡ 0 }
    requires few { first ≤ tile_count coded.now.headers.siz }
    requires fine { (t : ℕ) → t < first → IsFineTile coded.now t }
    ensures walk { IfOk result (IsRowWalk coded.now) }
    ensures top { IfOk result (λ w. first < tile_count coded.now.headers.siz → w.y ≡ (area_of_tile coded.now first).y0) }
    ensures first { IfOk result (λ w. w.row.first ≡ first) }
    ensures memory { IfErr result (λ e. IsMemory e) }
{
    if first >= coded.headers.tile_count() {
        let tiles = Vec::new(alloc);
        let y = coded.area.y1;
        return Ok(RowWalk {
            row: TileRow { first, tiles },
            area: coded.area,
            y,
            end: y,
            step,
        });
    }
    let across = tiles_across(coded.headers.siz());
    let row = tile_row(alloc, coded, first, across)?;
    let area = reduced(&tile(coded.headers.siz(), first as u32), coded.reduce);
    Ok(RowWalk {
        row,
        area,
        y: area.y0,
        end: next_end(area.y0, area.y1, step),
        step,
    })
}
