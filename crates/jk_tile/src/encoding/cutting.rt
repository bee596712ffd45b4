//! Parts of rectangles, copied or compared row by row, and code-blocks that are cut out of them.

ghost use Rattle.std.specs.Prelude.{◌≡◌, ◌+◌, ◌<◌, ◌≤◌, IsTrue, IfOk, IfErr, ◌^◌, All, unsigned_abs, length, take, drop};
ghost use Rattle.jk_math.specs.Memory.{IsMemory};
ghost use Rattle.jk_math.specs.Raster.{rows_of, places_of, plane_at, raster};
ghost use Rattle.jk_geom.specs.Rectangles.{IsArea};
ghost use Rattle.jk_block.specs.CodedBlocks.{shape_of};
ghost use Rattle.jk_tile.specs.Filling.{IsPartOf, row_of};
ghost use Rattle.jk_tile.specs.TileBlocks.{shape_of_area, IsBlockShape};
ghost use Rattle.jk_tile.specs.encoding.Ahead.{IsCodable};

use crate::bands::shape_at;
use jk_block::Block;
use jk_math::{Fault, Orientation, Rect, Style};
use std::alloc::Global;

/// Some of the numbers of a list.
pub(crate) fn cut(numbers: &[i32], front: usize, count: usize) -> &[i32]
    requires { front + count ≤ length numbers.now }
    ensures { result.now ≡ take count (drop front numbers.now) }
{
    &numbers[front..front + count]
}

/// The values of a row of a part of a rectangle, from the list of the rectangle's.
fn row_of<'a>(area: &Rect, values: &'a [i32], part: &Rect, row: usize) -> &'a [i32]
    requires area { IsArea area.now }
    requires part { IsPartOf part.now area.now }
    requires whole { length values.now ≡ places_of area.now }
    requires row { row < rows_of part.now }
    ensures { result.now ≡ row_of area.now part.now row values.now }
{
    let width = (area.x1 - area.x0) as usize;
    let above = (part.y0 - area.y0) as usize + row;
    let from = above * width + (part.x0 - area.x0) as usize;
    cut(values, from, (part.x1 - part.x0) as usize)
}

/// The values of a part of a rectangle, row by row, from the list of the rectangle's.
pub(crate) fn cut_out(
    alloc: Global,
    area: &Rect,
    values: &[i32],
    part: &Rect,
) -> Result<Vec<i32>, Fault>
    requires area { IsArea area.now }
    requires part { IsPartOf part.now area.now }
    requires whole { length values.now ≡ places_of area.now }
    ensures value { IfOk result (λ v. v.items ≡ raster part.now (plane_at area.now values.now)) }
    ensures memory { IfErr result IsMemory }
{
    let width = (part.x1 - part.x0) as usize;
    let height = (part.y1 - part.y0) as usize;
    let mut list = Vec::with_capacity(alloc, height * width)?;
    for row in 0..height {
        list.extend_from_slice(row_of(area, values, part, row))?;
    }
    Ok(list)
}

/// Cuts the code-block at a place out of a rectangle of a sub-band, whose coefficients are these, row by
/// row.
pub(crate) fn cut_block(
    alloc: Global,
    area: &Rect,
    values: &[i32],
    place: &Rect,
    orientation: Orientation,
    style: Style,
) -> Result<Block, Fault>
    requires area { IsArea area.now }
    requires part { IsPartOf place.now area.now }
    requires whole { length values.now ≡ places_of area.now }
    requires fits { IsBlockShape (shape_of_area place.now orientation style) }
    requires small { All (λ v. unsigned_abs v < 2 ^ 23) values.now }
    ensures block { IfOk result IsCodable }
    ensures shape { IfOk result (λ b. shape_of b ≡ shape_of_area place.now orientation style) }
    ensures values { IfOk result (λ b. b.values.items ≡ raster place.now (plane_at area.now values.now)) }
    ensures memory { IfErr result IsMemory }
{
    let shape = shape_at(place, orientation, style);
    Ok(Block {
        width: shape.width,
        height: shape.height,
        orientation: shape.orientation,
        style: shape.style,
        values: cut_out(alloc, area, values, place)?,
    })
}

/// Whether two lists of numbers are the same.
fn are_same(one: &[i32], other: &[i32]) -> bool
    ensures { IsTrue result → one.now ≡ other.now }
{
    if one.len() != other.len() {
        return false;
    }
    let mut same = true;
    for index in 0..one.len() {
        same &= one[index] == other[index];
    }
    same
}

/// Whether a list is that of a part of a rectangle, as [`cut_out`] gives it.
pub(crate) fn is_cut(area: &Rect, values: &[i32], part: &Rect, list: &[i32]) -> bool
    requires area { IsArea area.now }
    requires part { IsPartOf part.now area.now }
    requires whole { length values.now ≡ places_of area.now }
    ensures { IsTrue result → list.now ≡ raster part.now (plane_at area.now values.now) }
{
    let width = (part.x1 - part.x0) as usize;
    let height = (part.y1 - part.y0) as usize;
    if list.len() != height * width {
        return false;
    }
    for row in 0..height {
        let own = cut(list, row * width, width);
        if !are_same(own, row_of(area, values, part, row)) {
            return false;
        }
    }
    true
}
