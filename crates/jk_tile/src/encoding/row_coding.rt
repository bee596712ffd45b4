//! The code-blocks of a row of them: they are cut out of the coefficients of the row, precinct by
//! precinct, and coded and cut into layers, or listed for workers.

ghost use Rattle.std.specs.Prelude.{◌≡◌, ℕ, ◌+◌, ◌<◌, ◌≤◌, ◌++◌, [], All, None, Option, IsTrue, IfSome, IfOk, IfErr, OnOk, false, length};
ghost use Rattle.jk_math.specs.Memory.{IsMemory};
ghost use Rattle.jk_math.specs.Lists.{list_at};
ghost use Rattle.jk_math.specs.Raster.{plane_at};
ghost use Rattle.jk_block.specs.CodedBlocks.{shape_of};
ghost use Rattle.jk_geom.specs.Rectangles.{is_empty};
ghost use Rattle.jk_geom.specs.Precincts.{precinct_number, precincts_across};
ghost use Rattle.jk_tile.specs.encoding.Strips.{IsWholeRow, IsRowPart, IsOfPart, first_precinct_at, layered_between};
ghost use Rattle.jk_tile.specs.encoding.Strips.{layered_at, row_values};
ghost use Rattle.jk_tile.specs.encoding.Ahead.{IsCodable, layered_block, AreUncoded, IsCodedAhead};

use crate::bands::{orientation, shape_at};
use crate::encoding::ahead::{CodedBlocks, UncodedBlocks, code_block};
use crate::encoding::component::WrittenComponent;
use crate::encoding::cutting::{cut_block, is_cut};
use crate::encoding::tables::LayeredBlock;
use jk_block::Block;
use jk_geom::{
    BlockGrid, blocks, is_empty, precinct_count, precinct_part_size, precinct_size, resolution,
};
use jk_math::{Fault, Rect};
use jk_scan::BlockShape;
use std::alloc::Global;

/// A row of code-blocks of sub-band `band` of a resolution: its rectangle, which is as wide as the
/// sub-band, and the coefficients there, row by row.
#[derive(Clone, Copy)]
pub(crate) struct Strip<'a> {
    pub(crate) resolution: u8,
    pub(crate) band: u8,
    pub(crate) area: Rect,
    pub(crate) values: &'a [i32],
}

/// The code-blocks that a precinct has of a row of them: those of its grid from number `first` on, as
/// many as the grid has beside one another.
#[derive(Clone, Copy)]
pub(crate) struct RowPart {
    pub(crate) precinct: u32,
    pub(crate) grid: BlockGrid,
    pub(crate) first: u32,
}

/// The first of the precincts that have code-blocks of a row.
fn first_precinct(source: &WrittenComponent<'_>, strip: Strip<'_>) -> u32
    requires strip { IsWholeRow source.now strip }
    requires some { is_empty strip.area ≡ false }
    ensures value { result ≡ first_precinct_at source.now strip.entry.resolution strip.entry.area.y0 }
    ensures inside { result + precincts_across source.now.rect source.now.coding strip.entry.resolution
        ≤ precinct_number source.now.rect source.now.coding strip.entry.resolution }
{
    let r = strip.resolution;
    let rect = source.rect();
    let coding = source.coding();
    let area = resolution(&rect, coding.levels, r);
    let (across, _) = precinct_count(&rect, coding, r);
    let below = strip.area.y0 >> precinct_part_size(coding, r).1;
    let row = below - (area.y0 >> precinct_size(coding, r).1);
    row * across
}

/// The code-blocks that a precinct has of a row of them, if it has any.
fn row_part(source: &WrittenComponent<'_>, strip: Strip<'_>, precinct: u32) -> Option<RowPart>
    requires strip { IsWholeRow source.now strip }
    requires precinct { precinct < precinct_number source.now.rect source.now.coding strip.resolution }
    ensures some { IfSome result (λ p. IsRowPart source.now strip.entry p × (p.precinct ≡ precinct)) }
    ensures none { result ≡ None → layered_between source.now (row_values strip.entry)
        strip.entry.resolution precinct strip.entry.band strip.entry.area.y0 strip.entry.area.y1 ≡ [] }
{
    let rect = source.rect();
    let orientation = orientation(strip.resolution, strip.band);
    let grid = blocks(
        &rect,
        source.coding(),
        strip.resolution,
        precinct,
        orientation,
    );
    let row = strip.area.y0 >> grid.height;
    if row < grid.row || grid.row + grid.down <= row {
        return None;
    }
    let first = (row - grid.row) * grid.across;
    Some(RowPart {
        precinct,
        grid,
        first,
    })
}

/// Cuts out code-block `j` of those of a precinct.
fn cut_part(
    alloc: Global,
    source: &WrittenComponent<'_>,
    strip: Strip<'_>,
    part: &RowPart,
    j: u32,
) -> Result<Block, Fault>
    requires strip { IsWholeRow source.now strip }
    requires part { IsRowPart source.now strip part.now }
    requires j { IsOfPart source.now strip part.now.precinct j }
    ensures block { IfOk result IsCodable }
    ensures value { IfOk result (λ b. layered_block source.now.layers b
        ≡ layered_at source.now (row_values strip.entry) strip.entry.resolution part.now.precinct strip.entry.band j) }
    ensures memory { IfErr result IsMemory }
{
    let orientation = orientation(strip.resolution, strip.band);
    let place = part.grid.block(j);
    cut_block(
        alloc,
        &strip.area,
        strip.values,
        &place,
        orientation,
        source.coding().style,
    )
}

/// Whether a code-block has this shape.
fn has_shape(block: &Block, shape: BlockShape) -> bool
    ensures { IsTrue result → shape_of block.now ≡ shape }
{
    block.width == shape.width
        && block.height == shape.height
        && block.orientation == shape.orientation
        && block.style == shape.style
}

/// Whether a code-block is code-block `j` of those of a precinct.
fn is_part(
    source: &WrittenComponent<'_>,
    strip: Strip<'_>,
    part: &RowPart,
    j: u32,
    block: &Block,
) -> bool
    requires strip { IsWholeRow source.now strip }
    requires part { IsRowPart source.now strip part.now }
    requires j { IsOfPart source.now strip part.now.precinct j }
    ensures { IsTrue result → layered_block source.now.layers block.now
        ≡ layered_at source.now (row_values strip.entry) strip.entry.resolution part.now.precinct strip.entry.band j }
{
    let orientation = orientation(strip.resolution, strip.band);
    let place = part.grid.block(j);
    let shape = shape_at(&place, orientation, source.coding().style);
    has_shape(block, shape) && is_cut(&strip.area, strip.values, &place, &block.values)
}

/// Code-block `j` of those of a precinct cut into layers: what was coded ahead, where that is of the same
/// code-block, or what is coded now.
fn layered_part(
    alloc: Global,
    source: &WrittenComponent<'_>,
    strip: Strip<'_>,
    part: &RowPart,
    j: u32,
    ahead: &mut CodedBlocks,
) -> Result<LayeredBlock, Fault>
    requires strip { IsWholeRow source.now strip }
    requires part { IsRowPart source.now strip part.now }
    requires j { IsOfPart source.now strip part.now.precinct j }
    requires ahead { IsCodedAhead ahead.old }
    ensures value { IfOk result (λ k. k
        ≡ layered_at source.now (row_values strip.entry) strip.entry.resolution part.now.precinct strip.entry.band j) }
    ensures ahead { IsCodedAhead ahead.new }
    ensures memory { IfErr result IsMemory }
{
    if let Some(next) = ahead.next_in(source.layers()) {
        if is_part(source, strip, part, j, &next.block) {
            return Ok(next.coded);
        }
    }
    let block = cut_part(alloc, source, strip, part, j)?;
    code_block(alloc, &block, source.layers())
}

/// Codes the code-blocks that a precinct has of a row of them, and puts them behind the ones above.
fn code_part(
    alloc: Global,
    source: &WrittenComponent<'_>,
    strip: Strip<'_>,
    precinct: u32,
    ahead: &mut CodedBlocks,
    coded: &mut Vec<LayeredBlock>,
) -> Result<(), Fault>
    requires strip { IsWholeRow source.now strip }
    requires precinct { precinct < precinct_number source.now.rect source.now.coding strip.resolution }
    requires ahead { IsCodedAhead ahead.old }
    ensures coded { OnOk result (coded.new.items ≡ coded.old.items
        ++ layered_between source.now (row_values strip.entry)
        strip.entry.resolution precinct strip.entry.band strip.entry.area.y0 strip.entry.area.y1) }
    ensures ahead { OnOk result (IsCodedAhead ahead.new) }
    ensures memory { IfErr result IsMemory }
{
    let Some(part) = row_part(source, strip, precinct) else {
        return Ok(());
    };
    for k in 0..part.grid.across {
        let j = part.first + k;
        coded.push(layered_part(alloc, source, strip, &part, j, ahead)?)?;
    }
    Ok(())
}

/// Codes the code-blocks of a row of them, and puts those of each precinct behind the ones above.
/// What was coded ahead is taken where it is of the same code-blocks.
pub(crate) fn code_strip(
    alloc: Global,
    source: &WrittenComponent<'_>,
    strip: Strip<'_>,
    ahead: &mut CodedBlocks,
    coded: &mut Vec<Vec<LayeredBlock>>,
) -> Result<(), Fault>
    requires strip { IsWholeRow source.now strip }
    requires count { length coded.old.items ≡ precinct_number source.now.rect source.now.coding strip.resolution }
    requires ahead { IsCodedAhead ahead.old }
    ensures coded { OnOk result ((n : ℕ) → n < precinct_number source.now.rect source.now.coding strip.entry.resolution
        → list_at coded.new.items n ≡ list_at coded.old.items n
        ++ layered_between source.now (row_values strip.entry)
        strip.entry.resolution n strip.entry.band strip.entry.area.y0 strip.entry.area.y1) }
    ensures count { OnOk result (length coded.new.items ≡ length coded.old.items) }
    ensures ahead { OnOk result (IsCodedAhead ahead.new) }
    ensures memory { IfErr result IsMemory }
{
    if is_empty(&strip.area) {
        return Ok(());
    }
    let rect = source.rect();
    let (across, _) = precinct_count(&rect, source.coding(), strip.resolution);
    let first = first_precinct(source, strip);
    for n in first..first + across {
        code_part(alloc, source, strip, n, ahead, &mut coded[n as usize])?;
    }
    Ok(())
}

/// Lists the code-blocks that a precinct has of a row of them.
fn list_part(
    alloc: Global,
    source: &WrittenComponent<'_>,
    strip: Strip<'_>,
    precinct: u32,
    uncoded: &mut UncodedBlocks,
) -> Result<(), Fault>
    requires strip { IsWholeRow source.now strip }
    requires precinct { precinct < precinct_number source.now.rect source.now.coding strip.resolution }
    requires uncoded { AreUncoded uncoded.old }
    ensures uncoded { OnOk result (AreUncoded uncoded.new) }
    ensures memory { IfErr result IsMemory }
{
    let Some(part) = row_part(source, strip, precinct) else {
        return Ok(());
    };
    for k in 0..part.grid.across {
        let block = cut_part(alloc, source, strip, &part, part.first + k)?;
        uncoded.blocks.push(block)?;
    }
    Ok(())
}

/// Lists the code-blocks of a row of them in the order in which they are coded.
pub(crate) fn list_strip(
    alloc: Global,
    source: &WrittenComponent<'_>,
    strip: Strip<'_>,
    uncoded: &mut UncodedBlocks,
) -> Result<(), Fault>
    requires strip { IsWholeRow source.now strip }
    requires uncoded { AreUncoded uncoded.old }
    ensures uncoded { OnOk result (AreUncoded uncoded.new) }
    ensures memory { IfErr result IsMemory }
{
    if is_empty(&strip.area) {
        return Ok(());
    }
    let rect = source.rect();
    let (across, _) = precinct_count(&rect, source.coding(), strip.resolution);
    let first = first_precinct(source, strip);
    for n in first..first + across {
        list_part(alloc, source, strip, n, uncoded)?;
    }
    Ok(())
}
