//! A sub-band in strips: each is a list of the coefficients of a row of its code-blocks, across all
//! precincts. It is filled from left to right, and may be filled again for the next row.

ghost use Rattle.std.specs.Prelude.{◌≡◌, false, ℕ, ◌+◌, ◌-◌, ◌*◌, ◌/◌, ◌^◌, ◌<◌, ◌≤◌, ◌⊎◌, length, map, All, Ok, IfOk, IfErr, IfSome, OnOk};
ghost use Rattle.jk_math.specs.Answer.{Answers};
ghost use Rattle.jk_math.specs.Memory.{IsMemory};
ghost use Rattle.jk_math.specs.Raster.{places_of};
ghost use Rattle.jk_marks.specs.Coding.{IsCoding};
ghost use Rattle.jk_geom.specs.Rectangles.{IsArea, is_empty};
ghost use Rattle.jk_geom.specs.Precincts.{precinct_number, precincts_across};
ghost use Rattle.jk_geom.specs.Blocks.{IsGrid, block_area};
ghost use Rattle.jk_tile.specs.Filling.{IsPartOf};
ghost use Rattle.jk_tile.specs.TileBlocks.{grid_at, block_bodies};
ghost use Rattle.jk_tile.specs.decoding.TileReading.{tested, block_values};
ghost use Rattle.jk_tile.specs.decoding.Gathered.{AreNumbers, AreByPrecinct, body_of, IsInside};
ghost use Rattle.jk_tile.specs.decoding.Source.{IsSource, source_bodies, IsBandPart};
ghost use Rattle.jk_tile.specs.decoding.Strips.{block_exponent, strip_area, first_precinct_of, IsBlockRow};
ghost use Rattle.jk_tile.specs.decoding.Strips.{KeepsPlaces, ShowsBlockIn, ShowsPartIn, IsStrip, IsPartFine};
ghost use Rattle.jk_tile.specs.decoding.Strips.{IsRowFine, HasFault};

use crate::bands::{BandBlock, BandPart, band_planes, orientation, shape_at};
use crate::decoding::block::read_block;
use crate::decoding::bodies::{BodyPlace, SomeBlocks, bodies_by_block};
use crate::decoding::chains::{PacketChains, follow};
use crate::decoding::component::CodedComponent;
use crate::decoding::filling::put;
use jk_block::Block;
use jk_geom::{
    band, blocks, is_empty, precinct_count, precinct_part_size, precinct_size, resolution,
};
use jk_marks::Coding;
use jk_math::{Fault, Rect};
use std::alloc::Global;

/// A row of the code-blocks of a sub-band, across all precincts: the resolution, which of its
/// sub-bands it is, and the number of the row, where the rows are counted from row 0 of the sub-band
/// on, as code-blocks are (T.800 B.7).
#[derive(Clone, Copy, Debug, PartialEq, Eq)]
pub struct BlockRow {
    pub resolution: u8,
    pub band: u8,
    pub row: u32,
}

/// What a precinct has of a row of code-blocks: the precinct, the numbers of its packets, and the
/// rectangle of the strip.
#[derive(Clone, Copy)]
pub(crate) struct RowPart<'a> {
    pub(crate) precinct: u32,
    pub(crate) numbers: &'a [usize],
    pub(crate) area: &'a Rect,
}

/// The exponent of the height of the code-blocks of resolution `r` (T.800 B.7, equation B-18).
#[tactic(auto, unfolding(crate::specs::decoding::Strips::block_exponent))]
pub fn block_exponent(coding: &Coding, r: u8) -> u8
    requires coding { IsCoding coding.now }
    requires r { r ≤ coding.now.levels }
    ensures value { result ≡ block_exponent coding.now r }
    ensures few { result ≤ 10 }
{
    coding.ycb.min(precinct_part_size(coding, r).1)
}

/// The rectangle of the strip of a row of code-blocks; it has no row where that lies outside the
/// sub-band.
#[tactic(auto, unfolding(crate::specs::decoding::Strips::strip_area))]
pub fn strip_area(source: &CodedComponent<'_>, at: BlockRow) -> Rect
    requires row { IsBlockRow source.now at }
    ensures value { result ≡ strip_area source.now at }
    ensures area { IsArea result }
{
    let coding = source.coding();
    let area = band(
        &source.rect(),
        coding.levels,
        at.resolution,
        orientation(at.resolution, at.band),
    );
    let exponent = block_exponent(coding, at.resolution);
    let first = area.y0.max(at.row << exponent);
    Rect {
        x0: area.x0,
        y0: first,
        x1: area.x1,
        y1: first.max(area.y1.min((at.row + 1) << exponent)),
    }
}

/// The first of the precincts that have code-blocks of a row.
pub(crate) fn first_precinct(source: &CodedComponent<'_>, at: BlockRow) -> u32
    requires row { IsBlockRow source.now at }
    requires some { is_empty (strip_area source.now at) ≡ false }
    ensures value { result ≡ first_precinct_of source.now at }
    ensures inside { result + precincts_across source.now.region.rect source.now.coding at.resolution
        ≤ precinct_number source.now.region.rect source.now.coding at.resolution }
{
    let r = at.resolution;
    let rect = source.rect();
    let coding = source.coding();
    let area = resolution(&rect, coding.levels, r);
    let (across, _) = precinct_count(&rect, coding, r);
    let above = precinct_part_size(coding, r).1 - block_exponent(coding, r);
    let row = (at.row >> above) - (area.y0 >> precinct_size(coding, r).1);
    row * across
}

/// The coefficients of a code-block of a part of a sub-band, from its bodies.
pub(crate) fn read_band_block(
    alloc: Global,
    source: &CodedComponent<'_>,
    block: BandBlock<'_>,
    bodies: &[BodyPlace],
    segment: &mut Vec<u8>,
) -> Result<Block, Fault>
    requires part { IsBandPart source.now block.part }
    requires grid { block.grid.now ≡ grid_at source.now.region.rect source.now.coding
        block.part.resolution block.part.precinct block.part.band }
    requires sound { IsGrid block.grid.now }
    requires number { block.number < block.grid.now.across * block.grid.now.down }
    requires inside { All (IsInside (length source.now.bytes)) bodies.now }
    requires bodies { map (body_of source.now.bytes) bodies.now
        ≡ block_bodies block.part.band block.number
        (source_bodies source.now block.part.resolution block.part.precinct) }
    ensures exact { Answers (λ b. b.values.items) result
        (block_values source.now.region.rect source.now.coding block.entry.part.resolution
        block.entry.part.precinct block.entry.part.band block.entry.number
        (source_bodies source.now block.entry.part.resolution block.entry.part.precinct)) }
    ensures long { IfOk result (λ b. length b.values.items ≡ places_of (block_area block.entry.grid.now block.entry.number)) }
{
    let part = block.part;
    let coding = source.coding();
    let place = block.grid.block(block.number);
    let orientation = orientation(part.resolution, part.band);
    let planes = band_planes(coding, part.resolution, part.band);
    let shape = shape_at(&place, orientation, coding.style);
    read_block(alloc, source.bytes(), bodies, shape, planes, segment)
}

/// The coefficients of a code-block of a part of a sub-band that was decoded before from its bodies.
fn decoded_before<'a>(
    source: &CodedComponent<'a>,
    block: BandBlock<'_>,
    bodies: &[BodyPlace],
) -> Option<&'a [i32]>
    requires part { IsBandPart source.now block.part }
    requires grid { block.grid.now ≡ grid_at source.now.region.rect source.now.coding
        block.part.resolution block.part.precinct block.part.band }
    requires sound { IsGrid block.grid.now }
    requires number { block.number < block.grid.now.across * block.grid.now.down }
    requires bodies { map (body_of source.now.bytes) bodies.now
        ≡ block_bodies block.part.band block.number
        (source_bodies source.now block.part.resolution block.part.precinct) }
    ensures exact { IfSome result (λ v. block_values source.now.region.rect source.now.coding
        block.entry.part.resolution block.entry.part.precinct block.entry.part.band block.entry.number
        (source_bodies source.now block.entry.part.resolution block.entry.part.precinct) ≡ Ok v.now) }
    ensures long { IfSome result (λ v. length v.now ≡ places_of (block_area block.entry.grid.now block.entry.number)) }
{
    let part = block.part;
    let coding = source.coding();
    let place = block.grid.block(block.number);
    let orientation = orientation(part.resolution, part.band);
    let planes = band_planes(coding, part.resolution, part.band);
    let shape = shape_at(&place, orientation, coding.style);
    source.decoded().find(bodies, shape, planes)
}

/// Puts a code-block of a row into the strip. One that was decoded before isn't decoded again.
fn read_into(
    alloc: Global,
    source: &CodedComponent<'_>,
    block: BandBlock<'_>,
    bodies: &[BodyPlace],
    area: &Rect,
    segment: &mut Vec<u8>,
    strip: &mut [i32],
) -> Result<(), Fault>
    requires source { IsSource source.now }
    requires part { IsBandPart source.now block.part }
    requires grid { block.grid.now ≡ grid_at source.now.region.rect source.now.coding
        block.part.resolution block.part.precinct block.part.band }
    requires sound { IsGrid block.grid.now }
    requires number { block.number < block.grid.now.across * block.grid.now.down }
    requires inside { All (IsInside (length source.now.bytes)) bodies.now }
    requires bodies { map (body_of source.now.bytes) bodies.now
        ≡ block_bodies block.part.band block.number
        (source_bodies source.now block.part.resolution block.part.precinct) }
    requires area { IsArea area.now }
    requires place { IsPartOf (block_area block.grid.now block.number) area.now }
    requires long { length strip.old ≡ places_of area.now }
    ensures exact { Answers (λ u. u) result
        (tested (block_values source.now.region.rect source.now.coding block.entry.part.resolution
        block.entry.part.precinct block.entry.part.band block.entry.number
        (source_bodies source.now block.entry.part.resolution block.entry.part.precinct))) }
    ensures long { OnOk result (length strip.new ≡ length strip.old) }
    ensures shows { OnOk result (ShowsBlockIn source.now block.entry.part.resolution block.entry.part.precinct
        block.entry.part.band block.entry.number area.now strip.new) }
    ensures keeps { OnOk result (KeepsPlaces source.now block.entry.part.resolution block.entry.part.band
        area.now strip.old strip.new) }
{
    let place = block.grid.block(block.number);
    if let Some(values) = decoded_before(source, block, bodies) {
        put(area, strip, &place, values);
        return Ok(());
    }
    let read = read_band_block(alloc, source, block, bodies, segment)?;
    put(area, strip, &place, &read.values);
    Ok(())
}

/// Reads the code-blocks that a precinct has of a row, and puts them into the strip.
fn read_row_part(
    alloc: Global,
    source: &CodedComponent<'_>,
    at: BlockRow,
    part: RowPart<'_>,
    segment: &mut Vec<u8>,
    strip: &mut [i32],
) -> Result<(), Fault>
    requires row { IsBlockRow source.now at }
    requires precinct { part.precinct < precinct_number source.now.region.rect source.now.coding at.resolution }
    requires numbers { AreNumbers source.now.packets source.now.packets source.now.component
        at.resolution part.precinct part.numbers.now }
    requires area { part.area.now ≡ strip_area source.now at }
    requires bounds { IsArea part.area.now }
    requires long { length strip.old ≡ places_of part.area.now }
    ensures fine { OnOk result (IsPartFine source.now at part.entry.precinct) }
    ensures long { OnOk result (length strip.new ≡ length strip.old) }
    ensures shows { OnOk result (ShowsPartIn source.now at part.entry.area.now part.entry.precinct strip.new) }
    ensures keeps { OnOk result (KeepsPlaces source.now at.resolution at.band
        part.entry.area.now strip.old strip.new) }
    ensures cause { IfErr result (λ e. IsMemory e ⊎ HasFault source.now e) }
{
    let rect = source.rect();
    let orientation = orientation(at.resolution, at.band);
    let grid = blocks(
        &rect,
        source.coding(),
        at.resolution,
        part.precinct,
        orientation,
    );
    if at.row < grid.row || grid.row + grid.down <= at.row {
        return Ok(());
    }
    let first = (at.row - grid.row) * grid.across;
    let some = SomeBlocks {
        band: at.band,
        first,
        count: grid.across,
    };
    let lists = bodies_by_block(alloc, source.packets(), part.numbers, some)?;
    for k in 0..grid.across {
        let block = BandBlock {
            part: BandPart {
                resolution: at.resolution,
                precinct: part.precinct,
                band: at.band,
            },
            grid: &grid,
            number: first + k,
        };
        let bodies = &lists[k as usize];
        read_into(alloc, source, block, bodies, part.area, segment, strip)?;
    }
    Ok(())
}

/// Makes a list as long as a rectangle has places, in the memory that it has.
fn lengthen(strip: &mut Vec<i32>, area: &Rect) -> Result<(), Fault>
    requires { IsArea area.now }
    ensures long { OnOk result (length strip.new.items ≡ places_of area.now) }
    ensures memory { IfErr result IsMemory }
{
    let width = (area.x1 - area.x0) as usize;
    let height = (area.y1 - area.y0) as usize;
    Ok(strip.resize(height * width, 0)?)
}

/// Reads the code-blocks of a row of a sub-band into its strip: the coefficients of their rows over
/// the whole width of the sub-band, row by row on [`strip_area`]. `chains` tell the packets of the
/// resolution. What the list had is dropped, and its memory used again.
///
/// The fault of a code-block of the row, which need not be the first one of the tile, or Memory.
pub fn read_strip(
    alloc: Global,
    source: &CodedComponent<'_>,
    chains: &PacketChains,
    at: BlockRow,
    strip: &mut Vec<i32>,
) -> Result<(), Fault>
    requires row { IsBlockRow source.now at }
    requires chains { AreByPrecinct source.now.packets 0 source.now.component at.resolution
        (precinct_number source.now.region.rect source.now.coding at.resolution) chains.now }
    ensures strip { OnOk result (IsStrip source.now at strip.new.items) }
    ensures fine { OnOk result (IsRowFine source.now at) }
    ensures cause { IfErr result (λ e. IsMemory e ⊎ HasFault source.now e) }
{
    let rect = source.rect();
    let area = strip_area(source, at);
    lengthen(strip, &area)?;
    if is_empty(&area) {
        return Ok(());
    }
    let (across, _) = precinct_count(&rect, source.coding(), at.resolution);
    let first = first_precinct(source, at);
    let (mut numbers, mut segment) = (Vec::new(alloc), Vec::new(alloc));
    for k in 0..across {
        follow(chains, (first + k) as usize, &mut numbers)?;
        let part = RowPart {
            precinct: first + k,
            numbers: &numbers,
            area: &area,
        };
        read_row_part(alloc, source, at, part, &mut segment, strip)?;
    }
    Ok(())
}
