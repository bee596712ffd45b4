//! The code-blocks of a tile, for workers who decode them before its samples are made.

ghost use Rattle.std.specs.Prelude.{◌≡◌, ◌<◌, ◌≤◌, ◌+◌, ◌*◌, ◌^◌, length, All, IfErr, OnOk};
ghost use Rattle.jk_math.specs.Memory.{IsMemory};
ghost use Rattle.jk_geom.specs.Blocks.{IsGrid};
ghost use Rattle.jk_geom.specs.Precincts.{precinct_number};
ghost use Rattle.jk_tile.specs.TileBlocks.{grid_at};
ghost use Rattle.jk_tile.specs.decoding.Decoded.{AreSegments};
ghost use Rattle.jk_tile.specs.decoding.Gathered.{AreNumbers, IsInside};
ghost use Rattle.jk_tile.specs.decoding.Source.{IsSource, IsBandPart};

use crate::bands::{BandBlock, BandPart, band_count, band_planes, orientation, shape_at};
use crate::decoding::bodies::{BodyPlace, SomeBlocks, bodies_by_block};
use crate::decoding::chains::{follow, packets_by_precinct};
use crate::decoding::coded::CodedTile;
use crate::decoding::component::CodedComponent;
use crate::decoding::decoded::{BlockSegment, DecodedBlocks};
use jk_geom::{BlockGrid, blocks, precinct_count, resolution, tile};
use jk_math::Fault;
use jk_wave::Region;
use std::alloc::Global;

/// The least number of coefficients of a code-block that is decoded before the rows that it is in: to
/// keep a smaller one takes as long as to decode it.
const LEAST: usize = 64;

/// How many code-blocks are listed before small ones are left out: as many as there may be workers, so
/// that each has one.
const FEW: usize = 64;

/// Appends a code-block of a part of a sub-band that has these bodies, if it has any. A small one is
/// left out behind the first few of the list.
fn add_block(
    alloc: Global,
    source: &CodedComponent<'_>,
    block: BandBlock<'_>,
    bodies: &[BodyPlace],
    segments: &mut Vec<BlockSegment>,
) -> Result<(), Fault>
    requires part { IsBandPart source.now block.part }
    requires grid { block.grid.now ≡ grid_at source.now.region.rect source.now.coding
        block.part.resolution block.part.precinct block.part.band }
    requires sound { IsGrid block.grid.now }
    requires number { block.number < block.grid.now.across * block.grid.now.down }
    requires inside { All (IsInside (length source.now.bytes)) bodies.now }
    ensures segments { AreSegments (length source.now.bytes) segments.old.items
        → OnOk result (AreSegments (length source.now.bytes) segments.new.items) }
    ensures memory { IfErr result IsMemory }
{
    let part = block.part;
    let coding = source.coding();
    let place = block.grid.block(block.number);
    let orientation = orientation(part.resolution, part.band);
    let planes = band_planes(coding, part.resolution, part.band);
    let shape = shape_at(&place, orientation, coding.style);
    let is_small = shape.width * shape.height < LEAST;
    if bodies.is_empty() || is_small && FEW <= segments.len() {
        return Ok(());
    }
    segments.push(BlockSegment {
        shape,
        planes,
        bodies: bodies.to_vec(alloc)?,
    })?;
    Ok(())
}

/// Appends some code-blocks of a part of a sub-band, of which the packets of these numbers tell.
pub(crate) fn add_some_blocks(
    alloc: Global,
    source: &CodedComponent<'_>,
    part: BandPart,
    grid: &BlockGrid,
    some: SomeBlocks,
    numbers: &[usize],
    segments: &mut Vec<BlockSegment>,
) -> Result<(), Fault>
    requires source { IsSource source.now }
    requires part { IsBandPart source.now part }
    requires grid { grid.now ≡ grid_at source.now.region.rect source.now.coding
        part.resolution part.precinct part.band }
    requires sound { IsGrid grid.now }
    requires few { grid.now.across * grid.now.down < 2 ^ 32 }
    requires band { some.band ≡ part.band }
    requires some { some.first + some.count ≤ grid.now.across * grid.now.down }
    requires numbers { AreNumbers source.now.packets source.now.packets source.now.component
        part.resolution part.precinct numbers.now }
    ensures segments { AreSegments (length source.now.bytes) segments.old.items
        → OnOk result (AreSegments (length source.now.bytes) segments.new.items) }
    ensures memory { IfErr result IsMemory }
{
    let lists = bodies_by_block(alloc, source.packets(), numbers, some)?;
    for j in 0..some.count {
        let block = BandBlock {
            part,
            grid,
            number: some.first + j,
        };
        add_block(alloc, source, block, &lists[j as usize], segments)?;
    }
    Ok(())
}

/// Appends the code-blocks of a part of a sub-band, of which the packets of these numbers tell.
fn add_band_blocks(
    alloc: Global,
    source: &CodedComponent<'_>,
    part: BandPart,
    numbers: &[usize],
    segments: &mut Vec<BlockSegment>,
) -> Result<(), Fault>
    requires part { IsBandPart source.now part }
    requires numbers { AreNumbers source.now.packets source.now.packets source.now.component
        part.resolution part.precinct numbers.now }
    ensures segments { AreSegments (length source.now.bytes) segments.old.items
        → OnOk result (AreSegments (length source.now.bytes) segments.new.items) }
    ensures memory { IfErr result IsMemory }
{
    let rect = source.rect();
    let grid = blocks(
        &rect,
        source.coding(),
        part.resolution,
        part.precinct,
        orientation(part.resolution, part.band),
    );
    let all = SomeBlocks {
        band: part.band,
        first: 0,
        count: grid.across * grid.down,
    };
    add_some_blocks(alloc, source, part, &grid, all, numbers, segments)
}

/// Appends the code-blocks of precinct `n` of resolution `r`.
fn add_precinct_blocks(
    alloc: Global,
    source: &CodedComponent<'_>,
    numbers: &[usize],
    r: u8,
    n: u32,
    segments: &mut Vec<BlockSegment>,
) -> Result<(), Fault>
    requires r { r ≤ source.now.region.top }
    requires n { n < precinct_number source.now.region.rect source.now.coding r }
    requires numbers { AreNumbers source.now.packets source.now.packets source.now.component r n numbers.now }
    ensures segments { AreSegments (length source.now.bytes) segments.old.items
        → OnOk result (AreSegments (length source.now.bytes) segments.new.items) }
    ensures memory { IfErr result IsMemory }
{
    for i in 0..band_count(r) {
        let part = BandPart {
            resolution: r,
            precinct: n,
            band: i,
        };
        add_band_blocks(alloc, source, part, numbers, segments)?;
    }
    Ok(())
}

/// Appends the code-blocks of resolution `r`.
fn add_resolution_blocks(
    alloc: Global,
    source: &CodedComponent<'_>,
    r: u8,
    segments: &mut Vec<BlockSegment>,
) -> Result<(), Fault>
    requires r { r ≤ source.now.region.top }
    ensures segments { AreSegments (length source.now.bytes) segments.old.items
        → OnOk result (AreSegments (length source.now.bytes) segments.new.items) }
    ensures memory { IfErr result IsMemory }
{
    let rect = source.rect();
    let (across, down) = precinct_count(&rect, source.coding(), r);
    let count = across * down;
    let chains = packets_by_precinct(
        alloc,
        source.tile_packets(),
        source.number(),
        r,
        count as usize,
    )?;
    let mut numbers = Vec::new(alloc);
    for n in 0..count {
        follow(&chains, n as usize, &mut numbers)?;
        add_precinct_blocks(alloc, source, &numbers, r, n, segments)?;
    }
    Ok(())
}

/// Appends the code-blocks of a tile-component.
fn add_component_blocks(
    alloc: Global,
    source: &CodedComponent<'_>,
    segments: &mut Vec<BlockSegment>,
) -> Result<(), Fault>
    ensures segments { AreSegments (length source.now.bytes) segments.old.items
        → OnOk result (AreSegments (length source.now.bytes) segments.new.items) }
    ensures memory { IfErr result IsMemory }
{
    let top = source.region().top;
    for r in 0..top + 1 {
        add_resolution_blocks(alloc, source, r, segments)?;
    }
    Ok(())
}

/// Appends the code-blocks of a tile, of the resolutions up to its reduction below the highest, but for
/// small ones and those without a body.
pub fn add_tile_blocks(
    alloc: Global,
    coded: &CodedTile<'_>,
    segments: &mut Vec<BlockSegment>,
) -> Result<(), Fault>
    ensures segments { AreSegments (length coded.now.bytes) segments.old.items
        → OnOk result (AreSegments (length coded.now.bytes) segments.new.items) }
    ensures memory { IfErr result IsMemory }
{
    let headers = coded.headers;
    let number = coded.number;
    let reduce = coded.reduce;
    let rect = tile(headers.siz(), number as u32);
    let area = resolution(&rect, reduce, 0);
    let none = DecodedBlocks::none(alloc);
    let codings = headers.codings(number).as_slice();
    for c in 0..codings.len() {
        let coding = &codings[c];
        let region = Region {
            rect,
            levels: coding.levels,
            top: coding.levels - reduce,
            area,
        };
        let packets = coded.packets;
        let source = CodedComponent::new(coded.bytes, region, coding, packets, c as u8, &none);
        add_component_blocks(alloc, &source, segments)?;
    }
    Ok(())
}
