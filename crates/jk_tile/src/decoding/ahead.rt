//! The code-blocks of a row of them, for workers who decode them before the row is read.

ghost use Rattle.std.specs.Prelude.{◌≡◌, ◌+◌, ◌-◌, ◌*◌, ◌<◌, ◌≤◌, length, IfErr, OnOk};
ghost use Rattle.jk_math.specs.Memory.{IsMemory};
ghost use Rattle.jk_geom.specs.Precincts.{precinct_number};
ghost use Rattle.jk_tile.specs.decoding.Decoded.{AreSegments};
ghost use Rattle.jk_tile.specs.decoding.Gathered.{AreNumbers, AreByPrecinct};
ghost use Rattle.jk_tile.specs.decoding.Source.{IsSource};
ghost use Rattle.jk_tile.specs.decoding.Strips.{IsBlockRow};

use crate::bands::{BandPart, orientation};
use crate::decoding::bodies::SomeBlocks;
use crate::decoding::chains::{PacketChains, follow};
use crate::decoding::component::CodedComponent;
use crate::decoding::decoded::BlockSegment;
use crate::decoding::jobs::add_some_blocks;
use crate::decoding::strips::{BlockRow, first_precinct, strip_area};
use jk_geom::{blocks, is_empty, precinct_count};
use jk_math::Fault;
use std::alloc::Global;

/// Appends the code-blocks that a precinct has of a row, of which the packets of these numbers tell.
fn add_row_part(
    alloc: Global,
    source: &CodedComponent<'_>,
    at: BlockRow,
    precinct: u32,
    numbers: &[usize],
    segments: &mut Vec<BlockSegment>,
) -> Result<(), Fault>
    requires row { IsBlockRow source.now at }
    requires precinct { precinct < precinct_number source.now.region.rect source.now.coding at.resolution }
    requires numbers { AreNumbers source.now.packets source.now.packets source.now.component
        at.resolution precinct numbers.now }
    ensures segments { AreSegments (length source.now.bytes) segments.old.items
        → OnOk result (AreSegments (length source.now.bytes) segments.new.items) }
    ensures memory { IfErr result IsMemory }
{
    let part = BandPart {
        resolution: at.resolution,
        precinct,
        band: at.band,
    };
    let rect = source.rect();
    let grid = blocks(
        &rect,
        source.coding(),
        at.resolution,
        precinct,
        orientation(at.resolution, at.band),
    );
    if at.row < grid.row || grid.row + grid.down <= at.row {
        return Ok(());
    }
    let some = SomeBlocks {
        band: at.band,
        first: (at.row - grid.row) * grid.across,
        count: grid.across,
    };
    add_some_blocks(alloc, source, part, &grid, some, numbers, segments)
}

/// Appends the code-blocks of a row of a sub-band, as [`crate::read_strip`] reads them, but for
/// small ones and those without a body. `chains` tell the packets of the resolution.
pub fn add_row_blocks(
    alloc: Global,
    source: &CodedComponent<'_>,
    chains: &PacketChains,
    at: BlockRow,
    segments: &mut Vec<BlockSegment>,
) -> Result<(), Fault>
    requires row { IsBlockRow source.now at }
    requires chains { AreByPrecinct source.now.packets 0 source.now.component at.resolution
        (precinct_number source.now.region.rect source.now.coding at.resolution) chains.now }
    ensures segments { AreSegments (length source.now.bytes) segments.old.items
        → OnOk result (AreSegments (length source.now.bytes) segments.new.items) }
    ensures memory { IfErr result IsMemory }
{
    if is_empty(&strip_area(source, at)) {
        return Ok(());
    }
    let rect = source.rect();
    let (across, _) = precinct_count(&rect, source.coding(), at.resolution);
    let first = first_precinct(source, at);
    let mut numbers = Vec::new(alloc);
    for k in 0..across {
        follow(chains, (first + k) as usize, &mut numbers)?;
        add_row_part(alloc, source, at, first + k, &numbers, segments)?;
    }
    Ok(())
}
