//! The code-blocks of a tile judged in their order, of which nothing is kept.

ghost use Rattle.std.specs.Prelude.{◌≡◌, ◌+◌, ◌<◌, ◌≤◌, length};
ghost use Rattle.jk_math.specs.Answer.{Answers};
ghost use Rattle.jk_geom.specs.Precincts.{precinct_number};
ghost use Rattle.jk_tile.specs.decoding.Gathered.{AreNumbers};
ghost use Rattle.jk_tile.specs.decoding.Source.{IsSource, IsBandPart, source_bodies};
ghost use Rattle.jk_tile.specs.decoding.TileReading.{each, tested, band_tested, precinct_tested, resolution_tested};
ghost use Rattle.jk_tile.specs.decoding.TileReading.{tile_planes_at};

use crate::bands::{BandBlock, BandPart, band_count, orientation};
use crate::decoding::bodies::{SomeBlocks, bodies_by_block};
use crate::decoding::chains::{follow, packets_by_precinct};
use crate::decoding::coded::CodedTile;
use crate::decoding::component::CodedComponent;
use crate::decoding::decoded::DecodedBlocks;
use crate::decoding::strips::read_band_block;
use jk_geom::{blocks, precinct_count, resolution, tile};
use jk_math::Fault;
use jk_wave::Region;
use std::alloc::Global;

/// Judges the code-blocks of a part of a sub-band, of which the packets of these numbers tell.
fn judge_band(
    alloc: Global,
    source: &CodedComponent<'_>,
    part: BandPart,
    numbers: &[usize],
    segment: &mut Vec<u8>,
) -> Result<(), Fault>
    requires part { IsBandPart source.now part }
    requires numbers { AreNumbers source.now.packets source.now.packets source.now.component
        part.resolution part.precinct numbers.now }
    ensures exact { Answers (λ u. u) result
        (band_tested source.now.region.rect source.now.coding part.resolution part.precinct part.band
        (source_bodies source.now part.resolution part.precinct)) }
{
    let rect = source.rect();
    let orientation = orientation(part.resolution, part.band);
    let grid = blocks(
        &rect,
        source.coding(),
        part.resolution,
        part.precinct,
        orientation,
    );
    let count = grid.across * grid.down;
    let all = SomeBlocks {
        band: part.band,
        first: 0,
        count,
    };
    let lists = bodies_by_block(alloc, source.packets(), numbers, all)?;
    for j in 0..count {
        let block = BandBlock {
            part,
            grid: &grid,
            number: j,
        };
        read_band_block(alloc, source, block, &lists[j as usize], segment)?;
    }
    Ok(())
}

/// Judges the code-blocks of precinct `n` of resolution `r`.
fn judge_precinct(
    alloc: Global,
    source: &CodedComponent<'_>,
    numbers: &[usize],
    r: u8,
    n: u32,
    segment: &mut Vec<u8>,
) -> Result<(), Fault>
    requires r { r ≤ source.now.region.top }
    requires n { n < precinct_number source.now.region.rect source.now.coding r }
    requires numbers { AreNumbers source.now.packets source.now.packets source.now.component r n numbers.now }
    ensures exact { Answers (λ u. u) result
        (precinct_tested source.now.region.rect source.now.coding r n (source_bodies source.now r n)) }
{
    for i in 0..band_count(r) {
        let part = BandPart {
            resolution: r,
            precinct: n,
            band: i,
        };
        judge_band(alloc, source, part, numbers, segment)?;
    }
    Ok(())
}

/// Judges the code-blocks of resolution `r`.
fn judge_resolution(
    alloc: Global,
    source: &CodedComponent<'_>,
    r: u8,
    segment: &mut Vec<u8>,
) -> Result<(), Fault>
    requires r { r ≤ source.now.region.top }
    ensures exact { Answers (λ u. u) result
        (resolution_tested source.now.region.rect source.now.coding r (source_bodies source.now r)) }
{
    let rect = source.rect();
    let (across, down) = precinct_count(&rect, source.coding(), r);
    let count = across * down;
    let chains = packets_by_precinct(
        alloc,
        source.tile_packets(),
        source.number(),
        r,
        count as usize,
    )?;
    let mut numbers = Vec::new(alloc);
    for n in 0..count {
        follow(&chains, n as usize, &mut numbers)?;
        judge_precinct(alloc, source, &numbers, r, n, segment)?;
    }
    Ok(())
}

/// Judges the code-blocks of a component up to the resolution that is asked for.
fn judge_component(alloc: Global, source: &CodedComponent<'_>) -> Result<(), Fault>
    ensures exact { Answers (λ u. u) result (each (source.now.region.top + 1)
        (λ r. resolution_tested source.now.region.rect source.now.coding r (source_bodies source.now r))) }
{
    let top = source.region().top;
    let mut segment = Vec::new(alloc);
    for r in 0..top + 1 {
        judge_resolution(alloc, source, r, &mut segment)?;
    }
    Ok(())
}

/// Judges the code-blocks of a tile up to the resolution that is asked for: the faults of
/// [`decode_tile`](crate::decode_tile), in the memory of one code-block.
pub fn judge_tile(alloc: Global, coded: &CodedTile<'_>) -> Result<(), Fault>
    ensures exact { Answers (λ u. u) result
        (tested (tile_planes_at coded.now.bytes coded.now.headers coded.now.number coded.now.reduce coded.now.packets)) }
{
    let headers = coded.headers;
    let number = coded.number;
    let reduce = coded.reduce;
    let rect = tile(headers.siz(), number as u32);
    let area = resolution(&rect, reduce, 0);
    let none = DecodedBlocks::none(alloc);
    let codings = headers.codings(number).as_slice();
    for c in 0..codings.len() {
        let coding = &codings[c];
        let region = Region {
            rect,
            levels: coding.levels,
            top: coding.levels - reduce,
            area,
        };
        let packets = coded.packets;
        let source = CodedComponent::new(coded.bytes, region, coding, packets, c as u8, &none);
        judge_component(alloc, &source)?;
    }
    Ok(())
}
