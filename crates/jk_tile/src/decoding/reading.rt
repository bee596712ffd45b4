//! The resolutions of a part of a tile-component, from its code-blocks: each in one list, which has
//! the samples of the resolution below and the coefficients of its own sub-bands, and becomes its
//! samples.

ghost use Rattle.std.specs.Prelude.{◌≡◌, ℕ, ◌-◌, ◌*◌, ◌^◌, ◌<◌, ◌≤◌, length, map, All, Ok, IfOk, OnOk};
ghost use Rattle.std.specs.Prelude.{if◌then◌else◌};
ghost use Rattle.jk_math.specs.Answer.{Answers};
ghost use Rattle.jk_math.specs.Signed.{IsBelow};
ghost use Rattle.jk_geom.specs.Precincts.{precinct_number};
ghost use Rattle.jk_geom.specs.Blocks.{IsGrid};
ghost use Rattle.jk_wave.specs.RegionRows.{IsMadeSmall};
ghost use Rattle.jk_tile.specs.TileBlocks.{grid_at, block_bodies};
ghost use Rattle.jk_tile.specs.decoding.TileReading.{tested, block_values, is_met, met_tested, precinct_part_tested};
ghost use Rattle.jk_tile.specs.decoding.Gathered.{AreNumbers, body_of, IsInside};
ghost use Rattle.jk_tile.specs.decoding.Source.{IsSource, source_bodies, IsBandPart, IsFilling, Fills, ShowsBlock};
ghost use Rattle.jk_tile.specs.decoding.Source.{ShowsBlocks};
ghost use Rattle.jk_tile.specs.decoding.Source.{ShowsPrecinct, block_count, resolution_values, resolution_at};

use crate::bands::{
    BandBlock, BandPart, band_count, band_number, band_planes, orientation, shape_at,
};
use crate::decoding::block::read_block;
use crate::decoding::bodies::{BodyPlace, SomeBlocks, bodies_by_block};
use crate::decoding::chains::{follow, packets_by_precinct};
use crate::decoding::component::CodedComponent;
use crate::decoding::filling::put_common;
use jk_geom::{blocks, precinct_count, touches};
use jk_math::Fault;
use jk_wave::{band_rows, begin_level, finish_level, part_area};
use std::alloc::Global;

/// Reads a code-block of a part of a sub-band, and puts what is asked for of it into the list of the
/// resolution. A code-block of which nothing is asked for is passed over, and one that was decoded
/// before isn't decoded again.
fn read_at(
    alloc: Global,
    source: &CodedComponent<'_>,
    block: BandBlock<'_>,
    bodies: &[BodyPlace],
    rows: &mut [i32],
    segment: &mut Vec<u8>,
) -> Result<(), Fault>
    requires part { IsBandPart source.now block.part }
    requires grid { block.grid.now ≡ grid_at source.now.region.rect source.now.coding
        block.part.resolution block.part.precinct block.part.band }
    requires sound { IsGrid block.grid.now }
    requires number { block.number < block.grid.now.across * block.grid.now.down }
    requires inside { All (IsInside (length source.now.bytes)) bodies.now }
    requires bodies { map (body_of source.now.bytes) bodies.now
        ≡ block_bodies block.part.band block.number
        (source_bodies source.now block.part.resolution block.part.precinct) }
    requires filling { IsFilling source.now block.part.resolution rows.old }
    ensures exact { Answers (λ u. u) result
        (if is_met source.now.region source.now.coding block.entry.part.resolution block.entry.part.precinct
        block.entry.part.band block.entry.number
        then tested (block_values source.now.region.rect source.now.coding block.entry.part.resolution
        block.entry.part.precinct block.entry.part.band block.entry.number
        (source_bodies source.now block.entry.part.resolution block.entry.part.precinct)) else Ok tt) }
    ensures fills { OnOk result (Fills source.now block.entry.part.resolution rows.old rows.new) }
    ensures shows { OnOk result (ShowsBlock source.now block.entry.part.resolution block.entry.part.precinct
        block.entry.part.band block.entry.number rows.new) }
{
    let part = block.part;
    let coding = source.coding();
    let place = block.grid.block(block.number);
    let lies = band_rows(&source.region(), band_number(part.resolution, part.band));
    if !touches(&place, &lies.area) {
        return Ok(());
    }
    let orientation = orientation(part.resolution, part.band);
    let planes = band_planes(coding, part.resolution, part.band);
    let shape = shape_at(&place, orientation, coding.style);
    if let Some(values) = source.decoded().find(bodies, shape, planes) {
        put_common(&lies, rows, &place, values);
        return Ok(());
    }
    let read = read_block(alloc, source.bytes(), bodies, shape, planes, segment)?;
    put_common(&lies, rows, &place, &read.values);
    Ok(())
}

/// Reads the code-blocks of a part of a sub-band, of which the packets of these numbers tell, and
/// puts what is asked for of them into the list of the resolution.
fn read_band(
    alloc: Global,
    source: &CodedComponent<'_>,
    part: BandPart,
    numbers: &[usize],
    rows: &mut [i32],
    segment: &mut Vec<u8>,
) -> Result<(), Fault>
    requires part { IsBandPart source.now part }
    requires numbers { AreNumbers source.now.packets source.now.packets source.now.component
        part.resolution part.precinct numbers.now }
    requires filling { IsFilling source.now part.resolution rows.old }
    ensures exact { Answers (λ u. u) result
        (met_tested source.now.region source.now.coding part.resolution part.precinct part.band
        (source_bodies source.now part.resolution part.precinct)) }
    ensures fills { OnOk result (Fills source.now part.resolution rows.old rows.new) }
    ensures shows { OnOk result (ShowsBlocks source.now part.resolution part.precinct part.band
        (block_count source.now part.resolution part.precinct part.band) rows.new) }
{
    let rect = source.rect();
    let orientation = orientation(part.resolution, part.band);
    let grid = blocks(
        &rect,
        source.coding(),
        part.resolution,
        part.precinct,
        orientation,
    );
    let area = part_area(&source.region(), band_number(part.resolution, part.band));
    if !touches(&grid.area, &area) {
        return Ok(());
    }
    let count = grid.across * grid.down;
    let all = SomeBlocks {
        band: part.band,
        first: 0,
        count,
    };
    let lists = bodies_by_block(alloc, source.packets(), numbers, all)?;
    for j in 0..count {
        let block = BandBlock {
            part,
            grid: &grid,
            number: j,
        };
        read_at(alloc, source, block, &lists[j as usize], rows, segment)?;
    }
    Ok(())
}

/// Reads the code-blocks of precinct `n` of resolution `r` into the list of the resolution. Without
/// a packet that tells of one all its coefficients are zero, as they stand in the list.
fn read_precinct(
    alloc: Global,
    source: &CodedComponent<'_>,
    numbers: &[usize],
    r: u8,
    n: u32,
    rows: &mut [i32],
    segment: &mut Vec<u8>,
) -> Result<(), Fault>
    requires source { IsSource source.now }
    requires r { r ≤ source.now.region.top }
    requires n { n < precinct_number source.now.region.rect source.now.coding r }
    requires numbers { AreNumbers source.now.packets source.now.packets source.now.component r n numbers.now }
    requires filling { IsFilling source.now r rows.old }
    ensures exact { Answers (λ u. u) result
        (precinct_part_tested source.now.region source.now.coding r n (source_bodies source.now r n)) }
    ensures fills { OnOk result (Fills source.now r rows.old rows.new) }
    ensures shows { OnOk result (ShowsPrecinct source.now r n rows.new) }
{
    if numbers.is_empty() {
        return Ok(());
    }
    for i in 0..band_count(r) {
        let part = BandPart {
            resolution: r,
            precinct: n,
            band: i,
        };
        read_band(alloc, source, part, numbers, rows, segment)?;
    }
    Ok(())
}

/// What is looked at of resolution `r`, row by row, from what is looked at of the one below.
#[tactic(auto, unfolding(crate::specs::decoding::Source::resolution_at))]
pub(crate) fn read_resolution(
    alloc: Global,
    source: &CodedComponent<'_>,
    r: u8,
    below: Vec<i32>,
    segment: &mut Vec<u8>,
) -> Result<Vec<i32>, Fault>
    requires r { r ≤ source.now.region.top }
    requires below { 0 < r → below.items ≡ resolution_values source.now (r - 1) }
    requires made { 0 < r → IsMadeSmall source.now.region (r - 1) below.items }
    ensures exact { Answers (λ v. v.items) result (resolution_at source.now r) }
    ensures made { IfOk result (λ v. IsMadeSmall source.now.region r v.items) }
    ensures small { IfOk result (λ v. All (IsBelow (2 ^ 29)) v.items) }
{
    let (rect, region) = (source.rect(), source.region());
    let (across, down) = precinct_count(&rect, source.coding(), r);
    let count = across * down;
    let chains = packets_by_precinct(
        alloc,
        source.tile_packets(),
        source.number(),
        r,
        count as usize,
    )?;
    let mut rows = begin_level(alloc, &region, r, below)?;
    let mut numbers = Vec::new(alloc);
    for n in 0..count {
        follow(&chains, n as usize, &mut numbers)?;
        read_precinct(alloc, source, &numbers, r, n, &mut rows, segment)?;
    }
    finish_level(alloc, &region, r, rows)
}
