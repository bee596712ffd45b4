//! Tiles by chance, against what another program says of them.

ghost use Rattle.std.specs.Prelude.{◌≡◌, ◌+◌, ◌*◌, ◌<◌, ◌≤◌, ◌^◌};
ghost use Rattle.jk_marks.specs.Coding.{IsCoding};
ghost use Rattle.jk_geom.specs.Rectangles.{IsArea};
ghost use Rattle.jk_geom.specs.Blocks.{IsGrid};
ghost use Rattle.jk_geom.specs.TileShapes.{IsTileShape};

use crate::order::random::{Random, any_tile};
use crate::order::sums::{BLOCKS, NAMES};
use jk_geom::{BlockGrid, PacketName, TileShape, band, blocks, precinct_count, resolution};
use jk_marks::Coding;
use jk_math::{Orientation, Rect};
use jk_order::{Packets, packet_count};
use std::process::Abort;
use vectors::equal_at;

/// The seed of the tiles.
const SEED: u64 = 20_261_122;

/// A sum of numbers in their order.
fn mixed(sum: u64, value: u64) -> u64 {
    sum.wrapping_mul(1_099_511_628_211).wrapping_add(value)
}

/// A sum of a rectangle's bounds.
fn mixed_rect(sum: u64, rect: Rect) -> u64 {
    let sum = mixed(mixed(sum, rect.x0 as u64), rect.y0 as u64);
    mixed(mixed(sum, rect.x1 as u64), rect.y1 as u64)
}

/// A sum of a packet's name.
fn mixed_name(sum: u64, name: PacketName) -> u64 {
    let sum = mixed(mixed(sum, name.layer as u64), name.resolution as u64);
    mixed(mixed(sum, name.component as u64), name.precinct as u64)
}

/// A sum of the names of packets, or 0 where they don't end with None for ever.
fn mixed_names(sum: u64, mut packets: Packets) -> u64 {
    let mut sum = sum;
    for _name in 0..100_000 {
        match packets.next() {
            Some(name) => sum = mixed_name(sum, name),
            None => break,
        }
    }
    if packets.next().is_none() { sum } else { 0 }
}

/// The packets of a tile in one number, or 0 where they don't end with None for ever.
fn names_of(shape: &TileShape) -> u64
    requires { IsTileShape shape.now }
{
    match Packets::new(shape) {
        Err(_) => 0,
        Ok(packets) => mixed_names(packet_count(shape), packets),
    }
}

/// The code-blocks of a grid.
fn blocks_in(sum: u64, grid: &BlockGrid) -> u64
    requires { IsGrid grid.now }
{
    let mut sum = mixed(mixed(sum, grid.across as u64), grid.down as u64);
    let count = grid.across as u64 * grid.down as u64;
    if count > 1 << 20 {
        return 0;
    }
    for i in 0..count as u32 {
        sum = mixed_rect(sum, grid.block(i));
    }
    sum
}

/// The code-blocks of a sub-band, precinct by precinct.
fn band_blocks(sum: u64, rect: &Rect, coding: &Coding, r: u8, orientation: Orientation) -> u64
    requires area { IsArea rect.now }
    requires coding { IsCoding coding.now }
    requires r { r ≤ coding.now.levels }
{
    let mut sum = mixed_rect(sum, band(rect, coding.levels, r, orientation));
    let (across, down) = precinct_count(rect, coding, r);
    let count = across as u64 * down as u64;
    if count > 1 << 20 {
        return 0;
    }
    for k in 0..count as u32 {
        sum = blocks_in(sum, &blocks(rect, coding, r, k, orientation));
    }
    sum
}

/// The resolutions, sub-bands and code-blocks of a component.
fn component_blocks(sum: u64, rect: &Rect, coding: &Coding) -> u64
    requires area { IsArea rect.now }
    requires coding { IsCoding coding.now }
{
    let mut sum = mixed_rect(sum, resolution(rect, coding.levels, 0));
    sum = band_blocks(sum, rect, coding, 0, Orientation::LL);
    for r in 1..coding.levels + 1 {
        sum = mixed_rect(sum, resolution(rect, coding.levels, r));
        sum = band_blocks(sum, rect, coding, r, Orientation::HL);
        sum = band_blocks(sum, rect, coding, r, Orientation::LH);
        sum = band_blocks(sum, rect, coding, r, Orientation::HH);
    }
    sum
}

/// All of a tile in one number.
fn blocks_of(shape: &TileShape) -> u64
    requires { IsTileShape shape.now }
{
    let mut sum = 0;
    let codings = shape.codings.as_slice();
    for c in 0..codings.len() {
        sum = component_blocks(sum, &shape.rect, &codings[c]);
    }
    sum
}

/// The number of a line.
fn number_of(rt: &impl Abort, line: &str) -> u64 {
    u64::from_str_radix(line, 16).expect(rt, "a number")
}

/// The packets of the next tile have the number of a line.
fn has_names(rt: &impl Abort, random: &mut Random, line: &str) {
    let shape = any_tile(random);
    equal_at(&shape, names_of(&shape), number_of(rt, line)).expect(rt, "names");
}

/// The code-blocks of the next tile have the number of a line.
fn has_blocks(rt: &impl Abort, random: &mut Random, line: &str) {
    let shape = any_tile(random);
    equal_at(&shape, blocks_of(&shape), number_of(rt, line)).expect(rt, "code-blocks");
}

#[test]
fn names_of_random_tiles(rt: HostRuntime) {
    let mut random = Random::new(SEED);
    for line in NAMES.lines() {
        has_names(&rt, &mut random, line);
    }
}

#[test]
fn blocks_of_random_tiles(rt: HostRuntime) {
    let mut random = Random::new(SEED);
    for line in BLOCKS.lines() {
        has_blocks(&rt, &mut random, line);
    }
}
