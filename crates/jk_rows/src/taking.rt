//! Which rows are taken, and which code-blocks they stand in.

ghost use Rattle.std.specs.Prelude.{◌≡◌, ℕ, ◌+◌, ◌-◌, ◌*◌, ◌/◌, ◌%◌, ◌^◌, ◌<◌, ◌≤◌, ◌||◌, ◌==◌, length, take, drop, IfOk, IfErr};
ghost use Rattle.jk_math.specs.Memory.{IsMemory};
ghost use Rattle.jk_tile.specs.decoding.Source.{IsSource};
ghost use Rattle.jk_rows.specs.Components.{taken_rows, AreChains};

use jk_geom::{precinct_count, resolution};
use jk_math::{Fault, Rect};
use jk_tile::{CodedComponent, PacketChains, packets_by_precinct};
use jk_wave::{rows_asked, rows_taken};
use std::alloc::Global;

/// Rows of a resolution, from one up to another.
#[derive(Clone, Copy)]
pub(crate) struct Rows {
    pub(crate) from: u32,
    pub(crate) to: u32,
}

/// The end of those of the rows from one up to another that lie with the first one in a row of cells
/// of `2^exponent` rows.
pub(crate) fn cell_end(from: u32, to: u32, exponent: u8) -> u32
    requires order { from < to }
    requires to { to < 2 ^ 31 }
    requires exponent { exponent ≤ 11 }
    ensures from { from < result }
    ensures to { result ≤ to }
    ensures cell { result ≤ (from / 2 ^ exponent + 1) * 2 ^ exponent }
    ensures end { result < to → result % 2 ^ exponent ≡ 0 }
{
    (((from >> exponent) + 1) << exponent).min(to)
}

/// Some of the numbers of a list.
pub(crate) fn cut(numbers: &[i32], front: usize, count: usize) -> &[i32]
    requires { front + count ≤ length numbers.now }
    ensures { result.now ≡ take count (drop front numbers.now) }
{
    &numbers[front..front + count]
}

/// Whether row `y` is the first that a rectangle has in a row of cells of `2^exponent` rows.
pub(crate) fn is_first(area: &Rect, y: u32, exponent: u8) -> bool
    requires exponent { exponent ≤ 11 }
    ensures { result ≡ ((y == area.now.y0) || (y % 2 ^ exponent == 0)) }
{
    y == area.y0 || y % (1u32 << exponent) == 0
}

/// The packets of the precincts of resolution `r`.
pub(crate) fn chains(
    alloc: Global,
    source: &CodedComponent<'_>,
    r: u8,
) -> Result<PacketChains, Fault>
    requires r { r ≤ source.now.region.top }
    ensures chains { IfOk result (AreChains source.now r) }
    ensures err { IfErr result (λ e. IsMemory e) }
{
    let (across, down) = precinct_count(&source.rect(), source.coding(), r);
    let count = (across * down) as usize;
    packets_by_precinct(alloc, source.tile_packets(), source.number(), r, count)
}

/// How far the rows of resolution `r` are taken where the highest is made up to row `e`.
pub(crate) fn taken(source: &CodedComponent<'_>, r: u8, e: u32) -> u32
    requires r { r ≤ source.now.region.top }
    requires e { e < 2 ^ 31 }
    ensures value { result ≡ taken_rows source.now r e }
    ensures small { result < 2 ^ 31 }
{
    let (rect, region) = (source.rect(), source.region());
    let end = rows_asked(&rect, region.levels, region.top, e, region.top - r);
    if r == 0 {
        return end;
    }
    rows_taken(&resolution(&rect, region.levels, r), end)
}
