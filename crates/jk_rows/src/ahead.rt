//! The code-blocks that a step reads, for workers who decode them before it.

ghost use Rattle.std.specs.Prelude.{◌≡◌, ◌*◌, ◌^◌, ◌<◌, ◌≤◌, length, IfErr, OnOk};
ghost use Rattle.jk_math.specs.Memory.{IsMemory};
ghost use Rattle.jk_marks.specs.Coding.{IsCoding};
ghost use Rattle.jk_tile.specs.decoding.Decoded.{AreSegments};
ghost use Rattle.jk_tile.specs.decoding.Source.{IsSource};
ghost use Rattle.jk_tile.specs.decoding.Strips.{block_exponent};
ghost use Rattle.jk_rows.specs.Components.{cell_exponent, AreChains};

use crate::taking::{Rows, cell_end, is_first, taken};
use jk_geom::resolution;
use jk_marks::Coding;
use jk_math::Fault;
use jk_tile::{
    BlockRow, BlockSegment, CodedComponent, PacketChains, add_row_blocks, block_exponent,
};
use std::alloc::Global;

/// The exponent of how many rows of resolution `r` have their coefficients in one row of code-blocks.
fn cell_exponent(coding: &Coding, r: u8) -> u8
    requires coding { IsCoding coding.now }
    requires r { r ≤ coding.now.levels }
    ensures value { result ≡ cell_exponent coding.now r }
    ensures few { result ≤ 11 }
{
    let exponent = block_exponent(coding, r);
    if r == 0 { exponent } else { exponent + 1 }
}

/// Appends the code-blocks of a row of each sub-band of resolution `r`.
fn add_cell_blocks(
    alloc: Global,
    source: &CodedComponent<'_>,
    chains: &PacketChains,
    r: u8,
    row: u32,
    segments: &mut Vec<BlockSegment>,
) -> Result<(), Fault>
    requires r { r ≤ source.now.region.top }
    requires chains { AreChains source.now r chains.now }
    requires small { row * 2 ^ block_exponent source.now.coding r < 2 ^ 31 }
    ensures segments { AreSegments (length source.now.bytes) segments.old.items
        → OnOk result (AreSegments (length source.now.bytes) segments.new.items) }
    ensures memory { IfErr result IsMemory }
{
    let bands = if r == 0 { 1 } else { 3 };
    for band in 0..bands {
        let at = BlockRow {
            resolution: r,
            band,
            row,
        };
        add_row_blocks(alloc, source, chains, at, segments)?;
    }
    Ok(())
}

/// Appends the code-blocks of resolution `r` that a step reads, which makes some rows of the highest
/// one.
pub(crate) fn add_step_blocks(
    alloc: Global,
    source: &CodedComponent<'_>,
    chains: &PacketChains,
    r: u8,
    rows: Rows,
    segments: &mut Vec<BlockSegment>,
) -> Result<(), Fault>
    requires source { IsSource source.now }
    requires r { r ≤ source.now.region.top }
    requires chains { AreChains source.now r chains.now }
    requires from { rows.from < 2 ^ 31 }
    requires to { rows.to < 2 ^ 31 }
    ensures segments { AreSegments (length source.now.bytes) segments.old.items
        → OnOk result (AreSegments (length source.now.bytes) segments.new.items) }
    ensures memory { IfErr result IsMemory }
{
    let exponent = cell_exponent(source.coding(), r);
    let area = resolution(&source.rect(), source.region().levels, r);
    let end = taken(source, r, rows.to);
    let mut from = taken(source, r, rows.from);
    while from < end {
        if is_first(&area, from, exponent) {
            add_cell_blocks(alloc, source, chains, r, from >> exponent, segments)?;
        }
        from = cell_end(from, end, exponent);
    }
    Ok(())
}
