//! A tile whose samples are given row by row, however they are made.

ghost use Rattle.std.specs.Prelude.{◌≡◌, ℕ, ◌^◌, ◌<◌, ◌≤◌, ◌⊎◌, length, map, Ok, IfOk, IfErr, OnOk};
ghost use Rattle.std.specs.List.{range_with_len};
ghost use Rattle.jk_math.specs.Memory.{IsMemory};
ghost use Rattle.jk_math.specs.Lists.{lists_of};
ghost use Rattle.jk_math.specs.Raster.{raster};
ghost use Rattle.jk_wave.specs.climbing.Held.{rows_between};
ghost use Rattle.jk_tile.specs.TileMeaning.{shown_area};
ghost use Rattle.jk_tile.specs.decoding.TileReading.{component_samples, tested, tile_planes_at};
ghost use Rattle.jk_tile.specs.decoding.Decoded.{AreDecoded, AreSegments};
ghost use Rattle.jk_rows.specs.Components.{IsStepEnd};
ghost use Rattle.jk_rows.specs.Tiles.{IsTileRows, HasFaultIn};

use crate::at_once::{WholeTile, add_whole_blocks};
use crate::choosing::is_made_at_once;
use crate::climbing::ClimbingTile;
use jk_math::Fault;
use jk_tile::{BlockSegment, CodedTile, DecodedBlocks};
use std::alloc::Global;

/// A tile whose samples are given row by row: its components climb, so that the code-blocks of a row are
/// decoded when the first of its rows is asked for, or, where that would take longer, it's made at once.
/// Nothing is decoded or lifted twice.
#[derive(Drop)]
pub struct TileRows {
    /// Its components, where they climb.
    pub(crate) climbing: Option<ClimbingTile>,
    pub(crate) whole: WholeTile,
}

impl TileRows {
    /// Before the first row.
    pub fn new(alloc: Global, coded: &CodedTile<'_>) -> Result<TileRows, Fault>
        ensures at { IfOk result (IsTileRows coded.now (shown_area coded.now.headers.siz coded.now.number coded.now.reduce).y0) }
        ensures err { IfErr result (λ e. IsMemory e) }
    {
        let whole = WholeTile { planes: None };
        if is_made_at_once(coded) {
            return Ok(TileRows {
                climbing: None,
                whole,
            });
        }
        let climbing = ClimbingTile::new(alloc, coded)?;
        Ok(TileRows {
            climbing: Some(climbing),
            whole,
        })
    }

    /// The samples of rows `from` up to `to` of the tile at its reduction, component by component,
    /// each row by row. A step ends at an odd row that isn't the last of the tile, or at its end. A
    /// code-block among those that were decoded before, from the same codestream, isn't decoded again.
    ///
    /// The fault of a code-block, which need not be the first one of the tile, or Memory; the tile
    /// isn't to be used behind it.
    pub fn step_of(
        &mut self,
        alloc: Global,
        coded: &CodedTile<'_>,
        from: u32,
        to: u32,
        decoded: &DecodedBlocks,
    ) -> Result<Vec<Vec<i32>>, Fault>
        requires decoded { AreDecoded coded.now.bytes decoded.now }
        requires order { from ≤ to }
        requires first { IsStepEnd (shown_area coded.now.headers.siz coded.now.number coded.now.reduce) from }
        requires last { IsStepEnd (shown_area coded.now.headers.siz coded.now.number coded.now.reduce) to }
        requires at { IsTileRows coded.now from self.old }
        ensures at { OnOk result (IsTileRows coded.now to self.new) }
        ensures rows { IfOk result (λ v. lists_of v.items ≡ map (λ c. raster
            (rows_between (shown_area coded.now.headers.siz coded.now.number coded.now.reduce) from to)
            (component_samples coded.now.bytes coded.now.headers coded.now.number coded.now.reduce coded.now.packets c))
            (range_with_len 0 coded.now.headers.siz.components)) }
        // Behind the last row no code-block of the tile has a fault.
        ensures fine { to ≡ (shown_area coded.now.headers.siz coded.now.number coded.now.reduce).y1
            → OnOk result (tested (tile_planes_at coded.now.bytes coded.now.headers coded.now.number coded.now.reduce
            coded.now.packets) ≡ Ok tt) }
        ensures cause { IfErr result (λ e. IsMemory e ⊎ HasFaultIn coded.now e) }
    {
        match &mut self.climbing {
            Some(tile) => tile.step_of(alloc, coded, from, to, decoded),
            None => self.whole.step_of(alloc, coded, from, to, decoded),
        }
    }

    /// Appends the code-blocks that the step from row `from` up to row `to` reads, but for small ones
    /// and those without a body: it takes what was decoded of them. The tile may stand before any row.
    pub fn add_blocks(
        &self,
        alloc: Global,
        coded: &CodedTile<'_>,
        from: u32,
        to: u32,
        segments: &mut Vec<BlockSegment>,
    ) -> Result<(), Fault>
        requires at { (d : ℕ) × IsTileRows coded.now d self.now }
        requires from { from < 2 ^ 31 }
        requires to { to < 2 ^ 31 }
        ensures segments { AreSegments (length coded.now.bytes) segments.old.items
            → OnOk result (AreSegments (length coded.now.bytes) segments.new.items) }
        ensures memory { IfErr result IsMemory }
    {
        match &self.climbing {
            Some(tile) => tile.add_blocks(alloc, coded, from, to, segments),
            None => add_whole_blocks(alloc, coded, from, segments),
        }
    }
}
