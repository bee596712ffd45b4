//! A tile that is made at once, and whose rows are handed out.

ghost use Rattle.std.specs.Prelude.{◌≡◌, ℕ, ℤ, ◌≤◌, ◌⊎◌, None, length, map, Ok, IfOk, IfErr, OnOk};
ghost use Rattle.std.specs.List.{range_with_len};
ghost use Rattle.jk_math.specs.Memory.{IsMemory};
ghost use Rattle.jk_math.specs.Lists.{lists_of};
ghost use Rattle.jk_math.specs.Raster.{raster};
ghost use Rattle.jk_geom.specs.Rectangles.{IsArea};
ghost use Rattle.jk_wave.specs.climbing.Held.{rows_between};
ghost use Rattle.jk_tile.specs.TileMeaning.{shown_area};
ghost use Rattle.jk_tile.specs.decoding.TileReading.{component_samples, tested, tile_planes_at};
ghost use Rattle.jk_tile.specs.decoding.Decoded.{AreDecoded, AreSegments};
ghost use Rattle.jk_rows.specs.Tiles.{IsWholeTile, AreTilePlanes, HasFaultIn};

use crate::taking::cut;
use jk_geom::{resolution, tile};
use jk_math::{Fault, Rect};
use jk_tile::{BlockSegment, CodedTile, DecodedBlocks, add_tile_blocks, decode_tile_of};
use std::alloc::Global;

/// Some rows of planes over a rectangle.
fn rows_of(
    alloc: Global,
    area: &Rect,
    planes: &[Vec<i32>],
    from: u32,
    to: u32,
) -> Result<Vec<Vec<i32>>, Fault>
    requires area { IsArea area.now }
    requires from { area.now.y0 ≤ from }
    requires order { from ≤ to }
    requires to { to ≤ area.now.y1 }
    requires planes { (n : ℕ) × (f : ℕ → ℕ → ℕ → ℤ) × (lists_of planes.now ≡ map (λ c. raster area.now (f c)) (range_with_len 0 n)) }
    ensures rows { IfOk result (λ v. (n : ℕ) (f : ℕ → ℕ → ℕ → ℤ)
        → lists_of planes.now ≡ map (λ c. raster area.now (f c)) (range_with_len 0 n)
        → lists_of v.items ≡ map (λ c. raster (rows_between area.now from to) (f c)) (range_with_len 0 n)) }
    ensures memory { IfErr result IsMemory }
{
    let width = (area.x1 - area.x0) as usize;
    let front = (from - area.y0) as usize * width;
    let count = (to - from) as usize * width;
    let mut rows = Vec::new(alloc);
    for c in 0..planes.len() {
        rows.push(cut(&planes[c], front, count).to_vec(alloc)?)?;
    }
    Ok(rows)
}

/// A tile that is made at once: its samples, while it has rows to give.
#[derive(Drop)]
pub(crate) struct WholeTile {
    pub(crate) planes: Option<Vec<Vec<i32>>>,
}

impl WholeTile {
    /// The samples of the tile, which are let go of.
    fn take(
        &mut self,
        alloc: Global,
        coded: &CodedTile<'_>,
        decoded: &DecodedBlocks,
    ) -> Result<Vec<Vec<i32>>, Fault>
        requires decoded { AreDecoded coded.now.bytes decoded.now }
        requires held { IsWholeTile coded.now self.old }
        ensures none { OnOk result (self.new.planes ≡ None) }
        ensures planes { IfOk result (λ v. AreTilePlanes coded.now v.items) }
        ensures cause { IfErr result (λ e. IsMemory e ⊎ HasFaultIn coded.now e) }
    {
        match self.planes.take() {
            Some(planes) => Ok(planes),
            None => decode_tile_of(alloc, coded, decoded),
        }
    }

    /// The samples of rows `from` up to `to`. A code-block among those that were decoded before isn't
    /// decoded again.
    pub(crate) fn step_of(
        &mut self,
        alloc: Global,
        coded: &CodedTile<'_>,
        from: u32,
        to: u32,
        decoded: &DecodedBlocks,
    ) -> Result<Vec<Vec<i32>>, Fault>
        requires decoded { AreDecoded coded.now.bytes decoded.now }
        requires order { from ≤ to }
        requires first { (shown_area coded.now.headers.siz coded.now.number coded.now.reduce).y0 ≤ from }
        requires last { to ≤ (shown_area coded.now.headers.siz coded.now.number coded.now.reduce).y1 }
        requires held { IsWholeTile coded.now self.old }
        ensures held { OnOk result (IsWholeTile coded.now self.new) }
        ensures rows { IfOk result (λ v. lists_of v.items ≡ map (λ c. raster
            (rows_between (shown_area coded.now.headers.siz coded.now.number coded.now.reduce) from to)
            (component_samples coded.now.bytes coded.now.headers coded.now.number coded.now.reduce coded.now.packets c))
            (range_with_len 0 coded.now.headers.siz.components)) }
        ensures fine { OnOk result (tested (tile_planes_at coded.now.bytes coded.now.headers coded.now.number
            coded.now.reduce coded.now.packets) ≡ Ok tt) }
        ensures cause { IfErr result (λ e. IsMemory e ⊎ HasFaultIn coded.now e) }
    {
        let rect = tile(coded.headers.siz(), coded.number as u32);
        let area = resolution(&rect, coded.reduce, 0);
        let planes = self.take(alloc, coded, decoded)?;
        if from == area.y0 && to == area.y1 {
            return Ok(planes);
        }
        let rows = rows_of(alloc, &area, &planes, from, to)?;
        self.planes = Some(planes);
        Ok(rows)
    }
}

/// Appends the code-blocks of a tile that is made at once, where a step begins with its first row.
pub(crate) fn add_whole_blocks(
    alloc: Global,
    coded: &CodedTile<'_>,
    from: u32,
    segments: &mut Vec<BlockSegment>,
) -> Result<(), Fault>
    ensures segments { AreSegments (length coded.now.bytes) segments.old.items
        → OnOk result (AreSegments (length coded.now.bytes) segments.new.items) }
    ensures memory { IfErr result IsMemory }
{
    let rect = tile(coded.headers.siz(), coded.number as u32);
    let area = resolution(&rect, coded.reduce, 0);
    if from != area.y0 {
        return Ok(());
    }
    add_tile_blocks(alloc, coded, segments)
}
