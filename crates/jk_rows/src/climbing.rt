//! A tile whose components climb side by side.

ghost use Rattle.std.specs.Prelude.{◌≡◌, ℕ, ◌-◌, ◌^◌, ◌<◌, ◌≤◌, ◌⊎◌, length, map, All, Ok, IfOk, IfErr, OnOk};
ghost use Rattle.std.specs.List.{range_with_len};
ghost use Rattle.jk_math.specs.Memory.{IsMemory};
ghost use Rattle.jk_math.specs.Lists.{lists_of, list_at};
ghost use Rattle.jk_math.specs.Signed.{IsBelow};
ghost use Rattle.jk_math.specs.declared.rect.Rect.{Rect as Place};
ghost use Rattle.jk_math.specs.Raster.{raster};
ghost use Rattle.jk_wave.specs.climbing.Held.{rows_between};
ghost use Rattle.jk_tile.specs.TileMeaning.{shown_area};
ghost use Rattle.jk_tile.specs.decoding.TileReading.{component_values, component_samples, tested, tile_planes_at};
ghost use Rattle.jk_tile.specs.decoding.Source.{IsSource};
ghost use Rattle.jk_tile.specs.decoding.Decoded.{AreDecoded, AreSegments};
ghost use Rattle.jk_rows.specs.Components.{area_at, IsComponentRows, IsStepEnd};
ghost use Rattle.jk_rows.specs.Tiles.{component_in, IsClimbingTile, HasFaultBelow};

use crate::component::ComponentRows;
use crate::taking::Rows;
use jk_geom::{resolution, tile};
use jk_math::Fault;
use jk_tile::{BlockSegment, CodedComponent, CodedTile, DecodedBlocks, all_to_samples, uncolour};
use jk_wave::Region;
use std::alloc::Global;

/// How many components a tile has.
fn component_count(coded: &CodedTile<'_>) -> u8
    ensures { result ≡ coded.now.headers.siz.components }
{
    coded.headers.siz().components as u8
}

/// The component of a tile with this number, and code-blocks that were decoded before.
fn component<'a>(coded: &CodedTile<'a>, c: u8, decoded: &'a DecodedBlocks) -> CodedComponent<'a>
    requires c { c < coded.now.headers.siz.components }
    requires decoded { AreDecoded coded.now.bytes decoded.now }
    ensures value { result ≡ component_in coded.now c }
    ensures source { IsSource result }
    ensures top { area_at result result.region.top
        ≡ shown_area coded.now.headers.siz coded.now.number coded.now.reduce }
{
    let headers = coded.headers;
    let rect = tile(headers.siz(), coded.number as u32);
    let coding = &headers.codings(coded.number).as_slice()[c as usize];
    let region = Region {
        rect,
        levels: coding.levels,
        top: coding.levels - coded.reduce,
        area: resolution(&rect, coded.reduce, 0),
    };
    CodedComponent::new(coded.bytes, region, coding, coded.packets, c, decoded)
}

/// Makes samples of the values of all components: colours, and the sign and depth of the image.
fn finish(alloc: Global, coded: &CodedTile<'_>, values: &mut Vec<Vec<i32>>)
    requires values { (a : Place) × (lists_of values.old.items ≡ map (λ c. raster a
        (component_values coded.now.bytes coded.now.headers coded.now.number coded.now.reduce coded.now.packets c))
        (range_with_len 0 coded.now.headers.siz.components)) }
    requires small { (c : ℕ) → All (IsBelow (2 ^ 29)) (list_at values.old.items c) }
    ensures { (a : Place) → lists_of values.old.items ≡ map (λ c. raster a
        (component_values coded.now.bytes coded.now.headers coded.now.number coded.now.reduce coded.now.packets c))
        (range_with_len 0 coded.now.headers.siz.components)
        → lists_of values.new.items ≡ map (λ c. raster a
        (component_samples coded.now.bytes coded.now.headers coded.now.number coded.now.reduce coded.now.packets c))
        (range_with_len 0 coded.now.headers.siz.components) }
{
    let headers = coded.headers;
    if headers.cod(coded.number).colour {
        uncolour(alloc, values);
    }
    all_to_samples(headers.siz(), values);
}

/// Appends the code-blocks of a component that a step reads.
fn add_component_blocks(
    alloc: Global,
    coded: &CodedTile<'_>,
    c: u8,
    own: &ComponentRows,
    rows: Rows,
    none: &DecodedBlocks,
    segments: &mut Vec<BlockSegment>,
) -> Result<(), Fault>
    requires none { AreDecoded coded.now.bytes none.now }
    requires c { c < coded.now.headers.siz.components }
    requires at { (d : ℕ) × IsComponentRows (component_in coded.now c) d own.now }
    requires from { rows.from < 2 ^ 31 }
    requires to { rows.to < 2 ^ 31 }
    ensures segments { AreSegments (length coded.now.bytes) segments.old.items
        → OnOk result (AreSegments (length coded.now.bytes) segments.new.items) }
    ensures memory { IfErr result IsMemory }
{
    let source = component(coded, c, none);
    own.add_blocks(alloc, &source, rows, segments)
}

/// A tile whose samples are made row by row: the code-blocks of a row are decoded when the first of
/// its rows is asked for, and nothing is decoded or lifted twice.
#[derive(Drop)]
pub(crate) struct ClimbingTile {
    pub(crate) components: Vec<ComponentRows>,
}

impl ClimbingTile {
    /// Before the first row.
    pub(crate) fn new(alloc: Global, coded: &CodedTile<'_>) -> Result<ClimbingTile, Fault>
        ensures at { IfOk result (IsClimbingTile coded.now (shown_area coded.now.headers.siz coded.now.number coded.now.reduce).y0) }
        ensures err { IfErr result (λ e. IsMemory e) }
    {
        let none = DecodedBlocks::none(alloc);
        let mut components = Vec::new(alloc);
        for c in 0..component_count(coded) {
            let source = component(coded, c, &none);
            components.push(ComponentRows::new(alloc, &source)?)?;
        }
        Ok(ClimbingTile { components })
    }

    /// The values of rows `from` up to `to` of all components.
    fn step_values(
        &mut self,
        alloc: Global,
        coded: &CodedTile<'_>,
        from: u32,
        to: u32,
        decoded: &DecodedBlocks,
    ) -> Result<Vec<Vec<i32>>, Fault>
        requires decoded { AreDecoded coded.now.bytes decoded.now }
        requires order { from ≤ to }
        requires first { IsStepEnd (shown_area coded.now.headers.siz coded.now.number coded.now.reduce) from }
        requires last { IsStepEnd (shown_area coded.now.headers.siz coded.now.number coded.now.reduce) to }
        requires at { IsClimbingTile coded.now from self.old }
        ensures at { OnOk result (IsClimbingTile coded.now to self.new) }
        ensures rows { IfOk result (λ v. lists_of v.items ≡ map (λ c. raster
            (rows_between (shown_area coded.now.headers.siz coded.now.number coded.now.reduce) from to)
            (component_values coded.now.bytes coded.now.headers coded.now.number coded.now.reduce coded.now.packets c))
            (range_with_len 0 coded.now.headers.siz.components)) }
        ensures small { IfOk result (λ v. (c : ℕ) → All (IsBelow (2 ^ 29)) (list_at v.items c)) }
        ensures fine { to ≡ (shown_area coded.now.headers.siz coded.now.number coded.now.reduce).y1
            → OnOk result (tested (tile_planes_at coded.now.bytes coded.now.headers coded.now.number coded.now.reduce
            coded.now.packets) ≡ Ok tt) }
        ensures cause { IfErr result (λ e. IsMemory e ⊎ HasFaultBelow coded.now e) }
    {
        let mut values = Vec::new(alloc);
        for c in 0..component_count(coded) {
            let source = component(coded, c, decoded);
            values.push(self.components[c as usize].step(alloc, &source, from, to)?)?;
        }
        Ok(values)
    }

    /// The samples of rows `from` up to `to`. A code-block among those that were decoded before isn't
    /// decoded again.
    pub(crate) fn step_of(
        &mut self,
        alloc: Global,
        coded: &CodedTile<'_>,
        from: u32,
        to: u32,
        decoded: &DecodedBlocks,
    ) -> Result<Vec<Vec<i32>>, Fault>
        requires decoded { AreDecoded coded.now.bytes decoded.now }
        requires order { from ≤ to }
        requires first { IsStepEnd (shown_area coded.now.headers.siz coded.now.number coded.now.reduce) from }
        requires last { IsStepEnd (shown_area coded.now.headers.siz coded.now.number coded.now.reduce) to }
        requires at { IsClimbingTile coded.now from self.old }
        ensures at { OnOk result (IsClimbingTile coded.now to self.new) }
        ensures rows { IfOk result (λ v. lists_of v.items ≡ map (λ c. raster
            (rows_between (shown_area coded.now.headers.siz coded.now.number coded.now.reduce) from to)
            (component_samples coded.now.bytes coded.now.headers coded.now.number coded.now.reduce coded.now.packets c))
            (range_with_len 0 coded.now.headers.siz.components)) }
        // Behind the last row no code-block of the tile has a fault.
        ensures fine { to ≡ (shown_area coded.now.headers.siz coded.now.number coded.now.reduce).y1
            → OnOk result (tested (tile_planes_at coded.now.bytes coded.now.headers coded.now.number coded.now.reduce
            coded.now.packets) ≡ Ok tt) }
        ensures cause { IfErr result (λ e. IsMemory e ⊎ HasFaultBelow coded.now e) }
    {
        let mut values = self.step_values(alloc, coded, from, to, decoded)?;
        finish(alloc, coded, &mut values);
        Ok(values)
    }

    /// Appends the code-blocks that the step from row `from` up to row `to` reads.
    pub(crate) fn add_blocks(
        &self,
        alloc: Global,
        coded: &CodedTile<'_>,
        from: u32,
        to: u32,
        segments: &mut Vec<BlockSegment>,
    ) -> Result<(), Fault>
        requires at { (d : ℕ) × IsClimbingTile coded.now d self.now }
        requires from { from < 2 ^ 31 }
        requires to { to < 2 ^ 31 }
        ensures segments { AreSegments (length coded.now.bytes) segments.old.items
            → OnOk result (AreSegments (length coded.now.bytes) segments.new.items) }
        ensures memory { IfErr result IsMemory }
    {
        let none = DecodedBlocks::none(alloc);
        let rows = Rows { from, to };
        for c in 0..component_count(coded) {
            let component = &self.components[c as usize];
            add_component_blocks(alloc, coded, c, component, rows, &none, segments)?;
        }
        Ok(())
    }
}
