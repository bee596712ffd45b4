//! The lowest resolution, which is one sub-band.

ghost use Rattle.std.specs.Prelude.{◌≡◌, ℕ, ◌+◌, ◌-◌, ◌*◌, ◌/◌, ◌%◌, ◌^◌, ◌<◌, ◌≤◌, ◌⊎◌, ◌++◌, IfOk, IfErr, OnOk};
ghost use Rattle.jk_math.specs.Memory.{IsMemory};
ghost use Rattle.jk_math.specs.Raster.{raster};
ghost use Rattle.jk_wave.specs.climbing.Held.{rows_between};
ghost use Rattle.jk_wave.specs.Resolutions.{resolution_of};
ghost use Rattle.jk_tile.specs.decoding.Source.{IsSource, source_coefficient};
ghost use Rattle.jk_tile.specs.decoding.Strips.{block_exponent, IsStrip, IsRowFine, HasFault};
ghost use Rattle.jk_rows.specs.Components.{area_at, step_rows, cell_exponent, AreBlocksAt, IsLowest};

use crate::taking::{Rows, cell_end, chains, cut, is_first, taken};
use jk_geom::resolution;
use jk_math::Fault;
use jk_tile::{BlockRow, CodedComponent, PacketChains, block_exponent, read_strip, strip_area};
use std::alloc::Global;

/// The lowest resolution of a component, with its packets, and the strip of code-blocks in which
/// the next row stands.
#[derive(Drop)]
pub(crate) struct LowestRows {
    pub(crate) chains: PacketChains,
    pub(crate) strip: Vec<i32>,
}

impl LowestRows {
    /// Before the first row.
    pub(crate) fn new(alloc: Global, source: &CodedComponent<'_>) -> Result<LowestRows, Fault>
        requires source { IsSource source.now }
        ensures at { IfOk result (IsLowest source.now (area_at source.now source.now.region.top).y0) }
        ensures err { IfErr result (λ e. IsMemory e) }
    {
        Ok(LowestRows {
            chains: chains(alloc, source, 0)?,
            strip: Vec::new(alloc),
        })
    }

    /// Makes sure that the strip is of the row of code-blocks in which row `v` stands, the next one.
    fn ready(&mut self, alloc: Global, source: &CodedComponent<'_>, v: u32) -> Result<(), Fault>
        requires source { IsSource source.now }
        requires blocks { AreBlocksAt source.now 0 v self.old.chains (λ i. self.old.strip.items) }
        requires from { (area_at source.now 0).y0 ≤ v }
        requires inside { v < (area_at source.now 0).y1 }
        ensures same { self.new.chains ≡ self.old.chains }
        ensures strip { OnOk result (IsStrip source.now (record {
          resolution = 0;
          band = 0;
          row = v / 2 ^ block_exponent source.now.coding 0;
        }) self.new.strip.items) }
        ensures fine { OnOk result ((v ≡ (area_at source.now 0).y0) ⊎ (v % 2 ^ block_exponent source.now.coding 0 ≡ 0)
            → IsRowFine source.now (record {
              resolution = 0;
              band = 0;
              row = v / 2 ^ block_exponent source.now.coding 0;
            })) }
        ensures cause { IfErr result (λ e. IsMemory e ⊎ HasFault source.now e) }
    {
        let exponent = block_exponent(source.coding(), 0);
        let area = resolution(&source.rect(), source.region().levels, 0);
        if is_first(&area, v, exponent) {
            let at = BlockRow {
                resolution: 0,
                band: 0,
                row: v >> exponent,
            };
            return read_strip(alloc, source, &self.chains, at, &mut self.strip);
        }
        Ok(())
    }

    /// Gives rows that stand in one row of code-blocks.
    fn give(
        &mut self,
        alloc: Global,
        source: &CodedComponent<'_>,
        rows: Rows,
        out: &mut Vec<i32>,
    ) -> Result<(), Fault>
        requires source { IsSource source.now }
        requires blocks { AreBlocksAt source.now 0 rows.from self.old.chains (λ i. self.old.strip.items) }
        requires from { (area_at source.now 0).y0 ≤ rows.from }
        requires order { rows.from < rows.to }
        requires to { rows.to ≤ (area_at source.now 0).y1 }
        requires cell { rows.to ≤ (rows.from / 2 ^ cell_exponent source.now.coding 0 + 1)
            * 2 ^ cell_exponent source.now.coding 0 }
        ensures blocks { OnOk result (AreBlocksAt source.now 0 rows.to self.new.chains (λ i. self.new.strip.items)) }
        ensures rows { OnOk result (out.new.items ≡ out.old.items
            ++ raster (rows_between (area_at source.now 0) rows.from rows.to)
            (resolution_of source.now.region.rect source.now.region.levels (source_coefficient source.now) 0)) }
        ensures cause { IfErr result (λ e. IsMemory e ⊎ HasFault source.now e) }
    {
        self.ready(alloc, source, rows.from)?;
        let at = BlockRow {
            resolution: 0,
            band: 0,
            row: rows.from >> block_exponent(source.coding(), 0),
        };
        let area = resolution(&source.rect(), source.region().levels, 0);
        let width = (area.x1 - area.x0) as usize;
        let first = strip_area(source, at).y0;
        let front = (rows.from - first) as usize * width;
        let count = (rows.to - rows.from) as usize * width;
        Ok(out.extend_from_slice(cut(&self.strip, front, count))?)
    }

    /// Puts the rows that are needed where the highest resolution is made from row `d` up to row
    /// `e` into `out`.
    pub(crate) fn step(
        &mut self,
        alloc: Global,
        source: &CodedComponent<'_>,
        d: u32,
        e: u32,
        out: &mut Vec<i32>,
    ) -> Result<(), Fault>
        requires source { IsSource source.now }
        requires order { d ≤ e }
        requires d { (area_at source.now source.now.region.top).y0 ≤ d }
        requires e { e ≤ (area_at source.now source.now.region.top).y1 }
        requires at { IsLowest source.now d self.old }
        ensures at { OnOk result (IsLowest source.now e self.new) }
        ensures rows { OnOk result (out.new.items ≡ step_rows source.now d e 0) }
        ensures cause { IfErr result (λ e. IsMemory e ⊎ HasFault source.now e) }
    {
        out.clear();
        let exponent = block_exponent(source.coding(), 0);
        let end = taken(source, 0, e);
        let mut from = taken(source, 0, d);
        while from < end {
            let to = cell_end(from, end, exponent);
            self.give(alloc, source, Rows { from, to }, out)?;
            from = to;
        }
        Ok(())
    }
}
