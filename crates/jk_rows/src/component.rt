//! A component of a tile, level upon level.

ghost use Rattle.std.specs.Prelude.{◌≡◌, ℕ, ◌+◌, ◌-◌, ◌*◌, ◌^◌, ◌<◌, ◌≤◌, ◌⊎◌, All, length, IfOk, IfErr, OnOk};
ghost use Rattle.jk_math.specs.Memory.{IsMemory};
ghost use Rattle.jk_math.specs.Raster.{raster};
ghost use Rattle.jk_math.specs.Signed.{IsBelow};
ghost use Rattle.jk_wave.specs.climbing.Held.{rows_between};
ghost use Rattle.jk_wave.specs.Resolutions.{resolution_of};
ghost use Rattle.jk_tile.specs.decoding.Decoded.{AreSegments};
ghost use Rattle.jk_tile.specs.decoding.Source.{IsSource, source_coefficient};
ghost use Rattle.jk_tile.specs.decoding.Strips.{HasFault};
ghost use Rattle.jk_rows.specs.Components.{area_at, step_rows, IsComponentRows, IsStepEnd};

use crate::ahead::add_step_blocks;
use crate::level::{LevelStep, RowLevel};
use crate::lowest::LowestRows;
use crate::taking::Rows;
use jk_math::Fault;
use jk_tile::{BlockSegment, CodedComponent};
use std::alloc::Global;
use std::mem;

/// A component of a tile between two steps.
#[derive(Drop)]
pub(crate) struct ComponentRows {
    pub(crate) lowest: LowestRows,
    /// The levels of resolution 1 and above.
    pub(crate) levels: Vec<RowLevel>,
}

impl ComponentRows {
    /// Before the first row.
    pub(crate) fn new(alloc: Global, source: &CodedComponent<'_>) -> Result<ComponentRows, Fault>
        requires source { IsSource source.now }
        ensures at { IfOk result (IsComponentRows source.now (area_at source.now source.now.region.top).y0) }
        ensures err { IfErr result (λ e. IsMemory e) }
    {
        let mut levels = Vec::new(alloc);
        for q in 0..source.region().top {
            levels.push(RowLevel::new(alloc, source, q)?)?;
        }
        Ok(ComponentRows {
            lowest: LowestRows::new(alloc, source)?,
            levels,
        })
    }

    /// The values of rows `d` up to `e` of the highest resolution.
    pub(crate) fn step(
        &mut self,
        alloc: Global,
        source: &CodedComponent<'_>,
        d: u32,
        e: u32,
    ) -> Result<Vec<i32>, Fault>
        requires source { IsSource source.now }
        requires order { d ≤ e }
        requires first { IsStepEnd (area_at source.now source.now.region.top) d }
        requires last { IsStepEnd (area_at source.now source.now.region.top) e }
        requires at { IsComponentRows source.now d self.old }
        ensures at { OnOk result (IsComponentRows source.now e self.new) }
        ensures rows { IfOk result (λ v. v.items ≡ raster (rows_between (area_at source.now source.now.region.top) d e)
            (resolution_of source.now.region.rect source.now.region.levels (source_coefficient source.now)
            source.now.region.top)) }
        ensures small { IfOk result (λ v. All (IsBelow (2 ^ 29)) v.items) }
        ensures cause { IfErr result (λ e. IsMemory e ⊎ HasFault source.now e) }
    {
        let (mut fresh, mut next) = (Vec::new(alloc), Vec::new(alloc));
        self.lowest.step(alloc, source, d, e, &mut fresh)?;
        for q in 0..source.region().top {
            let at = LevelStep {
                below: q,
                from: d,
                to: e,
            };
            self.levels[q as usize].step(alloc, source, at, &fresh, &mut next)?;
            mem::swap(&mut fresh, &mut next);
        }
        Ok(fresh)
    }

    /// Appends the code-blocks that a step reads, which makes some rows of the highest resolution.
    pub(crate) fn add_blocks(
        &self,
        alloc: Global,
        source: &CodedComponent<'_>,
        rows: Rows,
        segments: &mut Vec<BlockSegment>,
    ) -> Result<(), Fault>
        requires source { IsSource source.now }
        requires at { (d : ℕ) × IsComponentRows source.now d self.now }
        requires from { rows.from < 2 ^ 31 }
        requires to { rows.to < 2 ^ 31 }
        ensures segments { AreSegments (length source.now.bytes) segments.old.items
            → OnOk result (AreSegments (length source.now.bytes) segments.new.items) }
        ensures memory { IfErr result IsMemory }
    {
        add_step_blocks(alloc, source, &self.lowest.chains, 0, rows, segments)?;
        for q in 0..source.region().top {
            let chains = &self.levels[q as usize].chains;
            add_step_blocks(alloc, source, chains, q + 1, rows, segments)?;
        }
        Ok(())
    }
}
