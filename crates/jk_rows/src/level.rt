//! A level that climbs, with the strips of its sub-bands.

ghost use Rattle.std.specs.Prelude.{◌≡◌, ℕ, ℤ, ◌+◌, ◌-◌, ◌*◌, ◌/◌, ◌%◌, ◌^◌, ◌<◌, ◌≤◌, ◌⊎◌, ◌++◌, [], length, IfOk, IfErr, OnOk};
ghost use Rattle.jk_math.specs.Memory.{IsMemory};
ghost use Rattle.jk_math.specs.Raster.{raster};
ghost use Rattle.jk_math.specs.declared.rect.Rect.{Rect as Place};
ghost use Rattle.jk_wave.specs.Levels.{half_bound};
ghost use Rattle.jk_wave.specs.Resolutions.{resolution_of};
ghost use Rattle.jk_wave.specs.climbing.Held.{rows_between};
ghost use Rattle.jk_wave.specs.climbing.Intervals.{rows_reached};
ghost use Rattle.jk_wave.specs.climbing.Standing.{AreHigh, ShowHigh};
ghost use Rattle.jk_tile.specs.decoding.Source.{IsSource, source_coefficient};
ghost use Rattle.jk_tile.specs.decoding.Strips.{block_exponent, strip_area, IsStrip, IsRowFine, HasFault};
ghost use Rattle.jk_rows.specs.Components.{area_at, step_rows, cell_exponent, AreChains};
ghost use Rattle.jk_rows.specs.Components.{strip_in, HasRow, StandsBefore, WaitsUpto, IsRowLevel};

use crate::taking::{Rows, cell_end, chains, is_first, taken};
use jk_geom::resolution;
use jk_math::Fault;
use jk_tile::{BlockRow, CodedComponent, PacketChains, block_exponent, read_strip, strip_area};
use jk_wave::{ClimbingLevel, GivenRows, HighRows};
use std::alloc::Global;

/// A level of a component, with the packets of its resolution, and of each of its sub-bands the
/// strip of code-blocks in which the next row stands.
#[derive(Drop)]
pub(crate) struct RowLevel {
    pub(crate) level: ClimbingLevel,
    pub(crate) chains: PacketChains,
    pub(crate) hl: Vec<i32>,
    pub(crate) lh: Vec<i32>,
    pub(crate) hh: Vec<i32>,
}

/// A step of the level above resolution `below`: the rows of the highest resolution from one up to
/// another.
#[derive(Clone, Copy)]
pub(crate) struct LevelStep {
    pub(crate) below: u8,
    pub(crate) from: u32,
    pub(crate) to: u32,
}

/// No row of the sub-bands of a level that stands before row `v`.
fn none_before<'a>(v: u32) -> HighRows<'a>
    ensures are { (a : Place) → AreHigh a v v result }
    ensures show { (a : Place) (bands : ℕ → ℕ → ℕ → ℤ) → ShowHigh a v v bands result }
{
    let none: &[i32] = &[];
    let hl = GivenRows {
        from: v / 2 + v % 2,
        values: none,
    };
    let lh = GivenRows {
        from: v / 2,
        values: none,
    };
    HighRows { hl, lh, hh: lh }
}

/// The rows that the strips of row `row` of the code-blocks have.
fn high_rows<'a>(
    source: &CodedComponent<'_>,
    q: u8,
    row: u32,
    hl: &'a [i32],
    lh: &'a [i32],
    hh: &'a [i32],
) -> HighRows<'a>
    requires source { IsSource source.now }
    requires q { q < source.now.region.top }
    requires small { row * 2 ^ block_exponent source.now.coding (q + 1) < 2 ^ 31 }
    ensures hl { (result.hl.from ≡ (strip_area source.now (record { resolution = q + 1; band = 0; row = row })).y0)
        × (result.hl.values.now ≡ hl.now) }
    ensures lh { (result.lh.from ≡ (strip_area source.now (record { resolution = q + 1; band = 1; row = row })).y0)
        × (result.lh.values.now ≡ lh.now) }
    ensures hh { (result.hh.from ≡ (strip_area source.now (record { resolution = q + 1; band = 2; row = row })).y0)
        × (result.hh.values.now ≡ hh.now) }
{
    let first = BlockRow {
        resolution: q + 1,
        band: 0,
        row,
    };
    let second = BlockRow { band: 1, ..first };
    let third = BlockRow { band: 2, ..first };
    HighRows {
        hl: GivenRows {
            from: strip_area(source, first).y0,
            values: hl,
        },
        lh: GivenRows {
            from: strip_area(source, second).y0,
            values: lh,
        },
        hh: GivenRows {
            from: strip_area(source, third).y0,
            values: hh,
        },
    }
}

impl RowLevel {
    /// The level of resolution `q + 1` before its first row.
    pub(crate) fn new(alloc: Global, source: &CodedComponent<'_>, q: u8) -> Result<RowLevel, Fault>
        requires source { IsSource source.now }
        requires q { q < source.now.region.top }
        ensures at { IfOk result (IsRowLevel source.now (area_at source.now source.now.region.top).y0 q) }
        ensures err { IfErr result (λ e. IsMemory e) }
    {
        let area = resolution(&source.rect(), source.region().levels, q + 1);
        Ok(RowLevel {
            level: ClimbingLevel::new(alloc, &area)?,
            chains: chains(alloc, source, q + 1)?,
            hl: Vec::new(alloc),
            lh: Vec::new(alloc),
            hh: Vec::new(alloc),
        })
    }

    /// Decodes the code-blocks of a row of the three sub-bands.
    fn fill(
        &mut self,
        alloc: Global,
        source: &CodedComponent<'_>,
        q: u8,
        row: u32,
    ) -> Result<(), Fault>
        requires source { IsSource source.now }
        requires q { q < source.now.region.top }
        requires chains { AreChains source.now (q + 1) self.old.chains }
        requires small { row * 2 ^ block_exponent source.now.coding (q + 1) < 2 ^ 31 }
        ensures same { (self.new.level ≡ self.old.level) × (self.new.chains ≡ self.old.chains) }
        ensures strips { OnOk result ((i : ℕ) → i < 3
            → IsStrip source.now (record { resolution = q + 1; band = i; row = row }) (strip_in self.new i)) }
        ensures fine { OnOk result ((i : ℕ) → i < 3
            → IsRowFine source.now (record { resolution = q + 1; band = i; row = row })) }
        ensures cause { IfErr result (λ e. IsMemory e ⊎ HasFault source.now e) }
    {
        let hl = BlockRow {
            resolution: q + 1,
            band: 0,
            row,
        };
        read_strip(alloc, source, &self.chains, hl, &mut self.hl)?;
        let lh = BlockRow { band: 1, ..hl };
        read_strip(alloc, source, &self.chains, lh, &mut self.lh)?;
        let hh = BlockRow { band: 2, ..hl };
        read_strip(alloc, source, &self.chains, hh, &mut self.hh)
    }

    /// Makes sure that the strips are of the row of code-blocks in which row `v` stands, the next one
    /// of the resolution.
    fn ready(
        &mut self,
        alloc: Global,
        source: &CodedComponent<'_>,
        q: u8,
        v: u32,
    ) -> Result<(), Fault>
        requires source { IsSource source.now }
        requires q { q < source.now.region.top }
        requires stands { StandsBefore source.now q v self.old }
        requires inside { v < (area_at source.now (q + 1)).y1 }
        ensures same { (self.new.level ≡ self.old.level) × (self.new.chains ≡ self.old.chains) }
        ensures strips { OnOk result
            (HasRow source.now q (v / 2 ^ (block_exponent source.now.coding (q + 1) + 1)) self.new) }
        ensures fine { OnOk result ((v ≡ (area_at source.now (q + 1)).y0)
            ⊎ (v % 2 ^ (block_exponent source.now.coding (q + 1) + 1) ≡ 0) → (i : ℕ) → i < 3
            → IsRowFine source.now (record {
              resolution = q + 1;
              band = i;
              row = v / 2 ^ (block_exponent source.now.coding (q + 1) + 1);
            })) }
        ensures cause { IfErr result (λ e. IsMemory e ⊎ HasFault source.now e) }
    {
        let exponent = block_exponent(source.coding(), q + 1) + 1;
        let area = resolution(&source.rect(), source.region().levels, q + 1);
        if is_first(&area, v, exponent) {
            return self.fill(alloc, source, q, v >> exponent);
        }
        Ok(())
    }

    /// Takes rows of coefficients that stand in one row of code-blocks.
    fn take(
        &mut self,
        alloc: Global,
        source: &CodedComponent<'_>,
        q: u8,
        rows: Rows,
        out: &mut Vec<i32>,
    ) -> Result<(), Fault>
        requires source { IsSource source.now }
        requires q { q < source.now.region.top }
        requires stands { StandsBefore source.now q rows.from self.old }
        requires cell { rows.to ≤ (rows.from / 2 ^ cell_exponent source.now.coding (q + 1) + 1)
            * 2 ^ cell_exponent source.now.coding (q + 1) }
        requires order { rows.from < rows.to }
        requires to { rows.to ≤ (area_at source.now (q + 1)).y1 }
        requires pairs { (area_at source.now (q + 1)).y0 < rows.to → rows.to < (area_at source.now (q + 1)).y1
            → rows.to % 2 ≡ 0 }
        requires waits { (m : ℕ) × WaitsUpto source.now q m self.old × (half_bound rows.to 0 ≤ m) }
        ensures stands { OnOk result (StandsBefore source.now q rows.to self.new) }
        ensures samples { OnOk result ((m : ℕ) → WaitsUpto source.now q m self.old
            → half_bound rows.to 0 ≤ m → WaitsUpto source.now q m self.new
            × (out.new.items ≡ out.old.items ++ raster (rows_between (area_at source.now (q + 1))
            (rows_reached (area_at source.now (q + 1)) rows.from) (rows_reached (area_at source.now (q + 1)) rows.to))
            (resolution_of source.now.region.rect source.now.region.levels (source_coefficient source.now) (q + 1)))) }
        ensures cause { IfErr result (λ e. IsMemory e ⊎ HasFault source.now e) }
    {
        self.ready(alloc, source, q, rows.from)?;
        let exponent = block_exponent(source.coding(), q + 1) + 1;
        let row = rows.from >> exponent;
        let high = high_rows(source, q, row, &self.hl, &self.lh, &self.hh);
        self.level.step(&high, &[], rows.to, out)
    }

    /// Takes all rows of coefficients from one up to another, a row of code-blocks at a time.
    fn take_all(
        &mut self,
        alloc: Global,
        source: &CodedComponent<'_>,
        q: u8,
        rows: Rows,
        out: &mut Vec<i32>,
    ) -> Result<(), Fault>
        requires source { IsSource source.now }
        requires q { q < source.now.region.top }
        requires stands { StandsBefore source.now q rows.from self.old }
        requires order { rows.from ≤ rows.to }
        requires to { rows.to ≤ (area_at source.now (q + 1)).y1 }
        requires pairs { (area_at source.now (q + 1)).y0 < rows.to → rows.to < (area_at source.now (q + 1)).y1
            → rows.to % 2 ≡ 0 }
        requires waits { (m : ℕ) × WaitsUpto source.now q m self.old × (half_bound rows.to 0 ≤ m) }
        ensures stands { OnOk result (StandsBefore source.now q rows.to self.new) }
        ensures samples { OnOk result ((m : ℕ) → WaitsUpto source.now q m self.old
            → half_bound rows.to 0 ≤ m → WaitsUpto source.now q m self.new
            × (out.new.items ≡ out.old.items ++ raster (rows_between (area_at source.now (q + 1))
            (rows_reached (area_at source.now (q + 1)) rows.from) (rows_reached (area_at source.now (q + 1)) rows.to))
            (resolution_of source.now.region.rect source.now.region.levels (source_coefficient source.now) (q + 1)))) }
        ensures cause { IfErr result (λ e. IsMemory e ⊎ HasFault source.now e) }
    {
        let exponent = block_exponent(source.coding(), q + 1) + 1;
        let mut from = rows.from;
        while from < rows.to {
            let to = cell_end(from, rows.to, exponent);
            self.take(alloc, source, q, Rows { from, to }, out)?;
            from = to;
        }
        Ok(())
    }

    /// Takes the rows that were made of the resolution below, `fresh`, and the rows of coefficients
    /// that a step needs, and puts the samples that are made of them into `out`.
    pub(crate) fn step(
        &mut self,
        alloc: Global,
        source: &CodedComponent<'_>,
        at: LevelStep,
        fresh: &[i32],
        out: &mut Vec<i32>,
    ) -> Result<(), Fault>
        requires source { IsSource source.now }
        requires q { at.below < source.now.region.top }
        requires order { at.from ≤ at.to }
        requires to { at.to ≤ (area_at source.now source.now.region.top).y1 }
        requires at { IsRowLevel source.now at.from at.below self.old }
        requires fresh { fresh.now ≡ step_rows source.now at.from at.to at.below }
        ensures at { OnOk result (IsRowLevel source.now at.to at.below self.new) }
        ensures rows { OnOk result (out.new.items ≡ step_rows source.now at.from at.to (at.below + 1)) }
        ensures cause { IfErr result (λ e. IsMemory e ⊎ HasFault source.now e) }
    {
        let q = at.below;
        let rows = Rows {
            from: taken(source, q + 1, at.from),
            to: taken(source, q + 1, at.to),
        };
        out.clear();
        self.level
            .step(&none_before(rows.from), fresh, rows.from, out)?;
        self.take_all(alloc, source, q, rows, out)
    }
}
