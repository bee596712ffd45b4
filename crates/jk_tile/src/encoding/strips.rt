//! The code-blocks of a sub-band whose rows come one after another. The rows of a row of code-blocks
//! wait in a list; with the last of them its code-blocks are cut out, coded and cut into layers, and
//! the list begins anew. Or the whole row of code-blocks waits, until workers have coded what it
//! has. What is coded is kept by precinct.

ghost use Rattle.std.specs.Prelude.{◌≡◌, ℕ, ℤ, ◌+◌, ◌-◌, ◌*◌, ◌/◌, ◌%◌, ◌^◌, ◌<◌, ◌≤◌, ◌||◌, ◌==◌, nat_le, [], length, take, drop};
ghost use Rattle.std.specs.Prelude.{All, unsigned_abs, IfOk, IfErr, OnOk};
ghost use Rattle.jk_math.specs.Memory.{IsMemory};
ghost use Rattle.jk_math.specs.Raster.{columns_of, raster};
ghost use Rattle.jk_wave.specs.climbing.Held.{rows_between};
ghost use Rattle.jk_walk.specs.TilePackets.{orientations, band_number};
ghost use Rattle.jk_tile.specs.encoding.Ahead.{AreUncoded, IsCodedAhead};
ghost use Rattle.jk_tile.specs.encoding.Strips.{ComponentFrame, band_at, own_band};
ghost use Rattle.jk_tile.specs.decoding.Strips.{block_exponent};
ghost use Rattle.jk_tile.specs.encoding.Strips.{row_end, HoldsRows, IsBetweenRows, HasRowsOf};

use crate::bands::orientation;
use crate::decoding::block_exponent;
use crate::encoding::ahead::{CodedBlocks, UncodedBlocks};
use crate::encoding::component::WrittenComponent;
use crate::encoding::cutting::cut;
use crate::encoding::lists::add_lists;
use crate::encoding::row_coding::{Strip, code_strip, list_strip};
use crate::encoding::tables::LayeredBlock;
use jk_block::top_bits;
use jk_geom::{band, precinct_count};
use jk_math::{Fault, Rect};
use std::alloc::Global;
use std::mem;

/// When a row of code-blocks is coded of which no row is missing any more.
#[derive(Clone, Copy)]
pub enum When {
    /// With the last of its rows.
    Now,
    /// When it is asked for.
    Later,
}

/// Whether row `y` of a sub-band is the first of a row of code-blocks, which are `2^exponent` high, or
/// stands behind the last row.
fn is_start(area: &Rect, y: u32, exponent: u8) -> bool
    requires { exponent ≤ 10 }
    ensures { result ≡ (nat_le area.now.y1 y || (y % 2 ^ exponent == 0)) }
{
    area.y1 <= y || y % (1u32 << exponent) == 0
}

/// Where the row of code-blocks of row `y` ends, which is `2^exponent` high, or row `to` above that.
fn row_end(y: u32, exponent: u8, to: u32) -> u32
    requires more { y < to }
    requires few { to < 2 ^ 31 }
    requires exponent { exponent ≤ 10 }
    ensures more { y < result }
    ensures to { result ≤ to }
    ensures within { result ≤ (y / 2 ^ exponent + 1) * 2 ^ exponent }
{
    let height = 1u32 << exponent;
    (y - y % height + height).min(to)
}

/// Makes a list that is done with room for the numbers that come, where there are none yet, and else for
/// those of the list behind it, which is `next`.
fn keep_room(numbers: &mut Vec<i32>, next: &mut Vec<i32>, room: Vec<i32>)
    ensures { numbers.new.items ≡ numbers.old.items }
{
    if numbers.is_empty() {
        *numbers = room;
        numbers.clear();
    } else {
        *next = room;
    }
}

/// A row of code-blocks that waits: its rectangle, which is as wide as the sub-band, and the
/// coefficients there, row by row.
#[derive(Drop)]
pub(crate) struct WaitingRow {
    pub(crate) area: Rect,
    pub(crate) values: Vec<i32>,
}

/// A sub-band between two of its rows.
#[derive(Drop)]
pub(crate) struct BandStrips {
    /// It is sub-band `band` of this resolution, in the order of its packets.
    pub(crate) resolution: u8,
    pub(crate) band: u8,
    /// Its code-blocks above this row are coded.
    pub(crate) top: u32,
    /// The rows of code-blocks from there on of which no row is missing.
    pub(crate) waiting: Vec<WaitingRow>,
    /// The rectangle of the rows that wait below: the row below it is next.
    pub(crate) area: Rect,
    /// The coefficients there, row by row.
    pub(crate) strip: Vec<i32>,
    /// Room for the coefficients of the rows below those.
    pub(crate) room: Vec<i32>,
    /// The code-blocks that are coded, precinct by precinct.
    pub(crate) blocks: Vec<Vec<LayeredBlock>>,
    /// How many bits the greatest magnitude of all rows has.
    pub(crate) bits: u8,
}

impl BandStrips {
    /// Sub-band `i` of resolution `r` before its first row.
    pub(crate) fn new(
        alloc: Global,
        source: &WrittenComponent<'_>,
        r: u8,
        i: u8,
    ) -> Result<BandStrips, Fault>
        requires r { r ≤ source.now.coding.levels }
        requires i { i < length (orientations r) }
        ensures name { IfOk result (λ b. (b.resolution ≡ r) × (b.band ≡ i)
            × (b.area.y1 ≡ (band_at source.now r i).y0)) }
        ensures holds { IfOk result (IsBetweenRows source.now) }
        ensures rows { IfOk result (λ b. (f : ℕ → ℕ → ℕ → ℤ) → HasRowsOf source.now f b) }
        ensures memory { IfErr result IsMemory }
    {
        let rect = source.rect();
        let coding = source.coding();
        let area = band(&rect, coding.levels, r, orientation(r, i));
        let (across, down) = precinct_count(&rect, coding, r);
        let height = (area.y1 - area.y0).min(1 << block_exponent(coding, r));
        let strip = Vec::with_capacity(alloc, (area.x1 - area.x0) as usize * height as usize)?;
        let mut blocks = Vec::new(alloc);
        add_lists(alloc, (across * down) as usize, &mut blocks)?;
        Ok(BandStrips {
            resolution: r,
            band: i,
            top: area.y0,
            waiting: Vec::new(alloc),
            area: Rect {
                y1: area.y0,
                ..area
            },
            strip,
            room: Vec::new(alloc),
            blocks,
            bits: 0,
        })
    }

    /// Lets the row of code-blocks wait whose rows wait, of which none is missing.
    fn wait(&mut self, alloc: Global) -> Result<(), Fault>
        ensures name { OnOk result ((self.new.resolution ≡ self.old.resolution) × (self.new.band ≡ self.old.band)
            × (self.new.area.y1 ≡ self.old.area.y1)) }
        ensures holds { OnOk result ((s : ComponentFrame) → HoldsRows s self.old → self.old.area.y0 < self.old.area.y1
            → self.old.area.y1 ≡ row_end (own_band s self.old) (block_exponent s.coding self.old.resolution) self.old.area.y0
            → IsBetweenRows s self.new) }
        ensures rows { OnOk result ((s : ComponentFrame) (f : ℕ → ℕ → ℕ → ℤ) → HasRowsOf s f self.old
            → HasRowsOf s f self.new) }
        ensures memory { IfErr result IsMemory }
    {
        let mut room = mem::replace(&mut self.room, Vec::new(alloc));
        room.clear();
        let values = mem::replace(&mut self.strip, room);
        self.waiting.push(WaitingRow {
            area: self.area,
            values,
        })?;
        self.area.y0 = self.area.y1;
        Ok(())
    }

    /// Codes the first of the rows of code-blocks that wait. Its list becomes room for the rows that
    /// come.
    fn code_first(
        &mut self,
        alloc: Global,
        source: &WrittenComponent<'_>,
        ahead: &mut CodedBlocks,
    ) -> Result<(), Fault>
        requires holds { IsBetweenRows source.now self.old }
        requires some { 0 < length self.old.waiting.items }
        requires ahead { IsCodedAhead ahead.old }
        ensures name { OnOk result ((self.new.resolution ≡ self.old.resolution) × (self.new.band ≡ self.old.band)
            × (self.new.area ≡ self.old.area)) }
        ensures less { OnOk result (length self.new.waiting.items + 1 ≡ length self.old.waiting.items) }
        ensures holds { OnOk result (IsBetweenRows source.now self.new) }
        ensures rows { OnOk result ((f : ℕ → ℕ → ℕ → ℤ) → HasRowsOf source.now f self.old
            → HasRowsOf source.now f self.new) }
        ensures ahead { OnOk result (IsCodedAhead ahead.new) }
        ensures memory { IfErr result IsMemory }
    {
        let row = self.waiting.remove(0);
        let strip = Strip {
            resolution: self.resolution,
            band: self.band,
            area: row.area,
            values: &row.values,
        };
        code_strip(alloc, source, strip, ahead, &mut self.blocks)?;
        self.top = row.area.y1;
        keep_room(&mut self.strip, &mut self.room, row.values);
        Ok(())
    }

    /// Codes so many of the rows of code-blocks that wait, from the first one on, as far as there are.
    fn code_rows(
        &mut self,
        alloc: Global,
        source: &WrittenComponent<'_>,
        count: usize,
        ahead: &mut CodedBlocks,
    ) -> Result<(), Fault>
        requires holds { IsBetweenRows source.now self.old }
        requires ahead { IsCodedAhead ahead.old }
        ensures name { OnOk result ((self.new.resolution ≡ self.old.resolution) × (self.new.band ≡ self.old.band)
            × (self.new.area ≡ self.old.area)) }
        ensures none { length self.old.waiting.items ≤ count → OnOk result (length self.new.waiting.items ≡ 0) }
        ensures holds { OnOk result (IsBetweenRows source.now self.new) }
        ensures rows { OnOk result ((f : ℕ → ℕ → ℕ → ℤ) → HasRowsOf source.now f self.old
            → HasRowsOf source.now f self.new) }
        ensures ahead { OnOk result (IsCodedAhead ahead.new) }
        ensures memory { IfErr result IsMemory }
    {
        for _ in 0..count.min(self.waiting.len()) {
            self.code_first(alloc, source, ahead)?;
        }
        Ok(())
    }

    /// Codes all rows of code-blocks that wait.
    pub(crate) fn code_all(
        &mut self,
        alloc: Global,
        source: &WrittenComponent<'_>,
    ) -> Result<(), Fault>
        requires holds { IsBetweenRows source.now self.old }
        ensures name { OnOk result ((self.new.resolution ≡ self.old.resolution) × (self.new.band ≡ self.old.band)
            × (self.new.area ≡ self.old.area)) }
        ensures none { OnOk result (length self.new.waiting.items ≡ 0) }
        ensures holds { OnOk result (IsBetweenRows source.now self.new) }
        ensures rows { OnOk result ((f : ℕ → ℕ → ℕ → ℤ) → HasRowsOf source.now f self.old
            → HasRowsOf source.now f self.new) }
        ensures memory { IfErr result IsMemory }
    {
        let count = self.waiting.len();
        self.code_rows(alloc, source, count, &mut CodedBlocks::none(alloc))
    }

    /// Codes the rows of code-blocks that were listed, from what was coded ahead.
    pub(crate) fn code_listed(
        &mut self,
        alloc: Global,
        source: &WrittenComponent<'_>,
        ahead: &mut CodedBlocks,
    ) -> Result<(), Fault>
        requires holds { IsBetweenRows source.now self.old }
        requires ahead { IsCodedAhead ahead.old }
        ensures name { OnOk result ((self.new.resolution ≡ self.old.resolution) × (self.new.band ≡ self.old.band)
            × (self.new.area ≡ self.old.area)) }
        ensures holds { OnOk result (IsBetweenRows source.now self.new) }
        ensures rows { OnOk result ((f : ℕ → ℕ → ℕ → ℤ) → HasRowsOf source.now f self.old
            → HasRowsOf source.now f self.new) }
        ensures ahead { OnOk result (IsCodedAhead ahead.new) }
        ensures memory { IfErr result IsMemory }
    {
        let count = ahead.next_rows();
        self.code_rows(alloc, source, count, ahead)
    }

    /// Lists the code-blocks of the rows of them that wait behind those that were listed before, and how
    /// many such rows there are.
    pub(crate) fn list_waiting(
        &self,
        alloc: Global,
        source: &WrittenComponent<'_>,
        before: &[usize],
        uncoded: &mut UncodedBlocks,
    ) -> Result<(), Fault>
        requires holds { IsBetweenRows source.now self.now }
        requires uncoded { AreUncoded uncoded.old }
        ensures uncoded { OnOk result (AreUncoded uncoded.new) }
        ensures memory { IfErr result IsMemory }
    {
        let listed = uncoded.next_of(before);
        for index in listed..self.waiting.len() {
            let row = &self.waiting[index];
            let strip = Strip {
                resolution: self.resolution,
                band: self.band,
                area: row.area,
                values: &row.values,
            };
            list_strip(alloc, source, strip, uncoded)?;
        }
        uncoded
            .rows
            .push(self.waiting.len().saturating_sub(listed))?;
        Ok(())
    }

    /// Codes the row of code-blocks whose rows wait, or lets it wait. None of its rows is missing.
    fn end_row(
        &mut self,
        alloc: Global,
        source: &WrittenComponent<'_>,
        when: When,
    ) -> Result<(), Fault>
        requires holds { HoldsRows source.now self.old }
        requires some { self.old.area.y0 < self.old.area.y1 }
        requires whole { self.old.area.y1 ≡ row_end (own_band source.now self.old)
            (block_exponent source.now.coding self.old.resolution) self.old.area.y0 }
        ensures name { OnOk result ((self.new.resolution ≡ self.old.resolution) × (self.new.band ≡ self.old.band)
            × (self.new.area.y1 ≡ self.old.area.y1)) }
        ensures holds { OnOk result (IsBetweenRows source.now self.new) }
        ensures rows { OnOk result ((f : ℕ → ℕ → ℕ → ℤ) → HasRowsOf source.now f self.old
            → HasRowsOf source.now f self.new) }
        ensures memory { IfErr result IsMemory }
    {
        self.wait(alloc)?;
        match when {
            When::Now => self.code_all(alloc, source),
            When::Later => Ok(()),
        }
    }

    /// Ends the row of code-blocks whose rows wait, where none of its rows is missing.
    fn complete(
        &mut self,
        alloc: Global,
        source: &WrittenComponent<'_>,
        when: When,
    ) -> Result<(), Fault>
        requires holds { HoldsRows source.now self.old }
        requires some { self.old.area.y0 < self.old.area.y1 }
        ensures name { OnOk result ((self.new.resolution ≡ self.old.resolution) × (self.new.band ≡ self.old.band)
            × (self.new.area.y1 ≡ self.old.area.y1)) }
        ensures holds { OnOk result (IsBetweenRows source.now self.new) }
        ensures rows { OnOk result ((f : ℕ → ℕ → ℕ → ℤ) → HasRowsOf source.now f self.old
            → HasRowsOf source.now f self.new) }
        ensures memory { IfErr result IsMemory }
    {
        let coding = source.coding();
        let orientation = orientation(self.resolution, self.band);
        let area = band(&source.rect(), coding.levels, self.resolution, orientation);
        let exponent = block_exponent(coding, self.resolution);
        if is_start(&area, self.area.y1, exponent) {
            return self.end_row(alloc, source, when);
        }
        Ok(())
    }

    /// Puts in the rows up to row `end`, which all stand in one row of code-blocks.
    fn put_rows(
        &mut self,
        alloc: Global,
        source: &WrittenComponent<'_>,
        end: u32,
        rows: &[i32],
        when: When,
    ) -> Result<(), Fault>
        requires holds { IsBetweenRows source.now self.old }
        requires some { self.old.area.y1 < end }
        requires inside { end ≤ (own_band source.now self.old).y1 }
        requires within { end ≤ (self.old.area.y1 / 2 ^ block_exponent source.now.coding self.old.resolution + 1)
            * 2 ^ block_exponent source.now.coding self.old.resolution }
        requires long { length rows.now ≡ (end - self.old.area.y1) * columns_of self.old.area }
        requires small { All (λ v. unsigned_abs v < 2 ^ 23) rows.now }
        ensures name { OnOk result ((self.new.resolution ≡ self.old.resolution) × (self.new.band ≡ self.old.band)
            × (self.new.area.y1 ≡ end)) }
        ensures holds { OnOk result (IsBetweenRows source.now self.new) }
        ensures rows { OnOk result ((f : ℕ → ℕ → ℕ → ℤ) → HasRowsOf source.now f self.old
            → rows.now ≡ raster (rows_between (own_band source.now self.old) self.old.area.y1 end)
            (f (band_number self.old.resolution self.old.band))
            → HasRowsOf source.now f self.new) }
        ensures memory { IfErr result IsMemory }
    {
        self.strip.extend_from_slice(rows)?;
        self.bits = self.bits.max(top_bits(rows) as u8);
        self.area.y1 = end;
        self.complete(alloc, source, when)
    }

    /// Puts in the rows up to row `to`, of which `rows` is the list, and codes the code-blocks of
    /// which no row is missing any more, or lets them wait. Memory is the only fault; the sub-band
    /// isn't to be used behind it.
    pub(crate) fn put(
        &mut self,
        alloc: Global,
        source: &WrittenComponent<'_>,
        to: u32,
        rows: &[i32],
        when: When,
    ) -> Result<(), Fault>
        requires holds { IsBetweenRows source.now self.old }
        requires order { self.old.area.y1 ≤ to }
        requires inside { to ≤ (own_band source.now self.old).y1 }
        requires long { length rows.now ≡ (to - self.old.area.y1) * columns_of self.old.area }
        requires small { All (λ v. unsigned_abs v < 2 ^ 23) rows.now }
        ensures name { OnOk result ((self.new.resolution ≡ self.old.resolution) × (self.new.band ≡ self.old.band)
            × (self.new.area.y1 ≡ to)) }
        ensures holds { OnOk result (IsBetweenRows source.now self.new) }
        ensures rows { OnOk result ((f : ℕ → ℕ → ℕ → ℤ) → HasRowsOf source.now f self.old
            → rows.now ≡ raster (rows_between (own_band source.now self.old) self.old.area.y1 to)
            (f (band_number self.old.resolution self.old.band))
            → HasRowsOf source.now f self.new) }
        ensures memory { IfErr result IsMemory }
    {
        let width = (self.area.x1 - self.area.x0) as usize;
        let exponent = block_exponent(source.coding(), self.resolution);
        let from = self.area.y1;
        while self.area.y1 < to {
            let y = self.area.y1;
            let end = row_end(y, exponent, to);
            let part = cut(
                rows,
                (y - from) as usize * width,
                (end - y) as usize * width,
            );
            self.put_rows(alloc, source, end, part, when)?;
        }
        Ok(())
    }
}
