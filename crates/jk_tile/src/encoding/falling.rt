//! A component of a tile whose rows of samples come one after another: they go down through the
//! levels of the wavelet, and the rows of each sub-band that are made go into its strips.

ghost use Rattle.std.specs.Prelude.{◌≡◌, ℕ, ℤ, ◌+◌, ◌-◌, ◌*◌, ◌^◌, ◌<◌, ◌≤◌, length, map, IfOk, IfErr, OnOk};
ghost use Rattle.jk_math.specs.Memory.{IsMemory};
ghost use Rattle.jk_math.specs.Raster.{raster};
ghost use Rattle.jk_wave.specs.climbing.Held.{rows_between};
ghost use Rattle.jk_wave.specs.falling.Stack.{IsGivenSmall};
ghost use Rattle.jk_walk.specs.TilePackets.{orientations};
ghost use Rattle.jk_tile.specs.TileBlocks.{band_resolution, band_index};
ghost use Rattle.jk_tile.specs.encoding.Strips.{IsFrame};
ghost use Rattle.jk_tile.specs.encoding.FallenComponents.{fallen_band, IsFallen, IsCodedOf};
ghost use Rattle.jk_tile.specs.encoding.FallingComponents.{band_fallen, AreBandsUpto, HaveRowsOf, HasMade, AreFew};
ghost use Rattle.jk_tile.specs.encoding.FallingComponents.{AreSixteen, IsStanding, HasSamples, NoneWait};
ghost use Rattle.jk_tile.specs.encoding.Ahead.{AreUncoded, IsCodedAhead};

use crate::encoding::ahead::{CodedBlocks, UncodedBlocks};
use crate::encoding::component::WrittenComponent;
use crate::encoding::fallen::{FallenBand, FallenComponent};
use crate::encoding::strips::{BandStrips, When};
use jk_geom::resolution;
use jk_math::Fault;
use jk_wave::theorems::{level_fallen, levels_fallen};
use jk_wave::{Falling, rows_fallen};
use std::alloc::Global;

/// A component of a tile between two steps of its rows.
#[derive(Drop)]
pub struct FallingComponent {
    /// The row of samples that is next.
    pub(crate) y: u32,
    /// The levels of the wavelet.
    pub(crate) falling: Falling,
    /// The sub-bands in the order of QCD.
    pub(crate) bands: Vec<BandStrips>,
}

/// How far the rows of sub-band `i` of resolution `r` are made, where the tile-component is given up
/// to row `e`.
fn rows_made(source: &WrittenComponent<'_>, e: u32, r: u8, i: u8) -> u32
    requires r { r ≤ source.now.coding.levels }
    requires i { i < length (orientations r) }
    requires e { e ≤ source.now.rect.y1 }
    ensures value { result ≡ band_fallen source.now e r i }
    ensures frame { IsFrame source.now }
{
    let rect = source.rect();
    let levels = source.coding().levels;
    let mut t = e;
    for n in 0..levels - r {
        t = (rows_fallen(&resolution(&rect, levels, levels - n), t) + 1) / 2;
    }
    if r == 0 {
        return t;
    }
    let made = rows_fallen(&resolution(&rect, levels, r), t);
    (made + 1 - (i as u32 + 1) / 2) / 2
}

/// The resolution of sub-band `b` in the order of QCD, and which of its sub-bands it is.
fn band_name(b: u8) -> (u8, u8)
    ensures resolution { result.0 ≡ band_resolution b }
    ensures band { result.1 ≡ band_index b }
{
    if b == 0 {
        return (0, 0);
    }
    ((b - 1) / 3 + 1, (b - 1) % 3)
}

/// All sub-bands of a component before their first rows, in the order of QCD.
fn first_bands(alloc: Global, source: &WrittenComponent<'_>) -> Result<Vec<BandStrips>, Fault>
    ensures bands { IfOk result (λ v. AreBandsUpto source.now source.now.rect.y0 v.items) }
    ensures rows { IfOk result (λ v. (f : ℕ → ℕ → ℕ → ℤ) → HaveRowsOf source.now f v.items) }
    ensures memory { IfErr result IsMemory }
{
    level_fallen();
    levels_fallen();
    let count = 3 * source.coding().levels + 1;
    let mut bands = Vec::with_capacity(alloc, count as usize)?;
    for b in 0..count {
        let (r, i) = band_name(b);
        bands.push(BandStrips::new(alloc, source, r, i)?)?;
    }
    Ok(bands)
}

/// Puts the rows of all sub-bands that the levels made of rows `from` up to `to` of the
/// tile-component into their strips.
fn put_all(
    alloc: Global,
    source: &WrittenComponent<'_>,
    falling: &Falling,
    from: u32,
    to: u32,
    bands: &mut Vec<BandStrips>,
    when: When,
) -> Result<(), Fault>
    requires standing { IsGivenSmall falling.now }
    requires levels { falling.now.levels ≡ source.now.coding.levels }
    requires order { from ≤ to }
    requires inside { to ≤ source.now.rect.y1 }
    requires bands { AreBandsUpto source.now from bands.old.items }
    requires made { (f : ℕ → ℕ → ℕ → ℤ) × AreFew source.now f × HasMade source.now from to f falling.now }
    ensures bands { OnOk result (AreBandsUpto source.now to bands.new.items) }
    ensures rows { OnOk result ((f : ℕ → ℕ → ℕ → ℤ) → HasMade source.now from to f falling.now
        → HaveRowsOf source.now f bands.old.items → HaveRowsOf source.now f bands.new.items) }
    ensures memory { IfErr result IsMemory }
{
    level_fallen();
    levels_fallen();
    for b in 0..bands.len() {
        let strips = &mut bands[b];
        let end = rows_made(source, to, strips.resolution, strips.band);
        strips.put(alloc, source, end, falling.rows(b as u8), when)?;
    }
    Ok(())
}

/// Codes all rows of code-blocks of the sub-bands that wait.
fn code_all(
    alloc: Global,
    source: &WrittenComponent<'_>,
    bands: &mut Vec<BandStrips>,
) -> Result<(), Fault>
    requires bands { (e : ℕ) × AreBandsUpto source.now e bands.old.items }
    ensures bands { OnOk result ((e : ℕ) → AreBandsUpto source.now e bands.old.items
        → AreBandsUpto source.now e bands.new.items) }
    ensures none { OnOk result (NoneWait source.now bands.new.items) }
    ensures rows { OnOk result ((f : ℕ → ℕ → ℕ → ℤ) → HaveRowsOf source.now f bands.old.items
        → HaveRowsOf source.now f bands.new.items) }
    ensures memory { IfErr result IsMemory }
{
    for b in 0..bands.len() {
        bands[b].code_all(alloc, source)?;
    }
    Ok(())
}

/// Codes the rows of code-blocks of the sub-bands that were listed, from what was coded ahead.
fn code_listed(
    alloc: Global,
    source: &WrittenComponent<'_>,
    ahead: &mut CodedBlocks,
    bands: &mut Vec<BandStrips>,
) -> Result<(), Fault>
    requires bands { (e : ℕ) × AreBandsUpto source.now e bands.old.items }
    requires ahead { IsCodedAhead ahead.old }
    ensures bands { OnOk result ((e : ℕ) → AreBandsUpto source.now e bands.old.items
        → AreBandsUpto source.now e bands.new.items) }
    ensures rows { OnOk result ((f : ℕ → ℕ → ℕ → ℤ) → HaveRowsOf source.now f bands.old.items
        → HaveRowsOf source.now f bands.new.items) }
    ensures ahead { OnOk result (IsCodedAhead ahead.new) }
    ensures memory { IfErr result IsMemory }
{
    for b in 0..bands.len() {
        bands[b].code_listed(alloc, source, ahead)?;
    }
    Ok(())
}

/// What is kept of sub-bands behind their last rows.
fn keep_all(alloc: Global, all: Vec<BandStrips>) -> Result<Vec<FallenBand>, Fault>
    ensures bands { IfOk result (λ v. v.items ≡ map fallen_band all.items) }
    ensures memory { IfErr result IsMemory }
{
    let mut bands = Vec::with_capacity(alloc, all.len())?;
    for strips in all {
        bands.push(FallenBand {
            blocks: strips.blocks,
            bits: strips.bits,
        })?;
    }
    Ok(bands)
}

impl FallingComponent {
    /// Before the first row. Memory is the only fault.
    pub fn new(alloc: Global, source: &WrittenComponent<'_>) -> Result<FallingComponent, Fault>
        ensures standing { IfOk result (IsStanding source.now) }
        ensures rows { IfOk result (λ c. (f : ℕ → ℕ → ℤ) → HasSamples source.now f c) }
        ensures first { IfOk result (λ c. c.y ≡ source.now.rect.y0) }
        ensures memory { IfErr result IsMemory }
    {
        let rect = source.rect();
        Ok(FallingComponent {
            y: rect.y0,
            falling: Falling::new(alloc, &rect, source.coding().levels)?,
            bands: first_bands(alloc, source)?,
        })
    }

    /// Takes the rows of samples up to row `e`, of which `rows` is the list, and codes the
    /// code-blocks of which no row is missing any more, or lets them wait. `rows` becomes room for
    /// the next. Memory is the only fault; the component isn't to be used behind it.
    pub fn give(
        &mut self,
        alloc: Global,
        source: &WrittenComponent<'_>,
        e: u32,
        rows: &mut Vec<i32>,
        when: When,
    ) -> Result<(), Fault>
        requires standing { IsStanding source.now self.old }
        requires order { self.old.y ≤ e }
        requires inside { e ≤ source.now.rect.y1 }
        requires given { (f : ℕ → ℕ → ℤ) × AreSixteen source.now f × HasSamples source.now f self.old
            × (rows.old.items ≡ raster (rows_between source.now.rect self.old.y e) f) }
        ensures standing { OnOk result (IsStanding source.now self.new) }
        ensures rows { OnOk result ((f : ℕ → ℕ → ℤ) → HasSamples source.now f self.old
            → rows.old.items ≡ raster (rows_between source.now.rect self.old.y e) f
            → HasSamples source.now f self.new) }
        ensures next { OnOk result (self.new.y ≡ e) }
        ensures memory { IfErr result IsMemory }
    {
        self.falling.give(e, rows)?;
        put_all(
            alloc,
            source,
            &self.falling,
            self.y,
            e,
            &mut self.bands,
            when,
        )?;
        self.falling.clear();
        self.y = e;
        Ok(())
    }

    /// Lists the code-blocks that wait, of which no row is missing, behind those that were listed
    /// before. Memory is the only fault.
    pub fn list_waiting(
        &self,
        alloc: Global,
        source: &WrittenComponent<'_>,
        before: &[usize],
        uncoded: &mut UncodedBlocks,
    ) -> Result<(), Fault>
        requires standing { IsStanding source.now self.now }
        requires uncoded { AreUncoded uncoded.old }
        ensures uncoded { OnOk result (AreUncoded uncoded.new) }
        ensures memory { IfErr result IsMemory }
    {
        for b in 0..self.bands.len() {
            self.bands[b].list_waiting(alloc, source, before, uncoded)?;
        }
        Ok(())
    }

    /// Codes the code-blocks that were listed, from what was coded ahead. Memory is the only fault;
    /// the component isn't to be used behind it.
    pub fn code_listed(
        &mut self,
        alloc: Global,
        source: &WrittenComponent<'_>,
        ahead: &mut CodedBlocks,
    ) -> Result<(), Fault>
        requires standing { IsStanding source.now self.old }
        requires ahead { IsCodedAhead ahead.old }
        ensures standing { OnOk result (IsStanding source.now self.new) }
        ensures rows { OnOk result ((f : ℕ → ℕ → ℤ) → HasSamples source.now f self.old
            → HasSamples source.now f self.new) }
        ensures next { OnOk result (self.new.y ≡ self.old.y) }
        ensures ahead { OnOk result (IsCodedAhead ahead.new) }
        ensures memory { IfErr result IsMemory }
    {
        code_listed(alloc, source, ahead, &mut self.bands)
    }

    /// What is kept behind the last row: no row waits any more. Memory is the only fault.
    pub fn finish(
        self,
        alloc: Global,
        source: &WrittenComponent<'_>,
    ) -> Result<FallenComponent, Fault>
        requires standing { IsStanding source.now self }
        requires last { self.y ≡ source.now.rect.y1 }
        ensures fallen { IfOk result (IsFallen source.now) }
        ensures rows { IfOk result (λ c. (f : ℕ → ℕ → ℤ) → HasSamples source.now f self → IsCodedOf source.now f c) }
        ensures memory { IfErr result IsMemory }
    {
        level_fallen();
        levels_fallen();
        let mut bands = self.bands;
        code_all(alloc, source, &mut bands)?;
        Ok(FallenComponent {
            bands: keep_all(alloc, bands)?,
        })
    }
}
