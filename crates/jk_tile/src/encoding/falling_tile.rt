//! A tile of an image whose rows come one below the other: all its components.

ghost use Rattle.std.specs.Prelude.{◌≡◌, ℕ, ℤ, ◌+◌, ◌<◌, ◌≤◌, true, length, IfOk, IfErr, OnOk};
ghost use Rattle.jk_math.specs.Memory.{IsMemory};
ghost use Rattle.jk_math.specs.Picture.{IsPicture};
ghost use Rattle.jk_tile.specs.encoding.FallenTiles.{fallen_in, IsFallenTile, IsCodedTile};
ghost use Rattle.jk_tile.specs.encoding.FallingTiles.{components_in, IsStandingTile, HasTileSamples};
ghost use Rattle.jk_tile.specs.encoding.FallingTiles.{HasRowsFor, AreTileSixteen, GivesTile};
ghost use Rattle.jk_tile.specs.encoding.Ahead.{AreUncoded, IsCodedAhead};

use crate::encoding::ahead::{CodedBlocks, UncodedBlocks};
use crate::encoding::component::WrittenComponent;
use crate::encoding::fallen::FallenComponent;
use crate::encoding::fallen_tile::FallenTile;
use crate::encoding::falling::FallingComponent;
use crate::encoding::strips::When;
use crate::encoding::values::put_values;
use jk_math::{Fault, Image};
use std::alloc::Global;

/// Rows of an image: those that are next, up to row `end` of the reference grid, with or without the
/// component transform.
#[derive(Clone, Copy)]
pub struct GivenRows<'a> {
    /// The image, which may have more rows.
    pub image: &'a Image,
    /// Whether the component transform is asked for.
    pub colours: bool,
    /// The row behind them.
    pub end: u32,
}

/// A tile of an image between two steps of its rows.
#[derive(Drop)]
pub struct FallingTile {
    /// The row of samples that is next.
    pub(crate) y: u32,
    /// Its components, which are coded alike.
    pub(crate) components: Vec<FallingComponent>,
}

impl FallingTile {
    /// A tile of so many components before its first row. `source` is each of them. Memory is the only
    /// fault.
    pub fn new(
        alloc: Global,
        source: &WrittenComponent<'_>,
        components: usize,
    ) -> Result<FallingTile, Fault>
        ensures standing { IfOk result (IsStandingTile source.now) }
        ensures count { IfOk result (λ t. components_in t ≡ components) }
        ensures rows { IfOk result (λ t. (f : ℕ → ℕ → ℕ → ℤ) → HasTileSamples source.now f t) }
        ensures first { IfOk result (λ t. t.y ≡ source.now.rect.y0) }
        ensures memory { IfErr result IsMemory }
    {
        let mut list = Vec::with_capacity(alloc, components)?;
        for _ in 0..components {
            list.push(FallingComponent::new(alloc, source)?)?;
        }
        Ok(FallingTile {
            y: source.rect().y0,
            components: list,
        })
    }

    /// Takes what the next rows of the image have of the tile, and codes the code-blocks of which no
    /// row is missing any more, or lets them wait. `values` is room for a component of these rows.
    /// Memory is the only fault; the tile isn't to be used behind it.
    pub fn give(
        &mut self,
        alloc: Global,
        source: &WrittenComponent<'_>,
        rows: &GivenRows<'_>,
        values: &mut Vec<i32>,
        when: When,
    ) -> Result<(), Fault>
        requires standing { IsStandingTile source.now self.old }
        requires picture { IsPicture rows.now.image.now }
        requires count { components_in self.old ≡ length rows.now.image.now.planes }
        requires colours { rows.now.colours ≡ true → 3 ≤ length rows.now.image.now.planes }
        requires rows { HasRowsFor source.now self.old.y rows.now.end rows.now.image.now }
        requires given { (f : ℕ → ℕ → ℕ → ℤ) × AreTileSixteen source.now (length rows.now.image.now.planes) f
            × HasTileSamples source.now f self.old
            × GivesTile source.now rows.now.colours rows.now.image.now self.old.y rows.now.end f }
        ensures standing { OnOk result (IsStandingTile source.now self.new) }
        ensures count { OnOk result (components_in self.new ≡ components_in self.old) }
        ensures rows { OnOk result ((f : ℕ → ℕ → ℕ → ℤ) → HasTileSamples source.now f self.old
            → GivesTile source.now rows.now.colours rows.now.image.now self.old.y rows.now.end f
            → HasTileSamples source.now f self.new) }
        ensures next { OnOk result (self.new.y ≡ rows.now.end) }
        ensures memory { IfErr result IsMemory }
    {
        let part = source.rows(self.y, rows.end);
        for c in 0..self.components.len() {
            put_values(alloc, rows.image, rows.colours, c, &part, values)?;
            self.components[c].give(alloc, source, rows.end, values, when)?;
        }
        self.y = rows.end;
        Ok(())
    }

    /// Lists the code-blocks that wait, of which no row is missing, behind those that were listed before
    /// and aren't coded yet: `before` has how many rows of them each sub-band has there, as
    /// [`UncodedBlocks::counts`] gives it, or is empty. Memory is the only fault.
    pub fn list_waiting(
        &self,
        alloc: Global,
        source: &WrittenComponent<'_>,
        before: &[usize],
        uncoded: &mut UncodedBlocks,
    ) -> Result<(), Fault>
        requires standing { IsStandingTile source.now self.now }
        requires uncoded { AreUncoded uncoded.old }
        ensures uncoded { OnOk result (AreUncoded uncoded.new) }
        ensures memory { IfErr result IsMemory }
    {
        for c in 0..self.components.len() {
            self.components[c].list_waiting(alloc, source, before, uncoded)?;
        }
        Ok(())
    }

    /// Codes the code-blocks that were listed, from what was coded ahead. Memory is the only fault; the
    /// tile isn't to be used behind it.
    pub fn code_listed(
        &mut self,
        alloc: Global,
        source: &WrittenComponent<'_>,
        ahead: &mut CodedBlocks,
    ) -> Result<(), Fault>
        requires standing { IsStandingTile source.now self.old }
        requires ahead { IsCodedAhead ahead.old }
        ensures standing { OnOk result (IsStandingTile source.now self.new) }
        ensures count { OnOk result (components_in self.new ≡ components_in self.old) }
        ensures rows { OnOk result ((f : ℕ → ℕ → ℕ → ℤ) → HasTileSamples source.now f self.old
            → HasTileSamples source.now f self.new) }
        ensures next { OnOk result (self.new.y ≡ self.old.y) }
        ensures ahead { OnOk result (IsCodedAhead ahead.new) }
        ensures memory { IfErr result IsMemory }
    {
        for c in 0..self.components.len() {
            self.components[c].code_listed(alloc, source, ahead)?;
        }
        Ok(())
    }

    /// What is kept behind the last row. Memory is the only fault.
    pub fn finish(self, alloc: Global, source: &WrittenComponent<'_>) -> Result<FallenTile, Fault>
        requires standing { IsStandingTile source.now self }
        requires last { self.y ≡ source.now.rect.y1 }
        ensures fallen { IfOk result (IsFallenTile source.now) }
        ensures count { IfOk result (λ t. fallen_in t ≡ components_in self) }
        ensures rows { IfOk result (λ t. (f : ℕ → ℕ → ℕ → ℤ) → HasTileSamples source.now f self
            → IsCodedTile source.now f t) }
        ensures memory { IfErr result IsMemory }
    {
        let mut components: Vec<FallenComponent> = Vec::with_capacity(
            alloc,
            self.components.len(),
        )?;
        for component in self.components {
            components.push(component.finish(alloc, source)?)?;
        }
        Ok(FallenTile { components })
    }
}
