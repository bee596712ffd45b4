//! A component of a tile behind the last of its rows: its code-blocks, which wait for the exponents of
//! their sub-bands.

ghost use Rattle.std.specs.Prelude.{◌≡◌, ℕ, ℤ, ◌<◌, ◌≤◌, ◌++◌, max, slice_index, IfErr, OnOk};
ghost use Rattle.jk_math.specs.Memory.{IsMemory};
ghost use Rattle.jk_math.specs.Lists.{lists_of};
ghost use Rattle.jk_math.specs.Raster.{raster};
ghost use Rattle.jk_math.specs.BitLength.{bit_length};
ghost use Rattle.jk_params.specs.Coding.{HasPlanes};
ghost use Rattle.jk_block.specs.BlockWritten.{greatest};
ghost use Rattle.jk_wave.specs.Analysis.{analysed};
ghost use Rattle.jk_wave.specs.Bands.{numbered_area};
ghost use Rattle.jk_walk.specs.TilePackets.{planes_of};
ghost use Rattle.jk_tile.specs.encoding.TileWriters.{component_lists};
ghost use Rattle.jk_tile.specs.encoding.LateTables.{AreAlike, bands_from};
ghost use Rattle.jk_tile.specs.encoding.Strips.{bands_in};
ghost use Rattle.jk_tile.specs.encoding.FallenComponents.{HaveRoom, IsFallen, IsCodedOf};

use crate::encoding::component::WrittenComponent;
use crate::encoding::late::add_late;
use crate::encoding::tables::LayeredBlock;
use jk_marks::Coding;
use jk_math::Fault;
use jk_packet::BlockTable;
use std::alloc::Global;

/// A sub-band behind its last row.
#[derive(Drop)]
pub(crate) struct FallenBand {
    /// The code-blocks, precinct by precinct.
    pub(crate) blocks: Vec<Vec<LayeredBlock>>,
    /// How many bits the greatest magnitude has.
    pub(crate) bits: u8,
}

/// A component of a tile behind the last of its rows.
#[derive(Drop)]
pub struct FallenComponent {
    /// The sub-bands in the order of QCD.
    pub(crate) bands: Vec<FallenBand>,
}

impl FallenComponent {
    /// Raises how many bits the greatest magnitudes of the sub-bands have, in the order of QCD.
    pub fn raise(&self, source: &WrittenComponent<'_>, needs: &mut [u8; 16])
        requires fallen { IsFallen source.now self.now }
        ensures needs { (f : ℕ → ℕ → ℤ) → IsCodedOf source.now f self.now → (b : ℕ) → b < bands_in source.now
            → slice_index needs.new b
            ≡ max (slice_index needs.old b) (bit_length (greatest (raster
            (numbered_area source.now.rect source.now.coding.levels b)
            (analysed source.now.rect source.now.coding.levels f b)))) }
        ensures room { HaveRoom source.now (slice_index needs.new) self.now.bands.items }
        ensures rise { (b : ℕ) → slice_index needs.old b ≤ slice_index needs.new b }
    {
        for b in 0..self.bands.len() {
            needs[b] = needs[b].max(self.bands[b].bits);
        }
    }

    /// Appends the tables of each precinct. `coding` is the component's with its exponents, of which
    /// the sub-bands have as many bit-planes as they need. Memory is the only fault.
    pub fn add_tables(
        self,
        alloc: Global,
        source: &WrittenComponent<'_>,
        coding: &Coding,
        tables: &mut Vec<Vec<BlockTable>>,
    ) -> Result<(), Fault>
        requires fallen { IsFallen source.now self }
        requires alike { AreAlike source.now.coding coding.now }
        requires planes { HasPlanes coding.now }
        requires room { HaveRoom source.now (planes_of coding.now) self.bands.items }
        ensures tables { OnOk result ((f : ℕ → ℕ → ℤ) → IsCodedOf source.now f self
            → lists_of tables.new.items
            ≡ lists_of tables.old.items ++ component_lists (bands_from source.now coding.now f)) }
        ensures memory { IfErr result IsMemory }
    {
        add_late(alloc, source, coding, self.bands, tables)
    }
}
