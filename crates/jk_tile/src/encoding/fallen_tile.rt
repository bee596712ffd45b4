//! A tile of an image behind the last of its rows: its code-blocks, which wait for the exponents of
//! their sub-bands.

ghost use Rattle.std.specs.Prelude.{◌≡◌, ℕ, ℤ, ◌<◌, ◌≤◌, max, slice_index, IfOk, IfErr};
ghost use Rattle.std.specs.List.{flat_map, range_with_len};
ghost use Rattle.jk_math.specs.Memory.{IsMemory};
ghost use Rattle.jk_math.specs.Lists.{lists_of};
ghost use Rattle.jk_params.specs.Coding.{HasPlanes};
ghost use Rattle.jk_walk.specs.TilePackets.{planes_of};
ghost use Rattle.jk_tile.specs.encoding.Needs.{most};
ghost use Rattle.jk_tile.specs.encoding.TileWriters.{component_lists};
ghost use Rattle.jk_tile.specs.encoding.LateTables.{AreAlike, bands_from};
ghost use Rattle.jk_tile.specs.encoding.Strips.{bands_in};
ghost use Rattle.jk_tile.specs.encoding.FallenTiles.{fallen_in, band_need, HasTileRoom, IsFallenTile, IsCodedTile};

use crate::encoding::component::WrittenComponent;
use crate::encoding::fallen::FallenComponent;
use jk_marks::Coding;
use jk_math::Fault;
use jk_packet::BlockTable;
use std::alloc::Global;

/// A tile of an image behind the last of its rows.
#[derive(Drop)]
pub struct FallenTile {
    /// Its components, which are coded alike.
    pub(crate) components: Vec<FallenComponent>,
}

impl FallenTile {
    /// Raises how many bits the greatest magnitudes of the sub-bands have, in the order of QCD.
    pub fn raise(&self, source: &WrittenComponent<'_>, needs: &mut [u8; 16])
        requires fallen { IsFallenTile source.now self.now }
        ensures needs { (f : ℕ → ℕ → ℕ → ℤ) → IsCodedTile source.now f self.now → (b : ℕ) → b < bands_in source.now
            → slice_index needs.new b
            ≡ max (slice_index needs.old b) (most (λ c. band_need source.now (f c) b) (fallen_in self.now)) }
        ensures room { HasTileRoom source.now (slice_index needs.new) self.now }
        ensures rise { (b : ℕ) → slice_index needs.old b ≤ slice_index needs.new b }
    {
        for c in 0..self.components.len() {
            self.components[c].raise(source, needs);
        }
    }

    /// The tables of each precinct, component by component. `coding` is that of the components with
    /// its exponents, of which the sub-bands have as many bit-planes as they need. Memory is the only
    /// fault.
    pub fn tables(
        self,
        alloc: Global,
        source: &WrittenComponent<'_>,
        coding: &Coding,
    ) -> Result<Vec<Vec<BlockTable>>, Fault>
        requires fallen { IsFallenTile source.now self }
        requires alike { AreAlike source.now.coding coding.now }
        requires planes { HasPlanes coding.now }
        requires room { HasTileRoom source.now (planes_of coding.now) self }
        ensures tables { IfOk result (λ v. (f : ℕ → ℕ → ℕ → ℤ) → IsCodedTile source.now f self → lists_of v.items
            ≡ flat_map (λ c. component_lists (bands_from source.now coding.now (f c)))
            (range_with_len 0 (fallen_in self))) }
        ensures memory { IfErr result IsMemory }
    {
        let mut tables = Vec::new(alloc);
        for component in self.components {
            component.add_tables(alloc, source, coding, &mut tables)?;
        }
        Ok(tables)
    }
}
