//! What is written of code-blocks that were coded before the exponents of their sub-bands were
//! known: their lists are moved into tables, and nothing is copied.

ghost use Rattle.std.specs.Prelude.{◌≡◌, ℕ, ℤ, ◌+◌, ◌*◌, ◌<◌, ◌≤◌, ◌++◌, length, map, slice_index_or, All, IfErr, OnOk};
ghost use Rattle.std.specs.List.{flat_map, range_with_len};
ghost use Rattle.jk_math.specs.Memory.{IsMemory};
ghost use Rattle.jk_math.specs.Lists.{lists_of, list_at};
ghost use Rattle.jk_params.specs.Coding.{HasPlanes};
ghost use Rattle.jk_wave.specs.Analysis.{analysed};
ghost use Rattle.jk_walk.specs.TilePackets.{orientations, band_number, planes_of};
ghost use Rattle.jk_tile.specs.encoding.Layered.{table_with};
ghost use Rattle.jk_tile.specs.encoding.Strips.{HavePlanes};
ghost use Rattle.jk_tile.specs.encoding.TileWriters.{resolution_lists, component_lists};
ghost use Rattle.jk_tile.specs.encoding.LateTables.{AreAlike, HoldBlocks, HaveBlocks, bands_from};
ghost use Rattle.jk_tile.specs.declared.encoding.fallen.FallenBand.{FallenBand as Kept};

use crate::bands::{band_count, band_number, band_planes};
use crate::encoding::component::WrittenComponent;
use crate::encoding::fallen::FallenBand;
use crate::encoding::lists::add_lists;
use crate::encoding::tables::LayeredBlock;
use jk_geom::precinct_count;
use jk_marks::Coding;
use jk_math::Fault;
use jk_packet::BlockTable;
use std::alloc::Global;
use std::mem;

/// Appends what is written of code-blocks of a sub-band of so many bit-planes.
fn add_blocks(
    blocks: Vec<LayeredBlock>,
    planes: u32,
    tables: &mut Vec<BlockTable>,
) -> Result<(), Fault>
    requires room { All (λ b. b.planes ≤ planes) blocks.items }
    requires planes { planes ≤ 23 }
    ensures tables { OnOk result (tables.new.items ≡ tables.old.items ++ map (table_with planes) blocks.items) }
    ensures memory { IfErr result IsMemory }
{
    tables.reserve_exact(blocks.len())?;
    for block in blocks {
        tables.push(block.table(planes))?;
    }
    Ok(())
}

/// Appends what is written of the code-blocks of each precinct in a sub-band of so many bit-planes to
/// the list of the precinct; these lists stand one behind another from number `first` on.
pub(crate) fn add_band(
    blocks: Vec<Vec<LayeredBlock>>,
    planes: u32,
    first: usize,
    tables: &mut Vec<Vec<BlockTable>>,
) -> Result<(), Fault>
    requires room { HavePlanes planes (lists_of blocks.items) }
    requires planes { planes ≤ 23 }
    requires count { length tables.old.items ≡ first + length blocks.items }
    ensures front { OnOk result ((m : ℕ) → m < first → list_at tables.new.items m ≡ list_at tables.old.items m) }
    ensures tables { OnOk result ((n : ℕ) → n < length blocks.items → list_at tables.new.items (first + n)
        ≡ list_at tables.old.items (first + n) ++ map (table_with planes) (list_at blocks.items n)) }
    ensures count { OnOk result (length tables.new.items ≡ length tables.old.items) }
    ensures memory { IfErr result IsMemory }
{
    let mut at = first;
    for own in blocks {
        add_blocks(own, planes, &mut tables[at])?;
        at += 1;
    }
    Ok(())
}

/// Takes the code-blocks of a sub-band.
fn take_blocks(alloc: Global, band: &mut FallenBand) -> Vec<Vec<LayeredBlock>>
    ensures { result.items ≡ band.old.blocks.items }
{
    mem::replace(&mut band.blocks, Vec::new(alloc))
}

/// Appends the tables of each precinct of resolution `r`, from the code-blocks of its sub-bands, which
/// it takes.
fn add_resolution(
    alloc: Global,
    source: &WrittenComponent<'_>,
    coding: &Coding,
    r: u8,
    bands: &mut Vec<FallenBand>,
    tables: &mut Vec<Vec<BlockTable>>,
) -> Result<(), Fault>
    requires r { r ≤ source.now.coding.levels }
    requires alike { AreAlike source.now.coding coding.now }
    requires planes { HasPlanes coding.now }
    requires count { length bands.old.items ≡ 3 * source.now.coding.levels + 1 }
    requires blocks { HoldBlocks source.now (planes_of coding.now) r bands.old.items }
    ensures tables { OnOk result ((f : ℕ → ℕ → ℤ)
        → HaveBlocks source.now (analysed source.now.rect source.now.coding.levels f) r bands.old.items
        → lists_of tables.new.items
        ≡ lists_of tables.old.items ++ resolution_lists (bands_from source.now coding.now f) r) }
    ensures left { OnOk result ((k : ℕ) (other : Kept) → band_number r 0 + length (orientations r) ≤ k
        → slice_index_or bands.new.items k other ≡ slice_index_or bands.old.items k other) }
    ensures count { OnOk result (length bands.new.items ≡ length bands.old.items) }
    ensures memory { IfErr result IsMemory }
{
    let (across, down) = precinct_count(&source.rect(), source.coding(), r);
    let first = tables.len();
    add_lists(alloc, (across * down) as usize, tables)?;
    for i in 0..band_count(r) {
        let blocks = take_blocks(alloc, &mut bands[band_number(r, i)]);
        add_band(blocks, band_planes(coding, r, i), first, tables)?;
    }
    Ok(())
}

/// Appends the tables of each precinct of a component, from the code-blocks of its sub-bands, where
/// these have as many bit-planes as `coding` says: it is the component's, with its exponents.
pub(crate) fn add_late(
    alloc: Global,
    source: &WrittenComponent<'_>,
    coding: &Coding,
    bands: Vec<FallenBand>,
    tables: &mut Vec<Vec<BlockTable>>,
) -> Result<(), Fault>
    requires alike { AreAlike source.now.coding coding.now }
    requires planes { HasPlanes coding.now }
    requires count { length bands.items ≡ 3 * source.now.coding.levels + 1 }
    requires blocks { (r : ℕ) → r ≤ source.now.coding.levels
        → HoldBlocks source.now (planes_of coding.now) r bands.items }
    ensures tables { OnOk result ((f : ℕ → ℕ → ℤ)
        → ((r : ℕ) → r ≤ source.now.coding.levels
        → HaveBlocks source.now (analysed source.now.rect source.now.coding.levels f) r bands.items)
        → lists_of tables.new.items
        ≡ lists_of tables.old.items ++ component_lists (bands_from source.now coding.now f)) }
    ensures memory { IfErr result IsMemory }
{
    let mut bands = bands;
    for r in 0..source.coding().levels + 1 {
        add_resolution(alloc, source, coding, r, &mut bands, tables)?;
    }
    Ok(())
}
