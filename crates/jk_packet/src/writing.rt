//! A sub-band of a precinct that is written: what its code-blocks and tag trees have told.

ghost use Rattle.std.specs.Prelude.{◌≡◌, ℕ, ◌+◌, ◌*◌, ◌<◌, ◌≤◌, ◌^◌, Bool, List, [], ◌∷◌, ◌++◌, false, length, map};
ghost use Rattle.std.specs.Prelude.{take, nat_lt, Some, IfOk, IfErr, MatchResult};
ghost use Rattle.std.specs.Bool.{MatchBool};
ghost use Rattle.jk_math.specs.Memory.{IsMemory};
ghost use Rattle.jk_tree.specs.TagTree.{query_of};
ghost use Rattle.jk_tree.specs.Telling.{with_bits, TellsQuery};
ghost use Rattle.jk_packet.specs.PacketText.{BandLayer, leaves, block_bits, band_bits};
ghost use Rattle.jk_packet.specs.Written.{first_in, contribution_in, table_at, band_layer, band_trees, AreBandTables};
ghost use Rattle.jk_packet.specs.Writing.{IsReady, Follow, TreesSpeak};

use crate::shape::BandShape;
use crate::table::BlockTable;
use crate::wording::{least_growth, push_piece};
use crate::words::Addition;
use jk_bits::BitWriter;
use jk_math::Fault;
use jk_tree::WriteTree;
use std::alloc::Global;

/// A code-block that is written: the first layer that includes it, and its Lblock.
#[derive(Clone, Copy, Drop)]
pub(crate) struct WriteBlock {
    pub(crate) first: u16,
    pub(crate) length_bits: u8,
}

/// What the packets of a sub-band have told so far.
#[derive(Drop)]
pub(crate) struct WriteBand {
    pub(crate) inclusion: WriteTree,
    pub(crate) zeros: WriteTree,
    pub(crate) blocks: Vec<WriteBlock>,
}

/// The first layers that include the blocks.
fn first_layers(alloc: Global, tables: &[BlockTable]) -> Result<Vec<u16>, Fault>
    requires { (j : ℕ) → j < length tables.now → length (table_at tables.now j).parts < 2 ^ 16 }
    ensures { MatchResult result
        (λ v. v.items ≡ map (λ t. first_in t.parts) tables.now) (λ e. IsMemory e) }
{
    let mut firsts = Vec::with_capacity(alloc, tables.len())?;
    for table in tables {
        firsts.push(table.first_layer())?;
    }
    Ok(firsts)
}

/// The zero bit-planes of the blocks.
fn zero_planes(alloc: Global, tables: &[BlockTable]) -> Result<Vec<u16>, Fault>
    ensures { MatchResult result
        (λ v. v.items ≡ map (λ t. t.zero_planes) tables.now) (λ e. IsMemory e) }
{
    let mut planes = Vec::with_capacity(alloc, tables.len())?;
    for table in tables {
        planes.push(table.zero_planes() as u16)?;
    }
    Ok(planes)
}

/// Blocks that these layers include first, before any packet.
fn open_blocks(alloc: Global, firsts: &[u16]) -> Result<Vec<WriteBlock>, Fault>
    ensures { MatchResult result
        (λ v. v.items ≡ map (λ n. record { first = n; length_bits = 3 }) firsts.now) (λ e. IsMemory e) }
{
    let mut blocks = Vec::with_capacity(alloc, firsts.len())?;
    for first in firsts {
        blocks.push(WriteBlock {
            first: *first,
            length_bits: 3,
        })?;
    }
    Ok(blocks)
}

/// Whether a layer adds to a block: a bit, or the tree of inclusion (T.800 B.10.4).
fn tell_inclusion(
    block: WriteBlock,
    index: u32,
    layer: u16,
    taken: bool,
    tree: &mut WriteTree,
    writer: &mut BitWriter,
) -> Result<(), Fault>
    requires index { index < tree.old.shape.width * tree.old.shape.height }
    requires layer { layer < 65535 }
    requires sound { tree.old.failed ≡ false }
    ensures told { IfOk result (λ _. MatchBool (nat_lt block.first layer)
        ((writer.new ≡ with_bits writer.old (taken ∷ [])) × (tree.new ≡ tree.old))
        (TellsQuery tree.old.shape (query_of index (layer + 1)) tree.old.nodes tree.new.nodes writer.old writer.new)) }
    ensures open { IfOk result (λ _. (tree.new.failed ≡ false) × (tree.new.shape ≡ tree.old.shape)) }
    ensures memory { IfErr result (λ e. IsMemory e) }
{
    if block.first < layer {
        writer.push(taken)
    } else {
        tree.tell(index, layer + 1, writer)
    }
}

/// The zero bit-planes of a block, with its first coding passes (T.800 B.10.5).
fn tell_zero_planes(
    block: WriteBlock,
    index: u32,
    layer: u16,
    planes: u8,
    tree: &mut WriteTree,
    writer: &mut BitWriter,
) -> Result<(), Fault>
    requires index { index < tree.old.shape.width * tree.old.shape.height }
    requires sound { tree.old.failed ≡ false }
    ensures told { IfOk result (λ _. MatchBool (nat_lt block.first layer)
        ((writer.new ≡ writer.old) × (tree.new ≡ tree.old))
        (TellsQuery tree.old.shape (query_of index (planes + 1)) tree.old.nodes tree.new.nodes writer.old writer.new)) }
    ensures open { IfOk result (λ _. (tree.new.failed ≡ false) × (tree.new.shape ≡ tree.old.shape)) }
    ensures memory { IfErr result (λ e. IsMemory e) }
{
    if block.first < layer {
        return Ok(());
    }
    tree.tell(index, planes as u16 + 1, writer)
}

impl WriteBand {
    /// A sub-band of which no packet is written.
    pub(crate) fn new(
        alloc: Global,
        shape: BandShape,
        layers: u16,
        tables: &[BlockTable],
    ) -> Result<WriteBand, Fault>
        requires { AreBandTables shape layers tables.now }
        ensures ready { IfOk result (λ w. IsReady shape tables.now 0 0 w) }
        ensures speaks { IfOk result (λ w. TreesSpeak shape tables.now [] [] w) }
        ensures memory { IfErr result (λ e. IsMemory e) }
    {
        let firsts = first_layers(alloc, tables)?;
        let planes = zero_planes(alloc, tables)?;
        let blocks = open_blocks(alloc, &firsts)?;
        let inclusion = WriteTree::new(alloc, shape.across, shape.down, &firsts)?;
        let zeros = WriteTree::new(alloc, shape.across, shape.down, &planes)?;
        Ok(WriteBand {
            inclusion,
            zeros,
            blocks,
        })
    }
}

/// What the packet of a layer has of one block.
fn write_block(
    band: &mut WriteBand,
    shape: BandShape,
    tables: &[BlockTable],
    index: u32,
    layer: u16,
    writer: &mut BitWriter,
) -> Result<(), Fault>
    requires tables { (layers : ℕ) × (layer < layers) × (layers < 2 ^ 16) × AreBandTables shape layers tables.now }
    requires index { index < shape.across * shape.down }
    requires ready { IsReady shape tables.now layer index band.old }
    ensures ready { IfOk result (λ _. IsReady shape tables.now layer (index + 1) band.new) }
    ensures told { IfOk result (λ _. (layers : List BandLayer) → Follow tables.now layer layers
        → TreesSpeak shape tables.now layers (take index (band_layer tables.now layer)) band.old
        → (writer.new ≡ with_bits writer.old (block_bits (leaves shape) (band_trees shape tables.now) layers
        (take index (band_layer tables.now layer)) index (contribution_in (table_at tables.now index) layer)))
        × TreesSpeak shape tables.now layers (take (index + 1) (band_layer tables.now layer)) band.new) }
    ensures memory { IfErr result (λ e. IsMemory e) }
{
    let table = &tables[index as usize];
    let block = band.blocks[index as usize];
    let passes = table.passes(layer);
    tell_inclusion(block, index, layer, passes > 0, &mut band.inclusion, writer)?;
    if passes == 0 {
        return Ok(());
    }
    tell_zero_planes(
        block,
        index,
        layer,
        table.zero_planes(),
        &mut band.zeros,
        writer,
    )?;
    let length = table.bytes(layer).len() as u32;
    let growth = least_growth(block.length_bits, passes, length);
    let piece = Addition {
        passes,
        growth,
        length,
    };
    push_piece(block.length_bits, piece, writer)?;
    band.blocks[index as usize] = WriteBlock {
        first: block.first,
        length_bits: block.length_bits + growth,
    };
    Ok(())
}

/// What the packet of a layer has of the blocks of a sub-band, in raster order.
pub(crate) fn write_band(
    band: &mut WriteBand,
    shape: BandShape,
    tables: &[BlockTable],
    layer: u16,
    writer: &mut BitWriter,
) -> Result<(), Fault>
    requires tables { (layers : ℕ) × (layer < layers) × (layers < 2 ^ 16) × AreBandTables shape layers tables.now }
    requires ready { IsReady shape tables.now layer 0 band.old }
    ensures ready { IfOk result (λ _. IsReady shape tables.now (layer + 1) 0 band.new) }
    ensures told { IfOk result (λ _. (layers : List BandLayer) → Follow tables.now layer layers
        → TreesSpeak shape tables.now layers [] band.old
        → (writer.new
        ≡ with_bits writer.old
        (band_bits (leaves shape) (band_trees shape tables.now) layers (band_layer tables.now layer)))
        × TreesSpeak shape tables.now (layers ++ Some (band_layer tables.now layer) ∷ []) [] band.new) }
    ensures memory { IfErr result (λ e. IsMemory e) }
{
    for index in 0..shape.across as u32 * shape.down as u32 {
        write_block(band, shape, tables, index, layer, writer)?;
    }
    Ok(())
}
