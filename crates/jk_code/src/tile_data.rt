//! The data of a tile that is written: its packets, or what they are made of.

ghost use Rattle.std.specs.Prelude.{◌≡◌, ℕ, ◌-◌, ◌^◌, List, length, min, IfOk, IfErr};
ghost use Rattle.jk_math.specs.Memory.{IsMemory};
ghost use Rattle.jk_code.specs.DataTold.{IsDataText};

use jk_math::Fault;
use jk_packet::BlockTable;
use jk_tile::{TileOutline, packets_size};
use std::alloc::Global;

/// A tile whose code-blocks are coded: all but its packets.
#[derive(Clone, Copy)]
pub(crate) struct TabledTile<'a> {
    pub(crate) outline: TileOutline<'a>,
    /// The tables of its precincts.
    pub(crate) tables: &'a [Vec<BlockTable>],
}

/// The data of the only part of a tile.
#[derive(Drop)]
pub(crate) enum TileData<'a> {
    /// Its packets.
    Packets(Vec<u8>),
    /// What they are made of, each time that they are asked for.
    Tables(TabledTile<'a>),
}

impl<'a> TileData<'a> {
    /// How many bytes there are, 2^64 - 1 at most. Memory is the only fault.
    pub(crate) fn size(&self, alloc: Global) -> Result<u64, Fault>
        requires some { (text : List ℕ) × IsDataText self.now text }
        ensures size { IfOk result
            (λ n. (text : List ℕ) → IsDataText self.now text → n ≡ min (length text) (2 ^ 64 - 1)) }
        ensures memory { IfErr result IsMemory }
    {
        match self {
            TileData::Packets(text) => Ok(text.len() as u64),
            TileData::Tables(tile) => packets_size(alloc, &tile.outline, tile.tables),
        }
    }
}
