//! A tile whose packets are read.

use jk_params::Codestream;
use jk_walk::TilePackets;
use std::marker::Model;

/// A tile whose packets are read, which is decoded at a reduction.
#[derive(Drop)]
pub struct CodedTile<'a> {
    /// The headers of the codestream.
    pub headers: &'a Codestream,
    /// Its bytes.
    pub bytes: &'a [u8],
    /// The number of the tile.
    pub number: usize,
    /// The packets of the tile, which [`jk_walk::read_packets`] reads.
    pub packets: &'a TilePackets,
    /// How many resolutions below the highest it is decoded.
    pub reduce: u8,
}

impl<'a> Model for CodedTile<'a> {
    ghost use Rattle.jk_tile.specs.decoding.TileSources.{TileSource, IsTileSource};

    ghost Value = { TileSource };

    ghost view = { λ t.
        record {
          headers = t.headers.now;
          bytes = t.bytes.now;
          number = t.number;
          packets = t.packets.now;
          reduce = t.reduce;
        } };

    ghost invariant = { λ t. IsTileSource
        (record {
          headers = t.headers.now;
          bytes = t.bytes.now;
          number = t.number;
          packets = t.packets.now;
          reduce = t.reduce;
        }) };
}
