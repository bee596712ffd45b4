//! A part of a tile-component whose code-blocks are decoded.

ghost use Rattle.std.specs.Prelude.{◌≡◌, ◌<◌, ◌≤◌, ◌+◌, ◌-◌, ◌*◌, ◌^◌, ◌∷◌, [], length, Ok, IfOk, All};
ghost use Rattle.jk_math.specs.Answer.{Answers};
ghost use Rattle.jk_math.specs.Raster.{raster};
ghost use Rattle.jk_math.specs.Signed.{IsBelow};
ghost use Rattle.jk_geom.specs.Rectangles.{resolution_area};
ghost use Rattle.jk_tile.specs.TileMeaning.{values_of};
ghost use Rattle.jk_tile.specs.decoding.TileReading.{component_tested};
ghost use Rattle.jk_tile.specs.decoding.Source.{IsSource, source_bodies, source_coefficient};
ghost use Rattle.jk_tile.specs.decoding.Decoded.{AreDecoded};

use crate::decoding::decoded::DecodedBlocks;
use jk_marks::Coding;
use jk_math::Rect;
use jk_walk::{PacketPlace, TilePackets};
use jk_wave::Region;
use std::marker::Model;

/// A part of a component of a tile: the codestream, the part, the component's coding, the packets
/// of the tile, and the number of the component. Beside these it has code-blocks of the codestream
/// that were decoded before, of which nobody sees but how soon it is read.
#[derive(Drop)]
pub struct CodedComponent<'a> {
    bytes: &'a [u8],
    region: Region,
    coding: &'a Coding,
    packets: &'a TilePackets,
    number: u8,
    decoded: &'a DecodedBlocks,
}

impl<'a> Model for CodedComponent<'a> {
    ghost use Rattle.jk_tile.specs.decoding.Source.{Source, IsSource};
    ghost use Rattle.jk_tile.specs.decoding.Decoded.{AreDecoded};

    ghost Value = { Source };

    ghost view = { λ c.
        record {
          bytes = c.bytes.now;
          region = c.region;
          coding = c.coding.now;
          packets = c.packets.now;
          component = c.number;
        } };

    ghost invariant = { λ c. IsSource
        (record {
          bytes = c.bytes.now;
          region = c.region;
          coding = c.coding.now;
          packets = c.packets.now;
          component = c.number;
        }) × AreDecoded c.bytes.now c.decoded.now };
}

impl<'a> CodedComponent<'a> {
    /// A part of a component of a tile.
    pub fn new(
        bytes: &'a [u8],
        region: Region,
        coding: &'a Coding,
        packets: &'a TilePackets,
        number: u8,
        decoded: &'a DecodedBlocks,
    ) -> CodedComponent<'a>
        requires source { IsSource
            (record {
              bytes = bytes.now;
              region = region;
              coding = coding.now;
              packets = packets.now;
              component = number;
            }) }
        requires decoded { AreDecoded bytes.now decoded.now }
        ensures { result
            ≡ record {
              bytes = bytes.now;
              region = region;
              coding = coding.now;
              packets = packets.now;
              component = number;
            } }
    {
        CodedComponent {
            bytes,
            region,
            coding,
            packets,
            number,
            decoded,
        }
    }

    /// The codestream.
    pub fn bytes(&self) -> &'a [u8]
        ensures { result.now ≡ self.now.bytes }
    {
        self.bytes
    }

    /// The part.
    pub fn region(&self) -> Region
        ensures value { result ≡ self.now.region }
        ensures source { IsSource self.now }
    {
        self.region
    }

    /// The tile's rectangle.
    pub fn rect(&self) -> Rect
        ensures value { result ≡ self.now.region.rect }
        ensures source { IsSource self.now }
    {
        self.region.rect
    }

    /// How the component is coded.
    pub fn coding(&self) -> &'a Coding
        ensures value { result.now ≡ self.now.coding }
        ensures source { IsSource self.now }
    {
        self.coding
    }

    /// The packets of the tile.
    pub fn packets(&self) -> &'a [PacketPlace]
        ensures { result.now ≡ self.now.packets }
    {
        self.packets.as_slice()
    }

    /// The packets of the tile, with which of them have something of a code-block.
    pub fn tile_packets(&self) -> &'a TilePackets
        ensures { result.now ≡ self.now.packets }
    {
        self.packets
    }

    /// The number of the component.
    pub fn number(&self) -> u8
        ensures { result ≡ self.now.component }
    {
        self.number
    }

    /// Code-blocks that were decoded before.
    pub fn decoded(&self) -> &'a DecodedBlocks
        ensures { AreDecoded self.now.bytes result.now }
    {
        self.decoded
    }
}
