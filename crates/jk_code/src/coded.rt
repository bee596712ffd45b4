//! A codestream whose headers are read, and one that is decoded.

use jk_math::Rect;
use jk_params::Codestream;
use jk_walk::TilePackets;
use std::marker::Model;

/// The bytes of a codestream with the headers that were read of them.
#[derive(Drop)]
pub(crate) struct HeadedBytes<'a> {
    pub(crate) headers: &'a Codestream,
    pub(crate) bytes: &'a [u8],
}

impl<'a> Model for HeadedBytes<'a> {
    ghost use Rattle.std.specs.Prelude.{length};
    ghost use Rattle.jk_params.specs.Headers.{AreHeaders};
    ghost use Rattle.jk_code.specs.Sources.{CodestreamSource};

    ghost Value = { CodestreamSource };

    ghost view = { λ c. record { headers = c.headers.now; bytes = c.bytes.now } };

    ghost invariant = { λ c. AreHeaders (length c.bytes.now) c.headers.now };
}

/// A codestream whose headers and packets are read, which is decoded at a reduction: its headers,
/// its bytes, the packets of its tiles, the reduction, and the rectangle of the reduced image.
#[derive(Drop)]
pub(crate) struct CodedImage<'a> {
    pub(crate) headers: &'a Codestream,
    pub(crate) bytes: &'a [u8],
    pub(crate) packets: &'a [TilePackets],
    pub(crate) reduce: u8,
    pub(crate) area: Rect,
}

impl<'a> Model for CodedImage<'a> {
    ghost use Rattle.jk_code.specs.Sources.{ImageSource, IsImageSource};

    ghost Value = { ImageSource };

    ghost view = { λ c.
        record {
          headers = c.headers.now;
          bytes = c.bytes.now;
          packets = c.packets.now;
          reduce = c.reduce;
          area = c.area;
        } };

    ghost invariant = { λ c. IsImageSource
        (record {
          headers = c.headers.now;
          bytes = c.bytes.now;
          packets = c.packets.now;
          reduce = c.reduce;
          area = c.area;
        }) };
}
