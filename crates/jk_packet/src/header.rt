//! What a packet header says.

ghost use Rattle.std.specs.Prelude.{◌≡◌, ◌<◌, ◌↔◌, [], length, slice_index_or, IsTrue};

use std::marker::Model;

/// What a packet has of one code-block.
#[derive(Clone, Copy, Debug, PartialEq, Eq, Drop)]
pub struct BlockContribution {
    /// The number of the sub-band in the precinct, from 0.
    pub band: u8,
    /// The number of the code-block in its sub-band, in raster order from 0.
    pub block: u32,
    /// How many of the most significant bit-planes are zero (T.800 B.10.5).
    pub zero_planes: u8,
    /// How many coding passes the packet adds (T.800 B.10.6).
    pub passes: u8,
    /// How many bytes of the packet's body are the block's (T.800 B.10.7).
    pub length: u32,
}

/// What a packet has of each of its code-blocks, in the order in which the bodies stand.
#[derive(Debug, Drop)]
pub struct Parts {
    parts: Vec<BlockContribution>,
}

impl Model for Parts {
    ghost use Rattle.std.specs.Prelude.{List};
    ghost use Rattle.jk_packet.specs.declared.header.BlockContribution.{BlockContribution};

    ghost Value = { List BlockContribution };

    ghost view = { λ p. p.parts.items };
}

impl Parts {
    /// These parts.
    pub(crate) fn new(parts: Vec<BlockContribution>) -> Parts
        ensures { result ≡ parts.items }
    {
        Parts { parts }
    }

    /// How many parts there are.
    pub fn len(&self) -> usize
        ensures { result ≡ length self.now }
    {
        self.parts.len()
    }

    /// Whether there is no part.
    pub fn is_empty(&self) -> bool
        ensures { IsTrue result ↔ (self.now ≡ []) }
    {
        self.parts.is_empty()
    }

    /// The parts, one after another.
    pub fn as_slice(&self) -> &[BlockContribution]
        ensures { result.now ≡ self.now }
    {
        &self.parts
    }
}

/// A packet header.
#[derive(Debug, Drop)]
pub struct Header {
    /// How many bytes it takes, with an SOP marker segment before it and an EPH marker behind it.
    pub length: usize,
    /// What the packet has of each code-block that it has something of.
    pub parts: Parts,
}
