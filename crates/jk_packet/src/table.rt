//! What is written of a code-block, layer by layer.

ghost use Rattle.std.specs.Prelude.{◌≡◌, ◌-◌, ◌<◌, ◌≤◌, ◌^◌, length, take, drop};
ghost use Rattle.jk_packet.specs.Written.{AreEnds, first_in, part_in, table_of};
ghost use Rattle.jk_packet.specs.Writing.{begin_of, end_of};

use std::marker::Model;

/// What a layer has of a code-block.
#[derive(Clone, Copy, Debug, PartialEq, Eq, Drop)]
pub struct LayerPart {
    /// How many coding passes it adds.
    pub passes: u8,
    /// Where its bytes end among the block's; they begin where those of the layer before end.
    pub end: u32,
}

/// What is written of a code-block: how many of its bit-planes are zero, and for each layer the
/// coding passes that it adds, with their bytes.
#[derive(Debug, Drop)]
pub struct BlockTable {
    zero_planes: u8,
    skipped: u16,
    parts: Vec<LayerPart>,
    bytes: Vec<u8>,
}

impl Model for BlockTable {
    ghost use Rattle.std.specs.Prelude.{length};
    ghost use Rattle.jk_packet.specs.Written.{Table, AreEnds, table_of};

    ghost Value = { Table };

    ghost view = { λ t. table_of t.zero_planes t.skipped t.parts.items t.bytes.items };

    ghost invariant = { λ t. AreEnds 0 t.parts.items (length t.bytes.items) };
}

/// Where the bytes of a part begin and end.
fn place_of(parts: &[LayerPart], index: usize) -> (usize, usize)
    requires { index < length parts.now }
    ensures begin { result.0 ≡ begin_of parts.now index }
    ensures end { result.1 ≡ end_of parts.now index }
{
    let begin = if index == 0 {
        0
    } else {
        parts[index - 1].end as usize
    };
    (begin, parts[index].end as usize)
}

/// The bytes between two places.
fn cut(bytes: &[u8], begin: usize, end: usize) -> &[u8]
    requires begin { begin ≤ end }
    requires end { end ≤ length bytes.now }
    ensures { result.now ≡ take (end - begin) (drop begin bytes.now) }
{
    &bytes[begin..end]
}

impl BlockTable {
    /// The table of a code-block with so many zero bit-planes (T.800 B.10.5), of which the first
    /// `skipped` layers have nothing, and the layers behind them these parts of its bytes.
    pub fn new(zero_planes: u8, skipped: u16, parts: Vec<LayerPart>, bytes: Vec<u8>) -> BlockTable
        requires { AreEnds 0 parts.items (length bytes.items) }
        ensures { result ≡ table_of zero_planes skipped parts.items bytes.items }
    {
        BlockTable {
            zero_planes,
            skipped,
            parts,
            bytes,
        }
    }

    /// How many layers it is for.
    pub fn layers(&self) -> usize
        ensures { result ≡ length self.now.parts }
    {
        self.skipped as usize + self.parts.len()
    }

    /// How many of the block's bit-planes are zero.
    pub fn zero_planes(&self) -> u8
        ensures { result ≡ self.now.zero_planes }
    {
        self.zero_planes
    }

    /// How many coding passes a layer adds.
    pub fn passes(&self, layer: u16) -> u8
        ensures { result ≡ (part_in self.now layer).0 }
    {
        if layer < self.skipped {
            return 0;
        }
        let index = (layer - self.skipped) as usize;
        if index < self.parts.len() {
            self.parts[index].passes
        } else {
            0
        }
    }

    /// The first layer that has coding passes of the block, or the number of layers where none has.
    pub(crate) fn first_layer(&self) -> u16
        requires { length self.now.parts < 2 ^ 16 }
        ensures { result ≡ first_in self.now.parts }
    {
        let mut first = self.skipped;
        for part in &self.parts {
            if part.passes != 0 {
                return first;
            }
            first += 1;
        }
        first
    }

    /// The bytes that a layer adds.
    pub fn bytes(&self, layer: u16) -> &[u8]
        ensures { result.now ≡ (part_in self.now layer).1 }
    {
        if layer < self.skipped {
            return &[];
        }
        let index = (layer - self.skipped) as usize;
        if index >= self.parts.len() {
            return &[];
        }
        let (begin, end) = place_of(&self.parts, index);
        cut(&self.bytes, begin, end)
    }
}
