//! A sub-band of a precinct, as far as packet headers have told of it.

ghost use Rattle.std.specs.Prelude.{◌≡◌, ℕ, ◌+◌, ◌*◌, ◌<◌, ◌≤◌, List, length, Ok, IfOk, MatchResult};
ghost use Rattle.jk_math.specs.Answer.{Answers};
ghost use Rattle.jk_math.specs.Memory.{IsMemory};
ghost use Rattle.jk_bits.specs.Reading.{Bits};
ghost use Rattle.jk_packet.specs.declared.header.BlockContribution.{BlockContribution};
ghost use Rattle.jk_packet.specs.Reading.{BandWalk, blank_band, band_at, block_at};

use crate::block::{Block, blank_blocks, read_inclusion, read_zero_planes};
use crate::header::BlockContribution;
use crate::shape::BandShape;
use crate::words::read_piece;
use jk_bits::BitReader;
use jk_math::Fault;
use jk_tree::ReadTree;
use std::alloc::Global;
use std::marker::Model;

/// What packet headers have told so far of the code-blocks of a sub-band.
#[derive(Drop)]
pub(crate) struct Band {
    shape: BandShape,
    blocks: Vec<Block>,
    inclusion: ReadTree,
    zeros: ReadTree,
}

impl Model for Band {
    ghost use Rattle.std.specs.Prelude.{◌≡◌, ℕ, ◌*◌, ◌<◌, true, length};
    ghost use Rattle.jk_tree.specs.TagTree.{shape_of};
    ghost use Rattle.jk_tree.specs.Asking.{IsKnown};
    ghost use Rattle.jk_packet.specs.Reading.{BandState, block_in};

    ghost Value = { BandState };

    ghost view = { λ b. record {
      shape = shape_of b.shape.across b.shape.down;
      planes = b.shape.planes;
      blocks = b.blocks.items;
      inclusion = b.inclusion;
      zeros = b.zeros;
    } };

    ghost invariant = { λ b. (length b.blocks.items ≡ b.shape.across * b.shape.down)
        × (b.inclusion.shape ≡ shape_of b.shape.across b.shape.down)
        × (b.zeros.shape ≡ shape_of b.shape.across b.shape.down)
        × ((j : ℕ) → j < b.shape.across * b.shape.down → (block_in b.blocks.items j).included ≡ true
        → IsKnown (shape_of b.shape.across b.shape.down) b.inclusion.nodes j) };
}

impl Band {
    /// A sub-band of which nothing was read.
    pub(crate) fn new(alloc: Global, shape: BandShape) -> Result<Band, Fault>
        ensures { MatchResult result (λ b. b ≡ blank_band shape) (λ e. IsMemory e) }
    {
        let blocks = blank_blocks(alloc, shape.across as usize * shape.down as usize)?;
        let inclusion = ReadTree::new(alloc, shape.across, shape.down)?;
        let zeros = ReadTree::new(alloc, shape.across, shape.down)?;
        Ok(Band {
            shape,
            blocks,
            inclusion,
            zeros,
        })
    }

    /// What the packet of a layer has of one block; `number` is that of the sub-band in its
    /// precinct.
    fn read_block(
        &mut self,
        number: u8,
        index: u32,
        layer: u16,
        reader: &mut BitReader<'_>,
        parts: &mut Vec<BlockContribution>,
    ) -> Result<(), Fault>
        requires index { index < self.old.shape.width * self.old.shape.height }
        requires layer { layer < 65535 }
        ensures exact { Answers
            (λ _. record { band = self.new; bits = reader.new; parts = parts.new.items }) result
            (block_at number layer index record { band = self.old; bits = reader.old; parts = parts.old.items }) }
        ensures kept { self.new.shape ≡ self.old.shape }
    {
        let block = self.blocks[index as usize];
        let included = read_inclusion(block, index, layer, &mut self.inclusion, reader)?;
        if !included {
            return Ok(());
        }
        let zero_planes = read_zero_planes(
            block,
            index,
            self.shape.planes,
            &mut self.zeros,
            reader,
        )?;
        let piece = read_piece(
            reader,
            self.shape.planes,
            zero_planes,
            block.passes,
            block.length_bits,
        )?;
        self.blocks[index as usize] = Block {
            included: true,
            zero_planes,
            passes: block.passes + piece.passes as u16,
            length_bits: block.length_bits + piece.growth,
        };
        parts.push(BlockContribution {
            band: number,
            block: index,
            zero_planes,
            passes: piece.passes,
            length: piece.length,
        })?;
        Ok(())
    }

    /// The next block from `index` on of which the packet of a layer may say something.
    fn next_told(&self, index: u32, layer: u16) -> u32
        requires index { index ≤ self.now.shape.width * self.now.shape.height }
        requires layer { layer < 65535 }
        ensures from { index ≤ result }
        ensures within { result ≤ self.now.shape.width * self.now.shape.height }
        ensures silent { (j : ℕ) → index ≤ j → j < result
            → (number : ℕ) (bits : Bits) (parts : List BlockContribution)
            → block_at number layer j record { band = self.now; bits = bits; parts = parts }
            ≡ Ok (record { band = self.now; bits = bits; parts = parts }) }
    {
        if index as usize >= self.blocks.len() || self.blocks[index as usize].included {
            return index;
        }
        self.inclusion.next_open(index, layer + 1)
    }

    /// What the packet of a layer has of the blocks, in raster order.
    ///
    /// Blocks that a node above them leaves out together are passed over together.
    pub(crate) fn read(
        &mut self,
        number: u8,
        layer: u16,
        reader: &mut BitReader<'_>,
        parts: &mut Vec<BlockContribution>,
    ) -> Result<(), Fault>
        requires { layer < 65535 }
        ensures { Answers
            (λ _. record { band = self.new; bits = reader.new; parts = parts.new.items }) result
            (band_at number layer record { band = self.old; bits = reader.old; parts = parts.old.items }) }
    {
        let count = self.shape.across as u32 * self.shape.down as u32;
        let mut index = self.next_told(0, layer);
        while index < count {
            self.read_block(number, index, layer, reader, parts)?;
            index = self.next_told(index + 1, layer);
        }
        Ok(())
    }
}
