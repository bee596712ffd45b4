//! What is known of a code-block, and what a packet tells of it first: inclusion and zero
//! bit-planes.

ghost use Rattle.std.specs.Prelude.{◌≡◌, ℕ, ◌+◌, ◌*◌, ◌<◌, false, true, replicate, IfOk, MatchResult};
ghost use Rattle.jk_math.specs.Answer.{Reads};
ghost use Rattle.jk_math.specs.Memory.{IsMemory};
ghost use Rattle.jk_tree.specs.Asking.{IsKnown};
ghost use Rattle.jk_packet.specs.Reading.{blank_block, included_at, zero_planes_at};

use jk_bits::BitReader;
use jk_math::Fault;
use jk_tree::ReadTree;
use std::alloc::Global;

/// What packet headers have told so far of a code-block.
#[derive(Clone, Copy, Drop)]
pub(crate) struct Block {
    pub(crate) included: bool,
    pub(crate) zero_planes: u8,
    pub(crate) passes: u16,
    pub(crate) length_bits: u8,
}

/// Code-blocks of which nothing was read.
pub(crate) fn blank_blocks(alloc: Global, count: usize) -> Result<Vec<Block>, Fault>
    ensures { MatchResult result (λ blocks. blocks.items ≡ replicate count blank_block) (λ e. IsMemory e) }
{
    let mut blocks = Vec::with_capacity(alloc, count)?;
    for _ in 0..count {
        blocks.push(Block {
            included: false,
            zero_planes: 0,
            passes: 0,
            length_bits: 3,
        })?;
    }
    Ok(blocks)
}

/// Whether a block has a piece in the packet of a layer (T.800 B.10.4).
pub(crate) fn read_inclusion(
    block: Block,
    leaf: u32,
    layer: u16,
    tree: &mut ReadTree,
    reader: &mut BitReader<'_>,
) -> Result<bool, Fault>
    requires leaf { leaf < tree.old.shape.width * tree.old.shape.height }
    requires layer { layer < 65535 }
    ensures exact { Reads (included_at layer leaf block) (tree.old, reader.old) (tree.new, reader.new) result }
    ensures kept { tree.new.shape ≡ tree.old.shape }
    ensures known { IfOk result (λ b. b ≡ true → block.included ≡ false
        → IsKnown tree.new.shape tree.new.nodes leaf) }
    ensures still { (j : ℕ) → IsKnown tree.old.shape tree.old.nodes j
        → IsKnown tree.new.shape tree.new.nodes j }
{
    if block.included {
        reader.bit()
    } else {
        tree.ask(leaf, layer + 1, reader)
    }
}

/// How many bit-planes of a block are zero (T.800 B.10.5), of `planes` in all.
///
/// A block tells it with its first piece. One query for all bit-planes reads the same bits as
/// queries with growing thresholds.
pub(crate) fn read_zero_planes(
    block: Block,
    leaf: u32,
    planes: u8,
    tree: &mut ReadTree,
    reader: &mut BitReader<'_>,
) -> Result<u8, Fault>
    requires leaf { leaf < tree.old.shape.width * tree.old.shape.height }
    ensures exact { Reads (zero_planes_at planes leaf block) (tree.old, reader.old) (tree.new, reader.new) result }
    ensures kept { tree.new.shape ≡ tree.old.shape }
{
    if block.included {
        return Ok(block.zero_planes);
    }
    let known = tree.ask(leaf, planes as u16 + 1, reader)?;
    if !known {
        return Err(Fault::PacketHeader);
    }
    Ok(tree.low(leaf) as u8)
}
