//! Coded code-blocks cut into layers.

ghost use Rattle.std.specs.Prelude.{◌≡◌, ◌+◌, ◌<◌, ◌≤◌, length, IfOk, IfErr};
ghost use Rattle.jk_math.specs.Memory.{IsMemory};
ghost use Rattle.jk_block.specs.CodedBlocks.{contents};
ghost use Rattle.jk_block.specs.Layers.{passes_upto, without_ff, bytes_upto};
ghost use Rattle.jk_tile.specs.encoding.PacketsWritten.{IsCodedBlock, parts_for};
ghost use Rattle.jk_tile.specs.encoding.Layered.{layered, table_with};

use jk_block::CodedBlock;
use jk_math::Fault;
use jk_packet::{BlockTable, LayerPart};
use std::alloc::Global;
use std::marker::Model;

/// How many coding passes of a block of so many bit-planes stand in the layers up to this one: the
/// last layer has bit-plane 0, the one before it plane 1 and so on, the first one all planes that
/// are left.
#[tactic(auto, unfolding(jk_block::specs::Layers::passes_upto))]
fn passes_upto(layers: u16, planes: u32, layer: u16) -> u32
    requires some { layer < layers }
    requires planes { planes ≤ 23 }
    ensures value { result ≡ passes_upto layers planes layer }
    ensures few { result ≤ 67 }
{
    let below = (layers - 1 - layer) as u32;
    if planes <= below {
        0
    } else {
        3 * (planes - below) - 2
    }
}

/// A length, less one where the byte before its end is FF.
#[tactic(auto, unfolding(jk_block::specs::Layers::without_ff))]
fn without_ff(bytes: &[u8], size: usize) -> usize
    requires { size ≤ length bytes.now }
    ensures value { result ≡ without_ff bytes.now size }
{
    if size > 0 && bytes[size - 1] == 0xFF {
        size - 1
    } else {
        size
    }
}

/// How many bytes of a block stand in the layers up to this one.
#[tactic(auto, unfolding(jk_block::specs::Layers::bytes_upto))]
fn bytes_upto(coded: &CodedBlock, layers: u16, layer: u16) -> usize
    requires some { layer < layers }
    requires coded { IsCodedBlock coded.now }
    ensures value { result ≡ bytes_upto layers (contents coded.now) layer }
    ensures within { result ≤ length coded.now.bytes.items }
{
    let passes = passes_upto(layers, coded.planes, layer) as usize;
    let all = coded.bytes.len();
    if passes == 0 {
        return 0;
    }
    if layer + 1 == layers {
        return all;
    }
    without_ff(
        &coded.bytes,
        all.min(coded.marks[passes - 1].saturating_add(4)),
    )
}

/// What each layer has of a block: how many passes it adds, and where its bytes end.
fn layer_parts(alloc: Global, coded: &CodedBlock, layers: u16) -> Result<Vec<LayerPart>, Fault>
    requires coded { IsCodedBlock coded.now }
    ensures parts { IfOk result (λ v. v.items ≡ parts_for layers (contents coded.now)) }
    ensures memory { IfErr result IsMemory }
{
    let mut parts = Vec::with_capacity(alloc, layers as usize)?;
    let mut before = 0;
    for layer in 0..layers {
        let passes = passes_upto(layers, coded.planes, layer);
        let end = bytes_upto(coded, layers, layer);
        parts.push(LayerPart {
            passes: (passes - before) as u8,
            end: end as u32,
        })?;
        before = passes;
    }
    Ok(parts)
}

/// A coded block cut into layers: its own bit-planes, what each layer has of it, and its bytes. How
/// many bit-planes its sub-band has isn't known yet.
#[derive(Drop)]
pub(crate) struct LayeredBlock {
    planes: u32,
    parts: Vec<LayerPart>,
    bytes: Vec<u8>,
}

impl Model for LayeredBlock {
    ghost use Rattle.std.specs.Prelude.{length};
    ghost use Rattle.jk_packet.specs.Written.{AreEnds};
    ghost use Rattle.jk_tile.specs.encoding.Layered.{Layered};

    ghost Value = { Layered };

    ghost view = { λ b. record { planes = b.planes; parts = b.parts.items; bytes = b.bytes.items } };

    ghost invariant = { λ b. AreEnds 0 b.parts.items (length b.bytes.items) };
}

impl LayeredBlock {
    /// A coded block, cut into so many layers. Its bytes give back the room in which they grew.
    pub(crate) fn new(alloc: Global, coded: CodedBlock, layers: u16) -> Result<LayeredBlock, Fault>
        requires coded { IsCodedBlock coded }
        ensures value { IfOk result (λ b. b ≡ layered layers (contents coded)) }
        ensures memory { IfErr result IsMemory }
    {
        let parts = layer_parts(alloc, &coded, layers)?;
        let mut bytes = coded.bytes;
        bytes.shrink_to_fit();
        Ok(LayeredBlock {
            planes: coded.planes,
            parts,
            bytes,
        })
    }

    /// What is written of it in a sub-band of so many bit-planes.
    pub(crate) fn table(self, planes: u32) -> BlockTable
        requires room { self.planes ≤ planes }
        requires planes { planes ≤ 23 }
        ensures table { result ≡ table_with planes self }
    {
        let zero_planes = (planes - self.planes) as u8;
        BlockTable::new(zero_planes, 0, self.parts, self.bytes)
    }
}
