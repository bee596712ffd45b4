//! What packets have of each code-block.

ghost use Rattle.std.specs.Prelude.{◌≡◌, ℕ, ◌+◌, ◌<◌, ◌≤◌, ◌&&◌, ◌==◌, IsTrue, nat_eq, nat_le, nat_lt, if◌then◌else◌, ◌++◌, List, []};
ghost use Rattle.std.specs.Prelude.{◌∷◌, length, map, min, ◌-◌, ◌^◌, IfOk, IfErr, OnOk, All};
ghost use Rattle.std.specs.List.{AllByRecursion};
ghost use Rattle.jk_math.specs.Memory.{IsMemory};
ghost use Rattle.jk_walk.specs.WalkReading.{place_end, bodies_at};
ghost use Rattle.jk_walk.specs.TilePackets.{Body};
ghost use Rattle.jk_tile.specs.TileBlocks.{passes_in, zeros_in, block_bytes};
ghost use Rattle.jk_tile.specs.decoding.Gathered.{place_in, body_of, bodies_in, IsInside, AreByBlock};
ghost use Rattle.jk_math.specs.Lists.{list_at};

use jk_math::Fault;
use jk_packet::BlockContribution;
use jk_walk::PacketPlace;
use std::alloc::Global;

/// What a packet has of a code-block, and where its bytes begin in the codestream.
#[derive(Clone, Copy, Debug, PartialEq, Eq, Drop)]
pub(crate) struct BodyPlace {
    pub(crate) part: BlockContribution,
    pub(crate) start: usize,
}

/// So many empty lists.
fn empty_bodies(alloc: Global, count: usize) -> Result<Vec<Vec<BodyPlace>>, Fault>
    ensures long { IfOk result (λ v. length v.items ≡ count) }
    ensures empty { IfOk result (λ v. (n : ℕ) → list_at v.items n ≡ []) }
    ensures memory { IfErr result IsMemory }
{
    let mut lists = Vec::new(alloc);
    for _ in 0..count {
        lists.push(Vec::new(alloc))?;
    }
    Ok(lists)
}

/// Puts a body behind one of the lists.
fn add_body(lists: &mut Vec<Vec<BodyPlace>>, index: usize, body: BodyPlace) -> Result<(), Fault>
    requires { index < length lists.old.items }
    ensures long { OnOk result (length lists.new.items ≡ length lists.old.items) }
    ensures lists { OnOk result ((n : ℕ) → list_at lists.new.items n
        ≡ (if nat_eq index n then list_at lists.old.items n ++ body ∷ [] else list_at lists.old.items n)) }
    ensures memory { IfErr result IsMemory }
{
    lists[index].push(body)?;
    Ok(())
}

/// Some of the code-blocks of a sub-band: so many, from number `first` on.
#[derive(Clone, Copy)]
pub(crate) struct SomeBlocks {
    pub(crate) band: u8,
    pub(crate) first: u32,
    pub(crate) count: u32,
}

/// Whether a part is of one of some code-blocks.
fn is_of(part: BlockContribution, blocks: SomeBlocks) -> bool
    ensures value { result ≡ ((part.band == blocks.band)
        && (nat_le blocks.first part.block && nat_lt (part.block - blocks.first) blocks.count)) }
    ensures within { IsTrue result → (blocks.first ≤ part.block) × (part.block - blocks.first < blocks.count) }
{
    part.band == blocks.band
        && (blocks.first <= part.block && part.block - blocks.first < blocks.count)
}

/// Puts what a packet has of some code-blocks of a sub-band behind their lists.
fn add_bodies(
    packet: &PacketPlace,
    blocks: SomeBlocks,
    lists: &mut Vec<Vec<BodyPlace>>,
) -> Result<(), Fault>
    requires end { place_end packet.now < 2 ^ 64 }
    requires long { length lists.old.items ≡ blocks.count }
    ensures lists { OnOk result
        ((size : ℕ) (before : List ℕ → List Body) → place_end packet.now ≤ size
        → AreByBlock size blocks.band blocks.first blocks.count before lists.old.items
        → AreByBlock size blocks.band blocks.first blocks.count
        (λ bytes. before bytes ++ bodies_at bytes packet.now.body packet.now.parts) lists.new.items) }
    ensures long { OnOk result (length lists.new.items ≡ blocks.count) }
    ensures memory { IfErr result IsMemory }
{
    let parts = packet.parts.as_slice();
    let mut start = packet.body;
    for index in 0..parts.len() {
        let part = parts[index];
        let taken = is_of(part, blocks);
        if taken {
            let number = (part.block - blocks.first) as usize;
            add_body(lists, number, BodyPlace { part, start })?;
        }
        start += part.length as usize;
    }
    Ok(())
}

/// What these packets have of each of some code-blocks of a sub-band, in the order of the packets.
pub(crate) fn bodies_by_block(
    alloc: Global,
    packets: &[PacketPlace],
    numbers: &[usize],
    blocks: SomeBlocks,
) -> Result<Vec<Vec<BodyPlace>>, Fault>
    requires ends { AllByRecursion (λ w. place_end w < 2 ^ 64) packets.now }
    requires numbers { All (λ i. i < length packets.now) numbers.now }
    ensures lists { IfOk result
        (λ v. (size : ℕ) → AllByRecursion (λ w. place_end w ≤ size) packets.now
        → AreByBlock size blocks.band blocks.first blocks.count
        (λ bytes. bodies_in bytes (map (place_in packets.now) numbers.now)) v.items) }
    ensures memory { IfErr result IsMemory }
{
    let mut lists = empty_bodies(alloc, blocks.count as usize)?;
    for index in 0..numbers.len() {
        add_bodies(&packets[numbers[index]], blocks, &mut lists)?;
    }
    Ok(lists)
}

/// How many coding passes bodies have, and 2^64 - 1 where they have more.
pub(crate) fn passes(bodies: &[BodyPlace]) -> usize
    ensures { (bytes : List ℕ) → result ≡ min (passes_in (map (body_of bytes) bodies.now)) (2 ^ 64 - 1) }
{
    let mut passes: usize = 0;
    for index in 0..bodies.len() {
        passes = passes.saturating_add(bodies[index].part.passes as usize);
    }
    passes
}

/// How many bit-planes are zero by the first of the bodies, or 0 where there is none.
pub(crate) fn zero_planes(bodies: &[BodyPlace]) -> u8
    ensures { (bytes : List ℕ) → result ≡ zeros_in (map (body_of bytes) bodies.now) }
{
    if bodies.is_empty() {
        0
    } else {
        bodies[0].part.zero_planes
    }
}

/// Puts the bytes of bodies one behind another.
pub(crate) fn join(bytes: &[u8], bodies: &[BodyPlace], segment: &mut Vec<u8>) -> Result<(), Fault>
    requires { All (IsInside (length bytes.now)) bodies.now }
    ensures segment { OnOk result (segment.new.items ≡ block_bytes (map (body_of bytes.now) bodies.now)) }
    ensures memory { IfErr result IsMemory }
{
    segment.clear();
    for index in 0..bodies.len() {
        let body = bodies[index];
        segment.extend_from_slice(&bytes[body.start..body.start + body.part.length as usize])?;
    }
    Ok(())
}
