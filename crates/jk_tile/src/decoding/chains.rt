//! The packets of each precinct of a resolution, as chains through all packets of a tile.

ghost use Rattle.std.specs.Prelude.{◌≡◌, ℕ, ◌+◌, ◌<◌, ◌≤◌, not, ◌&&◌, ◌==◌, ◌^◌, nat_lt, List, length, slice_index};
ghost use Rattle.std.specs.Prelude.{slice_set, IfOk, IfErr, OnOk};
ghost use Rattle.jk_math.specs.Memory.{IsMemory};
ghost use Rattle.jk_tile.specs.decoding.Gathered.{IsChain, AreByPrecinct};

use jk_geom::PacketName;
use jk_math::Fault;
use jk_walk::{PacketPlace, TilePackets};
use std::alloc::Global;

/// The packets of each precinct of a resolution of a component that have something of a code-block,
/// by their numbers among all packets of the tile: 4 bytes for each precinct and 4 for each packet.
///
/// Packet `i` is told by the number `i + 1`, and 0 tells that there is none.
#[derive(Drop)]
pub struct PacketChains {
    /// The first packet of each precinct.
    first: Vec<u32>,
    /// Behind each packet the next one of its precinct.
    next: Vec<u32>,
}

/// Whether a packet is of a resolution of a component, in one of so many precincts.
fn is_of_resolution(name: PacketName, component: u8, resolution: u8, precincts: usize) -> bool
    ensures { result ≡ ((name.component == component)
        && ((name.resolution == resolution) && nat_lt name.precinct precincts)) }
{
    name.component == component
        && (name.resolution == resolution && (name.precinct as usize) < precincts)
}

/// Whether it has something of a code-block beside that.
fn is_full_of_resolution(
    packet: &PacketPlace,
    component: u8,
    resolution: u8,
    precincts: usize,
) -> bool
    ensures { result ≡ ((((packet.now.name).component == component)
        && (((packet.now.name).resolution == resolution) && nat_lt (packet.now.name).precinct precincts))
        && not (length packet.now.parts == 0)) }
{
    is_of_resolution(packet.name, component, resolution, precincts)
        && !packet.parts.as_slice().is_empty()
}

/// Puts a packet before the others of a precinct.
fn link(chains: &mut PacketChains, precinct: usize, number: usize)
    requires precinct { precinct < length chains.old.first.items }
    requires number { number < length chains.old.next.items }
    requires few { number < 2 ^ 24 }
    ensures first { chains.new.first.items ≡ slice_set chains.old.first.items precinct (number + 1) }
    ensures next { chains.new.next.items
        ≡ slice_set chains.old.next.items number (slice_index chains.old.first.items precinct) }
{
    chains.next[number] = chains.first[precinct];
    chains.first[precinct] = number as u32 + 1;
}

/// The packets of each precinct of a resolution of a component among these packets.
pub fn packets_by_precinct(
    alloc: Global,
    packets: &TilePackets,
    component: u8,
    resolution: u8,
    precincts: usize,
) -> Result<PacketChains, Fault>
    ensures chains { IfOk result (λ v. AreByPrecinct packets.now 0 component resolution precincts v) }
    ensures memory { IfErr result IsMemory }
{
    let places = packets.as_slice();
    let full = packets.full();
    let mut chains = PacketChains {
        first: vec![in alloc; 0; precincts]?,
        next: vec![in alloc; 0; places.len()]?,
    };
    let mut left = full.len();
    while left > 0 {
        left -= 1;
        let number = full[left] as usize;
        let packet = &places[number];
        let taken = is_full_of_resolution(packet, component, resolution, precincts);
        if taken {
            link(&mut chains, packet.name.precinct as usize, number);
        }
    }
    Ok(chains)
}

/// The numbers of the packets of a precinct, in the order of the packets.
pub(crate) fn follow(
    chains: &PacketChains,
    precinct: usize,
    numbers: &mut Vec<usize>,
) -> Result<(), Fault>
    requires precinct { precinct < length chains.now.first.items }
    requires chain { (list : List ℕ)
        × IsChain chains.now.next.items 0 (slice_index chains.now.first.items precinct) list }
    ensures numbers { OnOk result ((list : List ℕ)
        → IsChain chains.now.next.items 0 (slice_index chains.now.first.items precinct) list
        → numbers.new.items ≡ list) }
    ensures memory { IfErr result IsMemory }
{
    numbers.clear();
    let mut at = chains.first[precinct];
    while at > 0 {
        let number = at as usize - 1;
        numbers.push(number)?;
        at = chains.next[number];
    }
    Ok(())
}
