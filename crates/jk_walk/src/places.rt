//! Where the packets of a tile stand.

ghost use Rattle.std.specs.Prelude.{◌≡◌, ◌+◌, ◌<◌, ◌≤◌, ◌↔◌, ◌^◌, [], length, sum_by, IsTrue, MatchResult};
ghost use Rattle.jk_math.specs.Memory.{IsMemory};
ghost use Rattle.jk_walk.specs.WalkReading.{bodies_length, place_end, full_numbers};

use jk_geom::PacketName;
use jk_math::Fault;
use jk_packet::{BlockContribution, Parts};
use std::alloc::Global;
use std::marker::Model;

/// Where a packet stands in the codestream.
#[derive(Debug, Drop)]
pub struct PacketPlace {
    /// Whose packet it is.
    pub name: PacketName,
    /// The packet's first byte, which is its header's, or that of an SOP marker segment.
    pub start: usize,
    /// The first byte behind the header and its EPH marker, where the bodies begin.
    pub body: usize,
    /// What the packet has of each code-block that it has something of. The bodies stand in this
    /// order.
    pub parts: Parts,
}

/// The first byte behind the bodies of parts, which begin at a place.
fn behind(body: usize, parts: &[BlockContribution]) -> usize
    requires { body + bodies_length parts.now < 2 ^ 64 }
    ensures { result ≡ body + bodies_length parts.now }
{
    let mut end = body;
    for part in parts {
        end += part.length as usize;
    }
    end
}

impl PacketPlace {
    ghost use Rattle.std.specs.Prelude.{◌≡◌, ◌<◌, ◌^◌};
    ghost use Rattle.jk_walk.specs.WalkReading.{place_end};

    /// The first byte behind the packet.
    pub fn end(&self) -> usize
        requires { place_end self.now < 2 ^ 64 }
        ensures { result ≡ place_end self.now }
    {
        behind(self.body, self.parts.as_slice())
    }
}

/// The packets of a tile in their order, each by its place.
#[derive(Debug, Drop)]
pub struct TilePackets {
    places: Vec<PacketPlace>,
    full: Vec<u32>,
}

impl Model for TilePackets {
    ghost use Rattle.std.specs.Prelude.{List, length, ◌≡◌, ◌≤◌, ◌^◌};
    ghost use Rattle.jk_walk.specs.declared.places.PacketPlace.{PacketPlace};
    ghost use Rattle.jk_walk.specs.WalkReading.{full_numbers};

    ghost Value = { List PacketPlace };

    ghost view = { λ p. p.places.items };

    ghost invariant = { λ p. (length p.places.items ≤ 2 ^ 24) × (p.full.items ≡ full_numbers 0 p.places.items) };
}

/// The numbers of the packets that have something of a code-block.
fn full_of(alloc: Global, places: &[PacketPlace]) -> Result<Vec<u32>, Fault>
    requires { length places.now ≤ 2 ^ 24 }
    ensures { MatchResult result (λ v. v.items ≡ full_numbers 0 places.now) (λ e. IsMemory e) }
{
    let mut full = Vec::new(alloc);
    for number in 0..places.len() {
        if !places[number].parts.as_slice().is_empty() {
            full.push(number as u32)?;
        }
    }
    Ok(full)
}

impl TilePackets {
    /// Packets at these places.
    pub(crate) fn new(alloc: Global, places: Vec<PacketPlace>) -> Result<TilePackets, Fault>
        requires { length places.items ≤ 2 ^ 24 }
        ensures { MatchResult result (λ p. p ≡ places.items) (λ e. IsMemory e) }
    {
        let full = full_of(alloc, &places)?;
        Ok(TilePackets { places, full })
    }

    /// How many packets there are.
    pub fn len(&self) -> usize
        ensures { result ≡ length self.now }
    {
        self.places.len()
    }

    /// Whether there is no packet.
    pub fn is_empty(&self) -> bool
        ensures { IsTrue result ↔ (self.now ≡ []) }
    {
        self.places.is_empty()
    }

    /// The numbers of the packets that have something of a code-block, in their order.
    pub fn full(&self) -> &[u32]
        ensures value { result.now ≡ full_numbers 0 self.now }
        ensures few { length self.now ≤ 2 ^ 24 }
    {
        &self.full
    }

    /// The places, one after another.
    pub fn as_slice(&self) -> &[PacketPlace]
        ensures value { result.now ≡ self.now }
        ensures few { length self.now ≤ 2 ^ 24 }
    {
        &self.places
    }
}
