//! Reading the packets of a tile from front to back.

ghost use Rattle.std.specs.Prelude.{◌≡◌, ◌+◌, ◌≤◌, ◌<◌, ◌*◌, ◌^◌, ℕ, false, length, IfOk, OnOk, MatchResult};
ghost use Rattle.std.specs.List.{AllByRecursion};
ghost use Rattle.jk_math.specs.Answer.{ReadsBy, Answers};
ghost use Rattle.jk_math.specs.declared.fault.Fault.TheVariants.{Truncated};
ghost use Rattle.jk_geom.specs.TileShapes.{IsTileShape};
ghost use Rattle.jk_order.specs.PacketOrder.{IsName, IsPrecinct, is_of, order, packet_count};
ghost use Rattle.jk_params.specs.Coding.{HasPlanes};
ghost use Rattle.jk_walk.specs.WalkReading.{bodies_length, place_end, blank_states, packet_at, names_at, each_of};
ghost use Rattle.jk_walk.specs.Keeping.{alone, most_resolutions, states_in, IsKept};

use crate::parts::PartsLeft;
use crate::places::PacketPlace;
use crate::precincts::Precincts;
use crate::spans::OfPacket;
use jk_geom::{PacketName, TileShape};
use jk_math::Fault;
use jk_order::{Packets, packet_count};
use jk_packet::BlockContribution;
use jk_params::PacketMarkers;
use std::alloc::Global;

/// How many bytes the bodies of parts take.
///
/// Truncated: they take more than `room`.
fn bodies_size(parts: &[BlockContribution], room: usize) -> Result<usize, Fault>
    ensures { MatchResult result
        (λ n. (n ≡ bodies_length parts.now) × (n ≤ room)) (λ e. (e ≡ Truncated) × (room < bodies_length parts.now)) }
{
    let mut size = 0;
    for part in parts {
        let length = part.length as usize;
        if length > room - size {
            return Err(Fault::Truncated);
        }
        size += length;
    }
    Ok(size)
}

/// The packet of a name at the front of what is left of a part, and the place behind it.
///
/// The faults are those of the header, and Truncated where the bodies pass the end of the part.
fn read_packet(
    shape: &TileShape,
    bytes: &[u8],
    part: (usize, usize),
    name: PacketName,
    precincts: &mut Precincts,
) -> Result<(PacketPlace, usize), Fault>
    requires shape { IsTileShape shape.now }
    requires planes { AllByRecursion HasPlanes shape.now.codings }
    requires name { IsName shape.now name }
    requires kept { length precincts.old.precincts ≡ length shape.now.codings * most_resolutions }
    requires next { name.layer
        ≡ (states_in shape.now precincts.old name.component name.resolution name.precinct).layers }
    requires part { (part.0 ≤ part.1) × (part.1 ≤ length bytes.now) }
    ensures exact { Answers (λ o. o.0) result (alone (packet_at bytes.now part name
        (states_in shape.now precincts.old name.component name.resolution name.precinct))) }
    ensures early { name.layer + 1 < shape.now.layers → ReadsBy (λ o. o.0) (packet_at bytes.now part name)
        (states_in shape.now precincts.old name.component name.resolution name.precinct)
        (states_in shape.now precincts.new name.component name.resolution name.precinct) result }
    ensures end { IfOk result (λ o. (o.1 ≡ place_end o.0) × (o.1 ≤ part.1) × (o.0.start ≤ o.1)) }
    ensures others { OnOk result ((c r k : ℕ) → IsPrecinct shape.now c r k → is_of c r k name ≡ false
        → states_in shape.now precincts.new c r k ≡ states_in shape.now precincts.old c r k) }
    ensures kept { IsKept precincts.old precincts.new }
{
    let (start, end) = part;
    let header = precincts.read_header(shape, name, &bytes[start..end])?;
    let body = start + header.length;
    let size = bodies_size(header.parts.as_slice(), end - body)?;
    let place = PacketPlace {
        name,
        start,
        body,
        parts: header.parts,
    };
    Ok((place, body + size))
}

/// What is kept of the packets of a tile of this shape, whose data stand at these places.
///
/// No tile has more packets than its file has bytes, so room for as many is taken at once: it is
/// touched as packets are read, and has no place to spare behind the last.
pub(crate) fn read_kept<K: OfPacket>(
    alloc: Global,
    shape: &TileShape,
    markers: PacketMarkers,
    bytes: &[u8],
    parts: &[(usize, usize)],
) -> Result<Vec<K>, Fault>
    requires shape { IsTileShape shape.now }
    requires planes { AllByRecursion HasPlanes shape.now.codings }
    requires few { packet_count shape.now ≤ 2 ^ 24 }
    requires parts { AllByRecursion (λ p. (p.0 ≤ p.1) × (p.1 ≤ length bytes.now)) parts.now }
    ensures { Answers (λ v. v.items) result
        (each_of (K.kept_of bytes.now markers.sop)
        (names_at bytes.now (order shape.now) (blank_states shape.now markers.sop markers.eph) parts.now)) }
{
    let count = packet_count(shape);
    let mut packets = Packets::new(shape)?;
    let mut precincts = Precincts::new(alloc, shape.codings.as_slice().len(), markers)?;
    let mut left = PartsLeft::new(parts);
    let mut all = Vec::with_capacity(alloc, bytes.len().min(count as usize))?;
    for _ in 0..count {
        let Some(name) = packets.next() else {
            break;
        };
        let Some(part) = left.in_hand() else {
            return Err(Fault::MissingPackets);
        };
        let (place, end) = read_packet(shape, bytes, part, name, &mut precincts)?;
        all.push(K::of_packet(bytes, markers.sop, place, end))?;
        left.advance(end);
    }
    if left.in_hand().is_some() {
        return Err(Fault::SurplusBytes);
    }
    Ok(all)
}
