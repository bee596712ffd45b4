//! Where the packets of a tile stand in a stored file.

ghost use Rattle.std.specs.Prelude.{◌≡◌, ◌⊎◌, true, ◌+◌, ◌*◌, ◌≤◌, ◌<◌, ◌^◌, ℕ, List, length, Ok, IfOk, OnOk, MatchResult};
ghost use Rattle.std.specs.List.{AllByRecursion};
ghost use Rattle.jk_math.specs.declared.fault.Fault.TheVariants.{Truncated};
ghost use Rattle.jk_geom.specs.TileShapes.{IsTileShape};
ghost use Rattle.jk_order.specs.PacketOrder.{IsName, packet_count, order};
ghost use Rattle.jk_packet.specs.Reading.{PrecinctState};
ghost use Rattle.jk_params.specs.Coding.{HasPlanes};
ghost use Rattle.jk_walk.specs.Sop.{counter_of};
ghost use Rattle.jk_walk.specs.WalkReading.{bodies_length};
ghost use Rattle.jk_walk.specs.Keeping.{most_resolutions, states_in};
ghost use Rattle.jk_stored.specs.Hands.{IsHeld};
ghost use Rattle.jk_stored.specs.Walks.{entries_in, HasRead, IsEntryAt};

use crate::hand::{Hand, ROOM};
use crate::precincts::Precincts;
use crate::stored::Stored;
use jk_geom::{PacketName, TileShape};
use jk_math::Fault;
use jk_order::{Packets, packet_count};
use jk_packet::BlockContribution;
use jk_params::PacketMarkers;
use jk_walk::PacketEntry;
use std::alloc::Global;

/// The counter of the SOP marker segment at the front of a packet, where one may stand and does.
fn counter(sop: bool, text: &[u8]) -> Option<(u8, u8)>
    ensures { result ≡ counter_of sop text.now }
{
    if text.len() >= 6 && sop && text[0] == 0xFF && text[1] == 0x91 {
        Some((text[4], text[5]))
    } else {
        None
    }
}

/// How many bytes the bodies of parts take.
///
/// Truncated: they take more than `room`.
fn bodies_size(parts: &[BlockContribution], room: usize) -> Result<usize, Fault>
    ensures { MatchResult result
        (λ n. (n ≡ bodies_length parts.now) × (n ≤ room)) (λ e. (e ≡ Truncated) × (room < bodies_length parts.now)) }
{
    let mut size = 0;
    for part in parts {
        let length = part.length as usize;
        if length > room - size {
            return Err(Fault::Truncated);
        }
        size += length;
    }
    Ok(size)
}

/// Whether a header that is read in so many bytes is that which is read in all that are left: six or
/// more are enough, by `headers_are_read_forward`.
fn are_enough(count: usize, left: usize) -> bool
    ensures { result ≡ true → (6 ≤ count) ⊎ (left ≤ count) }
{
    count >= 6 || count >= left
}

/// The entry of the packet of a name at the front of what is left of a part.
///
/// Any fault where the packet isn't read in the bytes that are at hand.
fn read_entry<S: Stored>(
    stored: &S,
    shape: &TileShape,
    sop: bool,
    part: (usize, usize),
    name: PacketName,
    precincts: &mut Precincts,
    hand: &mut Hand,
) -> Result<PacketEntry, Fault>
    requires shape { IsTileShape shape.now }
    requires planes { AllByRecursion HasPlanes shape.now.codings }
    requires name { IsName shape.now name }
    requires kept { length precincts.old.precincts ≡ length shape.now.codings * most_resolutions }
    requires next { name.layer
        ≡ (states_in shape.now precincts.old name.component name.resolution name.precinct).layers }
    requires part { part.0 ≤ part.1 }
    ensures read { IfOk result (λ e. (x : PrecinctState) × HasRead shape.now name precincts.old precincts.new x
        × ((c : List ℕ) → S.keeps stored.now c → part.1 ≤ length c → IsHeld c hand.old
        → IsEntryAt c sop part name (states_in shape.now precincts.old name.component name.resolution name.precinct) x
        e)) }
    ensures end { IfOk result (λ e. e.end ≤ part.1) }
    ensures held { (c : List ℕ) → S.keeps stored.now c → IsHeld c hand.old → OnOk result (IsHeld c hand.new) }
{
    let (start, end) = part;
    hand.reach(stored, start, end)?;
    let bytes = hand.bytes(start, end);
    let are_told = are_enough(bytes.len(), end - start);
    if !are_told {
        return Err(Fault::Truncated);
    }
    let header = precincts.read_header(shape, name, bytes)?;
    let body = start + header.length;
    let size = bodies_size(header.parts.as_slice(), end - body)?;
    let front = bytes.len().min(header.length + size);
    Ok(PacketEntry {
        start,
        body,
        end: body + size,
        counter: counter(sop, &bytes[..front]),
    })
}

/// The packets of a tile of a stored codestream in their order: whose each is, and where it stands.
#[derive(Drop)]
pub(crate) struct StoredPackets {
    pub(crate) names: Vec<PacketName>,
    pub(crate) entries: Vec<PacketEntry>,
}

/// How many bytes are to be at hand where so many packets have so many bytes: the bytes of a packet,
/// as far as one header and another are no longer, and some more.
fn enough(size: usize, count: usize) -> usize {
    let mean = size / count.max(1);
    (4096 + mean / 4).min(ROOM)
}

/// The packets of a tile of this shape, whose data stand at one place of a stored codestream.
///
/// Any fault where the packets aren't read so. No tile has more packets than its data have bytes,
/// and room for as many is taken at once.
pub(crate) fn read_stored<S: Stored>(
    alloc: Global,
    stored: &S,
    shape: &TileShape,
    markers: PacketMarkers,
    part: (usize, usize),
    hand: &mut Hand,
) -> Result<StoredPackets, Fault>
    requires shape { IsTileShape shape.now }
    requires planes { AllByRecursion HasPlanes shape.now.codings }
    requires few { packet_count shape.now ≤ 2 ^ 24 }
    requires part { part.0 ≤ part.1 }
    ensures read { (c : List ℕ) → S.keeps stored.now c → part.1 ≤ length c → IsHeld c hand.old
        → IfOk result (λ p. entries_in c shape.now markers.sop markers.eph part ≡ Ok p.entries.items) }
    ensures order { IfOk result (λ p. p.names.items ≡ order shape.now) }
    ensures names { IfOk result (λ p. AllByRecursion (IsName shape.now) p.names.items) }
    ensures held { (c : List ℕ) → S.keeps stored.now c → IsHeld c hand.old → OnOk result (IsHeld c hand.new) }
{
    let (start, end) = part;
    let count = packet_count(shape);
    let mut packets = Packets::new(shape)?;
    let mut precincts = Precincts::new(alloc, shape.codings.as_slice().len(), markers)?;
    let room = (end - start).min(count as usize);
    let mut names = Vec::with_capacity(alloc, room)?;
    let mut all = Vec::with_capacity(alloc, room)?;
    hand.aim(enough(end - start, count as usize));
    let mut at = start;
    for _ in 0..count {
        let Some(name) = packets.next() else {
            break;
        };
        if at >= end {
            return Err(Fault::MissingPackets);
        }
        let entry = read_entry(
            stored,
            shape,
            markers.sop,
            (at, end),
            name,
            &mut precincts,
            hand,
        )?;
        at = entry.end;
        names.push(name)?;
        all.push(entry)?;
    }
    if at < end {
        return Err(Fault::SurplusBytes);
    }
    Ok(StoredPackets {
        names,
        entries: all,
    })
}
