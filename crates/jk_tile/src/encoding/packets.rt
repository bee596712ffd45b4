//! The packets of a tile that is written, in their order (T.800 B.12).

ghost use Rattle.std.specs.Prelude.{◌≡◌, ◌≢◌, ℕ, ◌+◌, ◌*◌, ◌^◌, ◌<◌, ◌≤◌, ◌⊎◌, List, length, replicate, None, slice_index};
ghost use Rattle.std.specs.Prelude.{OnOk, MatchResult};
ghost use Rattle.std.specs.List.{flat_map};
ghost use Rattle.jk_math.specs.Memory.{IsMemory};
ghost use Rattle.jk_marks.specs.Coding.{IsCoding};
ghost use Rattle.jk_geom.specs.Rectangles.{IsArea};
ghost use Rattle.jk_geom.specs.Precincts.{precinct_number};
ghost use Rattle.jk_geom.specs.Counts.{precincts_below};
ghost use Rattle.jk_geom.specs.TileShapes.{IsTileShape};
ghost use Rattle.jk_order.specs.PacketOrder.{IsName, packet_count, order};
ghost use Rattle.jk_params.specs.Coding.{HasPlanes};
ghost use Rattle.jk_packet.specs.Written.{PrecinctTables, part_in, bodies_text};
ghost use Rattle.jk_tile.specs.encoding.PacketsWritten.{written_text};
ghost use Rattle.jk_tile.specs.encoding.TileWriters.{tables_in, kept_writer, writer_at, writer_in, text_by};
ghost use Rattle.jk_tile.specs.encoding.TileWriters.{IsPrecinctList, AreLists};
ghost use Rattle.jk_tile.specs.encoding.Sinks.{IsPassed};
ghost use Rattle.jk_math.specs.Lists.{lists_of};

use crate::encoding::sinks::TextSink;
use jk_geom::{PacketName, TileShape, precinct_count};
use jk_marks::Coding;
use jk_math::{Fault, Rect};
use jk_order::{Packets, packet_count};
use jk_packet::{BlockTable, PrecinctWriter};
use jk_params::PacketMarkers;
use jk_walk::precinct_shape;
use std::alloc::Global;

/// How many precincts the resolutions below each one have, and behind the highest resolution all of
/// a component.
fn firsts(rect: &Rect, coding: &Coding) -> [u32; 12]
    requires area { IsArea rect.now }
    requires coding { IsCoding coding.now }
    requires few { precincts_below rect.now coding.now (coding.now.levels + 1) ≤ 2 ^ 24 }
    ensures { (r : ℕ) → r ≤ coding.now.levels + 1 → slice_index result r ≡ precincts_below rect.now coding.now r }
{
    let mut firsts = [0; 12];
    let mut sum = 0;
    for r in 0..coding.levels + 1 {
        let (across, down) = precinct_count(rect, coding, r);
        sum += across * down;
        firsts[r as usize + 1] = sum;
    }
    firsts
}

/// Where the writer of a packet's precinct stands.
fn place_of(firsts: &[u32; 12], levels: u8, name: PacketName) -> usize
    requires levels { levels ≤ 10 }
    requires component { name.component < 4 }
    requires resolution { name.resolution ≤ levels }
    ensures { result
        ≡ name.component * slice_index firsts.now (levels + 1)
        + (slice_index firsts.now name.resolution + name.precinct) }
{
    let below = firsts[name.resolution as usize] as usize + name.precinct as usize;
    name.component as usize * firsts[levels as usize + 1] as usize + below
}

/// What all packets of a tile that is written share: the tile's shape, the coding of each of its
/// components, and which markers the packets have.
#[derive(Clone, Copy)]
pub(crate) struct TileFrame<'a> {
    pub(crate) shape: &'a TileShape,
    pub(crate) coding: &'a Coding,
    pub(crate) markers: PacketMarkers,
}

/// What is kept of the writer of a precinct: nothing before its first packet, and nothing behind
/// its last.
type Slot<'a> = Option<Box<PrecinctWriter<'a>>>;

/// Slots for so many precincts, of which no packet is written.
fn no_writers<'a>(alloc: Global, count: usize) -> Result<Vec<Slot<'a>>, Fault>
    ensures { MatchResult result (λ v. v.items ≡ replicate count None) IsMemory }
{
    let mut slots = Vec::with_capacity(alloc, count)?;
    for _ in 0..count {
        slots.push(None)?;
    }
    Ok(slots)
}

/// A writer of the precinct of a packet, from the tables of its code-blocks.
fn new_writer<'a>(
    alloc: Global,
    frame: &TileFrame<'_>,
    name: PacketName,
    tables: &'a [BlockTable],
) -> Result<PrecinctWriter<'a>, Fault>
    requires area { IsArea frame.now.shape.now.rect }
    requires coding { IsCoding frame.now.coding.now }
    requires planes { HasPlanes frame.now.coding.now }
    requires resolution { name.resolution ≤ frame.now.coding.now.levels }
    requires precinct { name.precinct < precinct_number frame.now.shape.now.rect frame.now.coding.now name.resolution }
    requires tables { IsPrecinctList frame.now.shape.now.rect frame.now.coding.now frame.now.shape.now.layers
        name.resolution name.precinct tables.now }
    ensures { MatchResult result
        (λ w. w ≡ writer_at frame.now.shape.now.rect frame.now.coding.now frame.now.markers.sop
        frame.now.markers.eph frame.now.shape.now.layers tables.now name.resolution name.precinct) IsMemory }
{
    let precinct = precinct_shape(
        &frame.shape.rect,
        frame.coding,
        name.resolution,
        name.precinct,
        frame.markers.sop,
        frame.markers.eph,
    );
    PrecinctWriter::new(alloc, &precinct, frame.shape.layers, tables)
}

/// The writer of the precinct of a packet, which is taken out of those that are kept; a new one
/// where none is kept.
fn take<'a>(
    alloc: Global,
    frame: &TileFrame<'_>,
    name: PacketName,
    tables: &'a [BlockTable],
    place: usize,
    slots: &mut Vec<Slot<'a>>,
) -> Result<Box<PrecinctWriter<'a>>, Fault>
    requires area { IsArea frame.now.shape.now.rect }
    requires coding { IsCoding frame.now.coding.now }
    requires planes { HasPlanes frame.now.coding.now }
    requires resolution { name.resolution ≤ frame.now.coding.now.levels }
    requires precinct { name.precinct < precinct_number frame.now.shape.now.rect frame.now.coding.now name.resolution }
    requires tables { IsPrecinctList frame.now.shape.now.rect frame.now.coding.now frame.now.shape.now.layers
        name.resolution name.precinct tables.now }
    requires place { place < length slots.old.items }
    ensures value { MatchResult result
        (λ w. w.value ≡ kept_writer slots.old.items place (writer_at frame.now.shape.now.rect
        frame.now.coding.now frame.now.markers.sop frame.now.markers.eph frame.now.shape.now.layers tables.now
        name.resolution name.precinct)) IsMemory }
    ensures others { (blank : PrecinctTables) (i : ℕ) → i ≢ place
        → kept_writer slots.new.items i blank ≡ kept_writer slots.old.items i blank }
    ensures long { length slots.new.items ≡ length slots.old.items }
{
    match slots[place].take() {
        Some(writer) => Ok(writer),
        None => Ok(Box::new(alloc, new_writer(alloc, frame, name, tables)?)?),
    }
}

/// Keeps a writer.
fn keep<'a>(slots: &mut Vec<Slot<'a>>, place: usize, writer: Box<PrecinctWriter<'a>>)
    requires { place < length slots.old.items }
    ensures own { (blank : PrecinctTables) → kept_writer slots.new.items place blank ≡ writer.entry.value }
    ensures others { (blank : PrecinctTables) (i : ℕ) → i ≢ place
        → kept_writer slots.new.items i blank ≡ kept_writer slots.old.items i blank }
    ensures long { length slots.new.items ≡ length slots.old.items }
{
    slots[place] = Some(writer);
}

/// A packet that is to be written: its name, its number in the tile, and where the writer of its
/// precinct stands.
#[derive(Clone, Copy)]
struct NextPacket {
    name: PacketName,
    number: u32,
    place: usize,
}

/// Passes on what a layer has of the code-blocks with these tables.
fn pass_bodies<S: TextSink>(tables: &[BlockTable], layer: u16, sink: &mut S) -> Result<(), Fault>
    ensures { (part : List ℕ) × S.took sink.old part sink.new
        × IsPassed S.tells (flat_map (λ t. (part_in t layer).1) tables.now) part result }
{
    for table in tables {
        sink.take(table.bytes(layer))?;
    }
    Ok(())
}

/// Passes on the next packet of a precinct: its header, and then the bodies straight from the tables.
/// Its writer is made with the first layer and let go of behind the last one. `head` is room for a
/// header.
fn pass_packet<'a, S: TextSink>(
    alloc: Global,
    frame: &TileFrame<'_>,
    packet: NextPacket,
    tables: &'a [BlockTable],
    slots: &mut Vec<Slot<'a>>,
    head: &mut Vec<u8>,
    sink: &mut S,
) -> Result<(), Fault>
    requires area { IsArea frame.now.shape.now.rect }
    requires coding { IsCoding frame.now.coding.now }
    requires planes { HasPlanes frame.now.coding.now }
    requires resolution { packet.name.resolution ≤ frame.now.coding.now.levels }
    requires precinct { packet.name.precinct
        < precinct_number frame.now.shape.now.rect frame.now.coding.now packet.name.resolution }
    requires tables { IsPrecinctList frame.now.shape.now.rect frame.now.coding.now frame.now.shape.now.layers
        packet.name.resolution packet.name.precinct tables.now }
    requires place { packet.place < length slots.old.items }
    requires layer { packet.name.layer < frame.now.shape.now.layers }
    requires next { packet.name.layer ≡ (writer_in frame.now.shape.now frame.now.coding.now frame.now.markers.sop
        frame.now.markers.eph tables.now slots.old.items packet.place packet.name).written }
    requires more { packet.name.layer < (writer_in frame.now.shape.now frame.now.coding.now frame.now.markers.sop
        frame.now.markers.eph tables.now slots.old.items packet.place packet.name).layers }
    requires bodies { bodies_text (writer_in frame.now.shape.now frame.now.coding.now frame.now.markers.sop
        frame.now.markers.eph tables.now slots.old.items packet.place packet.name).tables packet.name.layer
        ≡ flat_map (λ t. (part_in t packet.name.layer).1) tables.now }
    ensures long { length slots.new.items ≡ length slots.old.items }
    ensures here { OnOk result (packet.name.layer + 1 < frame.now.shape.now.layers → (blank : PrecinctTables)
        → kept_writer slots.new.items packet.place blank
        ≡ record (writer_in frame.now.shape.now frame.now.coding.now frame.now.markers.sop
        frame.now.markers.eph tables.now slots.old.items packet.place packet.name)
        { written = packet.name.layer + 1 }) }
    ensures others { (blank : PrecinctTables) (i : ℕ) → i ≢ packet.place
        → kept_writer slots.new.items i blank ≡ kept_writer slots.old.items i blank }
    ensures text { (part : List ℕ) × S.took sink.old part sink.new
        × IsPassed (λ e. IsMemory e ⊎ S.tells e) (text_by (writer_in frame.now.shape.now frame.now.coding.now
        frame.now.markers.sop frame.now.markers.eph tables.now slots.old.items packet.place packet.name)
        packet.number) part result }
{
    let mut writer = take(alloc, frame, packet.name, tables, packet.place, slots)?;
    head.clear();
    writer.write_head(packet.number, head)?;
    sink.take(head)?;
    pass_bodies(tables, packet.name.layer, sink)?;
    if packet.name.layer + 1 < frame.shape.layers {
        keep(slots, packet.place, writer);
    }
    Ok(())
}

/// Passes on the packets of a tile whose components are coded alike, from the tables of its precincts.
pub(crate) fn pass_packets<S: TextSink>(
    alloc: Global,
    frame: &TileFrame<'_>,
    tables: &[Vec<BlockTable>],
    sink: &mut S,
) -> Result<(), Fault>
    requires shape { IsTileShape frame.now.shape.now }
    requires coding { IsCoding frame.now.coding.now }
    requires planes { HasPlanes frame.now.coding.now }
    requires alike { frame.now.shape.now.codings ≡ replicate (length frame.now.shape.now.codings) frame.now.coding.now }
    requires few { packet_count frame.now.shape.now ≤ 2 ^ 24 }
    requires lists { AreLists frame.now.shape.now.rect frame.now.coding.now frame.now.shape.now.layers
        (length frame.now.shape.now.codings) (lists_of tables.now) }
    ensures { (part : List ℕ) × S.took sink.old part sink.new × IsPassed (λ e. IsMemory e ⊎ S.tells e)
        (written_text frame.now.shape.now frame.now.markers.sop frame.now.markers.eph
        (tables_in frame.now.shape.now.rect frame.now.coding.now (lists_of tables.now)) 0
        (order frame.now.shape.now)) part result }
{
    let firsts = firsts(&frame.shape.rect, frame.coding);
    let mut slots = no_writers(alloc, tables.len())?;
    let mut packets = Packets::new(frame.shape)?;
    let mut head = Vec::new(alloc);
    for number in 0..packet_count(frame.shape) {
        let Some(name) = packets.next() else {
            break;
        };
        let place = place_of(&firsts, frame.coding.levels, name);
        let own = &tables[place];
        let packet = NextPacket {
            name,
            number: number as u32,
            place,
        };
        pass_packet(alloc, frame, packet, own, &mut slots, &mut head, sink)?;
    }
    Ok(())
}
