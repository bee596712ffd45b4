//! What is kept of the packets of the tiles of whole codestreams.

ghost use Rattle.std.specs.Prelude.{◌≡◌, ◌<◌, length};
ghost use Rattle.jk_marks.specs.Siz.{tile_count};
ghost use Rattle.jk_params.specs.Headers.{AreHeaders};

use crate::walk_cases::CASES;
use jk_geom::PacketName;
use jk_order::{packet_count, packet_names};
use jk_params::{Codestream, read_codestream};
use jk_walk::{PacketEntry, PacketPlace, read_entries, read_packets, shape_of};
use std::alloc::Global;
use std::process::Abort;
use vectors::{Line, Told, equal, equal_at};

/// Lines of `CASES` by their number from 0 on, and the entries of each tile in the order of its
/// packets: the first byte, the first one of the bodies, the first one behind the packet, and the
/// counter of its SOP. An independent program in Python made them of what the line says of the
/// packets and of its bytes.
static ENTRIES: &str = "\
0 94-103-103:4e44
27 104-105-105;105-112-112:e3cc;112-113-113
69 143-152-154:811f;154-163-165:4e53;165-174-176:6242;176-180-185
79 150-154-156;156-161-163;163-170-176;176-180-182;182-187-193
84 156-160-161;161-165-166;166-174-177;177-182-183;183-190-193;193-199-200
88 PacketHeader 161-164-168;168-171-177 223-225-227 256-258-259;283-285-286;286-289-291
100 143-153-155:fce1;155-162-162:e1da;162-171-173:67b6;173-180-180:caad;180-190-192:3d51;192-199-199:8f9d;213-220-220:978c;220-230-232:014b;232-233-233;233-241-242:d18d;242-251-255:ecc3;255-263-266:8f0d;266-276-278:739c;278-291-296:845a;296-308-318:7ebb;318-321-326;326-344-353:112d";

/// Tells an entry as a line does.
fn tell_entry(told: &mut Told, entry: &PacketEntry) {
    let numbers = [entry.start as u64, entry.body as u64, entry.end as u64];
    told.numbers(&numbers, "-");
    if let Some((high, low)) = entry.counter {
        told.word(":");
        told.bytes(&[high, low]);
    }
}

/// Tells the entries of a tile.
fn tell_entries(told: &mut Told, entries: &[PacketEntry]) {
    for (number, entry) in entries.iter().enumerate() {
        if number > 0 {
            told.word(";");
        }
        tell_entry(told, entry);
    }
}

/// Tells the entries of a tile, or why it is refused.
fn tell_tile(told: &mut Told, alloc: Global, headers: &Codestream, bytes: &[u8], tile: usize)
    requires sound { AreHeaders (length bytes.now) headers.now }
    requires tile { tile < tile_count headers.now.siz }
{
    match read_entries(alloc, headers, bytes, tile) {
        Err(fault) => told.shown(&fault),
        Ok(entries) => tell_entries(told, entries.as_slice()),
    }
}

/// The entries of all tiles of a codestream.
fn tiles_text(rt: &impl Abort, alloc: Global, bytes: &[u8]) -> String {
    let headers = read_codestream(alloc, bytes).expect(rt, "headers");
    let mut told = Told::new(alloc);
    for tile in 0..headers.tile_count() {
        if tile > 0 {
            told.word(" ");
        }
        tell_tile(&mut told, alloc, &headers, bytes, tile);
    }
    told.end().expect(rt, "a text")
}

/// Each entry has the start of the packet at its number, whose name is that of the order.
fn entries_are(
    rt: &impl Abort,
    entries: &[PacketEntry],
    places: &[PacketPlace],
    names: &[PacketName],
) {
    equal(names.len(), places.len()).expect(rt, "packets");
    for (i, entry) in entries.iter().enumerate() {
        if let (Some(name), Some(place)) = (names.get(i), places.get(i)) {
            equal_at(i, (*name, entry.start), (place.name, place.start)).expect(rt, "a packet");
        }
    }
}

/// The entries of a tile stand beside the names of its packets in their order.
fn entries_follow(rt: &impl Abort, alloc: Global, headers: &Codestream, bytes: &[u8], tile: usize)
    requires sound { AreHeaders (length bytes.now) headers.now }
    requires tile { tile < tile_count headers.now.siz }
{
    let shape = shape_of(headers, tile);
    let entries = read_entries(alloc, headers, bytes, tile).expect(rt, "entries");
    let entries = entries.as_slice();
    equal(entries.len() as u64, packet_count(&shape)).expect(rt, "entries");
    let names = packet_names(alloc, &shape).expect(rt, "names");
    let places = read_packets(alloc, headers, bytes, tile).expect(rt, "packets");
    entries_are(rt, entries, places.as_slice(), &names);
}

/// The codestream of line `number` of the cases.
fn case(rt: &impl Abort, alloc: Global, number: usize) -> Vec<u8> {
    let text = CASES.lines().nth(number).expect(rt, "a line");
    let mut line = Line::new(text, ' ');
    let bytes = line.bytes(alloc);
    let _ = line.rest();
    line.end().expect(rt, "a line");
    bytes
}

/// What is told of the codestream of a line.
fn tells(rt: &impl Abort, alloc: Global, text: &str) {
    let mut line = Line::new(text, ' ');
    let (number, wanted) = (line.number(0, 255) as usize, line.rest());
    line.end().expect(rt, "a line");
    let got = tiles_text(rt, alloc, &case(rt, alloc, number));
    equal_at(number, got.as_str(), wanted).expect(rt, "entries");
}

#[test]
fn entries_of_tiles(rt: HostRuntime) {
    let mut count = 0u32;
    for line in ENTRIES.lines() {
        tells(&rt, rt.alloc(), line);
        count = count.saturating_add(1);
    }
    equal(count, 7).expect(&rt, "lines");
}

/// A tile whose packets come resolution by resolution.
#[test]
fn entries_in_order(rt: HostRuntime) {
    let bytes = case(&rt, rt.alloc(), 100);
    let headers = read_codestream(rt.alloc(), &bytes).expect(&rt, "headers");
    for tile in 0..headers.tile_count() {
        entries_follow(&rt, rt.alloc(), &headers, &bytes, tile);
    }
}
