//! The packets of the tiles of whole codestreams.

ghost use Rattle.std.specs.Prelude.{◌≡◌, ◌<◌, length};
ghost use Rattle.jk_marks.specs.Siz.{tile_count};
ghost use Rattle.jk_params.specs.Headers.{AreHeaders};

use crate::headers::tell_parts;
use crate::walk_cases::{CASES, WORKED};
use jk_params::{Codestream, read_codestream};
use jk_walk::{PacketPlace, TilePackets, read_packets};
use std::alloc::Global;
use std::process::Abort;
use vectors::{Line, Told, equal, equal_at};

/// Tells a packet as a line of the cases does.
fn tell_packet(told: &mut Told, place: &PacketPlace) {
    let name = &place.name;
    let numbers = [
        name.layer as u64,
        name.resolution as u64,
        name.component as u64,
        name.precinct as u64,
    ];
    told.numbers(&numbers, ".");
    told.word("@");
    told.numbers(&[place.start as u64, place.body as u64], "-");
    tell_parts(told, place.parts.as_slice());
}

/// Tells the packets of a tile.
fn tell_packets(told: &mut Told, packets: &[PacketPlace]) {
    for (number, place) in packets.iter().enumerate() {
        if number > 0 {
            told.word(";");
        }
        tell_packet(told, place);
    }
}

/// The packets that are told to have something are those with parts.
fn full_are(rt: &impl Abort, packets: &TilePackets) {
    let full = packets.full();
    let mut count: usize = 0;
    for (number, place) in packets.as_slice().iter().enumerate() {
        if !place.parts.as_slice().is_empty() {
            let told = full.get(count).copied();
            equal_at(number, told, Some(number as u32)).expect(rt, "a packet with parts");
            count = count.saturating_add(1);
        }
    }
    equal(full.len(), count).expect(rt, "packets with parts");
}

/// Tells the packets of a tile, or why it is refused.
fn tell_tile(
    rt: &impl Abort,
    told: &mut Told,
    alloc: Global,
    headers: &Codestream,
    bytes: &[u8],
    tile: usize,
)
    requires sound { AreHeaders (length bytes.now) headers.now }
    requires tile { tile < tile_count headers.now.siz }
{
    match read_packets(alloc, headers, bytes, tile) {
        Err(fault) => told.shown(&fault),
        Ok(packets) => {
            full_are(rt, &packets);
            tell_packets(told, packets.as_slice())
        }
    }
}

/// The packets of all tiles of a codestream.
fn tiles_text(rt: &impl Abort, alloc: Global, bytes: &[u8]) -> String {
    let headers = read_codestream(alloc, bytes).expect(rt, "headers");
    let mut told = Told::new(alloc);
    for tile in 0..headers.tile_count() {
        if tile > 0 {
            told.word(" ");
        }
        tell_tile(rt, &mut told, alloc, &headers, bytes, tile);
    }
    told.end().expect(rt, "a text")
}

/// Reads the codestreams of lines, and counts them.
fn read_lines(rt: &impl Abort, alloc: Global, lines: &str) -> u32 {
    let mut count = 0u32;
    for text in lines.lines() {
        let mut line = Line::new(text, ' ');
        let (bytes, wanted) = (line.bytes(alloc), line.rest());
        line.end().expect(rt, "a line");
        let got = tiles_text(rt, alloc, &bytes);
        equal_at(text, got.as_str(), wanted).expect(rt, "packets");
        count = count.saturating_add(1);
    }
    count
}

#[test]
fn random_tiles(rt: HostRuntime) {
    equal(read_lines(&rt, rt.alloc(), CASES), 104).expect(&rt, "lines");
}

/// Parts that are empty, packets that would go on in the next part, bytes too few and too many.
#[test]
fn worked_tiles(rt: HostRuntime) {
    equal(read_lines(&rt, rt.alloc(), WORKED), 34).expect(&rt, "lines");
}
