//! Packet headers, read layer by layer.

ghost use Rattle.std.specs.Prelude.{◌≡◌, ◌<◌};

use crate::precincts::{PRECINCTS, WORKED};
use jk_math::Fault;
use jk_packet::{BandShape, BlockContribution, Header, Precinct, PrecinctShape};
use std::alloc::Global;
use std::process::Abort;
use vectors::{Line, Told, bytes_of, equal, equal_at};

/// The sub-band of a text as `3x2x9`.
fn band_of(rt: &impl Abort, text: &str) -> BandShape {
    let mut line = Line::new(text, 'x');
    let band = BandShape {
        across: line.number(0, 65_535) as u16,
        down: line.number(0, 65_535) as u16,
        planes: line.number(0, 255) as u8,
    };
    line.end().expect(rt, "a sub-band");
    band
}

/// The precinct of three sub-bands that commas part.
fn higher_of(rt: &impl Abort, bands: &str, sop: bool, eph: bool) -> PrecinctShape {
    let mut line = Line::new(bands, ',');
    let bands = [
        band_of(rt, line.word()),
        band_of(rt, line.word()),
        band_of(rt, line.word()),
    ];
    line.end().expect(rt, "three sub-bands");
    PrecinctShape::higher(bands, sop, eph)
}

/// The precinct of one sub-band, or of three that commas part.
pub(crate) fn shape_of(rt: &impl Abort, marks: &str, bands: &str) -> PrecinctShape {
    let sop = marks.starts_with('1');
    let eph = marks.ends_with('1');
    if bands.contains(',') {
        higher_of(rt, bands, sop, eph)
    } else {
        PrecinctShape::lowest(band_of(rt, bands), sop, eph)
    }
}

/// The parts of a header, as lines of the cases tell them.
pub(crate) fn tell_parts(told: &mut Told, parts: &[BlockContribution]) {
    for part in parts {
        let numbers = [
            part.band as u64,
            part.block as u64,
            part.zero_planes as u64,
            part.passes as u64,
            part.length as u64,
        ];
        told.word(":");
        told.numbers(&numbers, ".");
    }
}

/// What was read, as a line of the cases tells it.
fn answer_of(rt: &impl Abort, alloc: Global, answer: &Result<Header, Fault>) -> String {
    let mut told = Told::new(alloc);
    match answer {
        Ok(header) => {
            told.numbers(&[header.length as u64], "");
            tell_parts(&mut told, header.parts.as_slice());
        }
        Err(fault) => told.shown(fault),
    }
    told.end().expect(rt, "a text")
}

/// A precinct that has failed fails again, whatever the bytes are.
fn fails(rt: &impl Abort, alloc: Global, precinct: &mut Precinct, layer: u16, wanted: &str)
    requires next { layer ≡ precinct.old.layers }
    requires layer { layer < 65535 }
{
    let again = answer_of(rt, alloc, &precinct.read_header(&[0x00], layer));
    equal_at(layer, again.as_str(), wanted).expect(rt, "again");
}

/// Reads the packets of a precinct. One that has failed fails again.
fn reads(rt: &impl Abort, alloc: Global, shape: &PrecinctShape, packets: &str) {
    let mut precinct = Precinct::new(alloc, shape).expect(rt, "a precinct");
    let mut layer: u16 = 0;
    for packet in packets.split(' ') {
        let (text, wanted) = packet.split_once('=').expect(rt, "a header");
        let bytes = bytes_of(alloc, &[text]).expect(rt, "a header");
        assert!(rt; layer < 65535);
        let answer = precinct.read_header(&bytes, layer);
        let got = answer_of(rt, alloc, &answer);
        equal_at((layer, packets), got.as_str(), wanted).expect(rt, "a header");
        if answer.is_err() {
            fails(rt, alloc, &mut precinct, layer, wanted);
            return;
        }
        layer += 1;
    }
}

/// Reads the precincts of lines, and counts them.
fn read_lines(rt: &impl Abort, alloc: Global, lines: &str) -> u32 {
    let mut count = 0u32;
    for text in lines.lines() {
        let mut line = Line::new(text, ' ');
        let (marks, bands, packets) = (line.word(), line.word(), line.rest());
        line.end().expect(rt, "a line");
        reads(rt, alloc, &shape_of(rt, marks, bands), packets);
        count = count.saturating_add(1);
    }
    count
}

#[test]
fn random_precincts(rt: HostRuntime) {
    equal(read_lines(&rt, rt.alloc(), PRECINCTS), 240).expect(&rt, "lines");
}

/// Headers worked by hand, in the form of the random ones.
#[test]
fn worked_headers(rt: HostRuntime) {
    equal(read_lines(&rt, rt.alloc(), WORKED), 20).expect(&rt, "lines");
}
