//! Calls with very many samples or bytes.

use crate::asserts::equal;
use crate::calls::{self, decode_pnm, encode_pnm, plain};
use crate::texts::even_pnm;
use jk_boxes::{open, replace_codestream, wrap};
use jk_marks::write_tile_part;
use jk_params::{Parameters, read_codestream};
use std::alloc::Global;
use std::process::Abort;

/// The number of elements that a call must take with ample memory.
const MANY: usize = 1 << 20;

/// A bare codestream in tiles of one sample, which have no level.
fn in_samples(alloc: Global) -> Parameters {
    let mut given = plain(alloc, 0);
    given.tile = Some((1, 1));
    given
}

/// The file of a page, if it is decoded to that page.
fn there_and_back(
    rt: &impl Abort,
    alloc: Global,
    pgm: &[u8],
    parameters: &Parameters,
) -> Option<Vec<u8>> {
    let file = encode_pnm(rt, alloc, pgm, parameters);
    let again = decode_pnm(rt, alloc, &file, 0);
    if again.as_slice() == pgm {
        Some(file)
    } else {
        None
    }
}

#[test]
fn a_million_samples(rt: HostRuntime) {
    let alloc = rt.alloc();
    let pgm = even_pnm(&rt, alloc, "P5\n1024 1024\n255\n", MANY, 128);
    let file = there_and_back(&rt, alloc, &pgm, &plain(alloc, 5));
    equal(&rt, file.is_some(), true);
}

/// The width of the image of a file, and that of its tiles.
fn widths(rt: &impl Abort, alloc: Global, file: &[u8]) -> (u32, u32) {
    let headers = read_codestream(alloc, file).expect(rt, "an answer");
    (headers.siz().x1, headers.siz().tile_width)
}

#[test]
fn many_tiles(rt: HostRuntime) {
    let alloc = rt.alloc();
    let strip = even_pnm(&rt, alloc, "P5\n65535 1\n255\n", 65_535, 128);
    let file = there_and_back(&rt, alloc, &strip, &in_samples(alloc));
    let file = file.expect(&rt, "the page again");
    equal(&rt, widths(&rt, alloc, &file), (65_535, 1));
}

/// Where a file's codestream stands, and whether the file is JP2.
fn place(rt: &impl Abort, file: &[u8]) -> (usize, usize, bool) {
    let place = open(file).expect(rt, "an answer");
    (place.start, place.end, place.jp2)
}

/// A file with another codestream in its place.
fn replaced(rt: &impl Abort, alloc: Global, file: &[u8], codestream: &[u8]) -> Vec<u8> {
    let place = open(file).expect(rt, "an answer");
    replace_codestream(alloc, file, &place, codestream).expect(rt, "an answer")
}

/// A JP2 file with this codestream, for an image of one sample.
fn wrapped(rt: &impl Abort, alloc: Global, codestream: &[u8]) -> Vec<u8> {
    let image = calls::read(rt, alloc, b"P5\n1 1\n255\n\x80");
    wrap(alloc, &image, codestream).expect(rt, "an answer")
}

/// A tile-part with these data, behind a byte.
fn part(rt: &impl Abort, alloc: Global, content: &[u8]) -> Vec<u8> {
    let mut out = Vec::new(alloc);
    out.push(9).expect(rt, "an answer");
    write_tile_part(3, content, &mut out).expect(rt, "an answer");
    out
}

#[test]
fn a_million_bytes(rt: HostRuntime) {
    let alloc = rt.alloc();
    let long = vec![in alloc; 7u8; MANY].expect(&rt, "an answer");
    let file = wrapped(&rt, alloc, &long);
    equal(&rt, place(&rt, &file), (85, 85 + MANY, true));
    let short = replaced(&rt, alloc, &file, &[1, 2]);
    equal(&rt, short.len(), 87);
    let again = replaced(&rt, alloc, &short, &long);
    equal(&rt, again.as_slice() == file.as_slice(), true);
    equal(&rt, part(&rt, alloc, &long).len(), 1 + 14 + MANY);
}
