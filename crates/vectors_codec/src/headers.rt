//! Headers with one byte changed, and what T.800 says of them: where the header ends, or the first
//! fault. The answers are those of an independent decoder.

use crate::asserts::equal;
use crate::header_cases::{PART, PART_CASES, PLAIN, PLAIN_CASES, RICH, RICH_CASES};
use crate::texts::{bytes, changed};
use jk_geom::tile_count;
use jk_marks::{Main, read_main, read_tile_part};
use jk_math::Fault;
use std::alloc::Global;
use std::process::Abort;
use vectors::{Line, equal_at};

/// The fault of a number.
fn fault_of(number: u8) -> Option<Fault> {
    match number {
        2 => Some(Fault::Truncated),
        3 => Some(Fault::BadMarker),
        4 => Some(Fault::BadLength),
        5 => Some(Fault::BadValue),
        6 => Some(Fault::Unsupported),
        7 => Some(Fault::Limit),
        _ => None,
    }
}

/// Where a main header ends, or its fault.
fn main_answer(bytes: &[u8]) -> (usize, Option<Fault>) {
    match read_main(bytes) {
        Ok((_, length)) => (length, None),
        Err(fault) => (0, Some(fault)),
    }
}

/// A header with a byte changed, and what is due.
#[derive(Drop)]
struct Case {
    place: u64,
    byte: u64,
    bytes: Vec<u8>,
    fault: Option<Fault>,
    first: usize,
    second: usize,
}

/// Reads a case of a header.
fn case_of(rt: &impl Abort, alloc: Global, header: &str, line: &str) -> Case {
    let mut fields = Line::new(line, ' ');
    let place = fields.number(0, 255);
    let byte = fields.number(0, 255);
    let fault = fault_of(fields.number(0, 7) as u8);
    let first = fields.number(0, 255) as usize;
    let second = fields.number(0, 255) as usize;
    fields.end().expect(rt, "a case");
    let bytes = changed(rt, alloc, &[header], place as usize, byte as u8);
    Case {
        place,
        byte,
        bytes,
        fault,
        first,
        second,
    }
}

/// Reads a main header with a byte changed.
fn judge_main(rt: &impl Abort, alloc: Global, text: &str, line: &str) {
    let case = case_of(rt, alloc, text, line);
    let found = main_answer(&case.bytes);
    equal_at((case.place, case.byte), found, (case.first, case.fault)).expect(rt, "a header");
}

/// The main header of RICH, and its number of tiles.
fn rich(rt: &impl Abort, alloc: Global) -> (Main, u32) {
    let (main, _) = read_main(&bytes(rt, alloc, &[RICH])).expect(rt, "an answer");
    let tiles = tile_count(&main.siz);
    (main, tiles)
}

/// Where the data of a tile-part behind RICH begin and end, or its fault.
fn part_answer(rt: &impl Abort, alloc: Global, part: &[u8]) -> (usize, usize, Option<Fault>) {
    let header = bytes(rt, alloc, &[RICH]);
    let (main, _) = read_main(&header).expect(rt, "an answer");
    let seen = vec![in alloc; 0u16; tile_count(&main.siz) as usize].expect(rt, "an answer");
    match read_tile_part(part, &main, &seen) {
        Ok(part) => (part.start, part.end, None),
        Err(fault) => (0, 0, Some(fault)),
    }
}

/// Reads the tile-part with a byte changed.
fn judge_part(rt: &impl Abort, alloc: Global, line: &str) {
    let case = case_of(rt, alloc, PART, line);
    let found = part_answer(rt, alloc, &case.bytes);
    let wanted = (case.first, case.second, case.fault);
    equal_at((case.place, case.byte), found, wanted).expect(rt, "a tile-part");
}

#[test]
fn plain_headers(rt: HostRuntime) {
    for line in PLAIN_CASES.lines() {
        judge_main(&rt, rt.alloc(), PLAIN, line);
    }
}

#[test]
fn rich_headers(rt: HostRuntime) {
    for line in RICH_CASES.lines() {
        judge_main(&rt, rt.alloc(), RICH, line);
    }
}

#[test]
fn tile_parts(rt: HostRuntime) {
    for line in PART_CASES.lines() {
        judge_part(&rt, rt.alloc(), line);
    }
}

/// Where the image of a main header ends and begins, and its components, their depth and sign.
fn sizes(main: &Main) -> ((u32, u32, u32, u32), (u16, u8, bool)) {
    let siz = &main.siz;
    (
        (siz.x1, siz.y1, siz.x0, siz.y0),
        (siz.components, siz.depth, siz.signed),
    )
}

/// The markers, the colour transform and the layers of all components, and their levels and
/// code-blocks.
fn style(main: &Main) -> ((bool, bool, bool, u16), (u8, u8, u8)) {
    let cod = &main.cod;
    (
        (cod.sop, cod.eph, cod.colour, cod.layers),
        (cod.style.levels, cod.style.xcb, cod.style.ycb),
    )
}

/// Which of three components have a coding style of their own, and which a quantization.
fn own(main: &Main) -> ([bool; 3], [bool; 3]) {
    (
        [
            main.coc[0].is_some(),
            main.coc[1].is_some(),
            main.coc[2].is_some(),
        ],
        [
            main.qcc[0].is_some(),
            main.qcc[1].is_some(),
            main.qcc[2].is_some(),
        ],
    )
}

/// The levels and code-blocks of component 1, and the guard bits and number of sub-bands of
/// component 2, where these have a coding style and a quantization of their own.
fn others(main: &Main) -> Option<((u8, u8, u8), (u8, usize))> {
    let own = main.coc[1].as_ref()?;
    let steps = main.qcc[2].as_ref()?;
    Some((
        (own.levels, own.xcb, own.ycb),
        (steps.guard, steps.exponents.len()),
    ))
}

/// What is kept of the headers as they stand.
#[test]
fn kept(rt: HostRuntime) {
    let (main, tiles) = rich(&rt, rt.alloc());
    equal(&rt, tiles, 9);
    equal(&rt, sizes(&main), ((320, 240, 16, 8), (3, 12, false)));
    equal(&rt, style(&main), ((true, true, true, 3), (2, 6, 5)));
    let precincts = [(6, 7), (7, 8), (8, 9)];
    equal(&rt, main.cod.style.precincts.as_slice(), &precincts);
    let exponents = [12, 13, 13, 14, 13, 13, 14];
    equal(&rt, main.qcd.guard, 3);
    equal(&rt, main.qcd.exponents.as_slice(), &exponents);
    equal(
        &rt,
        own(&main),
        ([false, true, false], [false, false, true]),
    );
    equal(&rt, others(&main), Some(((1, 5, 5), (2, 7))));
}
