//! Files of one packet, as they are written and read.

use crate::asserts::{equal, equal_at};
use crate::calls::{self, decode, decode_pnm, encode_pnm, encode_refusal, plain, refusal};
use crate::texts::{MAIN, bytes, changed, even_pnm};
use jk_math::Fault;
use jk_params::{Container, Parameters, read_codestream};
use std::alloc::Global;
use std::process::Abort;

/// The PGM file of one grey pixel.
static PIXEL: &[u8] = b"P5\n1 1\n255\n\x80";

/// Its tile-part, and EOC.
static PART: &str = "FF90 000A 0000 0000000F 00 01 FF93 00 FFD9";

#[test]
fn one_pixel(rt: HostRuntime) {
    let alloc = rt.alloc();
    let file = encode_pnm(&rt, alloc, PIXEL, &plain(alloc, 0));
    let wanted = bytes(&rt, alloc, &[MAIN, PART]);
    equal(&rt, wanted.len(), 82);
    equal(&rt, file.as_slice(), wanted.as_slice());
    equal(&rt, decode_pnm(&rt, alloc, &file, 0).as_slice(), PIXEL);
}

/// The width and height of the image of a PGM file.
fn size_of(rt: &impl Abort, alloc: Global, pgm: &[u8]) -> (u32, u32) {
    let image = calls::read(rt, alloc, pgm);
    (image.width(), image.height())
}

/// The headers of the file of a whole page.
fn page_headers(rt: &impl Abort, alloc: Global, file: &[u8]) {
    let headers = read_codestream(alloc, file).expect(rt, "an answer");
    equal(rt, (headers.siz().x1, headers.siz().y1), (300, 200));
    assert_eq!(rt; headers.tile_count(), 1);
    equal(rt, headers.data_places(0), [(79, 80)].as_slice());
    equal(rt, headers.cod(0).layers, 1);
    equal(rt, headers.codings(0).as_slice().len(), 1);
}

#[test]
fn whole_page(rt: HostRuntime) {
    let alloc = rt.alloc();
    let pgm = even_pnm(&rt, alloc, "P5\n300 200\n255\n", 60_000, 128);
    equal(&rt, size_of(&rt, alloc, &pgm), (300, 200));
    let file = encode_pnm(&rt, alloc, &pgm, &plain(alloc, 0));
    equal(&rt, file.len(), 82);
    page_headers(&rt, alloc, &file);
    let again = decode_pnm(&rt, alloc, &file, 0);
    equal(&rt, again.as_slice() == pgm.as_slice(), true);
}

/// Other tile-parts of one grey pixel; the packet of the last isn't empty and includes no
/// code-block.
static OTHERS: [&str; 4] = [
    "FF90 000A 0000 00000000 00 01 FF93 00 FFD9",
    "FF90 000A 0000 0000000F 00 01 FF93 7F FFD9",
    "FF90 000A 0000 0000000F 00 FF FF93 00 FFD9",
    "FF90 000A 0000 0000000F 00 01 FF93 80 FFD9",
];

#[test]
fn other_files(rt: HostRuntime) {
    let alloc = rt.alloc();
    for part in &OTHERS {
        let file = bytes(&rt, alloc, &[MAIN, part]);
        let pgm = decode_pnm(&rt, alloc, &file, 0);
        equal_at(&rt, *part, pgm.as_slice(), PIXEL);
        equal_at(&rt, *part, refusal(alloc, &file, 1), Some(Fault::BadWindow));
    }
}

/// Tile-parts that are refused.
static REFUSED: [(&str, Fault); 10] = [
    (
        "FF90 000A 0000 0000000E 00 01 FF93 FFD9",
        Fault::MissingPackets,
    ),
    (
        "FF90 000A 0000 00000010 00 01 FF93 00 00 FFD9",
        Fault::SurplusBytes,
    ),
    (
        "FF90 000A 0000 0000000F 00 01 FF93 00 FFD9 00",
        Fault::SurplusBytes,
    ),
    ("FF90 000A 0000 0000000F 00 01 FF93 00", Fault::Truncated),
    (
        "FF90 000A 0000 0000000F 00 01 FF93 00 FFD8",
        Fault::BadMarker,
    ),
    (
        "FF90 000A 0000 00000012 00 01 FF93 00 FFD9",
        Fault::Truncated,
    ),
    (
        "FF90 000A 0000 0000000D 00 01 FF93 00 FFD9",
        Fault::BadLength,
    ),
    (
        "FF90 000B 0000 0000000F 00 01 FF93 00 FFD9",
        Fault::BadLength,
    ),
    (
        "FF90 000A 0001 0000000F 00 01 FF93 00 FFD9",
        Fault::BadValue,
    ),
    (
        "FF90 000A 0000 0000000F 01 01 FF93 00 FFD9",
        Fault::BadValue,
    ),
];

#[test]
fn refused_files(rt: HostRuntime) {
    let alloc = rt.alloc();
    for (part, fault) in &REFUSED {
        let file = bytes(&rt, alloc, &[MAIN, part]);
        equal_at(&rt, *part, refusal(alloc, &file, 0), Some(*fault));
    }
}

/// No front of a file but the whole is a file.
#[test]
fn fronts(rt: HostRuntime) {
    let alloc = rt.alloc();
    let file = bytes(&rt, alloc, &[MAIN, PART]);
    for length in 0..file.len() {
        let fault = refusal(alloc, &file[..length], 0);
        equal_at(&rt, length, fault, Some(Fault::Truncated));
    }
}

/// A tile-part with a comment and the lengths of packets.
static LONG_PART: &str =
    "FF90 000A 0000 0000001C 00 01 FF64 0005 0001 41 FF58 0004 00 03 FF93 00 FFD9";

/// A page whose main header has segments that are passed over.
#[test]
fn passed_segments(rt: HostRuntime) {
    let alloc = rt.alloc();
    let file = bytes(&rt, alloc, &[MAIN, "FF30 FF6F 0003 00", PART]);
    equal(&rt, file.len(), 89);
    equal(&rt, decode_pnm(&rt, alloc, &file, 0).as_slice(), PIXEL);
    let short = bytes(&rt, alloc, &[MAIN, "FF30 FF6F 0001 00", PART]);
    equal(&rt, refusal(alloc, &short, 0), Some(Fault::BadLength));
    let comment = "FF64 0006 0001 4142 FF55 0008 00 40 00000017";
    let commented = bytes(&rt, alloc, &[MAIN, comment, LONG_PART]);
    equal(&rt, refusal(alloc, &commented, 0), None);
}

/// Main headers of which one number is another, and why they are refused. In the last one it is a
/// second component, which SIZ doesn't have room for.
static REFUSED_HEADERS: [(usize, u8, Fault); 11] = [
    (3, 0x52, Fault::BadMarker),
    (5, 0x28, Fault::BadLength),
    (19, 1, Fault::BadValue),
    (57, 0x01, Fault::Unsupported),
    (57, 0x04, Fault::Unsupported),
    (57, 0x10, Fault::Unsupported),
    (57, 0x40, Fault::Unsupported),
    (57, 0x80, Fault::BadValue),
    (58, 0, Fault::Unsupported),
    (8, 0x80, Fault::Limit),
    (41, 2, Fault::BadLength),
];

#[test]
fn refused_headers(rt: HostRuntime) {
    let alloc = rt.alloc();
    for (place, byte, fault) in &REFUSED_HEADERS {
        let file = changed(&rt, alloc, &[MAIN, PART], *place, *byte);
        equal_at(&rt, *place, refusal(alloc, &file, 0), Some(*fault));
    }
}

/// A page with a byte of its main header changed has one sample.
fn one_sample(rt: &impl Abort, alloc: Global, place: usize, byte: u8, sample: i32) {
    let file = changed(rt, alloc, &[MAIN, PART], place, byte);
    let image = decode(rt, alloc, &file, 0);
    equal_at(rt, place, image.planes().plane(0), [sample].as_slice());
}

/// Signed samples, and a tile higher than the image.
#[test]
fn other_headers(rt: HostRuntime) {
    one_sample(&rt, rt.alloc(), 42, 0x87, 0);
    one_sample(&rt, rt.alloc(), 31, 2, 128);
}

/// Whether an image of two grey samples is encoded with these.
fn checked(rt: &impl Abort, alloc: Global, given: Parameters) -> Result<(), Fault> {
    given.check(&calls::read(rt, alloc, b"P5\n2 1\n255\n\x80\x80"))
}

#[test]
fn accepted_parameters(rt: HostRuntime) {
    let alloc = rt.alloc();
    let mut given = plain(alloc, 0);
    given.precincts.push((0, 15)).expect(&rt, "an answer");
    given.container = Container::Jp2;
    equal(&rt, checked(&rt, alloc, given), Ok(()));
    let mut tiles = plain(alloc, 0);
    tiles.tile = Some((1, 1));
    equal(&rt, checked(&rt, alloc, tiles), Ok(()));
}

#[test]
fn refused_parameters(rt: HostRuntime) {
    let alloc = rt.alloc();
    let bad = Err(Fault::BadParameters);
    equal(&rt, checked(&rt, alloc, plain(alloc, 6)), bad);
    let image = calls::read(&rt, alloc, b"P5\n2 1\n255\n\x80\x80");
    let answer = encode_refusal(alloc, &image, &plain(alloc, 6));
    equal(&rt, answer, Some(Fault::BadParameters));
    let mut colour = plain(alloc, 0);
    colour.colour = true;
    equal(&rt, checked(&rt, alloc, colour), bad);
    let mut wide = plain(alloc, 0);
    wide.xcb = 10;
    wide.ycb = 3;
    equal(&rt, checked(&rt, alloc, wide), bad);
    let mut none = plain(alloc, 0);
    none.layers = 0;
    equal(&rt, checked(&rt, alloc, none), bad);
    let mut flat = plain(alloc, 0);
    flat.tile = Some((1, 0));
    equal(&rt, checked(&rt, alloc, flat), bad);
}

/// The boxes in front of the codestream of one grey pixel.
static BOXES: &str =
    "0000000C 6A502020 0D0A870A 00000014 66747970 6A703220 00000000 6A703220 0000002D 6A703268 00000016 69686472 00000001 00000001 0001 07 07 00 00 0000000F 636F6C72 01 00 00 00000011 0000005A 6A703263";

#[test]
fn boxed_page(rt: HostRuntime) {
    let alloc = rt.alloc();
    let mut boxed = plain(alloc, 0);
    boxed.container = Container::Jp2;
    let file = encode_pnm(&rt, alloc, PIXEL, &boxed);
    let wanted = bytes(&rt, alloc, &[BOXES, MAIN, PART]);
    equal(&rt, wanted.len(), 167);
    equal(&rt, file.as_slice(), wanted.as_slice());
}

/// The file of one grey pixel with this behind the codestream has its sample.
fn passes_over(rt: &impl Abort, alloc: Global, last: &str) {
    let file = bytes(rt, alloc, &[BOXES, MAIN, PART, last]);
    let image = decode(rt, alloc, &file, 0);
    equal_at(rt, last, image.planes().plane(0), [128].as_slice());
}

/// The boxes are passed over, and so is one behind the codestream.
#[test]
fn boxes_passed_over(rt: HostRuntime) {
    passes_over(&rt, rt.alloc(), "");
    passes_over(&rt, rt.alloc(), "00000009 66726565 00");
}

#[test]
fn another_signature(rt: HostRuntime) {
    let alloc = rt.alloc();
    let file = bytes(&rt, alloc, &["0000000C 6A502020 0D0B870A", MAIN, PART]);
    equal(&rt, refusal(alloc, &file, 0), Some(Fault::BadBox));
}

/// A page that is placed elsewhere has the same PGM file.
#[test]
fn placed_page(rt: HostRuntime) {
    let alloc = rt.alloc();
    let image = calls::read(&rt, alloc, b"P5\n2 1\n255\nab");
    equal(&rt, image.planes().plane(0), [97, 98].as_slice());
    let text = calls::write(&rt, alloc, &image.place(1, 0).expect(&rt, "an answer"));
    equal(&rt, text.as_slice(), b"P5\n2 1\n255\nab".as_slice());
}
