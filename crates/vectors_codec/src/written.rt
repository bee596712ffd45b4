//! Files as they are written, byte by byte, and that they are read as the image.

use crate::asserts::{equal, equal_at};
use crate::calls::{self, decode, encode, plain};
use crate::small::{Headers, file_of};
use crate::texts::{add, bytes, pnm_of};
use jk_marks::{Order, style_of};
use jk_params::{Container, Parameters};
use std::alloc::Global;
use std::process::Abort;

/// The file of a PNM file, placed so on the reference grid, which is read as that PNM file again.
fn written(
    rt: &impl Abort,
    alloc: Global,
    pnm: &[u8],
    place: (u32, u32),
    parameters: &Parameters,
) -> Vec<u8> {
    let image = calls::read(rt, alloc, pnm)
        .place(place.0, place.1)
        .expect(rt, "an answer");
    let file = encode(rt, alloc, &image, parameters);
    let back = decode(rt, alloc, &file, 0);
    let again = calls::write(rt, alloc, &back);
    let found = (again.as_slice() == pnm, (back.x0(), back.y0()));
    equal_at(rt, (file.len(), pnm.len()), found, (true, place));
    file
}

/// The sum of the bytes, each times its place's remainder by 251 and one more.
fn checksum(bytes: &[u8]) -> u32 {
    let mut sum: u32 = 0;
    for i in 0..bytes.len() {
        let weight = (i % 251) as u32 + 1;
        sum = sum.wrapping_add(weight.wrapping_mul(bytes[i] as u32));
    }
    sum
}

/// An image is written as these headers and this tile-part, and read again.
fn writes(
    rt: &impl Abort,
    alloc: Global,
    pnm: &[u8],
    parameters: &Parameters,
    headers: Headers,
    part: &str,
) {
    let file = written(rt, alloc, pnm, (0, 0), parameters);
    let wanted = file_of(rt, alloc, headers, part);
    equal_at(rt, part, file.as_slice(), wanted.as_slice());
}

/// The length of the file of an image, and its checksum; it is read as the image.
pub(crate) fn measure(
    rt: &impl Abort,
    alloc: Global,
    pnm: &[u8],
    place: (u32, u32),
    parameters: &Parameters,
) -> (usize, u32) {
    let file = written(rt, alloc, pnm, place, parameters);
    (file.len(), checksum(&file))
}

static ONE_SAMPLE: [(u8, &str); 3] = [
    (128, "FF90 000A 0000 0000000F 00 01 FF93 00 FFD9"),
    (129, "FF90 000A 0000 00000011 00 01 FF93 C0 21 03 FFD9"),
    (127, "FF90 000A 0000 00000011 00 01 FF93 C0 21 07 FFD9"),
];

#[test]
fn one_sample(rt: HostRuntime) {
    let alloc = rt.alloc();
    for (sample, part) in &ONE_SAMPLE {
        let pnm = pnm_of(&rt, alloc, "P5\n1 1\n255\n", &[*sample]);
        writes(&rt, alloc, &pnm, &plain(alloc, 0), Headers::Pixel, part);
    }
}

#[test]
fn one_column(rt: HostRuntime) {
    let alloc = rt.alloc();
    let samples = bytes(&rt, alloc, &["65 67 68 69 60 61 60 66 6D"]);
    let pnm = pnm_of(&rt, alloc, "P5\n1 9\n255\n", &samples);
    let part =
        "FF90 000A 0000 0000001E 00 01 FF93 C7 D4 0C 01 8F 0D C8 75 7F C0 7C 21 80 0F B1 7F FFD9";
    writes(&rt, alloc, &pnm, &plain(alloc, 1), Headers::Column, part);
}

#[test]
fn one_sample_moved(rt: HostRuntime) {
    let alloc = rt.alloc();
    let part = "FF90 000A 0000 00000012 00 01 FF93 C0 3A 08 03 FFD9";
    let file = written(&rt, alloc, b"P5\n1 1\n255\n\x81", (1, 0), &plain(alloc, 1));
    let wanted = file_of(&rt, alloc, Headers::Moved, part);
    equal(&rt, file.as_slice(), wanted.as_slice());
}

/// The PGM file of two by two samples, and their tile-part with one level, and EOC.
static SQUARE: (&[u8], &str) = (
    b"P5\n2 2\n255\n\x80\x81\x80\x80",
    "FF90 000A 0000 00000018 00 01 FF93 C0 21 03 C0 10 A0 04 20 03 07 FFD9",
);

#[test]
fn one_square(rt: HostRuntime) {
    let alloc = rt.alloc();
    let (pnm, part) = SQUARE;
    writes(&rt, alloc, pnm, &plain(alloc, 1), Headers::Square, part);
}

/// No levels, the colour transform, and blocks of this size.
pub(crate) fn in_colour(alloc: Global, block: u8) -> Parameters {
    let mut asked = plain(alloc, 0);
    asked.colour = true;
    asked.xcb = block;
    asked.ycb = block;
    asked
}

#[test]
fn colour(rt: HostRuntime) {
    let alloc = rt.alloc();
    let samples = bytes(
        &rt,
        alloc,
        &[
            "C86432 C86432 C86432 C86432 C86432 C86432 C86432 C86432 C86432 C86432 C86432 C86432 C86432 C86432 C86432",
        ],
    );
    let pnm = pnm_of(&rt, alloc, "P6\n3 5\n255\n", &samples);
    let part =
        "FF90 000A 0000 0000003C 00 01 FF93 E1 F9 C2 7E 70 40 11 50 49 7F 09 67 E3 F5 04 7E A0 30 11 50 33 CD AC 80 63 CF 08 EC AF E7 ED 08 FD A0 60 14 00 3B CD AC 80 63 D0 02 34 9C FFD9";
    writes(
        &rt,
        alloc,
        &pnm,
        &in_colour(alloc, 2),
        Headers::Colour,
        part,
    )
}

#[test]
fn deep_colour(rt: HostRuntime) {
    let alloc = rt.alloc();
    let pnm = pnm_of(&rt, alloc, "P6\n1 1\n65535\n", &[255, 255, 0, 0, 255, 255]);
    let part =
        "FF90 000A 0000 0000001E 00 01 FF93 C0 00 21 07 DF F8 90 10 01 3F DF F8 90 10 01 3F FFD9";
    writes(&rt, alloc, &pnm, &in_colour(alloc, 6), Headers::Deep, part);
}

/// Samples of 16 bits that are 0 or the greatest, in colour.
fn extreme_samples(rt: &impl Abort, alloc: Global) -> Vec<u8> {
    let mut samples = Vec::new(alloc);
    for y in 0..17_u32 {
        for x in 0..33_u32 {
            for c in 0..3_u32 {
                let product = c.wrapping_mul(x).wrapping_mul(y);
                let value = x.wrapping_mul(x).wrapping_add(3 * y).wrapping_add(product);
                let byte = if value / (2 + c) % 2 == 1 { 255 } else { 0 };
                add(rt, &mut samples, &[byte, byte]);
            }
        }
    }
    samples
}

#[test]
fn extremes(rt: HostRuntime) {
    let alloc = rt.alloc();
    let pnm = pnm_of(
        &rt,
        alloc,
        "P6\n33 17\n65535\n",
        &extreme_samples(&rt, alloc),
    );
    let mut asked = plain(alloc, 5);
    asked.colour = true;
    let found = measure(&rt, alloc, &pnm, (0, 0), &asked);
    equal(&rt, found, (3160, 48578446));
}

/// The samples of an image in tiles.
pub(crate) fn tiled_samples(rt: &impl Abort, alloc: Global) -> Vec<u8> {
    let mut samples = Vec::new(alloc);
    for y in 0..13_u8 {
        for x in 0..17_u8 {
            let sum = x.wrapping_mul(7).wrapping_add(y.wrapping_mul(13));
            samples
                .push(sum.wrapping_add(x.wrapping_mul(y)))
                .expect(rt, "an answer");
        }
    }
    samples
}

/// One level, this order, tiles of 8 by 8, and precincts of 2 by 2 and 4 by 4.
pub(crate) fn in_tiles(rt: &impl Abort, alloc: Global, order: Order) -> Parameters {
    let mut asked = plain(alloc, 1);
    asked.order = order;
    asked.tile = Some((8, 8));
    asked
        .precincts
        .extend_from_slice(&[(1, 1), (2, 2)])
        .expect(rt, "an answer");
    asked
}

/// The file of nine tiles in this order has this checksum.
fn has_checksum(rt: &impl Abort, alloc: Global, order: Order, sum: u32) {
    let pnm = pnm_of(rt, alloc, "P5\n17 13\n255\n", &tiled_samples(rt, alloc));
    let asked = in_tiles(rt, alloc, order);
    let found = measure(rt, alloc, &pnm, (3, 5), &asked);
    equal_at(rt, order, found, (576, sum));
}

#[test]
fn tiles_in_each_order(rt: HostRuntime) {
    has_checksum(&rt, rt.alloc(), Order::Lrcp, 6138899);
    has_checksum(&rt, rt.alloc(), Order::Rlcp, 6138950);
    has_checksum(&rt, rt.alloc(), Order::Rpcl, 6139001);
    has_checksum(&rt, rt.alloc(), Order::Pcrl, 6097763);
    has_checksum(&rt, rt.alloc(), Order::Cprl, 6097814);
}

/// The samples of an image with many precincts.
fn precinct_samples(rt: &impl Abort, alloc: Global) -> Vec<u8> {
    let mut samples = Vec::new(alloc);
    for y in 0..64_u8 {
        for x in 0..64_u8 {
            let squares = x
                .wrapping_mul(x)
                .wrapping_add(y.wrapping_mul(y).wrapping_mul(5));
            samples
                .push(squares.wrapping_add(x.wrapping_mul(y)))
                .expect(rt, "an answer");
        }
    }
    samples
}

#[test]
fn precincts_and_layers(rt: HostRuntime) {
    let alloc = rt.alloc();
    let pnm = pnm_of(
        &rt,
        alloc,
        "P5\n64 64\n255\n",
        &precinct_samples(&rt, alloc),
    );
    let mut asked = plain(alloc, 2);
    asked.layers = 3;
    asked.sop = true;
    asked.eph = true;
    asked
        .precincts
        .extend_from_slice(&[(3, 3), (3, 3), (3, 3)])
        .expect(&rt, "an answer");
    let found = measure(&rt, alloc, &pnm, (0, 0), &asked);
    equal(&rt, found, (7342, 105381393));
}

/// The byte of a style, and the length and the checksum of an image in tiles and of one in layers,
/// as an independent encoder writes them.
static STYLED: [(u32, (usize, u32), (usize, u32)); 8] = [
    (0x00, (320, 3460973), (3109, 49662954)),
    (0x02, (326, 3700269), (3077, 47826558)),
    (0x08, (321, 3553384), (3124, 49056072)),
    (0x0A, (327, 3821487), (3091, 49195343)),
    (0x20, (377, 4343873), (3129, 48573273)),
    (0x22, (386, 4517901), (3097, 48218430)),
    (0x28, (378, 4384972), (3139, 49164741)),
    (0x2A, (387, 4558659), (3112, 48874225)),
];

#[test]
fn each_style(rt: HostRuntime) {
    let alloc = rt.alloc();
    let tiled = pnm_of(&rt, alloc, "P5\n17 13\n255\n", &tiled_samples(&rt, alloc));
    let layered = pnm_of(
        &rt,
        alloc,
        "P5\n64 64\n255\n",
        &precinct_samples(&rt, alloc),
    );
    for (byte, in_tiles, in_layers) in &STYLED {
        let mut asked = plain(alloc, 1);
        asked.style = style_of(*byte);
        asked.tile = Some((16, 16));
        equal_at(
            &rt,
            *byte,
            measure(&rt, alloc, &tiled, (3, 5), &asked),
            *in_tiles,
        );
        asked.tile = None;
        asked.layers = 3;
        asked.sop = true;
        asked.eph = true;
        equal_at(
            &rt,
            *byte,
            measure(&rt, alloc, &layered, (0, 0), &asked),
            *in_layers,
        );
    }
}

static LAYERS: [(u8, &str, &str, i32); 4] = [
    (
        255,
        "FF90 000A 0000 0000001E 00 01 FF93 00 A4 20 00 F0 00 F0 00 F0 00 F0 00 F0 00 F0 00 FFD9",
        "FF90 000A 0000 0000001A 00 01 FF93 00 A4 20 00 F0 00 F0 00 00 00 00 00 FFD9",
        240,
    ),
    (
        1,
        "FF90 000A 0000 0000001E 00 01 FF93 00 A4 20 09 F0 00 F0 00 F0 00 F0 00 F0 00 F0 00 FFD9",
        "FF90 000A 0000 0000001A 00 01 FF93 00 A4 20 09 F0 00 F0 00 00 00 00 00 FFD9",
        16,
    ),
    (
        0,
        "FF90 000A 0000 0000001F 00 01 FF93 D0 80 07 F0 00 F0 00 F0 00 F0 00 F0 00 F0 00 F0 00 FFD9",
        "FF90 000A 0000 0000001B 00 01 FF93 D0 80 07 F0 00 F0 00 F0 00 00 00 00 00 FFD9",
        0,
    ),
    (
        200,
        "FF90 000A 0000 0000001F 00 01 FF93 00 A4 40 04 4F F0 00 F0 00 F0 00 F0 00 F0 00 F0 00 FFD9",
        "FF90 000A 0000 0000001B 00 01 FF93 00 A4 40 04 4F F0 00 F0 00 00 00 00 00 FFD9",
        192,
    ),
];

/// A file of one sample in eight layers means this sample.
fn means(rt: &impl Abort, alloc: Global, part: &str, sample: i32) {
    let image = decode(rt, alloc, &file_of(rt, alloc, Headers::Layers, part), 0);
    equal_at(rt, part, image.planes().plane(0), [sample].as_slice());
}

/// A sample in eight layers, and what is left of it where the last four are emptied.
#[test]
fn fewer_layers(rt: HostRuntime) {
    let alloc = rt.alloc();
    for (sample, part, less, kept) in &LAYERS {
        let pnm = pnm_of(&rt, alloc, "P5\n1 1\n255\n", &[*sample]);
        let mut asked = plain(alloc, 0);
        asked.layers = 8;
        writes(&rt, alloc, &pnm, &asked, Headers::Layers, part);
        means(&rt, alloc, less, *kept);
    }
}

/// The boxes in front of the codestream of two by two samples.
static BOXES: &str =
    "0000000C 6A502020 0D0A870A 00000014 66747970 6A703220 00000000 6A703220 0000002D 6A703268 00000016 69686472 00000002 00000002 0001 07 07 00 00 0000000F 636F6C72 01 00 00 00000011 00000066 6A703263";

#[test]
fn in_boxes(rt: HostRuntime) {
    let alloc = rt.alloc();
    let (pnm, part) = SQUARE;
    let mut asked = plain(alloc, 1);
    asked.container = Container::Jp2;
    let file = written(&rt, alloc, pnm, (0, 0), &asked);
    let mut wanted = bytes(&rt, alloc, &[BOXES]);
    add(
        &rt,
        &mut wanted,
        &file_of(&rt, alloc, Headers::Square, part),
    );
    equal(&rt, wanted.len(), 179);
    equal(&rt, file.as_slice(), wanted.as_slice());
}
