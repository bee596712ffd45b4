//! Small files with code-blocks: the samples that they mean, or the first fault.

use crate::asserts::{equal, equal_at};
use crate::calls::{decode, decode_pnm, refusal};
use crate::small::{Headers, file_of};
use crate::texts::{bytes, pnm_of};
use jk_math::Fault;
use std::alloc::Global;
use std::process::Abort;

/// Headers and tile-parts, a reduction, and the header and samples of the PNM file that is meant.
type Meaning = (Headers, &'static str, u32, &'static str, &'static str);

/// A file means these samples.
fn means(rt: &impl Abort, alloc: Global, case: &Meaning) {
    let (headers, parts, reduce, header, samples) = *case;
    let file = file_of(rt, alloc, headers, parts);
    let text = decode_pnm(rt, alloc, &file, reduce);
    let wanted = pnm_of(rt, alloc, header, &bytes(rt, alloc, &[samples]));
    equal_at(rt, (reduce, parts), text.as_slice(), wanted.as_slice());
}

/// Headers and tile-parts, a reduction, and why they are refused.
type Refusal = (Headers, &'static str, u32, Fault);

/// A file is refused.
fn refuses(rt: &impl Abort, alloc: Global, case: &Refusal) {
    let (headers, parts, reduce, fault) = *case;
    let file = file_of(rt, alloc, headers, parts);
    let found = refusal(alloc, &file, reduce);
    equal_at(rt, (reduce, parts), found, Some(fault));
}

static ONE_SAMPLE: [Meaning; 6] = [
    (
        Headers::Pixel,
        "FF90 000A 0000 00000011 00 01 FF93 C0 21 03 FFD9",
        0,
        "P5\n1 1\n255\n",
        "81",
    ),
    (
        Headers::Pixel,
        "FF90 000A 0000 00000011 00 01 FF93 C0 21 07 FFD9",
        0,
        "P5\n1 1\n255\n",
        "7F",
    ),
    (
        Headers::Moved,
        "FF90 000A 0000 00000012 00 01 FF93 C0 3A 08 03 FFD9",
        0,
        "P5\n1 1\n255\n",
        "81",
    ),
    (
        Headers::Passed,
        "FF90 000A 0000 00000017 00 01 FF58 0004 00 03 FF93 C0 21 03 FFD9",
        0,
        "P5\n1 1\n255\n",
        "81",
    ),
    (
        Headers::Pixel,
        "FF90 000A 0000 00000000 00 01 FF93 C0 21 03 FFD9",
        0,
        "P5\n1 1\n255\n",
        "81",
    ),
    (
        Headers::Tiles,
        "FF90 000A 0000 00000011 00 01 FF93 C0 21 03 FF90 000A 0001 00000011 00 01 FF93 C0 21 07 FFD9",
        0,
        "P5\n2 1\n255\n",
        "81 7F",
    ),
];

#[test]
fn one_sample(rt: HostRuntime) {
    for case in &ONE_SAMPLE {
        means(&rt, rt.alloc(), case);
    }
}

static OTHER_SEGMENTS: [Meaning; 3] = [
    (
        Headers::Pixel,
        "FF90 000A 0000 00000013 00 01 FF93 C0 23 00 FF 80 FFD9",
        0,
        "P5\n1 1\n255\n",
        "81",
    ),
    (
        Headers::Pixel,
        "FF90 000A 0000 00000012 00 01 FF93 C0 22 FF 7F FFD9",
        0,
        "P5\n1 1\n255\n",
        "80",
    ),
    (
        Headers::Pixel,
        "FF90 000A 0000 00000010 00 01 FF93 C0 20 FFD9",
        0,
        "P5\n1 1\n255\n",
        "80",
    ),
];

/// A segment may end in bytes that the coder wouldn't write, and a block may have none.
#[test]
fn other_segments(rt: HostRuntime) {
    for case in &OTHER_SEGMENTS {
        means(&rt, rt.alloc(), case);
    }
}

static ONE_LEVEL: [Meaning; 5] = [
    (
        Headers::Column,
        "FF90 000A 0000 0000001E 00 01 FF93 C7 D4 0C 01 8F 0D C8 75 7F C0 7C 21 80 0F B1 7F FFD9",
        0,
        "P5\n1 9\n255\n",
        "65 67 68 69 60 61 60 66 6D",
    ),
    (
        Headers::Column,
        "FF90 000A 0000 0000001E 00 01 FF93 C7 D4 0C 01 8F 0D C8 75 7F C0 7C 21 80 0F B1 76 FFD9",
        0,
        "P5\n1 9\n255\n",
        "65 67 68 69 60 61 60 66 6D",
    ),
    (
        Headers::Column,
        "FF90 000A 0000 0000001E 00 01 FF93 C7 D4 0C 01 8F 0D C8 75 7F C0 7C 21 80 0F B1 7F FFD9",
        1,
        "P5\n1 5\n255\n",
        "66 6A 62 60 6D",
    ),
    (
        Headers::Square,
        "FF90 000A 0000 00000018 00 01 FF93 C0 21 03 C0 10 A0 04 20 03 07 FFD9",
        0,
        "P5\n2 2\n255\n",
        "80 81 80 80",
    ),
    (
        Headers::Square,
        "FF90 000A 0000 00000018 00 01 FF93 C0 21 03 C0 10 A0 04 20 03 07 FFD9",
        1,
        "P5\n1 1\n255\n",
        "81",
    ),
];

#[test]
fn one_level(rt: HostRuntime) {
    for case in &ONE_LEVEL {
        means(&rt, rt.alloc(), case);
    }
}

static BLOCKS_AND_PRECINCTS: [Meaning; 3] = [
    (
        Headers::Colour,
        "FF90 000A 0000 0000003C 00 01 FF93 E1 F9 C2 7E 70 40 11 50 49 7F 09 67 E3 F5 04 7E A0 30 11 50 33 CD AC 80 63 CF 08 EC AF E7 ED 08 FD A0 60 14 00 3B CD AC 80 63 D0 02 34 9C FFD9",
        0,
        "P6\n3 5\n255\n",
        "C86432 C86432 C86432 C86432 C86432 C86432 C86432 C86432 C86432 C86432 C86432 C86432 C86432 C86432 C86432",
    ),
    (
        Headers::Precincts,
        "FF90 000A 0000 0000003A 00 01 FF93 DF 80 58 06 9F F2 B4 67 BA C9 11 64 3A 7F C1 F3 84 83 E7 05 0F B4 0C 10 05 F0 5F 10 87 10 84 BF C7 DA 04 0B 37 C7 DA 06 0B 5E 67 00 FFD9",
        0,
        "P5\n5 5\n255\n",
        "00092451901F284370AF3E47628FCE5D6681AEED7C85A0CD0C",
    ),
    (
        Headers::Precincts,
        "FF90 000A 0000 0000003A 00 01 FF93 DF 80 58 06 9F F2 B4 67 BA C9 11 64 3A 7F C1 F3 84 83 E7 05 0F B4 0C 10 05 F0 5F 10 87 10 84 BF C7 DA 04 0B 37 C7 DA 06 0B 5E 67 80 FFD9",
        0,
        "P5\n5 5\n255\n",
        "00092451901F284370AF3E47628FCE5D6681AEED7C85A0CD0C",
    ),
];

#[test]
fn blocks_and_precincts(rt: HostRuntime) {
    for case in &BLOCKS_AND_PRECINCTS {
        means(&rt, rt.alloc(), case);
    }
}

static STYLES: [Meaning; 3] = [
    (
        Headers::Symbols,
        "FF90 000A 0000 00000011 00 01 FF93 C0 21 01 FFD9",
        0,
        "P5\n1 1\n255\n",
        "81",
    ),
    (
        Headers::Reset,
        "FF90 000A 0000 00000013 00 01 FF93 C1 F2 02 00 7F FFD9",
        0,
        "P5\n1 1\n255\n",
        "8F",
    ),
    (
        Headers::Reset,
        "FF90 000A 0000 00000012 00 01 FF93 C1 F2 01 00 FFD9",
        0,
        "P5\n1 1\n255\n",
        "8E",
    ),
];

#[test]
fn styles(rt: HostRuntime) {
    for case in &STYLES {
        means(&rt, rt.alloc(), case);
    }
}

static REFUSED_BLOCKS: [Refusal; 9] = [
    (
        Headers::Pixel,
        "FF90 000A 0000 00000012 00 01 FF93 C0 22 FF 8F FFD9",
        0,
        Fault::CodeOutOfInterval,
    ),
    (
        Headers::Pixel,
        "FF90 000A 0000 00000012 00 01 FF93 C0 22 FF 80 FFD9",
        0,
        Fault::CodeOutOfInterval,
    ),
    (
        Headers::Pixel,
        "FF90 000A 0000 00000010 00 01 FF93 C0 00 FFD9",
        0,
        Fault::PacketHeader,
    ),
    (
        Headers::Pixel,
        "FF90 000A 0000 00000012 00 01 FF93 C0 30 40 03 FFD9",
        0,
        Fault::TooManyPasses,
    ),
    (
        Headers::Pixel,
        "FF90 000A 0000 00000012 00 01 FF93 C0 21 03 00 FFD9",
        0,
        Fault::SurplusBytes,
    ),
    (
        Headers::Pixel,
        "FF90 000A 0000 00000011 00 01 FF93 C0 21 03 FFD9 00",
        0,
        Fault::SurplusBytes,
    ),
    (
        Headers::Pixel,
        "FF90 000A 0000 00000010 00 01 FF93 C0 21 FFD9",
        0,
        Fault::Truncated,
    ),
    (
        Headers::Pixel,
        "FF90 000A 0000 0000000E 00 01 FF93 FFD9",
        0,
        Fault::MissingPackets,
    ),
    (
        Headers::Symbols,
        "FF90 000A 0000 00000011 00 01 FF93 C0 21 03 FFD9",
        0,
        Fault::BadValue,
    ),
];

#[test]
fn refused_blocks(rt: HostRuntime) {
    for case in &REFUSED_BLOCKS {
        refuses(&rt, rt.alloc(), case);
    }
}

static REFUSED_TILES: [Refusal; 2] = [
    (
        Headers::Tiles,
        "FF90 000A 0000 00000012 00 01 FF93 C0 22 FF 8F FF90 000A 0001 00000011 00 01 FF93 C0 21 03 FFD9",
        0,
        Fault::CodeOutOfInterval,
    ),
    (
        Headers::Tiles,
        "FF90 000A 0000 00000012 00 01 FF93 C0 22 FF 8F FF90 000A 0001 0000000E 00 01 FF93 FFD9",
        0,
        Fault::MissingPackets,
    ),
];

/// The packets of all tiles are judged before the code-blocks of any.
#[test]
fn refused_tiles(rt: HostRuntime) {
    for case in &REFUSED_TILES {
        refuses(&rt, rt.alloc(), case);
    }
}

static REFUSED_REDUCTIONS: [Refusal; 2] = [
    (
        Headers::Column,
        "FF90 000A 0000 0000001E 00 01 FF93 C7 D4 0C 01 8F 0D C8 75 7F C0 7C 21 80 0F B1 7F FFD9",
        2,
        Fault::BadWindow,
    ),
    (
        Headers::Moved,
        "FF90 000A 0000 00000012 00 01 FF93 C0 3A 08 03 FFD9",
        1,
        Fault::BadWindow,
    ),
];

#[test]
fn refused_reductions(rt: HostRuntime) {
    for case in &REFUSED_REDUCTIONS {
        refuses(&rt, rt.alloc(), case);
    }
}

#[test]
fn place(rt: HostRuntime) {
    let alloc = rt.alloc();
    let part = "FF90 000A 0000 00000012 00 01 FF93 C0 3A 08 03 FFD9";
    let file = file_of(&rt, alloc, Headers::Moved, part);
    let image = decode(&rt, alloc, &file, 0);
    equal(&rt, (image.x0(), image.y0()), (1, 0));
}

/// No front of a file with a code-block is a file.
#[test]
fn fronts(rt: HostRuntime) {
    let alloc = rt.alloc();
    let part = "FF90 000A 0000 00000011 00 01 FF93 C0 21 03 FFD9";
    let file = file_of(&rt, alloc, Headers::Pixel, part);
    for length in 0..file.len() {
        let fault = refusal(alloc, &file[..length], 0);
        equal_at(&rt, length, fault, Some(Fault::Truncated));
    }
}
