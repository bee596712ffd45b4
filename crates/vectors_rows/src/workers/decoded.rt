//! Files decoded by one worker, two and five, and by more than there are rows.

use crate::by_workers::Held;
use jk_code::decode_with;
use jk_jobs::{Gate, Open};
use jk_math::{Fault, Image};
use std::alloc::Global;
use std::process::Abort;
use std::test::Fail;
use std::thread::Threads;
use vectors::{Meeting, bytes_of};

/// How many workers a file is decoded by.
static WORKERS: [usize; 5] = [1, 2, 3, 5, 64];

/// One column of nine samples, one level: a bare codestream.
const COLUMN: &str =
    "FF4FFF5100290000000000010000000900000000000000000000000100000009000000000000000000010701\
01FF52000C00000001000104040001FF5C00074040484850FF90000A00000000001E0001FF93C7D40C018F0DC8757FC07C21\
800FB17FFFD9";

/// 3 by 5 pixels (200, 100, 50) in colour, without a level, code-blocks of 4 by 4.
const COLOUR: &str =
    "FF4FFF51002F0000000000030000000500000000000000000000000300000005000000000000000000030701010701010701 \
01FF52000C00000001010000000001FF5C00044040FF90000A00000000003C0001FF93E1F9C27E70401150497F0967E3F504 \
7EA030115033CDAC8063CF08ECAFE7ED08FDA06014003BCDAC8063D002349CFFD9";

/// 17 by 13 grey samples at (3, 5), of which sample k is 37 k modulo 251, in tiles of 8 by 8, one
/// level.
const TILES: &str =
    "FF4FFF510029000000000014000000120000000300000005000000080000000800000000000000000001070101FF52000E01 \
0000010001040400011122FF5C00074040484850FF90000A00000000002F0001FF93C7D40605A1BFC3EA020006EFC7DA071F \
68347E00600C405F08975130B73F0CF7D8FF90000A0001000000420001FF93C7D4060BB058C7D406043D5FC3EA029F802C3E \
D030041F023906C7BF026C37C3EA039F80343ED030015C3F08F12C695B2F092377FF90000A0002000000280001FF93C3E704 \
0BC0C3EA039F80343ED030096A3F0DFD517762A7092377FF90000A0003000000520001FF93C7D40A06C084C57FC7D40A0CBC \
97A23FC3EA0200091CC7DA091F68247E00600E09AB3F08F726860CF7D8C3EA0200091CC7DA091F68247E00600E09AB3F08F7 \
26790CF7D8FF90000A00040000007E0001FF93C7D4080A4B537DC7D40A04258EEC1FC7D40A02393DA35FC3E7080DE6A08FC3 \
EA029F80243ED030026C02390911026C37C7DA0D3F00587DA06000E56D02CCDF0E8BE8C4150B999FC3EA029F802C3ED03002 \
6C0239092EBF026C37C3EA059F802C3ED03008135EE0BF0CBDD62B5F026C37FF90000A0005000000480001FF93C3E7080B5A \
4737C3E7080288657FC3EA059F802C3ED03008135EE0D70DE8857B6F092377C3EA059F802C3ED03008135EE0D70DE8857907 \
092377FF90000A00060000002B0001FF93C7D4060C4C1FC3EA020006EFC3EA039F801C3ED020015C3F05A15B06C9FF90000A \
00070000003A0001FF93C7D40602DD3FC3E704014FC3EA029F801C3ED020041F02ED1F041DC3EA039F801C3ED020096A4F0A \
949F041DFF90000A0008000000250001FF93C3E70403A4C3EA039F80243ED020096A3F0BBC327F06C9FFD9";

/// One sample whose only code-block has a code value outside its interval.
const OUTSIDE: &str =
    "FF4FFF5100290000000000010000000100000000000000000000000100000001000000000000000000010701\
01FF52000C00000001000004040001FF5C00044040FF90000A0000000000120001FF93C022FF8FFFD9";

/// The column of nine samples, of which the code-block of LH has a code value outside its interval.
const OUTSIDE_ABOVE: &str =
    "FF4FFF5100290000000000010000000900000000000000000000000100000009000000000000000000010701\
01FF52000C00000001000104040001FF5C00074040484850FF90000A00000000001E0001FF93C7D40C018F0DC8757FC07C21\
80FF8F7FFFD9";

/// The samples of the colours, component by component.
static COLOURS: [i32; 45] = [
    200, 200, 200, 200, 200, 200, 200, 200, 200, 200, 200, 200, 200, 200, 200, 100, 100, 100, 100,
    100, 100, 100, 100, 100, 100, 100, 100, 100, 100, 100, 50, 50, 50, 50, 50, 50, 50, 50, 50, 50,
    50, 50, 50, 50, 50,
];

/// The samples of the tiles.
static WHOLE: [i32; 221] = [
    0, 37, 74, 111, 148, 185, 222, 8, 45, 82, 119, 156, 193, 230, 16, 53, 90, 127, 164, 201, 238,
    24, 61, 98, 135, 172, 209, 246, 32, 69, 106, 143, 180, 217, 3, 40, 77, 114, 151, 188, 225, 11,
    48, 85, 122, 159, 196, 233, 19, 56, 93, 130, 167, 204, 241, 27, 64, 101, 138, 175, 212, 249,
    35, 72, 109, 146, 183, 220, 6, 43, 80, 117, 154, 191, 228, 14, 51, 88, 125, 162, 199, 236, 22,
    59, 96, 133, 170, 207, 244, 30, 67, 104, 141, 178, 215, 1, 38, 75, 112, 149, 186, 223, 9, 46,
    83, 120, 157, 194, 231, 17, 54, 91, 128, 165, 202, 239, 25, 62, 99, 136, 173, 210, 247, 33, 70,
    107, 144, 181, 218, 4, 41, 78, 115, 152, 189, 226, 12, 49, 86, 123, 160, 197, 234, 20, 57, 94,
    131, 168, 205, 242, 28, 65, 102, 139, 176, 213, 250, 36, 73, 110, 147, 184, 221, 7, 44, 81,
    118, 155, 192, 229, 15, 52, 89, 126, 163, 200, 237, 23, 60, 97, 134, 171, 208, 245, 31, 68,
    105, 142, 179, 216, 2, 39, 76, 113, 150, 187, 224, 10, 47, 84, 121, 158, 195, 232, 18, 55, 92,
    129, 166, 203, 240, 26, 63, 100, 137, 174, 211, 248, 34, 71, 108,
];

/// Those at reduction 1.
static HALF: [i32; 48] = [
    92, 153, 156, 88, 162, 120, 138, 111, 96, 157, 159, 92, 181, 139, 141, 115, 99, 160, 162, 95,
    130, 87, 144, 118, 102, 163, 165, 98, 140, 98, 147, 121, 105, 166, 168, 101, 143, 101, 150,
    124, 124, 91, 172, 104, 147, 105, 154, 127,
];

/// A file, a reduction, and the fault of one thread: of a code-block, of the reduction, and of a
/// file that ends too soon.
static REFUSED: [(&str, u32, Fault); 4] = [
    (OUTSIDE, 0, Fault::CodeOutOfInterval),
    (OUTSIDE_ABOVE, 0, Fault::CodeOutOfInterval),
    (TILES, 2, Fault::BadWindow),
    ("FF4FFF51", 0, Fault::Truncated),
];

/// What so many workers make of a file.
fn decoded<R: Threads + Sync, G: Gate + Sync>(
    rt: &R,
    alloc: Global,
    workers: usize,
    gate: &G,
    bytes: &[u8],
    reduce: u32,
) -> Result<Image, Fault> {
    decode_with::<R, G>(rt, alloc, workers, gate, bytes, reduce)
}

/// Whether an image has these samples, component by component.
fn has(image: &Image, samples: &[i32]) -> bool {
    let planes = image.planes();
    let mut rest = samples;
    for component in 0..planes.len() {
        match rest.strip_prefix(planes.plane(component)) {
            Some(more) => rest = more,
            None => return false,
        }
    }
    rest.is_empty()
}

/// What a file means, whoever decodes it. A code-block above the asked resolution isn't looked at.
#[test]
fn files(rt: HostRuntime) -> Result<(), Fail> {
    let alloc = rt.alloc();
    let rows: [(&str, u32, &[i32]); 6] = [
        (COLUMN, 0, &[101, 103, 104, 105, 96, 97, 96, 102, 109]),
        (COLUMN, 1, &[102, 106, 98, 96, 109]),
        (OUTSIDE_ABOVE, 1, &[102, 106, 98, 96, 109]),
        (COLOUR, 0, &COLOURS),
        (TILES, 0, &WHOLE),
        (TILES, 1, &HALF),
    ];
    for (text, reduce, samples) in rows {
        let bytes = bytes_of(alloc, &[text])?;
        for workers in WORKERS {
            let image = decoded(&rt, alloc, workers, &Open, &bytes, reduce)?;
            assert!(rt; has(&image, samples), "{workers} {text}");
        }
    }
    Ok(())
}

/// The fault of one thread.
#[test]
fn faults(rt: HostRuntime) -> Result<(), Fail> {
    let alloc = rt.alloc();
    for (text, reduce, fault) in REFUSED {
        let bytes = bytes_of(alloc, &[text])?;
        for workers in WORKERS {
            let found = decoded(&rt, alloc, workers, &Open, &bytes, reduce).err();
            assert_eq!(rt; found, Some(fault), "{workers} {text}");
        }
    }
    Ok(())
}

/// No worker, and one more than 64, before anything of the file is looked at.
#[test]
fn workers_out_of_range(rt: HostRuntime) -> Result<(), Fail> {
    for workers in [0, 65] {
        let found = decoded(&rt, rt.alloc(), workers, &Open, &[], 0).err();
        assert_eq!(rt; found, Some(Fault::BadParameters), "{workers}");
    }
    Ok(())
}

/// Each worker has a job of code-blocks, small as they are, which is told once when it begins and once when
/// it has ended; the first ends only because the second has begun, and what they make is the image.
#[test]
fn two_jobs_at_a_time(rt: HostRuntime) -> Result<(), Fail> {
    let alloc = rt.alloc();
    let bytes = bytes_of(alloc, &[COLOUR])?;
    for workers in [2, 3] {
        let held = Held {
            meeting: Meeting::new(alloc, workers)?,
        };
        let image = decoded(&rt, alloc, workers, &held, &bytes, 0)?;
        assert!(rt; has(&image, &COLOURS), "{workers}");
        assert!(rt; held.meeting.was_met(1), "{workers}");
    }
    Ok(())
}
