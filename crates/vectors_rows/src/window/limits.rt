//! Files at the limits: the index of one grey sample's file with other numbers, with the answers of
//! worked cases.

use crate::window::asserts::equal_at;
use crate::window::calls::{decode, file_of, index};
use jk_math::Fault;
use std::alloc::Global;
use std::process::Abort;
use std::rt::Files;
use vectors::{Line, Told, kilobytes};

/// Width of the image and of its tiles, COD, QCD, what stands in front of SOD, the answer of `index`,
/// and how many kilobytes are taken at most. Tile-part and file end behind one empty packet.
static LIMITS: &str = "\
00000001|00000001|000C 00 00 0001 00 00 04 04 00 01|0004 40 B0||Ok|4096
00000001|00000001|000C 00 00 0001 00 00 04 04 00 01|0004 40 B8||F7 Limit|4096
00000001|00000001|000C 00 00 0001 00 00 04 04 00 01|0004 00 00||F5 BadValue|4096
00000001|00000001|000C 00 00 0001 00 0A 04 04 00 01|0004 40 40||F5 BadValue|4096
00000001|00000001|000C 00 00 0001 00 0B 04 04 00 01|0004 40 40||F7 Limit|4096
00000001|00000001|000C 00 00 0001 00 21 04 04 00 01|0004 40 40||F5 BadValue|4096
10000000|10000000|000C 00 00 0001 00 00 04 04 00 01|0004 40 40||F11 MissingPackets|4096
10000001|10000001|000C 00 00 0001 00 00 04 04 00 01|0004 40 40||F7 Limit|4096
00010000|00000001|000C 00 00 0001 00 00 04 04 00 01|0004 40 40||F5 BadValue|4096
00000100|00000100|000D 01 00 FFFF 00 00 04 04 00 01 00|0004 40 40||F11 MissingPackets|4096
00000101|00000101|000D 01 00 FFFF 00 00 04 04 00 01 00|0004 40 40||F7 Limit|4096
00000101|00000101|000C 00 00 0001 00 00 04 04 00 01|0004 40 40|FF52 000D 01 00 FFFF 00 00 04 04 00 01 00|F7 Limit|4096";

/// The same of 65,535 tiles, the most that there may be. An index takes 160 bytes for each as it
/// grows; an allocator with checks keeps what it had before, too.
static TILES: &str =
    "0000FFFF|00000001|000C 00 00 0001 00 00 04 04 00 01|0004 40 40||F11 MissingPackets|17408";

/// The file of the first fields of a row. Psot is 0, so that its tile-part ends where the file does.
fn file_of_row(rt: &impl Abort, alloc: Global, line: &mut Line<'_>) -> Vec<u8> {
    let width = line.word();
    let tile = line.word();
    let cod = line.word();
    let qcd = line.word();
    let more = line.word();
    let texts = [
        "FF4F FF51 0029 0000",
        width,
        "00000001 00000000 00000000",
        tile,
        "00000001 00000000 00000000 0001 07 01 01 FF52",
        cod,
        "FF5C",
        qcd,
        "FF90 000A 0000 00000000 00 01",
        more,
        "FF93 00 FFD9",
    ];
    file_of(rt, alloc, &texts)
}

/// An answer in words is this one.
fn answers(rt: &impl Abort, alloc: Global, row: &str, fault: Option<Fault>, due: &str) {
    let mut told = Told::new(alloc);
    match fault {
        None => told.word("Ok"),
        Some(fault) => told.said(&fault),
    }
    let told = told.end().expect(rt, "a text");
    equal_at(rt, "an answer", row, told.as_str(), due);
}

/// So many kilobytes more than at first were taken at most.
fn takes<R: Files + Abort>(rt: &R, alloc: Global, before: u64, more: u64) {
    let taken = kilobytes(rt, alloc, "VmPeak:").expect(rt, "memory");
    let few = taken < before.saturating_add(more);
    equal_at(rt, "kilobytes", (before, taken), few, true);
}

/// What `index` and `decode` answer of the file of a row, and how many kilobytes they take.
fn is_answered<R: Files + Abort>(rt: &R, alloc: Global, row: &str) {
    let mut line = Line::new(row, '|');
    let file = file_of_row(rt, alloc, &mut line);
    let due = line.word();
    let most = line.number(1, 32_768);
    line.end().expect(rt, "a row");
    let before = kilobytes(rt, alloc, "VmPeak:").expect(rt, "memory");
    answers(rt, alloc, row, index(alloc, &file).err(), due);
    answers(rt, alloc, row, decode(alloc, &file, 0).err(), due);
    takes(rt, alloc, before, most);
}

/// A file of 2,048 by 2,048 samples in code-blocks of 4 by 4, with five levels and six empty packets.
static EMPTY: &str =
    "FF4F FF51 0029 0000 00000800 00000800 00000000 00000000 00000800 00000800 00000000 00000000 0001 07 01 01 FF52 000C 00 00 0001 00 05 00 00 00 01 FF5C 0013 40 40 40 40 40 40 40 40 40 40 40 40 40 40 40 40 40 FF90 000A 0000 00000014 00 01 FF93 00 00 00 00 00 00 FFD9";

/// Each row has its answer, and none takes memory for what it claims alone; the image of a file
/// takes 8 bytes a sample at most, with what is taken on the way.
#[test]
fn numbers_at_the_limits(rt: HostRuntime) {
    let before = kilobytes(&rt, rt.alloc(), "VmSize:").expect(&rt, "memory");
    for row in LIMITS.split('\n') {
        is_answered(&rt, rt.alloc(), row);
    }
    let file = file_of(&rt, rt.alloc(), &[EMPTY]);
    let fault = decode(rt.alloc(), &file, 0).err();
    answers(&rt, rt.alloc(), "2,048 by 2,048", fault, "Ok");
    takes(&rt, rt.alloc(), before, 34_816);
}

/// This in a process of its own, so that no other memory is counted or hides it.
#[test]
fn as_many_tiles_as_there_may_be(rt: HostRuntime) {
    is_answered(&rt, rt.alloc(), TILES);
}
