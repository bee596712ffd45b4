//! Files whose windows are known by their headers and some packets, and files whose aren't.

use crate::stored::calls::{COLUMN, WINDOW, check_known, file_of, shown, view};
use jk_stored::MemoryStored;
use std::alloc::Global;
use std::process::Abort;
use vectors::equal_at;

/// The main header of four pixels with one level.
static FOUR: &str =
    "FF4F FF51 0029 0000 00000002 00000002 00000000 00000000 00000002 00000002 00000000 00000000 0001 07 01 01 FF52 000C 00 00 0001 00 01 04 04 00 01 FF5C 0007 40 40 48 48 50";

/// What stands behind it, and whether a window is known then: in the form of the tile-parts, in what
/// stands beside the packets, and in the packets, of which the first has three bytes and the second
/// seven.
static PARTS: [(&str, &str, bool); 14] = [
    (
        "one part",
        "FF90 000A 0000 00000018 00 01 FF93 C02103 C010A004200307 FFD9",
        true,
    ),
    (
        "TNsot 0",
        "FF90 000A 0000 00000018 00 00 FF93 C02103 C010A004200307 FFD9",
        true,
    ),
    (
        "PLT",
        "FF90 000A 0000 0000001F 00 01 FF58 0005 00 03 07 FF93 C02103 C010A004200307 FFD9",
        true,
    ),
    (
        "TLM",
        "FF55 0008 00 40 00000018 FF90 000A 0000 00000018 00 01 FF93 C02103 C010A004200307 FFD9",
        true,
    ),
    (
        "a comment",
        "FF90 000A 0000 00000020 00 01 FF64 0006 0001 4A4B FF93 C02103 C010A004200307 FFD9",
        true,
    ),
    (
        "two parts",
        "FF90 000A 0000 00000011 00 02 FF93 C02103 FF90 000A 0000 00000015 01 02 FF93 C010A004200307 FFD9",
        false,
    ),
    (
        "an open part",
        "FF90 000A 0000 00000000 00 01 FF93 C02103 C010A004200307 FFD9",
        false,
    ),
    (
        "no EOC",
        "FF90 000A 0000 00000018 00 01 FF93 C02103 C010A004200307",
        false,
    ),
    (
        "a byte behind EOC",
        "FF90 000A 0000 00000018 00 01 FF93 C02103 C010A004200307 FFD9 00",
        false,
    ),
    ("no part", "FFD9", false),
    (
        "a part past the end",
        "FF90 000A 0000 0000001B 00 01 FF93 C02103 C010A004200307 FFD9",
        false,
    ),
    (
        "a surplus byte",
        "FF90 000A 0000 00000019 00 01 FF93 C02103 C010A004200307 00 FFD9",
        false,
    ),
    (
        "a packet short",
        "FF90 000A 0000 00000011 00 01 FF93 C02103 FFD9",
        false,
    ),
    (
        "a body cut short",
        "FF90 000A 0000 00000017 00 01 FF93 C02103 C010A0042003 FFD9",
        false,
    ),
];

/// Each form, where the window needs one packet and where it needs both.
#[test]
fn forms_of_tile_parts(rt: HostRuntime) {
    let alloc = rt.alloc();
    for (name, parts, is_known) in PARTS {
        for seen in [view(0, 0, 0, 2, 2), view(1, 0, 0, 1, 1)] {
            let file = file_of(&rt, alloc, &[FOUR, parts]);
            check_known(&rt, alloc, name, file, seen, is_known);
        }
    }
}

/// Main headers and what stands behind them, and whether a window is known then: SOP and EPH beside
/// each packet, two tiles, and two tiles out of their order.
static HEADERS: [(&str, &str, bool); 3] = [
    (
        "SOP and EPH",
        "FF4F FF51 0029 0000 00000002 00000002 00000000 00000000 00000002 00000002 00000000 00000000 0001 07 01 01 \
FF52 000C 06 00 0001 00 01 04 04 00 01 FF5C 0007 40 40 48 48 50 FF90 000A 0000 00000028 00 01 FF93 \
FF91 0004 0000 C021 FF92 03 FF91 0004 0001 C010A00420 FF92 0307 FFD9",
        true,
    ),
    (
        "tiles",
        "FF4F FF51 0029 0000 00000002 00000001 00000000 00000000 00000001 00000001 00000000 00000000 0001 07 01 01 \
FF52 000C 00 00 0001 00 00 04 04 00 01 FF5C 0004 40 40 \
FF90 000A 0000 0000000F 00 01 FF93 00 FF90 000A 0001 00000011 00 01 FF93 C02103 FFD9",
        true,
    ),
    (
        "tiles out of order",
        "FF4F FF51 0029 0000 00000002 00000001 00000000 00000000 00000001 00000001 00000000 00000000 0001 07 01 01 \
FF52 000C 00 00 0001 00 00 04 04 00 01 FF5C 0004 40 40 \
FF90 000A 0001 00000011 00 01 FF93 C02103 FF90 000A 0000 0000000F 00 01 FF93 00 FFD9",
        false,
    ),
];

#[test]
fn forms_of_packets_and_tiles(rt: HostRuntime) {
    let alloc = rt.alloc();
    for (name, text, is_known) in HEADERS {
        for seen in [view(0, 0, 0, 2, 2), view(0, 1, 0, 1, 1)] {
            check_known(
                &rt,
                alloc,
                name,
                file_of(&rt, alloc, &[text]),
                seen,
                is_known,
            );
        }
    }
}

/// Boxes around the column, and whether a window is known then.
static BOXES: [(&str, &str, &str); 4] = [
    (
        "a box behind the codestream",
        "0000000C 6A502020 0D0A870A 00000014 66747970 6A703220 00000000 6A703220 0000002D 6A703268 00000016 69686472 00000009 00000001 0001 07 07 00 00 0000000F 636F6C72 01 00 00 00000011 0000006C 6A703263",
        "0000000C 786D6C20 3C612F3E",
    ),
    (
        "a box that is too short",
        "0000000C 6A502020 0D0A870A 00000014 66747970 6A703220 00000000 6A703220 0000002D 6A703268 00000016 69686472 00000009 00000001 0001 07 07 00 00 0000000F 636F6C72 01 00 00 00000011 0000006B 6A703263",
        "",
    ),
    (
        "no image header",
        "0000000C 6A502020 0D0A870A 00000014 66747970 6A703220 00000000 6A703220 0000006C 6A703263",
        "",
    ),
    ("no signature", "0000006C 6A703263", ""),
];

#[test]
fn forms_of_boxes(rt: HostRuntime) {
    let alloc = rt.alloc();
    for (name, before, behind) in BOXES {
        let file = file_of(&rt, alloc, &[before, COLUMN, behind]);
        let size = file.len();
        let found = shown(alloc, MemoryStored::new(file), size, WINDOW);
        equal_at(name, found.is_none(), true).expect(&rt, "no window");
    }
}

/// Four pixels with a comment of so many bytes in the main header, and one in that of the part.
fn commented(rt: &impl Abort, alloc: Global, main: u16, part: u16) -> Vec<u8> {
    let mut file = file_of(rt, alloc, &[FOUR]);
    put_comment(rt, &mut file, main);
    let psot = (0x18 + 6 + part as u32).to_be_bytes();
    let parts: [&[u8]; 3] = [&[0xFF, 0x90, 0, 10, 0, 0], &psot, &[0, 1]];
    for bytes in parts {
        file.extend_from_slice(bytes).expect(rt, "a part");
    }
    put_comment(rt, &mut file, part);
    let rest = file_of(rt, alloc, &["FF93 C02103 C010A004200307 FFD9"]);
    file.extend_from_slice(&rest).expect(rt, "packets");
    file
}

/// Appends a comment of so many bytes.
fn put_comment(rt: &impl Abort, file: &mut Vec<u8>, count: u16) {
    let length = count.saturating_add(4).to_be_bytes();
    let head = [0xFF, 0x64, length[0], length[1], 0, 0];
    file.extend_from_slice(&head).expect(rt, "a comment");
    let size = file.len().saturating_add(count as usize);
    file.resize(size, b'a').expect(rt, "a comment");
}

/// Headers that are longer than what is read of them.
#[test]
fn long_headers(rt: HostRuntime) {
    let alloc = rt.alloc();
    for (main, part, is_known) in [
        (60_000, 0, true),
        (65_530, 0, false),
        (0, 4000, true),
        (0, 4096, false),
    ] {
        let file = commented(&rt, alloc, main, part);
        check_known(&rt, alloc, "comments", file, view(0, 0, 0, 2, 2), is_known);
    }
}
