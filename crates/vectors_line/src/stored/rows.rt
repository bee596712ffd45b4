//! Windows of files by another encoder, with samples from another decoder.

use crate::stored::calls::{COLUMN, WINDOW, WINDOW_TEXT, file_of, shown, view};
use jk_stored::MemoryStored;
use jk_window::View;
use std::alloc::Global;
use std::process::Abort;
use vectors::equal_at;

/// The boxes before the codestream of the column in a JP2 file, up to the codestream box.
static BOXES: &str =
    "0000000C 6A502020 0D0A870A 00000014 66747970 6A703220 00000000 6A703220 0000002D 6A703268 00000016 69686472 00000009 00000001 0001 07 07 00 00 0000000F 636F6C72 01 00 00 00000011";

/// A codestream of 6 by 5 samples of three components with the colour transform and one level.
static COLOUR: &str = "\
FF4FFF51002F000000000007000000060000000100000001000000070000000600000000000000000003070101070101070101FF52000C0001000101\
0100000001FF5C00074040484850FF90000A0000000000A10001FF93C7D40C07C0F9BD5314DF803811787BC35C3B97CFB41C0ED5EF3E147ADBC7DA0F\
1F685C3ED0A00519985FD921CF10510710E75C259487D9EF01F84E46FF600DCB2205CFC0227E0193F30C0D9D642CF966140B0B7DD366FA7A154FF6BD\
CABF16F5346B5A666BF482F3B324CFC0267E0193F30C11E9CBA68BD651D7CF0B7E2DB38C9CD35296CFE37F0BEDB1AA7CBE30581D9692EFFFD9";

/// A column of 256 samples in two tiles, of code-blocks with segmentation symbols (T.800 D.5).
static TILES: &str = "\
FF4F FF51 0029 0000 00000001 00000100 00000000 00000000 00000001 00000080 00000000 00000000 0001 07 01 01 \
FF52 000C 00 00 0001 00 00 04 04 20 01 FF5C 0004 40 40 \
FF90 000A 0000 00000013 00 01 FF93 E0 1880 1559 FF90 000A 0001 00000013 00 01 FF93 E0 1880 1559 FFD9";

/// A window of a stored file is this.
fn check_row(rt: &impl Abort, alloc: Global, texts: &[&str], view: View, due: &str) {
    let bytes = file_of(rt, alloc, texts);
    let due = file_of(rt, alloc, &[due]);
    let size = bytes.len();
    let found = match shown(alloc, MemoryStored::new(bytes), size, view) {
        Some(text) => text.as_slice() == due.as_slice(),
        None => false,
    };
    equal_at(view, found, true).expect(rt, "a window");
}

/// The column, whole, halved, and in each form of the codestream box (T.800 I.5.4).
#[test]
fn windows_of_a_column(rt: HostRuntime) {
    let alloc = rt.alloc();
    for (boxes, form) in [
        ("", ""),
        (BOXES, "0000006C 6A703263"),
        (BOXES, "00000001 6A703263 0000000000000074"),
        (BOXES, "00000000 6A703263"),
        (BOXES, "0000000C 786D6C20 3C612F3E 0000006C 6A703263"),
    ] {
        let file = [boxes, form, COLUMN];
        check_row(&rt, alloc, &file, WINDOW, WINDOW_TEXT);
        let halved = view(1, 0, 3, 9, 4_294_967_295);
        check_row(
            &rt,
            alloc,
            &file,
            halved,
            "50350A 312032 0A 323535 0A 60 6D",
        );
    }
    let whole = "50350A 312039 0A 323535 0A 65 67 68 69 60 61 60 66 6D";
    check_row(&rt, alloc, &[COLUMN], view(0, 0, 0, 1, 9), whole);
}

/// Colours, and a window on both of two tiles.
#[test]
fn windows_of_colours_and_tiles(rt: HostRuntime) {
    let alloc = rt.alloc();
    let colours = "50360A 322033 0A 323535 0A DBAADD DADB2E 643FBF 973E1C DDE070 924C86";
    check_row(&rt, alloc, &[COLOUR], view(0, 2, 1, 2, 3), colours);
    let halved = "50360A 322031 0A 323535 0A D0535B 93496D";
    check_row(&rt, alloc, &[COLOUR], view(1, 1, 1, 2, 1), halved);
    let both = "50350A 312035 0A 323535 0A 8080818080";
    check_row(&rt, alloc, &[TILES], view(0, 0, 126, 1, 5), both);
}
