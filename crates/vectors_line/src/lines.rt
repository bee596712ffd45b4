//! Command lines, and what they do.

use crate::memory::Memory;
use crate::runs::{bytes, check_file, check_output, check_run, run_line, world_of};
use jk_line::Status;
use std::alloc::Global;
use std::process::Abort;
use std::str::Split;
use std::thread::Threads;
use vectors::{equal, equal_at};

/// A PGM file of one pixel, 128.
pub(crate) static GREY: &str = "50350A 312031 0A 323535 0A 80";

/// A PPM file of one pixel whose components are 128.
pub(crate) static COLOURS: &str = "50360A 312031 0A 323535 0A 808080";

/// The segments of the grey pixel without levels: SIZ, COD and QCD.
pub(crate) static SIZE: &str =
    "FF51 0029 0000 00000001 00000001 00000000 00000000 00000001 00000001 00000000 00000000 0001 07 01 01";

pub(crate) static CODING: &str = "FF52 000C 00 00 0001 00 00 04 04 00 01";

pub(crate) static STEPS: &str = "FF5C 0004 40 40";

/// The boxes around its codestream in a JP2 file.
pub(crate) static BOXES: &str =
    "0000000C 6A502020 0D0A870A 00000014 66747970 6A703220 00000000 6A703220 0000002D 6A703268 00000016 69686472 00000001 00000001 0001 07 07 00 00 0000000F 636F6C72 01 00 00 00000011 0000005A 6A703263";

/// A column of nine samples with one level: its codestream, its PGM file, and that of the halved
/// image.
pub(crate) static COLUMN: &str =
    "FF4F FF51 0029 0000 00000001 00000009 00000000 00000000 00000001 00000009 00000000 00000000 0001 07 01 01 FF52 000C 00 00 0001 00 01 04 04 00 01 FF5C 0007 40 40 48 48 50 FF90 000A 0000 0000001E 00 01 FF93 C7 D4 0C 01 8F 0D C8 75 7F C0 7C 21 80 0F B1 7F FFD9";

static COLUMN_TEXT: &str = "50350A 312039 0A 323535 0A 65 67 68 69 60 61 60 66 6D";

static HALVED_TEXT: &str = "50350A 312035 0A 323535 0A 66 6A 62 60 6D";

/// Windows of the column and of its halved image, which are rows of these.
static WINDOW_TEXT: &str = "50350A 312033 0A 323535 0A 68 69 60";

static HALVED_WINDOW_TEXT: &str = "50350A 312032 0A 323535 0A 60 6D";

/// The headers of four pixels with one level; its codestream has these packets, and that of the
/// window of its halved image those.
static FOUR: &str =
    "FF4F FF51 0029 0000 00000002 00000002 00000000 00000000 00000002 00000002 00000000 00000000 0001 07 01 01 FF52 000C 00 00 0001 00 01 04 04 00 01 FF5C 0007 40 40 48 48 50";

static FOUR_PART: &str = "FF90 000A 0000 00000018 00 01 FF93 C0 21 03 C0 10 A0 04 20 03 07 FFD9";

static WINDOW_PART: &str = "FF90 000A 0000 00000012 00 01 FF93 C0 21 03 00 FFD9";

/// One grey sample, 255, in eight layers, and the file in which four of them are kept; up to Psot
/// they are alike.
static LAYERED: &str =
    "FF4F FF51 0029 0000 00000001 00000001 00000000 00000000 00000001 00000001 00000000 00000000 0001 07 01 01 FF52 000C 00 00 0008 00 00 04 04 00 01 FF5C 0004 40 40 FF90 000A 0000";

static ALL_LAYERS: &str = "0000001E 00 01 FF93 00 A42000 F000 F000 F000 F000 F000 F000 FFD9";

static FOUR_LAYERS: &str = "0000001A 00 01 FF93 00 A42000 F000 F000 00 00 00 00 FFD9";

/// The beginning of a codestream with the irreversible transform.
static NINE_SEVEN: &str =
    "FF4F FF51 0029 0000 00000001 00000001 00000000 00000000 00000001 00000001 \
00000000 00000000 0001 07 01 01 FF52 000C 00 00 0001 00 00 04 04 00 00";

/// The file of the grey pixel without levels.
pub(crate) fn pixel() -> [&'static str; 6] {
    [
        BOXES,
        "FF4F",
        SIZE,
        CODING,
        STEPS,
        "FF90 000A 0000 0000000F 00 01 FF93 00 FFD9",
    ]
}

/// Runs a command line over an input and a folder `d` with a file `c.jp2` that isn't listed, which
/// must answer a fault and write nothing.
fn check_fault<R: Abort + Threads + Sync>(
    rt: &R,
    alloc: Global,
    line: &str,
    input: &str,
    error: &str,
) {
    let input = bytes(rt, alloc, &[input]);
    let mut world = world_of(rt, alloc, input, &[("c.jp2", &["FF"])]);
    check_run(rt, alloc, &mut world, line, Status::Refused, &[], error)
}

/// What each option of an encoding changes, a line for each: the options; what they change of SIZ,
/// of COD and of QCD, and nothing where it is as without them; Psot and the packets (T.800 A.4 to
/// A.6).
static OPTIONS: &str = "\
--levels 0||||0000000F 00 01 FF93 00
--levels 1||FF52 000C 00 00 0001 00 01 04 04 00 01|FF5C 0007 40 40 48 48 50|00000010 00 01 FF93 00 00
--levels 0 --layers 2||FF52 000C 00 00 0002 00 00 04 04 00 01||00000010 00 01 FF93 00 00
--levels 0 --order LRCP||||0000000F 00 01 FF93 00
--levels 0 --order RLCP||FF52 000C 00 01 0001 00 00 04 04 00 01||0000000F 00 01 FF93 00
--levels 0 --order RPCL||FF52 000C 00 02 0001 00 00 04 04 00 01||0000000F 00 01 FF93 00
--levels 0 --order PCRL||FF52 000C 00 03 0001 00 00 04 04 00 01||0000000F 00 01 FF93 00
--levels 0 --order CPRL||FF52 000C 00 04 0001 00 00 04 04 00 01||0000000F 00 01 FF93 00
--levels 0 --sop||FF52 000C 02 00 0001 00 00 04 04 00 01||00000015 00 01 FF93 FF91 0004 0000 00
--levels 0 --eph||FF52 000C 04 00 0001 00 00 04 04 00 01||00000011 00 01 FF93 00 FF92
--levels 0 --block-x 3||FF52 000C 00 00 0001 00 00 01 04 00 01||0000000F 00 01 FF93 00
--levels 0 --block-y 4||FF52 000C 00 00 0001 00 00 04 02 00 01||0000000F 00 01 FF93 00
--levels 0 --reset||FF52 000C 00 00 0001 00 00 04 04 02 01||0000000F 00 01 FF93 00
--levels 0 --causal||FF52 000C 00 00 0001 00 00 04 04 08 01||0000000F 00 01 FF93 00
--levels 0 --segments||FF52 000C 00 00 0001 00 00 04 04 20 01||0000000F 00 01 FF93 00
--levels 0 --precincts 1f||FF52 000D 01 00 0001 00 00 04 04 00 01 1F||0000000F 00 01 FF93 00
--levels 0 --windows||FF52 000D 01 02 0008 00 00 04 04 00 01 77||00000016 00 01 FF93 00 00 00 00 00 00 00 00
--levels 1 --windows||FF52 000E 01 02 0008 00 01 04 04 00 01 77 77|FF5C 0007 40 40 48 48 50|0000001E 00 01 FF93 \
00 00 00 00 00 00 00 00 00 00 00 00 00 00 00 00
--levels 0 --windows --layers 1||FF52 000D 01 02 0001 00 00 04 04 00 01 77||0000000F 00 01 FF93 00
--levels 0 --windows --order LRCP||FF52 000D 01 00 0008 00 00 04 04 00 01 77||00000016 00 01 FF93 00 00 00 00 00 00 00 00
--levels 0 --windows --precincts 1f||FF52 000D 01 02 0008 00 00 04 04 00 01 1F||00000016 00 01 FF93 00 00 00 00 00 00 00 00
--levels 0 --x0 5|FF51 0029 0000 00000006 00000001 00000005 00000000 \
00000006 00000001 00000000 00000000 0001 07 01 01|||0000000F 00 01 FF93 00
--levels 0 --y0 7|FF51 0029 0000 00000001 00000008 00000000 00000007 \
00000001 00000008 00000000 00000000 0001 07 01 01|||0000000F 00 01 FF93 00
--levels 0 --tile-width 3 --tile-height 4|FF51 0029 0000 00000001 00000001 00000000 00000000 \
00000003 00000004 00000000 00000000 0001 07 01 01|||0000000F 00 01 FF93 00";

/// The next field of a line, or what stands where it is empty.
fn field<'a>(fields: &mut Split<'a, char>, other: &'a str) -> &'a str {
    match fields.next() {
        Some("") | None => other,
        Some(field) => field,
    }
}

#[test]
fn options_change_their_fields(rt: HostRuntime) {
    let alloc = rt.alloc();
    for row in OPTIONS.split('\n') {
        let mut fields = row.split('|');
        let options = field(&mut fields, "");
        let file = [
            "FF4F",
            field(&mut fields, SIZE),
            field(&mut fields, CODING),
            field(&mut fields, STEPS),
            "FF90 000A 0000",
            field(&mut fields, ""),
            "FFD9",
        ];
        let line = format!(in alloc; "encode - - --raw {options}").expect(&rt, "a text");
        check_output(&rt, alloc, line.as_str(), &[GREY], &file);
    }
}

/// The colour transform is for three components, unless it is refused.
#[test]
fn colour_is_for_three_components(rt: HostRuntime) {
    let alloc = rt.alloc();
    for (options, colour) in [("", "01"), ("--no-colour", "00")] {
        let line = format!(in alloc; "encode - - --raw --levels 0 {options}").expect(&rt, "a text");
        let file = [
            "FF4F FF51 002F 0000 00000001 00000001 00000000 00000000 00000001 00000001 00000000 00000000 0003 070101 070101 070101 FF52 000C 00 00 0001",
            colour,
            "00 04 04 00 01 FF5C 0004 40 40 FF90 000A 0000 00000011 00 01 FF93 000000 FFD9",
        ];
        check_output(&rt, alloc, line.as_str(), &[COLOURS], &file);
    }
}

/// What the commands write that work on one file.
#[test]
fn commands_write_their_output(rt: HostRuntime) {
    let alloc = rt.alloc();
    let pixel = pixel();
    for line in ["encode - - --levels 0", "encode - - --levels 0 --workers 2"] {
        check_output(&rt, alloc, line, &[GREY], &pixel);
    }
    for line in ["decode - -", "decode - - --workers 3"] {
        check_output(&rt, alloc, line, &pixel, &[GREY]);
        check_output(&rt, alloc, line, &[COLUMN], &[COLUMN_TEXT]);
    }
    check_output(
        &rt,
        alloc,
        "decode - - --reduce 1",
        &[COLUMN],
        &[HALVED_TEXT],
    );
    // 1 9 1 8 1 1 LRCP 1 2
    check_output(
        &rt,
        alloc,
        "info -",
        &[COLUMN],
        &["31 20 39 20 31 20 38 20 31 20 31 20 4C524350 20 31 20 32 0A"],
    );
    check_output(
        &rt,
        alloc,
        "cut - - --x 0 --y 0 --w 1 --h 1 --reduce 1",
        &[FOUR, FOUR_PART],
        &[FOUR, WINDOW_PART],
    );
    for (options, rest) in [
        ("", ALL_LAYERS),
        ("--layers 4", FOUR_LAYERS),
        ("--layers 9", ALL_LAYERS),
    ] {
        let line = format!(in alloc; "cut - - --x 0 --y 0 --w 1 --h 1 {options}").expect(
            &rt, "a text",
        );
        let file = [LAYERED, ALL_LAYERS];
        check_output(&rt, alloc, line.as_str(), &file, &[LAYERED, rest]);
    }
}

/// Windows are decoded alone: rows of the column, as its file has them, and what passes the edge is
/// left out.
#[test]
fn windows_are_decoded(rt: HostRuntime) {
    let alloc = rt.alloc();
    for (options, text) in [
        ("--x 0 --y 2 --w 1 --h 3", WINDOW_TEXT),
        (
            "--reduce 1 --h 4294967295 --w 9 --y 3 --x 0",
            HALVED_WINDOW_TEXT,
        ),
        ("--x 0 --y 0 --w 1 --h 9", COLUMN_TEXT),
    ] {
        let line = format!(in alloc; "decode - - {options}").expect(&rt, "a text");
        check_output(&rt, alloc, line.as_str(), &[COLUMN], &[text]);
    }
}

/// Command lines that answer a fault, a line for each: the command, its input, if that isn't the
/// grey pixel, and the fault. Of two faults the one that is found first is answered: of options,
/// the input, its grammar, its place, the output; where an image is added, of options, the input,
/// its grammar, the folder, the name, the place.
static FAULTS: &str = "\
encode no - --workers 0||F15 BadParameters
decode no a/b --workers 65||F15 BadParameters
decode - a/b --workers 2 --reduce 2|column|F16 BadWindow
encode - a/b --workers 2|5035|F14 BadPnm
encode - a/b --workers 2||F20 Shelf
encode no - --layers 65536||F15 BadParameters
encode no - --tile-width 1||F15 BadParameters
encode no - --precincts 1g||F15 BadParameters
encode no - --precincts 1||F15 BadParameters
encode no - --levels 6||F20 Shelf
encode - a/b --x0 4294967295|5035|F14 BadPnm
encode - a/b --x0 2147483647||F15 BadParameters
encode - a/b --levels 6||F15 BadParameters
encode - a/b||F20 Shelf
decode no a/b --reduce 9||F20 Shelf
decode - a/b --reduce 2|column|F16 BadWindow
decode - a/b|column|F20 Shelf
decode no a/b --x 1 --y 0 --w 1 --h 1||F20 Shelf
decode - a/b --x 1 --y 0 --w 1 --h 1|FF4F|F2 Truncated
decode - a/b --x 1 --y 0 --w 1 --h 1|column|F16 BadWindow
decode - a/b --x 0 --y 0 --w 0 --h 1|column|F16 BadWindow
decode - a/b --x 0 --y 5 --w 1 --h 1 --reduce 1|column|F16 BadWindow
decode - a/b --x 0 --y 0 --w 1 --h 1 --reduce 2|column|F16 BadWindow
decode - a/b --x 0 --y 8 --w 1 --h 1|column|F20 Shelf
info -|FF4F|F2 Truncated
info no --all||F20 Shelf
info - --all|FF4F|F2 Truncated
cut - a/b --x 1 --y 0 --w 1 --h 1|FF4F|F2 Truncated
cut - a/b --x 1 --y 0 --w 1 --h 1|column|F16 BadWindow
cut - a/b --x 0 --y 0 --w 1 --h 1 --layers 0|column|F16 BadWindow
cut - a/b --x 0 --y 0 --w 1 --h 1 --layers 1|column|F20 Shelf
add no A no --layers 65536||F15 BadParameters
add no A no||F20 Shelf
add no A -|5035|F14 BadPnm
add no A -||F20 Shelf
add d A - --x0 2147483647||F19 BadName
add d c - --x0 2147483647||F18 NameTaken
add d b - --x0 2147483647||F15 BadParameters
add d b - --levels 6||F15 BadParameters
serve no --port 0 --workers 0||F15 BadParameters
serve no --port 0 --workers 65||F15 BadParameters
serve no --port 0 --timeout 0||F15 BadParameters
serve no --port 0 --open-while-serving --watch 0||F15 BadParameters
serve no --port 0 --host-names a,,b||F15 BadParameters
serve no --port 0 --workers 64||F20 Shelf
check no --workers 65||F15 BadParameters
check no||F20 Shelf";

/// The same of lines that ask for the cause, which stands behind the fault.
static CAUSES: &str = "\
decode - - --explain --workers 65||F15 BadParameters|--workers is 65, and may be 1 to 64, or auto
encode - - --explain --levels 6||F15 BadParameters|--levels is 6, and may be 0 to 5
encode - - --explain --tile-width 3||F15 BadParameters|--tile-width is given without --tile-height
encode - - --explain --block-x 7||F15 BadParameters|\
--block-x and --block-y are 7 and 6, and may be 12 at most in all
encode - - --explain --precincts 1x||F15 BadParameters|\
--precincts is 1x, and may be WIDTH,HEIGHT, powers of two up to 32768, or pairs of hexadecimal digits
add d A - --explain||F19 BadName|the name A isn't 1 to 64 of the characters a to z, 0 to 9, - and _
add d c - --explain||F18 NameTaken|d has a file c.jp2
serve no --port 0 --explain --timeout 3601||F15 BadParameters|--timeout is 3601, and may be 1 to 3600
serve no --port 0 --explain --open-while-serving --watch 3601||F15 BadParameters|--watch is 3601, and may be 1 to 3600
serve no --port 0 --host-names a,||F15 BadParameters|--host-names is a,, and may be names with commas between them
info no --explain||F20 Shelf|no can't be read: entity not found
decode - - --reduce 2|column|F16 BadWindow|--reduce is 2, and standard input allows 0 to 1
decode - - --layers 0|column|F16 BadWindow|--layers is 0, and may be 1 or more: standard input has 1
decode - - --x 0 --y 9 --w 1 --h 1|column|F16 BadWindow|\
the window begins at column 0 and row 9, outside standard input, which has 1 columns and 9 rows at --reduce 0
decode - - --x 0 --y 5 --w 1 --h 1 --reduce 1|column|F16 BadWindow|\
the window begins at column 0 and row 5, outside standard input, which has 1 columns and 5 rows at --reduce 1
cut - - --x 0 --y 0 --w 1 --h 0|column|F16 BadWindow|\
the window has 1 columns and 0 rows (--w and --h), and each must be 1 at least
decode - - --quiet --explain|nine|F6 Unsupported|\
standard input has the irreversible transform 9/7, which jk doesn't support";

/// The bytes of an input, by its name or as they are.
fn input_of<'a>(name: &'a str) -> &'a str {
    match name {
        "column" => COLUMN,
        "nine" => NINE_SEVEN,
        _ => name,
    }
}

#[test]
fn faults_come_in_order(rt: HostRuntime) {
    let alloc = rt.alloc();
    for row in FAULTS.split('\n') {
        let mut fields = row.split('|');
        let line = field(&mut fields, "");
        let input = input_of(field(&mut fields, GREY));
        let error = format!(in alloc; "jk: {}\n", field(&mut fields, "")).expect(&rt, "a text");
        check_fault(&rt, alloc, line, input, error.as_str());
    }
}

#[test]
fn causes_are_told(rt: HostRuntime) {
    let alloc = rt.alloc();
    for row in CAUSES.split('\n') {
        let mut fields = row.split('|');
        let line = field(&mut fields, "");
        let input = input_of(field(&mut fields, GREY));
        let fault = field(&mut fields, "");
        let error = format!(in alloc; "jk: {fault}\n{}\n", field(&mut fields, "")).expect(
            &rt, "a text",
        );
        check_fault(&rt, alloc, line, input, error.as_str());
    }
}

/// What `jk serve` says of a folder with an image and a file that isn't listed.
static SERVED: &str =
    "jk: c.jp2 isn't listed: F13 BadBox\nthe structure of the JP2 boxes is broken\njk: 1 images on http://127.0.0.1:8080/images\nNone 1 10 false";

/// What it says where the files are opened while it serves: none of them was read.
static OPENED: &str =
    "jk: 0 images on http://127.0.0.1:8080/images, 2 files are to be opened\na c 0 None";

static WATCHED: &str =
    "jk: 0 images on http://127.0.0.1:0/images, 2 files are to be opened\na c 0 Some(5)";

/// An archive: adding, a name that is taken, and what is told where it is served.
#[test]
fn archives_grow(rt: HostRuntime) {
    let alloc = rt.alloc();
    let input = bytes(&rt, alloc, &[GREY]);
    let mut world = world_of(&rt, alloc, input, &[("c.jp2", &[COLUMN])]);
    for (line, status, error) in [
        ("add d a - --levels 0", Status::Done, ""),
        ("add d a -", Status::Refused, "jk: F18 NameTaken\n"),
        ("add d c -", Status::Refused, "jk: F18 NameTaken\n"),
    ] {
        world.error.clear();
        check_run(&rt, alloc, &mut world, line, status, &[], error);
    }
    check_file(&rt, alloc, &mut world, "a.jp2", &pixel(), 2);
    check_file(&rt, alloc, &mut world, "c.jp2", &[COLUMN], 2);
    world.error.clear();
    let line = "serve d --port 8080";
    check_run(&rt, alloc, &mut world, line, Status::Done, &[], SERVED)
}

/// Where files are opened while they are served, none is read before.
#[test]
fn archives_are_served_at_once(rt: HostRuntime) {
    let alloc = rt.alloc();
    let column = [COLUMN];
    let column = column.as_slice();
    let files = [("a.jp2", column), ("c.jp2", column), ("x", column)];
    for (line, error) in [
        ("serve d --port 8080 --open-while-serving", OPENED),
        ("serve d --port 0 --open-while-serving --watch 5", WATCHED),
    ] {
        let mut world = world_of(&rt, alloc, bytes(&rt, alloc, &[]), &files);
        check_run(&rt, alloc, &mut world, line, Status::Done, &[], error);
        equal((world.is_locked, world.locks), (false, 0)).expect(&rt, "no lock of its own");
    }
}

/// The names of the hosts that are answered for reach the server, and none if none are given.
#[test]
fn hosts_are_named(rt: HostRuntime) {
    let alloc = rt.alloc();
    for (line, due) in [
        ("serve d --port 8080", ""),
        ("serve d --port 8080 --host-names a.example", "a.example/"),
        (
            "serve d --port 8080 --host-names a.example,[::1]:80",
            "a.example/[::1]:80/",
        ),
    ] {
        let mut world = world_of(&rt, alloc, bytes(&rt, alloc, &[]), &[("c.jp2", &[COLUMN])]);
        let status = run_line(&rt, alloc, &mut world, line);
        equal_at(line, status, Status::Done).expect(&rt, "a served folder");
        let mut found = String::new(alloc);
        for name in &world.hosts {
            found.push_str(name.as_str()).expect(&rt, "memory");
            found.push_str("/").expect(&rt, "memory");
        }
        equal_at(line, found.as_str(), due).expect(&rt, "the names");
    }
}

/// Options for the style of code-blocks, and the style's byte in COD (T.800 table A.19).
static ADDED_STYLES: [(&str, &str); 4] = [
    ("--reset", "02"),
    ("--causal", "08"),
    ("--segments", "20"),
    ("--reset --causal --segments", "2A"),
];

/// What is added has the style of code-blocks that was asked for.
#[test]
fn styles_are_added(rt: HostRuntime) {
    let alloc = rt.alloc();
    for (options, style) in ADDED_STYLES {
        let mut world = world_of(&rt, alloc, bytes(&rt, alloc, &[GREY]), &[]);
        let line = format!(in alloc; "add d a - --levels 0 {options}").expect(&rt, "a text");
        let file = [
            BOXES,
            "FF4F",
            SIZE,
            "FF52 000C 00 00 0001 00 00 04 04",
            style,
            "01",
            STEPS,
            "FF90 000A 0000 0000000F 00 01 FF93 00 FFD9",
        ];
        check_run(&rt, alloc, &mut world, line.as_str(), Status::Done, &[], "");
        check_file(&rt, alloc, &mut world, "a.jp2", &file, 1);
    }
}

/// What `jk check` writes of a folder with the file of the grey pixel, `a.jp2`, and a bare
/// codestream, `c.jp2`, a line for each: the command, standard input, what is written, standard
/// error, and the status. A slash ends a line; `$` and `%` stand for the digests of the two files, as sha256sum
/// writes them, `^` for what is said of `c.jp2`, and `&` for what a line of a list has.
static CHECKS: &str = "\
check d||$  a.jp2/|^|1
check d --workers 3 --decode --quiet||$  a.jp2/|jk: c.jp2 isn't an image: F13 BadBox/|1
check d --against -|$  a.jp2/% *c.jp2||^|1
check d --against -|%  c.jp2/%  a.jp2/|changed a.jp2/|^|1
check d --against -|$  b.jp2/%  c.jp2|new a.jp2/missing b.jp2/|^|1
check d --against -||new a.jp2/new c.jp2/|^|1
check d --against -|$  a.jp2/$||jk: standard input: line 2 isn't &/|2
check d --against -|$  a.jp2//||jk: standard input: line 2 isn't &/|2
check d --against -|$ a.jp2||jk: standard input: line 1 isn't &/|2
check d --against -|0$  a.jp2||jk: standard input: line 1 isn't &/|2
check d --against -|$  A.jp2||jk: standard input: line 1: A.jp2 isn't the name of an image's file, which is 1 to 64 of a to z, 0 to 9, - and _, and .jp2/|2
check d --against -|$  a.jp2/%  a.jp2||jk: standard input: line 2 has the name of a line before it/|2
check d --against no|||jk: no can't be read: entity not found/|2";

static PAGE_DIGEST: &str = "0c980b2cd988a155ed2a9ca52d24efe48b56c47ba02a9a45c8042c8c9c61f5f3";

static COLUMN_DIGEST: &str = "60203eb8feef0d28927895135da094a63f5c6940482cabdc3049432a2cf801d3";

/// What a sign of these lines stands for, if it is one.
fn meant(letter: char) -> Option<&'static str> {
    match letter {
        '$' => Some(PAGE_DIGEST),
        '%' => Some(COLUMN_DIGEST),
        '^' => Some(
            "jk: c.jp2 isn't an image: F13 BadBox\nthe structure of the JP2 boxes is broken\n",
        ),
        '&' => Some("64 hexadecimal digits, two spaces and the name of an image's file"),
        '/' => Some("\n"),
        _ => None,
    }
}

/// A field of these lines as it stands in files.
fn spelled(rt: &impl Abort, alloc: Global, field: &str) -> String {
    let mut text = String::new(alloc);
    for letter in field.chars() {
        match meant(letter) {
            Some(meant) => text.push_str(meant).expect(rt, "a text"),
            None => text.push(letter).expect(rt, "a text"),
        }
    }
    text
}

/// A status of the program.
fn status_of(code: &str) -> Status {
    match code {
        "1" => Status::Refused,
        "2" => Status::WrongLine,
        _ => Status::Done,
    }
}

/// An archive is checked, and compared with lists.
#[test]
fn archives_are_checked(rt: HostRuntime) {
    let alloc = rt.alloc();
    let (page, column) = (pixel(), [COLUMN]);
    let files: [(&str, &[&str]); 2] = [("c.jp2", &column), ("a.jp2", &page)];
    for row in CHECKS.split('\n') {
        let mut fields = row.split('|');
        let line = field(&mut fields, "");
        let input = spelled(&rt, alloc, field(&mut fields, ""));
        let output = spelled(&rt, alloc, field(&mut fields, ""));
        let error = spelled(&rt, alloc, field(&mut fields, ""));
        let status = status_of(field(&mut fields, "0"));
        let input = Vec::from_slice(alloc, input.as_bytes()).expect(&rt, "a text");
        let mut world = world_of(&rt, alloc, input, &files);
        let (output, error) = (output.as_bytes(), error.as_str());
        check_run(&rt, alloc, &mut world, line, status, output, error);
    }
}

/// Wrong command lines, the first of them empty.
static WRONG: &str = "
copy a b
encode -
encode - - -
encode - - --levels x
encode - - --levels 4294967296
encode - - --order LCRP
encode - - --reduce 1
decode - - --levels 1
decode - - --x 0
decode - - --x 0 --y 0 --w 1
decode - - --x 0 --y 0 --h 1
decode - - --x 0 --w 1 --h 1
decode - - --y 0 --w 1 --h 1 --reduce 1
decode - - --x 0 --y 0 --w 1 --h 1 --h 1
decode - - --x 0 --y 0 --w 1 --h -1
cut - - --x 0 --y 0 --w 1
check
check d --against
check d --against a --against b
serve d
serve d --port 65536
serve d --port 0 --watch 5
faults x
info
info --all
info - --all --all
info - --all=1
--explain";

/// Runs a wrong command line, of which nothing is written but why.
fn check_wrong<R: Abort + Threads + Sync>(rt: &R, alloc: Global, line: &str) {
    let mut world = Memory::new(rt, alloc, bytes(rt, alloc, &[GREY]));
    let status = run_line(rt, alloc, &mut world, line);
    let found = (status, world.output.len(), world.error.is_empty());
    equal_at(line, found, (Status::WrongLine, 0, false)).expect(rt, "a wrong command line");
}

/// Runs what is asked of the program itself, which is written to standard output alone, and then
/// again with an output that is full.
fn check_asked<R: Abort + Threads + Sync>(rt: &R, alloc: Global, line: &str) {
    let mut world = Memory::new(rt, alloc, bytes(rt, alloc, &[GREY]));
    let status = run_line(rt, alloc, &mut world, line);
    let found = (status, world.output.is_empty(), world.error.as_str());
    equal_at(line, found, (Status::Done, false, "")).expect(rt, "what the program is asked");
    world.is_full = true;
    world.output.clear();
    let refused = Status::Refused;
    check_run(rt, alloc, &mut world, line, refused, &[], "jk: F20 Shelf\n")
}

/// Wrong command lines, and what is asked of the program itself.
#[test]
fn lines_are_judged(rt: HostRuntime) {
    let alloc = rt.alloc();
    for line in WRONG.split('\n') {
        check_wrong(&rt, alloc, line);
    }
    for line in ["--help", "--version", "encode --help", "faults"] {
        check_asked(&rt, alloc, line);
    }
    let codes = (
        Status::Done.code(),
        Status::Refused.code(),
        Status::WrongLine.code(),
    );
    equal(codes, (0, 1, 2)).expect(&rt, "the statuses of the program");
}
