//! Where the rows of an image go that are decoded before a fault behind them is met.

use crate::memory::Memory;
use crate::runs::{bytes, check_run, put_file, written};
use jk_line::Status;
use std::alloc::Global;
use std::process::Abort;
use std::thread::Threads;
use vectors::equal_at;

/// A column of 256 samples in two tiles, of code-blocks with segmentation symbols (T.800 D.5): all but
/// the last byte of the second tile. An independent codec wrote it.
static ROWS: &str = "\
FF4F FF51 0029 0000 00000001 00000100 00000000 00000000 00000001 00000080 00000000 00000000 0001 07 01 01 \
FF52 000C 00 00 0001 00 00 04 04 20 01 FF5C 0004 40 40 \
FF90 000A 0000 00000013 00 01 FF93 E0 1880 1559 FF90 000A 0001 00000013 00 01 FF93 E0 1880 15";

/// That byte, with the symbol that is due and with another.
static SOUND: &str = "59 FFD9";

static DAMAGED: &str = "19 FFD9";

static TEXT: &str = "50350A 3120323536 0A 323535 0A \
8180808080808080808080808080808080808080808080808080808080808080808080808080808080808080808080808080 \
8080808080808080808080808080808080808080808080808080808080808080808080808080808080808080808080808080 \
8080808080808080808080808080808080808080808080808080808081808080808080808080808080808080808080808080 \
8080808080808080808080808080808080808080808080808080808080808080808080808080808080808080808080808080 \
8080808080808080808080808080808080808080808080808080808080808080808080808080808080808080808080808080 \
808080808080";

/// A world with the rows, and with a file that is there.
fn world<'a, R: Abort + Threads + Sync>(rt: &'a R, alloc: Global, end: &str) -> Memory<'a, R> {
    let mut world = Memory::new(rt, alloc, bytes(rt, alloc, &[ROWS, end]));
    put_file(rt, alloc, &mut world, "old", "AA");
    world
}

/// Decodes the rows to standard output and into the file that is there: what comes of both, and
/// how many outputs are held.
fn check_rows<R: Abort + Threads + Sync>(
    rt: &R,
    alloc: Global,
    (options, held): (&str, usize),
    (end, text, file): (&str, &str, &str),
    (status, error): (Status, &str),
) {
    let mut world = world(rt, alloc, end);
    let (text, file) = (bytes(rt, alloc, &[text]), bytes(rt, alloc, &[file]));
    for out in ["-", "old"] {
        world.error.clear();
        let line = format!(in alloc; "decode - {out} {options}").expect(rt, "a text");
        check_run(rt, alloc, &mut world, line.as_str(), status, &text, error);
    }
    let found = match world.files.get("old") {
        Some(bytes) => bytes.as_slice() == file.as_slice(),
        None => false,
    };
    equal_at(options, (found, world.held), (true, held)).expect(rt, "a file, and outputs held");
}

/// How the rows are decoded, and how many of two outputs are held.
static WAYS: [(&str, usize); 3] = [
    ("", 2),
    ("--workers 2", 2),
    ("--x 0 --y 0 --w 1 --h 256", 0),
];

/// An image comes whole, or not at all: the sound rows of a damaged file aren't written, and what was
/// there stays.
#[test]
fn whole_or_not_at_all(rt: HostRuntime) {
    let alloc = rt.alloc();
    let (done, refused) = (Status::Done, Status::Refused);
    for way in WAYS {
        check_rows(&rt, alloc, way, (SOUND, TEXT, TEXT), (done, ""));
        let fault = (refused, "jk: F5 BadValue\n");
        check_rows(&rt, alloc, way, (DAMAGED, "", "AA"), fault);
    }
}

/// Standard output, by one worker and by three.
static LINES: [&str; 2] = ["decode - -", "decode - - --workers 3"];

/// What is told where the rows go to a full standard output.
fn check_full<R: Abort + Threads + Sync>(rt: &R, alloc: Global, end: &str, error: &str) {
    for line in LINES {
        let mut world = world(rt, alloc, end);
        world.is_full = true;
        check_run(rt, alloc, &mut world, line, Status::Refused, &[], error);
    }
}

/// Where standard output is full, that is told of a sound file alone.
#[test]
fn faults_of_the_file_go_first(rt: HostRuntime) {
    check_full(&rt, rt.alloc(), SOUND, "jk: F20 Shelf\n");
    check_full(&rt, rt.alloc(), DAMAGED, "jk: F5 BadValue\n");
}

/// Options for code-blocks of 64 and of 32 coefficients.
static BLOCKS: [&str; 2] = ["--block-x 3 --block-y 3", "--block-x 2 --block-y 3"];

/// Workers decode code-blocks of any size row by row: the output is held.
#[test]
fn small_code_blocks_come_row_by_row(rt: HostRuntime) {
    let alloc = rt.alloc();
    for options in BLOCKS {
        let line = format!(in alloc; "encode - - {options}").expect(&rt, "a text");
        let file = written(&rt, alloc, line.as_str(), bytes(&rt, alloc, &[TEXT]));
        let mut world = Memory::new(&rt, alloc, file);
        let text = bytes(&rt, alloc, &[TEXT]);
        let line = "decode - - --workers 2";
        check_run(&rt, alloc, &mut world, line, Status::Done, &text, "");
        equal_at(options, world.held, 1).expect(&rt, "outputs held");
    }
}
