//! Windows of files that are read by places, beside the same of standard input, which isn't.

use crate::lines::COLUMN;
use crate::memory::Memory;
use crate::runs::{bytes, put_file, run_line};
use jk_line::Status;
use std::alloc::Global;
use std::process::Abort;
use std::thread::Threads;
use vectors::equal_at;

/// The beginning of a codestream of two samples in two tiles, and its end where the data of the first
/// tile are sound, where its code-block isn't in the interval, and where its part has no Psot of its
/// own.
static TILES: &str =
    "FF4F FF51 0029 0000 00000002 00000001 00000000 00000000 00000001 00000001 00000000 00000000 0001 07 01 01 FF52 000C 00 00 0001 00 00 04 04 00 01 FF5C 0004 40 40";

static SOUND: &str =
    "FF90 000A 0000 0000000F 00 01 FF93 00 FF90 000A 0001 00000011 00 01 FF93 C02103 FFD9";

static DAMAGED: &str =
    "FF90 000A 0000 00000012 00 01 FF93 C022FF8F FF90 000A 0001 00000011 00 01 FF93 C02103 FFD9";

static OPEN: &str =
    "FF90 000A 0000 0000000F 00 01 FF93 00 FF90 000A 0001 00000000 00 01 FF93 C02103 FFD9";

/// A pixel of two components, which has no PGM file.
static PAIR: &str =
    "FF4F FF51 002C 0000 00000001 00000001 00000000 00000000 00000001 00000001 00000000 00000000 0002 07 01 01 07 01 01 FF52 000C 00 00 0001 00 00 04 04 00 01 FF5C 0004 40 40 FF90 000A 0000 00000010 00 01 FF93 0000 FFD9";

/// The texts of a file by its name.
fn texts(name: &str) -> [&'static str; 2] {
    match name {
        "column" => [COLUMN, ""],
        "column and a byte" => [COLUMN, "00"],
        "tiles" => [TILES, SOUND],
        "damaged" => [TILES, DAMAGED],
        "open" => [TILES, OPEN],
        "pair" => [PAIR, ""],
        "cut off" => ["FF4F", ""],
        _ => ["", ""],
    }
}

/// A file, where its window goes, the options, how it ends, and how often it is read by places.
static ROWS: [(&str, &str, &str, Status, usize); 18] = [
    ("column", "-", "--x 0 --y 2 --w 1 --h 3", Status::Done, 1),
    ("column", "out", "--x 0 --y 2 --w 1 --h 3", Status::Done, 1),
    (
        "column",
        "out",
        "--x 0 --y 2 --w 1 --h 3 --quiet",
        Status::Done,
        1,
    ),
    (
        "column",
        "out",
        "--x 0 --y 3 --w 9 --h 9 --reduce 1",
        Status::Done,
        1,
    ),
    (
        "column",
        "out",
        "--x 0 --y 2 --w 1 --h 3 --layers 1",
        Status::Done,
        0,
    ),
    (
        "column",
        "out",
        "--x 0 --y 2 --w 1 --h 3 --workers 2",
        Status::Done,
        1,
    ),
    ("column", "out", "--reduce 1", Status::Done, 0),
    (
        "column",
        "a/b",
        "--x 0 --y 2 --w 1 --h 3 --explain",
        Status::Refused,
        1,
    ),
    (
        "column",
        "out",
        "--x 1 --y 0 --w 1 --h 1 --explain",
        Status::Refused,
        1,
    ),
    (
        "column",
        "out",
        "--x 0 --y 0 --w 1 --h 1 --reduce 2",
        Status::Refused,
        1,
    ),
    (
        "column and a byte",
        "out",
        "--x 0 --y 0 --w 1 --h 1",
        Status::Refused,
        1,
    ),
    (
        "cut off",
        "a/b",
        "--x 0 --y 0 --w 1 --h 1",
        Status::Refused,
        1,
    ),
    ("tiles", "out", "--x 1 --y 0 --w 1 --h 1", Status::Done, 1),
    ("damaged", "out", "--x 1 --y 0 --w 1 --h 1", Status::Done, 1),
    (
        "damaged",
        "out",
        "--x 0 --y 0 --w 1 --h 1",
        Status::Refused,
        1,
    ),
    ("open", "out", "--x 1 --y 0 --w 1 --h 1", Status::Done, 1),
    (
        "pair",
        "out",
        "--x 0 --y 0 --w 1 --h 1 --explain",
        Status::Refused,
        1,
    ),
    (
        "empty",
        "out",
        "--x 0 --y 0 --w 1 --h 1",
        Status::Refused,
        1,
    ),
];

/// A world in which a file has an input's bytes, as standard input has.
fn world<'a, R: Abort + Threads + Sync>(rt: &'a R, alloc: Global, file: &str) -> Memory<'a, R> {
    let mut world = Memory::new(rt, alloc, bytes(rt, alloc, &texts(file)));
    let kept: Result<_, _> = world.files.insert(
        String::from_str(alloc, "file").expect(rt, "a name"),
        bytes(rt, alloc, &texts(file)),
    );
    kept.expect(rt, "a file");
    put_file(rt, alloc, &mut world, "out", "AA");
    world
}

/// The first line of a text.
fn first_line(text: &str) -> Option<&str> {
    text.split('\n').next()
}

/// Whether both worlds have the same outputs and errors, but for the name of the input in the cause.
fn are_alike<R>(a: &Memory<'_, R>, b: &Memory<'_, R>) -> bool {
    let written = match (a.files.get("out"), b.files.get("out")) {
        (Some(a), Some(b)) => a.as_slice() == b.as_slice(),
        _ => false,
    };
    written
        && a.output.as_slice() == b.output.as_slice()
        && first_line(a.error.as_str()) == first_line(b.error.as_str())
}

/// Decodes a window of a file and of standard input: both end so, write the same, and tell the same.
fn check_both<R: Abort + Threads + Sync>(
    rt: &R,
    alloc: Global,
    row: (&str, &str, &str, Status, usize),
    is_full: bool,
) {
    let (file, out, options, status, stored) = row;
    let (mut named, mut piped) = (world(rt, alloc, file), world(rt, alloc, file));
    named.is_full = is_full;
    piped.is_full = is_full;
    let line = format!(in alloc; "decode file {out} {options}").expect(rt, "a text");
    let first = run_line(rt, alloc, &mut named, line.as_str());
    let line = format!(in alloc; "decode - {out} {options}").expect(rt, "a text");
    let second = run_line(rt, alloc, &mut piped, line.as_str());
    let found = (first, second, named.stored, piped.stored);
    let due = (status, status, stored, 0);
    equal_at((line.as_str(), named.error.as_str()), found, due).expect(rt, "how it ends");
    equal_at(line.as_str(), are_alike(&named, &piped), true).expect(rt, "what comes of it");
}

#[test]
fn windows_of_files_are_those_of_their_bytes(rt: HostRuntime) {
    let alloc = rt.alloc();
    for row in ROWS {
        check_both(&rt, alloc, row, false);
    }
    let full = ("column", "-", "--x 0 --y 2 --w 1 --h 3", Status::Refused, 1);
    check_both(&rt, alloc, full, true);
}

/// Work on a window of a file is told of as work on that of standard input is.
#[test]
fn windows_of_files_are_told_of(rt: HostRuntime) {
    let alloc = rt.alloc();
    for name in ["file", "-"] {
        let mut world = world(&rt, alloc, "column");
        let line = format!(in alloc; "decode {name} out --x 0 --y 2 --w 1 --h 3").expect(
            &rt, "a text",
        );
        let status = run_line(&rt, alloc, &mut world, line.as_str());
        let size = match world.begun.first() {
            Some((_, size)) => *size,
            None => None,
        };
        let found = (status, world.begun.len(), world.ended, size);
        equal_at(name, found, (Status::Done, 1, 1, Some(100))).expect(&rt, "what a world is told");
    }
}
