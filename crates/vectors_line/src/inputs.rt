//! How `jk encode` reads its input: row by row as it encodes it.

use crate::lines::{GREY, pixel};
use crate::memory::{Memory, Reading};
use crate::runs::{bytes, check_run, run_line};
use jk_line::Status;
use std::alloc::Global;
use std::process::Abort;
use std::thread::Threads;
use vectors::{drawn, equal_at};

/// A world whose standard input and file `in` have these bytes, and whose file `out` has a byte, AA.
pub(crate) fn world_with<'a, R: Abort + Threads + Sync>(
    rt: &'a R,
    alloc: Global,
    input: &[u8],
) -> Memory<'a, R> {
    let copy = Vec::from_slice(alloc, input).expect(rt, "bytes");
    let mut world = Memory::new(rt, alloc, copy);
    for (name, bytes) in [("in", input), ("out", &[0xAA])] {
        let name = String::from_str(alloc, name).expect(rt, "a name");
        let copy = Vec::from_slice(alloc, bytes).expect(rt, "bytes");
        let kept: Result<_, _> = world.files.insert(name, copy);
        kept.expect(rt, "a file");
    }
    world
}

/// Whether the file `out` of a world has these bytes.
fn is_out<R>(world: &Memory<'_, R>, bytes: &[u8]) -> bool {
    match world.files.get("out") {
        Some(found) => found.as_slice() == bytes,
        None => false,
    }
}

/// Runs a command line, which must be done and write these bytes to `out`, with so many inputs that are
/// read as they are encoded, to their ends.
fn check_done<R: Abort + Threads + Sync>(
    rt: &R,
    world: &mut Memory<'_, R>,
    line: &str,
    due: &[u8],
    count: usize,
) {
    let status = run_line(rt, world.alloc, world, line);
    let found = (status, is_out(world, due), world.opened, world.read_whole);
    let case = (line, world.error.as_str());
    equal_at(case, found, (Status::Done, true, count, count)).expect(
        rt,
        "an image that is encoded",
    );
}

/// Runs a command line, which must be refused for this fault and leave what was there.
fn check_refused<R: Abort + Threads + Sync>(
    rt: &R,
    world: &mut Memory<'_, R>,
    line: &str,
    error: &str,
) {
    check_run(rt, world.alloc, world, line, Status::Refused, &[], error);
    equal_at(line, is_out(world, &[0xAA]), true).expect(rt, "what was there");
}

/// Heads of images, how many samples each has, and options.
static DRAWN: [(&str, usize, &str); 6] = [
    ("P5 40 90 255\n", 40 * 90, ""),
    ("P5 3 150 65535\n", 3 * 150 * 2, "--levels 2 --x0 5 --y0 61"),
    ("P6 9 70 255\n", 9 * 70 * 3, "--windows"),
    (
        "P6 12 66 1023\n",
        12 * 66 * 6,
        "--no-colour --block-x 2 --block-y 2",
    ),
    ("P5 140 1 255\n", 140, "--raw --sop --eph --layers 3"),
    (
        "P5\n# one\n1 200\n# two\n255\n",
        200,
        "--order CPRL --segments",
    ),
];

/// How an image is read and by how many workers it is encoded.
static WAYS: [(&str, usize); 4] = [
    ("", usize::MAX),
    ("", 1),
    ("--workers 3", usize::MAX),
    ("--workers 3", 50),
];

/// A file of an image by chance.
fn image(rt: &impl Abort, alloc: Global, head: &str, count: usize) -> Vec<u8> {
    let mut image = Vec::from_slice(alloc, head.as_bytes()).expect(rt, "a head");
    let mut number = 1;
    for _sample in 0..count {
        number = drawn(number);
        image.push((number >> 30) as u8).expect(rt, "a sample");
    }
    image
}

/// An image has the same file in pieces of any size, by one worker or several.
#[test]
fn files_in_pieces_of_any_size(rt: HostRuntime) {
    let alloc = rt.alloc();
    for (head, count, options) in DRAWN {
        let image = image(&rt, alloc, head, count);
        let mut world = world_with(&rt, alloc, &image);
        let line = format!(in alloc; "encode in whole {options}").expect(&rt, "a text");
        let status = run_line(&rt, alloc, &mut world, line.as_str());
        equal_at(line.as_str(), (status, world.opened), (Status::Done, 1)).expect(&rt, "the whole");
        let name = "whole";
        let whole = world.files.remove(name).expect(&rt, "a file");
        for (workers, most) in WAYS {
            let mut world = world_with(&rt, alloc, &image);
            world.reading.most = most;
            let line = format!(in alloc; "encode - out {options} {workers}").expect(&rt, "a text");
            check_done(&rt, &mut world, line.as_str(), &whole, 1);
        }
    }
}

/// How many bytes the file of a pixel has, and options.
static SIZES: [(usize, &str); 6] = [
    (100, ""),
    (100, "--workers 2"),
    (100, "--tile-width 1 --tile-height 1"),
    (100, "--tile-width 1 --tile-height 1 --workers 2"),
    (1_048_576, ""),
    (2_097_152, "--workers 2"),
];

/// Encodes a pixel whose file has a comment and so many bytes.
fn check_size<R: Abort + Threads + Sync>(
    rt: &R,
    alloc: Global,
    size: usize,
    options: &str,
    due: &[u8],
) {
    let end = bytes(rt, alloc, &["0A", GREY]);
    let mut image = bytes(rt, alloc, &["50350A23"]);
    image
        .resize(size.saturating_sub(10), 0x78)
        .expect(rt, "a comment");
    image
        .extend_from_slice(&end[end.len().saturating_sub(10)..])
        .expect(rt, "an image");
    let mut world = world_with(rt, alloc, &image);
    let line = format!(in alloc; "encode in out --levels 0 {options}").expect(rt, "a text");
    check_done(rt, &mut world, line.as_str(), due, 1);
}

/// A file of any size is read as it is encoded.
#[test]
fn files_of_all_sizes(rt: HostRuntime) {
    let alloc = rt.alloc();
    let due = bytes(&rt, alloc, &pixel());
    for (size, options) in SIZES {
        check_size(&rt, alloc, size, options, &due);
    }
}

/// A command line, and behind how many bytes of a pixel, which has 12, reads fail.
static FAILING: [(&str, usize); 9] = [
    ("encode in out", 0),
    ("encode in out --workers 2", 0),
    ("encode in out --tile-width 1 --tile-height 1", 11),
    (
        "encode in out --tile-width 1 --tile-height 1 --workers 2",
        11,
    ),
    ("encode - out", 0),
    ("encode - out", 12),
    ("encode - out --workers 2", 12),
    ("encode - out --x0 2147483647", 12),
    ("encode - out --workers 2", 2),
];

/// A read that fails is told before all else, and what was there stays.
#[test]
fn failed_reads_are_told(rt: HostRuntime) {
    let alloc = rt.alloc();
    for (line, end) in FAILING {
        let mut world = world_with(&rt, alloc, &bytes(&rt, alloc, &[GREY]));
        world.reading = Reading {
            most: 5,
            end: Some(end),
        };
        let subject = if line.contains(" in ") {
            "in"
        } else {
            "standard input"
        };
        let line = format!(in alloc; "{line} --explain").expect(&rt, "a text");
        let error = format!(in alloc; "jk: F20 Shelf\n{subject} can't be read: timed out\n").expect(
            &rt, "a text",
        );
        check_refused(&rt, &mut world, line.as_str(), error.as_str());
    }
}

/// Command lines.
static LINES: [&str; 5] = [
    "encode in out",
    "encode in out --workers 2",
    "encode in out --tile-width 1 --tile-height 1",
    "encode - out",
    "encode - out --workers 2 --x0 2147483647",
];

/// Files of no image: none, no head, no sample, one above maxval, and many bytes too many.
static NO_IMAGES: [&str; 5] = [
    "",
    "5039",
    "50350A 312031 0A 323535 0A",
    "50350A 312031 0A 31 0A 80",
    "50350A 312031 0A 323535 0A 80 8080808080808080 8080808080808080 8080808080808080",
];

/// What is no file of an image is refused as it is where it is whole, and read to its end.
#[test]
fn files_of_no_image_are_refused(rt: HostRuntime) {
    let alloc = rt.alloc();
    for line in LINES {
        for input in NO_IMAGES {
            let mut world = world_with(&rt, alloc, &bytes(&rt, alloc, &[input]));
            world.reading.most = 1;
            check_refused(&rt, &mut world, line, "jk: F14 BadPnm\n");
            equal_at(line, world.read_whole, world.opened).expect(&rt, "inputs read to their ends");
        }
    }
}
