//! How often a connection is read, and why it ends.

use crate::asserts::equal_at;
use crate::caching::{Counting, cache_of};
use crate::serving::read_from;
use jk_web::{End, run, run_with};
use std::alloc::Global;
use std::process::Abort;
use vectors::Pieces;

/// Two requests of 24 bytes each, one that closes before another, and one before a bad one.
const TWO: &[u8] = b"GET /images HTTP/1.1\r\n\r\nGET /images HTTP/1.1\r\n\r\n";

const CLOSING: &[u8] = b"GET /images HTTP/1.0\r\n\r\nGET /images HTTP/1.1\r\n\r\n";

const BAD: &[u8] = b"GET /images HTTP/1.1\r\n\r\n\0\0\0\0\0\0\0\0\0\0\0\0\0\0\0\0\0\0\0\0\0\0\0\0";

/// What comes, 12 bytes a read, whether a read fails behind it, and how many reads there may be at
/// most; then how many are made, how many replies are written, and why it ends.
static TURNS: [(&[u8], bool, u64, u64, usize, End); 14] = [
    (TWO, false, 0, 0, 0, End::TurnsSpent),
    (TWO, true, 0, 0, 0, End::TurnsSpent),
    (TWO, true, 1, 1, 0, End::TurnsSpent),
    (TWO, true, 2, 2, 1, End::TurnsSpent),
    (TWO, false, 3, 3, 1, End::TurnsSpent),
    (TWO, false, 4, 4, 2, End::TurnsSpent),
    (TWO, true, 4, 4, 2, End::TurnsSpent),
    (TWO, false, 5, 5, 2, End::Closed),
    (TWO, true, 5, 5, 2, End::ReadFailed),
    (TWO, false, 9, 5, 2, End::Closed),
    (TWO, true, 9, 5, 2, End::ReadFailed),
    (CLOSING, true, 9, 2, 1, End::Closed),
    (BAD, true, 9, 3, 2, End::Bad),
    (b"", true, 9, 1, 0, End::ReadFailed),
];

/// How many replies a text has.
fn count_of(text: &[u8]) -> usize {
    let mut count: usize = 0;
    for at in 0..text.len() {
        if text[at..].starts_with(b"HTTP/1.1 ") {
            count = count.saturating_add(1);
        }
    }
    count
}

/// Why a connection ends, of which so many reads are made at most, without a cache.
fn end_without(
    rt: &impl Abort,
    alloc: Global,
    input: &mut Pieces,
    output: &mut Vec<u8>,
    turns: u64,
) -> End {
    let mut images = Counting { made: 0 };
    run(alloc, input, output, &mut images, turns).expect(rt, "a connection")
}

/// The same with a cache.
fn end_with(
    rt: &impl Abort,
    alloc: Global,
    input: &mut Pieces,
    output: &mut Vec<u8>,
    turns: u64,
) -> End {
    let mut images = Counting { made: 0 };
    let mut cache = cache_of(rt, alloc, 2);
    run_with(alloc, input, output, &mut images, &mut cache, turns).expect(rt, "a connection")
}

/// The reads, the replies and the end of a stream, of which so many are made at most.
fn ends_so(
    rt: &impl Abort,
    alloc: Global,
    stream: (&[u8], bool),
    turns: u64,
    cached: bool,
    due: (u64, usize, End),
) {
    let mut input = read_from(rt, alloc, stream.0, 12, stream.1);
    let mut output = Vec::new(alloc);
    let end = if cached {
        end_with(rt, alloc, &mut input, &mut output, turns)
    } else {
        end_without(rt, alloc, &mut input, &mut output, turns)
    };
    let found = (input.reads(), count_of(&output), end);
    equal_at(rt, "reads, replies and an end", (turns, cached), found, due);
}

/// No more reads are made than there may be, and it ends as by a failed read only where one failed.
#[test]
fn reads_are_counted(rt: HostRuntime) {
    for (bytes, fails, turns, reads, replies, end) in &TURNS {
        let due = (*reads, *replies, *end);
        ends_so(&rt, rt.alloc(), (*bytes, *fails), *turns, false, due);
        ends_so(&rt, rt.alloc(), (*bytes, *fails), *turns, true, due);
    }
}
