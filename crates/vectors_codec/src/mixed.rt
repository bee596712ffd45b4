//! Tile-parts and segments in other orders than an encoder's, in files of empty packets.

use crate::asserts::equal;
use crate::calls::refusal;
use crate::geometry::seen;
use crate::pieces::{Piece, joined};
use jk_math::Fault;
use std::alloc::Global;
use std::process::Abort;

/// How long the file of these pieces is.
fn has_length(rt: &impl Abort, alloc: Global, pieces: &[(Piece, usize)], length: usize) {
    equal(rt, joined(rt, alloc, pieces).len(), length);
}

/// The file of these pieces means one sample throughout, in an image that lies there, with this
/// width and height.
fn means(
    rt: &impl Abort,
    alloc: Global,
    pieces: &[(Piece, usize)],
    reduce: u32,
    frame: (u32, u32, u32, u32),
    sample: i32,
) {
    let file = joined(rt, alloc, pieces);
    equal(rt, seen(rt, alloc, &file, reduce, sample), (frame, true));
}

/// The file of these pieces is refused.
fn refused(rt: &impl Abort, alloc: Global, pieces: &[(Piece, usize)], reduce: u32, fault: Fault) {
    let file = joined(rt, alloc, pieces);
    equal(rt, refusal(alloc, &file, reduce), Some(fault));
}

/// Two layers in two tile-parts.
static LAYERED: [(Piece, usize); 4] = [
    (Piece::Layered, 1),
    (Piece::First, 1),
    (Piece::Second, 1),
    (Piece::End, 1),
];

/// The same, the other way round.
static LAYERED_TURNED: [(Piece, usize); 4] = [
    (Piece::Layered, 1),
    (Piece::Second, 1),
    (Piece::First, 1),
    (Piece::End, 1),
];

/// The same, without the second part.
static LAYERED_SHORT: [(Piece, usize); 3] = [
    (Piece::Layered, 1),
    (Piece::First, 1),
    (Piece::End, 1),
];

/// A page with every segment that has a length.
static FULL: [(Piece, usize); 3] = [(Piece::Page, 1), (Piece::Passed, 1), (Piece::Part, 1)];

/// Two layers in two tile-parts, in their order and the other way round; and every segment with a
/// length.
#[test]
fn parts_and_segments(rt: HostRuntime) {
    let alloc = rt.alloc();
    has_length(&rt, alloc, &LAYERED, 97);
    means(&rt, alloc, &LAYERED, 0, (0, 0, 1, 1), 128);
    refused(&rt, alloc, &LAYERED_TURNED, 0, Fault::BadValue);
    refused(&rt, alloc, &LAYERED_SHORT, 0, Fault::MissingPackets);
    has_length(&rt, alloc, &FULL, 113);
    means(&rt, alloc, &FULL, 0, (0, 0, 1, 1), 128);
}

/// Every kind of segment in an unusual order, in the main header and in those of two tiles whose
/// parts are mixed.
///
/// Tile 1 has 8 packets in one layer without SOP and EPH, by its own COD; tile 0 has 16 in two
/// layers with both.
static MIXED: [(Piece, usize); 7] = [
    (Piece::Mixed, 1),
    (Piece::OneBegun, 1),
    (Piece::ZeroBegun, 1),
    (Piece::Packet, 5),
    (Piece::ZeroEnded, 1),
    (Piece::Packet, 11),
    (Piece::OneEnded, 1),
];

/// The same with a packet less.
static MIXED_SHORT: [(Piece, usize); 7] = [
    (Piece::Mixed, 1),
    (Piece::OneBegun, 1),
    (Piece::ZeroBegun, 1),
    (Piece::Packet, 5),
    (Piece::ZeroShort, 1),
    (Piece::Packet, 10),
    (Piece::OneEnded, 1),
];

/// The same without the first part of either tile.
static MIXED_LATE: [(Piece, usize); 4] = [
    (Piece::Mixed, 1),
    (Piece::ZeroEnded, 1),
    (Piece::Packet, 11),
    (Piece::OneEnded, 1),
];

#[test]
fn mixed_parts(rt: HostRuntime) {
    let alloc = rt.alloc();
    has_length(&rt, alloc, &MIXED, 419);
    means(&rt, alloc, &MIXED, 0, (3, 2, 16, 11), 2048);
    means(&rt, alloc, &MIXED, 1, (2, 1, 8, 6), 2048);
    // Component 1 of tile 0 has one decomposition level.
    refused(&rt, alloc, &MIXED, 2, Fault::BadWindow);
    refused(&rt, alloc, &MIXED_SHORT, 0, Fault::MissingPackets);
    refused(&rt, alloc, &MIXED_LATE, 0, Fault::BadValue);
}
