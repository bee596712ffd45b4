//! Pieces of codestreams, by name: a test that names them isn't burdened with their texts.

use crate::texts::{MAIN, add, bytes};
use std::alloc::Global;
use std::process::Abort;

/// A piece of a codestream.
#[derive(Clone, Copy)]
pub(crate) enum Piece {
    /// The headers of one grey pixel.
    Page,
    /// QCC, COM and TLM.
    Passed,
    /// The tile-part of one grey pixel, with a PLT, and EOC.
    Part,
    /// The headers of one grey pixel in two layers.
    Layered,
    /// The first of its tile-parts.
    First,
    /// The second.
    Second,
    End,
    /// Every kind of segment in an unusual order: three components in two tiles.
    Mixed,
    /// The first part of tile 1, with its own segments and three of its packets.
    OneBegun,
    /// The header of the first part of tile 0.
    ZeroBegun,
    /// The header of its second part.
    ZeroEnded,
    /// The same, of a part with a packet less.
    ZeroShort,
    /// The second part of tile 1, and EOC.
    OneEnded,
    /// An empty packet with SOP and EPH.
    Packet,
}

impl Piece {
    /// Its bytes, as a hexadecimal text.
    fn text(self) -> &'static str {
        match self {
            Piece::Page => MAIN,
            Piece::Passed => "FF5D 0005 00 40 40 FF64 0006 0001 4142 FF55 0008 00 40 00000017",
            Piece::Part => "FF90 000A 0000 00000015 00 01 FF58 0004 00 03 FF93 00 FFD9",
            Piece::Layered => {
                "FF4F FF51 0029 0000 00000001 00000001 00000000 00000000 00000001 00000001 00000000 00000000 0001 07 01 01 FF52 000C 00 00 0002 00 00 04 04 00 01 FF5C 0004 40 40"
            }
            Piece::First => "FF90 000A 0000 0000000F 00 02 FF93 00",
            Piece::Second => "FF90 000A 0000 0000000F 01 02 FF93 00",
            Piece::End => "FFD9",
            Piece::Mixed => {
                "FF4F FF51 002F 0000 00000013 0000000D 00000003 00000002 00000010 00000010 00000000 00000000 0003 0B 01 01 0B 01 01 0B 01 01 FF64 0006 0001 4142 FF5D 000B 02 40 60 68 68 70 68 68 70 FF30 FF52 000F 07 02 0002 01 02 02 01 00 01 76 87 98 FF55 0008 00 40 00000017 FF53 000B 01 01 01 03 03 00 01 65 54 FF5C 000A 60 60 68 68 70 68 68 70 FF6F 0003 00 FF63 000E 0000 0000 0000 0000 0000 0000"
            }
            Piece::OneBegun => {
                "FF90 000A 0001 00000049 00 02 FF53 0009 02 00 01 04 04 00 01 FF5D 000B 01 40 60 68 68 70 68 68 70 FF52 000F 01 00 0001 00 02 04 04 00 01 77 88 99 FF58 0004 00 03 FF64 0005 0000 41 FF31 FF93 00 00 00"
            }
            Piece::ZeroBegun => "FF90 000A 0000 0000003B 00 02 FF93",
            Piece::ZeroEnded => "FF90 000A 0000 00000077 01 02 FF58 0004 00 03 FF93",
            Piece::ZeroShort => "FF90 000A 0000 0000006E 01 02 FF58 0004 00 03 FF93",
            Piece::OneEnded => "FF90 000A 0001 00000013 01 02 FF93 00 00 00 00 00 FFD9",
            Piece::Packet => "FF91 0004 1234 00 FF92",
        }
    }
}

/// Adds a piece so often.
fn add_piece(rt: &impl Abort, alloc: Global, file: &mut Vec<u8>, piece: Piece, times: usize) {
    let text = bytes(rt, alloc, &[piece.text()]);
    for _ in 0..times {
        add(rt, file, &text);
    }
}

/// Pieces, each so often, as bytes.
pub(crate) fn joined(rt: &impl Abort, alloc: Global, pieces: &[(Piece, usize)]) -> Vec<u8> {
    let mut file = Vec::new(alloc);
    for (piece, times) in pieces {
        add_piece(rt, alloc, &mut file, *piece, *times);
    }
    file
}
