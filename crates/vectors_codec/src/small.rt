//! Small codestreams: their headers by name, and files of them.

use crate::texts::{MAIN, add, bytes};
use std::alloc::Global;
use std::process::Abort;

/// The headers of a small codestream, by name: a test that names them isn't burdened with their
/// texts.
#[derive(Clone, Copy)]
pub(crate) enum Headers {
    /// One grey sample.
    Pixel,
    /// A column of nine grey samples with one decomposition level.
    Column,
    /// One sample at (1,0), with one level.
    Moved,
    /// Two by two samples, with one level.
    Square,
    /// Five by five samples, with one level and precincts of 4, of which one has no code-block.
    Precincts,
    /// Three by five pixels in colour, with blocks of 4.
    Colour,
    /// Two samples in two tiles.
    Tiles,
    /// One sample, with segments that are passed over.
    Passed,
    /// One sample in eight layers.
    Layers,
    /// A pixel of 16 bits in colour.
    Deep,
    /// One sample, with context reset.
    Reset,
    /// One sample, with segmentation symbols.
    Symbols,
}

impl Headers {
    /// Their bytes, as a hexadecimal text.
    fn text(self) -> &'static str {
        match self {
            Headers::Pixel => MAIN,
            Headers::Column => {
                "FF4F FF51 0029 0000 00000001 00000009 00000000 00000000 00000001 00000009 00000000 00000000 0001 07 01 01 FF52 000C 00 00 0001 00 01 04 04 00 01 FF5C 0007 40 40 48 48 50"
            },
            Headers::Moved => {
                "FF4F FF51 0029 0000 00000002 00000001 00000001 00000000 00000002 00000001 00000000 00000000 0001 07 01 01 FF52 000C 00 00 0001 00 01 04 04 00 01 FF5C 0007 40 40 48 48 50"
            },
            Headers::Square => {
                "FF4F FF51 0029 0000 00000002 00000002 00000000 00000000 00000002 00000002 00000000 00000000 0001 07 01 01 FF52 000C 00 00 0001 00 01 04 04 00 01 FF5C 0007 40 40 48 48 50"
            },
            Headers::Precincts => {
                "FF4F FF51 0029 0000 00000005 00000005 00000000 00000000 00000005 00000005 00000000 00000000 0001 07 01 01 FF52 000E 01 00 0001 00 01 04 04 00 01 22 22 FF5C 0007 40 40 48 48 50"
            },
            Headers::Colour => {
                "FF4F FF51 002F 0000 00000003 00000005 00000000 00000000 00000003 00000005 00000000 00000000 0003 07 01 01 07 01 01 07 01 01 FF52 000C 00 00 0001 01 00 00 00 00 01 FF5C 0004 40 40"
            },
            Headers::Tiles => {
                "FF4F FF51 0029 0000 00000002 00000001 00000000 00000000 00000001 00000001 00000000 00000000 0001 07 01 01 FF52 000C 00 00 0001 00 00 04 04 00 01 FF5C 0004 40 40"
            },
            Headers::Passed => {
                "FF4F FF51 0029 0000 00000001 00000001 00000000 00000000 00000001 00000001 00000000 00000000 0001 07 01 01 FF52 000C 00 00 0001 00 00 04 04 00 01 FF5C 0004 40 40 FF5D 0005 00 40 40 FF64 0006 0001 4142 FF55 0008 00 40 00000017"
            },
            Headers::Layers => {
                "FF4F FF51 0029 0000 00000001 00000001 00000000 00000000 00000001 00000001 00000000 00000000 0001 07 01 01 FF52 000C 00 00 0008 00 00 04 04 00 01 FF5C 0004 40 40"
            },
            Headers::Deep => {
                "FF4F FF51 002F 0000 00000001 00000001 00000000 00000000 00000001 00000001 00000000 00000000 0003 0F 01 01 0F 01 01 0F 01 01 FF52 000C 00 00 0001 01 00 04 04 00 01 FF5C 0004 40 80"
            },
            Headers::Reset => {
                "FF4F FF51 0029 0000 00000001 00000001 00000000 00000000 00000001 00000001 00000000 00000000 0001 07 01 01 FF52 000C 00 00 0001 00 00 04 04 02 01 FF5C 0004 40 40"
            },
            Headers::Symbols => {
                "FF4F FF51 0029 0000 00000001 00000001 00000000 00000000 00000001 00000001 00000000 00000000 0001 07 01 01 FF52 000C 00 00 0001 00 00 04 04 20 01 FF5C 0004 40 40"
            },
        }
    }
}

/// The file of these headers and tile-parts.
pub(crate) fn file_of(rt: &impl Abort, alloc: Global, headers: Headers, parts: &str) -> Vec<u8> {
    let mut file = bytes(rt, alloc, &[headers.text()]);
    add(rt, &mut file, &bytes(rt, alloc, &[parts]));
    file
}
