//! A file that is read but for its code-blocks.

ghost use Rattle.std.specs.Prelude.{◌≡◌, ℕ, IfOk, IfErr};
ghost use Rattle.jk_math.specs.Answer.{Refuses};
ghost use Rattle.jk_code.specs.MeaningReading.{meaning_at};
ghost use Rattle.jk_code.specs.ReadImages.{IsReadImage, source_of};

use crate::coded::{CodedImage, HeadedBytes};
use crate::decoding::all_packets;
use crate::reduction::check_reduction;
use jk_boxes::open;
use jk_math::{Fault, Rect};
use jk_params::{Codestream, read_codestream};
use jk_walk::TilePackets;
use std::alloc::Global;

/// What was read of a file that is decoded at a reduction: where its codestream stands, the headers,
/// the packets of the tiles, the reduction, and the rectangle of the reduced image.
#[derive(Drop)]
pub(crate) struct ReadImage {
    start: usize,
    end: usize,
    pub(crate) headers: Codestream,
    packets: Vec<TilePackets>,
    reduce: u8,
    pub(crate) area: Rect,
}

impl ReadImage {
    /// What is decoded.
    pub(crate) fn coded<'a>(&'a self, bytes: &'a [u8]) -> CodedImage<'a>
        requires { (d : ℕ) × IsReadImage bytes.now d self.now }
        ensures { result ≡ source_of bytes.now self.now }
    {
        CodedImage {
            headers: &self.headers,
            bytes: &bytes[self.start..self.end],
            packets: &self.packets,
            reduce: self.reduce,
            area: self.area,
        }
    }
}

/// Reads the boxes, headers and packets of a file. The first of their faults, or BadWindow for a
/// reduction that the image hasn't, behind those of the headers.
pub(crate) fn read_image(alloc: Global, bytes: &[u8], reduce: u32) -> Result<ReadImage, Fault>
    ensures read { IfOk result (IsReadImage bytes.now reduce) }
    ensures refused { IfErr result (λ e. Refuses e (meaning_at bytes.now reduce)) }
{
    let boxed = open(bytes)?;
    let codestream = &bytes[boxed.start..boxed.end];
    let headers = read_codestream(alloc, codestream)?;
    let area = check_reduction(&headers, reduce)?;
    let source = HeadedBytes {
        headers: &headers,
        bytes: codestream,
    };
    let packets = all_packets(alloc, &source)?;
    Ok(ReadImage {
        start: boxed.start,
        end: boxed.end,
        headers,
        packets,
        reduce: reduce as u8,
        area,
    })
}
