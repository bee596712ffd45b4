//! What boxes and headers say of an image.

ghost use Rattle.std.specs.Prelude.{◌≡◌, IfOk, IfErr};
ghost use Rattle.jk_math.specs.Answer.{Answers};
ghost use Rattle.jk_math.specs.Memory.{IsMemory};
ghost use Rattle.jk_math.specs.Picture.{Picture};
ghost use Rattle.jk_geom.specs.Rectangles.{IsArea};
ghost use Rattle.jk_code.specs.Meaning.{Means};
ghost use Rattle.jk_code.specs.Frames.{frame_with, codestream_frame_at, frame_at, IsFrameOfPicture};

use crate::reduction::check_reduction;
use jk_boxes::open;
use jk_marks::Siz;
use jk_math::{Fault, Rect};
use jk_params::read_codestream;
use std::alloc::Global;

/// Where an image lies at a reduction, how large it is, and what its samples are.
#[derive(Clone, Copy, Debug, PartialEq, Eq)]
pub struct ImageFrame {
    /// The column of the upper left sample on the reduced reference grid.
    pub x0: u32,
    /// The row of the upper left sample on the reduced reference grid.
    pub y0: u32,
    /// Samples in a row.
    pub width: u32,
    /// Rows.
    pub height: u32,
    /// How many components there are.
    pub components: u16,
    /// Bits of a sample, the sign counted.
    pub depth: u8,
    /// Whether samples may be negative.
    pub signed: bool,
    /// The least number of decomposition levels of a component of a tile: so often the image can be
    /// halved.
    pub levels: u8,
}

/// The frame of an image that lies here, with so many levels.
pub(crate) fn image_frame(siz: &Siz, area: &Rect, levels: u8) -> ImageFrame
    requires { IsArea area.now }
    ensures { result ≡ frame_with siz.now area.now levels }
{
    ImageFrame {
        x0: area.x0,
        y0: area.y0,
        width: area.x1 - area.x0,
        height: area.y1 - area.y0,
        components: siz.components,
        depth: siz.depth,
        signed: siz.signed,
        levels,
    }
}

/// What the headers of a codestream say of the image at a reduction.
#[tactic(auto, unfolding(crate::specs::Frames::codestream_frame_at, crate::specs::Frames::headers_frame_at))]
fn codestream_frame(alloc: Global, bytes: &[u8], reduce: u32) -> Result<ImageFrame, Fault>
    ensures { Answers (λ f. f) result (codestream_frame_at bytes.now reduce) }
{
    let headers = read_codestream(alloc, bytes)?;
    let area = check_reduction(&headers, reduce)?;
    Ok(image_frame(headers.siz(), &area, headers.least_levels()))
}

/// What boxes and headers of a file say of the image at a reduction.
#[tactic(auto, unfolding(crate::specs::Frames::frame_at))]
fn file_frame(alloc: Global, bytes: &[u8], reduce: u32) -> Result<ImageFrame, Fault>
    ensures { Answers (λ f. f) result (frame_at bytes.now reduce) }
{
    let boxed = open(bytes)?;
    codestream_frame(alloc, &bytes[boxed.start..boxed.end], reduce)
}

/// What boxes and headers of a file, a bare codestream or a JP2 file, say of the image at a
/// reduction: of the packets none is read.
///
/// The first of these faults: those of the boxes; those of `read_codestream`; BadWindow for a
/// reduction past the least number of decomposition levels, or one that leaves no sample. A file
/// that `decode` refuses for its packets or code-blocks may have a frame.
pub fn frame(alloc: Global, bytes: &[u8], reduce: u32) -> Result<ImageFrame, Fault>
    // Which frame, or which fault is the first.
    ensures exact { Answers (λ f. f) result (frame_at bytes.now reduce) }
    // A picture that the file means at the reduction has the frame.
    ensures means { (p : Picture) → Means bytes.now reduce p → IfOk result (λ f. IsFrameOfPicture f p) }
    // A file that means a picture at the reduction has a frame.
    ensures given { (p : Picture) → Means bytes.now reduce p → IfErr result IsMemory }
{
    file_frame(alloc, bytes, reduce)
}
