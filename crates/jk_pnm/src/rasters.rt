//! Rasters that are made in pieces, of some rows each, and written one behind another.

ghost use Rattle.std.specs.Prelude.{◌≡◌, ◌*◌, ◌≤◌, ◌==◌, ◌++◌, ℕ, List, true, Ok, IfOk, IfErr, OnOk};
ghost use Rattle.std.specs.Io.KnownBytes.{Appends};
ghost use Rattle.jk_math.specs.Memory.{IsMemory};
ghost use Rattle.jk_math.specs.Picture.{Picture, IsPicture, is_grey_or_rgb};
ghost use Rattle.jk_pnm.specs.Pnm.{IsPnm};
ghost use Rattle.jk_pnm.specs.Rasters.{AreRastersOf, pieces_text};
ghost use Rattle.jk_pnm.specs.Sending.{IsSent, IsLeftBySending};
ghost use Rattle.jk_pnm.specs.Written.{is_written, maxval_of, raster_text, written, header_text};

use crate::pieces::send;
use crate::writing::{header, is_grey_or_rgb, is_written, pixels_and_maxval, put_raster};
use jk_math::{Fault, Image};
use std::alloc::Global;
use std::io::Write;

/// How large an image is, and what its samples are.
#[derive(Clone, Copy, Debug, Drop)]
pub struct RasterFrame {
    /// How many components there are.
    pub components: u16,
    /// Whether samples may be negative.
    pub signed: bool,
    /// Samples in a row.
    pub width: u32,
    /// Rows.
    pub height: u32,
    /// Bits of a sample.
    pub depth: u8,
}

impl RasterFrame {
    /// Whether an image of this frame has a PGM or PPM file: it has one or three components, and its
    /// samples are unsigned.
    pub fn has_file(&self) -> bool
        ensures { result ≡ is_grey_or_rgb self.now.components self.now.signed }
    {
        is_grey_or_rgb(self.components as usize, self.signed)
    }
}

/// The raster of an image: what stands behind the head of its file. Of an image that has no file
/// it is nothing.
pub fn raster(alloc: Global, image: &Image) -> Result<Vec<u8>, Fault>
    ensures text { IfOk result (λ v. is_written image.now ≡ true
        → v.items ≡ raster_text (maxval_of image.now.depth) image.now.planes (image.now.width * image.now.height)) }
    ensures memory { IfErr result IsMemory }
{
    if !is_written(image) {
        return Ok(Vec::new(alloc));
    }
    let (pixels, maxval) = pixels_and_maxval(image);
    put_raster(Vec::new(alloc), image, maxval, 0, pixels)
}

/// Writes pieces, one behind another.
fn send_pieces<W: Write>(pieces: &[Vec<u8>], writer: &mut W) -> Result<(), Fault>
    ensures { (part : List ℕ) × Appends (W.contents writer.old) (W.contents writer.new) part
        × IsSent (pieces_text pieces.now) part result }
{
    for piece in pieces {
        send(writer, piece)?;
    }
    Ok(())
}

/// The greatest value of a sample of so many bits.
fn greatest(depth: u8) -> u32
    requires { depth ≤ 16 }
    ensures { result ≡ maxval_of depth }
{
    (1u32 << depth) - 1
}

/// Writes the head of the PGM or PPM file of an image of a frame: what stands before its raster.
/// Whether there is such a file isn't asked: that tells [`RasterFrame::has_file`].
///
/// Shelf: a write failed or took nothing.
pub fn write_head_into<W: Write>(
    alloc: Global,
    frame: &RasterFrame,
    writer: &mut W,
) -> Result<(), Fault>
    requires { frame.now.depth ≤ 16 }
    // What was written, however it ended.
    ensures exact { (part : List ℕ) × Appends (W.contents writer.old) (W.contents writer.new) part
        × IsSent (header_text (frame.now.components == 3) frame.now.width frame.now.height
        (maxval_of frame.now.depth)) part result }
{
    let colour = frame.components == 3;
    let maxval = greatest(frame.depth);
    let head = header(alloc, 0, colour, frame.width, frame.height, maxval)?;
    send(writer, &head)
}

/// Writes the head of a file and the pieces of its raster.
fn send_file<W: Write>(
    alloc: Global,
    frame: &RasterFrame,
    pieces: &[Vec<u8>],
    writer: &mut W,
) -> Result<(), Fault>
    requires { frame.now.depth ≤ 16 }
    ensures { (part : List ℕ) × Appends (W.contents writer.old) (W.contents writer.new) part
        × IsSent (header_text (frame.now.components == 3) frame.now.width frame.now.height
        (maxval_of frame.now.depth) ++ pieces_text pieces.now) part result }
{
    write_head_into(alloc, frame, writer)?;
    send_pieces(pieces, writer)
}

/// Writes the PGM or PPM file of an image whose raster was made in pieces of some rows each, by
/// [`raster`]: the bytes that [`write`](crate::write) gives.
///
/// Unsupported: an image that has no such file; nothing is written. Shelf: a write failed or took
/// nothing.
pub fn write_rasters_into<W: Write>(
    alloc: Global,
    frame: &RasterFrame,
    pieces: &[Vec<u8>],
    writer: &mut W,
) -> Result<(), Fault>
    requires { frame.now.depth ≤ 16 }
    // What was written, however it ended.
    ensures exact { (p : Picture) → AreRastersOf frame.now pieces.now p
        → (part : List ℕ) × Appends (W.contents writer.old) (W.contents writer.new) part
        × IsLeftBySending (written p) part result }
    // A whole file is one of the image, placed at (0, 0).
    ensures means { (p : Picture) → IsPicture p → AreRastersOf frame.now pieces.now p
        → OnOk result ((file : List ℕ) → written p ≡ Ok file → IsPnm file (record p { x0 = 0; y0 = 0 })) }
{
    if !frame.has_file() {
        return Err(Fault::Unsupported);
    }
    send_file(alloc, frame, pieces, writer)
}
