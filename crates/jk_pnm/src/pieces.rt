//! Writing into a writer, some pixels at a time.

ghost use Rattle.std.specs.Prelude.{◌≡◌, ◌*◌, ◌-◌, ◌≤◌, ℕ, List, [], true, false, Ok, OnOk};
ghost use Rattle.std.specs.Io.KnownBytes.{Appends};
ghost use Rattle.jk_math.specs.Picture.{IsPicture};
ghost use Rattle.jk_pnm.specs.Pnm.{IsPnm};
ghost use Rattle.jk_pnm.specs.Sending.{IsSent, IsLeftBySending};
ghost use Rattle.jk_pnm.specs.Written.{is_written, maxval_of, raster_part, raster_text, file_text, written};

use crate::writing::{head_of, is_written, pixels_and_maxval, put_raster};
use jk_math::{Fault, Image, write_out};
use std::alloc::Global;
use std::io::Write;

/// How many pixels are put together at a time.
const PIXELS: usize = 1 << 15;

/// Writes a text.
///
/// Shelf: a write failed or took nothing. A beginning of the text was written.
pub(crate) fn send<W: Write>(writer: &mut W, text: &[u8]) -> Result<(), Fault>
    ensures { (part : List ℕ) × Appends (W.contents writer.old) (W.contents writer.new) part
        × IsSent text.now part result }
{
    if write_out(writer, text) {
        Ok(())
    } else {
        Err(Fault::Shelf)
    }
}

/// Writes the raster of a few pixels, from one on up to another.
fn send_piece<W: Write>(
    alloc: Global,
    image: &Image,
    maxval: u32,
    from: usize,
    to: usize,
    writer: &mut W,
) -> Result<(), Fault>
    requires written { is_written image.now ≡ true }
    requires profile { IsPicture image.now }
    requires maxval { maxval ≡ maxval_of image.now.depth }
    requires from { from ≤ to }
    requires to { to ≤ image.now.width * image.now.height }
    ensures { (part : List ℕ) × Appends (W.contents writer.old) (W.contents writer.new) part
        × IsSent (raster_part maxval image.now.planes from (to - from)) part result }
{
    let piece = put_raster(Vec::new(alloc), image, maxval, from, to)?;
    send(writer, &piece)
}

/// Writes the raster of an image.
fn send_raster<W: Write>(
    alloc: Global,
    image: &Image,
    maxval: u32,
    pixels: usize,
    writer: &mut W,
) -> Result<(), Fault>
    requires written { is_written image.now ≡ true }
    requires profile { IsPicture image.now }
    requires maxval { maxval ≡ maxval_of image.now.depth }
    requires pixels { pixels ≡ image.now.width * image.now.height }
    ensures { (part : List ℕ) × Appends (W.contents writer.old) (W.contents writer.new) part
        × IsSent (raster_text maxval image.now.planes (image.now.width * image.now.height)) part result }
{
    let mut from = 0;
    while from < pixels {
        let to = pixels.min(from + PIXELS);
        send_piece(alloc, image, maxval, from, to, writer)?;
        from = to;
    }
    Ok(())
}

/// Writes the raster of an image, of which 32,768 pixels are held at a time: what stands behind the
/// head of its file. The rasters of stripes, one below the other, written one behind another make the
/// raster of the whole. Of an image that has no file nothing is written.
///
/// Shelf: a write failed or took nothing.
pub fn write_raster_into<W: Write>(
    alloc: Global,
    image: &Image,
    writer: &mut W,
) -> Result<(), Fault>
    // What was written of a raster, however it ended.
    ensures raster { is_written image.now ≡ true
        → (part : List ℕ) × Appends (W.contents writer.old) (W.contents writer.new) part
        × IsSent (raster_text (maxval_of image.now.depth) image.now.planes (image.now.width * image.now.height))
        part result }
    ensures nothing { is_written image.now ≡ false
        → (result ≡ Ok tt) × Appends (W.contents writer.old) (W.contents writer.new) [] }
{
    if !is_written(image) {
        return Ok(());
    }
    let (pixels, maxval) = pixels_and_maxval(image);
    send_raster(alloc, image, maxval, pixels, writer)
}

/// Writes the file of an image.
fn send_file<W: Write>(alloc: Global, image: &Image, writer: &mut W) -> Result<(), Fault>
    requires written { is_written image.now ≡ true }
    ensures part { (part : List ℕ) × Appends (W.contents writer.old) (W.contents writer.new) part
        × IsSent (file_text image.now) part result }
    ensures means { OnOk result (IsPnm (file_text image.now) (record image.now { x0 = 0; y0 = 0 })) }
{
    let (pixels, maxval) = pixels_and_maxval(image);
    let head = head_of(alloc, image, maxval, 0)?;
    send(writer, &head)?;
    send_raster(alloc, image, maxval, pixels, writer)
}

/// Writes the PGM or PPM file of an image: the bytes that [`write`](crate::write) gives, of which
/// 32,768 pixels are held at a time.
///
/// Unsupported: an image that has no such file; nothing is written. Shelf: a write failed or took
/// nothing.
pub fn write_into<W: Write>(alloc: Global, image: &Image, writer: &mut W) -> Result<(), Fault>
    // What was written, however it ended.
    ensures exact { (part : List ℕ) × Appends (W.contents writer.old) (W.contents writer.new) part
        × IsLeftBySending (written image.now) part result }
    // A whole file is one of the image, placed at (0, 0).
    ensures means { OnOk result ((file : List ℕ) → written image.now ≡ Ok file
        → IsPnm file (record image.now { x0 = 0; y0 = 0 })) }
{
    if !is_written(image) {
        return Err(Fault::Unsupported);
    }
    send_file(alloc, image, writer)
}
