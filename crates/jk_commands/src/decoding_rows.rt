//! Decoding to a PGM or PPM file row by row: the image is never whole in memory.

ghost use Rattle.std.specs.Prelude.{◌≡◌, ◌≤◌, ◌*◌, ◌==◌, ◌⊎◌, ℕ, List, [], true, Ok, Err, IfOk, IfErr, OnOk};
ghost use Rattle.std.specs.Io.KnownBytes.{Appends};
ghost use Rattle.jk_math.specs.Answer.{Answers, Refuses};
ghost use Rattle.jk_math.specs.Picture.{Picture};
ghost use Rattle.jk_math.specs.declared.fault.Fault.TheVariants.{BadParameters, Shelf};
ghost use Rattle.jk_pnm.specs.Pnm.{IsPnm};
ghost use Rattle.jk_pnm.specs.Written.{is_written, maxval_of, header_text, raster_text, written as pnm_of};
ghost use Rattle.jk_tile.specs.decoding.TileReading.{tested};
ghost use Rattle.jk_code.specs.Meaning.{Means};
ghost use Rattle.jk_code.specs.MeaningReading.{meaning_at};
ghost use Rattle.jk_options.specs.Plans.{at_place};
ghost use Rattle.jk_commands.specs.Commands.{decoded};
ghost use Rattle.jk_commands.specs.Rasters.{IsRasterFrameOf};
ghost use Rattle.jk_commands.specs.RowWriting.{HasFront, HasBegun};

use crate::row_decoders::{Alone, Beside, RowDecoder};
use jk_code::{Rows, frame, judge_file};
use jk_math::{Fault, Image};
use jk_pnm::{RasterFrame, write_head_into, write_raster_into};
use jk_tile::Workers;
use std::alloc::Global;
use std::io::Write;
use std::marker::Sync;
use std::thread::Threads;

/// A writer that gets the raster of the rows of each stripe, one behind another.
#[derive(Drop)]
struct RowWriter<'a, W> {
    writer: &'a mut W,
}

impl<'a, W: Write> Rows for RowWriter<'a, W> {
    ghost use Rattle.jk_commands.specs.RowWriting.{IsRasterBehind, IsRasterBroken};

    ghost took = { IsRasterBehind W.contents };

    ghost refused = { IsRasterBroken W.contents };

    fn take(&mut self, alloc: Global, rows: Image) -> Result<(), Fault> {
        write_raster_into(alloc, &rows, self.writer)
    }
}

/// The frame of the image of a file at a reduction.
fn raster_frame(alloc: Global, bytes: &[u8], reduce: u32) -> Result<RasterFrame, Fault>
    ensures depth { IfOk result (λ f. f.depth ≤ 16) }
    ensures frame { IfOk result (λ f. (p : Picture) → meaning_at bytes.now reduce ≡ Ok p → IsRasterFrameOf f p) }
    ensures err { IfErr result (λ e. Refuses e (meaning_at bytes.now reduce)) }
{
    let told = frame(alloc, bytes, reduce)?;
    Ok(RasterFrame {
        components: told.components,
        signed: told.signed,
        width: told.width,
        height: told.height,
        depth: told.depth,
    })
}

/// Writes the head of the file of an image. Where a write fails, the image is judged, since a fault
/// of its file goes before Shelf.
fn write_head<W: Write>(
    alloc: Global,
    bytes: &[u8],
    reduce: u32,
    frame: &RasterFrame,
    writer: &mut W,
) -> Result<(), Fault>
    requires { frame.now.depth ≤ 16 }
    ensures head { OnOk result (Appends (W.contents writer.old) (W.contents writer.new)
        (header_text (frame.now.components == 3) frame.now.width frame.now.height (maxval_of frame.now.depth))) }
    ensures err { IfErr result (λ e. Refuses e (meaning_at bytes.now reduce)
        ⊎ ((e ≡ Shelf) × (p : Picture) × (meaning_at bytes.now reduce ≡ Ok p)
        × HasFront (header_text (frame.now.components == 3) frame.now.width frame.now.height (maxval_of frame.now.depth))
        (W.contents writer.old) (W.contents writer.new))) }
{
    match write_head_into(alloc, frame, writer) {
        Ok(()) => Ok(()),
        Err(Fault::Memory(refused)) => Err(Fault::Memory(refused)),
        Err(fault) => {
            judge_file(alloc, bytes, reduce)?;
            Err(fault)
        }
    }
}

/// Writes the raster of the image of a file, stripe by stripe.
fn write_rows<D: RowDecoder, W: Write>(
    decoder: &D,
    alloc: Global,
    bytes: &[u8],
    reduce: u32,
    writer: &mut W,
) -> Result<(), Fault>
    requires ready { D.ready decoder.now }
    ensures raster { OnOk result ((p : Picture) × (meaning_at bytes.now reduce ≡ Ok p) × Means bytes.now reduce p
        × (is_written p ≡ true → Appends (W.contents writer.old) (W.contents writer.new)
        (raster_text (maxval_of p.depth) p.planes (p.width * p.height)))) }
    ensures err { IfErr result (λ e. Refuses e (meaning_at bytes.now reduce)
        ⊎ ((e ≡ Shelf) × (p : Picture) × (meaning_at bytes.now reduce ≡ Ok p)
        × (is_written p ≡ true → HasFront (raster_text (maxval_of p.depth) p.planes (p.width * p.height))
        (W.contents writer.old) (W.contents writer.new)))) }
{
    let mut rows = RowWriter { writer };
    decoder.decode(alloc, bytes, reduce, &mut rows)
}

/// Writes the PGM or PPM file of the image of a file, its head and then its raster.
fn write_file<D: RowDecoder, W: Write>(
    decoder: &D,
    alloc: Global,
    bytes: &[u8],
    reduce: u32,
    writer: &mut W,
) -> Result<(), Fault>
    requires ready { D.ready decoder.now }
    ensures exact { Answers (λ _. tt) result (tested (decoded bytes.now reduce))
        ⊎ ((result ≡ Err Shelf) × HasBegun (decoded bytes.now reduce) (W.contents writer.old) (W.contents writer.new)) }
    ensures written { OnOk result ((file : List ℕ) × (decoded bytes.now reduce ≡ Ok file)
        × Appends (W.contents writer.old) (W.contents writer.new) file) }
    ensures meaning { OnOk result ((p : Picture) × (meaning_at bytes.now reduce ≡ Ok p) × Means bytes.now reduce p) }
{
    let frame = raster_frame(alloc, bytes, reduce)?;
    if !frame.has_file() {
        judge_file(alloc, bytes, reduce)?;
        return Err(Fault::Unsupported);
    }
    write_head(alloc, bytes, reduce, &frame, writer)?;
    write_rows(decoder, alloc, bytes, reduce, writer)
}

/// Writes what `jk decode` makes of a file, row by row, with the memory of some rows: the bytes that
/// [`decode_file`](crate::decode_file) gives. Bytes are written before it is known whether the file
/// is sound: what was written is to be given up where a fault is told.
///
/// The faults are those of [`decode_file`](crate::decode_file) in their order, and behind them Shelf:
/// a write failed or took nothing.
pub fn decode_rows_into<W: Write>(
    alloc: Global,
    bytes: &[u8],
    reduce: u32,
    writer: &mut W,
) -> Result<(), Fault>
    // Which fault is the first, or none; or a write failed, of a file that is due, whose beginning was
    // written.
    ensures exact { Answers (λ _. tt) result (tested (decoded bytes.now reduce))
        ⊎ ((result ≡ Err Shelf) × HasBegun (decoded bytes.now reduce) (W.contents writer.old) (W.contents writer.new)) }
    // What was written where there is no fault.
    ensures written { OnOk result ((file : List ℕ) × (decoded bytes.now reduce ≡ Ok file)
        × Appends (W.contents writer.old) (W.contents writer.new) file) }
    // It is a file of the picture that the bytes mean.
    ensures found { OnOk result ((p : Picture) × Means bytes.now reduce p
        × ((file : List ℕ) → decoded bytes.now reduce ≡ Ok file → IsPnm file (at_place p 0 0))) }
    // Of a file that means a picture, the picture's file is written, or it has none, or a write failed.
    ensures only { (p : Picture) → Means bytes.now reduce p
        → OnOk result ((file : List ℕ) × (pnm_of p ≡ Ok file)
        × Appends (W.contents writer.old) (W.contents writer.new) file)
        × IfErr result (λ e. Refuses e (pnm_of p)
        ⊎ ((e ≡ Shelf) × HasBegun (pnm_of p) (W.contents writer.old) (W.contents writer.new))) }
{
    write_file(&Alone, alloc, bytes, reduce, writer)
}

/// What [`decode_rows_into`] writes and tells, decoded by so many workers: they decode the code-blocks
/// of the next rows while those before are made and written.
///
/// BadParameters, before all else: less than one worker or more than 64; nothing is written.
pub fn decode_rows_into_with<R: Threads + Sync, W: Write>(
    rt: &R,
    alloc: Global,
    workers: usize,
    bytes: &[u8],
    reduce: u32,
    writer: &mut W,
) -> Result<(), Fault>
    ensures range { (1 ≤ workers → workers ≤ 64 → ⊥) → (result ≡ Err BadParameters)
        × Appends (W.contents writer.old) (W.contents writer.new) [] }
    // Which fault is the first, or none; or a write failed, of a file that is due, whose beginning was
    // written.
    ensures exact { 1 ≤ workers → workers ≤ 64 → Answers (λ _. tt) result (tested (decoded bytes.now reduce))
        ⊎ ((result ≡ Err Shelf) × HasBegun (decoded bytes.now reduce) (W.contents writer.old) (W.contents writer.new)) }
    // What was written where there is no fault.
    ensures written { OnOk result ((file : List ℕ) × (decoded bytes.now reduce ≡ Ok file)
        × Appends (W.contents writer.old) (W.contents writer.new) file) }
    // It is a file of the picture that the bytes mean.
    ensures found { OnOk result ((p : Picture) × Means bytes.now reduce p
        × ((file : List ℕ) → decoded bytes.now reduce ≡ Ok file → IsPnm file (at_place p 0 0))) }
    // Of a file that means a picture, the picture's file is written, or it has none, or a write failed.
    ensures only { 1 ≤ workers → workers ≤ 64 → (p : Picture) → Means bytes.now reduce p
        → OnOk result ((file : List ℕ) × (pnm_of p ≡ Ok file)
        × Appends (W.contents writer.old) (W.contents writer.new) file)
        × IfErr result (λ e. Refuses e (pnm_of p)
        ⊎ ((e ≡ Shelf) × HasBegun (pnm_of p) (W.contents writer.old) (W.contents writer.new))) }
{
    if workers < 1 || 64 < workers {
        return Err(Fault::BadParameters);
    }
    let workers = Workers { rt, count: workers };
    write_file(&Beside { workers: &workers }, alloc, bytes, reduce, writer)
}
