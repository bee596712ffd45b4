//! Encoding a PGM or PPM file row by row: the image is never whole in memory.

ghost use Rattle.std.specs.Prelude.{◌≡◌, ◌+◌, ◌<◌, ◌≤◌, ℕ, List, Ok, Err, IfOk, IfErr, OnOk};
ghost use Rattle.std.specs.Io.KnownBytes.{Appends};
ghost use Rattle.jk_math.specs.Answer.{Refuses};
ghost use Rattle.jk_math.specs.Picture.{Picture, IsPicture};
ghost use Rattle.jk_params.specs.PictureFrames.{frame_of, IsPictureFrame};
ghost use Rattle.jk_pnm.specs.Pnm.{IsPnm};
ghost use Rattle.jk_pnm.specs.RasterRows.{drawn, picture_told};
ghost use Rattle.jk_code.specs.Meaning.{Means};
ghost use Rattle.jk_code.specs.Written.{written};
ghost use Rattle.jk_options.specs.Plans.{at_place};
ghost use Rattle.jk_commands.specs.Commands.{encoded};
ghost use Rattle.jk_commands.specs.Written.{LeftOf};
ghost use Rattle.jk_commands.specs.RowReading.{IsLeftOfRows};

use jk_code::{RowSupply, encode_rows};
use jk_math::{Fault, Image};
use jk_options::{PlacedFrame, Plan};
use jk_params::PictureFrame;
use jk_pnm::{RasterRows, raster_rows};
use std::alloc::Global;
use std::io::Write;

/// How many rows are encoded at a time. A row of code-blocks of each sub-band is held anyway, which
/// `jk encode` makes 64 rows high: a stripe of as many rows takes less memory than these do.
pub(crate) const ROWS: u32 = 64;

/// What gives the rows of the image of a file, with its upper left sample at (`x0`, `y0`), of which
/// the first ones were given.
#[derive(Drop)]
pub(crate) struct FileRows<'a> {
    pub(crate) raster: RasterRows<'a>,
    pub(crate) x0: u32,
    pub(crate) y0: u32,
    pub(crate) given: u32,
}

impl<'a> RowSupply for FileRows<'a> {
    ghost use Rattle.std.specs.Prelude.{◌+◌};
    ghost use Rattle.jk_params.specs.PictureFrames.{frame_of};
    ghost use Rattle.jk_commands.specs.RowReading.{placed_rows, HasGiven, HasRefused};

    ghost framed = { λ s. frame_of (placed_rows s) };

    ghost next = { λ s. s.y0 + s.given };

    ghost gave = { HasGiven };

    ghost met = { HasRefused };

    fn give(&mut self, alloc: Global, end: u32) -> Result<Image, Fault> {
        let from = self.given;
        let to = end - self.y0;
        let stripe = self.raster.rows(alloc, from, to)?;
        self.given = to;
        stripe.place(self.x0, self.y0 + from)
    }
}

/// The frame of the image of a file, with its upper left sample at (0, 0).
pub(crate) fn frame_of_file(raster: &RasterRows<'_>) -> PictureFrame
    ensures value { result ≡ frame_of (drawn raster.now) }
    ensures frame { IsPictureFrame result }
    ensures picture_told { IsPicture (drawn raster.now) → picture_told raster.now ≡ Ok (drawn raster.now) }
{
    let frame = raster.frame();
    PictureFrame {
        x0: 0,
        y0: 0,
        width: frame.width,
        height: frame.height,
        components: frame.components,
        depth: frame.depth,
        signed: frame.signed,
    }
}

/// The end of a stripe of an image of so many rows.
pub(crate) fn stripe_end(y: u32, height: u32) -> u32
    requires { y < height }
    ensures more { y < result }
    ensures to { result ≤ height }
{
    y.saturating_add(ROWS).min(height)
}

/// Looks at all samples and keeps none.
pub(crate) fn judge(alloc: Global, raster: &RasterRows<'_>) -> Result<(), Fault>
    ensures ok { OnOk result (IsPicture (drawn raster.now)) }
    ensures err { IfErr result (λ e. Refuses e (picture_told raster.now)) }
{
    let height = raster.frame().height;
    let mut y = 0;
    while y < height {
        let end = stripe_end(y, height);
        raster.rows(alloc, y, end)?;
        y = end;
    }
    Ok(())
}

/// Encodes the image of a file at its place.
fn encode_placed<W: Write>(
    alloc: Global,
    raster: RasterRows<'_>,
    placed: &PlacedFrame,
    writer: &mut W,
) -> Result<(), Fault>
    requires place { placed.now.frame
        ≡ frame_of (at_place (drawn raster) placed.now.frame.x0 placed.now.frame.y0) }
    requires frame { IsPictureFrame placed.now.frame }
    ensures ok { OnOk result (IsPicture (drawn raster.entry) × (file : List ℕ)
        × (written (at_place (drawn raster.entry) placed.now.frame.x0 placed.now.frame.y0) placed.now.parameters ≡ Ok file)
        × Appends (W.contents writer.old) (W.contents writer.new) file
        × Means file 0 (at_place (drawn raster.entry) placed.now.frame.x0 placed.now.frame.y0)) }
    ensures part { (text : List ℕ) × Appends (W.contents writer.old) (W.contents writer.new) text
        × IsLeftOfRows raster.entry placed.now.frame.x0 placed.now.frame.y0 placed.now.parameters text result }
{
    let mut rows = FileRows {
        raster,
        x0: placed.frame.x0,
        y0: placed.frame.y0,
        given: 0,
    };
    encode_rows(
        alloc,
        &placed.frame,
        &placed.parameters,
        ROWS,
        &mut rows,
        writer,
    )
}

/// Writes what `jk encode` makes of a PGM or PPM file, row by row: the bytes that
/// [`encode_file`](crate::encode_file) gives, with the memory of some rows and of what was coded.
///
/// The faults are those of [`encode_file`](crate::encode_file) in their order, and Shelf: a write
/// failed or took nothing. Nothing is written after BadPnm and BadParameters; after Limit, Memory and
/// Shelf what `jk_code::encode_rows` leaves.
pub fn encode_rows_into<W: Write>(
    alloc: Global,
    bytes: &[u8],
    plan: Plan,
    writer: &mut W,
) -> Result<(), Fault>
    // The whole file is written, byte for byte.
    ensures ok { OnOk result ((file : List ℕ) × (encoded bytes.now plan ≡ Ok file)
        × Appends (W.contents writer.old) (W.contents writer.new) file) }
    // Of a file of a picture, it means exactly that picture, placed as it is asked for.
    ensures means { (p : Picture) → IsPnm bytes.now p
        → OnOk result ((file : List ℕ) → encoded bytes.now plan ≡ Ok file
        → Means file 0 (at_place p plan.x0 plan.y0)) }
    // Nothing is written of other bytes.
    ensures found { OnOk result ((p : Picture) × IsPnm bytes.now p) }
    // What was written, however it ended.
    ensures part { (text : List ℕ) × Appends (W.contents writer.old) (W.contents writer.new) text
        × LeftOf bytes.now plan text result }
{
    let raster = raster_rows(bytes)?;
    match plan.place_frame(frame_of_file(&raster)) {
        Ok(placed) => encode_placed(alloc, raster, &placed, writer),
        Err(fault) => {
            judge(alloc, &raster)?;
            Err(fault)
        }
    }
}
