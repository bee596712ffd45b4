//! Encoding row by row: an image that is never whole in memory.

ghost use Rattle.std.specs.Prelude.{◌≡◌, ℕ, ◌+◌, ◌-◌, ◌<◌, ◌≤◌, ◌⊎◌, List, [], length, true, Ok, IfOk, IfErr, OnOk};
ghost use Rattle.std.specs.Io.KnownBytes.{Appends};
ghost use Rattle.jk_math.specs.Memory.{IsMemory};
ghost use Rattle.jk_math.specs.Picture.{Picture, IsPicture};
ghost use Rattle.jk_params.specs.Coding.{coding_with};
ghost use Rattle.jk_params.specs.Profile.{is_profile, cod_of};
ghost use Rattle.jk_params.specs.PictureFrames.{frame_of, IsPictureFrame};
ghost use Rattle.jk_params.specs.Profile.{is_profile_for, IsWrittenFor};
ghost use Rattle.jk_code.specs.Meaning.{Means};
ghost use Rattle.jk_code.specs.Fronts.{HasFronts};
ghost use Rattle.jk_code.specs.Written.{written};
ghost use Rattle.jk_code.specs.Beginnings.{LeftBy};
ghost use Rattle.jk_code.specs.RowsWritten.{WereAllGiven, HasMetBefore, IsWrittenOf, IsWrittenOfBy};
ghost use Rattle.jk_code.specs.ComingRows.{IsComing, tiles_coming, AreFallen, AreCoded};

use crate::coming::{ComingImage, fallen_tiles};
use crate::contents::WrittenFrame;
use crate::tabled::{TableTiles, all_tables, coding_known, exponents_of};
use crate::writing::put_contents;
use jk_marks::{Coding, Exponents, Quantisation};
use jk_math::{Fault, Image};
use jk_params::{Parameters, PictureFrame, coding_with};
use jk_tile::{FallenTile, TextSink, TextWriter};
use std::alloc::Global;
use std::io::Write;

/// What gives the rows of an image, one stripe of them below the other.
pub trait RowSupply {
    ghost use Rattle.std.specs.Prelude.{ℕ};
    ghost use Rattle.jk_math.specs.Picture.{Picture};
    ghost use Rattle.jk_math.specs.declared.fault.Fault.{Fault};
    ghost use Rattle.jk_params.specs.declared.picture_frame.PictureFrame.{PictureFrame};
    ghost use Rattle.jk_code.specs.RowsWritten.{IsStripe};

    // the frame of its image, and the row of the reference grid that is next
    ghost framed: { Self → PictureFrame };

    ghost next: { Self → ℕ };

    // It was in the first state, gave these rows, and is in the second.
    ghost gave: { Self → Picture → Self → Type 0 };

    // It was in the first state, met this fault in place of rows, and is in the second.
    ghost met: { Self → Fault → Self → Type 0 };

    /// Gives the next rows, up to row `end` of the reference grid.
    fn give(&mut self, alloc: Global, end: u32) -> Result<Image, Fault>
        requires order { next self.old < end }
        requires inside { end ≤ (framed self.old).y0 + (framed self.old).height }
        ensures rows { IfOk result (IsStripe (framed self.old) (next self.old) end) }
        ensures gave { IfOk result (λ v. gave self.old v self.new) }
        ensures stays { IfOk result (λ _. framed self.new ≡ framed self.old) }
        ensures next { IfOk result (λ _. next self.new ≡ end) }
        ensures met { IfErr result (λ e. IsMemory e ⊎ met self.old e self.new) };
}

/// The end of a step of rows.
pub(crate) fn step_end(y: u32, end: u32, step: u32) -> u32
    requires order { y < end }
    requires step { 1 ≤ step }
    ensures more { y < result }
    ensures to { result ≤ end }
{
    y.saturating_add(step).min(end)
}

/// Takes all rows and keeps none.
pub(crate) fn drop_rows<S: RowSupply>(
    alloc: Global,
    frame: &PictureFrame,
    step: u32,
    supply: &mut S,
) -> Result<(), Fault>
    requires step { 1 ≤ step }
    requires frame { IsPictureFrame frame.now }
    requires framed { S.framed supply.old ≡ frame.now }
    requires first { S.next supply.old ≡ frame.now.y0 }
    ensures all { OnOk result ((p : Picture) × WereAllGiven S.gave frame.now supply.old supply.new p) }
    ensures err { IfErr result (λ e. IsMemory e ⊎ HasMetBefore S.gave S.met frame.now supply.old supply.new e) }
{
    let mut y = frame.y0;
    let end = frame.y0 + frame.height;
    while y < end {
        let to = step_end(y, end, step);
        supply.give(alloc, to)?;
        y = to;
    }
    Ok(())
}

/// How each component is coded before its exponents are known.
pub(crate) fn open_coding(parameters: &Parameters) -> Coding
    requires { length parameters.now.precincts.items ≤ 11 }
    ensures { result ≡ coding_with (cod_of parameters.now).style (record { guard = 0; exponents = [] }) }
{
    let steps = Quantisation {
        guard: 0,
        exponents: Exponents::new(&[]),
    };
    coding_with(parameters, &steps)
}

/// Writes the file of an image whose tiles are behind their last rows.
pub(crate) fn put_tiles<W: TextSink>(
    alloc: Global,
    coming: &ComingImage<'_>,
    tiles: Vec<FallenTile>,
    writer: &mut W,
) -> Result<(), Fault>
    requires coming { IsComing coming.now }
    requires tiles { AreFallen coming.now (tiles_coming coming.now) tiles.items }
    requires coded { (p : Picture) × IsPicture p × (frame_of p ≡ coming.now.frame)
        × AreCoded coming.now (tiles_coming coming.now) p tiles.items }
    ensures means { OnOk result ((p : Picture) → IsPicture p → frame_of p ≡ coming.now.frame
        → AreCoded coming.now (tiles_coming coming.now) p tiles.items
        → (file : List ℕ) → written p coming.now.parameters.now ≡ Ok file
        → Means file 0 p × HasFronts p coming.now.parameters.now file) }
    ensures part { (p : Picture) → IsPicture p → frame_of p ≡ coming.now.frame
        → AreCoded coming.now (tiles_coming coming.now) p tiles.items
        → is_profile coming.now.parameters.now p ≡ true
        → (text : List ℕ) × W.took writer.old text writer.new
        × LeftBy W.tells p coming.now.parameters.now text result }
{
    let exponents = exponents_of(coming, &tiles);
    let coding = coding_known(coming, &exponents);
    let tables = all_tables(alloc, coming, &coding, tiles)?;
    let source = WrittenFrame {
        frame: coming.frame,
        parameters: coming.parameters,
        exponents: &exponents,
    };
    let contents = TableTiles {
        coming: *coming,
        coding: &coding,
        tables: &tables,
        held: writer.holds(),
    };
    put_contents(alloc, &source, &contents, writer)
}

/// Codes the rows of an image and writes its file.
pub(crate) fn put_rows<S: RowSupply, W: TextSink>(
    alloc: Global,
    frame: &PictureFrame,
    parameters: &Parameters,
    step: u32,
    supply: &mut S,
    writer: &mut W,
) -> Result<(), Fault>
    requires step { 1 ≤ step }
    requires frame { IsPictureFrame frame.now }
    requires profile { is_profile_for parameters.now frame.now ≡ true }
    requires written { IsWrittenFor parameters.now frame.now }
    requires framed { S.framed supply.old ≡ frame.now }
    requires first { S.next supply.old ≡ frame.now.y0 }
    ensures ok { OnOk result ((p : Picture) × WereAllGiven S.gave frame.now supply.old supply.new p
        × (file : List ℕ) × (written p parameters.now ≡ Ok file)
        × W.took writer.old file writer.new
        × Means file 0 p × HasFronts p parameters.now file) }
    ensures part { (text : List ℕ) × W.took writer.old text writer.new
        × IsWrittenOfBy W.tells S.gave S.met frame.now parameters.now supply.old supply.new text result }
{
    let coding = open_coding(parameters);
    let coming = ComingImage {
        frame: *frame,
        parameters,
        coding: &coding,
    };
    let tiles = fallen_tiles(alloc, &coming, step, supply)?;
    put_tiles(alloc, &coming, tiles, writer)
}

/// Encodes an image whose rows come in stripes one below the other, each of `step` rows but for the
/// last one of a row of tiles, which may have fewer, into what takes its file: the bytes that
/// [`encode`](crate::encode) gives of the whole image. It takes the memory of a stripe, of a row of
/// code-blocks of each sub-band, and of what was coded.
///
/// All rows are taken before anything is passed on, and also where the parameters are refused. The
/// faults are those of the rows, BadParameters, Limit and Memory as of [`encode`](crate::encode), and
/// those that the sink tells: of a list no other than Memory.
pub fn encode_rows_to<S: RowSupply, W: TextSink>(
    alloc: Global,
    frame: &PictureFrame,
    parameters: &Parameters,
    step: u32,
    supply: &mut S,
    writer: &mut W,
) -> Result<(), Fault>
    requires step { 1 ≤ step }
    requires frame { IsPictureFrame frame.now }
    requires framed { S.framed supply.old ≡ frame.now }
    requires first { S.next supply.old ≡ frame.now.y0 }
    // All rows of a picture came. The whole file is passed on, byte for byte what encoding gives; it
    // means exactly the picture, and so do its layers.
    ensures ok { OnOk result ((p : Picture) × WereAllGiven S.gave frame.now supply.old supply.new p
        × (file : List ℕ) × (written p parameters.now ≡ Ok file)
        × W.took writer.old file writer.new
        × Means file 0 p × HasFronts p parameters.now file) }
    // What was passed on, however it ended: a fault is what the supply met, what is due of the picture,
    // Memory, or what the sink tells.
    ensures part { (text : List ℕ) × W.took writer.old text writer.new
        × IsWrittenOfBy W.tells S.gave S.met frame.now parameters.now supply.old supply.new text result }
{
    if let Err(fault) = parameters.check_frame(frame) {
        drop_rows(alloc, frame, step, supply)?;
        return Err(fault);
    }
    put_rows(alloc, frame, parameters, step, supply, writer)
}

/// What [`encode_rows_to`] gives, into a writer. The faults are those of the rows, and then those of
/// [`encode_into`](crate::encode_into).
pub fn encode_rows<S: RowSupply, W: Write>(
    alloc: Global,
    frame: &PictureFrame,
    parameters: &Parameters,
    step: u32,
    supply: &mut S,
    writer: &mut W,
) -> Result<(), Fault>
    requires step { 1 ≤ step }
    requires frame { IsPictureFrame frame.now }
    requires framed { S.framed supply.old ≡ frame.now }
    requires first { S.next supply.old ≡ frame.now.y0 }
    // All rows of a picture came. The whole file is written, byte for byte what encoding gives; it
    // means exactly the picture, and so do its layers.
    ensures ok { OnOk result ((p : Picture) × WereAllGiven S.gave frame.now supply.old supply.new p
        × (file : List ℕ) × (written p parameters.now ≡ Ok file)
        × Appends (W.contents writer.old) (W.contents writer.new) file
        × Means file 0 p × HasFronts p parameters.now file) }
    // What was written, however it ended.
    ensures part { (text : List ℕ) × Appends (W.contents writer.old) (W.contents writer.new) text
        × IsWrittenOf S.gave S.met frame.now parameters.now supply.old supply.new text result }
{
    let mut sink = TextWriter { writer };
    encode_rows_to(alloc, frame, parameters, step, supply, &mut sink)
}
