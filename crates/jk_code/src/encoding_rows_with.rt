//! Encoding row by row with workers.

ghost use Rattle.std.specs.Prelude.{◌≡◌, ℕ, ◌+◌, ◌≤◌, List, true, Ok, OnOk};
ghost use Rattle.std.specs.Io.KnownBytes.{Appends};
ghost use Rattle.jk_math.specs.Picture.{Picture};
ghost use Rattle.jk_params.specs.PictureFrames.{IsPictureFrame};
ghost use Rattle.jk_params.specs.Profile.{is_profile_for, IsWrittenFor};
ghost use Rattle.jk_code.specs.Meaning.{Means};
ghost use Rattle.jk_code.specs.Fronts.{HasFronts};
ghost use Rattle.jk_code.specs.Written.{written};
ghost use Rattle.jk_code.specs.RowsWritten.{WereAllGiven, IsWrittenOf, IsWrittenOfBy};

use crate::coming::ComingImage;
use crate::coming_with::fallen_tiles_with;
use crate::encoding_rows::{RowSupply, drop_rows, open_coding, put_tiles};
use crate::team::Team;
use jk_jobs::Gate;
use jk_math::Fault;
use jk_params::{Parameters, PictureFrame};
use jk_tile::{TextSink, TextWriter};
use std::alloc::Global;
use std::io::Write;
use std::marker::Sync;
use std::thread::Threads;

/// Codes the rows of an image and writes its file.
pub(crate) fn put_rows_with<R: Threads + Sync, G: Gate + Sync, S: RowSupply, W: TextSink>(
    team: &Team<'_, R, G>,
    alloc: Global,
    frame: &PictureFrame,
    parameters: &Parameters,
    step: u32,
    supply: &mut S,
    writer: &mut W,
) -> Result<(), Fault>
    requires step { 1 ≤ step }
    requires frame { IsPictureFrame frame.now }
    requires profile { is_profile_for parameters.now frame.now ≡ true }
    requires written { IsWrittenFor parameters.now frame.now }
    requires framed { S.framed supply.old ≡ frame.now }
    requires first { S.next supply.old ≡ frame.now.y0 }
    ensures ok { OnOk result ((p : Picture) × WereAllGiven S.gave frame.now supply.old supply.new p
        × (file : List ℕ) × (written p parameters.now ≡ Ok file)
        × W.took writer.old file writer.new
        × Means file 0 p × HasFronts p parameters.now file) }
    ensures part { (text : List ℕ) × W.took writer.old text writer.new
        × IsWrittenOfBy W.tells S.gave S.met frame.now parameters.now supply.old supply.new text result }
{
    let coding = open_coding(parameters);
    let coming = ComingImage {
        frame: *frame,
        parameters,
        coding: &coding,
    };
    let tiles = fallen_tiles_with(team, alloc, &coming, step, supply)?;
    put_tiles(alloc, &coming, tiles, writer)
}

/// What [`encode_rows_to`](crate::encode_rows_to) gives, with workers who code the code-blocks of
/// a stripe side by side while the next one is taken and goes down through the levels; `supply` gives
/// it in the thread that calls, which then codes too. It takes the memory of the code-blocks of three
/// stripes beside that.
///
/// The gate of `team` is told of each code-block that the workers code, when it begins and when it has
/// ended: its number is that among those of its stripe. Small code-blocks are told of together: as many
/// as have 4096 coefficients, or the share of a worker where that is less.
pub fn encode_rows_with_to<R: Threads + Sync, G: Gate + Sync, S: RowSupply, W: TextSink>(
    team: &Team<'_, R, G>,
    alloc: Global,
    frame: &PictureFrame,
    parameters: &Parameters,
    step: u32,
    supply: &mut S,
    writer: &mut W,
) -> Result<(), Fault>
    requires step { 1 ≤ step }
    requires frame { IsPictureFrame frame.now }
    requires framed { S.framed supply.old ≡ frame.now }
    requires first { S.next supply.old ≡ frame.now.y0 }
    // All rows of a picture came. The whole file is passed on, byte for byte what encoding gives; it
    // means exactly the picture, and so do its layers.
    ensures ok { OnOk result ((p : Picture) × WereAllGiven S.gave frame.now supply.old supply.new p
        × (file : List ℕ) × (written p parameters.now ≡ Ok file)
        × W.took writer.old file writer.new
        × Means file 0 p × HasFronts p parameters.now file) }
    // What was passed on, however it ended: a fault is what the supply met, what is due of the picture,
    // Memory, or what the sink tells.
    ensures part { (text : List ℕ) × W.took writer.old text writer.new
        × IsWrittenOfBy W.tells S.gave S.met frame.now parameters.now supply.old supply.new text result }
{
    if let Err(fault) = parameters.check_frame(frame) {
        drop_rows(alloc, frame, step, supply)?;
        return Err(fault);
    }
    put_rows_with(team, alloc, frame, parameters, step, supply, writer)
}

/// What [`encode_rows_with_to`] gives, into a writer.
pub fn encode_rows_with<R: Threads + Sync, G: Gate + Sync, S: RowSupply, W: Write>(
    team: &Team<'_, R, G>,
    alloc: Global,
    frame: &PictureFrame,
    parameters: &Parameters,
    step: u32,
    supply: &mut S,
    writer: &mut W,
) -> Result<(), Fault>
    requires step { 1 ≤ step }
    requires frame { IsPictureFrame frame.now }
    requires framed { S.framed supply.old ≡ frame.now }
    requires first { S.next supply.old ≡ frame.now.y0 }
    // All rows of a picture came. The whole file is written, byte for byte what encoding gives; it
    // means exactly the picture, and so do its layers.
    ensures ok { OnOk result ((p : Picture) × WereAllGiven S.gave frame.now supply.old supply.new p
        × (file : List ℕ) × (written p parameters.now ≡ Ok file)
        × Appends (W.contents writer.old) (W.contents writer.new) file
        × Means file 0 p × HasFronts p parameters.now file) }
    // What was written, however it ended.
    ensures part { (text : List ℕ) × Appends (W.contents writer.old) (W.contents writer.new) text
        × IsWrittenOf S.gave S.met frame.now parameters.now supply.old supply.new text result }
{
    let mut sink = TextWriter { writer };
    encode_rows_with_to(team, alloc, frame, parameters, step, supply, &mut sink)
}
