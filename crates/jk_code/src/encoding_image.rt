//! Encoding an image in memory: its rows are given one stripe below the other, or tile by tile.

ghost use Rattle.std.specs.Prelude.{◌≡◌, ℕ, List, ◌≤◌, true, Ok, Err, IfOk, OnOk};
ghost use Rattle.std.specs.Io.KnownBytes.{Appends};
ghost use Rattle.jk_math.specs.Answer.{Answers};
ghost use Rattle.jk_math.specs.declared.fault.Fault.TheVariants.{BadParameters};
ghost use Rattle.jk_math.specs.Picture.{IsPicture};
ghost use Rattle.jk_params.specs.PictureFrames.{frame_of};
ghost use Rattle.jk_params.specs.Profile.{is_profile_for, IsWrittenFor};
ghost use Rattle.jk_code.specs.Beginnings.{Left, LeftBy};
ghost use Rattle.jk_code.specs.Meaning.{Means};
ghost use Rattle.jk_code.specs.Fronts.{HasFronts};
ghost use Rattle.jk_code.specs.Written.{written};

use crate::coming::ComingImage;
use crate::contents::WrittenFrame;
use crate::encoding_rows::{open_coding, put_rows};
use crate::encoding_rows_with::put_rows_with;
use crate::image_rows::ImageRows;
use crate::image_tiles::{ImageTiles, coded_tile, needs_of_image};
use crate::tabled::coding_known;
use crate::team::Team;
use crate::tile_data::TileData;
use crate::writing::put_file;
use jk_jobs::Gate;
use jk_math::{Fault, Image};
use jk_params::{Parameters, PictureFrame, frame_of};
use jk_tile::{TextSink, TextWriter, Workers, exponents_with};
use std::alloc::Global;
use std::io::Write;
use std::marker::Sync;
use std::thread::Threads;

/// How many samples of a component a stripe has at least, but for the last one.
const SOME: u32 = 1 << 16;

/// How many rows are taken at a time.
fn step_for(frame: &PictureFrame) -> u32
    ensures { 1 ≤ result }
{
    (SOME / frame.width.max(1)).max(64)
}

/// The file of an image: a bare codestream or a JP2 file, as the parameters say.
///
/// BadParameters: an image and parameters outside the profile, as `Parameters::check` says. Limit:
/// a tile-part would be longer than 2^32 - 1 bytes. The box of the codestream has no such limit, as
/// its length may take eight bytes.
pub fn encode(alloc: Global, image: &Image, parameters: &Parameters) -> Result<Vec<u8>, Fault>
    // Which bytes, or which fault.
    ensures exact { Answers (λ v. v.items) result (written image.now parameters.now) }
    // The file means exactly the image.
    ensures means { IfOk result (λ v. Means v.items 0 image.now) }
    // With all layers but the first k empty, of L layers, it means the image that is rebuilt from
    // the coefficients, each without its L - k lowest bit-planes.
    ensures fronts { IfOk result (λ v. HasFronts image.now parameters.now v.items) }
{
    let frame = frame_of(image);
    parameters.check_frame(&frame)?;
    let mut rows = ImageRows::new(image);
    let mut out: Vec<u8> = Vec::new(alloc);
    put_rows(
        alloc,
        &frame,
        parameters,
        step_for(&frame),
        &mut rows,
        &mut out,
    )?;
    Ok(out)
}

/// What [`encode`] gives, with the code-blocks of each stripe coded side by side by so many workers,
/// as far as threads can be had.
///
/// `gate` is told of what they code, when it begins and when it has ended.
///
/// BadParameters, before all else: less than one worker or more than 64.
pub fn encode_with<R: Threads + Sync, G: Gate + Sync>(
    rt: &R,
    alloc: Global,
    workers: usize,
    gate: &G,
    image: &Image,
    parameters: &Parameters,
) -> Result<Vec<u8>, Fault>
    ensures range { (1 ≤ workers → workers ≤ 64 → ⊥) → result ≡ Err BadParameters }
    // Which bytes, or which fault.
    ensures exact { 1 ≤ workers → workers ≤ 64
        → Answers (λ v. v.items) result (written image.now parameters.now) }
    // The file means exactly the image.
    ensures means { IfOk result (λ v. Means v.items 0 image.now) }
    // With all layers but the first k empty, of L layers, it means the image that is rebuilt from
    // the coefficients, each without its L - k lowest bit-planes.
    ensures fronts { IfOk result (λ v. HasFronts image.now parameters.now v.items) }
{
    if workers < 1 || 64 < workers {
        return Err(Fault::BadParameters);
    }
    let frame = frame_of(image);
    parameters.check_frame(&frame)?;
    let team = Team {
        workers: &Workers { rt, count: workers },
        gate,
    };
    let mut rows = ImageRows::new(image);
    let mut out: Vec<u8> = Vec::new(alloc);
    put_rows_with(
        &team,
        alloc,
        &frame,
        parameters,
        step_for(&frame),
        &mut rows,
        &mut out,
    )?;
    Ok(out)
}

/// Writes the file of an image tile by tile, each coded when it is written. The packets of one tile are
/// held at a time.
fn put_image<W: TextSink>(
    alloc: Global,
    frame: &PictureFrame,
    image: &Image,
    parameters: &Parameters,
    writer: &mut W,
) -> Result<(), Fault>
    requires frame { frame.now ≡ frame_of image.now }
    requires picture { IsPicture image.now }
    requires profile { is_profile_for parameters.now frame.now ≡ true }
    requires written { IsWrittenFor parameters.now frame.now }
    ensures means { OnOk result ((file : List ℕ) → written image.now parameters.now ≡ Ok file
        → Means file 0 image.now × HasFronts image.now parameters.now file) }
    ensures part { (text : List ℕ) × W.took writer.old text writer.new
        × LeftBy W.tells image.now parameters.now text result }
{
    let coding = open_coding(parameters);
    let coming = ComingImage {
        frame: *frame,
        parameters,
        coding: &coding,
    };
    let tile = coded_tile(alloc, &coming, image, 0)?;
    let needs = needs_of_image(alloc, &coming, image, &tile)?;
    let exponents = exponents_with(frame.depth, parameters.levels, &needs);
    let known = coding_known(&coming, &exponents);
    let tiles = ImageTiles {
        coming,
        coding: &known,
        image,
    };
    let first = TileData::Packets(tiles.packets(alloc, 0, tile)?);
    let source = WrittenFrame {
        frame: *frame,
        parameters,
        exponents: &exponents,
    };
    put_file(alloc, &source, &tiles, first, writer)
}

/// Writes the file of an image, a bare codestream or a JP2 file as the parameters say: the bytes
/// that [`encode`](crate::encode) gives. The packets of one tile are held at a time.
///
/// All tiles but the first go down through the levels once for the exponents, and once more to be
/// coded. The front of a JP2 file says how long its codestream is: where there is more than one tile,
/// all but the first are coded once for that, and once more to be written.
///
/// BadParameters: an image and parameters outside the profile, as `Parameters::check` says; nothing
/// is written. Limit: a tile-part would be longer than 2^32 - 1 bytes; of a JP2 file nothing is
/// written, of a bare codestream what stands before the tile-part. Shelf: a write failed or took
/// nothing. After Memory and Shelf a beginning of the file is written.
pub fn encode_into<W: Write>(
    alloc: Global,
    image: &Image,
    parameters: &Parameters,
    writer: &mut W,
) -> Result<(), Fault>
    // The whole file is written, byte for byte what encoding gives.
    ensures ok { OnOk result
        ((file : List ℕ) × (written image.now parameters.now ≡ Ok file)
        × Appends (W.contents writer.old) (W.contents writer.new) file) }
    // It means exactly the image, and so do its layers.
    ensures means { OnOk result ((file : List ℕ) → written image.now parameters.now ≡ Ok file
        → Means file 0 image.now × HasFronts image.now parameters.now file) }
    // What was written, however it ended.
    ensures part { (text : List ℕ) × Appends (W.contents writer.old) (W.contents writer.new) text
        × Left image.now parameters.now text result }
{
    let frame = frame_of(image);
    parameters.check_frame(&frame)?;
    let mut sink = TextWriter { writer };
    put_image(alloc, &frame, image, parameters, &mut sink)
}
