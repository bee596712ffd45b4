//! Encoding a PGM or PPM file as it is read: neither the file nor its image is ever whole in memory.

ghost use Rattle.std.specs.Prelude.{◌≡◌, ◌+◌, ◌*◌, ◌<◌, ◌≤◌, ◌⊎◌, ◌++◌, ℕ, List, [], true, false, Ok, Err, IfOk, IfErr, IfSome, OnOk, None, length, take, drop};
ghost use Rattle.std.specs.Io.KnownBytes.{Appends, Consumes, IsAtEnd};
ghost use Rattle.jk_math.specs.Answer.{Answers};
ghost use Rattle.jk_math.specs.Memory.{IsMemory};
ghost use Rattle.jk_math.specs.declared.fault.Fault.{Fault};
ghost use Rattle.jk_math.specs.declared.fault.Fault.TheVariants.{Shelf, BadPnm, BadParameters};
ghost use Rattle.jk_math.specs.Picture.{Picture};
ghost use Rattle.jk_params.specs.PictureFrames.{IsPictureFrame};
ghost use Rattle.jk_pnm.specs.Pnm.{IsPnm};
ghost use Rattle.jk_pnm.specs.Reading.{header_at, picture_at};
ghost use Rattle.jk_pnm.specs.Heads.{row_bytes, with_rows};
ghost use Rattle.jk_pnm.specs.RasterRows.{drawn};
ghost use Rattle.jk_code.specs.Meaning.{Means};
ghost use Rattle.jk_code.specs.Written.{written};
ghost use Rattle.jk_options.specs.Plans.{at_place};
ghost use Rattle.jk_commands.specs.Commands.{encoded};
ghost use Rattle.jk_commands.specs.Written.{LeftOf};
ghost use Rattle.jk_files.specs.Incoming.{waiting_of, Took};
ghost use Rattle.jk_commands.specs.RowStreaming.{frame_placed, with_raster, WereRead, WereRefused, HasRaster, HasNoHead, IsLeftOfStream, HasAll, IsLeftOfIncoming, IsLeftOfSource};

use crate::encoding_rows::stripe_end;
use crate::encoding_rows_by::encode_rows_by;
use jk_code::{RowSupply, Team};
use jk_files::{Incoming, Intake};
use jk_jobs::Gate;
use jk_math::{Fault, Image};
use jk_options::{PlacedFrame, Plan};
use jk_params::PictureFrame;
use jk_pnm::{RasterHead, no_header, read_head};
use jk_tile::Workers;
use std::alloc::Global;
use std::io::{Read, Write};
use std::marker::Sync;
use std::thread::Threads;

/// Whether so many bytes come, which wait then.
fn are_there<S: Read>(incoming: &mut Incoming<'_, S>, count: usize) -> Result<bool, Fault>
    ensures took { OnOk result (Took S.remaining incoming.old incoming.new []) }
    ensures there { IfOk result (λ there. there ≡ true → count ≤ length (waiting_of incoming.new)) }
    ensures ended { IfOk result (λ there. there ≡ false → IsAtEnd (S.remaining incoming.new.source.now)
        × (length (waiting_of incoming.new) < count)) }
    ensures fault { IfErr result (λ e. IsMemory e ⊎ (e ≡ Shelf)) }
{
    match incoming.fill(count) {
        Ok(there) => Ok(there),
        Err(refusal) => Err(refusal.fault()),
    }
}

/// Behind the last row of a raster there is no byte: where that was taken, this is looked at.
fn expect_end<S: Read>(incoming: &mut Incoming<'_, S>, last: bool) -> Result<(), Fault>
    ensures more { IfErr result (λ e. e ≡ BadPnm → (last ≡ true) × Took S.remaining incoming.old incoming.new []
        × (0 < length (waiting_of incoming.new))) }
    ensures took { OnOk result (Took S.remaining incoming.old incoming.new []) }
    ensures ended { OnOk result (last ≡ true → IsAtEnd (S.remaining incoming.new.source.now)
        × (waiting_of incoming.new ≡ [])) }
    ensures fault { IfErr result (λ e. IsMemory e ⊎ (e ≡ Shelf) ⊎ (e ≡ BadPnm)) }
{
    if last && are_there(incoming, 1)? {
        return Err(Fault::BadPnm);
    }
    Ok(())
}

/// How many bytes so many rows of a raster have.
fn size_of_rows(head: &RasterHead, count: u32) -> usize
    requires { count ≤ head.now.height }
    ensures { result ≡ count * row_bytes head.now }
{
    let _frame = head.frame();
    count as usize * head.row_size()
}

/// So many rows, whose bytes are the first that wait.
fn waiting_rows<S: Read>(
    alloc: Global,
    head: &RasterHead,
    incoming: &Incoming<'_, S>,
    count: u32,
) -> Result<Image, Fault>
    requires some { 0 < count }
    requires inside { count ≤ head.now.height }
    requires there { count * row_bytes head.now ≤ length (waiting_of incoming.now) }
    ensures { Answers (λ i. i) result
        (picture_at (with_rows head.now count) (take (count * row_bytes head.now) (waiting_of incoming.now))) }
{
    let size = size_of_rows(head, count);
    head.rows(alloc, count, &incoming.waiting()[..size])
}

/// Rows `y` up to `z` of a raster, as an image of their own at (0, 0).
fn next_rows<S: Read>(
    alloc: Global,
    head: &RasterHead,
    incoming: &mut Incoming<'_, S>,
    y: u32,
    z: u32,
) -> Result<Image, Fault>
    requires order { y < z }
    requires inside { z ≤ head.now.height }
    ensures read { IfOk result (λ v. WereRead S.remaining head.now y z incoming.old v incoming.new) }
    ensures fault { IfErr result (λ e. IsMemory e ⊎ WereRefused S.remaining head.now y incoming.old e incoming.new) }
{
    let size = size_of_rows(head, z - y);
    if !are_there(incoming, size)? {
        return Err(Fault::BadPnm);
    }
    let rows = waiting_rows(alloc, head, incoming, z - y)?;
    incoming.take(size);
    expect_end(incoming, z == head.frame().height)?;
    Ok(rows)
}

/// What gives the rows of the image of a file that is being read, with its upper left sample at
/// (`x0`, `y0`), of which the first ones were given.
#[derive(Drop)]
struct StreamRows<'b, 'a, S> {
    head: RasterHead,
    incoming: &'b mut Incoming<'a, S>,
    x0: u32,
    y0: u32,
    given: u32,
}

impl<'b, 'a, S: Read> RowSupply for StreamRows<'b, 'a, S> {
    ghost use Rattle.std.specs.Prelude.{◌+◌};
    ghost use Rattle.jk_commands.specs.RowStreaming.{frame_placed, HasStreamed, HasStopped};

    ghost framed = { λ s. frame_placed s.head s.x0 s.y0 };

    ghost next = { λ s. s.y0 + s.given };

    ghost gave = { HasStreamed S.remaining };

    ghost met = { HasStopped S.remaining };

    fn give(&mut self, alloc: Global, end: u32) -> Result<Image, Fault> {
        let from = self.given;
        let to = end - self.y0;
        let stripe = next_rows(alloc, &self.head, self.incoming, from, to)?;
        self.given = to;
        stripe.place(self.x0, self.y0 + from)
    }
}

/// The head of a file that begins with the bytes that wait, and how many bytes it has, where it is whole
/// there.
fn waiting_head<S: Read>(incoming: &Incoming<'_, S>) -> Option<(RasterHead, usize)>
    ensures found { IfSome result (λ x. (x.1 ≤ length (waiting_of incoming.now))
        × (header_at (waiting_of incoming.now) ≡ Ok (x.0, drop x.1 (waiting_of incoming.now)))) }
    ensures none { result ≡ None → header_at (waiting_of incoming.now) ≡ Err BadPnm }
{
    let bytes = incoming.waiting();
    match read_head(bytes) {
        Ok((head, raster)) => Some((head, bytes.len() - raster.len())),
        Err(_) => None,
    }
}

/// Whether the bytes that wait begin no header, whatever comes after them.
fn has_no_head<S: Read>(incoming: &Incoming<'_, S>) -> bool
    ensures { result ≡ true → (more : List ℕ) → header_at (waiting_of incoming.now ++ more) ≡ Err BadPnm }
{
    no_header(incoming.waiting()).is_some()
}

/// The head of a file, whose bytes are taken. No more of the file is read than tells whether it has
/// one.
///
/// BadPnm: the file has none.
fn head_of<S: Read>(incoming: &mut Incoming<'_, S>) -> Result<RasterHead, Fault>
    ensures found { IfOk result (λ head. (front : List ℕ) × Took S.remaining incoming.old incoming.new front
        × (header_at (front ++ waiting_of incoming.new) ≡ Ok (head, waiting_of incoming.new))) }
    ensures bad { IfErr result (λ e. e ≡ BadPnm → Took S.remaining incoming.old incoming.new []
        × HasNoHead S.remaining incoming.new) }
    ensures fault { IfErr result (λ e. IsMemory e ⊎ (e ≡ Shelf) ⊎ (e ≡ BadPnm)) }
{
    let mut asked = 1;
    loop {
        let there = are_there(incoming, asked)?;
        if let Some((head, size)) = waiting_head(incoming) {
            incoming.take(size);
            return Ok(head);
        }
        if !there || has_no_head(incoming) {
            return Err(Fault::BadPnm);
        }
        asked = incoming.waiting().len() * 2;
    }
}

/// The frame of the image of a file, with its upper left sample at (0, 0).
fn frame_of_head(head: &RasterHead) -> PictureFrame
    ensures value { result ≡ frame_placed head.now 0 0 }
    ensures frame { IsPictureFrame result }
{
    let frame = head.frame();
    PictureFrame {
        x0: 0,
        y0: 0,
        width: frame.width,
        height: frame.height,
        components: frame.components,
        depth: frame.depth,
        signed: frame.signed,
    }
}

/// Reads all rows and keeps none.
fn judge<S: Read>(
    alloc: Global,
    head: &RasterHead,
    incoming: &mut Incoming<'_, S>,
) -> Result<(), Fault>
    ensures ok { OnOk result ((bytes : List ℕ) × HasRaster S.remaining head.now incoming.old incoming.new bytes) }
    ensures err { IfErr result (λ e. IsMemory e ⊎ WereRefused S.remaining head.now 0 incoming.old e incoming.new) }
{
    let height = head.frame().height;
    let mut y = 0;
    while y < height {
        let end = stripe_end(y, height);
        next_rows(alloc, head, incoming, y, end)?;
        y = end;
    }
    Ok(())
}

/// Encodes the image of a file behind its head, at its place.
fn encode_placed<R: Threads + Sync, G: Gate + Sync, S: Read, W: Write>(
    team: &Team<'_, R, G>,
    alloc: Global,
    head: RasterHead,
    incoming: &mut Incoming<'_, S>,
    placed: &PlacedFrame,
    writer: &mut W,
) -> Result<(), Fault>
    requires place { placed.now.frame ≡ frame_placed head placed.now.frame.x0 placed.now.frame.y0 }
    requires frame { IsPictureFrame placed.now.frame }
    ensures ok { OnOk result ((bytes : List ℕ) × HasRaster S.remaining head incoming.old incoming.new bytes
        × (file : List ℕ)
        × (written (at_place (drawn (with_raster head bytes)) placed.now.frame.x0 placed.now.frame.y0) placed.now.parameters ≡ Ok file)
        × Appends (W.contents writer.old) (W.contents writer.new) file
        × Means file 0 (at_place (drawn (with_raster head bytes)) placed.now.frame.x0 placed.now.frame.y0)) }
    ensures part { (text : List ℕ) × Appends (W.contents writer.old) (W.contents writer.new) text
        × IsLeftOfStream S.remaining head placed.now.frame.x0 placed.now.frame.y0 placed.now.parameters
        incoming.old incoming.new text result }
{
    let mut rows = StreamRows {
        head,
        incoming,
        x0: placed.frame.x0,
        y0: placed.frame.y0,
        given: 0,
    };
    encode_rows_by(team, alloc, placed, &mut rows, writer)
}

/// Reads the rest of a file that is refused: where a read fails, that is told.
fn dropped<S: Read>(incoming: &mut Incoming<'_, S>) -> Result<(), Fault>
    ensures took { OnOk result ((bytes : List ℕ) × Took S.remaining incoming.old incoming.new bytes
        × (waiting_of incoming.new ≡ [])) }
    ensures ended { OnOk result (IsAtEnd (S.remaining incoming.new.source.now)) }
    ensures fault { IfErr result (λ e. IsMemory e ⊎ (e ≡ Shelf)) }
{
    match incoming.drain() {
        Ok(()) => Ok(()),
        Err(refusal) => Err(refusal.fault()),
    }
}

/// Encodes the image of a file that is read as far as its answer asks for.
fn encode_incoming<R: Threads + Sync, G: Gate + Sync, S: Read, W: Write>(
    team: &Team<'_, R, G>,
    alloc: Global,
    incoming: &mut Incoming<'_, S>,
    plan: Plan,
    writer: &mut W,
) -> Result<(), Fault>
    requires { waiting_of incoming.old ≡ [] }
    ensures ok { OnOk result ((input : List ℕ) × HasAll S.remaining incoming.old incoming.new input
        × (file : List ℕ) × (encoded input plan ≡ Ok file)
        × Appends (W.contents writer.old) (W.contents writer.new) file
        × ((p : Picture) → IsPnm input p → Means file 0 (at_place p plan.x0 plan.y0))) }
    ensures part { (text : List ℕ) × Appends (W.contents writer.old) (W.contents writer.new) text
        × IsLeftOfIncoming S.remaining plan incoming.old incoming.new text result }
{
    let head = head_of(incoming)?;
    match plan.place_frame(frame_of_head(&head)) {
        Ok(placed) => encode_placed(team, alloc, head, incoming, &placed, writer),
        Err(fault) => {
            judge(alloc, &head, incoming)?;
            Err(fault)
        }
    }
}

/// Whether this is said of a file that isn't what it should be.
fn is_bad(told: &Result<(), Fault>) -> bool
    ensures bad { result ≡ true → told.now ≡ Err BadPnm }
    ensures other { result ≡ false → told.now ≡ Err BadPnm → ⊥ }
{
    matches!(told, Err(Fault::BadPnm))
}

/// Encodes the image of a file that is read to its end, also where it is refused.
fn encode_to_end<R: Threads + Sync, G: Gate + Sync, S: Read, W: Write>(
    team: &Team<'_, R, G>,
    alloc: Global,
    incoming: &mut Incoming<'_, S>,
    plan: Plan,
    writer: &mut W,
) -> Result<(), Fault>
    requires { waiting_of incoming.old ≡ [] }
    ensures ok { OnOk result ((input : List ℕ) × HasAll S.remaining incoming.old incoming.new input
        × (file : List ℕ) × (encoded input plan ≡ Ok file)
        × Appends (W.contents writer.old) (W.contents writer.new) file
        × ((p : Picture) → IsPnm input p → Means file 0 (at_place p plan.x0 plan.y0))) }
    ensures part { (text : List ℕ) × Appends (W.contents writer.old) (W.contents writer.new) text
        × IsLeftOfSource S.remaining plan incoming.old incoming.new text result }
{
    let told = encode_incoming(team, alloc, incoming, plan, writer);
    if !is_bad(&told) {
        return told;
    }
    dropped(incoming)?;
    told
}

/// Writes what `jk encode` makes of a PGM or PPM file that is read, row by row: the bytes that
/// [`encode_file`](crate::encode_file) gives, with the memory of some rows and of what was coded. With
/// more than one worker they code the code-blocks of the rows before while the next ones are read, and
/// `gate` is told of these, as `jk_code::encode_rows_with` says it; one is this thread alone, which
/// tells nobody.
///
/// BadParameters, before all else: less than one worker or more than 64; nothing is read or written.
/// The other faults are those of [`encode_rows_into`](crate::encode_rows_into) in their order, and
/// before them Shelf: a read failed, or 2^32 of them were not enough for some rows. All of the file is
/// read before anything is written, and also where it is refused.
pub fn encode_rows_from<R: Threads + Sync, G: Gate + Sync, S: Read, W: Write>(
    rt: &R,
    alloc: Global,
    workers: usize,
    gate: &G,
    source: &mut S,
    plan: Plan,
    writer: &mut W,
) -> Result<(), Fault>
    ensures range { (1 ≤ workers → workers ≤ 64 → ⊥) → (result ≡ Err BadParameters)
        × (source.new ≡ source.old)
        × Appends (W.contents writer.old) (W.contents writer.new) [] }
    // All of a file was read, and its whole file is written, byte for byte.
    ensures ok { OnOk result ((input : List ℕ) × Consumes (S.remaining source.old) (S.remaining source.new) input
        × IsAtEnd (S.remaining source.new) × (file : List ℕ) × (encoded input plan ≡ Ok file)
        × Appends (W.contents writer.old) (W.contents writer.new) file
        × ((p : Picture) → IsPnm input p → Means file 0 (at_place p plan.x0 plan.y0))) }
    // What was read and written, however it ended.
    ensures part { 1 ≤ workers → workers ≤ 64
        → (text : List ℕ) × Appends (W.contents writer.old) (W.contents writer.new) text
        × (((input : List ℕ) × Consumes (S.remaining source.old) (S.remaining source.new) input
        × IsAtEnd (S.remaining source.new) × LeftOf input plan text result)
        ⊎ ((e : Fault) × (result ≡ Err e) × (IsMemory e ⊎ (e ≡ Shelf)) × (text ≡ []))) }
{
    if workers < 1 || 64 < workers {
        return Err(Fault::BadParameters);
    }
    let workers = Workers { rt, count: workers };
    let team = Team {
        workers: &workers,
        gate,
    };
    let intake = match Intake::new(alloc) {
        Ok(intake) => intake,
        Err(refusal) => return Err(refusal.fault()),
    };
    let mut incoming = Incoming::new(alloc, intake, source);
    let told = encode_to_end(&team, alloc, &mut incoming, plan, writer);
    incoming.end();
    told
}
