//! Encoding a PGM or PPM file.

ghost use Rattle.std.specs.Prelude.{◌≡◌, ℕ, List, Ok, IfOk, OnOk};
ghost use Rattle.std.specs.Io.KnownBytes.{Appends};
ghost use Rattle.jk_math.specs.Answer.{Answers};
ghost use Rattle.jk_math.specs.Picture.{Picture};
ghost use Rattle.jk_pnm.specs.Pnm.{IsPnm};
ghost use Rattle.jk_pnm.specs.Reading.{pnm_at};
ghost use Rattle.jk_code.specs.Meaning.{Means};
ghost use Rattle.jk_options.specs.Plans.{at_place};
ghost use Rattle.jk_commands.specs.Commands.{encoded};
ghost use Rattle.jk_commands.specs.Written.{LeftOf};

use jk_code::{encode, encode_into};
use jk_math::{Fault, Image};
use jk_options::Plan;
use std::alloc::Global;
use std::io::Write;

/// The image of a PGM or PPM file, as `jk_pnm::read` gives it. The file is let go of, one of grey
/// samples of a byte while they are made.
pub fn read_image(alloc: Global, bytes: Vec<u8>) -> Result<Image, Fault>
    ensures exact { Answers (λ i. i) result (pnm_at bytes.items) }
    // What is read is a file of this image.
    ensures found { IfOk result (λ i. IsPnm bytes.items i) }
    // A file of an image is read.
    ensures only { (p : Picture) → IsPnm bytes.items p → Answers (λ i. i) result (Ok p) }
{
    jk_pnm::read_owned(alloc, bytes)
}

/// What `jk encode` writes of a PGM or PPM file.
///
/// The first of these faults: BadPnm, as `jk_pnm::read` names it; BadParameters where the image may
/// not stand at its place, and where image and parameters aren't in the profile; Limit. Before the
/// image is encoded, the file is let go of.
#[tactic(auto, unfolding(crate::specs::Commands::encoded, jk_options::specs::Plans::placing))]
pub fn encode_file(alloc: Global, bytes: Vec<u8>, plan: Plan) -> Result<Vec<u8>, Fault>
    // Which bytes, or which fault is the first.
    ensures exact { Answers (λ v. v.items) result (encoded bytes.items plan) }
    // Of a file of a picture, what is written means exactly that picture, placed as it is asked
    // for.
    ensures means { (p : Picture) → IsPnm bytes.items p
        → IfOk result (λ v. Means v.items 0 (at_place p plan.x0 plan.y0)) }
    // Nothing is written of other bytes.
    ensures found { IfOk result (λ v. (p : Picture) × IsPnm bytes.items p
        × Means v.items 0 (at_place p plan.x0 plan.y0)) }
{
    let image = read_image(alloc, bytes)?;
    let placed = plan.place(image)?;
    encode(alloc, &placed.image, &placed.parameters)
}

/// Writes what `jk encode` makes of a PGM or PPM file, tile by tile: the bytes that [`encode_file`]
/// gives.
///
/// The faults are those of [`encode_file`] in their order, and Shelf: a write failed or took
/// nothing. Nothing is written after BadPnm and BadParameters; after Limit, Memory and Shelf what
/// `jk_code::encode_into` leaves. Before the image is encoded, the file is let go of.
pub fn encode_file_into<W: Write>(
    alloc: Global,
    bytes: Vec<u8>,
    plan: Plan,
    writer: &mut W,
) -> Result<(), Fault>
    // The whole file is written, byte for byte.
    ensures ok { OnOk result ((file : List ℕ) × (encoded bytes.items plan ≡ Ok file)
        × Appends (W.contents writer.old) (W.contents writer.new) file) }
    // Of a file of a picture, it means exactly that picture, placed as it is asked for.
    ensures means { (p : Picture) → IsPnm bytes.items p
        → OnOk result ((file : List ℕ) → encoded bytes.items plan ≡ Ok file
        → Means file 0 (at_place p plan.x0 plan.y0)) }
    // Nothing is written of other bytes.
    ensures found { OnOk result ((p : Picture) × IsPnm bytes.items p) }
    // What was written, however it ended.
    ensures part { (text : List ℕ) × Appends (W.contents writer.old) (W.contents writer.new) text
        × LeftOf bytes.items plan text result }
{
    let image = read_image(alloc, bytes)?;
    let placed = plan.place(image)?;
    encode_into(alloc, &placed.image, &placed.parameters, writer)
}
