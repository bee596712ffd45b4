//! Decoding to a PGM or PPM file.

ghost use Rattle.std.specs.Prelude.{◌≡◌, ◌≤◌, Ok, Err, IfOk};
ghost use Rattle.jk_math.specs.Answer.{Answers};
ghost use Rattle.jk_math.specs.Picture.{Picture};
ghost use Rattle.jk_math.specs.declared.fault.Fault.TheVariants.{BadParameters};
ghost use Rattle.jk_pnm.specs.Pnm.{IsPnm};
ghost use Rattle.jk_pnm.specs.Written.{written as pnm_of};
ghost use Rattle.jk_code.specs.Meaning.{Means};
ghost use Rattle.jk_code.specs.MeaningReading.{meaning_at};
ghost use Rattle.jk_options.specs.Plans.{at_place};
ghost use Rattle.jk_commands.specs.Commands.{decoded};

use jk_code::decode;
use jk_math::{Fault, Image};
use std::alloc::Global;

/// The image that a file means. The file is let go of.
fn decode_image(alloc: Global, bytes: Vec<u8>, reduce: u32) -> Result<Image, Fault>
    ensures exact { Answers (λ i. i) result (meaning_at bytes.items reduce) }
    ensures found { IfOk result (λ i. Means bytes.items reduce i) }
    ensures only { (p : Picture) → Means bytes.items reduce p → Answers (λ i. i) result (Ok p) }
{
    decode(alloc, &bytes, reduce)
}

/// What `jk decode` writes of a file, a bare codestream or a JP2 file, at a reduction.
///
/// The first of the faults that `jk_code::decode` names; then Unsupported for an image that has no
/// PGM or PPM file. Before the output is made, the file is let go of.
#[tactic(auto, unfolding(crate::specs::Commands::decoded))]
pub fn decode_file(alloc: Global, bytes: Vec<u8>, reduce: u32) -> Result<Vec<u8>, Fault>
    // Which bytes, or which fault is the first.
    ensures exact { Answers (λ v. v.items) result (decoded bytes.items reduce) }
    // What is written is a PGM or PPM file of the picture that the file means.
    ensures found { IfOk result (λ v. (p : Picture) × Means bytes.items reduce p × IsPnm v.items (at_place p 0 0)) }
    // Of a file that means a picture, the picture's file is written.
    ensures only { (p : Picture) → Means bytes.items reduce p → Answers (λ v. v.items) result (pnm_of p) }
{
    let image = decode_image(alloc, bytes, reduce)?;
    jk_pnm::write(alloc, &image)
}

/// How many workers are asked for. BadParameters: none, or more than 64.
pub fn check_workers(workers: u32) -> Result<usize, Fault>
    ensures range { (1 ≤ workers → workers ≤ 64 → ⊥) → result ≡ Err BadParameters }
    ensures value { 1 ≤ workers → workers ≤ 64 → result ≡ Ok workers }
{
    if workers < 1 || 64 < workers {
        return Err(Fault::BadParameters);
    }
    Ok(workers as usize)
}
