//! Files with what they are to keep beside the samples.

ghost use Rattle.std.specs.Prelude.{◌≡◌, ◌≤◌, ℕ, not, length, List, Option, Ok, Err, IfOk, OnOk};
ghost use Rattle.std.specs.Io.KnownBytes.{Appends};
ghost use Rattle.jk_math.specs.Answer.{Answers, refuse};
ghost use Rattle.jk_math.specs.Picture.{Picture};
ghost use Rattle.jk_math.specs.declared.fault.Fault.TheVariants.{BadParameters};
ghost use Rattle.jk_pnm.specs.Pnm.{IsPnm};
ghost use Rattle.jk_extras.specs.Extras.{is_extras};
ghost use Rattle.jk_extras.specs.Placing.{with_extras_at};
ghost use Rattle.jk_code.specs.Meaning.{Means, MeansLayers};
ghost use Rattle.jk_options.specs.Plans.{at_place};
ghost use Rattle.jk_commands.specs.Dressing.{picture_encoded_with, encoded_with, IsSentOf};

use crate::encoding::read_image;
use jk_code::{encode, encode_with};
use jk_extras::{Extras, judge, with_extras};
use jk_jobs::Gate;
use jk_math::{Fault, Image, write_out};
use jk_options::Plan;
use std::alloc::Global;
use std::io::Write;
use std::thread::Threads;

/// What `jk dress` writes of a file: the file with what it is to keep, as `jk_extras::with_extras`
/// makes it. The faults are those of that call.
pub fn dress_file(alloc: Global, bytes: &[u8], extras: &Extras) -> Result<Vec<u8>, Fault>
    ensures exact { Answers (λ v. v.items) result (with_extras_at extras.now bytes.now) }
    // It means what the file means, at each reduction and in as many layers.
    ensures means { (reduce : ℕ) (layers : Option ℕ) (p : Picture) → MeansLayers bytes.now reduce layers p
        → IfOk result (λ v. MeansLayers v.items reduce layers p) }
{
    with_extras(alloc, bytes, extras)
}

/// How many components an image has.
pub fn components_of(image: &Image) -> u16
    ensures { result ≡ length image.now.planes }
{
    // That there are few, the width's contract says too.
    let _width = image.width();
    image.planes().len() as u16
}

/// Judges what the file of an image is to keep. BadParameters: as `jk_extras::judge` has it.
fn judge_for(extras: &Extras, image: &Image) -> Result<(), Fault>
    ensures { result ≡ refuse (not (is_extras (length image.now.planes) extras.now)) BadParameters }
{
    judge(extras, components_of(image))
}

/// The file of an image that is to keep something beside the samples.
///
/// The first of these faults: BadParameters, what `jk_extras::judge` refuses by the number of
/// components of the image; BadParameters and Limit, as [`encode_file`](crate::encode_file) has them
/// behind BadPnm; those of [`dress_file`], of which BadParameters is answered for a bare codestream.
#[tactic(auto, unfolding(crate::specs::Dressing::picture_encoded_with, jk_options::specs::Plans::placing))]
pub fn encode_image_dressed(
    alloc: Global,
    image: Image,
    plan: Plan,
    extras: &Extras,
) -> Result<Vec<u8>, Fault>
    // Which bytes, or which fault is the first.
    ensures exact { Answers (λ v. v.items) result (picture_encoded_with extras.now image plan) }
    // It means exactly the image, placed as it is asked for.
    ensures means { IfOk result (λ v. Means v.items 0 (at_place image plan.x0 plan.y0)) }
{
    judge_for(extras, &image)?;
    let placed = plan.place(image)?;
    let file = encode(alloc, &placed.image, &placed.parameters)?;
    dress_file(alloc, &file, extras)
}

/// What `jk encode` writes of a PGM or PPM file that is to keep something beside the samples.
///
/// The first of these faults: BadPnm, as `jk_pnm::read` names it; those of
/// [`encode_image_dressed`].
pub fn encode_file_dressed(
    alloc: Global,
    bytes: Vec<u8>,
    plan: Plan,
    extras: &Extras,
) -> Result<Vec<u8>, Fault>
    // Which bytes, or which fault is the first.
    ensures exact { Answers (λ v. v.items) result (encoded_with extras.now bytes.items plan) }
    // Of a file of a picture, what is written means exactly that picture, placed as it is asked
    // for.
    ensures means { (p : Picture) → IsPnm bytes.items p
        → IfOk result (λ v. Means v.items 0 (at_place p plan.x0 plan.y0)) }
    // Nothing is written of other bytes.
    ensures found { IfOk result (λ v. (p : Picture) × IsPnm bytes.items p
        × Means v.items 0 (at_place p plan.x0 plan.y0)) }
{
    let image = read_image(alloc, bytes)?;
    encode_image_dressed(alloc, image, plan, extras)
}

/// The file of an image that is to keep something beside the samples, coded by so many workers side
/// by side: what [`encode_image_dressed`] gives, and its first fault.
///
/// BadParameters, before all else: less than one worker or more than 64.
#[tactic(auto, unfolding(crate::specs::Dressing::picture_encoded_with, jk_options::specs::Plans::placing))]
pub fn encode_image_dressed_with<R: Threads + Sync, G: Gate + Sync>(
    rt: &R,
    alloc: Global,
    workers: usize,
    gate: &G,
    image: Image,
    plan: Plan,
    extras: &Extras,
) -> Result<Vec<u8>, Fault>
    ensures range { (1 ≤ workers → workers ≤ 64 → ⊥) → result ≡ Err BadParameters }
    // Which bytes, or which fault is the first.
    ensures exact { 1 ≤ workers → workers ≤ 64
        → Answers (λ v. v.items) result (picture_encoded_with extras.now image plan) }
    // It means exactly the image, placed as it is asked for.
    ensures means { IfOk result (λ v. Means v.items 0 (at_place image plan.x0 plan.y0)) }
{
    if workers < 1 || 64 < workers {
        return Err(Fault::BadParameters);
    }
    judge_for(extras, &image)?;
    let placed = plan.place(image)?;
    let file = encode_with::<R, G>(rt, alloc, workers, gate, &placed.image, &placed.parameters)?;
    dress_file(alloc, &file, extras)
}

/// Writes the file of an image that is to keep something beside the samples: the bytes that
/// [`encode_image_dressed`] gives. The whole file is held.
///
/// The first of these: the faults of that call, and nothing is written; Shelf, a write failed or
/// took nothing, and a beginning of the file is written.
pub fn encode_image_dressed_into<W: Write>(
    alloc: Global,
    image: Image,
    plan: Plan,
    extras: &Extras,
    writer: &mut W,
) -> Result<(), Fault>
    // The whole file is written.
    ensures ok { OnOk result ((file : List ℕ) × (picture_encoded_with extras.now image plan ≡ Ok file)
        × Appends (W.contents writer.old) (W.contents writer.new) file) }
    // It means exactly the image, placed as it is asked for.
    ensures means { OnOk result ((file : List ℕ) → picture_encoded_with extras.now image plan ≡ Ok file
        → Means file 0 (at_place image plan.x0 plan.y0)) }
    // What was written, however it ended.
    ensures part { (text : List ℕ) × Appends (W.contents writer.old) (W.contents writer.new) text
        × IsSentOf (picture_encoded_with extras.now image plan) text result }
{
    let file = encode_image_dressed(alloc, image, plan, extras)?;
    if !write_out(writer, &file) {
        return Err(Fault::Shelf);
    }
    Ok(())
}

/// What `jk encode` writes of a PGM or PPM file that is to keep something beside the samples, coded
/// by so many workers side by side: what [`encode_file_dressed`] gives, and its first fault.
///
/// BadParameters, before all else: less than one worker or more than 64.
pub fn encode_file_dressed_with<R: Threads + Sync, G: Gate + Sync>(
    rt: &R,
    alloc: Global,
    workers: usize,
    gate: &G,
    bytes: Vec<u8>,
    plan: Plan,
    extras: &Extras,
) -> Result<Vec<u8>, Fault>
    ensures range { (1 ≤ workers → workers ≤ 64 → ⊥) → result ≡ Err BadParameters }
    // Which bytes, or which fault is the first.
    ensures exact { 1 ≤ workers → workers ≤ 64
        → Answers (λ v. v.items) result (encoded_with extras.now bytes.items plan) }
    // Of a file of a picture, what is written means exactly that picture, placed as it is asked
    // for.
    ensures means { (p : Picture) → IsPnm bytes.items p
        → IfOk result (λ v. Means v.items 0 (at_place p plan.x0 plan.y0)) }
    // Nothing is written of other bytes.
    ensures found { IfOk result (λ v. (p : Picture) × IsPnm bytes.items p
        × Means v.items 0 (at_place p plan.x0 plan.y0)) }
{
    if workers < 1 || 64 < workers {
        return Err(Fault::BadParameters);
    }
    let image = read_image(alloc, bytes)?;
    encode_image_dressed_with::<R, G>(rt, alloc, workers, gate, image, plan, extras)
}
