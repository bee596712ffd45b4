//! What a file keeps beside the samples, told and given.

ghost use Rattle.std.specs.Prelude.{◌≡◌, ◌⊎◌, ℕ, List, Ok, Err, IfOk, IfErr, take};
ghost use Rattle.jk_math.specs.Answer.{Answers};
ghost use Rattle.jk_math.specs.Picture.{Picture};
ghost use Rattle.jk_boxes.specs.Boxes.{IsJp2};
ghost use Rattle.jk_extras.specs.Texts.{HasTold, extras_text};
ghost use Rattle.jk_code.specs.Meaning.{Means};
ghost use Rattle.jk_c.specs.Answers.{HandsOutOrMemory, room};
ghost use Rattle.jk_c.specs.Codes.{done_code};
ghost use Rattle.jk_c.specs.Keeping.{GivesKept, IsFileGiven};

use crate::answers::hand_out;
use jk_extras::{extras_text, read_extras, with_extras};
use jk_math::Fault;
use std::alloc::Global;

/// What a file keeps beside the samples, as boxes one after another: its colour specification, its
/// resolutions, and its boxes of XML and under UUIDs. The faults are those of
/// `jk_extras::extras_text`; Short: the room is too small, and `made` tells how much is needed.
#[unsafe(no_mangle)]
pub extern "C" fn jk_extras(alloc: Global, file: &[u8], out: &mut [u8], made: &mut usize) -> u32
    // Which bytes, or which fault is the first.
    ensures exact { HandsOutOrMemory (extras_text file.now) (room out.old made.old) result (room out.new made.new) }
    // They are what is told of a JP2 file, and all of its boxes of XML and under UUIDs.
    ensures found { result ≡ done_code → (codestream : List ℕ) (j : IsJp2 file.now codestream)
        → HasTold j (take made.new out.new) }
{
    let boxes = extras_text(alloc, file);
    hand_out(boxes, out, made)
}

/// A file with what boxes say.
fn dressed(alloc: Global, file: &[u8], boxes: &[u8]) -> Result<Vec<u8>, Fault>
    ensures exact { IsFileGiven boxes.now file.now result }
    ensures means { (reduce : ℕ) (p : Picture) → Means file.now reduce p → IfOk result (λ v. Means v.items reduce p) }
{
    let extras = read_extras(alloc, boxes)?;
    with_extras(alloc, file, &extras)
}

/// A JP2 file with what boxes say, one after another, that it is to keep beside the samples, as
/// `jk_extras` tells it. The faults are those of `jk_extras::read_extras`, then those of
/// `jk_extras::with_extras`; Short: the room is too small, and `made` tells how much is needed.
#[unsafe(no_mangle)]
pub extern "C" fn jk_with_extras(
    alloc: Global,
    file: &[u8],
    boxes: &[u8],
    out: &mut [u8],
    made: &mut usize,
) -> u32
    // Which bytes, or which fault is the first.
    ensures exact { GivesKept boxes.now file.now (room out.old made.old) result (room out.new made.new) }
    // They mean what the file means, at each reduction.
    ensures means { result ≡ done_code → (reduce : ℕ) (p : Picture) → Means file.now reduce p
        → Means (take made.new out.new) reduce p }
{
    let file = dressed(alloc, file, boxes);
    hand_out(file, out, made)
}
