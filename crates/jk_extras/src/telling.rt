//! What a file keeps, as boxes one after another.

ghost use Rattle.std.specs.Prelude.{◌≡◌, ◌++◌, List, ℕ, length, IfOk, OnOk, IfErr};
ghost use Rattle.jk_math.specs.Answer.{Answers};
ghost use Rattle.jk_math.specs.Memory.{IsMemory};
ghost use Rattle.jk_boxes.specs.Boxes.{IsJp2};
ghost use Rattle.jk_extras.specs.Texts.{HasTold, colour_after, resolution_text, others_from, extras_text};

use crate::finding::{Wanted, find, tell};
use crate::grids::Grid;
use crate::header::ToldColour;
use crate::putting::{put_grids, put_profile, put_space};
use crate::told::extras_at;
use jk_math::Fault;
use std::alloc::Global;

/// How many bytes of a profile are told at most.
const LARGEST: usize = 1 << 24;

/// Appends the colour specification box of a colour that a file tells.
#[tactic(auto, unfolding(crate::specs::Texts::colour_text))]
fn put_colour(out: &mut Vec<u8>, file: &[u8], colour: ToldColour) -> Result<(), Fault>
    ensures { Answers (λ _. out.new.items) result (colour_after out.old.items file.now colour) }
{
    match colour {
        ToldColour::Nothing => Ok(()),
        ToldColour::Enumerated(number) => put_space(out, number),
        ToldColour::Profile(start, end) => {
            if end < start || file.len() < end {
                return Err(Fault::BadBox);
            }
            let profile = &file[start..end];
            if profile.len() > LARGEST {
                return Err(Fault::Limit);
            }
            put_profile(out, profile)
        }
    }
}

/// Appends the resolution box of resolutions that a file tells, where there is one.
fn put_resolution(
    out: &mut Vec<u8>,
    capture: &Option<Grid>,
    display: &Option<Grid>,
) -> Result<(), Fault>
    ensures ok { OnOk result (out.new.items ≡ out.old.items ++ resolution_text capture.now display.now) }
    ensures err { IfErr result (λ e. IsMemory e) }
{
    if capture.is_none() && display.is_none() {
        return Ok(());
    }
    put_grids(out, capture, display)
}

/// Appends the boxes of XML and under UUIDs of a file, from a place on.
fn put_others(out: &mut Vec<u8>, file: &[u8], from: usize) -> Result<(), Fault>
    ensures { Answers (λ _. out.new.items) result (others_from (length file.now) out.old.items from file.now) }
{
    let mut at = from;
    while at < file.len() {
        let found = match find(file, at, Wanted::Others)? {
            Some(found) => found,
            None => return Ok(()),
        };
        tell(found)?;
        at = found.at + found.head.size;
        out.extend_from_slice(&file[found.at..at])?;
    }
    Ok(())
}

#[tactic(auto, unfolding(crate::specs::Texts::extras_text))]
fn text(alloc: Global, file: &[u8]) -> Result<Vec<u8>, Fault>
    ensures { Answers (λ v. v.items) result (extras_text file.now) }
{
    let told = extras_at(file)?;
    let mut out = Vec::new(alloc);
    put_colour(&mut out, file, told.colour)?;
    put_resolution(&mut out, &told.capture, &told.display)?;
    put_others(&mut out, file, told.others)?;
    Ok(out)
}

/// What a file keeps beside the samples, as boxes one after another: the colour specification that
/// is told, the resolutions that are told, and the boxes of XML and under UUIDs in their order. It
/// is what `read_extras` takes.
///
/// The first of these: the faults of `extras_at`; Limit, a profile of more than 2^24 bytes; the
/// faults of `other_after`.
pub fn extras_text(alloc: Global, file: &[u8]) -> Result<Vec<u8>, Fault>
    ensures exact { Answers (λ v. v.items) result (extras_text file.now) }
    // It has what is told, and all boxes of XML and under UUIDs.
    ensures found { (codestream : List ℕ) (j : IsJp2 file.now codestream) → IfOk result (λ v. HasTold j v.items) }
{
    text(alloc, file)
}
