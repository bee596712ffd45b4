//! Assembling the file of a window from parts of the stored one.

ghost use Rattle.std.specs.Prelude.{◌≡◌, ℕ, List, IfOk, IfErr};
ghost use Rattle.jk_window.specs.Planning.{plan_text};
ghost use Rattle.jk_store.specs.PartsGiven.{size_of, GivenPart, HasParts, PartsRead, PartsRefused};

use crate::entry::Entry;
use crate::hashed::HashedParts;
use crate::reading::{Reading, put_stretch};
use crate::shelf::Shelf;
use jk_math::Fault;
use jk_window::CutPlan;
use std::alloc::Global;

/// The file that a plan makes of an entry's file, of which the parts that the plan needs are read.
pub(crate) fn assemble<S: Shelf>(
    alloc: Global,
    entry: &Entry,
    shelf: &mut S,
    hashed: &mut HashedParts,
    plan: &CutPlan,
) -> Result<Vec<u8>, Fault>
    requires { plan.now.size ≡ size_of entry.now }
    ensures read { IfOk result
        (λ v. (given : List GivenPart) × PartsRead S.keeps S.gave_at S.failed entry.now shelf.old given shelf.new
        × ((f : List ℕ) → HasParts given f → v.items ≡ plan_text f plan.now)) }
    ensures refused { IfErr result (λ x. PartsRefused S.keeps S.gave_at S.failed entry.now shelf.old x shelf.new) }
{
    let steps = plan.steps();
    let written = plan.written();
    let mut reading = Reading::new(alloc, entry, plan.file_size())?;
    let mut out = Vec::with_capacity(alloc, plan.length() as usize)?;
    let mut put = 0;
    for step in steps {
        put_stretch(
            alloc,
            entry,
            shelf,
            hashed,
            &mut reading,
            step.start,
            step.end,
            &mut out,
        )?;
        let end = put + step.written;
        out.extend_from_slice(&written[put..end])?;
        put = end;
    }
    Ok(out)
}
