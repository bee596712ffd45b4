//! Cutting a window out of a file.

ghost use Rattle.std.specs.Prelude.{◌≡◌, true, false, ◌+◌, ◌≤◌, ◌⊎◌, ◌++◌, List, length, IfOk, IfErr, OnOk, MatchResult, Err};
ghost use Rattle.jk_math.specs.Answer.{Answers};
ghost use Rattle.jk_math.specs.Memory.{IsMemory};
ghost use Rattle.jk_math.specs.declared.fault.Fault.TheVariants.{BadWindow, Changed};
ghost use Rattle.jk_window.specs.Views.{HasWindow};
ghost use Rattle.jk_window.specs.Indexing.{IsIndexOf};
ghost use Rattle.jk_window.specs.Cutting.{cut_file};
ghost use Rattle.jk_window.specs.Planning.{plan_text, IsPlanned};

use crate::kept::Index;
use crate::planning::plan;
use crate::steps::CutPlan;
use crate::view::View;
use jk_boxes::open;
use jk_math::Fault;
use std::alloc::Global;

/// The file that a plan makes of a stored file.
fn make(alloc: Global, plan: &CutPlan, bytes: &[u8]) -> Result<Vec<u8>, Fault>
    requires { plan.now.size ≡ length bytes.now }
    ensures { MatchResult result (λ v. v.items ≡ plan_text bytes.now plan.now) IsMemory }
{
    let mut file = Vec::with_capacity(alloc, plan.length() as usize)?;
    let written = plan.written();
    let mut at = 0;
    for step in plan.steps() {
        file.extend_from_slice(&bytes[step.start..step.end])?;
        file.extend_from_slice(&written[at..at + step.written])?;
        at += step.written;
    }
    Ok(file)
}

/// Whether bytes may be those of an index: they have its length, and their codestream its place.
fn may_be(index: &Index, bytes: &[u8]) -> bool
    ensures yes { result ≡ true → index.now.frame.size ≡ length bytes.now }
    ensures no { result ≡ false → IsIndexOf bytes.now index.now → ⊥ }
{
    let Ok(place) = open(bytes) else {
        return false;
    };
    let kept = index.place();
    if place.start != kept.start || place.end != kept.end || place.jp2 != kept.jp2 {
        return false;
    }
    index.around().size == bytes.len()
}

/// The file of the window of a view, as `plan` says it.
///
/// BadWindow: as `plan`. Changed: the index isn't that of these bytes. If the index isn't and a file
/// is given, it is what the index's plan makes of the bytes.
pub fn cut(alloc: Global, index: &Index, bytes: &[u8], view: View) -> Result<Vec<u8>, Fault>
    // With the index of these bytes it is the file of the window, or BadWindow.
    ensures exact { (is : IsIndexOf bytes.now index.now) → Answers (λ v. v.items) result (cut_file is view) }
    ensures faults { IfErr result (λ e. IsMemory e ⊎ (e ≡ BadWindow) ⊎ (e ≡ Changed)) }
    // Changed is answered only where it isn't.
    ensures changed { result ≡ Err Fault.Changed → IsIndexOf bytes.now index.now → ⊥ }
    // BadWindow is answered only where the view has no window, whichever index it is.
    ensures unseen { result ≡ Err Fault.BadWindow → HasWindow index.now.headers view → ⊥ }
    // And whichever it is, a plan of the index makes the file of these bytes.
    ensures planned { IfOk result (λ v. IsPlanned bytes.now index.now view v.items) }
{
    let plan = plan(alloc, index, view)?;
    if !may_be(index, bytes) {
        return Err(Fault::Changed);
    }
    make(alloc, &plan, bytes)
}
