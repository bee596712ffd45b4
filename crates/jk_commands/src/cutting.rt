//! Cutting a window.

ghost use Rattle.std.specs.Prelude.{◌≡◌, Err, IfOk};
ghost use Rattle.jk_math.specs.Answer.{Answers};
ghost use Rattle.jk_math.specs.Picture.{Picture};
ghost use Rattle.jk_math.specs.declared.fault.Fault.{Fault as FaultValue};
ghost use Rattle.jk_window.specs.Indexing.{IndexFields, IsIndexOf, index_at};
ghost use Rattle.jk_window.specs.Cutting.{cut_file};
ghost use Rattle.jk_code.specs.Meaning.{MeansLayers};
ghost use Rattle.jk_code.specs.Windows.{IsWindowOf};

use jk_code::window;
use jk_math::Fault;
use jk_window::{View, index};
use std::alloc::Global;

/// What `jk cut` writes of a file: the file of the window of a view, as `jk_code::window` makes it.
///
/// The first of the faults that `jk_window::index` names, of boxes, headers and packets; then
/// BadWindow for a view without a window.
pub fn cut_file(alloc: Global, bytes: &[u8], view: View) -> Result<Vec<u8>, Fault>
    // A file without an index has no window.
    ensures refused { (e : FaultValue) → index_at bytes.now ≡ Err e → Answers (λ v. v.items) result (Err e) }
    // Of a file with an index it is the file of the window, or BadWindow.
    ensures exact { (i : IndexFields) (is : IsIndexOf bytes.now i) → Answers (λ v. v.items) result (cut_file is view) }
    ensures indexed { IfOk result (λ _. (i : IndexFields) × IsIndexOf bytes.now i) }
    // What the file means in the layers that are asked for, the window means on its rectangle.
    ensures means { (p : Picture) → MeansLayers bytes.now view.reduce view.layers p
        → IfOk result (λ v. IsWindowOf view p v.items) }
{
    let index = index(alloc, bytes)?;
    window(alloc, bytes, &index, view)
}
