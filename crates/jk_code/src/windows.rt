//! Windows.

ghost use Rattle.std.specs.Prelude.{◌≡◌, ◌⊎◌, ℕ, List, IfOk, IfErr, Err};
ghost use Rattle.jk_math.specs.Answer.{Answers};
ghost use Rattle.jk_math.specs.Memory.{IsMemory};
ghost use Rattle.jk_math.specs.Picture.{Picture};
ghost use Rattle.jk_math.specs.declared.fault.Fault.TheVariants.{BadWindow, Changed};
ghost use Rattle.jk_window.specs.Views.{HasWindow};
ghost use Rattle.jk_window.specs.Indexing.{IndexFields, IsIndexOf};
ghost use Rattle.jk_window.specs.Cutting.{cut_file};
ghost use Rattle.jk_window.specs.Planning.{IsPlanned};
ghost use Rattle.jk_code.specs.Meaning.{MeansLayers, Means};
ghost use Rattle.jk_code.specs.Windows.{IsWindowOf, IsWindowMeant, IsWindowShown, IsWindowKept};

use jk_math::Fault;
use jk_window::{Index, View, cut};
use std::alloc::Global;

/// Where a file means a picture at the reduction of a view, in the layers that it asks for, the
/// file of the view's window means one of the same place, size, depth, sign and number of
/// components, with the same samples in the window.
pub fn windows_show_the_picture()
    ensures { IsWindowMeant }
{}

/// What `decode_window` gives of the file of a view's window: where the view asks for all layers,
/// what it gives of the stored file; and where the stored file means a picture in the layers that
/// the view asks for, that picture on the window.
pub fn cut_files_show_the_window()
    // The file of the window means a picture that on the window is that of the stored file.
    ensures shown { IsWindowShown }
    // What is decoded of both is the same, where all layers are asked for.
    ensures kept { IsWindowKept }
{}

/// A file that means a picture has an index, so no clause that asks for one says nothing of it.
pub fn pictures_have_indexes()
    ensures { (bytes : List ℕ) (d : ℕ) (p : Picture) → Means bytes d p → (i : IndexFields) × IsIndexOf bytes i }
{}

/// The file of the window of a view, as `jk_window::cut` makes it: the stored file, in which the
/// packets that the window doesn't need, and those of later layers than the view asks for, are
/// empty.
///
/// BadWindow: the view asks for no layer, a tile-component has fewer decomposition levels than the
/// reduction, or the reduced image or the window has no sample. Changed: the index isn't that of
/// these bytes. If the index isn't and a file is given, it is what the index's plan makes of the
/// bytes.
pub fn window(alloc: Global, bytes: &[u8], index: &Index, view: View) -> Result<Vec<u8>, Fault>
    // With the index of these bytes it is the file of the window, or BadWindow.
    ensures exact { (is : IsIndexOf bytes.now index.now) → Answers (λ v. v.items) result (cut_file is view) }
    ensures faults { IfErr result (λ e. IsMemory e ⊎ (e ≡ BadWindow) ⊎ (e ≡ Changed)) }
    // Changed is answered only where it isn't.
    ensures changed { result ≡ Err Fault.Changed → IsIndexOf bytes.now index.now → ⊥ }
    // BadWindow is answered only where the view has no window, whichever index it is.
    ensures unseen { result ≡ Err Fault.BadWindow → HasWindow index.now.headers view → ⊥ }
    // And whichever it is, a plan of the index makes the file of these bytes.
    ensures planned { IfOk result (λ v. IsPlanned bytes.now index.now view v.items) }
    // What the bytes mean in the layers that are asked for, the reply means on the window.
    ensures means { IsIndexOf bytes.now index.now → (p : Picture) → MeansLayers bytes.now view.reduce view.layers p
        → IfOk result (λ v. IsWindowOf view p v.items) }
{
    cut(alloc, index, bytes, view)
}
