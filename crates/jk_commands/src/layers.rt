//! The first layers of a file.

ghost use Rattle.std.specs.Prelude.{◌≡◌, Some, Err, IfOk};
ghost use Rattle.jk_math.specs.Answer.{Answers};
ghost use Rattle.jk_math.specs.Picture.{Picture};
ghost use Rattle.jk_math.specs.declared.fault.Fault.{Fault as FaultValue};
ghost use Rattle.jk_window.specs.Indexing.{IndexFields, IsIndexOf, index_at};
ghost use Rattle.jk_window.specs.Cutting.{cut_file};
ghost use Rattle.jk_code.specs.Meaning.{MeansLayers};
ghost use Rattle.jk_code.specs.Windows.{IsWindowOf};
ghost use Rattle.jk_commands.specs.Dressing.{whole_view};

use crate::cutting::cut_file;
use jk_math::Fault;
use jk_window::View;
use std::alloc::Global;

/// The view of a whole image.
fn whole_view(reduce: u32, layers: u32) -> View
    ensures { result ≡ whole_view reduce layers }
{
    View {
        reduce,
        x: 0,
        y: 0,
        width: u32::MAX,
        height: u32::MAX,
        layers: Some(layers),
    }
}

/// What `jk decode` decodes of a file with a number of layers: the file that `jk cut` makes of the
/// whole image, in which the packets of later layers are empty.
///
/// The faults are those of [`cut_file`]: of boxes, headers and packets; then BadWindow for no layer,
/// or a reduction past the least number of levels.
pub fn first_layers(alloc: Global, bytes: &[u8], reduce: u32, layers: u32) -> Result<Vec<u8>, Fault>
    // A file without an index has no layers.
    ensures refused { (e : FaultValue) → index_at bytes.now ≡ Err e → Answers (λ v. v.items) result (Err e) }
    // Of a file with an index it is the file of the whole image, or BadWindow.
    ensures exact { (i : IndexFields) (is : IsIndexOf bytes.now i)
        → Answers (λ v. v.items) result (cut_file is (whole_view reduce layers)) }
    // What the file means in these layers, the new one means on the rectangle of the view, in which
    // all samples lie.
    ensures means { (p : Picture) → MeansLayers bytes.now reduce (Some layers) p
        → IfOk result (λ v. IsWindowOf (whole_view reduce layers) p v.items) }
{
    cut_file(alloc, bytes, whole_view(reduce, layers))
}
