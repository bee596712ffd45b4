//! Decoding a window of a stored file to a PGM or PPM file.

ghost use Rattle.std.specs.Prelude.{◌≡◌, ◌<◌, ℕ, List, [], length, slice_index_or, Ok, Err, None, IfSome, OnOk};
ghost use Rattle.std.specs.Io.KnownBytes.{Appends};
ghost use Rattle.jk_math.specs.Picture.{Picture};
ghost use Rattle.jk_math.specs.declared.fault.Fault.TheVariants.{Unsupported};
ghost use Rattle.jk_pnm.specs.Pnm.{IsPnm};
ghost use Rattle.jk_pnm.specs.Sending.{IsLeftBySending};
ghost use Rattle.jk_code.specs.Meaning.{Means};
ghost use Rattle.jk_code.specs.ViewReading.{meaning_view_at};
ghost use Rattle.jk_options.specs.Plans.{at_place};
ghost use Rattle.jk_commands.specs.Commands.{window_decoded, window_given};

use crate::stored::Stored;
use crate::viewing::decode_stored_window;
use jk_math::Fault;
use jk_pnm::write_into;
use jk_window::View;
use std::alloc::Global;
use std::io::Write;

/// How writing an image ended, unless the image has no file.
fn unless_unsupported(written: Result<(), Fault>) -> Option<Result<(), Fault>>
    ensures same { IfSome result (λ r. r ≡ written) }
    ensures none { result ≡ None → written ≡ Err Unsupported }
{
    match written {
        Err(Fault::Unsupported) => None,
        _ => Some(written),
    }
}

/// Writes what `jk decode` makes of a window of a stored file of so many bytes, at the reduction of
/// the view and in all layers, a few rows at a time: what `jk_commands::decode_window_file_into`
/// writes of all bytes. Nothing is written before the window is whole.
///
/// Memory, or Shelf: a write failed or took nothing; a beginning of the file was written.
///
/// None: the window isn't known by what is read, as `decode_stored_window` says, or has no PGM or PPM
/// file. Nothing was written.
pub fn decode_stored_window_into<S: Stored + Drop, W: Write>(
    alloc: Global,
    stored: S,
    size: usize,
    view: View,
    writer: &mut W,
) -> Option<Result<(), Fault>>
    // What was written of a file that keeps its bytes, however it ended.
    ensures exact { (f : List ℕ) → S.keeps stored f → length f ≡ size
        → IfSome result (λ r. (text : List ℕ) × Appends (W.contents writer.old) (W.contents writer.new) text
        × IsLeftBySending (window_decoded f view) text r) }
    // A whole file is one of the picture that the window shows.
    ensures found { (f : List ℕ) → S.keeps stored f → length f ≡ size
        → IfSome result (λ r. OnOk r ((p : Picture) × (meaning_view_at f view ≡ Ok p)
        × ((file : List ℕ) → window_decoded f view ≡ Ok file → IsPnm file (at_place p 0 0)))) }
    // Of a file that means a picture, the file of that picture on the window is written.
    ensures means { (f : List ℕ) → S.keeps stored f → length f ≡ size
        → ((i : ℕ) → slice_index_or f i 0 < 256) → (p : Picture) → Means f view.reduce p
        → IfSome result (λ r. (text : List ℕ) × Appends (W.contents writer.old) (W.contents writer.new) text
        × IsLeftBySending (window_given view p) text r) }
    ensures none { result ≡ None → Appends (W.contents writer.old) (W.contents writer.new) [] }
{
    let image = decode_stored_window(alloc, stored, size, view)?;
    let written = write_into(alloc, &image, writer);
    unless_unsupported(written)
}
