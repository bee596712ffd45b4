//! Decoding a window to a PGM or PPM file.

ghost use Rattle.std.specs.Prelude.{◌≡◌, ℕ, List, Ok, IfOk, OnOk};
ghost use Rattle.std.specs.Io.KnownBytes.{Appends};
ghost use Rattle.jk_math.specs.Answer.{Answers};
ghost use Rattle.jk_math.specs.Picture.{Picture};
ghost use Rattle.jk_pnm.specs.Pnm.{IsPnm};
ghost use Rattle.jk_pnm.specs.Sending.{IsLeftBySending};
ghost use Rattle.jk_code.specs.Meaning.{Means};
ghost use Rattle.jk_code.specs.Viewing.{picture_of_view};
ghost use Rattle.jk_code.specs.ViewReading.{meaning_view_at};
ghost use Rattle.jk_options.specs.Plans.{at_place};
ghost use Rattle.jk_commands.specs.Commands.{window_decoded, window_given};

use jk_code::decode_window;
use jk_math::{Fault, Image};
use jk_pnm::write_into;
use jk_window::View;
use std::alloc::Global;
use std::io::Write;

/// The image of a window of a file. The file is let go of.
fn window_image(alloc: Global, bytes: Vec<u8>, view: View) -> Result<Image, Fault>
    ensures exact { Answers (λ i. i) result (meaning_view_at bytes.items view) }
    ensures found { IfOk result (λ i. meaning_view_at bytes.items view ≡ Ok i) }
    ensures means { (p : Picture) → Means bytes.items view.reduce p → Answers (λ i. i) result (picture_of_view view p) }
{
    decode_window(alloc, &bytes, view)
}

/// Writes what `jk decode` makes of a window of a file, a bare codestream or a JP2 file, at the
/// reduction of the view and in all layers, a few rows at a time.
///
/// The first of the faults that `jk_code::decode_window` names, BadWindow among them; then
/// Unsupported for an image that has no PGM or PPM file; and Shelf: a write failed or took nothing.
/// Packets and code-blocks on which no sample of the window depends aren't judged. Nothing is
/// written before the window is whole. Before that, the file is let go of.
pub fn decode_window_file_into<W: Write>(
    alloc: Global,
    bytes: Vec<u8>,
    view: View,
    writer: &mut W,
) -> Result<(), Fault>
    // What was written, however it ended.
    ensures exact { (text : List ℕ) × Appends (W.contents writer.old) (W.contents writer.new) text
        × IsLeftBySending (window_decoded bytes.items view) text result }
    // A whole file is one of the picture that the window shows.
    ensures found { OnOk result ((p : Picture) × (meaning_view_at bytes.items view ≡ Ok p)
        × ((file : List ℕ) → window_decoded bytes.items view ≡ Ok file → IsPnm file (at_place p 0 0))) }
    // Of a file that means a picture, the file of that picture on the window is written, or
    // BadWindow is answered where the window has no sample.
    ensures means { (p : Picture) → Means bytes.items view.reduce p
        → (text : List ℕ) × Appends (W.contents writer.old) (W.contents writer.new) text
        × IsLeftBySending (window_given view p) text result }
{
    let image = window_image(alloc, bytes, view)?;
    write_into(alloc, &image, writer)
}
