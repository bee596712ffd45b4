//! Texts that are written to a place that takes them in parts.

ghost use Rattle.std.specs.Prelude.{List, ℕ, MatchBool};
ghost use Rattle.std.specs.Io.KnownBytes.{Appends};
ghost use Rattle.jk_math.specs.Front.{IsFront};

use std::io::Write;

/// Writes a text. False where a write failed or took nothing: then a beginning of the text was
/// written.
pub fn write_out<W: Write>(writer: &mut W, text: &[u8]) -> bool
    ensures { MatchBool result
        (Appends (W.contents writer.old) (W.contents writer.new) text.now)
        ((part : List ℕ) × Appends (W.contents writer.old) (W.contents writer.new) part × IsFront part text.now) }
{
    let mut sent = 0;
    while sent < text.len() {
        match writer.write(&text[sent..]) {
            Ok(0) => return false,
            Ok(count) => sent += count,
            Err(_) => return false,
        }
    }
    true
}
