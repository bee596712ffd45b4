//! Decoding a window of a stored file.

ghost use Rattle.std.specs.Prelude.{◌≡◌, ℕ, List, length, take, Ok, IfOk, IfSome};
ghost use Rattle.jk_code.specs.ViewReading.{meaning_view_at};

use crate::behind::Behind;
use crate::codestream::window_codestream;
use crate::place::code_start;
use crate::stored::Stored;
use jk_code::decode_window;
use jk_math::{Fault, Image};
use jk_window::View;
use std::alloc::Global;

/// How many bytes at the front of a file are to hold its boxes up to the codestream, and the main
/// header.
const FRONT: usize = 1 << 16;

/// The first bytes of a stored file of so many.
fn read_front<S: Stored>(alloc: Global, stored: &S, size: usize) -> Result<Vec<u8>, Fault>
    ensures { (f : List ℕ) → S.keeps stored.now f → IfOk result (λ v. v.items ≡ take (length v.items) f) }
{
    let mut front = vec![in alloc; 0u8; FRONT.min(size)]?;
    let count = stored.read_at(0, &mut front)?;
    front.truncate(count);
    Ok(front)
}

/// The window of a view of the image that a stored file of so many bytes means.
///
/// A fault also where it isn't known by what is read.
fn window_image<S: Stored + Drop>(
    alloc: Global,
    stored: S,
    size: usize,
    view: View,
) -> Result<Image, Fault>
    ensures { (f : List ℕ) → S.keeps stored f → length f ≡ size → IfOk result (λ i. meaning_view_at f view ≡ Ok i) }
{
    let front = read_front(alloc, &stored, size)?;
    let start = code_start(alloc, &front, size)?;
    if start > front.len() || size < start {
        return Err(Fault::Truncated);
    }
    let behind = Behind { stored, start };
    let made = window_codestream(alloc, &behind, &front[start..], size - start, view)?;
    let whole = View {
        layers: None,
        ..view
    };
    let image = decode_window(alloc, &made, whole)?;
    Ok(image)
}

/// The window of a view of the image that a stored file of so many bytes means, where it is known by
/// its headers and the packets that the window needs: what `jk_code::decode_window` gives of all bytes.
/// The headers of the packets are read through 2^20 bytes at hand, which slide along the file, and the
/// bodies that the window needs; of the whole file no copy is made.
///
/// None: it isn't known so. That is where `decode_window` tells a fault; where the window is likely to
/// need more than half of a codestream of more than 2^20 bytes, which is sooner read as a whole; where
/// tiles have several tile-parts, or not in the order of their numbers, or one is left open; where
/// another box stands behind the codestream; where headers are long; and where a read fails, or
/// memory is refused. All bytes, given to `decode_window`, tell then which it is.
pub fn decode_stored_window<S: Stored + Drop>(
    alloc: Global,
    stored: S,
    size: usize,
    view: View,
) -> Option<Image>
    // Of a file that keeps its bytes it is what `decode_window` gives of them.
    ensures { (f : List ℕ) → S.keeps stored f → length f ≡ size → IfSome result (λ i. meaning_view_at f view ≡ Ok i) }
{
    match window_image(alloc, stored, size, view) {
        Ok(image) => Some(image),
        Err(_) => None,
    }
}
