//! The codestream of a window, by the outline of a stored codestream.

ghost use Rattle.std.specs.Prelude.{◌≡◌, ℕ, List, length, take, IfOk};
ghost use Rattle.jk_code.specs.ViewReading.{image_view_at, meaning_view_at};
ghost use Rattle.jk_code.specs.Windows.{in_all_layers};

use crate::hand::Hand;
use crate::making::{Sight, Sources, make};
use crate::outline::read_outline;
use crate::share::needs_most;
use crate::stored::Stored;
use jk_marks::read_main;
use jk_math::Fault;
use jk_params::read_codestream;
use jk_window::{View, window_area};
use std::alloc::Global;

/// A codestream that shows on the window of a view, in all layers, what a stored one of so many bytes
/// shows there: the codestream of the window, in which all packets that it doesn't need are empty.
/// These are the first bytes of the stored one.
///
/// A fault where it isn't known by what is read, and where the window is likely to need most of the
/// codestream: then it is sooner read as a whole.
pub(crate) fn window_codestream<S: Stored>(
    alloc: Global,
    stored: &S,
    front: &[u8],
    size: usize,
    view: View,
) -> Result<Vec<u8>, Fault>
    requires { (c : List ℕ) → S.keeps stored.now c → front.now ≡ take (length front.now) c }
    ensures { (c : List ℕ) → S.keeps stored.now c → length c ≡ size
        → IfOk result (λ v. meaning_view_at v.items (in_all_layers view) ≡ image_view_at c (in_all_layers view)) }
{
    let outline = read_outline(alloc, stored, front, size)?;
    let headers = read_codestream(alloc, &outline.bytes)?;
    let (_, main) = read_main(&outline.bytes)?;
    if main != outline.main {
        return Err(Fault::BadLength);
    }
    let window = window_area(&headers, view)?;
    let sight = Sight {
        window,
        reduce: view.reduce as u8,
    };
    if needs_most(&headers, &outline.parts, sight, size) {
        return Err(Fault::Limit);
    }
    let mut hand = Hand::new(alloc)?;
    let sources = Sources {
        stored,
        outline: &outline,
        headers: &headers,
        sight,
    };
    let made = make(alloc, &sources, &mut hand, size)?;
    Ok(made)
}
