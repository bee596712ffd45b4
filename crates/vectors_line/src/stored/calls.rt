//! The calls that the tests make, and the files that more than one of them decodes.

use jk_code::decode_window;
use jk_stored::{MemoryStored, Stored, decode_stored_window_into};
use jk_window::View;
use std::alloc::Global;
use std::process::Abort;
use vectors::{bytes_of, equal_at};

/// A column of nine samples with one level, by another encoder.
pub(crate) static COLUMN: &str =
    "FF4F FF51 0029 0000 00000001 00000009 00000000 00000000 00000001 00000009 00000000 00000000 0001 07 01 01 FF52 000C 00 00 0001 00 01 04 04 00 01 FF5C 0007 40 40 48 48 50 FF90 000A 0000 0000001E 00 01 FF93 C7 D4 0C 01 8F 0D C8 75 7F C0 7C 21 80 0F B1 7F FFD9";

/// A window of it, which is three of its rows.
pub(crate) static WINDOW: View = View {
    reduce: 0,
    x: 0,
    y: 2,
    width: 1,
    height: 3,
    layers: None,
};

pub(crate) static WINDOW_TEXT: &str = "50350A 312033 0A 323535 0A 68 69 60";

/// The bytes of texts.
pub(crate) fn file_of(rt: &impl Abort, alloc: Global, texts: &[&str]) -> Vec<u8> {
    bytes_of(alloc, texts).expect(rt, "a file")
}

pub(crate) fn view(reduce: u32, x: u32, y: u32, width: u32, height: u32) -> View {
    View {
        reduce,
        x,
        y,
        width,
        height,
        layers: None,
    }
}

/// The PGM or PPM file of a window of a stored file of so many bytes, if it is known.
pub(crate) fn shown<S: Stored + Drop>(
    alloc: Global,
    stored: S,
    size: usize,
    view: View,
) -> Option<Vec<u8>> {
    let mut text = Vec::new(alloc);
    match decode_stored_window_into(alloc, stored, size, view, &mut text)? {
        Ok(()) => Some(text),
        Err(_) => None,
    }
}

/// The same by all bytes, or none where these are refused.
fn shown_whole(alloc: Global, bytes: &[u8], view: View) -> Option<Vec<u8>> {
    let image = decode_window(alloc, bytes, view).ok()?;
    jk_pnm::write(alloc, &image).ok()
}

/// Whether both are there and are the same.
pub(crate) fn are_same(found: &Option<Vec<u8>>, due: &Option<Vec<u8>>) -> bool {
    match (found, due) {
        (Some(found), Some(due)) => found.as_slice() == due.as_slice(),
        _ => false,
    }
}

/// A window of a stored file is known, and is that of all bytes; or it isn't known.
pub(crate) fn check_known(
    rt: &impl Abort,
    alloc: Global,
    name: &str,
    bytes: Vec<u8>,
    view: View,
    is_known: bool,
) {
    let whole = shown_whole(alloc, &bytes, view);
    let size = bytes.len();
    let found = shown(alloc, MemoryStored::new(bytes), size, view);
    let seen = (found.is_some(), are_same(&found, &whole));
    equal_at((name, view), seen, (is_known, is_known)).expect(rt, "a window");
}
