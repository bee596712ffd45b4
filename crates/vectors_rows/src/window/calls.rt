//! The calls that the tests make. What a call promises is left out: a test says what is answered, and
//! proves nothing by it.

use crate::window::many::MANY;
use jk_math::{Fault, Image};
use jk_window::{Index, View};
use std::alloc::Global;
use std::process::Abort;
use vectors::bytes_of;

/// The bytes of texts.
pub(crate) fn file_of(rt: &impl Abort, alloc: Global, texts: &[&str]) -> Vec<u8> {
    bytes_of(alloc, texts).expect(rt, "a file")
}

/// The file of many packets.
pub(crate) fn many(rt: &impl Abort, alloc: Global) -> Vec<u8> {
    file_of(rt, alloc, &[MANY])
}

/// The index of a file.
pub(crate) fn index_of(rt: &impl Abort, alloc: Global, bytes: &[u8]) -> Index {
    index(alloc, bytes).expect(rt, "an index")
}

pub(crate) fn index(alloc: Global, bytes: &[u8]) -> Result<Index, Fault> {
    jk_window::index(alloc, bytes)
}

pub(crate) fn cut(
    alloc: Global,
    index: &Index,
    bytes: &[u8],
    view: View,
) -> Result<Vec<u8>, Fault> {
    jk_window::cut(alloc, index, bytes, view)
}

pub(crate) fn window(
    alloc: Global,
    bytes: &[u8],
    index: &Index,
    view: View,
) -> Result<Vec<u8>, Fault> {
    jk_code::window(alloc, bytes, index, view)
}

pub(crate) fn decode(alloc: Global, bytes: &[u8], reduce: u32) -> Result<Image, Fault> {
    jk_code::decode(alloc, bytes, reduce)
}

pub(crate) fn decode_window(alloc: Global, bytes: &[u8], view: View) -> Result<Image, Fault> {
    jk_code::decode_window(alloc, bytes, view)
}

pub(crate) fn decode_window_by(
    alloc: Global,
    bytes: &[u8],
    index: &Index,
    view: View,
) -> Result<Image, Fault> {
    jk_code::decode_window_by(alloc, bytes, index, view)
}

/// The file of a window of a file.
pub(crate) fn window_of(rt: &impl Abort, alloc: Global, bytes: &[u8], view: View) -> Vec<u8> {
    let kept = index_of(rt, alloc, bytes);
    window(alloc, bytes, &kept, view).expect(rt, "a window")
}

pub(crate) fn view(reduce: u32, x: u32, y: u32, width: u32, height: u32) -> View {
    View {
        reduce,
        x,
        y,
        width,
        height,
        layers: None,
    }
}

/// The sample of the first component at a place, if the image has the place.
pub(crate) fn sample(image: &Image, x: u32, y: u32) -> Option<i32> {
    if 0 < image.planes().len() && x < image.width() && y < image.height() {
        Some(image.sample(0, x, y))
    } else {
        None
    }
}
