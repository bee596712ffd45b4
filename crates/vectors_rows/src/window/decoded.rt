//! Windows that are decoded, beside the whole image.

use crate::window::asserts::equal_at;
use crate::window::calls::{
    decode, decode_window, decode_window_by, file_of, index_of, many, sample, view, window_of,
};
use jk_math::{Fault, Image};
use jk_window::View;
use std::alloc::Global;
use std::process::Abort;

/// How many samples of a decoded window are those of the image.
fn same_samples(view: View, whole: &Image, part: &Image) -> u32 {
    let mut count: u32 = 0;
    for row in 0..part.height() {
        for column in 0..part.width() {
            let x = view.x.saturating_add(column);
            let y = view.y.saturating_add(row);
            let one = sample(part, column, row);
            if one.is_some() && one == sample(whole, x, y) {
                count = count.saturating_add(1);
            }
        }
    }
    count
}

/// Whether the place of a decoded window is that of its view on the image.
fn is_at(view: View, whole: &Image, part: &Image) -> bool {
    part.x0() == whole.x0().saturating_add(view.x) && part.y0() == whole.y0().saturating_add(view.y)
}

/// The decoded window of a view has its place on the image, and so many samples of it.
fn has(rt: &impl Abort, view: View, whole: &Image, part: Result<Image, Fault>, due: u32) {
    let part = part.expect(rt, "a window");
    equal_at(rt, "a place", view, is_at(view, whole, &part), true);
    equal_at(rt, "samples", view, same_samples(view, whole, &part), due);
}

/// So many samples of the decoded window of a view are those of the image: of the file, and of the
/// file of the window.
fn decodes(rt: &impl Abort, alloc: Global, view: View, due: u32) {
    let file = many(rt, alloc);
    let reply = window_of(rt, alloc, &file, view);
    let whole = decode(alloc, &file, view.reduce).expect(rt, "an image");
    has(rt, view, &whole, decode_window(alloc, &file, view), due);
    has(rt, view, &whole, decode_window(alloc, &reply, view), due);
}

#[test]
fn decoded_windows_are_those_of_the_image(rt: HostRuntime) {
    let alloc = rt.alloc();
    decodes(&rt, alloc, view(0, 0, 0, 64, 64), 4096);
    decodes(&rt, alloc, view(0, 0, 0, 3, 3), 9);
    decodes(&rt, alloc, view(0, 31, 33, 1, 1), 1);
    decodes(&rt, alloc, view(0, 17, 41, 40, 2), 80);
    decodes(&rt, alloc, view(1, 5, 7, 10, 4), 40);
    decodes(&rt, alloc, view(2, 1, 0, 3, 16), 48);
    // What passes the edge is left out.
    decodes(&rt, alloc, view(0, 60, 61, 4_294_967_295, 9), 12);
}

/// A view has no window.
fn refused(rt: &impl Abort, alloc: Global, view: View) {
    let fault = decode_window(alloc, &many(rt, alloc), view).err();
    equal_at(rt, "a fault", view, fault, Some(Fault::BadWindow));
}

#[test]
fn views_without_a_window(rt: HostRuntime) {
    refused(&rt, rt.alloc(), view(0, 64, 0, 1, 1));
    refused(&rt, rt.alloc(), view(0, 0, 0, 0, 1));
    refused(&rt, rt.alloc(), view(11, 0, 0, 1, 1));
}

/// Two tiles of one sample, of which the code-block of the first one isn't in the interval: its two
/// bytes can't be those of two coding passes. The second one is -128 and the level shift, 0 on the
/// grid of samples from 0 on.
static DAMAGED: &str = "\
FF4FFF51002900000000000200000001000000000000000000000001000000010000000000000000000107 0101FF52000C00000001000004040001FF5C00\
044040FF90000A0000000000120001FF93C022FF8FFF90000A0001000000110001FF93C02103FFD9";

/// The first sample of an image, or the fault.
type Shown = Result<Option<i32>, Fault>;

fn shown(answer: Result<Image, Fault>) -> Shown {
    match answer {
        Ok(image) => Ok(sample(&image, 0, 0)),
        Err(fault) => Err(fault),
    }
}

/// What a view of a file decodes to by the index of another file.
fn by_index(rt: &impl Abort, alloc: Global, file: &[u8], of: &[u8], view: View) -> Shown {
    let kept = index_of(rt, alloc, of);
    shown(decode_window_by(alloc, file, &kept, view))
}

/// A code-block on which the window depends is judged, and others aren't; the index of another file
/// is told.
#[test]
fn windows_by_the_index(rt: HostRuntime) {
    let alloc = rt.alloc();
    let file = file_of(&rt, alloc, &[DAMAGED]);
    for (x, due) in [(0, Err(Fault::CodeOutOfInterval)), (1, Ok(Some(129)))] {
        let seen = view(0, x, 0, 1, 1);
        let found = shown(decode_window(alloc, &file, seen));
        equal_at(&rt, "by the bytes", seen, found, due);
        let found = by_index(&rt, alloc, &file, &file, seen);
        equal_at(&rt, "by the index", seen, found, due);
    }
    let changed = by_index(&rt, alloc, &many(&rt, alloc), &file, view(0, 1, 0, 1, 1));
    equal_at(
        &rt,
        "by the index",
        "another file",
        changed,
        Err(Fault::Changed),
    );
}
