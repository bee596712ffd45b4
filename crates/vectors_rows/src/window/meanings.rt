//! What the files of windows mean, beside the whole image.

use crate::window::asserts::equal_at;
use crate::window::calls::{decode, many, sample, view, window_of};
use jk_math::Image;
use jk_window::View;
use std::alloc::Global;
use std::process::Abort;

/// How many places of a view two images have, with the same sample.
fn same_samples(view: View, whole: &Image, part: &Image) -> u32 {
    let mut count: u32 = 0;
    for row in 0..view.height {
        for column in 0..view.width {
            let x = view.x.saturating_add(column);
            let y = view.y.saturating_add(row);
            let one = sample(whole, x, y);
            if one.is_some() && one == sample(part, x, y) {
                count = count.saturating_add(1);
            }
        }
    }
    count
}

/// What a file means at a reduction.
fn image_of(rt: &impl Abort, alloc: Global, file: &[u8], reduce: u32) -> Image {
    decode(alloc, file, reduce).expect(rt, "an image")
}

/// So many samples of a view are shown by the file of its window as by the whole file; and how many
/// of all are.
fn shows(rt: &impl Abort, alloc: Global, view: View, due: u32) -> u32 {
    let file = many(rt, alloc);
    let reply = window_of(rt, alloc, &file, view);
    let whole = image_of(rt, alloc, &file, view.reduce);
    let part = image_of(rt, alloc, &reply, view.reduce);
    equal_at(rt, "samples", view, same_samples(view, &whole, &part), due);
    same_samples(all_of(view.reduce), &whole, &part)
}

/// The view of all at a reduction.
fn all_of(reduce: u32) -> View {
    view(reduce, 0, 0, 64, 64)
}

#[test]
fn windows_are_those_of_the_image(rt: HostRuntime) {
    let alloc = rt.alloc();
    let corner = shows(&rt, alloc, view(0, 0, 0, 3, 3), 9);
    let inner = shows(&rt, alloc, view(0, 8, 8, 3, 3), 9);
    let strip = shows(&rt, alloc, view(0, 17, 41, 40, 2), 80);
    shows(&rt, alloc, view(1, 5, 7, 10, 4), 40);
    shows(&rt, alloc, view(2, 1, 0, 3, 16), 48);
    // The rest isn't that of the image.
    let fewer = [corner < 4096, inner < 4096, strip < 4096];
    equal_at(&rt, "the rest", [corner, inner, strip], fewer, [true; 3]);
}
