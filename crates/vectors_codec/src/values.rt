//! Numbers, images and faults of the base crate.

use crate::asserts::{equal, equal_at};
use jk_math::{Fault, Image, Rect, ceil_div, floor_div, reflect, sample_range};
use std::alloc::Global;
use std::process::Abort;

/// Room for so many bytes, or what its refusal makes.
fn room(alloc: Global, bytes: usize) -> Result<Vec<u8>, Fault> {
    Ok(Vec::with_capacity(alloc, bytes)?)
}

/// An image at (7, 5) of one or two planes: `columns` columns by 2 rows, each plane of six samples.
fn small(
    rt: &impl Abort,
    alloc: Global,
    columns: u32,
    depth: u8,
    signed: bool,
    count: usize,
) -> Result<Image, Fault> {
    let mut planes = Vec::new(alloc);
    for _ in 0..count {
        let plane = Vec::from_slice(alloc, &[1, 2, 3, 4, 5, -8]).expect(rt, "samples");
        planes.push(plane).expect(rt, "an answer");
    }
    Image::new(7, 5, columns, 2, depth, signed, planes)
}

/// A dividend, a divisor, and the quotient, rounded down and up.
static QUOTIENTS: [(i64, u32, i64, i64); 7] = [
    (7, 2, 3, 4),
    (-7, 2, -4, -3),
    (-8, 2, -4, -4),
    (0, 9, 0, 0),
    (-1, 4_294_967_295, -1, 0),
    (i64::MAX, 1, i64::MAX, i64::MAX),
    (
        i64::MIN,
        3,
        -3_074_457_345_618_258_603,
        -3_074_457_345_618_258_602,
    ),
];

/// Both quotients, where there are any.
fn quotients(a: i64, b: u32) -> Option<(i64, i64)> {
    if b > 0 {
        Some((floor_div(a, b), ceil_div(a, b)))
    } else {
        None
    }
}

#[test]
fn division(rt: HostRuntime) {
    for (a, b, floor, ceil) in &QUOTIENTS {
        equal_at(&rt, (*a, *b), quotients(*a, *b), Some((*floor, *ceil)));
    }
}

/// Places, and those of the line of places 3, 4, 5, extended at both ends.
static REFLECTIONS: [(i32, u32); 12] = [
    (-2, 4),
    (-1, 3),
    (0, 4),
    (1, 5),
    (2, 4),
    (3, 3),
    (4, 4),
    (5, 5),
    (6, 4),
    (7, 3),
    (8, 4),
    (9, 5),
];

#[test]
fn reflection(rt: HostRuntime) {
    for (place, wanted) in &REFLECTIONS {
        equal_at(&rt, *place, reflect(*place, 3, 6), *wanted);
    }
    equal(&rt, reflect(-100, 9, 10), 9);
    equal(&rt, reflect(i32::MIN, 0, 2), 0);
}

/// A sample of an image, where it has this component and place.
fn sample(image: &Image, component: usize, x: u32, y: u32) -> Option<i32> {
    if component < image.planes().len() && x < image.width() && y < image.height() {
        Some(image.sample(component, x, y))
    } else {
        None
    }
}

/// How many samples the plane of a component has, where there is one.
fn samples(image: &Image, component: usize) -> Option<usize> {
    if component < image.planes().len() {
        Some(image.planes().plane(component).len())
    } else {
        None
    }
}

#[test]
fn images(rt: HostRuntime) {
    let image = small(&rt, rt.alloc(), 3, 4, true, 2).expect(&rt, "an answer");
    equal(&rt, (image.x0(), image.y0()), (7, 5));
    equal(&rt, (image.width(), image.height()), (3, 2));
    equal(&rt, (image.depth(), image.signed()), (4, true));
    equal(&rt, image.planes().len(), 2);
    equal(&rt, image.planes().is_empty(), false);
    equal(&rt, sample(&image, 1, 2, 1), Some(-8));
    equal(&rt, sample(&image, 0, 0, 1), Some(4));
    equal(&rt, samples(&image, 1), Some(6));
}

#[test]
fn placed_images(rt: HostRuntime) {
    let image = small(&rt, rt.alloc(), 3, 4, true, 2).expect(&rt, "an answer");
    let moved = image.place(2_147_483_644, 0).expect(&rt, "an answer");
    equal(&rt, (moved.x0(), moved.y0()), (2_147_483_644, 0));
    let answer = moved.place(2_147_483_645, 0);
    equal(&rt, answer.err(), Some(Fault::BadParameters));
}

/// Columns, depth, sign and number of planes of images that are refused.
static REFUSED: [(u32, u8, bool, usize); 8] = [
    (3, 4, false, 1),
    (3, 3, true, 1),
    (3, 0, true, 1),
    (3, 17, true, 1),
    (2, 4, true, 1),
    (0, 4, true, 1),
    (3, 4, true, 0),
    (3, 4, true, 5),
];

#[test]
fn refused_images(rt: HostRuntime) {
    for (columns, depth, signed, count) in &REFUSED {
        let answer = small(&rt, rt.alloc(), *columns, *depth, *signed, *count);
        let case = (*columns, *depth, *count);
        equal_at(&rt, case, answer.err(), Some(Fault::BadParameters));
    }
}

/// What an image of 3 by 2 is refused for whose planes have these samples.
fn refusal(
    rt: &impl Abort,
    alloc: Global,
    (depth, signed): (u8, bool),
    planes: &[&[i32]],
) -> Option<Fault> {
    let mut given = Vec::new(alloc);
    for plane in planes {
        let plane = Vec::from_slice(alloc, plane).expect(rt, "samples");
        given.push(plane).expect(rt, "a plane");
    }
    Image::new(0, 0, 3, 2, depth, signed, given).err()
}

/// A depth, whether samples have a sign, and planes of which the last one alone is wrong, where any
/// is.
static PLANES: [(u8, bool, &[&[i32]], Option<Fault>); 16] = [
    (4, false, &[&[0, 0, 0, 0, 0, 15]], None),
    (4, true, &[&[0, 0, 0, 0, 0, 7], &[0, 0, 0, 0, 0, -8]], None),
    (4, false, &[&[0; 6], &[0; 6], &[0; 6], &[15; 6]], None),
    (4, false, &[], Some(Fault::BadParameters)),
    (
        4,
        false,
        &[&[0; 6], &[0; 6], &[0; 6], &[0; 6], &[0; 6]],
        Some(Fault::BadParameters),
    ),
    (4, false, &[&[0; 5]], Some(Fault::BadParameters)),
    (4, false, &[&[0; 7]], Some(Fault::BadParameters)),
    (4, false, &[&[]], Some(Fault::BadParameters)),
    (4, false, &[&[0; 6], &[0; 5]], Some(Fault::BadParameters)),
    (
        4,
        false,
        &[&[0; 6], &[0; 6], &[0; 7]],
        Some(Fault::BadParameters),
    ),
    (
        4,
        false,
        &[&[0, 0, 0, 0, 0, 16]],
        Some(Fault::BadParameters),
    ),
    (
        4,
        false,
        &[&[0, 0, 0, 0, 0, -1]],
        Some(Fault::BadParameters),
    ),
    (4, true, &[&[0, 0, 0, 0, 0, 8]], Some(Fault::BadParameters)),
    (4, true, &[&[0, 0, 0, 0, 0, -9]], Some(Fault::BadParameters)),
    (
        4,
        false,
        &[&[0; 6], &[0; 6], &[0; 6], &[0, 0, 0, 0, 0, 16]],
        Some(Fault::BadParameters),
    ),
    (
        16,
        false,
        &[
            &[65_535; 6],
            &[65_535, 65_535, 65_535, 65_535, 65_535, 65_536],
        ],
        Some(Fault::BadParameters),
    ),
];

#[test]
fn planes_of_images(rt: HostRuntime) {
    for (depth, signed, planes, due) in &PLANES {
        let answer = refusal(&rt, rt.alloc(), (*depth, *signed), planes);
        equal_at(&rt, (*depth, *signed, planes.len()), answer, *due);
    }
}

#[test]
fn ranges(rt: HostRuntime) {
    equal(&rt, sample_range(1, false), (0, 1));
    equal(&rt, sample_range(8, true), (-128, 127));
    equal(&rt, sample_range(16, false), (0, 65_535));
    let whole = Rect {
        x0: 0,
        y0: 1,
        x1: 2,
        y1: 3,
    };
    equal(&rt, whole, Rect { ..whole });
}

/// What a fault prints.
fn prints(rt: &impl Abort, alloc: Global, fault: Fault, text: &str) {
    let printed = fault.to_string(alloc).expect(rt, "an answer");
    equal(rt, printed.as_str(), text);
}

/// Faults, and what they print.
static FAULTS: [(Fault, &str); 21] = [
    (Fault::Truncated, "F2 Truncated"),
    (Fault::BadMarker, "F3 BadMarker"),
    (Fault::BadLength, "F4 BadLength"),
    (Fault::BadValue, "F5 BadValue"),
    (Fault::Unsupported, "F6 Unsupported"),
    (Fault::Limit, "F7 Limit"),
    (Fault::PacketHeader, "F8 PacketHeader"),
    (Fault::TooManyPasses, "F9 TooManyPasses"),
    (Fault::CodeOutOfInterval, "F10 CodeOutOfInterval"),
    (Fault::MissingPackets, "F11 MissingPackets"),
    (Fault::SurplusBytes, "F12 SurplusBytes"),
    (Fault::BadBox, "F13 BadBox"),
    (Fault::BadPnm, "F14 BadPnm"),
    (Fault::BadParameters, "F15 BadParameters"),
    (Fault::BadWindow, "F16 BadWindow"),
    (Fault::NoSuchImage, "F17 NoSuchImage"),
    (Fault::NameTaken, "F18 NameTaken"),
    (Fault::BadName, "F19 BadName"),
    (Fault::Shelf, "F20 Shelf"),
    (Fault::Changed, "F21 Changed"),
    (Fault::WorkerFailed, "F23 WorkerFailed"),
];

#[test]
fn printed_faults(rt: HostRuntime) {
    for (fault, text) in &FAULTS {
        prints(&rt, rt.alloc(), *fault, text);
    }
}

#[test]
fn printed_refusal(rt: HostRuntime) {
    let refused = room(rt.alloc(), usize::MAX).err();
    prints(
        &rt,
        rt.alloc(),
        refused.expect(&rt, "a refusal"),
        "F1 Memory",
    );
}
