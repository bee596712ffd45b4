//! Blocks of all shapes and styles, against a plain encoder.

use crate::calls::codes;
use crate::model::Model;
use crate::written::SHAPES;
use jk_block::Block;
use jk_math::{Orientation, Style};
use std::alloc::Global;
use std::process::Abort;
use vectors::equal_at;

/// Small shapes: one place, columns and rows of a stripe and beside it, and words of eight columns.
static SMALL: [(usize, usize); 12] = [
    (1, 1),
    (1, 3),
    (2, 4),
    (3, 5),
    (4, 4),
    (7, 8),
    (8, 4),
    (8, 9),
    (9, 8),
    (16, 7),
    (17, 12),
    (5, 33),
];

/// What the coefficients of a made block are like.
#[derive(Clone, Copy)]
enum Kind {
    /// Each magnitude has up to 13 bits.
    Noise,
    /// One in 16 isn't zero, of up to five bits.
    Sparse,
    /// Magnitudes grow along rows.
    Smooth,
    /// All but a few are one and the same.
    Flat,
}

static KINDS: [Kind; 4] = [Kind::Noise, Kind::Sparse, Kind::Smooth, Kind::Flat];

static ORIENTATIONS: [Orientation; 4] = [
    Orientation::LL,
    Orientation::HL,
    Orientation::LH,
    Orientation::HH,
];

/// A number and itself, so many places to the left.
fn to_left(value: u32, places: u32) -> u32 {
    value ^ value.wrapping_shl(places)
}

/// A number and itself, so many places to the right.
fn to_right(value: u32, places: u32) -> u32 {
    value ^ value.wrapping_shr(places)
}

/// The next of a chain of numbers (xorshift).
fn next(number: u32) -> u32 {
    to_left(to_right(to_left(number, 13), 17), 5)
}

/// A coefficient of its kind, in a column, by chance.
fn coefficient(kind: Kind, chance: u32, x: usize) -> i32 {
    let sign = if chance & 1 == 0 { 1 } else { -1 };
    let magnitude = match kind {
        Kind::Noise => chance >> 4 & 0x1FFF,
        Kind::Sparse => {
            if chance >> 4 & 0xF == 0 {
                chance >> 8 & 0x1F
            } else {
                0
            }
        }
        Kind::Smooth => (x & 0x3F) as u32 + (chance >> 4 & 1),
        Kind::Flat => { if chance >> 4 & 0xFF == 0 { 3 } else { 100 } }
    };
    (magnitude & 0xFFFF) as i32 * sign
}

/// The style of this number below 8.
fn style_of(number: usize) -> Style {
    let mut style = Style::plain();
    style.reset = number % 2 == 1;
    style.causal = number / 2 % 2 == 1;
    style.segments = number / 4 % 2 == 1;
    style
}

/// The coefficients of a made block.
fn values_of(rt: &impl Abort, alloc: Global, width: usize, height: usize, kind: Kind) -> Vec<i32> {
    let mut chance = 2_463_534_242;
    let mut values = Vec::new(alloc);
    for _ in 0..height {
        for x in 0..width {
            chance = next(chance);
            values
                .push(coefficient(kind, chance, x))
                .expect(rt, "a coefficient");
        }
    }
    values
}

/// A made block.
fn block_of(
    rt: &impl Abort,
    alloc: Global,
    shape: (usize, usize),
    style: usize,
    kind: usize,
) -> Block {
    let (width, height) = shape;
    Block {
        width,
        height,
        orientation: ORIENTATIONS[style.wrapping_add(kind) % 4],
        style: style_of(style),
        values: values_of(rt, alloc, width, height, KINDS[kind % 4]),
    }
}

/// A block is written as the plain encoder writes it, byte for byte and mark for mark.
fn agrees(rt: &impl Abort, alloc: Global, shape: (usize, usize), style: usize, kind: usize) {
    let block = block_of(rt, alloc, shape, style, kind);
    let coded = codes(rt, alloc, &block);
    let model = Model::new(rt, alloc, &block);
    let (bytes, marks) = model.code(rt, alloc, coded.planes);
    let case = (shape, style, kind);
    equal_at(case, coded.bytes.as_slice(), bytes.as_slice()).expect(rt, "bytes");
    equal_at(case, coded.marks.as_slice(), marks.as_slice()).expect(rt, "marks");
}

/// Small blocks of each kind in each style.
#[test]
fn small_blocks(rt: HostRuntime) {
    for shape in &SMALL {
        for style in 0..8 {
            for kind in 0..4 {
                agrees(&rt, rt.alloc(), *shape, style, kind);
            }
        }
    }
}

/// Blocks on both sides of each length of the arrays, in each style.
#[test]
fn large_blocks(rt: HostRuntime) {
    for (number, shape) in SHAPES.iter().enumerate() {
        for style in 0..8 {
            let kind = (number % 4).wrapping_add(style);
            agrees(&rt, rt.alloc(), *shape, style, kind);
        }
    }
}
