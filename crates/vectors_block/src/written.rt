use crate::calls::{codes, orientation_of, style_of};
use crate::written_cases::WRITTEN;
use jk_block::{Block, CodedBlock, layers_have_bytes, layers_have_passes, written_is_read};
use jk_math::{Orientation, Style};
use std::alloc::Global;
use std::process::Abort;
use vectors::{Line, equal, equal_at, folded, sum_of};

/// The greatest magnitude that a coefficient may have.
const MOST: i32 = 8388607;

/// The coefficient of a pattern at a place.
fn coefficient(pattern: &str, x: usize, y: usize) -> i32 {
    let even = x % 2 == y % 2;
    match pattern {
        "extreme" => { if even { MOST } else { -MOST } }
        _ => match (even, y % 2, x % 2) {
            (true, 0, _) => 0,
            (true, _, _) => -1,
            (false, _, 0) => 1,
            (false, _, _) => -MOST,
        },
    }
}

/// A checksum of the bytes and then the marks.
fn checksum(coded: &CodedBlock) -> u32 {
    let mut sum = sum_of(&coded.bytes);
    for mark in &coded.marks {
        sum = folded(sum, (*mark & 0xFFFF) as u32);
    }
    sum
}

/// The coefficients of a pattern.
fn values_of(
    rt: &impl Abort,
    alloc: Global,
    width: usize,
    height: usize,
    pattern: &str,
) -> Vec<i32> {
    let mut values = Vec::new(alloc);
    for y in 0..height {
        for x in 0..width {
            values
                .push(coefficient(pattern, x, y))
                .expect(rt, "a coefficient");
        }
    }
    values
}

/// A block of the plain style.
fn block_of(width: usize, height: usize, orientation: Orientation, values: Vec<i32>) -> Block {
    Block {
        width,
        height,
        orientation,
        style: Style::plain(),
        values,
    }
}

/// What is told of a block that is written: bit-planes, passes, how many bytes, and a checksum.
fn told(coded: &CodedBlock) -> [u64; 4] {
    [
        coded.planes as u64,
        coded.passes as u64,
        coded.bytes.len() as u64,
        checksum(coded) as u64,
    ]
}

/// Codes the block of one line of the table.
fn writes(rt: &impl Abort, alloc: Global, text: &str) {
    let mut line = Line::new(text, ' ');
    let width = line.number(1, 9) as usize;
    let height = line.number(1, 9) as usize;
    let orientation = orientation_of(line.word());
    let values = values_of(rt, alloc, width, height, line.word());
    let due = [
        line.number(0, 255),
        line.number(0, 255),
        line.number(0, 65_535),
        line.number(0, 0xFFFF_FFFF),
    ];
    line.end().expect(rt, "a line");
    let block = block_of(width, height, orientation, values);
    let coded = codes(rt, alloc, &block);
    equal_at(text, told(&coded), due).expect(rt, "what is written");
}

#[test]
fn patterns(rt: HostRuntime) {
    let mut count = 0u32;
    for line in WRITTEN.lines() {
        writes(&rt, rt.alloc(), line);
        count = count.saturating_add(1);
    }
    equal(count, 162).expect(&rt, "lines");
}

/// Shapes of 16, 18, 64, 65, 192, 195, 774 and 390 words with their borders: on both sides of each
/// length of the arrays that hold them.
pub(crate) static SHAPES: [(usize, usize); 8] = [
    (9, 5),
    (1, 13),
    (48, 24),
    (24, 41),
    (73, 53),
    (81, 49),
    (4, 1024),
    (1024, 4),
];

/// Codes a block of a pattern, which has passes.
fn has_passes(rt: &impl Abort, alloc: Global, width: usize, height: usize, pattern: &str) {
    let values = values_of(rt, alloc, width, height, pattern);
    let block = block_of(width, height, Orientation::HL, values);
    let coded = codes(rt, alloc, &block);
    equal_at((width, height), coded.passes > 0, true).expect(rt, "passes");
}

#[test]
fn lengths_of_arrays(rt: HostRuntime) {
    for (width, height) in &SHAPES {
        has_passes(&rt, rt.alloc(), *width, *height, "extreme");
        has_passes(&rt, rt.alloc(), *width, *height, "alternating");
    }
}

/// Codes a column, and compares its bytes and marks.
fn gives(
    rt: &impl Abort,
    alloc: Global,
    orientation: Orientation,
    values: &[i32],
    bytes: &[u8],
    marks: &[usize],
) {
    let column = values.to_vec(alloc).expect(rt, "a column");
    let block = block_of(1, values.len(), orientation, column);
    let coded = codes(rt, alloc, &block);
    equal_at(values, coded.bytes.as_slice(), bytes).expect(rt, "bytes");
    equal_at(values, coded.marks.as_slice(), marks).expect(rt, "marks");
    equal_at(values, coded.passes, marks.len()).expect(rt, "passes");
}

/// A column in a style has these bytes.
fn in_style(rt: &impl Abort, alloc: Global, style: Style, values: &[i32], bytes: &[u8]) {
    let column = values.to_vec(alloc).expect(rt, "a column");
    let mut block = block_of(1, values.len(), Orientation::LL, column);
    block.style = style;
    let coded = codes(rt, alloc, &block);
    equal_at(values, coded.bytes.as_slice(), bytes).expect(rt, "bytes");
}

/// With context reset each pass begins anew; a segmentation symbol ends the one cleanup pass; with
/// vertically causal contexts the first stripe doesn't see the second.
#[test]
fn styled_blocks(rt: HostRuntime) {
    let alloc = rt.alloc();
    let column = [0, 0, 0, 1, 2];
    in_style(&rt, alloc, style_of("reset"), &[15], &[0x00, 0x7F]);
    in_style(&rt, alloc, style_of("symbols"), &[1], &[0x01]);
    in_style(&rt, alloc, style_of("plain"), &column, &[0x16, 0x9F]);
    in_style(&rt, alloc, style_of("causal"), &column, &[0x16, 0xE3]);
}

/// The marks of the column of five.
static MARKS: [usize; 16] = [0, 1, 1, 2, 2, 2, 2, 2, 3, 3, 3, 4, 4, 4, 4, 4];

/// Worked blocks: single coefficients, none, a column of five, a column in run mode.
#[test]
fn worked_blocks(rt: HostRuntime) {
    let alloc = rt.alloc();
    gives(&rt, alloc, Orientation::LL, &[1], &[0x03], &[0]);
    gives(&rt, alloc, Orientation::LL, &[15], &[0x00], &[0; 10]);
    gives(&rt, alloc, Orientation::LL, &[0], &[], &[]);
    let (values, bytes) = (
        [-26, -22, -30, -32, -19],
        [0x01, 0x8F, 0x0D, 0xC8, 0x75, 0x7F],
    );
    gives(&rt, alloc, Orientation::LL, &values, &bytes, &MARKS);
    let (values, bytes) = ([1, 5, 1, 0], [0x0F, 0xB1, 0x7F]);
    let marks = [0, 0, 0, 0, 1, 1, 1];
    gives(&rt, alloc, Orientation::LH, &values, &bytes, &marks);
    written_is_read();
    layers_have_passes();
    layers_have_bytes();
}
