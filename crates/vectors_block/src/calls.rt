//! The calls that the tests make. What a call wants of its caller is asked for here, once, and what it
//! promises is left out: a test says what is answered, and proves nothing by it.

ghost use Rattle.std.specs.Prelude.{◌^◌, ◌<◌, All, IsTrue, unsigned_abs};

use jk_block::{Block, BlockShape, CodedBlock};
use jk_math::{Fault, Orientation, Style};
use std::alloc::Global;
use std::process::Abort;
use vectors::equal;

/// The sub-band of a word.
pub(crate) fn orientation_of(word: &str) -> Orientation {
    match word {
        "HL" => Orientation::HL,
        "LH" => Orientation::LH,
        "HH" => Orientation::HH,
        _ => Orientation::LL,
    }
}

/// The style of a word.
pub(crate) fn style_of(word: &str) -> Style {
    Style {
        reset: word == "reset",
        causal: word == "causal",
        segments: word == "symbols",
    }
}

/// What a segment means.
pub(crate) fn decode(
    rt: &impl Abort,
    alloc: Global,
    segment: &[u8],
    shape: BlockShape,
    planes: u32,
    passes: usize,
) -> Result<Block, Fault> {
    let (width, height) = (shape.width, shape.height);
    assert!(rt; 1 <= width && width <= 1024 && 1 <= height && height <= 1024);
    assert!(rt; width * height <= 4096 && planes <= 23);
    jk_block::decode(alloc, segment, shape, planes, passes)
}

/// Whether each magnitude is below 2^23.
fn is_small(values: &[i32]) -> bool
    ensures { IsTrue result → All (λ v. unsigned_abs v < 2 ^ 23) values.now }
{
    values.iter().all(|value| value.unsigned_abs() < 1 << 23)
}

/// What is written of a block.
fn code(rt: &impl Abort, alloc: Global, block: &Block) -> CodedBlock {
    let (width, height) = (block.width, block.height);
    assert!(rt; width <= 1024 && height <= 1024);
    assert!(rt; width * height <= 4096 && block.values.len() == width * height);
    assert!(rt; is_small(&block.values));
    jk_block::code(alloc, block).expect(rt, "a block")
}

/// Codes a block, and reads it back.
pub(crate) fn codes(rt: &impl Abort, alloc: Global, block: &Block) -> CodedBlock {
    let coded = code(rt, alloc, block);
    let shape = BlockShape {
        width: block.width,
        height: block.height,
        orientation: block.orientation,
        style: block.style,
    };
    let again = decode(rt, alloc, &coded.bytes, shape, coded.planes, coded.passes);
    let again = again.expect(rt, "what was written");
    equal(again.values.as_slice(), block.values.as_slice()).expect(rt, "coefficients");
    coded
}
