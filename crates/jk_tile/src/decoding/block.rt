//! A code-block from its bodies.

ghost use Rattle.std.specs.Prelude.{◌≡◌, ◌<◌, ◌≤◌, ◌-◌, ◌*◌, ◌^◌, length, map, IfOk, All};
ghost use Rattle.jk_math.specs.Answer.{Answers};
ghost use Rattle.jk_math.specs.Signed.{IsBelow};
ghost use Rattle.jk_tile.specs.decoding.TileReading.{bodies_values};
ghost use Rattle.jk_tile.specs.decoding.Gathered.{body_of, IsInside};
ghost use Rattle.jk_tile.specs.TileBlocks.{IsBlockShape};

use crate::decoding::bodies::{BodyPlace, join, passes, zero_planes};
use jk_block::{Block, BlockShape, decode};
use jk_math::Fault;
use std::alloc::Global;

/// The code-block of this shape, in a sub-band of so many bit-planes, from its bodies in the
/// codestream. The segment of several bodies is joined in `segment`.
#[tactic(auto, unfolding(crate::specs::decoding::TileReading::bodies_values))]
pub(crate) fn read_block(
    alloc: Global,
    bytes: &[u8],
    bodies: &[BodyPlace],
    shape: BlockShape,
    planes: u32,
    segment: &mut Vec<u8>,
) -> Result<Block, Fault>
    requires shape { IsBlockShape shape }
    requires planes { planes ≤ 23 }
    requires inside { All (IsInside (length bytes.now)) bodies.now }
    ensures exact { Answers (λ b. b.values.items) result
        (bodies_values shape planes (map (body_of bytes.now) bodies.now)) }
    ensures small { IfOk result (λ b. All (IsBelow (2 ^ 23)) b.values.items) }
    ensures long { IfOk result (λ b. length b.values.items ≡ shape.height * shape.width) }
{
    let left = planes.saturating_sub(zero_planes(bodies) as u32);
    let count = passes(bodies);
    if bodies.len() == 1 {
        let body = bodies[0];
        let end = body.start + body.part.length as usize;
        return decode(alloc, &bytes[body.start..end], shape, left, count);
    }
    join(bytes, bodies, segment)?;
    decode(alloc, segment, shape, left, count)
}
