//! The boxes of a JP2 file.

ghost use Rattle.std.specs.Prelude.{◌≡◌, ◌≤◌, length, IfOk, IfSome};
ghost use Rattle.jk_boxes.specs.Boxes.{head_size};
ghost use Rattle.jk_commands.specs.BoxList.{box_named, boxes_from};

use byteorder::{BigEndian, ByteOrder};
use std::alloc::{AllocError, Global};

/// The kind and the length of the box that begins these bytes, which go on to the end of the file
/// (T.800 I.4); none where there is no box.
#[tactic(auto, unfolding(jk_boxes::specs::Reading::box_at, jk_boxes::specs::Reading::length_at))]
fn read_box(rest: &[u8]) -> Option<(u32, usize)>
    ensures value { result ≡ box_named rest.now }
    ensures within { IfSome result (λ b. b.1 ≤ length rest.now) }
{
    if rest.len() < 8 {
        return None;
    }
    let kind = BigEndian::read_u32(&rest[4..]);
    let short = BigEndian::read_u32(rest);
    if short == 0 {
        return Some((kind, rest.len()));
    }
    if short != 1 {
        if short < 8 || rest.len() < short as usize {
            return None;
        }
        return Some((kind, short as usize));
    }
    if rest.len() < 16 {
        return None;
    }
    let long = BigEndian::read_u64(&rest[8..]);
    if long < 16 || (rest.len() as u64) < long {
        return None;
    }
    Some((kind, long as usize))
}

/// The kind and the length of each box of a JP2 file, in order.
pub(crate) fn boxes(alloc: Global, file: &[u8]) -> Result<Vec<(u32, usize)>, AllocError>
    ensures { IfOk result (λ v. v.items ≡ boxes_from (length file.now) file.now) }
{
    let mut boxes = Vec::new(alloc);
    let mut at = 0;
    // A box has eight bytes or more, so this is more often than it takes.
    for _ in 0..file.len() {
        let Some((kind, size)) = read_box(&file[at..]) else {
            return Ok(boxes);
        };
        boxes.push((kind, size))?;
        at += size;
    }
    Ok(boxes)
}
