//! Two small images in each of the eight styles of code-blocks: what is written, and that it is read
//! as the image.

use crate::asserts::equal_at;
use crate::texts::pnm_of;
use crate::written::{in_colour, in_tiles, measure, tiled_samples};
use crate::written_with::two_blocks;
use jk_marks::{Order, style_of};

/// The byte of a style (T.800 table A.19), and the length and the checksum of one colour in two
/// code-blocks for each component, and of grey samples in nine tiles, as an independent encoder
/// writes them.
static STYLED: [(u32, (usize, u32), (usize, u32)); 8] = [
    (0x00, (133, 796347), (576, 6139001)),
    (0x02, (127, 630381), (584, 6188131)),
    (0x08, (133, 796859), (576, 6139465)),
    (0x0A, (127, 630893), (584, 6188595)),
    (0x20, (153, 1188432), (757, 9429459)),
    (0x22, (145, 919461), (764, 9838561)),
    (0x28, (153, 1188944), (757, 9429923)),
    (0x2A, (145, 919973), (764, 9839025)),
];

/// `measure` refuses a file that isn't read as each sample of its image.
#[test]
fn each_style_in_small_blocks(rt: HostRuntime) {
    let alloc = rt.alloc();
    let colour = two_blocks(&rt, alloc);
    let tiled = pnm_of(&rt, alloc, "P5\n17 13\n255\n", &tiled_samples(&rt, alloc));
    for (byte, in_blocks, in_nine) in &STYLED {
        let mut asked = in_colour(alloc, 2);
        asked.style = style_of(*byte);
        let found = measure(&rt, alloc, &colour, (0, 0), &asked);
        equal_at(&rt, *byte, found, *in_blocks);
        let mut asked = in_tiles(&rt, alloc, Order::Rpcl);
        asked.style = style_of(*byte);
        let found = measure(&rt, alloc, &tiled, (3, 5), &asked);
        equal_at(&rt, *byte, found, *in_nine);
    }
}
