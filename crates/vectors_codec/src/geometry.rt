//! Files of empty packets of other geometries than a page's; the numbers come from worked examples
//! of T.800's formulas and from another encoder.

use crate::asserts::{equal, equal_at};
use crate::calls::{decode, encode, plain, refusal};
use crate::texts::bytes;
use jk_marks::Order;
use jk_math::{Fault, Image};
use jk_params::Parameters;
use std::alloc::Global;
use std::process::Abort;

/// Parameters with these levels and precinct sizes, for a bare codestream.
fn parameters(rt: &impl Abort, alloc: Global, levels: u8, sizes: &[(u8, u8)]) -> Parameters {
    let mut given = plain(alloc, levels);
    given
        .precincts
        .extend_from_slice(sizes)
        .expect(rt, "an answer");
    given
}

/// An image of one sample throughout.
#[derive(Clone, Copy)]
struct Even {
    place: (u32, u32),
    size: (u32, u32),
    components: usize,
    depth: u8,
    signed: bool,
    sample: i32,
}

/// Grey samples of 128.
fn grey(place: (u32, u32), size: (u32, u32)) -> Even {
    Even {
        place,
        size,
        components: 1,
        depth: 8,
        signed: false,
        sample: 128,
    }
}

/// The samples of a component.
fn plane_of(rt: &impl Abort, alloc: Global, even: Even) -> Vec<i32> {
    let (width, height) = even.size;
    let samples = vec![in alloc; even.sample; width as usize * height as usize];
    samples.expect(rt, "samples")
}

/// The image.
fn image_of(rt: &impl Abort, alloc: Global, even: Even) -> Image {
    let (x, y) = even.place;
    let (width, height) = even.size;
    let mut planes = Vec::new(alloc);
    for _ in 0..even.components {
        planes.push(plane_of(rt, alloc, even)).expect(rt, "a plane");
    }
    Image::new(x, y, width, height, even.depth, even.signed, planes).expect(rt, "an image")
}

/// Its file.
fn file_of(rt: &impl Abort, alloc: Global, even: Even, given: &Parameters) -> Vec<u8> {
    encode(rt, alloc, &image_of(rt, alloc, even), given)
}

/// Whether each sample is this one.
fn is_even(image: &Image, sample: i32) -> bool {
    for c in 0..image.planes().len() {
        if !image.planes().plane(c).iter().all(|s| *s == sample) {
            return false;
        }
    }
    true
}

/// What a file means at a reduction: where the image lies and its size, and whether each sample is
/// this one.
pub(crate) fn seen(
    rt: &impl Abort,
    alloc: Global,
    file: &[u8],
    reduce: u32,
    sample: i32,
) -> ((u32, u32, u32, u32), bool) {
    let image = decode(rt, alloc, file, reduce);
    let frame = (image.x0(), image.y0(), image.width(), image.height());
    (frame, is_even(&image, sample))
}

/// The bytes of a text stand at a place of a file.
fn stands(rt: &impl Abort, alloc: Global, file: &[u8], place: usize, text: &str) {
    let due = bytes(rt, alloc, &[text]);
    let found = file.get(place..place.saturating_add(due.len()));
    equal(rt, found, Some(due.as_slice()));
}

/// The bytes of a text are the end of a file, from a place on.
fn ends(rt: &impl Abort, alloc: Global, file: &[u8], place: usize, text: &str) {
    let due = bytes(rt, alloc, &[text]);
    equal(rt, file.get(place..), Some(due.as_slice()));
}

/// COD and QCD of many packets, the front of their tile-part, and the first packets.
static MANY_FRONT: &str =
    "FF52 000F 07 00 0003 00 02 04 04 00 01 33 33 33 FF5C 000A 40 40 48 48 50 48 48 50 FF90 000A 0000 000008EA 00 01 FF93 FF91 0004 0000 00 FF92 FF91 0004 0001 00 FF92";

#[test]
fn many_packets(rt: HostRuntime) {
    let alloc = rt.alloc();
    let mut given = parameters(&rt, alloc, 2, &[(3, 3), (3, 3), (3, 3)]);
    given.layers = 3;
    given.sop = true;
    given.eph = true;
    let file = file_of(&rt, alloc, grey((0, 0), (64, 64)), &given);
    equal(&rt, file.len(), 2358);
    stands(&rt, alloc, &file, 45, MANY_FRONT);
    ends(&rt, alloc, &file, 2347, "FF91 0004 00FB 00 FF92 FFD9");
    equal(&rt, seen(&rt, alloc, &file, 0, 128), ((0, 0, 64, 64), true));
}

#[test]
fn precinct_without_blocks(rt: HostRuntime) {
    let alloc = rt.alloc();
    let given = parameters(&rt, alloc, 1, &[(2, 2), (2, 2)]);
    let file = file_of(&rt, alloc, grey((0, 0), (5, 5)), &given);
    let part = "FF90 000A 0000 00000013 00 01 FF93 00 00 00 00 00 FFD9";
    equal(&rt, file.len(), 91);
    ends(&rt, alloc, &file, 70, part);
    equal(&rt, seen(&rt, alloc, &file, 0, 128), ((0, 0, 5, 5), true));
}

/// One sample at an odd column: resolution 0 has none, and no packet.
#[test]
fn empty_resolution(rt: HostRuntime) {
    let alloc = rt.alloc();
    let file = file_of(&rt, alloc, grey((1, 0), (1, 1)), &plain(alloc, 1));
    let part = "FF90 000A 0000 0000000F 00 01 FF93 00 FFD9";
    equal(&rt, file.len(), 85);
    ends(&rt, alloc, &file, 68, part);
    equal(&rt, seen(&rt, alloc, &file, 0, 128), ((1, 0, 1, 1), true));
    equal(&rt, refusal(alloc, &file, 1), Some(Fault::BadWindow));
}

/// The first four of nine tiles' parts.
static NINE: &str =
    "FF90 000A 0000 00000011 00 01 FF93 00 00 00 FF90 000A 0001 00000012 00 01 FF93 00 00 00 00 FF90 000A 0002 00000010 00 01 FF93 00 00 FF90 000A 0003 00000014 00 01 FF93 00 00 00 00 00 00";

/// Nine tiles with odd corners, in an order.
fn nine_in(rt: &impl Abort, alloc: Global, order: Order) {
    let mut given = parameters(rt, alloc, 1, &[(1, 1), (2, 2)]);
    given.tile = Some((8, 8));
    given.order = order;
    let file = file_of(rt, alloc, grey((3, 5), (17, 13)), &given);
    equal_at(rt, order, file.len(), 234);
    stands(rt, alloc, &file, 70, NINE);
    let whole = seen(rt, alloc, &file, 0, 128);
    equal_at(rt, order, whole, ((3, 5, 17, 13), true));
    let half = seen(rt, alloc, &file, 1, 128);
    equal_at(rt, order, half, ((2, 3, 8, 6), true));
    equal_at(rt, order, refusal(alloc, &file, 2), Some(Fault::BadWindow));
}

#[test]
fn nine_tiles(rt: HostRuntime) {
    nine_in(&rt, rt.alloc(), Order::Lrcp);
    nine_in(&rt, rt.alloc(), Order::Rlcp);
    nine_in(&rt, rt.alloc(), Order::Rpcl);
    nine_in(&rt, rt.alloc(), Order::Pcrl);
    nine_in(&rt, rt.alloc(), Order::Cprl);
}

/// Components, depths, signs and levels.
#[derive(Clone, Copy)]
struct Kind {
    components: usize,
    depth: u8,
    signed: bool,
    levels: u8,
    layers: u16,
    colour: bool,
}

/// The image of a kind, at an odd place.
fn odd_image(kind: Kind) -> Even {
    let sample = if kind.signed || kind.depth < 1 || 16 < kind.depth {
        0
    } else {
        1 << (kind.depth - 1)
    };
    Even {
        place: (7, 9),
        size: (33, 21),
        components: kind.components,
        depth: kind.depth,
        signed: kind.signed,
        sample,
    }
}

/// Its parameters, with tiles and code-blocks of other sizes.
fn odd_parameters(alloc: Global, kind: Kind) -> Parameters {
    let mut given = plain(alloc, kind.levels);
    given.layers = kind.layers;
    given.colour = kind.colour;
    given.tile = Some((16, 10));
    given.xcb = 3;
    given.ycb = 4;
    given.sop = true;
    given
}

/// The components, depth and sign that a file means.
fn form(rt: &impl Abort, alloc: Global, file: &[u8]) -> (usize, u8, bool) {
    let image = decode(rt, alloc, file, 0);
    (image.planes().len(), image.depth(), image.signed())
}

/// How long the file of a kind is, and what its reductions are.
fn has_length(rt: &impl Abort, alloc: Global, kind: Kind, length: usize) {
    let even = odd_image(kind);
    let file = file_of(rt, alloc, even, &odd_parameters(alloc, kind));
    equal(rt, file.len(), length);
    let whole = seen(rt, alloc, &file, 0, even.sample);
    equal_at(rt, length, whole, ((7, 9, 33, 21), true));
    let due = (kind.components, kind.depth, kind.signed);
    equal_at(rt, length, form(rt, alloc, &file), due);
    let half = seen(rt, alloc, &file, 1, even.sample);
    equal_at(rt, length, half, ((4, 5, 16, 10), true));
}

/// Kinds, and how long their files are.
static KINDS: [(Kind, usize); 4] = [
    (
        Kind {
            components: 3,
            depth: 8,
            signed: false,
            levels: 5,
            layers: 1,
            colour: true,
        },
        823,
    ),
    (
        Kind {
            components: 2,
            depth: 12,
            signed: true,
            levels: 3,
            layers: 2,
            colour: false,
        },
        961,
    ),
    (
        Kind {
            components: 4,
            depth: 16,
            signed: false,
            levels: 1,
            layers: 1,
            colour: true,
        },
        625,
    ),
    (
        Kind {
            components: 3,
            depth: 1,
            signed: false,
            levels: 2,
            layers: 5,
            colour: false,
        },
        2410,
    ),
];

#[test]
fn components_and_depths(rt: HostRuntime) {
    for (kind, length) in &KINDS {
        has_length(&rt, rt.alloc(), *kind, *length);
    }
}

/// The parts of a codestream around its width, twice, which has as many packets as its image has
/// columns.
static WIDE: [&str; 3] = [
    "FF4F FF51 0029 0000 0000",
    "00001000 00000000 00000000 0000",
    "00001000 00000000 00000000 0001 07 01 01 FF52 000D 01 00 0001 00 00 04 04 00 01 00 FF5C 0004 40 40 FF90 000A 0000 0000000E 00 01 FF93 FFD9",
];

/// The fault of a codestream of this width.
fn refused_at(rt: &impl Abort, alloc: Global, width: &str) -> Option<Fault> {
    let file = bytes(rt, alloc, &[WIDE[0], width, WIDE[1], width, WIDE[2]]);
    refusal(alloc, &file, 0)
}

/// Whether an image with this side is encoded with precincts of one sample and 32 layers.
fn checked(rt: &impl Abort, alloc: Global, side: u32) -> Result<(), Fault> {
    let mut many = parameters(rt, alloc, 0, &[(0, 0)]);
    many.layers = 32;
    let image = image_of(rt, alloc, grey((0, 0), (side, side)));
    many.check(&image)
}

/// One packet too many, by the main header's codings, in a file and in parameters.
#[test]
fn count_of_packets(rt: HostRuntime) {
    let alloc = rt.alloc();
    let most = refused_at(&rt, alloc, "1000");
    equal(&rt, most, Some(Fault::MissingPackets));
    let over = refused_at(&rt, alloc, "1001");
    equal(&rt, over, Some(Fault::Limit));
    equal(&rt, checked(&rt, alloc, 724), Ok(()));
    equal(&rt, checked(&rt, alloc, 725), Err(Fault::BadParameters));
}
