//! Indexes and cuts.

use crate::window::asserts::{equal, equal_at};
use crate::window::calls::{
    cut, decode, decode_window, decode_window_by, file_of, index_of, many, sample, view,
};
use crate::window::many::MANY;
use jk_marks::Order;
use jk_math::{Fault, Image};
use jk_window::{Index, View};
use std::alloc::Global;
use std::process::Abort;
use vectors::Line;

/// One grey sample, 128, without levels.
pub(crate) static PAGE: &str =
    "FF4F FF51 0029 0000 00000001 00000001 00000000 00000000 00000001 00000001 00000000 00000000 0001 07 01 01 FF52 000C 00 00 0001 00 00 04 04 00 01 FF5C 0004 40 40 FF90 000A 0000 0000000F 00 01 FF93 00 FFD9";

/// 2 by 2 grey samples with one level, up to the tile-part.
pub(crate) static SMALL: &str =
    "FF4F FF51 0029 0000 00000002 00000002 00000000 00000000 00000002 00000002 00000000 00000000 0001 07 01 01 FF52 000C 00 00 0001 00 01 04 04 00 01 FF5C 0007 40 40 48 48 50";

/// One column of 9 samples with one level.
pub(crate) static COLUMN: &str =
    "FF4F FF51 0029 0000 00000001 00000009 00000000 00000000 00000001 00000009 00000000 00000000 0001 07 01 01 FF52 000C 00 00 0001 00 01 04 04 00 01 FF5C 0007 40 40 48 48 50 FF90 000A 0000 0000001E 00 01 FF93 C7 D4 0C 01 8F 0D C8 75 7F C0 7C 21 80 0F B1 7F FFD9";

/// One grey sample, 129, with QCC and COM, up to TLM.
pub(crate) static PASSED: &str =
    "FF4F FF51 0029 0000 00000001 00000001 00000000 00000000 00000001 00000001 00000000 00000000 0001 07 01 01 FF52 000C 00 00 0001 00 00 04 04 00 01 FF5C 0004 40 40 FF5D 0005 00 40 40 FF64 0006 0001 4142";

/// The signature box, the file type box and the JP2 header box of a grey image of 2 by 2.
static BOXES: &str =
    "0000000C 6A502020 0D0A870A 00000014 66747970 6A703220 00000000 6A703220 0000002D 6A703268 00000016 69686472 00000002 00000002 0001 07 07 00 00 0000000F 636F6C72 01 00 00 00000011";

/// One grey sample, 255, in eight layers, of which the first has no bit; up to Psot.
static LAYERED: &str =
    "FF4F FF51 0029 0000 00000001 00000001 00000000 00000000 00000001 00000001 00000000 00000000 0001 07 01 01 FF52 000C 00 00 0008 00 00 04 04 00 01 FF5C 0004 40 40 FF90 000A 0000";

static ALL_LAYERS: &str = "0000001E 00 01 FF93 00 A42000 F000 F000 F000 F000 F000 F000 FFD9";

/// How many of its layers are kept, the rest of its file then, how many bytes the file has, and its
/// sample (T.800 B.10.3).
static LAYERS: &str = "\
1|00000016 00 01 FF93 00 00 00 00 00 00 00 00 FFD9|89|128
4|0000001A 00 01 FF93 00 A42000 F000 F000 00 00 00 00 FFD9|93|240
7|0000001D 00 01 FF93 00 A42000 F000 F000 F000 F000 F000 00 FFD9|96|254
8|0000001E 00 01 FF93 00 A42000 F000 F000 F000 F000 F000 F000 FFD9|97|255
9|0000001E 00 01 FF93 00 A42000 F000 F000 F000 F000 F000 F000 FFD9|97|255
4294967295|0000001E 00 01 FF93 00 A42000 F000 F000 F000 F000 F000 F000 FFD9|97|255";

/// A view cut out of a file.
fn cut_of(rt: &impl Abort, alloc: Global, bytes: &[u8], view: View) -> Vec<u8> {
    let kept = index_of(rt, alloc, bytes);
    cut(alloc, &kept, bytes, view).expect(rt, "a cut")
}

/// What the readers of an index say.
fn numbers(index: &Index) -> (u32, u32, u16, u8, u8) {
    (
        index.width(),
        index.height(),
        index.components(),
        index.depth(),
        index.levels(),
    )
}

/// What its other readers say.
fn counts(index: &Index) -> (u16, Order, usize, u64) {
    (
        index.layers(),
        index.order(),
        index.tiles(),
        index.packets(),
    )
}

/// The readers of the index of a file say this.
fn reads(
    rt: &impl Abort,
    alloc: Global,
    file: &str,
    due: (u32, u32, u16, u8, u8),
    others: (u16, Order, usize, u64),
) {
    let index = index_of(rt, alloc, &file_of(rt, alloc, &[file]));
    equal(rt, "numbers", numbers(&index), due);
    equal(rt, "counts", counts(&index), others);
}

#[test]
fn readers(rt: HostRuntime) {
    let (page, of_many) = ((1, 1, 1, 8, 0), (64, 64, 1, 8, 2));
    reads(&rt, rt.alloc(), PAGE, page, (1, Order::Lrcp, 1, 1));
    reads(&rt, rt.alloc(), MANY, of_many, (3, Order::Lrcp, 1, 252));
}

/// The view of the lower resolution of a file of these texts is cut out as these texts.
fn cuts(
    rt: &impl Abort,
    alloc: Global,
    old: &[&str],
    view: View,
    new: &[&str],
    lengths: (usize, usize),
) {
    let file = file_of(rt, alloc, old);
    let reply = cut_of(rt, alloc, &file, view);
    let due = file_of(rt, alloc, new);
    equal(rt, "bytes", (file.len(), reply.len()), lengths);
    equal(rt, "a cut", reply.as_slice(), due.as_slice());
}

/// The tile-part of 2 by 2 samples, and the same where the second packet is empty.
static OLD_PART: &str = "FF90 000A 0000 00000018 00 01 FF93 C0 21 03 C0 10 A0 04 20 03 07 FFD9";

static NEW_PART: &str = "FF90 000A 0000 00000012 00 01 FF93 C0 21 03 00 FFD9";

#[test]
fn a_packet_emptied(rt: HostRuntime) {
    let (old, new) = ([SMALL, OLD_PART], [SMALL, NEW_PART]);
    cuts(&rt, rt.alloc(), &old, view(1, 0, 0, 1, 1), &new, (94, 88));
}

/// The file of the view of one sample in the first layers, or in all.
fn layers_of(rt: &impl Abort, alloc: Global, count: Option<u32>) -> Vec<u8> {
    let file = file_of(rt, alloc, &[LAYERED, ALL_LAYERS]);
    let asked = View {
        layers: count,
        ..view(0, 0, 0, 1, 1)
    };
    cut_of(rt, alloc, &file, asked)
}

/// The file of the first layers has this rest, so many bytes, and this sample.
fn keeps(rt: &impl Abort, alloc: Global, count: Option<u32>, rest: &str, length: usize, due: i32) {
    let reply = layers_of(rt, alloc, count);
    let wanted = file_of(rt, alloc, &[LAYERED, rest]);
    equal_at(rt, "a cut", count, reply.as_slice(), wanted.as_slice());
    equal_at(rt, "bytes", count, reply.len(), length);
    let image = decode(alloc, &reply, 0).expect(rt, "an image");
    equal_at(rt, "a sample", count, sample(&image, 0, 0), Some(due));
}

/// The file of the first layers of a row.
fn keeps_row(rt: &impl Abort, alloc: Global, row: &str) {
    let mut line = Line::new(row, '|');
    let count = line.number(0, 0xFFFF_FFFF) as u32;
    let rest = line.word();
    let length = line.number(0, 255) as usize;
    let due = line.number(0, 255) as i32;
    line.end().expect(rt, "a row");
    keeps(rt, alloc, Some(count), rest, length, due);
}

#[test]
fn layers_emptied(rt: HostRuntime) {
    for row in LAYERS.split('\n') {
        keeps_row(&rt, rt.alloc(), row);
    }
    keeps(&rt, rt.alloc(), None, ALL_LAYERS, 97, 255);
}

/// The sample of a decoded window, if there is one.
fn sample_of(answer: Result<Image, Fault>) -> Result<Option<i32>, Fault> {
    match answer {
        Ok(image) => Ok(sample(&image, 0, 0)),
        Err(fault) => Err(fault),
    }
}

/// How many bytes a file has, or why there is none.
fn length_of(answer: Result<Vec<u8>, Fault>) -> Result<usize, Fault> {
    match answer {
        Ok(file) => Ok(file.len()),
        Err(fault) => Err(fault),
    }
}

/// Of a view in so many layers: how many bytes its cut has; and the sample 255 is decoded of it, by
/// the bytes and by the index.
fn in_layers(rt: &impl Abort, alloc: Global, count: u32, due: Result<usize, Fault>) {
    let file = file_of(rt, alloc, &[LAYERED, ALL_LAYERS]);
    let kept = index_of(rt, alloc, &file);
    let asked = View {
        layers: Some(count),
        ..view(0, 0, 0, 1, 1)
    };
    let found = length_of(cut(alloc, &kept, &file, asked));
    equal_at(rt, "a cut", count, found, due);
    let whole = sample_of(decode_window(alloc, &file, asked));
    equal_at(rt, "by the bytes", count, whole, Ok(Some(255)));
    let by_index = sample_of(decode_window_by(alloc, &file, &kept, asked));
    equal_at(rt, "by the index", count, by_index, Ok(Some(255)));
}

/// A view in no layer has no cut. What is decoded has all layers, whatever layers the view asks for.
#[test]
fn no_layer(rt: HostRuntime) {
    in_layers(&rt, rt.alloc(), 0, Err(Fault::BadWindow));
    in_layers(&rt, rt.alloc(), 1, Ok(89));
}

#[test]
fn a_box_that_shrinks(rt: HostRuntime) {
    let old = [BOXES, "00000066 6A703263", SMALL, OLD_PART];
    let new = [BOXES, "00000060 6A703263", SMALL, NEW_PART];
    cuts(&rt, rt.alloc(), &old, view(1, 0, 0, 1, 1), &new, (179, 173));
}

/// A view of a file has no cut.
fn has_none(rt: &impl Abort, alloc: Global, kept: &Index, file: &[u8], view: View, due: Fault) {
    let fault = cut(alloc, kept, file, view).err();
    equal_at(rt, "a fault", view, fault, Some(due));
}

/// A view of a file is the whole file.
fn is_whole(rt: &impl Abort, alloc: Global, kept: &Index, file: &[u8], view: View) {
    let whole = cut(alloc, kept, file, view).expect(rt, "a cut");
    equal(rt, "a cut", whole.as_slice(), file);
}

/// What an index says of whether it sees a view.
fn sees(kept: &Index, view: View) -> Result<(), Fault> {
    kept.sees(view)
}

#[test]
fn views_without_a_window(rt: HostRuntime) {
    let file = file_of(&rt, rt.alloc(), &[COLUMN]);
    let kept = index_of(&rt, rt.alloc(), &file);
    let seen = view(0, 0, 8, 5, 5);
    is_whole(&rt, rt.alloc(), &kept, &file, seen);
    equal(&rt, "a view", sees(&kept, seen), Ok(()));
    let higher = sees(&kept, view(2, 0, 0, 1, 1));
    equal(&rt, "a view", higher, Err(Fault::BadWindow));
    let (below, narrow) = (view(0, 0, 9, 1, 1), view(0, 0, 0, 0, 1));
    has_none(&rt, rt.alloc(), &kept, &file, below, Fault::BadWindow);
    has_none(&rt, rt.alloc(), &kept, &file, narrow, Fault::BadWindow);
}

/// The tile-part of one sample behind TLM and PLT, and the same without these.
static WITH_LENGTHS: &str =
    "FF55 0008 00 40 00000017 FF90 000A 0000 00000017 00 01 FF58 0004 00 03 FF93 C0 21 03 FFD9";

static WITHOUT_LENGTHS: &str = "FF90 000A 0000 00000011 00 01 FF93 C0 21 03 FFD9";

#[test]
fn lengths_left_out(rt: HostRuntime) {
    let (old, new) = ([PASSED, WITH_LENGTHS], [PASSED, WITHOUT_LENGTHS]);
    cuts(&rt, rt.alloc(), &old, view(0, 0, 0, 1, 1), &new, (115, 99));
}

#[test]
fn another_file(rt: HostRuntime) {
    let page = file_of(&rt, rt.alloc(), &[PAGE]);
    let page = index_of(&rt, rt.alloc(), &page);
    let other = file_of(&rt, rt.alloc(), &[COLUMN]);
    let one = view(0, 0, 0, 1, 1);
    has_none(&rt, rt.alloc(), &page, &other, one, Fault::Changed);
    has_none(&rt, rt.alloc(), &page, &[0xFF], one, Fault::Changed);
}

/// Where the packets of a file begin, each at its SOP, and behind the last one where they end, at
/// EOC.
fn packet_places(rt: &impl Abort, alloc: Global, bytes: &[u8]) -> Vec<usize> {
    let mut places = Vec::new(alloc);
    for (place, piece) in bytes.windows(4).enumerate() {
        if piece.starts_with(&[0xFF, 0x91, 0, 4]) {
            places.push(place).expect(rt, "a place");
        }
    }
    let end = bytes.len().saturating_sub(2);
    places.push(end).expect(rt, "a place");
    places
}

/// The bytes between two places, or none where there are no such places.
fn between(bytes: &[u8], first: usize, end: usize) -> &[u8] {
    if first <= end && end <= bytes.len() {
        &bytes[first..end]
    } else {
        &[]
    }
}

/// The nth of the places, or 0.
fn nth(places: &[usize], number: usize) -> usize {
    places.get(number).copied().unwrap_or(0)
}

/// The place of the box length of the codestream, and that of Psot, in the file of many packets.
const BOX_LENGTH: usize = 77;

const PSOT: usize = 165;

/// Appends bytes.
fn put(rt: &impl Abort, all: &mut Vec<u8>, bytes: &[u8]) {
    all.extend_from_slice(bytes).expect(rt, "bytes");
}

/// The packets of a file, of which those with these numbers in each layer stay: all others are their
/// SOP with its counter, a byte 00 and EPH. And how many these are.
fn packets_kept(
    rt: &impl Abort,
    alloc: Global,
    file: &[u8],
    places: &[usize],
    kept: &[usize],
) -> (Vec<u8>, usize) {
    let mut packets = Vec::new(alloc);
    let mut emptied: usize = 0;
    for number in 0..252 {
        if kept.contains(&(number % 84)) {
            let (first, end) = (nth(places, number), nth(places, number + 1));
            put(rt, &mut packets, between(file, first, end));
        } else {
            let empty = [0xFF, 0x91, 0, 4, 0, number as u8, 0, 0xFF, 0x92];
            put(rt, &mut packets, &empty);
            emptied = emptied.saturating_add(1);
        }
    }
    (packets, emptied)
}

/// A length in four bytes.
fn four_bytes(length: usize) -> [u8; 4] {
    (length.min(65_535) as u32).to_be_bytes()
}

/// The file that has these packets in the place of its own.
fn file_with(rt: &impl Abort, alloc: Global, file: &[u8], front: usize, packets: &[u8]) -> Vec<u8> {
    let length = front.saturating_add(packets.len()).saturating_add(2);
    // From SOT, which stands 6 bytes before Psot, to the end of the packets.
    let part_length = length.saturating_sub(PSOT).saturating_add(4);
    let mut due = Vec::new(alloc);
    put(rt, &mut due, between(file, 0, BOX_LENGTH));
    put(rt, &mut due, &four_bytes(length.saturating_sub(BOX_LENGTH)));
    put(rt, &mut due, between(file, BOX_LENGTH + 4, PSOT));
    put(rt, &mut due, &four_bytes(part_length));
    put(rt, &mut due, between(file, PSOT + 4, front));
    put(rt, &mut due, packets);
    put(rt, &mut due, &[0xFF, 0xD9]);
    due
}

/// A view of the file of many packets, of 84 precincts and 3 layers in LRCP, is cut out so that of
/// each layer the packets with these numbers stay, and so many others are emptied.
fn empties(rt: &impl Abort, alloc: Global, view: View, kept: &[usize], count: usize) -> Vec<u8> {
    let file = many(rt, alloc);
    let places = packet_places(rt, alloc, &file);
    equal(rt, "packets", places.len(), 253);
    let (packets, emptied) = packets_kept(rt, alloc, &file, &places, kept);
    equal(rt, "packets that are emptied", emptied, count);
    let due = file_with(rt, alloc, &file, nth(&places, 0), &packets);
    let found = cut_of(rt, alloc, &file, view);
    equal(rt, "a cut", found.as_slice(), due.as_slice());
    found
}

/// What stays of each layer in a view of 3 by 3 samples at the upper left corner: the first
/// precinct of each of the three resolutions, which have 4, 16 and 64 precincts.
static OF_CORNER: [usize; 3] = [0, 4, 20];

/// What stays in a view of 3 by 3 samples at (8, 8). It depends on the places 3 to 6 of the lower,
/// 3 to 5 of the higher parts of resolution 2, and so on the precincts 0 and 1 across and down of
/// eight; of these places on 1 to 4 and 0 to 3 of resolution 1, where no precinct but the first has
/// higher parts that are needed both ways, so 0, 1 and 4 of four across; and so on the first
/// precinct of resolution 0.
static OF_INNER: [usize; 8] = [0, 4, 5, 8, 20, 21, 28, 29];

#[test]
fn many_packets(rt: HostRuntime) {
    empties(&rt, rt.alloc(), view(0, 0, 0, 3, 3), &OF_CORNER, 243);
    let seen = view(0, 8, 8, 3, 3);
    let inner = empties(&rt, rt.alloc(), seen, &OF_INNER, 228);
    is_whole(
        &rt,
        rt.alloc(),
        &index_of(&rt, rt.alloc(), &inner),
        &inner,
        seen,
    );
}
