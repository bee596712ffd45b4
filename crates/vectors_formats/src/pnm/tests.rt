ghost use Rattle.std.specs.Prelude.{◌≤◌};

use crate::pnm::cases::{Case, OTHERS, REFUSED, Row, WRITTEN, spelled};
use jk_math::{Fault, Image};
use jk_pnm::{
    NoHeader, RasterFrame, no_header, read, read_owned, write, write_head_into, write_into,
    write_raster_into,
};
use std::alloc::Global;
use std::process::Abort;
use vectors::{equal, equal_at};

/// The samples of all components, one component behind the other.
fn samples(rt: &impl Abort, alloc: Global, image: &Image) -> Vec<i32> {
    let planes = image.planes();
    let mut all = Vec::new(alloc);
    for component in 0..planes.len() {
        all.extend_from_slice(planes.plane(component))
            .expect(rt, "samples");
    }
    all
}

/// An image has this picture.
fn shows(rt: &impl Abort, alloc: Global, image: &Image, case: &Case<'_>) {
    let file = case.file;
    let frame = [image.x0(), image.y0(), image.width(), image.height()];
    equal_at(file, frame, [0, 0, case.width, case.height]).expect(rt, "a frame");
    equal_at(file, (image.depth(), image.signed()), (case.depth, false)).expect(rt, "a depth");
    let found = samples(rt, alloc, image);
    equal_at(file, found.as_slice(), case.samples).expect(rt, "samples");
}

/// The same bytes, of their own.
fn owned(rt: &impl Abort, alloc: Global, bytes: &[u8]) -> Vec<u8> {
    Vec::from_slice(alloc, bytes).expect(rt, "bytes")
}

/// Reads a file, which must have this picture.
fn reads(rt: &impl Abort, alloc: Global, case: &Case<'_>) -> Image {
    let image = read(alloc, case.file).expect(rt, "an image");
    shows(rt, alloc, &image, case);
    let again = read_owned(alloc, owned(rt, alloc, case.file)).expect(rt, "an image");
    shows(rt, alloc, &again, case);
    image
}

/// Samples of 12 bits, and how they are written.
const FIVE: [(i32, [u8; 2]); 5] = [
    (0, [0, 0]),
    (255, [0, 255]),
    (256, [1, 0]),
    (2748, [10, 188]),
    (4095, [15, 255]),
];

/// What is written of an image into a writer.
fn sent(rt: &impl Abort, alloc: Global, image: &Image) -> Vec<u8> {
    let mut written = Vec::new(alloc);
    write_into(alloc, image, &mut written).expect(rt, "a file");
    written
}

/// The frame of an image.
fn frame_of(image: &Image) -> RasterFrame
    ensures { result.depth ≤ 16 }
{
    RasterFrame {
        components: image.planes().len().min(4) as u16,
        signed: image.signed(),
        width: image.width(),
        height: image.height(),
        depth: image.depth().min(16),
    }
}

/// The head of the file of an image, and the raster behind it.
fn head_and_raster(rt: &impl Abort, alloc: Global, image: &Image) -> Vec<u8> {
    let mut written = Vec::new(alloc);
    let frame = frame_of(image);
    equal(frame.has_file(), true).expect(rt, "a file");
    write_head_into(alloc, &frame, &mut written).expect(rt, "a head");
    write_raster_into(alloc, image, &mut written).expect(rt, "a raster");
    written
}

/// What is written of an image.
fn file_of(rt: &impl Abort, alloc: Global, image: &Image) -> Vec<u8> {
    write(alloc, image).expect(rt, "a file")
}

/// An image of black samples.
fn black(rt: &impl Abort, alloc: Global, signed: bool, components: usize) -> Image {
    let mut planes = Vec::new(alloc);
    for _ in 0..components {
        let plane = vec![in alloc; 0; 6].expect(rt, "samples");
        planes.push(plane).expect(rt, "samples");
    }
    Image::new(0, 0, 3, 2, 8, signed, planes).expect(rt, "an image")
}

#[test]
fn one_sample(rt: HostRuntime) {
    let file = b"P5\n1 1\n255\n\x80";
    equal(file.len(), 12).expect(&rt, "bytes");
    let case = Case {
        file,
        width: 1,
        height: 1,
        depth: 8,
        samples: &[128],
    };
    let image = reads(&rt, rt.alloc(), &case);
    let written = file_of(&rt, rt.alloc(), &image);
    equal(written.as_slice(), file.as_slice()).expect(&rt, "a file");
}

/// A file is read, and written as it was.
fn there_and_back(rt: &impl Abort, alloc: Global, case: &Case<'_>) {
    let image = reads(rt, alloc, case);
    let written = file_of(rt, alloc, &image);
    equal(written.as_slice(), case.file).expect(rt, "a file");
    let sent = sent(rt, alloc, &image);
    equal(sent.as_slice(), case.file).expect(rt, "a file that is sent");
    let joined = head_and_raster(rt, alloc, &image);
    equal(joined.as_slice(), case.file).expect(rt, "a head and a raster");
}

#[test]
fn written_files(rt: HostRuntime) {
    for line in WRITTEN.split('\n') {
        let row = Row::new(&rt, rt.alloc(), line);
        there_and_back(&rt, rt.alloc(), &row.case());
    }
}

/// Puts five samples behind others, and their bytes behind the others'.
fn put_five(rt: &impl Abort, samples: &mut Vec<i32>, file: &mut Vec<u8>) {
    for (sample, bytes) in &FIVE {
        samples.push(*sample).expect(rt, "a sample");
        file.extend_from_slice(bytes.as_slice()).expect(rt, "bytes");
    }
}

/// The image of so many grey samples of 12 bits.
fn grey(rt: &impl Abort, alloc: Global, width: u32, height: u32, samples: Vec<i32>) -> Image {
    let mut planes = Vec::new(alloc);
    planes.push(samples).expect(rt, "samples");
    Image::new(0, 0, width, height, 12, false, planes).expect(rt, "an image")
}

/// Samples of 12 bits, more of them than are put together at a time.
#[test]
fn several_pieces(rt: HostRuntime) {
    let mut samples = Vec::new(rt.alloc());
    let mut file = owned(&rt, rt.alloc(), b"P5\n300 200\n4095\n");
    for _ in 0..12_000 {
        put_five(&rt, &mut samples, &mut file);
    }
    let image = grey(&rt, rt.alloc(), 300, 200, samples);
    let found = sent(&rt, rt.alloc(), &image);
    equal(found.len(), file.len()).expect(&rt, "bytes");
    equal(found.as_slice() == file.as_slice(), true).expect(&rt, "a file");
}

/// A file is read, and written in another form, which is read as the same.
fn in_another_form(rt: &impl Abort, alloc: Global, case: &Case<'_>) {
    let image = reads(rt, alloc, case);
    let file = file_of(rt, alloc, &image);
    equal_at(case.file, file.as_slice() == case.file, false).expect(rt, "the same form");
    let file = file.as_slice();
    reads(rt, alloc, &Case { file, ..*case });
}

#[test]
fn other_files(rt: HostRuntime) {
    for line in OTHERS.split('\n') {
        let row = Row::new(&rt, rt.alloc(), line);
        in_another_form(&rt, rt.alloc(), &row.case());
    }
}

/// A file is refused.
fn refused(rt: &impl Abort, alloc: Global, file: &[u8]) {
    equal_at(file, read(alloc, file).err(), Some(Fault::BadPnm)).expect(rt, "a fault");
}

#[test]
fn no_files(rt: HostRuntime) {
    for text in REFUSED.split('\n') {
        let file = spelled(&rt, rt.alloc(), text);
        refused(&rt, rt.alloc(), &file);
    }
}

#[test]
fn fronts(rt: HostRuntime) {
    let file = b"P5\n1 1\n255\n\x80";
    for length in 0..file.len() {
        refused(&rt, rt.alloc(), &file[..length]);
    }
}

/// Fronts of files, and why no bytes behind them make a header of them, if that is so.
static BEGINNINGS: [(&str, Option<NoHeader>); 26] = [
    ("", None),
    ("P", None),
    ("P5", None),
    ("P6%09", None),
    ("P5 #", None),
    ("P5#1 1 255 %0a", None),
    ("P5 00", None),
    ("P5 268435456", None),
    ("P5 1 1 25", None),
    ("P5 1 1 256", None),
    ("P5 1 1 255", None),
    ("P5 1 1 255 ", None),
    ("P6 16384 16384 65535%0a%00", None),
    ("%00", Some(NoHeader::Magic)),
    ("p", Some(NoHeader::Magic)),
    ("P4", Some(NoHeader::Magic)),
    ("5P", Some(NoHeader::Magic)),
    ("P5x", Some(NoHeader::Numbers)),
    ("P51", Some(NoHeader::Numbers)),
    ("P5 0 ", Some(NoHeader::Numbers)),
    ("P5 1 -", Some(NoHeader::Numbers)),
    ("P5 268435457", Some(NoHeader::Numbers)),
    ("P5 1 1 256 ", Some(NoHeader::Maxval(256))),
    ("P5 1 1 131071#", Some(NoHeader::Maxval(131_071))),
    ("P5 1 1 255#", Some(NoHeader::Space)),
    (
        "P5 16385 16384 255 ",
        Some(NoHeader::Pixels(16_385, 16_384)),
    ),
];

/// Whether a header may come of the front of a file.
#[test]
fn beginnings(rt: HostRuntime) {
    let alloc = rt.alloc();
    for (front, due) in BEGINNINGS {
        let bytes = spelled(&rt, alloc, front);
        equal_at(front, no_header(&bytes), due).expect(&rt, "whether a header may come");
    }
}

/// An image has no file.
fn unwritten(rt: &impl Abort, alloc: Global, signed: bool, components: usize) {
    let due = Some(Fault::Unsupported);
    let image = black(rt, alloc, signed, components);
    equal_at(components, write(alloc, &image).err(), due).expect(rt, "a fault");
    let mut written = Vec::new(alloc);
    let refused = write_into(alloc, &image, &mut written).err();
    equal_at(components, (refused, written.len()), (due, 0)).expect(rt, "a fault");
    let refused = write_raster_into(alloc, &image, &mut written).err();
    equal_at(components, (refused, written.len()), (None, 0)).expect(rt, "nothing");
    equal_at(components, frame_of(&image).has_file(), false).expect(rt, "no file");
}

#[test]
fn unwritten_images(rt: HostRuntime) {
    unwritten(&rt, rt.alloc(), false, 2);
    unwritten(&rt, rt.alloc(), false, 4);
    unwritten(&rt, rt.alloc(), true, 1);
    unwritten(&rt, rt.alloc(), true, 3);
}

#[test]
fn another_place(rt: HostRuntime) {
    let image = black(&rt, rt.alloc(), false, 1).place(7, 9);
    let file = file_of(&rt, rt.alloc(), &image.expect(&rt, "an image"));
    let due = b"P5\n3 2\n255\n\0\0\0\0\0\0".as_slice();
    equal(file.as_slice(), due).expect(&rt, "a file");
    let case = Case {
        file: &file,
        width: 3,
        height: 2,
        depth: 8,
        samples: &[0, 0, 0, 0, 0, 0],
    };
    reads(&rt, rt.alloc(), &case);
}
