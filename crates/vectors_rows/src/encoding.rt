//! Images by chance, encoded row by row and whole: the same file, or the same fault.

ghost use Rattle.std.specs.Prelude.{◌<◌, ◌≤◌, IfOk};
ghost use Rattle.jk_params.specs.PictureFrames.{frame_of};
ghost use Rattle.jk_code.specs.RowsWritten.{IsStripe};

use crate::chance::{Chance, Kind, image, parameters};
use jk_code::{RowSupply, encode_into, encode_rows};
use jk_marks::Order;
use jk_math::{Fault, Image};
use jk_params::{Container, Parameters, frame_of};
use std::alloc::Global;
use std::io::{self, ErrorKind, Write};
use std::process::Abort;
use std::test::Fail;
use vectors::{equal, equal_at};

/// Rows `y` up to `end` of an image.
fn rows(alloc: Global, image: &Image, y: u32, end: u32) -> Result<Image, Fault>
    requires { y < end }
    ensures { IfOk result (IsStripe (frame_of image.now) y end) }
{
    let width = image.width() as usize;
    let from = (y.saturating_sub(image.y0()) as usize).saturating_mul(width);
    let to = (end.saturating_sub(image.y0()) as usize).saturating_mul(width);
    let mut planes = Vec::new(alloc);
    for c in 0..image.planes().len() {
        let part = image.planes().plane(c).get(from..to);
        planes.push(Vec::from_slice(alloc, part.ok_or(Fault::BadParameters)?)?)?;
    }
    let (depth, signed) = (image.depth(), image.signed());
    let rows = Image::new(image.x0(), y, image.width(), end - y, depth, signed, planes)?;
    if rows.planes().len() == image.planes().len() {
        Ok(rows)
    } else {
        Err(Fault::BadParameters)
    }
}

/// Gives the rows of an image, so many stripes of them, and then a fault.
#[derive(Drop)]
pub(crate) struct Supply<'a> {
    pub(crate) image: &'a Image,
    pub(crate) next: u32,
    pub(crate) left: u32,
}

impl<'a> RowSupply for Supply<'a> {
    ghost use Rattle.jk_params.specs.PictureFrames.{frame_of};

    ghost framed = { λ s. frame_of s.image.now };

    ghost next = { λ s. s.next };

    ghost gave = { λ _ _ _. Unit {0} };

    ghost met = { λ _ _ _. Unit {0} };

    fn give(&mut self, alloc: Global, end: u32) -> Result<Image, Fault> {
        if self.left == 0 {
            return Err(Fault::Truncated);
        }
        self.left -= 1;
        let y = self.next;
        self.next = end;
        rows(alloc, self.image, y, end)
    }
}

/// Takes so many bytes, and then fails.
#[derive(Drop)]
struct Short {
    bytes: Vec<u8>,
    room: usize,
}

impl Write for Short {
    fn write(&mut self, buf: &[u8]) -> io::Result<usize> {
        let count = buf.len().min(self.room.saturating_sub(self.bytes.len()));
        if count == 0 {
            return Err(io::Error::from(ErrorKind::BrokenPipe));
        }
        match self.bytes.extend_from_slice(&buf[..count]) {
            Ok(()) => Ok(count),
            Err(_) => Err(io::Error::from(ErrorKind::OutOfMemory)),
        }
    }

    fn flush(&mut self) -> io::Result<()> {
        Ok(())
    }
}

/// Encodes the rows of an image in steps of so many, of which so many stripes are given, and tells
/// which row is next then.
fn encoded<W: Write>(
    alloc: Global,
    image: &Image,
    given: &Parameters,
    step: u32,
    left: u32,
    writer: &mut W,
) -> (Result<(), Fault>, u32)
    requires { 1 ≤ step }
{
    let frame = frame_of(image);
    let mut rows = Supply {
        image,
        next: frame.y0,
        left,
    };
    let told = encode_rows(alloc, &frame, given, step, &mut rows, writer);
    (told, rows.next)
}

/// How an encoder ended, and what it wrote.
pub(crate) type Written = (Result<(), Fault>, Vec<u8>);

/// What an image encoded whole gives.
pub(crate) fn whole(alloc: Global, image: &Image, given: &Parameters) -> Written {
    let mut bytes = Vec::new(alloc);
    let told = encode_into(alloc, image, given, &mut bytes);
    (told, bytes)
}

/// Rows of an image in steps of so many give what the whole image does, and all of them are taken,
/// also where the parameters are refused.
fn stepped(
    rt: &impl Abort,
    alloc: Global,
    image: &Image,
    given: &Parameters,
    step: u32,
    due: &Written,
)
    requires { 1 ≤ step }
{
    let mut bytes = Vec::new(alloc);
    let (told, next) = encoded(alloc, image, given, step, u32::MAX, &mut bytes);
    equal_at(step, told, due.0).expect(rt, "what is due");
    equal_at(step, bytes.as_slice(), due.1.as_slice()).expect(rt, "what is due");
    equal_at(step, next, image.y0().saturating_add(image.height())).expect(rt, "what is due");
}

/// Row by row as the whole image.
fn beside_whole(rt: &impl Abort, alloc: Global, image: &Image, given: &Parameters) {
    let due = whole(alloc, image, given);
    stepped(rt, alloc, image, given, 1, &due);
    stepped(rt, alloc, image, given, 2, &due);
    stepped(rt, alloc, image, given, 3, &due);
    stepped(rt, alloc, image, given, 64, &due);
}

/// An image that isn't cut into tiles, and its parameters, by chance.
pub(crate) fn untiled(alloc: Global, chance: &mut Chance) -> Result<(Image, Parameters), Fail> {
    let image = image(alloc, chance, kind(false))?;
    let mut given = any_parameters(alloc, chance, &image)?;
    given.tile = None;
    Ok((image, given))
}

/// How many stripes of four rows an image has, the last one perhaps of fewer.
pub(crate) fn stripes_of_four(image: &Image) -> u32 {
    image.height().div_ceil(4)
}

/// As many stripes are asked for as the image has, and no fewer.
#[test]
fn stripes_that_are_asked_for(rt: HostRuntime) -> Result<(), Fail> {
    let alloc = rt.alloc();
    let mut chance = Chance { state: 72 };
    for turn in 0..6 {
        let (image, given) = untiled(alloc, &mut chance)?;
        let due = whole(alloc, &image, &given);
        let count = stripes_of_four(&image);
        let mut bytes = Vec::new(alloc);
        let (told, _next) = encoded(alloc, &image, &given, 4, count, &mut bytes);
        equal_at(turn, told, due.0).expect(&rt, "what is due");
        let fewer = count.saturating_sub(1);
        let (told, _next) = encoded(alloc, &image, &given, 4, fewer, &mut bytes);
        equal_at(turn, told, Err(Fault::Truncated)).expect(&rt, "a stripe fewer");
    }
    Ok(())
}

/// A fault in place of a stripe of one row is told, and nothing is written.
fn without_row(rt: &impl Abort, alloc: Global, image: &Image, given: &Parameters, left: u32) {
    let mut bytes = Vec::new(alloc);
    let (told, next) = encoded(alloc, image, given, 1, left, &mut bytes);
    equal_at(left, told, Err(Fault::Truncated)).expect(rt, "what is due");
    equal_at(left, bytes.len(), 0).expect(rt, "what is due");
    equal_at(left, next, image.y0().saturating_add(left)).expect(rt, "what is due");
}

/// Where a writer fails behind so many bytes that is told, and they are the first ones of the file.
fn without_room(
    rt: &impl Abort,
    alloc: Global,
    image: &Image,
    given: &Parameters,
    file: &[u8],
    room: usize,
) {
    let mut writer = Short {
        bytes: Vec::new(alloc),
        room,
    };
    let (told, _next) = encoded(alloc, image, given, 2, u32::MAX, &mut writer);
    equal_at(room, told, Err(Fault::Shelf)).expect(rt, "what is due");
    equal_at(room, Some(writer.bytes.as_slice()), file.get(..room)).expect(rt, "what is due");
}

/// The orders of packets.
const ORDERS: [Order; 5] = [
    Order::Lrcp,
    Order::Rlcp,
    Order::Rpcl,
    Order::Pcrl,
    Order::Cprl,
];

/// Parameters by chance, of any order, with and without markers, in any container, which not every
/// image may have.
pub(crate) fn any_parameters(
    alloc: Global,
    chance: &mut Chance,
    image: &Image,
) -> Result<Parameters, Fail> {
    let mut given = parameters(alloc, chance, image.planes().len())?;
    given.order = ORDERS[chance.below(5) as usize];
    given.sop = chance.tossed();
    given.eph = chance.tossed();
    given.container = [Container::Raw, Container::Jp2][chance.below(2) as usize];
    Ok(given)
}

/// So many images by chance.
fn images(rt: &impl Abort, alloc: Global, state: u32, kind: Kind, count: u32) -> Result<(), Fail> {
    let mut chance = Chance { state };
    for _ in 0..count {
        let image = image(alloc, &mut chance, kind)?;
        let given = any_parameters(alloc, &mut chance, &image)?;
        beside_whole(rt, alloc, &image, &given);
    }
    Ok(())
}

/// Of at most 24 columns, 30 rows and 16 bits.
pub(crate) const fn kind(signed: bool) -> Kind {
    Kind {
        columns: 24,
        rows: 30,
        bits: 16,
        signed,
    }
}

#[test]
fn files_by_rows(rt: HostRuntime) -> Result<(), Fail> {
    images(&rt, rt.alloc(), 67, kind(false), 24)
}

#[test]
fn files_of_signed_samples_by_rows(rt: HostRuntime) -> Result<(), Fail> {
    images(&rt, rt.alloc(), 68, kind(true), 24)
}

/// Parameters that are refused, with so many levels.
#[test]
fn refused_parameters_by_rows(rt: HostRuntime) -> Result<(), Fail> {
    let mut chance = Chance { state: 69 };
    for levels in 6..=10 {
        let image = image(rt.alloc(), &mut chance, kind(false))?;
        let mut given = any_parameters(rt.alloc(), &mut chance, &image)?;
        given.levels = levels;
        beside_whole(&rt, rt.alloc(), &image, &given);
        equal(
            whole(rt.alloc(), &image, &given).0,
            Err(Fault::BadParameters),
        )
        .expect(&rt, "refused");
        without_row(&rt, rt.alloc(), &image, &given, 0);
    }
    Ok(())
}

/// Small images by chance, at each row and each byte.
#[test]
fn faults_by_rows(rt: HostRuntime) -> Result<(), Fail> {
    let alloc = rt.alloc();
    let mut chance = Chance { state: 70 };
    for _ in 0..6 {
        let image = image(
            alloc,
            &mut chance,
            Kind {
                columns: 12,
                rows: 24,
                bits: 4,
                signed: false,
            },
        )?;
        let given = any_parameters(alloc, &mut chance, &image)?;
        for left in 0..image.height() {
            without_row(&rt, alloc, &image, &given, left);
        }
        let (_told, file) = whole(alloc, &image, &given);
        for room in 0..file.len() {
            without_room(&rt, alloc, &image, &given, &file, room);
        }
    }
    Ok(())
}
