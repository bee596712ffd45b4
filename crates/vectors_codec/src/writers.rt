//! Files that are written to a writer: one that takes a byte a call, one that fails at a call, and
//! one that takes nothing from a call on.

use crate::asserts::equal;
use crate::calls::{self, encode, encode_into, plain};
use crate::small::{Headers, file_of};
use jk_math::{Fault, Image};
use jk_params::{Container, Parameters};
use std::alloc::Global;
use std::io::{self, ErrorKind, Write};
use std::process::Abort;
use std::test::Fail;

/// Takes a byte a call, and so many in all. Then a call fails, or takes nothing.
#[derive(Drop)]
pub(crate) struct Slow {
    bytes: Vec<u8>,
    room: usize,
    fails: bool,
}

impl Write for Slow {
    fn write(&mut self, buf: &[u8]) -> io::Result<usize> {
        if self.room <= self.bytes.len() && self.fails {
            return Err(io::Error::from(ErrorKind::BrokenPipe));
        }
        if self.room <= self.bytes.len() {
            return Ok(0);
        }
        let count = buf.len().min(1);
        match self.bytes.extend_from_slice(&buf[..count]) {
            Ok(()) => Ok(count),
            Err(_) => Err(io::Error::from(ErrorKind::OutOfMemory)),
        }
    }

    fn flush(&mut self) -> io::Result<()> {
        Ok(())
    }
}

/// Takes what it is given, but at one of its calls, counted from 1, it fails, or takes nothing.
#[derive(Drop)]
struct Refusing {
    bytes: Vec<u8>,
    call: u64,
    fails: bool,
    calls: u64,
    refused: u64,
}

impl Write for Refusing {
    fn write(&mut self, buf: &[u8]) -> io::Result<usize> {
        self.calls = self.calls.saturating_add(1);
        if self.calls == self.call {
            self.refused = self.refused.saturating_add(1);
            if self.fails {
                return Err(io::Error::from(ErrorKind::BrokenPipe));
            }
            return Ok(0);
        }
        match self.bytes.extend_from_slice(buf) {
            Ok(()) => Ok(buf.len()),
            Err(_) => Err(io::Error::from(ErrorKind::OutOfMemory)),
        }
    }

    fn flush(&mut self) -> io::Result<()> {
        Ok(())
    }
}

/// Encodes into a writer that takes so many bytes, and gives the answer and what was written.
fn written(
    alloc: Global,
    image: &Image,
    parameters: &Parameters,
    room: usize,
    fails: bool,
) -> (Result<(), Fault>, Vec<u8>) {
    let bytes = Vec::new(alloc);
    let mut writer = Slow { bytes, room, fails };
    let answer = encode_into(alloc, image, parameters, &mut writer);
    (answer, writer.bytes)
}

/// One layer, no markers, precincts or colour transform, and tiles of this size.
fn parameters(alloc: Global, levels: u8, side: Option<u32>, container: Container) -> Parameters {
    let mut given = plain(alloc, levels);
    given.tile = side.map(|side| (side, side));
    given.container = container;
    given
}

/// A grey image of so many columns and rows, whose samples differ.
fn grey(rt: &impl Abort, alloc: Global, header: &str, area: usize) -> Image {
    let mut pnm = Vec::new(alloc);
    pnm.extend_from_slice(header.as_bytes())
        .expect(rt, "an answer");
    for i in 0..area {
        pnm.push((i.wrapping_mul(37) % 251) as u8)
            .expect(rt, "an answer");
    }
    calls::read(rt, alloc, &pnm)
}

/// Where a writer takes so many bytes and then fails, or takes nothing, these stand there.
fn stops(
    alloc: Global,
    image: &Image,
    parameters: &Parameters,
    file: &[u8],
    room: usize,
) -> Result<(), Fail> {
    for fails in [true, false] {
        let (answer, bytes) = written(alloc, image, parameters, room, fails);
        if answer != Err(Fault::Shelf) || Some(bytes.as_slice()) != file.get(..room) {
            return Err("the first bytes of the file".into());
        }
    }
    Ok(())
}

/// What is written is the file, whole where there is room, and else its first bytes, at every so
/// many lengths.
fn check(
    rt: &impl Abort,
    alloc: Global,
    image: &Image,
    parameters: &Parameters,
    step: usize,
) -> Result<(), Fail> {
    let file = encode(rt, alloc, image, parameters);
    let (answer, bytes) = written(alloc, image, parameters, file.len(), true);
    if answer.is_err() || bytes.as_slice() != file.as_slice() {
        return Err("the file".into());
    }
    for room in 0..file.len() {
        if step != 0 && room % step == 0 {
            stops(alloc, image, parameters, &file, room)?;
        }
    }
    Ok(())
}

#[test]
fn one_tile(rt: HostRuntime) -> Result<(), Fail> {
    let alloc = rt.alloc();
    let image = grey(&rt, alloc, "P5\n5 7\n255\n", 35);
    let bare = parameters(alloc, 1, None, Container::Raw);
    check(&rt, alloc, &image, &bare, 1)?;
    let boxed = parameters(alloc, 1, None, Container::Jp2);
    check(&rt, alloc, &image, &boxed, 1)
}

#[test]
fn several_tiles(rt: HostRuntime) -> Result<(), Fail> {
    let alloc = rt.alloc();
    let image = grey(&rt, alloc, "P5\n5 7\n255\n", 35);
    let bare = parameters(alloc, 1, Some(3), Container::Raw);
    check(&rt, alloc, &image, &bare, 1)?;
    let boxed = parameters(alloc, 1, Some(3), Container::Jp2);
    check(&rt, alloc, &image, &boxed, 1)
}

#[test]
fn larger_tiles(rt: HostRuntime) -> Result<(), Fail> {
    let alloc = rt.alloc();
    let wide = grey(&rt, alloc, "P5\n90 70\n255\n", 6300);
    let boxed = parameters(alloc, 2, Some(32), Container::Jp2);
    check(&rt, alloc, &wide, &boxed, 701)
}

/// Whether a file is written whole by a writer that refuses a call. Shelf is answered only where it
/// did: then that was the last call, and what it took before stands.
fn is_whole(
    alloc: Global,
    image: &Image,
    parameters: &Parameters,
    file: &[u8],
    refusal: (u64, bool),
) -> Result<bool, Fail> {
    let mut writer = Refusing {
        bytes: Vec::new(alloc),
        call: refusal.0,
        fails: refusal.1,
        calls: 0,
        refused: 0,
    };
    let answer = encode_into(alloc, image, parameters, &mut writer);
    let bytes = writer.bytes.as_slice();
    if writer.refused == 0 && answer.is_ok() && bytes == file {
        return Ok(true);
    }
    let stands = bytes.len() < file.len() && file.starts_with(bytes);
    if answer == Err(Fault::Shelf) && writer.calls == refusal.0 && stands {
        return Ok(false);
    }
    Err("another answer".into())
}

/// At how many calls in turn a writer refused.
fn refused(
    rt: &impl Abort,
    alloc: Global,
    image: &Image,
    parameters: &Parameters,
    fails: bool,
) -> Result<u64, Fail> {
    let file = encode(rt, alloc, image, parameters);
    for call in 1..1000 {
        if is_whole(alloc, image, parameters, &file, (call, fails))? {
            return Ok(call.saturating_sub(1));
        }
    }
    Err("no end".into())
}

/// Each call of a writer fails, or takes nothing, once.
#[test]
fn at_each_call(rt: HostRuntime) -> Result<(), Fail> {
    let alloc = rt.alloc();
    let image = grey(&rt, alloc, "P5\n5 7\n255\n", 35);
    for container in [Container::Raw, Container::Jp2] {
        let asked = parameters(alloc, 1, Some(3), container);
        let failed = refused(&rt, alloc, &image, &asked, true)?;
        equal(&rt, failed > 0, true);
        equal(&rt, refused(&rt, alloc, &image, &asked, false)?, failed);
    }
    Ok(())
}

#[test]
fn a_known_file(rt: HostRuntime) {
    let alloc = rt.alloc();
    let image = calls::read(&rt, alloc, b"P5\n1 1\n255\n\x81");
    let part = "FF90 000A 0000 00000011 00 01 FF93 C0 21 03 FFD9";
    let wanted = file_of(&rt, alloc, Headers::Pixel, part);
    let (answer, bytes) = written(alloc, &image, &plain(alloc, 0), wanted.len(), true);
    equal(&rt, answer, Ok(()));
    equal(&rt, bytes.as_slice(), wanted.as_slice());
}

#[test]
fn a_known_file_without_room(rt: HostRuntime) {
    let alloc = rt.alloc();
    let image = calls::read(&rt, alloc, b"P5\n1 1\n255\n\x81");
    let (answer, bytes) = written(alloc, &image, &plain(alloc, 0), 83, true);
    equal(&rt, (answer, bytes.len()), (Err(Fault::Shelf), 83));
}

#[test]
fn outside_the_profile(rt: HostRuntime) {
    let alloc = rt.alloc();
    let image = grey(&rt, alloc, "P5\n5 7\n255\n", 35);
    let deep = parameters(alloc, 6, None, Container::Jp2);
    let (answer, bytes) = written(alloc, &image, &deep, 1000, true);
    equal(&rt, (answer, bytes.len()), (Err(Fault::BadParameters), 0));
}
