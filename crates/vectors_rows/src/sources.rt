//! What `jk encode` makes of PGM and PPM files as they are read: what it makes of them in memory.

ghost use Rattle.std.specs.Prelude.{◌≤◌};

use crate::chance::Chance;
use crate::drawings::{Drawing, file, plan};
use jk_commands::{encode_rows_from, encode_rows_into};
use jk_jobs::Open;
use jk_math::Fault;
use std::alloc::Global;
use std::io::{self, ErrorKind, Read};
use std::marker::Sync;
use std::process::Abort;
use std::test::Fail;
use std::thread::Threads;
use vectors::{equal, equal_at};

/// Gives bytes in pieces by chance, of at most so many bytes.
#[derive(Drop)]
struct Trickle {
    bytes: Vec<u8>,
    at: usize,
    most: u32,
    chance: Chance,
    /// Whether every second read is interrupted.
    interrupted: bool,
    turn: bool,
    /// The place at which reads fail.
    fails: Option<usize>,
}

impl Trickle {
    /// How many bytes it gives in the next read that isn't refused.
    fn count(&mut self, room: usize) -> usize
        ensures { result ≤ room }
    {
        let end = match self.fails {
            Some(place) => place.min(self.bytes.len()),
            None => self.bytes.len(),
        };
        let piece = 1 + self.chance.below(self.most.max(1)) as usize;
        end.saturating_sub(self.at).min(piece).min(room)
    }
}

impl Read for Trickle {
    fn read(&mut self, buf: &mut [u8]) -> io::Result<usize> {
        self.turn = !self.turn;
        if self.interrupted && self.turn {
            return Err(io::Error::from(ErrorKind::Interrupted));
        }
        if self.fails == Some(self.at) {
            return Err(io::Error::from(ErrorKind::ConnectionReset));
        }
        let count = self.count(buf.len());
        for i in 0..count {
            if self.at < self.bytes.len() && i < buf.len() {
                buf[i] = self.bytes[self.at];
                self.at = self.at.saturating_add(1);
            }
        }
        Ok(count)
    }
}

/// The same bytes in such pieces.
fn in_pieces(alloc: Global, bytes: &[u8], most: u32, state: u32) -> Result<Trickle, Fail> {
    Ok(Trickle {
        bytes: Vec::from_slice(alloc, bytes)?,
        at: 0,
        most,
        chance: Chance { state },
        interrupted: state & 1 == 1,
        turn: false,
        fails: None,
    })
}

/// A file is encoded as it is in memory, by one worker and by several, and read to its end.
fn same_in_pieces<R: Threads + Sync + Abort>(
    rt: &R,
    alloc: Global,
    bytes: &[u8],
    drawing: Drawing,
    state: u32,
) -> Result<(), Fail> {
    let mut due = Vec::new(alloc);
    let mut chance = Chance { state };
    let told = encode_rows_into(alloc, bytes, plan(alloc, &mut chance, drawing)?, &mut due);
    for (most, workers) in [(1, 1), (2, 3), (7, 1), (5000, 2)] {
        let mut source = in_pieces(alloc, bytes, most, state)?;
        let mut written = Vec::new(alloc);
        let mut again = Chance { state };
        let asked = plan(alloc, &mut again, drawing)?;
        let found = encode_rows_from(rt, alloc, workers, &Open, &mut source, asked, &mut written);
        equal_at(most, found, told).expect(rt, "what is due");
        equal_at(most, written.as_slice(), due.as_slice()).expect(rt, "what is due");
        equal_at(most, source.at, bytes.len()).expect(rt, "a file that was read");
    }
    Ok(())
}

/// A file by chance: whole, with a sample above maxval, cut or with more behind it.
fn one_case<R: Threads + Sync + Abort>(
    rt: &R,
    alloc: Global,
    chance: &mut Chance,
) -> Result<(), Fail> {
    let mut drawing = Drawing {
        colour: chance.tossed(),
        width: 1 + chance.below(9),
        height: 1 + chance.below(150),
        depth: 1 + chance.below(16) as u8,
        spoiled: None,
    };
    if chance.below(4) == 0 {
        let count = drawing.width.saturating_mul(drawing.height).max(1);
        drawing.spoiled = Some(chance.below(count));
    }
    let mut bytes = file(alloc, chance, drawing)?;
    match chance.below(4) {
        0 => {
            let cut = 1 + chance.below(60) as usize;
            bytes.truncate(bytes.len().saturating_sub(cut));
        }
        1 => {
            for _ in 0..1 + chance.below(300) {
                bytes.push(7)?;
            }
        }
        _ => {}
    }
    same_in_pieces(rt, alloc, &bytes, drawing, chance.state)
}

#[test]
fn files_in_pieces(rt: HostRuntime) -> Result<(), Fail> {
    let mut chance = Chance { state: 71 };
    for _ in 0..40 {
        one_case(&rt, rt.alloc(), &mut chance)?;
    }
    Ok(())
}

/// A file of 8 or 16 bits a sample, grey or in colour.
fn small(alloc: Global, colour: bool, depth: u8) -> Result<(Vec<u8>, Drawing), Fail> {
    let drawing = Drawing {
        colour,
        width: 3,
        height: 70,
        depth,
        spoiled: None,
    };
    let mut chance = Chance { state: 5 };
    Ok((file(alloc, &mut chance, drawing)?, drawing))
}

/// A read that fails is told, and nothing was written.
fn fails_at<R: Threads + Sync + Abort>(
    rt: &R,
    alloc: Global,
    bytes: &[u8],
    drawing: Drawing,
    place: usize,
) -> Result<(), Fail> {
    let mut chance = Chance { state: 12 };
    let mut source = in_pieces(alloc, bytes, 50, 4)?;
    source.fails = Some(place);
    let mut written: Vec<u8> = Vec::new(alloc);
    let asked = plan(alloc, &mut chance, drawing)?;
    let workers = 1 + place % 3;
    let told = encode_rows_from(rt, alloc, workers, &Open, &mut source, asked, &mut written);
    equal_at(place, told, Err(Fault::Shelf)).expect(rt, "a read that failed");
    equal_at(place, written.len(), 0).expect(rt, "nothing");
    Ok(())
}

#[test]
fn reads_that_fail(rt: HostRuntime) -> Result<(), Fail> {
    let alloc = rt.alloc();
    let (bytes, drawing) = small(alloc, false, 8)?;
    for place in 0..=bytes.len() {
        fails_at(&rt, alloc, &bytes, drawing, place)?;
    }
    // Also where the header or a sample is bad before that place.
    let mut bad = Vec::from_slice(alloc, &bytes)?;
    if bad.len() > 1 {
        bad[1] = b'7';
    }
    fails_at(&rt, alloc, &bad, drawing, bytes.len() / 2)?;
    fails_at(&rt, alloc, &bad, drawing, bytes.len())?;
    Ok(())
}

/// The same file with a comment behind its magic number, longer than what is read at once.
fn commented(alloc: Global, bytes: &[u8]) -> Result<Vec<u8>, Fail> {
    let mut commented = Vec::new(alloc);
    for (i, byte) in bytes.iter().enumerate() {
        if i == 2 {
            commented.push(b'#')?;
            for letter in 0..600_000u32 {
                commented.push(b'a' + (letter % 26) as u8)?;
            }
        }
        commented.push(*byte)?;
    }
    Ok(commented)
}

#[test]
fn long_comments(rt: HostRuntime) -> Result<(), Fail> {
    let alloc = rt.alloc();
    for colour in [false, true] {
        for depth in [8, 16] {
            let (bytes, drawing) = small(alloc, colour, depth)?;
            let longer = commented(alloc, &bytes)?;
            let mut source = in_pieces(alloc, &longer, 1 << 20, 2)?;
            let mut written = Vec::new(alloc);
            let mut chance = Chance { state: 9 };
            let asked = plan(alloc, &mut chance, drawing)?;
            let told = encode_rows_from(&rt, alloc, 1, &Open, &mut source, asked, &mut written);
            let mut due = Vec::new(alloc);
            let mut again = Chance { state: 9 };
            let first = encode_rows_into(
                alloc,
                &bytes,
                plan(alloc, &mut again, drawing)?,
                &mut due,
            );
            equal(told, first).expect(&rt, "what is due");
            equal(written.as_slice(), due.as_slice()).expect(&rt, "what is due");
        }
    }
    Ok(())
}
