//! The lines of an operator, and what is answered.

use crate::calls::{equal, equal_at, opened_for_one, replied, shelf, write};
use jk_hall::{Hall, Reader, Writer};
use jk_math::Fault;
use jk_serve::{Desk, Keeper, operate};
use jk_store::{Archive, Images, MemoryShelf};
use jk_web::Reply;
use std::alloc::Global;
use std::io::{self, ErrorKind, Read, Write};
use std::process::Abort;
use std::sync::Wait;

/// The PGM file of one grey sample, 128.
static PAGE: &[u8] = b"P5\n1 1\n255\n\x80";

/// A folder that nobody else adds to, or that others have locked; and how often it was locked.
#[derive(Drop)]
struct Alone {
    is_locked: bool,
    locks: usize,
    held: usize,
}

impl Keeper<MemoryShelf> for Alone {
    fn lock(&mut self, _alloc: Global) -> Result<(), Fault> {
        if self.is_locked {
            return Err(Fault::Shelf);
        }
        self.locks = self.locks.saturating_add(1);
        self.held = self.held.saturating_add(1);
        Ok(())
    }

    fn try_lock(&mut self, alloc: Global) -> Result<bool, Fault> {
        self.lock(alloc)?;
        Ok(true)
    }

    fn tell_waiting(&self) {}

    fn release(&mut self) {
        self.held = self.held.saturating_sub(1);
    }

    fn has_other(&self, _shelf: &MemoryShelf, name: &str) -> bool {
        name == "pipe"
    }
}

/// A shelf with two images, and a file `c.jp2` from elsewhere.
fn files(rt: &impl Abort, alloc: Global) -> MemoryShelf {
    let mut files = shelf(rt, alloc);
    write(rt, &mut files, alloc, "c.jp2", b"of another");
    files
}

/// The files that can be added.
fn paths(rt: &impl Abort, alloc: Global) -> MemoryShelf {
    let mut paths = MemoryShelf::new(alloc);
    write(rt, &mut paths, alloc, "p", PAGE);
    write(rt, &mut paths, alloc, "a b", PAGE);
    write(rt, &mut paths, alloc, "bad", b"P5\n1 1\n255\n");
    paths
}

/// A desk at an archive with the images `a` and `b` on its shelf, whose shelf gets a file `c.jp2`
/// from elsewhere once it was opened. Of paths there are `p`, and `bad`, which is no image.
fn desk(rt: &impl Abort, alloc: Global, is_locked: bool) -> Desk<MemoryShelf, Alone, MemoryShelf> {
    let images = Images::read(alloc, &mut shelf(rt, alloc)).expect(rt, "images");
    Desk {
        archive: Archive::with(files(rt, alloc), images),
        keeper: Alone {
            is_locked,
            locks: 0,
            held: 0,
        },
        paths: paths(rt, alloc),
    }
}

/// Bytes that are read a few at a time. At the end a read fails, if it is to.
#[derive(Drop)]
struct Lines {
    bytes: &'static [u8],
    at: usize,
    fails: bool,
}

impl Read for Lines {
    fn read(&mut self, buf: &mut [u8]) -> io::Result<usize> {
        let left = self.bytes.len().saturating_sub(self.at);
        if left == 0 && self.fails {
            return Err(io::Error::from(ErrorKind::BrokenPipe));
        }
        let count = left.min(5).min(buf.len());
        for i in 0..count {
            if self.at < self.bytes.len() && i < buf.len() {
                buf[i] = self.bytes[self.at];
                self.at = self.at.saturating_add(1);
            }
        }
        Ok(count)
    }
}

/// A stream that takes nothing.
#[derive(Drop)]
struct Full;

impl Write for Full {
    fn write(&mut self, _bytes: &[u8]) -> io::Result<usize> {
        Err(io::Error::from(ErrorKind::StorageFull))
    }

    fn flush(&mut self) -> io::Result<()> {
        Ok(())
    }
}

/// How it ends where these lines come to a desk, and what is answered; how often the folder was
/// locked, and how often it still is.
fn answered<R: Wait + Abort, O: Write>(
    rt: &R,
    alloc: Global,
    writer: &mut Writer,
    input: Lines,
    is_locked: bool,
    output: &mut O,
) -> (Result<(), Fault>, usize, usize) {
    let mut input = input;
    let mut desk = desk(rt, alloc, is_locked);
    let end = operate(rt, alloc, &mut desk, writer, &mut input, output);
    (end, desk.keeper.locks, desk.keeper.held)
}

/// The list of images that a reader sees.
fn seen_of(rt: &impl Abort, alloc: Global, reader: &mut Reader) -> Reply {
    replied(rt, alloc, reader, &mut shelf(rt, alloc), b"/images")
}

/// Lines, whether the folder is locked, what is answered, and whether the input fails behind them.
type Case = (&'static [u8], bool, &'static [u8], bool);

static CASES: [Case; 6] = [
    (
        b"add d p\nadd d p\nx\n",
        false,
        b"added d\nrefused d F18 NameTaken\n",
        false,
    ),
    // The last line needs no end; PATH is the rest of the line, and NAME ends at the first space.
    (b"add d a b", false, b"added d\n", false),
    (
        b"add D p\nadd a p\nadd c p\nadd pipe p\nadd e bad\nadd e no\nadd e \nadd  p\nadd e\n\nAdd e p\n",
        false,
        b"refused D F19 BadName\nrefused a F18 NameTaken\nrefused c F18 NameTaken\nrefused pipe F18 NameTaken\nrefused e F14 BadPnm\nrefused e F20 Shelf\nrefused e F20 Shelf\nrefused  F19 BadName\n",
        false,
    ),
    // What is taken by now is refused without the lock.
    (
        b"add d p\nadd c p\n",
        true,
        b"refused d F20 Shelf\nrefused c F18 NameTaken\n",
        false,
    ),
    (
        b"add pipe p\n",
        true,
        b"refused pipe F18 NameTaken\n",
        false,
    ),
    (b"add d p\nadd e p", false, b"added d\n", true),
];

/// What is answered to lines, and that what was added is seen by a reader who was told nothing.
fn are_answered<R: Wait + Abort>(rt: &R, alloc: Global, case: &Case) {
    let (lines, is_locked, answers, fails) = *case;
    let mut output = Vec::new(alloc);
    let input = Lines {
        bytes: lines,
        at: 0,
        fails,
    };
    let (mut writer, mut reader) = opened_for_one(rt, alloc, &["a"]);
    let (end, _locks, held) = answered(rt, alloc, &mut writer, input, is_locked, &mut output);
    let seen = seen_of(rt, alloc, &mut reader);
    let waiting = writer.waiting();
    writer.close(rt);
    equal_at(rt, end, output.as_slice(), answers);
    let due = if fails { Err(Fault::Shelf) } else { Ok(()) };
    equal(rt, (end, waiting, held), (due, 0, 0));
    let list = if answers.starts_with(b"added d") {
        TWO
    } else {
        ONE
    };
    equal(rt, seen.bytes.as_slice().ends_with(list), true);
}

/// The end of a reply that is the list of `a`, and of that with `d`.
static ONE: &[u8] = b"\r\n\r\na 1 1 1 8 0\n";

static TWO: &[u8] = b"\r\n\r\na 1 1 1 8 0\nd 1 1 1 8 5\n";

#[test]
fn lines_are_answered(rt: HostRuntime) {
    for case in &CASES {
        are_answered(&rt, rt.alloc(), case);
    }
}

/// Answers that can't be written end it.
#[test]
fn unwritten_answers_end_it(rt: HostRuntime) {
    let input = Lines {
        bytes: b"add d p\nadd e p\n",
        at: 0,
        fails: false,
    };
    let (mut writer, _readers) = Hall::new(&rt, rt.alloc(), 1, Vec::new(rt.alloc())).expect(
        &rt, "a hall",
    );
    let (end, locks, _held) = answered(&rt, rt.alloc(), &mut writer, input, false, &mut Full);
    writer.close(&rt);
    equal(&rt, end, Err(Fault::Shelf));
    equal(&rt, locks, 1);
}
