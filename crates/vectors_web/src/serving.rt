use crate::asserts::equal;
use crate::cases::SERVED;
use jk_math::Fault;
use jk_web::{End, Octets, Reply, Request, Service, serve_connection};
use std::alloc::Global;
use std::io;
use std::io::{ErrorKind, Write};
use std::process::Abort;
use vectors::Pieces;

/// Texts, one behind the other.
fn joined(alloc: Global, texts: &[&[u8]]) -> Result<Vec<u8>, Fault> {
    let mut all = Vec::new(alloc);
    for text in texts {
        all.extend_from_slice(text)?;
    }
    Ok(all)
}

/// Answers with the method and the target.
#[derive(Drop)]
pub(crate) struct Echo {}

impl Service for Echo {
    ghost gives = { λ _ _ _ _. Unit {0} };

    ghost refuses = { λ _ _ _ _. Unit {0} };

    fn answer(&mut self, alloc: Global, request: &Request) -> Result<Reply, Fault> {
        let (method, target) = (request.method.as_slice(), request.target.as_slice());
        let bytes = joined(alloc, &[method, b" ", target, b"\n"])?;
        Ok(Reply {
            status: 200,
            close: request.closes,
            bytes: Octets::new(bytes),
        })
    }
}

/// Takes at most so many bytes a write, and so many in all.
#[derive(Drop)]
pub(crate) struct Sink {
    pub(crate) bytes: Vec<u8>,
    most: usize,
    room: usize,
    fails: bool,
}

impl Write for Sink {
    fn write(&mut self, buf: &[u8]) -> io::Result<usize> {
        let left = self.room.saturating_sub(self.bytes.len());
        if left == 0 && self.fails {
            return Err(io::Error::from(ErrorKind::BrokenPipe));
        }
        let count = left.min(self.most).min(buf.len());
        match self.bytes.extend_from_slice(&buf[..count]) {
            Ok(()) => Ok(count),
            Err(_) => Err(io::Error::from(ErrorKind::OutOfMemory)),
        }
    }

    fn flush(&mut self) -> io::Result<()> {
        Ok(())
    }
}

pub(crate) fn read_from(
    rt: &impl Abort,
    alloc: Global,
    bytes: &[u8],
    most: usize,
    fails: bool,
) -> Pieces {
    let bytes = Vec::from_slice(alloc, bytes).expect(rt, "bytes");
    Pieces::new(bytes, most, fails)
}

pub(crate) fn write_to(alloc: Global, most: usize, room: usize, fails: bool) -> Sink {
    Sink {
        bytes: Vec::new(alloc),
        most,
        room,
        fails,
    }
}

/// Serves a stream, and looks at what was written and why it has ended.
fn serves(
    rt: &impl Abort,
    alloc: Global,
    mut reader: Pieces,
    mut writer: Sink,
    turns: u64,
    want: (&[u8], End),
) {
    let mut echo = Echo {};
    let end = serve_connection(alloc, &mut reader, &mut writer, &mut echo, turns);
    equal(rt, "replies", writer.bytes.as_slice(), want.0);
    equal(rt, "an end", end, Ok(want.1));
}

/// A stream that comes in pieces of this size is served to a writer that takes so many bytes a write.
fn in_pieces(
    rt: &impl Abort,
    alloc: Global,
    stream: &[u8],
    size: usize,
    most: usize,
    want: (&[u8], End),
) {
    let reader = read_from(rt, alloc, stream, size, false);
    let writer = write_to(alloc, most, 100000, false);
    serves(rt, alloc, reader, writer, 100000, want);
}

#[test]
fn in_any_pieces(rt: HostRuntime) {
    for (stream, text, end) in &SERVED {
        for size in [1, 2, 3, 7, 5000] {
            in_pieces(&rt, rt.alloc(), *stream, size, 5000, (*text, *end));
            in_pieces(&rt, rt.alloc(), *stream, size, 1, (*text, *end));
        }
    }
}

/// Two requests, and the replies to them.
static TWO: (&[u8], &[u8]) = (
    b"GET /a HTTP/1.1\r\n\r\nGET /b HTTP/1.1\r\n\r\n",
    b"GET /a\nGET /b\n",
);

/// The replies to the requests that stand whole in the first bytes of two: each request has 19
/// bytes, and each reply 7.
fn replies_of(count: usize) -> &'static [u8] {
    if count < 19 {
        &[]
    } else if count < 38 {
        &TWO.1[..7]
    } else {
        TWO.1
    }
}

/// A reader fails behind so many bytes.
fn read_fails(rt: &impl Abort, alloc: Global, count: usize, most: usize) {
    let stream = TWO.0.get(..count).expect(rt, "bytes");
    let reader = read_from(rt, alloc, stream, most, true);
    let writer = write_to(alloc, 100, 1000, false);
    let want = (replies_of(count), End::ReadFailed);
    serves(rt, alloc, reader, writer, 1000, want);
}

/// A reader fails behind each byte, a byte at a time and all at once.
#[test]
fn reads_that_fail(rt: HostRuntime) {
    for count in 0..39 {
        for most in [1, 10, 100] {
            read_fails(&rt, rt.alloc(), count, most);
        }
    }
}

/// A writer fails behind so many bytes, or takes none there.
fn write_fails(rt: &impl Abort, alloc: Global, room: usize, fails: bool) {
    let replies = TWO.1.get(..room).expect(rt, "bytes");
    let reader = read_from(rt, alloc, TWO.0, 1000, false);
    let writer = write_to(alloc, 3, room, fails);
    serves(rt, alloc, reader, writer, 1000, (replies, End::WriteFailed));
}

/// A writer fails behind each byte, or takes none there.
#[test]
fn writes_that_fail(rt: HostRuntime) {
    for room in 0..14 {
        write_fails(&rt, rt.alloc(), room, false);
        write_fails(&rt, rt.alloc(), room, true);
    }
}

/// Of two requests so much is answered in so many turns.
fn spends(rt: &impl Abort, alloc: Global, turns: u64, replies: &[u8]) {
    let reader = read_from(rt, alloc, TWO.0, 10, false);
    let writer = write_to(alloc, 100, 1000, false);
    serves(rt, alloc, reader, writer, turns, (replies, End::TurnsSpent));
}

#[test]
fn turns_are_spent(rt: HostRuntime) {
    spends(&rt, rt.alloc(), 3, b"GET /a\n");
    spends(&rt, rt.alloc(), 0, b"");
}
