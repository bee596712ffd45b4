//! Connections that end in each way, which several readers attend to.

ghost use Rattle.std.specs.Prelude.{◌<◌};

use crate::calls::{equal, served_anew};
use crate::streams::Held;
use jk_hall::{Connection, Source, Witness};
use jk_web::{End, Reply, Request};
use std::alloc::Global;
use std::io;
use std::io::{ErrorKind, Write};
use std::process::Abort;
use std::sync::Wait;
use std::sync::atomic::{AtomicUsize, Ordering};
use std::thread::Threads;
use vectors::Pieces;

/// What comes, whether a read fails behind it, and how many bytes can be sent; then what is sent, of
/// how many requests the witness is told, and why it ends.
static WAYS: [(&[u8], bool, usize, &[u8], usize, End); 10] = [
    (
        b"GET /images HTTP/1.1\r\nHost: x\r\n\r\n",
        false,
        1000,
        b"HTTP/1.1 200 OK\r\nContent-Type: text/plain\r\nContent-Length: 12\r\n\r\na 1 1 1 8 0\n",
        1,
        End::Closed,
    ),
    (
        b"GET /images HTTP/1.0\r\n\r\nGET /b HTTP/1.1\r\n\r\n",
        true,
        1000,
        b"HTTP/1.1 200 OK\r\nContent-Type: text/plain\r\nContent-Length: 12\r\nConnection: close\r\n\r\na 1 1 1 8 0\n",
        1,
        End::Closed,
    ),
    (b"", false, 1000, b"", 0, End::Closed),
    (b"", true, 1000, b"", 0, End::ReadFailed),
    (b"GET /ima", false, 1000, b"", 0, End::Closed),
    (b"GET /ima", true, 1000, b"", 0, End::ReadFailed),
    (
        b"GET /images HTTP/1.1\r\n\r\nGET /b HTTP/1.1\r\n\r\nGET",
        true,
        1000,
        b"HTTP/1.1 200 OK\r\nContent-Type: text/plain\r\nContent-Length: 12\r\n\r\na 1 1 1 8 0\nHTTP/1.1 404 Not Found\r\nContent-Type: text/plain\r\nContent-Length: 14\r\n\r\n404 Not Found\n",
        2,
        End::ReadFailed,
    ),
    (
        b"GET /b HTTP/1.1\r\n\r\nGET / HTTP/9\r\n\r\nGET /b HTTP/1.1\r\n\r\n",
        true,
        1000,
        b"HTTP/1.1 404 Not Found\r\nContent-Type: text/plain\r\nContent-Length: 14\r\n\r\n404 Not Found\nHTTP/1.1 400 Bad Request\r\nContent-Type: text/plain\r\nContent-Length: 16\r\nConnection: close\r\n\r\n400 Bad Request\n",
        1,
        End::Bad,
    ),
    (
        b"GET /images HTTP/1.1\r\n\r\nGET /images HTTP/1.1\r\n\r\n",
        false,
        5,
        b"HTTP/",
        1,
        End::WriteFailed,
    ),
    (
        b"GET /images HTTP/1.1\r\n\r\n",
        false,
        0,
        b"",
        1,
        End::WriteFailed,
    ),
];

/// Takes so many bytes, and then fails.
#[derive(Drop)]
struct Room {
    bytes: Vec<u8>,
    room: usize,
}

impl Write for Room {
    fn write(&mut self, buf: &[u8]) -> io::Result<usize> {
        let count = self.room.saturating_sub(self.bytes.len()).min(buf.len());
        if count == 0 && !buf.is_empty() {
            return Err(io::Error::from(ErrorKind::BrokenPipe));
        }
        match self.bytes.extend_from_slice(&buf[..count]) {
            Ok(()) => Ok(count),
            Err(_) => Err(io::Error::from(ErrorKind::OutOfMemory)),
        }
    }

    fn flush(&mut self) -> io::Result<()> {
        Ok(())
    }
}

/// Counts the requests of a connection.
#[derive(Drop)]
struct Told {
    number: usize,
    is_asked: bool,
    answered: AtomicUsize,
}

impl Witness for Told {
    fn answered(&self, _request: &Request, _reply: &Reply) {
        self.answered.fetch_add(1, Ordering::SeqCst);
    }
}

/// Connections, how often one was asked for, how often each has ended, and how many of them as is
/// due.
#[derive(Drop)]
struct Ways {
    alloc: Global,
    taken: AtomicUsize,
    ended: Vec<AtomicUsize>,
    right: AtomicUsize,
    // How many ended otherwise than is due, or were asked nothing.
    early: AtomicUsize,
}

impl Ways {
    fn new(rt: &impl Abort, alloc: Global) -> Ways {
        let mut ended = Vec::new(alloc);
        for _ in 0..WAYS.len() {
            ended.push(AtomicUsize::new(0)).expect(rt, "a connection");
        }
        Ways {
            alloc,
            taken: AtomicUsize::new(0),
            ended,
            right: AtomicUsize::new(0),
            early: AtomicUsize::new(0),
        }
    }

    /// How many connections have ended once.
    fn ended_once(&self) -> usize {
        let mut count: usize = 0;
        for often in &self.ended {
            if often.load(Ordering::SeqCst) == 1 {
                count = count.saturating_add(1);
            }
        }
        count
    }
}

impl Source for Ways {
    type In = Pieces;

    type Out = Room;

    type Told = Told;

    fn take(&self) -> Option<Connection<Pieces, Room, Told>> {
        let number = self.taken.fetch_add(1, Ordering::SeqCst);
        let (asked, fails, room, ..) = WAYS.get(number)?;
        let bytes = Vec::from_slice(self.alloc, asked).unwrap_or(Vec::new(self.alloc));
        let is_asked = bytes.len() == asked.len();
        Some(Connection {
            input: Pieces::new(bytes, 7, *fails),
            output: Room {
                bytes: Vec::new(self.alloc),
                room: *room,
            },
            witness: Told {
                number,
                is_asked,
                answered: AtomicUsize::new(0),
            },
        })
    }

    fn ended(&self, connection: Connection<Pieces, Room, Told>, end: Option<End>) {
        let Connection {
            output,
            witness,
            ..
        } = connection;
        if let Some((_, _, _, replied, told, due)) = WAYS.get(witness.number) {
            if end != Some(*due) || !witness.is_asked {
                self.early.fetch_add(1, Ordering::SeqCst);
            } else if output.bytes.as_slice() == *replied
                && witness.answered.load(Ordering::SeqCst) == *told
            {
                self.right.fetch_add(1, Ordering::SeqCst);
            }
        }
        if let Some(often) = self.ended.get(witness.number) {
            often.fetch_add(1, Ordering::SeqCst);
        }
    }
}

/// So many readers attend to all connections: each is told once when it begins and once when it has
/// ended, is given back once, and has ended as is due; the first one goes on only because the second
/// has begun; and each reader asks until no more come.
fn end_in_their_ways<R>(rt: &R, alloc: Global, workers: usize)
where
    R: Threads + Wait + Sync + Abort,
    requires { 0 < workers }
{
    let ways = Ways::new(rt, alloc);
    let held = Held::new(rt, alloc, WAYS.len());
    let ended = served_anew(rt, alloc, workers, &held, &ways);
    equal(rt, ended, Ok(10));
    let right = ways.right.load(Ordering::SeqCst);
    equal(rt, (right, ways.early.load(Ordering::SeqCst)), (10, 0));
    equal(rt, ways.ended_once(), 10);
    let taken = ways.taken.load(Ordering::SeqCst);
    equal(rt, taken, workers.saturating_add(10));
    equal(rt, held.meeting.was_met(1), true);
}

#[test]
fn connections_end_in_their_ways(rt: HostRuntime) {
    end_in_their_ways(&rt, rt.alloc(), 2);
    end_in_their_ways(&rt, rt.alloc(), 3);
}
