//! How often a connection is read at most.

use crate::calls::{equal, served_anew};
use jk_hall::{Connection, Nobody, Source};
use jk_jobs::Open;
use jk_web::End;
use std::alloc::Global;
use std::process::Abort;
use std::sync::Wait;
use std::sync::atomic::{AtomicU64, Ordering};
use std::thread::Threads;
use vectors::Pieces;

/// A request of 19 bytes, for what there isn't.
static ASKED: &[u8] = b"GET /b HTTP/1.1\r\n\r\n";

/// One connection that comes a byte at a time, so often this request; how often it was read, and
/// whether that is why it ended.
#[derive(Drop)]
struct Long {
    alloc: Global,
    often: usize,
    taken: AtomicU64,
    reads: AtomicU64,
    spent: AtomicU64,
}

/// So many of the request, or as many as there is memory for.
fn requests(alloc: Global, often: usize) -> Vec<u8> {
    let mut bytes = Vec::new(alloc);
    for _ in 0..often {
        if bytes.extend_from_slice(ASKED).is_err() {
            return bytes;
        }
    }
    bytes
}

impl Source for Long {
    type In = Pieces;

    type Out = Vec<u8>;

    type Told = Nobody;

    fn take(&self) -> Option<Connection<Pieces, Vec<u8>, Nobody>> {
        if self.taken.fetch_add(1, Ordering::SeqCst) > 0 {
            return None;
        }
        Some(Connection {
            input: Pieces::new(requests(self.alloc, self.often), 1, false),
            output: Vec::new(self.alloc),
            witness: Nobody,
        })
    }

    fn ended(&self, connection: Connection<Pieces, Vec<u8>, Nobody>, end: Option<End>) {
        self.reads.store(connection.input.reads(), Ordering::SeqCst);
        if end == Some(End::TurnsSpent) {
            self.spent.store(1, Ordering::SeqCst);
        }
    }
}

/// How many connections end, how often one of so many requests is read, and whether that was as
/// often as it may be.
fn read_of<R>(rt: &R, alloc: Global, often: usize) -> (u64, u64, u64)
where
    R: Threads + Wait + Sync + Abort,
{
    let long = Long {
        alloc,
        often,
        taken: AtomicU64::new(0),
        reads: AtomicU64::new(0),
        spent: AtomicU64::new(0),
    };
    let ended = served_anew(rt, alloc, 1, &Open, &long);
    (
        ended.expect(rt, "connections"),
        long.reads.load(Ordering::SeqCst),
        long.spent.load(Ordering::SeqCst),
    )
}

/// How often a connection of so many requests is read, and whether that was as often as it may be:
/// 3,449 of them have 65,531 bytes, behind which one read finds the end.
#[test]
fn no_connection_is_read_for_ever(rt: HostRuntime) {
    equal(&rt, read_of(&rt, rt.alloc(), 3449), (1, 65_532, 0));
    equal(&rt, read_of(&rt, rt.alloc(), 3450), (1, 65_536, 1));
}
