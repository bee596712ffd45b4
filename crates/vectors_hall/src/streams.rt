//! A source of connections in memory, and a gate.

use jk_hall::{Connection, Nobody, Source};
use jk_jobs::Gate;
use jk_web::End;
use std::alloc::Global;
use std::io::Read;
use std::process::Abort;
use std::sync::atomic::{AtomicUsize, Ordering};
use std::{io, thread};
use vectors::Meeting;

/// How often something is waited for at most.
pub(crate) const TURNS: usize = 1_000_000;

/// A gate at which the first connection meets the second.
#[derive(Drop)]
pub(crate) struct Held {
    pub(crate) meeting: Meeting,
}

impl Held {
    /// For so many connections.
    pub(crate) fn new(rt: &impl Abort, alloc: Global, count: usize) -> Held {
        Held {
            meeting: Meeting::new(alloc, count).expect(rt, "a gate"),
        }
    }
}

impl Gate for Held {
    fn began(&self, job: usize) {
        self.meeting.began(job);
    }

    fn ended(&self, job: usize) {
        self.meeting.ended(job);
    }
}

/// The bytes of a connection, with its number.
#[derive(Drop)]
pub(crate) struct Stream {
    number: usize,
    bytes: &'static [u8],
    at: usize,
}

impl Read for Stream {
    fn read(&mut self, buf: &mut [u8]) -> io::Result<usize> {
        let left = self.bytes.len().saturating_sub(self.at);
        let count = left.min(7).min(buf.len());
        for i in 0..count {
            if self.at < self.bytes.len() && i < buf.len() {
                buf[i] = self.bytes[self.at];
                self.at = self.at.saturating_add(1);
            }
        }
        Ok(count)
    }
}

/// Connections, and what is due on each. From the second one on they come once `open` isn't 0.
#[derive(Drop)]
pub(crate) struct Streams {
    pub(crate) alloc: Global,
    pub(crate) cases: &'static [(&'static [u8], &'static [u8])],
    pub(crate) taken: AtomicUsize,
    pub(crate) open: AtomicUsize,
    pub(crate) ended: AtomicUsize,
    right: AtomicUsize,
    // How many ended otherwise than by their requests.
    early: AtomicUsize,
}

impl Streams {
    pub(crate) fn new(
        alloc: Global,
        cases: &'static [(&'static [u8], &'static [u8])],
        open: usize,
    ) -> Streams {
        Streams {
            alloc,
            cases,
            taken: AtomicUsize::new(0),
            open: AtomicUsize::new(open),
            ended: AtomicUsize::new(0),
            right: AtomicUsize::new(0),
            early: AtomicUsize::new(0),
        }
    }

    /// How many connections had the replies that are due, and how many ended early.
    pub(crate) fn counts(&self) -> (usize, usize) {
        (
            self.right.load(Ordering::SeqCst),
            self.early.load(Ordering::SeqCst),
        )
    }
}

/// Waits until a number isn't 0, so many turns at most.
pub(crate) fn wait_for(number: &AtomicUsize) {
    for _ in 0..TURNS {
        if number.load(Ordering::SeqCst) > 0 {
            return;
        }
        thread::yield_now();
    }
}

impl Source for Streams {
    type In = Stream;

    type Out = Vec<u8>;

    type Told = Nobody;

    fn take(&self) -> Option<Connection<Stream, Vec<u8>, Nobody>> {
        let number = self.taken.fetch_add(1, Ordering::SeqCst);
        if number >= self.cases.len() {
            return None;
        }
        if number > 0 {
            wait_for(&self.open);
        }
        let stream = Stream {
            number,
            bytes: self.cases[number].0,
            at: 0,
        };
        Some(Connection {
            input: stream,
            output: Vec::new(self.alloc),
            witness: Nobody,
        })
    }

    fn ended(&self, connection: Connection<Stream, Vec<u8>, Nobody>, end: Option<End>) {
        let Connection { input, output, .. } = connection;
        if end != Some(End::Closed) {
            self.early.fetch_add(1, Ordering::SeqCst);
        } else if input.number < self.cases.len()
            && output.as_slice() == self.cases[input.number].1
        {
            self.right.fetch_add(1, Ordering::SeqCst);
        }
        self.ended.fetch_add(1, Ordering::SeqCst);
    }
}
