//! A log that is written by a thread of its own: who gives it a line waits for no stream.

ghost use Rattle.std.specs.Prelude.{◌≡◌, ◌+◌, ◌-◌, ◌^◌, ◌⊎◌, ◌++◌, [], min};
ghost use Rattle.std.specs.String.{string_bytes};

use std::alloc::Global;
use std::mem::replace;
use std::sync::{Condvar, Mutex, Wait};

/// How many bytes of lines are kept at most until they are written.
const MOST: usize = 1 << 20;

/// Lines that are yet to be written.
#[derive(Drop)]
pub struct Kept {
    lines: String,
    // How many lines there was no room for.
    dropped: u64,
    // Whether no more lines come.
    is_closed: bool,
}

impl Kept {
    /// None.
    pub fn none(alloc: Global) -> Kept
        ensures lines { string_bytes result.lines ≡ [] }
        ensures dropped { result.dropped ≡ 0 }
    {
        Kept {
            lines: String::new(alloc),
            dropped: 0,
            is_closed: false,
        }
    }

    /// Keeps a line. Where there is no room for it, or no memory, it is dropped and counted.
    pub fn put(&mut self, line: &str)
        ensures { ((string_bytes self.new.lines ≡ string_bytes self.old.lines ++ line.now)
            × (self.new.dropped ≡ self.old.dropped))
            ⊎ ((string_bytes self.new.lines ≡ string_bytes self.old.lines)
            × (self.new.dropped ≡ min (self.old.dropped + 1) (2 ^ 64 - 1))) }
    {
        let room = MOST.saturating_sub(self.lines.len());
        if room < line.len() || self.lines.push_str(line).is_err() {
            self.dropped = self.dropped.saturating_add(1);
        }
    }

    /// Whether there is nothing to write, and more may come.
    fn is_idle(&self) -> bool {
        self.lines.is_empty() && self.dropped == 0 && !self.is_closed
    }

    /// What is kept, which is kept no longer.
    fn taken(&mut self, alloc: Global) -> Kept
        ensures taken { (string_bytes result.lines ≡ string_bytes self.old.lines)
            × (result.dropped ≡ self.old.dropped) × (result.is_closed ≡ self.old.is_closed) }
        ensures none { (string_bytes self.new.lines ≡ []) × (self.new.dropped ≡ 0) }
    {
        let is_closed = self.is_closed;
        let next = Kept {
            lines: String::new(alloc),
            dropped: 0,
            is_closed,
        };
        replace(self, next)
    }
}

/// A log.
#[derive(Drop)]
pub struct Log {
    kept: Mutex<Kept>,
    filled: Condvar,
}

impl Log {
    /// A log without a line.
    pub fn new(alloc: Global) -> Log {
        Log {
            kept: Mutex::new(Kept::none(alloc)),
            filled: Condvar::new(),
        }
    }

    /// Gives it a line. The lock is held by others for no longer than a line takes to be copied.
    pub fn put<R: Wait>(&self, rt: &R, line: &str) {
        self.kept.lock(rt).put(line);
        self.filled.notify_one();
    }

    /// No more lines come.
    pub fn close<R: Wait>(&self, rt: &R) {
        let mut kept = self.kept.lock(rt);
        kept.is_closed = true;
        drop(kept);
        self.filled.notify_one();
    }

    /// What there is to write, once there is something.
    fn next<R: Wait>(&self, rt: &R, alloc: Global) -> Kept {
        let mut kept = self
            .filled
            .wait_while(rt, self.kept.lock(rt), |kept| kept.is_idle());
        kept.taken(alloc)
    }

    /// Writes the lines to standard error as they come, until no more come.
    pub fn write_all<R: Wait + Eprint>(&self, rt: &R, alloc: Global) {
        for _ in rt.forever() {
            let next = self.next(rt, alloc);
            let _ = rt.eprint(next.lines.as_str());
            if next.dropped > 0 {
                let _ = eprintln!(rt; "jk: {} lines of the log were dropped", next.dropped);
            }
            if next.is_closed {
                break;
            }
        }
    }
}
