//! Connections that can't be taken.

use std::io;
use std::time::{Clock, Duration};

/// How long is waited after the first failure to take a connection, in milliseconds.
const FIRST_PAUSE: u64 = 10;

/// How long is waited at most.
const LAST_PAUSE: u64 = 1000;

/// The failures to take a connection, in a row.
#[derive(Drop)]
pub(crate) struct Row {
    count: u64,
    last: Option<io::Error>,
}

impl Row {
    /// No failure.
    pub(crate) fn none() -> Row {
        Row {
            count: 0,
            last: None,
        }
    }

    /// One more failure: the first of a row is told. How long is waited then.
    pub(crate) fn add<R: Eprint>(&mut self, rt: &R, said: io::Error) -> Duration {
        if self.count == 0 {
            let _ = eprintln!(rt; "jk: a connection can't be taken: {said}");
        }
        let pause = FIRST_PAUSE << self.count.min(7);
        self.count = self.count.saturating_add(1);
        self.last = Some(said);
        Duration::from_millis(pause.min(LAST_PAUSE))
    }

    /// The end of the row: the last failure of several is told.
    pub(crate) fn end<R: Eprint>(&mut self, rt: &R) {
        if let Some(said) = self.last {
            if self.count > 1 {
                let _ = eprintln!(rt;
                    "jk: {} connections couldn't be taken, the last: {said}",
                    self.count
                );
            }
        }
        self.count = 0;
        self.last = None;
    }
}
