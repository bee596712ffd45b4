//! What is told to who has an archive while its files are opened.

use crate::asked::Asked;
use jk_math::Fault;
use jk_store::Prepared;
use std::alloc::Global;
use std::sync::{Condvar, CondvarTimeouts, Mutex, Wait};
use std::time::{Clock, Duration};

/// What an operator asks of who has the archive.
#[derive(Drop)]
pub(crate) enum Request {
    /// Whether an image of this name may be added.
    Look(String),
    /// To take the folder's lock, unless another holds it: then it is told, if this is the first try.
    Lock { is_first: bool },
    /// To add this image, for which the lock was taken, to publish it, and to let the lock go.
    Add(Prepared),
    /// To publish what waits.
    Settle,
}

/// What became of what an operator asked.
#[derive(Clone, Copy, Debug, PartialEq, Eq)]
pub(crate) enum Outcome {
    Done,
    /// Another holds the folder's lock.
    Busy,
}

/// What has come.
#[derive(Drop)]
pub(crate) struct Turn {
    /// The names of images that were asked for and aren't listed, in the order in which they were.
    pub(crate) names: Vec<String>,
    /// What the operator asks.
    pub(crate) request: Option<Request>,
    /// Whether serving has ended.
    pub(crate) is_served: bool,
}

/// What is kept.
#[derive(Drop)]
struct Kept {
    names: Asked,
    request: Option<Request>,
    answer: Option<Result<Outcome, Fault>>,
    // Whether serving has ended, and whether the operator's lines have.
    is_served: bool,
    is_followed: bool,
}

impl Kept {
    /// Keeps a name, if there is memory for it.
    fn put(&mut self, alloc: Global, name: &str) {
        if let Ok(name) = String::from_str(alloc, name) {
            let _ = self.names.put(name);
        }
    }

    /// What has come, which is kept no longer.
    fn turn(&mut self, alloc: Global) -> Turn {
        Turn {
            names: self.names.take(alloc),
            request: self.request.take(),
            is_served: self.is_served,
        }
    }
}

/// What those who serve an archive and follow its operator tell who has it, who alone lists and
/// publishes: the last names that were asked for in vain, 16 at most; what the operator asks, which
/// is answered here; and what has ended. The lock is held for no more than to look and to change.
#[derive(Drop)]
pub(crate) struct Post {
    alloc: Global,
    kept: Mutex<Kept>,
    told: Condvar,
    answered: Condvar,
}

impl Post {
    /// Nothing so far.
    pub(crate) fn new(alloc: Global) -> Post {
        Post {
            alloc,
            kept: Mutex::new(Kept {
                names: Asked::none(alloc),
                request: None,
                answer: None,
                is_served: false,
                is_followed: false,
            }),
            told: Condvar::new(),
            answered: Condvar::new(),
        }
    }

    /// Keeps a name, where the lock can be had at once: who asks waits for nobody.
    pub(crate) fn put(&self, name: &str) {
        if let Some(mut kept) = self.kept.try_lock() {
            kept.put(self.alloc, name);
        }
    }

    /// Serving has ended.
    pub(crate) fn end_serving<R: Wait>(&self, rt: &R) {
        let mut kept = self.kept.lock(rt);
        kept.is_served = true;
        drop(kept);
        self.told.notify_all();
    }

    /// The operator's lines have ended.
    pub(crate) fn end_lines<R: Wait>(&self, rt: &R) {
        let mut kept = self.kept.lock(rt);
        kept.is_followed = true;
        drop(kept);
        self.told.notify_all();
    }

    /// Asks who has the archive, and waits for the answer.
    pub(crate) fn ask<R: Wait>(&self, rt: &R, request: Request) -> Result<Outcome, Fault> {
        let mut kept = self.kept.lock(rt);
        kept.request = Some(request);
        self.told.notify_all();
        let mut kept = self
            .answered
            .wait_while(rt, kept, |kept| kept.answer.is_none());
        kept.answer.take().unwrap_or(Err(Fault::WorkerFailed))
    }

    /// Answers what the operator asked.
    pub(crate) fn answer<R: Wait>(&self, rt: &R, answer: Result<Outcome, Fault>) {
        let mut kept = self.kept.lock(rt);
        kept.answer = Some(answer);
        drop(kept);
        self.answered.notify_all();
    }

    /// What has come, which is kept no longer.
    pub(crate) fn turn<R: Wait>(&self, rt: &R) -> Turn {
        self.kept.lock(rt).turn(self.alloc)
    }

    /// Waits for so long, or until the operator asks or serving has ended.
    pub(crate) fn pause<R: Wait + Clock>(&self, rt: &R, time: Duration) {
        let kept = self.kept.lock(rt);
        let _ = self.told.wait_timeout_while(
            rt,
            kept,
            time,
            |kept| kept.request.is_none() && !kept.is_served,
        );
    }

    /// What the operator asks next; None where the lines have ended.
    pub(crate) fn next_request<R: Wait>(&self, rt: &R) -> Option<Request> {
        let kept = self.kept.lock(rt);
        let mut kept = self.told.wait_while(
            rt,
            kept,
            |kept| kept.request.is_none() && !kept.is_followed,
        );
        kept.request.take()
    }
}
