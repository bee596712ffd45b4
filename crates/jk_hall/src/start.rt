//! A beginning that several threads wait for.

use std::sync::{Condvar, Mutex, Wait};

/// How far a beginning is.
#[derive(Clone, Copy, Debug, PartialEq, Eq)]
enum Stage {
    Due,
    Begun,
    GivenUp,
}

/// A beginning that threads wait for until all of them are there. Where one of them can't be had it is
/// given up.
#[derive(Drop)]
pub struct Start {
    stage: Mutex<Stage>,
    settled: Condvar,
}

impl Start {
    /// One that is due.
    pub fn due() -> Start {
        Start {
            stage: Mutex::new(Stage::Due),
            settled: Condvar::new(),
        }
    }

    /// Goes on to a stage, if it is still due.
    fn settle<R: Wait>(&self, rt: &R, next: Stage) {
        let mut stage = self.stage.lock(rt);
        if *stage != Stage::Due {
            return;
        }
        *stage = next;
        drop(stage);
        self.settled.notify_all();
    }

    /// It has come.
    pub fn begin<R: Wait>(&self, rt: &R) {
        self.settle(rt, Stage::Begun);
    }

    /// It is given up, if it hasn't come.
    pub fn give_up<R: Wait>(&self, rt: &R) {
        self.settle(rt, Stage::GivenUp);
    }

    /// Waits until it comes or is given up, and whether it has come.
    pub fn wait<R: Wait>(&self, rt: &R) -> bool {
        let stage = self.stage.lock(rt);
        let stage = self
            .settled
            .wait_while(rt, stage, |stage| *stage == Stage::Due);
        *stage == Stage::Begun
    }
}
