//! A desk at an archive that another thread has.

use crate::desk::prepare;
use crate::operating::Adds;
use crate::operator_line::Adding;
use crate::post::{Outcome, Post, Request};
use jk_commands::{EncodeOptions, judge, read_image};
use jk_math::Fault;
use jk_store::Shelf;
use std::alloc::Global;
use std::sync::Wait;
use std::thread;
use std::time::{Clock, Duration, Instant};

/// How long is waited between two tries to lock the folder, in milliseconds.
const PAUSE: u64 = 50;

/// How long it is tried, in seconds.
const PATIENCE: u64 = 10;

/// Where images are prepared that are added by who has the archive, and what reads the files that
/// are added.
#[derive(Drop)]
pub(crate) struct DistantDesk<'p, R, P> {
    pub(crate) clock: &'p R,
    pub(crate) post: &'p Post,
    pub(crate) paths: P,
}

impl<'p, T: Clock, P> DistantDesk<'p, T, P> {
    /// Has the folder's lock taken, for which it is tried again and again: who has the archive opens
    /// files meanwhile.
    ///
    /// Shelf: it can't be taken, or another holds it for ten seconds.
    fn lock<R: Wait>(&self, rt: &R) -> Result<(), Fault> {
        let start = Instant::now(self.clock).map_err(|_| Fault::Shelf)?;
        let mut is_first = true;
        for _ in rt.forever() {
            if self.post.ask(rt, Request::Lock { is_first })? == Outcome::Done {
                return Ok(());
            }
            is_first = false;
            let waited = start.elapsed(self.clock).map_err(|_| Fault::Shelf)?;
            if Duration::from_secs(PATIENCE) <= waited {
                break;
            }
            thread::sleep(self.clock, Duration::from_millis(PAUSE));
        }
        Err(Fault::Shelf)
    }
}

// As `Desk::add`. The file is read and its image encoded here, without the folder's lock; what
// changes the archive is asked for, and done between two files that are opened.
impl<'p, T: Clock, P: Shelf> Adds for DistantDesk<'p, T, P> {
    type Beside = ();

    fn take<R: Wait>(
        &mut self,
        rt: &R,
        alloc: Global,
        _beside: &mut (),
        adding: Adding<'_>,
    ) -> Result<(), Fault> {
        let Adding { name, path } = adding;
        let image = read_image(alloc, self.paths.read(alloc, path)?)?;
        let plan = judge(alloc, &EncodeOptions::new(alloc))?;
        let look = Request::Look(String::from_str(alloc, name)?);
        self.post.ask(rt, look)?;
        let prepared = prepare(alloc, name, image, plan)?;
        self.lock(rt)?;
        self.post.ask(rt, Request::Add(prepared))?;
        Ok(())
    }
}
