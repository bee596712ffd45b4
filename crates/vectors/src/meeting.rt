//! What a gate is told of jobs: how often each has begun and ended, and whether the first one met
//! another.

use std::alloc::{AllocError, Global};
use std::sync::atomic::{AtomicUsize, Ordering};
use std::thread;

/// How many turns the first job waits for the second one at most.
const TURNS: usize = 1_000_000;

/// Counts jobs by their numbers, and holds job 0 until job 1 has begun as often as it has, so many
/// turns at most.
#[derive(Drop)]
pub struct Meeting {
    begins: Vec<AtomicUsize>,
    ends: Vec<AtomicUsize>,
    // How often a job had another number, or ended where it hadn't begun.
    strays: AtomicUsize,
    // How often job 0 waited in vain.
    vain: AtomicUsize,
}

/// So many zeros.
fn zeros(alloc: Global, count: usize) -> Result<Vec<AtomicUsize>, AllocError> {
    let mut all = Vec::new(alloc);
    for _ in 0..count {
        all.push(AtomicUsize::new(0))?;
    }
    Ok(all)
}

/// One more at a number, if there is one: how many it is then, else 0.
fn one_more(counts: &[AtomicUsize], number: usize) -> usize {
    match counts.get(number) {
        Some(count) => count.fetch_add(1, Ordering::SeqCst).saturating_add(1),
        None => 0,
    }
}

/// How many it is at a number, if there is one, else 0.
fn at(counts: &[AtomicUsize], number: usize) -> usize {
    match counts.get(number) {
        Some(count) => count.load(Ordering::SeqCst),
        None => 0,
    }
}

/// Whether each is so many.
fn are_all(counts: &[AtomicUsize], due: usize) -> bool {
    for count in counts {
        if count.load(Ordering::SeqCst) != due {
            return false;
        }
    }
    true
}

impl Meeting {
    /// Nobody has begun, of so many jobs.
    pub fn new(alloc: Global, jobs: usize) -> Result<Meeting, AllocError> {
        Ok(Meeting {
            begins: zeros(alloc, jobs)?,
            ends: zeros(alloc, jobs)?,
            strays: AtomicUsize::new(0),
            vain: AtomicUsize::new(0),
        })
    }

    /// A job begins. Job 0 waits here for job 1.
    pub fn began(&self, job: usize) {
        let often = one_more(&self.begins, job);
        if often == 0 {
            self.strays.fetch_add(1, Ordering::SeqCst);
        }
        if job > 0 {
            return;
        }
        for _ in 0..TURNS {
            if at(&self.begins, 1) >= often {
                return;
            }
            thread::yield_now();
        }
        self.vain.fetch_add(1, Ordering::SeqCst);
    }

    /// A job has ended.
    pub fn ended(&self, job: usize) {
        let often = one_more(&self.ends, job);
        if often == 0 || often > at(&self.begins, job) {
            self.strays.fetch_add(1, Ordering::SeqCst);
        }
    }

    /// How often job 0 waited in vain.
    pub fn missed(&self) -> usize {
        self.vain.load(Ordering::SeqCst)
    }

    /// Whether each job has begun and ended so often, and no other has.
    pub fn counted(&self, often: usize) -> bool {
        are_all(&self.begins, often)
            && are_all(&self.ends, often)
            && self.strays.load(Ordering::SeqCst) == 0
    }

    /// Whether each job has begun and ended so often, and no other has, and job 0 never waited in
    /// vain.
    pub fn was_met(&self, often: usize) -> bool {
        self.counted(often) && self.missed() == 0
    }
}
