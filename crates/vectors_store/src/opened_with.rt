//! Archives that several workers open, against those that are opened by one thread.

use crate::asserts::{equal, equal_at};
use crate::calls::{bytes, listed, open, open_with, put, skipped, write};
use crate::contents::Content;
use crate::digested::noted;
use crate::shelves::{Act, Acting, act_at, alike};
use jk_jobs::{Gate, Open};
use jk_math::Fault;
use jk_store::{Archive, Images, MemoryShelf, Shelf};
use std::alloc::Global;
use std::process::Abort;
use std::sync::atomic::{AtomicUsize, Ordering};
use std::thread::Threads;
use vectors::Meeting;

/// A file of an archive: every third is a bare codestream, which isn't listed, and the others have
/// texts of up to three parts of a file.
fn file(rt: &impl Abort, alloc: Global, number: u32) -> Vec<u8> {
    if number % 3 == 1 {
        return bytes(rt, alloc, Content::Bare);
    }
    noted(rt, alloc, number.saturating_mul(5_000))
}

/// A shelf of so many files.
fn shelf_of(rt: &impl Abort, alloc: Global, count: u32) -> MemoryShelf {
    let mut shelf = MemoryShelf::new(alloc);
    for number in 0..count {
        let name = format!(in alloc; "{number}.jp2").expect(rt, "a name");
        write(
            rt,
            &mut shelf,
            alloc,
            name.as_str(),
            &file(rt, alloc, number),
        );
    }
    shelf
}

/// What an archive has: its names, what is skipped, and the digests of its entries and of their
/// parts.
fn told<S: Shelf>(rt: &impl Abort, alloc: Global, archive: &Archive<S>) -> Vec<u8> {
    let mut all = Vec::new(alloc);
    put(rt, &mut all, listed(rt, archive, alloc).as_bytes());
    put(rt, &mut all, skipped(rt, archive, alloc).as_bytes());
    for entry in archive.list() {
        put(rt, &mut all, &entry.digest);
        for part in &entry.parts {
            put(rt, &mut all, part);
        }
    }
    all
}

/// So many workers make of so many files what one thread makes of them.
fn compare<R: Threads + Sync + Abort>(rt: &R, alloc: Global, count: u32, workers: usize) {
    let alone = open(rt, alloc, shelf_of(rt, alloc, count));
    let shelf = shelf_of(rt, alloc, count);
    let shared = open_with(rt, alloc, workers, &Open, shelf).expect(rt, "an archive");
    let (found, due) = (told(rt, alloc, &shared), told(rt, alloc, &alone));
    equal_at(rt, (count, workers), found.as_slice(), due.as_slice());
}

#[test]
fn as_one_thread(rt: HostRuntime) {
    for count in [0, 1, 3, 5, 9] {
        for workers in [1, 2, 4, 64] {
            compare(&rt, rt.alloc(), count, workers);
        }
    }
}

/// Why so many workers don't read the images of a shelf, and how many of its calls failed.
fn refused<R: Threads + Sync, S: Shelf>(
    rt: &R,
    alloc: Global,
    workers: usize,
    shelf: &mut S,
) -> (Option<Fault>, u64) {
    let fault = Images::read_with(rt, alloc, workers, &Open, shelf).err();
    (fault, shelf.failures())
}

/// No worker, and one more than 64, before the shelf is asked for anything: its first call, which
/// fails, is still to come.
#[test]
fn workers_out_of_range(rt: HostRuntime) {
    for workers in [0, 65] {
        let mut shelf = act_at(shelf_of(&rt, rt.alloc(), 1), 1, Act::Fail);
        let first = refused(&rt, rt.alloc(), workers, &mut shelf);
        equal_at(&rt, workers, first, (Some(Fault::BadParameters), 0));
        let second = refused(&rt, rt.alloc(), 1, &mut shelf);
        equal_at(&rt, workers, second, (Some(Fault::Shelf), 1));
        let third = refused(&rt, rt.alloc(), 1, &mut shelf);
        equal_at(&rt, workers, third, (None, 1));
    }
}

/// A shelf whose first so many of nine files can be read, and the one behind them can't.
fn unread_behind(rt: &impl Abort, alloc: Global, count: u64) -> Acting {
    // Behind the listing and as many reads.
    act_at(shelf_of(rt, alloc, 9), count.saturating_add(2), Act::Fail)
}

#[test]
fn a_file_that_cant_be_read(rt: HostRuntime) {
    for count in [0, 1, 4, 6, 8] {
        for workers in [1, 2, 4] {
            let mut shelf = unread_behind(&rt, rt.alloc(), count);
            let found = refused(&rt, rt.alloc(), workers, &mut shelf);
            equal_at(&rt, (count, workers), found, (Some(Fault::Shelf), 1));
        }
    }
}

/// How many images four workers list of so many files, or why they don't.
fn listed_of<R: Threads + Sync + Abort>(rt: &R, alloc: Global, count: u16) -> Result<usize, Fault> {
    let shelf = alike(count, bytes(rt, alloc, Content::Page));
    Ok(open_with(rt, alloc, 4, &Open, shelf)?.list().len())
}

#[test]
fn one_image_too_many(rt: HostRuntime) {
    equal(&rt, listed_of(&rt, rt.alloc(), 4096), Ok(4096));
    equal(&rt, listed_of(&rt, rt.alloc(), 4097), Err(Fault::Limit));
}

/// A gate at which the first job meets the second.
#[derive(Drop)]
struct Held {
    meeting: Meeting,
}

impl Gate for Held {
    fn began(&self, job: usize) {
        self.meeting.began(job);
    }

    fn ended(&self, job: usize) {
        self.meeting.ended(job);
    }
}

/// Of nine files there are three jobs, of up to four each; each is told once when it begins and once
/// when it has ended, and the first ends only because the second has begun.
#[test]
fn two_jobs_at_a_time(rt: HostRuntime) {
    let alloc = rt.alloc();
    for workers in [2, 4] {
        let held = Held {
            meeting: Meeting::new(alloc, 3).expect(&rt, "counts"),
        };
        let shelf = shelf_of(&rt, alloc, 9);
        let archive = open_with(&rt, alloc, workers, &held, shelf).expect(&rt, "an archive");
        let found = (archive.list().len(), held.meeting.was_met(1));
        equal_at(&rt, workers, found, (6, true));
    }
}

/// A gate that counts the jobs that began, and knows the last number that one had.
#[derive(Drop)]
struct Counted {
    begun: AtomicUsize,
    last: AtomicUsize,
}

impl Gate for Counted {
    fn began(&self, job: usize) {
        self.begun.fetch_add(1, Ordering::SeqCst);
        self.last.fetch_max(job, Ordering::SeqCst);
    }

    fn ended(&self, _job: usize) {}
}

/// In how many jobs two workers judge so many files of one byte, and the last number that one had:
/// those that are judged together are numbered from 0.
fn jobs_of<R: Threads + Sync + Abort>(rt: &R, alloc: Global, count: u16) -> (usize, usize) {
    let counted = Counted {
        begun: AtomicUsize::new(0),
        last: AtomicUsize::new(0),
    };
    let shelf = alike(count, bytes(rt, alloc, Content::Byte));
    let archive = open_with(rt, alloc, 2, &counted, shelf).expect(rt, "an archive");
    equal(rt, archive.list().len(), 0);
    (
        counted.begun.load(Ordering::SeqCst),
        counted.last.load(Ordering::SeqCst),
    )
}

/// Not all files are read before any is judged: two workers judge 128 together, four in a job.
#[test]
fn files_that_are_judged_together(rt: HostRuntime) {
    equal(&rt, jobs_of(&rt, rt.alloc(), 127), (32, 31));
    equal(&rt, jobs_of(&rt, rt.alloc(), 256), (64, 31));
}

/// With all its memory this test sees nine files opened; a script beside the proofs refuses each
/// growth in turn, and Memory is told then, whichever worker asks for it.
#[test]
fn where_memory_is_refused(rt: HostRuntime) {
    let shelf = shelf_of(&rt, rt.alloc(), 9);
    match open_with(&rt, rt.alloc(), 2, &Open, shelf) {
        Ok(archive) => equal(&rt, archive.list().len(), 6),
        Err(fault) => equal(&rt, matches!(fault, Fault::Memory(_)), true),
    }
}
