//! Images decoded row by row by several workers.

ghost use Rattle.std.specs.Prelude.{◌≤◌};

use crate::chance::{Chance, plane};
use jk_code::{Rows, decode_rows_with, encode};
use jk_jobs::{Gate, Open};
use jk_marks::Order;
use jk_math::{Fault, Image, Style};
use jk_params::{Container, Parameters};
use jk_tile::Workers;
use std::alloc::Global;
use std::sync::atomic::{AtomicUsize, Ordering};
use std::test::Fail;
use std::thread::Threads;
use vectors::{Meeting, equal, equal_at};

/// A gate at which the first job meets the second.
#[derive(Drop)]
pub(crate) struct Held {
    pub(crate) meeting: Meeting,
}

impl Gate for Held {
    fn began(&self, job: usize) {
        self.meeting.began(job);
    }

    fn ended(&self, job: usize) {
        self.meeting.ended(job);
    }
}

/// A gate that counts the code-blocks of which it is told.
#[derive(Drop)]
pub(crate) struct Counted {
    pub(crate) begun: AtomicUsize,
}

impl Gate for Counted {
    fn began(&self, _job: usize) {
        self.begun.fetch_add(1, Ordering::SeqCst);
    }

    fn ended(&self, _job: usize) {}
}

/// Keeps the samples of the first component, and how many rows each stripe has.
#[derive(Drop)]
struct Kept {
    samples: Vec<i32>,
    counts: Vec<u32>,
}

impl Rows for Kept {
    ghost took = { λ _ _ _. Unit {0} };

    ghost refused = { λ _ _ _ _. ⊥ };

    fn take(&mut self, _alloc: Global, rows: Image) -> Result<(), Fault> {
        self.counts.push(rows.height())?;
        let planes = rows.planes();
        if planes.len() > 0 {
            self.samples.extend_from_slice(planes.plane(0))?;
        }
        Ok(())
    }
}

/// Four code-blocks of 64 by 64 side by side, without a level.
pub(crate) fn noisy(alloc: Global) -> Result<Image, Fail> {
    let mut chance = Chance { state: 29 };
    let mut planes = Vec::new(alloc);
    planes.push(plane(alloc, &mut chance, 256 * 64, 8, false)?)?;
    Ok(Image::new(0, 0, 256, 64, 8, false, planes)?)
}

/// The parameters of its file, with so many levels.
pub(crate) fn with_levels(alloc: Global, levels: u8) -> Parameters {
    Parameters {
        levels,
        layers: 1,
        order: Order::Lrcp,
        tile: None,
        xcb: 6,
        ycb: 6,
        style: Style {
            reset: false,
            causal: false,
            segments: false,
        },
        precincts: Vec::new(alloc),
        colour: false,
        sop: false,
        eph: false,
        container: Container::Raw,
    }
}

/// The rows of a file, decoded so many at a time by so many workers.
fn rows_by<R: Threads + Sync, G: Gate + Sync>(
    rt: &R,
    alloc: Global,
    count: usize,
    gate: &G,
    file: &[u8],
    step: u32,
) -> Result<Kept, Fault>
    requires some { 1 ≤ count }
    requires few { count ≤ 64 }
    requires step { 1 ≤ step }
{
    let mut kept = Kept {
        samples: Vec::new(alloc),
        counts: Vec::new(alloc),
    };
    let workers = Workers { rt, count };
    decode_rows_with(&workers, alloc, gate, file, 0, step, &mut kept)?;
    Ok(kept)
}

/// Whether each stripe has so many rows, or one or two more, and the last one no more.
fn are_steps(counts: &[u32], step: u32) -> bool {
    let most = step.saturating_add(2);
    match counts.split_last() {
        Some((last, before)) => {
            *last <= most && before.iter().all(|count| step <= *count && *count <= most)
        }
        None => false,
    }
}

/// Each code-block is told once when it begins and once when it has ended, and the first ends only
/// because the second has begun; what they make is the image.
#[test]
fn two_code_blocks_at_a_time(rt: HostRuntime) -> Result<(), Fail> {
    let alloc = rt.alloc();
    let image = noisy(alloc)?;
    let file = encode(alloc, &image, &with_levels(alloc, 0))?;
    let held = Held {
        meeting: Meeting::new(alloc, 4)?,
    };
    let rows = rows_by(&rt, alloc, 2, &held, &file, 1000)?;
    let planes = image.planes();
    let is_due = planes.len() > 0 && rows.samples.as_slice() == planes.plane(0);
    equal(is_due, true).expect(&rt, "the samples");
    equal(held.meeting.was_met(1), true).expect(&rt, "the meeting");
    Ok(())
}

/// Workers decode each code-block once, also those of the stripes behind the first one.
#[test]
fn each_code_block_is_decoded_once(rt: HostRuntime) -> Result<(), Fail> {
    let alloc = rt.alloc();
    let mut chance = Chance { state: 83 };
    let mut planes = Vec::new(alloc);
    planes.push(plane(alloc, &mut chance, 128 * 256, 8, false)?)?;
    let image = Image::new(0, 0, 128, 256, 8, false, planes)?;
    let file = encode(alloc, &image, &with_levels(alloc, 0))?;
    let counted = Counted {
        begun: AtomicUsize::new(0),
    };
    let rows = rows_by(&rt, alloc, 2, &counted, &file, 32)?;
    let planes = image.planes();
    let is_due = planes.len() > 0 && rows.samples.as_slice() == planes.plane(0);
    equal(is_due, true).expect(&rt, "the samples");
    equal(counted.begun.load(Ordering::SeqCst), 8).expect(&rt, "the code-blocks");
    Ok(())
}

/// How many rows are decoded at a time: fewer than a code-block has, and more than there are.
static STEPS: [u32; 5] = [1, 2, 7, 33, 1000];

/// The same samples, however many rows are decoded at a time, by one worker and by several; and so many
/// are given at a time.
#[test]
fn steps_of_rows(rt: HostRuntime) -> Result<(), Fail> {
    let alloc = rt.alloc();
    let image = noisy(alloc)?;
    let file = encode(alloc, &image, &with_levels(alloc, 5))?;
    let planes = image.planes();
    for step in STEPS {
        let step = step.max(1);
        let one = rows_by(&rt, alloc, 1, &Open, &file, step)?;
        let five = rows_by(&rt, alloc, 5, &Open, &file, step)?;
        let is_due = planes.len() > 0 && one.samples.as_slice() == planes.plane(0);
        let are_same = five.samples == one.samples;
        equal_at(step, (is_due, are_same), (true, true)).expect(&rt, "the samples");
        let found = (are_steps(&one.counts, step), are_steps(&five.counts, step));
        equal_at(step, found, (true, true)).expect(&rt, "the rows of stripes");
    }
    Ok(())
}
