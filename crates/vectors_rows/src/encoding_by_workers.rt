//! Images encoded row by row by several workers: the same files, and the same faults.

ghost use Rattle.std.specs.Prelude.{◌≤◌};

use crate::by_workers::{Counted, Held, noisy, with_levels};
use crate::chance::{Chance, image, plane};
use crate::encoding::{Supply, Written, any_parameters, kind, stripes_of_four, untiled, whole};
use jk_code::{Team, encode_rows_with};
use jk_jobs::{Gate, Open};
use jk_math::{Fault, Image};
use jk_params::{Parameters, frame_of};
use jk_tile::Workers;
use std::alloc::Global;
use std::marker::Sync;
use std::process::Abort;
use std::sync::atomic::{AtomicUsize, Ordering};
use std::test::Fail;
use std::thread::Threads;
use vectors::{Meeting, equal, equal_at};

/// Encodes the rows of an image in steps of so many by so many workers, of which so many stripes are
/// given.
fn written_by<R: Threads + Sync, G: Gate + Sync>(
    workers: &Workers<'_, R>,
    alloc: Global,
    gate: &G,
    image: &Image,
    given: &Parameters,
    step: u32,
    left: u32,
) -> Written
    requires step { 1 ≤ step }
{
    let frame = frame_of(image);
    let mut rows = Supply {
        image,
        next: frame.y0,
        left,
    };
    let mut bytes = Vec::new(alloc);
    let team = Team { workers, gate };
    let told = encode_rows_with(&team, alloc, &frame, given, step, &mut rows, &mut bytes);
    (told, bytes)
}

/// How many workers there are, and how many rows they are given at a time.
static TURNS: [(usize, u32); 6] = [(1, 1000), (2, 1), (3, 7), (4, 33), (5, 2), (2, 1000)];

/// By several workers as the whole image.
fn beside_whole<R: Threads + Sync + Abort>(
    rt: &R,
    alloc: Global,
    image: &Image,
    given: &Parameters,
) {
    let due = whole(alloc, image, given);
    for (count, step) in TURNS {
        let workers = Workers {
            rt,
            count: count.max(1).min(64),
        };
        let step = step.max(1);
        let (told, bytes) = written_by(&workers, alloc, &Open, image, given, step, u32::MAX);
        equal_at(step, told, due.0).expect(rt, "what is due");
        equal_at(step, bytes.as_slice(), due.1.as_slice()).expect(rt, "what is due");
    }
}

/// Several workers are given as many stripes as the image has, and no fewer.
#[test]
fn stripes_that_workers_ask_for(rt: HostRuntime) -> Result<(), Fail> {
    let alloc = rt.alloc();
    let mut chance = Chance { state: 73 };
    let workers = Workers { rt: &rt, count: 2 };
    for turn in 0..6 {
        let (image, given) = untiled(alloc, &mut chance)?;
        let due = whole(alloc, &image, &given);
        let count = stripes_of_four(&image);
        let (told, _bytes) = written_by(&workers, alloc, &Open, &image, &given, 4, count);
        equal_at(turn, told, due.0).expect(&rt, "what is due");
        let fewer = count.saturating_sub(1);
        let (told, _bytes) = written_by(&workers, alloc, &Open, &image, &given, 4, fewer);
        equal_at(turn, told, Err(Fault::Truncated)).expect(&rt, "a stripe fewer");
    }
    Ok(())
}

#[test]
fn files_by_workers(rt: HostRuntime) -> Result<(), Fail> {
    let alloc = rt.alloc();
    let mut chance = Chance { state: 71 };
    for turn in 0..12 {
        let image = image(alloc, &mut chance, kind(turn % 3 == 0))?;
        let given = any_parameters(alloc, &mut chance, &image)?;
        beside_whole(&rt, alloc, &image, &given);
    }
    Ok(())
}

/// The exponents of code-blocks: the smallest, small ones, large ones, and flat ones.
static BLOCKS: [(u8, u8); 4] = [(2, 2), (4, 4), (6, 6), (10, 2)];

#[test]
fn small_and_large_code_blocks(rt: HostRuntime) -> Result<(), Fail> {
    let alloc = rt.alloc();
    let mut chance = Chance { state: 73 };
    let mut planes = Vec::new(alloc);
    planes.push(plane(alloc, &mut chance, 72 * 40, 8, false)?)?;
    let image = Image::new(5, 3, 72, 40, 8, false, planes)?;
    for (xcb, ycb) in BLOCKS {
        let given = Parameters {
            xcb,
            ycb,
            ..with_levels(alloc, 2)
        };
        beside_whole(&rt, alloc, &image, &given);
    }
    Ok(())
}

/// A fault in place of a stripe is told, and nothing is written.
#[test]
fn fault_in_place_of_rows(rt: HostRuntime) -> Result<(), Fail> {
    let alloc = rt.alloc();
    let image = noisy(alloc)?;
    let given = with_levels(alloc, 1);
    let workers = Workers { rt: &rt, count: 3 };
    for left in 0..4 {
        let (told, bytes) = written_by(&workers, alloc, &Open, &image, &given, 16, left);
        equal_at(left, told, Err(Fault::Truncated)).expect(&rt, "what is due");
        equal_at(left, bytes.len(), 0).expect(&rt, "what is due");
    }
    Ok(())
}

/// Each code-block is told once when it begins and once when it has ended, and the first ends only
/// because the second has begun.
#[test]
fn two_code_blocks_coded_at_a_time(rt: HostRuntime) -> Result<(), Fail> {
    let alloc = rt.alloc();
    let image = noisy(alloc)?;
    let given = with_levels(alloc, 0);
    let held = Held {
        meeting: Meeting::new(alloc, 4)?,
    };
    let workers = Workers { rt: &rt, count: 2 };
    let due = whole(alloc, &image, &given);
    let (told, bytes) = written_by(&workers, alloc, &held, &image, &given, 1000, u32::MAX);
    equal(told, due.0).expect(&rt, "what is due");
    equal(bytes.as_slice(), due.1.as_slice()).expect(&rt, "the file");
    equal(held.meeting.was_met(1), true).expect(&rt, "the meeting");
    Ok(())
}

/// Workers code each code-block once, also where it waits while those of several stripes are coded.
#[test]
fn each_code_block_is_coded_once(rt: HostRuntime) -> Result<(), Fail> {
    let alloc = rt.alloc();
    let mut chance = Chance { state: 79 };
    let mut planes = Vec::new(alloc);
    planes.push(plane(alloc, &mut chance, 128 * 256, 8, false)?)?;
    let image = Image::new(0, 0, 128, 256, 8, false, planes)?;
    let given = with_levels(alloc, 0);
    let workers = Workers { rt: &rt, count: 2 };
    let counted = Counted {
        begun: AtomicUsize::new(0),
    };
    let due = whole(alloc, &image, &given);
    let (told, bytes) = written_by(&workers, alloc, &counted, &image, &given, 32, u32::MAX);
    equal(told, due.0).expect(&rt, "what is due");
    equal(bytes.as_slice(), due.1.as_slice()).expect(&rt, "the file");
    equal(counted.begun.load(Ordering::SeqCst), 8).expect(&rt, "the code-blocks");
    Ok(())
}
