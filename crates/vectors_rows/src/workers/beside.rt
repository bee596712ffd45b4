//! Jobs that are done beside something else.

use crate::by_workers::Held;
use jk_jobs::{Open, Work, map_jobs_beside};
use jk_math::Fault;
use std::alloc::Global;
use std::test::Fail;
use std::thread::Threads;
use vectors::{Meeting, equal};

/// Numbers are squared, each by itself.
struct Squares;

impl Work for Squares {
    type Job = u32;

    type Done = u64;

    ghost accepts = { λ _. Unit {0} };

    ghost gives = { λ _ _. Unit {0} };

    fn done(_alloc: Global, number: &u32) -> Result<u64, Fault> {
        Ok(u64::from(*number) * u64::from(*number))
    }
}

/// Some numbers, and their squares.
static NUMBERS: [u32; 5] = [3, 1, 4, 15, 92];

static SQUARES: [u64; 5] = [9, 1, 16, 225, 8464];

/// The thread that calls takes jobs too: by one worker beside it the first job, which is held until the
/// second has begun, isn't held in vain. What is done beside them is done once.
#[test]
fn who_calls_takes_jobs_too(rt: HostRuntime) -> Result<(), Fail> {
    let alloc = rt.alloc();
    let held = Held {
        meeting: Meeting::new(alloc, NUMBERS.len())?,
    };
    let mut calls = 0_u32;
    let mut here = || -> u32 {
        calls = calls.wrapping_add(1);
        calls
    };
    let (squares, told) = map_jobs_beside::<Squares, _, _, _, _>(
        &rt, alloc, 1, &held, &NUMBERS, &mut here,
    );
    equal(told, 1).expect(&rt, "what is done beside them");
    let is_due = squares?.as_slice() == SQUARES.as_slice();
    equal(is_due, true).expect(&rt, "the squares");
    equal(held.meeting.was_met(1), true).expect(&rt, "the meeting");
    equal(calls, 1).expect(&rt, "the calls");
    Ok(())
}

/// By how many workers, and of how many jobs: none, fewer than workers, and more.
static COUNTS: [(usize, usize); 6] = [(1, 0), (64, 0), (1, 5), (3, 2), (5, 5), (64, 5)];

/// The squares in their order, and what is done beside them, however many workers and jobs there are.
#[test]
fn jobs_in_their_order(rt: HostRuntime) -> Result<(), Fail> {
    let alloc = rt.alloc();
    for (workers, jobs) in COUNTS {
        let mut calls = 0_u32;
        let mut here = || -> u32 {
            calls = calls.wrapping_add(1);
            calls
        };
        let (numbers, due) = (&NUMBERS[..jobs], &SQUARES[..jobs]);
        let (squares, told) = map_jobs_beside::<Squares, _, _, _, _>(
            &rt, alloc, workers, &Open, numbers, &mut here,
        );
        let is_due = squares?.as_slice() == due;
        equal(is_due, true).expect(&rt, "the squares");
        equal(told, 1).expect(&rt, "what is done beside them");
    }
    Ok(())
}

/// No worker and more than 64 are refused; what is done beside jobs is done all the same.
#[test]
fn workers_out_of_range(rt: HostRuntime) -> Result<(), Fail> {
    let alloc = rt.alloc();
    for workers in [0, 65] {
        let mut here = || -> u32 { 7 };
        let (squares, told) = map_jobs_beside::<Squares, _, _, _, _>(
            &rt, alloc, workers, &Open, &NUMBERS, &mut here,
        );
        let fault = squares.err();
        equal(fault, Some(Fault::BadParameters)).expect(&rt, "the fault");
        equal(told, 7).expect(&rt, "what is done beside them");
    }
    Ok(())
}
