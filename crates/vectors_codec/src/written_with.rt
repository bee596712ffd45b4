//! Files whose code-blocks workers code side by side: the bytes of one thread.

use crate::asserts::equal_at;
use crate::calls::{self, encode, encode_with};
use crate::texts::{add, pnm_of};
use crate::written::{in_colour, in_tiles, tiled_samples};
use jk_jobs::{Gate, Open};
use jk_marks::Order;
use jk_math::{Fault, Image};
use jk_params::Parameters;
use std::alloc::Global;
use std::marker::Sync;
use std::process::Abort;
use std::thread::Threads;
use vectors::Meeting;

/// A gate at which the first code-block meets the second.
#[derive(Drop)]
struct Held {
    meeting: Meeting,
}

impl Gate for Held {
    fn began(&self, job: usize) {
        self.meeting.began(job);
    }

    fn ended(&self, job: usize) {
        self.meeting.ended(job);
    }
}

/// The PPM file of 3 by 5 samples of one colour.
pub(crate) fn two_blocks(rt: &impl Abort, alloc: Global) -> Vec<u8> {
    let mut samples = Vec::new(alloc);
    for _ in 0..15 {
        add(rt, &mut samples, &[200, 100, 50]);
    }
    pnm_of(rt, alloc, "P6\n3 5\n255\n", &samples)
}

/// Its image, in two code-blocks where these are of 4 by 4.
fn in_two_blocks(rt: &impl Abort, alloc: Global) -> Image {
    calls::read(rt, alloc, &two_blocks(rt, alloc))
}

/// One worker, two and five write what one thread writes.
fn alike<R: Threads + Sync + Abort>(rt: &R, alloc: Global, image: &Image, parameters: &Parameters) {
    let due = encode(rt, alloc, image, parameters);
    for workers in [1, 2, 5] {
        let file = encode_with(rt, alloc, workers, &Open, image, parameters).expect(
            rt,
            "an answer",
        );
        equal_at(rt, workers, file.as_slice(), due.as_slice());
    }
}

#[test]
fn colour_by_workers(rt: HostRuntime) {
    let alloc = rt.alloc();
    alike(&rt, alloc, &in_two_blocks(&rt, alloc), &in_colour(alloc, 2));
}

#[test]
fn tiles_by_workers(rt: HostRuntime) {
    let alloc = rt.alloc();
    let pnm = pnm_of(&rt, alloc, "P5\n17 13\n255\n", &tiled_samples(&rt, alloc));
    let image = calls::read(&rt, alloc, &pnm)
        .place(3, 5)
        .expect(&rt, "an answer");
    alike(&rt, alloc, &image, &in_tiles(&rt, alloc, Order::Rpcl));
}

/// No worker, and one more than 64.
#[test]
fn workers_out_of_range(rt: HostRuntime) {
    let alloc = rt.alloc();
    let image = in_two_blocks(&rt, alloc);
    for workers in [0, 65] {
        let found = encode_with(&rt, alloc, workers, &Open, &image, &in_colour(alloc, 2)).err();
        equal_at(&rt, workers, found, Some(Fault::BadParameters));
    }
}

/// The code-blocks of three components are three jobs, each told once when it begins and once when it
/// has ended, and the first one is coded only because the second has begun; the bytes are those of one
/// thread.
#[test]
fn two_code_at_a_time(rt: HostRuntime) {
    let alloc = rt.alloc();
    let image = in_two_blocks(&rt, alloc);
    let asked = in_colour(alloc, 2);
    let due = encode(&rt, alloc, &image, &asked);
    for workers in [2, 3] {
        let held = Held {
            meeting: Meeting::new(alloc, 3).expect(&rt, "an answer"),
        };
        let file = encode_with(&rt, alloc, workers, &held, &image, &asked).expect(&rt, "an answer");
        equal_at(&rt, workers, file.as_slice(), due.as_slice());
        equal_at(&rt, workers, held.meeting.was_met(1), true);
    }
}
