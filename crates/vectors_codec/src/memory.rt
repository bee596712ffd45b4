//! How much memory calls take, by what the system tells of the process.

use crate::asserts::{equal, equal_at};
use crate::calls::{encode, plain, read, read_refusal};
use jk_math::Fault;
use std::alloc::Global;
use std::process::Abort;
use std::rt::Files;
use vectors::kilobytes;

/// How many kilobytes the process has or has had, by the word that the system tells it by.
fn taken<R: Files + Abort>(rt: &R, alloc: Global, word: &str) -> u64 {
    kilobytes(rt, alloc, word).expect(rt, "kilobytes")
}

/// How many kilobytes more than at first the process has had.
fn more_than<R: Files + Abort>(rt: &R, alloc: Global, first: u64) -> u64 {
    taken(rt, alloc, "VmPeak:").saturating_sub(first)
}

/// A PNM file that claims 2^28 pixels, and has none.
#[test]
fn of_a_claim(rt: HostRuntime) {
    let first = taken(&rt, rt.alloc(), "VmSize:");
    let answer = read_refusal(rt.alloc(), b"P5\n16384 16384\n255\n");
    equal(&rt, answer, Some(Fault::BadPnm));
    let more = more_than(&rt, rt.alloc(), first);
    equal_at(&rt, more, more <= 1024, true);
}

/// A page of 512 by 512 samples of noise: the high bytes of numbers, each of which is 1,664,525
/// times the one before it and 1,013,904,223, by 32 bits; the first comes so from 1.
fn noise(rt: &impl Abort, alloc: Global) -> Vec<u8> {
    let mut page = Vec::from_slice(alloc, b"P5\n512 512\n255\n").expect(rt, "an answer");
    let mut number = 1u32;
    for _ in 0..1 << 18 {
        number = number.wrapping_mul(1_664_525).wrapping_add(1_013_904_223);
        page.push((number >> 24) as u8).expect(rt, "an answer");
    }
    page
}

/// It is encoded with 6 MB at most, its image and its file among them.
#[test]
fn of_noise(rt: HostRuntime) {
    let alloc = rt.alloc();
    let page = noise(&rt, alloc);
    let first = taken(&rt, rt.alloc(), "VmSize:");
    let image = read(&rt, alloc, &page);
    let file = encode(&rt, alloc, &image, &plain(alloc, 5));
    equal(&rt, file.len() > 1 << 18, true);
    let more = more_than(&rt, rt.alloc(), first);
    equal_at(&rt, more, more <= 6144, true);
}
