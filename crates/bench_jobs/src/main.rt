//! Jobs that users of jk wait for, through its public calls, on images that a seed gives. What a
//! job gives is told as a digest.
//!
//! The words are a job, or `every`, a seed below 2^32, and `trial` where the job is to be small. The
//! word `orders` alone tells how long a packet takes in each order.
#![tactic(auto)]

mod archive;
mod awkward;
mod calls;
mod chance;
mod digest;
mod drawing;
mod noise;
mod orders;
mod others;
mod scale;
mod scan;
mod server;
mod slices;
mod viewer;

use crate::digest::Digest;
use crate::scale::Scale;
use jk_math::Fault;
use std::alloc::Global;
use std::env;
use std::process::ExitCode;
use std::thread::Threads;

/// The jobs, by their names.
static JOBS: [&str; 7] = [
    "scan", "slices", "viewer", "server", "archive", "awkward", "others",
];

/// What a job gives. `None`: there is none of that name.
fn done<R: Threads + Sync>(
    rt: &R,
    alloc: Global,
    job: &str,
    seed: u64,
    scale: Scale,
) -> Option<Result<Digest, Fault>> {
    match job {
        "scan" => Some(scan::scan(alloc, seed, scale)),
        "slices" => Some(slices::slices(alloc, seed, scale)),
        "viewer" => Some(viewer::viewer(alloc, seed, scale)),
        "server" => Some(server::server(alloc, seed, scale)),
        "archive" => Some(archive::archive(rt, alloc, seed, scale)),
        "awkward" => Some(awkward::awkward(alloc, seed, scale)),
        "others" => Some(others::others(alloc, seed, scale)),
        _ => None,
    }
}

/// Does a job, and tells what it gives. False where it can't.
fn tell<R: Threads + Print + Eprint + Sync>(
    rt: &R,
    alloc: Global,
    job: &str,
    seed: u64,
    scale: Scale,
) -> bool {
    match done(rt, alloc, job, seed, scale) {
        Some(Ok(digest)) => {
            let state = digest.state;
            println!(rt; "{job} {seed} {state:016x}").is_ok()
        }
        Some(Err(fault)) => {
            let _ = eprintln!(rt; "{job} {seed}: {fault}");
            false
        }
        None => false,
    }
}

/// The words of the command line, the first left out.
fn words(rt: &HostRuntime, alloc: Global) -> std::io::Result<Vec<String>> {
    let mut words = Vec::new(alloc);
    for word in env::args(rt)?.skip(1) {
        words.push(word)?;
    }
    Ok(words)
}

/// Does what the words ask for. False where that can't be done.
fn run<R: Threads + Print + Eprint + Sync>(rt: &R, alloc: Global, words: &[String]) -> bool {
    let (Some(job), Some(seed)) = (words.first(), words.get(1)) else {
        return false;
    };
    let Ok(seed) = seed.as_str().parse::<u32>() else {
        return false;
    };
    let scale = match words.get(2) {
        Some(_) => Scale::Trial,
        None => Scale::Whole,
    };
    if job.as_str() != "every" {
        return tell(rt, alloc, job.as_str(), seed as u64, scale);
    }
    for job in &JOBS {
        if !tell(rt, alloc, job, seed as u64, scale) {
            return false;
        }
    }
    true
}

/// How large a piece of memory is that `jk` takes and gives back at its start, so that the C library
/// keeps what is freed.
const KEPT: usize = 31 << 20;

fn main(rt: HostRuntime) -> ExitCode {
    let alloc = rt.alloc();
    let _ = Vec::<u8>::with_capacity(alloc, KEPT);
    match words(&rt, alloc) {
        Ok(words) => {
            if words.len() == 1 && words[0].as_str() == "orders" {
                return ExitCode::from(orders::tell(&rt).is_err() as u8);
            }
            if run(&rt, alloc, &words) {
                return ExitCode::SUCCESS;
            }
        }
        Err(_) => {}
    }
    let _ = rt.eprint(
        "bench_jobs JOB SEED [trial]; JOB: scan slices viewer server archive awkward others every\n",
    );
    ExitCode::FAILURE
}
