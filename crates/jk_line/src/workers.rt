//! How many workers there are to be.

use crate::failure::{Failure, with_words};
use crate::world::Working;
use jk_commands::check_workers;
use jk_words::WorkerCount;
use std::alloc::Global;

/// How many workers there are at most.
const MOST: usize = 64;

/// How many workers are asked for, with words where there may not be so many.
pub(crate) fn workers<W: Working>(
    alloc: Global,
    world: &W,
    asked: WorkerCount,
) -> Result<usize, Failure> {
    let WorkerCount::Given(count) = asked else {
        return Ok(world.processors().clamp(1, MOST));
    };
    match check_workers(count) {
        Ok(workers) => Ok(workers),
        Err(fault) => Err(with_words(
            fault,
            format!(in alloc; "--workers is {count}, and may be 1 to {MOST}, or auto"),
        )),
    }
}
