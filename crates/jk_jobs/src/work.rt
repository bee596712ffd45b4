//! Work that is done job by job.

ghost use Rattle.std.specs.Prelude.{Result};
ghost use Rattle.jk_math.specs.declared.fault.Fault.{Fault};

use jk_math::Fault;
use std::alloc::Global;
use std::marker::{Send, Sync};

/// Work of which each job is done by itself.
pub trait Work {
    /// What tells what is to be done.
    type Job: Sync;

    /// What is given.
    type Done: Send + Drop;

    /// What is asked of a job.
    ghost accepts: { Self.Job → Type 0 };

    /// What it gives.
    ghost gives: { Self.Job → Result Self.Done Fault → Type 0 };

    /// Does a job.
    fn done(alloc: Global, job: &Self::Job) -> Result<Self::Done, Fault>
        requires { accepts job.now }
        ensures { gives job.now result };
}
