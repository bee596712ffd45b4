//! Jobs on worker threads, with the answer of one thread.
#![tactic(auto)]

mod dealing;
mod gate;
mod work;

pub use dealing::{map_jobs, map_jobs_beside};
pub use gate::{Gate, Open};
pub use work::Work;
