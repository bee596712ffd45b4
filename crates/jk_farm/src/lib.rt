//! Code-blocks on worker threads, with the answer of one thread.
#![tactic(auto)]

mod blocks;
mod segments;

pub use blocks::map_blocks;
pub use jk_jobs::{Gate, Open, Work, map_jobs};
pub use segments::{Segment, map_segments};
