//! SHA-256 (FIPS 180-4) of messages that are held whole. The schedules of four blocks of a message
//! are made at once, in vectors of four numbers, and of four messages the rounds too.
#![tactic(auto)]

mod blocks;
mod lanes;
mod message;
mod rounds;
mod schedule;

pub use message::{sha256, sha256_of_four};
