//! Tag trees of packet headers (T.800 B.10.2), read and written.
#![tactic(auto)]

mod closed;
mod levels;
mod node;
mod read;
mod write;

pub use read::ReadTree;
pub use write::WriteTree;
