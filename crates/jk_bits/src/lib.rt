//! Stuffed bits of packet headers (T.800 B.10.1), read and written.
#![tactic(auto)]

mod reader;
mod room;
mod writer;

pub use reader::BitReader;
pub use writer::BitWriter;
