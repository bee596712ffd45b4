//! Code-blocks: what the bytes of a segment mean by the coding passes of T.800 Annex D, reading
//! them and writing them. Each direction is a wing, `decoding` and `encoding`; beside them stands
//! what both need.
#![tactic(auto)]

mod ages;
mod contexts;
mod decoding;
mod encoding;
mod promises;
mod theorems;
mod word_place;

pub use decoding::{Block, decode};
pub use encoding::{CodedBlock, code, top_bits};
pub use jk_scan::BlockShape;
pub use promises::{layers_have_bytes, layers_have_passes, written_is_read};
pub use theorems::{one_meaning, read_is_meant};
