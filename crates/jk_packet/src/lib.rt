//! Packet headers (T.800 B.9, B.10.3 to B.10.8, and A.8), read, and packets, written.
#![tactic(auto)]

mod band;
mod block;
mod facts;
mod header;
mod markers;
mod precinct;
mod shape;
mod table;
mod wording;
mod words;
mod writer;
mod writing;

pub use facts::{headers_have_a_byte, parts_are_contributions, tables_are_told};
pub use header::{BlockContribution, Header, Parts};
pub use precinct::Precinct;
pub use shape::{BandShape, PrecinctShape};
pub use table::{BlockTable, LayerPart};
pub use writer::PrecinctWriter;
