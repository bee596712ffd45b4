//! The packets of a tile in its tile-parts (T.800 B.9 to B.12).
#![tactic(auto)]

mod entries;
mod parts;
mod places;
mod precincts;
mod read;
mod shape;
mod spans;
mod theorems;
mod walk;

pub use entries::{PacketEntry, TileEntries};
pub use places::{PacketPlace, TilePackets};
pub use read::{read_entries, read_packets, shape_of};
pub use shape::precinct_shape;
pub use spans::PacketSpan;
pub use theorems::{entries_give_spans, packets_are_read, sop_is_its_counter};
