//! The marker segments of a codestream.
#![tactic(auto)]

mod block_style;
mod coding;
mod coding_segments;
mod copying;
mod cursor;
mod head;
mod main_header;
pub mod marker;
mod part_head;
mod quantisation_segments;
mod segments;
mod siz;
mod siz_segment;
mod spelling;
mod tile_part;
mod write;

pub use block_style::{style_byte, style_of};
pub use coding::Coding;
pub use copying::{copy_main, segment_size};
pub use cursor::Cursor;
pub use head::{Heading, TileHead};
pub use main_header::{Main, read_main};
pub use part_head::{PartHead, copy_part_segments, put_part_head};
pub use segments::{Cod, CodingStyle, Exponents, Order, Precincts, Quantisation};
pub use siz::Siz;
pub use spelling::one_tree;
pub use tile_part::{TilePart, read_tile_part};
pub use write::{write_end, write_main, write_part_head, write_tile_part};
