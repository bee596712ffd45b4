//! Tiles, resolutions, sub-bands, precincts and code-blocks on the reference grid (T.800 Annex B).
#![tactic(auto)]

mod bands;
mod count;
mod grid;
mod precincts;
mod rectangles;
mod rounding;
mod shape;
mod theorems;
mod tiling;

pub use bands::{band, resolution};
pub use count::packet_count;
pub use grid::{BlockGrid, blocks};
pub use precincts::{precinct, precinct_count, precinct_part_size, precinct_size};
pub use rectangles::{is_empty, meet, reduced, reduced_image, touches};
pub use rounding::shift_up;
pub use shape::{Codings, PacketName, TileShape, tile_shape};
pub use theorems::{
    blocks_share_a_band, precincts_are_counted, resolutions_are_woven, tiles_share_the_image,
};
pub use tiling::{tile, tile_count};
