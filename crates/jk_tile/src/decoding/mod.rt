//! A tile from its packets. A `tile` goes component by component, and a `component` resolution by
//! resolution (`reading`): `chains` tell the packets of each precinct, `bodies` what these have of
//! each code-block, a `block` gives coefficients, and `filling` puts them at their places in the
//! sub-bands. The wavelet makes values of the sub-bands, `colour` and the level shift make samples
//! of these.

mod ahead;
mod block;
mod bodies;
mod chains;
mod coded;
mod colour;
mod component;
mod decoded;
mod filling;
mod jobs;
mod judging;
mod reading;
mod strips;
mod tile;

pub use ahead::add_row_blocks;
pub use chains::{PacketChains, packets_by_precinct};
pub use coded::CodedTile;
pub use colour::uncolour;
pub use component::CodedComponent;
pub use decoded::{BlockSegment, DecodedBlocks, decode_segments, decode_segments_beside};
pub use filling::put;
pub use jobs::add_tile_blocks;
pub use judging::judge_tile;
pub use strips::{BlockRow, block_exponent, read_strip, strip_area};
pub use tile::{decode_part_of, decode_tile, decode_tile_of};
