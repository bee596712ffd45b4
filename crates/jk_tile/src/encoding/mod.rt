//! A tile into its packets. `values` of its samples, with the level shift and the colour transform,
//! come one row after another. The rows of a `component` are `falling` through the levels of the
//! wavelet, its code-blocks are coded in `strips`, a row of them at a time (`row_coding`, `cutting`)
//! or `ahead` by workers, cut into layers by `tables`. A component that is `fallen` waits for the
//! exponents (`needs`); then what is written of it is made `late`, in `lists` of its precincts. A
//! `falling_tile` and a `fallen_tile` have all components of a tile. Where a tile is coded twice,
//! `measuring` finds first what its sub-bands need. `packets` are made of the tables in their order,
//! and passed on to `sinks`.

mod ahead;
mod component;
mod cutting;
mod fallen;
mod fallen_tile;
mod falling;
mod falling_tile;
mod late;
mod lists;
mod measuring;
mod needs;
mod packets;
mod row_coding;
mod sinks;
mod strips;
mod tables;
mod tile;
mod values;
mod written;

pub use ahead::{CodedBlocks, UncodedBlocks, code_blocks, code_blocks_beside};
pub use component::WrittenComponent;
pub use fallen::FallenComponent;
pub use fallen_tile::FallenTile;
pub use falling::FallingComponent;
pub use falling_tile::{FallingTile, GivenRows};
pub use measuring::raise_needs;
pub use needs::exponents_with;
pub use sinks::{TextSink, TextWriter};
pub use strips::When;
pub use tile::{packets_of, packets_size, pass_tile};
pub use values::put_values;
pub use written::TileOutline;
