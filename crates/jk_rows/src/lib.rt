//! The samples of a tile row by row: its code-blocks are decoded a row of them at a time, and the
//! levels of the wavelet climb as their rows come (T.800 Annexes D to G), or it's made at once.
#![tactic(auto)]

mod ahead;
mod at_once;
mod choosing;
mod climbing;
mod component;
mod level;
mod lowest;
mod taking;
mod tile;

pub use tile::TileRows;
