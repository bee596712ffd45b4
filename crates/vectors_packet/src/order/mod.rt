//! Tiles whose packets, in each order, and code-blocks are known from outside.

mod limits;
mod nine_tiles;
mod numbers;
mod random;
mod random_tiles;
mod sums;
