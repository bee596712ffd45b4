//! The reversible 5-3 wavelet transform (T.800 Annex F), forwards and backwards: of one line, and
//! of every column of a plane at once, a whole row at a time. Places are absolute coordinates: the
//! parity of a place says whether its coefficient is low-pass or high-pass. Nothing allocates.
//!
//! All calls ask that what they are given is below 2^29 in magnitude, so that no sum leaves `i32`.
#![tactic(auto)]

mod line;
mod row;
mod rows;
mod steps;
pub mod theorems;

pub use line::{analyse_line, synthesise_line};
pub use row::{even_sample_row, high_pass_row, low_pass_row, odd_sample_row};
pub use rows::{analyse_rows, synthesise_rows};
