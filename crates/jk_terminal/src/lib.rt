//! What is told on a terminal: how far work on an image is, by a thread beside it, with the output
//! that it writes; and how far the opening of an archive is, by its shelf.
#![tactic(auto)]

mod line;
mod opening;
mod output;
mod telling;

pub use opening::Watched;
pub use output::{Late, OutputPath};
pub use telling::{Counted, Teller, Telling};
