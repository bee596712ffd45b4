//! What stands beside the samples of a file, on a command line: resolutions and UUIDs in words, the
//! lines that list what a file keeps, and where what is taken out of it stands.
#![tactic(auto)]

mod inches;
mod lines;
mod listing;
mod taking;
mod words;

pub use inches::inch_lines;
pub use jk_extras::{Colour, Extras, Grid, Other, judge as judge_extras};
pub use listing::extras_lines;
pub use taking::{Item, item_in, profile_in};
pub use words::{named_uuid, resolution_named};
