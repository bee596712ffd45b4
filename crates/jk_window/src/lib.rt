//! Windows of a stored file, cut out without decoding: which packets a window needs, and the file
//! in which all others are empty.
#![tactic(auto)]

mod around;
mod cells;
mod contents;
mod cutting;
mod emptying;
mod intervals;
mod kept;
mod need;
mod numbered;
mod packed;
mod packing;
mod parts;
mod planning;
mod reading;
mod rows;
mod steps;
mod theorems;
mod tiles;
mod view;
mod window;

pub use cutting::cut;
pub use kept::Index;
pub use need::needs;
pub use planning::plan;
pub use reading::index;
pub use rows::{NeededPrecincts, needed_precincts};
pub use steps::{CutPlan, CutStep};
pub use theorems::{
    emptied_codestreams_are_codestreams, emptied_tiles_are_tiles, stretches_hold_what_is_near,
    what_can_be_read_has_an_index,
};
pub use view::View;
pub use window::area as window_area;
