//! The options of an encoding, and the parameters and the place of the image that they ask for.
#![tactic(auto)]

mod options;
mod orders;
mod plan;
mod sizes;

pub use options::EncodeOptions;
pub use orders::{order_name, order_named};
pub use plan::{Placed, PlacedFrame, Plan, judge};
