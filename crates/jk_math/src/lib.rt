//! Rectangles, division, images, faults and texts that are written: what every crate of jk speaks
//! of.
#![tactic(auto)]

mod division;
mod fault;
mod image;
mod orientation;
mod planes;
mod rect;
mod style;
mod writing;

pub use division::{ceil_div, floor_div, reflect};
pub use fault::{Fault, Refused};
pub use image::{Image, sample_range};
pub use orientation::Orientation;
pub use planes::Planes;
pub use rect::Rect;
pub use style::Style;
pub use writing::write_out;
