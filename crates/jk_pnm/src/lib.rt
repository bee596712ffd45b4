//! PGM and PPM files in their binary forms, both ways.
#![tactic(auto)]

mod header;
mod heads;
mod judging;
mod pieces;
mod rasters;
mod reading;
mod rows;
mod theorems;
mod writing;

pub use heads::{RasterHead, read_head};
pub use judging::{NoHeader, no_header};
pub use pieces::{write_into, write_raster_into};
pub use rasters::{RasterFrame, raster, write_head_into, write_rasters_into};
pub use reading::{read, read_owned};
pub use rows::{RasterRows, raster_rows};
pub use theorems::{heads_are_read_forward, one_picture, rows_have_their_bytes};
pub use writing::write;
