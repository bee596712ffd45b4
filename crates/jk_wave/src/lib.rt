//! The wavelet transform of a tile-component: from samples to sub-bands and back, over every
//! rectangle and up to ten levels (T.800 Annex F).
#![tactic(auto)]

mod backward;
mod bands;
mod climbing;
mod columns;
mod cropping;
mod falling;
mod forward;
mod level;
mod parts;
mod places;
mod region;
mod source;
mod sweep;
pub mod theorems;

pub use backward::{synthesise, synthesise_part};
pub use bands::{BandParts, Bands};
pub use climbing::{
    ClimbingLevel, GivenRows, HighRows, rows_asked, rows_reached, rows_taken, synthesise_by_rows,
};
pub use falling::{Falling, FallingLevel, analyse_by_rows, rows_fallen};
pub use forward::{analyse, analyse_source};
pub use level::{begin_level, finish_level};
pub use places::{BandRows, band_rows};
pub use region::{Region, part_area};
pub use source::RowSource;
