//! What a JP2 file keeps beside the samples of its image (T.800 Annex I), read and given: its
//! colour, its resolution, and boxes of XML or under a UUID.
#![tactic(auto)]

mod dressing;
mod finding;
mod grids;
mod header;
mod inches;
mod judging;
mod profiles;
mod putting;
mod reading;
mod telling;
mod theorems;
mod told;
mod values;

pub use dressing::with_extras;
pub use finding::{Found, Kind, ToldOther, UUID, Wanted, XML, find, find_header, other_after};
pub use grids::{Grid, Ratio};
pub use inches::per_inch;
pub use judging::judge;
pub use reading::read_extras;
pub use telling::extras_text;
pub use theorems::{
    a_cut_keeps_extras, a_text_is_read, is_told_again, others_are_read, what_is_written_is_read,
};
pub use told::{Told, ToldColour, extras_at};
pub use values::{Colour, Extras, Other};
