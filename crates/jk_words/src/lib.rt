//! The words of the command line of `jk`: which commands and options there are, what a line asks
//! for, and what is told about it: limits of options, faults, what of a file is left out, and how
//! far work is.
#![tactic(auto)]

mod asked;
mod commands;
mod defaults;
mod faults;
mod features;
mod formats;
mod front;
mod inputs;
mod keeping;
mod limits;
mod mistakes;
mod precincts;
mod profiles;
mod progress;
mod reading;

pub use asked::{
    Adding, AddingAll, Checking, Command, Cutting, Decoding, Dressing, Encoding, Kept, Line,
    Listing, Server, Telling, Unasked, WorkerCount, read_line,
};
pub use defaults::Defaults;
pub use faults::{FaultLine, cause_of, fault_lines};
pub use formats::{Written, other_extension};
pub use front::Front;
pub use inputs::not_pnm;
pub use limits::bad_option;
pub use profiles::{bad_profile, components_told};
pub use progress::{FilesProgress, Progress, Work};
pub use reading::{Seen, not_read};
