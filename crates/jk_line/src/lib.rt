//! The command line of `jk`, over a world of files and streams that its caller gives.
#![tactic(auto)]

mod adding;
mod adding_all;
mod archive;
mod beside;
mod checking;
mod destination;
mod encoding;
mod failure;
mod informing;
mod json;
mod keeping;
mod running;
mod scans;
mod serving;
mod status;
mod streams;
mod unjudged;
mod viewing;
mod workers;
mod world;

pub use archive::{listening, opening, served};
pub use destination::Destination;
pub use jk_words::{FaultLine, FilesProgress, Front, Progress, Work};
pub use running::run;
pub use serving::{Meanwhile, Serving};
pub use status::Status;
pub use unjudged::Unjudged;
pub use world::{Folders, Streams, Working, World};
