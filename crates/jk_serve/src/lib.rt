//! What `jk serve` does around the answers: connections of a port are served, and the lines of an
//! operator followed, who adds images meanwhile.
#![tactic(auto)]

mod asked;
mod beginning;
mod desk;
mod distant_desk;
mod finder;
mod noticing;
mod opener;
mod operating;
mod operator_line;
mod owner;
mod paths;
mod post;
mod serving;
mod serving_opening;
mod table;
mod unlisted;
mod waiting;

pub use desk::{Desk, Keeper};
pub use finder::Finder;
pub use jk_files::Stamp;
pub use jk_port::{Arriving, HostGate, HostNames, Kept, Log, Pace, Port, Record, bind};
pub use jk_store::{added_text, refused_text};
pub use opener::Opening;
pub use operating::operate;
pub use operator_line::{Adding, adding_of};
pub use paths::Paths;
pub use serving::{Served, serve_port};
pub use serving_opening::{Ends, serve_meanwhile, serve_opening};
