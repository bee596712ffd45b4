//! Images that are listed by their names, and whose files and windows can be had: what a server asks
//! of an archive.
#![tactic(auto)]

mod catalogue;

pub use catalogue::Catalogue;
pub use jk_window::View;
