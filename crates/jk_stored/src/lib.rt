//! The window of a stored file of which only what the window needs is read.
#![tactic(auto)]

mod behind;
mod codestream;
mod content;
mod entries;
mod hand;
mod making;
mod memory;
mod needed;
mod outline;
mod place;
mod precincts;
mod share;
mod stored;
mod theorems;
mod viewing;
mod writing;

pub use memory::MemoryStored;
pub use stored::Stored;
pub use theorems::headers_are_read_forward;
pub use viewing::decode_stored_window;
pub use writing::decode_stored_window_into;
