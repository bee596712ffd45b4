//! Files and folders of the system: read to their end, written so that nothing is lost, listed,
//! locked.
#![tactic(auto)]

mod beside;
mod incoming;
mod listing;
mod locking;
mod opening;
mod output;
mod owning;
mod place;
mod reading;
mod refusal;
mod replacing;
mod sameness;
mod stamping;
mod storing;
mod writing;

pub use incoming::{Incoming, Intake};
pub use listing::{Listing, Other, list, names};
pub use locking::{
    Lock, Lockable, SharedLock, try_exclusive, try_shared, wait_exclusive, wait_shared,
};
pub use output::{
    Output, abandon_output, create_beside_output, create_output, finish_output, replace_file,
};
pub use owning::{Ownable, Owner};
pub use place::is_file_name;
pub use reading::{read_all, read_file, read_inside, read_inside_at, read_path};
pub use refusal::Refusal;
pub use replacing::Rules;
pub use sameness::are_same;
pub use stamping::{Stamp, stamp_of};
pub use writing::{rename, rename_new, write_new};
