//! Files that an archive doesn't list.

use jk_math::Fault;

/// A file that isn't listed, and why.
#[derive(Drop)]
pub struct Skipped {
    pub name: String,
    pub fault: Fault,
}
