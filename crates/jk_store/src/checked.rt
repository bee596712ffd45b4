//! What checking an archive finds.

use jk_math::Fault;

/// What was found of a file.
#[derive(Clone, Copy, Debug, PartialEq, Eq)]
pub enum Finding {
    /// It is the file of an image, and has this digest.
    Whole([u8; 32]),
    /// It has this digest, and this is its first fault, or memory was refused while it was judged.
    Broken([u8; 32], Fault),
    /// Its bytes couldn't be had: Shelf, or Memory.
    Unread(Fault),
}

/// The name of an image, and what was found of its file.
#[derive(Drop)]
pub struct Checked {
    pub name: String,
    pub finding: Finding,
}
