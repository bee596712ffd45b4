//! Whether two files are one.

use std::fs::Metadata;
use std::os::unix::fs::MetadataExt;
use std::rt::Files;

/// Whether the system tells the same device and the same inode of both.
pub(crate) fn is_same_file(one: &Metadata, other: &Metadata) -> bool {
    one.dev() == other.dev() && one.ino() == other.ino()
}

/// Whether two paths lead to one regular file, links followed. Where the system has no number for a
/// file, that isn't known, and the answer is no.
pub fn are_same<R: Files>(rt: &R, one: &str, other: &str) -> bool {
    match (rt.metadata(one), rt.metadata(other)) {
        (Ok(one), Ok(other)) => one.is_file() && one.ino() != 0 && is_same_file(&one, &other),
        _ => false,
    }
}
