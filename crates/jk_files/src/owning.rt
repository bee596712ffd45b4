//! Who owns a file.

use std::fs::{File, Metadata};
use std::io;
use std::os::unix::fs::{MetadataExt, fchown};

/// The user and the group that own a file.
#[derive(Clone, Copy, Debug, PartialEq, Eq)]
pub struct Owner {
    pub user: u32,
    pub group: u32,
}

/// An open file that can be given to another owner.
pub trait Ownable {
    /// Gives it to an owner, where the system allows that.
    fn give_to(&self, owner: Owner) -> io::Result<()>;
}

impl Ownable for File {
    fn give_to(&self, owner: Owner) -> io::Result<()> {
        fchown(self, Some(owner.user), Some(owner.group))
    }
}

/// The owner of a file.
pub(crate) fn owner_of(metadata: &Metadata) -> Owner {
    Owner {
        user: metadata.uid(),
        group: metadata.gid(),
    }
}
