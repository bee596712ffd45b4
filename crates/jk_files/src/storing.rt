//! Waiting until the system has stored what was written.

use std::fs::{File, OpenFile};
use std::io::{self, ErrorKind};
use std::rt::Files;

/// Waits until the system has stored an open file, or the names of an open folder. What can't be
/// stored is no failure: a pipe, a device, and the names of a folder on some file systems.
pub(crate) fn store<F: OpenFile>(file: &F) -> io::Result<()> {
    match file.sync_all() {
        Err(said)
            if matches!(
                said.kind(),
                ErrorKind::InvalidInput | ErrorKind::Unsupported | ErrorKind::ReadOnlyFilesystem
            ) => Ok(()),
        answer => answer,
    }
}

/// Opens a folder so that its names can be stored. None: it may be written, but not read.
pub(crate) fn open_folder<R: Files>(rt: &R, path: &str) -> io::Result<Option<R::File>> {
    match File::open(rt, path) {
        Ok(folder) => Ok(Some(folder)),
        Err(said) if said.kind() == ErrorKind::PermissionDenied => Ok(None),
        Err(said) => Err(said),
    }
}

/// Waits until the system has stored the names of an open folder.
pub(crate) fn store_folder<F: OpenFile>(folder: &Option<F>) -> io::Result<()> {
    match folder {
        Some(folder) => store(folder),
        None => Ok(()),
    }
}
