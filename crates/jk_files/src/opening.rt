//! Files that are opened only where they are regular files.

use std::fs::{Metadata, OpenFile, OpenOptions};
use std::io::{self, ErrorKind};
use std::rt::Files;

/// An open regular file, and how long it was then.
#[derive(Drop)]
pub(crate) struct Opened<F> {
    pub(crate) file: F,
    pub(crate) length: u64,
}

/// Refuses what isn't a regular file.
fn check_regular(metadata: &Metadata) -> io::Result<()> {
    if metadata.is_file() {
        Ok(())
    } else if metadata.is_dir() {
        Err(io::Error::from(ErrorKind::IsADirectory))
    } else {
        Err(io::Error::new(ErrorKind::InvalidInput, "not a regular file"))
    }
}

/// Opens a regular file, links followed.
///
/// What stands under the name is asked before it is opened, since opening a pipe waits for its
/// other end, and asked again of what was opened. A regular file that becomes a pipe between the
/// two is waited for all the same.
pub(crate) fn open_regular<R: Files>(
    rt: &R,
    options: &OpenOptions,
    path: &str,
) -> io::Result<Opened<R::File>> {
    check_regular(&rt.metadata(path)?)?;
    let file = rt.open_file(options, path)?;
    let metadata = file.metadata()?;
    check_regular(&metadata)?;
    Ok(Opened {
        file,
        length: metadata.len(),
    })
}

/// Opens a regular file to read it.
pub(crate) fn open_to_read<R: Files>(rt: &R, path: &str) -> io::Result<Opened<R::File>> {
    let mut options = OpenOptions::new();
    options.read(true);
    open_regular(rt, &options, path)
}
