//! Files that are read by places.

use crate::regular::{Regular, open_regular};
use jk_math::Fault;
use jk_stored::Stored;
use std::os::unix::fs::FileExt;
use std::rt::Files;

/// An open regular file, which is read by places. Another may write it meanwhile, so it isn't known
/// to keep its bytes.
#[derive(Drop)]
pub(crate) struct OnDisk<F> {
    file: F,
}

impl<F: FileExt> Stored for OnDisk<F> {
    ghost keeps = { λ _ _. ⊥ };

    fn read_at(&self, start: usize, room: &mut [u8]) -> Result<usize, Fault> {
        match self.file.read_at(room, start as u64) {
            Ok(count) => Ok(count),
            Err(_) => Err(Fault::Shelf),
        }
    }
}

/// Opens a regular file, links followed, and answers how many bytes it has; none for `-`, and where it
/// isn't one or can't be opened.
pub(crate) fn open_stored<R: Files>(rt: &R, name: &str) -> Option<(OnDisk<R::File>, usize)> {
    let Regular { file, length } = open_regular(rt, name)?;
    Some((OnDisk { file }, length as usize))
}
