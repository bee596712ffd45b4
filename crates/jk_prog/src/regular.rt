//! Regular files, which are asked for before they are opened.

use std::fs::{Metadata, OpenFile, OpenOptions};
use std::rt::Files;

/// An open regular file, and how many bytes it had then.
#[derive(Drop)]
pub(crate) struct Regular<F> {
    pub(crate) file: F,
    pub(crate) length: u64,
}

/// What the system tells of a regular file, links followed; none for `-`, and of all else.
fn told_of<R: Files>(rt: &R, name: &str) -> Option<Metadata> {
    if name == "-" {
        return None;
    }
    let told = rt.metadata(name).ok()?;
    if told.is_file() { Some(told) } else { None }
}

/// A number of bytes that the system tells: of some files with bytes it tells none.
pub(crate) fn known(length: u64) -> Option<u64> {
    if length == 0 { None } else { Some(length) }
}

/// How many bytes a regular file has, links followed; none for `-`, and where that isn't known.
pub(crate) fn length_of<R: Files>(rt: &R, name: &str) -> Option<u64> {
    known(told_of(rt, name)?.len())
}

/// Opens a regular file to read it, links followed; none for `-`, and where it isn't one or can't be
/// opened.
///
/// What stands under the name is asked before it is opened, since opening a pipe waits for its other
/// end.
pub(crate) fn open_regular<R: Files>(rt: &R, name: &str) -> Option<Regular<R::File>> {
    told_of(rt, name)?;
    let mut options = OpenOptions::new();
    options.read(true);
    let file = rt.open_file(&options, name).ok()?;
    let opened = file.metadata().ok()?;
    if !opened.is_file() {
        return None;
    }
    Some(Regular {
        file,
        length: opened.len(),
    })
}
