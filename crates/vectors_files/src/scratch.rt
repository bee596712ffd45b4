//! Folders of the system, for a test.

use std::alloc::Global;
use std::fs::{self, File};
use std::io;
use std::process::Abort;
use std::rt::Files;

/// A new folder where the test runs, whose process has this number.
pub(crate) fn folder<R: Files + Abort>(rt: &R, alloc: Global, number: u32, test: &str) -> String {
    let path = format!(in alloc; "scratch_{test}_{number}").expect(rt, "a path");
    fs::create_dir(rt, path.as_str()).expect(rt, "a folder");
    path
}

/// The path of a file in a folder.
pub(crate) fn within(rt: &impl Abort, alloc: Global, folder: &str, name: &str) -> String {
    format!(in alloc; "{folder}/{name}").expect(rt, "a path")
}

/// Writes a file.
pub(crate) fn write<R: Files + Abort>(rt: &R, path: &str, bytes: &[u8]) {
    fs::write(rt, path, bytes).expect(rt, path);
}

/// Whether a file has this text.
pub(crate) fn has_text<R: Files + Abort>(rt: &R, alloc: Global, path: &str, text: &str) -> bool {
    let file = File::open(rt, path).expect(rt, path);
    io::read_to_string(alloc, file).expect(rt, path).as_str() == text
}

/// Makes a link.
pub(crate) fn link<R: Files + Abort>(rt: &R, to: &str, path: &str) {
    rt.symlink(to, path).expect(rt, path);
}

/// Whether a path is a link's.
pub(crate) fn is_link<R: Files + Abort>(rt: &R, path: &str) -> bool {
    rt.symlink_metadata(path).expect(rt, path).is_symlink()
}

/// Removes a folder and all in it.
pub(crate) fn remove<R: Files + Abort>(rt: &R, alloc: Global, path: &str) {
    rt.remove_dir_all(alloc, path).expect(rt, path);
}
