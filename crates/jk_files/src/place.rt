//! Paths of a folder, and of a file inside it.

ghost use Rattle.std.specs.Prelude.{◌≡◌, OnOk};
ghost use Rattle.jk_files.specs.Names.{is_file_name, IsFileName};

use crate::refusal::Refusal;
use jk_math::Refused;
use std::alloc::Global;
use std::io::{self, ErrorKind};

/// Whether a file inside a folder may have this name: not empty, neither `.` nor `..`, and with no
/// slash.
pub fn is_file_name(name: &str) -> bool
    ensures { result ≡ is_file_name name.now }
{
    let bytes = name.as_bytes();
    !name.is_empty() && name != "." && name != ".." && !bytes.contains(&b'/')
}

/// A folder's path with a slash at its end, so that a link to a folder is followed. The empty path
/// is that of the folder where the program runs.
pub(crate) fn folder_path(alloc: Global, folder: &str) -> Result<String, Refused> {
    let mut path = String::from_str(alloc, folder)?;
    if path.is_empty() {
        path.push('.')?;
    }
    if !path.ends_with('/') {
        path.push('/')?;
    }
    Ok(path)
}

/// The path of a file inside a folder.
///
/// System: no file can have the name.
pub(crate) fn place(alloc: Global, folder: &str, name: &str) -> Result<String, Refusal>
    ensures { OnOk result (IsFileName name.now) }
{
    if !is_file_name(name) {
        return Err(Refusal::System(io::Error::new(
            ErrorKind::InvalidFilename,
            "not the name of a file",
        )));
    }
    Ok(joined(alloc, folder, name)?)
}

/// A folder's path, a slash, and a name.
fn joined(alloc: Global, folder: &str, name: &str) -> Result<String, Refused> {
    let mut path = folder_path(alloc, folder)?;
    path.push_str(name)?;
    Ok(path)
}
