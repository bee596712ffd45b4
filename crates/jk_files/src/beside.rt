//! Files `.jk-tmp-N`, which are written beside the paths that they are to take.
//!
//! Such a file stands in the folder of its path, under the first of the names `.jk-tmp-0`,
//! `.jk-tmp-1`, .. that nothing has. Its process holds an exclusive `flock` on it until it has its
//! path or is removed. The system drops this lock when the process ends, however it ends. So a file
//! of such a name without a lock was left by a process that was interrupted, and whoever writes in
//! the folder next removes it. Each program that writes such files keeps these rules:
//!
//! 1. It makes the file with `O_CREAT | O_EXCL`, and locks it with `flock(LOCK_EX | LOCK_NB)`.
//! 2. If another process has the lock, or the path no longer leads to the open file (device and
//!    inode are compared), another process has taken it for a left one: the next number is tried. If
//!    the system can't lock the file, it is used without a lock.
//! 3. It closes the file only after it was renamed or removed.
//! 4. It removes a file of another process only if that is a regular file, and while it has the
//!    lock of the file to which the path leads. If the lock can't be taken, for any reason, the file
//!    stays.

use crate::locking::{Lockable, open_to_hold};
use crate::place::place;
use crate::refusal::Refusal;
use crate::sameness::is_same_file;
use jk_math::Refused;
use std::alloc::Global;
use std::fs::{self, OpenFile, OpenOptions};
use std::io::{self, ErrorKind};
use std::os::unix::fs::OpenOptionsExt;
use std::rt::Files;

/// How many names are tried.
const NAMES: u32 = 1000;

/// How many names in a row that nothing has end the search for left files.
const GAP: u32 = 3;

/// Who may open a file before it has the permissions of the one that it is to replace: its owner.
const OWNER_ALONE: u32 = 0o600;

/// Who may open a new file, as far as the process's umask allows.
const EVERYBODY: u32 = 0o666;

/// Who may open a file when it is made.
#[derive(Clone, Copy)]
pub(crate) enum OpenTo {
    /// Its owner alone.
    Owner,
    /// Everybody whom the process's umask allows.
    Everybody,
}

/// A file that is written beside a path, and its own path.
#[derive(Drop)]
pub(crate) struct First<F> {
    pub(crate) file: F,
    pub(crate) path: String,
}

/// The name of a file with a number.
fn first_name(alloc: Global, number: u32) -> Result<String, Refused> {
    Ok(format!(in alloc; ".jk-tmp-{number}")?)
}

/// The path of a file with a number.
fn first_path(alloc: Global, folder: &str, number: u32) -> Result<String, Refusal> {
    let name = first_name(alloc, number)?;
    place(alloc, folder, name.as_str())
}

/// Whether a path leads to an open file, and not to another one that has the path by now.
fn leads_to<R: Files>(rt: &R, path: &str, file: &R::File) -> io::Result<bool> {
    let opened = file.metadata()?;
    let named = rt.symlink_metadata(path)?;
    Ok(is_same_file(&opened, &named))
}

/// Removes a regular file if no process has its lock.
fn remove_unlocked<R: Files>(rt: &R, path: &str) -> io::Result<()>
where
    R::File: Lockable,
{
    let file = open_to_hold(rt, path)?;
    if file.try_exclusive()? && leads_to(rt, path, &file)? {
        fs::remove_file(rt, path)?;
    }
    Ok(())
}

/// Removes what stands under a path if it was left. Whether something stood there.
fn sweep<R: Files>(rt: &R, path: &str) -> bool
where
    R::File: Lockable,
{
    let Ok(metadata) = rt.symlink_metadata(path) else {
        return false;
    };
    if metadata.is_file() {
        // A file that can't be removed stays, and its number is passed over.
        let _ = remove_unlocked(rt, path);
    }
    true
}

/// Removes the files that were left in a folder, up to a gap in their numbers.
fn sweep_folder<R: Files>(rt: &R, alloc: Global, folder: &str) -> Result<(), Refusal>
where
    R::File: Lockable,
{
    let mut gap = 0;
    for number in 0..NAMES {
        if GAP <= gap {
            return Ok(());
        }
        let path = first_path(alloc, folder, number)?;
        gap = if sweep(rt, path.as_str()) { 0 } else { gap + 1 };
    }
    Ok(())
}

/// Makes a file under a path that nothing has.
fn make<R: Files>(rt: &R, path: &str, open_to: OpenTo) -> io::Result<R::File> {
    let mut options = OpenOptions::new();
    options.read(true).write(true).create_new(true);
    options.mode(match open_to {
        OpenTo::Owner => OWNER_ALONE,
        OpenTo::Everybody => EVERYBODY,
    });
    rt.open_file(&options, path)
}

/// Locks a file that was just made. Whether it is still the file at its path.
fn hold<R: Files>(rt: &R, path: &str, file: &R::File) -> io::Result<bool>
where
    R::File: Lockable,
{
    if let Ok(false) = file.try_exclusive() {
        return Ok(false);
    }
    match leads_to(rt, path, file) {
        Err(said) if said.kind() == ErrorKind::NotFound => Ok(false),
        answer => answer,
    }
}

/// Makes and locks a file. None: the path is another's.
fn make_held<R: Files>(rt: &R, path: &str, open_to: OpenTo) -> io::Result<Option<R::File>>
where
    R::File: Lockable,
{
    let file = match make(rt, path, open_to) {
        Ok(file) => file,
        Err(said) if said.kind() == ErrorKind::AlreadyExists => return Ok(None),
        Err(said) => return Err(said),
    };
    match hold(rt, path, &file) {
        Ok(true) => Ok(Some(file)),
        Ok(false) => Ok(None),
        Err(said) => {
            let _ = fs::remove_file(rt, path);
            Err(said)
        }
    }
}

/// Makes a file in a folder under a name that nothing has, and locks it. Left files are removed
/// first.
///
/// System: it can't be made, or a thousand such names are taken.
pub(crate) fn create_first<R: Files>(
    rt: &R,
    alloc: Global,
    folder: &str,
    open_to: OpenTo,
) -> Result<First<R::File>, Refusal>
where
    R::File: Lockable,
{
    sweep_folder(rt, alloc, folder)?;
    for number in 0..NAMES {
        let path = first_path(alloc, folder, number)?;
        if let Some(file) = make_held(rt, path.as_str(), open_to)? {
            return Ok(First { file, path });
        }
    }
    Err(Refusal::System(io::Error::new(
        ErrorKind::AlreadyExists,
        "too many files .jk-tmp-N beside it",
    )))
}
