//! Files anywhere, written at once or in parts, and replaced as a whole.

use crate::beside::{First, OpenTo, create_first};
use crate::locking::Lockable;
use crate::owning::Ownable;
use crate::place::folder_path;
use crate::refusal::Refusal;
use crate::replacing::{
    Old, Rules, Target, check_writable, is_forbidden, is_there, split, target_of,
};
use crate::storing::{open_folder, store, store_folder};
use crate::writing::give_new_path;
use jk_math::Refused;
use std::alloc::Global;
use std::fs::{self, File};
use std::io::{self, ErrorKind, Write};
use std::rt::Files;

/// Where a file is written first, and the path that it is to have.
#[derive(Drop)]
struct Beside {
    first: String,
    path: String,
    folder: String,
    /// Whether it is to have the path only if nothing has it then.
    is_new: bool,
}

/// A file that is written in parts. One beside a path is locked until it has the path or is
/// removed.
#[derive(Drop)]
pub struct Output<F> {
    file: F,
    beside: Option<Beside>,
}

impl<F: Write> Write for Output<F> {
    ghost contents = { λ output. F.contents output.file };

    fn write(&mut self, bytes: &[u8]) -> io::Result<usize> {
        self.file.write(bytes)
    }

    fn flush(&mut self) -> io::Result<()> {
        self.file.flush()
    }
}

/// A path of its own.
fn path_of(alloc: Global, path: &str) -> Result<String, Refused> {
    Ok(String::from_str(alloc, path)?)
}

/// A new file beside a path, with the owner and the permissions of the one that it is to replace, if
/// there is one. Until it has those, its owner alone may open it.
fn create_beside<R: Files>(
    rt: &R,
    alloc: Global,
    path: &str,
    old: Option<Old>,
    is_new: bool,
) -> Result<Output<R::File>, Refusal>
where
    R::File: Lockable + Ownable,
{
    let (folder, _) = split(path);
    let (to, stored) = (path_of(alloc, path)?, folder_path(alloc, folder)?);
    let open_to = if old.is_some() {
        OpenTo::Owner
    } else {
        OpenTo::Everybody
    };
    let First { file, path: first } = create_first(rt, alloc, folder, open_to)?;
    if let Some(old) = old {
        if let Err(said) = old.give_to(&file) {
            let _ = fs::remove_file(rt, first.as_str());
            return Err(Refusal::System(said));
        }
    }
    let beside = Beside {
        first,
        path: to,
        folder: stored,
        is_new,
    };
    Ok(Output {
        file,
        beside: Some(beside),
    })
}

/// A file that is written as it is.
fn create_as_it_is<R: Files>(
    rt: &R,
    path: &str,
    rules: Rules<'_>,
) -> Result<Output<R::File>, Refusal> {
    let file = if rules.is_new {
        File::create_new(rt, path)?
    } else {
        File::create(rt, path)?
    };
    Ok(Output { file, beside: None })
}

/// A new file beside a path, if the folder allows one.
fn create_if_allowed<R: Files>(
    rt: &R,
    alloc: Global,
    path: &str,
    old: Option<Old>,
    is_new: bool,
) -> Result<Option<Output<R::File>>, Refusal>
where
    R::File: Lockable + Ownable,
{
    if old.is_some() {
        check_writable(rt, path)?;
    }
    match create_beside(rt, alloc, path, old, is_new) {
        Ok(output) => Ok(Some(output)),
        Err(Refusal::System(said)) if is_forbidden(&said) => Ok(None),
        Err(refusal) => Err(refusal),
    }
}

/// Opens a new file beside a path to be written in parts, where [`create_output`] opens one. None
/// where that writes what has the path as it is: then nothing is made, emptied or written.
///
/// System: it can't be opened, or the rules forbid it.
pub fn create_beside_output<R: Files>(
    rt: &R,
    alloc: Global,
    path: &str,
    rules: Rules<'_>,
) -> Result<Option<Output<R::File>>, Refusal>
where
    R::File: Lockable + Ownable,
{
    match target_of(rt, path, rules)? {
        Target::New => create_if_allowed(rt, alloc, path, None, rules.is_new),
        Target::File(old) => create_if_allowed(rt, alloc, path, Some(old), false),
        Target::Link(old) => {
            let file = rt.canonicalize(alloc, path)?;
            create_if_allowed(rt, alloc, file.as_str(), Some(old), false)
        }
        Target::AsItIs => Ok(None),
    }
}

/// Opens a file anywhere to be written in parts. Where a regular file has the path, or nothing, that
/// is a new file beside it, which takes its place at the end and has its permissions, and its owner
/// where the system allows that. Of a link to a regular file, that file is replaced, and the link
/// stays.
///
/// Where the folder doesn't allow a new file, or that it takes the other's place, and where
/// something else has the path, as a pipe or a device, or a link that leads nowhere or lies below
/// `/dev`, it is opened and written as it is.
///
/// System: it can't be opened, or the rules forbid it.
pub fn create_output<R: Files>(
    rt: &R,
    alloc: Global,
    path: &str,
    rules: Rules<'_>,
) -> Result<Output<R::File>, Refusal>
where
    R::File: Lockable + Ownable,
{
    match create_beside_output(rt, alloc, path, rules)? {
        Some(output) => Ok(output),
        None => create_as_it_is(rt, path, rules),
    }
}

/// Copies the bytes of a file into one that it can't replace, and stores that.
fn copy_stored<R: Files>(rt: &R, first: &str, path: &str) -> io::Result<()> {
    fs::copy(rt, first, path)?;
    store(&File::open(rt, path)?)
}

/// Gives a file its path. Where the folder doesn't allow that, the file that has the path gets its
/// bytes. The first path is let go of.
fn take_place<R: Files>(rt: &R, beside: &Beside) -> io::Result<()> {
    let (first, path) = (beside.first.as_str(), beside.path.as_str());
    let given = if beside.is_new {
        give_new_path(rt, first, path)
    } else {
        fs::rename(rt, first, path)
    };
    let answer = match given {
        Ok(()) => return Ok(()),
        Err(said) if said.kind() == ErrorKind::AlreadyExists => Err(is_there()),
        Err(said) if is_forbidden(&said) && !beside.is_new => copy_stored(rt, first, path),
        Err(said) => Err(said),
    };
    let _ = fs::remove_file(rt, first);
    answer
}

/// Stores a file that was written whole, gives it its path, and stores that.
fn finish_beside<R: Files>(rt: &R, file: &R::File, beside: &Beside) -> io::Result<()> {
    let ready = match store(file) {
        Ok(()) => open_folder(rt, beside.folder.as_str()),
        Err(said) => Err(said),
    };
    match ready {
        Ok(folder) => {
            take_place(rt, beside)?;
            store_folder(&folder)
        }
        Err(said) => {
            let _ = fs::remove_file(rt, beside.first.as_str());
            Err(said)
        }
    }
}

/// Ends a file that was written whole: the system has stored it, then it has its path, and then the
/// system has stored that. What can't be stored, as a pipe, isn't.
///
/// System: it can't be stored or have the path; then what had it stays, unless that was being
/// written itself, or it is the folder that can't be stored: then the file has its path.
pub fn finish_output<R: Files>(rt: &R, output: Output<R::File>) -> Result<(), Refusal> {
    let Output { file, beside } = output;
    // The file is closed, and its lock let go of, after it has its path.
    match beside {
        Some(beside) => finish_beside(rt, &file, &beside)?,
        None => store(&file)?,
    }
    Ok(())
}

/// Closes a file that isn't whole. Where it was written beside a path, it is removed, and what has
/// the path stays.
pub fn abandon_output<R: Files>(rt: &R, output: Output<R::File>) {
    let Output { file, beside } = output;
    if let Some(beside) = beside {
        let _ = fs::remove_file(rt, beside.first.as_str());
    }
    drop(file);
}

/// Writes a file anywhere, where [`create_output`] opens one, and as [`finish_output`] ends it: a
/// failure leaves what was there.
///
/// System: it can't be written, or the rules forbid it.
pub fn replace_file<R: Files>(
    rt: &R,
    alloc: Global,
    path: &str,
    rules: Rules<'_>,
    bytes: &[u8],
) -> Result<(), Refusal>
where
    R::File: Lockable + Ownable,
{
    let mut output = create_output(rt, alloc, path, rules)?;
    match output.write_all(bytes) {
        Ok(()) => finish_output(rt, output),
        Err(said) => {
            abandon_output(rt, output);
            Err(Refusal::System(said))
        }
    }
}
