//! Files of a folder, made anew and given other names.

ghost use Rattle.std.specs.Prelude.{OnOk};
ghost use Rattle.std.specs.Io.KnownBytes.{Appends};
ghost use Rattle.jk_files.specs.Names.{IsFileName};

use crate::place::{folder_path, place};
use crate::refusal::Refusal;
use crate::storing::{open_folder, store, store_folder};
use std::alloc::Global;
use std::fs::{self, File, OpenFile};
use std::io::{self, ErrorKind, Write};
use std::rt::Files;

/// Makes a file anew. A file or a link of that name is removed first.
fn create_anew<R: Files>(rt: &R, path: &str) -> io::Result<R::File> {
    match File::create_new(rt, path) {
        Err(said) if said.kind() == ErrorKind::AlreadyExists => {
            fs::remove_file(rt, path)?;
            File::create_new(rt, path)
        }
        answer => answer,
    }
}

/// Writes all bytes, and waits until the system has stored them.
fn write_stored<F: Write + OpenFile>(file: &mut F, bytes: &[u8]) -> io::Result<()>
    ensures { OnOk result (Appends (F.contents file.old) (F.contents file.new) bytes.now) }
{
    file.write_all(bytes)?;
    file.sync_all()
}

/// Makes a file of a folder anew, and returns once the system has stored it. A file or a link of
/// that name that was left is removed first, so nothing is written through a link. After a failed
/// write the file is removed, if the system allows that.
///
/// System: no file can have the name, or the file can't be made, written or stored.
pub fn write_new<R: Files>(
    rt: &R,
    alloc: Global,
    folder: &str,
    name: &str,
    bytes: &[u8],
) -> Result<(), Refusal>
    ensures { OnOk result (IsFileName name.now) }
{
    let path = place(alloc, folder, name)?;
    let mut file = create_anew(rt, path.as_str())?;
    if let Err(said) = write_stored(&mut file, bytes) {
        let _ = fs::remove_file(rt, path.as_str());
        return Err(Refusal::System(said));
    }
    Ok(())
}

/// Gives a file of a folder another name there, in place of what had it, and returns once the
/// system has stored the folder. After a refused growth of memory nothing is renamed.
///
/// System: no file can have one of the names, or the folder can't be opened, the file renamed or
/// the folder stored; in the last case the file has its new name.
pub fn rename<R: Files>(
    rt: &R,
    alloc: Global,
    folder: &str,
    from: &str,
    to: &str,
) -> Result<(), Refusal>
    ensures from { OnOk result (IsFileName from.now) }
    ensures to { OnOk result (IsFileName to.now) }
{
    let from = place(alloc, folder, from)?;
    let to = place(alloc, folder, to)?;
    let opened = File::open(rt, folder_path(alloc, folder)?.as_str())?;
    fs::rename(rt, from.as_str(), to.as_str())?;
    store(&opened)?;
    Ok(())
}

/// Whether no hard link can be made, on this file system or of this file, so that another way is
/// tried.
fn is_unlinkable(said: &io::Error) -> bool {
    matches!(
        said.kind(),
        ErrorKind::PermissionDenied
            | ErrorKind::Unsupported
            | ErrorKind::InvalidInput
            | ErrorKind::TooManyLinks
    )
}

/// Reserves a path that nothing has by an empty file, which another one replaces then.
fn reserve_and_rename<R: Files>(rt: &R, from: &str, to: &str) -> io::Result<()> {
    drop(File::create_new(rt, to)?);
    let renamed = fs::rename(rt, from, to);
    if renamed.is_err() {
        let _ = fs::remove_file(rt, to);
    }
    renamed
}

/// Gives a file a path that nothing has, and takes the first one away. It never replaces anything.
/// An error of the kind AlreadyExists: something has the path.
pub(crate) fn give_new_path<R: Files>(rt: &R, from: &str, to: &str) -> io::Result<()> {
    match fs::hard_link(rt, from, to) {
        Ok(()) => {
            let _ = fs::remove_file(rt, from);
            Ok(())
        }
        Err(said) if is_unlinkable(&said) => reserve_and_rename(rt, from, to),
        Err(said) => Err(said),
    }
}

/// Gives a file of a folder another name there that nothing has. Whether it has it.
fn give_new_name<R: Files>(
    rt: &R,
    alloc: Global,
    folder: &str,
    from: &str,
    to: &str,
) -> Result<bool, Refusal>
    ensures { OnOk result (IsFileName to.now) }
{
    let to = place(alloc, folder, to)?;
    let opened = open_folder(rt, folder_path(alloc, folder)?.as_str())?;
    match give_new_path(rt, from, to.as_str()) {
        Ok(()) => {}
        Err(said) if said.kind() == ErrorKind::AlreadyExists => return Ok(false),
        Err(said) => return Err(Refusal::System(said)),
    }
    store_folder(&opened)?;
    Ok(true)
}

/// Gives a file of a folder another name there, where nothing has it, and returns once the system
/// has stored the folder. Whether it has the name: nothing is replaced, also where another makes
/// something under the name meanwhile. A file that doesn't get the name is removed, if the system
/// allows that.
///
/// System: no file can have one of the names, or the folder can't be opened, the file renamed or
/// the folder stored; in the last case the file has its new name.
pub fn rename_new<R: Files>(
    rt: &R,
    alloc: Global,
    folder: &str,
    from: &str,
    to: &str,
) -> Result<bool, Refusal>
    ensures from { OnOk result (IsFileName from.now) }
    ensures to { OnOk result (IsFileName to.now) }
{
    let path = place(alloc, folder, from)?;
    let answer = give_new_name(rt, alloc, folder, path.as_str(), to);
    if from != to && !matches!(answer, Ok(true)) {
        let _ = fs::remove_file(rt, path.as_str());
    }
    answer
}
