//! The folder of an archive that is served, and its lock.

use jk_files::{Lock, Lockable, try_exclusive, wait_exclusive};
use jk_math::Fault;
use jk_serve::Keeper;
use jk_store::Folder;
use jk_terminal::Watched;
use std::alloc::Global;
use std::rt::Files;
use std::time::Clock;

/// Says that a folder's lock is waited for, where somebody reads along.
pub(crate) fn tell_waiting<R: Eprint>(rt: &R, is_terminal: bool, folder: &str) {
    if is_terminal {
        let _ = eprintln!(rt;
            "jk: another jk works on {folder}; waiting for it, up to ten seconds"
        );
    }
}

/// Who takes the lock of a folder while an image is added to it.
#[derive(Drop)]
pub(crate) struct FolderKeeper<R: Files> {
    rt: R,
    folder: String,
    is_terminal: bool,
    lock: Option<Lock<R::File>>,
}

impl<R: Files> FolderKeeper<R> {
    /// The keeper of a folder, and whether standard error is a terminal.
    pub(crate) fn new(
        rt: R,
        alloc: Global,
        folder: &str,
        is_terminal: bool,
    ) -> Result<FolderKeeper<R>, Fault>
    where
        R: Drop,
    {
        Ok(FolderKeeper {
            rt,
            folder: String::from_str(alloc, folder)?,
            is_terminal,
            lock: None,
        })
    }
}

impl<R: Files + Clock + Eprint + Drop> Keeper<Watched<Folder<R>, R>> for FolderKeeper<R>
where
    R::File: Lockable,
{
    fn lock(&mut self, alloc: Global) -> Result<(), Fault> {
        let (rt, is_terminal, folder) = (&self.rt, self.is_terminal, self.folder.as_str());
        let lock = wait_exclusive(rt, alloc, folder, || tell_waiting(rt, is_terminal, folder))?;
        self.lock = Some(lock);
        Ok(())
    }

    fn try_lock(&mut self, alloc: Global) -> Result<bool, Fault> {
        self.lock = try_exclusive(&self.rt, alloc, self.folder.as_str())?;
        Ok(self.lock.is_some())
    }

    fn tell_waiting(&self) {
        tell_waiting(&self.rt, self.is_terminal, self.folder.as_str());
    }

    fn release(&mut self) {
        self.lock = None;
    }

    fn has_other(&self, shelf: &Watched<Folder<R>, R>, name: &str) -> bool {
        shelf.shelf().has_other(name)
    }
}
