//! The lock of a folder.

use crate::opening::{open_regular, open_to_read};
use crate::place::place;
use crate::refusal::Refusal;
use std::alloc::Global;
use std::fs::{File, OpenOptions, TryLockError};
use std::io::{self, ErrorKind};
use std::rt::{Clock, Files};
use std::thread;
use std::time::Duration;

/// The name of a folder's lock.
const LOCK: &str = ".lock";

/// How long is waited between two tries, in milliseconds.
const PAUSE: u64 = 50;

/// How many more tries are made: for ten seconds.
const TRIES: u64 = 200;

/// An open file that can be locked, until it is closed.
pub trait Lockable {
    /// Takes the lock for this file alone. Whether it is taken: it isn't while another holds it.
    fn try_exclusive(&self) -> io::Result<bool>;

    /// Takes the lock together with others who do so. Whether it is taken: it isn't while another
    /// holds it alone.
    fn try_shared(&self) -> io::Result<bool>;
}

/// Whether a lock is taken.
fn is_taken(answer: Result<(), TryLockError>) -> io::Result<bool> {
    match answer {
        Ok(()) => Ok(true),
        Err(TryLockError::WouldBlock) => Ok(false),
        Err(TryLockError::Error(said)) => Err(said),
    }
}

impl Lockable for File {
    fn try_exclusive(&self) -> io::Result<bool> {
        is_taken(self.try_lock())
    }

    fn try_shared(&self) -> io::Result<bool> {
        is_taken(self.try_lock_shared())
    }
}

/// The lock of a folder, which is held until it is dropped.
#[derive(Drop)]
pub struct Lock<F> {
    file: F,
}

/// What a try to share a folder's lock gives.
#[derive(Drop)]
pub enum SharedLock<F> {
    /// The lock.
    Held(Lock<F>),
    /// Another holds the lock alone.
    Taken,
    /// The folder has no lock, and none can be made since it may not be written.
    Unwritable,
}

/// Opens a regular file to lock it alone. A system that wants it open for writing then
/// is served where it may be written.
pub(crate) fn open_to_hold<R: Files>(rt: &R, path: &str) -> io::Result<R::File> {
    let mut options = OpenOptions::new();
    options.read(true).write(true);
    match open_regular(rt, &options, path) {
        Ok(opened) => Ok(opened.file),
        Err(said) if said.kind() == ErrorKind::PermissionDenied => {
            Ok(open_to_read(rt, path)?.file)
        }
        Err(said) => Err(said),
    }
}

/// The file of a folder's lock, made where there is none. Another may make it at the same time.
fn lock_to_hold<R: Files>(rt: &R, path: &str) -> io::Result<R::File> {
    match open_to_hold(rt, path) {
        Err(said) if said.kind() == ErrorKind::NotFound => {}
        answer => return answer,
    }
    match File::create_new(rt, path) {
        Err(said) if said.kind() == ErrorKind::AlreadyExists => open_to_hold(rt, path),
        answer => answer,
    }
}

/// The file of a folder's lock, to share it.
#[derive(Drop)]
enum ToShare<F> {
    File(F),
    Unwritable,
}

/// Whether a folder may not be written.
fn is_unwritable(said: &io::Error) -> bool {
    matches!(
        said.kind(),
        ErrorKind::PermissionDenied | ErrorKind::ReadOnlyFilesystem
    )
}

/// The file of a folder's lock to share it, made where there is none.
fn lock_to_share<R: Files>(rt: &R, path: &str) -> io::Result<ToShare<R::File>> {
    match open_to_read(rt, path) {
        Ok(opened) => return Ok(ToShare::File(opened.file)),
        Err(said) if said.kind() == ErrorKind::NotFound => {}
        Err(said) => return Err(said),
    }
    match File::create_new(rt, path) {
        Ok(file) => Ok(ToShare::File(file)),
        Err(said) if said.kind() == ErrorKind::AlreadyExists => {
            Ok(ToShare::File(open_to_read(rt, path)?.file))
        }
        Err(said) if is_unwritable(&said) => Ok(ToShare::Unwritable),
        Err(said) => Err(said),
    }
}

/// Holds a folder's lock alone. None: another holds it.
///
/// System: the lock's file can't be opened, made or locked.
pub fn try_exclusive<R: Files>(
    rt: &R,
    alloc: Global,
    folder: &str,
) -> Result<Option<Lock<R::File>>, Refusal>
where
    R::File: Lockable,
{
    let path = place(alloc, folder, LOCK)?;
    let file = lock_to_hold(rt, path.as_str())?;
    if file.try_exclusive()? {
        Ok(Some(Lock { file }))
    } else {
        Ok(None)
    }
}

/// Holds a folder's lock together with others who do so.
///
/// System: the lock's file can't be opened or locked, or can't be made for another reason than that
/// the folder may not be written.
pub fn try_shared<R: Files>(
    rt: &R,
    alloc: Global,
    folder: &str,
) -> Result<SharedLock<R::File>, Refusal>
where
    R::File: Lockable,
{
    let path = place(alloc, folder, LOCK)?;
    let ToShare::File(file) = lock_to_share(rt, path.as_str())? else {
        return Ok(SharedLock::Unwritable);
    };
    if file.try_shared()? {
        Ok(SharedLock::Held(Lock { file }))
    } else {
        Ok(SharedLock::Taken)
    }
}

/// Holds a folder's lock alone, and waits for it for up to ten seconds. Before the wait begins
/// `tell` is called once.
///
/// System: the lock's file can't be opened, made or locked, or another holds the lock for longer.
pub fn wait_exclusive<R: Files + Clock, T: FnOnce()>(
    rt: &R,
    alloc: Global,
    folder: &str,
    tell: T,
) -> Result<Lock<R::File>, Refusal>
where
    R::File: Lockable,
    requires { T.IsAlwaysCallable tell }
{
    let path = place(alloc, folder, LOCK)?;
    let file = lock_to_hold(rt, path.as_str())?;
    if file.try_exclusive()? {
        return Ok(Lock { file });
    }
    tell();
    for _try in 0..TRIES {
        thread::sleep(rt, Duration::from_millis(PAUSE));
        if file.try_exclusive()? {
            return Ok(Lock { file });
        }
    }
    Err(busy())
}

/// Holds a folder's lock together with others who do so, and waits for it for up to ten seconds.
/// Before the wait begins
/// `tell` is called once. The answer is never Taken.
///
/// System: as `try_shared`, or another holds the lock alone for longer.
pub fn wait_shared<R: Files + Clock, T: FnOnce()>(
    rt: &R,
    alloc: Global,
    folder: &str,
    tell: T,
) -> Result<SharedLock<R::File>, Refusal>
where
    R::File: Lockable,
    requires { T.IsAlwaysCallable tell }
{
    match try_shared(rt, alloc, folder)? {
        SharedLock::Taken => {}
        answer => return Ok(answer),
    }
    tell();
    for _try in 0..TRIES {
        thread::sleep(rt, Duration::from_millis(PAUSE));
        match try_shared(rt, alloc, folder)? {
            SharedLock::Taken => {}
            answer => return Ok(answer),
        }
    }
    Err(busy())
}

/// What is said where another holds the lock for too long.
fn busy() -> Refusal {
    Refusal::System(io::Error::new(ErrorKind::WouldBlock, "another jk works on this folder"))
}
