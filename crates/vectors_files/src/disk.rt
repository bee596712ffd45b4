//! A disk in memory that notes each call, and fails at one.

use crate::handle::{Handle, Names};
use std::alloc::{AllocError, Allocator, Global};
use std::cell::{Cell, RefCell};
use std::fs::{Metadata, OpenOptions};
use std::io::{self, ErrorKind};
use std::rt::{Clock, Files};
use std::time::Duration;

/// What stands under a path.
#[derive(Clone, Copy, Debug, PartialEq, Eq)]
pub(crate) enum Kind {
    /// A regular file.
    File,
    /// A regular file that says it has ten bytes.
    Ten,
    /// A regular file that has become a folder when it is opened.
    Turned,
    /// A folder.
    Folder,
    /// A pipe.
    Pipe,
    /// A file that may not be opened.
    Refused,
    /// A name that is listed and gone then.
    Gone,
    /// A link that leads nowhere.
    Adrift,
    /// A link to itself.
    Loop,
}

/// What stands under a path, and the bytes of a file.
#[derive(Drop)]
struct Entry {
    path: String,
    kind: Kind,
    bytes: Vec<u8>,
}

impl Entry {
    fn new(alloc: Global, path: &str, kind: Kind, bytes: &[u8]) -> Result<Entry, AllocError> {
        Ok(Entry {
            path: String::from_str(alloc, path)?,
            kind,
            bytes: bytes.to_vec(alloc)?,
        })
    }
}

/// What stands under a path, if something does.
fn find<'a>(entries: &'a [Entry], path: &str) -> Option<&'a Entry> {
    for entry in entries {
        if entry.path.as_str() == path {
            return Some(entry);
        }
    }
    None
}

/// Appends to a file.
fn append_to(entries: &mut [Entry], path: &str, bytes: &[u8]) -> Result<(), AllocError> {
    for entry in entries.iter_mut() {
        if entry.path.as_str() == path {
            entry.bytes.extend_from_slice(bytes)?;
        }
    }
    Ok(())
}

/// The names in a folder, each with a NUL after it.
fn names_in(alloc: Global, entries: &[Entry], folder: &str) -> Result<Vec<u8>, AllocError> {
    let mut names = Vec::from_slice(alloc, b".\0..\0bad\xff.jp2\0")?;
    for entry in entries {
        if let Some(name) = entry.path.as_str().strip_prefix(folder) {
            names.extend_from_slice(name.as_bytes())?;
            names.push(0)?;
        }
    }
    Ok(names)
}

/// A disk in memory. Any path that ends with a slash is a folder's.
#[derive(Drop)]
pub(crate) struct Disk {
    alloc: Global,
    entries: RefCell<Vec<Entry>>,
    calls: RefCell<String>,
    count: Cell<u64>,
    /// The number of the call that fails, from 1 on.
    pub(crate) fails_at: Cell<u64>,
    /// The most bytes that a read or a write takes.
    pub(crate) piece: Cell<usize>,
    /// How many reads are interrupted.
    pub(crate) interrupts: Cell<u64>,
    /// How many tries find a lock taken.
    pub(crate) taken: Cell<u64>,
    /// Why no file can be made, if so.
    pub(crate) closed: Cell<Option<ErrorKind>>,
    /// Why no file can take another's place, if so.
    pub(crate) fixed: Cell<Option<ErrorKind>>,
    /// Whether no folder can be asked to be stored.
    pub(crate) unstored: Cell<bool>,
    /// Whether no file can have a second name.
    pub(crate) linkless: Cell<bool>,
    /// How often was slept.
    pub(crate) sleeps: Cell<u64>,
}

impl Disk {
    pub(crate) fn new(alloc: Global) -> Disk {
        Disk {
            alloc,
            entries: RefCell::new(Vec::new(alloc)),
            calls: RefCell::new(String::new(alloc)),
            count: Cell::new(0),
            fails_at: Cell::new(0),
            piece: Cell::new(usize::MAX),
            interrupts: Cell::new(0),
            taken: Cell::new(0),
            closed: Cell::new(None),
            fixed: Cell::new(None),
            unstored: Cell::new(false),
            linkless: Cell::new(false),
            sleeps: Cell::new(0),
        }
    }

    /// Puts something under a path.
    pub(crate) fn put(&self, path: &str, kind: Kind, bytes: &[u8]) -> io::Result<()> {
        let entry = Entry::new(self.alloc, path, kind, bytes)?;
        self.entries.try_borrow_mut()?.push(entry)?;
        Ok(())
    }

    /// Notes a call.
    fn note(&self, word: &str, path: &str) -> io::Result<()> {
        let mut calls = self.calls.try_borrow_mut()?;
        for part in [word, " ", path, ";"] {
            calls.push_str(part)?;
        }
        Ok(())
    }

    /// Notes a call, and fails where it is the one that is to.
    pub(crate) fn call(&self, word: &str, path: &str) -> io::Result<()> {
        self.note(word, path)?;
        let count = self.count.get().saturating_add(1);
        self.count.set(count);
        if count == self.fails_at.get() {
            return Err(io::Error::from(ErrorKind::StorageFull));
        }
        Ok(())
    }

    /// The calls so far.
    pub(crate) fn calls(&self) -> io::Result<String> {
        Ok(String::from_str(self.alloc, self.calls.try_borrow()?.as_str())?)
    }

    /// How many paths have something.
    pub(crate) fn count(&self) -> io::Result<usize> {
        Ok(self.entries.try_borrow()?.len())
    }

    /// What stands under a path.
    pub(crate) fn kind(&self, path: &str) -> io::Result<Kind> {
        if path.ends_with('/') {
            return Ok(Kind::Folder);
        }
        let entries = self.entries.try_borrow()?;
        match find(entries.as_slice(), path) {
            Some(entry) => Ok(entry.kind),
            None => Err(io::Error::from(ErrorKind::NotFound)),
        }
    }

    /// The bytes of a file.
    pub(crate) fn bytes(&self, path: &str) -> io::Result<Vec<u8>> {
        let entries = self.entries.try_borrow()?;
        match find(entries.as_slice(), path) {
            Some(entry) => Ok(entry.bytes.clone()?),
            None => Err(io::Error::from(ErrorKind::NotFound)),
        }
    }

    /// Appends to a file.
    pub(crate) fn append(&self, path: &str, bytes: &[u8]) -> io::Result<()> {
        let mut entries = self.entries.try_borrow_mut()?;
        Ok(append_to(entries.as_mut_slice(), path, bytes)?)
    }

    /// Takes what stands under a path away.
    fn take(&self, path: &str) -> io::Result<()> {
        self.entries
            .try_borrow_mut()?
            .retain(|entry| entry.path.as_str() != path);
        Ok(())
    }

    /// The names in a folder, each with a NUL after it.
    fn names(&self, folder: &str) -> io::Result<Vec<u8>> {
        let entries = self.entries.try_borrow()?;
        Ok(names_in(self.alloc, entries.as_slice(), folder)?)
    }

    /// Makes a file that isn't there.
    fn make(&self, path: &str) -> io::Result<()> {
        if self.kind(path).is_ok() {
            return Err(io::Error::from(ErrorKind::AlreadyExists));
        }
        match self.closed.get() {
            Some(kind) => Err(io::Error::from(kind)),
            None => self.put(path, Kind::File, b""),
        }
    }

    /// Empties a file, or makes it.
    fn empty(&self, path: &str) -> io::Result<()> {
        let Ok(kind) = self.kind(path) else {
            return self.make(path);
        };
        self.take(path)?;
        self.put(path, kind, b"")
    }
}

impl Disk {
    /// What is done to a path where a file is opened.
    fn ask(&self, how: &OpenOptions, path: &str) -> io::Result<()> {
        if how.asks_create_new() {
            self.call("make", path)?;
            self.make(path)
        } else if how.asks_create() {
            self.call("empty", path)?;
            self.empty(path)
        } else {
            self.call("open", path)
        }
    }
}

/// What reaches a disk.
#[derive(Clone, Copy)]
pub(crate) struct Desk<'a>(pub(crate) &'a Disk);

impl<'a> Files for Desk<'a> {
    type File = Handle<'a>;

    type Dir = Names;

    fn open_file(&self, how: &OpenOptions, path: &str) -> io::Result<Handle<'a>> {
        how.check()?;
        self.0.ask(how, path)?;
        match self.0.kind(path)? {
            Kind::Refused => Err(io::Error::from(ErrorKind::PermissionDenied)),
            _ => Handle::new(self.0, self.0.alloc, path),
        }
    }

    fn open_dir(&self, path: &str) -> io::Result<Names> {
        self.0.call("list", path)?;
        Ok(Names::new(self.0.names(path)?))
    }

    fn metadata(&self, path: &str) -> io::Result<Metadata> {
        self.0.call("ask", path)?;
        match self.0.kind(path)? {
            Kind::File | Kind::Refused | Kind::Turned => {
                Ok(Metadata::of_file(self.0.bytes(path)?.len() as u64))
            }
            Kind::Ten => Ok(Metadata::of_file(10)),
            Kind::Folder => Ok(Metadata::of_dir()),
            // There is no constructor for a pipe; it is neither a file nor a folder.
            Kind::Pipe => Ok(Metadata::of_symlink(0)),
            Kind::Gone | Kind::Adrift => Err(io::Error::from(ErrorKind::NotFound)),
            Kind::Loop => Err(io::Error::from(ErrorKind::FilesystemLoop)),
        }
    }

    fn symlink_metadata(&self, path: &str) -> io::Result<Metadata> {
        self.0.call("look", path)?;
        match self.0.kind(path)? {
            Kind::Gone => Err(io::Error::from(ErrorKind::NotFound)),
            Kind::Folder => Ok(Metadata::of_dir()),
            Kind::Pipe | Kind::Adrift | Kind::Loop => Ok(Metadata::of_symlink(0)),
            Kind::File | Kind::Ten | Kind::Refused | Kind::Turned => Ok(Metadata::of_file(0)),
        }
    }

    fn copy(&self, from: &str, to: &str) -> io::Result<u64> {
        self.0.call("copy", from)?;
        let bytes = self.0.bytes(from)?;
        self.0.empty(to)?;
        self.0.append(to, bytes.as_slice())?;
        Ok(bytes.len() as u64)
    }

    fn rename(&self, from: &str, to: &str) -> io::Result<()> {
        self.0.call("rename", from)?;
        if let Some(kind) = self.0.fixed.get() {
            return Err(io::Error::from(kind));
        }
        let bytes = self.0.bytes(from)?;
        self.0.take(from)?;
        self.0.take(to)?;
        self.0.put(to, Kind::File, bytes.as_slice())
    }

    fn remove_file(&self, path: &str) -> io::Result<()> {
        self.0.call("remove", path)?;
        self.0.take(path)
    }

    fn hard_link(&self, original: &str, link: &str) -> io::Result<()> {
        self.0.call("link", original)?;
        if self.0.linkless.get() {
            return Err(io::Error::from(ErrorKind::Unsupported));
        }
        let bytes = self.0.bytes(original)?;
        self.0.make(link)?;
        self.0.append(link, bytes.as_slice())
    }

    fn create_dir(&self, _path: &str) -> io::Result<()> {
        Err(io::Error::from(ErrorKind::Unsupported))
    }

    fn remove_dir(&self, _path: &str) -> io::Result<()> {
        Err(io::Error::from(ErrorKind::Unsupported))
    }

    fn remove_dir_all<B: Allocator>(&self, _alloc: B, _path: &str) -> io::Result<()> {
        Err(io::Error::from(ErrorKind::Unsupported))
    }
}

impl Clock for Desk<'_> {
    fn monotonic(&self) -> io::Result<Duration> {
        Ok(Duration::ZERO)
    }

    fn since_1970(&self) -> io::Result<Duration> {
        Ok(Duration::ZERO)
    }

    fn sleep(&self, duration: Duration) {
        if duration == Duration::from_millis(50) {
            self.0.sleeps.update(|count| count.saturating_add(1));
        }
    }
}
