//! Open files and folders of a disk in memory.

ghost use Rattle.std.specs.Prelude.{◌≤◌, length};

use crate::disk::{Disk, Kind};
use jk_files::{Lockable, Ownable, Owner};
use std::alloc::Global;
use std::fs::{Metadata, OpenFile, Permissions};
use std::io::{self, ErrorKind, Read, Seek, SeekFrom, Write};

/// An open file of a disk, or a folder.
#[derive(Drop)]
pub(crate) struct Handle<'a> {
    disk: &'a Disk,
    path: String,
    bytes: Vec<u8>,
    at: usize,
}

impl<'a> Handle<'a> {
    pub(crate) fn new(disk: &'a Disk, alloc: Global, path: &str) -> io::Result<Handle<'a>> {
        let bytes = match disk.bytes(path) {
            Ok(bytes) => bytes,
            Err(_) => Vec::new(alloc),
        };
        Ok(Handle {
            disk,
            path: String::from_str(alloc, path)?,
            bytes,
            at: 0,
        })
    }
}

/// Copies what stands from a place on, as much as fits, and says how much.
fn give(bytes: &[u8], at: usize, most: usize, buffer: &mut [u8]) -> usize
    ensures { result ≤ length buffer.new }
{
    let left = &bytes[at.min(bytes.len())..];
    let count = left.len().min(most).min(buffer.len());
    buffer[..count].copy_from_slice(&left[..count]);
    count
}

impl Read for Handle<'_> {
    fn read(&mut self, buffer: &mut [u8]) -> io::Result<usize> {
        self.disk.call("read", self.path.as_str())?;
        let interrupts = self.disk.interrupts.get();
        if interrupts > 0 {
            self.disk.interrupts.set(interrupts - 1);
            return Err(io::Error::from(ErrorKind::Interrupted));
        }
        let count = give(&self.bytes, self.at, self.disk.piece.get(), buffer);
        self.at = self.at.saturating_add(count);
        Ok(count)
    }
}

impl Write for Handle<'_> {
    fn write(&mut self, bytes: &[u8]) -> io::Result<usize> {
        self.disk.call("write", self.path.as_str())?;
        let count = bytes.len().min(self.disk.piece.get());
        self.disk.append(self.path.as_str(), &bytes[..count])?;
        Ok(count)
    }

    fn flush(&mut self) -> io::Result<()> {
        Ok(())
    }
}

impl Seek for Handle<'_> {
    fn seek(&mut self, to: SeekFrom) -> io::Result<u64> {
        self.disk.call("seek", self.path.as_str())?;
        match to {
            SeekFrom::Start(place) => {
                self.at = place.min(self.bytes.len() as u64) as usize;
                Ok(place)
            }
            _ => Err(io::Error::from(ErrorKind::Unsupported)),
        }
    }
}

impl OpenFile for Handle<'_> {
    fn metadata(&self) -> io::Result<Metadata> {
        match self.disk.kind(self.path.as_str())? {
            Kind::Ten => Ok(Metadata::of_file(10)),
            Kind::File => Ok(Metadata::of_file(self.bytes.len() as u64)),
            _ => Ok(Metadata::of_dir()),
        }
    }

    fn set_len(&self, _size: u64) -> io::Result<()> {
        Err(io::Error::from(ErrorKind::Unsupported))
    }

    fn sync_all(&self) -> io::Result<()> {
        self.disk.call("sync", self.path.as_str())?;
        if self.disk.unstored.get() && self.path.ends_with('/') {
            return Err(io::Error::from(ErrorKind::InvalidInput));
        }
        Ok(())
    }

    fn sync_data(&self) -> io::Result<()> {
        Err(io::Error::from(ErrorKind::Unsupported))
    }

    fn set_permissions(&self, _permissions: Permissions) -> io::Result<()> {
        self.disk.call("allow", self.path.as_str())
    }
}

impl Lockable for Handle<'_> {
    fn try_exclusive(&self) -> io::Result<bool> {
        self.disk.call("lock", self.path.as_str())?;
        let taken = self.disk.taken.get();
        self.disk.taken.set(taken.saturating_sub(1));
        Ok(taken == 0)
    }

    fn try_shared(&self) -> io::Result<bool> {
        self.disk.call("share", self.path.as_str())?;
        Ok(self.disk.taken.get() == 0)
    }
}

impl Ownable for Handle<'_> {
    fn give_to(&self, _owner: Owner) -> io::Result<()> {
        self.disk.call("give", self.path.as_str())
    }
}

/// The names of a folder that is read.
#[derive(Drop)]
pub(crate) struct Names {
    bytes: Vec<u8>,
    at: usize,
}

impl Names {
    pub(crate) fn new(bytes: Vec<u8>) -> Names {
        Names { bytes, at: 0 }
    }
}

impl Read for Names {
    fn read(&mut self, buffer: &mut [u8]) -> io::Result<usize> {
        let count = give(&self.bytes, self.at, usize::MAX, buffer);
        self.at = self.at.saturating_add(count);
        Ok(count)
    }
}
