//! Files and standard input, read from their beginning on.

use crate::regular::{Regular, known, open_regular};
use jk_line::Front;
use std::alloc::Global;
use std::fs::File;
use std::io::{self, ErrorKind, Read};
use std::rt::Files;

/// Where bytes come from.
#[derive(Drop)]
enum Origin<F, I> {
    /// A file.
    File(F),
    /// Standard input.
    Standard(I),
}

/// A file that is read from its beginning on, or standard input.
#[derive(Drop)]
pub(crate) struct Source<F, I> {
    origin: Origin<F, I>,
    /// How many bytes it may still give: of a regular file up to the length that it had when it was
    /// opened, and none behind its end.
    left: u64,
    /// What the system said where it refused a read.
    said: Option<io::Error>,
    /// How it begins, and how many bytes were read.
    front: Front,
}

/// Opens a file, or standard input for `-`. What of a regular file is added to it meanwhile is left
/// out; all else is read to its end.
pub(crate) fn open_source<R: Files + Input>(
    rt: &R,
    alloc: Global,
    name: &str,
) -> io::Result<Source<R::File, R::Reader>> {
    if name == "-" {
        return Ok(Source::new(alloc, Origin::Standard(rt.reader()), None));
    }
    if let Some(Regular { file, length }) = open_regular(rt, name) {
        return Ok(Source::new(alloc, Origin::File(file), known(length)));
    }
    Ok(Source::new(alloc, Origin::File(File::open(rt, name)?), None))
}

impl<F, I> Source<F, I> {
    /// Of which nothing was read, up to this length, if there is one.
    fn new(alloc: Global, origin: Origin<F, I>, length: Option<u64>) -> Source<F, I> {
        Source {
            origin,
            left: length.unwrap_or(u64::MAX),
            said: None,
            front: Front::new(alloc),
        }
    }
}

impl<F: Read + Drop, I: Read + Drop> Source<F, I> {
    /// Ends it, and gives its front. It fails where a read did, but for one that was interrupted.
    pub(crate) fn end(self) -> io::Result<Front> {
        let Source { said, front, .. } = self;
        match said {
            Some(said) => Err(said),
            None => Ok(front),
        }
    }

    /// Reads once from where the bytes come from.
    fn read_origin(&mut self, room: &mut [u8]) -> io::Result<usize> {
        match &mut self.origin {
            Origin::File(file) => file.read(room),
            Origin::Standard(input) => input.read(room),
        }
    }

    /// What a read gave: none is the end, and what the system said is kept.
    fn note(&mut self, given: &io::Result<usize>) {
        match given {
            Ok(0) => self.left = 0,
            Ok(count) => self.left = self.left.saturating_sub(*count as u64),
            Err(said) => {
                if said.kind() != ErrorKind::Interrupted && self.said.is_none() {
                    self.said = Some(*said);
                }
            }
        }
    }
}

impl<F: Read + Drop, I: Read + Drop> Read for Source<F, I> {
    fn read(&mut self, room: &mut [u8]) -> io::Result<usize> {
        let most = self.left.min(room.len() as u64) as usize;
        if most == 0 {
            return Ok(0);
        }
        let given = self.read_origin(&mut room[..most]);
        self.note(&given);
        // No read gives more than there is room for.
        let count = given?.min(room.len());
        self.front.add(&room[..count]);
        Ok(count)
    }
}
