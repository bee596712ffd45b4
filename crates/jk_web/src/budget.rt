//! Readers that may be read so many times.

ghost use Rattle.std.specs.Prelude.{◌≡◌, ◌+◌, ◌<◌, Ok, IsErr};
ghost use Rattle.std.specs.Io.{ReadsAtMost};
ghost use Rattle.std.specs.Io.KnownBytes.{ReadConsumes};

use std::io::{self, ErrorKind, Read};

/// What became of the last read.
#[derive(Clone, Copy, Debug, PartialEq, Eq)]
pub(crate) enum Last {
    /// It gave bytes, or none was made so far.
    Gave,
    /// The input has ended.
    Ended,
    /// It failed.
    Failed,
}

/// A reader that may be read so many times more.
#[derive(Drop)]
pub(crate) struct Budget<'a, I> {
    reader: &'a mut I,
    left: u64,
    last: Last,
}

/// What became of a read.
fn last_of(read: &io::Result<usize>) -> Last
    ensures { IsErr read.now → result ≡ Last.Failed }
{
    match read {
        Ok(0) => Last::Ended,
        Ok(_) => Last::Gave,
        Err(_) => Last::Failed,
    }
}

/// How often a read is made at most that is interrupted each time.
const TRIES: u64 = 1 << 16;

/// Reads once. An interrupted read is made again.
fn read_again<I: Read>(reader: &mut I, piece: &mut [u8]) -> io::Result<usize>
    ensures bound { ReadsAtMost result piece.new }
    ensures bytes { ReadConsumes (I.remaining reader.old) (I.remaining reader.new) result piece.new }
{
    for _try in 0..TRIES {
        match reader.read(piece) {
            Err(said) if said.kind() == ErrorKind::Interrupted => {}
            read => return read,
        }
    }
    Err(io::Error::from(ErrorKind::Interrupted))
}

impl<'a, I: Read> Budget<'a, I> {
    /// The reader, with so many reads.
    pub(crate) fn new(reader: &'a mut I, left: u64) -> Budget<'a, I>
        ensures same_reference { result.reader.ghost_name ≡ reader.entry.ghost_name }
        ensures unread { result.reader.now ≡ reader.old }
        ensures left { result.left ≡ left }
    {
        Budget {
            reader,
            left,
            last: Last::Gave,
        }
    }

    /// Reads once. An interrupted read is made again, and is one.
    pub(crate) fn read(&mut self, piece: &mut [u8]) -> io::Result<usize>
        requires { 0 < self.old.left }
        ensures same_reference { self.new.reader.ghost_name ≡ self.old.reader.ghost_name }
        ensures left { self.new.left + 1 ≡ self.old.left }
        ensures failed { IsErr result → self.new.last ≡ Last.Failed }
        ensures bound { ReadsAtMost result piece.new }
        ensures bytes { ReadConsumes (I.remaining self.old.reader.now)
            (I.remaining self.new.reader.now) result piece.new }
    {
        self.left -= 1;
        let read = read_again(&mut *self.reader, piece);
        self.last = last_of(&read);
        read
    }
}
