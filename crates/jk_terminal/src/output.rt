//! The program's output that is written in parts.

use crate::telling::Counted;
use jk_files::{
    Lockable, Output, Ownable, Refusal, Rules, abandon_output, create_beside_output, create_output,
    finish_output,
};
use jk_math::Refused;
use std::alloc::Global;
use std::io::{self, ErrorKind, Write};
use std::mem;
use std::rt::Files;

/// Where an output goes.
#[derive(Drop)]
pub struct OutputPath {
    /// The path of a file, or `-` for standard output.
    pub name: String,
    /// The path of the input, if the output may not be the same file.
    pub input: Option<String>,
    /// Whether what has the path is never replaced.
    pub is_new: bool,
}

impl OutputPath {
    /// What the output may not replace.
    fn rules(&self) -> Rules<'_> {
        let input = match &self.input {
            Some(input) => Some(input.as_str()),
            None => None,
        };
        Rules {
            input,
            is_new: self.is_new,
        }
    }
}

/// When bytes go where they can't be taken back: to standard output, and to what is written as it
/// is, as a pipe, a device, or a file in a folder that takes no other. A file beside the one that
/// it is to replace can be taken back, and has its bytes at once.
#[derive(Clone, Copy)]
enum GoesOut {
    /// As they come.
    AtOnce,
    /// Once the whole is there; before that they are held, and what they go to isn't opened.
    WhenWhole,
}

/// Where bytes go.
#[derive(Drop)]
enum Way<F> {
    /// It isn't asked yet, since there was no byte.
    Unasked,
    /// To standard output.
    Printed,
    /// To a file.
    File(Output<F>),
    /// Nowhere yet: these are held.
    Held(Vec<u8>),
}

/// The way of bytes that go out at once.
fn open<R: Files>(rt: &R, alloc: Global, path: &OutputPath) -> Result<Way<R::File>, Refusal>
where
    R::File: Lockable + Ownable,
{
    let name = path.name.as_str();
    if name == "-" {
        return Ok(Way::Printed);
    }
    Ok(Way::File(create_output(rt, alloc, name, path.rules())?))
}

/// The way of bytes that are taken back if the whole doesn't come.
fn open_beside<R: Files>(rt: &R, alloc: Global, path: &OutputPath) -> Result<Way<R::File>, Refusal>
where
    R::File: Lockable + Ownable,
{
    let name = path.name.as_str();
    let beside = if name == "-" {
        None
    } else {
        create_beside_output(rt, alloc, name, path.rules())?
    };
    Ok(match beside {
        Some(output) => Way::File(output),
        None => Way::Held(Vec::new(alloc)),
    })
}

/// Holds bytes behind others.
fn hold(held: &mut Vec<u8>, bytes: &[u8]) -> Result<(), Refused> {
    Ok(held.extend_from_slice(bytes)?)
}

/// Sends all bytes on a way.
fn send<R: Files + Print>(rt: &R, way: &mut Way<R::File>, bytes: &[u8]) -> Result<(), Refusal> {
    match way {
        Way::Unasked => Ok(()),
        Way::Printed => Ok(io::writer(rt).write_all(bytes)?),
        Way::File(output) => Ok(output.write_all(bytes)?),
        Way::Held(held) => Ok(hold(held, bytes)?),
    }
}

/// Ends a way. A file that was written whole takes its place, and one that wasn't is given up.
fn close<R: Files>(rt: &R, way: Way<R::File>, is_whole: bool) -> Result<(), Refusal> {
    match way {
        Way::File(output) => {
            if is_whole {
                return finish_output(rt, output);
            }
            abandon_output(rt, output);
            Ok(())
        }
        _way => Ok(()),
    }
}

/// A file, or standard output for `-`, which is opened with the first byte that is written, or
/// where that can't be taken back, once the whole is there.
#[derive(Drop)]
pub struct Late<R: Files> {
    rt: R,
    alloc: Global,
    path: OutputPath,
    goes_out: GoesOut,
    way: Way<R::File>,
    refusal: Option<Refusal>,
    counted: Counted,
}

impl<R: Files + Print + Drop> Late<R>
where
    R::File: Lockable + Ownable,
{
    /// The output of a path, whose bytes go out as they come, and who is told how much is written.
    pub fn new(rt: R, alloc: Global, path: OutputPath, counted: Counted) -> Late<R> {
        Late {
            rt,
            alloc,
            path,
            goes_out: GoesOut::AtOnce,
            way: Way::Unasked,
            refusal: None,
            counted,
        }
    }

    /// The output of a path, whose bytes are held where they can't be taken back, until the whole is
    /// there. Of bytes that are held nobody is told.
    pub fn held(rt: R, alloc: Global, path: OutputPath, counted: Counted) -> Late<R> {
        let mut late = Late::new(rt, alloc, path, counted);
        late.goes_out = GoesOut::WhenWhole;
        late
    }

    /// Writes all bytes.
    fn put(&mut self, bytes: &[u8]) -> Result<(), Refusal> {
        if matches!(self.way, Way::Unasked) {
            let (rt, path) = (&self.rt, &self.path);
            self.way = match self.goes_out {
                GoesOut::AtOnce => open(rt, self.alloc, path)?,
                GoesOut::WhenWhole => open_beside(rt, self.alloc, path)?,
            };
        }
        send(&self.rt, &mut self.way, bytes)
    }

    /// Writes what is held, and the last bytes. They go out, since the whole is there.
    fn put_last(&mut self, last: &[u8]) -> Result<(), Refusal> {
        self.goes_out = GoesOut::AtOnce;
        match mem::replace(&mut self.way, Way::Unasked) {
            Way::Held(held) => self.put(&held)?,
            way => self.way = way,
        }
        if last.is_empty() {
            return Ok(());
        }
        self.put(last)
    }

    /// Ends what was written. Where that is whole with these last bytes, a file takes its place, or
    /// what is held goes out; else what has its place stays. It is refused where a write was.
    pub fn finish(mut self, last: &[u8], is_whole: bool) -> Result<(), Refusal> {
        if is_whole && self.refusal.is_none() {
            self.refusal = self.put_last(last).err();
        }
        let Late {
            rt,
            way,
            refusal,
            ..
        } = self;
        let closed = close(&rt, way, is_whole && refusal.is_none());
        match refusal {
            Some(refusal) => Err(refusal),
            None => closed,
        }
    }
}

/// A refusal as a writer tells it.
fn told(refusal: Refusal) -> io::Error {
    match refusal {
        Refusal::Memory(_) => io::Error::from(ErrorKind::OutOfMemory),
        Refusal::System(said) => said,
    }
}

impl<R: Files + Print + Drop> Write for Late<R>
where
    R::File: Lockable + Ownable,
{
    fn write(&mut self, bytes: &[u8]) -> io::Result<usize> {
        if self.refusal.is_none() {
            self.refusal = self.put(bytes).err();
        }
        if let Some(refusal) = self.refusal {
            return Err(told(refusal));
        }
        if matches!(self.way, Way::Held(_)) {
            return Ok(bytes.len());
        }
        if let Some(telling) = self.counted.telling() {
            telling.wrote(bytes.len());
        }
        Ok(bytes.len())
    }

    fn flush(&mut self) -> io::Result<()> {
        Ok(())
    }
}
