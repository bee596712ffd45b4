//! The operator of a server.

ghost use Rattle.std.specs.Prelude.{◌≡◌, ◌⊎◌, [], OnOk, IfErr};
ghost use Rattle.jk_math.specs.Memory.{IsMemory};
ghost use Rattle.jk_math.specs.declared.fault.Fault.TheVariants.{Shelf as ShelfFault};
ghost use Rattle.jk_hall.specs.Writing.{waits};

use crate::desk::{Desk, Keeper};
use crate::operator_line::{Adding, adding_of};
use jk_hall::Writer;
use jk_math::Fault;
use jk_store::{Shelf, added_text, refused_text};
use std::alloc::Global;
use std::io::{ErrorKind, Read, Write};
use std::sync::Wait;

/// The most bytes of a read.
const PIECE: usize = 4096;

/// Writes an answer at once.
fn tell<O: Write>(output: &mut O, text: &str) -> Result<(), Fault>
    ensures { IfErr result (λ e. e ≡ ShelfFault) }
{
    match output.write_all(text.as_bytes()) {
        Ok(()) => {}
        Err(_) => return Err(Fault::Shelf),
    }
    match output.flush() {
        Ok(()) => Ok(()),
        Err(_) => Err(Fault::Shelf),
    }
}

/// Where the images are added that the operator's lines ask for.
pub(crate) trait Adds {
    /// What publishes them, where that isn't a part of it.
    type Beside;

    /// Adds the image of a file, and publishes it.
    fn take<R: Wait>(
        &mut self,
        rt: &R,
        alloc: Global,
        beside: &mut Self::Beside,
        adding: Adding<'_>,
    ) -> Result<(), Fault>;
}

/// Does what a line asks for, and answers it. Lines that ask for nothing are passed over.
fn follow<R: Wait, A: Adds, O: Write>(
    rt: &R,
    alloc: Global,
    adds: &mut A,
    beside: &mut A::Beside,
    line: &[u8],
    output: &mut O,
) -> Result<(), Fault>
    ensures cause { IfErr result (λ e. IsMemory e ⊎ (e ≡ ShelfFault)) }
{
    let Ok(line) = str::from_utf8(line) else {
        return Ok(());
    };
    let Some(adding) = adding_of(line) else {
        return Ok(());
    };
    let answer = match adds.take(rt, alloc, beside, adding) {
        Ok(()) => added_text(alloc, adding.name)?,
        Err(fault) => refused_text(alloc, adding.name, fault)?,
    };
    tell(output, answer.as_str())
}

/// Takes up bytes: does what the lines ask for that end in them, and keeps the beginning of the next
/// one.
fn take_up<R: Wait, A: Adds, O: Write>(
    rt: &R,
    alloc: Global,
    adds: &mut A,
    beside: &mut A::Beside,
    line: &mut Vec<u8>,
    bytes: &[u8],
    output: &mut O,
) -> Result<(), Fault>
    ensures cause { IfErr result (λ e. IsMemory e ⊎ (e ≡ ShelfFault)) }
{
    for byte in bytes {
        if *byte == b'\n' {
            follow(rt, alloc, adds, beside, line.as_slice(), output)?;
            line.clear();
        } else {
            line.push(*byte)?;
        }
    }
    Ok(())
}

/// Reads lines to the end of the input, does what they ask for, and answers each.
pub(crate) fn follow_all<R: Wait, A: Adds, I: Read, O: Write>(
    rt: &R,
    alloc: Global,
    adds: &mut A,
    beside: &mut A::Beside,
    input: &mut I,
    output: &mut O,
) -> Result<(), Fault>
    ensures cause { IfErr result (λ e. IsMemory e ⊎ (e ≡ ShelfFault)) }
{
    let mut piece = [0u8; PIECE];
    let mut line = Vec::new(alloc);
    for _read in 0..u64::MAX {
        let count = match input.read(&mut piece) {
            Ok(0) => break,
            Ok(count) => count,
            Err(said) if said.kind() == ErrorKind::Interrupted => continue,
            Err(_) => return Err(Fault::Shelf),
        };
        take_up(rt, alloc, adds, beside, &mut line, &piece[..count], output)?;
    }
    follow(rt, alloc, adds, beside, &line, output)
}

impl<S: Shelf, K: Keeper<S>, P: Shelf> Adds for Desk<S, K, P> {
    type Beside = Writer;

    fn take<R: Wait>(
        &mut self,
        rt: &R,
        alloc: Global,
        beside: &mut Writer,
        adding: Adding<'_>,
    ) -> Result<(), Fault> {
        let Adding { name, path } = adding;
        self.add(rt, alloc, beside, name, path)
    }
}

/// Reads lines to the end of the input, and does what they ask for: a line `add NAME PATH` adds the
/// image of the file PATH, which is the rest of the line, to the archive under NAME, and publishes
/// it. Each is answered by a line at once, `added NAME`, or `refused NAME FAULT`. Other lines are
/// passed over. At the end what waits is published.
///
/// Memory: where a line or an answer can't be held, or what waits can't be published. Shelf: the
/// input can't be read, or the output can't be written.
pub fn operate<R: Wait, S: Shelf, K: Keeper<S>, P: Shelf, I: Read, O: Write>(
    rt: &R,
    alloc: Global,
    desk: &mut Desk<S, K, P>,
    writer: &mut Writer,
    input: &mut I,
    output: &mut O,
) -> Result<(), Fault>
    ensures settled { OnOk result (waits writer.new ≡ []) }
    ensures cause { IfErr result (λ e. IsMemory e ⊎ (e ≡ ShelfFault)) }
{
    follow_all(rt, alloc, desk, writer, input, output)?;
    writer.settle(rt)
}
