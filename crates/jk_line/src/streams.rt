//! Files and streams of a world, with words where the system refuses them.

use crate::destination::Destination;
use crate::failure::{Failure, INPUT, called, of_world, with_words};
use crate::world::Streams;
use jk_math::Fault;
use jk_words::Front;
use std::alloc::Global;

/// A refused input, in words.
fn unread<W: Streams>(alloc: Global, world: &W, fault: Fault, name: &str) -> Failure {
    of_world(alloc, world, fault, called(name, INPUT), "read")
}

/// All bytes of a file, or of standard input.
pub(crate) fn read<W: Streams>(
    alloc: Global,
    world: &mut W,
    name: &str,
) -> Result<Vec<u8>, Failure> {
    match world.read(alloc, name) {
        Ok(bytes) => Ok(bytes),
        Err(fault) => Err(unread(alloc, world, fault, name)),
    }
}

/// A file that is to be read from its beginning on, or standard input.
pub(crate) fn open<W: Streams>(
    alloc: Global,
    world: &mut W,
    name: &str,
) -> Result<W::Input, Failure> {
    match world.open(alloc, name) {
        Ok(input) => Ok(input),
        Err(fault) => Err(unread(alloc, world, fault, name)),
    }
}

/// Ends what was read from its beginning on: its front, where no read of it failed.
pub(crate) fn close<W: Streams>(
    alloc: Global,
    world: &mut W,
    name: &str,
    input: W::Input,
) -> Result<Front, Failure> {
    match world.close(input) {
        Ok(front) => Ok(front),
        Err(fault) => Err(unread(alloc, world, fault, name)),
    }
}

/// Whether an output was refused since it is the input.
fn is_input<W: Streams>(world: &W, fault: Fault, to: Destination<'_>) -> bool {
    match to.input {
        Some(input) => fault == Fault::Shelf && world.are_same(input, to.name),
        None => false,
    }
}

/// A refused output, in words.
fn unwritten<W: Streams>(alloc: Global, world: &W, fault: Fault, to: Destination<'_>) -> Failure {
    let name = to.name;
    if is_input(world, fault, to) {
        return with_words(fault, format!(in alloc; "{name} is both input and output"));
    }
    of_world(
        alloc,
        world,
        fault,
        called(name, "standard output"),
        "written",
    )
}

/// Writes all bytes to a file, or to standard output.
pub(crate) fn write<W: Streams>(
    alloc: Global,
    world: &mut W,
    to: Destination<'_>,
    bytes: &[u8],
) -> Result<(), Failure> {
    match world.write(alloc, to, bytes) {
        Ok(()) => Ok(()),
        Err(fault) => Err(unwritten(alloc, world, fault, to)),
    }
}

/// A file that is to be written in parts, or standard output. The parts are held where they can't
/// be taken back, if `is_held`.
pub(crate) fn create<W: Streams>(
    alloc: Global,
    world: &mut W,
    to: Destination<'_>,
    is_held: bool,
) -> Result<W::Output, Failure> {
    let created = if is_held {
        world.create_held(alloc, to)
    } else {
        world.create(alloc, to)
    };
    match created {
        Ok(output) => Ok(output),
        Err(fault) => Err(unwritten(alloc, world, fault, to)),
    }
}

/// Ends what was written in parts.
pub(crate) fn finish<W: Streams>(
    alloc: Global,
    world: &mut W,
    to: Destination<'_>,
    output: W::Output,
    is_whole: bool,
) -> Result<(), Failure> {
    match world.finish(output, is_whole) {
        Ok(()) => Ok(()),
        Err(fault) => Err(unwritten(alloc, world, fault, to)),
    }
}
