//! `jk decode` with a window of a file that is read by places.

use crate::destination::Destination;
use crate::failure::{Failure, with_words};
use crate::streams::{create, finish};
use crate::world::World;
use jk_math::Fault;
use jk_stored::decode_stored_window_into;
use jk_words::{Decoding, Work, cause_of};
use std::alloc::Global;

/// A fault of a window that is decoded: the image has no PGM or PPM file.
fn of_stored(alloc: Global, fault: Fault, name: &str) -> Failure {
    let cause = cause_of(&fault);
    with_words(fault, format!(in alloc; "{name}: {cause}"))
}

/// Decodes the window that a line asks for, in all layers, of a file that is read by places: its
/// headers and what the window needs alone are read.
///
/// None: the line asks for no such window, the file isn't read so, or the window isn't known by that.
/// Nothing was written then, nor opened to be written.
pub(crate) fn decode_stored<W: World>(
    alloc: Global,
    world: &mut W,
    line: &Decoding<'_>,
) -> Option<Result<(), Failure>> {
    if line.layers.is_some() {
        return None;
    }
    let view = line.window?;
    let (stored, size) = world.stored(alloc, line.input)?;
    let to = Destination::beside(line.input, line.output, line.no_clobber);
    let mut output = match create(alloc, world, to, false) {
        Ok(output) => output,
        Err(failure) => return Some(Err(failure)),
    };
    world.begin_work(Work::Decoding, Some(size as u64));
    let decoded = decode_stored_window_into(alloc, stored, size, view, &mut output);
    world.end_work();
    let decoded = decoded?;
    let finished = finish(alloc, world, to, output, decoded.is_ok());
    Some(match decoded {
        Ok(()) => finished,
        Err(Fault::Shelf) => finished.and(Err(Failure::from(Fault::Shelf))),
        Err(fault) => Err(of_stored(alloc, fault, line.input)),
    })
}
