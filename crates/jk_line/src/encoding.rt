//! Running `jk encode`.

use crate::destination::Destination;
use crate::failure::{Failure, of_image, of_options};
use crate::keeping;
use crate::streams::{close, create, finish, open, read, write};
use crate::workers::workers;
use crate::world::World;
use jk_commands::{Plan, encode_file_dressed, encode_file_dressed_with, encode_rows_from, judge};
use jk_math::Fault;
use jk_words::{Encoding, Front, Work};
use std::alloc::Global;

/// A fault of an encoding, with words for it.
fn of_encoding(alloc: Global, fault: Fault, line: &Encoding<'_>, front: &Front) -> Failure {
    match fault {
        Fault::BadParameters => of_options(alloc, fault, &line.options),
        _ => of_image(alloc, fault, line.input, front),
    }
}

/// Where the file of an image goes.
fn to<'a>(line: &Encoding<'a>) -> Destination<'a> {
    Destination::beside(line.input, line.output, line.no_clobber)
}

/// How many components the image of a PGM or PPM file has.
pub(crate) fn components_in(pixels: &[u8]) -> u16 {
    if pixels.starts_with(b"P6") { 3 } else { 1 }
}

/// The whole file of an image that is to keep something beside the samples, which is then written.
fn encode_dressed<W: World>(
    alloc: Global,
    world: &mut W,
    line: &Encoding<'_>,
    workers: usize,
    plan: Plan,
) -> Result<(), Failure> {
    keeping::check_container(alloc, &line.options)?;
    let extras = keeping::asked(alloc, world, &line.kept)?;
    let bytes = read(alloc, world, line.input)?;
    let (components, front) = (components_in(&bytes), Front::of(alloc, &bytes));
    world.begin_work(Work::Encoding, Some(bytes.len() as u64));
    let encoded = if workers > 1 {
        encode_file_dressed_with::<W::Runtime, W::Counter>(
            world.runtime(),
            alloc,
            workers,
            world.counter(),
            bytes,
            plan,
            &extras,
        )
    } else {
        encode_file_dressed(alloc, bytes, plan, &extras)
    };
    world.end_work();
    match encoded {
        Ok(file) => write(alloc, world, to(line), &file),
        Err(Fault::BadParameters) => Err(keeping::of_encoding(
            alloc,
            &extras,
            components,
            &line.options,
        )),
        Err(fault) => Err(of_image(alloc, fault, line.input, &front)),
    }
}

/// Ends an output, which is whole where its image was encoded.
fn end_output<W: World>(
    alloc: Global,
    world: &mut W,
    line: &Encoding<'_>,
    output: W::Output,
    encoded: Result<(), Fault>,
    front: &Front,
) -> Result<(), Failure> {
    let finished = finish(alloc, world, to(line), output, encoded.is_ok());
    match encoded {
        Ok(()) => finished,
        Err(Fault::Shelf) => finished.and(Err(Failure::from(Fault::Shelf))),
        Err(fault) => Err(of_encoding(alloc, fault, line, front)),
    }
}

/// Encodes the image of a file of so many bytes, if it is known how many, as it is read row by row. A
/// read that was refused is told before all else.
fn encode_read<W: World>(
    alloc: Global,
    world: &mut W,
    line: &Encoding<'_>,
    workers: usize,
    plan: Plan,
    size: Option<u64>,
) -> Result<(), Failure> {
    let mut input = open(alloc, world, line.input)?;
    let mut output = create(alloc, world, to(line), false)?;
    world.begin_work(Work::Encoding, size);
    let encoded = encode_rows_from(
        world.runtime(),
        alloc,
        workers,
        world.counter(),
        &mut input,
        plan,
        &mut output,
    );
    world.end_work();
    match close(alloc, world, line.input, input) {
        Ok(front) => end_output(alloc, world, line, output, encoded, &front),
        Err(failure) => {
            let _ = finish(alloc, world, to(line), output, false);
            Err(failure)
        }
    }
}

/// `jk encode IN OUT`: how many workers there are, the options, what the file is to keep, then the
/// input, the output, the image and its encoding.
pub(crate) fn encode<W: World>(
    alloc: Global,
    world: &mut W,
    line: &Encoding<'_>,
) -> Result<(), Failure> {
    let workers = workers(alloc, world, line.workers)?;
    let plan = match judge(alloc, &line.options) {
        Ok(plan) => plan,
        Err(fault) => return Err(of_options(alloc, fault, &line.options)),
    };
    if !line.kept.is_none() {
        return encode_dressed(alloc, world, line, workers, plan);
    }
    let size = world.size(line.input);
    encode_read(alloc, world, line, workers, plan, size)
}
