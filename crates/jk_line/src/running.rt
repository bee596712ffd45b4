//! Running a command line.

use crate::destination::{Destination, STANDARD_OUTPUT};
use crate::encoding::encode;
use crate::failure::{Failure, of_file, of_world, report};
use crate::informing::info;
use crate::status::Status;
use crate::streams::{create, finish, read, write};
use crate::viewing::decode_stored;
use crate::workers::workers;
use crate::world::{Streams, World};
use crate::{adding, adding_all, archive, checking, keeping};
use jk_commands::{
    cut_file, decode_rows_into, decode_rows_into_with, decode_window_file_into, first_layers,
};
use jk_math::Fault;
use jk_window::View;
use jk_words::{
    Command, Cutting, Decoding, Defaults, Line, Seen, Unasked, Work, Written, fault_lines,
    other_extension, read_line,
};
use std::alloc::Global;

/// Writes the image of a file, row by row.
fn decode_image<W: World>(
    alloc: Global,
    world: &W,
    workers: usize,
    bytes: &[u8],
    reduce: u32,
    output: &mut W::Output,
) -> Result<(), Fault> {
    if workers > 1 {
        return decode_rows_into_with(world.runtime(), alloc, workers, bytes, reduce, output);
    }
    decode_rows_into(alloc, bytes, reduce, output)
}

/// The file that is decoded: the file itself, or what of it has the layers that are asked for, on the
/// window that is.
fn with_layers(alloc: Global, line: &Decoding<'_>, bytes: Vec<u8>) -> Result<Vec<u8>, Fault> {
    let Some(layers) = line.layers else {
        return Ok(bytes);
    };
    match line.window {
        Some(view) => cut_file(alloc, &bytes, view),
        None => first_layers(alloc, &bytes, line.reduce, layers),
    }
}

/// A fault of what is decoded, with words for it.
fn of_decoding(alloc: Global, fault: Fault, line: &Decoding<'_>, seen: &Seen) -> Failure {
    let view = line.window.unwrap_or(View {
        reduce: line.reduce,
        x: 0,
        y: 0,
        width: u32::MAX,
        height: u32::MAX,
        layers: line.layers,
    });
    of_file(alloc, fault, line.input, seen, Some(&view))
}

/// `jk decode IN OUT`: the image, or a window of it, in all layers or the first. How many workers
/// there are is judged first. Of a file that can be read by places, only what a window needs is read
/// where it is known by that; else all of it is. What is written row by row is held where it can't be
/// taken back.
fn decode<W: World>(alloc: Global, world: &mut W, line: &Decoding<'_>) -> Result<(), Failure> {
    let workers = workers(alloc, world, line.workers)?;
    if let Some(done) = decode_stored(alloc, world, line) {
        return done;
    }
    let bytes = read(alloc, world, line.input)?;
    let seen = Seen::of(alloc, &bytes);
    let bytes = match with_layers(alloc, line, bytes) {
        Ok(bytes) => bytes,
        Err(fault) => return Err(of_decoding(alloc, fault, line, &seen)),
    };
    let to = Destination::beside(line.input, line.output, line.no_clobber);
    let mut output = create(alloc, world, to, line.window.is_none())?;
    world.begin_work(Work::Decoding, Some(bytes.len() as u64));
    let decoded = match line.window {
        Some(view) => decode_window_file_into(alloc, bytes, view, &mut output),
        None => decode_image(alloc, world, workers, &bytes, line.reduce, &mut output),
    };
    world.end_work();
    let finished = finish(alloc, world, to, output, decoded.is_ok());
    match decoded {
        Ok(()) => finished,
        Err(Fault::Shelf) => finished.and(Err(Failure::from(Fault::Shelf))),
        Err(fault) => Err(of_decoding(alloc, fault, line, &seen)),
    }
}

/// `jk cut IN OUT`.
fn cut<W: Streams>(alloc: Global, world: &mut W, line: &Cutting<'_>) -> Result<(), Failure> {
    let bytes = read(alloc, world, line.input)?;
    let to = Destination::beside(line.input, line.output, line.no_clobber);
    match cut_file(alloc, &bytes, line.window) {
        Ok(file) => write(alloc, world, to, &file),
        Err(fault) => {
            let seen = Seen::of(alloc, &bytes);
            Err(of_file(alloc, fault, line.input, &seen, Some(&line.window)))
        }
    }
}

/// `jk faults`.
fn list_faults<W: Streams>(alloc: Global, world: &mut W) -> Result<(), Failure> {
    let text = fault_lines(alloc)?;
    write(alloc, world, STANDARD_OUTPUT, text.as_bytes())
}

/// Says which format an output has whose name has the extension of another one.
fn tell_format<W: Streams>(
    alloc: Global,
    world: &mut W,
    name: &str,
    written: Written,
) -> Result<(), Failure> {
    if let Some(format) = other_extension(name, written) {
        let words = format!(in alloc; "jk: note: {name} is {format}, whatever its name says\n")?;
        world.tell(&words);
    }
    Ok(())
}

/// Does what a command asks for.
fn perform<W: World>(
    alloc: Global,
    world: &mut W,
    line: &Line<'_>,
    in_words: bool,
) -> Result<Status, Failure> {
    match &line.command {
        Command::Check(asked) => return checking::check(alloc, world, asked, in_words),
        Command::Extras(line) => return keeping::extras(alloc, world, line),
        Command::AddAll(line) => return adding_all::add_all(alloc, world, line, in_words),
        Command::Info(line) => return info(alloc, world, line, in_words),
        Command::Encode(line) => encode(alloc, world, line),
        Command::Decode(line) => decode(alloc, world, line),
        Command::Cut(line) => cut(alloc, world, line),
        Command::Dress(line) => keeping::dress(alloc, world, line),
        Command::Add(line) => adding::add(alloc, world, line),
        Command::Serve(line) => archive::serve(alloc, world, line, in_words),
        Command::Faults => list_faults(alloc, world),
    }?;
    Ok(Status::Done)
}

/// Says of what a command has written which format it has, where its name says another one.
fn note<W: Streams>(alloc: Global, world: &mut W, line: &Line<'_>) -> Result<(), Failure> {
    if line.quiet {
        return Ok(());
    }
    match &line.command {
        Command::Decode(line) => tell_format(alloc, world, line.output, Written::Pixels),
        Command::Encode(line) => tell_format(alloc, world, line.output, Written::Coded),
        _ => Ok(()),
    }
}

/// Does what a line asks for.
fn follow<W: World>(alloc: Global, world: &mut W, line: &Line<'_>) -> Status {
    if line.quiet {
        world.be_quiet();
    }
    let in_words = line.explain || !line.quiet;
    let done = match perform(alloc, world, line, in_words) {
        Ok(status) => note(alloc, world, line).and(Ok(status)),
        Err(failure) => Err(failure),
    };
    match done {
        Ok(status) => status,
        Err(failure) => {
            report(world, &failure, in_words);
            Status::Refused
        }
    }
}

/// Writes what was asked for, as `--help` does, or what is wrong with the words.
fn show<W: Streams>(alloc: Global, world: &mut W, unasked: &Unasked) -> Result<Status, Failure> {
    match unasked {
        Unasked::Memory => {
            world.tell(&"jk: F1 Memory\n");
            Ok(Status::Refused)
        }
        Unasked::Nothing => Ok(Status::WrongLine),
        Unasked::IsWrong(text) => {
            world.tell(text);
            Ok(Status::WrongLine)
        }
        Unasked::Shows(text) => {
            match world.print(text) {
                Ok(()) => Ok(Status::Done),
                Err(fault) => Err(of_world(alloc, world, fault, "standard output", "written")),
            }
        }
    }
}

/// Reads the words, and does what they ask for.
fn answer<W: World>(alloc: Global, world: &mut W, words: &[String]) -> Result<Status, Failure> {
    let defaults = Defaults::new(alloc)?;
    match read_line(alloc, &defaults, words) {
        Ok(line) => Ok(follow(alloc, world, &line)),
        Err(unasked) => show(alloc, world, &unasked),
    }
}

/// Runs a command line, of which the first word is the program's name.
///
/// A fault is a line such as `jk: F2 Truncated` on standard error. A second line has its cause in
/// words, but with `--quiet`.
pub fn run<W: World>(alloc: Global, words: &[String], world: &mut W) -> Status {
    match answer(alloc, world, words) {
        Ok(status) => status,
        Err(failure) => {
            report(world, &failure, true);
            Status::Refused
        }
    }
}
