//! Command lines that are run in a world, and what must come of them.

use crate::memory::Memory;
use jk_line::{Status, run};
use jk_store::{MemoryShelf, Shelf};
use std::alloc::{AllocError, Global};
use std::process::Abort;
use std::thread::Threads;
use vectors::{bytes_of, equal_at};

/// The bytes of texts.
pub(crate) fn bytes(rt: &impl Abort, alloc: Global, texts: &[&str]) -> Vec<u8> {
    bytes_of(alloc, texts).expect(rt, "bytes")
}

/// The words of a command line.
fn words(alloc: Global, line: &str) -> Result<Vec<String>, AllocError> {
    let mut words = Vec::new(alloc);
    words.push(String::from_str(alloc, "jk")?)?;
    for word in line.split(' ') {
        if !word.is_empty() {
            words.push(String::from_str(alloc, word)?)?;
        }
    }
    Ok(words)
}

/// Runs a command line.
pub(crate) fn run_line<R: Abort + Threads + Sync>(
    rt: &R,
    alloc: Global,
    world: &mut Memory<'_, R>,
    line: &str,
) -> Status {
    let words = words(alloc, line).expect(rt, "words");
    run(alloc, &words, world)
}

/// Whether this was said: a text, or an error of one line, of which the cause stands on a second.
fn is_said(said: &str, due: &str) -> bool {
    said == due || due.starts_with("jk: F") && due.split('\n').count() == 2 && said.starts_with(due)
}

/// Runs a command line, which must end so; behind it this must stand in standard output and in
/// standard error. Of an error the cause may be left out.
pub(crate) fn check_run<R: Abort + Threads + Sync>(
    rt: &R,
    alloc: Global,
    world: &mut Memory<'_, R>,
    line: &str,
    status: Status,
    output: &[u8],
    error: &str,
) {
    let came = run_line(rt, alloc, world, line);
    let said = world.error.as_str();
    let found = (
        came,
        world.output.as_slice() == output,
        is_said(said, error),
    );
    equal_at((line, said), found, (status, true, true)).expect(rt, "what comes of a command line");
}

/// Runs a command line over an input, which must write an output and nothing else.
pub(crate) fn check_output<R: Abort + Threads + Sync>(
    rt: &R,
    alloc: Global,
    line: &str,
    input: &[&str],
    output: &[&str],
) {
    let mut world = Memory::new(rt, alloc, bytes(rt, alloc, input));
    let due = bytes(rt, alloc, output);
    check_run(rt, alloc, &mut world, line, Status::Done, &due, "")
}

/// What a command line writes of an input.
pub(crate) fn written<R: Abort + Threads + Sync>(
    rt: &R,
    alloc: Global,
    line: &str,
    input: Vec<u8>,
) -> Vec<u8> {
    let mut world = Memory::new(rt, alloc, input);
    let status = run_line(rt, alloc, &mut world, line);
    let found = (status, world.error.as_str());
    equal_at(line, found, (Status::Done, "")).expect(rt, "a command that is done");
    world.output
}

/// Puts a file into a world.
pub(crate) fn put_file<R: Abort>(
    rt: &R,
    alloc: Global,
    world: &mut Memory<'_, R>,
    name: &str,
    text: &str,
) {
    let name = String::from_str(alloc, name).expect(rt, "a name");
    let kept: Result<_, _> = world.files.insert(name, bytes(rt, alloc, &[text]));
    kept.expect(rt, "a file");
}

/// Puts a folder `d` into a world.
pub(crate) fn put_folder<R: Abort>(
    rt: &R,
    alloc: Global,
    world: &mut Memory<'_, R>,
    shelf: MemoryShelf,
) {
    let name = String::from_str(alloc, "d").expect(rt, "a name");
    let kept: Result<_, _> = world.folders.insert(name, shelf);
    kept.expect(rt, "a folder");
}

/// A world with an input and a folder `d` of these files.
pub(crate) fn world_of<'a, R: Abort + Threads + Sync>(
    rt: &'a R,
    alloc: Global,
    input: Vec<u8>,
    files: &[(&str, &[&str])],
) -> Memory<'a, R> {
    let mut world = Memory::new(rt, alloc, input);
    let mut shelf = MemoryShelf::new(alloc);
    for (name, texts) in files {
        write(rt, &mut shelf, alloc, name, texts);
    }
    put_folder(rt, alloc, &mut world, shelf);
    world
}

/// Writes a file.
fn write(rt: &impl Abort, shelf: &mut MemoryShelf, alloc: Global, name: &str, texts: &[&str]) {
    let bytes = bytes(rt, alloc, texts);
    shelf.write(alloc, name, &bytes).expect(rt, "a file");
}

/// Whether a file is these bytes.
fn has(
    rt: &impl Abort,
    shelf: &mut MemoryShelf,
    alloc: Global,
    name: &str,
    texts: &[&str],
) -> bool {
    let due = bytes(rt, alloc, texts);
    match shelf.read(alloc, name) {
        Ok(file) => file.as_slice() == due.as_slice(),
        Err(_) => false,
    }
}

/// Checks that the folder `d` of a world was given back, has a file with these bytes, and so many
/// files in all.
pub(crate) fn check_file<R: Abort + Threads + Sync>(
    rt: &R,
    alloc: Global,
    world: &mut Memory<'_, R>,
    name: &str,
    texts: &[&str],
    count: usize,
) {
    let mut shelf = world
        .folders
        .remove("d")
        .expect(rt, "the folder is given back");
    let found = (
        has(rt, &mut shelf, alloc, name, texts),
        shelf.list(alloc).expect(rt, "names").len(),
    );
    equal_at(name, found, (true, count)).expect(rt, "the files of a folder");
    put_folder(rt, alloc, world, shelf);
}
