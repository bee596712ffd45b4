//! What is read of a file, and when a read fails.

use crate::asserts::{equal, equal_at};
use crate::calls::{called, disk_with, read_file, read_inside_at};
use crate::disk::{Desk, Disk, Kind};
use crate::scratch::{folder, link, remove, within, write};
use jk_files::{Refusal, read_all};
use jk_math::Fault;
use std::alloc::Global;
use std::fs::File;
use std::io::ErrorKind;
use std::process::{self, Abort};
use std::rt::Files;

/// All bytes, one after another.
fn row(rt: &impl Abort, alloc: Global) -> Vec<u8> {
    let mut row = Vec::new(alloc);
    for byte in 0..=255u8 {
        row.push(byte).expect(rt, "a byte");
    }
    row
}

/// A megabyte and one byte, of which none is like its neighbours.
fn megabyte(rt: &impl Abort, alloc: Global) -> Vec<u8> {
    let row = row(rt, alloc);
    let mut bytes = Vec::new(alloc);
    for _row in 0..1u64 << 12 {
        bytes.extend_from_slice(&row).expect(rt, "bytes");
    }
    bytes.push(7).expect(rt, "a byte");
    bytes
}

/// A disk with a megabyte in one file, that gives at most so many bytes at once.
fn disk_of(rt: &impl Abort, alloc: Global, piece: usize) -> Disk {
    let disk = disk_with(rt, alloc, "d/a", Kind::File, &megabyte(rt, alloc));
    disk.piece.set(piece);
    disk
}

/// Whether all of the megabyte was read, or what the fault was.
type Whole = Result<bool, Fault>;

fn is_whole(rt: &impl Abort, alloc: Global, answer: Result<Vec<u8>, Refusal>) -> Whole {
    match answer {
        Ok(bytes) => Ok(bytes.as_slice() == megabyte(rt, alloc).as_slice()),
        Err(refusal) => Err(refusal.fault()),
    }
}

/// What a source of a disk gives.
fn source(rt: &impl Abort, alloc: Global, disk: &Disk) -> Whole {
    let file = File::open(&Desk(disk), "d/a").expect(rt, "a file");
    is_whole(rt, alloc, read_all(alloc, file))
}

/// What a file of a disk gives.
fn file(rt: &impl Abort, alloc: Global, disk: &Disk) -> Whole {
    is_whole(rt, alloc, read_file(disk, alloc, "d/a"))
}

/// How many bytes a disk gives at once: any, and few of many.
static PIECES: [usize; 3] = [usize::MAX, 100_000, 4096];

/// A source and a file are read whole in pieces of so many bytes at most.
fn is_read_in(rt: &impl Abort, alloc: Global, piece: usize) {
    let disk = disk_of(rt, alloc, piece);
    equal_at(rt, "a source", piece, source(rt, alloc, &disk), Ok(true));
    equal_at(rt, "a file", piece, file(rt, alloc, &disk), Ok(true));
}

#[test]
fn in_pieces(rt: HostRuntime) {
    for piece in &PIECES {
        is_read_in(&rt, rt.alloc(), *piece);
    }
}

/// A disk of which a call fails.
fn failing(rt: &impl Abort, alloc: Global, call: u64) -> Disk {
    let disk = disk_of(rt, alloc, 100_000);
    disk.fails_at.set(call);
    disk
}

/// A source is refused where a call fails.
fn source_fails_at(rt: &impl Abort, alloc: Global, call: u64) {
    let answer = source(rt, alloc, &failing(rt, alloc, call));
    equal_at(rt, "a source", call, answer, Err(Fault::Shelf));
}

/// The first call opens; eleven reads give bytes, and the last sees the end.
fn source_fails(rt: &impl Abort, alloc: Global) {
    for call in 2..14 {
        source_fails_at(rt, alloc, call);
    }
}

/// A file is refused where a call fails, if there is such a call.
fn file_fails_at(rt: &impl Abort, alloc: Global, call: u64, due: Whole) {
    let answer = file(rt, alloc, &failing(rt, alloc, call));
    equal_at(rt, "a file", call, answer, due);
}

/// A question and an opening, and eleven reads, of which the last gives the last byte that the file
/// had.
fn file_fails(rt: &impl Abort, alloc: Global) {
    for call in 1..14 {
        file_fails_at(rt, alloc, call, Err(Fault::Shelf));
    }
    file_fails_at(rt, alloc, 14, Ok(true));
}

#[test]
fn failing_at_each_read(rt: HostRuntime) {
    source_fails(&rt, rt.alloc());
    file_fails(&rt, rt.alloc());
}

#[test]
fn interrupted(rt: HostRuntime) {
    let disk = disk_of(&rt, rt.alloc(), 100_000);
    disk.interrupts.set(5);
    equal(&rt, "a source", source(&rt, rt.alloc(), &disk), Ok(true));
    disk.interrupts.set(5);
    equal(&rt, "a file", file(&rt, rt.alloc(), &disk), Ok(true));
}

/// A file that has these bytes and said it has ten gives those.
fn of_ten(rt: &impl Abort, alloc: Global, bytes: &[u8], due: &[u8]) {
    let disk = disk_with(rt, alloc, "a", Kind::Ten, bytes);
    let read = read_file(&disk, alloc, "a").expect(rt, "a file");
    equal_at(rt, "a file", bytes, read.as_slice(), due);
}

#[test]
fn changed_meanwhile(rt: HostRuntime) {
    of_ten(&rt, rt.alloc(), b"0123456789abc", b"0123456789");
    of_ten(&rt, rt.alloc(), b"0123456", b"0123456");
}

/// What the system says where a file isn't read.
fn said_of(answer: Result<Vec<u8>, Refusal>) -> Option<ErrorKind> {
    match answer {
        Ok(_) => None,
        Err(refusal) => refusal.said().map(|said| said.kind()),
    }
}

/// What the system says of something that isn't read, and the calls that are made.
fn refused(rt: &impl Abort, alloc: Global, kind: Kind, due: ErrorKind, calls: &str) {
    let disk = disk_with(rt, alloc, "a", kind, b"");
    let said = said_of(read_file(&disk, alloc, "a"));
    equal_at(rt, "what is said", kind, said, Some(due));
    called(rt, &disk, calls);
}

#[test]
fn no_regular_file(rt: HostRuntime) {
    let (twice, once) = ("ask a;open a;", "ask a;");
    refused(&rt, rt.alloc(), Kind::Pipe, ErrorKind::InvalidInput, once);
    refused(&rt, rt.alloc(), Kind::Folder, ErrorKind::IsADirectory, once);
    refused(&rt, rt.alloc(), Kind::Gone, ErrorKind::NotFound, once);
    refused(
        &rt,
        rt.alloc(),
        Kind::Turned,
        ErrorKind::IsADirectory,
        twice,
    );
    refused(
        &rt,
        rt.alloc(),
        Kind::Refused,
        ErrorKind::PermissionDenied,
        twice,
    );
}

/// What the megabyte has from a place on, at most so much of it.
fn stretch(all: &[u8], start: usize, most: usize) -> &[u8] {
    let rest = all.get(start..).unwrap_or(b"");
    rest.get(..most).unwrap_or(rest)
}

/// Whether a file of a disk gives from a place on what the megabyte has there, at most so much of
/// it, or what the fault was.
fn from(rt: &impl Abort, alloc: Global, disk: &Disk, start: usize, most: usize) -> Whole {
    let all = megabyte(rt, alloc);
    match read_inside_at(disk, alloc, "a", start as u64, most) {
        Ok(bytes) => Ok(bytes.as_slice() == stretch(&all, start, most)),
        Err(refusal) => Err(refusal.fault()),
    }
}

/// Places, and how much is asked for: in front, in the middle, at the end, past it and nothing.
static STRETCHES: [(usize, usize); 8] = [
    (0, 16384),
    (16384, 16384),
    (255, 300_000),
    (1_048_570, 7),
    (1_048_570, 16384),
    (1_048_577, 16384),
    (2_000_000, 1),
    (5, 0),
];

/// A stretch is given in pieces of so many bytes at most.
fn gives(rt: &impl Abort, alloc: Global, start: usize, most: usize, piece: usize) {
    let disk = disk_of(rt, alloc, piece);
    disk.interrupts.set(1);
    let answer = from(rt, alloc, &disk, start, most);
    equal_at(rt, "a stretch", (start, most, piece), answer, Ok(true));
}

/// A stretch is given in pieces of any size.
fn gives_in_pieces(rt: &impl Abort, alloc: Global, start: usize, most: usize) {
    for piece in &PIECES {
        gives(rt, alloc, start, most, *piece);
    }
}

#[test]
fn from_a_place(rt: HostRuntime) {
    for (start, most) in &STRETCHES {
        gives_in_pieces(&rt, rt.alloc(), *start, *most);
    }
}

/// What a stretch gives where a call fails.
fn failing_from(rt: &impl Abort, alloc: Global, call: u64, due: Whole) {
    let disk = failing(rt, alloc, call);
    let answer = from(rt, alloc, &disk, 70_000, 250_000);
    equal_at(rt, "a stretch", call, answer, due);
}

#[test]
fn from_a_place_failing_at_each_call(rt: HostRuntime) {
    // A question, an opening, a step to the place, and three reads.
    for call in 1..7 {
        failing_from(&rt, rt.alloc(), call, Err(Fault::Shelf));
    }
    failing_from(&rt, rt.alloc(), 7, Ok(true));
}

/// What a file of a folder gives whose name or kind isn't that of a regular file inside it.
fn from_no_file(rt: &impl Abort, alloc: Global, name: &str, kind: Kind, due: Option<Fault>) {
    let disk = disk_with(rt, alloc, "d/a", kind, b"0123");
    let answer = read_inside_at(&disk, alloc, name, 1, 2).err();
    let fault = answer.map(|refusal| refusal.fault());
    equal_at(rt, "a file", (name, kind), fault, due);
}

#[test]
fn from_no_regular_file(rt: HostRuntime) {
    let refused = Some(Fault::Shelf);
    from_no_file(&rt, rt.alloc(), "a", Kind::File, None);
    from_no_file(&rt, rt.alloc(), "b", Kind::File, refused);
    from_no_file(&rt, rt.alloc(), "../a", Kind::File, refused);
    from_no_file(&rt, rt.alloc(), "a", Kind::Pipe, refused);
    from_no_file(&rt, rt.alloc(), "a", Kind::Folder, refused);
    from_no_file(&rt, rt.alloc(), "a", Kind::Turned, refused);
}

/// What a file of the system gives.
fn of_system<R: Files + Abort>(rt: &R, alloc: Global, path: &str) -> Whole {
    is_whole(rt, alloc, jk_files::read_file(rt, alloc, path))
}

#[test]
fn a_device(rt: HostRuntime) {
    let answer = of_system(&rt, rt.alloc(), "/dev/zero");
    equal(&rt, "a device", answer, Err(Fault::Shelf));
}

/// Whether the last bytes of a file of a folder of the system are given.
fn has_last<R: Files + Abort>(rt: &R, alloc: Global, folder: &str, name: &str) -> bool {
    let read = jk_files::read_inside_at(rt, alloc, folder, name, 1_048_574, 9);
    read.expect(rt, "a stretch").as_slice() == [254u8, 255, 7].as_slice()
}

/// Puts the megabyte into a folder of the system, and a link to it.
fn make_files<R: Files + Abort>(rt: &R, alloc: Global, folder: &str) {
    let file = within(rt, alloc, folder, "a");
    write(rt, file.as_str(), &megabyte(rt, alloc));
    link(rt, "a", within(rt, alloc, folder, "b").as_str());
}

/// What a file of a folder of the system gives.
fn inside_system<R: Files + Abort>(rt: &R, alloc: Global, folder: &str, name: &str) -> Whole {
    of_system(rt, alloc, within(rt, alloc, folder, name).as_str())
}

/// What a file of a folder gives, a link to it and the folder itself, and whether the last bytes are
/// given through the link.
fn found_in<R: Files + Abort>(rt: &R, alloc: Global, folder: &str) -> ([Whole; 3], bool) {
    make_files(rt, alloc, folder);
    let whole = inside_system(rt, alloc, folder, "a");
    let linked = inside_system(rt, alloc, folder, "b");
    let inner = of_system(rt, alloc, folder);
    ([whole, linked, inner], has_last(rt, alloc, folder, "b"))
}

#[test]
fn of_the_system(rt: HostRuntime) {
    let path = folder(&rt, rt.alloc(), process::id(rt.process()), "reading");
    let found = found_in(&rt, rt.alloc(), path.as_str());
    remove(&rt, rt.alloc(), path.as_str());
    let due = ([Ok(true), Ok(true), Err(Fault::Shelf)], true);
    equal(&rt, "a file, a link, a folder and a stretch", found, due);
}
