//! The digests of the files of an archive that is opened, three or four of which are made at once.
//! While files wait for others, what they take counts against what may be held: the room of their
//! bytes, of which the tests touch little.

use crate::asserts::equal_at;
use crate::calls::{bytes, open, put};
use crate::contents::Content;
use crate::shelves::{Roomed, Roomy};
use sha2::{Digest, Sha256};
use std::alloc::Global;
use std::process::Abort;
use std::rt::Files;
use vectors::{drawn, kilobytes};

/// The JP2 file of one sample, and behind it a box of so many bytes of text (T.800 I.7.1).
pub(crate) fn noted(rt: &impl Abort, alloc: Global, size: u32) -> Vec<u8> {
    let mut file = bytes(rt, alloc, Content::Page);
    put(rt, &mut file, &size.saturating_add(8).to_be_bytes());
    put(rt, &mut file, b"xml ");
    let mut state = size;
    for _ in 0..size {
        state = drawn(state);
        file.push((state >> 24) as u8).expect(rt, "room");
    }
    file
}

/// A shelf of files with texts of these sizes, in these rooms, and the digests that the library makes
/// of them.
fn shelf_of(rt: &impl Abort, alloc: Global, files: &[(u32, usize)]) -> (Roomy, Vec<u8>) {
    let mut shelf = Roomy {
        files: Vec::new(alloc),
    };
    let mut due = Vec::new(alloc);
    for (size, room) in files {
        let bytes = noted(rt, alloc, *size);
        put(rt, &mut due, &Sha256::digest(&bytes));
        shelf
            .files
            .push(Roomed { bytes, room: *room })
            .expect(rt, "room");
    }
    (shelf, due)
}

/// The digests of the entries of an archive of a shelf.
fn digests(rt: &impl Abort, alloc: Global, shelf: Roomy) -> Vec<u8> {
    let archive = open(rt, alloc, shelf);
    let mut found = Vec::new(alloc);
    for entry in archive.list() {
        put(rt, &mut found, &entry.digest);
    }
    found
}

/// Where an archive of files with texts of these sizes, in these rooms, is opened, each entry has the
/// digest that the library makes of its file.
fn compare(rt: &impl Abort, alloc: Global, files: &[(u32, usize)]) {
    let (shelf, due) = shelf_of(rt, alloc, files);
    let found = digests(rt, alloc, shelf);
    equal_at(rt, files.len(), found.as_slice(), due.as_slice());
}

/// How long the texts of files are, without room for more.
static SIZES: [(u32, usize); 9] = [
    (0, 0),
    (300, 0),
    (55, 0),
    (20_000, 0),
    (1, 0),
    (64, 0),
    (4_000, 0),
    (700, 0),
    (9, 0),
];

#[test]
fn one_file_to_nine(rt: HostRuntime) {
    for count in 0..10 {
        compare(&rt, rt.alloc(), &SIZES[..count]);
    }
}

/// Texts and rooms by which one file, two, three and four take more bytes than wait for others.
static LONG: [&[(u32, usize)]; 5] = [
    &[(5_000, (1 << 25) + 175), (1, 0)],
    &[(300, (1 << 24) + 175), (64, (1 << 24) + 175), (3, 0)],
    &[(55, 12 << 20), (4_000, 11 << 20), (700, 10 << 20), (7, 0)],
    &[
        (9, 9 << 20),
        (20_000, 9 << 20),
        (56, 9 << 20),
        (2, 9 << 20),
        (5, 0),
    ],
    &[(1, 0), (5_000, (1 << 25) + 175), (2, 0)],
];

#[test]
fn more_bytes_than_wait(rt: HostRuntime) {
    for files in &LONG {
        compare(&rt, rt.alloc(), files);
    }
}

/// So many files of one sample, each in so many MiB of room.
fn large(rt: &impl Abort, alloc: Global, count: u32, size: usize) -> Roomy {
    let mut shelf = Roomy {
        files: Vec::new(alloc),
    };
    for number in 0..count {
        shelf
            .files
            .push(Roomed {
                bytes: noted(rt, alloc, number),
                room: size.saturating_mul(1 << 20),
            })
            .expect(rt, "room");
    }
    shelf
}

/// Takes so much room and lets it go, again and again. An allocator may keep what was let go for a
/// while: behind this it has had its fill, and what more the process takes is held.
fn fill(rt: &impl Abort, alloc: Global, room: usize) {
    for _ in 0..(1 << 29) / room.max(1) {
        let _: Vec<u8> = Vec::with_capacity(alloc, room).expect(rt, "room");
    }
}

/// How many images an archive of such files lists, and how many kilobytes it takes while it is opened,
/// beside the files of its shelf.
fn taken<R: Files + Abort>(rt: &R, alloc: Global, count: u32, size: usize) -> (usize, u64) {
    let shelf = large(rt, alloc, count, size);
    fill(rt, alloc, size.saturating_mul(1 << 20));
    let first = kilobytes(rt, alloc, "VmSize:").expect(rt, "kilobytes");
    let archive = open(rt, alloc, shelf);
    let last = kilobytes(rt, alloc, "VmPeak:").expect(rt, "kilobytes");
    (archive.list().len(), last.saturating_sub(first))
}

/// Of files that take more bytes each than wait, one is held at a time.
#[test]
fn no_large_file_waits(rt: HostRuntime) {
    let (listed, more) = taken(&rt, rt.alloc(), 3, 33);
    equal_at(&rt, more, (listed, more < 50 << 10), (3, true));
}

/// Of files that take more bytes together than wait, though none does by itself, two are held.
#[test]
fn few_bytes_wait(rt: HostRuntime) {
    let (listed, more) = taken(&rt, rt.alloc(), 4, 20);
    equal_at(&rt, more, (listed, more < 60 << 10), (4, true));
}
