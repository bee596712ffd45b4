//! How writing a window ends.

use crate::stored::calls::{COLUMN, WINDOW, file_of, view};
use jk_math::Fault;
use jk_stored::{MemoryStored, decode_stored_window, decode_stored_window_into};
use std::alloc::Global;
use std::io::{self, ErrorKind, Write};
use std::process::Abort;
use vectors::equal;

/// Takes nothing.
#[derive(Drop)]
struct Full {
    asked: usize,
}

impl Write for Full {
    fn write(&mut self, _bytes: &[u8]) -> io::Result<usize> {
        self.asked = self.asked.saturating_add(1);
        Err(io::Error::from(ErrorKind::StorageFull))
    }

    fn flush(&mut self) -> io::Result<()> {
        Ok(())
    }
}

/// A pixel of two components, which has no PGM or PPM file.
static PAIR: &str =
    "FF4F FF51 002C 0000 00000001 00000001 00000000 00000000 00000001 00000001 00000000 00000000 0002 07 01 01 07 01 01 FF52 000C 00 00 0001 00 00 04 04 00 01 FF5C 0004 40 40 FF90 000A 0000 00000010 00 01 FF93 0000 FFD9";

/// How the window of a pixel at the top of a file is written, and how often a full writer is asked.
fn written(rt: &impl Abort, alloc: Global, text: &str) -> (Option<Result<(), Fault>>, usize) {
    let bytes = file_of(rt, alloc, &[text]);
    let size = bytes.len();
    let mut full = Full { asked: 0 };
    let stored = MemoryStored::new(bytes);
    let end = decode_stored_window_into(alloc, stored, size, view(0, 0, 0, 1, 1), &mut full);
    (end, full.asked)
}

/// A write that fails is told; an image that has no file isn't written, and is to be told of by what
/// reads all bytes.
#[test]
fn writes_that_fail(rt: HostRuntime) {
    let alloc = rt.alloc();
    equal(written(&rt, alloc, COLUMN), (Some(Err(Fault::Shelf)), 1)).expect(&rt, "a full writer");
    equal(written(&rt, alloc, PAIR), (None, 0)).expect(&rt, "no file");
    let pair = file_of(&rt, alloc, &[PAIR]);
    let size = pair.len();
    let image = decode_stored_window(alloc, MemoryStored::new(pair), size, view(0, 0, 0, 1, 1));
    equal(image.is_some(), true).expect(&rt, "an image");
}

/// What is written stands behind what was there.
#[test]
fn written_behind(rt: HostRuntime) {
    let alloc = rt.alloc();
    let bytes = file_of(&rt, alloc, &[COLUMN]);
    let size = bytes.len();
    let mut text = file_of(&rt, alloc, &["AA"]);
    let stored = MemoryStored::new(bytes);
    let end = decode_stored_window_into(alloc, stored, size, WINDOW, &mut text);
    equal(end, Some(Ok(()))).expect(&rt, "an end");
    let due = file_of(&rt, alloc, &["AA 50350A 312033 0A 323535 0A 68 69 60"]);
    equal(text.as_slice() == due.as_slice(), true).expect(&rt, "a file");
}
