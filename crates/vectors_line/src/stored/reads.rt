//! Reads that fail or come short, and files that have another length than is told.

use crate::stored::calls::{COLUMN, WINDOW, WINDOW_TEXT, are_same, file_of, shown, view};
use jk_math::Fault;
use jk_stored::{MemoryStored, Stored};
use std::alloc::Global;
use std::process::Abort;
use std::sync::atomic::{AtomicUsize, Ordering};
use vectors::equal_at;

/// A file in memory, of which one read fails, or has one byte less than there are.
#[derive(Drop)]
struct Broken {
    bytes: MemoryStored,
    /// How many reads are made before that.
    left: AtomicUsize,
    is_short: bool,
}

impl Stored for Broken {
    ghost keeps = { λ _ _. ⊥ };

    fn read_at(&self, start: usize, room: &mut [u8]) -> Result<usize, Fault> {
        let left = self.left.fetch_sub(1, Ordering::SeqCst);
        if left != 0 {
            return self.bytes.read_at(start, room);
        }
        if !self.is_short {
            return Err(Fault::Shelf);
        }
        let count = self.bytes.read_at(start, room)?;
        Ok(count.saturating_sub(1))
    }
}

/// The window of the column where a read fails or comes short, and so many are made before it.
fn shown_where(rt: &impl Abort, alloc: Global, left: usize, is_short: bool) -> Option<Vec<u8>> {
    let bytes = file_of(rt, alloc, &[COLUMN]);
    let size = bytes.len();
    let stored = Broken {
        bytes: MemoryStored::new(bytes),
        left: AtomicUsize::new(left),
        is_short,
    };
    shown(alloc, stored, size, WINDOW)
}

/// Of the column five reads are made: of its front, of the front of its tile-part, twice of what may
/// be EOC, and of the packets. Where one fails the window isn't known. Where one comes short it isn't
/// known either, or is the same.
#[test]
fn reads_that_fail(rt: HostRuntime) {
    let alloc = rt.alloc();
    let due = Some(file_of(&rt, alloc, &[WINDOW_TEXT]));
    for left in 0..7 {
        let found = shown_where(&rt, alloc, left, false);
        let seen = (found.is_some(), are_same(&found, &due));
        equal_at(left, seen, (left > 4, left > 4)).expect(&rt, "a read that fails");
        let found = shown_where(&rt, alloc, left, true);
        let seen = found.is_none() || are_same(&found, &due);
        equal_at(left, seen, true).expect(&rt, "a read that comes short");
    }
}

/// A window isn't known of a file that has more or fewer bytes than is told, nor outside of the image.
#[test]
fn wrong_lengths_and_windows(rt: HostRuntime) {
    let alloc = rt.alloc();
    for (size, seen) in [
        (0, WINDOW),
        (1, WINDOW),
        (99, WINDOW),
        (101, WINDOW),
        (100, view(0, 1, 0, 1, 1)),
        (100, view(0, 0, 0, 0, 1)),
        (100, view(2, 0, 0, 1, 1)),
    ] {
        let bytes = file_of(&rt, alloc, &[COLUMN]);
        let found = shown(alloc, MemoryStored::new(bytes), size, seen);
        equal_at((size, seen), found.is_none(), true).expect(&rt, "no window");
    }
}
