//! A writer, and what its readers see.

use crate::calls::{another, entry_of_b, equal, opened_for_one, refusal, replied, settle, shelf};
use jk_hall::{Hall, Reader};
use jk_math::Fault;
use jk_store::MemoryShelf;
use std::alloc::Global;
use std::process::Abort;
use std::sync::Wait;

/// The status of a reader's reply to a request for this target.
fn status(
    rt: &impl Abort,
    alloc: Global,
    reader: &mut Reader,
    files: &mut MemoryShelf,
    target: &[u8],
) -> u16 {
    replied(rt, alloc, reader, files, target).status
}

#[test]
fn a_published_image_is_seen(rt: HostRuntime) {
    let alloc = rt.alloc();
    let entry = entry_of_b(&rt, alloc);
    let mut files = shelf(&rt, alloc);
    let (mut writer, mut reader) = opened_for_one(&rt, alloc, &["a"]);
    let before = status(&rt, alloc, &mut reader, &mut files, b"/images/b");
    let first = refusal(&rt, &mut writer, another(&rt, &entry));
    let behind = status(&rt, alloc, &mut reader, &mut files, b"/images/b");
    let other = status(&rt, alloc, &mut reader, &mut files, b"/images/a");
    let again = refusal(&rt, &mut writer, entry);
    settle(&rt, &mut writer);
    let waiting = writer.waiting();
    writer.close(&rt);
    equal(&rt, (first, again), (None, Some(Fault::NameTaken)));
    equal(&rt, (before, behind, other), (404, 200, 200));
    equal(&rt, waiting, 0);
}

/// What is said to a hall of so many readers.
fn refused<R: Wait>(rt: &R, alloc: Global, workers: usize) -> Option<Fault> {
    match Hall::new(rt, alloc, workers, Vec::new(alloc)) {
        Ok((writer, _)) => {
            writer.close(rt);
            None
        }
        Err(fault) => Some(fault),
    }
}

#[test]
fn one_to_sixty_four_readers(rt: HostRuntime) {
    let alloc = rt.alloc();
    equal(&rt, refused(&rt, alloc, 0), Some(Fault::BadParameters));
    equal(&rt, refused(&rt, alloc, 1), None);
    equal(&rt, refused(&rt, alloc, 64), None);
    equal(&rt, refused(&rt, alloc, 65), Some(Fault::BadParameters));
}
