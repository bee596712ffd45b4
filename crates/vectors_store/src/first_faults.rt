//! Which fault ends the opening of an archive where files wait for their digests.

use crate::asserts::{equal, equal_at};
use crate::calls::{bytes, opened, write};
use crate::contents::Content;
use crate::shelves::{Act, Many, act_at};
use jk_math::Fault;
use jk_store::MemoryShelf;
use std::alloc::Global;
use std::process::Abort;

/// Why an archive isn't opened whose first so many files can be read, and the one behind them can't.
fn unread_behind(rt: &impl Abort, alloc: Global, count: u64) -> Option<Fault> {
    let page = bytes(rt, alloc, Content::Page);
    let mut shelf = MemoryShelf::new(alloc);
    for number in 0..count.saturating_add(1) {
        let name = format!(in alloc; "{number}.jp2").expect(rt, "a name");
        write(rt, &mut shelf, alloc, name.as_str(), &page);
    }
    // Behind the listing and as many reads.
    let failing = act_at(shelf, count.saturating_add(2), Act::Fail);
    opened(alloc, failing).err()
}

#[test]
fn a_file_that_cant_be_read(rt: HostRuntime) {
    for count in 0..6 {
        equal_at(
            &rt,
            count,
            unread_behind(&rt, rt.alloc(), count),
            Some(Fault::Shelf),
        );
    }
}

/// Why an archive of 4,097 files isn't opened, three of which wait when the last one is read: the
/// first takes so much that it doesn't wait. Wherever a growth is refused, Memory is told, and not
/// Limit: a script beside the proofs refuses them in turn.
fn too_many(rt: &impl Abort, alloc: Global) -> Option<Fault> {
    let shelf = Many {
        count: 4097,
        room: (1 << 25) + 1,
        bytes: bytes(rt, alloc, Content::Page),
    };
    opened(alloc, shelf).err()
}

#[test]
fn one_file_too_many(rt: HostRuntime) {
    equal(&rt, too_many(&rt, rt.alloc()), Some(Fault::Limit));
}
