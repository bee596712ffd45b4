//! What is published, and what waits, behind a publish that was refused memory.
//!
//! With all their memory these tests see an image published as ever. A script beside the proofs
//! refuses each growth in turn, and wants that each of their other ends is met.

use crate::calls::{
    another, equal, opened_for_one, page_entries, page_shelf, refusal, replied, settle,
};
use jk_hall::{Reader, Writer};
use jk_math::Fault;
use jk_store::Entry;
use std::alloc::Global;
use std::process::Abort;
use std::sync::{Arc, Wait};
use std::test::Fail;

/// The names of the images that are listed from the start: as many as a list has room for when it is
/// made, so that it grows where one more is shown.
static LISTED: [&str; 4] = ["a", "b", "c", "d"];

/// The names of those that are published, in this order.
static NAMES: [&str; 2] = ["e", "f"];

/// The ends of the lists of the first four of them, of five and of all.
static LISTS: [&[u8]; 3] = [
    b"\nb 1 1 1 8 0\nc 1 1 1 8 0\nd 1 1 1 8 0\n",
    b"\nb 1 1 1 8 0\nc 1 1 1 8 0\nd 1 1 1 8 0\ne 1 1 1 8 0\n",
    b"\nb 1 1 1 8 0\nc 1 1 1 8 0\nd 1 1 1 8 0\ne 1 1 1 8 0\nf 1 1 1 8 0\n",
];

/// How many images a reader lists, or none where it is another list.
fn listed(rt: &impl Abort, alloc: Global, reader: &mut Reader) -> usize {
    let mut files = page_shelf(rt, alloc, &[]);
    let reply = replied(rt, alloc, reader, &mut files, b"/images");
    let mut count: usize = 3;
    for list in &LISTS {
        count = count.saturating_add(1);
        if reply.bytes.as_slice().ends_with(list) {
            return count;
        }
    }
    0
}

/// What is said to the publish of an image; how many are listed and wait behind it; what is said to
/// its second publish; and how many are listed and wait in the end.
type Told = (Option<Fault>, (usize, usize), Option<Fault>, (usize, usize));

/// That of an image, behind which the next one is published, or else what waits.
fn told<R: Wait + Abort>(
    rt: &R,
    alloc: Global,
    writer: &mut Writer,
    reader: &mut Reader,
    entry: Arc<Entry>,
    next: Option<Arc<Entry>>,
) -> Told {
    let another = another(rt, &entry);
    let said = refusal(rt, writer, entry);
    let behind = (listed(rt, alloc, reader), writer.waiting());
    let again = refusal(rt, writer, another);
    match next {
        Some(next) => equal(rt, refusal(rt, writer, next), None),
        None => settle(rt, writer),
    }
    let last = (listed(rt, alloc, reader), writer.waiting());
    (said, behind, again, last)
}

/// The same in a new hall, of the first image and, if there is to be a next one, the second.
fn told_anew<R: Wait + Abort>(rt: &R, alloc: Global, has_next: bool) -> Told {
    let mut entries = page_entries(rt, alloc, &NAMES);
    let last = entries.pop();
    let first = entries.pop().expect(rt, "an entry");
    let (mut writer, mut reader) = opened_for_one(rt, alloc, &LISTED);
    let next = if has_next { last } else { None };
    let told = told(rt, alloc, &mut writer, &mut reader, first, next);
    writer.close(rt);
    told
}

/// Where the publish was refused memory, the list is the old one. An image that waits then is taken,
/// and shown with what comes behind it; one that doesn't is published by the second call.
fn judged(rt: &impl Abort, told: Told, count: usize) -> Result<(), Fail> {
    let (said, behind, again, last) = told;
    equal(rt, last, (count, 0));
    match (said, behind.1) {
        (Some(Fault::Memory(_)), 1) => {
            equal(rt, (behind.0, again), (4, Some(Fault::NameTaken)));
            Err("it waited and was shown".into())
        }
        (Some(Fault::Memory(_)), _) => {
            equal(rt, (behind, again), ((4, 0), None));
            Err("it didn't wait and was published again".into())
        }
        _ => {
            equal(
                rt,
                (said, behind, again),
                (None, (5, 0), Some(Fault::NameTaken)),
            );
            Ok(())
        }
    }
}

#[test]
fn what_waits_is_settled(rt: HostRuntime) -> Result<(), Fail> {
    judged(&rt, told_anew(&rt, rt.alloc(), false), 5)
}

#[test]
fn what_waits_is_published_with_the_next(rt: HostRuntime) -> Result<(), Fail> {
    judged(&rt, told_anew(&rt, rt.alloc(), true), 6)
}
