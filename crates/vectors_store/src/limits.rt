//! How many images an archive may have.

use crate::asserts::equal;
use crate::calls::{self, add_prepared, bytes, open, plain, prepared, refusal_with};
use crate::contents::Content;
use crate::shelves::alike;
use jk_math::Fault;
use jk_params::Container;
use std::alloc::Global;
use std::process::Abort;

/// The faults of adding to an archive of 4,096 images, and how many there are then.
fn add_to_full(rt: &impl Abort, alloc: Global) -> ([Option<Fault>; 6], usize) {
    let bytes = bytes(rt, alloc, Content::Page);
    let raw = plain(alloc, Container::Raw);
    let mut archive = open(rt, alloc, alike(4096, bytes));
    let faults = [
        refusal_with(rt, &mut archive, alloc, "A", &raw),
        refusal_with(rt, &mut archive, alloc, "4095", &raw),
        refusal_with(rt, &mut archive, alloc, "4096", &raw),
        add_prepared(&mut archive, alloc, prepared(rt, alloc, "A", &raw, None)).err(),
        add_prepared(&mut archive, alloc, prepared(rt, alloc, "4095", &raw, None)).err(),
        add_prepared(&mut archive, alloc, prepared(rt, alloc, "4096", &raw, None)).err(),
    ];
    (faults, archive.list().len())
}

#[test]
fn full_archives(rt: HostRuntime) {
    let answer = add_to_full(&rt, rt.alloc());
    let faults = [
        Some(Fault::BadName),
        Some(Fault::NameTaken),
        Some(Fault::Limit),
        Some(Fault::BadName),
        Some(Fault::NameTaken),
        Some(Fault::Limit),
    ];
    equal(&rt, answer, (faults, 4096));
}

/// Why an archive of so many images can't be opened.
fn opened(rt: &impl Abort, alloc: Global, count: u16) -> Option<Fault> {
    let bytes = bytes(rt, alloc, Content::Page);
    calls::opened(alloc, alike(count, bytes)).err()
}

#[test]
fn one_image_too_many(rt: HostRuntime) {
    let answer = opened(&rt, rt.alloc(), 4097);
    equal(&rt, answer, Some(Fault::Limit));
}
