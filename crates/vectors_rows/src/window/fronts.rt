//! Fronts of files: no shorter one is a file.

use crate::window::asserts::{equal, equal_at};
use crate::window::calls::{cut, decode, file_of, index, index_of, view};
use crate::window::cuts::{COLUMN, PAGE, PASSED, SMALL};
use jk_math::Fault;
use jk_window::Index;
use std::alloc::Global;
use std::process::Abort;

/// What `index` and `decode` answer of a front, and `cut` by the index of the whole file.
fn faults(alloc: Global, whole: &Index, front: &[u8]) -> [Option<Fault>; 3] {
    [
        index(alloc, front).err(),
        decode(alloc, front, 0).err(),
        cut(alloc, whole, front, view(0, 0, 0, 1, 1)).err(),
    ]
}

/// The boxes in front of the codestream of one grey sample.
static BOXES: &str =
    "0000000C 6A502020 0D0A870A 00000014 66747970 6A703220 00000000 6A703220 0000002D 6A703268 00000016 69686472 00000001 00000001 0001 07 07 00 00 0000000F 636F6C72 01 00 00 00000011 0000005A 6A703263";

/// The tile-part of 2 by 2 samples.
static SMALL_PART: &str = "FF90 000A 0000 00000018 00 01 FF93 C0 21 03 C0 10 A0 04 20 03 07 FFD9";

/// TLM and the tile-part of one sample behind segments that are passed over.
static PASSED_PART: &str =
    "FF55 0008 00 40 00000017 FF90 000A 0000 00000017 00 01 FF58 0004 00 03 FF93 C0 21 03 FFD9";

/// Where a whole box ends in front of the codestream, the boxes that are due are missing.
static ENDS: [usize; 3] = [12, 32, 77];

/// What a front of a file is refused for.
fn due_of(length: usize, count: usize) -> Fault {
    if length == 167 && ENDS.contains(&count) {
        Fault::BadBox
    } else {
        Fault::Truncated
    }
}

/// Each front of a file of so many bytes is refused.
fn refused(rt: &impl Abort, alloc: Global, texts: &[&str], length: usize) {
    let file = file_of(rt, alloc, texts);
    equal(rt, "bytes", file.len(), length);
    let whole = index_of(rt, alloc, &file);
    for count in 0..file.len() {
        let due = Some(due_of(length, count));
        let answer = faults(alloc, &whole, &file[..count]);
        let wanted = [due, due, Some(Fault::Changed)];
        equal_at(rt, "a front", (length, count), answer, wanted);
    }
}

#[test]
fn shorter_files(rt: HostRuntime) {
    refused(&rt, rt.alloc(), &[COLUMN], 100);
    refused(&rt, rt.alloc(), &[SMALL, SMALL_PART], 94);
    refused(&rt, rt.alloc(), &[PASSED, PASSED_PART], 115);
    refused(&rt, rt.alloc(), &[BOXES, PAGE], 167);
}
