//! An archive whose addition was refused memory. With all its memory this test sees an image added
//! as ever; a script beside the proofs refuses each growth in turn, and wants that its other end is
//! met.

use crate::asserts::equal;
use crate::calls::{archive_of, open, refusal};
use crate::contents::Content;
use jk_math::Fault;
use std::alloc::Global;
use std::process::Abort;
use std::test::Fail;

/// What is said to an addition; how many images are listed behind it, and in an archive of the same
/// shelf that is opened anew; what is said to the same addition there; and how many are listed in
/// the end.
type Said = (Option<Fault>, (usize, usize), Option<Fault>, usize);

fn added_twice(rt: &impl Abort, alloc: Global) -> Said {
    let mut archive = archive_of(rt, alloc, &[("a.jp2", Content::Page)]);
    let said = refusal(rt, &mut archive, alloc, "b", 129);
    let behind = archive.list().len();
    let mut anew = open(rt, alloc, archive.into_shelf());
    let found = anew.list().len();
    let again = refusal(rt, &mut anew, alloc, "b", 129);
    (said, (behind, found), again, anew.list().len())
}

/// Where the addition was refused memory, the list is as before, and so is the shelf's; then the
/// image can be added.
fn judged(rt: &impl Abort, said: Said) -> Result<(), Fail> {
    let (said, listed, again, last) = said;
    equal(rt, last, 2);
    if matches!(said, Some(Fault::Memory(_))) {
        equal(rt, (listed, again), ((1, 1), None));
        return Err("it wasn't added and was added again".into());
    }
    equal(
        rt,
        (said, listed, again),
        (None, (2, 2), Some(Fault::NameTaken)),
    );
    Ok(())
}

#[test]
fn a_refused_addition_changes_nothing(rt: HostRuntime) -> Result<(), Fail> {
    judged(&rt, added_twice(&rt, rt.alloc()))
}
