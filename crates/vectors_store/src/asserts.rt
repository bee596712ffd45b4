//! What a test claims. A claim made through these functions costs the proof of a test one call; one
//! of its own costs it the comparison and the text of both values.

use std::fmt::Debug;
use std::process::Abort;

/// Two values are equal.
pub(crate) fn equal<T: PartialEq + Debug + Copy>(rt: &impl Abort, found: T, due: T) {
    vectors::equal(found, due).expect(rt, "equal values");
}

/// Two values are equal, in this case of several.
pub(crate) fn equal_at<C: Debug + Copy, T: PartialEq + Debug + Copy>(
    rt: &impl Abort,
    case: C,
    found: T,
    due: T,
) {
    vectors::equal_at(case, found, due).expect(rt, "equal values");
}
