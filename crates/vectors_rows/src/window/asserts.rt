//! What a test claims. A claim made through these functions costs the proof of a test one call.

use std::fmt::Debug;
use std::process::Abort;

/// Two values are equal.
pub(crate) fn equal<T: PartialEq + Debug + Copy>(rt: &impl Abort, what: &str, found: T, due: T) {
    vectors::equal(found, due).expect(rt, what);
}

/// Two values are equal, in this case of several.
pub(crate) fn equal_at<C: Debug + Copy, T: PartialEq + Debug + Copy>(
    rt: &impl Abort,
    what: &str,
    case: C,
    found: T,
    due: T,
) {
    vectors::equal_at(case, found, due).expect(rt, what);
}
