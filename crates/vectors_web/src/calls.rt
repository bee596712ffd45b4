//! The calls that the tests make of a session. What a call promises is left out: a test says what is
//! answered, and proves nothing by it.

use jk_web::{NamedResource, Next, Session, resource_of};
use std::process::Abort;

/// Bytes come.
pub(crate) fn feed(rt: &impl Abort, session: &mut Session, bytes: &[u8]) {
    session.feed(bytes).expect(rt, "bytes");
}

/// What is asked next.
pub(crate) fn next(rt: &impl Abort, session: &mut Session) -> Next {
    session.next().expect(rt, "a request")
}

/// What a path names.
pub(crate) fn named(path: &[u8]) -> NamedResource<'_> {
    resource_of(path)
}
