//! A session that was refused memory. With all its memory this test sees one that isn't; a script
//! beside the proofs refuses each growth in turn, and wants that its other end is met.

use crate::asserts::{equal, equal_at};
use jk_math::Fault;
use jk_web::{Next, Session};
use std::process::Abort;
use std::test::Fail;

/// A request in two pieces.
static PIECES: [&[u8]; 2] = [b"GET /images HT", b"TP/1.1\r\nHost: x\r\n\r\nGET /"];

/// A call was refused memory.
fn is_refused(rt: &impl Abort, fault: Option<Fault>) {
    let is_memory = matches!(fault, Some(Fault::Memory(_)));
    equal_at(rt, "refused", fault, is_memory, true);
}

/// A session that was refused memory gives no request from then on, and takes no bytes.
fn stays(rt: &impl Abort, session: &mut Session) -> Result<(), Fail> {
    for piece in &PIECES {
        is_refused(rt, session.feed(piece).err());
        is_refused(rt, session.next().err());
    }
    Err("it stayed refused".into())
}

#[test]
fn a_refused_session_stays_so(rt: HostRuntime) -> Result<(), Fail> {
    let mut session = Session::new(rt.alloc());
    let mut count: u32 = 0;
    for piece in &PIECES {
        if session.feed(piece).is_err() {
            return stays(&rt, &mut session);
        }
        match session.next() {
            Ok(Next::Request(_)) => count = count.saturating_add(1),
            Ok(_) => {}
            Err(_) => return stays(&rt, &mut session),
        }
    }
    equal(&rt, "requests", count, 1);
    Ok(())
}
