//! What a test claims. A claim through one of these calls costs the proof of a test one call; a
//! comparison of its own costs it the types of both values and what is told where they differ.

use jk_math::Fault;
use std::alloc::{AllocError, Global};
use std::process::Abort;
use vectors::equal_at;

/// Bytes are these.
pub(crate) fn are(rt: &impl Abort, case: &str, found: &[u8], due: &[u8]) {
    equal_at(case, found, due).expect(rt, "bytes");
}

/// A text is this one.
pub(crate) fn says(rt: &impl Abort, case: &str, found: &str, due: &str) {
    equal_at(case, found, due).expect(rt, "a text");
}

/// The name of a fault.
fn name_of(alloc: Global, fault: Fault) -> Result<String, AllocError> {
    format!(in alloc; "{fault:?}")
}

/// Something is refused for the fault of this name.
pub(crate) fn refuses(rt: &impl Abort, alloc: Global, case: &str, fault: Option<Fault>, due: &str) {
    match fault {
        Some(fault) => {
            let name = name_of(alloc, fault).expect(rt, "a name");
            says(rt, case, name.as_str(), due);
        }
        None => says(rt, case, "no fault", due),
    }
}
