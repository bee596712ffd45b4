//! What tells that a file has changed.

use crate::place::place;
use crate::refusal::Refusal;
use std::alloc::Global;
use std::os::unix::fs::MetadataExt;
use std::rt::Files;
use std::time::{Duration, UNIX_EPOCH};

/// How long a file is, when its bytes were written last, and when its bytes, its mode or its owner
/// changed last, in seconds and nanoseconds since 1970: where all are the same the file is taken to be
/// as it was.
#[derive(Clone, Copy, Debug, PartialEq, Eq)]
pub struct Stamp {
    pub length: u64,
    pub seconds: u64,
    pub nanos: u32,
    pub changed: i64,
    pub changed_nanos: i64,
}

/// The stamp of what stands in a folder under a name, links followed. It isn't opened.
///
/// System: nothing stands there, or the system doesn't tell.
pub fn stamp_of<R: Files>(
    rt: &R,
    alloc: Global,
    folder: &str,
    name: &str,
) -> Result<Stamp, Refusal> {
    let path = place(alloc, folder, name)?;
    let metadata = rt.metadata(path.as_str())?;
    let since = metadata
        .modified()?
        .duration_since(UNIX_EPOCH)
        .unwrap_or(Duration::ZERO);
    Ok(Stamp {
        length: metadata.len(),
        seconds: since.as_secs(),
        nanos: since.subsec_nanos(),
        changed: metadata.ctime(),
        changed_nanos: metadata.ctime_nsec(),
    })
}
