//! A library's night: photographs and pages are encoded and decoded.

use crate::calls::{decoded, encoded, plain, with_windows};
use crate::digest::Digest;
use crate::drawing::{page, photograph};
use crate::scale::Scale;
use jk_math::Fault;
use std::alloc::Global;

/// A photograph in colour and a page of text: each is encoded and decoded, the photograph once more
/// reduced.
pub(crate) fn scan(alloc: Global, seed: u64, scale: Scale) -> Result<Digest, Fault> {
    let mut digest = Digest::new();
    let size = scale.size(1600, 1300);
    let file = encoded(alloc, photograph(alloc, seed, size)?, plain(alloc))?;
    digest.take(&file);
    digest.take(&decoded(alloc, &file, 0)?);
    digest.take(&decoded(alloc, &file, 2)?);
    let size = scale.size(1240, 1754);
    let file = encoded(alloc, page(alloc, seed, size)?, with_windows(alloc))?;
    digest.take(&file);
    digest.take(&decoded(alloc, &file, 0)?);
    Ok(digest)
}
