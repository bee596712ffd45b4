//! A hospital's night: slices of 12 and of 15 bits are encoded and decoded.

use crate::calls::{decoded, encoded, plain};
use crate::digest::Digest;
use crate::drawing::slice;
use crate::scale::Scale;
use jk_math::Fault;
use std::alloc::Global;

/// Slices of a body, each encoded and decoded, every other one at half its size.
pub(crate) fn slices(alloc: Global, seed: u64, scale: Scale) -> Result<Digest, Fault> {
    let mut digest = Digest::new();
    for number in 0..scale.count(18) {
        let bits = if number % 3 == 0 { 15 } else { 12 };
        let drawn = slice(
            alloc,
            seed ^ (number as u64) << 33,
            scale.size(512, 512),
            bits,
        )?;
        let file = encoded(alloc, drawn, plain(alloc))?;
        digest.take(&file);
        digest.take(&decoded(alloc, &file, number & 1)?);
    }
    Ok(digest)
}
