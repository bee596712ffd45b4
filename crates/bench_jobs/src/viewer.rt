//! The eye at a viewer: windows of a large image, decoded.

use crate::calls::{Asked, cut_of, encoded, view_at, window_of, with_windows};
use crate::chance::Chance;
use crate::digest::Digest;
use crate::drawing::Slide;
use crate::scale::Scale;
use jk_math::Fault;
use std::alloc::Global;

/// A slide is encoded with windows. Windows of it are decoded at all reductions, out of the stored
/// file and out of files that were cut.
pub(crate) fn viewer(alloc: Global, seed: u64, scale: Scale) -> Result<Digest, Fault> {
    let mut digest = Digest::new();
    let size = scale.size(4096, 4096);
    let Slide { bytes, cells } = Slide::new(alloc, seed, size)?;
    let file = encoded(alloc, bytes, with_windows(alloc))?;
    digest.take(&file);
    let mut chance = Chance::new(seed, 20);
    let mut asked = Asked::new(alloc);
    for number in 0..scale.count(44) {
        let side = if number % 2 == 0 { 512 } else { 256 };
        let view = view_at(&mut chance, &cells, size, number % 5, side, None);
        if asked.first(0, view)? {
            digest.take_image(&window_of(alloc, &file, view)?);
        }
        let layers = if number % 4 == 1 { None } else { Some(4) };
        let view = view_at(&mut chance, &cells, size, number % 3, side, layers);
        if asked.first(1, view)? {
            let cut = cut_of(alloc, &file, view)?;
            digest.take(&cut);
            digest.take_image(&window_of(alloc, &cut, view)?);
        }
    }
    Ok(digest)
}
