//! How much of a stored codestream a window needs.

ghost use Rattle.std.specs.Prelude.{ℕ, ◌<◌};
ghost use Rattle.jk_marks.specs.Siz.{tile_count};
ghost use Rattle.jk_params.specs.Headers.{AreHeaders};
ghost use Rattle.jk_geom.specs.TileShapes.{IsTileShape};

use crate::making::Sight;
use crate::outline::PartSize;
use jk_geom::{TileShape, is_empty, meet, precinct_count};
use jk_math::Rect;
use jk_params::Codestream;
use jk_walk::shape_of;

/// A codestream of so many bytes is soon at hand as a whole.
const SMALL: usize = 1 << 20;

/// Of so many bytes those of the precincts that a stretch meets, one after another in a whole.
fn share(bytes: u64, stretch: u32, whole: u32, precincts: u32) -> u64 {
    let count = precincts.max(1);
    let size = (whole / count).max(1);
    let met = (stretch / size).saturating_add(1).min(count);
    (bytes / count as u64).saturating_mul(met as u64)
}

/// How many of a tile's bytes a window on it needs that isn't reduced, by the precincts of the
/// highest resolution: most bytes are its own.
fn tile_share(shape: &TileShape, seen: &Rect, size: usize) -> u64
    requires { IsTileShape shape.now }
{
    let Some(coding) = shape.codings.as_slice().first() else {
        return 0;
    };
    if is_empty(seen) {
        return 0;
    }
    let rect = &shape.rect;
    let (across, down) = precinct_count(rect, coding, coding.levels);
    let (width, height) = (
        seen.x1.saturating_sub(seen.x0),
        seen.y1.saturating_sub(seen.y0),
    );
    let wide = share(size as u64, width, rect.x1.saturating_sub(rect.x0), across);
    share(wide, height, rect.y1.saturating_sub(rect.y0), down)
}

/// Whether a window is likely to need more than half of a codestream of so many bytes, whose
/// tile-parts have these sizes: as where it isn't reduced, and each resolution has one precinct. All of
/// a small one is soon at hand.
pub(crate) fn needs_most(
    headers: &Codestream,
    parts: &[PartSize],
    sight: Sight,
    size: usize,
) -> bool
    requires { (size : ℕ) × AreHeaders size headers.now }
{
    if sight.reduce > 0 || size <= SMALL {
        return false;
    }
    let mut needed: u64 = 0;
    for tile in 0..headers.tile_count().min(parts.len()) {
        let shape = shape_of(headers, tile);
        let seen = meet(&sight.window, &shape.rect);
        needed = needed.saturating_add(tile_share(&shape, &seen, parts[tile].size));
    }
    needed > size as u64 / 2
}
