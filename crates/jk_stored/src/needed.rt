//! The precincts of a tile that a window needs, resolution by resolution.

ghost use Rattle.std.specs.Prelude.{◌≡◌, ◌≤◌, ◌<◌, ◌/◌, ◌^◌, false, length, IfOk};
ghost use Rattle.jk_geom.specs.Rectangles.{is_empty};
ghost use Rattle.jk_geom.specs.TileShapes.{IsTileShape};
ghost use Rattle.jk_stored.specs.Contents.{IsNeededIn, AreNeededIn};

use jk_geom::{TileShape, is_empty, precinct_count};
use jk_math::{Fault, Rect};
use jk_window::{NeededPrecincts, needed_precincts};
use std::alloc::Global;

/// How many resolutions a component has at most (T.800 table A.15).
pub(crate) const RESOLUTIONS: usize = 11;

/// The precincts of a resolution that a window needs, and how many lie side by side.
#[derive(Clone, Copy)]
pub(crate) struct NeededIn {
    pub(crate) precincts: NeededPrecincts,
    pub(crate) across: u32,
}

/// What the window `top` of a tile, which is reduced by `reduce` levels, needs of a resolution: its
/// number and that of its component are told by one number, and where the component has no such
/// resolution, it is the highest.
fn needed_at(shape: &TileShape, top: &Rect, reduce: u8, number: usize) -> NeededIn
    requires shape { IsTileShape shape.now }
    requires right { top.now.x1 < 2 ^ 31 }
    requires lower { top.now.y1 < 2 ^ 31 }
    requires few { reduce ≤ 10 }
    requires component { number / 11 < length shape.now.codings }
    ensures { IsNeededIn shape.now top.now reduce number result }
{
    let coding = &shape.codings.as_slice()[number / RESOLUTIONS];
    let resolution = ((number % RESOLUTIONS) as u8).min(coding.levels);
    let (across, _) = precinct_count(&shape.rect, coding, resolution);
    NeededIn {
        precincts: needed_precincts(&shape.rect, coding, top, reduce, resolution),
        across,
    }
}

/// What the window needs of each resolution of each component, if it sees something of the tile.
pub(crate) fn needed_in(
    alloc: Global,
    shape: &TileShape,
    top: &Rect,
    reduce: u8,
) -> Result<Vec<NeededIn>, Fault>
    requires shape { IsTileShape shape.now }
    requires right { top.now.x1 < 2 ^ 31 }
    requires lower { top.now.y1 < 2 ^ 31 }
    requires few { reduce ≤ 10 }
    ensures { IfOk result (λ v. is_empty top.now ≡ false → AreNeededIn shape.now top.now reduce v.items) }
{
    let mut all = Vec::new(alloc);
    if is_empty(top) {
        return Ok(all);
    }
    let count = shape.codings.as_slice().len() * RESOLUTIONS;
    all.reserve_exact(count)?;
    for number in 0..count {
        all.push(needed_at(shape, top, reduce, number))?;
    }
    Ok(all)
}
