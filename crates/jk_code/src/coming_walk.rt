//! A walk down the rows of an image that comes, one row of tiles after another.

ghost use Rattle.std.specs.Prelude.{◌≡◌, ◌≤◌, length, IfOk, IfErr};
ghost use Rattle.jk_math.specs.Memory.{IsMemory};
ghost use Rattle.jk_math.specs.Picture.{Picture};
ghost use Rattle.jk_code.specs.ComingRows.{IsComing, AreFallen, AreCoded};
ghost use Rattle.jk_code.specs.ComingWalks.{IsBetweenTiles, IsComingWalk, EndsFallen, IsOfPicture, WalksOn};

use crate::coming::{ComingImage, first_of_tiles, keep_tiles};
use crate::rows::tiles_across;
use jk_geom::{tile, tile_count};
use jk_math::Fault;
use jk_params::siz_for;
use jk_tile::{FallenTile, FallingTile};
use std::alloc::Global;

/// A walk down the rows of an image that comes: the tiles that are behind their last rows, and those of
/// the next row of tiles, which have the rows before row `y` of those up to row `end`. Behind the last
/// row of the image there are none. `step` rows are taken at a time, and `values` is room for a
/// component of them.
#[derive(Drop)]
pub(crate) struct ComingWalk {
    pub(crate) fallen: Vec<FallenTile>,
    pub(crate) tiles: Vec<FallingTile>,
    pub(crate) values: Vec<i32>,
    pub(crate) y: u32,
    pub(crate) end: u32,
    pub(crate) step: u32,
}

/// A walk from row `y` on, with which the next row of tiles begins, or the last one ends, behind tiles
/// that are behind their last rows.
pub(crate) fn walk_from(
    alloc: Global,
    coming: &ComingImage<'_>,
    fallen: Vec<FallenTile>,
    y: u32,
    step: u32,
) -> Result<ComingWalk, Fault>
    requires coming { IsComing coming.now }
    requires step { 1 ≤ step }
    requires fallen { AreFallen coming.now (length fallen.items) fallen.items }
    requires between { IsBetweenTiles coming.now (length fallen.items) y }
    ensures walk { IfOk result (IsComingWalk coming.now) }
    ensures whole { IfOk result (EndsFallen coming.now) }
    ensures row { IfOk result (λ w. w.y ≡ y) }
    ensures of { IfOk result (λ w. (p : Picture) → AreCoded coming.now (length fallen.items) p fallen.items
        → IsOfPicture coming.now p w) }
    ensures memory { IfErr result IsMemory }
{
    let siz = siz_for(&coming.frame, coming.parameters);
    let first = fallen.len();
    let values = Vec::new(alloc);
    if first >= tile_count(&siz) as usize {
        let tiles = Vec::new(alloc);
        return Ok(ComingWalk {
            fallen,
            tiles,
            values,
            y,
            end: y,
            step,
        });
    }
    let area = tile(&siz, first as u32);
    let tiles = first_of_tiles(alloc, coming, first, tiles_across(&siz))?;
    Ok(ComingWalk {
        fallen,
        tiles,
        values,
        y,
        end: area.y1,
        step,
    })
}

/// The walk as it is, where rows are left of its tiles; behind their last row they are kept so, and the
/// walk goes on with the next row of tiles.
pub(crate) fn go_on(
    alloc: Global,
    coming: &ComingImage<'_>,
    walk: ComingWalk,
) -> Result<ComingWalk, Fault>
    requires coming { IsComing coming.now }
    requires walk { IsComingWalk coming.now walk }
    ensures walk { IfOk result (WalksOn coming.now walk) }
    ensures whole { IfOk result (EndsFallen coming.now) }
    ensures memory { IfErr result IsMemory }
{
    if walk.y < walk.end {
        return Ok(walk);
    }
    let mut fallen = walk.fallen;
    keep_tiles(alloc, coming, walk.tiles, &mut fallen)?;
    walk_from(alloc, coming, fallen, walk.end, walk.step)
}
