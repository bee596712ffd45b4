//! The tiles of an image whose rows come, one row of tiles below the other.

ghost use Rattle.std.specs.Prelude.{◌≡◌, ℕ, ◌+◌, ◌<◌, ◌≤◌, ◌⊎◌, length, slice_index_or, IfOk, IfErr, OnOk};
ghost use Rattle.jk_math.specs.Memory.{IsMemory};
ghost use Rattle.jk_math.specs.Picture.{Picture, IsPicture};
ghost use Rattle.jk_params.specs.PictureFrames.{frame_of};
ghost use Rattle.jk_code.specs.Made.{rows_of};
ghost use Rattle.jk_code.specs.RowsWritten.{IsStripe, WereAllGiven, HasMetBefore};
ghost use Rattle.jk_code.specs.ComingRows.{IsComing, component_of, area_of_coming, tiles_coming, AreFalling, HaveRows};
ghost use Rattle.jk_code.specs.ComingRows.{IsFallingTile, AreFallen, AreCoded};
ghost use Rattle.jk_code.specs.ComingWalks.{IsBeforeStep, IsStepDone};

use crate::coming_walk::{ComingWalk, go_on, walk_from};
use crate::encoding_rows::{RowSupply, step_end};
use jk_geom::tile;
use jk_marks::Coding;
use jk_math::{Fault, Image};
use jk_params::{Parameters, PictureFrame, siz_for};
use jk_tile::{FallenTile, FallingTile, GivenRows, When, WrittenComponent};
use std::alloc::Global;

/// An image whose rows come: where it lies, how it is written, and how each of its components is
/// coded, but for its exponents.
#[derive(Clone, Copy)]
pub(crate) struct ComingImage<'a> {
    pub(crate) frame: PictureFrame,
    pub(crate) parameters: &'a Parameters,
    pub(crate) coding: &'a Coding,
}

/// A component of tile `number`, which all are alike.
pub(crate) fn component_at<'a>(coming: &ComingImage<'a>, number: usize) -> WrittenComponent<'a>
    requires coming { IsComing coming.now }
    requires number { number < tiles_coming coming.now }
    ensures { result ≡ component_of coming.now number }
{
    let rect = tile(&siz_for(&coming.frame, coming.parameters), number as u32);
    WrittenComponent::new(rect, coming.coding, coming.parameters.layers)
}

/// So many tiles, from tile `first` on, before their first row.
pub(crate) fn first_of_tiles(
    alloc: Global,
    coming: &ComingImage<'_>,
    first: usize,
    count: usize,
) -> Result<Vec<FallingTile>, Fault>
    requires coming { IsComing coming.now }
    requires whole { first + count ≤ tiles_coming coming.now }
    requires beside { (k : ℕ) → k < count → (area_of_coming coming.now (first + k)).y0 ≡ (area_of_coming coming.now first).y0 }
    ensures count { IfOk result (λ v. length v.items ≡ count) }
    ensures tiles { IfOk result (λ v. AreFalling coming.now first (area_of_coming coming.now first).y0 v.items) }
    ensures rows { IfOk result (λ v. (p : Picture) → HaveRows coming.now first p v.items) }
    ensures memory { IfErr result IsMemory }
{
    let mut tiles = Vec::new(alloc);
    for k in 0..count {
        let source = component_at(coming, first + k);
        tiles.push(FallingTile::new(alloc, &source, coming.frame.components as usize)?)?;
    }
    Ok(tiles)
}

/// Gives so many tiles, from tile `first` on, what they have of a stripe of rows.
fn give_stripe(
    alloc: Global,
    coming: &ComingImage<'_>,
    first: usize,
    stripe: &Image,
    tiles: &mut Vec<FallingTile>,
    values: &mut Vec<i32>,
    when: When,
) -> Result<(), Fault>
    requires coming { IsComing coming.now }
    requires picture { IsPicture stripe.now }
    requires whole { first + length tiles.old.items ≤ tiles_coming coming.now }
    requires tiles { AreFalling coming.now first stripe.now.y0 tiles.old.items }
    requires stripe { IsStripe coming.now.frame stripe.now.y0 (stripe.now.y0 + stripe.now.height) stripe.now }
    requires lower { (k : ℕ) → k < length tiles.old.items
        → stripe.now.y0 + stripe.now.height ≤ (area_of_coming coming.now (first + k)).y1 }
    requires given { (p : Picture) × IsPicture p × (frame_of p ≡ coming.now.frame)
        × (stripe.now ≡ rows_of p stripe.now.y0 (stripe.now.y0 + stripe.now.height))
        × HaveRows coming.now first p tiles.old.items }
    ensures count { length tiles.new.items ≡ length tiles.old.items }
    ensures tiles { OnOk result (AreFalling coming.now first (stripe.now.y0 + stripe.now.height) tiles.new.items) }
    ensures rows { OnOk result ((p : Picture) → frame_of p ≡ coming.now.frame
        → stripe.now ≡ rows_of p stripe.now.y0 (stripe.now.y0 + stripe.now.height)
        → HaveRows coming.now first p tiles.old.items
        → HaveRows coming.now first p tiles.new.items) }
    ensures memory { IfErr result IsMemory }
{
    let rows = GivenRows {
        image: stripe,
        colours: coming.parameters.colour,
        end: stripe.y0() + stripe.height(),
    };
    for k in 0..tiles.len() {
        let source = component_at(coming, first + k);
        tiles[k].give(alloc, &source, &rows, values, when)?;
    }
    Ok(())
}

/// Takes the next stripe of rows, and gives the tiles of a walk what they have of it.
pub(crate) fn give_next<S: RowSupply>(
    alloc: Global,
    coming: &ComingImage<'_>,
    walk: &mut ComingWalk,
    when: When,
    supply: &mut S,
) -> Result<(), Fault>
    requires coming { IsComing coming.now }
    requires before { IsBeforeStep S.framed S.next S.gave coming.now supply.old walk.old }
    ensures step { OnOk result (IsStepDone S.framed S.next S.gave coming.now supply.old supply.new walk.old walk.new) }
    ensures err { IfErr result (λ e. IsMemory e ⊎ S.met supply.old e supply.new) }
{
    let first = walk.fallen.len();
    let end = step_end(walk.y, walk.end, walk.step);
    let stripe = supply.give(alloc, end)?;
    give_stripe(
        alloc,
        coming,
        first,
        &stripe,
        &mut walk.tiles,
        &mut walk.values,
        when,
    )?;
    walk.y = end;
    Ok(())
}

/// Keeps of tiles, from the next one on, what is kept behind their last row.
pub(crate) fn keep_tiles(
    alloc: Global,
    coming: &ComingImage<'_>,
    tiles: Vec<FallingTile>,
    fallen: &mut Vec<FallenTile>,
) -> Result<(), Fault>
    requires coming { IsComing coming.now }
    requires whole { length fallen.old.items + length tiles.items ≤ tiles_coming coming.now }
    requires tiles { (k : ℕ) (other : FallingTile) → k < length tiles.items
        → IsFallingTile coming.now (length fallen.old.items + k)
        (area_of_coming coming.now (length fallen.old.items + k)).y1 (slice_index_or tiles.items k other) }
    requires before { AreFallen coming.now (length fallen.old.items) fallen.old.items }
    ensures fallen { OnOk result (AreFallen coming.now (length fallen.old.items + length tiles.items) fallen.new.items) }
    ensures rows { OnOk result ((p : Picture)
        → HaveRows coming.now (length fallen.old.items) p tiles.items
        → AreCoded coming.now (length fallen.old.items) p fallen.old.items
        → AreCoded coming.now (length fallen.old.items + length tiles.items) p fallen.new.items) }
    ensures memory { IfErr result IsMemory }
{
    for tile in tiles {
        let source = component_at(coming, fallen.len());
        fallen.push(tile.finish(alloc, &source)?)?;
    }
    Ok(())
}

/// All tiles of an image, behind their last rows.
pub(crate) fn fallen_tiles<S: RowSupply>(
    alloc: Global,
    coming: &ComingImage<'_>,
    step: u32,
    supply: &mut S,
) -> Result<Vec<FallenTile>, Fault>
    requires coming { IsComing coming.now }
    requires step { 1 ≤ step }
    requires framed { S.framed supply.old ≡ coming.now.frame }
    requires first { S.next supply.old ≡ coming.now.frame.y0 }
    ensures fallen { IfOk result (λ v. AreFallen coming.now (tiles_coming coming.now) v.items) }
    ensures given { IfOk result (λ v. (p : Picture) × WereAllGiven S.gave coming.now.frame supply.old supply.new p
        × AreCoded coming.now (tiles_coming coming.now) p v.items) }
    ensures err { IfErr result (λ e. IsMemory e
        ⊎ HasMetBefore S.gave S.met coming.now.frame supply.old supply.new e) }
{
    let mut walk = walk_from(alloc, coming, Vec::new(alloc), coming.frame.y0, step)?;
    while walk.y < walk.end {
        give_next(alloc, coming, &mut walk, When::Now, supply)?;
        walk = go_on(alloc, coming, walk)?;
    }
    Ok(walk.fallen)
}
