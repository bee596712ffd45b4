//! The plans of the data of tiles.

ghost use Rattle.std.specs.Prelude.{◌≡◌, true, ◌-◌, ◌≤◌, ◌<◌, ◌^◌, ℕ, List, length, IfOk, IfErr};
ghost use Rattle.std.specs.List.{AllZip};
ghost use Rattle.jk_math.specs.Memory.{IsMemory};
ghost use Rattle.jk_marks.specs.Siz.{tile_count};
ghost use Rattle.jk_geom.specs.Rectangles.{is_empty, meet, tile_area};
ghost use Rattle.jk_geom.specs.Partitions.{reduced_area};
ghost use Rattle.jk_geom.specs.TileShapes.{IsTileShape};
ghost use Rattle.jk_order.specs.PacketOrder.{packet_count};
ghost use Rattle.jk_params.specs.Headers.{tile_in};
ghost use Rattle.jk_walk.specs.Entries.{AreEntries};
ghost use Rattle.jk_walk.specs.TilePackets.{shape_in};
ghost use Rattle.jk_window.specs.Views.{layers_in};
ghost use Rattle.jk_window.specs.Indexing.{entries_of};
ghost use Rattle.jk_window.specs.Cutting.{runs_at};
ghost use Rattle.jk_window.specs.PartEnds.{ArePartEnds, IsPartEnds};
ghost use Rattle.jk_window.specs.Planning.{IsTileCut, IsRunPlan, AreEmptied, IsTilePlan, ArePlansUpto};
ghost use Rattle.jk_window.specs.Numbered.{packets_in};

use crate::contents::{TileCut, plan_runs};
use crate::intervals::{are_few, wanted_intervals};
use crate::kept::Index;
use crate::numbered::plan_intervals;
use crate::steps::CutPlan;
use crate::view::View;
use jk_geom::{TileShape, is_empty, meet, reduced, tile};
use jk_math::{Fault, Rect};
use jk_order::packet_names;
use jk_walk::shape_of;
use std::alloc::Global;
use std::marker::Model;

/// The plans of the data of a tile's parts. There are none where all packets of the tile are emptied
/// and have no SOP: then their number says all.
#[derive(Drop)]
pub(crate) struct TilePlans {
    is_emptied: bool,
    parts: Vec<CutPlan>,
}

impl Model for TilePlans {
    ghost use Rattle.jk_window.specs.Planning.{TilePlanFields};

    ghost Value = { TilePlanFields };

    ghost view = { λ t. record { is_emptied = t.is_emptied; plans = t.parts.items } };
}

impl TilePlans {
    ghost use Rattle.std.specs.Prelude.{◌≡◌, ◌<◌, length, slice_index_or};
    ghost use Rattle.jk_window.specs.Planning.{no_plan};

    /// Whether all packets are emptied and have no SOP.
    pub(crate) fn is_emptied(&self) -> bool
        ensures { result ≡ self.now.is_emptied }
    {
        self.is_emptied
    }

    /// The plan of the data of a part.
    pub(crate) fn part(&self, number: usize) -> &CutPlan
        requires { number < length self.now.plans }
        ensures { result.now ≡ slice_index_or self.now.plans number no_plan }
    {
        &self.parts[number]
    }
}

/// How many layers a view keeps of a tile that has so many.
fn layers_in(view: View, all: u16) -> u32
    ensures { result ≡ layers_in view.layers all }
{
    match view.layers {
        Some(count) => count,
        None => all as u32,
    }
}

/// A tile of the index, of this shape, and what of it is in a window.
fn tile_cut<'a>(
    index: &'a Index,
    shape: &'a TileShape,
    window: &Rect,
    view: View,
    tile: usize,
) -> TileCut<'a>
    requires tile { tile < tile_count index.now.headers.siz }
    requires shape { IsTileShape shape.now }
    requires right { window.now.x1 < 2 ^ 31 }
    requires lower { window.now.y1 < 2 ^ 31 }
    requires few { view.reduce ≤ 10 }
    ensures shape { result.shape.now ≡ shape.now }
    ensures entries { result.entries.now ≡ entries_of index.now.packets tile }
    ensures within { AreEntries (index.now.place.end - index.now.place.start)
        (shape_in index.now.headers.siz (tile_in index.now.headers.tiles tile) tile) result.entries.now }
    ensures parts { IsPartEnds result.entries.now (tile_in index.now.headers.tiles tile) result.parts.now }
    ensures eph { result.eph ≡ (tile_in index.now.headers.tiles tile).cod.eph }
    ensures start { result.start ≡ index.now.place.start }
    ensures top { result.top ≡ meet window.now (reduced_area shape.now.rect view.reduce) }
    ensures right { result.top.x1 < 2 ^ 31 }
    ensures lower { result.top.y1 < 2 ^ 31 }
    ensures reduce { result.reduce ≡ view.reduce }
    ensures layers { result.layers ≡ layers_in view.layers shape.now.layers }
{
    let reduce = view.reduce as u8;
    TileCut {
        shape,
        entries: index.entries(tile),
        parts: index.parts(tile),
        eph: index.headers().cod(tile).eph,
        start: index.place().start,
        top: meet(window, &reduced(&shape.rect, reduce)),
        reduce,
        layers: layers_in(view, shape.layers),
    }
}

/// Whether a window has nothing of a tile.
fn is_beside(index: &Index, window: &Rect, view: View, number: usize) -> bool
    requires tile { number < tile_count index.now.headers.siz }
    requires few { view.reduce ≤ 10 }
    ensures { result ≡ is_empty (meet window.now (reduced_area (tile_area index.now.headers.siz number) view.reduce)) }
{
    let rect = tile(index.headers().siz(), number as u32);
    is_empty(&meet(window, &reduced(&rect, view.reduce as u8)))
}

/// Whether no packet of a tile is kept, and none has an SOP.
fn is_emptied(index: &Index, window: &Rect, view: View, tile: usize) -> bool
    requires tile { tile < tile_count index.now.headers.siz }
    requires few { view.reduce ≤ 10 }
    ensures { result ≡ true → AreEmptied index.now window.now view tile }
{
    let counted = index.parts(tile).counted;
    if counted {
        return false;
    }
    is_beside(index, window, view, tile)
}

/// Plans the data of the parts of a tile by the numbers of the packets that are kept.
fn plan_by_numbers(alloc: Global, cut: &TileCut<'_>, size: usize) -> Result<Vec<CutPlan>, Fault>
    requires cut { IsTileCut size cut.now }
    requires all { length cut.now.entries.now ≡ packet_count cut.now.shape.now }
    requires few { packet_count cut.now.shape.now ≤ 2 ^ 24 }
    ensures plans { (places : List (ℕ × ℕ)) → ArePartEnds cut.now.entries.now places cut.now.parts.now.ends.items
        → IfOk result (λ v. AllZip (IsRunPlan size cut.now) (runs_at (packets_in cut.now) places) v.items) }
    ensures err { IfErr result IsMemory }
{
    let intervals = wanted_intervals(alloc, cut)?;
    plan_intervals(alloc, cut, &intervals, size)
}

/// Plans the data of the parts of a tile packet by packet.
fn plan_by_names(
    alloc: Global,
    cut: &TileCut<'_>,
    places: &[(usize, usize)],
    size: usize,
) -> Result<Vec<CutPlan>, Fault>
    requires cut { IsTileCut size cut.now }
    requires all { length cut.now.entries.now ≡ packet_count cut.now.shape.now }
    requires few { packet_count cut.now.shape.now ≤ 2 ^ 24 }
    ensures plans { IfOk result (λ v. AllZip (IsRunPlan size cut.now) (runs_at (packets_in cut.now) places.now) v.items) }
    ensures err { IfErr result IsMemory }
{
    let names = packet_names(alloc, cut.shape)?;
    plan_runs(alloc, cut, &names, places, size)
}

/// Plans the data of the parts of a tile: by numbers, where few packets of many are kept, and else
/// packet by packet.
fn plan_packets(
    alloc: Global,
    cut: &TileCut<'_>,
    places: &[(usize, usize)],
    size: usize,
) -> Result<Vec<CutPlan>, Fault>
    requires cut { IsTileCut size cut.now }
    requires all { length cut.now.entries.now ≡ packet_count cut.now.shape.now }
    requires few { packet_count cut.now.shape.now ≤ 2 ^ 24 }
    requires parts { ArePartEnds cut.now.entries.now places.now cut.now.parts.now.ends.items }
    ensures plans { IfOk result (λ v. AllZip (IsRunPlan size cut.now) (runs_at (packets_in cut.now) places.now) v.items) }
    ensures err { IfErr result IsMemory }
{
    if is_empty(&cut.top) || are_few(cut) {
        plan_by_numbers(alloc, cut, size)
    } else {
        plan_by_names(alloc, cut, places, size)
    }
}

/// Plans the data of the parts of a tile that the window has something of, or whose packets have
/// SOP.
fn plan_shown(
    alloc: Global,
    index: &Index,
    window: &Rect,
    view: View,
    tile: usize,
) -> Result<TilePlans, Fault>
    requires tile { tile < tile_count index.now.headers.siz }
    requires right { window.now.x1 < 2 ^ 31 }
    requires lower { window.now.y1 < 2 ^ 31 }
    requires few { view.reduce ≤ 10 }
    ensures plans { IfOk result (IsTilePlan index.now window.now view tile) }
    ensures err { IfErr result IsMemory }
{
    let headers = index.headers();
    let shape = shape_of(headers, tile);
    let cut = tile_cut(index, &shape, window, view, tile);
    let around = index.around();
    let parts = plan_packets(alloc, &cut, headers.data_places(tile), around.size)?;
    Ok(TilePlans {
        is_emptied: false,
        parts,
    })
}

/// Plans the data of the parts of a tile.
fn plan_tile(
    alloc: Global,
    index: &Index,
    window: &Rect,
    view: View,
    tile: usize,
) -> Result<TilePlans, Fault>
    requires tile { tile < tile_count index.now.headers.siz }
    requires right { window.now.x1 < 2 ^ 31 }
    requires lower { window.now.y1 < 2 ^ 31 }
    requires few { view.reduce ≤ 10 }
    ensures plans { IfOk result (IsTilePlan index.now window.now view tile) }
    ensures err { IfErr result IsMemory }
{
    let emptied = is_emptied(index, window, view, tile);
    if emptied {
        return Ok(TilePlans {
            is_emptied: true,
            parts: Vec::new(alloc),
        });
    }
    plan_shown(alloc, index, window, view, tile)
}

/// Plans the data of the parts of all tiles.
pub(crate) fn plan_tiles(
    alloc: Global,
    index: &Index,
    window: &Rect,
    view: View,
) -> Result<Vec<TilePlans>, Fault>
    requires right { window.now.x1 < 2 ^ 31 }
    requires lower { window.now.y1 < 2 ^ 31 }
    requires few { view.reduce ≤ 10 }
    ensures plans { IfOk result
        (λ v. ArePlansUpto index.now window.now view (tile_count index.now.headers.siz) v.items) }
    ensures err { IfErr result IsMemory }
{
    let count = index.tiles();
    let mut all = Vec::with_capacity(alloc, count)?;
    for tile in 0..count {
        all.push(plan_tile(alloc, index, window, view, tile)?)?;
    }
    Ok(all)
}
