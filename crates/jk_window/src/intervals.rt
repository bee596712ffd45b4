//! The packets of a tile that a window needs, as intervals of their numbers.

ghost use Rattle.std.specs.Prelude.{◌≡◌, ◌<◌, ◌≤◌, ◌^◌, ℕ, true, false, min, length, OnOk, IfOk, IfErr};
ghost use Rattle.std.specs.List.Sorted.{IsNonDecreasingBy};
ghost use Rattle.jk_math.specs.Memory.{IsMemory};
ghost use Rattle.jk_marks.specs.Coding.{IsCoding};
ghost use Rattle.jk_geom.specs.TileShapes.{IsTileShape, coding_of};
ghost use Rattle.jk_order.specs.PacketOrder.{packet_count};
ghost use Rattle.jk_order.specs.Streams.{is_inside};
ghost use Rattle.jk_window.specs.Planning.{IsTileCut};
ghost use Rattle.jk_window.specs.Numbered.{Adds, AreWanted, ArePrecincts, IsOf, IsNeeded, IsNeededIn, IsNeededOf};

use crate::contents::TileCut;
use crate::rows::{NeededPrecincts, needed_precincts};
use jk_geom::{PacketName, is_empty, precinct_count};
use jk_marks::{Coding, Order};
use jk_math::Fault;
use jk_order::{Numbers, layers_stand_together, packet_count, precincts_stand_together};
use std::alloc::Global;

/// The fewest packets of a tile of which numbers are asked: with fewer all are gone through sooner.
const MANY: u64 = 1_024;

/// So many packets at least are gone through in the time in which one number is found.
const SHARE: u64 = 10;

/// Precincts of a resolution of a component that follow one another, and how many of their first
/// layers are kept.
#[derive(Clone, Copy)]
pub(crate) struct Precincts {
    pub(crate) component: u8,
    pub(crate) resolution: u8,
    /// The number of the first one, and that behind the last one.
    pub(crate) numbers: (u32, u32),
    pub(crate) layers: u16,
}

/// Whether all layers of a precinct come one after another.
fn is_inside(order: Order) -> bool
    ensures { result ≡ is_inside order }
{
    match order {
        Order::Lrcp | Order::Rlcp => false,
        Order::Rpcl | Order::Pcrl | Order::Cprl => true,
    }
}

/// Appends the numbers of their packets where the layers come inside: an interval for each precinct.
fn push_by_precinct(
    numbers: &Numbers,
    precincts: Precincts,
    intervals: &mut Vec<(u32, u32)>,
) -> Result<(), Fault>
    requires shape { IsTileShape numbers.now }
    requires few { packet_count numbers.now ≤ 2 ^ 24 }
    requires precincts { ArePrecincts numbers.now precincts }
    requires some { precincts.numbers.0 < precincts.numbers.1 }
    requires inside { is_inside numbers.now.order ≡ true }
    ensures adds { OnOk result (Adds numbers.now intervals.old.items intervals.new.items (IsOf precincts)) }
    ensures err { IfErr result IsMemory }
{
    layers_stand_together();
    let (first, behind) = precincts.numbers;
    for precinct in first..behind {
        let start = numbers.number_of(PacketName {
            layer: 0,
            resolution: precincts.resolution,
            component: precincts.component,
            precinct,
        });
        let end = start + precincts.layers as u32;
        intervals.push((start, end))?;
    }
    Ok(())
}

/// Appends them where the layers come outside: an interval for each layer.
fn push_by_layer(
    numbers: &Numbers,
    precincts: Precincts,
    intervals: &mut Vec<(u32, u32)>,
) -> Result<(), Fault>
    requires shape { IsTileShape numbers.now }
    requires few { packet_count numbers.now ≤ 2 ^ 24 }
    requires precincts { ArePrecincts numbers.now precincts }
    requires some { precincts.numbers.0 < precincts.numbers.1 }
    requires outside { is_inside numbers.now.order ≡ false }
    ensures adds { OnOk result (Adds numbers.now intervals.old.items intervals.new.items (IsOf precincts)) }
    ensures err { IfErr result IsMemory }
{
    precincts_stand_together();
    let (first, behind) = precincts.numbers;
    let count = behind - first;
    for layer in 0..precincts.layers {
        let start = numbers.number_of(PacketName {
            layer,
            resolution: precincts.resolution,
            component: precincts.component,
            precinct: first,
        });
        let end = start + count;
        intervals.push((start, end))?;
    }
    Ok(())
}

/// Appends the numbers of their packets.
fn push_precincts(
    numbers: &Numbers,
    order: Order,
    precincts: Precincts,
    intervals: &mut Vec<(u32, u32)>,
) -> Result<(), Fault>
    requires shape { IsTileShape numbers.now }
    requires few { packet_count numbers.now ≤ 2 ^ 24 }
    requires precincts { ArePrecincts numbers.now precincts }
    requires order { order ≡ numbers.now.order }
    ensures adds { OnOk result (Adds numbers.now intervals.old.items intervals.new.items (IsOf precincts)) }
    ensures err { IfErr result IsMemory }
{
    let (first, behind) = precincts.numbers;
    if first >= behind {
        return Ok(());
    }
    if is_inside(order) {
        push_by_precinct(numbers, precincts, intervals)
    } else {
        push_by_layer(numbers, precincts, intervals)
    }
}

/// Appends the numbers of the packets that a window needs of a resolution of a component, in so many
/// layers.
fn push_resolution(
    tile: &TileCut<'_>,
    numbers: &Numbers,
    component: u8,
    resolution: u8,
    layers: u16,
    intervals: &mut Vec<(u32, u32)>,
) -> Result<(), Fault>
    requires cut { (file : ℕ) × IsTileCut file tile.now }
    requires numbers { numbers.now ≡ tile.now.shape.now }
    requires few { packet_count tile.now.shape.now ≤ 2 ^ 24 }
    requires component { component < length tile.now.shape.now.codings }
    requires resolution { resolution ≤ (coding_of tile.now.shape.now.codings component).levels }
    requires layers { layers ≤ tile.now.shape.now.layers }
    ensures adds { OnOk result (Adds tile.now.shape.now intervals.old.items intervals.new.items
        (IsNeededOf tile.now layers component resolution)) }
    ensures err { IfErr result IsMemory }
{
    let shape = tile.shape;
    let codings = shape.codings.as_slice();
    let coding = &codings[component as usize];
    let needed = needed_precincts(&shape.rect, coding, &tile.top, tile.reduce, resolution);
    let (across, _) = precinct_count(&shape.rect, coding, resolution);
    let (first, behind) = needed.rows();
    for row in first..behind {
        let precincts = Precincts {
            component,
            resolution,
            numbers: needed.numbers(across, row),
            layers,
        };
        push_precincts(numbers, shape.order, precincts, intervals)?;
    }
    Ok(())
}

/// Appends those of a component.
fn push_component(
    tile: &TileCut<'_>,
    numbers: &Numbers,
    component: u8,
    layers: u16,
    intervals: &mut Vec<(u32, u32)>,
) -> Result<(), Fault>
    requires cut { (file : ℕ) × IsTileCut file tile.now }
    requires numbers { numbers.now ≡ tile.now.shape.now }
    requires few { packet_count tile.now.shape.now ≤ 2 ^ 24 }
    requires component { component < length tile.now.shape.now.codings }
    requires layers { layers ≤ tile.now.shape.now.layers }
    ensures adds { OnOk result (Adds tile.now.shape.now intervals.old.items intervals.new.items
        (IsNeededIn tile.now layers component)) }
    ensures err { IfErr result IsMemory }
{
    let codings = tile.shape.codings.as_slice();
    let coding = &codings[component as usize];
    let count = coding.levels + 1;
    for resolution in 0..count {
        push_resolution(tile, numbers, component, resolution, layers, intervals)?;
    }
    Ok(())
}

/// Appends those of all components.
fn push_components(
    tile: &TileCut<'_>,
    layers: u16,
    intervals: &mut Vec<(u32, u32)>,
) -> Result<(), Fault>
    requires cut { (file : ℕ) × IsTileCut file tile.now }
    requires few { packet_count tile.now.shape.now ≤ 2 ^ 24 }
    requires layers { layers ≤ tile.now.shape.now.layers }
    ensures adds { OnOk result (Adds tile.now.shape.now intervals.old.items intervals.new.items (IsNeeded tile.now layers)) }
    ensures err { IfErr result IsMemory }
{
    let numbers = Numbers::new(tile.shape);
    let codings = tile.shape.codings.as_slice();
    for component in 0..codings.len() {
        push_component(tile, &numbers, component as u8, layers, intervals)?;
    }
    Ok(())
}

/// How many of a tile's layers are kept of what a window needs.
fn layers_kept(tile: &TileCut<'_>) -> u16
    ensures value { result ≡ min tile.now.layers tile.now.shape.now.layers }
    ensures few { result ≤ tile.now.shape.now.layers }
{
    let all = tile.shape.layers;
    if tile.layers < all as u32 {
        tile.layers as u16
    } else {
        all
    }
}

/// The numbers of the packets that a window keeps of a tile, by their starts.
pub(crate) fn wanted_intervals(alloc: Global, tile: &TileCut<'_>) -> Result<Vec<(u32, u32)>, Fault>
    requires cut { (file : ℕ) × IsTileCut file tile.now }
    requires few { packet_count tile.now.shape.now ≤ 2 ^ 24 }
    ensures wanted { IfOk result (λ v. AreWanted tile.now v.items) }
    ensures ascend { IfOk result (λ v. IsNonDecreasingBy (λ s. s.0) v.items) }
    ensures err { IfErr result IsMemory }
{
    let mut intervals = Vec::new(alloc);
    let nothing = is_empty(&tile.top);
    if nothing {
        return Ok(intervals);
    }
    push_components(tile, layers_kept(tile), &mut intervals)?;
    intervals.sort()?;
    Ok(intervals)
}

/// At most how many numbers are asked for what a window needs of a resolution, in so many layers.
fn most_numbers(needed: &NeededPrecincts, order: Order, layers: u16) -> u64 {
    let (first, behind) = needed.rows();
    let rows = behind.saturating_sub(first) as u64;
    if is_inside(order) {
        rows * needed.width() as u64
    } else {
        rows * layers as u64
    }
}

/// At most how many are asked for what a window needs of a component.
fn most_of_component(tile: &TileCut<'_>, coding: &Coding, layers: u16) -> u64
    requires cut { (file : ℕ) × IsTileCut file tile.now }
    requires coding { IsCoding coding.now }
{
    let shape = tile.shape;
    let mut most: u64 = 0;
    for resolution in 0..coding.levels + 1 {
        let needed = needed_precincts(&shape.rect, coding, &tile.top, tile.reduce, resolution);
        most = most.saturating_add(most_numbers(&needed, shape.order, layers));
    }
    most
}

/// Whether what a window needs of a tile is found sooner by numbers than packet by packet.
pub(crate) fn are_few(tile: &TileCut<'_>) -> bool
    requires cut { (file : ℕ) × IsTileCut file tile.now }
{
    let count = packet_count(tile.shape);
    if count < MANY {
        return false;
    }
    let layers = layers_kept(tile);
    let codings = tile.shape.codings.as_slice();
    let mut most: u64 = 0;
    for component in 0..codings.len() {
        let coding = &codings[component];
        most = most.saturating_add(most_of_component(tile, coding, layers));
    }
    most <= count / SHARE
}
