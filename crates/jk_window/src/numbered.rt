//! The plan of a tile by the numbers of the packets that are kept.

ghost use Rattle.std.specs.Prelude.{◌≡◌, ◌≤◌, ◌<◌, true, false, length, slice_index_or, sum_by, IfOk, IfErr, OnOk};
ghost use Rattle.std.specs.List.{AllZip, flat_map};
ghost use Rattle.std.specs.List.Sorted.{IsNonDecreasingBy};
ghost use Rattle.jk_math.specs.Memory.{IsMemory};
ghost use Rattle.jk_order.specs.PacketOrder.{packet_count};
ghost use Rattle.jk_window.specs.PartEnds.{numbered, cut_at};
ghost use Rattle.jk_window.specs.Planning.{IsTileCut, IsRunPlan, IsBehind, tile_packet, tile_packet_size};
ghost use Rattle.jk_window.specs.Numbered.{AreWanted, AreAll, EndBefore, IsPiece, packets_in};

use crate::contents::{TileCut, put_emptied};
use crate::steps::CutPlan;
use jk_math::Fault;
use std::alloc::Global;

/// Plans the packets with numbers from one up to another, none of which is kept, one by one: each
/// with its SOP, if it has one.
fn plan_counted(
    tile: &TileCut<'_>,
    first: usize,
    behind: usize,
    plan: &mut CutPlan,
) -> Result<(), Fault>
    requires cut { IsTileCut plan.old.size tile.now }
    requires order { first ≤ behind }
    requires within { behind ≤ length tile.now.entries.now }
    requires none { AreAll tile.now first behind false }
    ensures ok { OnOk result (IsBehind plan.old plan.new
        (λ file. flat_map (tile_packet tile.now file) (numbered (packets_in tile.now) first behind))
        (sum_by (tile_packet_size tile.now) (numbered (packets_in tile.now) first behind))) }
    ensures err { IfErr result IsMemory }
{
    for i in first..behind {
        let entry = tile.entries.get(i);
        put_emptied(plan, entry.counter, tile.eph)?;
    }
    Ok(())
}

/// Plans the packets with numbers from one up to another, none of which is kept: at once, where none
/// of the tile has an SOP.
fn plan_gap(
    tile: &TileCut<'_>,
    first: usize,
    behind: usize,
    plan: &mut CutPlan,
) -> Result<(), Fault>
    requires cut { IsTileCut plan.old.size tile.now }
    requires order { first ≤ behind }
    requires within { behind ≤ length tile.now.entries.now }
    requires none { AreAll tile.now first behind false }
    ensures ok { OnOk result (IsBehind plan.old plan.new
        (λ file. flat_map (tile_packet tile.now file) (numbered (packets_in tile.now) first behind))
        (sum_by (tile_packet_size tile.now) (numbered (packets_in tile.now) first behind))) }
    ensures err { IfErr result IsMemory }
{
    let counted = tile.parts.counted;
    if counted {
        return plan_counted(tile, first, behind, plan);
    }
    plan.write_emptied(behind - first, tile.eph)
}

/// Plans the packets with numbers from one up to another, all of which are kept.
fn plan_kept(
    tile: &TileCut<'_>,
    first: usize,
    behind: usize,
    plan: &mut CutPlan,
) -> Result<(), Fault>
    requires cut { IsTileCut plan.old.size tile.now }
    requires order { first ≤ behind }
    requires within { behind ≤ length tile.now.entries.now }
    requires all { AreAll tile.now first behind true }
    ensures ok { OnOk result (IsBehind plan.old plan.new
        (λ file. flat_map (tile_packet tile.now file) (numbered (packets_in tile.now) first behind))
        (sum_by (tile_packet_size tile.now) (numbered (packets_in tile.now) first behind))) }
    ensures err { IfErr result IsMemory }
{
    for i in first..behind {
        let entry = tile.entries.get(i);
        plan.copy(tile.start + entry.start, tile.start + entry.end)?;
    }
    Ok(())
}

/// The first interval, from the `next`-th on, that ends past a number.
fn first_past(intervals: &[(u32, u32)], next: usize, at: usize) -> usize
    requires before { EndBefore intervals.now next at }
    requires within { next ≤ length intervals.now }
    ensures before { EndBefore intervals.now result at }
    ensures within { result ≤ length intervals.now }
    ensures past { result < length intervals.now → at < (slice_index_or intervals.now result (0, 0)).1 }
{
    let mut i = next;
    while i < intervals.len() && intervals[i].1 as usize <= at {
        i += 1;
    }
    i
}

/// Packets of which the first ones are emptied, from `at` up to `start`, and the others kept, up to
/// `end`.
#[derive(Clone, Copy)]
pub(crate) struct Piece {
    pub(crate) start: usize,
    pub(crate) end: usize,
}

/// The piece of a part from a number on, up to the end of the next interval, or of the part.
fn piece_at(intervals: &[(u32, u32)], next: usize, at: usize, behind: usize) -> Piece
    requires some { at < behind }
    requires ascend { IsNonDecreasingBy (λ s. s.0) intervals.now }
    requires before { EndBefore intervals.now next at }
    requires past { next < length intervals.now → at < (slice_index_or intervals.now next (0, 0)).1 }
    ensures { IsPiece intervals.now at behind result }
{
    if next >= intervals.len() {
        return Piece {
            start: behind,
            end: behind,
        };
    }
    let (start, end) = intervals[next];
    let start = (start as usize).max(at).min(behind);
    Piece {
        start,
        end: (end as usize).min(behind).max(start),
    }
}

/// Plans a piece from a number on.
fn plan_piece(tile: &TileCut<'_>, at: usize, piece: Piece, plan: &mut CutPlan) -> Result<(), Fault>
    requires cut { IsTileCut plan.old.size tile.now }
    requires first { at ≤ piece.start }
    requires order { piece.start ≤ piece.end }
    requires within { piece.end ≤ length tile.now.entries.now }
    requires none { AreAll tile.now at piece.start false }
    requires all { AreAll tile.now piece.start piece.end true }
    ensures ok { OnOk result (IsBehind plan.old plan.new
        (λ file. flat_map (tile_packet tile.now file) (numbered (packets_in tile.now) at piece.end))
        (sum_by (tile_packet_size tile.now) (numbered (packets_in tile.now) at piece.end))) }
    ensures err { IfErr result IsMemory }
{
    plan_gap(tile, at, piece.start, plan)?;
    plan_kept(tile, piece.start, piece.end, plan)
}

/// Plans the packets of a part, those with numbers from one up to another. The intervals before the
/// `next`-th end there or before. Answers the number of the first interval that goes on behind too.
fn plan_numbers(
    alloc: Global,
    tile: &TileCut<'_>,
    intervals: &[(u32, u32)],
    next: usize,
    part: (usize, usize),
    size: usize,
) -> Result<(CutPlan, usize), Fault>
    requires cut { IsTileCut size tile.now }
    requires all { length tile.now.entries.now ≡ packet_count tile.now.shape.now }
    requires wanted { AreWanted tile.now intervals.now }
    requires ascend { IsNonDecreasingBy (λ s. s.0) intervals.now }
    requires before { EndBefore intervals.now next part.0 }
    requires next { next ≤ length intervals.now }
    requires order { part.0 ≤ part.1 }
    requires within { part.1 ≤ length tile.now.entries.now }
    ensures plan { IfOk result (λ r. IsRunPlan size tile.now (numbered (packets_in tile.now) part.0 part.1) r.0) }
    ensures before { IfOk result (λ r. EndBefore intervals.now r.1 part.1) }
    ensures next { IfOk result (λ r. r.1 ≤ length intervals.now) }
    ensures err { IfErr result IsMemory }
{
    let (first, behind) = part;
    let mut plan = CutPlan::new(alloc, size);
    let mut at = first;
    let mut i = next;
    while at < behind {
        i = first_past(intervals, i, at);
        let piece = piece_at(intervals, i, at, behind);
        plan_piece(tile, at, piece, &mut plan)?;
        at = piece.end;
    }
    Ok((plan, i))
}

/// Plans the packets of a tile, part by part, of which those are kept whose numbers the intervals
/// have.
pub(crate) fn plan_intervals(
    alloc: Global,
    tile: &TileCut<'_>,
    intervals: &[(u32, u32)],
    size: usize,
) -> Result<Vec<CutPlan>, Fault>
    requires cut { IsTileCut size tile.now }
    requires all { length tile.now.entries.now ≡ packet_count tile.now.shape.now }
    requires wanted { AreWanted tile.now intervals.now }
    requires ascend { IsNonDecreasingBy (λ s. s.0) intervals.now }
    ensures plans { IfOk result (λ v. AllZip (IsRunPlan size tile.now)
        (cut_at (packets_in tile.now) 0 tile.now.parts.now.ends.items) v.items) }
    ensures err { IfErr result IsMemory }
{
    let ends = &tile.parts.ends;
    let mut plans = Vec::with_capacity(alloc, ends.len())?;
    let mut first = 0;
    let mut next = 0;
    for end in ends {
        let (plan, behind) = plan_numbers(alloc, tile, intervals, next, (first, *end), size)?;
        plans.push(plan)?;
        next = behind;
        first = *end;
    }
    Ok(plans)
}
