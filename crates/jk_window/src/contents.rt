//! What a plan takes of the packets of a tile.

ghost use Rattle.std.specs.Prelude.{◌≡◌, ◌+◌, ◌-◌, ◌≤◌, ◌++◌, ◌∷◌, ℕ, List, length, IfOk, IfErr, OnOk};
ghost use Rattle.std.specs.Prelude.{IfSome, IsTrue, ◌↔◌};
ghost use Rattle.std.specs.List.{AllByRecursion, AllZip, zip};
ghost use Rattle.jk_math.specs.Memory.{IsMemory};
ghost use Rattle.jk_order.specs.PacketOrder.{IsName};
ghost use Rattle.jk_packet.specs.PacketText.{eph_text};
ghost use Rattle.jk_walk.specs.Entries.{IsEntry};
ghost use Rattle.jk_walk.specs.Sop.{sop_written};
ghost use Rattle.jk_window.specs.Cutting.{runs_at, wanted};
ghost use Rattle.jk_window.specs.Judging.{is_needed_in, IsJudged};
ghost use Rattle.jk_window.specs.Planning.{IsTileCut, IsRunPlan, IsBehind, tile_packet, tile_packet_size, run_from};

use crate::need::needs;
use crate::packed::PackedEntries;
use crate::parts::PartEnds;
use crate::steps::CutPlan;
use jk_geom::{PacketName, TileShape, is_empty};
use jk_math::{Fault, Rect};
use jk_walk::PacketEntry;
use std::alloc::Global;

/// A tile of a file, and what of it is in a window.
#[derive(Clone, Copy)]
pub(crate) struct TileCut<'a> {
    pub(crate) shape: &'a TileShape,
    pub(crate) entries: &'a PackedEntries,
    pub(crate) parts: &'a PartEnds,
    /// Whether EPH stands at the packets.
    pub(crate) eph: bool,
    /// Where the codestream begins in the file.
    pub(crate) start: usize,
    /// The window, as far as the reduced tile has it.
    pub(crate) top: Rect,
    pub(crate) reduce: u8,
    /// How many layers are kept of a precinct that the window needs.
    pub(crate) layers: u32,
}

/// Whether the window needs the precinct of a packet.
fn is_needed(tile: &TileCut<'_>, name: PacketName) -> bool
    requires cut { (file : ℕ) × IsTileCut file tile.now }
    requires name { IsName tile.now.shape.now name }
    ensures { result ≡ is_needed_in tile.now name.component name.resolution name.precinct }
{
    let shape = tile.shape;
    if is_empty(&tile.top) {
        return false;
    }
    let coding = &shape.codings.as_slice()[name.component as usize];
    needs(
        &shape.rect,
        coding,
        &tile.top,
        tile.reduce,
        name.resolution,
        name.precinct,
    )
}

/// A precinct that was looked at, and whether the window needs it. It is kept for the packets behind
/// it that are of the same precinct: the other layers, where these come inside and are several. Of
/// one layer, and where layers come outside, each packet is of another precinct than the last one.
#[derive(Clone, Copy)]
pub(crate) struct Judged {
    pub(crate) component: u8,
    pub(crate) resolution: u8,
    pub(crate) precinct: u32,
    pub(crate) is_needed: bool,
}

/// Whether it is the precinct of a packet.
fn is_of(judged: Judged, name: PacketName) -> bool
    ensures { IsTrue result ↔ ((judged.component ≡ name.component) × (judged.resolution ≡ name.resolution)
        × (judged.precinct ≡ name.precinct)) }
{
    judged.component == name.component
        && judged.resolution == name.resolution
        && judged.precinct == name.precinct
}

/// The precinct of a packet, which is the one that was looked at last for most packets.
fn judge(tile: &TileCut<'_>, name: PacketName, last: Option<Judged>) -> Judged
    requires cut { (file : ℕ) × IsTileCut file tile.now }
    requires name { IsName tile.now.shape.now name }
    requires last { IfSome last (IsJudged tile.now) }
    ensures judged { IsJudged tile.now result }
    ensures own { result.is_needed ≡ is_needed_in tile.now name.component name.resolution name.precinct }
{
    match last {
        Some(judged) if is_of(judged, name) => judged,
        _ => Judged {
            component: name.component,
            resolution: name.resolution,
            precinct: name.precinct,
            is_needed: is_needed(tile, name),
        },
    }
}

/// Whether the window needs the precinct of a packet, which is then the one that was looked at
/// last.
fn is_due(tile: &TileCut<'_>, name: PacketName, last: &mut Option<Judged>) -> bool
    requires cut { (file : ℕ) × IsTileCut file tile.now }
    requires name { IsName tile.now.shape.now name }
    requires last { IfSome last.old (IsJudged tile.now) }
    ensures last { IfSome last.new (IsJudged tile.now) }
    ensures is { result ≡ is_needed_in tile.now name.component name.resolution name.precinct }
{
    let judged = judge(tile, name, *last);
    *last = Some(judged);
    judged.is_needed
}

/// Whether a packet is kept: its layer is one of the first, and the window needs its precinct.
fn is_wanted(tile: &TileCut<'_>, name: PacketName, last: &mut Option<Judged>) -> bool
    requires cut { (file : ℕ) × IsTileCut file tile.now }
    requires name { IsName tile.now.shape.now name }
    requires last { IfSome last.old (IsJudged tile.now) }
    ensures last { IfSome last.new (IsJudged tile.now) }
    ensures is { result ≡ wanted tile.now.shape.now tile.now.top tile.now.reduce tile.now.layers name }
{
    (name.layer as u32) < tile.layers && is_due(tile, name, last)
}

/// Writes the SOP marker segment of this counter (T.800 A.8.1), if there is one.
fn put_sop(plan: &mut CutPlan, counter: Option<(u8, u8)>) -> Result<(), Fault>
    ensures ok { OnOk result (IsBehind plan.old plan.new (λ _. sop_written counter) (length (sop_written counter))) }
    ensures err { IfErr result IsMemory }
{
    match counter {
        Some((high, low)) => plan.write(&[0xFF, 0x91, 0, 4, high, low]),
        None => Ok(()),
    }
}

/// Writes an empty packet: its SOP marker segment, if it has one, a header of the bit 0, and EPH,
/// where it must stand.
pub(crate) fn put_emptied(
    plan: &mut CutPlan,
    counter: Option<(u8, u8)>,
    eph: bool,
) -> Result<(), Fault>
    ensures ok { OnOk result (IsBehind plan.old plan.new (λ _. sop_written counter ++ (0 ∷ eph_text eph))
        (length (sop_written counter) + length (0 ∷ eph_text eph))) }
    ensures err { IfErr result IsMemory }
{
    put_sop(plan, counter)?;
    if eph {
        plan.write(&[0, 0xFF, 0x92])
    } else {
        plan.write_byte(0)
    }
}

/// Plans a packet: all of it, where it is kept, and else an empty one.
fn plan_packet(
    tile: &TileCut<'_>,
    name: PacketName,
    entry: PacketEntry,
    last: &mut Option<Judged>,
    plan: &mut CutPlan,
) -> Result<(), Fault>
    requires cut { IsTileCut plan.old.size tile.now }
    requires last { IfSome last.old (IsJudged tile.now) }
    requires name { IsName tile.now.shape.now name }
    requires entry { IsEntry (plan.old.size - tile.now.start) entry }
    ensures ok { OnOk result (IsBehind plan.old plan.new
        (λ file. tile_packet tile.now file (name, entry)) (tile_packet_size tile.now (name, entry))) }
    ensures last { IfSome last.new (IsJudged tile.now) }
    ensures err { IfErr result IsMemory }
{
    if is_wanted(tile, name, last) {
        plan.copy(tile.start + entry.start, tile.start + entry.end)
    } else {
        put_emptied(plan, entry.counter, tile.eph)
    }
}

/// Plans the packets of a part: those from the `next`-th on, which stand one after another from the
/// start of the part on, up to its end. Answers the number of the first packet behind them too.
fn plan_run(
    alloc: Global,
    tile: &TileCut<'_>,
    names: &[PacketName],
    next: usize,
    part: (usize, usize),
    size: usize,
) -> Result<(CutPlan, usize), Fault>
    requires cut { IsTileCut size tile.now }
    requires names { AllByRecursion (IsName tile.now.shape.now) names.now }
    requires all { length names.now ≡ length tile.now.entries.now }
    ensures plan { IfOk result (λ r. IsRunPlan size tile.now (run_from tile.now names.now next part) r.0) }
    ensures next { IfOk result (λ r. r.1 ≡ next + length (run_from tile.now names.now next part)) }
    ensures err { IfErr result IsMemory }
{
    let (start, end) = part;
    let mut plan = CutPlan::new(alloc, size);
    let mut at = start;
    let mut i = next;
    let mut last = None;
    while at < end && i < names.len() {
        let entry = tile.entries.get(i);
        plan_packet(tile, names[i], entry, &mut last, &mut plan)?;
        at = entry.end;
        i += 1;
    }
    Ok((plan, i))
}

/// Plans the packets of a tile, part by part.
pub(crate) fn plan_runs(
    alloc: Global,
    tile: &TileCut<'_>,
    names: &[PacketName],
    parts: &[(usize, usize)],
    size: usize,
) -> Result<Vec<CutPlan>, Fault>
    requires cut { IsTileCut size tile.now }
    requires names { AllByRecursion (IsName tile.now.shape.now) names.now }
    requires all { length names.now ≡ length tile.now.entries.now }
    ensures plans { IfOk result (λ v. AllZip (IsRunPlan size tile.now)
        (runs_at (zip names.now tile.now.entries.now) parts.now) v.items) }
    ensures err { IfErr result IsMemory }
{
    let mut plans = Vec::with_capacity(alloc, parts.len())?;
    let mut next = 0;
    for part in parts {
        let (plan, behind) = plan_run(alloc, tile, names, next, *part, size)?;
        plans.push(plan)?;
        next = behind;
    }
    Ok(plans)
}
