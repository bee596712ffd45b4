//! Which packets of a tile stand in which of its parts.

ghost use Rattle.std.specs.Prelude.{◌≡◌, ◌+◌, ◌<◌, ◌≤◌, ℕ, false, List, length, drop, IfOk, IfErr};
ghost use Rattle.std.specs.List.{zip};
ghost use Rattle.jk_math.specs.Memory.{IsMemory};
ghost use Rattle.jk_marks.specs.Siz.{tile_count};
ghost use Rattle.jk_geom.specs.declared.shape.PacketName.{PacketName};
ghost use Rattle.jk_params.specs.Headers.{AreHeaders, tile_in};
ghost use Rattle.jk_window.specs.Cutting.{run_at};
ghost use Rattle.jk_window.specs.Indexing.{AreIndexed};
ghost use Rattle.jk_window.specs.PartEnds.{AreEnds, ArePartEnds, HaveNoCounters, IsPartEnds, HavePartEnds, count_at};

use crate::packed::PackedEntries;
use jk_math::Fault;
use jk_params::Codestream;
use std::alloc::Global;

/// Where the packets of a tile are cut into parts, whether EPH stands at them, and whether any of
/// them has an SOP.
#[derive(Debug, Drop)]
pub(crate) struct PartEnds {
    /// The number of the packet behind the last one of each part.
    pub(crate) ends: Vec<usize>,
    pub(crate) eph: bool,
    pub(crate) counted: bool,
}

impl PartEnds {
    /// How many packets a part has.
    pub(crate) fn count(&self, number: usize) -> usize
        requires part { number < length self.now.ends.items }
        requires ends { (most : ℕ) × AreEnds 0 most self.now.ends.items }
        ensures { result ≡ count_at 0 self.now.ends.items number }
    {
        let end = self.ends[number];
        if number == 0 {
            end
        } else {
            end - self.ends[number - 1]
        }
    }
}

/// The number of the packet behind those of a part, of which the first has number `next`.
fn end_of_run(entries: &PackedEntries, next: usize, part: (usize, usize)) -> usize
    requires { next ≤ length entries.now }
    ensures run { (names : List PacketName) → length names ≡ length entries.now
        → result ≡ next + length (run_at (drop next (zip names entries.now)) part.0 part.1) }
    ensures order { next ≤ result }
    ensures within { result ≤ length entries.now }
{
    let (start, end) = part;
    let mut at = start;
    let mut i = next;
    while at < end && i < entries.len() {
        let entry = entries.get(i);
        at = entry.end;
        i += 1;
    }
    i
}

/// Where the packets of a tile are cut into parts.
fn ends_of(
    alloc: Global,
    entries: &PackedEntries,
    places: &[(usize, usize)],
) -> Result<Vec<usize>, Fault>
    ensures ends { IfOk result (λ v. ArePartEnds entries.now places.now v.items) }
    ensures err { IfErr result IsMemory }
{
    let mut ends = Vec::with_capacity(alloc, places.len())?;
    let mut next = 0;
    for place in places {
        next = end_of_run(entries, next, *place);
        ends.push(next)?;
    }
    Ok(ends)
}

/// Whether a packet has an SOP.
fn have_counters(entries: &PackedEntries) -> bool
    ensures { result ≡ false → HaveNoCounters entries.now }
{
    for i in 0..entries.len() {
        let entry = entries.get(i);
        if entry.counter.is_some() {
            return true;
        }
    }
    false
}

/// What is kept of the parts of a tile with these entries.
fn part_ends(
    alloc: Global,
    headers: &Codestream,
    tile: usize,
    entries: &PackedEntries,
) -> Result<PartEnds, Fault>
    requires { tile < length headers.now.tiles }
    ensures ends { IfOk result (IsPartEnds entries.now (tile_in headers.now.tiles tile)) }
    ensures err { IfErr result IsMemory }
{
    Ok(PartEnds {
        ends: ends_of(alloc, entries, headers.data_places(tile))?,
        eph: headers.cod(tile).eph,
        counted: have_counters(entries),
    })
}

/// What is kept of the parts of all tiles.
pub(crate) fn all_part_ends(
    alloc: Global,
    headers: &Codestream,
    packets: &[PackedEntries],
) -> Result<Vec<PartEnds>, Fault>
    requires headers { (size : ℕ) × AreHeaders size headers.now }
    requires count { length packets.now ≡ tile_count headers.now.siz }
    ensures ends { IfOk result (λ v. HavePartEnds headers.now packets.now v.items) }
    ensures err { IfErr result IsMemory }
{
    let mut all = Vec::with_capacity(alloc, packets.len())?;
    for tile in 0..packets.len() {
        all.push(part_ends(alloc, headers, tile, &packets[tile])?)?;
    }
    Ok(all)
}
