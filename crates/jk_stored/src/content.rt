//! The data of a tile in the codestream of a window.

ghost use Rattle.std.specs.Prelude.{◌≡◌, ◌+◌, ◌≤◌, ◌++◌, ◌∷◌, [], ℕ, List, length, IfOk, OnOk};
ghost use Rattle.std.specs.List.{AllByRecursion};
ghost use Rattle.jk_math.specs.Front.{IsFront};
ghost use Rattle.jk_order.specs.PacketOrder.{IsName, packet_count};
ghost use Rattle.jk_packet.specs.PacketText.{eph_text};
ghost use Rattle.jk_walk.specs.TilePackets.{slice_of};
ghost use Rattle.jk_walk.specs.Sop.{sop_written};
ghost use Rattle.jk_stored.specs.Hands.{IsHeld};
ghost use Rattle.jk_stored.specs.Contents.{IsSeen, is_kept, packet_of, content_of};

use crate::hand::Hand;
use crate::needed::{NeededIn, RESOLUTIONS};
use crate::stored::Stored;
use jk_geom::{PacketName, TileShape, is_empty};
use jk_math::{Fault, Rect};
use jk_walk::PacketEntry;

/// A tile, and what of it a window sees.
#[derive(Clone, Copy)]
pub(crate) struct Seen<'a> {
    pub(crate) shape: &'a TileShape,
    /// Whether EPH stands at the packets.
    pub(crate) eph: bool,
    /// The window, as far as the reduced tile has it.
    pub(crate) top: Rect,
    pub(crate) reduce: u8,
    /// What it needs of the resolutions of the components.
    pub(crate) needed: &'a [NeededIn],
}

/// Whether the window needs the precinct of a packet.
fn is_kept(seen: &Seen<'_>, name: PacketName) -> bool
    requires seen { IsSeen seen.now }
    requires name { IsName seen.now.shape.now name }
    ensures { result ≡ is_kept seen.now name }
{
    if is_empty(&seen.top) {
        return false;
    }
    let number = name.component as usize * RESOLUTIONS + name.resolution as usize;
    let needed = &seen.needed[number];
    needed.precincts.has(needed.across, name.precinct)
}

/// Appends the bytes of a stored codestream from a place up to another.
fn put_stretch<S: Stored>(
    stored: &S,
    start: usize,
    end: usize,
    hand: &mut Hand,
    out: &mut Vec<u8>,
) -> Result<(), Fault>
    ensures put { (c : List ℕ) → S.keeps stored.now c → IsHeld c hand.old
        → OnOk result (out.new.items ≡ out.old.items ++ slice_of c (start, end)) }
    ensures front { OnOk result (IsFront out.old.items out.new.items) }
    ensures held { (c : List ℕ) → S.keeps stored.now c → IsHeld c hand.old → OnOk result (IsHeld c hand.new) }
{
    let mut at = start;
    while at < end {
        hand.reach(stored, at, end)?;
        let bytes = hand.bytes(at, end);
        if bytes.is_empty() {
            return Err(Fault::Truncated);
        }
        out.extend_from_slice(bytes)?;
        at += bytes.len();
    }
    Ok(())
}

/// Appends an empty packet: its SOP marker segment, if it has one, a header of the bit 0, and EPH,
/// where it must stand.
fn put_emptied(counter: Option<(u8, u8)>, eph: bool, out: &mut Vec<u8>) -> Result<(), Fault>
    ensures { OnOk result (out.new.items ≡ out.old.items ++ (sop_written counter ++ (0 ∷ eph_text eph))) }
{
    if let Some((high, low)) = counter {
        out.extend_from_slice(&[0xFF, 0x91, 0, 4, high, low])?;
    }
    if eph {
        out.extend_from_slice(&[0, 0xFF, 0x92])?;
    } else {
        out.push(0)?;
    }
    Ok(())
}

/// Appends a packet: all of it, where the window needs it, and else an empty one.
fn put_packet<S: Stored>(
    stored: &S,
    seen: &Seen<'_>,
    name: PacketName,
    entry: PacketEntry,
    hand: &mut Hand,
    out: &mut Vec<u8>,
) -> Result<(), Fault>
    requires seen { IsSeen seen.now }
    requires name { IsName seen.now.shape.now name }
    ensures put { (c : List ℕ) → S.keeps stored.now c → IsHeld c hand.old
        → OnOk result (out.new.items
        ≡ out.old.items ++ packet_of c (is_kept seen.now) seen.now.eph (name, entry)) }
    ensures front { OnOk result (IsFront out.old.items out.new.items) }
    ensures held { (c : List ℕ) → S.keeps stored.now c → IsHeld c hand.old → OnOk result (IsHeld c hand.new) }
{
    if is_kept(seen, name) {
        put_stretch(stored, entry.start, entry.end, hand, out)
    } else {
        put_emptied(entry.counter, seen.eph, out)
    }
}

/// Appends the data of a tile, whose packets have these names and entries, as a window keeps them.
fn put_content<S: Stored>(
    stored: &S,
    seen: &Seen<'_>,
    names: &[PacketName],
    entries: &[PacketEntry],
    hand: &mut Hand,
    out: &mut Vec<u8>,
) -> Result<(), Fault>
    requires seen { IsSeen seen.now }
    requires names { AllByRecursion (IsName seen.now.shape.now) names.now }
    ensures put { (c : List ℕ) → S.keeps stored.now c → IsHeld c hand.old
        → OnOk result (out.new.items ≡ out.old.items ++ content_of c seen.now names.now entries.now) }
    ensures front { OnOk result (IsFront out.old.items out.new.items) }
    ensures held { (c : List ℕ) → S.keeps stored.now c → IsHeld c hand.old → OnOk result (IsHeld c hand.new) }
{
    let count = names.len().min(entries.len());
    for i in 0..count {
        put_packet(stored, seen, names[i], entries[i], hand, out)?;
    }
    Ok(())
}

/// How many bytes a packet has as a window keeps it, where it ends behind its beginning.
fn packet_size(seen: &Seen<'_>, name: PacketName, entry: PacketEntry) -> usize
    requires seen { IsSeen seen.now }
    requires name { IsName seen.now.shape.now name }
{
    if is_kept(seen, name) {
        return entry.end.saturating_sub(entry.start);
    }
    let sop = if entry.counter.is_some() { 6 } else { 0 };
    let eph = if seen.eph { 2 } else { 0 };
    sop + 1 + eph
}

/// How many bytes the data of a tile have as a window keeps them, by the entries of its packets.
pub(crate) fn content_size(seen: &Seen<'_>, names: &[PacketName], entries: &[PacketEntry]) -> usize
    requires seen { IsSeen seen.now }
    requires names { AllByRecursion (IsName seen.now.shape.now) names.now }
{
    let packets = names.len().min(entries.len());
    let mut size: usize = 0;
    for i in 0..packets {
        size = size.saturating_add(packet_size(seen, names[i], entries[i]));
    }
    size
}

/// Appends the data of a tile, as a window keeps them, which are to have so many bytes.
///
/// Also a fault where they have not.
pub(crate) fn put_due<S: Stored>(
    stored: &S,
    seen: &Seen<'_>,
    names: &[PacketName],
    entries: &[PacketEntry],
    due: usize,
    hand: &mut Hand,
    out: &mut Vec<u8>,
) -> Result<(), Fault>
    requires seen { IsSeen seen.now }
    requires names { AllByRecursion (IsName seen.now.shape.now) names.now }
    ensures put { OnOk result ((content : List ℕ) × (out.new.items ≡ out.old.items ++ content)
        × (length content ≡ due) × ((c : List ℕ) → S.keeps stored.now c → IsHeld c hand.old
        → content ≡ content_of c seen.now names.now entries.now)) }
    ensures held { (c : List ℕ) → S.keeps stored.now c → IsHeld c hand.old → OnOk result (IsHeld c hand.new) }
{
    let before = out.len();
    put_content(stored, seen, names, entries, hand, out)?;
    if out.len() - before != due {
        return Err(Fault::BadLength);
    }
    Ok(())
}
