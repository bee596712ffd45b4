//! The packing of entries.

ghost use Rattle.std.specs.Prelude.{◌≡◌, ◌+◌, ◌-◌, ◌*◌, ◌<◌, ◌≤◌, ◌^◌, ◌++◌, ◌∷◌, [], ℕ, true, length, map, IfOk, IfErr, OnOk};
ghost use Rattle.std.specs.List.{All};
ghost use Rattle.jk_math.specs.Memory.{IsMemory};
ghost use Rattle.jk_window.specs.Packing.{FitsWords, FitsNear, HasShortHeader, AreTouching, AreJoined, AreCounted, FitNear, mark_of, header_of, near_of, AreFor, AreLevel, IsMore};
ghost use Rattle.jk_window.specs.declared.packed.Layout.TheVariants.{Joined, Near, Wide};

use crate::packed::{Group, Layout, Lists, NearEntry, PackedEntries, counter};
use jk_math::Fault;
use jk_walk::PacketEntry;
use std::alloc::Global;

/// Whether an entry is near a byte.
fn is_near(entry: PacketEntry, base: usize) -> bool
    ensures { result ≡ true → FitsNear base entry }
{
    base <= entry.start
        && entry.start <= entry.body
        && base <= entry.end
        && entry.start - base < 0x1_0000_0000
        && entry.end - base < 0x1_0000_0000
        && entry.body - entry.start < 0x1_0000
}

/// Whether entries are near a byte.
fn are_near(piece: &[PacketEntry], base: usize) -> bool
    ensures { result ≡ true → All (FitsNear base) piece.now }
{
    for entry in piece {
        if !is_near(*entry, base) {
            return false;
        }
    }
    true
}

/// Whether the first entry begins at a byte, and each other one where the one before it ends.
fn are_touching(piece: &[PacketEntry], base: usize) -> bool
    ensures { result ≡ true → AreTouching base piece.now }
{
    let mut at = base;
    for entry in piece {
        if entry.start != at {
            return false;
        }
        at = entry.end;
    }
    true
}

/// Whether entries have headers of less than 256 bytes.
fn are_short(piece: &[PacketEntry]) -> bool
    requires { (base : ℕ) × All (FitsNear base) piece.now }
    ensures { result ≡ true → All HasShortHeader piece.now }
{
    for entry in piece {
        if entry.body - entry.start > 0xFF {
            return false;
        }
    }
    true
}

/// Whether packets from a number on are counted, or have no SOP.
fn are_counted(piece: &[PacketEntry], first: usize, counted: bool) -> bool
    requires { first + length piece.now < 2 ^ 64 }
    ensures { result ≡ true → AreCounted counted first piece.now }
{
    for (place, entry) in piece.iter().enumerate() {
        if entry.counter != counter(counted, first + place) {
            return false;
        }
    }
    true
}

/// The layout with the fewest bytes for the entries from a number on.
fn layout_of(piece: &[PacketEntry], first: usize, base: usize, counted: bool) -> Layout
    requires { first + length piece.now < 2 ^ 64 }
    ensures { AreFor result counted first base piece.now }
{
    if !are_near(piece, base) {
        return Layout::Wide;
    }
    if !are_counted(piece, first, counted) {
        return Layout::Wide;
    }
    if are_touching(piece, base) && are_short(piece) {
        Layout::Joined
    } else {
        Layout::Near
    }
}

/// Appends the marks of a joined group.
fn push_marks(marks: &mut Vec<u32>, piece: &[PacketEntry], base: usize) -> Result<(), Fault>
    requires { All (FitsNear base) piece.now }
    ensures ok { OnOk result (marks.new.items ≡ marks.old.items ++ (0 ∷ map (mark_of base) piece.now)) }
    ensures err { IfErr result IsMemory }
{
    marks.push(0)?;
    for entry in piece {
        marks.push((entry.end - base) as u32)?;
    }
    Ok(())
}

/// Appends the lengths of the headers of a joined group.
fn push_headers(headers: &mut Vec<u8>, piece: &[PacketEntry]) -> Result<(), Fault>
    requires near { (base : ℕ) × All (FitsNear base) piece.now }
    requires short { All HasShortHeader piece.now }
    ensures ok { OnOk result (headers.new.items ≡ headers.old.items ++ (map header_of piece.now ++ 0 ∷ [])) }
    ensures err { IfErr result IsMemory }
{
    for entry in piece {
        headers.push((entry.body - entry.start) as u8)?;
    }
    headers.push(0)?;
    Ok(())
}

/// Appends the entries of a near group.
fn push_near(near: &mut Vec<NearEntry>, piece: &[PacketEntry], base: usize) -> Result<(), Fault>
    requires { All (FitsNear base) piece.now }
    ensures ok { OnOk result (near.new.items ≡ near.old.items ++ map (near_of base) piece.now) }
    ensures err { IfErr result IsMemory }
{
    for entry in piece {
        near.push(NearEntry {
            start: (entry.start - base) as u32,
            end: (entry.end - base) as u32,
            header: (entry.body - entry.start) as u16,
        })?;
    }
    Ok(())
}

/// An entry, whose places are numbers of 64 bits.
fn words(entry: PacketEntry) -> PacketEntry
    ensures value { result ≡ entry }
    ensures words { FitsWords entry }
{
    entry
}

/// Appends entries as they are.
fn push_wide(wide: &mut Vec<PacketEntry>, piece: &[PacketEntry]) -> Result<(), Fault>
    ensures ok { OnOk result (wide.new.items ≡ wide.old.items ++ piece.now) }
    ensures words { OnOk result (All FitsWords piece.now) }
    ensures err { IfErr result IsMemory }
{
    for entry in piece {
        wide.push(words(*entry))?;
    }
    Ok(())
}

/// Appends a joined group.
fn add_joined(
    lists: &mut Lists,
    piece: &[PacketEntry],
    first: usize,
    base: usize,
    counted: bool,
) -> Result<(), Fault>
    requires near { FitNear counted first base piece.now }
    requires joined { AreJoined base piece.now }
    requires level { AreLevel lists.old }
    ensures ok { OnOk result (IsMore lists.old lists.new piece.now first) }
    ensures err { IfErr result IsMemory }
{
    let at = lists.marks.len();
    push_marks(&mut lists.marks, piece, base)?;
    push_headers(&mut lists.headers, piece)?;
    lists.groups.push(Group {
        base,
        at,
        layout: Layout::Joined,
        counted,
    })?;
    Ok(())
}

/// Appends a near group.
fn add_near(
    lists: &mut Lists,
    piece: &[PacketEntry],
    first: usize,
    base: usize,
    counted: bool,
) -> Result<(), Fault>
    requires { FitNear counted first base piece.now }
    ensures ok { OnOk result (IsMore lists.old lists.new piece.now first) }
    ensures err { IfErr result IsMemory }
{
    let at = lists.near.len();
    push_near(&mut lists.near, piece, base)?;
    lists.groups.push(Group {
        base,
        at,
        layout: Layout::Near,
        counted,
    })?;
    Ok(())
}

/// Appends a wide group.
fn add_wide(lists: &mut Lists, piece: &[PacketEntry], first: usize) -> Result<(), Fault>
    ensures ok { OnOk result (IsMore lists.old lists.new piece.now first) }
    ensures err { IfErr result IsMemory }
{
    let at = lists.wide.len();
    push_wide(&mut lists.wide, piece)?;
    lists.groups.push(Group {
        base: 0,
        at,
        layout: Layout::Wide,
        counted: false,
    })?;
    Ok(())
}

/// Appends the entries from a number on as a group.
fn add_group(lists: &mut Lists, piece: &[PacketEntry], first: usize) -> Result<(), Fault>
    requires some { 0 < length piece.now }
    requires fits { first + length piece.now < 2 ^ 64 }
    requires level { AreLevel lists.old }
    ensures ok { OnOk result (IsMore lists.old lists.new piece.now first) }
    ensures err { IfErr result IsMemory }
{
    let base = piece[0].start;
    let counted = piece[0].counter.is_some();
    match layout_of(piece, first, base, counted) {
        Layout::Joined => add_joined(lists, piece, first, base, counted),
        Layout::Near => add_near(lists, piece, first, base, counted),
        Layout::Wide => add_wide(lists, piece, first),
    }
}

/// The entries of a tile in few bytes each.
///
/// Memory: there wasn't room for them.
pub(crate) fn pack(alloc: Global, entries: &[PacketEntry]) -> Result<PackedEntries, Fault>
    ensures value { IfOk result (λ v. v ≡ entries.now) }
    ensures err { IfErr result IsMemory }
{
    let mut lists = Lists::new(alloc);
    for number in 0..entries.len().div_ceil(64) {
        let first = number * 64;
        let behind = first + (entries.len() - first).min(64);
        add_group(&mut lists, &entries[first..behind], first)?;
    }
    lists.fit();
    Ok(PackedEntries::new(lists, entries.len()))
}
