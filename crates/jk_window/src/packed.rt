//! Entries of packets in few bytes each.

ghost use Rattle.std.specs.Prelude.{◌≡◌, Some};
ghost use Rattle.jk_window.specs.Packed.{counter_at, entry_by, entry_at, IsSpelled};
ghost use Rattle.jk_window.specs.declared.packed.Layout.TheVariants.{Joined, Near, Wide};

use jk_walk::PacketEntry;
use std::alloc::Global;
use std::marker::Model;

/// How the entries of a group are kept.
#[derive(Clone, Copy, Debug, PartialEq, Eq)]
pub(crate) enum Layout {
    /// Each begins where the one before it ends, and has a header of at most 255 bytes: by a mark
    /// at its front, a mark behind its end and the length of its header.
    Joined,
    /// Each as a `NearEntry`.
    Near,
    /// Each as it is.
    Wide,
}

/// 64 entries whose first has a number that 64 divides, or fewer at the end of a tile.
#[derive(Clone, Copy, Debug)]
pub(crate) struct Group {
    /// The byte from which marks and near entries count, which is the first entry's first one.
    pub(crate) base: usize,
    /// The place of the first entry in the lists of its layout.
    pub(crate) at: usize,
    pub(crate) layout: Layout,
    /// Whether each packet has an SOP whose counter is its number in the tile (T.800 A.8.1), where
    /// the entries aren't kept as they are; else none has one.
    pub(crate) counted: bool,
}

/// An entry whose first and last byte are told from its group's base on, and whose header is less
/// than 2^16 bytes.
#[derive(Clone, Copy, Debug)]
pub(crate) struct NearEntry {
    pub(crate) start: u32,
    pub(crate) end: u32,
    pub(crate) header: u16,
}

/// The lists that spell the entries of a tile, of all groups one behind another.
#[derive(Debug, Drop)]
pub(crate) struct Lists {
    pub(crate) groups: Vec<Group>,
    /// Of a joined group where each entry begins, and where the last one ends, from its base on.
    pub(crate) marks: Vec<u32>,
    /// For each mark the length of the header there, and 0 at a group's end.
    pub(crate) headers: Vec<u8>,
    pub(crate) near: Vec<NearEntry>,
    pub(crate) wide: Vec<PacketEntry>,
}

impl Lists {
    ghost use Rattle.std.specs.Prelude.{◌≡◌, []};
    ghost use Rattle.jk_window.specs.Packing.{AreLevel};

    /// Lists of nothing.
    pub(crate) fn new(alloc: Global) -> Lists
        ensures groups { result.groups.items ≡ [] }
        ensures level { AreLevel result }
    {
        Lists {
            groups: Vec::new(alloc),
            marks: Vec::new(alloc),
            headers: Vec::new(alloc),
            near: Vec::new(alloc),
            wide: Vec::new(alloc),
        }
    }

    /// Gives back what room is left over.
    pub(crate) fn fit(&mut self)
        ensures groups { self.new.groups.items ≡ self.old.groups.items }
        ensures marks { self.new.marks.items ≡ self.old.marks.items }
        ensures headers { self.new.headers.items ≡ self.old.headers.items }
        ensures near { self.new.near.items ≡ self.old.near.items }
        ensures wide { self.new.wide.items ≡ self.old.wide.items }
    {
        self.groups.shrink_to_fit();
        self.marks.shrink_to_fit();
        self.headers.shrink_to_fit();
        self.near.shrink_to_fit();
        self.wide.shrink_to_fit();
    }
}

/// The entries of the packets of a tile, in the order of the packets: 5.5 bytes a packet where they
/// touch and their counters are their numbers, or none has one; 12.4 bytes in each group of 64 in
/// which they don't touch, as where a tile-part ends; and 32.4 bytes in each that can't be told so.
#[derive(Debug, Drop)]
pub(crate) struct PackedEntries {
    lists: Lists,
    count: usize,
}

impl Model for PackedEntries {
    ghost use Rattle.std.specs.Prelude.{List};
    ghost use Rattle.jk_walk.specs.declared.entries.PacketEntry.{PacketEntry};

    ghost Value = { List PacketEntry };

    ghost use Rattle.jk_window.specs.Packed.{spelled, AreSpelled};

    ghost view = { λ p. spelled p.lists p.count };

    ghost invariant = { λ p. AreSpelled p.lists p.count };
}

impl PackedEntries {
    ghost use Rattle.std.specs.Prelude.{◌≡◌, ◌<◌, length, slice_index_or};
    ghost use Rattle.jk_walk.specs.declared.entries.PacketEntry.{PacketEntry};
    ghost use Rattle.jk_window.specs.Packed.{spelled, AreSpelled};

    /// The entries that lists spell.
    pub(crate) fn new(lists: Lists, count: usize) -> PackedEntries
        requires { AreSpelled lists count }
        ensures { result ≡ spelled lists count }
    {
        PackedEntries { lists, count }
    }

    /// How many entries there are.
    pub(crate) fn len(&self) -> usize
        ensures { result ≡ length self.now }
    {
        self.count
    }

    /// The entry with a number.
    pub(crate) fn get(&self, number: usize) -> PacketEntry
        requires { number < length self.now }
        ensures { (none : PacketEntry) → result ≡ slice_index_or self.now number none }
    {
        entry(&self.lists, number)
    }
}

/// The counter of the packet with a number, where packets are counted.
pub(crate) fn counter(counted: bool, number: usize) -> Option<(u8, u8)>
    ensures { result ≡ counter_at counted number }
{
    if counted {
        Some((((number / 256) % 256) as u8, (number % 256) as u8))
    } else {
        None
    }
}

/// An entry of a joined group, by the place of its mark.
fn joined(lists: &Lists, group: Group, number: usize, place: usize) -> PacketEntry
    requires { IsSpelled (entry_by Joined lists.now group number place) }
    ensures { entry_by Joined lists.now group number place ≡ Some result }
{
    let mark = group.at + place;
    let start = group.base + lists.marks[mark] as usize;
    PacketEntry {
        start,
        body: start + lists.headers[mark] as usize,
        end: group.base + lists.marks[mark + 1] as usize,
        counter: counter(group.counted, number),
    }
}

/// An entry of a near group.
fn near(lists: &Lists, group: Group, number: usize, place: usize) -> PacketEntry
    requires { IsSpelled (entry_by Near lists.now group number place) }
    ensures { entry_by Near lists.now group number place ≡ Some result }
{
    let kept = lists.near[group.at + place];
    let start = group.base + kept.start as usize;
    PacketEntry {
        start,
        body: start + kept.header as usize,
        end: group.base + kept.end as usize,
        counter: counter(group.counted, number),
    }
}

/// An entry of a wide group.
fn wide(lists: &Lists, group: Group, number: usize, place: usize) -> PacketEntry
    requires { IsSpelled (entry_by Wide lists.now group number place) }
    ensures { entry_by Wide lists.now group number place ≡ Some result }
{
    lists.wide[group.at + place]
}

/// The entry with a number that lists spell.
fn entry(lists: &Lists, number: usize) -> PacketEntry
    requires { IsSpelled (entry_at lists.now number) }
    ensures { entry_at lists.now number ≡ Some result }
{
    let group = lists.groups[number / 64];
    let place = number % 64;
    match group.layout {
        Layout::Joined => joined(lists, group, number, place),
        Layout::Near => near(lists, group, number, place),
        Layout::Wide => wide(lists, group, number, place),
    }
}
