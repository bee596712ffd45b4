//! What is kept of each packet of a tile.

ghost use Rattle.std.specs.Prelude.{◌≡◌};
ghost use Rattle.jk_walk.specs.Sop.{counter_of};
ghost use Rattle.jk_walk.specs.Entries.{packet_entry};

use crate::places::PacketPlace;
use crate::spans::OfPacket;
use std::marker::Model;

/// Where a packet stands in the codestream, in bytes from its first one on.
#[derive(Clone, Copy, Debug, PartialEq, Eq, Drop)]
pub struct PacketEntry {
    /// The packet's first byte, which is its header's, or that of an SOP marker segment.
    pub start: usize,
    /// The first byte behind the header and its EPH marker, where the bodies begin.
    pub body: usize,
    /// The first byte behind the packet.
    pub end: usize,
    /// The two bytes of the counter (Nsop) of its SOP marker segment, where it has one (T.800
    /// A.8.1).
    pub counter: Option<(u8, u8)>,
}

/// The counter of the SOP marker segment at the front of a packet, where one may stand and does.
fn counter(sop: bool, text: &[u8]) -> Option<(u8, u8)>
    ensures { result ≡ counter_of sop text.now }
{
    if text.len() >= 6 && sop && text[0] == 0xFF && text[1] == 0x91 {
        Some((text[4], text[5]))
    } else {
        None
    }
}

impl OfPacket for PacketEntry {
    ghost kept_of = { packet_entry };

    fn of_packet(bytes: &[u8], sop: bool, place: PacketPlace, end: usize) -> PacketEntry {
        PacketEntry {
            start: place.start,
            body: place.body,
            end,
            counter: counter(sop, &bytes[place.start..end]),
        }
    }
}

/// Where the packets of a tile stand: an entry of 32 bytes for each packet, in the order of the
/// packets, as `jk_order::packet_names` gives their names.
#[derive(Debug, Drop)]
pub struct TileEntries {
    entries: Vec<PacketEntry>,
}

impl Model for TileEntries {
    ghost use Rattle.std.specs.Prelude.{List};
    ghost use Rattle.jk_walk.specs.declared.entries.PacketEntry.{PacketEntry};

    ghost Value = { List PacketEntry };

    ghost view = { λ e. e.entries.items };
}

impl TileEntries {
    /// These entries.
    pub(crate) fn new(entries: Vec<PacketEntry>) -> TileEntries
        ensures { result ≡ entries.items }
    {
        TileEntries { entries }
    }

    /// The entries, packet by packet in the order of the tile.
    pub fn as_slice(&self) -> &[PacketEntry]
        ensures { result.now ≡ self.now }
    {
        &self.entries
    }
}
