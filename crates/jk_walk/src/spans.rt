//! Where the packets of a tile begin and end.

ghost use Rattle.std.specs.Prelude.{◌≡◌, ◌≤◌, ℕ, Bool, List, length};
ghost use Rattle.jk_walk.specs.WalkReading.{place_end};
ghost use Rattle.jk_walk.specs.declared.places.PacketPlace.{PacketPlace as Place};

use crate::places::PacketPlace;
use jk_geom::PacketName;

/// The bytes of a packet in the codestream.
#[derive(Clone, Copy, Debug, PartialEq, Eq, Drop)]
pub struct PacketSpan {
    /// Whose packet it is.
    pub name: PacketName,
    /// The packet's first byte.
    pub start: usize,
    /// The first byte behind it.
    pub end: usize,
}

/// What a walk over the packets of a tile keeps of each.
pub(crate) trait OfPacket: Drop {
    ghost kept_of: { List ℕ → Bool → Place → Self };

    /// What is kept of the packet of a place in the codestream, which ends here. SOP may stand
    /// before it where `sop` says so.
    fn of_packet(bytes: &[u8], sop: bool, place: PacketPlace, end: usize) -> Self
        requires end { end ≡ place_end place }
        requires within { (place.start ≤ end) × (end ≤ length bytes.now) }
        ensures { result ≡ kept_of bytes.now sop place };
}

impl OfPacket for PacketPlace {
    ghost kept_of = { λ bytes sop w. w };

    fn of_packet(_bytes: &[u8], _sop: bool, place: PacketPlace, _end: usize) -> PacketPlace {
        place
    }
}
