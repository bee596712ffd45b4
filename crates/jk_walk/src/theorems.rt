//! Laws of the packets of a tile: the contract of an empty function is the law.

ghost use Rattle.std.specs.Prelude.{◌≡◌, ◌<◌, ℕ, Bool, List, length, Ok};
ghost use Rattle.std.specs.List.{AllZip};
ghost use Rattle.jk_marks.specs.Siz.{tile_count};
ghost use Rattle.jk_params.specs.Headers.{Headers, tile_in, AreHeaders};
ghost use Rattle.jk_walk.specs.declared.places.PacketPlace.{PacketPlace};
ghost use Rattle.jk_walk.specs.TilePackets.{shape_in, Packet, IsPacket};
ghost use Rattle.jk_walk.specs.WalkReading.{packets_at, spans_at, IsPlaced, AreTilePackets, StandAt};
ghost use Rattle.jk_walk.specs.Sop.{sop_of, counter_of, sop_written};
ghost use Rattle.jk_walk.specs.Entries.{entries_at, spans_from};

/// The data of a tile's parts are read exactly where they are the texts of its packets, cut into a
/// run for each part: what is read are packets of the tile, and packets of the tile are read, each
/// at its place.
pub fn packets_are_read()
    ensures found { (bytes : List ℕ) (h : Headers) (t : ℕ) (places : List PacketPlace) → AreHeaders (length bytes) h
        → t < tile_count h.siz
        → packets_at bytes h t ≡ Ok places → StandAt bytes h t places }
    ensures only { (bytes : List ℕ) (h : Headers) (t : ℕ) (packets : List Packet) → AreHeaders (length bytes) h
        → t < tile_count h.siz
        → AreTilePackets bytes h t packets
        → (places : List PacketPlace) × (packets_at bytes h t ≡ Ok places)
        × AllZip (IsPlaced bytes) packets places }
{}

/// The entries of a tile, beside the names of its packets, give the bytes of its packets in their
/// order, or the same fault.
pub fn entries_give_spans()
    ensures spans { (bytes : List ℕ) (h : Headers) (t : ℕ) → AreHeaders (length bytes) h → t < tile_count h.siz
        → spans_at bytes h t ≡ spans_from (shape_in h.siz (tile_in h.tiles t) t) (entries_at bytes h t) }
{}

/// The SOP marker segment of a packet is told by its counter (T.800 A.8.1).
pub fn sop_is_its_counter()
    ensures { (sop eph : Bool) (p : Packet) → IsPacket sop eph p → 0 < length p.bits
        → sop_of sop p.text ≡ sop_written (counter_of sop p.text) }
{}
