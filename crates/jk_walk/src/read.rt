//! The packets of a tile of a codestream.

ghost use Rattle.std.specs.Prelude.{◌≡◌, ◌≤◌, ◌<◌, ◌^◌, ℕ, List, length, IfOk, MatchResult};
ghost use Rattle.std.specs.List.{AllZip};
ghost use Rattle.jk_math.specs.Answer.{Answers};
ghost use Rattle.jk_math.specs.Memory.{IsMemory};
ghost use Rattle.jk_marks.specs.Siz.{tile_count};
ghost use Rattle.jk_geom.specs.TileShapes.{IsTileShape};
ghost use Rattle.jk_order.specs.PacketOrder.{packet_count};
ghost use Rattle.jk_params.specs.Headers.{tile_in, AreHeaders};
ghost use Rattle.jk_walk.specs.TilePackets.{shape_in, Packet};
ghost use Rattle.jk_walk.specs.WalkReading.{packets_at, each_of, IsPlaced, AreTilePackets, StandAt, ArePlaces};
ghost use Rattle.jk_walk.specs.Entries.{entries_at, EnterAt, AreEnteredAt, AreEntries};

use crate::entries::{PacketEntry, TileEntries};
use crate::places::{PacketPlace, TilePackets};
use crate::spans::OfPacket;
use crate::walk::read_kept;
use jk_geom::{TileShape, tile_shape};
use jk_math::Fault;
use jk_params::{Codestream, PacketMarkers};
use std::alloc::Global;

/// What the packets of a tile depend on: its rectangle and codings, layers and their order (T.800
/// B.3, A.6.1). No tile of a codestream that is read has more than 2^24 packets.
pub fn shape_of(headers: &Codestream, tile: usize) -> TileShape
    requires sound { (size : ℕ) × AreHeaders size headers.now }
    requires tile { tile < tile_count headers.now.siz }
    ensures value { result ≡ shape_in headers.now.siz (tile_in headers.now.tiles tile) tile }
    ensures shape { IsTileShape result }
    ensures few { packet_count result ≤ 2 ^ 24 }
{
    let cod = headers.cod(tile);
    tile_shape(
        headers.siz(),
        tile as u32,
        cod.layers,
        cod.order,
        headers.codings(tile).copy(),
    )
}

/// What is kept of the packets of a tile.
#[tactic(auto, unfolding(crate::specs::WalkReading::packets_at))]
fn read_tile<K: OfPacket>(
    alloc: Global,
    headers: &Codestream,
    bytes: &[u8],
    tile: usize,
) -> Result<Vec<K>, Fault>
    requires sound { AreHeaders (length bytes.now) headers.now }
    requires tile { tile < tile_count headers.now.siz }
    ensures { Answers (λ v. v.items) result
        (each_of (K.kept_of bytes.now (tile_in headers.now.tiles tile).cod.sop)
        (packets_at bytes.now headers.now tile)) }
{
    let cod = headers.cod(tile);
    let shape = shape_of(headers, tile);
    let markers = PacketMarkers {
        sop: cod.sop,
        eph: cod.eph,
    };
    read_kept(alloc, &shape, markers, bytes, headers.data_places(tile))
}

/// The places of the packets of a tile.
fn tile_packets(
    alloc: Global,
    headers: &Codestream,
    bytes: &[u8],
    tile: usize,
) -> Result<TilePackets, Fault>
    requires sound { AreHeaders (length bytes.now) headers.now }
    requires tile { tile < tile_count headers.now.siz }
    ensures { Answers (λ p. p) result (packets_at bytes.now headers.now tile) }
{
    let places = read_tile::<PacketPlace>(alloc, headers, bytes, tile)?;
    TilePackets::new(alloc, places)
}

/// The entries of the packets of a tile.
#[tactic(auto, unfolding(crate::specs::Entries::entries_at))]
fn tile_entries(
    alloc: Global,
    headers: &Codestream,
    bytes: &[u8],
    tile: usize,
) -> Result<TileEntries, Fault>
    requires sound { AreHeaders (length bytes.now) headers.now }
    requires tile { tile < tile_count headers.now.siz }
    ensures { Answers (λ p. p) result (entries_at bytes.now headers.now tile) }
{
    let entries = read_tile::<PacketEntry>(alloc, headers, bytes, tile)?;
    Ok(TileEntries::new(entries))
}

/// The packets of a tile in the data of its parts, each by its place (T.800 B.9 to B.12).
///
/// The first of these faults, packet by packet in the order of the tile: MissingPackets where no
/// part has bytes left, those of `Precinct::read_header` in what is left of the part, and Truncated
/// where the bodies pass its end; behind the last packet SurplusBytes where bytes are left.
pub fn read_packets(
    alloc: Global,
    headers: &Codestream,
    bytes: &[u8],
    tile: usize,
) -> Result<TilePackets, Fault>
    requires sound { AreHeaders (length bytes.now) headers.now }
    requires tile { tile < tile_count headers.now.siz }
    // Which places, or which fault is the first.
    ensures exact { Answers (λ p. p) result (packets_at bytes.now headers.now tile) }
    // The packets of the tile stand at these places.
    ensures found { IfOk result (StandAt bytes.now headers.now tile) }
    // The packets of a tile are read.
    ensures only { (packets : List Packet) → AreTilePackets bytes.now headers.now tile packets
        → MatchResult result (AllZip (IsPlaced bytes.now) packets) (λ e. IsMemory e) }
    // The places lie in the codestream, and the parts are of code-blocks that there are.
    ensures within { IfOk result
        (ArePlaces (length bytes.now) (shape_in headers.now.siz (tile_in headers.now.tiles tile) tile)) }
{
    tile_packets(alloc, headers, bytes, tile)
}

/// The entries of the packets of a tile, in the order of the packets: what `read_packets` finds,
/// without the names and the parts.
///
/// The faults are those of `read_packets`, in the same order. Room is taken for no more packets
/// than the codestream has bytes, whatever the headers promise.
pub fn read_entries(
    alloc: Global,
    headers: &Codestream,
    bytes: &[u8],
    tile: usize,
) -> Result<TileEntries, Fault>
    requires sound { AreHeaders (length bytes.now) headers.now }
    requires tile { tile < tile_count headers.now.siz }
    // An entry of each place that `read_packets` gives, or the same fault.
    ensures exact { Answers (λ p. p) result (entries_at bytes.now headers.now tile) }
    // The packets of the tile stand where their entries say.
    ensures found { IfOk result (AreEnteredAt bytes.now headers.now tile) }
    // The packets of a tile are read.
    ensures only { (packets : List Packet) → AreTilePackets bytes.now headers.now tile packets
        → MatchResult result (EnterAt bytes.now headers.now tile packets) (λ e. IsMemory e) }
    // There is an entry for each packet, and they lie in the codestream.
    ensures within { IfOk result
        (AreEntries (length bytes.now) (shape_in headers.now.siz (tile_in headers.now.tiles tile) tile)) }
{
    tile_entries(alloc, headers, bytes, tile)
}
