//! A tile of an image into its packets.

ghost use Rattle.std.specs.Prelude.{◌≡◌, ℕ, ◌-◌, ◌^◌, ◌≤◌, ◌⊎◌, List, length, min, replicate, IfOk, IfErr};
ghost use Rattle.jk_math.specs.Memory.{IsMemory};
ghost use Rattle.jk_math.specs.Lists.{lists_of};
ghost use Rattle.jk_math.specs.Picture.{Picture};
ghost use Rattle.jk_tile.specs.encoding.PacketsWritten.{tile_text};
ghost use Rattle.jk_tile.specs.encoding.Sinks.{IsPassed};
ghost use Rattle.jk_tile.specs.encoding.TilesFrom.{IsOutlineOf, tile_lists};

use crate::encoding::packets::{TileFrame, pass_packets};
use crate::encoding::sinks::{TextSink, TextSize};
use crate::encoding::written::TileOutline;
use jk_geom::{Codings, TileShape};
use jk_marks::Coding;
use jk_math::Fault;
use jk_packet::BlockTable;
use jk_params::PacketMarkers;
use std::alloc::Global;

/// The same coding for each of so many components.
fn codings_alike(coding: &Coding, components: usize) -> Codings
    requires { components ≤ 4 }
    ensures { result ≡ replicate components coding.now }
{
    let mut codings = Codings::none();
    for _ in 0..components {
        codings.push(coding.copy());
    }
    codings
}

/// Passes on the packets of a tile, as [`packets_of`] gives them, to what takes them: of each packet
/// its header, and then what was coded, straight from the tables.
///
/// Memory: a header couldn't be made. Then, and where the sink told a fault, a beginning of the packets
/// was passed on.
pub fn pass_tile<S: TextSink>(
    alloc: Global,
    tile: &TileOutline<'_>,
    tables: &[Vec<BlockTable>],
    sink: &mut S,
) -> Result<(), Fault>
    requires tile { (p : Picture) × (t : ℕ) × IsOutlineOf tile.now p t
        × (lists_of tables.now ≡ tile_lists p tile.now.parameters.now t) }
    ensures { (part : List ℕ) × S.took sink.old part sink.new
        × ((p : Picture) (t : ℕ) → IsOutlineOf tile.now p t → lists_of tables.now ≡ tile_lists p tile.now.parameters.now t
        → IsPassed (λ e. IsMemory e ⊎ S.tells e) (tile_text p tile.now.parameters.now t) part result) }
{
    let shape = TileShape {
        rect: tile.rect,
        layers: tile.parameters.layers,
        order: tile.parameters.order,
        codings: codings_alike(tile.coding, tile.components),
    };
    let frame = TileFrame {
        shape: &shape,
        coding: tile.coding,
        markers: PacketMarkers {
            sop: tile.parameters.sop,
            eph: tile.parameters.eph,
        },
    };
    pass_packets(alloc, &frame, tables, sink)
}

/// The packets of a tile in their order, from the tables of its precincts, one behind another:
/// component by component, resolution by resolution (T.800 B.12). Memory is the only fault.
pub fn packets_of(
    alloc: Global,
    tile: &TileOutline<'_>,
    tables: &[Vec<BlockTable>],
) -> Result<Vec<u8>, Fault>
    requires tile { (p : Picture) × (t : ℕ) × IsOutlineOf tile.now p t
        × (lists_of tables.now ≡ tile_lists p tile.now.parameters.now t) }
    ensures exact { IfOk result (λ v. (p : Picture) (t : ℕ) → IsOutlineOf tile.now p t
        → lists_of tables.now ≡ tile_lists p tile.now.parameters.now t
        → v.items ≡ tile_text p tile.now.parameters.now t) }
    ensures memory { IfErr result IsMemory }
{
    let mut out: Vec<u8> = Vec::new(alloc);
    pass_tile(alloc, tile, tables, &mut out)?;
    Ok(out)
}

/// How many bytes the packets of a tile have, 2^64 - 1 at most, as [`packets_of`] gives them: headers
/// are made and let go of, and what was coded is not copied. Memory is the only fault.
pub fn packets_size(
    alloc: Global,
    tile: &TileOutline<'_>,
    tables: &[Vec<BlockTable>],
) -> Result<u64, Fault>
    requires tile { (p : Picture) × (t : ℕ) × IsOutlineOf tile.now p t
        × (lists_of tables.now ≡ tile_lists p tile.now.parameters.now t) }
    ensures exact { IfOk result (λ n. (p : Picture) (t : ℕ) → IsOutlineOf tile.now p t
        → lists_of tables.now ≡ tile_lists p tile.now.parameters.now t
        → n ≡ min (length (tile_text p tile.now.parameters.now t)) (2 ^ 64 - 1)) }
    ensures memory { IfErr result IsMemory }
{
    let mut size = TextSize { bytes: 0 };
    pass_tile(alloc, tile, tables, &mut size)?;
    Ok(size.bytes)
}
