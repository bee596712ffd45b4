//! How many packets a codestream has.

ghost use Rattle.std.specs.Prelude.{◌≡◌, ◌≤◌, ◌<◌, ◌-◌, ◌^◌, ℕ, min, length};
ghost use Rattle.jk_marks.specs.Siz.{IsSiz, tile_count};
ghost use Rattle.jk_geom.specs.TileShapes.{AreCodings};
ghost use Rattle.jk_params.specs.Headers.{packets_alike, packets_of, tile_in};

use crate::table::TileTable;
use jk_geom::{Codings, packet_count, tile, tile_count};
use jk_marks::Siz;

/// How many packets there are where all tiles have these layers and codings, and 2^64 - 1 where
/// there are more.
pub(crate) fn count_alike(siz: &Siz, layers: u16, codings: &Codings) -> u64
    requires siz { IsSiz siz.now }
    requires layers { 1 ≤ layers }
    requires codings { AreCodings codings.now }
    ensures { result ≡ min (packets_alike siz.now layers codings.now) (2 ^ 64 - 1) }
{
    let mut count: u64 = 0;
    for t in 0..tile_count(siz) {
        count = count.saturating_add(packet_count(&tile(siz, t), layers, codings));
    }
    count
}

/// How many packets these tiles have, and 2^64 - 1 where there are more.
pub(crate) fn count_own(siz: &Siz, tiles: &TileTable) -> u64
    requires siz { IsSiz siz.now }
    requires tiles { length tiles.now ≡ tile_count siz.now }
    requires layers { (t : ℕ) → t < length tiles.now → 1 ≤ (tile_in tiles.now t).cod.layers }
    requires codings { (t : ℕ) → t < length tiles.now → AreCodings (tile_in tiles.now t).codings }
    ensures { result ≡ min (packets_of siz.now tiles.now) (2 ^ 64 - 1) }
{
    let mut count: u64 = 0;
    for t in 0..tile_count(siz) {
        let number = t as usize;
        let packets = packet_count(
            &tile(siz, t),
            tiles.cod(number).layers,
            tiles.codings(number),
        );
        count = count.saturating_add(packets);
    }
    count
}
