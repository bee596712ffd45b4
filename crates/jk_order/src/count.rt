//! How many packets a tile has.

ghost use Rattle.std.specs.Prelude.{◌≡◌, ◌-◌, ◌^◌, min};
ghost use Rattle.jk_geom.specs.TileShapes.{IsTileShape};
ghost use Rattle.jk_order.specs.PacketOrder.{packet_count};

use jk_geom::TileShape;

/// How many packets a tile has, and 2^64 - 1 where there are more: one for each layer of each
/// precinct (T.800 B.9).
#[tactic(auto, unfolding(crate::specs::PacketOrder::packet_count))]
pub fn packet_count(shape: &TileShape) -> u64
    requires { IsTileShape shape.now }
    ensures { result ≡ min (packet_count shape.now) (2 ^ 64 - 1) }
{
    jk_geom::packet_count(&shape.rect, shape.layers, &shape.codings)
}
