//! The names of the packets of a tile, in their order.

ghost use Rattle.std.specs.Prelude.{◌≡◌, ◌≤◌, ◌^◌, IfOk, IfErr};
ghost use Rattle.std.specs.List.{AllByRecursion};
ghost use Rattle.jk_math.specs.Memory.{IsMemory};
ghost use Rattle.jk_geom.specs.TileShapes.{IsTileShape};
ghost use Rattle.jk_order.specs.PacketOrder.{IsName, packet_count, order};

use crate::count::packet_count;
use crate::packets::Packets;
use jk_geom::{PacketName, TileShape};
use jk_math::Fault;
use std::alloc::Global;

/// The names of all packets of a tile, in their order (T.800 B.12).
pub fn packet_names(alloc: Global, shape: &TileShape) -> Result<Vec<PacketName>, Fault>
    requires shape { IsTileShape shape.now }
    requires few { packet_count shape.now ≤ 2 ^ 24 }
    ensures value { IfOk result (λ v. v.items ≡ order shape.now) }
    ensures names { IfOk result (λ v. AllByRecursion (IsName shape.now) v.items) }
    ensures memory { IfErr result IsMemory }
{
    let mut packets = Packets::new(shape)?;
    let mut names = Vec::with_capacity(alloc, packet_count(shape) as usize)?;
    for _ in 0..packet_count(shape) {
        let Some(name) = packets.next() else {
            break;
        };
        names.push(name)?;
    }
    Ok(names)
}
