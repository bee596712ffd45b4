//! Tiles of nearly too many packets.

ghost use Rattle.std.specs.Prelude.{◌<◌, ◌≤◌};
ghost use Rattle.jk_geom.specs.TileShapes.{AreCodings, IsTileShape};

use crate::order::random::coding;
use jk_geom::{Codings, TileShape};
use jk_marks::Order;
use jk_math::{Fault, Rect};
use jk_order::{Packets, packet_count};
use vectors::equal;

/// Precincts of one place each.
fn codings() -> Codings
    ensures { AreCodings result }
{
    let mut codings = Codings::none();
    codings.push(coding(0, 6, 6, &[(0, 0)]));
    codings
}

/// A tile of so many precincts side by side and 65,535 layers.
fn wide_tile(precincts: u32) -> TileShape
    requires { precincts < 1000 }
    ensures { IsTileShape result }
{
    TileShape {
        rect: Rect {
            x0: 1,
            y0: 1,
            x1: 1 + precincts,
            y1: 2,
        },
        layers: 65_535,
        order: Order::Rpcl,
        codings: codings(),
    }
}

#[test]
fn nearly_too_many(rt: HostRuntime) {
    let most = wide_tile(256);
    equal(packet_count(&most), 16_776_960).expect(&rt, "packets");
    equal(Packets::new(&most).is_ok(), true).expect(&rt, "an order");
    let over = wide_tile(257);
    equal(packet_count(&over), 16_842_495).expect(&rt, "packets");
    equal(Packets::new(&over).err(), Some(Fault::Limit)).expect(&rt, "a fault");
}

#[test]
fn no_precincts(rt: HostRuntime) {
    let none = wide_tile(0);
    equal(packet_count(&none), 0).expect(&rt, "packets");
    let mut packets = Packets::new(&none).expect(&rt, "an order without packets");
    equal(packets.next(), None).expect(&rt, "a packet");
    equal(packets.next(), None).expect(&rt, "a packet");
}
