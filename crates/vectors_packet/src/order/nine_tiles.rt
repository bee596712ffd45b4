//! An image of 17 by 13 at (3, 5) in nine tiles of 8 by 8.

ghost use Rattle.std.specs.Prelude.{◌≡◌};
ghost use Rattle.jk_marks.specs.Siz.{IsSiz, tile_count};
ghost use Rattle.jk_geom.specs.TileShapes.{AreCodings};

use crate::order::random::coding;
use jk_geom::{Codings, tile, tile_count, tile_shape};
use jk_marks::{Order, Siz};
use jk_math::Rect;
use jk_order::{Packets, packet_count};
use std::process::Abort;
use vectors::{equal, equal_at};

/// The image, grey.
fn siz() -> Siz
    ensures siz { IsSiz result }
    ensures tiles { tile_count result ≡ 9 }
{
    Siz {
        rsiz: 0,
        x1: 20,
        y1: 18,
        x0: 3,
        y0: 5,
        tile_width: 8,
        tile_height: 8,
        tile_x0: 0,
        tile_y0: 0,
        components: 1,
        depth: 8,
        signed: false,
    }
}

/// One level, precincts of 2 by 2 in the lowest resolution and of 4 by 4 in the other.
fn codings() -> Codings
    ensures { AreCodings result }
{
    let mut codings = Codings::none();
    codings.push(coding(1, 6, 6, &[(1, 1), (2, 2)]));
    codings
}

/// The names of a tile's packets in their order: resolution and precinct, or (99, 99) behind the last.
fn names_of(rt: &impl Abort, mut packets: Packets) -> [(u8, u32); 4] {
    let mut names = [(99, 99); 4];
    for place in names.iter_mut() {
        if let Some(name) = packets.next() {
            equal((name.layer, name.component), (0, 0)).expect(rt, "a layer and a component");
            *place = (name.resolution, name.precinct);
        }
    }
    names
}

/// The names of tile 0 in an order.
fn tile_names(rt: &impl Abort, order: Order, due: [(u8, u32); 4]) {
    let shape = tile_shape(&siz(), 0, 1, order, codings());
    equal_at(order, packet_count(&shape), 3).expect(rt, "packets");
    let packets = Packets::new(&shape).expect(rt, "packets");
    equal_at(order, names_of(rt, packets), due).expect(rt, "names");
}

#[test]
fn nine_tiles(rt: HostRuntime) {
    let siz = siz();
    equal(tile_count(&siz), 9).expect(&rt, "tiles");
    equal(bounds(tile(&siz, 0)), [3, 5, 8, 8]).expect(&rt, "the first tile");
    equal(bounds(tile(&siz, 4)), [8, 8, 16, 16]).expect(&rt, "the fifth tile");
    equal(bounds(tile(&siz, 8)), [16, 16, 20, 18]).expect(&rt, "the last tile");
}

/// The bounds of a rectangle: left, upper, right, lower.
fn bounds(rect: Rect) -> [u32; 4] {
    [rect.x0, rect.y0, rect.x1, rect.y1]
}

#[test]
fn orders_of_tile_0(rt: HostRuntime) {
    let rising = [(0, 0), (1, 0), (1, 1), (99, 99)];
    let by_place = [(1, 0), (0, 0), (1, 1), (99, 99)];
    tile_names(&rt, Order::Lrcp, rising);
    tile_names(&rt, Order::Rlcp, rising);
    tile_names(&rt, Order::Rpcl, rising);
    tile_names(&rt, Order::Pcrl, by_place);
    tile_names(&rt, Order::Cprl, by_place);
}
