//! How long it takes to name the packets of tiles in their order: in each of the five orders, with
//! one component and more, few resolutions and many, one layer and many, one precinct and many.

ghost use Rattle.std.specs.Prelude.{◌≡◌, ◌<◌, ◌≤◌};
ghost use Rattle.jk_marks.specs.Coding.{IsCoding};
ghost use Rattle.jk_geom.specs.TileShapes.{AreCodings, IsTileShape};

use jk_geom::{Codings, TileShape};
use jk_marks::{Coding, Exponents, Order, Precincts};
use jk_math::{Rect, Style};
use jk_order::{Packets, packet_count};
use std::io;
use std::time::Instant;

/// A coding with precincts of one size.
#[tactic(auto, using(crate::proofs::Sizes::one_small, crate::proofs::Sizes::one_whole))]
fn coding(levels: u8, size: u8) -> Coding
    requires levels { levels ≤ 10 }
    requires some { 1 ≤ size }
    requires small { size < 16 }
    ensures { IsCoding result }
{
    let sizes = [(size, size); 11];
    Coding {
        levels,
        xcb: 6,
        ycb: 6,
        precincts: Precincts::new(&sizes[..levels as usize + 1]),
        style: Style::plain(),
        guard: 0,
        exponents: Exponents::new(&[]),
    }
}

/// The codings of so many components.
#[tactic(auto, using(crate::proofs::Sizes::codings_more))]
fn codings(components: u32, levels: u8, size: u8) -> Codings
    requires components { 1 ≤ components }
    requires few { components ≤ 4 }
    requires levels { levels ≤ 10 }
    requires some { 1 ≤ size }
    requires small { size < 16 }
    ensures { AreCodings result }
{
    let mut codings = Codings::none();
    for _component in 0..components {
        codings.push(coding(levels, size));
    }
    codings
}

/// A square tile.
fn tile(order: Order, side: u32, layers: u16, components: u32, levels: u8, size: u8) -> TileShape
    requires side { 1 ≤ side }
    requires near { side ≤ 65536 }
    requires layers { 1 ≤ layers }
    requires components { 1 ≤ components }
    requires few { components ≤ 4 }
    requires levels { levels ≤ 10 }
    requires some { 1 ≤ size }
    requires small { size < 16 }
    ensures { IsTileShape result }
{
    TileShape {
        rect: Rect {
            x0: 0,
            y0: 0,
            x1: side,
            y1: side,
        },
        layers,
        order,
        codings: codings(components, levels, size),
    }
}

/// A digest of the packets' names in their order.
fn named(shape: &TileShape) -> u64
    requires { IsTileShape shape.now }
{
    let mut sum = 0u64;
    let Ok(mut packets) = Packets::new(shape) else {
        return sum;
    };
    for _packet in 0..packet_count(shape) {
        let Some(name) = packets.next() else {
            return sum;
        };
        let place = ((name.precinct as u64) << 32)
            ^ ((name.layer as u64) << 16)
            ^ ((name.component as u64) << 8)
            ^ name.resolution as u64;
        sum = sum.wrapping_mul(31).wrapping_add(place);
    }
    sum
}

/// How many names a run of the clock has.
const NAMES: u64 = 200_000;

/// Picoseconds for each packet of a tile, of the fastest of five runs, and a digest of the names.
fn timed(rt: &HostRuntime, shape: &TileShape) -> io::Result<(u64, u64)>
    requires { IsTileShape shape.now }
{
    let count = packet_count(shape).max(1);
    let turns = NAMES / count + 1;
    let mut sum = 0u64;
    let mut best = u64::MAX;
    for _run in 0..5 {
        let start = Instant::now(rt)?;
        for _turn in 0..turns {
            sum = sum.wrapping_add(named(shape));
        }
        let all = start.elapsed(rt)?.as_nanos().min(1 << 50) as u64;
        best = best.min(all);
    }
    Ok((best.wrapping_mul(1000) / count / turns, sum))
}

/// The orders and their names.
static ORDERS: [(&str, Order); 5] = [
    ("LRCP", Order::Lrcp),
    ("RLCP", Order::Rlcp),
    ("RPCL", Order::Rpcl),
    ("PCRL", Order::Pcrl),
    ("CPRL", Order::Cprl),
];

/// Tells a line for each layering and size of precincts of a tile in an order.
fn tell_order(rt: &HostRuntime, named: (&str, Order), components: u32, levels: u8) -> io::Result<()>
    requires components { 1 ≤ components }
    requires few { components ≤ 4 }
    requires levels { levels ≤ 10 }
{
    let (name, order) = named;
    let resolutions = levels + 1;
    for layers in [1, 2, 8, 1000] {
        for (side, size) in [(64, 15), (1024, 7)] {
            let shape = tile(order, side, layers, components, levels, size);
            let count = packet_count(&shape);
            let (each, sum) = timed(rt, &shape)?;
            println!(rt; "{name} {components} {resolutions} {layers} {count} {each} {sum:016x}")?;
        }
    }
    Ok(())
}

/// Tells a line for each shape of a tile: the order, components, resolutions, layers, packets,
/// picoseconds for each packet, the first call included, and a digest of the names.
pub(crate) fn tell(rt: &HostRuntime) -> io::Result<()> {
    for order in &ORDERS {
        for components in 1..5 {
            for levels in [0, 1, 5, 10] {
                tell_order(rt, *order, components, levels)?;
            }
        }
    }
    Ok(())
}
