//! The number of a packet among those of its tile, by formulas on the streams.

ghost use Rattle.std.specs.Prelude.{◌≡◌, ℕ, ◌+◌, ◌*◌, ◌<◌, ◌≤◌, ◌^◌, Some, max, slice_get};
ghost use Rattle.jk_geom.specs.TileShapes.{IsTileShape};
ghost use Rattle.jk_order.specs.PacketOrder.{IsName, order, packet_count};
ghost use Rattle.jk_order.specs.Streams.{IsStream, column_x, row_y, stream_at};
ghost use Rattle.jk_order.specs.Numbers.{among, before, below, choose, passed, start, step, tie, total, weight, wholly};

use crate::opening::{shared, stream_number, without_packets};
use crate::stream::{PacketsFrame, Stream};
use jk_geom::{PacketName, TileShape};
use jk_marks::Order;
use std::marker::Model;

/// What the numbers of a tile's packets are made of.
#[derive(Debug, Drop)]
pub struct Numbers {
    shape: TileShape,
    frame: PacketsFrame,
    streams: [Stream; 44],
    starts: [u64; 44],
    steps: [u64; 44],
}

impl Model for Numbers {
    ghost use Rattle.jk_geom.specs.declared.shape.TileShape.{TileShape};

    ghost Value = { TileShape };

    ghost view = { λ n. n.shape };

    ghost use Rattle.jk_order.specs.Numbers.{AreStreams};

    ghost invariant = { λ n. AreStreams n.shape n.frame n.streams n.starts n.steps };
}

/// The first amount where a number is less than another, the second where they are equal.
#[tactic(auto, unfolding(crate::specs::Numbers::choose))]
fn choose(a: u8, b: u8, less: u64, equal: u64) -> u64
    ensures value { result ≡ choose a b less equal }
    ensures most { result ≤ max less equal }
{
    if a < b {
        less
    } else if a == b {
        equal
    } else {
        0
    }
}

/// How many of `count` columns begin before place `q`, where the first is column `first` of a grid
/// of 2^`e`, and none begins before the corner. The same for rows.
#[tactic(auto, unfolding(crate::specs::Numbers::below))]
fn below(corner: u32, first: u32, count: u32, e: u8, q: u64) -> u32
    requires exponent { e ≤ 25 }
    requires place { q ≤ 2 ^ 32 }
    ensures { result ≡ below corner first count e q }
{
    if q <= corner as u64 {
        return 0;
    }
    let end = (q + (1 << e) - 1) >> e;
    end.saturating_sub(first as u64).min(count as u64) as u32
}

/// How many precincts of a stream begin before a place, row by row.
fn before(frame: &PacketsFrame, stream: &Stream, x: u64, y: u64) -> u32
    requires stream { IsStream frame.now stream.now }
    requires column { x ≤ 2 ^ 32 }
    requires row { y < 2 ^ 32 }
    ensures value { result ≡ before frame.now stream.now x y }
    ensures few { result ≤ 2 ^ 24 }
{
    let rows = below(frame.y0, stream.top, stream.down, stream.height, y);
    let next = below(frame.y0, stream.top, stream.down, stream.height, y + 1);
    let whole = rows * stream.across;
    if next == rows {
        return whole;
    }
    let columns = below(frame.x0, stream.left, stream.across, stream.width, x);
    whole + (next - rows) * columns
}

/// So many packets for each precinct that begins before a place, and so many for one that begins
/// there.
#[tactic(auto, unfolding(crate::specs::Numbers::passed))]
fn passed(frame: &PacketsFrame, stream: &Stream, x: u32, y: u32, less: u64, equal: u64) -> u64
    requires stream { IsStream frame.now stream.now }
    requires less { less ≤ 2 ^ 16 }
    requires equal { equal ≤ 2 ^ 16 }
    ensures value { result ≡ passed frame.now stream.now x y less equal }
    ensures few { result ≤ 2 ^ 41 }
{
    if stream.precincts == 0 {
        return 0;
    }
    let first = before(frame, stream, x as u64, y as u64);
    let next = before(frame, stream, x as u64 + 1, y as u64);
    first as u64 * less + (next - first) as u64 * equal
}

/// A stream's packets that come before all of resolution `r` of component `c`, as far as the order
/// tells by those two alone.
fn wholly(frame: &PacketsFrame, stream: &Stream, r: u8, c: u8) -> u64
    requires { IsStream frame.now stream.now }
    ensures value { result ≡ wholly frame.now stream.now r c }
    ensures few { result ≤ 2 ^ 40 }
{
    let precincts = stream.precincts as u64;
    let packets = precincts * frame.layers as u64;
    let in_resolution = choose(stream.component, c, precincts, 0);
    match frame.order {
        Order::Lrcp => choose(stream.resolution, r, precincts, in_resolution),
        Order::Rlcp => choose(stream.resolution, r, packets, in_resolution),
        Order::Rpcl => choose(stream.resolution, r, packets, 0),
        Order::Pcrl => 0,
        Order::Cprl => choose(stream.component, c, packets, 0),
    }
}

/// How many packets of a stream lie between a packet and that of the next layer, where a layer of
/// all precincts comes before the next one.
fn weight(frame: &PacketsFrame, stream: &Stream, r: u8) -> u64
    requires { IsStream frame.now stream.now }
    ensures value { result ≡ weight frame.now stream.now r }
    ensures few { result ≤ 2 ^ 24 }
{
    let precincts = stream.precincts as u64;
    match frame.order {
        Order::Lrcp => precincts,
        Order::Rlcp => choose(stream.resolution, r, 0, precincts),
        Order::Rpcl | Order::Pcrl | Order::Cprl => 0,
    }
}

/// How many packets of a precinct that begins at the same place come before one of layer `l`.
#[tactic(auto, unfolding(crate::specs::Numbers::tie))]
fn tie(frame: &PacketsFrame, stream: &Stream, name: &PacketName) -> u64
    ensures value { result ≡ tie frame.now stream.now name.now.layer name.now.resolution name.now.component }
    ensures few { result ≤ 2 ^ 16 }
{
    let layers = frame.layers as u64;
    let same = choose(
        stream.resolution,
        name.resolution,
        layers,
        name.layer as u64,
    );
    choose(stream.component, name.component, layers, same)
}

/// How many packets of so many streams come before all of resolution `r` of component `c`, as far as
/// the order tells by those two alone.
fn start(frame: &PacketsFrame, streams: &[Stream; 44], count: usize, r: u8, c: u8) -> u64
    requires count { count ≤ 44 }
    requires streams { (i : ℕ) → i < 44 → IsStream frame.now (stream_at streams.now i) }
    ensures { result ≡ start frame.now streams.now count r c }
{
    let mut sum = 0;
    for i in 0..count {
        sum += wholly(frame, &streams[i], r, c);
    }
    sum
}

/// How far a packet lies from that of the next layer, where a layer of all precincts comes before
/// the next one.
fn step(frame: &PacketsFrame, streams: &[Stream; 44], count: usize, r: u8) -> u64
    requires count { count ≤ 44 }
    requires streams { (i : ℕ) → i < 44 → IsStream frame.now (stream_at streams.now i) }
    ensures { result ≡ step frame.now streams.now count r }
{
    let mut sum = 0;
    for i in 0..count {
        sum += weight(frame, &streams[i], r);
    }
    sum
}

/// The streams whose packets lie among those of resolution `r` of component `c`, where the places of
/// precincts decide: the first of them, how far one is from the next, and how many there are.
fn among(order: Order, components: usize, r: u8, c: u8) -> (usize, usize, usize)
    requires components { components ≤ 4 }
    requires component { c < components }
    requires resolution { r ≤ 10 }
    ensures value { result ≡ among order components r c }
    ensures count { result.2 ≤ 44 }
    ensures within { (i : ℕ) → i < result.2 → result.0 + i * result.1 < 44 }
{
    match order {
        Order::Lrcp | Order::Rlcp => (0, 1, 0),
        Order::Rpcl => (r as usize, 11, components),
        Order::Pcrl => (0, 1, 11 * components),
        Order::Cprl => (11 * c as usize, 1, 11),
    }
}

/// How many packets of these streams come before one whose precinct begins at a place.
fn passed_all(
    frame: &PacketsFrame,
    streams: &[Stream; 44],
    name: &PacketName,
    x: u32,
    y: u32,
    those: (usize, usize, usize),
) -> u64
    requires streams { (i : ℕ) → i < 44 → IsStream frame.now (stream_at streams.now i) }
    requires count { those.2 ≤ 44 }
    requires within { (i : ℕ) → i < those.2 → those.0 + i * those.1 < 44 }
    ensures { result ≡ total (λ i. passed frame.now (stream_at streams.now (those.0 + i * those.1)) x y frame.now.layers
        (tie frame.now (stream_at streams.now (those.0 + i * those.1)) name.now.layer name.now.resolution name.now.component)) those.2 }
{
    let (first, apart, count) = those;
    let mut sum = 0;
    for i in 0..count {
        let stream = &streams[first + i * apart];
        sum += passed(
            frame,
            stream,
            x,
            y,
            frame.layers as u64,
            tie(frame, stream, name),
        );
    }
    sum
}

/// Where a column of precincts begins on the reference grid, or the tile does.
fn column_x(frame: &PacketsFrame, stream: &Stream, column: u32) -> u32
    requires stream { IsStream frame.now stream.now }
    requires column { column < stream.now.across }
    ensures { result ≡ column_x frame.now stream.now column }
{
    frame.x0.max((stream.left + column) << stream.width)
}

/// Where a row begins, likewise.
fn row_y(frame: &PacketsFrame, stream: &Stream, row: u32) -> u32
    requires stream { IsStream frame.now stream.now }
    requires row { row < stream.now.down }
    ensures { result ≡ row_y frame.now stream.now row }
{
    frame.y0.max((stream.top + row) << stream.height)
}

impl Numbers {
    /// The numbers of a tile's packets.
    pub fn new(shape: &TileShape) -> Numbers
        requires shape { IsTileShape shape.now }
        requires few { packet_count shape.now ≤ 2 ^ 24 }
        ensures { result ≡ shape.now }
    {
        let frame = shared(shape);
        let mut streams = [without_packets(0, 0); 44];
        for i in 0..44 {
            streams[i] = stream_number(shape, i);
        }
        let count = 11 * shape.codings.as_slice().len();
        let mut starts = [0; 44];
        let mut steps = [0; 44];
        for k in 0..44 {
            let r = (k % 11) as u8;
            let c = (k / 11) as u8;
            starts[k] = start(&frame, &streams, count, r, c);
            steps[k] = step(&frame, &streams, count, r);
        }
        Numbers {
            shape: TileShape {
                rect: shape.rect,
                layers: shape.layers,
                order: shape.order,
                codings: shape.codings.copy(),
            },
            frame,
            streams,
            starts,
            steps,
        }
    }

    /// The number of a packet in the order of the tile's packets, from 0 on.
    pub fn number_of(&self, name: PacketName) -> u32
        requires { IsName self.now name }
        ensures { slice_get (order self.now) result ≡ Some name }
    {
        let frame = &self.frame;
        let own = 11 * name.component as usize + name.resolution as usize;
        match frame.order {
            Order::Lrcp | Order::Rlcp => {
                let number = self.starts[own]
                    + self.steps[own] * name.layer as u64
                    + name.precinct as u64;
                number as u32
            }
            Order::Rpcl | Order::Pcrl | Order::Cprl => {
                let stream = &self.streams[own];
                let x = column_x(frame, stream, name.precinct % stream.across);
                let y = row_y(frame, stream, name.precinct / stream.across);
                let components = self.shape.codings.as_slice().len();
                let those = among(frame.order, components, name.resolution, name.component);
                let number = self.starts[own]
                    + passed_all(frame, &self.streams, &name, x, y, those);
                number as u32
            }
        }
    }
}
