//! The packets of a tile in their order.

ghost use Rattle.std.specs.Prelude.{◌≡◌, ◌-◌, ◌<◌, ◌≤◌, ◌^◌, ◌↔◌, ℕ, List, Ok, Err, IfOk, IfErr, length, drop};
ghost use Rattle.std.specs.Prelude.{slice_get, slice_index};
ghost use Rattle.jk_math.specs.declared.fault.Fault.TheVariants.{Limit};
ghost use Rattle.jk_geom.specs.TileShapes.{IsTileShape};
ghost use Rattle.jk_order.specs.PacketOrder.{packet_count, order};
ghost use Rattle.jk_order.specs.Streams.{IsWalk, PacketsLeft, walk};
ghost use Rattle.jk_order.specs.Queue.{Ascends, IsQueue, queued};

use crate::count::packet_count;
use crate::opening::{first_rank, shared, stream_number, without_packets};
use crate::stream::{FINISHED, PacketsFrame, Stream};
use jk_geom::{PacketName, TileShape};
use jk_marks::Order;
use jk_math::Fault;
use std::marker::Model;

/// The numbers of the streams that have packets, from `first` on, by the ranks of their next ones.
/// Streams without a next packet stand at the end.
#[derive(Debug, Drop)]
struct Queue {
    numbers: [u8; 44],
    first: usize,
}

/// The packets of a tile that are still to come.
#[derive(Debug, Drop)]
pub struct Packets {
    frame: PacketsFrame,
    streams: [Stream; 44],
    heads: [u128; 44],
    queue: Queue,
}

impl Model for Packets {
    ghost use Rattle.std.specs.Prelude.{◌≤◌, drop};
    ghost use Rattle.jk_order.specs.Streams.{Walk, IsWalk, walk};

    ghost Value = { Walk };

    ghost view = { λ p. walk p.frame p.streams p.heads };

    ghost use Rattle.jk_order.specs.Queue.{IsQueue};

    ghost invariant = { λ p. IsWalk (walk p.frame p.streams p.heads) × (p.queue.first ≤ 44)
        × IsQueue 0 p.heads (drop p.queue.first p.queue.numbers) };
}

/// Puts the first of some streams behind those whose next packets come before its own. The last
/// one is looked at first where that is often behind all of them.
fn put_back(queue: &mut [u8], heads: &[u128; 44], often_last: bool)
    requires some { 0 < length queue.old }
    requires numbers { (k : ℕ) → k < length queue.old → slice_index queue.old k < 44 }
    requires ascends { Ascends heads.now (drop 1 queue.old) }
    ensures { queue.new ≡ queued heads.now (slice_index queue.old 0) (drop 1 queue.old) }
{
    let first = queue[0];
    let head = heads[first as usize];
    let last = queue.len() - 1;
    if often_last && heads[queue[last] as usize] < head {
        queue.copy_within(1.., 0);
        queue[last] = first;
        return;
    }
    let mut place = 0;
    while place + 1 < queue.len() && heads[queue[place + 1] as usize] < head {
        queue[place] = queue[place + 1];
        place += 1;
    }
    queue[place] = first;
}

/// The streams that have packets.
fn queue_of(heads: &[u128; 44]) -> Queue
    ensures within { result.first ≤ 44 }
    ensures queue { IsQueue 0 heads.now (drop result.first result.numbers) }
{
    let mut numbers = [0; 44];
    let mut first = 44;
    for k in 0..44 {
        let i = 43 - k;
        if heads[i] < FINISHED {
            first -= 1;
            numbers[first] = i as u8;
            put_back(&mut numbers[first..], heads, false);
        }
    }
    Queue { numbers, first }
}

/// The next packet of all streams, which its stream then has passed.
#[tactic(auto, using(crate::proofs::Queueing::queue_numbers))]
fn take(
    frame: &PacketsFrame,
    streams: &mut [Stream; 44],
    heads: &mut [u128; 44],
    queue: &mut [u8],
) -> Option<PacketName>
    requires walk { IsWalk (walk frame.now streams.old heads.old) }
    requires queue { IsQueue 0 heads.old queue.old }
    ensures kept { IsWalk (walk frame.now streams.new heads.new) }
    ensures queue { IsQueue 0 heads.new queue.new }
    ensures gives { (names : List PacketName) → PacketsLeft (walk frame.now streams.old heads.old) names
        → (result ≡ slice_get names 0) × PacketsLeft (walk frame.now streams.new heads.new) (drop 1 names) }
{
    if queue.is_empty() {
        return None;
    }
    let first = queue[0] as usize;
    let head = heads[first];
    if head >= FINISHED {
        return None;
    }
    let stream = &streams[first];
    let name = PacketName {
        layer: stream.layer,
        resolution: stream.resolution,
        component: stream.component,
        precinct: stream.precinct,
    };
    heads[first] = streams[first].advance(frame, head);
    put_back(queue, heads, matches!(frame.order, Order::Lrcp));
    Some(name)
}

impl Packets {
    /// The packets of a tile.
    ///
    /// Limit: there are more than 2^24.
    pub fn new(shape: &TileShape) -> Result<Packets, Fault>
        requires { IsTileShape shape.now }
        ensures limit { (result ≡ Err Limit) ↔ (2 ^ 24 < packet_count shape.now) }
        ensures only { IfErr result (λ e. e ≡ Limit) }
        ensures starts { IfOk result (λ p. PacketsLeft p (order shape.now)) }
    {
        if packet_count(shape) > 1 << 24 {
            return Err(Fault::Limit);
        }
        let frame = shared(shape);
        let mut streams = [without_packets(0, 0); 44];
        let mut heads = [FINISHED; 44];
        for i in 0..44 {
            let stream = stream_number(shape, i);
            heads[i] = first_rank(&frame, &stream, i);
            streams[i] = stream;
        }
        let queue = queue_of(&heads);
        Ok(Packets {
            frame,
            streams,
            heads,
            queue,
        })
    }

    /// The next packet, unless all were given.
    pub fn next(&mut self) -> Option<PacketName>
        ensures { (names : List PacketName) → PacketsLeft self.old names
            → (result ≡ slice_get names 0) × PacketsLeft self.new (drop 1 names) }
    {
        take(
            &self.frame,
            &mut self.streams,
            &mut self.heads,
            &mut self.queue.numbers[self.queue.first..],
        )
    }
}
