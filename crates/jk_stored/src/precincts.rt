//! The precincts of a tile, made as their packets are read.

ghost use Rattle.std.specs.Prelude.{◌≡◌, ◌*◌, ◌<◌, ◌≤◌, ℕ, false, [], length, replicate, slice_index_or, ◌+◌, ◌≢◌};
ghost use Rattle.std.specs.Prelude.{IfErr, OnOk, MatchResult};
ghost use Rattle.std.specs.List.{AllByRecursion};
ghost use Rattle.jk_math.specs.Answer.{Answers, ReadsBy};
ghost use Rattle.jk_math.specs.Memory.{IsMemory};
ghost use Rattle.jk_geom.specs.TileShapes.{IsTileShape};
ghost use Rattle.jk_order.specs.PacketOrder.{IsName, IsPrecinct, is_of};
ghost use Rattle.jk_packet.specs.Reading.{PrecinctState, text_of, header_at};
ghost use Rattle.jk_params.specs.Coding.{HasPlanes};
ghost use Rattle.jk_walk.specs.WalkReading.{blank_states};
ghost use Rattle.jk_walk.specs.Keeping.{alone, row_of, seen, state_of, states_in};

use jk_geom::{PacketName, TileShape};
use jk_math::Fault;
use jk_packet::{Header, Precinct};
use jk_params::PacketMarkers;
use jk_walk::precinct_shape;
use std::alloc::Global;
use std::marker::Model;

/// How many resolutions a component may have.
const MOST_RESOLUTIONS: usize = 11;

/// What is kept of a precinct: nothing before its first packet, and nothing behind its last.
type Slot = Option<Box<Precinct>>;

/// The precinct of a packet, of which nothing was read.
fn blank(
    alloc: Global,
    shape: &TileShape,
    markers: PacketMarkers,
    name: PacketName,
) -> Result<Precinct, Fault>
    requires shape { IsTileShape shape.now }
    requires planes { AllByRecursion HasPlanes shape.now.codings }
    requires name { IsName shape.now name }
    ensures { MatchResult result
        (λ p. p ≡ blank_states shape.now markers.sop markers.eph name.component name.resolution name.precinct)
        (λ e. IsMemory e) }
{
    let coding = &shape.codings.as_slice()[name.component as usize];
    let precinct = precinct_shape(
        &shape.rect,
        coding,
        name.resolution,
        name.precinct,
        markers.sop,
        markers.eph,
    );
    Precinct::new(alloc, &precinct)
}

/// Makes room for a precinct and those before it in its resolution.
fn make_upto(slots: &mut Vec<Slot>, number: u32) -> Result<(), Fault>
    ensures err { IfErr result (λ e. IsMemory e) }
    ensures there { OnOk result (number < length slots.new.items) }
    ensures same { OnOk result
        ((blank : ℕ → PrecinctState) (k : ℕ) → seen blank slots.new.items k ≡ seen blank slots.old.items k) }
{
    for _ in slots.len()..number as usize + 1 {
        slots.push(None)?;
    }
    Ok(())
}

/// Takes a precinct out of those that are kept, if it is among them.
fn take_kept(slots: &mut Vec<Slot>, number: u32) -> Slot
    ensures value { (blank : ℕ → PrecinctState) → state_of result (blank number) ≡ seen blank slots.old.items number }
    ensures others { (blank : ℕ → PrecinctState) (k : ℕ) → k ≢ number
        → seen blank slots.new.items k ≡ seen blank slots.old.items k }
{
    if (number as usize) < slots.len() {
        slots[number as usize].take()
    } else {
        None
    }
}

/// The precinct of a packet, which is taken out of those that are kept; a blank one where none is
/// kept.
fn take(
    alloc: Global,
    shape: &TileShape,
    markers: PacketMarkers,
    name: PacketName,
    slots: &mut Vec<Slot>,
) -> Result<Box<Precinct>, Fault>
    requires shape { IsTileShape shape.now }
    requires planes { AllByRecursion HasPlanes shape.now.codings }
    requires name { IsName shape.now name }
    ensures value { MatchResult result
        (λ p. p.value
        ≡ seen (blank_states shape.now markers.sop markers.eph name.component name.resolution) slots.old.items
        name.precinct) (λ e. IsMemory e) }
    ensures others { (blank : ℕ → PrecinctState) (k : ℕ) → k ≢ name.precinct
        → seen blank slots.new.items k ≡ seen blank slots.old.items k }
{
    match take_kept(slots, name.precinct) {
        Some(precinct) => Ok(precinct),
        None => Ok(Box::new(alloc, blank(alloc, shape, markers, name)?)?),
    }
}

/// Keeps a precinct, with room for those before it in its resolution.
fn keep(slots: &mut Vec<Slot>, number: u32, precinct: Box<Precinct>) -> Result<(), Fault>
    ensures err { IfErr result (λ e. IsMemory e) }
    ensures own { OnOk result ((blank : ℕ → PrecinctState) → seen blank slots.new.items number ≡ precinct.value) }
    ensures others { OnOk result
        ((blank : ℕ → PrecinctState) (k : ℕ) → k ≢ number
        → seen blank slots.new.items k ≡ seen blank slots.old.items k) }
{
    make_upto(slots, number)?;
    slots[number as usize] = Some(precinct);
    Ok(())
}

/// The header of a packet of a resolution whose precincts are these. What it tells of its precinct
/// is kept unless it is the last.
fn read_in(
    alloc: Global,
    shape: &TileShape,
    markers: PacketMarkers,
    name: PacketName,
    bytes: &[u8],
    slots: &mut Vec<Slot>,
) -> Result<Header, Fault>
    requires shape { IsTileShape shape.now }
    requires planes { AllByRecursion HasPlanes shape.now.codings }
    requires name { IsName shape.now name }
    requires next { name.layer
        ≡ (seen (blank_states shape.now markers.sop markers.eph name.component name.resolution) slots.old.items
        name.precinct).layers }
    ensures exact { Answers text_of result (alone (header_at name.layer bytes.now
        (seen (blank_states shape.now markers.sop markers.eph name.component name.resolution) slots.old.items
        name.precinct))) }
    ensures early { name.layer + 1 < shape.now.layers → ReadsBy text_of (header_at name.layer bytes.now)
        (seen (blank_states shape.now markers.sop markers.eph name.component name.resolution) slots.old.items
        name.precinct)
        (seen (blank_states shape.now markers.sop markers.eph name.component name.resolution) slots.new.items
        name.precinct) result }
    ensures others { OnOk result ((k : ℕ) → k ≢ name.precinct
        → seen (blank_states shape.now markers.sop markers.eph name.component name.resolution) slots.new.items k
        ≡ seen (blank_states shape.now markers.sop markers.eph name.component name.resolution) slots.old.items k) }
{
    let mut precinct = take(alloc, shape, markers, name, slots)?;
    let header = precinct.read_header(bytes, name.layer)?;
    if name.layer + 1 < shape.layers {
        keep(slots, name.precinct, precinct)?;
    }
    Ok(header)
}

/// Which list has the precincts of the resolution of a packet.
fn row_of(name: PacketName) -> usize
    ensures { result ≡ row_of name.component name.resolution }
{
    name.component as usize * MOST_RESOLUTIONS + name.resolution as usize
}

/// What headers have told of the precincts of a tile.
///
/// A precinct is made with the first of its packets and let go of behind its last one: few are
/// alive where the layers of a precinct stand together, and a tile of which few packets are read
/// takes little memory. Where there is one layer, nothing is kept.
#[derive(Drop)]
pub(crate) struct Precincts {
    alloc: Global,
    markers: PacketMarkers,
    resolutions: Vec<Vec<Slot>>,
}

impl Model for Precincts {
    ghost use Rattle.jk_walk.specs.Keeping.{Kept};
    ghost use Rattle.jk_math.specs.Lists.{lists_of};

    ghost Value = { Kept };

    ghost view = { λ p. record { sop = p.markers.sop; eph = p.markers.eph; precincts = lists_of p.resolutions.items } };
}

impl Precincts {
    ghost use Rattle.std.specs.Prelude.{◌≡◌, ◌*◌, ◌<◌, ◌≤◌, ◌+◌, ℕ, false, [], length, replicate, OnOk, MatchResult};
    ghost use Rattle.jk_walk.specs.Keeping.{alone, states_in, most_resolutions, IsKept};

    /// The precincts of a tile of so many components, of which nothing was read.
    pub(crate) fn new(
        alloc: Global,
        components: usize,
        markers: PacketMarkers,
    ) -> Result<Precincts, Fault>
        requires { components ≤ 4 }
        ensures { MatchResult result
            (λ p. p ≡ record {
              sop = markers.sop;
              eph = markers.eph;
              precincts = replicate (components * most_resolutions) [];
            }) (λ e. IsMemory e) }
    {
        let mut resolutions = Vec::new(alloc);
        for _ in 0..components * MOST_RESOLUTIONS {
            resolutions.push(Vec::new(alloc))?;
        }
        Ok(Precincts {
            alloc,
            markers,
            resolutions,
        })
    }

    /// The header of a packet at the front of `bytes`, which is the next of its precinct. Nothing
    /// more is kept of the precinct if it is the last.
    ///
    /// The faults are those of `Precinct::read_header`.
    pub(crate) fn read_header(
        &mut self,
        shape: &TileShape,
        name: PacketName,
        bytes: &[u8],
    ) -> Result<Header, Fault>
        requires shape { IsTileShape shape.now }
        requires planes { AllByRecursion HasPlanes shape.now.codings }
        requires name { IsName shape.now name }
        requires kept { length self.old.precincts ≡ length shape.now.codings * most_resolutions }
        requires next { name.layer
            ≡ (states_in shape.now self.old name.component name.resolution name.precinct).layers }
        ensures exact { Answers text_of result (alone (header_at name.layer bytes.now
            (states_in shape.now self.old name.component name.resolution name.precinct))) }
        ensures early { name.layer + 1 < shape.now.layers → ReadsBy text_of (header_at name.layer bytes.now)
            (states_in shape.now self.old name.component name.resolution name.precinct)
            (states_in shape.now self.new name.component name.resolution name.precinct) result }
        ensures others { OnOk result ((c r k : ℕ) → IsPrecinct shape.now c r k → is_of c r k name ≡ false
            → states_in shape.now self.new c r k ≡ states_in shape.now self.old c r k) }
        ensures kept { IsKept self.old self.new }
    {
        let row = row_of(name);
        read_in(
            self.alloc,
            shape,
            self.markers,
            name,
            bytes,
            &mut self.resolutions[row],
        )
    }
}
