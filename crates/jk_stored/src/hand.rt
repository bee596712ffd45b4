//! The bytes of a stored file that are at hand.

ghost use Rattle.std.specs.Prelude.{◌≡◌, ◌+◌, ◌-◌, ◌≤◌, ◌^◌, ◌<◌, ℕ, List, length, take, drop, true, IfOk, IfErr, OnOk};
ghost use Rattle.jk_math.specs.Memory.{IsMemory};
ghost use Rattle.jk_walk.specs.TilePackets.{slice_of};
ghost use Rattle.jk_stored.specs.Hands.{IsHeld, IsAt};

use crate::stored::Stored;
use jk_math::Fault;
use std::alloc::Global;

/// How many bytes are at hand at once: few enough that they are still in the processor's cache when
/// they are looked at.
pub(crate) const ROOM: usize = 1 << 18;

/// Some bytes of a stored file, one after another.
#[derive(Drop)]
pub(crate) struct Hand {
    room: Vec<u8>,
    start: usize,
    count: usize,
    least: usize,
}

impl Hand {
    ghost use Rattle.std.specs.Prelude.{◌≡◌, ◌+◌, ◌-◌, ◌≤◌, ◌^◌, ◌<◌, ℕ, List, length, take, drop, true, IfOk, IfErr, OnOk};
    ghost use Rattle.jk_math.specs.Memory.{IsMemory};
    ghost use Rattle.jk_walk.specs.TilePackets.{slice_of};
    ghost use Rattle.jk_stored.specs.Hands.{IsHeld, IsAt};

    /// No bytes yet.
    pub(crate) fn new(alloc: Global) -> Result<Hand, Fault>
        ensures held { IfOk result (λ h. (f : List ℕ) → IsHeld f h) }
        ensures err { IfErr result IsMemory }
    {
        Ok(Hand {
            room: vec![in alloc; 0u8; ROOM]?,
            start: 0,
            count: 0,
            least: ROOM,
        })
    }

    /// From now on so many bytes are taken in hand at least, where there are as many.
    pub(crate) fn aim(&mut self, least: usize)
        ensures held { (f : List ℕ) → IsHeld f self.old → IsHeld f self.new }
    {
        self.least = least;
    }

    /// Whether the bytes from a place on are at hand, enough of them or all up to an end.
    fn has(&self, at: usize, end: usize) -> bool
        ensures { result ≡ true → IsAt self.now at }
    {
        if self.room.len() < self.count || at < self.start || at - self.start > self.count {
            return false;
        }
        let left = self.count - (at - self.start);
        left >= self.least || left >= end.saturating_sub(at)
    }

    /// Takes the bytes from a place on in hand, if not enough of them are, or all up to an end.
    pub(crate) fn reach<S: Stored>(
        &mut self,
        stored: &S,
        at: usize,
        end: usize,
    ) -> Result<(), Fault>
        ensures at { OnOk result (IsAt self.new at) }
        ensures held { (f : List ℕ) → S.keeps stored.now f → IsHeld f self.old → OnOk result (IsHeld f self.new) }
    {
        if self.has(at, end) {
            return Ok(());
        }
        self.count = 0;
        let count = stored.read_at(at, &mut self.room)?;
        self.start = at;
        self.count = count;
        Ok(())
    }

    /// The bytes at hand from a place on, up to an end.
    pub(crate) fn bytes(&self, at: usize, end: usize) -> &[u8]
        requires at { IsAt self.now at }
        requires order { at ≤ end }
        ensures within { at + length result.now ≤ end }
        ensures held { (f : List ℕ) → IsHeld f self.now → result.now ≡ slice_of f (at, at + length result.now) }
    {
        let from = at - self.start;
        let count = (self.count - from).min(end - at);
        &self.room[from..from + count]
    }
}
