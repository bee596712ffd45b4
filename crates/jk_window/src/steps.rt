//! What the file of a window is made of.

ghost use Rattle.std.specs.Prelude.{◌≡◌, ◌+◌, ◌-◌, ◌*◌, ◌<◌, ◌≤◌, ◌^◌, ◌++◌, ◌∷◌, ℕ, List, [], length, min, OnOk, IfErr};
ghost use Rattle.std.specs.Prelude.{MatchOption};
ghost use Rattle.jk_math.specs.Memory.{IsMemory};
ghost use Rattle.jk_walk.specs.TilePackets.{slice_of};
ghost use Rattle.jk_packet.specs.PacketText.{eph_text};
ghost use Rattle.jk_window.specs.Planning.{plan_text, plan_length, IsStep, IsLast, IsBehind};
ghost use Rattle.jk_window.specs.Emptying.{emptied_texts};

use crate::emptying::{block_size, emptied};
use jk_math::Fault;
use std::alloc::Global;
use std::marker::Model;

/// A stretch of the stored file that is copied, and how many bytes are written behind it.
#[derive(Clone, Copy, Debug, PartialEq, Eq)]
pub struct CutStep {
    /// The first byte in the file.
    pub start: usize,
    /// The byte behind the last one.
    pub end: usize,
    /// How many bytes are written behind what is copied.
    pub written: usize,
}

/// The file of a window, told by what is copied of the stored file and what is written between: for
/// each step a stretch of the stored file, and then so many of the bytes that are written. It is
/// made of the index alone, so the file is read where something is copied, and nowhere else.
#[derive(Debug, Drop)]
pub struct CutPlan {
    steps: Vec<CutStep>,
    written: Vec<u8>,
    size: usize,
}

impl Model for CutPlan {
    ghost use Rattle.jk_window.specs.Planning.{PlanFields, IsPlan};

    ghost Value = { PlanFields };

    ghost view = { λ p. record { steps = p.steps.items; written = p.written.items; size = p.size } };

    ghost invariant = { λ p. IsPlan record { steps = p.steps.items; written = p.written.items; size = p.size } };
}

impl CutPlan {
    ghost use Rattle.std.specs.Prelude.{◌≡◌};
    ghost use Rattle.jk_window.specs.Planning.{IsPlan};

    /// The stretches, in the order in which they are copied. Each lies in the stored file.
    pub fn steps(&self) -> &[CutStep]
        ensures value { result.now ≡ self.now.steps }
        ensures sound { IsPlan self.now }
    {
        &self.steps
    }

    /// What is written behind the stretches, one after another.
    pub fn written(&self) -> &[u8]
        ensures { result.now ≡ self.now.written }
    {
        &self.written
    }

    /// How many bytes the stored file has.
    pub fn file_size(&self) -> usize
        ensures { result ≡ self.now.size }
    {
        self.size
    }

    /// How many bytes the file of the window has, and 2^64 - 1 where there are more.
    pub fn length(&self) -> u64
        ensures { result ≡ min (plan_length self.now) (2 ^ 64 - 1) }
    {
        let mut sum: u64 = 0;
        for step in &self.steps {
            sum = sum.saturating_add((step.end - step.start) as u64);
            sum = sum.saturating_add(step.written as u64);
        }
        sum
    }

    /// Nothing of a file of so many bytes.
    pub(crate) fn new(alloc: Global, size: usize) -> CutPlan
        ensures { result ≡ record { steps = []; written = []; size = size } }
    {
        CutPlan {
            steps: Vec::new(alloc),
            written: Vec::new(alloc),
            size,
        }
    }

    /// The number of the last step, where it ends at a place and nothing is written behind it.
    fn open_at(&self, at: usize) -> Option<usize>
        ensures { MatchOption result (Unit {0}) (λ n. IsLast self.now n (λ s. (s.written ≡ 0) × (s.end ≡ at))) }
    {
        if self.steps.is_empty() {
            return None;
        }
        let last = self.steps.len() - 1;
        let step = self.steps[last];
        if step.written == 0 && step.end == at {
            Some(last)
        } else {
            None
        }
    }

    /// Copies more of the file at the last step, which ends at `start`.
    fn lengthen(&mut self, last: usize, start: usize, end: usize)
        requires last { IsLast self.old last (λ s. (s.written ≡ 0) × (s.end ≡ start)) }
        requires order { start ≤ end }
        requires within { end ≤ self.old.size }
        ensures { IsBehind self.old self.new (λ file. slice_of file (start, end)) (end - start) }
    {
        let step = self.steps[last];
        self.steps[last] = CutStep { end, ..step };
    }

    /// Makes one step more.
    fn push(&mut self, start: usize, end: usize) -> Result<(), Fault>
        requires order { start ≤ end }
        requires within { end ≤ self.old.size }
        ensures ok { OnOk result (IsBehind self.old self.new (λ file. slice_of file (start, end)) (end - start)) }
        ensures some { OnOk result (0 < length self.new.steps) }
        ensures err { IfErr result IsMemory }
    {
        self.steps.push(CutStep {
            start,
            end,
            written: 0,
        })?;
        Ok(())
    }

    /// Writes bytes behind the last step.
    fn write_last(&mut self, bytes: &[u8]) -> Result<(), Fault>
        requires some { 0 < length self.old.steps }
        ensures ok { OnOk result (IsBehind self.old self.new (λ _. bytes.now) (length bytes.now)) }
        ensures err { IfErr result IsMemory }
    {
        let last = self.steps.len() - 1;
        let step = self.steps[last];
        self.written.extend_from_slice(bytes)?;
        self.steps[last] = CutStep {
            written: step.written + bytes.len(),
            ..step
        };
        Ok(())
    }

    /// Writes bytes behind what is there.
    pub(crate) fn write(&mut self, bytes: &[u8]) -> Result<(), Fault>
        ensures ok { OnOk result (IsBehind self.old self.new (λ _. bytes.now) (length bytes.now)) }
        ensures err { IfErr result IsMemory }
    {
        if self.steps.is_empty() {
            self.push(0, 0)?;
        }
        self.write_last(bytes)
    }

    /// Writes a byte behind the last step.
    fn write_byte_last(&mut self, byte: u8) -> Result<(), Fault>
        requires some { 0 < length self.old.steps }
        ensures ok { OnOk result (IsBehind self.old self.new (λ _. byte ∷ []) 1) }
        ensures err { IfErr result IsMemory }
    {
        let last = self.steps.len() - 1;
        let step = self.steps[last];
        self.written.push(byte)?;
        self.steps[last] = CutStep {
            written: step.written + 1,
            ..step
        };
        Ok(())
    }

    /// Writes a byte behind what is there.
    pub(crate) fn write_byte(&mut self, byte: u8) -> Result<(), Fault>
        ensures ok { OnOk result (IsBehind self.old self.new (λ _. byte ∷ []) 1) }
        ensures err { IfErr result IsMemory }
    {
        if self.steps.is_empty() {
            self.push(0, 0)?;
        }
        self.write_byte_last(byte)
    }

    /// Writes so many empty packets without SOP.
    pub(crate) fn write_emptied(&mut self, count: usize, eph: bool) -> Result<(), Fault>
        ensures ok { OnOk result (IsBehind self.old self.new
            (λ _. emptied_texts eph count) (count * length (0 ∷ eph_text eph))) }
        ensures err { IfErr result IsMemory }
    {
        let mut left = count;
        while left > 0 {
            let some = left.min(block_size(eph));
            self.write(emptied(some, eph))?;
            left -= some;
        }
        Ok(())
    }

    /// Copies a stretch of the file behind what is there.
    pub(crate) fn copy(&mut self, start: usize, end: usize) -> Result<(), Fault>
        requires order { start ≤ end }
        requires within { end ≤ self.old.size }
        ensures ok { OnOk result (IsBehind self.old self.new (λ file. slice_of file (start, end)) (end - start)) }
        ensures err { IfErr result IsMemory }
    {
        match self.open_at(start) {
            Some(last) => {
                self.lengthen(last, start, end);
                Ok(())
            }
            None => self.push(start, end),
        }
    }

    /// A step of another plan: what it copies, and what is written behind that.
    fn append_step(&mut self, step: CutStep, written: &[u8]) -> Result<(), Fault>
        requires { IsStep self.old.size step }
        ensures ok { OnOk result (IsBehind self.old self.new
            (λ file. slice_of file (step.start, step.end) ++ written.now)
            (step.end - step.start + length written.now)) }
        ensures err { IfErr result IsMemory }
    {
        if step.start < step.end {
            self.copy(step.start, step.end)?;
        }
        if written.is_empty() {
            return Ok(());
        }
        self.write(written)
    }

    /// What another plan of the file makes, behind what is there.
    pub(crate) fn append(&mut self, other: &CutPlan) -> Result<(), Fault>
        requires { other.now.size ≡ self.old.size }
        ensures ok { OnOk result
            (IsBehind self.old self.new (λ file. plan_text file other.now) (plan_length other.now)) }
        ensures err { IfErr result IsMemory }
    {
        let mut at = 0;
        for step in &other.steps {
            let behind = at + step.written;
            self.append_step(*step, &other.written[at..behind])?;
            at = behind;
        }
        Ok(())
    }
}
