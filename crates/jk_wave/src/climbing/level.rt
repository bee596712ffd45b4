//! A level that climbs in steps: rows of the resolution below wait until a step takes them.

ghost use Rattle.std.specs.Prelude.{◌≡◌, ℕ, ℤ, [], IfOk, IfErr, OnOk, ◌+◌, ◌-◌, ◌*◌, ◌/◌, ◌%◌, ◌^◌, ◌<◌, ◌≤◌, ◌++◌, length, drop, All, vec_len};
ghost use Rattle.jk_math.specs.Memory.{IsMemory};
ghost use Rattle.jk_math.specs.Raster.{columns_of, raster};
ghost use Rattle.jk_math.specs.Signed.{IsBelow};
ghost use Rattle.jk_geom.specs.Rectangles.{IsArea};
ghost use Rattle.jk_wave.specs.Levels.{half_bound, half_area, unlifted_over};
ghost use Rattle.jk_wave.specs.Resolutions.{woven_plane};
ghost use Rattle.jk_wave.specs.climbing.Held.{rows_between, HasRoom, IsClimb};
ghost use Rattle.jk_wave.specs.climbing.Intervals.{rows_reached};
ghost use Rattle.jk_wave.specs.climbing.PartRows.{half_width, across};
ghost use Rattle.jk_wave.specs.climbing.Standing.{AreHigh, ShowHigh, ShowLow, IsStanding, MayTake, HoldsPlanes};

use crate::climbing::climb::Climb;
use crate::climbing::parts::{GivenRows, WovenRows};
use crate::climbing::plane::{NextRows, climb_to};
use jk_math::{Fault, Rect};
use std::alloc::Global;

/// Rows of the sub-bands of a level (T.800 B.5).
#[derive(Clone, Copy)]
pub struct HighRows<'a> {
    pub hl: GivenRows<'a>,
    pub lh: GivenRows<'a>,
    pub hh: GivenRows<'a>,
}

/// A level of the transform that is made backwards row by row (2D_SR, T.800 F.3.2). It stands before
/// a row of its coefficients, and holds two rows of its width, room for two more, and the rows of the
/// resolution below that it hasn't taken yet.
#[derive(Drop)]
pub struct ClimbingLevel {
    /// The rectangle of its samples.
    pub(crate) area: Rect,
    /// The row of coefficients that is next.
    pub(crate) v: u32,
    /// The rows that are held.
    pub(crate) climb: Climb,
    pub(crate) next: NextRows,
    /// The rows of the resolution below that are made and not yet taken.
    pub(crate) low: Vec<i32>,
}

/// Leaves the first numbers of a list out.
fn forget(numbers: &mut Vec<i32>, used: usize)
    requires { used ≤ length numbers.old.items }
    ensures { numbers.new.items ≡ drop used numbers.old.items }
{
    let len = numbers.len();
    numbers.as_mut_slice().copy_within(used..len, 0);
    numbers.truncate(len - used);
}

impl ClimbingLevel {
    /// The level on the rectangle `area`, before its first row, with room for its four rows. Memory is
    /// the only fault.
    pub fn new(alloc: Global, area: &Rect) -> Result<ClimbingLevel, Fault>
        requires { IsArea area.now }
        ensures standing { IfOk result IsStanding }
        ensures first { IfOk result (λ s. (s.area ≡ area.now) × (s.v ≡ area.now.y0) × (s.low.items ≡ [])) }
        ensures err { IfErr result (λ e. IsMemory e) }
    {
        let width = (area.x1 - area.x0) as usize;
        Ok(ClimbingLevel {
            area: *area,
            v: area.y0,
            climb: Climb::new(alloc, area)?,
            next: NextRows {
                even: vec![in alloc; 0; width]?,
                odd: vec![in alloc; 0; width]?,
            },
            low: Vec::new(alloc),
        })
    }

    /// Takes the rows of coefficients up to `t`.
    fn take(&mut self, high: &HighRows, t: u32, out: &mut Vec<i32>) -> Result<(), Fault>
        requires standing { IsStanding self.old }
        requires high { AreHigh self.old.area self.old.v t high.now }
        requires order { self.old.v ≤ t }
        requires to { t ≤ self.old.area.y1 }
        requires even_end { self.old.area.y0 < t → t < self.old.area.y1 → t % 2 ≡ 0 }
        requires enough { (half_bound t 0 - half_bound self.old.v 0) * half_width self.old.area 0 ≤ length self.old.low.items }
        ensures same { (self.new.area ≡ self.old.area) × (self.new.v ≡ self.old.v) × (self.new.low ≡ self.old.low) }
        ensures ready { OnOk result (t < self.old.area.y1 → HasRoom self.old.area self.new.climb self.new.next) }
        ensures samples { OnOk result ((low : ℕ → ℕ → ℤ) (bands : ℕ → ℕ → ℕ → ℤ)
            → ShowLow self.old.area self.old.v t low self.old.low.items → ShowHigh self.old.area self.old.v t bands high.now
            → (self.old.v < self.old.area.y1 → IsClimb self.old.area (across self.old.area (woven_plane low bands)) self.old.v self.old.climb)
            → (t < self.old.area.y1 → IsClimb self.old.area (across self.old.area (woven_plane low bands)) t self.new.climb)
            × (out.new.items ≡ out.old.items ++ raster (rows_between self.old.area (rows_reached self.old.area self.old.v) (rows_reached self.old.area t))
            (unlifted_over self.old.area (woven_plane low bands)))) }
        ensures err { IfErr result (λ e. IsMemory e) }
    {
        let parts = WovenRows {
            area: self.area,
            v: self.v,
            t,
            ll: GivenRows {
                from: (self.v + 1) / 2,
                values: &self.low,
            },
            hl: high.hl,
            lh: high.lh,
            hh: high.hh,
        };
        climb_to(
            &mut self.climb,
            &parts,
            &self.area,
            self.v,
            t,
            &mut self.next,
            out,
        )
    }

    /// Takes further rows of the resolution below, `fresh`, then the rows of coefficients up to `t`,
    /// which is an even place or the end, and puts the samples that are made of them behind `out`.
    /// Of the sub-bands the rows that are taken have to be there. Memory is the only fault; the level
    /// isn't to be used behind it.
    pub fn step(
        &mut self,
        high: &HighRows,
        fresh: &[i32],
        t: u32,
        out: &mut Vec<i32>,
    ) -> Result<(), Fault>
        requires standing { IsStanding self.old }
        requires high { AreHigh self.old.area self.old.v t high.now }
        requires may { MayTake self.old fresh.now t }
        ensures standing { OnOk result (IsStanding self.new) }
        ensures same { OnOk result ((self.new.area ≡ self.old.area) × (self.new.v ≡ t)) }
        ensures samples { OnOk result ((low : ℕ → ℕ → ℤ) (bands : ℕ → ℕ → ℕ → ℤ) (d e : ℕ)
            → HoldsPlanes low bands d self.old → ShowHigh self.old.area self.old.v t bands high.now
            → fresh.now ≡ raster (rows_between (half_area self.old.area 0) d e) low
            → half_bound self.old.v 0 ≤ d → d ≤ e → half_bound t 0 ≤ e → HoldsPlanes low bands e self.new
            × (out.new.items ≡ out.old.items ++ raster (rows_between self.old.area (rows_reached self.old.area self.old.v) (rows_reached self.old.area t))
            (unlifted_over self.old.area (woven_plane low bands)))) }
        ensures err { IfErr result (λ e. IsMemory e) }
    {
        self.low.extend_from_slice(fresh)?;
        self.take(high, t, out)?;
        let width = ((self.area.x1 + 1) / 2 - (self.area.x0 + 1) / 2) as usize;
        let used = ((t + 1) / 2 - (self.v + 1) / 2) as usize * width;
        forget(&mut self.low, used);
        self.v = t;
        Ok(())
    }
}
