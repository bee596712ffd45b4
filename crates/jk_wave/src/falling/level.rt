//! A level that falls: it takes as many rows of samples as there are, and hands out rows of the
//! resolution below and of its sub-bands.

ghost use Rattle.std.specs.Prelude.{◌≡◌, ℕ, ℤ, [], IfOk, IfErr, OnOk, ◌+◌, ◌-◌, ◌*◌, ◌/◌, ◌%◌, ◌^◌, ◌<◌, ◌≤◌, ◌++◌, length, All};
ghost use Rattle.jk_math.specs.Memory.{IsMemory};
ghost use Rattle.jk_math.specs.Raster.{columns_of, raster};
ghost use Rattle.jk_math.specs.Signed.{IsBelow};
ghost use Rattle.jk_geom.specs.Rectangles.{IsArea};
ghost use Rattle.jk_wave.specs.Levels.{part_list};
ghost use Rattle.jk_wave.specs.climbing.Held.{rows_between};
ghost use Rattle.jk_wave.specs.falling.Intervals.{rows_fallen};
ghost use Rattle.jk_wave.specs.falling.Held.{IsReady, IsFall, GivesRows};
ghost use Rattle.jk_wave.specs.falling.Stack.{IsFalling, HoldsSamples, part_fallen};

use crate::falling::fall::Fall;
use crate::parts::LevelParts;
use crate::places::cut;
use jk_math::{Fault, Rect};
use std::alloc::Global;
use std::mem;

/// A level of the transform that is made forwards row by row (2D_SD, T.800 F.4.2). It stands before a
/// row of its samples, holds three rows of its width and room for two more, and keeps the rows of its
/// sub-bands that were made.
#[derive(Drop)]
pub struct FallingLevel {
    /// The rectangle of its samples.
    pub(crate) area: Rect,
    /// The row of samples that is next.
    pub(crate) y: u32,
    /// The rows that are held.
    pub(crate) fall: Fall,
    /// Room for the next row.
    pub(crate) row: Vec<i32>,
    /// The rows that were made: of the sub-bands all, and none of the resolution below between two
    /// steps.
    pub(crate) parts: LevelParts,
}

impl FallingLevel {
    /// The level on the rectangle `area`, before its first row. Memory is the only fault.
    pub fn new(alloc: Global, area: &Rect) -> Result<FallingLevel, Fault>
        requires { IsArea area.now }
        ensures standing { IfOk result IsFalling }
        ensures first { IfOk result (λ s. (s.area ≡ area.now) × (s.y ≡ area.now.y0)) }
        ensures none { IfOk result (λ s. (o : ℕ) → o < 4 → part_list s.parts o ≡ []) }
        ensures err { IfErr result (λ e. IsMemory e) }
    {
        let width = (area.x1 - area.x0) as usize;
        Ok(FallingLevel {
            area: *area,
            y: area.y0,
            fall: Fall::new(alloc, area)?,
            row: vec![in alloc; 0; width]?,
            parts: LevelParts::none(alloc),
        })
    }

    /// Takes the rows up to row `t`, of which `fresh` is the list.
    fn take_rows(&mut self, t: u32, fresh: &[i32]) -> Result<(), Fault>
        requires standing { IsFalling self.old }
        requires wide { self.old.area.x0 < self.old.area.x1 }
        requires order { self.old.y ≤ t }
        requires inside { t ≤ self.old.area.y1 }
        requires long { length fresh.now ≡ (t - self.old.y) * columns_of self.old.area }
        requires small { All (IsBelow (2 ^ 28 - 1)) fresh.now }
        ensures same { (self.new.area ≡ self.old.area) × (self.new.y ≡ self.old.y) }
        ensures ready { OnOk result (t < self.old.area.y1 → IsReady self.old.area t self.new.fall) }
        ensures row { OnOk result (length self.new.row.items ≡ columns_of self.old.area) }
        ensures rows { OnOk result ((f : ℕ → ℕ → ℤ) → (self.old.y < self.old.area.y1 → IsFall self.old.area f self.old.y self.old.fall)
            → fresh.now ≡ raster (rows_between self.old.area self.old.y t) f
            → (t < self.old.area.y1 → IsFall self.old.area f t self.new.fall)
            × GivesRows self.old.area f (rows_fallen self.old.area self.old.y) (rows_fallen self.old.area t) self.old.parts self.new.parts) }
        ensures err { IfErr result (λ e. IsMemory e) }
    {
        let width = (self.area.x1 - self.area.x0) as usize;
        let first = self.y;
        for y in first..t {
            let at = (y - first) as usize * width;
            self.row.copy_from_slice(cut(fresh, at, width));
            self.fall
                .put(&self.area, y, &mut self.row, &mut self.parts)?;
        }
        Ok(())
    }

    /// Takes the rows up to row `t`, of which `fresh` is the list: a single one as it is, and none
    /// where the rectangle has no columns. `fresh` is of no use behind it.
    fn take(&mut self, t: u32, fresh: &mut Vec<i32>) -> Result<(), Fault>
        requires standing { IsFalling self.old }
        requires order { self.old.y ≤ t }
        requires inside { t ≤ self.old.area.y1 }
        requires long { length fresh.old.items ≡ (t - self.old.y) * columns_of self.old.area }
        requires small { All (IsBelow (2 ^ 28 - 1)) fresh.old.items }
        ensures same { (self.new.area ≡ self.old.area) × (self.new.y ≡ self.old.y) }
        ensures ready { OnOk result (t < self.old.area.y1 → IsReady self.old.area t self.new.fall) }
        ensures row { OnOk result (length self.new.row.items ≡ columns_of self.old.area) }
        ensures rows { OnOk result ((f : ℕ → ℕ → ℤ) → (self.old.y < self.old.area.y1 → IsFall self.old.area f self.old.y self.old.fall)
            → fresh.old.items ≡ raster (rows_between self.old.area self.old.y t) f
            → (t < self.old.area.y1 → IsFall self.old.area f t self.new.fall)
            × GivesRows self.old.area f (rows_fallen self.old.area self.old.y) (rows_fallen self.old.area t) self.old.parts self.new.parts) }
        ensures err { IfErr result (λ e. IsMemory e) }
    {
        if self.area.x0 == self.area.x1 {
            return Ok(());
        }
        if t == self.y + 1 {
            mem::swap(&mut self.row, fresh);
            return self
                .fall
                .put(&self.area, self.y, &mut self.row, &mut self.parts);
        }
        self.take_rows(t, fresh)
    }

    /// Takes the rows of samples up to row `t`, of which `fresh` is the list, puts the rows of the
    /// resolution below that are made of them in their place, and those of the sub-bands behind the
    /// ones that it has. Memory is the only fault; the level isn't to be used behind it.
    pub fn step(&mut self, t: u32, fresh: &mut Vec<i32>) -> Result<(), Fault>
        requires standing { IsFalling self.old }
        requires order { self.old.y ≤ t }
        requires inside { t ≤ self.old.area.y1 }
        requires long { length fresh.old.items ≡ (t - self.old.y) * columns_of self.old.area }
        requires small { All (IsBelow (2 ^ 28 - 1)) fresh.old.items }
        ensures standing { OnOk result (IsFalling self.new) }
        ensures same { OnOk result ((self.new.area ≡ self.old.area) × (self.new.y ≡ t)) }
        ensures rows { OnOk result ((f : ℕ → ℕ → ℤ) → HoldsSamples f self.old
            → fresh.old.items ≡ raster (rows_between self.old.area self.old.y t) f
            → HoldsSamples f self.new × (fresh.new.items ≡ part_fallen self.old.area self.old.y t f 0)
            × ((o : ℕ) → 0 < o → o < 4
            → part_list self.new.parts o ≡ part_list self.old.parts o ++ part_fallen self.old.area self.old.y t f o)) }
        ensures err { IfErr result (λ e. IsMemory e) }
    {
        self.take(t, fresh)?;
        fresh.clear();
        mem::swap(fresh, &mut self.parts.ll);
        self.y = t;
        Ok(())
    }

    /// The rows of a sub-band that it made: HL is 1, LH 2 and HH 3.
    pub(crate) fn rows(&self, o: u8) -> &[i32]
        requires o { (0 < o) × (o < 4) }
        ensures { result.now ≡ part_list self.now.parts o }
    {
        match o {
            1 => &self.parts.hl,
            2 => &self.parts.lh,
            _ => &self.parts.hh,
        }
    }

    /// Lets go of the rows of its sub-bands that it made.
    pub(crate) fn clear(&mut self)
        ensures same { (self.new.area ≡ self.old.area) × (self.new.y ≡ self.old.y) × (self.new.fall ≡ self.old.fall)
            × (self.new.row ≡ self.old.row) × (self.new.parts.ll ≡ self.old.parts.ll) }
        ensures none { (o : ℕ) → 0 < o → o < 4 → part_list self.new.parts o ≡ [] }
    {
        self.parts.hl.clear();
        self.parts.lh.clear();
        self.parts.hh.clear();
    }

    /// The rows that it made.
    pub(crate) fn made(self) -> LevelParts
        ensures { result ≡ self.parts }
    {
        self.parts
    }
}
