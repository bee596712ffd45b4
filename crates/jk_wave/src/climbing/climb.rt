//! A level that climbs: two rows are held, and all else goes in and out.

ghost use Rattle.std.specs.Prelude.{◌≡◌, ℕ, ℤ, IfOk, IfErr, OnOk, ◌+◌, ◌-◌, ◌%◌, ◌^◌, ◌<◌, ◌≤◌, ◌++◌, length, All};
ghost use Rattle.jk_math.specs.Memory.{IsMemory};
ghost use Rattle.jk_math.specs.Raster.{columns_of, raster};
ghost use Rattle.jk_math.specs.Signed.{IsBelow};
ghost use Rattle.jk_geom.specs.Rectangles.{IsArea};
ghost use Rattle.jk_wave.specs.SourceRows.{IsRow};
ghost use Rattle.jk_wave.specs.climbing.Held.{column_sample, rows_between, made, HoldsRows, IsClimb};

use crate::climbing::rows::{make_even, make_odd, make_only};
use jk_math::{Fault, Rect};
use std::alloc::Global;
use std::mem;

/// The rows that are held before row `v`, which is even or the end: samples and coefficients.
#[derive(Drop)]
pub struct Climb {
    /// The samples of row `v - 2`.
    even: Vec<i32>,
    /// The coefficients of row `v - 1`.
    odd: Vec<i32>,
}

impl Climb {
    /// Before the first row.
    pub fn new(alloc: Global, area: &Rect) -> Result<Climb, Fault>
        requires { IsArea area.now }
        ensures held { IfOk result (HoldsRows area.now) }
        ensures err { IfErr result (λ e. IsMemory e) }
    {
        let width = (area.x1 - area.x0) as usize;
        Ok(Climb {
            even: vec![in alloc; 0; width]?,
            odd: vec![in alloc; 0; width]?,
        })
    }

    /// Takes the first row, where it is odd.
    pub fn begin(&mut self, area: &Rect, row: &mut Vec<i32>)
        requires odd { area.now.y0 % 2 ≡ 1 }
        requires held { HoldsRows area.now self.old }
        requires long { length row.old.items ≡ columns_of area.now }
        requires small { All (IsBelow (2 ^ 29)) row.old.items }
        ensures climbs { (f : ℕ → ℕ → ℤ) → IsRow area.now (λ x. f x area.now.y0) row.old.items
            → IsClimb area.now f (area.now.y0 + 1) self.new }
        ensures held { HoldsRows area.now self.new }
        ensures long { length row.new.items ≡ columns_of area.now }
    {
        mem::swap(&mut self.odd, row);
    }

    /// Makes samples of row `v`, which comes with the row below it.
    fn make_row(&self, area: &Rect, v: u32, even: &mut [i32], odd: &[i32])
        requires even { v % 2 ≡ 0 }
        requires from { area.now.y0 ≤ v }
        requires inside { v + 1 < area.now.y1 }
        requires held { HoldsRows area.now self.now }
        requires even_long { length even.old ≡ columns_of area.now }
        requires odd_long { length odd.now ≡ columns_of area.now }
        requires even_small { All (IsBelow (2 ^ 29)) even.old }
        requires odd_small { All (IsBelow (2 ^ 29)) odd.now }
        ensures samples { (f : ℕ → ℕ → ℤ) → IsClimb area.now f v self.now → IsRow area.now (λ x. f x v) even.old
            → IsRow area.now (λ x. f x (v + 1)) odd.now → IsRow area.now (λ x. column_sample area.now f x v) even.new }
        ensures small { All (IsBelow (2 ^ 30 - 1)) even.new }
    {
        if v == area.y0 {
            make_even(area, v, even, odd, odd);
        } else {
            make_even(area, v, even, &self.odd, odd);
        }
    }

    /// Makes samples of the odd row that is held, above row `v`.
    fn make_held(&mut self, area: &Rect, v: u32, even: &[i32])
        requires even { v % 2 ≡ 0 }
        requires behind { area.now.y0 < v }
        requires inside { v < area.now.y1 }
        requires held { HoldsRows area.now self.old }
        requires long { length even.now ≡ columns_of area.now }
        requires small { All (IsBelow (2 ^ 30 - 1)) even.now }
        ensures samples { (f : ℕ → ℕ → ℤ) → IsClimb area.now f v self.old
            → IsRow area.now (λ x. column_sample area.now f x v) even.now
            → IsRow area.now (λ x. column_sample area.now f x (v - 1)) self.new.odd.items }
        ensures long { length self.new.odd.items ≡ columns_of area.now }
        ensures same { self.new.even ≡ self.old.even }
    {
        if v - area.y0 < 2 {
            make_odd(area, v - 1, &mut self.odd, even, even);
        } else {
            make_odd(area, v - 1, &mut self.odd, &self.even, even);
        }
    }

    /// Gives the samples of the odd row above row `v`, if there is one.
    fn give_odd(
        &mut self,
        area: &Rect,
        v: u32,
        even: &[i32],
        out: &mut Vec<i32>,
    ) -> Result<(), Fault>
        requires even { v % 2 ≡ 0 }
        requires from { area.now.y0 ≤ v }
        requires inside { v < area.now.y1 }
        requires held { HoldsRows area.now self.old }
        requires long { length even.now ≡ columns_of area.now }
        requires small { All (IsBelow (2 ^ 30 - 1)) even.now }
        ensures samples { OnOk result ((f : ℕ → ℕ → ℤ) → IsClimb area.now f v self.old
            → IsRow area.now (λ x. column_sample area.now f x v) even.now
            → out.new.items ≡ out.old.items ++ raster (rows_between area.now (made area.now v) v) (column_sample area.now f)) }
        ensures long { length self.new.odd.items ≡ columns_of area.now }
        ensures same { self.new.even ≡ self.old.even }
        ensures err { IfErr result (λ e. IsMemory e) }
    {
        if v == area.y0 {
            return Ok(());
        }
        self.make_held(area, v, even);
        Ok(out.extend_from_slice(&self.odd)?)
    }

    /// Gives the samples of row `v` and of the one above it, and holds those of row `v`.
    fn give(
        &mut self,
        area: &Rect,
        v: u32,
        even: &mut Vec<i32>,
        out: &mut Vec<i32>,
    ) -> Result<(), Fault>
        requires even { v % 2 ≡ 0 }
        requires from { area.now.y0 ≤ v }
        requires inside { v < area.now.y1 }
        requires held { HoldsRows area.now self.old }
        requires long { length even.old.items ≡ columns_of area.now }
        requires small { All (IsBelow (2 ^ 30 - 1)) even.old.items }
        ensures samples { OnOk result ((f : ℕ → ℕ → ℤ) → IsClimb area.now f v self.old
            → IsRow area.now (λ x. column_sample area.now f x v) even.old.items
            → out.new.items ≡ out.old.items ++ raster (rows_between area.now (made area.now v) (v + 1)) (column_sample area.now f)) }
        ensures held { OnOk result (self.new.even ≡ even.old) }
        ensures odd_long { OnOk result (length self.new.odd.items ≡ columns_of area.now) }
        ensures even_long { OnOk result (length even.new.items ≡ columns_of area.now) }
        ensures err { IfErr result (λ e. IsMemory e) }
    {
        self.give_odd(area, v, even, out)?;
        out.extend_from_slice(even)?;
        mem::swap(&mut self.even, even);
        Ok(())
    }

    /// Takes rows `v` and `v + 1` of coefficients, and gives the samples of row `v` and of the one
    /// above it. `even` and `odd` become room for the next two.
    pub fn add_pair(
        &mut self,
        area: &Rect,
        v: u32,
        even: &mut Vec<i32>,
        odd: &mut Vec<i32>,
        out: &mut Vec<i32>,
    ) -> Result<(), Fault>
        requires even { v % 2 ≡ 0 }
        requires from { area.now.y0 ≤ v }
        requires inside { v + 1 < area.now.y1 }
        requires held { HoldsRows area.now self.old }
        requires even_long { length even.old.items ≡ columns_of area.now }
        requires odd_long { length odd.old.items ≡ columns_of area.now }
        requires even_small { All (IsBelow (2 ^ 29)) even.old.items }
        requires odd_small { All (IsBelow (2 ^ 29)) odd.old.items }
        ensures climbs { OnOk result ((f : ℕ → ℕ → ℤ) → IsClimb area.now f v self.old
            → IsRow area.now (λ x. f x v) even.old.items → IsRow area.now (λ x. f x (v + 1)) odd.old.items
            → IsClimb area.now f (v + 2) self.new × (out.new.items ≡ out.old.items
            ++ raster (rows_between area.now (made area.now v) (made area.now (v + 2))) (column_sample area.now f))) }
        ensures held { OnOk result (HoldsRows area.now self.new) }
        ensures even_long { OnOk result (length even.new.items ≡ columns_of area.now) }
        ensures odd_long { OnOk result (length odd.new.items ≡ columns_of area.now) }
        ensures err { IfErr result (λ e. IsMemory e) }
    {
        self.make_row(area, v, even, odd);
        self.give(area, v, even, out)?;
        mem::swap(&mut self.odd, odd);
        Ok(())
    }

    /// Takes the last row, where it is even, and gives the samples of all that are left.
    pub fn end_even(
        &mut self,
        area: &Rect,
        v: u32,
        even: &mut Vec<i32>,
        out: &mut Vec<i32>,
    ) -> Result<(), Fault>
        requires even { v % 2 ≡ 0 }
        requires behind { area.now.y0 < v }
        requires last { v + 1 ≡ area.now.y1 }
        requires held { HoldsRows area.now self.old }
        requires long { length even.old.items ≡ columns_of area.now }
        requires small { All (IsBelow (2 ^ 29)) even.old.items }
        ensures samples { OnOk result ((f : ℕ → ℕ → ℤ) → IsClimb area.now f v self.old
            → IsRow area.now (λ x. f x v) even.old.items
            → out.new.items ≡ out.old.items
            ++ raster (rows_between area.now (made area.now v) area.now.y1) (column_sample area.now f)) }
        ensures err { IfErr result (λ e. IsMemory e) }
    {
        make_even(area, v, even, &self.odd, &self.odd);
        self.give(area, v, even, out)
    }

    /// Gives the samples of the last row, where it is odd.
    pub fn end_odd(&mut self, area: &Rect, out: &mut Vec<i32>) -> Result<(), Fault>
        requires tall { area.now.y0 + 2 ≤ area.now.y1 }
        requires even { area.now.y1 % 2 ≡ 0 }
        requires held { HoldsRows area.now self.old }
        ensures samples { OnOk result ((f : ℕ → ℕ → ℤ) → IsClimb area.now f area.now.y1 self.old
            → out.new.items ≡ out.old.items
            ++ raster (rows_between area.now (made area.now area.now.y1) area.now.y1) (column_sample area.now f)) }
        ensures err { IfErr result (λ e. IsMemory e) }
    {
        make_odd(area, area.y1 - 1, &mut self.odd, &self.even, &self.even);
        Ok(out.extend_from_slice(&self.odd)?)
    }
}

/// Gives the samples of the only row of a rectangle.
pub fn only(area: &Rect, row: &mut [i32], out: &mut Vec<i32>) -> Result<(), Fault>
    requires one { area.now.y0 + 1 ≡ area.now.y1 }
    requires long { length row.old ≡ columns_of area.now }
    requires small { All (IsBelow (2 ^ 29)) row.old }
    ensures samples { OnOk result ((f : ℕ → ℕ → ℤ) → IsRow area.now (λ x. f x area.now.y0) row.old
        → out.new.items ≡ out.old.items ++ raster area.now (column_sample area.now f)) }
    ensures err { IfErr result (λ e. IsMemory e) }
{
    make_only(area, row);
    Ok(out.extend_from_slice(row)?)
}
