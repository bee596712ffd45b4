//! A level that falls: it is given its rows of samples one by one, and hands out the rows of its
//! parts that are complete then. Three rows are held, and room for one.

ghost use Rattle.std.specs.Prelude.{◌≡◌, ℕ, ℤ, IfOk, IfErr, OnOk, ◌+◌, ◌-◌, ◌*◌, ◌%◌, ◌^◌, ◌<◌, ◌≤◌, max, length, All};
ghost use Rattle.jk_math.specs.Memory.{IsMemory};
ghost use Rattle.jk_math.specs.Raster.{columns_of};
ghost use Rattle.jk_math.specs.Signed.{IsBelow};
ghost use Rattle.jk_geom.specs.Rectangles.{IsArea};
ghost use Rattle.jk_wave.specs.SourceRows.{IsRow, column_lifted, column_high};
ghost use Rattle.jk_wave.specs.falling.Intervals.{rows_fallen};
ghost use Rattle.jk_wave.specs.falling.Held.{HoldsFall, IsReady, IsFall, GivesRows};

use crate::falling::rows::{make_high, make_low, make_only};
use crate::parts::LevelParts;
use jk_math::{Fault, Rect};
use std::alloc::Global;
use std::mem;

/// The rows that are held before row `y`.
#[derive(Drop)]
pub struct Fall {
    /// The high-pass coefficients of the odd row before the one in `even`.
    high: Vec<i32>,
    /// The samples of the last even row above row `y`.
    even: Vec<i32>,
    /// The samples of row `y - 1`, where that is odd.
    odd: Vec<i32>,
    /// Room for a row.
    line: Vec<i32>,
}

impl Fall {
    /// Before the first row.
    pub fn new(alloc: Global, area: &Rect) -> Result<Fall, Fault>
        requires { IsArea area.now }
        ensures ready { IfOk result (IsReady area.now area.now.y0) }
        ensures err { IfErr result (λ e. IsMemory e) }
    {
        let width = (area.x1 - area.x0) as usize;
        Ok(Fall {
            high: vec![in alloc; 0; width]?,
            even: vec![in alloc; 0; width]?,
            odd: vec![in alloc; 0; width]?,
            line: vec![in alloc; 0; width]?,
        })
    }

    /// Makes the high-pass coefficients of row `y`, which is odd, with the row below it.
    fn make_held(&mut self, area: &Rect, y: u32, below: &[i32])
        requires odd { y % 2 ≡ 1 }
        requires from { area.now.y0 ≤ y }
        requires inside { y + 1 < area.now.y1 }
        requires ready { IsReady area.now (y + 1) self.old }
        requires long { length below.now ≡ columns_of area.now }
        requires small { All (IsBelow (2 ^ 28 - 1)) below.now }
        ensures high { (f : ℕ → ℕ → ℤ) → IsFall area.now f (y + 1) self.old → IsRow area.now (λ x. f x (y + 1)) below.now
            → IsRow area.now (column_high area.now f y) self.new.odd.items }
        ensures long { length self.new.odd.items ≡ columns_of area.now }
        ensures small { All (IsBelow (2 ^ 29)) self.new.odd.items }
        ensures same { (self.new.high ≡ self.old.high) × (self.new.even ≡ self.old.even) × (self.new.line ≡ self.old.line) }
    {
        if y == area.y0 {
            make_high(area, y, &mut self.odd, below, below);
        } else {
            make_high(area, y, &mut self.odd, &self.even, below);
        }
    }

    /// Makes the high-pass coefficients of the last row `y`, which is odd.
    fn make_last(&mut self, area: &Rect, y: u32)
        requires odd { y % 2 ≡ 1 }
        requires behind { area.now.y0 < y }
        requires last { y + 1 ≡ area.now.y1 }
        requires ready { IsReady area.now (y + 1) self.old }
        ensures high { (f : ℕ → ℕ → ℤ) → IsFall area.now f (y + 1) self.old
            → IsRow area.now (column_high area.now f y) self.new.odd.items }
        ensures long { length self.new.odd.items ≡ columns_of area.now }
        ensures small { All (IsBelow (2 ^ 29)) self.new.odd.items }
        ensures same { (self.new.high ≡ self.old.high) × (self.new.even ≡ self.old.even) × (self.new.line ≡ self.old.line) }
    {
        make_high(area, y, &mut self.odd, &self.even, &self.even);
    }

    /// Makes the low-pass coefficients of row `y`, which is even, where the high-pass ones of the
    /// row below it stand in its place.
    fn make_even(&mut self, area: &Rect, y: u32)
        requires even { y % 2 ≡ 0 }
        requires from { area.now.y0 ≤ y }
        requires inside { y + 1 < area.now.y1 }
        requires held { HoldsFall area.now self.old }
        requires small { All (IsBelow (2 ^ 29)) self.old.odd.items }
        ensures low { (f : ℕ → ℕ → ℤ) → IsRow area.now (λ x. f x y) self.old.even.items
            → (area.now.y0 < y → IsRow area.now (column_high area.now f (y - 1)) self.old.high.items)
            → IsRow area.now (column_high area.now f (y + 1)) self.old.odd.items
            → IsRow area.now (column_lifted area.now f y) self.new.even.items }
        ensures long { length self.new.even.items ≡ columns_of area.now }
        ensures small { All (IsBelow (2 ^ 29)) self.new.even.items }
        ensures same { (self.new.high ≡ self.old.high) × (self.new.odd ≡ self.old.odd) × (self.new.line ≡ self.old.line) }
    {
        if y == area.y0 {
            make_low(area, y, &mut self.even, &self.odd, &self.odd);
        } else {
            make_low(area, y, &mut self.even, &self.high, &self.odd);
        }
    }

    /// Gives the even row above row `y`, if there is one, where the high-pass coefficients of row
    /// `y` stand in its place.
    fn give_even(&mut self, area: &Rect, y: u32, parts: &mut LevelParts) -> Result<(), Fault>
        requires area { IsArea area.now }
        requires odd { y % 2 ≡ 1 }
        requires from { area.now.y0 ≤ y }
        requires inside { y < area.now.y1 }
        requires held { HoldsFall area.now self.old }
        requires small { All (IsBelow (2 ^ 29)) self.old.odd.items }
        ensures rows { OnOk result ((f : ℕ → ℕ → ℤ)
            → (area.now.y0 < y → IsRow area.now (λ x. f x (y - 1)) self.old.even.items)
            → (area.now.y0 < y - 1 → IsRow area.now (column_high area.now f (y - 2)) self.old.high.items)
            → IsRow area.now (column_high area.now f y) self.old.odd.items
            → GivesRows area.now f (max area.now.y0 (y - 1)) y parts.old parts.new) }
        ensures even_long { OnOk result (length self.new.even.items ≡ columns_of area.now) }
        ensures line_long { OnOk result (length self.new.line.items ≡ columns_of area.now) }
        ensures same { OnOk result ((self.new.high ≡ self.old.high) × (self.new.odd ≡ self.old.odd)) }
        ensures err { IfErr result (λ e. IsMemory e) }
    {
        if y == area.y0 {
            return Ok(());
        }
        self.make_even(area, y - 1);
        parts.add_row(area, y - 1, &self.even, &mut self.line)
    }

    /// Gives row `y`, which is odd and whose high-pass coefficients stand in its place, and the even
    /// one above it.
    fn give_pair(&mut self, area: &Rect, y: u32, parts: &mut LevelParts) -> Result<(), Fault>
        requires area { IsArea area.now }
        requires tall { area.now.y0 + 2 ≤ area.now.y1 }
        requires odd { y % 2 ≡ 1 }
        requires from { area.now.y0 ≤ y }
        requires inside { y < area.now.y1 }
        requires held { HoldsFall area.now self.old }
        requires small { All (IsBelow (2 ^ 29)) self.old.odd.items }
        ensures rows { OnOk result ((f : ℕ → ℕ → ℤ)
            → (area.now.y0 < y → IsRow area.now (λ x. f x (y - 1)) self.old.even.items)
            → (area.now.y0 < y - 1 → IsRow area.now (column_high area.now f (y - 2)) self.old.high.items)
            → IsRow area.now (column_high area.now f y) self.old.odd.items
            → GivesRows area.now f (max area.now.y0 (y - 1)) (y + 1) parts.old parts.new) }
        ensures even_long { OnOk result (length self.new.even.items ≡ columns_of area.now) }
        ensures line_long { OnOk result (length self.new.line.items ≡ columns_of area.now) }
        ensures same { OnOk result ((self.new.high ≡ self.old.high) × (self.new.odd ≡ self.old.odd)) }
        ensures err { IfErr result (λ e. IsMemory e) }
    {
        self.give_even(area, y, parts)?;
        parts.add_row(area, y, &self.odd, &mut self.line)
    }

    /// Takes row `y`, which is even and not the first, and gives the two rows above it.
    fn put_even(
        &mut self,
        area: &Rect,
        y: u32,
        row: &mut Vec<i32>,
        parts: &mut LevelParts,
    ) -> Result<(), Fault>
        requires area { IsArea area.now }
        requires even { y % 2 ≡ 0 }
        requires behind { area.now.y0 < y }
        requires inside { y < area.now.y1 }
        requires ready { IsReady area.now y self.old }
        requires long { length row.old.items ≡ columns_of area.now }
        requires small { All (IsBelow (2 ^ 28 - 1)) row.old.items }
        ensures rows { OnOk result ((f : ℕ → ℕ → ℤ) → IsFall area.now f y self.old → IsRow area.now (λ x. f x y) row.old.items
            → IsFall area.now f (y + 1) self.new × GivesRows area.now f (max area.now.y0 (y - 2)) y parts.old parts.new) }
        ensures held { OnOk result (HoldsFall area.now self.new) }
        ensures long { OnOk result (length row.new.items ≡ columns_of area.now) }
        ensures err { IfErr result (λ e. IsMemory e) }
    {
        self.make_held(area, y - 1, row);
        self.give_pair(area, y - 1, parts)?;
        mem::swap(&mut self.high, &mut self.odd);
        mem::swap(&mut self.even, row);
        Ok(())
    }

    /// Gives the last row `y`, which is even.
    fn end_even(&mut self, area: &Rect, y: u32, parts: &mut LevelParts) -> Result<(), Fault>
        requires area { IsArea area.now }
        requires even { y % 2 ≡ 0 }
        requires behind { area.now.y0 < y }
        requires last { y + 1 ≡ area.now.y1 }
        requires held { HoldsFall area.now self.old }
        ensures rows { OnOk result ((f : ℕ → ℕ → ℤ) → IsFall area.now f (y + 1) self.old
            → GivesRows area.now f y (y + 1) parts.old parts.new) }
        ensures err { IfErr result (λ e. IsMemory e) }
    {
        make_low(area, y, &mut self.even, &self.high, &self.high);
        parts.add_row(area, y, &self.even, &mut self.line)
    }

    /// Takes row `y`, which is odd, and gives it and the one above it where it is the last.
    fn put_odd(
        &mut self,
        area: &Rect,
        y: u32,
        row: &mut Vec<i32>,
        parts: &mut LevelParts,
    ) -> Result<(), Fault>
        requires area { IsArea area.now }
        requires tall { area.now.y0 + 2 ≤ area.now.y1 }
        requires odd { y % 2 ≡ 1 }
        requires from { area.now.y0 ≤ y }
        requires inside { y < area.now.y1 }
        requires ready { IsReady area.now y self.old }
        requires long { length row.old.items ≡ columns_of area.now }
        requires small { All (IsBelow (2 ^ 28 - 1)) row.old.items }
        ensures rows { OnOk result ((f : ℕ → ℕ → ℤ) → IsFall area.now f y self.old → IsRow area.now (λ x. f x y) row.old.items
            → (y + 1 < area.now.y1 → IsFall area.now f (y + 1) self.new)
            × GivesRows area.now f (rows_fallen area.now y) (rows_fallen area.now (y + 1)) parts.old parts.new) }
        ensures ready { OnOk result (y + 1 < area.now.y1 → IsReady area.now (y + 1) self.new) }
        ensures long { OnOk result (length row.new.items ≡ columns_of area.now) }
        ensures err { IfErr result (λ e. IsMemory e) }
    {
        mem::swap(&mut self.odd, row);
        if y + 1 < area.y1 {
            return Ok(());
        }
        self.make_last(area, y);
        self.give_pair(area, y, parts)
    }

    /// Gives the only row of a rectangle.
    fn only(&mut self, area: &Rect, row: &mut [i32], parts: &mut LevelParts) -> Result<(), Fault>
        requires area { IsArea area.now }
        requires wide { area.now.x0 < area.now.x1 }
        requires one { area.now.y0 + 1 ≡ area.now.y1 }
        requires held { HoldsFall area.now self.old }
        requires long { length row.old ≡ columns_of area.now }
        requires small { All (IsBelow (2 ^ 28 - 1)) row.old }
        ensures rows { OnOk result ((f : ℕ → ℕ → ℤ) → IsRow area.now (λ x. f x area.now.y0) row.old
            → GivesRows area.now f area.now.y0 (area.now.y0 + 1) parts.old parts.new) }
        ensures err { IfErr result (λ e. IsMemory e) }
    {
        make_only(area, row);
        parts.add_row(area, area.y0, row, &mut self.line)
    }

    /// Takes row `y` of samples, and puts the rows of the parts that are complete then behind
    /// `parts`: none behind an even row that waits, a low one and a high one where an even row comes,
    /// and all that are left behind the last row. `row` becomes room for the next.
    pub fn put(
        &mut self,
        area: &Rect,
        y: u32,
        row: &mut Vec<i32>,
        parts: &mut LevelParts,
    ) -> Result<(), Fault>
        requires area { IsArea area.now }
        requires wide { area.now.x0 < area.now.x1 }
        requires from { area.now.y0 ≤ y }
        requires inside { y < area.now.y1 }
        requires ready { IsReady area.now y self.old }
        requires long { length row.old.items ≡ columns_of area.now }
        requires small { All (IsBelow (2 ^ 28 - 1)) row.old.items }
        ensures rows { OnOk result ((f : ℕ → ℕ → ℤ) → IsFall area.now f y self.old → IsRow area.now (λ x. f x y) row.old.items
            → (y + 1 < area.now.y1 → IsFall area.now f (y + 1) self.new)
            × GivesRows area.now f (rows_fallen area.now y) (rows_fallen area.now (y + 1)) parts.old parts.new) }
        ensures ready { OnOk result (y + 1 < area.now.y1 → IsReady area.now (y + 1) self.new) }
        ensures long { OnOk result (length row.new.items ≡ columns_of area.now) }
        ensures err { IfErr result (λ e. IsMemory e) }
    {
        if area.y0 + 1 == area.y1 {
            return self.only(area, row, parts);
        }
        if y % 2 == 1 {
            return self.put_odd(area, y, row, parts);
        }
        if y == area.y0 {
            mem::swap(&mut self.even, row);
            return Ok(());
        }
        self.put_even(area, y, row, parts)?;
        if y + 1 == area.y1 {
            return self.end_even(area, y, parts);
        }
        Ok(())
    }
}
