//! The columns of a plane, lifted a row at a time: a row is made as soon as the rows next to it are
//! there, and four of them are held.

ghost use Rattle.std.specs.Prelude.{◌≡◌, ℕ, ℤ, [], IfOk, IfErr, OnOk, ◌+◌, ◌-◌, ◌*◌, ◌%◌, ◌^◌, ◌<◌, ◌≤◌, length, All};
ghost use Rattle.jk_math.specs.Memory.{IsMemory};
ghost use Rattle.jk_math.specs.Raster.{raster};
ghost use Rattle.jk_geom.specs.Rectangles.{IsArea};
ghost use Rattle.jk_wave.specs.Levels.{half_area, part_of, part_list, IsPartUpto};
ghost use Rattle.jk_wave.specs.SourceRows.{IsRow, AreBelow, column_lifted, column_high};
ghost use Rattle.jk_wave.specs.Sweeping.{AreLong, IsSweep};

use crate::columns::{make_low, put_high, put_only, put_samples};
use crate::parts::LevelParts;
use crate::source::RowSource;
use jk_math::{Fault, Rect};
use std::alloc::Global;
use std::mem;

/// The rows that are held.
#[derive(Drop)]
pub(crate) struct Sweep {
    /// The high-pass coefficients of the row before `even`.
    before: Vec<i32>,
    /// The samples of a row at an even place.
    even: Vec<i32>,
    /// The high-pass coefficients of the row behind it.
    odd: Vec<i32>,
    /// The samples of the next row at an even place.
    next: Vec<i32>,
    /// Room for a row.
    line: Vec<i32>,
}

impl Sweep {
    /// Rows over a rectangle.
    fn new(alloc: Global, area: &Rect) -> Result<Sweep, Fault>
        requires { IsArea area.now }
        ensures long { IfOk result (AreLong area.now) }
        ensures err { IfErr result (λ e. IsMemory e) }
    {
        let width = (area.x1 - area.x0) as usize;
        Ok(Sweep {
            before: vec![in alloc; 0; width]?,
            even: vec![in alloc; 0; width]?,
            odd: vec![in alloc; 0; width]?,
            next: vec![in alloc; 0; width]?,
            line: vec![in alloc; 0; width]?,
        })
    }

    /// Makes the high-pass coefficients of the row at place `y`, which follows the even one, and
    /// takes the next even one, if there is one.
    fn read_odd<S: RowSource>(&mut self, source: &S, area: &Rect, y: u32)
        requires area { IsArea area.now }
        requires stands { S.stands source.now }
        requires is { S.area_of source.now ≡ area.now }
        requires small { AreBelow (2 ^ 28 - 1) area.now (S.value_at source.now) }
        requires behind { area.now.y0 < y }
        requires inside { y < area.now.y1 }
        requires long { AreLong area.now self.old }
        requires even { IsRow area.now (λ x. S.value_at source.now x (y - 1)) self.old.even.items }
        ensures odd { IsRow area.now (column_high area.now (S.value_at source.now) y) self.new.odd.items }
        ensures next { y + 1 < area.now.y1 → IsRow area.now (λ x. S.value_at source.now x (y + 1)) self.new.next.items }
        ensures long { AreLong area.now self.new }
        ensures same { (self.new.before ≡ self.old.before) × (self.new.even ≡ self.old.even) }
    {
        if y + 1 < area.y1 {
            put_samples(source, area, y + 1, &mut self.next);
            put_high(source, area, y, &mut self.odd, &self.even, &self.next);
        } else {
            put_high(source, area, y, &mut self.odd, &self.even, &self.even);
        }
    }

    /// Takes the first row, which is at an even place, and the high-pass coefficients of the row
    /// behind it, which stand before it too.
    fn begin_even<S: RowSource>(&mut self, source: &S, area: &Rect)
        requires area { IsArea area.now }
        requires stands { S.stands source.now }
        requires is { S.area_of source.now ≡ area.now }
        requires small { AreBelow (2 ^ 28 - 1) area.now (S.value_at source.now) }
        requires tall { area.now.y0 + 1 < area.now.y1 }
        requires long { AreLong area.now self.old }
        ensures { IsSweep area.now (S.value_at source.now) area.now.y0 self.new }
    {
        put_samples(source, area, area.y0, &mut self.even);
        self.read_odd(source, area, area.y0 + 1);
        mem::swap(&mut self.before, &mut self.odd);
    }

    /// Makes the first row, which is at an odd place, of the one behind it, and takes that.
    fn begin_odd<S: RowSource>(&mut self, source: &S, area: &Rect)
        requires area { IsArea area.now }
        requires stands { S.stands source.now }
        requires is { S.area_of source.now ≡ area.now }
        requires small { AreBelow (2 ^ 28 - 1) area.now (S.value_at source.now) }
        requires tall { area.now.y0 + 1 < area.now.y1 }
        requires long { AreLong area.now self.old }
        ensures first { IsRow area.now (column_high area.now (S.value_at source.now) area.now.y0)
            self.new.before.items }
        ensures next { IsSweep area.now (S.value_at source.now) (area.now.y0 + 1) self.new }
    {
        let y = area.y0;
        put_samples(source, area, y + 1, &mut self.even);
        put_high(source, area, y, &mut self.before, &self.even, &self.even);
    }

    /// Makes the row at place `y`, which is even, and the row behind it, if there is one, and goes
    /// on to the next even place.
    fn add_pair<S: RowSource>(
        &mut self,
        source: &S,
        area: &Rect,
        y: u32,
        parts: &mut LevelParts,
    ) -> Result<(), Fault>
        requires area { IsArea area.now }
        requires stands { S.stands source.now }
        requires is { S.area_of source.now ≡ area.now }
        requires small { AreBelow (2 ^ 28 - 1) area.now (S.value_at source.now) }
        requires tall { area.now.y0 + 1 < area.now.y1 }
        requires from { area.now.y0 ≤ y }
        requires inside { y + 1 < area.now.y1 }
        requires even { y % 2 ≡ 0 }
        requires sweep { IsSweep area.now (S.value_at source.now) y self.old }
        ensures sweep { OnOk result (IsSweep area.now (S.value_at source.now) (y + 2) self.new) }
        ensures parts { OnOk result ((o : ℕ) → o < 4
            → IsPartUpto area.now o y (λ x v. column_lifted area.now (S.value_at source.now) v x)
            (part_list parts.old o)
            → IsPartUpto area.now o (y + 2) (λ x v. column_lifted area.now (S.value_at source.now) v x)
            (part_list parts.new o)) }
        ensures err { IfErr result (λ e. IsMemory e) }
    {
        self.read_odd(source, area, y + 1);
        make_low(area, y, &mut self.even, &self.before, &self.odd);
        parts.add_row(area, y, &self.even, &mut self.line)?;
        parts.add_row(area, y + 1, &self.odd, &mut self.line)?;
        mem::swap(&mut self.before, &mut self.odd);
        mem::swap(&mut self.even, &mut self.next);
        Ok(())
    }

    /// Makes the first row, where it is at an odd place, and gives the first even place.
    fn begin<S: RowSource>(
        &mut self,
        source: &S,
        area: &Rect,
        parts: &mut LevelParts,
    ) -> Result<u32, Fault>
        requires area { IsArea area.now }
        requires stands { S.stands source.now }
        requires is { S.area_of source.now ≡ area.now }
        requires small { AreBelow (2 ^ 28 - 1) area.now (S.value_at source.now) }
        requires tall { area.now.y0 + 1 < area.now.y1 }
        requires long { AreLong area.now self.old }
        requires parts { (o : ℕ) → o < 4 → part_list parts.old o ≡ [] }
        ensures even { IfOk result (λ y. (y % 2 ≡ 0) × (area.now.y0 ≤ y) × (y ≤ area.now.y0 + 1)) }
        ensures sweep { IfOk result (λ y. IsSweep area.now (S.value_at source.now) y self.new) }
        ensures parts { IfOk result (λ y. (o : ℕ) → o < 4
            → IsPartUpto area.now o y (λ x v. column_lifted area.now (S.value_at source.now) v x)
            (part_list parts.new o)) }
        ensures err { IfErr result (λ e. IsMemory e) }
    {
        if area.y0 % 2 == 0 {
            self.begin_even(source, area);
            return Ok(area.y0);
        }
        self.begin_odd(source, area);
        parts.add_row(area, area.y0, &self.before, &mut self.line)?;
        Ok(area.y0 + 1)
    }

    /// Makes all rows of a rectangle of two rows or more.
    fn add_rows<S: RowSource>(
        &mut self,
        source: &S,
        area: &Rect,
        parts: &mut LevelParts,
    ) -> Result<(), Fault>
        requires area { IsArea area.now }
        requires stands { S.stands source.now }
        requires is { S.area_of source.now ≡ area.now }
        requires small { AreBelow (2 ^ 28 - 1) area.now (S.value_at source.now) }
        requires tall { area.now.y0 + 1 < area.now.y1 }
        requires long { AreLong area.now self.old }
        requires parts { (o : ℕ) → o < 4 → part_list parts.old o ≡ [] }
        ensures parts { OnOk result ((o : ℕ) → o < 4
            → IsPartUpto area.now o area.now.y1 (λ x v. column_lifted area.now (S.value_at source.now) v x)
            (part_list parts.new o)) }
        ensures err { IfErr result (λ e. IsMemory e) }
    {
        let mut y = self.begin(source, area, parts)?;
        while y + 1 < area.y1 {
            self.add_pair(source, area, y, parts)?;
            y += 2;
        }
        if y < area.y1 {
            make_low(area, y, &mut self.even, &self.before, &self.before);
            parts.add_row(area, y, &self.even, &mut self.line)?;
        }
        Ok(())
    }

    /// Makes the only row of a rectangle.
    fn add_only<S: RowSource>(
        &mut self,
        source: &S,
        area: &Rect,
        parts: &mut LevelParts,
    ) -> Result<(), Fault>
        requires area { IsArea area.now }
        requires stands { S.stands source.now }
        requires is { S.area_of source.now ≡ area.now }
        requires small { AreBelow (2 ^ 28 - 1) area.now (S.value_at source.now) }
        requires wide { area.now.x0 < area.now.x1 }
        requires one { area.now.y0 + 1 ≡ area.now.y1 }
        requires long { AreLong area.now self.old }
        requires parts { (o : ℕ) → o < 4 → part_list parts.old o ≡ [] }
        ensures parts { OnOk result ((o : ℕ) → o < 4
            → IsPartUpto area.now o area.now.y1 (λ x v. column_lifted area.now (S.value_at source.now) v x)
            (part_list parts.new o)) }
        ensures err { IfErr result (λ e. IsMemory e) }
    {
        put_only(source, area, &mut self.even);
        parts.add_row(area, area.y0, &self.even, &mut self.line)
    }
}

/// Puts all rows into parts that have none.
fn fill<S: RowSource>(
    alloc: Global,
    source: &S,
    area: &Rect,
    parts: &mut LevelParts,
) -> Result<(), Fault>
    requires area { IsArea area.now }
    requires stands { S.stands source.now }
    requires is { S.area_of source.now ≡ area.now }
    requires small { AreBelow (2 ^ 28 - 1) area.now (S.value_at source.now) }
    requires parts { (o : ℕ) → o < 4 → part_list parts.old o ≡ [] }
    ensures parts { OnOk result ((o : ℕ) → o < 4
        → IsPartUpto area.now o area.now.y1 (λ x v. column_lifted area.now (S.value_at source.now) v x)
        (part_list parts.new o)) }
    ensures err { IfErr result (λ e. IsMemory e) }
{
    if area.x0 >= area.x1 || area.y0 >= area.y1 {
        return Ok(());
    }
    let mut sweep = Sweep::new(alloc, area)?;
    if area.y0 + 1 == area.y1 {
        return sweep.add_only(source, area, parts);
    }
    sweep.add_rows(source, area, parts)
}

/// One level forwards over a rectangle: columns first, then rows (2D_SD, T.800 F.4.2).
pub(crate) fn analyse_plane<S: RowSource>(
    alloc: Global,
    source: &S,
    area: &Rect,
) -> Result<LevelParts, Fault>
    requires area { IsArea area.now }
    requires stands { S.stands source.now }
    requires is { S.area_of source.now ≡ area.now }
    requires small { AreBelow (2 ^ 28 - 1) area.now (S.value_at source.now) }
    ensures parts { IfOk result (λ parts. (o : ℕ) → o < 4
        → part_list parts o ≡ raster (half_area area.now o) (part_of area.now (S.value_at source.now) o)) }
    ensures err { IfErr result (λ e. IsMemory e) }
{
    let mut parts = LevelParts::new(alloc, area)?;
    fill(alloc, source, area, &mut parts)?;
    Ok(parts)
}
