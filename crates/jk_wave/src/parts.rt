//! The four parts of a level, made row by row.

ghost use Rattle.std.specs.Prelude.{◌≡◌, ℕ, ℤ, [], IfOk, IfErr, OnOk, ◌+◌, ◌-◌, ◌*◌, ◌^◌, ◌<◌, ◌≤◌, length, All};
ghost use Rattle.jk_math.specs.Memory.{IsMemory};
ghost use Rattle.jk_math.specs.Raster.{columns_of};
ghost use Rattle.jk_math.specs.Signed.{IsBelow};
ghost use Rattle.jk_geom.specs.Rectangles.{IsArea};
ghost use Rattle.jk_wave.specs.Levels.{part_list, IsPartUpto};
ghost use Rattle.jk_wave.specs.SourceRows.{IsRow, column_lifted};
ghost use Rattle.jk_wave.specs.falling.Held.{GivesRows};

use crate::places::low_width;
use crate::region::half_area;
use jk_lift::analyse_line;
use jk_math::{Fault, Rect};
use std::alloc::Global;

/// The parts of a level, of which the rows are made one behind another.
#[derive(Drop)]
pub(crate) struct LevelParts {
    pub(crate) ll: Vec<i32>,
    pub(crate) hl: Vec<i32>,
    pub(crate) lh: Vec<i32>,
    pub(crate) hh: Vec<i32>,
}

/// Room for the part of a level whose places are odd across, or down.
fn room(alloc: Global, area: &Rect, across: bool, down: bool) -> Result<Vec<i32>, Fault>
    requires { IsArea area.now }
    ensures none { IfOk result (λ v. v.items ≡ []) }
    ensures err { IfErr result (λ e. IsMemory e) }
{
    let part = half_area(area, across, down);
    let width = (part.x1 - part.x0) as usize;
    let height = (part.y1 - part.y0) as usize;
    Ok(Vec::with_capacity(alloc, height * width)?)
}

impl LevelParts {
    /// Parts without a row.
    pub(crate) fn none(alloc: Global) -> LevelParts
        ensures { (o : ℕ) → o < 4 → part_list result o ≡ [] }
    {
        LevelParts {
            ll: Vec::new(alloc),
            hl: Vec::new(alloc),
            lh: Vec::new(alloc),
            hh: Vec::new(alloc),
        }
    }

    /// Parts without a row, and room for all of theirs.
    pub(crate) fn new(alloc: Global, area: &Rect) -> Result<LevelParts, Fault>
        requires { IsArea area.now }
        ensures none { IfOk result (λ parts. (o : ℕ) → o < 4 → part_list parts o ≡ []) }
        ensures err { IfErr result (λ e. IsMemory e) }
    {
        Ok(LevelParts {
            ll: room(alloc, area, false, false)?,
            hl: room(alloc, area, true, false)?,
            lh: room(alloc, area, false, true)?,
            hh: room(alloc, area, true, true)?,
        })
    }

    /// Puts the coefficients of the row at place `y` behind the rows of two parts, where the
    /// columns of the row are analysed. `line` is room for a row.
    pub(crate) fn add_row(
        &mut self,
        area: &Rect,
        y: u32,
        row: &[i32],
        line: &mut [i32],
    ) -> Result<(), Fault>
        requires area { IsArea area.now }
        requires y { area.now.y0 ≤ y }
        requires row { length row.now ≡ columns_of area.now }
        requires line { length line.old ≡ columns_of area.now }
        requires small { All (IsBelow (2 ^ 29)) row.now }
        ensures parts { OnOk result ((f : ℕ → ℕ → ℤ) (o : ℕ) → o < 4 → IsRow area.now (λ x. f x y) row.now
            → IsPartUpto area.now o y f (part_list self.old o)
            → IsPartUpto area.now o (y + 1) f (part_list self.new o)) }
        ensures gives { OnOk result ((f : ℕ → ℕ → ℤ) → IsRow area.now (column_lifted area.now f y) row.now
            → GivesRows area.now f y (y + 1) self.old self.new) }
        ensures err { IfErr result (λ e. IsMemory e) }
    {
        let (low, high) = line.split_at_mut(low_width(area));
        analyse_line(area.x0, row, low, high);
        if y % 2 == 0 {
            self.ll.extend_from_slice(low)?;
            self.hl.extend_from_slice(high)?;
        } else {
            self.lh.extend_from_slice(low)?;
            self.hh.extend_from_slice(high)?;
        }
        Ok(())
    }
}
