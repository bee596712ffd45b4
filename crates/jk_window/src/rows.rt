//! The precincts of a resolution that a window needs, row by row and no other.

ghost use Rattle.std.specs.Prelude.{◌≡◌, ◌≤◌, ◌+◌, ◌*◌, ◌<◌, ◌^◌, ℕ};
ghost use Rattle.jk_marks.specs.Coding.{IsCoding};
ghost use Rattle.jk_geom.specs.Rectangles.{IsArea};
ghost use Rattle.jk_geom.specs.Precincts.{precincts_across, precincts_down, precinct_number};
ghost use Rattle.jk_math.specs.declared.rect.Rect.{Rect as Area};
ghost use Rattle.jk_marks.specs.declared.coding.Coding.{Coding as CodingOf};
ghost use Rattle.jk_window.specs.Needs.{needs};
ghost use Rattle.jk_window.specs.NeededNumbers.{IsIn, is_in, columns_in, rows_in, AreNeeded, numbers_in, AreNeededNumbers};

use crate::cells::{band_cells, hull};
use crate::need::stretch;
use jk_marks::Coding;
use jk_math::{Orientation, Rect};

/// The precincts of a resolution that a stretch needs: an interval of columns for each row.
#[derive(Clone, Copy, Debug)]
pub struct NeededPrecincts {
    /// Those with places of HL, by columns and rows.
    high: Rect,
    /// Those with places of LH, or of LL at the lowest resolution.
    low: Rect,
}

/// No cells.
fn no_cells() -> Rect
    ensures { (result.x0 ≡ 0) × (result.y0 ≡ 0) × (result.x1 ≡ 0) × (result.y1 ≡ 0) }
{
    Rect {
        x0: 0,
        y0: 0,
        x1: 0,
        y1: 0,
    }
}

/// Whether an interval has a number.
fn is_in(interval: (u32, u32), number: u32) -> bool
    ensures { result ≡ is_in interval number }
{
    interval.0 <= number && number < interval.1
}

impl NeededPrecincts {
    /// The rows among which are all that have needed precincts.
    pub(crate) fn rows(&self) -> (u32, u32)
        ensures value { result ≡ rows_in self.now }
        ensures covers { (i j : ℕ) → IsIn (columns_in self.now j) i → IsIn result j }
    {
        hull((self.high.y0, self.high.y1), (self.low.y0, self.low.y1))
    }

    /// Whether a precinct of the resolution is needed, where rows have so many.
    pub fn has(&self, across: u32, number: u32) -> bool
        requires { 0 < across }
        ensures { (a : Area) (k : CodingOf) (u : Area) (d r : ℕ) → AreNeeded a k u d r self.now
            → across ≡ precincts_across a k r → number < precinct_number a k r → result ≡ needs a k u d r number }
    {
        is_in(self.columns(number / across), number % across)
    }

    /// How many columns a row has at most.
    pub(crate) fn width(&self) -> u32 {
        let (first, end) = hull((self.high.x0, self.high.x1), (self.low.x0, self.low.x1));
        end.saturating_sub(first)
    }

    /// The columns of the needed precincts of a row.
    pub(crate) fn columns(&self, row: u32) -> (u32, u32)
        ensures { result ≡ columns_in self.now row }
    {
        if is_in((self.low.y0, self.low.y1), row) {
            return hull((self.high.x0, self.high.x1), (self.low.x0, self.low.x1));
        }
        if is_in((self.high.y0, self.high.y1), row) {
            return (self.high.x0, self.high.x1);
        }
        (0, 0)
    }

    /// The numbers of the needed precincts of a row, where the rows have so many.
    pub(crate) fn numbers(&self, across: u32, row: u32) -> (u32, u32)
        requires columns { (columns_in self.now row).1 ≤ across }
        requires start { (columns_in self.now row).0 ≤ across }
        requires few { (row + 1) * across < 2 ^ 32 }
        ensures { result ≡ numbers_in self.now across row }
    {
        let first = row * across;
        let (start, end) = self.columns(row);
        (first + start, first + end)
    }
}

/// The precincts of resolution `r` that a stretch `top` of a tile-component needs, which is reduced
/// by `reduce` levels.
pub fn needed_precincts(
    rect: &Rect,
    coding: &Coding,
    top: &Rect,
    reduce: u8,
    r: u8,
) -> NeededPrecincts
    requires area { IsArea rect.now }
    requires coding { IsCoding coding.now }
    requires reduce { reduce ≤ 10 }
    requires r { r ≤ coding.now.levels }
    requires right { top.now.x1 < 2 ^ 31 }
    requires lower { top.now.y1 < 2 ^ 31 }
    ensures needed { AreNeeded rect.now coding.now top.now reduce r result }
    ensures numbers { AreNeededNumbers rect.now coding.now top.now reduce r result }
    ensures across { (j : ℕ) → (columns_in result j).1 ≤ precincts_across rect.now coding.now r }
    ensures start { (j : ℕ) → (columns_in result j).0 ≤ precincts_across rect.now coding.now r }
    ensures down { (rows_in result).1 ≤ precincts_down rect.now coding.now r }
{
    if r + reduce > coding.levels {
        return NeededPrecincts {
            high: no_cells(),
            low: no_cells(),
        };
    }
    let area = stretch(top, coding.levels - (r + reduce));
    if r == 0 {
        let lowest = band_cells(rect, coding, &area, r, Orientation::LL);
        return NeededPrecincts {
            high: no_cells(),
            low: lowest,
        };
    }
    let high = band_cells(rect, coding, &area, r, Orientation::HL);
    let low = band_cells(rect, coding, &area, r, Orientation::LH);
    NeededPrecincts { high, low }
}
