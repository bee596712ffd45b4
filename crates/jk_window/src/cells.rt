//! The columns and rows of the precincts of a resolution that have places of a sub-band on which a
//! stretch depends.

ghost use Rattle.std.specs.Prelude.{◌≡◌, ◌≤◌, ◌+◌, ◌<◌, ◌^◌, ◌⊎◌, max, ℕ};
ghost use Rattle.jk_math.specs.declared.rect.Rect.{Rect as Area};
ghost use Rattle.jk_marks.specs.Coding.{IsCoding};
ghost use Rattle.jk_geom.specs.Rectangles.{IsArea};
ghost use Rattle.jk_window.specs.Needs.{stretch};
ghost use Rattle.jk_window.specs.NeededNumbers.{IsShared, IsIn, hull_of, AreCells};

use crate::need::needed_part;
use jk_geom::{
    band, meet, precinct_count, precinct_part_size, precinct_size, resolution, shift_up,
};
use jk_marks::Coding;
use jk_math::{Orientation, Rect};

/// Those of `count` cells of `2^exponent`, from cell `first` on, that have a place of those from
/// `start` up to `end`: counted from `first`, from which on, and up to which.
fn shared_cells(start: u32, end: u32, exponent: u8, first: u32, count: u32) -> (u32, u32)
    requires end { end < 2 ^ 31 }
    requires exponent { exponent ≤ 15 }
    ensures shared { (i : ℕ) → i < count → IsShared (first + i) exponent start end
        → (result.0 ≤ i) × (i < result.1) }
    ensures only { (i : ℕ) → result.0 ≤ i → i < result.1 → IsShared (first + i) exponent start end }
    ensures from { result.0 ≤ count }
    ensures to { result.1 ≤ count }
{
    if end <= start {
        return (0, 0);
    }
    let from = (start >> exponent).saturating_sub(first);
    let to = shift_up(end, exponent).saturating_sub(first);
    (from.min(count), to.min(count))
}

/// The columns and the rows of the precincts of a resolution that have places of a sub-band on
/// which a stretch of the resolution depends.
pub(crate) fn band_cells(
    rect: &Rect,
    coding: &Coding,
    area: &Rect,
    r: u8,
    orientation: Orientation,
) -> Rect
    requires area { IsArea rect.now }
    requires coding { IsCoding coding.now }
    requires r { r ≤ coding.now.levels }
    requires right { area.now.x1 < 2 ^ 31 }
    requires lower { area.now.y1 < 2 ^ 31 }
    ensures { (u : Area) (n : ℕ) → area.now ≡ stretch u n → AreCells rect.now coding.now u n r orientation result }
{
    let whole = resolution(rect, coding.levels, r);
    let (width, height) = precinct_size(coding, r);
    let (part_width, part_height) = precinct_part_size(coding, r);
    let (across, down) = precinct_count(rect, coding, r);
    let part = needed_part(area, orientation);
    let shared = meet(&band(rect, coding.levels, r, orientation), &part);
    let (x0, x1) = shared_cells(shared.x0, shared.x1, part_width, whole.x0 >> width, across);
    let (y0, y1) = shared_cells(shared.y0, shared.y1, part_height, whole.y0 >> height, down);
    Rect { x0, y0, x1, y1 }
}

/// From the first to the last of the numbers of two intervals, either of which may be empty.
pub(crate) fn hull(a: (u32, u32), b: (u32, u32)) -> (u32, u32)
    ensures value { result ≡ hull_of a b }
    ensures both { (i : ℕ) → IsIn a i ⊎ IsIn b i → IsIn result i }
    ensures only { b.0 ≤ a.1 → a.0 ≤ b.1 → (i : ℕ) → IsIn result i → IsIn a i ⊎ IsIn b i }
    ensures end { result.1 ≤ max a.1 b.1 }
{
    if a.1 <= a.0 {
        b
    } else if b.1 <= b.0 {
        a
    } else {
        (a.0.min(b.0), a.1.max(b.1))
    }
}
