//! Division by powers of two, and parts of rectangles.

ghost use Rattle.std.specs.Prelude.{◌≡◌, ◌+◌, ◌*◌, ◌^◌, ◌<◌, ◌≤◌};
ghost use Rattle.jk_geom.specs.Rectangles.{ceil_div, meet, cell};

use jk_math::Rect;

/// `value / 2^exponent`, rounded up.
pub fn shift_up(value: u32, exponent: u8) -> u32
    requires value { value < 2 ^ 31 }
    requires exponent { exponent ≤ 15 }
    ensures { result ≡ ceil_div value (2 ^ exponent) }
{
    (value + (1 << exponent) - 1) >> exponent
}

/// The part of a rectangle in column `column` and row `row` of a grid, from 0 on, of rectangles
/// `2^width` wide and `2^height` high.
pub(crate) fn part_of(area: &Rect, column: u32, row: u32, width: u8, height: u8) -> Rect
    requires width { width ≤ 15 }
    requires height { height ≤ 15 }
    requires right { (column + 1) * 2 ^ width < 2 ^ 32 }
    requires lower { (row + 1) * 2 ^ height < 2 ^ 32 }
    ensures { result ≡ meet (cell column row width height) area.now }
{
    Rect {
        x0: (column << width).max(area.x0),
        y0: (row << height).max(area.y0),
        x1: ((column + 1) << width).min(area.x1),
        y1: ((row + 1) << height).min(area.y1),
    }
}
