//! Code-blocks.

ghost use Rattle.std.specs.Prelude.{◌≡◌, ◌+◌, ◌*◌, ◌<◌, ◌≤◌, ◌^◌};
ghost use Rattle.jk_marks.specs.Coding.{IsCoding};
ghost use Rattle.jk_geom.specs.Rectangles.{IsArea};
ghost use Rattle.jk_geom.specs.Precincts.{precinct_number};
ghost use Rattle.jk_geom.specs.Blocks.{IsGrid, grid_of, block_grid, block_area};

use crate::precincts::{precinct, precinct_part_size};
use crate::rounding::{part_of, shift_up};
use jk_marks::Coding;
use jk_math::{Orientation, Rect};

/// The code-blocks of a rectangle of a sub-band: the parts of it in the cells of a grid, in raster
/// order.
#[derive(Clone, Copy, Debug, PartialEq, Eq)]
pub struct BlockGrid {
    /// The rectangle.
    pub area: Rect,
    /// The exponent of a code-block's width.
    pub width: u8,
    /// The exponent of a code-block's height.
    pub height: u8,
    /// The first code-block's column on the grid, which begins at 0.
    pub column: u32,
    /// The first code-block's row.
    pub row: u32,
    /// How many code-blocks lie side by side.
    pub across: u32,
    /// How many lie one above the other.
    pub down: u32,
}

/// The code-blocks of a rectangle.
#[tactic(auto, using(crate::proofs::GridLaws::grid_is), unfolding(crate::specs::Blocks::grid_of))]
fn grid(area: Rect, width: u8, height: u8) -> BlockGrid
    requires right { area.x1 < 2 ^ 31 }
    requires lower { area.y1 < 2 ^ 31 }
    requires narrow { width ≤ 10 }
    requires low { height ≤ 10 }
    ensures value { result ≡ grid_of area width height }
    ensures grid { IsGrid result }
{
    if area.x1 <= area.x0 || area.y1 <= area.y0 {
        return BlockGrid {
            area,
            width,
            height,
            column: 0,
            row: 0,
            across: 0,
            down: 0,
        };
    }
    let column = area.x0 >> width;
    let row = area.y0 >> height;
    BlockGrid {
        area,
        width,
        height,
        column,
        row,
        across: shift_up(area.x1, width) - column,
        down: shift_up(area.y1, height) - row,
    }
}

/// The code-blocks of precinct `k` in a sub-band of resolution `r` (T.800 B.7).
#[tactic(auto, unfolding(crate::specs::Blocks::block_grid))]
pub fn blocks(rect: &Rect, coding: &Coding, r: u8, k: u32, orientation: Orientation) -> BlockGrid
    requires area { IsArea rect.now }
    requires coding { IsCoding coding.now }
    requires r { r ≤ coding.now.levels }
    requires k { k < precinct_number rect.now coding.now r }
    ensures value { result ≡ block_grid rect.now coding.now r k orientation }
    ensures grid { IsGrid result }
    ensures few { (result.across ≤ 2 ^ 13) × (result.down ≤ 2 ^ 13) }
{
    let (width, height) = precinct_part_size(coding, r);
    let area = precinct(rect, coding, r, k, orientation);
    grid(area, width.min(coding.xcb), height.min(coding.ycb))
}

impl BlockGrid {
    /// Code-block `i`.
    #[tactic(auto, using(crate::proofs::GridLaws::column_small, crate::proofs::GridLaws::row_small, crate::proofs::GridLaws::column_fits, crate::proofs::GridLaws::row_fits), unfolding(crate::specs::Blocks::block_area))]
    pub fn block(&self, i: u32) -> Rect
        requires grid { IsGrid self.now }
        requires i { i < self.now.across * self.now.down }
        ensures { result ≡ block_area self.now i }
    {
        let column = self.column + i % self.across;
        let row = self.row + i / self.across;
        part_of(&self.area, column, row, self.width, self.height)
    }
}
