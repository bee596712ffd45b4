//! The coefficients of a level, row by row, from the samples of the resolution below and its three
//! sub-bands.

ghost use Rattle.std.specs.Prelude.{◌≡◌, ℕ, ℤ, IfOk, IfErr, ◌+◌, ◌-◌, ◌*◌, ◌/◌, ◌%◌, ◌^◌, ◌<◌, ◌≤◌, length, All};
ghost use Rattle.jk_math.specs.Memory.{IsMemory};
ghost use Rattle.jk_math.specs.Raster.{columns_of, raster};
ghost use Rattle.jk_math.specs.Signed.{IsBelow, signed_at};
ghost use Rattle.jk_geom.specs.Rectangles.{IsArea, resolution_area};
ghost use Rattle.jk_lift.specs.Lifting.{unlifted};
ghost use Rattle.jk_wave.specs.Levels.{row_of, unlifted_over};
ghost use Rattle.jk_wave.specs.Resolutions.{woven_plane, resolution_of};
ghost use Rattle.jk_wave.specs.climbing.Held.{rows_between};
ghost use Rattle.jk_wave.specs.climbing.PartRows.{half_width, pair_at, AreWovenRows, across, coefficient, ShowWovenRows};

use crate::source::RowSource;
use jk_lift::synthesise_line;
use jk_math::Rect;

/// Rows of a part of a level one behind another, from row `from` of the part on.
#[derive(Clone, Copy)]
pub struct GivenRows<'a> {
    pub from: u32,
    pub values: &'a [i32],
}

/// What rows `v` up to `t` of a level on the rectangle `area` are made of: rows of the resolution
/// below and of its own sub-bands, as many as are needed.
#[derive(Drop)]
pub struct WovenRows<'a> {
    pub area: Rect,
    pub v: u32,
    pub t: u32,
    pub ll: GivenRows<'a>,
    pub hl: GivenRows<'a>,
    pub lh: GivenRows<'a>,
    pub hh: GivenRows<'a>,
}

/// Row `n` of a part; `across` is 1 where its columns are odd.
fn part_row<'a>(area: &Rect, across: u32, n: u32, part: &'a [i32]) -> &'a [i32]
    requires area { IsArea area.now }
    requires across { across < 2 }
    requires inside { n * half_width area.now across + half_width area.now across ≤ length part.now }
    ensures { result.now ≡ row_of (half_width area.now across) n part.now }
{
    let width = ((area.x1 + 1 - across) / 2 - (area.x0 + 1 - across) / 2) as usize;
    let at = n as usize * width;
    &part[at..at + width]
}

/// Puts a row of a level, whose columns are made, into a row, from row `n` of its low-pass part and
/// row `m` of its high-pass part.
fn weave(area: &Rect, low: &[i32], n: u32, high: &[i32], m: u32, row: &mut [i32])
    requires area { IsArea area.now }
    requires low_inside { n * half_width area.now 0 + half_width area.now 0 ≤ length low.now }
    requires high_inside { m * half_width area.now 1 + half_width area.now 1 ≤ length high.now }
    requires low_small { All (IsBelow (2 ^ 29)) low.now }
    requires high_small { All (IsBelow (2 ^ 29)) high.now }
    requires long { length row.old ≡ columns_of area.now }
    ensures { (k : ℕ) → k < columns_of area.now → signed_at row.new k
        ≡ unlifted area.now.x0 area.now.x1 (pair_at area.now n m low.now high.now) (area.now.x0 + k) }
{
    synthesise_line(
        area.x0,
        part_row(area, 0, n, low),
        part_row(area, 1, m, high),
        row,
    );
}

impl<'a> RowSource for WovenRows<'a> {
    ghost stands = { AreWovenRows };

    ghost area_of = { λ s. rows_between s.area s.v s.t };

    ghost value_at = { λ s. across s.area (coefficient s) };

    fn put_row(&self, y: u32, row: &mut [i32]) {
        let n = y / 2;
        if y % 2 == 0 {
            let (low, high) = (&self.ll, &self.hl);
            weave(
                &self.area,
                low.values,
                n - low.from,
                high.values,
                n - high.from,
                row,
            );
        } else {
            let (low, high) = (&self.lh, &self.hh);
            weave(
                &self.area,
                low.values,
                n - low.from,
                high.values,
                n - high.from,
                row,
            );
        }
    }
}
