//! How many rows of each level make rows up to a place of the highest one.

ghost use Rattle.std.specs.Prelude.{◌≡◌, ℕ, ◌+◌, ◌-◌, ◌*◌, ◌%◌, ◌^◌, ◌<◌, ◌≤◌};
ghost use Rattle.jk_geom.specs.Rectangles.{IsArea};
ghost use Rattle.jk_wave.specs.climbing.Intervals.{rows_taken, rows_reached, rows_asked};

use jk_geom::resolution;
use jk_math::Rect;

/// The end of the rows of coefficients that a level on the rectangle `area` takes for its samples up
/// to row `e`: two rows past the pair of `e`, cut at the rectangle (T.800 F.3.8).
#[tactic(auto, unfolding(crate::specs::climbing::Intervals::rows_taken))]
pub fn rows_taken(area: &Rect, e: u32) -> u32
    requires area { IsArea area.now }
    requires e { e < 2 ^ 31 }
    ensures value { result ≡ rows_taken area.now e }
    ensures small { result < 2 ^ 31 }
{
    if e <= area.y0 {
        return area.y0;
    }
    area.y1.min(e / 2 * 2 + 2)
}

/// How far the samples of a level on the rectangle `area` are made of its coefficients up to row
/// `v`, which is even or an end.
#[tactic(auto, unfolding(crate::specs::climbing::Intervals::rows_reached))]
pub fn rows_reached(area: &Rect, v: u32) -> u32
    requires area { IsArea area.now }
    ensures { result ≡ rows_reached area.now v }
{
    if area.y1 <= v {
        return area.y1;
    }
    area.y0.max(v.saturating_sub(1))
}

/// How far the resolution `n` below the highest that is made, `top`, is asked for, where that one is
/// up to row `e`. `rect` is the tile-component, with so many decomposition levels.
pub fn rows_asked(rect: &Rect, levels: u8, top: u8, e: u32, n: u8) -> u32
    requires area { IsArea rect.now }
    requires levels { levels ≤ 10 }
    requires top { top ≤ levels }
    requires n { n ≤ top }
    requires e { e < 2 ^ 31 }
    ensures value { result ≡ rows_asked rect.now levels top e n }
    ensures small { result < 2 ^ 31 }
{
    let mut end = e;
    for below in 0..n {
        end = (rows_taken(&resolution(rect, levels, top - below), end) + 1) / 2;
    }
    end
}
