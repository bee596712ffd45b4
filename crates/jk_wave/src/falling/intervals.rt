//! How far the coefficients of a level are made of rows of samples that were given.

ghost use Rattle.std.specs.Prelude.{◌≡◌, ℕ, ◌+◌, ◌-◌, ◌*◌, ◌/◌, ◌^◌, ◌<◌};
ghost use Rattle.jk_geom.specs.Rectangles.{IsArea};
ghost use Rattle.jk_wave.specs.falling.Intervals.{rows_fallen};

use jk_math::Rect;

/// How far the rows of coefficients of a level on the rectangle `area` are made, where its rows of
/// samples are given up to row `y`: those above the last even row, and behind the last row all.
#[tactic(auto, unfolding(crate::specs::falling::Intervals::rows_fallen))]
pub fn rows_fallen(area: &Rect, y: u32) -> u32
    requires area { IsArea area.now }
    ensures value { result ≡ rows_fallen area.now y }
    ensures small { result < 2 ^ 31 }
{
    if area.y1 <= y {
        return area.y1;
    }
    area.y0.max(y.saturating_sub(1) / 2 * 2)
}
