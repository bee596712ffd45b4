//! Which reductions an image has.

ghost use Rattle.std.specs.Prelude.{◌≡◌, ℕ, ◌≤◌, ◌-◌, IfOk};
ghost use Rattle.jk_math.specs.Picture.{IsFrame};
ghost use Rattle.jk_params.specs.Headers.{AreHeaders};
ghost use Rattle.jk_geom.specs.Rectangles.{IsArea};
ghost use Rattle.jk_code.specs.MeaningReading.{reduction_at};
ghost use Rattle.jk_window.specs.Views.{HaveLevels, frame_of};

use jk_geom::{is_empty, reduced_image};
use jk_math::{Fault, Rect};
use jk_params::Codestream;

/// The place of the reduced image. BadWindow: a tile-component has fewer decomposition levels, or
/// no sample is left.
#[tactic(auto, unfolding(crate::specs::MeaningReading::reduction_at))]
pub(crate) fn check_reduction(headers: &Codestream, reduce: u32) -> Result<Rect, Fault>
    requires { (size : ℕ) × AreHeaders size headers.now }
    ensures exact { result ≡ reduction_at headers.now reduce }
    ensures frame { IfOk result (λ a. IsFrame a.x0 a.y0 (a.x1 - a.x0) (a.y1 - a.y0)) }
    ensures area { IfOk result (λ a. IsArea a) }
    ensures place { IfOk result (λ a. a ≡ frame_of headers.now reduce) }
    ensures levels { IfOk result (λ a. HaveLevels headers.now reduce) }
    ensures few { IfOk result (λ a. reduce ≤ 10) }
{
    if !headers.has_levels(reduce) {
        return Err(Fault::BadWindow);
    }
    let area = reduced_image(headers.siz(), reduce as u8);
    if is_empty(&area) {
        return Err(Fault::BadWindow);
    }
    Ok(area)
}
