//! The window of a view.

ghost use Rattle.std.specs.Prelude.{◌≡◌, ◌≤◌, ◌<◌, ◌^◌, ℕ, min, IfOk, MatchResult, false};
ghost use Rattle.jk_math.specs.declared.fault.Fault.TheVariants.{BadWindow};
ghost use Rattle.jk_geom.specs.Rectangles.{IsArea, is_empty};
ghost use Rattle.jk_params.specs.Headers.{AreHeaders};
ghost use Rattle.jk_window.specs.Views.{HasWindow, window_in, has_layer, area_at, window_at};

use crate::view::View;
use jk_geom::{is_empty, reduced_image};
use jk_math::{Fault, Rect};
use jk_params::Codestream;

/// The least of two numbers, the first of which may be large.
fn cut_at(value: u64, most: u32) -> u32
    ensures { result ≡ min value most }
{
    if value < most as u64 {
        value as u32
    } else {
        most
    }
}

/// The rectangle of a view on an image that has this place. It is empty where it has no place of
/// the image.
fn clipped(area: &Rect, view: View) -> Rect
    requires area { IsArea area.now }
    ensures same { is_empty result ≡ is_empty (window_in area.now view) }
    ensures value { is_empty result ≡ false → result ≡ window_in area.now view }
    ensures right { result.x1 < 2 ^ 31 }
    ensures lower { result.y1 < 2 ^ 31 }
{
    let left = area.x0 as u64 + view.x as u64;
    let upper = area.y0 as u64 + view.y as u64;
    Rect {
        x0: cut_at(left, area.x1),
        y0: cut_at(upper, area.y1),
        x1: cut_at(left + view.width as u64, area.x1),
        y1: cut_at(upper + view.height as u64, area.y1),
    }
}

/// The rectangle of a view, cut with the reduced image, whatever layers the view asks for.
///
/// BadWindow: a tile-component has fewer decomposition levels than the reduction, or the reduced
/// image or the rectangle has no sample.
#[tactic(auto, unfolding(crate::specs::Views::area_at))]
pub fn area(headers: &Codestream, view: View) -> Result<Rect, Fault>
    requires { (size : ℕ) × AreHeaders size headers.now }
    ensures exact { result ≡ area_at headers.now view }
    ensures right { IfOk result (λ w. w.x1 < 2 ^ 31) }
    ensures lower { IfOk result (λ w. w.y1 < 2 ^ 31) }
    ensures few { IfOk result (λ w. view.reduce ≤ 10) }
{
    if !headers.has_levels(view.reduce) {
        return Err(Fault::BadWindow);
    }
    let area = reduced_image(headers.siz(), view.reduce as u8);
    if is_empty(&area) {
        return Err(Fault::BadWindow);
    }
    let window = clipped(&area, view);
    if is_empty(&window) {
        return Err(Fault::BadWindow);
    }
    Ok(window)
}

/// Whether a view asks for a layer.
fn has_layer(view: View) -> bool
    ensures { result ≡ has_layer view.layers }
{
    match view.layers {
        Some(count) => count != 0,
        None => true,
    }
}

/// The window of a view: its rectangle, cut with the reduced image.
///
/// BadWindow: the view asks for no layer, or as `area`.
#[tactic(auto, unfolding(crate::specs::Views::window_at))]
pub(crate) fn window(headers: &Codestream, view: View) -> Result<Rect, Fault>
    requires { (size : ℕ) × AreHeaders size headers.now }
    ensures exact { result ≡ window_at headers.now view }
    ensures right { IfOk result (λ w. w.x1 < 2 ^ 31) }
    ensures lower { IfOk result (λ w. w.y1 < 2 ^ 31) }
    ensures few { IfOk result (λ w. view.reduce ≤ 10) }
{
    if !has_layer(view) {
        return Err(Fault::BadWindow);
    }
    area(headers, view)
}

/// Whether a view has a window, with the same fault.
pub(crate) fn sees(headers: &Codestream, view: View) -> Result<(), Fault>
    requires { (size : ℕ) × AreHeaders size headers.now }
    ensures { MatchResult result (λ _. HasWindow headers.now view)
        (λ e. (e ≡ BadWindow) × (HasWindow headers.now view → ⊥)) }
{
    match window(headers, view) {
        Ok(_) => Ok(()),
        Err(fault) => Err(fault),
    }
}
