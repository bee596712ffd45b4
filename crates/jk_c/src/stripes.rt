//! Stripes of rows out of the caller's pixels.

ghost use Rattle.std.specs.Prelude.{◌≡◌, ◌⊎◌, ◌*◌, ◌<◌, ◌≤◌, IfOk, IfErr, length, map};
ghost use Rattle.std.specs.List.{range_with_len};
ghost use Rattle.jk_math.specs.Memory.{IsMemory};
ghost use Rattle.jk_math.specs.Lists.{lists_of};
ghost use Rattle.jk_math.specs.Picture.{IsPicture};
ghost use Rattle.jk_math.specs.declared.fault.Fault.TheVariants.{BadParameters};
ghost use Rattle.jk_params.specs.PictureFrames.{IsPictureFrame};
ghost use Rattle.jk_c.specs.Signed.{signed_plane_in};
ghost use Rattle.jk_c.specs.Pictured.{pictured, stripe_in};

use crate::pixel_rows::Sample;
use jk_math::{Fault, Image};
use jk_params::PictureFrame;
use std::alloc::Global;

/// A component of pixels.
#[tactic(auto, using(crate::proofs::Spreading::place_below))]
fn plane<T: Sample>(
    alloc: Global,
    pixels: &[T],
    area: usize,
    component: usize,
    components: usize,
) -> Result<Vec<i32>, Fault>
    requires component { component < components }
    requires whole { area * components ≤ length pixels.now }
    ensures value { IfOk result
        (λ v. v.items ≡ signed_plane_in (map T.value pixels.now) area components component) }
    ensures err { IfErr result IsMemory }
{
    let mut samples = Vec::with_capacity(alloc, area)?;
    for i in 0..area {
        samples.push(pixels[i * components + component].number())?;
    }
    Ok(samples)
}

/// The planes of pixels.
fn planes<T: Sample>(
    alloc: Global,
    pixels: &[T],
    area: usize,
    components: usize,
) -> Result<Vec<Vec<i32>>, Fault>
    requires { area * components ≤ length pixels.now }
    ensures value { IfOk result (λ v. lists_of v.items
        ≡ map (signed_plane_in (map T.value pixels.now) area components) (range_with_len 0 components)) }
    ensures err { IfErr result IsMemory }
{
    let mut planes = Vec::new(alloc);
    for component in 0..components {
        planes.push(plane(alloc, pixels, area, component, components)?)?;
    }
    Ok(planes)
}

/// Rows `from` up to `to` of an image of which all pixels are in a list, counted from its first one.
///
/// BadParameters: a sample of theirs passes the depth.
pub(crate) fn stripe<T: Sample>(
    alloc: Global,
    frame: &PictureFrame,
    pixels: &[T],
    from: u32,
    to: u32,
) -> Result<Image, Fault>
    requires known { IsPictureFrame frame.now }
    requires whole { length pixels.now ≡ frame.now.width * frame.now.height * frame.now.components }
    requires order { from < to }
    requires inside { to ≤ frame.now.height }
    ensures rows { IfOk result (λ v. v ≡ stripe_in frame.now (map T.value pixels.now) from to) }
    ensures profile { IfOk result IsPicture }
    ensures refused { IfErr result (λ e. IsMemory e ⊎ ((e ≡ BadParameters)
        × (IsPicture (pictured frame.now (map T.value pixels.now)) → ⊥))) }
{
    let components = frame.components as usize;
    let row = frame.width as usize * components;
    let rows = to - from;
    let planes = planes(
        alloc,
        &pixels[from as usize * row..to as usize * row],
        frame.width as usize * rows as usize,
        components,
    )?;
    Image::new(
        frame.x0,
        frame.y0 + from,
        frame.width,
        rows,
        frame.depth,
        frame.signed,
        planes,
    )
}
