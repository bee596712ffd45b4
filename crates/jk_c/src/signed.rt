//! Signed samples in the caller's memory: pixel by pixel, the components of a pixel side by side, in
//! bytes or in words of two bytes, as two's complement.

ghost use Rattle.std.specs.Prelude.{◌≡◌, ℕ, ◌+◌, ◌*◌, ◌<◌, ◌≤◌, ◌^◌, ◌↔◌, IsTrue, length, pos, negsuc, All, ◌≤ℤ◌};
ghost use Rattle.std.specs.Prelude.{false, slice_index_or};
ghost use Rattle.jk_math.specs.Picture.{IsPicture};
ghost use Rattle.jk_c.specs.Signed.{ArePutSigned, AreSignedPixels, FitsSigned};

use crate::samples::has_samples;
use jk_math::Image;

/// Whether an image has so many signed samples, each of at most so many bits.
fn fits_signed(image: &Image, bits: u8, count: usize) -> bool
    ensures value { IsTrue result ↔ FitsSigned bits image.now count }
    ensures profile { IsPicture image.now }
{
    has_samples(image, bits, count) && image.signed()
}

/// A sample as a signed byte.
#[inline(always)]
fn tiny(sample: i32) -> i8
    requires above { negsuc 127 ≤ℤ sample }
    requires below { sample ≤ℤ pos 127 }
    ensures { result ≡ sample }
{
    sample as i8
}

/// Writes a component of each pixel, as signed bytes.
#[tactic(auto, using(crate::proofs::Spreading::place_below))]
fn put_tinies(samples: &[i32], component: usize, components: usize, pixels: &mut [i8])
    requires component { component < components }
    requires components { components ≤ 4 }
    requires few { length samples.now ≤ 2 ^ 28 }
    requires room { length pixels.old ≡ length samples.now * components }
    requires small { All (λ s. (negsuc 127 ≤ℤ s) × (s ≤ℤ pos 127)) samples.now }
    ensures long { length pixels.new ≡ length pixels.old }
    ensures put { ArePutSigned components component samples.now pixels.new }
    ensures keeps { (other i : ℕ) → other < components → (other ≡ component → ⊥)
        → slice_index_or pixels.new (i * components + other) (pos 0)
        ≡ slice_index_or pixels.old (i * components + other) (pos 0) }
{
    for i in 0..samples.len() {
        pixels[i * components + component] = tiny(samples[i]);
    }
}

/// Writes the pixels of an image of signed samples of at most 8 bits, if the list has room for
/// just these.
pub(crate) fn put_image_tinies(image: &Image, pixels: &mut [i8]) -> bool
    ensures put { IsTrue result → AreSignedPixels image.now pixels.new }
    ensures kept { result ≡ false → pixels.new ≡ pixels.old }
    ensures fits { IsTrue result ↔ FitsSigned 8 image.now (length pixels.old) }
    ensures profile { IsPicture image.now }
{
    if !fits_signed(image, 8, pixels.len()) {
        return false;
    }
    let components = image.planes().len();
    for component in 0..components {
        put_tinies(
            image.planes().plane(component),
            component,
            components,
            pixels,
        );
    }
    true
}

/// A sample as a signed word of two bytes.
#[inline(always)]
fn short(sample: i32) -> i16
    requires above { negsuc 32767 ≤ℤ sample }
    requires below { sample ≤ℤ pos 32767 }
    ensures { result ≡ sample }
{
    sample as i16
}

/// Writes a component of each pixel, as signed words of two bytes.
#[tactic(auto, using(crate::proofs::Spreading::place_below))]
fn put_shorts(samples: &[i32], component: usize, components: usize, pixels: &mut [i16])
    requires component { component < components }
    requires components { components ≤ 4 }
    requires few { length samples.now ≤ 2 ^ 28 }
    requires room { length pixels.old ≡ length samples.now * components }
    requires small { All (λ s. (negsuc 32767 ≤ℤ s) × (s ≤ℤ pos 32767)) samples.now }
    ensures long { length pixels.new ≡ length pixels.old }
    ensures put { ArePutSigned components component samples.now pixels.new }
    ensures keeps { (other i : ℕ) → other < components → (other ≡ component → ⊥)
        → slice_index_or pixels.new (i * components + other) (pos 0)
        ≡ slice_index_or pixels.old (i * components + other) (pos 0) }
{
    for i in 0..samples.len() {
        pixels[i * components + component] = short(samples[i]);
    }
}

/// Writes the pixels of an image of signed samples of at most 16 bits, if the list has room for
/// just these.
pub(crate) fn put_image_shorts(image: &Image, pixels: &mut [i16]) -> bool
    ensures put { IsTrue result → AreSignedPixels image.now pixels.new }
    ensures kept { result ≡ false → pixels.new ≡ pixels.old }
    ensures fits { IsTrue result ↔ FitsSigned 16 image.now (length pixels.old) }
    ensures profile { IsPicture image.now }
{
    if !fits_signed(image, 16, pixels.len()) {
        return false;
    }
    let components = image.planes().len();
    for component in 0..components {
        put_shorts(
            image.planes().plane(component),
            component,
            components,
            pixels,
        );
    }
    true
}
