//! Samples in the caller's memory: pixel by pixel, the components of a pixel side by side.

ghost use Rattle.std.specs.Prelude.{◌≡◌, ℕ, ◌+◌, ◌*◌, ◌<◌, ◌≤◌, ◌^◌, ◌↔◌, IsTrue, length, pos, All, ◌≤ℤ◌};
ghost use Rattle.std.specs.Prelude.{false, slice_index_or};
ghost use Rattle.jk_math.specs.Picture.{IsPicture};
ghost use Rattle.jk_c.specs.Pixels.{ArePut, ArePixels, Fits};

use jk_math::Image;

/// A sample as a byte.
#[inline(always)]
fn byte(sample: i32) -> u8
    requires natural { pos 0 ≤ℤ sample }
    requires small { sample ≤ℤ pos 255 }
    ensures { pos result ≡ sample }
{
    sample as u8
}

/// A sample as a word of two bytes.
#[inline(always)]
fn word(sample: i32) -> u16
    requires natural { pos 0 ≤ℤ sample }
    requires small { sample ≤ℤ pos 65535 }
    ensures { pos result ≡ sample }
{
    sample as u16
}

/// Writes a component of each pixel, as bytes.
#[tactic(auto, using(crate::proofs::Spreading::place_below))]
fn put_bytes(samples: &[i32], component: usize, components: usize, pixels: &mut [u8])
    requires component { component < components }
    requires components { components ≤ 4 }
    requires few { length samples.now ≤ 2 ^ 28 }
    requires room { length pixels.old ≡ length samples.now * components }
    requires small { All (λ s. (pos 0 ≤ℤ s) × (s ≤ℤ pos 255)) samples.now }
    ensures long { length pixels.new ≡ length pixels.old }
    ensures put { ArePut components component samples.now pixels.new }
    ensures keeps { (other i : ℕ) → other < components → (other ≡ component → ⊥)
        → slice_index_or pixels.new (i * components + other) 0 ≡ slice_index_or pixels.old (i * components + other) 0 }
{
    for i in 0..samples.len() {
        pixels[i * components + component] = byte(samples[i]);
    }
}

/// Writes a component of each pixel, as words of two bytes.
#[tactic(auto, using(crate::proofs::Spreading::place_below))]
fn put_words(samples: &[i32], component: usize, components: usize, pixels: &mut [u16])
    requires component { component < components }
    requires components { components ≤ 4 }
    requires few { length samples.now ≤ 2 ^ 28 }
    requires room { length pixels.old ≡ length samples.now * components }
    requires small { All (λ s. (pos 0 ≤ℤ s) × (s ≤ℤ pos 65535)) samples.now }
    ensures long { length pixels.new ≡ length pixels.old }
    ensures put { ArePut components component samples.now pixels.new }
    ensures keeps { (other i : ℕ) → other < components → (other ≡ component → ⊥)
        → slice_index_or pixels.new (i * components + other) 0 ≡ slice_index_or pixels.old (i * components + other) 0 }
{
    for i in 0..samples.len() {
        pixels[i * components + component] = word(samples[i]);
    }
}

/// Whether an image has so many samples, each of at most so many bits.
pub(crate) fn has_samples(image: &Image, bits: u8, count: usize) -> bool
    ensures value { IsTrue result ↔ ((image.now.depth ≤ bits)
        × (count ≡ image.now.width * image.now.height * length image.now.planes)) }
    ensures profile { IsPicture image.now }
{
    let area = image.width() as usize * image.height() as usize;
    image.depth() <= bits && area * image.planes().len() == count
}

/// Whether an image has so many unsigned samples, each of at most so many bits.
fn fits(image: &Image, bits: u8, count: usize) -> bool
    ensures value { IsTrue result ↔ Fits bits image.now count }
    ensures profile { IsPicture image.now }
{
    has_samples(image, bits, count) && !image.signed()
}

/// Writes the pixels of an image of unsigned samples of at most 8 bits, if the list has room for
/// just these.
pub(crate) fn put_image_bytes(image: &Image, pixels: &mut [u8]) -> bool
    ensures put { IsTrue result → ArePixels image.now pixels.new }
    ensures kept { result ≡ false → pixels.new ≡ pixels.old }
    ensures fits { IsTrue result ↔ Fits 8 image.now (length pixels.old) }
    ensures profile { IsPicture image.now }
{
    if !fits(image, 8, pixels.len()) {
        return false;
    }
    let components = image.planes().len();
    for component in 0..components {
        put_bytes(
            image.planes().plane(component),
            component,
            components,
            pixels,
        );
    }
    true
}

/// Writes the pixels of an image of unsigned samples of at most 16 bits, if the list has room for
/// just these.
pub(crate) fn put_image_words(image: &Image, pixels: &mut [u16]) -> bool
    ensures put { IsTrue result → ArePixels image.now pixels.new }
    ensures kept { result ≡ false → pixels.new ≡ pixels.old }
    ensures fits { IsTrue result ↔ Fits 16 image.now (length pixels.old) }
    ensures profile { IsPicture image.now }
{
    if !fits(image, 16, pixels.len()) {
        return false;
    }
    let components = image.planes().len();
    for component in 0..components {
        put_words(
            image.planes().plane(component),
            component,
            components,
            pixels,
        );
    }
    true
}
