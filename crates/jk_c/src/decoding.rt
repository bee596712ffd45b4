//! Files decoded row by row, with the pixels beside the caller's and no plane of the whole image.

ghost use Rattle.std.specs.Prelude.{◌≡◌, Ok};
ghost use Rattle.jk_math.specs.Picture.{Picture};
ghost use Rattle.jk_code.specs.Meaning.{Means};
ghost use Rattle.jk_code.specs.MeaningReading.{meaning_at};
ghost use Rattle.jk_c.specs.Answers.{GivesPixels, GivesPixelsOrMemory};
ghost use Rattle.jk_c.specs.Codes.{done_code};
ghost use Rattle.jk_c.specs.Pixels.{ArePixels};
ghost use Rattle.jk_c.specs.Signed.{AreSignedPixels, GivesSignedOrMemory};

use crate::pixel_rows::give_pixels;
use std::alloc::Global;

/// The image that a file means at a reduction, pixel by pixel, as bytes: for unsigned samples of at
/// most 8 bits. The faults are those of `jk_code::decode`; Misfit: the image has other samples, or
/// the list another length.
#[unsafe(no_mangle)]
pub extern "C" fn jk_decode_u8(alloc: Global, file: &[u8], reduce: u32, pixels: &mut [u8]) -> u32
    // Which pixels, or which fault is the first.
    ensures exact { GivesPixelsOrMemory 8 (meaning_at file.now reduce) pixels.old result pixels.new }
    // What is given are the pixels of the picture that the file means.
    ensures found { result ≡ done_code → (p : Picture) × Means file.now reduce p × ArePixels p pixels.new }
    // What a file means is given, or Misfit.
    ensures only { (p : Picture) → Means file.now reduce p
        → GivesPixelsOrMemory 8 (Ok p) pixels.old result pixels.new }
{
    give_pixels(alloc, file, reduce, pixels)
}

/// The image that a file means at a reduction, pixel by pixel, as words of two bytes: for unsigned
/// samples. The faults are those of `jk_code::decode`; Misfit: the image has signed samples, or the
/// list another length.
#[unsafe(no_mangle)]
pub extern "C" fn jk_decode_u16(alloc: Global, file: &[u8], reduce: u32, pixels: &mut [u16]) -> u32
    // Which pixels, or which fault is the first.
    ensures exact { GivesPixelsOrMemory 16 (meaning_at file.now reduce) pixels.old result pixels.new }
    // What is given are the pixels of the picture that the file means.
    ensures found { result ≡ done_code → (p : Picture) × Means file.now reduce p × ArePixels p pixels.new }
    // What a file means is given, or Misfit.
    ensures only { (p : Picture) → Means file.now reduce p
        → GivesPixelsOrMemory 16 (Ok p) pixels.old result pixels.new }
{
    give_pixels(alloc, file, reduce, pixels)
}

/// The image that a file means at a reduction, pixel by pixel, as signed bytes: for signed samples of at most 8 bits.
/// The faults are those of `jk_code::decode`; Misfit: the image has other samples, or the list
/// another length.
#[unsafe(no_mangle)]
pub extern "C" fn jk_decode_i8(alloc: Global, file: &[u8], reduce: u32, pixels: &mut [i8]) -> u32
    // Which pixels, or which fault is the first.
    ensures exact { GivesSignedOrMemory 8 (meaning_at file.now reduce) pixels.old result pixels.new }
    // What is given are the pixels of the picture that the file means.
    ensures found { result ≡ done_code → (p : Picture) × Means file.now reduce p × AreSignedPixels p pixels.new }
    // What a file means is given, or Misfit.
    ensures only { (p : Picture) → Means file.now reduce p
        → GivesSignedOrMemory 8 (Ok p) pixels.old result pixels.new }
{
    give_pixels(alloc, file, reduce, pixels)
}

/// The image that a file means at a reduction, pixel by pixel, as signed words of two bytes: for signed samples.
/// The faults are those of `jk_code::decode`; Misfit: the image has other samples, or the list
/// another length.
#[unsafe(no_mangle)]
pub extern "C" fn jk_decode_i16(alloc: Global, file: &[u8], reduce: u32, pixels: &mut [i16]) -> u32
    // Which pixels, or which fault is the first.
    ensures exact { GivesSignedOrMemory 16 (meaning_at file.now reduce) pixels.old result pixels.new }
    // What is given are the pixels of the picture that the file means.
    ensures found { result ≡ done_code → (p : Picture) × Means file.now reduce p × AreSignedPixels p pixels.new }
    // What a file means is given, or Misfit.
    ensures only { (p : Picture) → Means file.now reduce p
        → GivesSignedOrMemory 16 (Ok p) pixels.old result pixels.new }
{
    give_pixels(alloc, file, reduce, pixels)
}
