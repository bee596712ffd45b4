//! Writing.

ghost use Rattle.std.specs.Prelude.{◌≡◌, ◌*◌, ◌+◌, ◌-◌, ◌<◌, ◌≤◌, ◌^◌, ◌++◌, ◌∷◌, [], true, length, IfOk, OnOk, IfErr};
ghost use Rattle.std.specs.Prelude.{pos, All, ◌≤ℤ◌, ◌<ℤ◌, ◌/◌, ◌%◌, ◌==◌};
ghost use Rattle.std.specs.Vec.{vec_len, vec_capacity};
ghost use Rattle.jk_math.specs.Memory.{IsMemory};
ghost use Rattle.jk_math.specs.Answer.{Answers};
ghost use Rattle.jk_math.specs.Picture.{IsPicture, is_grey_or_rgb};
ghost use Rattle.jk_pnm.specs.Pnm.{IsPnm, magic_text};
ghost use Rattle.jk_pnm.specs.Written.{is_written, maxval_of, natural, sample_text, raster_part, raster_text, header_text, file_text};
ghost use Rattle.jk_pnm.specs.Written.{written};

use jk_math::{Fault, Image};
use std::alloc::Global;

/// Whether so many components are one or three unsigned ones.
pub(crate) fn is_grey_or_rgb(components: usize, signed: bool) -> bool
    ensures { result ≡ is_grey_or_rgb components signed }
{
    !signed && (components == 1 || components == 3)
}

/// Whether the image has one or three unsigned components.
pub(crate) fn is_written(image: &Image) -> bool
    ensures { result ≡ is_written image.now }
{
    is_grey_or_rgb(image.planes().len(), image.signed())
}

/// The byte of a sample where maxval is at most 255.
#[inline(always)]
fn byte_of(maxval: u32, sample: i32) -> u8
    requires natural { pos 0 ≤ℤ sample }
    requires below { sample ≤ℤ pos maxval }
    requires maxval { maxval ≤ 255 }
    ensures { result ∷ [] ≡ sample_text maxval sample }
{
    sample as u8
}

/// Appends the raster of one component, of samples of one byte: room for all of them is made first.
fn put_bytes(out: Vec<u8>, maxval: u32, samples: &[i32]) -> Result<Vec<u8>, Fault>
    requires samples { All (λ s. (pos 0 ≤ℤ s) × (s ≤ℤ pos maxval)) samples.now }
    requires maxval { maxval ≤ 255 }
    ensures ok { IfOk result
        (λ v. v.items ≡ out.items ++ raster_text maxval (samples.now ∷ []) (length samples.now)) }
    ensures err { IfErr result (λ e. IsMemory e) }
{
    let mut out = out;
    out.reserve(samples.len())?;
    for sample in samples {
        out.push_reserved(byte_of(maxval, *sample));
    }
    Ok(out)
}

/// The byte of more weight of a sample where maxval is above 255.
#[inline(always)]
fn high_byte(sample: i32) -> u8
    requires natural { pos 0 ≤ℤ sample }
    requires below { sample <ℤ pos (2 ^ 16) }
    ensures { result ≡ natural sample / 256 }
{
    (sample as u32 / 256) as u8
}

/// The byte of less weight.
#[inline(always)]
fn low_byte(sample: i32) -> u8
    requires natural { pos 0 ≤ℤ sample }
    requires below { sample <ℤ pos (2 ^ 16) }
    ensures { result ≡ natural sample % 256 }
{
    (sample as u32 % 256) as u8
}

/// Appends a sample of two bytes, for which there is room.
#[inline(always)]
fn put_wide(out: &mut Vec<u8>, maxval: u32, sample: i32)
    requires natural { pos 0 ≤ℤ sample }
    requires below { sample ≤ℤ pos maxval }
    requires wide { 255 < maxval }
    requires maxval { maxval < 2 ^ 16 }
    requires room { vec_len out.old + 2 ≤ vec_capacity out.old }
    ensures items { out.new.items ≡ out.old.items ++ sample_text maxval sample }
    ensures len { vec_len out.new ≡ vec_len out.old + 2 }
    ensures capacity { vec_capacity out.new ≡ vec_capacity out.old }
{
    out.push_reserved(high_byte(sample));
    out.push_reserved(low_byte(sample));
}

/// Appends the raster of one component, of samples of two bytes: room for all of them is made
/// first.
fn put_words(out: Vec<u8>, maxval: u32, samples: &[i32]) -> Result<Vec<u8>, Fault>
    requires samples { All (λ s. (pos 0 ≤ℤ s) × (s ≤ℤ pos maxval)) samples.now }
    requires few { length samples.now ≤ 2 ^ 28 }
    requires wide { 255 < maxval }
    requires maxval { maxval < 2 ^ 16 }
    ensures ok { IfOk result
        (λ v. v.items ≡ out.items ++ raster_text maxval (samples.now ∷ []) (length samples.now)) }
    ensures err { IfErr result (λ e. IsMemory e) }
{
    let mut out = out;
    out.reserve(2 * samples.len())?;
    for sample in samples {
        put_wide(&mut out, maxval, *sample);
    }
    Ok(out)
}

/// Appends the raster of three components, of samples of one byte: room for all of them is made
/// first.
fn put_pixels(
    out: Vec<u8>,
    maxval: u32,
    red: &[i32],
    green: &[i32],
    blue: &[i32],
) -> Result<Vec<u8>, Fault>
    requires red { All (λ s. (pos 0 ≤ℤ s) × (s ≤ℤ pos maxval)) red.now }
    requires green { All (λ s. (pos 0 ≤ℤ s) × (s ≤ℤ pos maxval)) green.now }
    requires blue { All (λ s. (pos 0 ≤ℤ s) × (s ≤ℤ pos maxval)) blue.now }
    requires greens { length green.now ≡ length red.now }
    requires blues { length blue.now ≡ length red.now }
    requires few { length red.now ≤ 2 ^ 28 }
    requires maxval { maxval ≤ 255 }
    ensures ok { IfOk result (λ v. v.items
        ≡ out.items ++ raster_text maxval (red.now ∷ green.now ∷ blue.now ∷ []) (length red.now)) }
    ensures err { IfErr result (λ e. IsMemory e) }
{
    let mut out = out;
    out.reserve(3 * red.len())?;
    for pixel in 0..red.len() {
        out.push_reserved(byte_of(maxval, red[pixel]));
        out.push_reserved(byte_of(maxval, green[pixel]));
        out.push_reserved(byte_of(maxval, blue[pixel]));
    }
    Ok(out)
}

/// Appends the raster of three components, of samples of two bytes: room for all of them is made
/// first.
fn put_wide_pixels(
    out: Vec<u8>,
    maxval: u32,
    red: &[i32],
    green: &[i32],
    blue: &[i32],
) -> Result<Vec<u8>, Fault>
    requires red { All (λ s. (pos 0 ≤ℤ s) × (s ≤ℤ pos maxval)) red.now }
    requires green { All (λ s. (pos 0 ≤ℤ s) × (s ≤ℤ pos maxval)) green.now }
    requires blue { All (λ s. (pos 0 ≤ℤ s) × (s ≤ℤ pos maxval)) blue.now }
    requires greens { length green.now ≡ length red.now }
    requires blues { length blue.now ≡ length red.now }
    requires few { length red.now ≤ 2 ^ 28 }
    requires wide { 255 < maxval }
    requires maxval { maxval < 2 ^ 16 }
    ensures ok { IfOk result (λ v. v.items
        ≡ out.items ++ raster_text maxval (red.now ∷ green.now ∷ blue.now ∷ []) (length red.now)) }
    ensures err { IfErr result (λ e. IsMemory e) }
{
    let mut out = out;
    out.reserve(6 * red.len())?;
    for pixel in 0..red.len() {
        put_wide(&mut out, maxval, red[pixel]);
        put_wide(&mut out, maxval, green[pixel]);
        put_wide(&mut out, maxval, blue[pixel]);
    }
    Ok(out)
}

/// The magic number and LF.
fn magic(colour: bool) -> &'static [u8]
    ensures { result.now ≡ magic_text colour ++ (10 ∷ []) }
{
    if colour { b"P6\n" } else { b"P5\n" }
}

/// What stands before the raster.
pub(crate) fn header(
    alloc: Global,
    size: usize,
    colour: bool,
    width: u32,
    height: u32,
    maxval: u32,
) -> Result<Vec<u8>, Fault>
    ensures value { IfOk result (λ v. v.items ≡ header_text colour width height maxval) }
    ensures err { IfErr result (λ e. IsMemory e) }
{
    let mut out = Vec::with_capacity(alloc, size.saturating_add(32))?;
    out.extend_from_slice(magic(colour))?;
    out.extend_from_slice(width.to_string(alloc)?.as_bytes())?;
    out.extend_from_slice(b" ")?;
    out.extend_from_slice(height.to_string(alloc)?.as_bytes())?;
    out.extend_from_slice(b"\n")?;
    out.extend_from_slice(maxval.to_string(alloc)?.as_bytes())?;
    out.extend_from_slice(b"\n")?;
    Ok(out)
}

/// The raster of one component behind what stands before it.
fn put_one(out: Vec<u8>, maxval: u32, samples: &[i32]) -> Result<Vec<u8>, Fault>
    requires samples { All (λ s. (pos 0 ≤ℤ s) × (s ≤ℤ pos maxval)) samples.now }
    requires few { length samples.now ≤ 2 ^ 28 }
    requires maxval { maxval < 2 ^ 16 }
    ensures ok { IfOk result
        (λ v. v.items ≡ out.items ++ raster_text maxval (samples.now ∷ []) (length samples.now)) }
    ensures err { IfErr result (λ e. IsMemory e) }
{
    if maxval <= 255 {
        put_bytes(out, maxval, samples)
    } else {
        put_words(out, maxval, samples)
    }
}

/// The raster of three components behind what stands before it.
fn put_three(
    out: Vec<u8>,
    maxval: u32,
    red: &[i32],
    green: &[i32],
    blue: &[i32],
) -> Result<Vec<u8>, Fault>
    requires red { All (λ s. (pos 0 ≤ℤ s) × (s ≤ℤ pos maxval)) red.now }
    requires green { All (λ s. (pos 0 ≤ℤ s) × (s ≤ℤ pos maxval)) green.now }
    requires blue { All (λ s. (pos 0 ≤ℤ s) × (s ≤ℤ pos maxval)) blue.now }
    requires greens { length green.now ≡ length red.now }
    requires blues { length blue.now ≡ length red.now }
    requires few { length red.now ≤ 2 ^ 28 }
    requires maxval { maxval < 2 ^ 16 }
    ensures ok { IfOk result (λ v. v.items
        ≡ out.items ++ raster_text maxval (red.now ∷ green.now ∷ blue.now ∷ []) (length red.now)) }
    ensures err { IfErr result (λ e. IsMemory e) }
{
    if maxval <= 255 {
        put_pixels(out, maxval, red, green, blue)
    } else {
        put_wide_pixels(out, maxval, red, green, blue)
    }
}

/// The raster of a few pixels, from one on up to another, behind what stands before it.
pub(crate) fn put_raster(
    out: Vec<u8>,
    image: &Image,
    maxval: u32,
    from: usize,
    to: usize,
) -> Result<Vec<u8>, Fault>
    requires written { is_written image.now ≡ true }
    requires profile { IsPicture image.now }
    requires maxval { maxval ≡ maxval_of image.now.depth }
    requires from { from ≤ to }
    requires to { to ≤ image.now.width * image.now.height }
    ensures ok { IfOk result (λ v. v.items ≡ out.items ++ raster_part maxval image.now.planes from (to - from)) }
    ensures err { IfErr result (λ e. IsMemory e) }
{
    let planes = image.planes();
    if planes.len() == 1 {
        put_one(out, maxval, &planes.plane(0)[from..to])
    } else {
        put_three(
            out,
            maxval,
            &planes.plane(0)[from..to],
            &planes.plane(1)[from..to],
            &planes.plane(2)[from..to],
        )
    }
}

/// How many pixels an image has, and the greatest value of a sample.
pub(crate) fn pixels_and_maxval(image: &Image) -> (usize, u32)
    ensures pixels { result.0 ≡ image.now.width * image.now.height }
    ensures maxval { result.1 ≡ maxval_of image.now.depth }
    ensures profile { IsPicture image.now }
{
    let pixels = image.width() as usize * image.height() as usize;
    (pixels, (1u32 << image.depth()) - 1)
}

/// What stands before the raster of an image.
pub(crate) fn head_of(
    alloc: Global,
    image: &Image,
    maxval: u32,
    size: usize,
) -> Result<Vec<u8>, Fault>
    requires maxval { maxval ≡ maxval_of image.now.depth }
    ensures value { IfOk result (λ v. v.items
        ≡ header_text (length image.now.planes == 3) image.now.width image.now.height (maxval_of image.now.depth)) }
    ensures err { IfErr result (λ e. IsMemory e) }
{
    let colour = image.planes().len() == 3;
    header(alloc, size, colour, image.width(), image.height(), maxval)
}

/// The file of an image.
fn file(alloc: Global, image: &Image) -> Result<Vec<u8>, Fault>
    requires written { is_written image.now ≡ true }
    ensures value { IfOk result (λ v. v.items ≡ file_text image.now) }
    ensures means { IfOk result (λ v. IsPnm v.items (record image.now { x0 = 0; y0 = 0 })) }
    ensures err { IfErr result (λ e. IsMemory e) }
{
    let (pixels, maxval) = pixels_and_maxval(image);
    let size = pixels * image.planes().len() * (if maxval > 255 { 2 } else { 1 });
    let head = head_of(alloc, image, maxval, size)?;
    put_raster(head, image, maxval, 0, pixels)
}

/// The PGM file of an image of one component, or the PPM file of an image of three. Where the image
/// lies on the reference grid isn't written.
///
/// Unsupported: another number of components, or signed samples.
#[tactic(auto, unfolding(crate::specs::Written::written))]
pub fn write(alloc: Global, image: &Image) -> Result<Vec<u8>, Fault>
    ensures exact { Answers (λ v. v.items) result (written image.now) }
    // What is written is a file of the image, placed at (0, 0).
    ensures means { IfOk result (λ v. IsPnm v.items (record image.now { x0 = 0; y0 = 0 })) }
{
    if !is_written(image) {
        return Err(Fault::Unsupported);
    }
    file(alloc, image)
}
