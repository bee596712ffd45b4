//! Images that are decoded row by row, pixel by pixel: no image is whole in planes.

ghost use Rattle.std.specs.Prelude.{◌≡◌, ◌≤◌, ◌+◌, ◌*◌, length, take, drop, None, Ok, Result, IsTrue, IfOk, IfErr, IfSome};
ghost use Rattle.jk_math.specs.Answer.{Answers, Refuses};
ghost use Rattle.jk_math.specs.Memory.{IsMemory};
ghost use Rattle.jk_math.specs.Picture.{Picture, IsPicture};
ghost use Rattle.jk_math.specs.declared.fault.Fault.{Fault};
ghost use Rattle.jk_code.specs.Meaning.{Means};
ghost use Rattle.jk_code.specs.MeaningReading.{meaning_at};
ghost use Rattle.jk_c.specs.PixelRows.{HasSamples, HaveAllPixels, GivesRows};

use crate::codes::{DONE, MISFIT, code};
use crate::samples::{put_image_bytes, put_image_words};
use crate::signed::{put_image_shorts, put_image_tinies};
use jk_code::{ImageFrame, Rows, decode_rows, frame, judge_file};
use jk_math::{Fault, Image};
use std::alloc::Global;

/// How many rows are decoded at a time.
const ROWS: u32 = 64;

/// A sample in the caller's memory.
pub(crate) trait Sample: Copy {
    ghost use Rattle.std.specs.Prelude.{◌≡◌, ℕ, ℤ, pos, negsuc, ◌≤ℤ◌, ◌*◌, Bool, IsTrue, length};
    ghost use Rattle.jk_math.specs.Picture.{IsPicture};
    ghost use Rattle.jk_c.specs.PixelRows.{HasSamples, HaveAllPixels};

    // The number that it stands for.
    ghost value: { Self → ℤ };
    // How many bits it has room for, and whether these are with a sign.
    ghost bits: { ℕ };

    ghost signed: { Bool };

    /// What stands where no sample was put yet.
    fn blank() -> Self;

    /// How many bits it has room for, and whether these are with a sign.
    fn room() -> (u8, bool)
        ensures bits { result.0 ≡ bits }
        ensures sign { result.1 ≡ signed };

    /// The number that it stands for.
    fn number(self) -> i32
        ensures value { result ≡ value self }
        ensures within { (negsuc 32767 ≤ℤ result) × (result ≤ℤ pos 65535) };

    /// Writes the pixels of an image, if it has such samples and the list has room for just these.
    fn put(image: &Image, pixels: &mut [Self]) -> bool
        ensures long { length pixels.new ≡ length pixels.old }
        ensures samples { IsTrue result → HasSamples bits signed image.now }
        ensures put { IsTrue result → HaveAllPixels value image.now pixels.new }
        ensures fits { HasSamples bits signed image.now
            → length pixels.old ≡ image.now.width * image.now.height * length image.now.planes → IsTrue result }
        ensures profile { IsPicture image.now };
}

impl Sample for u8 {
    ghost use Rattle.std.specs.Prelude.{pos, false};

    ghost value = { λ x. pos x };

    ghost bits = { 8 };

    ghost signed = { false };

    fn blank() -> u8 {
        0
    }

    fn room() -> (u8, bool) {
        (8, false)
    }

    #[inline(always)]
    fn number(self) -> i32 {
        self as i32
    }

    fn put(image: &Image, pixels: &mut [u8]) -> bool {
        put_image_bytes(image, pixels)
    }
}

impl Sample for u16 {
    ghost use Rattle.std.specs.Prelude.{pos, false};

    ghost value = { λ x. pos x };

    ghost bits = { 16 };

    ghost signed = { false };

    fn blank() -> u16 {
        0
    }

    fn room() -> (u8, bool) {
        (16, false)
    }

    #[inline(always)]
    fn number(self) -> i32 {
        self as i32
    }

    fn put(image: &Image, pixels: &mut [u16]) -> bool {
        put_image_words(image, pixels)
    }
}

impl Sample for i8 {
    ghost use Rattle.std.specs.Prelude.{true};

    ghost value = { λ x. x };

    ghost bits = { 8 };

    ghost signed = { true };

    fn blank() -> i8 {
        0
    }

    fn room() -> (u8, bool) {
        (8, true)
    }

    #[inline(always)]
    fn number(self) -> i32 {
        self as i32
    }

    fn put(image: &Image, pixels: &mut [i8]) -> bool {
        put_image_tinies(image, pixels)
    }
}

impl Sample for i16 {
    ghost use Rattle.std.specs.Prelude.{true};

    ghost value = { λ x. x };

    ghost bits = { 16 };

    ghost signed = { true };

    fn blank() -> i16 {
        0
    }

    fn room() -> (u8, bool) {
        (16, true)
    }

    #[inline(always)]
    fn number(self) -> i32 {
        self as i32
    }

    fn put(image: &Image, pixels: &mut [i16]) -> bool {
        put_image_shorts(image, pixels)
    }
}

/// The pixels of the rows that came, and whether all had samples that have a place in them.
#[derive(Drop)]
pub(crate) struct PixelRows<T> {
    pub(crate) list: Vec<T>,
    pub(crate) fits: bool,
}

/// Writes the pixels of an image behind the first so many elements.
fn put_behind<T: Sample>(image: &Image, from: usize, pixels: &mut [T]) -> bool
    requires { from ≤ length pixels.old }
    ensures long { length pixels.new ≡ length pixels.old }
    ensures front { take from pixels.new ≡ take from pixels.old }
    ensures samples { IsTrue result → HasSamples T.bits T.signed image.now }
    ensures put { IsTrue result → HaveAllPixels T.value image.now (drop from pixels.new) }
    ensures fits { HasSamples T.bits T.signed image.now
        → length pixels.old ≡ from + image.now.width * image.now.height * length image.now.planes → IsTrue result }
    ensures profile { IsPicture image.now }
{
    T::put(image, &mut pixels[from..])
}

impl<T: Sample> Rows for PixelRows<T> {
    ghost use Rattle.jk_c.specs.PixelRows.{TookPixels};

    ghost took = { TookPixels T.value T.bits T.signed };

    ghost refused = { λ _ _ _ _. ⊥ };

    fn take(&mut self, _alloc: Global, rows: Image) -> Result<(), Fault> {
        let from = self.list.len();
        let area = rows.width() as usize * rows.height() as usize;
        let count = area * rows.planes().len();
        self.list.resize(from.saturating_add(count), T::blank())?;
        let fits = put_behind(&rows, from, &mut self.list);
        self.fits &= fits;
        Ok(())
    }
}

/// Whether an image of this frame has just so many samples, each of which has a place among samples of
/// so many bits, with a sign or without.
fn has_place(frame: &ImageFrame, bits: u8, signed: bool, count: usize) -> bool
    ensures { frame.now.depth ≤ bits → frame.now.signed ≡ signed
        → count ≡ frame.now.width * frame.now.height * frame.now.components → IsTrue result }
{
    let area = frame.width as u64 * frame.height as u64;
    let samples = area.saturating_mul(frame.components as u64);
    frame.depth <= bits && frame.signed == signed && samples == count as u64
}

/// Whether the image of a file may have just so many samples, each of which has a place.
fn suits<T: Sample>(alloc: Global, file: &[u8], reduce: u32, count: usize) -> Result<bool, Fault>
    ensures place { IfOk result (λ suits. (p : Picture) → Means file.now reduce p → HasSamples T.bits T.signed p
        → count ≡ p.width * p.height * length p.planes → IsTrue suits) }
    ensures memory { IfErr result IsMemory }
{
    let (bits, signed) = T::room();
    match frame(alloc, file, reduce) {
        Ok(frame) => Ok(has_place(&frame, bits, signed, count)),
        Err(Fault::Memory(refused)) => Err(Fault::Memory(refused)),
        // The error of the file is reported when it is decoded.
        Err(_) => Ok(true),
    }
}

/// The pixels of an image of so many samples that is decoded row by row; none, where it has other
/// samples.
pub(crate) fn pixels_by_rows<T: Sample>(
    alloc: Global,
    file: &[u8],
    reduce: u32,
    count: usize,
) -> Result<Option<Vec<T>>, Fault>
    ensures given { IfOk result (λ found. (p : Picture) × (meaning_at file.now reduce ≡ Ok p) × Means file.now reduce p
        × IfSome found (λ v. (length v.items ≡ count) × HasSamples T.bits T.signed p × HaveAllPixels T.value p v.items)
        × (found ≡ None → HasSamples T.bits T.signed p → count ≡ p.width * p.height * length p.planes → ⊥)) }
    ensures err { IfErr result (λ e. Refuses e (meaning_at file.now reduce)) }
{
    if !suits::<T>(alloc, file, reduce, count)? {
        judge_file(alloc, file, reduce)?;
        return Ok(None);
    }
    let mut rows = PixelRows {
        list: Vec::with_capacity(alloc, count)?,
        fits: true,
    };
    decode_rows(alloc, file, reduce, ROWS, &mut rows)?;
    if rows.fits && rows.list.len() == count {
        return Ok(Some(rows.list));
    }
    Ok(None)
}

/// Gives the pixels of the image that a file means, or tells the fault that stands in their place.
pub(crate) fn give_pixels<T: Sample>(
    alloc: Global,
    file: &[u8],
    reduce: u32,
    pixels: &mut [T],
) -> u32
    ensures { (r : Result Picture Fault)
        × Answers (λ p. p) r (meaning_at file.now reduce) × IfOk r (Means file.now reduce)
        × GivesRows T.value T.bits T.signed r pixels.old result pixels.new }
{
    match pixels_by_rows::<T>(alloc, file, reduce, pixels.len()) {
        Ok(Some(list)) => {
            pixels.copy_from_slice(&list);
            DONE
        }
        Ok(None) => MISFIT,
        Err(fault) => code(fault),
    }
}
