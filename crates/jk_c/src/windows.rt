//! Windows of files, decoded and cut.

ghost use Rattle.std.specs.Prelude.{◌≡◌, Ok, Err, IfOk, take};
ghost use Rattle.jk_math.specs.Answer.{Answers};
ghost use Rattle.jk_math.specs.declared.fault.Fault.{Fault as FaultValue};
ghost use Rattle.jk_math.specs.Picture.{Picture};
ghost use Rattle.jk_window.specs.Indexing.{IndexFields, IsIndexOf, index_at};
ghost use Rattle.jk_window.specs.Cutting.{cut_file};
ghost use Rattle.jk_code.specs.Meaning.{MeansLayers, Means};
ghost use Rattle.jk_code.specs.Viewing.{picture_of_view};
ghost use Rattle.jk_code.specs.ViewReading.{meaning_view_at};
ghost use Rattle.jk_code.specs.Windows.{IsWindowOf};
ghost use Rattle.jk_c.specs.Answers.{GivesPixelsOrMemory, HandsOutOrMemory, room};
ghost use Rattle.jk_c.specs.Codes.{done_code};
ghost use Rattle.jk_c.specs.Signed.{GivesSignedOrMemory};
ghost use Rattle.jk_c.specs.Views.{view_of};

use crate::answers::{give_bytes, give_shorts, give_tinies, give_words, hand_out};
use jk_code::{decode_window, window};
use jk_math::Fault;
use jk_window::{View, index};
use std::alloc::Global;

/// The view of a rectangle at a reduction, in all layers.
fn view(reduce: u32, x: u32, y: u32, width: u32, height: u32) -> View
    ensures { result ≡ view_of reduce x y width height }
{
    View {
        reduce,
        x,
        y,
        width,
        height,
        layers: None,
    }
}

/// The window of a rectangle of the image that a file means at a reduction, counted from its upper
/// left sample and cut with it, pixel by pixel, as bytes: for unsigned samples of at most 8 bits.
/// The faults are those of `jk_code::decode_window`; Misfit: the image has other samples, or the
/// list another length than the cut window.
#[unsafe(no_mangle)]
pub extern "C" fn jk_decode_window_u8(
    alloc: Global,
    file: &[u8],
    reduce: u32,
    x: u32,
    y: u32,
    width: u32,
    height: u32,
    pixels: &mut [u8],
) -> u32
    // Which pixels, or which fault is the first.
    ensures exact { GivesPixelsOrMemory 8 (meaning_view_at file.now (view_of reduce x y width height))
        pixels.old result pixels.new }
    // Where the file means a picture, the pixels are those of the picture on the window; or
    // BadWindow is answered, where the window has no sample.
    ensures means { (p : Picture) → Means file.now reduce p
        → GivesPixelsOrMemory 8 (picture_of_view (view_of reduce x y width height) p) pixels.old result pixels.new }
{
    let image = decode_window(alloc, file, view(reduce, x, y, width, height));
    give_bytes(image, pixels)
}

/// The window of a rectangle of the image that a file means at a reduction, counted from its upper
/// left sample and cut with it, pixel by pixel, as words of two bytes: for unsigned samples. The
/// faults are those of `jk_code::decode_window`; Misfit: the image has signed samples, or the list
/// another length than the cut window.
#[unsafe(no_mangle)]
pub extern "C" fn jk_decode_window_u16(
    alloc: Global,
    file: &[u8],
    reduce: u32,
    x: u32,
    y: u32,
    width: u32,
    height: u32,
    pixels: &mut [u16],
) -> u32
    // Which pixels, or which fault is the first.
    ensures exact { GivesPixelsOrMemory 16 (meaning_view_at file.now (view_of reduce x y width height))
        pixels.old result pixels.new }
    // Where the file means a picture, the pixels are those of the picture on the window; or
    // BadWindow is answered, where the window has no sample.
    ensures means { (p : Picture) → Means file.now reduce p
        → GivesPixelsOrMemory 16 (picture_of_view (view_of reduce x y width height) p) pixels.old result pixels.new }
{
    let image = decode_window(alloc, file, view(reduce, x, y, width, height));
    give_words(image, pixels)
}

/// The window of a rectangle of the image that a file means at a reduction, counted from its upper
/// left sample and cut with it, pixel by pixel, as signed bytes: for signed samples of at most 8 bits.
/// The faults are those of `jk_code::decode_window`; Misfit: the image has other samples, or the
/// list another length than the cut window.
#[unsafe(no_mangle)]
pub extern "C" fn jk_decode_window_i8(
    alloc: Global,
    file: &[u8],
    reduce: u32,
    x: u32,
    y: u32,
    width: u32,
    height: u32,
    pixels: &mut [i8],
) -> u32
    // Which pixels, or which fault is the first.
    ensures exact { GivesSignedOrMemory 8 (meaning_view_at file.now (view_of reduce x y width height))
        pixels.old result pixels.new }
    // Where the file means a picture, the pixels are those of the picture on the window; or
    // BadWindow is answered, where the window has no sample.
    ensures means { (p : Picture) → Means file.now reduce p
        → GivesSignedOrMemory 8 (picture_of_view (view_of reduce x y width height) p) pixels.old result pixels.new }
{
    let image = decode_window(alloc, file, view(reduce, x, y, width, height));
    give_tinies(image, pixels)
}

/// The window of a rectangle of the image that a file means at a reduction, counted from its upper
/// left sample and cut with it, pixel by pixel, as signed words of two bytes: for signed samples.
/// The faults are those of `jk_code::decode_window`; Misfit: the image has other samples, or the
/// list another length than the cut window.
#[unsafe(no_mangle)]
pub extern "C" fn jk_decode_window_i16(
    alloc: Global,
    file: &[u8],
    reduce: u32,
    x: u32,
    y: u32,
    width: u32,
    height: u32,
    pixels: &mut [i16],
) -> u32
    // Which pixels, or which fault is the first.
    ensures exact { GivesSignedOrMemory 16 (meaning_view_at file.now (view_of reduce x y width height))
        pixels.old result pixels.new }
    // Where the file means a picture, the pixels are those of the picture on the window; or
    // BadWindow is answered, where the window has no sample.
    ensures means { (p : Picture) → Means file.now reduce p
        → GivesSignedOrMemory 16 (picture_of_view (view_of reduce x y width height) p) pixels.old result pixels.new }
{
    let image = decode_window(alloc, file, view(reduce, x, y, width, height));
    give_shorts(image, pixels)
}

/// The file of the window of a view.
fn window_file(alloc: Global, bytes: &[u8], view: View) -> Result<Vec<u8>, Fault>
    ensures refused { (e : FaultValue) → index_at bytes.now ≡ Err e → Answers (λ v. v.items) result (Err e) }
    ensures exact { (i : IndexFields) (is : IsIndexOf bytes.now i) → Answers (λ v. v.items) result (cut_file is view) }
    ensures means { (p : Picture) → MeansLayers bytes.now view.reduce view.layers p
        → IfOk result (λ v. IsWindowOf view p v.items) }
{
    let index = index(alloc, bytes)?;
    window(alloc, bytes, &index, view)
}

/// The file of a window of a file, of a rectangle at a reduction: the stored file, in which the
/// packets that the window doesn't need are empty. The faults are those of `jk_window::index`, then
/// BadWindow; Short: the room is too small, and `made` tells how much is needed.
#[unsafe(no_mangle)]
pub extern "C" fn jk_cut(
    alloc: Global,
    file: &[u8],
    reduce: u32,
    x: u32,
    y: u32,
    width: u32,
    height: u32,
    out: &mut [u8],
    made: &mut usize,
) -> u32
    // A file without an index has no window.
    ensures refused { (e : FaultValue) → index_at file.now ≡ Err e
        → HandsOutOrMemory (Err e) (room out.old made.old) result (room out.new made.new) }
    // Of a file with an index it is the file of the window, or BadWindow.
    ensures exact { (i : IndexFields) (is : IsIndexOf file.now i)
        → HandsOutOrMemory (cut_file is (view_of reduce x y width height))
        (room out.old made.old) result (room out.new made.new) }
    // What the file means, the bytes that are handed out mean on the window.
    ensures means { result ≡ done_code → (p : Picture) → Means file.now reduce p
        → IsWindowOf (view_of reduce x y width height) p (take made.new out.new) }
{
    let file = window_file(alloc, file, view(reduce, x, y, width, height));
    hand_out(file, out, made)
}
