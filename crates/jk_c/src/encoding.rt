//! Images encoded.

ghost use Rattle.std.specs.Prelude.{◌≡◌, ◌*◌, length, map, take};
ghost use Rattle.jk_params.specs.PictureFrames.{IsPictureFrame};
ghost use Rattle.jk_code.specs.Meaning.{Means};
ghost use Rattle.jk_c.specs.Answers.{room};
ghost use Rattle.jk_c.specs.Codes.{done_code, parameters_code, misfit_code};
ghost use Rattle.jk_c.specs.Codings.{IsKnownCoding, AreParameters};
ghost use Rattle.jk_c.specs.Encodings.{IsEncodedFile, IsEncoded, IsAsked, HandsOutFile, IsRefused};
ghost use Rattle.jk_c.specs.Frames.{IsCountable, IsKnownFrame, Fills, framed, picture_from};
ghost use Rattle.jk_c.specs.Pictured.{pictured};
ghost use Rattle.jk_c.specs.declared.coding.CallerCoding.{CallerCoding};
ghost use Rattle.jk_c.specs.Signed.{IsKnownSignedFrame, IsAskedSigned, signed_picture_from};

use crate::answers::hand_out;
use crate::codes::{BAD_PARAMETERS, MISFIT};
use crate::coding::{CallerCoding, parameters};
use crate::frames::{CallerFrame, fills, is_known, is_known_signed, picture_frame};
use crate::pixel_rows::Sample;
use crate::pixel_supply::PixelSupply;
use jk_code::encode_rows_to;
use jk_math::Fault;
use jk_params::{Parameters, PictureFrame};
use std::alloc::Global;

/// How many rows are encoded at a time.
const ROWS: u32 = 64;

/// The file of an image of all these pixels, whose rows are given one stripe below the other.
///
/// BadParameters: the image is outside the profile.
fn file_by_rows<T: Sample>(
    alloc: Global,
    frame: &PictureFrame,
    pixels: &[T],
    parameters: &Parameters,
) -> Result<Vec<u8>, Fault>
    requires known { IsPictureFrame frame.now }
    requires whole { length pixels.now ≡ frame.now.width * frame.now.height * frame.now.components }
    ensures { (k : CallerCoding) → AreParameters k parameters.now → IsKnownCoding k
        → IsEncodedFile (pictured frame.now (map T.value pixels.now)) k result }
{
    let mut rows = PixelSupply {
        frame: *frame,
        pixels,
        given: 0,
    };
    let mut file = Vec::new(alloc);
    encode_rows_to(alloc, frame, parameters, ROWS, &mut rows, &mut file)?;
    Ok(file)
}

/// The file of an image of all these pixels.
///
/// BadParameters: the image or the coding is outside the profile.
fn file_of<T: Sample>(
    alloc: Global,
    frame: &CallerFrame,
    pixels: &[T],
    coding: &CallerCoding,
) -> Result<Vec<u8>, Fault>
    requires countable { IsCountable frame.now }
    requires fills { Fills frame.now (length pixels.now) }
    ensures { IsEncodedFile (pictured (framed frame.now T.signed) (map T.value pixels.now)) coding.now result }
{
    let (_, signed) = T::room();
    let frame = picture_frame(frame, signed)?;
    let parameters = parameters(alloc, coding)?;
    file_by_rows(alloc, &frame, pixels, &parameters)
}

/// Hands out the file of an image of all these pixels, or tells the fault that stands in its place.
fn encode_pixels<T: Sample>(
    alloc: Global,
    frame: &CallerFrame,
    pixels: &[T],
    coding: &CallerCoding,
    out: &mut [u8],
    made: &mut usize,
) -> u32
    requires countable { IsCountable frame.now }
    requires fills { Fills frame.now (length pixels.now) }
    ensures { IsEncoded (pictured (framed frame.now T.signed) (map T.value pixels.now)) coding.now
        (room out.old made.old) result (room out.new made.new) }
{
    hand_out(file_of(alloc, frame, pixels, coding), out, made)
}

/// The file of an image of at most 8 bits, whose samples lie pixel by pixel in bytes, as
/// `jk_code::encode` makes it. Short: the room is too small, and `made` tells how much is needed.
///
/// BadParameters: what the frame or the coding says is outside the profile, or a sample passes the
/// depth; Misfit: the list hasn't a sample for each component of each pixel; Limit, as of `encode`.
#[unsafe(no_mangle)]
pub extern "C" fn jk_encode_u8(
    alloc: Global,
    frame: &CallerFrame,
    pixels: &[u8],
    coding: &CallerCoding,
    out: &mut [u8],
    made: &mut usize,
) -> u32
    // An image outside the profile is refused.
    ensures unknown { (IsKnownFrame frame.now → ⊥) → result ≡ parameters_code }
    ensures misfit { IsKnownFrame frame.now → (Fills frame.now (length pixels.now) → ⊥) → result ≡ misfit_code }
    ensures refused { (IsAsked frame.now pixels.now coding.now → ⊥)
        → IsRefused (room out.old made.old) result (room out.new made.new) }
    // The bytes of the image's file are handed out.
    ensures exact { IsAsked frame.now pixels.now coding.now
        → HandsOutFile (picture_from frame.now pixels.now) coding.now
        (room out.old made.old) result (room out.new made.new) }
    // They mean exactly the image.
    ensures means { result ≡ done_code → Means (take made.new out.new) 0 (picture_from frame.now pixels.now) }
{
    if !is_known(frame) {
        return BAD_PARAMETERS;
    }
    if !fills(frame, pixels.len()) {
        return MISFIT;
    }
    encode_pixels(alloc, frame, pixels, coding, out, made)
}

/// The file of an image whose samples lie pixel by pixel in words of two bytes, as
/// `jk_code::encode` makes it. Short: the room is too small, and `made` tells how much is needed.
///
/// BadParameters: what the frame or the coding says is outside the profile, or a sample passes the
/// depth; Misfit: the list hasn't a sample for each component of each pixel; Limit, as of `encode`.
#[unsafe(no_mangle)]
pub extern "C" fn jk_encode_u16(
    alloc: Global,
    frame: &CallerFrame,
    pixels: &[u16],
    coding: &CallerCoding,
    out: &mut [u8],
    made: &mut usize,
) -> u32
    // An image outside the profile is refused.
    ensures unknown { (IsKnownFrame frame.now → ⊥) → result ≡ parameters_code }
    ensures misfit { IsKnownFrame frame.now → (Fills frame.now (length pixels.now) → ⊥) → result ≡ misfit_code }
    ensures refused { (IsAsked frame.now pixels.now coding.now → ⊥)
        → IsRefused (room out.old made.old) result (room out.new made.new) }
    // The bytes of the image's file are handed out.
    ensures exact { IsAsked frame.now pixels.now coding.now
        → HandsOutFile (picture_from frame.now pixels.now) coding.now
        (room out.old made.old) result (room out.new made.new) }
    // They mean exactly the image.
    ensures means { result ≡ done_code → Means (take made.new out.new) 0 (picture_from frame.now pixels.now) }
{
    if !is_known(frame) {
        return BAD_PARAMETERS;
    }
    if !fills(frame, pixels.len()) {
        return MISFIT;
    }
    encode_pixels(alloc, frame, pixels, coding, out, made)
}

/// The file of an image of signed samples of at most 8 bits, which lie pixel by pixel in bytes, as
/// `jk_code::encode` makes it. Short: the room is too small, and `made` tells how much is needed.
///
/// BadParameters: what the frame or the coding says is outside the profile, as a JP2 file is for
/// signed samples, or a sample passes the depth; Misfit: the list hasn't a sample for each component
/// of each pixel; Limit, as of `encode`.
#[unsafe(no_mangle)]
pub extern "C" fn jk_encode_i8(
    alloc: Global,
    frame: &CallerFrame,
    pixels: &[i8],
    coding: &CallerCoding,
    out: &mut [u8],
    made: &mut usize,
) -> u32
    // An image outside the profile is refused.
    ensures unknown { (IsKnownSignedFrame frame.now → ⊥) → result ≡ parameters_code }
    ensures misfit { IsKnownSignedFrame frame.now → (Fills frame.now (length pixels.now) → ⊥) → result ≡ misfit_code }
    ensures refused { (IsAskedSigned frame.now pixels.now coding.now → ⊥)
        → IsRefused (room out.old made.old) result (room out.new made.new) }
    // The bytes of the image's file are handed out.
    ensures exact { IsAskedSigned frame.now pixels.now coding.now
        → HandsOutFile (signed_picture_from frame.now pixels.now) coding.now
        (room out.old made.old) result (room out.new made.new) }
    // They mean exactly the image.
    ensures means { result ≡ done_code
        → Means (take made.new out.new) 0 (signed_picture_from frame.now pixels.now) }
{
    if !is_known_signed(frame) {
        return BAD_PARAMETERS;
    }
    if !fills(frame, pixels.len()) {
        return MISFIT;
    }
    encode_pixels(alloc, frame, pixels, coding, out, made)
}

/// The file of an image of signed samples, which lie pixel by pixel in words of two bytes, as
/// `jk_code::encode` makes it. Short: the room is too small, and `made` tells how much is needed.
///
/// BadParameters: what the frame or the coding says is outside the profile, as a JP2 file is for
/// signed samples, or a sample passes the depth; Misfit: the list hasn't a sample for each component
/// of each pixel; Limit, as of `encode`.
#[unsafe(no_mangle)]
pub extern "C" fn jk_encode_i16(
    alloc: Global,
    frame: &CallerFrame,
    pixels: &[i16],
    coding: &CallerCoding,
    out: &mut [u8],
    made: &mut usize,
) -> u32
    // An image outside the profile is refused.
    ensures unknown { (IsKnownSignedFrame frame.now → ⊥) → result ≡ parameters_code }
    ensures misfit { IsKnownSignedFrame frame.now → (Fills frame.now (length pixels.now) → ⊥) → result ≡ misfit_code }
    ensures refused { (IsAskedSigned frame.now pixels.now coding.now → ⊥)
        → IsRefused (room out.old made.old) result (room out.new made.new) }
    // The bytes of the image's file are handed out.
    ensures exact { IsAskedSigned frame.now pixels.now coding.now
        → HandsOutFile (signed_picture_from frame.now pixels.now) coding.now
        (room out.old made.old) result (room out.new made.new) }
    // They mean exactly the image.
    ensures means { result ≡ done_code
        → Means (take made.new out.new) 0 (signed_picture_from frame.now pixels.now) }
{
    if !is_known_signed(frame) {
        return BAD_PARAMETERS;
    }
    if !fills(frame, pixels.len()) {
        return MISFIT;
    }
    encode_pixels(alloc, frame, pixels, coding, out, made)
}
