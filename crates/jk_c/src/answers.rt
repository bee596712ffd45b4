//! What calls hand to their caller.

ghost use Rattle.std.specs.Prelude.{◌≡◌, Ok};
ghost use Rattle.jk_c.specs.Answers.{GivesPixels, HandsOut, bytes_of, room};
ghost use Rattle.jk_c.specs.Signed.{GivesSigned};

use crate::codes::{DONE, MISFIT, SHORT, code};
use crate::samples::{put_image_bytes, put_image_words};
use crate::signed::{put_image_shorts, put_image_tinies};
use jk_math::{Fault, Image};

/// Gives the pixels of an image as bytes, or tells the fault that stands in its place.
pub(crate) fn give_bytes(image: Result<Image, Fault>, pixels: &mut [u8]) -> u32
    ensures { GivesPixels 8 image pixels.old result pixels.new }
{
    match image {
        Ok(image) => {
            if put_image_bytes(&image, pixels) {
                DONE
            } else {
                MISFIT
            }
        }
        Err(fault) => code(fault),
    }
}

/// Gives the pixels of an image as words of two bytes, or tells the fault that stands in its place.
pub(crate) fn give_words(image: Result<Image, Fault>, pixels: &mut [u16]) -> u32
    ensures { GivesPixels 16 image pixels.old result pixels.new }
{
    match image {
        Ok(image) => {
            if put_image_words(&image, pixels) {
                DONE
            } else {
                MISFIT
            }
        }
        Err(fault) => code(fault),
    }
}

/// Gives the pixels of an image as signed bytes, or tells the fault that stands in its place.
pub(crate) fn give_tinies(image: Result<Image, Fault>, pixels: &mut [i8]) -> u32
    ensures { GivesSigned 8 image pixels.old result pixels.new }
{
    match image {
        Ok(image) => {
            if put_image_tinies(&image, pixels) {
                DONE
            } else {
                MISFIT
            }
        }
        Err(fault) => code(fault),
    }
}

/// Gives the pixels of an image as signed words of two bytes, or tells the fault that stands in its
/// place.
pub(crate) fn give_shorts(image: Result<Image, Fault>, pixels: &mut [i16]) -> u32
    ensures { GivesSigned 16 image pixels.old result pixels.new }
{
    match image {
        Ok(image) => {
            if put_image_shorts(&image, pixels) {
                DONE
            } else {
                MISFIT
            }
        }
        Err(fault) => code(fault),
    }
}

/// Copies bytes into the caller's room, where it is large enough, and tells how many they are.
pub(crate) fn copy_out(bytes: &[u8], out: &mut [u8], made: &mut usize) -> u32
    ensures { HandsOut (Ok bytes.now) (room out.old made.old) result (room out.new made.new) }
{
    *made = bytes.len();
    if out.len() < bytes.len() {
        return SHORT;
    }
    out[..bytes.len()].copy_from_slice(bytes);
    DONE
}

/// Hands out the bytes of a file, or tells the fault that stands in its place.
pub(crate) fn hand_out(file: Result<Vec<u8>, Fault>, out: &mut [u8], made: &mut usize) -> u32
    ensures { HandsOut (bytes_of file) (room out.old made.old) result (room out.new made.new) }
{
    match file {
        Ok(bytes) => copy_out(&bytes, out, made),
        Err(fault) => code(fault),
    }
}
