//! Writing boxes.

ghost use Rattle.std.specs.Prelude.{◌≡◌, ◌+◌, ◌-◌, ◌≤◌, ◌<◌, ◌^◌, ◌++◌, ◌∷◌, [], ◌==◌, true, false, not, Bool, length};
ghost use Rattle.std.specs.Prelude.{take, drop, nat_eq, OnOk, IfOk, IfErr, Ok, List, ℕ};
ghost use Rattle.std.specs.List.{starts_with};
ghost use Rattle.jk_math.specs.Memory.{IsMemory};
ghost use Rattle.byteorder.specs.Endian.{big_bytes};
ghost use Rattle.jk_math.specs.Answer.{Answers};
ghost use Rattle.jk_boxes.specs.Boxes.{HoldsCodestream, IsJp2, soc, FitsForm, box_text, boxes_text, head_size};
ghost use Rattle.jk_boxes.specs.Boxes.{head_text};
ghost use Rattle.jk_boxes.specs.Boxes.{signature};
ghost use Rattle.jk_boxes.specs.Reading.{boxes_at};
ghost use Rattle.jk_boxes.specs.Written.{file_type_box, header_box, image_header_of, colour_box, colour_space};
ghost use Rattle.jk_boxes.specs.Written.{code_box, code_head, is_wrapped, wrapped, fits_form, recoded};
ghost use Rattle.jk_boxes.specs.Replacing.{replaced, replaced_at};

use crate::boxes::{self, Form};
use crate::place::{Boxed, CodePlace, code_place};
use jk_math::{Fault, Image};
use std::alloc::Global;

/// The signature box and the file type box.
static FRONT: [u8; 32] = [
    0, 0, 0, 12, 0x6A, 0x50, 0x20, 0x20, 0x0D, 0x0A, 0x87, 0x0A, 0, 0, 0, 20, 0x66, 0x74, 0x79,
    0x70, 0x6A, 0x70, 0x32, 0x20, 0, 0, 0, 0, 0x6A, 0x70, 0x32, 0x20,
];

/// Appends four bytes.
fn put_four(out: &mut Vec<u8>, value: u32) -> Result<(), Fault>
    ensures ok { OnOk result (out.new.items ≡ out.old.items ++ big_bytes 4 value) }
    ensures err { IfErr result (λ e. IsMemory e) }
{
    out.extend_from_slice(&value.to_be_bytes())?;
    Ok(())
}

/// Appends the head of a box of `size` bytes.
pub(crate) fn put_head(out: &mut Vec<u8>, form: Form, kind: u32, size: usize) -> Result<(), Fault>
    requires { FitsForm form size }
    ensures ok { OnOk result (out.new.items ≡ out.old.items ++ head_text form kind size) }
    ensures err { IfErr result (λ e. IsMemory e) }
{
    match form {
        Form::Short => {
            put_four(out, size as u32)?;
            put_four(out, kind)?;
        }
        Form::Long => {
            put_four(out, 1)?;
            put_four(out, kind)?;
            out.extend_from_slice(&(size as u64).to_be_bytes())?;
        }
        Form::Open => {
            put_four(out, 0)?;
            put_four(out, kind)?;
        }
    }
    Ok(())
}

/// Appends the contents of the image header box (T.800 I.5.3.1).
fn put_image_header(
    out: &mut Vec<u8>,
    width: u32,
    height: u32,
    components: u16,
    depth: u8,
) -> Result<(), Fault>
    requires { 1 ≤ depth }
    ensures ok { OnOk result (out.new.items ≡ out.old.items ++ image_header_of width height components depth) }
    ensures err { IfErr result (λ e. IsMemory e) }
{
    put_four(out, height)?;
    put_four(out, width)?;
    out.extend_from_slice(&components.to_be_bytes())?;
    out.extend_from_slice(&[depth - 1, 7, 0, 0])?;
    Ok(())
}

/// Appends the colour specification box (T.800 I.5.3.3).
#[tactic(auto, unfolding(crate::specs::Boxes::box_text))]
fn put_colour(out: &mut Vec<u8>, components: u16) -> Result<(), Fault>
    ensures ok { OnOk result (out.new.items ≡ out.old.items ++ box_text (colour_box components)) }
    ensures err { IfErr result (λ e. IsMemory e) }
{
    put_head(out, Form::Short, boxes::COLOUR, 15)?;
    out.extend_from_slice(&[1, 0, 0])?;
    put_four(out, if components == 1 { 17 } else { 16 })
}

/// Appends the JP2 header box (T.800 I.5.3).
#[tactic(auto, unfolding(crate::specs::Boxes::box_text))]
fn put_header(
    out: &mut Vec<u8>,
    width: u32,
    height: u32,
    components: u16,
    depth: u8,
) -> Result<(), Fault>
    requires { 1 ≤ depth }
    ensures ok { OnOk result (out.new.items ≡ out.old.items ++ box_text (header_box width height components depth)) }
    ensures err { IfErr result (λ e. IsMemory e) }
{
    put_head(out, Form::Short, boxes::HEADER, 45)?;
    put_head(out, Form::Short, boxes::IMAGE_HEADER, 22)?;
    put_image_header(out, width, height, components, depth)?;
    put_colour(out, components)
}

/// Appends the head of the codestream box, of a codestream of `size` bytes.
fn put_code_head(out: &mut Vec<u8>, size: u64) -> Result<(), Fault>
    requires { size + 16 < 2 ^ 64 }
    ensures ok { OnOk result (out.new.items ≡ out.old.items ++ code_head size) }
    ensures err { IfErr result (λ e. IsMemory e) }
{
    if 8 + size < 1 << 32 {
        put_head(out, Form::Short, boxes::CODE, (8 + size) as usize)?;
    } else {
        put_head(out, Form::Long, boxes::CODE, (16 + size) as usize)?;
    }
    Ok(())
}

/// The text of a JP2 file up to its codestream of `size` bytes.
pub fn front(
    alloc: Global,
    width: u32,
    height: u32,
    components: u16,
    depth: u8,
    size: u64,
) -> Result<Vec<u8>, Fault>
    requires depth { 1 ≤ depth }
    requires size { size + 16 < 2 ^ 64 }
    ensures ok { IfOk result (λ v. (codestream : List ℕ) → length codestream ≡ size
        → v.items ++ codestream
        ≡ signature ++ boxes_text
        (file_type_box ∷ header_box width height components depth ∷ code_box codestream ∷ [])) }
    ensures err { IfErr result (λ e. IsMemory e) }
{
    let mut out = Vec::with_capacity(alloc, 93)?;
    out.extend_from_slice(&FRONT)?;
    put_header(&mut out, width, height, components, depth)?;
    put_code_head(&mut out, size)?;
    Ok(out)
}

/// Whether the image has one or three unsigned components.
fn is_wrapped(image: &Image) -> bool
    ensures { result ≡ is_wrapped image.now }
{
    let components = image.planes().len();
    !image.signed() && (components == 1 || components == 3)
}

/// What stands before the codestream in the JP2 file of an image (T.800 Annex I): the boxes before
/// it, and the head of its own. The codestream has `size` bytes.
///
/// Unsupported: the image hasn't 1 or 3 unsigned components.
#[tactic(auto, unfolding(crate::specs::Written::wrapped))]
pub fn box_front(alloc: Global, image: &Image, size: u64) -> Result<Vec<u8>, Fault>
    requires { size + 16 < 2 ^ 64 }
    // With the codestream behind it, it is the file.
    ensures { (codestream : List ℕ) → length codestream ≡ size
        → Answers (λ v. v.items ++ codestream) result (wrapped image.now codestream) }
{
    let width = image.width();
    if !is_wrapped(image) {
        return Err(Fault::Unsupported);
    }
    let components = image.planes().len() as u16;
    let front = front(
        alloc,
        width,
        image.height(),
        components,
        image.depth(),
        size,
    )?;
    Ok(front)
}

fn wrapping(alloc: Global, image: &Image, codestream: &[u8]) -> Result<Vec<u8>, Fault>
    ensures { Answers (λ v. v.items) result (wrapped image.now codestream.now) }
{
    let mut file = box_front(alloc, image, codestream.len() as u64)?;
    file.extend_from_slice(codestream)?;
    Ok(file)
}

/// A JP2 file of an image's codestream (T.800 Annex I).
///
/// Unsupported: the image hasn't 1 or 3 unsigned components.
pub fn wrap(alloc: Global, image: &Image, codestream: &[u8]) -> Result<Vec<u8>, Fault>
    ensures exact { Answers (λ v. v.items) result (wrapped image.now codestream.now) }
    // The file holds the codestream.
    ensures holds { IfOk result (λ v. HoldsCodestream v.items codestream.now) }
{
    wrapping(alloc, image, codestream)
}

/// Whether a box of this length may have this form.
pub(crate) fn fits(form: Form, size: usize) -> bool
    ensures value { result ≡ fits_form form size }
    ensures form { result ≡ true → FitsForm form size }
{
    match form {
        Form::Short => size < 1 << 32,
        Form::Long | Form::Open => true,
    }
}

/// A file whose codestream box has other contents.
#[tactic(auto, unfolding(crate::specs::Replacing::replaced_at))]
fn replace_at(
    alloc: Global,
    file: &[u8],
    place: &CodePlace,
    codestream: &[u8],
) -> Result<Vec<u8>, Fault>
    requires before { head_size place.now.form ≤ place.now.start }
    requires start { place.now.start ≤ length file.now }
    requires end { place.now.end ≤ length file.now }
    ensures { Answers (λ v. v.items) result (replaced_at place.now file.now codestream.now) }
{
    let size = place.form.head_size() + codestream.len();
    if !fits(place.form, size) {
        return Err(Fault::Limit);
    }
    let before = &file[..place.start - place.form.head_size()];
    let after = &file[place.end..];
    let mut out = Vec::with_capacity(
        alloc,
        before
            .len()
            .saturating_add(size)
            .saturating_add(after.len()),
    )?;
    out.extend_from_slice(before)?;
    put_head(&mut out, place.form, boxes::CODE, size)?;
    out.extend_from_slice(codestream)?;
    out.extend_from_slice(after)?;
    Ok(out)
}

#[tactic(auto, unfolding(crate::specs::Replacing::replaced))]
fn replacing(alloc: Global, file: &[u8], jp2: bool, codestream: &[u8]) -> Result<Vec<u8>, Fault>
    requires { jp2 ≡ not (starts_with nat_eq file.now soc) }
    ensures { Answers (λ v. v.items) result (replaced file.now codestream.now) }
{
    if !jp2 {
        return Ok(Vec::from_slice(alloc, codestream)?);
    }
    let place = code_place(file)?;
    replace_at(alloc, file, &place, codestream)
}

/// The file with another codestream in the place of its own. The box keeps the form of its length:
/// four bytes, eight bytes, or open up to the end of the file. A bare codestream gives way to the
/// new one.
///
/// Limit: the new length doesn't fit the form.
pub fn replace_codestream(
    alloc: Global,
    file: &[u8],
    boxed: &Boxed,
    codestream: &[u8],
) -> Result<Vec<u8>, Fault>
    requires { boxes_at file.now ≡ Ok boxed.now }
    ensures exact { Answers (λ v. v.items) result (replaced file.now codestream.now) }
    // The contents and the length of the codestream box change, and nothing else.
    ensures changed { (old : List ℕ) → (j : IsJp2 file.now old)
        → Answers (λ v. v.items) result (recoded j codestream.now) }
    // The new file holds the new codestream.
    ensures opens { IfOk result (λ v. boxed.now.jp2 ≡ true → IsJp2 v.items codestream.now) }
    ensures bare { boxed.now.jp2 ≡ false → Answers (λ v. v.items) result (Ok codestream.now) }
{
    replacing(alloc, file, boxed.jp2, codestream)
}
