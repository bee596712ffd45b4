//! Writing boxes.

ghost use Rattle.std.specs.Prelude.{◌≡◌, ℕ, true, ◌+◌, ◌≤◌, ◌∷◌, [], ◌<◌, ◌^◌, ◌++◌, length, map, OnOk, IfErr};
ghost use Rattle.byteorder.specs.Endian.{big_bytes};
ghost use Rattle.jk_math.specs.Memory.{IsMemory};
ghost use Rattle.jk_boxes.specs.Boxes.{FitsForm, head_text, boxes_text, box_text, box_size};
ghost use Rattle.jk_boxes.specs.Written.{fits_form};
ghost use Rattle.jk_extras.specs.Extras.{byte_of, grid_text, grid_boxes, grids_box, resolution_boxes, other_box};
ghost use Rattle.jk_extras.specs.Extras.{space_box, profile_box, colour_boxes};

use crate::finding::{UUID, XML};
use crate::grids::{CAPTURE, DISPLAY, Grid};
use crate::header::RESOLUTION;
use crate::judging::uuid_size;
use crate::values::{Colour, Extras, Other, has_grids};
use jk_boxes::{COLOUR, Form};
use jk_math::Fault;

/// Appends four bytes.
fn put_four(out: &mut Vec<u8>, value: u32) -> Result<(), Fault>
    ensures ok { OnOk result (out.new.items ≡ out.old.items ++ big_bytes 4 value) }
    ensures err { IfErr result (λ e. IsMemory e) }
{
    out.extend_from_slice(&value.to_be_bytes())?;
    Ok(())
}

/// Appends the head of a box of `size` bytes.
pub(crate) fn put_head(out: &mut Vec<u8>, form: Form, kind: u32, size: usize) -> Result<(), Fault>
    requires { FitsForm form size }
    ensures ok { OnOk result (out.new.items ≡ out.old.items ++ head_text form kind size) }
    ensures err { IfErr result (λ e. IsMemory e) }
{
    match form {
        Form::Short => {
            put_four(out, size as u32)?;
            put_four(out, kind)?;
        }
        Form::Long => {
            put_four(out, 1)?;
            put_four(out, kind)?;
            out.extend_from_slice(&(size as u64).to_be_bytes())?;
        }
        Form::Open => {
            put_four(out, 0)?;
            put_four(out, kind)?;
        }
    }
    Ok(())
}

/// Whether a box of this length may have this form.
pub(crate) fn fits(form: Form, size: usize) -> bool
    ensures value { result ≡ fits_form form size }
    ensures form { result ≡ true → FitsForm form size }
{
    match form {
        Form::Short => size < 1 << 32,
        Form::Long | Form::Open => true,
    }
}

/// A number's byte in two's complement.
fn byte(number: i8) -> u8
    ensures { result ≡ byte_of number }
{
    if number >= 0 {
        number as u8
    } else {
        255 - (-1 - number) as u8
    }
}

/// Appends the contents of a capture or of a display resolution box.
fn put_grid(out: &mut Vec<u8>, grid: &Grid) -> Result<(), Fault>
    ensures ok { OnOk result (out.new.items ≡ out.old.items ++ grid_text grid.now) }
    ensures err { IfErr result (λ e. IsMemory e) }
{
    out.extend_from_slice(&grid.down.numerator.to_be_bytes())?;
    out.extend_from_slice(&grid.down.denominator.to_be_bytes())?;
    out.extend_from_slice(&grid.across.numerator.to_be_bytes())?;
    out.extend_from_slice(&grid.across.denominator.to_be_bytes())?;
    out.extend_from_slice(&[byte(grid.down.exponent), byte(grid.across.exponent)])?;
    Ok(())
}

/// Appends a capture or a display resolution box, where there is one.
#[tactic(auto, unfolding(jk_boxes::specs::Boxes::box_text))]
fn put_grid_box(out: &mut Vec<u8>, kind: u32, grid: &Option<Grid>) -> Result<(), Fault>
    ensures ok { OnOk result (out.new.items ≡ out.old.items ++ boxes_text (grid_boxes kind grid.now)) }
    ensures err { IfErr result (λ e. IsMemory e) }
{
    match grid {
        Some(grid) => {
            put_head(out, Form::Short, kind, 18)?;
            put_grid(out, grid)
        }
        None => Ok(()),
    }
}

/// How long a capture or a display resolution box is, where there is one.
#[tactic(auto, unfolding(jk_boxes::specs::Boxes::box_text))]
pub(crate) fn grid_size(grid: &Option<Grid>) -> usize
    ensures size { (kind : ℕ) → length (boxes_text (grid_boxes kind grid.now)) ≡ result }
    ensures low { result ≤ 18 }
{
    match grid {
        Some(_) => 18,
        None => 0,
    }
}

/// Appends the resolution box (T.800 I.5.3.7).
#[tactic(auto, unfolding(jk_boxes::specs::Boxes::box_text))]
pub(crate) fn put_grids(
    out: &mut Vec<u8>,
    capture: &Option<Grid>,
    display: &Option<Grid>,
) -> Result<(), Fault>
    ensures ok { OnOk result (out.new.items ≡ out.old.items ++ boxes_text (grids_box capture.now display.now ∷ [])) }
    ensures err { IfErr result (λ e. IsMemory e) }
{
    let size = grid_size(capture) + grid_size(display);
    put_head(out, Form::Short, RESOLUTION, 8 + size)?;
    put_grid_box(out, CAPTURE, capture)?;
    put_grid_box(out, DISPLAY, display)
}

/// Appends the resolution box, where there is a resolution.
pub(crate) fn put_resolution(out: &mut Vec<u8>, extras: &Extras) -> Result<(), Fault>
    ensures ok { OnOk result (out.new.items ≡ out.old.items ++ boxes_text (resolution_boxes extras.now)) }
    ensures err { IfErr result (λ e. IsMemory e) }
{
    if !has_grids(extras) {
        return Ok(());
    }
    put_grids(out, &extras.capture, &extras.display)
}

/// Appends the colour specification box of a colour space (T.800 I.5.3.3).
#[tactic(auto, unfolding(jk_boxes::specs::Boxes::box_text))]
pub(crate) fn put_space(out: &mut Vec<u8>, number: u32) -> Result<(), Fault>
    ensures ok { OnOk result (out.new.items ≡ out.old.items ++ boxes_text (space_box number ∷ [])) }
    ensures err { IfErr result (λ e. IsMemory e) }
{
    put_head(out, Form::Short, COLOUR, 15)?;
    out.extend_from_slice(&[1, 0, 0])?;
    put_four(out, number)
}

/// Appends the colour specification box of a profile (T.800 I.5.3.3).
#[tactic(auto, unfolding(jk_boxes::specs::Boxes::box_text))]
pub(crate) fn put_profile(out: &mut Vec<u8>, profile: &[u8]) -> Result<(), Fault>
    requires { 11 + length profile.now < 2 ^ 32 }
    ensures ok { OnOk result (out.new.items ≡ out.old.items ++ boxes_text (profile_box profile.now ∷ [])) }
    ensures err { IfErr result (λ e. IsMemory e) }
{
    put_head(out, Form::Short, COLOUR, 11 + profile.len())?;
    out.extend_from_slice(&[2, 0, 0])?;
    out.extend_from_slice(profile)?;
    Ok(())
}

/// Appends the colour specification box of a file of so many components, where a colour is given.
#[tactic(auto, unfolding(jk_boxes::specs::Boxes::box_text))]
pub(crate) fn put_colour(out: &mut Vec<u8>, components: u16, colour: &Colour) -> Result<(), Fault>
    requires { length (boxes_text (colour_boxes components colour.now)) < 2 ^ 32 }
    ensures ok { OnOk result (out.new.items ≡ out.old.items ++ boxes_text (colour_boxes components colour.now)) }
    ensures err { IfErr result (λ e. IsMemory e) }
{
    match colour {
        Colour::AsItIs => Ok(()),
        Colour::Enumerated => put_space(out, if components == 1 { 17 } else { 16 }),
        Colour::Profile(profile) => put_profile(out, profile),
    }
}

/// Appends a box of XML or under a UUID (T.800 I.7).
#[tactic(auto, unfolding(jk_boxes::specs::Boxes::box_text))]
fn put_other(out: &mut Vec<u8>, other: &Other) -> Result<(), Fault>
    requires { box_size (other_box other.now) < 2 ^ 32 }
    ensures ok { OnOk result (out.new.items ≡ out.old.items ++ box_text (other_box other.now)) }
    ensures err { IfErr result (λ e. IsMemory e) }
{
    match other {
        Other::Xml(contents) => {
            put_head(out, Form::Short, XML, 8 + contents.len())?;
            out.extend_from_slice(contents)?;
            Ok(())
        }
        Other::Uuid(id, contents) => {
            put_head(out, Form::Short, UUID, uuid_size(id, contents))?;
            out.extend_from_slice(id)?;
            out.extend_from_slice(contents)?;
            Ok(())
        }
    }
}

/// Appends boxes of XML and under UUIDs.
pub(crate) fn put_others(out: &mut Vec<u8>, others: &[Other]) -> Result<(), Fault>
    requires { length (boxes_text (map other_box others.now)) < 2 ^ 32 }
    ensures ok { OnOk result (out.new.items ≡ out.old.items ++ boxes_text (map other_box others.now)) }
    ensures err { IfErr result (λ e. IsMemory e) }
{
    for other in others {
        put_other(out, other)?;
    }
    Ok(())
}
