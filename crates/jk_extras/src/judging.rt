//! Whether a file may be given what it is to keep.

ghost use Rattle.std.specs.Prelude.{◌≡◌, ℕ, ◌+◌, ◌≤◌, ◌<◌, ◌^◌, not, nat_le, length, map};
ghost use Rattle.jk_math.specs.Answer.{refuse};
ghost use Rattle.jk_math.specs.declared.fault.Fault.TheVariants.{BadParameters};
ghost use Rattle.jk_boxes.specs.Boxes.{boxes_text, box_size};
ghost use Rattle.jk_extras.specs.Extras.{is_colour, is_grid, is_extras, are_few, colour_boxes, resolution_boxes};
ghost use Rattle.jk_extras.specs.Extras.{other_box};

use crate::grids::{Grid, has_zero};
use crate::profiles::is_restricted;
use crate::putting::grid_size;
use crate::values::{Colour, Extras, Other, has_grids};
use jk_math::Fault;

/// How many bytes of boxes a file is given at most.
const LARGEST: usize = 1 << 24;

/// How many boxes a file is given at most.
const MOST: usize = 1024;

/// Whether a file of so many components may have a colour.
fn is_colour(colour: &Colour, components: u16) -> bool
    ensures { result ≡ is_colour components colour.now }
{
    match colour {
        Colour::AsItIs => true,
        Colour::Enumerated => components == 1 || components == 3,
        Colour::Profile(profile) => is_restricted(profile, components),
    }
}

/// Whether no numerator and no denominator is 0.
fn is_grid(grid: &Option<Grid>) -> bool
    ensures { result ≡ is_grid grid.now }
{
    match grid {
        Some(grid) => !has_zero(grid),
        None => true,
    }
}

/// How many colour specification boxes there are, and how long they are.
fn colour_size(colour: &Colour) -> (usize, usize)
    ensures count { (n : ℕ) → result.0 ≡ length (colour_boxes n colour.now) }
    ensures size { (n : ℕ) → result.1 ≡ length (boxes_text (colour_boxes n colour.now)) }
    ensures few { result.0 ≤ 1 }
    ensures low { result.1 < 2 ^ 63 + 11 }
{
    match colour {
        Colour::AsItIs => (0, 0),
        Colour::Enumerated => (1, 15),
        Colour::Profile(profile) => (1, 11 + profile.len()),
    }
}

/// How many resolution boxes there are, and how long they are.
fn resolution_size(extras: &Extras) -> (usize, usize)
    ensures count { result.0 ≡ length (resolution_boxes extras.now) }
    ensures size { result.1 ≡ length (boxes_text (resolution_boxes extras.now)) }
    ensures few { result.0 ≤ 1 }
    ensures low { result.1 ≤ 44 }
{
    if !has_grids(extras) {
        return (0, 0);
    }
    (
        1,
        8 + (grid_size(&extras.capture) + grid_size(&extras.display)),
    )
}

/// How long a box under a UUID is.
pub(crate) fn uuid_size(id: &[u8], contents: &[u8]) -> usize
    requires { length id.now ≤ 16 }
    ensures { result ≡ 8 + (length id.now + length contents.now) }
{
    8 + (id.len() + contents.len())
}

/// How long a box is.
fn other_size(other: &Other) -> usize
    ensures { result ≡ box_size (other_box other.now) }
{
    match other {
        Other::Xml(contents) => 8 + contents.len(),
        Other::Uuid(id, contents) => uuid_size(id, contents),
    }
}

/// How long boxes are.
pub(crate) fn others_size(others: &[Other]) -> usize
    requires { length (boxes_text (map other_box others.now)) < 2 ^ 32 }
    ensures { result ≡ length (boxes_text (map other_box others.now)) }
{
    let mut size = 0;
    for other in others {
        size += other_size(other);
    }
    size
}

/// Whether boxes take so many bytes at most.
fn fit(others: &[Other], room: usize) -> bool
    ensures { result ≡ nat_le (length (boxes_text (map other_box others.now))) room }
{
    let mut left = room;
    for other in others {
        let size = other_size(other);
        if size > left {
            return false;
        }
        left -= size;
    }
    true
}

/// Whether there are 1,024 boxes of 2^24 bytes at most.
fn are_few(extras: &Extras) -> bool
    ensures { (n : ℕ) → result ≡ are_few n extras.now }
{
    let colour = colour_size(&extras.colour);
    let resolution = resolution_size(extras);
    if colour.1 + resolution.1 > LARGEST {
        return false;
    }
    colour.0 + resolution.0 + extras.others.len() <= MOST
        && fit(&extras.others, LARGEST - colour.1 - resolution.1)
}

/// Judges what a file of so many components is to keep.
///
/// BadParameters: a profile that isn't restricted (T.800 I.5.3.3) or has other components, an
/// enumerated colour space of other than 1 or 3 components, a numerator or a denominator of 0, more
/// than 1,024 boxes or more than 2^24 bytes of them.
#[tactic(auto, unfolding(crate::specs::Extras::is_extras))]
pub fn judge(extras: &Extras, components: u16) -> Result<(), Fault>
    ensures { result ≡ refuse (not (is_extras components extras.now)) BadParameters }
{
    if !is_colour(&extras.colour, components) {
        return Err(Fault::BadParameters);
    }
    if !is_grid(&extras.capture) || !is_grid(&extras.display) {
        return Err(Fault::BadParameters);
    }
    if !are_few(extras) {
        return Err(Fault::BadParameters);
    }
    Ok(())
}
