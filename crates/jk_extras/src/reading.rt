//! What a file is to keep, as boxes one after another.

ghost use Rattle.std.specs.Prelude.{◌≡◌, ◌≤◌, length, IfOk};
ghost use Rattle.jk_math.specs.Answer.{Answers};
ghost use Rattle.jk_boxes.specs.Boxes.{head_size};
ghost use Rattle.jk_extras.specs.Boxed.{plain, plain_colour, plain_other, colour_read, other_read, read_step};
ghost use Rattle.jk_extras.specs.Boxed.{extras_read};
ghost use Rattle.jk_extras.specs.Given.{FitsExtras};

use crate::finding::{UUID, XML};
use crate::grids::read_grids;
use crate::header::RESOLUTION;
use crate::values::{Colour, Extras, Other, has_colour, has_grids};
use byteorder::{BigEndian, ByteOrder};
use jk_boxes::{BoxHead, COLOUR, read_box};
use jk_math::Fault;
use std::alloc::Global;

/// The contents of a colour specification box.
#[tactic(auto, unfolding(crate::specs::Boxed::colour_read))]
fn read_colour(alloc: Global, contents: &[u8]) -> Result<Colour, Fault>
    ensures { Answers plain_colour result (colour_read contents.now) }
{
    if contents.len() < 3 {
        return Err(Fault::BadBox);
    }
    if contents[0] == 1 {
        if contents.len() != 7 {
            return Err(Fault::BadBox);
        }
        let space = BigEndian::read_u32(&contents[3..]);
        if space == 16 || space == 17 {
            return Ok(Colour::Enumerated);
        }
        return Err(Fault::BadParameters);
    }
    if contents[0] != 2 {
        return Err(Fault::BadParameters);
    }
    if contents.len() == 3 {
        return Err(Fault::BadBox);
    }
    let profile = Vec::from_slice(alloc, &contents[3..])?;
    Ok(Colour::Profile(profile))
}

/// The contents of a box of XML or under a UUID.
#[tactic(auto, unfolding(crate::specs::Boxed::other_read))]
fn read_other(alloc: Global, kind: u32, contents: &[u8]) -> Result<Other, Fault>
    ensures { Answers plain_other result (other_read kind contents.now) }
{
    if kind == XML {
        let text = Vec::from_slice(alloc, contents)?;
        return Ok(Other::Xml(text));
    }
    if kind != UUID || contents.len() < 16 {
        return Err(Fault::BadBox);
    }
    let mut id = [0; 16];
    id.copy_from_slice(&contents[..16]);
    let rest = Vec::from_slice(alloc, &contents[16..])?;
    Ok(Other::Uuid(id, rest))
}

/// Adds what a box says, which begins the rest.
#[tactic(auto, unfolding(crate::specs::Boxed::read_step))]
fn add(alloc: Global, extras: &mut Extras, head: &BoxHead, rest: &[u8]) -> Result<(), Fault>
    requires head { head_size head.now.form ≤ head.now.size }
    requires whole { head.now.size ≤ length rest.now }
    ensures { Answers (λ _. plain extras.new) result (read_step (plain extras.old) head.now rest.now) }
{
    let contents = head.contents(rest);
    if head.kind == COLOUR {
        if has_colour(&extras.colour) {
            return Err(Fault::BadBox);
        }
        extras.colour = read_colour(alloc, contents)?;
        return Ok(());
    }
    if head.kind == RESOLUTION {
        if has_grids(extras) {
            return Err(Fault::BadBox);
        }
        let grids = read_grids(contents)?;
        extras.capture = grids.capture;
        extras.display = grids.display;
        return Ok(());
    }
    let other = read_other(alloc, head.kind, contents)?;
    extras.others.push(other)?;
    Ok(())
}

fn read_all(alloc: Global, boxes: &[u8]) -> Result<Extras, Fault>
    ensures { Answers plain result (extras_read boxes.now) }
{
    let mut extras = Extras::none(alloc);
    let mut at = 0;
    while at < boxes.len() {
        let rest = &boxes[at..];
        let head = read_box(rest, true)?;
        add(alloc, &mut extras, &head, rest)?;
        at += head.size;
    }
    Ok(extras)
}

/// What a file is to keep, from boxes one after another: one colour specification box (T.800
/// I.5.3.3) and one resolution box (I.5.3.7) at most, and boxes of XML and under UUIDs (I.7). It
/// isn't judged (`judge`).
///
/// The first of these from left to right: Truncated and BadBox, a box, and one within the
/// resolution box; BadBox, a second box of these, one of another kind, a colour specification of
/// fewer than 3 bytes, an enumerated one of other than 7, a profile of none, a resolution of other
/// than 10, a UUID of fewer than 16; BadParameters, a number other than those of sRGB and
/// greyscale, and a method other than 1 and 2; BadValue, a numerator or a denominator of 0.
pub fn read_extras(alloc: Global, boxes: &[u8]) -> Result<Extras, Fault>
    ensures exact { Answers plain result (extras_read boxes.now) }
    // Its numbers have the widths of their fields.
    ensures fits { IfOk result FitsExtras }
{
    read_all(alloc, boxes)
}
