//! What the JP2 header box tells (T.800 I.5.3).

ghost use Rattle.std.specs.Prelude.{◌≡◌, ◌+◌, ◌≤◌, length, drop, take, slice_range};
ghost use Rattle.jk_boxes.specs.Boxes.{head_size};
ghost use Rattle.jk_extras.specs.Header.{colour_at, met_passed, met_at};

use crate::grids::{Grids, read_grids};
use byteorder::{BigEndian, ByteOrder};
use jk_boxes::{BoxHead, COLOUR, read_box};
use jk_math::Fault;

/// The resolution box.
pub(crate) const RESOLUTION: u32 = 0x7265_7320;

/// What the first colour specification box tells whose method is known (T.800 I.5.3.3).
#[derive(Clone, Copy, Debug, PartialEq, Eq)]
pub enum ToldColour {
    /// There is none.
    Nothing,
    /// A colour space by its number.
    Enumerated(u32),
    /// A restricted ICC profile, from a place in the file up to another.
    Profile(usize, usize),
}

/// What was met of the JP2 header box.
#[derive(Clone, Copy, Debug, PartialEq, Eq)]
pub struct Met {
    pub colour: ToldColour,
    pub resolution: Option<Grids>,
}

/// The contents of a colour specification box, which stand at a place in the file.
#[tactic(auto, unfolding(crate::specs::Header::colour_at))]
fn read_colour(at: usize, contents: &[u8]) -> Result<ToldColour, Fault>
    requires { at + length contents.now ≤ usize.MAX }
    ensures { result ≡ colour_at at contents.now }
{
    if contents.len() < 3 {
        return Err(Fault::BadBox);
    }
    if contents[0] == 1 {
        if contents.len() != 7 {
            return Err(Fault::BadBox);
        }
        return Ok(ToldColour::Enumerated(BigEndian::read_u32(&contents[3..])));
    }
    if contents[0] == 2 {
        if contents.len() == 3 {
            return Err(Fault::BadBox);
        }
        return Ok(ToldColour::Profile(at + 3, at + contents.len()));
    }
    Ok(ToldColour::Nothing)
}

/// Passes a box of the header, which begins the rest and stands at a place in the file.
#[tactic(auto, unfolding(crate::specs::Header::met_passed))]
fn pass(met: Met, at: usize, head: &BoxHead, rest: &[u8]) -> Result<Met, Fault>
    requires head { head_size head.now.form ≤ head.now.size }
    requires whole { head.now.size ≤ length rest.now }
    requires place { at + length rest.now ≤ usize.MAX }
    ensures { result ≡ met_passed met at head.now rest.now }
{
    if head.kind == COLOUR && met.colour == ToldColour::Nothing {
        let colour = read_colour(at + head.form.head_size(), head.contents(rest))?;
        return Ok(Met {
            colour,
            resolution: met.resolution,
        });
    }
    if head.kind == RESOLUTION && met.resolution.is_none() {
        let grids = read_grids(head.contents(rest))?;
        return Ok(Met {
            colour: met.colour,
            resolution: Some(grids),
        });
    }
    Ok(met)
}

/// The boxes of a JP2 header box, whose contents stand in the file from a place up to another.
pub fn read_header(file: &[u8], start: usize, end: usize) -> Result<Met, Fault>
    requires order { start ≤ end }
    requires within { end ≤ length file.now }
    ensures { result ≡ met_at start (slice_range file.now start end) }
{
    let header = &file[start..end];
    let mut at = 0;
    let mut met = Met {
        colour: ToldColour::Nothing,
        resolution: None,
    };
    while at < header.len() {
        let rest = &header[at..];
        let head = read_box(rest, false)?;
        met = pass(met, start + at, &head, rest)?;
        at += head.size;
    }
    Ok(met)
}
