//! The headers of tiles, and the segments of any header.

ghost use Rattle.std.specs.Prelude.{◌≡◌, ◌≤◌, [], OnOk};
ghost use Rattle.jk_math.specs.Answer.{Reads};
ghost use Rattle.jk_marks.specs.Segments.{is_coded, is_passed};
ghost use Rattle.jk_marks.specs.Codestream.{head_of};
ghost use Rattle.jk_marks.specs.Reading.{other_at, segment_at, header_at};

use crate::coding_segments::{read_coc, read_cod};
use crate::cursor::Cursor;
use crate::marker;
use crate::quantisation_segments::{read_qcc, read_qcd};
use crate::segments::{Cod, CodingStyle, Quantisation};
use jk_math::Fault;

/// The header that segments stand in.
#[derive(Clone, Copy, Debug, PartialEq, Eq)]
pub enum Heading {
    /// The main header.
    MainHeader,
    /// The header of the first tile-part of a tile.
    FirstPart,
    /// The header of another tile-part.
    LaterPart,
}

impl Heading {
    /// Whether segments of the coding may stand here.
    fn is_coded(self) -> bool
        ensures { result ≡ is_coded self }
    {
        match self {
            Heading::MainHeader | Heading::FirstPart => true,
            Heading::LaterPart => false,
        }
    }

    /// Whether this listed marker may stand here and is passed over.
    fn is_passed(self, marker: u16) -> bool
        ensures { result ≡ is_passed self marker }
    {
        match self {
            Heading::MainHeader => {
                marker == marker::TLM || marker == marker::CRG || marker == marker::COM
            }
            Heading::FirstPart | Heading::LaterPart => {
                marker == marker::PLT || marker == marker::COM
            }
        }
    }
}

/// What the segments of a header say, each if it is given: the segments of the whole tile, or of
/// one component.
#[derive(Debug, Drop)]
pub struct TileHead {
    pub cod: Option<Cod>,
    pub qcd: Option<Quantisation>,
    /// The coding style by component.
    pub coc: [Option<CodingStyle>; 4],
    /// The quantization by component.
    pub qcc: [Option<Quantisation>; 4],
}

impl TileHead {
    /// A header that says nothing.
    pub fn none() -> TileHead
        ensures { result ≡ head_of [] }
    {
        TileHead {
            cod: None,
            qcd: None,
            coc: [None, None, None, None],
            qcc: [None, None, None, None],
        }
    }
}

/// A segment without meaning for the coding.
#[tactic(auto, unfolding(crate::specs::Reading::other_at))]
fn read_other(
    cursor: &mut Cursor<'_>,
    heading: Heading,
    head: TileHead,
    marker: u16,
) -> Result<TileHead, Fault>
    ensures { Reads (other_at heading head marker) cursor.old cursor.new result }
{
    if heading.is_passed(marker) {
        cursor.pass_segment()?;
        return Ok(head);
    }
    if marker::is_left_out(marker) {
        return Err(Fault::Unsupported);
    }
    if marker::is_listed(marker) || marker < 0xFF00 {
        return Err(Fault::BadMarker);
    }
    if !marker::is_alone(marker) {
        cursor.pass_segment()?;
    }
    Ok(head)
}

/// A segment after its marker, and what the header has said with it.
#[tactic(auto, unfolding(crate::specs::Reading::segment_at))]
fn read_segment(
    cursor: &mut Cursor<'_>,
    heading: Heading,
    components: u16,
    head: TileHead,
    marker: u16,
) -> Result<TileHead, Fault>
    requires { components ≤ 4 }
    ensures { Reads (segment_at heading components head marker) cursor.old cursor.new result }
{
    let mut head = head;
    if !heading.is_coded() {
        return read_other(cursor, heading, head, marker);
    }
    match marker {
        marker::COD => {
            if head.cod.is_some() {
                return Err(Fault::BadMarker);
            }
            head.cod = Some(read_cod(cursor, components)?);
        }
        marker::QCD => {
            if head.qcd.is_some() {
                return Err(Fault::BadMarker);
            }
            head.qcd = Some(read_qcd(cursor)?);
        }
        marker::COC => {
            let (component, style) = read_coc(cursor, &head.coc, components)?;
            head.coc[component as usize] = Some(style);
        }
        marker::QCC => {
            let (component, steps) = read_qcc(cursor, &head.qcc, components)?;
            head.qcc[component as usize] = Some(steps);
        }
        _ => return read_other(cursor, heading, head, marker),
    }
    Ok(head)
}

/// The segments of a header up to the marker `last`, which is passed.
pub(crate) fn read_segments(
    cursor: &mut Cursor<'_>,
    heading: Heading,
    components: u16,
    last: u16,
) -> Result<TileHead, Fault>
    requires { components ≤ 4 }
    ensures exact { Reads (header_at heading components last) cursor.old cursor.new result }
    ensures passed { OnOk result (2 ≤ cursor.new.at) }
{
    let mut head = TileHead::none();
    cursor.leave();
    // Each segment has two bytes or more, so this is more often than it takes.
    for _ in 0..cursor.left() {
        let marker = cursor.two_bytes()?;
        if marker == last {
            return Ok(head);
        }
        head = read_segment(cursor, heading, components, head, marker)?;
        cursor.leave();
    }
    Err(Fault::Truncated)
}
