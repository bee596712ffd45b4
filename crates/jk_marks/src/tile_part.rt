//! Tile-parts.

ghost use Rattle.std.specs.Prelude.{◌≡◌, ◌≤◌, length, slice_index, slice_range, IfOk, Ok};
ghost use Rattle.jk_marks.specs.Siz.{tile_count};
ghost use Rattle.jk_math.specs.Answer.{Reads};
ghost use Rattle.jk_marks.specs.Place.{closed};
ghost use Rattle.jk_marks.specs.Codestream.{CodestreamPart, IsPart, BeginsWith, place_of, heading_of};
ghost use Rattle.jk_marks.specs.HeaderReading.{part_at, part_end, sot_at};

use crate::cursor::Cursor;
use crate::head::{Heading, TileHead, read_segments};
use crate::main_header::Main;
use crate::marker;
use crate::siz::Siz;
use byteorder::{BigEndian, ByteOrder};
use jk_math::Fault;

/// A tile-part: what its header says, and where its data stand, counted from the first byte of its
/// SOT (T.800 A.4.2).
#[derive(Debug, Drop)]
pub struct TilePart {
    /// Isot, the number of the tile.
    pub tile: u16,
    /// TPsot, the number of the part among those of its tile.
    pub part: u8,
    pub head: TileHead,
    /// Where the data begin.
    pub start: usize,
    /// Where the data end, and the tile-part with them.
    pub end: usize,
}

/// What SOT says: the tile, where the part ends, and its number among those of the tile.
#[derive(Clone, Copy, Debug, PartialEq, Eq)]
pub struct Sot {
    pub tile: u16,
    pub end: usize,
    pub part: u8,
}

/// Where the data of a tile-part end that says the length `psot`.
#[tactic(auto, unfolding(crate::specs::HeaderReading::part_end))]
fn end_of_part(bytes: &[u8], psot: u32) -> Result<usize, Fault>
    ensures exact { result ≡ part_end bytes.now psot }
    ensures within { IfOk result (λ e. e ≤ length bytes.now) }
{
    let end = bytes.len();
    if psot == 0 {
        if end >= 2 && BigEndian::read_u16(&bytes[end - 2..]) == marker::EOC {
            return Ok(end - 2);
        }
        return Err(Fault::Truncated);
    }
    if end < psot as usize {
        return Err(Fault::Truncated);
    }
    Ok(psot as usize)
}

/// SOT, from its marker on (T.800 A.4.2).
#[tactic(auto, unfolding(crate::specs::HeaderReading::sot_at))]
fn read_sot(cursor: &mut Cursor<'_>, bytes: &[u8], siz: &Siz, seen: &[u16]) -> Result<Sot, Fault>
    requires tiles { length seen.now ≡ tile_count siz.now }
    requires front { cursor.old ≡ closed bytes.now 0 }
    ensures exact { Reads (sot_at siz.now seen.now bytes.now) cursor.old cursor.new result }
    ensures end { IfOk result (λ s. s.end ≤ length bytes.now) }
{
    if cursor.two_bytes()? != marker::SOT {
        return Err(Fault::BadMarker);
    }
    if cursor.enter()? != 10 {
        return Err(Fault::BadLength);
    }
    let tile = cursor.two_bytes()?;
    if tile as usize >= seen.len() {
        return Err(Fault::BadValue);
    }
    let psot = cursor.four_bytes()?;
    if (1..14).contains(&psot) {
        return Err(Fault::BadLength);
    }
    let end = end_of_part(bytes, psot)?;
    let part = cursor.byte()?;
    if part as u16 != seen[tile as usize] {
        return Err(Fault::BadValue);
    }
    if part > 254 {
        return Err(Fault::BadValue);
    }
    let _total = cursor.byte()?;
    Ok(Sot { tile, end, part })
}

/// The tile-part that begins these bytes, which go on to the end of the codestream. `seen` has for
/// each tile how many parts of it came before (T.800 A.4.2).
///
/// The faults are those of `read_main`, and: BadMarker where no SOT stands, or a segment of the
/// coding in another part than the first of its tile; BadLength: Psot from 1 to 13; BadValue: a
/// tile or a number of the part that isn't the next; Truncated: the bytes end before the part does.
pub fn read_tile_part(bytes: &[u8], main: &Main, seen: &[u16]) -> Result<TilePart, Fault>
    requires tiles { length seen.now ≡ tile_count main.now.siz }
    requires few { main.now.siz.components ≤ 4 }
    ensures exact { result ≡ part_at main.now.siz seen.now bytes.now }
    // What is read is the next part of its tile, spelled so at the front, and its data stand at its
    // place.
    ensures found { IfOk result (λ t. (p : CodestreamPart) × IsPart main.now.siz p × (p.number ≡ slice_index seen.now p.tile)
        × BeginsWith bytes.now p × (t ≡ place_of p) × (slice_range bytes.now t.start t.end ≡ p.content)) }
    // Such a part is read.
    ensures only { (p : CodestreamPart) → IsPart main.now.siz p → p.number ≡ slice_index seen.now p.tile
        → BeginsWith bytes.now p → result ≡ Ok (place_of p) }
    ensures within { IfOk result (λ t. (t.start ≤ t.end) × (t.end ≤ length bytes.now)) }
{
    part(bytes, &main.siz, seen)
}

/// The heading of a part of this number.
fn heading(part: u8) -> Heading
    ensures { result ≡ heading_of part }
{
    if part == 0 {
        Heading::FirstPart
    } else {
        Heading::LaterPart
    }
}

#[tactic(auto, unfolding(crate::specs::HeaderReading::part_at))]
fn part(bytes: &[u8], siz: &Siz, seen: &[u16]) -> Result<TilePart, Fault>
    requires tiles { length seen.now ≡ tile_count siz.now }
    requires few { siz.now.components ≤ 4 }
    ensures { result ≡ part_at siz.now seen.now bytes.now }
{
    let mut cursor = Cursor::new(bytes, 0);
    let sot = read_sot(&mut cursor, bytes, siz, seen)?;
    if sot.end < cursor.at() {
        return Err(Fault::Truncated);
    }
    let mut inner = Cursor::new(&bytes[..sot.end], cursor.at());
    let head = read_segments(&mut inner, heading(sot.part), siz.components, marker::SOD)?;
    Ok(TilePart {
        tile: sot.tile,
        part: sot.part,
        head,
        start: inner.at(),
        end: sot.end,
    })
}
