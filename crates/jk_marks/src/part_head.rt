//! Heads of tile-parts without PLT, apart from their data.

ghost use Rattle.std.specs.Prelude.{◌≡◌, ◌≤◌, ◌<◌, ◌^◌, ◌++◌, ◌==◌, nat_lt, ◌&&◌, not, true, ℕ, List, length, Some};
ghost use Rattle.std.specs.Prelude.{None, IfOk, OnOk, IfErr};
ghost use Rattle.byteorder.specs.Endian.{big_number, big_bytes};
ghost use Rattle.jk_math.specs.Memory.{IsMemory};
ghost use Rattle.jk_math.specs.Front.{IsFront};
ghost use Rattle.jk_marks.specs.declared.siz.Siz.{Siz};
ghost use Rattle.jk_marks.specs.Markers.{sot, sod, eoc, marker_text};
ghost use Rattle.jk_marks.specs.Codestream.{CodestreamPart, IsPart, BeginsWith, sot_text};
ghost use Rattle.jk_marks.specs.Copying.{part_kept_at};
ghost use Rattle.jk_marks.specs.PartHeads.{kept_text, head_of, part_head_at, kept_after, psot_for, part_head};

use crate::copying::copy_segments;
use crate::marker;
use byteorder::{BigEndian, ByteOrder};
use jk_math::Fault;

/// The head of a tile-part without PLT, apart from its segments and its data (T.800 A.4.2, A.7.3).
#[derive(Clone, Copy, Debug, PartialEq, Eq)]
pub struct PartHead {
    /// Isot: the tile.
    pub tile: u16,
    /// TPsot: the number of the part among those of its tile.
    pub number: u8,
    /// TNsot: how many parts the tile has, or 0.
    pub total: u8,
    /// Whether Psot is 0: the part goes on to EOC.
    pub is_open: bool,
    /// How many bytes its segments take, from behind that of SOT to SOD, without PLT.
    pub size: usize,
}

/// Whether SOT and its segment stand at the front.
fn begins_part(bytes: &[u8]) -> bool
    ensures { result ≡ (not (nat_lt (length bytes.now) 12) && big_number 2 bytes.now == sot) }
{
    bytes.len() >= 12 && BigEndian::read_u16(bytes) == marker::SOT
}

/// The head of the tile-part that begins these bytes.
#[tactic(auto, unfolding(crate::specs::PartHeads::part_head_at))]
fn head_at(bytes: &[u8], size: usize) -> PartHead
    requires long { 12 ≤ length bytes.now }
    requires marker { big_number 2 bytes.now ≡ sot }
    requires size { size ≡ length (part_kept_at bytes.now) }
    ensures { Some result ≡ part_head_at bytes.now }
{
    PartHead {
        tile: BigEndian::read_u16(&bytes[4..]),
        number: bytes[10],
        total: bytes[11],
        is_open: BigEndian::read_u32(&bytes[6..]) == 0,
        size,
    }
}

/// The head of the tile-part that begins these bytes; none where no SOT stands. Its segments but
/// PLT are appended. After Memory a part of them may stand behind what was there.
///
/// Bytes that don't begin with a tile-part may give a head, and append what is no segment.
#[tactic(auto, unfolding(crate::specs::PartHeads::part_head_at))]
pub fn copy_part_segments(bytes: &[u8], out: &mut Vec<u8>) -> Result<Option<PartHead>, Fault>
    ensures exact { IfOk result (λ h. h ≡ part_head_at bytes.now) }
    ensures kept { IfOk result (λ h. out.new.items ≡ out.old.items ++ kept_after h bytes.now) }
    ensures err { IfErr result (λ e. IsMemory e) }
    ensures front { IsFront out.old.items out.new.items }
{
    if !begins_part(bytes) {
        return Ok(None);
    }
    let before = out.len();
    copy_segments(&bytes[12..], marker::SOD, marker::PLT, out)?;
    Ok(Some(head_at(bytes, out.len() - before)))
}

/// Psot, where the data have so many bytes.
fn psot(head: &PartHead, content: usize) -> u32
    requires { psot_for head.now content < 2 ^ 32 }
    ensures { result ≡ psot_for head.now content }
{
    if head.is_open {
        return 0;
    }
    (14 + head.size + content) as u32
}

/// Appends SOT and its segment.
fn put_sot(tile: u16, psot: u32, number: u8, total: u8, out: &mut Vec<u8>) -> Result<(), Fault>
    ensures ok { OnOk result (out.new.items ≡ out.old.items ++ sot_text tile psot number total) }
    ensures err { IfErr result (λ e. IsMemory e) }
    ensures front { IsFront out.old.items out.new.items }
{
    out.extend_from_slice(&[0xFF, 0x90, 0, 10])?;
    out.extend_from_slice(&tile.to_be_bytes())?;
    out.extend_from_slice(&psot.to_be_bytes())?;
    out.extend_from_slice(&number.to_be_bytes())?;
    out.extend_from_slice(&total.to_be_bytes())?;
    Ok(())
}

/// Appends SOT, segments, and SOD of a tile-part whose data have `content` bytes: Psot is the
/// length of all of it, or 0 where it was. After Memory a part of it may stand behind what was
/// there.
pub fn put_part_head(
    head: &PartHead,
    segments: &[u8],
    content: usize,
    out: &mut Vec<u8>,
) -> Result<(), Fault>
    requires fits { psot_for head.now content < 2 ^ 32 }
    ensures ok { OnOk result (out.new.items ≡ out.old.items ++ part_head head.now segments.now content) }
    ensures err { IfErr result (λ e. IsMemory e) }
    ensures front { IsFront out.old.items out.new.items }
{
    put_sot(head.tile, psot(head, content), head.number, head.total, out)?;
    out.extend_from_slice(segments)?;
    out.extend_from_slice(&marker::SOD.to_be_bytes())?;
    Ok(())
}
