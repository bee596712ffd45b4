//! Copying headers without the segments that tell lengths.

ghost use Rattle.std.specs.Prelude.{◌≡◌, ◌+◌, ◌≤◌, ◌<◌, ◌++◌, ◌==◌, not, ℕ, List, length, drop, IfOk, OnOk, IfErr};
ghost use Rattle.byteorder.specs.Endian.{big_number};
ghost use Rattle.jk_math.specs.Memory.{IsMemory};
ghost use Rattle.jk_math.specs.Front.{IsFront};
ghost use Rattle.jk_marks.specs.declared.siz.Siz.{Siz};
ghost use Rattle.jk_marks.specs.Markers.{tlm};
ghost use Rattle.jk_marks.specs.Segments.{Segment};
ghost use Rattle.jk_marks.specs.Codestream.{IsMain, BeginsMain, main_text};
ghost use Rattle.jk_marks.specs.Copying.{kept_segments, segment_size, kept_front, kept_at, size_at, main_kept_at};
ghost use Rattle.jk_marks.specs.Copying.{main_size_at};

use crate::marker;
use byteorder::{BigEndian, ByteOrder};
use jk_math::Fault;

/// How many bytes the marker segment at the front takes, its marker among them (T.800 A.1.3): 0 where
/// the marker `last` stands there, or where the bytes end before the segment does.
#[tactic(auto, unfolding(crate::specs::Copying::segment_size))]
pub fn segment_size(bytes: &[u8], last: u16) -> usize
    ensures value { result ≡ segment_size last bytes.now }
    ensures within { result ≤ length bytes.now }
    ensures some { 0 < result → 2 ≤ result }
{
    if bytes.len() < 2 {
        return 0;
    }
    let marker = BigEndian::read_u16(bytes);
    if marker == last {
        return 0;
    }
    if marker::is_alone(marker) {
        return 2;
    }
    if bytes.len() < 4 {
        return 0;
    }
    let size = 2 + BigEndian::read_u16(&bytes[2..]) as usize;
    if bytes.len() < size { 0 } else { size }
}

/// The same at a place.
fn size_from(bytes: &[u8], at: usize, last: u16) -> usize
    requires { at ≤ length bytes.now }
    ensures value { result ≡ segment_size last (drop at bytes.now) }
    ensures within { at + result ≤ length bytes.now }
    ensures some { 0 < result → 2 ≤ result }
{
    segment_size(&bytes[at..], last)
}

/// Whether another marker stands at a place.
fn has_other(bytes: &[u8], at: usize, marker: u16) -> bool
    requires { at + 2 ≤ length bytes.now }
    ensures { result ≡ not (big_number 2 (drop at bytes.now) == marker) }
{
    BigEndian::read_u16(&bytes[at..]) != marker
}

/// Appends a segment that stands at a place, unless it has the marker `left_out`.
fn copy_front(
    bytes: &[u8],
    at: usize,
    size: usize,
    left_out: u16,
    out: &mut Vec<u8>,
) -> Result<(), Fault>
    requires within { at + size ≤ length bytes.now }
    requires some { 2 ≤ size }
    ensures ok { OnOk result (out.new.items ≡ out.old.items ++ kept_front size left_out (drop at bytes.now)) }
    ensures err { IfErr result (λ e. IsMemory e) }
    ensures front { IsFront out.old.items out.new.items }
{
    if has_other(bytes, at, left_out) {
        out.extend_from_slice(&bytes[at..at + size])?;
    }
    Ok(())
}

/// Appends the segments at the front up to the marker `last`, without those of the marker
/// `left_out`. Answers how many bytes they all take.
pub(crate) fn copy_segments(
    bytes: &[u8],
    last: u16,
    left_out: u16,
    out: &mut Vec<u8>,
) -> Result<usize, Fault>
    ensures ok { OnOk result (out.new.items ≡ out.old.items ++ kept_at (length bytes.now) last left_out bytes.now) }
    ensures size { IfOk result (λ n. n ≡ size_at (length bytes.now) last bytes.now) }
    ensures within { IfOk result (λ n. n ≤ length bytes.now) }
    ensures err { IfErr result (λ e. IsMemory e) }
    ensures front { IsFront out.old.items out.new.items }
{
    let mut at = 0;
    for _ in 0..bytes.len() {
        let size = size_from(bytes, at, last);
        if size == 0 {
            return Ok(at);
        }
        copy_front(bytes, at, size, left_out, out)?;
        at += size;
    }
    Ok(at)
}

/// Appends SOC and the segments of a main header but TLM.
fn copy_main_segments(bytes: &[u8], out: &mut Vec<u8>) -> Result<usize, Fault>
    requires { 2 ≤ length bytes.now }
    ensures ok { OnOk result (out.new.items ≡ out.old.items ++ main_kept_at bytes.now) }
    ensures size { IfOk result (λ n. n ≡ main_size_at bytes.now) }
    ensures within { IfOk result (λ n. n ≤ length bytes.now) }
    ensures err { IfErr result (λ e. IsMemory e) }
    ensures front { IsFront out.old.items out.new.items }
{
    out.extend_from_slice(&bytes[..2])?;
    let size = copy_segments(&bytes[2..], marker::SOT, marker::TLM, out)?;
    Ok(2 + size)
}

/// Appends the main header that begins these bytes, without TLM. Answers how many bytes it takes
/// with TLM. After Memory a part of it may stand behind what was there.
///
/// Bytes that don't begin with a main header append something that is no header.
pub fn copy_main(bytes: &[u8], out: &mut Vec<u8>) -> Result<usize, Fault>
    ensures ok { (siz : Siz) (segments : List Segment) → IsMain siz segments → BeginsMain bytes.now siz segments
        → OnOk result (out.new.items ≡ out.old.items ++ main_text siz (kept_segments tlm segments)) }
    ensures size { (siz : Siz) (segments : List Segment) → IsMain siz segments → BeginsMain bytes.now siz segments
        → IfOk result (λ n. n ≡ length (main_text siz segments)) }
    // Whatever the bytes are, it is this.
    ensures exact { 2 ≤ length bytes.now → IfOk result (λ n. (n ≡ main_size_at bytes.now)
        × (out.new.items ≡ out.old.items ++ main_kept_at bytes.now)) }
    ensures within { IfOk result (λ n. n ≤ length bytes.now) }
    ensures err { IfErr result (λ e. IsMemory e) }
    ensures front { IsFront out.old.items out.new.items }
{
    if bytes.len() < 2 {
        return Ok(0);
    }
    copy_main_segments(bytes, out)
}
