//! The markers of the segments in the headers of a codestream.

ghost use Rattle.std.specs.Prelude.{◌≡◌, ◌≤◌, ◌<◌, ◌++◌, length, drop, OnOk, IfOk};
ghost use Rattle.std.specs.List.{flat_map};
ghost use Rattle.jk_commands.specs.HeaderMarkers.{markers_from, part_size, parts_from, part_markers, main_markers};
ghost use Rattle.jk_commands.specs.HeaderMarkers.{parts_in, markers_in};

use byteorder::{BigEndian, ByteOrder};
use jk_marks::{marker, segment_size};
use std::alloc::{AllocError, Global};

/// Appends the markers of the segments at the front, up to the marker `last`.
fn put_markers(bytes: &[u8], last: u16, markers: &mut Vec<u16>) -> Result<(), AllocError>
    ensures { OnOk result (markers.new.items
        ≡ markers.old.items ++ markers_from (length bytes.now) last bytes.now) }
{
    let mut at = 0;
    // Each segment has two bytes or more, so this is more often than it takes.
    for _ in 0..bytes.len() {
        let rest = &bytes[at..];
        let size = segment_size(rest, last);
        if size == 0 {
            return Ok(());
        }
        markers.push(BigEndian::read_u16(rest))?;
        at += size;
    }
    Ok(())
}

/// How long the tile-part is that begins these bytes, which go on to the end of the codestream
/// (T.800 A.4.2); 0 where none stands there as a whole.
#[tactic(auto, unfolding(crate::specs::HeaderMarkers::part_size))]
fn part_size(bytes: &[u8]) -> usize
    ensures value { result ≡ part_size bytes.now }
    ensures within { result ≤ length bytes.now }
    ensures some { 0 < result → 12 ≤ length bytes.now }
{
    if bytes.len() < 14 || BigEndian::read_u16(bytes) != marker::SOT {
        return 0;
    }
    let psot = BigEndian::read_u32(&bytes[6..]) as usize;
    if psot == 0 {
        return bytes.len() - 2;
    }
    if bytes.len() < psot { 0 } else { psot }
}

/// Appends the markers of the headers of tile-parts, and answers how many tile-parts there are.
fn put_parts(bytes: &[u8], markers: &mut Vec<u16>) -> Result<usize, AllocError>
    ensures markers { OnOk result (markers.new.items
        ≡ markers.old.items ++ flat_map part_markers (parts_from (length bytes.now) bytes.now)) }
    ensures count { IfOk result (λ n. n ≡ length (parts_from (length bytes.now) bytes.now)) }
{
    let mut at = 0;
    let mut count = 0;
    // A tile-part has 14 bytes or more, so this is more often than it takes.
    for _ in 0..bytes.len() {
        let rest = &bytes[at..];
        let size = part_size(rest);
        if size == 0 {
            return Ok(count);
        }
        put_markers(&rest[12..], marker::SOD, markers)?;
        count += 1;
        at += size;
    }
    Ok(count)
}

/// The tile-parts of a codestream, and the markers of the segments in all its headers.
#[derive(Drop)]
pub(crate) struct HeaderMarkers {
    /// How many tile-parts there are.
    pub(crate) parts: usize,
    /// The markers, in order.
    pub(crate) markers: Vec<u16>,
}

/// The tile-parts and the markers of a codestream whose main header takes `size` bytes.
pub(crate) fn header_markers(
    alloc: Global,
    bytes: &[u8],
    size: usize,
) -> Result<HeaderMarkers, AllocError>
    requires long { 2 ≤ length bytes.now }
    requires within { size ≤ length bytes.now }
    ensures markers { IfOk result (λ r. r.markers.items ≡ markers_in bytes.now size) }
    ensures count { IfOk result (λ r. r.parts ≡ length (parts_in bytes.now size)) }
{
    let mut markers = Vec::new(alloc);
    put_markers(&bytes[2..], marker::SOT, &mut markers)?;
    let parts = put_parts(&bytes[size..], &mut markers)?;
    Ok(HeaderMarkers { parts, markers })
}
