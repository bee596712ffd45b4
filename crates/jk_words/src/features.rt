//! What of a file jk leaves out. It is looked for where a file was refused, to explain it, and
//! decides nothing.

use jk_marks::{marker, segment_size};

/// The byte at a place, and 0 behind the last one.
fn byte(bytes: &[u8], at: usize) -> u8 {
    match bytes.get(at) {
        Some(byte) => *byte,
        None => 0,
    }
}

/// The number of two bytes.
pub(crate) fn pair(bytes: &[u8], at: usize) -> u16 {
    byte(bytes, at) as u16 * 256 + byte(bytes, at.saturating_add(1)) as u16
}

/// The number of four bytes.
pub(crate) fn quad(bytes: &[u8], at: usize) -> usize {
    pair(bytes, at) as usize * 65536 + pair(bytes, at.saturating_add(2)) as usize
}

/// The most boxes that are passed over.
const BOXES: usize = 1024;

/// The most marker segments that are looked at.
const SEGMENTS: usize = 1 << 20;

/// Where the codestream begins: at the front, or in the box `jp2c` (T.800 I.5.4).
pub(crate) fn codestream_start(bytes: &[u8]) -> Option<usize> {
    if pair(bytes, 0) == marker::SOC {
        return Some(0);
    }
    let mut at = 0usize;
    for _box in 0..BOXES {
        let length = quad(bytes, at);
        let head = if length == 1 { 16 } else { 8 };
        if quad(bytes, at.saturating_add(4)) == 0x6A70_3263 {
            return Some(at.saturating_add(head));
        }
        let length = if length == 1 {
            quad(bytes, at.saturating_add(12))
        } else {
            length
        };
        if length < 8 || bytes.len() <= at {
            return None;
        }
        at = at.saturating_add(length);
    }
    None
}

/// What the image and tile size segment at the front asks for (T.800 A.5.1).
fn in_size(bytes: &[u8]) -> Option<&'static str> {
    if pair(bytes, 4) >= 0x4000 {
        return Some("a capability beyond T.800 (Rsiz)");
    }
    let components = pair(bytes, 38) as usize;
    if components > 4 {
        return Some("more than four components");
    }
    for component in 0..components {
        let place = 40 + 3 * component;
        if byte(bytes, place) != byte(bytes, 40) {
            return Some("components of different depth or sign");
        }
        if pair(bytes, place.saturating_add(1)) != 0x0101 {
            return Some("subsampled components");
        }
    }
    None
}

/// The styles of code-blocks that are read: context reset, vertically causal contexts and
/// segmentation symbols.
const READ_STYLES: u8 = 0x2A;

/// What the last two bytes of a coding style ask for: the style of code-blocks and the transform
/// (T.800 A.6.1, tables A.19 and A.20).
fn in_style(bytes: &[u8], at: usize) -> Option<&'static str> {
    if byte(bytes, at.saturating_add(1)) == 0 {
        return Some("the irreversible transform 9/7");
    }
    if byte(bytes, at) & !READ_STYLES != 0 {
        return Some("a style of code-blocks (bypass, termination or predictable termination)");
    }
    None
}

/// What the marker segment at the front asks for.
fn in_segment(bytes: &[u8]) -> Option<&'static str> {
    match pair(bytes, 0) {
        marker::SIZ => in_size(bytes),
        marker::COD => in_style(bytes, 12),
        marker::COC => in_style(bytes, 9),
        marker::PLM => Some("the lengths of packets in the main header (PLM)"),
        marker::QCD => in_steps(bytes, 4),
        marker::QCC => in_steps(bytes, 5),
        marker::RGN => Some("a region of interest (RGN)"),
        marker::POC => Some("a change of the progression order (POC)"),
        marker::PPM => Some("packed packet headers (PPM)"),
        marker::PPT => Some("packed packet headers (PPT)"),
        _ => None,
    }
}

/// What a quantization style asks for (T.800 A.6.4, table A.28).
fn in_steps(bytes: &[u8], at: usize) -> Option<&'static str> {
    if byte(bytes, at) % 32 != 0 {
        Some("quantized coefficients")
    } else {
        None
    }
}

/// What the segments of a header ask for, which begin these bytes, up to the marker `last`; and the
/// bytes behind those that ask for nothing.
fn in_header(bytes: &[u8], last: u16) -> (Option<&'static str>, &[u8]) {
    let mut rest = bytes;
    for _segment in 0..SEGMENTS {
        let found = in_segment(rest);
        let size = segment_size(rest, last);
        if found.is_some() || size == 0 {
            return (found, rest);
        }
        rest = &rest[size..];
    }
    (None, rest)
}

/// What the headers of a codestream ask for that jk leaves out.
fn in_codestream(bytes: &[u8]) -> Option<&'static str> {
    let (found, mut part) = in_header(bytes.get(2..)?, marker::SOT);
    if found.is_some() {
        return found;
    }
    for _part in 0..SEGMENTS {
        if pair(part, 0) != marker::SOT {
            return None;
        }
        let (found, _data) = in_header(part.get(12..)?, marker::SOD);
        let length = quad(part, 6);
        if found.is_some() || length < 14 {
            return found;
        }
        part = part.get(length..)?;
    }
    None
}

/// What PGM and PPM files can't have, of an image of this size segment.
fn beyond_pnm(codestream: &[u8]) -> Option<&'static str> {
    let components = pair(codestream, 40);
    if byte(codestream, 42) >= 128 {
        Some("signed samples, which PGM and PPM files can't have")
    } else if components == 2 || components == 4 {
        Some("two or four components, and PGM and PPM files have one or three")
    } else {
        None
    }
}

/// What a file has that jk leaves out, as far as its headers tell it. It needn't be the first
/// thing.
pub(crate) fn left_out(bytes: &[u8]) -> Option<&'static str> {
    let start = codestream_start(bytes)?;
    let (front, codestream) = bytes.split_at(start.min(bytes.len()));
    if front.windows(4).any(|word| word == b"pclr".as_slice()) {
        return Some("a palette (pclr)");
    }
    let found = in_codestream(codestream);
    if found.is_some() {
        return found;
    }
    beyond_pnm(codestream)
}
