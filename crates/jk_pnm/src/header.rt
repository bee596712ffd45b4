//! The header of a PNM file.

ghost use Rattle.std.specs.Prelude.{◌≡◌, ◌*◌, ◌+◌, ◌<◌, ◌≤◌, ◌^◌, false, length, nat_lt, IfOk};
ghost use Rattle.jk_math.specs.Answer.{AnswersExactly};
ghost use Rattle.jk_pnm.specs.Heads.{frame_headed, row_bytes};
ghost use Rattle.jk_pnm.specs.Pnm.{is_space, is_line_end, components_of};
ghost use Rattle.jk_pnm.specs.Reading.{magic_at, after_gap, gap_at, digits_at, number_at, field_at, depth_at};
ghost use Rattle.jk_pnm.specs.Reading.{raster_size, header_at};

use crate::rasters::RasterFrame;
use jk_math::Fault;

/// The fields of a PNM file: `P5`, or `P6` with colour; columns; rows; the greatest sample, and its
/// bits.
#[derive(Clone, Copy)]
pub struct Header {
    pub colour: bool,
    pub width: u32,
    pub height: u32,
    pub maxval: u32,
    pub depth: u8,
}

impl Header {
    /// Samples of a component.
    pub fn pixels(&self) -> usize
        ensures { result ≡ self.now.width * self.now.height }
    {
        self.width as usize * self.height as usize
    }

    /// Samples of a pixel.
    pub fn components(&self) -> usize
        ensures { result ≡ components_of self.now.colour }
    {
        if self.colour { 3 } else { 1 }
    }

    /// Whether a sample has two bytes.
    pub fn is_wide(&self) -> bool
        ensures { result ≡ nat_lt 255 self.now.maxval }
    {
        self.maxval > 255
    }

    /// How large the image is, and what its samples are.
    pub fn frame(&self) -> RasterFrame
        ensures { result ≡ frame_headed self.now }
    {
        RasterFrame {
            components: if self.colour { 3 } else { 1 },
            signed: false,
            width: self.width,
            height: self.height,
            depth: self.depth,
        }
    }

    /// Bytes of a row.
    pub fn row_size(&self) -> usize
        ensures { result ≡ row_bytes self.now }
    {
        let samples = self.width as usize * self.components();
        if self.is_wide() { samples * 2 } else { samples }
    }

    /// Bytes of the raster.
    pub fn raster_size(&self) -> usize
        requires { self.now.width * self.now.height ≤ 2 ^ 28 }
        ensures { result ≡ raster_size self.now }
    {
        let pixels = self.pixels();
        let samples = if self.colour { pixels * 3 } else { pixels };
        if self.is_wide() { samples * 2 } else { samples }
    }
}

/// Space, TAB, LF, VT, FF or CR.
pub(crate) fn is_space(byte: u8) -> bool
    ensures { result ≡ is_space byte }
{
    byte == b' ' || byte == b'\t' || byte == b'\n' || byte == 0x0B || byte == 0x0C || byte == b'\r'
}

/// LF or CR, which end a comment.
fn is_line_end(byte: u8) -> bool
    ensures { result ≡ is_line_end byte }
{
    byte == b'\n' || byte == b'\r'
}

/// Whether the file has three components.
#[tactic(auto, unfolding(crate::specs::Reading::magic_at))]
pub(crate) fn magic(bytes: &[u8]) -> Result<bool, Fault>
    ensures exact { result ≡ magic_at bytes.now }
    ensures long { IfOk result (λ _. 2 ≤ length bytes.now) }
{
    if bytes.starts_with(b"P5") {
        return Ok(false);
    }
    if bytes.starts_with(b"P6") {
        return Ok(true);
    }
    Err(Fault::BadPnm)
}

/// What follows whitespace and comments, if any.
pub(crate) fn after_gap(bytes: &[u8]) -> Result<&[u8], Fault>
    ensures { AnswersExactly (λ rest. rest.now) result (after_gap false bytes.now) }
{
    let mut comment = false;
    for (at, byte) in bytes.iter().enumerate() {
        if comment {
            comment = !is_line_end(*byte);
        } else if *byte == b'#' {
            comment = true;
        } else if !is_space(*byte) {
            return Ok(&bytes[at..]);
        }
    }
    Err(Fault::BadPnm)
}

/// What follows whitespace and comments, of which there must be some.
#[tactic(auto, unfolding(crate::specs::Reading::gap_at))]
fn gap(bytes: &[u8]) -> Result<&[u8], Fault>
    ensures { AnswersExactly (λ rest. rest.now) result (gap_at bytes.now) }
{
    let rest = after_gap(bytes)?;
    if rest.len() == bytes.len() {
        return Err(Fault::BadPnm);
    }
    Ok(rest)
}

/// The number that the digits at the front write, and what follows. A number past every field is
/// left unfinished.
pub(crate) fn digits(bytes: &[u8]) -> (u32, &[u8])
    ensures value { (result.0, result.1.now) ≡ digits_at 0 bytes.now }
{
    let mut value = 0;
    let mut at = 0;
    while at < bytes.len() && bytes[at].is_ascii_digit() && value <= 1 << 28 {
        value = 10 * value + (bytes[at] - b'0') as u32;
        at += 1;
    }
    (value, &bytes[at..])
}

/// A number from 1 to 2^28.
#[tactic(auto, unfolding(crate::specs::Reading::number_at))]
fn number(bytes: &[u8]) -> Result<(u32, &[u8]), Fault>
    ensures exact { AnswersExactly (λ x. (x.0, x.1.now)) result (number_at bytes.now) }
    ensures some { IfOk result (λ x. 0 < x.0) }
    ensures few { IfOk result (λ x. x.0 ≤ 2 ^ 28) }
{
    let (value, rest) = digits(bytes);
    if value == 0 || value > 1 << 28 {
        return Err(Fault::BadPnm);
    }
    Ok((value, rest))
}

/// A number behind a gap.
#[tactic(auto, unfolding(crate::specs::Reading::field_at))]
fn field(bytes: &[u8]) -> Result<(u32, &[u8]), Fault>
    ensures exact { AnswersExactly (λ x. (x.0, x.1.now)) result (field_at bytes.now) }
    ensures some { IfOk result (λ x. 0 < x.0) }
    ensures few { IfOk result (λ x. x.0 ≤ 2 ^ 28) }
{
    number(gap(bytes)?)
}

/// Of how many bits, 1 to 16, this is the greatest number.
pub(crate) fn depth(maxval: u32) -> Result<u8, Fault>
    requires { maxval ≤ 2 ^ 28 }
    ensures exact { AnswersExactly (λ d. d) result (depth_at maxval) }
    ensures value { IfOk result (λ d. 2 ^ d ≡ maxval + 1) }
    ensures bits { IfOk result (λ d. (1 ≤ d) × (d ≤ 16)) }
{
    for depth in 1..17u8 {
        if 1u32 << depth == maxval + 1 {
            return Ok(depth);
        }
    }
    Err(Fault::BadPnm)
}

/// The fields of a file, and its raster.
///
/// BadPnm: another magic number; a field that isn't a number from 1 to 2^28 behind whitespace or
/// comments; a maxval that isn't one less than a power of two, or of more than 16 bits; no
/// whitespace behind it; more than 2^28 pixels.
#[tactic(auto, unfolding(crate::specs::Reading::header_at))]
pub fn read_header(bytes: &[u8]) -> Result<(Header, &[u8]), Fault>
    ensures exact { AnswersExactly (λ x. (x.0, x.1.now)) result (header_at bytes.now) }
    ensures wide { IfOk result (λ x. 0 < x.0.width) }
    ensures high { IfOk result (λ x. 0 < x.0.height) }
    ensures area { IfOk result (λ x. x.0.width * x.0.height ≤ 2 ^ 28) }
    ensures depth { IfOk result (λ x. 2 ^ x.0.depth ≡ x.0.maxval + 1) }
    ensures bits { IfOk result (λ x. (1 ≤ x.0.depth) × (x.0.depth ≤ 16)) }
{
    let colour = magic(bytes)?;
    let (width, rest) = field(&bytes[2..])?;
    let (height, rest) = field(rest)?;
    let (maxval, rest) = field(rest)?;
    let depth = depth(maxval)?;
    if rest.is_empty() || !is_space(rest[0]) {
        return Err(Fault::BadPnm);
    }
    if width as u64 * height as u64 > 1 << 28 {
        return Err(Fault::BadPnm);
    }
    let header = Header {
        colour,
        width,
        height,
        maxval,
        depth,
    };
    Ok((header, &rest[1..]))
}
