//! Whether bytes can be the front of a PGM or PPM file, whatever follows them.

ghost use Rattle.std.specs.Prelude.{◌≡◌, ◌<◌, ◌≤◌, ◌^◌, ◌++◌, ℕ, List, Ok, Err, true, false, length, drop, IfOk, IfErr, IfSome};
ghost use Rattle.jk_math.specs.declared.fault.Fault.TheVariants.{BadPnm};
ghost use Rattle.jk_pnm.specs.Reading.{magic_at, header_at, field_at};
ghost use Rattle.jk_pnm.specs.Judging.{fields_at};
ghost use Rattle.jk_pnm.specs.declared.judging.Unread.TheVariants.{Never as IsNever};

use crate::header::{after_gap, depth, digits, is_space, magic};

/// Why bytes aren't the front of a PGM or PPM file that is read, whatever follows them.
#[derive(Clone, Copy, Debug, PartialEq, Eq)]
pub enum NoHeader {
    /// They begin with neither P5 nor P6.
    Magic,
    /// After that stand no three numbers from 1 to 2^28, each after whitespace or comments.
    Numbers,
    /// The greatest sample value isn't 2^B - 1, B from 1 to 16.
    Maxval(u32),
    /// No whitespace stands after the greatest sample value.
    Space,
    /// There are so many columns and rows, more than 2^28 pixels.
    Pixels(u32, u32),
}

/// Why a number isn't read.
#[derive(Clone, Copy)]
enum Unread {
    /// It isn't whole: what follows decides.
    Open,
    /// There is none, whatever follows.
    Never,
}

/// The numbers of a header.
#[derive(Clone, Copy)]
struct Sizes {
    width: u32,
    height: u32,
    maxval: u32,
}

/// A number after whitespace or comments, which is whole: some byte follows it.
fn number(bytes: &[u8]) -> Result<(u32, &[u8]), Unread>
    ensures ok { IfOk result (λ x. (field_at bytes.now ≡ Ok (x.0, x.1.now)) × (0 < length x.1.now)) }
    ensures few { IfOk result (λ x. x.0 ≤ 2 ^ 28) }
    ensures never { result ≡ Err IsNever → (more : List ℕ) → field_at (bytes.now ++ more) ≡ Err BadPnm }
{
    let Ok(rest) = after_gap(bytes) else {
        return Err(Unread::Open);
    };
    if rest.len() == bytes.len() {
        return Err(Unread::Never);
    }
    let (value, behind) = digits(rest);
    if value > 1 << 28 {
        return Err(Unread::Never);
    }
    if behind.is_empty() {
        return Err(Unread::Open);
    }
    if value == 0 {
        return Err(Unread::Never);
    }
    Ok((value, behind))
}

/// The three numbers of a header behind its first two bytes.
fn fields(bytes: &[u8]) -> Result<(Sizes, &[u8]), Unread>
    ensures ok { IfOk result
        (λ x. (fields_at bytes.now ≡ Ok ((x.0.width, x.0.height, x.0.maxval), x.1.now)) × (0 < length x.1.now)) }
    ensures few { IfOk result (λ x. x.0.maxval ≤ 2 ^ 28) }
    ensures never { result ≡ Err IsNever → (more : List ℕ) → fields_at (bytes.now ++ more) ≡ Err BadPnm }
{
    let (width, rest) = number(bytes)?;
    let (height, rest) = number(rest)?;
    let (maxval, rest) = number(rest)?;
    let read = Sizes {
        width,
        height,
        maxval,
    };
    Ok((read, rest))
}

/// Whether bytes begin as P5 and P6 do.
fn begins(bytes: &[u8]) -> bool
    ensures { result ≡ false → (more : List ℕ) → magic_at (bytes.now ++ more) ≡ Err BadPnm }
{
    if bytes.len() < 2 {
        return bytes.is_empty() || bytes[0] == b'P';
    }
    magic(bytes).is_ok()
}

/// Why the numbers of a header, which are followed by these bytes, make none.
fn bad_fields(read: &Sizes, rest: &[u8]) -> Option<NoHeader>
    requires some { 0 < length rest.now }
    requires few { read.now.maxval ≤ 2 ^ 28 }
    ensures { IfSome result (λ _. (front more : List ℕ)
        → fields_at (drop 2 front) ≡ Ok ((read.now.width, read.now.height, read.now.maxval), rest.now ++ more)
        → header_at front ≡ Err BadPnm) }
{
    if depth(read.maxval).is_err() {
        return Some(NoHeader::Maxval(read.maxval));
    }
    if !is_space(rest[0]) {
        return Some(NoHeader::Space);
    }
    if read.width as u64 * read.height as u64 > 1 << 28 {
        return Some(NoHeader::Pixels(read.width, read.height));
    }
    None
}

/// Why bytes aren't the front of a PGM or PPM file that is read, whatever follows them; None where
/// they may be.
pub fn no_header(bytes: &[u8]) -> Option<NoHeader>
    ensures { IfSome result (λ _. (more : List ℕ) → header_at (bytes.now ++ more) ≡ Err BadPnm) }
{
    if !begins(bytes) {
        return Some(NoHeader::Magic);
    }
    if bytes.len() < 2 {
        return None;
    }
    match fields(&bytes[2..]) {
        Ok((read, rest)) => bad_fields(&read, rest),
        Err(Unread::Never) => Some(NoHeader::Numbers),
        Err(Unread::Open) => None,
    }
}
