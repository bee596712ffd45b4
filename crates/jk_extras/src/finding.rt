//! Boxes of a file that are looked for.

ghost use Rattle.std.specs.Prelude.{◌≡◌, ◌+◌, ◌≤◌, ◌<◌, length, drop, IfOk, IfSome};
ghost use Rattle.jk_boxes.specs.Boxes.{head_size};
ghost use Rattle.jk_extras.specs.Finding.{is_wanted, found_at, one_found, header_found, other_told, other_at};
ghost use Rattle.jk_extras.specs.Finding.{TellsNext, TellsNone};

use jk_boxes::{BoxHead, HEADER, read_box};
use jk_math::Fault;

/// The contiguous codestream box.
const CODE: u32 = 0x6A70_3263;
/// A box of XML (T.800 I.7.1).
pub const XML: u32 = 0x786D_6C20;
/// A box under a UUID (T.800 I.7.2).
pub const UUID: u32 = 0x7575_6964;

/// Which boxes are looked for.
#[derive(Clone, Copy, Debug, PartialEq, Eq)]
pub enum Wanted {
    /// The JP2 header box.
    Header,
    /// The codestream box.
    Code,
    /// Boxes of XML or under a UUID.
    Others,
}

/// A box that was found: where it begins, and its head.
#[derive(Clone, Copy, Debug, PartialEq, Eq)]
pub struct Found {
    pub at: usize,
    pub head: BoxHead,
}

/// What a box holds.
#[derive(Clone, Copy, Debug, PartialEq, Eq)]
pub enum Kind {
    /// XML.
    Xml,
    /// What the 16 bytes before it name.
    Uuid,
}

/// A box of XML or under a UUID.
#[derive(Clone, Copy, Debug, PartialEq, Eq)]
pub struct ToldOther {
    pub kind: Kind,
    /// The place of its contents in the file; of those of a UUID behind its 16 bytes.
    pub start: usize,
    /// The place behind them, where the next box begins.
    pub end: usize,
}

/// Whether boxes of a kind are looked for.
fn is_wanted(wanted: Wanted, kind: u32) -> bool
    ensures { result ≡ is_wanted wanted kind }
{
    match wanted {
        Wanted::Header => kind == HEADER,
        Wanted::Code => kind == CODE,
        Wanted::Others => kind == XML || kind == UUID,
    }
}

/// The first box that is looked for, from a place in the file on.
pub fn find(file: &[u8], from: usize, wanted: Wanted) -> Result<Option<Found>, Fault>
    ensures exact { result ≡ found_at wanted from file.now }
    ensures head { IfOk result (λ f. IfSome f (λ b. head_size b.head.form ≤ b.head.size)) }
    ensures behind { IfOk result (λ f. IfSome f (λ b. from ≤ b.at)) }
    ensures within { IfOk result (λ f. IfSome f (λ b. b.at + b.head.size ≤ length file.now)) }
{
    let mut at = from;
    while at < file.len() {
        let head = read_box(&file[at..], true)?;
        if is_wanted(wanted, head.kind) {
            return Ok(Some(Found { at, head }));
        }
        at += head.size;
    }
    Ok(None)
}

/// The first box that is looked for, from a place in the file on, where one must be.
#[tactic(auto, unfolding(crate::specs::Finding::one_found))]
pub fn find_one(file: &[u8], from: usize, wanted: Wanted) -> Result<Found, Fault>
    ensures exact { result ≡ one_found wanted from file.now }
    ensures head { IfOk result (λ b. head_size b.head.form ≤ b.head.size) }
    ensures behind { IfOk result (λ b. from ≤ b.at) }
    ensures within { IfOk result (λ b. b.at + b.head.size ≤ length file.now) }
{
    match find(file, from, wanted)? {
        Some(found) => Ok(found),
        None => Err(Fault::BadBox),
    }
}

/// Where the contents of the JP2 header box stand.
#[tactic(auto, unfolding(crate::specs::Finding::header_found))]
pub fn find_header(file: &[u8]) -> Result<(usize, usize), Fault>
    ensures exact { result ≡ header_found file.now }
    ensures order { IfOk result (λ p. p.0 ≤ p.1) }
    ensures within { IfOk result (λ p. p.1 ≤ length file.now) }
{
    match find(file, 12, Wanted::Header)? {
        Some(found) => Ok((
            found.at + found.head.form.head_size(),
            found.at + found.head.size,
        )),
        None => Err(Fault::BadBox),
    }
}

/// What a box that was found holds.
#[tactic(auto, unfolding(crate::specs::Finding::other_told))]
pub(crate) fn tell(found: Found) -> Result<ToldOther, Fault>
    requires head { head_size found.head.form ≤ found.head.size }
    requires place { found.at + found.head.size ≤ usize.MAX }
    ensures { result ≡ other_told found }
{
    let start = found.at + found.head.form.head_size();
    let end = found.at + found.head.size;
    if found.head.kind == XML {
        return Ok(ToldOther {
            kind: Kind::Xml,
            start,
            end,
        });
    }
    if end - start < 16 {
        return Err(Fault::BadBox);
    }
    Ok(ToldOther {
        kind: Kind::Uuid,
        start: start + 16,
        end,
    })
}

#[tactic(auto, unfolding(crate::specs::Finding::other_at))]
fn next_other(file: &[u8], from: usize) -> Result<Option<ToldOther>, Fault>
    ensures { result ≡ other_at from file.now }
{
    match find(file, from, Wanted::Others)? {
        Some(found) => {
            let told = tell(found)?;
            Ok(Some(told))
        }
        None => Ok(None),
    }
}

/// The first box of XML or under a UUID of a JP2 file, from a place on at which a box begins: from
/// `others` of what `extras_at` tells, and then from the `end` of the last one.
///
/// Truncated, BadBox: as `open` has them, of a box up to it; BadBox: a UUID of fewer than 16 bytes.
pub fn other_after(file: &[u8], from: usize) -> Result<Option<ToldOther>, Fault>
    ensures exact { result ≡ other_at from file.now }
    // It is the first of the boxes from there on that is of XML or under a UUID.
    ensures next { TellsNext from file.now result }
    ensures last { TellsNone from file.now result }
{
    next_other(file, from)
}
