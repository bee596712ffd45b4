//! A file with what it is to keep.

ghost use Rattle.std.specs.Prelude.{◌≡◌, ◌+◌, ◌≤◌, ◌<◌, ◌^◌, List, ℕ, length, drop, OnOk, IfOk, IfErr, Ok};
ghost use Rattle.jk_math.specs.Answer.{Answers};
ghost use Rattle.jk_math.specs.Memory.{IsMemory};
ghost use Rattle.jk_boxes.specs.Boxes.{IsJp2, HoldsCodestream, head_size, boxes_text};
ghost use Rattle.jk_boxes.specs.Reading.{contents_of};
ghost use Rattle.jk_extras.specs.Extras.{IsNone, others_boxes};
ghost use Rattle.jk_extras.specs.Placing.{kept_step, kept_after, header_dressed, dressed_at, with_extras_at};
ghost use Rattle.jk_extras.specs.Dressed.{dressed, IsDressed};

use crate::finding::{Found, Wanted, find_one};
use crate::judging::{judge, others_size};
use crate::putting::{fits, put_colour, put_head, put_others, put_resolution};
use crate::values::{Extras, goes};
use byteorder::{BigEndian, ByteOrder};
use jk_boxes::{BoxHead, HEADER, open, read_box};
use jk_math::Fault;
use std::alloc::Global;

/// Appends a box of the JP2 header box, which begins the rest, if it stays.
fn put_kept(out: &mut Vec<u8>, extras: &Extras, head: &BoxHead, rest: &[u8]) -> Result<(), Fault>
    requires { head.now.size ≤ length rest.now }
    ensures ok { OnOk result (kept_step extras.now out.old.items 0 head.now rest.now ≡ Ok out.new.items) }
    ensures err { IfErr result (λ e. IsMemory e) }
{
    if goes(extras, head.kind) {
        return Ok(());
    }
    out.extend_from_slice(&rest[..head.size])?;
    Ok(())
}

/// Appends boxes of the JP2 header box that stay.
fn put_all_kept(out: &mut Vec<u8>, extras: &Extras, boxes: &[u8]) -> Result<(), Fault>
    ensures { Answers (λ _. out.new.items) result (kept_after extras.now out.old.items boxes.now) }
{
    let mut at = 0;
    while at < boxes.len() {
        let rest = &boxes[at..];
        let head = read_box(rest, false)?;
        put_kept(out, extras, &head, rest)?;
        at += head.size;
    }
    Ok(())
}

/// The contents of the JP2 header box with what it is to keep.
#[tactic(auto, unfolding(crate::specs::Placing::header_dressed))]
fn dress_header(alloc: Global, contents: &[u8], extras: &Extras) -> Result<Vec<u8>, Fault>
    ensures exact { Answers (λ v. v.items) result (header_dressed extras.now contents.now) }
    ensures others { OnOk result (length (boxes_text (others_boxes extras.now)) ≤ 2 ^ 24) }
{
    if contents.len() < 22 {
        return Err(Fault::BadBox);
    }
    let components = BigEndian::read_u16(&contents[16..]);
    judge(extras, components)?;
    let mut out = Vec::from_slice(alloc, &contents[..22])?;
    put_colour(&mut out, components, &extras.colour)?;
    put_all_kept(&mut out, extras, &contents[22..])?;
    put_resolution(&mut out, extras)?;
    Ok(out)
}

/// A file with other contents in its JP2 header box, and with boxes of XML and under UUIDs before
/// its codestream box, which stands at a place.
#[tactic(auto, unfolding(crate::specs::Placing::dressed_at))]
fn dress(
    alloc: Global,
    file: &[u8],
    header: &Found,
    code: usize,
    contents: &[u8],
    extras: &Extras,
) -> Result<Vec<u8>, Fault>
    requires order { header.now.at + header.now.head.size ≤ code }
    requires within { code ≤ length file.now }
    requires others { length (boxes_text (others_boxes extras.now)) ≤ 2 ^ 24 }
    ensures { Answers (λ v. v.items) result
        (dressed_at header.now code contents.now (boxes_text (others_boxes extras.now)) file.now) }
{
    let form = header.head.form;
    let size = form.head_size() + contents.len();
    if !fits(form, size) {
        return Err(Fault::Limit);
    }
    let before = &file[..header.at];
    let between = &file[header.at + header.head.size..code];
    let given = size + others_size(&extras.others);
    let mut out = Vec::with_capacity(alloc, file.len().saturating_add(given))?;
    out.extend_from_slice(before)?;
    put_head(&mut out, form, HEADER, size)?;
    out.extend_from_slice(contents)?;
    out.extend_from_slice(between)?;
    put_others(&mut out, &extras.others)?;
    out.extend_from_slice(&file[code..])?;
    Ok(out)
}

#[tactic(auto, unfolding(crate::specs::Placing::with_extras_at))]
fn dressing(alloc: Global, file: &[u8], extras: &Extras) -> Result<Vec<u8>, Fault>
    ensures { Answers (λ v. v.items) result (with_extras_at extras.now file.now) }
{
    let boxed = open(file)?;
    if !boxed.jp2 {
        return Err(Fault::BadParameters);
    }
    let header = find_one(file, 12, Wanted::Header)?;
    let code = find_one(file, header.at + header.head.size, Wanted::Code)?;
    let contents = dress_header(alloc, header.head.contents(&file[header.at..]), extras)?;
    dress(alloc, file, &header, code.at, &contents, extras)
}

/// A JP2 file with what it is to keep: in its JP2 header box the colour and the resolutions that
/// are given, in the place of those that it has (T.800 I.5.3.3, I.5.3.7), and right before its
/// codestream box the boxes of XML and under UUIDs that are given (I.7). All other boxes stay as
/// they are.
///
/// The first of these: the faults of `open`; BadParameters, a bare codestream, and what `judge`
/// refuses by the number of components of the image header box; Limit, a JP2 header box that is too
/// long for four bytes of length.
pub fn with_extras(alloc: Global, file: &[u8], extras: &Extras) -> Result<Vec<u8>, Fault>
    ensures exact { Answers (λ v. v.items) result (with_extras_at extras.now file.now) }
    // A JP2 file gets these boxes.
    ensures boxes { (codestream : List ℕ) (j : IsJp2 file.now codestream)
        → Answers (λ v. v.items) result (dressed j extras.now) }
    // It holds the codestream as before, and all boxes but the JP2 header box as they were.
    ensures holds { (codestream : List ℕ) (j : IsJp2 file.now codestream)
        → IfOk result (λ v. IsDressed j extras.now v.items) }
    // The file holds the codestream that it held.
    ensures same { (codestream : List ℕ) → HoldsCodestream file.now codestream
        → IfOk result (λ v. HoldsCodestream v.items codestream) }
    // With nothing it stays the same.
    ensures none { (codestream : List ℕ) → IsJp2 file.now codestream → IsNone extras.now
        → Answers (λ v. v.items) result (Ok file.now) }
{
    dressing(alloc, file, extras)
}
