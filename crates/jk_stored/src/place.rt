//! Where the codestream of a stored file stands.

ghost use Rattle.std.specs.Prelude.{◌≡◌, ◌+◌, ◌-◌, ◌≤◌, true, ℕ, List, length, take, drop, IfOk, IfSome};
ghost use Rattle.jk_boxes.specs.Boxes.{HoldsCodestream, IsJp2, FitsForm, head_size, head_text, code_kind};
ghost use Rattle.jk_boxes.specs.Written.{fits_form};

use byteorder::{BigEndian, ByteOrder};
use jk_boxes::{Form, code_form, code_head, open};
use jk_math::Fault;
use std::alloc::Global;

/// The type of the contiguous codestream box (T.800 I.5.4).
const CODE: u32 = 0x6A70_3263;

/// How many boxes are passed at most.
const MOST_BOXES: usize = 4096;

/// How many bytes the box has whose head stands here, which tells it so.
fn box_size(head: &[u8]) -> Option<usize> {
    if head.len() < 16 {
        return None;
    }
    match BigEndian::read_u32(head) {
        0 => None,
        1 => usize::try_from(BigEndian::read_u64(&head[8..])).ok(),
        size => Some(size as usize),
    }
}

/// How the box tells its length whose head stands here, if it is that of the codestream.
fn code_box(head: &[u8]) -> Option<Form> {
    if head.len() < 8 || BigEndian::read_u32(&head[4..]) != CODE {
        return None;
    }
    match BigEndian::read_u32(head) {
        0 => Some(Form::Open),
        1 => Some(Form::Long),
        _ => Some(Form::Short),
    }
}

/// Where the first codestream box among boxes that follow one another begins, and how it tells its
/// length. What stands before it isn't judged.
fn find_code(front: &[u8]) -> Option<(usize, Form)>
    ensures { IfSome result (λ p. p.0 ≤ length front.now) }
{
    let mut at = 0;
    for _ in 0..MOST_BOXES {
        if at > front.len() {
            return None;
        }
        if let Some(form) = code_box(&front[at..]) {
            return Some((at, form));
        }
        let size = box_size(&front[at..])?;
        if size < 8 || size > front.len() - at {
            return None;
        }
        at += size;
    }
    None
}

/// Whether a length has a form.
fn fits(form: Form, size: usize) -> bool
    ensures is { result ≡ fits_form form size }
    ensures fits { result ≡ true → FitsForm form size }
{
    match form {
        Form::Short => size < 1 << 32,
        Form::Long | Form::Open => true,
    }
}

/// Whether both are the same bytes.
fn are_same(a: &[u8], b: &[u8]) -> bool
    ensures { result ≡ true → a.now ≡ b.now }
{
    a == b
}

/// Whether both forms are one.
fn are_one(a: Form, b: Form) -> bool
    ensures { result ≡ true → a ≡ b }
{
    match (a, b) {
        (Form::Short, Form::Short) | (Form::Long, Form::Long) | (Form::Open, Form::Open) => true,
        _ => false,
    }
}

/// A small JP2 file with these boxes before its codestream box, which has this form and is the last.
fn small_file(alloc: Global, before: &[u8], form: Form) -> Result<Vec<u8>, Fault>
    ensures { IfOk result (λ v. take (length before.now) v.items ≡ before.now) }
{
    let mut file = Vec::from_slice(alloc, before)?;
    let head = code_head(alloc, form, form.head_size() + 2)?;
    file.extend_from_slice(&head)?;
    file.extend_from_slice(&[0xFF, 0x4F])?;
    Ok(file)
}

/// Where the codestream of a JP2 file begins, in whose last box it stands: with a short codestream in
/// its place the boxes before it are those of a JP2 file, and the length of its box is due.
fn jp2_start(alloc: Global, front: &[u8], size: usize) -> Result<usize, Fault>
    ensures { (f : List ℕ) → length f ≡ size → front.now ≡ take (length front.now) f
        → IfOk result (λ n. IsJp2 f (drop n f)) }
{
    let Some((at, form)) = find_code(front) else {
        return Err(Fault::BadBox);
    };
    let head = form.head_size();
    if head > front.len() - at || size < front.len() {
        return Err(Fault::Truncated);
    }
    let start = at + head;
    let due = fits(form, size - at);
    if !due {
        return Err(Fault::Limit);
    }
    let told = code_head(alloc, form, size - at)?;
    let is_told = are_same(&front[at..start], &told);
    if !is_told {
        return Err(Fault::BadBox);
    }
    let small = small_file(alloc, &front[..at], form)?;
    let boxed = open(&small)?;
    let told_form = code_form(&small)?;
    if !boxed.jp2 || boxed.start != start || boxed.end != small.len() {
        return Err(Fault::BadBox);
    }
    let same = are_one(told_form, form);
    if !same {
        return Err(Fault::BadBox);
    }
    Ok(start)
}

/// Where the codestream begins of a file of so many bytes, of which these are the first: it goes on
/// up to the end of the file.
///
/// A fault where it isn't known by these, or another box follows it.
pub(crate) fn code_start(alloc: Global, front: &[u8], size: usize) -> Result<usize, Fault>
    ensures { (f : List ℕ) → length f ≡ size → front.now ≡ take (length front.now) f
        → IfOk result (λ n. HoldsCodestream f (drop n f)) }
{
    if front.len() >= 2 && front[0] == 0xFF && front[1] == 0x4F {
        return Ok(0);
    }
    let start = jp2_start(alloc, front, size)?;
    Ok(start)
}
