//! Where the codestream of a file stands.

ghost use Rattle.std.specs.Prelude.{◌≡◌, ◌+◌, ◌≤◌, length, drop, IfOk, Ok, List, ℕ, nat_eq, slice_range};
ghost use Rattle.std.specs.List.{starts_with};
ghost use Rattle.jk_boxes.specs.Boxes.{head_size, soc, HoldsAt};
ghost use Rattle.jk_boxes.specs.Reading.{passed, place_in, walk_at, signature_at, jp2_at, boxes_at};

use crate::boxes::{self, BoxHead, Form, read_box, read_file_type, read_header};
use jk_math::Fault;

/// The signature box.
static SIGNATURE: [u8; 12] = [0, 0, 0, 12, 0x6A, 0x50, 0x20, 0x20, 0x0D, 0x0A, 0x87, 0x0A];
/// The marker SOC.
static SOC: [u8; 2] = [0xFF, 0x4F];

/// Where the codestream of a file stands (T.800 I.5.4).
#[derive(Clone, Copy, Debug, PartialEq, Eq)]
pub struct Boxed {
    /// The place of its first byte in the file.
    pub start: usize,
    /// The place after its last byte.
    pub end: usize,
    /// Whether it stands in a JP2 file; otherwise it is the file.
    pub jp2: bool,
}

/// The contents of the codestream box, and how the length of the box is told.
#[derive(Clone, Copy, Debug, PartialEq, Eq)]
pub struct CodePlace {
    pub form: Form,
    pub start: usize,
    pub end: usize,
}

/// How far the boxes that a JP2 file must have were met.
#[derive(Clone, Copy, Debug, PartialEq, Eq)]
pub enum Seen {
    Nothing,
    Header,
    Code(CodePlace),
}

/// Passes a box, which begins the rest of the file.
#[tactic(auto, unfolding(crate::specs::Reading::passed))]
fn pass(seen: Seen, at: usize, head: &BoxHead, rest: &[u8]) -> Result<Seen, Fault>
    requires head { head_size head.now.form ≤ head.now.size }
    requires whole { head.now.size ≤ length rest.now }
    requires place { at + length rest.now ≤ usize.MAX }
    ensures { result ≡ passed seen at head.now rest.now }
{
    match seen {
        Seen::Nothing => {
            if head.kind == boxes::HEADER {
                read_header(head.contents(rest), head.size == rest.len())?;
                return Ok(Seen::Header);
            }
            if head.kind == boxes::CODE {
                return Err(Fault::BadBox);
            }
            Ok(Seen::Nothing)
        }
        Seen::Header => {
            if head.kind == boxes::CODE {
                return Ok(Seen::Code(CodePlace {
                    form: head.form,
                    start: at + head.form.head_size(),
                    end: at + head.size,
                }));
            }
            Ok(Seen::Header)
        }
        Seen::Code(place) => Ok(Seen::Code(place)),
    }
}

/// Walks over the boxes from `at` to the end of the file.
fn walk(file: &[u8], at: usize) -> Result<CodePlace, Fault>
    requires { at ≤ length file.now }
    ensures { result ≡ walk_at (length file.now) Seen.Nothing at (drop at file.now) }
{
    let mut at = at;
    let mut seen = Seen::Nothing;
    while at < file.len() {
        let rest = &file[at..];
        let head = read_box(rest, true)?;
        seen = pass(seen, at, &head, rest)?;
        at += head.size;
    }
    match seen {
        Seen::Code(place) => Ok(place),
        _ => Err(Fault::BadBox),
    }
}

/// Passes the signature box (T.800 I.5.1).
#[tactic(auto, unfolding(crate::specs::Reading::signature_at))]
fn read_signature(file: &[u8]) -> Result<(), Fault>
    ensures exact { result ≡ signature_at file.now }
    ensures long { IfOk result (λ _. 12 ≤ length file.now) }
{
    if file.starts_with(&SIGNATURE) {
        return Ok(());
    }
    if file.len() < SIGNATURE.len() && SIGNATURE.starts_with(file) {
        return Err(Fault::Truncated);
    }
    Err(Fault::BadBox)
}

/// The codestream box of a JP2 file.
#[tactic(auto, unfolding(crate::specs::Reading::jp2_at))]
fn find_code(file: &[u8]) -> Result<CodePlace, Fault>
    ensures { result ≡ jp2_at file.now }
{
    read_signature(file)?;
    let size = read_file_type(&file[12..])?;
    walk(file, 12 + size)
}

/// The codestream box of a JP2 file, within the file.
pub fn code_place(file: &[u8]) -> Result<CodePlace, Fault>
    ensures exact { result ≡ jp2_at file.now }
    ensures before { IfOk result (λ p. head_size p.form ≤ p.start) }
    ensures start { IfOk result (λ p. p.start ≤ length file.now) }
    ensures end { IfOk result (λ p. p.end ≤ length file.now) }
{
    find_code(file)
}

/// Whether a file is a bare codestream.
pub(crate) fn is_bare(file: &[u8]) -> bool
    ensures { result ≡ starts_with nat_eq file.now soc }
{
    file.starts_with(&SOC)
}

#[tactic(auto, unfolding(crate::specs::Reading::boxes_at))]
fn place(bytes: &[u8]) -> Result<Boxed, Fault>
    ensures { result ≡ boxes_at bytes.now }
{
    if bytes.len() < 2 {
        return Err(Fault::Truncated);
    }
    if is_bare(bytes) {
        return Ok(Boxed {
            start: 0,
            end: bytes.len(),
            jp2: false,
        });
    }
    let code = find_code(bytes)?;
    Ok(Boxed {
        start: code.start,
        end: code.end,
        jp2: true,
    })
}

/// The place of the codestream in a file (T.800 Annex I). A file that begins with SOC is the
/// codestream.
///
/// Truncated: a box passes the end of the file or of the box around it. Unsupported: `jp2 ` isn't
/// in the compatibility list, a compression type other than 7, or a palette. BadBox: no file type
/// box after the signature, no JP2 header box before the first codestream box, no image header box
/// of 22 bytes first in it, no codestream box, or a length that isn't one.
pub fn open(bytes: &[u8]) -> Result<Boxed, Fault>
    ensures exact { result ≡ boxes_at bytes.now }
    // What is opened holds the codestream at this place.
    ensures found { IfOk result (λ b. HoldsAt bytes.now (slice_range bytes.now b.start b.end) b) }
    // What holds a codestream at a place is opened there.
    ensures only { (codestream : List ℕ) (b : Boxed) → HoldsAt bytes.now codestream b
        → (result ≡ Ok b) × (codestream ≡ slice_range bytes.now b.start b.end) }
    ensures within { IfOk result (λ b. (b.start ≤ b.end) × (b.end ≤ length bytes.now)) }
{
    place(bytes)
}
