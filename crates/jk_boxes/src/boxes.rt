//! The head of a box, and the boxes whose contents are judged.

ghost use Rattle.std.specs.Prelude.{◌≡◌, ◌+◌, ◌≤◌, ◌<◌, ◌==◌, length, IfOk};
ghost use Rattle.jk_boxes.specs.Boxes.{head_size};
ghost use Rattle.jk_boxes.specs.Reading.{length_at, box_at, contents_of, box_of_kind_at, names_jp2, file_type_at};
ghost use Rattle.jk_boxes.specs.Reading.{no_palette_at, header_at};

use byteorder::{BigEndian, ByteOrder};
use jk_math::Fault;

/// The file type box.
pub const FILE_TYPE: u32 = 0x6674_7970;
/// The JP2 header box.
pub const HEADER: u32 = 0x6A70_3268;
/// The image header box.
pub const IMAGE_HEADER: u32 = 0x6968_6472;
/// The colour specification box.
pub const COLOUR: u32 = 0x636F_6C72;
/// The palette box.
pub const PALETTE: u32 = 0x7063_6C72;
/// The contiguous codestream box.
pub const CODE: u32 = 0x6A70_3263;
/// The brand of a JP2 file.
pub const JP2: u32 = 0x6A70_3220;

/// How the length of a box is told (T.800 I.4): by four bytes, by eight more, or by the end of the
/// file.
#[derive(Clone, Copy, Debug, PartialEq, Eq)]
pub enum Form {
    Short,
    Long,
    Open,
}

impl Form {
    /// How many bytes stand before the contents.
    pub fn head_size(self) -> usize
        ensures value { result ≡ head_size self }
    {
        match self {
            Form::Short | Form::Open => 8,
            Form::Long => 16,
        }
    }
}

/// The head of a box (T.800 I.4), and the length of the whole.
#[derive(Clone, Copy, Debug, PartialEq, Eq)]
pub struct BoxHead {
    pub form: Form,
    /// TBox.
    pub kind: u32,
    pub size: usize,
}

impl BoxHead {
    /// The contents of this box, which begins the bytes.
    pub fn contents<'a>(&self, rest: &'a [u8]) -> &'a [u8]
        requires head { head_size self.now.form ≤ self.now.size }
        requires whole { self.now.size ≤ length rest.now }
        ensures { result.now ≡ contents_of self.now rest.now }
    {
        &rest[self.form.head_size()..self.size]
    }
}

/// How the length of the box that begins the bytes is told, and the length.
#[tactic(auto, unfolding(crate::specs::Reading::length_at))]
fn length(rest: &[u8], ends: bool) -> Result<(Form, u64), Fault>
    requires { 8 ≤ length rest.now }
    ensures exact { result ≡ length_at ends rest.now }
    ensures head { IfOk result (λ l. head_size l.0 ≤ l.1) }
{
    let short = BigEndian::read_u32(rest);
    if short == 0 {
        return if ends {
            Ok((Form::Open, rest.len() as u64))
        } else {
            Err(Fault::Truncated)
        };
    }
    if short == 1 {
        if rest.len() < 16 {
            return Err(Fault::Truncated);
        }
        let long = BigEndian::read_u64(&rest[8..]);
        return if long < 16 {
            Err(Fault::BadBox)
        } else {
            Ok((Form::Long, long))
        };
    }
    if short < 8 {
        return Err(Fault::BadBox);
    }
    Ok((Form::Short, short as u64))
}

/// The box that begins the bytes. `ends` says whether the file ends with them.
#[tactic(auto, unfolding(crate::specs::Reading::box_at))]
pub fn read_box(rest: &[u8], ends: bool) -> Result<BoxHead, Fault>
    ensures exact { result ≡ box_at ends rest.now }
    ensures head { IfOk result (λ b. head_size b.form ≤ b.size) }
    ensures whole { IfOk result (λ b. b.size ≤ length rest.now) }
{
    if rest.len() < 8 {
        return Err(Fault::Truncated);
    }
    let (form, size) = length(rest, ends)?;
    if (rest.len() as u64) < size {
        return Err(Fault::Truncated);
    }
    Ok(BoxHead {
        form,
        kind: BigEndian::read_u32(&rest[4..]),
        size: size as usize,
    })
}

/// The box that begins the bytes, which must be of this kind.
#[tactic(auto, unfolding(crate::specs::Reading::box_of_kind_at))]
fn read_box_of_kind(rest: &[u8], kind: u32, ends: bool) -> Result<BoxHead, Fault>
    ensures exact { result ≡ box_of_kind_at kind ends rest.now }
    ensures head { IfOk result (λ b. head_size b.form ≤ b.size) }
    ensures whole { IfOk result (λ b. b.size ≤ length rest.now) }
{
    if rest.is_empty() {
        return Err(Fault::BadBox);
    }
    let head = read_box(rest, ends)?;
    if head.kind != kind {
        return Err(Fault::BadBox);
    }
    Ok(head)
}

/// Whether the brand `jp2 ` stands in a compatibility list.
fn names_jp2(list: &[u8]) -> bool
    ensures { result ≡ names_jp2 list.now }
{
    let mut at = 0;
    while list.len() - at >= 4 {
        if BigEndian::read_u32(&list[at..]) == JP2 {
            return true;
        }
        at += 4;
    }
    false
}

/// Passes the file type box (T.800 I.5.2), which begins the bytes, and answers its length.
#[tactic(auto, unfolding(crate::specs::Reading::file_type_at))]
pub fn read_file_type(rest: &[u8]) -> Result<usize, Fault>
    ensures exact { result ≡ file_type_at rest.now }
    ensures whole { IfOk result (λ size. size ≤ length rest.now) }
{
    let head = read_box_of_kind(rest, FILE_TYPE, true)?;
    let contents = head.contents(rest);
    if contents.len() < 8 || contents.len() % 4 != 0 {
        return Err(Fault::BadBox);
    }
    if !names_jp2(&contents[8..]) {
        return Err(Fault::Unsupported);
    }
    Ok(head.size)
}

/// Passes boxes of which none may be a palette.
fn pass_without_palette(boxes: &[u8], ends: bool) -> Result<(), Fault>
    ensures { result ≡ no_palette_at (length boxes.now) ends boxes.now }
{
    let mut at = 0;
    while at < boxes.len() {
        let head = read_box(&boxes[at..], ends)?;
        if head.kind == PALETTE {
            return Err(Fault::Unsupported);
        }
        at += head.size;
    }
    Ok(())
}

/// Judges the contents of the JP2 header box (T.800 I.5.3).
#[tactic(auto, unfolding(crate::specs::Reading::header_at))]
pub fn read_header(contents: &[u8], ends: bool) -> Result<(), Fault>
    ensures { result ≡ header_at ends contents.now }
{
    let first = read_box_of_kind(contents, IMAGE_HEADER, ends)?;
    if first.form != Form::Short || first.size != 22 {
        return Err(Fault::BadBox);
    }
    if contents[19] != 7 {
        return Err(Fault::Unsupported);
    }
    pass_without_palette(&contents[22..], ends)
}
