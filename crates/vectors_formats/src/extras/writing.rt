use crate::extras::boxes::{FINE, WIDE, bytes, grid};
use crate::extras::claims::{are, refuses};
use crate::extras::given::{DRESSED, EVERYTHING, NOT_DRESSED, NOT_READ, NOT_TOLD, TEXTS};
use jk_extras::{Colour, Extras, Other, extras_text, read_extras, with_extras};
use jk_math::Fault;
use std::alloc::Global;
use std::process::Abort;
use vectors::{Line, equal_at};

/// A file with what boxes say.
fn given(alloc: Global, file: &[u8], boxes: &[u8]) -> Result<Vec<u8>, Fault> {
    let extras = read_extras(alloc, boxes)?;
    with_extras(alloc, file, &extras)
}

/// The same of words.
fn given_words(rt: &impl Abort, alloc: Global, file: &str, boxes: &str) -> Result<Vec<u8>, Fault> {
    given(alloc, &bytes(rt, alloc, file), &bytes(rt, alloc, boxes))
}

/// The file of a line with what boxes say is this one.
fn is_dressed(rt: &impl Abort, alloc: Global, line: &str) {
    let mut fields = Line::new(line, '|');
    let (file, boxes, due) = (fields.word(), fields.word(), fields.word());
    fields.end().expect(rt, "a case");
    let found = given_words(rt, alloc, file, boxes).expect(rt, "a file");
    are(rt, line, &found, &bytes(rt, alloc, due));
}

#[test]
fn dressed(rt: HostRuntime) {
    for line in DRESSED.lines() {
        is_dressed(&rt, rt.alloc(), line);
    }
}

/// The file of a line isn't given what boxes say.
fn is_not_dressed(rt: &impl Abort, alloc: Global, line: &str) {
    let mut fields = Line::new(line, '|');
    let (file, boxes, due) = (fields.word(), fields.word(), fields.word());
    fields.end().expect(rt, "a case");
    let fault = given_words(rt, alloc, file, boxes).err();
    refuses(rt, alloc, line, fault, due);
}

#[test]
fn not_dressed(rt: HostRuntime) {
    for line in NOT_DRESSED.lines() {
        is_not_dressed(&rt, rt.alloc(), line);
    }
}

/// Boxes of a UUID and of XML.
fn boxes_of_both(rt: &impl Abort, alloc: Global) -> Vec<Other> {
    let mut id = [0; 16];
    id.copy_from_slice(b"\x00\x11\x22\x33\x44\x55\x66\x77\x88\x99\xAA\xBB\xCC\xDD\xEE\xFF");
    let mut others = Vec::new(alloc);
    let uuid = Other::Uuid(id, bytes(rt, alloc, "616263"));
    others.push(uuid).expect(rt, "a box");
    let xml = Other::Xml(bytes(rt, alloc, "3c612f3e"));
    others.push(xml).expect(rt, "a box");
    others
}

/// Everything that a file can keep, field by field.
fn everything(rt: &impl Abort, alloc: Global) -> Extras {
    Extras {
        colour: Colour::Profile(bytes(rt, alloc, "grey_icc")),
        capture: grid(Some(FINE)),
        display: grid(Some(WIDE)),
        others: boxes_of_both(rt, alloc),
    }
}

/// A file with these extras is this one.
fn keeps(rt: &impl Abort, alloc: Global, file: &str, extras: &Extras, due: &str) {
    let found = with_extras(alloc, &bytes(rt, alloc, file), extras).expect(rt, "a file");
    are(rt, file, &found, &bytes(rt, alloc, due));
}

#[test]
fn by_its_fields(rt: HostRuntime) {
    let alloc = rt.alloc();
    keeps(&rt, alloc, "plain", &everything(&rt, alloc), EVERYTHING);
    keeps(&rt, alloc, EVERYTHING, &Extras::none(alloc), EVERYTHING);
}

/// The boxes of a line aren't read.
fn is_not_read(rt: &impl Abort, alloc: Global, line: &str) {
    let mut fields = Line::new(line, '|');
    let (boxes, due) = (fields.word(), fields.word());
    fields.end().expect(rt, "a case");
    let fault = read_extras(alloc, &bytes(rt, alloc, boxes)).err();
    refuses(rt, alloc, line, fault, due);
}

#[test]
fn not_read(rt: HostRuntime) {
    for line in NOT_READ.lines() {
        is_not_read(&rt, rt.alloc(), line);
    }
}

/// What a file keeps, as boxes.
fn text_of(rt: &impl Abort, alloc: Global, file: &str) -> Result<Vec<u8>, Fault> {
    extras_text(alloc, &bytes(rt, alloc, file))
}

/// What the file of a line keeps, as boxes.
fn is_told(rt: &impl Abort, alloc: Global, line: &str) {
    let mut fields = Line::new(line, '|');
    let (file, due) = (fields.word(), fields.word());
    fields.end().expect(rt, "a case");
    let found = text_of(rt, alloc, file).expect(rt, "boxes");
    are(rt, line, &found, &bytes(rt, alloc, due));
}

#[test]
fn told_as_boxes(rt: HostRuntime) {
    for line in TEXTS.lines() {
        is_told(&rt, rt.alloc(), line);
    }
}

/// What the file of a line keeps isn't told.
fn is_not_told(rt: &impl Abort, alloc: Global, line: &str) {
    let mut fields = Line::new(line, '|');
    let (file, due) = (fields.word(), fields.word());
    fields.end().expect(rt, "a case");
    refuses(rt, alloc, line, text_of(rt, alloc, file).err(), due);
}

#[test]
fn not_told_as_boxes(rt: HostRuntime) {
    for line in NOT_TOLD.lines() {
        is_not_told(&rt, rt.alloc(), line);
    }
}

/// The plain file with what boxes say.
fn plain_with(rt: &impl Abort, alloc: Global, boxes: &[u8]) -> Vec<u8> {
    given(alloc, &bytes(rt, alloc, "plain"), boxes).expect(rt, "a file")
}

/// What a file keeps is told as the same boxes of the plain one that was given it.
fn comes_back(rt: &impl Abort, alloc: Global, file: &str) {
    let boxes = text_of(rt, alloc, file).expect(rt, "boxes");
    let found = extras_text(alloc, &plain_with(rt, alloc, &boxes)).expect(rt, "boxes");
    are(rt, file, &found, &boxes);
}

/// What a file keeps, as boxes, given to the plain one, is told as the same boxes.
#[test]
fn there_and_back(rt: HostRuntime) {
    comes_back(&rt, rt.alloc(), "full");
    comes_back(&rt, rt.alloc(), EVERYTHING);
}

/// A file with a profile of so many zeros behind its front.
fn large(rt: &impl Abort, alloc: Global, front: &str, size: usize) -> Vec<u8> {
    let mut file = bytes(rt, alloc, front);
    let end = file.len().saturating_add(size);
    file.resize(end, 0).expect(rt, "zeros");
    let code = bytes(rt, alloc, "code");
    file.extend_from_slice(&code).expect(rt, "a codestream");
    file
}

/// How many bytes of boxes are told of a file with a profile of so many zeros.
fn tells(rt: &impl Abort, alloc: Global, front: &str, size: usize, due: Result<usize, Fault>) {
    let file = large(rt, alloc, front, size);
    let found = extras_text(alloc, &file).map(|text| text.len());
    equal_at(size, found, due).expect(rt, "bytes of boxes");
}

/// A profile of 2^24 bytes is told, and no longer one.
#[test]
fn large_profiles(rt: HostRuntime) {
    let front = "front 01000029 jp2h one 0100000b 636f6c72 020000";
    tells(&rt, rt.alloc(), front, 1 << 24, Ok(16_777_227));
    let front = "front 0100002a jp2h one 0100000c 636f6c72 020000";
    tells(&rt, rt.alloc(), front, 16_777_217, Err(Fault::Limit));
}
