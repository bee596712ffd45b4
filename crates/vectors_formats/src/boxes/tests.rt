use crate::boxes::cases::{
    CHANGED, CODESTREAM, COLOUR, FILES, LONGER, RECODED, REPLACED, ROW, WHOLE,
};
use jk_boxes::{Boxed, open, replace_codestream, wrap};
use jk_math::{Fault, Image};
use std::alloc::{AllocError, Global};
use std::process::Abort;
use vectors::{Line, bytes_of, equal, equal_at};

/// Black samples.
fn black(rt: &impl Abort, alloc: Global, count: usize) -> Vec<i32> {
    vec![in alloc; 0; count].expect(rt, "samples")
}

/// What an image is.
#[derive(Clone, Copy)]
struct Kind {
    width: u32,
    height: u32,
    depth: u8,
    signed: bool,
    components: usize,
}

/// An image of black samples.
fn image(rt: &impl Abort, alloc: Global, kind: Kind) -> Image {
    let count = (kind.width as usize).saturating_mul(kind.height as usize);
    let mut planes = Vec::new(alloc);
    for _ in 0..kind.components {
        planes.push(black(rt, alloc, count)).expect(rt, "samples");
    }
    let (width, height) = (kind.width, kind.height);
    Image::new(0, 0, width, height, kind.depth, kind.signed, planes).expect(rt, "an image")
}

/// The bytes of a text.
fn file(rt: &impl Abort, alloc: Global, text: &str) -> Vec<u8> {
    bytes_of(alloc, &[text]).expect(rt, "a file")
}

/// A file has these bytes.
fn is_file(rt: &impl Abort, found: &[u8], due: &[u8]) {
    equal(found, due).expect(rt, "a file");
}

/// A file has so many bytes.
fn has_length(rt: &impl Abort, file: &[u8], due: usize) {
    equal(file.len(), due).expect(rt, "bytes");
}

/// What is read of the boxes of a file.
fn boxed(file: &[u8]) -> Result<Boxed, Fault> {
    open(file)
}

/// The same, as a programmer is told it.
fn told(alloc: Global, file: &[u8]) -> Result<String, AllocError> {
    let boxed = boxed(file);
    format!(in alloc; "{boxed:?}")
}

/// This is read of a file.
fn reads(rt: &impl Abort, alloc: Global, case: &str, file: &[u8], due: &str) {
    let found = told(alloc, file).expect(rt, "what is read");
    equal_at(case, found.as_str(), due).expect(rt, "boxes");
}

#[test]
fn an_unchanged_file(rt: HostRuntime) {
    let file = file(&rt, rt.alloc(), ROW);
    has_length(&rt, &file, 167);
    reads(&rt, rt.alloc(), "unchanged", &file, WHOLE);
}

/// The first file with another byte at a place.
fn with_byte(rt: &impl Abort, alloc: Global, place: usize, byte: u8) -> Vec<u8> {
    let mut file = file(rt, alloc, ROW);
    if place < file.len() {
        file[place] = byte;
    }
    file
}

/// What is read where a byte of the first file is another one.
fn changed(rt: &impl Abort, alloc: Global, line: &str) {
    let mut fields = Line::new(line, ' ');
    let place = fields.number(0, 166) as usize;
    let byte = fields.number(0, 255) as u8;
    let due = fields.rest();
    fields.end().expect(rt, "a case");
    let file = with_byte(rt, alloc, place, byte);
    reads(rt, alloc, line, &file, due);
}

#[test]
fn a_changed_byte(rt: HostRuntime) {
    for line in CHANGED.lines() {
        changed(&rt, rt.alloc(), line);
    }
}

/// What is read of a file.
fn is_read(rt: &impl Abort, alloc: Global, line: &str) {
    let mut fields = Line::new(line, '|');
    let (name, text, due) = (fields.word(), fields.word(), fields.word());
    fields.end().expect(rt, "a case");
    let file = file(rt, alloc, text);
    reads(rt, alloc, name, &file, due);
}

#[test]
fn files(rt: HostRuntime) {
    for line in FILES.lines() {
        is_read(&rt, rt.alloc(), line);
    }
}

/// An image's codestream has this file.
fn wraps(rt: &impl Abort, alloc: Global, kind: Kind, codestream: &str, want: &str) {
    let image = image(rt, alloc, kind);
    let codestream = file(rt, alloc, codestream);
    let found = wrap(alloc, &image, &codestream).expect(rt, "a file");
    is_file(rt, &found, &file(rt, alloc, want));
}

/// A grey image of one sample, with or without a sign, of so many components.
fn small(signed: bool, components: usize) -> Kind {
    Kind {
        width: 1,
        height: 1,
        depth: 8,
        signed,
        components,
    }
}

#[test]
fn wrapped(rt: HostRuntime) {
    wraps(&rt, rt.alloc(), small(false, 1), CODESTREAM, ROW);
    let colour = Kind {
        width: 3,
        height: 2,
        depth: 12,
        signed: false,
        components: 3,
    };
    wraps(&rt, rt.alloc(), colour, "ff4f", COLOUR);
}

/// An image has no file.
fn refused(rt: &impl Abort, alloc: Global, signed: bool, components: usize) {
    let image = image(rt, alloc, small(signed, components));
    let fault = wrap(alloc, &image, &[]).err();
    equal_at((signed, components), fault, Some(Fault::Unsupported)).expect(rt, "a fault");
}

#[test]
fn not_wrapped(rt: HostRuntime) {
    refused(&rt, rt.alloc(), true, 1);
    refused(&rt, rt.alloc(), false, 2);
    refused(&rt, rt.alloc(), false, 4);
}

/// Replaces the codestream of a file.
fn replaces(rt: &impl Abort, alloc: Global, file: &[u8], codestream: &[u8], want: &[u8]) {
    let boxed = open(file).expect(rt, "boxes");
    let replaced = replace_codestream(alloc, file, &boxed, codestream).expect(rt, "a file");
    is_file(rt, &replaced, want);
}

/// A file with another codestream is this one.
fn recodes(rt: &impl Abort, alloc: Global, before: &str, codestream: &str, after: &str) {
    let before = file(rt, alloc, before);
    let codestream = file(rt, alloc, codestream);
    let after = file(rt, alloc, after);
    replaces(rt, alloc, &before, &codestream, &after);
}

/// The files of a line, of which the second has another codestream.
fn is_recoded(rt: &impl Abort, alloc: Global, line: &str) {
    let mut fields = Line::new(line, '|');
    let (_name, before, after) = (fields.word(), fields.word(), fields.word());
    fields.end().expect(rt, "a case");
    recodes(rt, alloc, before, "ff4f010203", after);
}

#[test]
fn replaced(rt: HostRuntime) {
    has_length(&rt, &file(&rt, rt.alloc(), REPLACED), 169);
    recodes(&rt, rt.alloc(), ROW, LONGER, REPLACED);
    for line in RECODED.lines() {
        is_recoded(&rt, rt.alloc(), line);
    }
}
