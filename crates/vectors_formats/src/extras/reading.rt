use crate::extras::boxes::{FINE, NEAR, WIDE, bytes, grid};
use crate::extras::claims::{are, says};
use crate::extras::told::{FILES, OTHERS, TOLD};
use jk_extras::{Grid, Kind, Told, ToldColour, ToldOther, extras_at, other_after};
use jk_math::Fault;
use std::alloc::{AllocError, Global};
use std::process::Abort;
use vectors::{Line, Told as Text, equal, equal_at};

/// The name of a resolution.
fn name_of(found: Option<Grid>) -> &'static str {
    if found == grid(Some(FINE)) {
        "fine"
    } else if found == grid(Some(WIDE)) {
        "wide"
    } else if found == grid(Some(NEAR)) {
        "near"
    } else if found.is_none() {
        "none"
    } else {
        "another"
    }
}

/// Tells of a file its colour, and its resolutions of capture and of display.
fn tell(text: &mut Text, told: &Told) {
    text.shown(&told.colour);
    text.word(" ");
    text.word(name_of(told.capture));
    text.word(" ");
    text.word(name_of(told.display));
}

/// What a file keeps, or its fault.
fn kept(file: &[u8]) -> Result<Told, Fault> {
    extras_at(file)
}

/// What is told of a file, or its fault.
fn told(alloc: Global, file: &[u8]) -> Result<String, AllocError> {
    let mut text = Text::new(alloc);
    match kept(file) {
        Ok(told) => tell(&mut text, &told),
        Err(fault) => text.shown(&fault),
    }
    text.end()
}

/// This is told of a file.
fn tells(rt: &impl Abort, alloc: Global, case: &str, words: &str, due: &str) {
    let file = bytes(rt, alloc, words);
    let found = told(alloc, &file).expect(rt, "a text");
    says(rt, case, found.as_str(), due);
}

/// A file with these boxes behind its image header box.
fn with_header(rt: &impl Abort, alloc: Global, boxes: &str) -> String {
    let size = (bytes(rt, alloc, boxes).len() & 0xFFFF) + 30;
    format!(in alloc; "front {size:08x} jp2h one {boxes} code").expect(rt, "a file")
}

/// What is told of a file with the boxes of a line in its header.
fn header_told(rt: &impl Abort, alloc: Global, line: &str) {
    let mut fields = Line::new(line, '|');
    let (boxes, due) = (fields.word(), fields.word());
    fields.end().expect(rt, "a case");
    let file = with_header(rt, alloc, boxes);
    tells(rt, alloc, line, file.as_str(), due);
}

#[test]
fn headers(rt: HostRuntime) {
    for line in TOLD.lines() {
        header_told(&rt, rt.alloc(), line);
    }
}

/// What is told of the file of a line.
fn file_told(rt: &impl Abort, alloc: Global, line: &str) {
    let mut fields = Line::new(line, '|');
    let (file, due) = (fields.word(), fields.word());
    fields.end().expect(rt, "a case");
    tells(rt, alloc, line, file, due);
}

#[test]
fn files(rt: HostRuntime) {
    for line in FILES.lines() {
        file_told(&rt, rt.alloc(), line);
    }
}

/// Adds bytes.
fn add(rt: &impl Abort, out: &mut Vec<u8>, bytes: &[u8]) {
    out.extend_from_slice(bytes).expect(rt, "bytes");
}

/// The kind of a box, and where what it holds begins, of one under a UUID with its bytes.
fn kind_of(told: &ToldOther) -> (&'static str, usize) {
    match told.kind {
        Kind::Xml => ("xml ", told.start),
        Kind::Uuid => ("uuid", told.start.wrapping_sub(16)),
    }
}

/// Adds the kind of a box, the bytes of its UUID, and its contents.
fn add_box(rt: &impl Abort, out: &mut Vec<u8>, file: &[u8], told: &ToldOther) {
    let (kind, start) = kind_of(told);
    add(rt, out, kind.as_bytes());
    add(rt, out, file.get(start..told.end).unwrap_or(b"?"));
}

/// Adds a fault, as it is told.
fn add_fault(rt: &impl Abort, alloc: Global, out: &mut Vec<u8>, fault: Fault) {
    let text = fault.to_string(alloc).expect(rt, "a fault");
    add(rt, out, text.as_bytes());
}

/// The next box of XML or under a UUID.
fn next(file: &[u8], at: usize) -> Result<Option<ToldOther>, Fault> {
    other_after(file, at)
}

/// The boxes of XML and under UUIDs of a file one after another: the kind of each, the bytes of its
/// UUID, and its contents; and the fault that ends them, as it is told. There are fewer than a
/// hundred.
fn others(rt: &impl Abort, alloc: Global, file: &[u8]) -> Vec<u8> {
    let mut out = Vec::new(alloc);
    let mut at = kept(file).expect(rt, "a file").others;
    for _ in 0..100 {
        match next(file, at) {
            Ok(Some(told)) => {
                add_box(rt, &mut out, file, &told);
                at = told.end;
            }
            Ok(None) => return out,
            Err(fault) => {
                add_fault(rt, alloc, &mut out, fault);
                return out;
            }
        }
    }
    add(rt, &mut out, b"more than a hundred boxes");
    out
}

/// The file of a line has these boxes.
fn has_others(rt: &impl Abort, alloc: Global, line: &str) {
    let mut fields = Line::new(line, '|');
    let (file, due) = (fields.word(), fields.word());
    fields.end().expect(rt, "a case");
    let found = others(rt, alloc, &bytes(rt, alloc, file));
    are(rt, line, &found, &bytes(rt, alloc, due));
}

#[test]
fn others_in_their_order(rt: HostRuntime) {
    for line in OTHERS.lines() {
        has_others(&rt, rt.alloc(), line);
    }
}

/// The next box behind a place of a file begins here, or there is none.
fn begins(rt: &impl Abort, file: &[u8], from: usize, due: Option<usize>) {
    let found = next(file, from).expect(rt, "a box");
    equal_at(from, found.map(|told| told.start), due).expect(rt, "a place");
}

/// From the place where a box begins: that box, the next one behind it, or none.
#[test]
fn from_a_place(rt: HostRuntime) {
    let file = bytes(&rt, rt.alloc(), "front xml header uuid code");
    begins(&rt, &file, 12, Some(40));
    begins(&rt, &file, 32, Some(40));
    begins(&rt, &file, 44, Some(98));
    begins(&rt, &file, 74, Some(98));
    begins(&rt, &file, 101, None);
    begins(&rt, &file, 111, None);
    begins(&rt, &file, 1 << 40, None);
}

#[test]
fn a_bare_codestream_keeps_nothing(rt: HostRuntime) {
    let file = bytes(&rt, rt.alloc(), "ff4f profile xml uuid");
    let due = Told {
        colour: ToldColour::Nothing,
        capture: None,
        display: None,
        others: file.len(),
    };
    equal(kept(&file), Ok(due)).expect(&rt, "a bare codestream");
}
