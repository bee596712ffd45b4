use crate::extras::boxes::{bytes, grid, put};
use crate::extras::claims::says;
use jk_extras::{Colour, Extras, Other, judge};
use jk_math::Fault;
use std::alloc::Global;
use std::process::Abort;
use vectors::{Line, equal_at};

/// A line for each profile: its name, the number of components of a file, how many bytes it has,
/// which also stand in it, other fields by their places, and whether the file may have it. First
/// profiles as they are, with other components; then the length; the signature; the version; the
/// class (display, input, output, link, space, abstract, named colours); the colour space (RGB, CMYK,
/// Lab); the space of connection (Lab); no tag, and a tag that names what ends where the profile does,
/// or behind; entries behind the end, 100 of them, 101, and the last one; A2B0, A2B1 beside kTRC, and
/// another curve; each of rXYZ gXYZ bXYZ rTRC gTRC bTRC lacking, and A2B0, wtpt beside them.
static PROFILES: &str = "\
grey_icc|1|160||yes
rgb_icc|3|252||yes
grey_icc|3|160||no
rgb_icc|1|252||no
grey_icc|0|160||no
grey_icc|2|160||no
rgb_icc|4|252||no
grey_icc|1|0||no
grey_icc|1|131|128=000000|no
grey_icc|1|132|128=00000000|no
grey_icc|1|144|136=000000840000000c|yes
grey_icc|1|143|136=000000840000000b|no
grey_icc|1|157||no
grey_icc|1|158||yes
grey_icc|1|1000||yes
grey_icc|1|160|0=0000009f|no
grey_icc|1|160|0=000000a1|no
grey_icc|1|160|0=010000a0|no
grey_icc|1|160|36=61637371|no
rgb_icc|3|252|36=00000000|no
grey_icc|1|160|8=01|no
grey_icc|1|160|8=03|no
grey_icc|1|160|8=0440|yes
grey_icc|1|160|8=05|no
rgb_icc|3|252|8=0230|yes
grey_icc|1|160|12=6d6e7472|yes
rgb_icc|3|252|12=73636e72|yes
grey_icc|1|160|12=70727472|no
grey_icc|1|160|12=6c696e6b|no
grey_icc|1|160|12=73706163|no
rgb_icc|3|252|12=61627374|no
rgb_icc|3|252|12=6e6d636c|no
grey_icc|1|160|16=52474220|no
rgb_icc|3|252|16=434d594b|no
rgb_icc|3|252|16=4c616220|no
grey_icc|1|160|20=4c616220|no
rgb_icc|3|252|20=4c616220|no
grey_icc|1|160|128=00000000|no
grey_icc|1|160|136=000000a000000000|yes
grey_icc|1|160|136=000000a100000000|no
grey_icc|1|160|136=0000009000000010|yes
grey_icc|1|160|136=0000009000000011|no
grey_icc|1|160|136=ffffffff00000001|no
grey_icc|1|160|136=00000090ffffffff|no
rgb_icc|3|252|196=000000fc00000001|no
grey_icc|1|160|128=00000003|no
grey_icc|1|1331|128=00000064|no
grey_icc|1|1332|128=00000064|yes
grey_icc|1|1344|128=00000065|no
grey_icc|1|160|128=80000001|no
grey_icc|1|1332|131=6400 1320=6b545243|yes
grey_icc|1|1344|131=6400 1332=6b545243|no
grey_icc|1|160|131=02 144=41324230|no
grey_icc|1|160|131=02 144=41324231|yes
grey_icc|1|160|132=72545243|no
rgb_icc|3|252|132=77|no
rgb_icc|3|252|144=77|no
rgb_icc|3|252|156=77|no
rgb_icc|3|252|168=6b|no
rgb_icc|3|252|180=6b|no
rgb_icc|3|252|192=6b|no
rgb_icc|3|252|131=05|no
rgb_icc|3|252|131=07 204=41324230|no
rgb_icc|3|252|131=07 204=77747074|yes";

/// Puts a field into a profile.
fn put_field(rt: &impl Abort, alloc: Global, profile: &mut [u8], text: &str) {
    let mut field = Line::new(text, '=');
    let (place, digits) = (field.number(0, 1400), field.word());
    field.end().expect(rt, "a field");
    put(profile, place as usize, &bytes(rt, alloc, digits));
}

/// A profile of so many bytes.
fn resized(rt: &impl Abort, alloc: Global, name: &str, size: usize) -> Vec<u8> {
    let mut profile = bytes(rt, alloc, name);
    profile.resize(size, 0).expect(rt, "a profile");
    put(&mut profile, 0, &((size & 0xFFFF) as u32).to_be_bytes());
    profile
}

/// A profile with so many bytes and with other fields.
fn changed(rt: &impl Abort, alloc: Global, name: &str, size: usize, fields: &str) -> Vec<u8> {
    let mut profile = resized(rt, alloc, name, size);
    for field in fields.split_whitespace() {
        put_field(rt, alloc, &mut profile, field);
    }
    profile
}

/// Extras of a colour alone.
fn coloured(alloc: Global, colour: Colour) -> Extras {
    Extras {
        colour,
        capture: None,
        display: None,
        others: Vec::new(alloc),
    }
}

/// Whether a file of so many components may keep something.
fn judged(extras: &Extras, components: u16) -> &'static str {
    match judge(extras, components) {
        Ok(()) => "yes",
        Err(Fault::BadParameters) => "no",
        Err(_) => "another fault",
    }
}

/// Whether a file may have the profile of a line.
fn is_judged(rt: &impl Abort, alloc: Global, line: &str) {
    let mut fields = Line::new(line, '|');
    let (name, components) = (fields.word(), fields.number(0, 4));
    let (size, changes) = (fields.number(0, 1400), fields.word());
    let due = fields.word();
    fields.end().expect(rt, "a case");
    let profile = changed(rt, alloc, name, size as usize, changes);
    let extras = coloured(alloc, Colour::Profile(profile));
    says(rt, line, judged(&extras, components as u16), due);
}

#[test]
fn profiles(rt: HostRuntime) {
    for line in PROFILES.lines() {
        is_judged(&rt, rt.alloc(), line);
    }
}

/// Whether a file of so many components may have a colour by its number.
fn is_enumerated(rt: &impl Abort, alloc: Global, components: u16, due: &str) {
    let extras = coloured(alloc, Colour::Enumerated);
    let found = judged(&extras, components);
    equal_at(components, found, due).expect(rt, "a colour");
}

#[test]
fn enumerated(rt: HostRuntime) {
    is_enumerated(&rt, rt.alloc(), 0, "no");
    is_enumerated(&rt, rt.alloc(), 1, "yes");
    is_enumerated(&rt, rt.alloc(), 2, "no");
    is_enumerated(&rt, rt.alloc(), 3, "yes");
    is_enumerated(&rt, rt.alloc(), 4, "no");
    is_enumerated(&rt, rt.alloc(), 257, "no");
}

/// A number of eight: 0 at one place, else 1.
fn one(place: u32, zero: u32) -> u16 {
    if place == zero { 0 } else { 1 }
}

/// Both resolutions, with a zero at a place.
fn with_zero(alloc: Global, zero: u32) -> Extras {
    let number = |place| one(place, zero);
    let mut extras = Extras::none(alloc);
    extras.capture = grid(Some(((number(0), number(1), 0), (number(2), number(3), 0))));
    extras.display = grid(Some(((number(4), number(5), 0), (number(6), number(7), 0))));
    extras
}

/// A zero at each of eight places, and at none.
#[test]
fn zeros(rt: HostRuntime) {
    for zero in 0..9 {
        let found = judged(&with_zero(rt.alloc(), zero), 1);
        let due = if zero == 8 { "yes" } else { "no" };
        equal_at(zero, found, due).expect(&rt, "a zero");
    }
}

/// A box of so many bytes of contents, under a UUID or of XML.
fn box_of(rt: &impl Abort, alloc: Global, uuid: bool, size: usize) -> Other {
    let contents = vec![in alloc; 0u8; size].expect(rt, "contents");
    if uuid {
        Other::Uuid([0; 16], contents)
    } else {
        Other::Xml(contents)
    }
}

/// So many boxes.
fn boxes(rt: &impl Abort, alloc: Global, uuid: bool, count: usize, size: usize) -> Vec<Other> {
    let mut others = Vec::new(alloc);
    for _ in 0..count {
        others
            .push(box_of(rt, alloc, uuid, size))
            .expect(rt, "a box");
    }
    others
}

/// Extras with a colour, a resolution, and other boxes.
fn many(alloc: Global, colour: bool, resolution: bool, others: Vec<Other>) -> Extras {
    let mut extras = Extras::none(alloc);
    if colour {
        extras.colour = Colour::Enumerated;
    }
    if resolution {
        extras.display = grid(Some(((1, 1, 0), (1, 1, 0))));
    }
    extras.others = others;
    extras
}

/// Whether there are a colour and a resolution and whether the other boxes have UUIDs, how many
/// these are and how many bytes each has, and what is judged: 1,024 boxes and 2^24 bytes may be.
static MANY: [((bool, bool, bool), usize, usize, bool); 12] = [
    ((false, false, false), 1024, 0, true),
    ((false, false, true), 1025, 0, false),
    ((true, false, false), 1023, 0, true),
    ((true, false, false), 1024, 0, false),
    ((false, true, false), 1023, 0, true),
    ((false, true, false), 1024, 0, false),
    ((true, true, false), 1022, 0, true),
    ((true, true, false), 1023, 0, false),
    ((false, false, false), 1, 16_777_208, true),
    ((false, false, false), 1, 16_777_209, false),
    ((true, true, true), 1, 16_777_151, true),
    ((true, true, true), 1, 16_777_152, false),
];

/// Whether a file may keep so many boxes.
fn holds(
    rt: &impl Abort,
    alloc: Global,
    (colour, resolution, uuid): (bool, bool, bool),
    (count, size): (usize, usize),
    due: bool,
) {
    let others = boxes(rt, alloc, uuid, count, size);
    let extras = many(alloc, colour, resolution, others);
    let found = judged(&extras, 1);
    let due = if due { "yes" } else { "no" };
    equal_at((colour, resolution, count, size), found, due).expect(rt, "boxes");
}

#[test]
fn how_much(rt: HostRuntime) {
    for (has, count, size, due) in &MANY {
        holds(&rt, rt.alloc(), *has, (*count, *size), *due);
    }
}
