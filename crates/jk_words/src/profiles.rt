//! Why a file may not keep a profile. It is looked for where one was refused, to explain it, and
//! decides nothing.

use crate::features::{pair, quad};

/// The number of a signature of four letters.
fn signature(letters: &[u8; 4]) -> usize {
    quad(letters, 0)
}

/// Whether a profile has a tag of this name.
fn has_tag(profile: &[u8], name: &[u8; 4]) -> bool {
    let wanted = signature(name);
    for entry in 0..100usize {
        if entry >= quad(profile, 128) {
            return false;
        }
        if quad(profile, 132 + 12 * entry) == wanted {
            return true;
        }
    }
    false
}

/// Whether all tags and what they name lie within a profile, and there are at most 100.
fn has_table(profile: &[u8]) -> bool {
    let count = quad(profile, 128);
    if count > 100 || profile.len() < 132 + 12 * count {
        return false;
    }
    for entry in 0..count {
        let start = quad(profile, 136 + 12 * entry);
        let size = quad(profile, 140 + 12 * entry);
        if start.saturating_add(size) > profile.len() {
            return false;
        }
    }
    true
}

/// The curves and colorants that a profile of RGB has.
static OF_COLOUR: [&[u8; 4]; 6] = [b"rXYZ", b"gXYZ", b"bXYZ", b"rTRC", b"gTRC", b"bTRC"];

/// Whether a profile has the curves that its number of components asks for.
fn has_curves(profile: &[u8], components: u16) -> bool {
    if components == 1 {
        return has_tag(profile, b"kTRC");
    }
    for name in &OF_COLOUR {
        if !has_tag(profile, name) {
            return false;
        }
    }
    true
}

/// What is wrong with the front of a profile.
fn bad_front(profile: &[u8], components: u16) -> Option<&'static str> {
    if profile.len() < 132 || quad(profile, 36) != signature(b"acsp") {
        return Some("it is no ICC profile");
    }
    if quad(profile, 0) != profile.len() {
        return Some("it tells another length than it has");
    }
    let version = profile[8];
    if version != 2 && version != 4 {
        return Some("its version is neither 2 nor 4");
    }
    let class = quad(profile, 12);
    if class != signature(b"scnr") && class != signature(b"mntr") {
        return Some("it is neither of an input device (scnr) nor of a display (mntr)");
    }
    let space = quad(profile, 16);
    match components {
        1 if space != signature(b"GRAY") => Some(
            "the image is grey, and it isn't a profile of grey",
        ),
        3 if space != signature(b"RGB ") => Some(
            "the image has three components, and it isn't a profile of RGB",
        ),
        1 | 3 => None,
        _ => Some("the image has neither one component nor three"),
    }
}

/// Why a file of so many components may not keep a profile, if that is known: JP2 allows restricted
/// ones (T.800 I.5.3.3).
pub fn bad_profile(profile: &[u8], components: u16) -> Option<&'static str> {
    if profile.len() > 1 << 24 {
        return Some("it has more than 16777216 bytes");
    }
    let front = bad_front(profile, components);
    if front.is_some() {
        return front;
    }
    if quad(profile, 20) != signature(b"XYZ ") {
        return Some("it connects colours by Lab, and JP2 allows XYZ alone");
    }
    if !has_table(profile) {
        return Some("its table of tags is broken, or has more than 100");
    }
    if has_tag(profile, b"A2B0") {
        return Some("it has tables of colours (A2B0), and JP2 allows a matrix or a curve alone");
    }
    if !has_curves(profile, components) {
        return Some(
            "it lacks curves (kTRC), or colorants and curves of RGB (rXYZ, rTRC and so on)",
        );
    }
    None
}

/// How many components the image header box of a file tells, and 0 where there is none.
pub fn components_told(file: &[u8]) -> u16 {
    let front = &file[..file.len().min(65536)];
    for (at, word) in front.windows(4).enumerate() {
        if word == b"ihdr".as_slice() {
            return pair(file, at.saturating_add(12));
        }
    }
    0
}
