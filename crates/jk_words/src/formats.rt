//! File formats by the first bytes of a file.

use crate::features::{codestream_start, quad};

/// A file format by the four bytes at its front: those of them that count, what they are, and what
/// such a file is called.
#[derive(Clone, Copy)]
struct Format(usize, usize, &'static str);

/// Formats that people have images in.
static FORMATS: [Format; 15] = [
    Format(0xFFFF_FFFF, 0x8950_4E47, "a PNG image"),
    Format(0xFFFF_FF00, 0xFFD8_FF00, "a JPEG image"),
    Format(0xFFFF_FFFF, 0x4949_2A00, "a TIFF image"),
    Format(0xFFFF_FFFF, 0x4D4D_002A, "a TIFF image"),
    Format(0xFFFF_FFFF, 0x4949_2B00, "a BigTIFF image"),
    Format(0xFFFF_FFFF, 0x4D4D_002B, "a BigTIFF image"),
    Format(0xFFFF_FFFF, 0x4749_4638, "a GIF image"),
    Format(
        0xFFFF_FFFF,
        0x5249_4646,
        "a WebP image or another RIFF file",
    ),
    Format(0xFFFF_0000, 0x424D_0000, "a BMP image"),
    Format(0xFFFF_FFFF, 0x2550_4446, "a PDF file"),
    Format(0xFFFF_0000, 0x5037_0000, "a PAM image (P7)"),
    Format(0xFFFF_0000, 0x5031_0000, "a PBM image (P1)"),
    Format(0xFFFF_0000, 0x5034_0000, "a PBM image (P4)"),
    Format(0xFFFF_0000, 0x5032_0000, "a plain PGM image (P2)"),
    Format(0xFFFF_0000, 0x5033_0000, "a plain PPM image (P3)"),
];

/// What a DICOM file is called.
pub(crate) const DICOM: &str = "a DICOM file";

/// What a file is called that begins with these bytes, if it has a format of another program.
pub(crate) fn format_of(bytes: &[u8]) -> Option<&'static str> {
    let first = quad(bytes, 0);
    for Format(counts, begins, name) in &FORMATS {
        if first & *counts == *begins {
            return Some(name);
        }
    }
    if quad(bytes, 128) == 0x4449_434D {
        return Some(DICOM);
    }
    None
}

/// Whether a file that begins with these bytes is a binary PGM or PPM file.
pub(crate) fn is_pnm(bytes: &[u8]) -> bool {
    bytes.starts_with(b"P5") || bytes.starts_with(b"P6")
}

/// Whether a file that begins with these bytes is a JP2 file or a codestream (T.800 I.5.1, A.4.1).
pub(crate) fn is_coded(bytes: &[u8]) -> bool {
    quad(bytes, 4) == 0x6A50_2020 || codestream_start(bytes).is_some()
}

/// What a command writes.
#[derive(Clone, Copy, Debug, PartialEq, Eq)]
pub enum Written {
    /// A PGM or PPM file.
    Pixels,
    /// A JPEG 2000 file.
    Coded,
}

/// The extensions of PGM and PPM files, of JPEG 2000 files, and of those of other programs.
static PIXELS: [&str; 3] = ["pgm", "ppm", "pnm"];

static CODED: [&str; 6] = ["jp2", "j2k", "j2c", "jpc", "jpx", "jpf"];

static OTHERS: [&str; 10] = [
    "png", "jpg", "jpeg", "tif", "tiff", "gif", "bmp", "webp", "pam", "pbm",
];

/// Whether an extension is one of these.
fn is_among(extension: &str, known: &[&str]) -> bool {
    for one in known {
        if extension.eq_ignore_ascii_case(one) {
            return true;
        }
    }
    false
}

/// Which format a file has that a command writes, where its name has the extension of another one.
pub fn other_extension(name: &str, written: Written) -> Option<&'static str> {
    let (_, extension) = name.rsplit_once('.')?;
    let is_other = is_among(extension, &OTHERS);
    match written {
        Written::Pixels if is_other || is_among(extension, &CODED) => Some("a PGM or PPM file"),
        Written::Coded if is_other || is_among(extension, &PIXELS) => Some("a JPEG 2000 file"),
        _ => None,
    }
}
