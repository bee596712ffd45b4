//! Why an input isn't an image that jk encodes, and what to do. It is looked for where an input was
//! rejected, to explain it, and decides nothing.

use crate::formats::{DICOM, format_of, is_coded, is_pnm};
use crate::front::Front;
use jk_pnm::{NoHeader, RasterHead, no_header, read_head};
use std::alloc::{AllocError, Global};

/// Why an input isn't read whose header is whole, with so many bytes after it.
fn bad_samples(
    alloc: Global,
    name: &str,
    head: &RasterHead,
    there: u64,
) -> Result<String, AllocError> {
    let due = head.raster_size() as u64;
    if there < due {
        return format!(in alloc;
            "{name} ends early: its header asks for {due} bytes of samples, and {there} are there"
        );
    }
    if due < there {
        let more = there - due;
        return format!(in alloc;
            "{name} has {more} bytes after its samples; jk reads files with one image"
        );
    }
    format!(in alloc; "{name} has a sample above its greatest value (maxval)")
}

/// Why bytes that begin as a PGM or PPM file does have no header.
fn bad_header(alloc: Global, name: &str, why: NoHeader) -> Result<String, AllocError> {
    match why {
        NoHeader::Magic => format!(in alloc; "{name} begins with neither P5 nor P6"),
        NoHeader::Numbers => format!(in alloc;
            "{name} has no whole header: after P5 or P6 stand WIDTH, HEIGHT and MAXVAL, each from 1 to 268435456"
        ),
        NoHeader::Maxval(maxval) => format!(in alloc;
            "{name} has the maxval {maxval}; jk reads maxvals 2^B - 1, as 1, 15, 255, 1023, 4095 and 65535"
        ),
        NoHeader::Space => format!(in alloc; "{name} has no whitespace after its maxval"),
        NoHeader::Pixels(width, height) => format!(in alloc;
            "{name} has {width} by {height} pixels; jk takes images of at most 268435456 (2^28)"
        ),
    }
}

/// Why an input that begins as a PGM or PPM file does isn't read.
fn bad_pnm(alloc: Global, name: &str, front: &Front) -> Result<String, AllocError> {
    let bytes = front.bytes();
    if let Ok((head, raster)) = read_head(bytes) {
        let header = bytes.len().saturating_sub(raster.len()) as u64;
        return bad_samples(alloc, name, &head, front.size().saturating_sub(header));
    }
    let why = no_header(bytes).unwrap_or(NoHeader::Numbers);
    bad_header(alloc, name, why)
}

/// What to do with a file of another format.
fn to_convert(alloc: Global, name: &str, format: &str) -> Result<String, AllocError> {
    if format == DICOM {
        return format!(in alloc;
            "{name} is {format}; jk encodes PGM and PPM files, and `python3 -m jk.dicom` DICOM files"
        );
    }
    format!(in alloc;
        "{name} is {format}; jk encodes binary PGM and PPM files. `python3 -m jk.convert` encodes PNG and TIFF files; ImageMagick makes PPM of others: convert {name} ppm:-"
    )
}

/// Why an input of a name isn't a PGM or PPM file that jk encodes.
pub fn not_pnm(alloc: Global, name: &str, front: &Front) -> Result<String, AllocError> {
    let bytes = front.bytes();
    if front.size() == 0 {
        return format!(in alloc; "{name} is empty");
    }
    if is_pnm(bytes) {
        return bad_pnm(alloc, name, front);
    }
    if is_coded(bytes) {
        return format!(in alloc;
            "{name} is a JPEG 2000 file already; `jk decode` makes a PGM or PPM file of it"
        );
    }
    match format_of(bytes) {
        Some(format) => to_convert(alloc, name, format),
        None => format!(in alloc; "{name} isn't a PGM or PPM file: these begin with P5 or P6"),
    }
}
