//! All faults, in words.

use jk_math::Fault;
use std::alloc::{AllocError, Global};
use std::fmt;

/// The line of the fault that only a refused growth of memory makes, so that none can be named
/// here.
static MEMORY: &str = "F1 Memory: out of memory\n";

/// The causes of the other faults.
static CAUSES: [(Fault, &str); 21] = [
    (
        Fault::Truncated,
        "the file, a box or a tile-part is cut off, or EOC is missing at the end",
    ),
    (
        Fault::BadMarker,
        "a marker that isn't allowed here, a second one where one is allowed, or a required one is missing",
    ),
    (
        Fault::BadLength,
        "a segment's length contradicts its contents; Psot from 1 to 13; a length of SOP other than 4",
    ),
    (
        Fault::BadValue,
        "a field has a value that T.800 doesn't allow, or a segmentation symbol is wrong",
    ),
    (
        Fault::Unsupported,
        "allowed by T.800, but not supported by jk",
    ),
    (
        Fault::Limit,
        "past a limit of jk, such as on samples, coordinates, levels, bit-planes, packets or the length of a tile-part",
    ),
    (
        Fault::PacketHeader,
        "a stuffed bit is 1, more zero bit-planes than Mb, a length field wider than 32 bits, or EPH is missing",
    ),
    (
        Fault::TooManyPasses,
        "more coding passes of a code-block than its bit-planes have",
    ),
    (
        Fault::CodeOutOfInterval,
        "the code value leaves the interval of the MQ coder",
    ),
    (
        Fault::MissingPackets,
        "the tile-parts of a tile end with packets left, or a tile has no tile-part",
    ),
    (
        Fault::SurplusBytes,
        "bytes after a tile's last packet or after EOC",
    ),
    (Fault::BadBox, "the structure of the JP2 boxes is broken"),
    (
        Fault::BadPnm,
        "not a binary PGM or PPM file with maxval 2^B - 1, B from 1 to 16",
    ),
    (
        Fault::BadParameters,
        "the image, a parameter or the number of workers is outside the profile",
    ),
    (
        Fault::BadWindow,
        "more reductions than levels, no layer, or a window or reduced image without samples",
    ),
    (Fault::NoSuchImage, "the name isn't listed"),
    (Fault::NameTaken, "an image of this name exists"),
    (
        Fault::BadName,
        "not 1 to 64 of the characters a to z, 0 to 9, - and _",
    ),
    (Fault::Shelf, "I/O error: a file can't be read or written"),
    (Fault::Changed, "the file was changed since it was indexed"),
    (Fault::WorkerFailed, "a thread couldn't be started"),
];

/// The line of a fault on standard error.
#[derive(Drop)]
pub struct FaultLine {
    pub fault: Fault,
}

impl fmt::Display for FaultLine {
    fn fmt<W: fmt::Write>(&self, f: &mut fmt::Formatter<W>) -> fmt::Result {
        write!(f, "jk: {}\n", self.fault)
    }
}

/// The cause of a fault, as its name has it.
pub fn cause_of(fault: &Fault) -> &'static str {
    for (listed, cause) in &CAUSES {
        if listed == fault {
            return cause;
        }
    }
    "out of memory"
}

/// All faults in their order, each a line of its number, name and cause.
pub fn fault_lines(alloc: Global) -> Result<String, AllocError> {
    let mut text = String::from_str(alloc, MEMORY)?;
    for (fault, cause) in &CAUSES {
        let line = format!(in alloc; "{fault}: {cause}\n")?;
        text.push_str(&line)?;
    }
    Ok(text)
}
