//! The words of what a file keeps beside the samples.

use crate::commands::{CODED, EXPLAIN, Form, NO_CLOBBER, QUIET, Word, explained, with_words};
use clap::Command;
use std::alloc::{AllocError, Global};

/// What `jk dress` does.
const DRESS_HELP: &str = "\
The image isn't encoded again: samples and all boxes except the JP2 header box stay as they are. A
profile replaces the colour of the file, a resolution its resolutions; XML and UUID boxes are added
after existing ones, right before the codestream. The profile must be a restricted ICC profile: a matrix
profile of RGB or a curve of grey, version 2 or 4. OUT may be IN. Without an option OUT equals IN. A bare
codestream has no metadata (F15).";

/// What `jk extras` writes.
const EXTRAS_HELP: &str = "\
Prints a line for each item, a LABEL, a colon and a value:
colour: sRGB, grey, sYCC, enumerated=N, profile=SIZE, method=N or broken for each colour box; the
first one that is enumerated or a profile applies
capture: ACROSSxDOWN, each N/DeE, which is N / D * 10^E samples per metre
display: the same, the resolution for display
xml: SIZE of each XML box
uuid: HEX=SIZE of each UUID box
capture-per-inch, display-per-inch: ACROSSxDOWN, the resolutions per inch, such as 300x300
With --profile, --xml or --uuid nothing is listed: the profile that applies, the first XML box and the
first box of a UUID are written to files. If the file lacks one of them, none is written.";

/// What a file is to keep.
pub(crate) static KEPT_WORDS: [Word<'static>; 4] = [
    Word("profile", Form::File("FILE"), "ICC colour profile to store"),
    Word(
        "resolution",
        Form::Text("N"),
        "Resolution in samples per inch, such as 300, 300.5, or 300x600 across and down",
    ),
    Word("xml", Form::File("FILE"), "XML metadata to store"),
    Word(
        "uuid",
        Form::Files("HEX:FILE"),
        "File to store under a UUID of 32 hexadecimal digits, such as XMP or EXIF; may be given again",
    ),
];

/// The words of `jk dress` before its options.
static DRESS_WORDS: [Word<'static>; 3] = [
    CODED,
    Word(
        "OUT",
        Form::Place,
        "The JPEG 2000 file to write, or - for standard output",
    ),
    NO_CLOBBER,
];

/// `jk dress IN OUT`.
pub(crate) fn dress<'a>(alloc: Global) -> Result<Command<'a>, AllocError> {
    let command = explained(
        alloc,
        "dress",
        "Add metadata to a JP2 file: colour profile, resolution, XML, XMP, EXIF",
        DRESS_HELP,
    );
    let command = with_words(alloc, command, &DRESS_WORDS)?;
    let command = with_words(alloc, command, &KEPT_WORDS)?;
    with_words(alloc, command, &[QUIET, EXPLAIN])
}

/// The words of `jk extras`.
static EXTRAS_WORDS: [Word<'static>; 7] = [
    CODED,
    Word(
        "profile",
        Form::File("OUT"),
        "Write the ICC profile to this file, or to standard output for -",
    ),
    Word("xml", Form::File("OUT"), "Write the XML to this file"),
    Word(
        "uuid",
        Form::Files("HEX:OUT"),
        "Write the contents of this UUID box to this file; may be given again",
    ),
    NO_CLOBBER,
    QUIET,
    EXPLAIN,
];

/// `jk extras IN`.
pub(crate) fn extras<'a>(alloc: Global) -> Result<Command<'a>, AllocError> {
    let command = explained(
        alloc,
        "extras",
        "List or extract the metadata of a JP2 file",
        EXTRAS_HELP,
    );
    with_words(alloc, command, &EXTRAS_WORDS)
}
