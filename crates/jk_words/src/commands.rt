//! What the command line may say.

use crate::defaults::Defaults;
use crate::keeping::{KEPT_WORDS, dress, extras};
use clap::{Arg, ArgAction, Command, value_parser};
use std::alloc::{AllocError, Global};

/// The version. Over what stands behind it a release writes, into the built program, the line of
/// the kit that proved it (`rt version`) and the processors that it is for, and then spaces
/// (tools/release).
const VERSION: &str = "0.3.2\nnot a release: `rt version` names the kit that proved it";

/// What is printed under the list of commands.
const STATUSES: &str = "\
Examples:
jk encode scan.ppm scan.jp2          encodes an image, without loss
jk decode scan.jp2 scan.ppm          decodes it: the same samples
jk add archive page-1 scan.ppm       adds the image to the folder `archive` as page-1.jp2

Exit status: 0, or 1 after an error, or 2 after a wrong command line. An error is one line such as
`jk: F2 Truncated` on standard error; a second line names the file and the cause, unless --quiet is
given. `jk faults` lists all errors. `jk COMMAND --help` prints the options of a command.";

/// What the words of the line of `jk info` are.
const INFO_HELP: &str = "\
The line is WIDTH HEIGHT COMPONENTS DEPTH LEVELS LAYERS ORDER TILES PACKETS. LEVELS is the least
number of decomposition levels of any component of any tile: the image can't be halved more often.
LAYERS and ORDER are those of the main header. jk reads boxes, headers and packet headers, and reports
what is wrong with them as an error; it doesn't decode code-blocks. With several files, each line ends
with the name of its file, and an error in one file doesn't stop the others.

With --all these lines follow, each a LABEL, a colon and values separated by spaces:
boxes: KIND=LENGTH of each box; characters other than letters and digits are escaped as in a URL
tile-parts: their number
code-blocks: WIDTHxHEIGHT
block-style: the code-block styles in use: reset, causal, segments
precincts: WIDTHxHEIGHT of each resolution, from the lowest to the highest
SOP: yes or no
EPH: yes or no
colour-transform: reversible or none
passed-over: NAME=COUNT of the marker segments that say nothing about the image
sizes: WIDTHxHEIGHT of the image at each reduction, from 0
A value is `differ` if tiles or components differ, and `none` if there is nothing.

With --json a line is an object: file, width, height, components, depth, levels, layers, order, tiles
and packets, and the labels above. boxes and passed-over are lists of pairs [KIND, NUMBER], precincts
and sizes lists of pairs [WIDTH, HEIGHT], code-blocks is such a pair, SOP and EPH are true or false. A
file with an error is an object of file and error.";

/// What `jk decode` does with a window.
const DECODE_HELP: &str = "\
With --x, --y, --w and --h only a window (a region) is decoded, in the time and memory of that region.
Columns and rows are counted on the reduced image, from its upper left sample; a window that passes the
edge is clipped. Packets and code-blocks that the window doesn't need are not checked. IN may be the
file of a window (`jk cut`): columns and rows are still those of the original image. A window is
decoded by one thread, whatever --workers says. With --layers K only the first K quality layers are
decoded; the output is that of `jk cut` with the same number and then `jk decode`.";

/// What `jk cut` gives.
const CUT_HELP: &str = "\
Columns and rows are counted on the reduced image, from its upper left sample; a window that passes the
edge is clipped. The new file is a copy of the old one whose packets are empty except those that the
window needs. Any decoder gives an image of full size, at any reduction up to the requested one, and
inside the window it is the image of the old file. With --layers K the packets of later layers are
empty too: inside the window it is the image of the first K layers.";

/// What `jk add` does.
const ADD_HELP: &str = "\
The archive is an existing folder. The image is written there as NAME.tmp, which is then renamed to
NAME.jp2; a name that exists is an error. Nothing is printed. The folder is locked while a file is
written, but not while its image is encoded.

With --all the image of each file is added under the name of that file, without folder and extension.
One line is printed for each file, in the order of PATHS: `added NAME`, or `refused NAME FAULT` if the
name isn't valid or exists, or the file can't be read or isn't a PGM or PPM file. The other files are
added all the same; the status is then 1.";

/// What `jk check` writes.
const CHECK_HELP: &str = "\
Reads each file NAME.jp2 of the folder and checks its boxes, headers and packet headers as `jk info`
does; with --decode it decodes the image too. Prints a line for each file that is an image, its SHA-256
digest and its name in the format of `sha256sum`, sorted by name. With --against FILE, such a list from
an earlier run, it prints only the differences: `changed NAME.jp2`, `missing NAME.jp2` or
`new NAME.jp2`. Files that aren't images or can't be read are reported on standard error.

Exit status: 0 if all files are images and none differs; 1 if one isn't or differs, or the folder can't
be read; 2 if the command line is wrong or FILE isn't a list.";

/// What `jk serve` answers.
const SERVE_HELP: &str = "\
GET /images lists the images, a line each: NAME WIDTH HEIGHT COMPONENTS DEPTH LEVELS.
GET /images/NAME is the stored file. GET /images/NAME/window?x=N&y=N&w=N&h=N&r=D&layers=K is a window
(a region) of it, as `jk cut` makes it; without r at full resolution, without layers in all of them.
The server lists what the folder holds when it starts. It reports files that aren't JP2 files, files
NAME.tmp of an interrupted add, and files that can't be opened on standard error. The line
`add NAME PATH` on standard input adds a PGM or PPM file, which is served from then on, and prints
`added NAME` or `refused NAME FAULT`. The server ends after --connections connections, once standard
input has ended too.

With --open-while-serving the port is open at once, and images are listed as their files are read,
requested ones first; until then they are 404. Files that can't be read, and files beyond 4096 images,
are reported on standard error; the others are served, and the exit status is 1. With --watch, images
that others add to the folder are served within so many seconds. A rejected file is read again when
its size or time changes.";

/// What to do about each error.
const FAULTS_HELP: &str = "\
What to do:
F1       use a machine with more memory, fewer threads (--workers), or a window of the image
F2       get the file again: it was cut off, as in an interrupted transfer
F3 - F5, F8 - F12
         the codestream is damaged or doesn't follow T.800: get the file again, or tell who wrote it
F6, F7   the file may be sound: decode it with another decoder; docs/format.md lists what jk supports
F13      the JP2 boxes are damaged: get the file again
F14      convert the image first: `python -m jk.convert`, or `convert IN ppm:OUT`
F15      see `jk COMMAND --help` for the limits of each option
F16      `jk info --all` prints the sizes of the image at each reduction
F17 - F19
         `GET /images` of the server lists the names; choose another name
F20      the second line of the error says what the system reported, such as a full disk
F21      restart the server: it reads its files at the start
F23      raise the limit of threads or of memory (ulimit), or use fewer --workers";

/// What a word of a command line is.
#[derive(Clone, Copy)]
pub(crate) enum Form<'a> {
    /// A word that is required, by its place.
    Place,
    /// The same, unless the files of several images are given.
    PlaceOfOne,
    /// Words that are required, one at least, by their place.
    Places,
    /// The files of several images, by what stands for them.
    Paths(&'a str),
    /// A number of workers, and what stands where it isn't given.
    Count(&'a str),
    /// The same, beside the files of several images alone.
    CountOfPaths(&'a str),
    /// An option without a value.
    Flag,
    /// An option with a number, and the letter for it.
    Number(&'a str),
    /// An option with a number, by what stands for it, that is given with [`OPENING`] alone.
    Watch(&'a str),
    /// An option with a number that is required.
    Required,
    /// One of the four numbers of a window, which are given together.
    Window,
    /// An option with a number, the letter for it, and what stands where it isn't given.
    Default(&'a str, &'a str),
    /// An order of packets, and what stands where it isn't given.
    Order(&'a str),
    /// The name of a file, by what stands for it.
    File(&'a str),
    /// A name and a file, by what stands for them, as often as they are given.
    Files(&'a str),
    /// A text that is judged later, by what stands for it.
    Text(&'a str),
    /// A port, which is required.
    Port,
}

/// A word of a command line: its name, what it is, and what it is for.
#[derive(Clone, Copy)]
pub(crate) struct Word<'a>(pub(crate) &'a str, pub(crate) Form<'a>, pub(crate) &'a str);

/// That the cause of an error is printed.
pub(crate) const EXPLAIN: Word<'static> = Word(
    "explain",
    Form::Flag,
    "Print the file and the cause of an error even with --quiet",
);

/// That no file is replaced.
pub(crate) const NO_CLOBBER: Word<'static> = Word(
    "no-clobber",
    Form::Flag,
    "Never replace a file: if the output exists, nothing is written (F20)",
);

/// That progress and causes aren't printed.
pub(crate) const QUIET: Word<'static> = Word(
    "quiet",
    Form::Flag,
    "Print no progress, no notes, and errors as one line without the cause",
);

/// How many workers there are.
const WORKERS: Word<'static> = Word(
    "workers",
    Form::Count("1"),
    "Number of threads, 1 to 64, or auto for one per processor; the output is the same",
);

/// The numbers of a window.
static WINDOW: [&str; 4] = ["x", "y", "w", "h"];

/// The option that is followed by the files of several images.
const ALL: &str = "all";

/// The name of one image that is added.
const ONE_NAME: &str = "NAME";

/// The folder of an archive.
const FOLDER: Word<'static> = Word("DIR", Form::Place, "The folder of the archive");

/// The image to encode.
const PIXELS: Word<'static> = Word(
    "IN",
    Form::Place,
    "The PGM or PPM file, or - for standard input",
);

/// The file to read.
pub(crate) const CODED: Word<'static> = Word(
    "IN",
    Form::Place,
    "The JPEG 2000 file, or - for standard input",
);

/// Which command it is.
#[derive(Clone, Copy)]
pub(crate) enum Name {
    Encode,
    Decode,
    Info,
    Cut,
    Dress,
    Extras,
    Add,
    Check,
    Serve,
    Faults,
}

/// The commands by their names, in the order in which they are listed.
static NAMES: [(&str, Name); 10] = [
    ("encode", Name::Encode),
    ("decode", Name::Decode),
    ("info", Name::Info),
    ("cut", Name::Cut),
    ("dress", Name::Dress),
    ("extras", Name::Extras),
    ("add", Name::Add),
    ("check", Name::Check),
    ("serve", Name::Serve),
    ("faults", Name::Faults),
];

/// The command of a name.
pub(crate) fn name_of(text: &str) -> Option<Name> {
    for (known, name) in &NAMES {
        if *known == text {
            return Some(*name);
        }
    }
    None
}

/// What clap is told of a command.
fn told<'a>(alloc: Global, defaults: &'a Defaults, name: Name) -> Result<Command<'a>, AllocError> {
    match name {
        Name::Encode => encode(alloc, defaults),
        Name::Decode => decode(alloc),
        Name::Info => info(alloc),
        Name::Cut => cut(alloc),
        Name::Dress => dress(alloc),
        Name::Extras => extras(alloc),
        Name::Add => add(alloc, defaults),
        Name::Check => check(alloc),
        Name::Serve => serve(alloc),
        Name::Faults => faults(alloc),
    }
}

/// The command line of `jk`.
pub(crate) fn command<'a>(
    alloc: Global,
    defaults: &'a Defaults,
) -> Result<Command<'a>, AllocError> {
    let mut command = Command::new(alloc, "jk")
        .version(VERSION)
        .about(
            "Lossless JPEG 2000: encode and decode images, cut regions, keep and serve an archive",
        )
        .after_help(STATUSES)
        .subcommand_required(true)
        .arg_required_else_help(true);
    for (_text, name) in &NAMES {
        command = command.subcommand(told(alloc, defaults, *name)?)?;
    }
    Ok(command)
}

/// A command with more words.
pub(crate) fn with_words<'a>(
    alloc: Global,
    command: Command<'a>,
    words: &[Word<'a>],
) -> Result<Command<'a>, AllocError> {
    let mut command = command;
    for word in words {
        command = command.arg(arg(alloc, *word)?)?;
    }
    Ok(command)
}

/// A command of a name, and what it does.
fn named_command<'a>(alloc: Global, name: &'a str, about: &'a str) -> Command<'a> {
    Command::new(alloc, name).about(about)
}

/// A command of a name, what it does, and what is told under its options.
pub(crate) fn explained<'a>(
    alloc: Global,
    name: &'a str,
    about: &'a str,
    after: &'a str,
) -> Command<'a> {
    named_command(alloc, name, about).after_help(after)
}

/// The words of `jk encode` before its options.
static ENCODE_WORDS: [Word<'static>; 6] = [
    PIXELS,
    Word(
        "OUT",
        Form::Place,
        "The file to write, or - for standard output",
    ),
    Word(
        "raw",
        Form::Flag,
        "Write a bare codestream (.j2k) instead of a JP2 file",
    ),
    NO_CLOBBER,
    WORKERS,
    QUIET,
];

/// `jk encode IN OUT`.
fn encode<'a>(alloc: Global, defaults: &'a Defaults) -> Result<Command<'a>, AllocError> {
    let command = named_command(
        alloc,
        "encode",
        "Encode a PGM or PPM image losslessly to JPEG 2000 (JP2)",
    );
    let command = with_words(alloc, command, &ENCODE_WORDS)?;
    with_encoding(alloc, command, defaults)
}

/// The options of how and where an image is encoded.
fn with_encoding<'a>(
    alloc: Global,
    command: Command<'a>,
    defaults: &'a Defaults,
) -> Result<Command<'a>, AllocError> {
    let command = with_levels(alloc, command, defaults)?;
    let command = with_blocks(alloc, command, defaults)?;
    let command = with_words(alloc, command, &CODING_WORDS)?;
    let command = with_words(alloc, command, &TILE_WORDS)?;
    let command = with_origin(alloc, command, defaults)?;
    let command = with_words(alloc, command, &KEPT_WORDS)?;
    with_words(alloc, command, &[EXPLAIN])
}

/// The options of the levels, the layers and the order of a tile.
fn with_levels<'a>(
    alloc: Global,
    command: Command<'a>,
    defaults: &'a Defaults,
) -> Result<Command<'a>, AllocError> {
    let words = [
        Word(
            "levels",
            Form::Default("N", defaults.levels.as_str()),
            "Decomposition levels, 0 to 5",
        ),
        Word(
            "layers",
            Form::Default("N", defaults.layers.as_str()),
            "Quality layers, 1 to 32",
        ),
        Word(
            "order",
            Form::Order(defaults.order),
            "Progression order of the packets",
        ),
    ];
    with_words(alloc, command, &words)
}

/// The options of how large code-blocks are.
fn with_blocks<'a>(
    alloc: Global,
    command: Command<'a>,
    defaults: &'a Defaults,
) -> Result<Command<'a>, AllocError> {
    let words = [
        Word(
            "block-x",
            Form::Default("N", defaults.block_x.as_str()),
            "Code-block width 2^N, N from 2 to 10",
        ),
        Word(
            "block-y",
            Form::Default("N", defaults.block_y.as_str()),
            "Code-block height 2^N; the sum of both N is at most 12",
        ),
    ];
    with_words(alloc, command, &words)
}

/// The other options of how each tile is coded.
static CODING_WORDS: [Word<'static>; 8] = [
    Word(
        "precincts",
        Form::Text("SIZES"),
        "Precinct size WIDTH,HEIGHT of all resolutions, such as 128,128; or one byte per resolution from the lowest, as in COD: two hexadecimal digits, the exponents of height and width",
    ),
    Word(
        "windows",
        Form::Flag,
        "Make regions cheap to cut and serve: --order RPCL, 8 layers and precincts of 128 by 128, unless these are given",
    ),
    Word(
        "no-colour",
        Form::Flag,
        "Don't apply the reversible colour transform (RCT)",
    ),
    Word(
        "reset",
        Form::Flag,
        "Reset the MQ contexts at each coding pass (RESET)",
    ),
    Word(
        "causal",
        Form::Flag,
        "Use vertically causal contexts: no stripe of a code-block depends on the one below it",
    ),
    Word(
        "segments",
        Form::Flag,
        "End each cleanup pass with a segmentation symbol, by which decoders detect damage",
    ),
    Word("sop", Form::Flag, "Write an SOP marker before each packet"),
    Word(
        "eph",
        Form::Flag,
        "Write an EPH marker after each packet header",
    ),
];

/// The options of how large tiles are.
static TILE_WORDS: [Word<'static>; 2] = [
    Word(
        "tile-width",
        Form::Number("N"),
        "Tile width; with --tile-height",
    ),
    Word("tile-height", Form::Number("N"), "Tile height"),
];

/// The options of where the image lies.
fn with_origin<'a>(
    alloc: Global,
    command: Command<'a>,
    defaults: &'a Defaults,
) -> Result<Command<'a>, AllocError> {
    let words = [
        Word(
            "x0",
            Form::Default("N", defaults.x0.as_str()),
            "Column of the upper left sample on the reference grid",
        ),
        Word(
            "y0",
            Form::Default("N", defaults.y0.as_str()),
            "Row of the upper left sample",
        ),
    ];
    with_words(alloc, command, &words)
}

/// The words of `jk decode`.
static DECODE_WORDS: [Word<'static>; 12] = [
    CODED,
    Word(
        "OUT",
        Form::Place,
        "The PGM or PPM file to write, or - for standard output",
    ),
    Word(
        "x",
        Form::Window,
        "Left column of the window to decode; with --y, --w and --h",
    ),
    Word("y", Form::Window, "Upper row of the window"),
    Word("w", Form::Window, "Width of the window in columns"),
    Word("h", Form::Window, "Height of the window in rows"),
    Word(
        "reduce",
        Form::Default("D", "0"),
        "Decode at 1/2^D of the size, D at most the LEVELS of `jk info`",
    ),
    Word(
        "layers",
        Form::Number("K"),
        "Decode only the first K quality layers (default: all)",
    ),
    NO_CLOBBER,
    WORKERS,
    QUIET,
    EXPLAIN,
];

/// `jk decode IN OUT`.
fn decode<'a>(alloc: Global) -> Result<Command<'a>, AllocError> {
    let command = explained(
        alloc,
        "decode",
        "Decode a JPEG 2000 file, or a region of it, to PGM or PPM",
        DECODE_HELP,
    );
    with_words(alloc, command, &DECODE_WORDS)
}

/// The words of `jk info`.
static INFO_WORDS: [Word<'static>; 5] = [
    Word(
        "IN",
        Form::Places,
        "The JPEG 2000 files, or - for standard input",
    ),
    Word(
        "all",
        Form::Flag,
        "Print more lines: boxes, precincts, code-blocks, markers, sizes at each reduction",
    ),
    Word(
        "json",
        Form::Flag,
        "Print what --all prints as JSON, one object a line for each file",
    ),
    QUIET,
    EXPLAIN,
];

/// `jk info IN`.
fn info<'a>(alloc: Global) -> Result<Command<'a>, AllocError> {
    let command = explained(
        alloc,
        "info",
        "Print size, bit depth, levels and coding of JPEG 2000 files, as a line each or as JSON",
        INFO_HELP,
    );
    with_words(alloc, command, &INFO_WORDS)
}

/// The words of `jk cut`.
static CUT_WORDS: [Word<'static>; 11] = [
    CODED,
    Word(
        "OUT",
        Form::Place,
        "The JPEG 2000 file to write, or - for standard output",
    ),
    Word("x", Form::Required, "Left column of the window"),
    Word("y", Form::Required, "Upper row of the window"),
    Word("w", Form::Required, "Width of the window in columns"),
    Word("h", Form::Required, "Height of the window in rows"),
    Word(
        "reduce",
        Form::Default("D", "0"),
        "Cut at 1/2^D of the size, D at most the LEVELS of `jk info`",
    ),
    Word(
        "layers",
        Form::Number("K"),
        "Keep only the first K quality layers (default: all)",
    ),
    NO_CLOBBER,
    QUIET,
    EXPLAIN,
];

/// `jk cut IN OUT`.
fn cut<'a>(alloc: Global) -> Result<Command<'a>, AllocError> {
    let command = explained(
        alloc,
        "cut",
        "Cut a region (a window) out of a JPEG 2000 file without decoding it",
        CUT_HELP,
    );
    with_words(alloc, command, &CUT_WORDS)
}

/// The words of `jk add` before its options.
static ADD_WORDS: [Word<'static>; 6] = [
    FOLDER,
    Word(
        ONE_NAME,
        Form::PlaceOfOne,
        "Name of the image: 1 to 64 of a to z, 0 to 9, - and _",
    ),
    Word(
        "IN",
        Form::PlaceOfOne,
        "The PGM or PPM file, or - for standard input",
    ),
    Word(
        ALL,
        Form::Paths("PATHS"),
        "Add these PGM or PPM files, each under the name of its file (instead of NAME and IN)",
    ),
    Word(
        "workers",
        Form::CountOfPaths("1"),
        "With --all, number of images to encode at a time, 1 to 64, or auto; the result is the same",
    ),
    QUIET,
];

/// `jk add DIR NAME IN` and `jk add DIR --all PATHS..`.
fn add<'a>(alloc: Global, defaults: &'a Defaults) -> Result<Command<'a>, AllocError> {
    let command = explained(
        alloc,
        "add",
        "Add images to an archive, a folder of JP2 files",
        ADD_HELP,
    );
    let command = with_words(alloc, command, &ADD_WORDS)?;
    with_encoding(alloc, command, defaults)
}

/// The words of `jk check`.
static CHECK_WORDS: [Word<'static>; 7] = [
    FOLDER,
    Word(
        "against",
        Form::File("FILE"),
        "Compare with this list of an earlier run, or - for standard input",
    ),
    Word("decode", Form::Flag, "Decode the images too"),
    Word(
        "strict",
        Form::Flag,
        "Exit with status 1 if something in the folder isn't checked",
    ),
    Word(
        "workers",
        Form::Count("1"),
        "Number of files to check at a time, 1 to 64, or auto",
    ),
    QUIET,
    EXPLAIN,
];

/// `jk check DIR`.
fn check<'a>(alloc: Global) -> Result<Command<'a>, AllocError> {
    let command = explained(
        alloc,
        "check",
        "Check the files of an archive (fixity): SHA-256 digests and errors",
        CHECK_HELP,
    );
    with_words(alloc, command, &CHECK_WORDS)
}

/// That the files of an archive are opened while it is served.
const OPENING: &str = "open-while-serving";

/// What an archive is opened with that is watched.
static WATCHED: [&str; 1] = [OPENING];

/// The words of `jk serve`.
static SERVE_WORDS: [Word<'static>; 11] = [
    FOLDER,
    Word(
        "port",
        Form::Port,
        "Port on 127.0.0.1, or 0 for any free one",
    ),
    Word(
        "connections",
        Form::Number("K"),
        "End after K connections (default: never)",
    ),
    Word(
        "workers",
        Form::Count("1"),
        "Number of threads that serve connections, and read files at the start, 1 to 64, or auto",
    ),
    Word(
        "timeout",
        Form::Default("SECONDS", "10"),
        "Close a connection that is silent this long, 1 to 3600; a whole request or reply may take six times as long",
    ),
    Word(
        OPENING,
        Form::Flag,
        "Open the port at once, and list each image when its file was read and checked",
    ),
    Word(
        "watch",
        Form::Watch("SECONDS"),
        "Look for new files in the folder this often, 1 to 3600",
    ),
    Word(
        "host-names",
        Form::Text("NAMES"),
        "Answer only requests with one of these Host names, such as localhost,images.example.org; others get 403",
    ),
    Word(
        "log",
        Form::Flag,
        "Log each request to standard error, with the reason of 4xx and 5xx replies and of failed connections",
    ),
    QUIET,
    EXPLAIN,
];

/// `jk serve DIR`.
fn serve<'a>(alloc: Global) -> Result<Command<'a>, AllocError> {
    let command = explained(
        alloc,
        "serve",
        "Serve the images of an archive, and regions of them, over HTTP",
        SERVE_HELP,
    );
    with_words(alloc, command, &SERVE_WORDS)
}

/// `jk faults`.
fn faults<'a>(alloc: Global) -> Result<Command<'a>, AllocError> {
    let command = explained(
        alloc,
        "faults",
        "List all errors: number, name and meaning",
        FAULTS_HELP,
    );
    with_words(alloc, command, &[EXPLAIN])
}

/// What clap is told of a word.
fn arg<'a>(alloc: Global, word: Word<'a>) -> Result<Arg<'a>, AllocError> {
    let Word(name, form, help) = word;
    let arg = match form {
        Form::Place => Arg::new(alloc, name).required(true),
        Form::PlaceOfOne => Arg::new(alloc, name)
            .required_unless_present(ALL)?
            .conflicts_with(ALL)?,
        Form::Paths(value) => repeated(alloc, name, value).num_args(1..),
        Form::Count(value) => option(alloc, name, "N").default_value(value),
        Form::CountOfPaths(value) => option(alloc, name, "N")
            .default_value(value)
            .conflicts_with(ONE_NAME)?,
        Form::Places => Arg::new(alloc, name).required(true).num_args(1..),
        Form::Flag => named(alloc, name).action(ArgAction::SetTrue),
        Form::Number(letter) => number(alloc, name, letter),
        Form::Watch(value) => number(alloc, name, value).requires_all(&WATCHED)?,
        Form::Required => number(alloc, name, "N").required(true),
        Form::Window => number(alloc, name, "N").requires_all(&WINDOW)?,
        Form::Default(letter, value) => number(alloc, name, letter).default_value(value),
        Form::Order(value) => order(alloc, name, value),
        Form::Text(value) => option(alloc, name, value),
        Form::File(value) => valued(alloc, name, value),
        Form::Files(value) => repeated(alloc, name, value),
        Form::Port => port(alloc, name),
    };
    Ok(arg.help(help))
}

/// An option of a name.
fn named<'a>(alloc: Global, name: &'a str) -> Arg<'a> {
    Arg::new(alloc, name).long(name)
}

/// An option with a value.
fn valued<'a>(alloc: Global, name: &'a str, value: &'a str) -> Arg<'a> {
    named(alloc, name).value_name(value)
}

/// An option with a value, which may be given again.
fn repeated<'a>(alloc: Global, name: &'a str, value: &'a str) -> Arg<'a> {
    valued(alloc, name, value).action(ArgAction::Append)
}

/// An option with a value that may begin with a minus: a negative number is judged as others are.
fn option<'a>(alloc: Global, name: &'a str, value: &'a str) -> Arg<'a> {
    valued(alloc, name, value).allow_negative_numbers(true)
}

/// An option with a number.
fn number<'a>(alloc: Global, name: &'a str, letter: &'a str) -> Arg<'a> {
    option(alloc, name, letter).value_parser(value_parser!(u32))
}

/// The order of packets.
fn order<'a>(alloc: Global, name: &'a str, value: &'a str) -> Arg<'a> {
    option(alloc, name, "ORDER")
        .value_parser(["LRCP", "RLCP", "RPCL", "PCRL", "CPRL"].as_slice())
        .default_value(value)
}

/// A port, which is required.
fn port<'a>(alloc: Global, name: &'a str) -> Arg<'a> {
    option(alloc, name, "P")
        .value_parser(value_parser!(u16))
        .required(true)
}
