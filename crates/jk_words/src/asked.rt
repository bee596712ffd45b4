//! What the words of a command line ask for.

use crate::commands::{Name, command, name_of};
use crate::defaults::Defaults;
use crate::mistakes::{bad_number, bad_workers, lossy_option};
use crate::precincts::precinct_digits;
use clap::ArgMatches;
use clap::error::ErrorKind;
use clap::parser::ValueSource;
use jk_marks::Order;
use jk_math::Style;
use jk_options::{EncodeOptions, order_named};
use jk_window::View;
use std::alloc::{AllocError, Global};

/// What a file is to keep beside the samples, or what of it is to be taken out: the words for each,
/// where it is given.
#[derive(Drop)]
pub struct Kept<'a> {
    /// The file of an ICC profile.
    pub profile: Option<&'a str>,
    /// How many samples stand on an inch.
    pub resolution: Option<&'a str>,
    /// The file of XML.
    pub xml: Option<&'a str>,
    /// UUIDs, each with a file.
    pub uuids: Vec<&'a str>,
}

impl Kept<'_> {
    /// Whether nothing of it is given.
    pub fn is_none(&self) -> bool {
        self.profile.is_none()
            && self.resolution.is_none()
            && self.xml.is_none()
            && self.uuids.is_empty()
    }
}

/// How many workers there are to be.
#[derive(Clone, Copy, Debug, PartialEq, Eq)]
pub enum WorkerCount {
    /// So many.
    Given(u32),
    /// As many as the machine has processors for.
    Auto,
}

/// `jk encode IN OUT`.
#[derive(Drop)]
pub struct Encoding<'a> {
    pub input: &'a str,
    pub output: &'a str,
    /// Whether no file is to be replaced.
    pub no_clobber: bool,
    /// How many workers there are to be.
    pub workers: WorkerCount,
    pub options: EncodeOptions,
    pub kept: Kept<'a>,
}

/// `jk decode IN OUT`.
#[derive(Drop)]
pub struct Decoding<'a> {
    pub input: &'a str,
    pub output: &'a str,
    /// Whether no file is to be replaced.
    pub no_clobber: bool,
    /// How many workers there are to be.
    pub workers: WorkerCount,
    /// How often the image is halved.
    pub reduce: u32,
    /// How many layers to decode, where a number is given.
    pub layers: Option<u32>,
    /// The window to decode, where one is given.
    pub window: Option<View>,
}

/// `jk info IN..`.
#[derive(Drop)]
pub struct Telling<'a> {
    pub inputs: Vec<&'a str>,
    /// Whether all lines are to be printed.
    pub all: bool,
    /// Whether an object in JSON is to be printed.
    pub json: bool,
}

/// `jk cut IN OUT`.
#[derive(Drop)]
pub struct Cutting<'a> {
    pub input: &'a str,
    pub output: &'a str,
    /// Whether no file is to be replaced.
    pub no_clobber: bool,
    pub window: View,
}

/// `jk dress IN OUT`.
#[derive(Drop)]
pub struct Dressing<'a> {
    pub input: &'a str,
    pub output: &'a str,
    /// Whether no file is to be replaced.
    pub no_clobber: bool,
    pub kept: Kept<'a>,
}

/// `jk extras IN`.
#[derive(Drop)]
pub struct Listing<'a> {
    pub input: &'a str,
    /// Whether no file is to be replaced.
    pub no_clobber: bool,
    /// What is to be taken out, each with the file that it goes to.
    pub taken: Kept<'a>,
}

/// `jk add DIR NAME IN`.
#[derive(Drop)]
pub struct Adding<'a> {
    pub folder: &'a str,
    /// The name of the image.
    pub name: &'a str,
    pub input: &'a str,
    pub options: EncodeOptions,
    pub kept: Kept<'a>,
}

/// `jk add DIR --all PATHS..`.
#[derive(Drop)]
pub struct AddingAll<'a> {
    pub folder: &'a str,
    /// The files of the images.
    pub paths: Vec<&'a str>,
    /// How many workers there are to be.
    pub workers: WorkerCount,
    pub options: EncodeOptions,
    pub kept: Kept<'a>,
}

/// `jk check DIR`.
#[derive(Drop)]
pub struct Checking<'a> {
    pub folder: &'a str,
    /// The list with which the archive is compared, where one is given.
    pub against: Option<&'a str>,
    /// Whether code-blocks are judged too.
    pub decode: bool,
    /// Whether it fails where something in the folder isn't checked.
    pub strict: bool,
    /// How many workers there are to be.
    pub workers: WorkerCount,
}

/// `jk serve DIR`.
#[derive(Drop)]
pub struct Server<'a> {
    pub folder: &'a str,
    /// The port on 127.0.0.1, or 0 for one that is free.
    pub port: u16,
    /// How many connections are taken before the end; without a number there is none.
    pub connections: Option<u32>,
    /// How many connections are to be served at a time.
    pub workers: WorkerCount,
    /// How long a read or a write on a connection may wait, in seconds.
    pub timeout: u32,
    /// Whether each request is told on standard error.
    pub log: bool,
    /// Whether the files are opened while the archive is served.
    pub open_while_serving: bool,
    /// After how many seconds each the folder is listed again, if it is.
    pub watch: Option<u32>,
    /// The names of the hosts that are answered for, with commas between them; without it all are.
    pub host_names: Option<&'a str>,
}

/// What a command line asks for.
#[derive(Drop)]
pub enum Command<'a> {
    Encode(Encoding<'a>),
    Decode(Decoding<'a>),
    Info(Telling<'a>),
    Cut(Cutting<'a>),
    Dress(Dressing<'a>),
    Extras(Listing<'a>),
    Add(Adding<'a>),
    AddAll(AddingAll<'a>),
    Check(Checking<'a>),
    Serve(Server<'a>),
    Faults,
}

/// A command, and what may be asked of each.
#[derive(Drop)]
pub struct Line<'a> {
    pub command: Command<'a>,
    /// Whether nothing is to be told of how far the work is.
    pub quiet: bool,
    /// Whether the cause of a fault is to be said in words.
    pub explain: bool,
}

/// Why a command line asks for no command.
#[derive(Drop)]
pub enum Unasked {
    /// Memory for its words was refused.
    Memory,
    /// This text is asked for, as by `--help`.
    Shows(String),
    /// The line is wrong, as this text says.
    IsWrong(String),
    /// No command is named.
    Nothing,
}

impl From<AllocError> for Unasked {
    fn from(_error: AllocError) -> Unasked {
        Unasked::Memory
    }
}

/// A number, or what stands for it where it isn't given.
fn number(line: &ArgMatches<'_>, name: &str, default: u32) -> u32 {
    line.get_one::<u32>(name).unwrap_or(default)
}

/// A number, where the command line gives it.
fn given_number(line: &ArgMatches<'_>, name: &str) -> Option<u32> {
    match line.value_source(name) {
        Some(ValueSource::CommandLine) => line.get_one::<u32>(name),
        _ => None,
    }
}

/// A word, or what stands for it where it isn't given.
fn word<'a>(line: &ArgMatches<'a>, name: &str, default: &'a str) -> &'a str {
    line.get_str(name).unwrap_or(default)
}

/// The file to read.
fn input<'a>(line: &ArgMatches<'a>) -> &'a str {
    word(line, "IN", "-")
}

/// The files to read.
fn inputs<'a>(alloc: Global, line: &ArgMatches<'a>) -> Result<Vec<&'a str>, AllocError> {
    let mut inputs = Vec::new(alloc);
    if let Some(given) = line.get_strs("IN") {
        inputs.extend_from_slice(given)?;
    }
    Ok(inputs)
}

/// The file to write.
fn output<'a>(line: &ArgMatches<'a>) -> &'a str {
    word(line, "OUT", "-")
}

/// Whether no file is to be replaced.
fn no_clobber(line: &ArgMatches<'_>) -> bool {
    line.get_flag("no-clobber")
}

/// The folder of an archive.
fn folder<'a>(line: &ArgMatches<'a>) -> &'a str {
    word(line, "DIR", ".")
}

/// How many workers there are to be.
fn workers(alloc: Global, line: &ArgMatches<'_>) -> Result<WorkerCount, Unasked> {
    let asked = word(line, "workers", "1");
    if asked == "auto" {
        return Ok(WorkerCount::Auto);
    }
    match asked.parse() {
        Ok(count) => Ok(WorkerCount::Given(count)),
        Err(_) => Err(Unasked::IsWrong(bad_workers(alloc, asked)?)),
    }
}

/// How often the image is halved.
fn reduction(line: &ArgMatches<'_>) -> u32 {
    number(line, "reduce", 0)
}

/// How many layers, where a number is given.
fn layers(line: &ArgMatches<'_>) -> Option<u32> {
    line.get_one::<u32>("layers")
}

/// The order of the packets, where it is given.
fn order(line: &ArgMatches<'_>) -> Option<Order> {
    match line.value_source("order") {
        Some(ValueSource::CommandLine) => order_named(line.get_str("order")?),
        _ => None,
    }
}

/// The options of an encoding.
fn options(alloc: Global, line: &ArgMatches<'_>) -> Result<EncodeOptions, AllocError> {
    let given = EncodeOptions::new(alloc);
    let levels = number(line, "levels", given.levels);
    Ok(EncodeOptions {
        levels,
        layers: given_number(line, "layers"),
        order: order(line),
        tile_width: line.get_one::<u32>("tile-width"),
        tile_height: line.get_one::<u32>("tile-height"),
        block_x: number(line, "block-x", given.block_x),
        block_y: number(line, "block-y", given.block_y),
        style: Style {
            reset: line.get_flag("reset"),
            causal: line.get_flag("causal"),
            segments: line.get_flag("segments"),
        },
        precincts: precinct_digits(alloc, word(line, "precincts", ""), levels)?,
        windows: line.get_flag("windows"),
        x0: number(line, "x0", given.x0),
        y0: number(line, "y0", given.y0),
        no_colour: line.get_flag("no-colour"),
        sop: line.get_flag("sop"),
        eph: line.get_flag("eph"),
        raw: line.get_flag("raw"),
    })
}

/// The window of a view.
fn view(line: &ArgMatches<'_>) -> View {
    View {
        reduce: reduction(line),
        x: number(line, "x", 0),
        y: number(line, "y", 0),
        width: number(line, "w", 0),
        height: number(line, "h", 0),
        layers: layers(line),
    }
}

/// The window to decode, where one is given: its four numbers come together.
fn window(line: &ArgMatches<'_>) -> Option<View> {
    match line.get_one::<u32>("x") {
        Some(_) => Some(view(line)),
        None => None,
    }
}

/// What a file is to keep, or what is to be taken out of it.
fn kept_words<'a>(alloc: Global, line: &ArgMatches<'a>) -> Result<Kept<'a>, AllocError> {
    let mut uuids = Vec::new(alloc);
    if let Some(given) = line.get_strs("uuid") {
        uuids.extend_from_slice(given)?;
    }
    Ok(Kept {
        profile: line.get_str("profile"),
        resolution: line.get_str("resolution"),
        xml: line.get_str("xml"),
        uuids,
    })
}

/// What `jk add` is asked: one image is added, or those of several files.
fn to_add<'a>(alloc: Global, line: &ArgMatches<'a>) -> Result<Command<'a>, Unasked> {
    let Some(given) = line.get_strs("all") else {
        return Ok(Command::Add(Adding {
            folder: folder(line),
            name: word(line, "NAME", ""),
            input: input(line),
            options: options(alloc, line)?,
            kept: kept_words(alloc, line)?,
        }));
    };
    let mut paths = Vec::new(alloc);
    paths.extend_from_slice(given)?;
    Ok(Command::AddAll(AddingAll {
        folder: folder(line),
        paths,
        workers: workers(alloc, line)?,
        options: options(alloc, line)?,
        kept: kept_words(alloc, line)?,
    }))
}

/// What `jk serve` is asked.
fn served<'a>(alloc: Global, line: &ArgMatches<'a>) -> Result<Server<'a>, Unasked> {
    Ok(Server {
        folder: folder(line),
        port: line.get_one::<u16>("port").unwrap_or(0),
        connections: line.get_one::<u32>("connections"),
        workers: workers(alloc, line)?,
        timeout: number(line, "timeout", 10),
        log: line.get_flag("log"),
        open_while_serving: line.get_flag("open-while-serving"),
        watch: line.get_one::<u32>("watch"),
        host_names: line.get_str("host-names"),
    })
}

/// What the words of a command ask for.
fn asked<'a>(alloc: Global, name: Name, line: &ArgMatches<'a>) -> Result<Command<'a>, Unasked> {
    Ok(match name {
        Name::Encode => Command::Encode(Encoding {
            input: input(line),
            output: output(line),
            no_clobber: no_clobber(line),
            workers: workers(alloc, line)?,
            options: options(alloc, line)?,
            kept: kept_words(alloc, line)?,
        }),
        Name::Decode => Command::Decode(Decoding {
            input: input(line),
            output: output(line),
            no_clobber: no_clobber(line),
            workers: workers(alloc, line)?,
            reduce: reduction(line),
            layers: layers(line),
            window: window(line),
        }),
        Name::Info => Command::Info(Telling {
            inputs: inputs(alloc, line)?,
            all: line.get_flag("all"),
            json: line.get_flag("json"),
        }),
        Name::Cut => Command::Cut(Cutting {
            input: input(line),
            output: output(line),
            no_clobber: no_clobber(line),
            window: view(line),
        }),
        Name::Dress => Command::Dress(Dressing {
            input: input(line),
            output: output(line),
            no_clobber: no_clobber(line),
            kept: kept_words(alloc, line)?,
        }),
        Name::Extras => Command::Extras(Listing {
            input: input(line),
            no_clobber: no_clobber(line),
            taken: kept_words(alloc, line)?,
        }),
        Name::Add => to_add(alloc, line)?,
        Name::Check => Command::Check(Checking {
            folder: folder(line),
            against: line.get_str("against"),
            decode: line.get_flag("decode"),
            strict: line.get_flag("strict"),
            workers: workers(alloc, line)?,
        }),
        Name::Serve => Command::Serve(served(alloc, line)?),
        Name::Faults => Command::Faults,
    })
}

/// What words ask for that clap has understood.
fn understood<'a>(alloc: Global, matches: &ArgMatches<'a>) -> Result<Line<'a>, Unasked> {
    let Some((name, line)) = matches.subcommand() else {
        return Err(Unasked::Nothing);
    };
    let Some(name) = name_of(name) else {
        return Err(Unasked::Nothing);
    };
    Ok(Line {
        command: asked(alloc, name, line)?,
        quiet: line.get_flag("quiet"),
        explain: line.get_flag("explain"),
    })
}

/// What is wrong with the words that clap hasn't understood.
fn wrong(alloc: Global, words: &[String], error: &clap::Error) -> Result<String, AllocError> {
    let better = match error.kind() {
        ErrorKind::UnknownArgument => lossy_option(alloc, words)?,
        ErrorKind::ValueValidation => bad_number(alloc, words)?,
        _ => None,
    };
    match better {
        Some(text) => Ok(text),
        None => format!(in alloc; "{error}"),
    }
}

/// A text of clap without blanks at its end.
fn shown(alloc: Global, error: &clap::Error) -> Result<String, AllocError> {
    let text = format!(in alloc; "{error}")?;
    let text = text.as_str().trim_end();
    format!(in alloc; "{text}\n")
}

/// Why clap has understood no words.
fn misunderstood(
    alloc: Global,
    words: &[String],
    error: &clap::Error,
) -> Result<Unasked, AllocError> {
    if error.kind() == ErrorKind::OutOfMemory {
        return Ok(Unasked::Memory);
    }
    if error.use_stderr() {
        return Ok(Unasked::IsWrong(wrong(alloc, words, error)?));
    }
    Ok(Unasked::Shows(shown(alloc, error)?))
}

/// What the words of a command line ask for, of which the first is the program's name.
pub fn read_line<'a>(
    alloc: Global,
    defaults: &'a Defaults,
    words: &'a [String],
) -> Result<Line<'a>, Unasked> {
    match command(alloc, defaults)?.try_get_matches_from(words) {
        Ok(matches) => understood(alloc, &matches),
        Err(error) => Err(misunderstood(alloc, words, &error)?),
    }
}
