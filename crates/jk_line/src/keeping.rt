//! What a file keeps beside the samples: given to it, listed, and taken out of it.

use crate::destination::{Destination, STANDARD_OUTPUT};
use crate::failure::{Failure, INPUT, called, of_file, of_options, with_words};
use crate::status::Status;
use crate::streams::{read, write};
use crate::world::Streams;
use jk_beside::{
    Colour, Extras, Grid, Item, Other, extras_lines, inch_lines, item_in, judge_extras, named_uuid,
    profile_in, resolution_named,
};
use jk_commands::{EncodeOptions, dress_file};
use jk_math::Fault;
use jk_words::{Dressing, Kept, Listing, Seen, bad_profile, components_told};
use std::alloc::Global;

/// How many bytes a file is given at most.
const MOST: usize = 1 << 24;

/// The bytes of a file that another one is to keep.
fn read_kept<W: Streams>(alloc: Global, world: &mut W, name: &str) -> Result<Vec<u8>, Failure> {
    let bytes = read(alloc, world, name)?;
    let size = bytes.len();
    if size > MOST {
        return Err(with_words(
            Fault::BadParameters,
            format!(in alloc; "{name} has {size} bytes, and may have {MOST} at most"),
        ));
    }
    Ok(bytes)
}

/// The resolution that is asked for, if one is.
fn resolution(alloc: Global, kept: &Kept<'_>) -> Result<Option<Grid>, Failure> {
    let Some(text) = kept.resolution else {
        return Ok(None);
    };
    match resolution_named(text) {
        Ok(grid) => Ok(Some(grid)),
        Err(fault) => Err(with_words(
            fault,
            format!(in alloc;
                "--resolution is {text}, and may be N or NxM: each whole number from 1 to 65535, and those with a point that are a ratio of 16 bits"
            ),
        )),
    }
}

/// The UUIDs that are asked for, each with a file.
fn uuids<'a>(alloc: Global, kept: &Kept<'a>) -> Result<Vec<([u8; 16], &'a str)>, Failure> {
    let mut found = Vec::new(alloc);
    for text in &kept.uuids {
        match named_uuid(text) {
            Ok(named) => found.push(named)?,
            Err(fault) => {
                return Err(with_words(
                    fault,
                    format!(in alloc;
                        "--uuid is {text}, and may be 32 hexadecimal digits, a colon and the name of a file"
                    ),
                ));
            }
        }
    }
    Ok(found)
}

/// What a file is to keep: what the options say is judged first, and then the files are read.
pub(crate) fn asked<W: Streams>(
    alloc: Global,
    world: &mut W,
    kept: &Kept<'_>,
) -> Result<Extras, Failure> {
    let capture = resolution(alloc, kept)?;
    let named = uuids(alloc, kept)?;
    let colour = match kept.profile {
        Some(name) => Colour::Profile(read_kept(alloc, world, name)?),
        None => Colour::AsItIs,
    };
    let mut others = Vec::new(alloc);
    if let Some(name) = kept.xml {
        let text = read_kept(alloc, world, name)?;
        others.push(Other::Xml(text))?;
    }
    for (id, name) in &named {
        let contents = read_kept(alloc, world, name)?;
        others.push(Other::Uuid(*id, contents))?;
    }
    Ok(Extras {
        colour,
        capture,
        display: None,
        others,
    })
}

/// Why a file may not keep what is asked for.
fn of_kept(alloc: Global, extras: &Extras, components: u16) -> Failure {
    let why = match &extras.colour {
        Colour::Profile(profile) => bad_profile(profile, components),
        _ => None,
    };
    match why {
        Some(words) => with_words(
            Fault::BadParameters,
            format!(in alloc; "the file may not have this --profile: {words}"),
        ),
        None => with_words(
            Fault::BadParameters,
            format!(in alloc; "a file is given {MOST} bytes of boxes and 1024 of them at most"),
        ),
    }
}

/// Why an image isn't encoded with what its file is to keep: BadParameters, in words.
pub(crate) fn of_encoding(
    alloc: Global,
    extras: &Extras,
    components: u16,
    options: &EncodeOptions,
) -> Failure {
    if judge_extras(extras, components).is_err() {
        return of_kept(alloc, extras, components);
    }
    of_options(alloc, Fault::BadParameters, options)
}

/// Refuses a bare codestream that is to keep something.
pub(crate) fn check_container(alloc: Global, options: &EncodeOptions) -> Result<(), Failure> {
    if options.raw {
        return Err(with_words(
            Fault::BadParameters,
            String::from_str(
                alloc,
                "--raw writes a bare codestream, which keeps nothing beside the samples",
            ),
        ));
    }
    Ok(())
}

/// A fault of a file that is given something, in words.
fn of_dressing(alloc: Global, fault: Fault, extras: &Extras, name: &str, bytes: &[u8]) -> Failure {
    if fault != Fault::BadParameters {
        return of_file(alloc, fault, name, &Seen::of(alloc, bytes), None);
    }
    if bytes.starts_with(&[0xFF, 0x4F]) {
        return with_words(
            fault,
            String::from_str(
                alloc,
                "the file is a bare codestream, which keeps nothing beside the samples: a JP2 file does",
            ),
        );
    }
    of_kept(alloc, extras, components_told(bytes))
}

/// `jk dress IN OUT`: what the file is to keep, and then the file.
pub(crate) fn dress<W: Streams>(
    alloc: Global,
    world: &mut W,
    line: &Dressing<'_>,
) -> Result<(), Failure> {
    let extras = asked(alloc, world, &line.kept)?;
    let bytes = read(alloc, world, line.input)?;
    let to = Destination::any(line.output, line.no_clobber);
    match dress_file(alloc, &bytes, &extras) {
        Ok(file) => write(alloc, world, to, &file),
        Err(fault) => Err(of_dressing(alloc, fault, &extras, line.input, &bytes)),
    }
}

/// What is taken out of a file, and where it goes.
#[derive(Clone, Copy)]
struct Taken<'a> {
    contents: &'a [u8],
    name: &'a str,
}

/// Says that a file lacks what is to be taken out of it.
fn tell_lack<W: Streams>(
    alloc: Global,
    world: &mut W,
    name: &str,
    what: &str,
) -> Result<Status, Failure> {
    let called = called(name, INPUT);
    let words = format!(in alloc; "jk: {called} has no {what}\n")?;
    world.tell(&words);
    Ok(Status::Refused)
}

/// Takes out of a file what is asked for: all of it, or nothing where the file lacks a part of it.
fn take<W: Streams>(
    alloc: Global,
    world: &mut W,
    line: &Listing<'_>,
    bytes: &[u8],
    named: &[([u8; 16], &str)],
) -> Result<Status, Failure> {
    let mut taken = Vec::new(alloc);
    if let Some(name) = line.taken.profile {
        let Some(contents) = profile_in(bytes)? else {
            return tell_lack(alloc, world, line.input, "ICC profile");
        };
        taken.push(Taken { contents, name })?;
    }
    if let Some(name) = line.taken.xml {
        let Some(contents) = item_in(Item::Xml, bytes)? else {
            return tell_lack(alloc, world, line.input, "XML");
        };
        taken.push(Taken { contents, name })?;
    }
    for (id, name) in named {
        let Some(contents) = item_in(Item::Uuid(*id), bytes)? else {
            return tell_lack(alloc, world, line.input, "box under this UUID");
        };
        taken.push(Taken { contents, name })?;
    }
    for part in &taken {
        let to = Destination::beside(line.input, part.name, line.no_clobber);
        write(alloc, world, to, part.contents)?;
    }
    Ok(Status::Done)
}

/// The lines of what a file keeps, with its resolutions by the inch too.
fn lines(alloc: Global, bytes: &[u8]) -> Result<String, Fault> {
    let mut lines = extras_lines(alloc, bytes)?;
    let inches = inch_lines(alloc, bytes)?;
    lines.push_str(inches.as_str())?;
    Ok(lines)
}

/// `jk extras IN`: what a file keeps is listed, or taken out of it.
pub(crate) fn extras<W: Streams>(
    alloc: Global,
    world: &mut W,
    line: &Listing<'_>,
) -> Result<Status, Failure> {
    let named = uuids(alloc, &line.taken)?;
    let bytes = read(alloc, world, line.input)?;
    if !line.taken.is_none() {
        return take(alloc, world, line, &bytes, &named);
    }
    match lines(alloc, &bytes) {
        Ok(text) => {
            write(alloc, world, STANDARD_OUTPUT, text.as_bytes())?;
            Ok(Status::Done)
        }
        Err(fault) => Err(of_file(alloc, fault, line.input, &Seen::of(alloc, &bytes), None)),
    }
}
