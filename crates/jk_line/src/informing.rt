//! `jk info IN..`: what files hold.

use crate::destination::STANDARD_OUTPUT;
use crate::failure::{Failure, of_file, report};
use crate::json::{error_object, info_object};
use crate::status::Status;
use crate::streams::{read, write};
use crate::world::Streams;
use jk_commands::{info_all_file, info_file};
use jk_math::Fault;
use jk_words::{Seen, Telling};
use std::alloc::{AllocError, Global};

/// The lines of a file, with its name at the end of the first.
fn with_name(alloc: Global, text: &str, name: &str) -> Result<String, AllocError> {
    let (first, others) = text.split_once('\n').unwrap_or((text, ""));
    format!(in alloc; "{first} {name}\n{others}")
}

/// What is printed of a file with these bytes.
fn told(alloc: Global, line: &Telling<'_>, name: &str, bytes: &[u8]) -> Result<String, Fault> {
    if line.json {
        let text = info_all_file(alloc, bytes)?;
        return Ok(info_object(alloc, name, text.as_str())?);
    }
    let text = if line.all {
        info_all_file(alloc, bytes)?
    } else {
        info_file(alloc, bytes)?
    };
    if line.inputs.len() > 1 {
        return Ok(with_name(alloc, text.as_str(), name)?);
    }
    Ok(text)
}

/// What is printed of a file of a name.
fn told_of<W: Streams>(
    alloc: Global,
    world: &mut W,
    line: &Telling<'_>,
    name: &str,
) -> Result<String, Failure> {
    let bytes = read(alloc, world, name)?;
    match told(alloc, line, name, &bytes) {
        Ok(text) => Ok(text),
        Err(fault) => Err(of_file(alloc, fault, name, &Seen::of(alloc, &bytes), None)),
    }
}

/// Prints what one of several files holds, or why it isn't known. Answers whether it is.
fn inform<W: Streams>(
    alloc: Global,
    world: &mut W,
    line: &Telling<'_>,
    name: &str,
    in_words: bool,
) -> Result<bool, Failure> {
    let failure = match told_of(alloc, world, line, name) {
        Ok(text) => {
            write(alloc, world, STANDARD_OUTPUT, text.as_bytes())?;
            return Ok(true);
        }
        Err(failure) => failure,
    };
    if line.json {
        let text = error_object(alloc, name, failure.fault)?;
        write(alloc, world, STANDARD_OUTPUT, text.as_bytes())?;
    }
    report(world, &failure, in_words);
    Ok(false)
}

/// `jk info IN..`: the files in their order. One that can't be read keeps no other from being printed;
/// the status is 1 then.
pub(crate) fn info<W: Streams>(
    alloc: Global,
    world: &mut W,
    line: &Telling<'_>,
    in_words: bool,
) -> Result<Status, Failure> {
    let mut status = Status::Done;
    for name in &line.inputs {
        if !inform(alloc, world, line, name, in_words)? {
            status = Status::Refused;
        }
    }
    Ok(status)
}
