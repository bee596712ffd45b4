//! What is wrong with a command line, where it can be said better than by the form of its words.

use std::alloc::{AllocError, Global};

/// What is printed after what is wrong.
const MORE: &str = "\n\nFor more information, try '--help'.\n";

/// Options by which lossy encoders are told how much to keep.
static LOSSY: [&str; 9] = [
    "--rate",
    "--rates",
    "--ratio",
    "--ratios",
    "--quality",
    "--qualities",
    "--lossy",
    "-r",
    "-q",
];

/// An option with a number, and the least and the greatest that it may be.
#[derive(Clone, Copy)]
struct Limits(&'static str, u32, u32);

/// The options of all commands.
static NUMBERS: [Limits; 10] = [
    Limits("--levels", 0, 5),
    Limits("--layers", 1, 65_535),
    Limits("--block-x", 2, 10),
    Limits("--block-y", 2, 10),
    Limits("--tile-width", 1, 0x7FFF_FFFF),
    Limits("--tile-height", 1, 0x7FFF_FFFF),
    Limits("--reduce", 0, 10),
    Limits("--timeout", 1, 3600),
    Limits("--watch", 1, 3600),
    Limits("--port", 0, 65_535),
];

/// An option without its value, if it has one behind an equals sign.
fn option_of(word: &str) -> &str {
    match word.split_once('=') {
        Some((option, _value)) => option,
        None => word,
    }
}

/// The text for an option of lossy encoders among the words, if there is one.
pub(crate) fn lossy_option(alloc: Global, words: &[String]) -> Result<Option<String>, AllocError> {
    for word in words {
        let option = option_of(word.as_str());
        if LOSSY.contains(&option) {
            let text = format!(in alloc;
                "error: jk is lossless and keeps every bit of each sample: there is no {option}{MORE}"
            )?;
            return Ok(Some(text));
        }
    }
    Ok(None)
}

/// The limits of an option.
fn limits_of(option: &str) -> Option<&'static Limits> {
    for limits in &NUMBERS {
        if limits.0 == option {
            return Some(limits);
        }
    }
    None
}

/// The text for a value that an option doesn't take, if it has limits.
fn bad_value(alloc: Global, option: &str, value: &str) -> Result<Option<String>, AllocError> {
    let Some(Limits(_name, least, most)) = limits_of(option) else {
        return Ok(None);
    };
    if value.parse::<u32>().is_ok() {
        return Ok(None);
    }
    let text = format!(in alloc; "error: {option} is {value}, and may be {least} to {most}{MORE}")?;
    Ok(Some(text))
}

/// The text for the first option among the words whose value isn't a number, if there is one.
pub(crate) fn bad_number(alloc: Global, words: &[String]) -> Result<Option<String>, AllocError> {
    let mut before = "";
    for word in words {
        let word = word.as_str();
        let (option, value) = word.split_once('=').unwrap_or((before, word));
        let text = bad_value(alloc, option, value)?;
        if text.is_some() {
            return Ok(text);
        }
        before = word;
    }
    Ok(None)
}

/// The text for a number of workers that isn't one.
pub(crate) fn bad_workers(alloc: Global, value: &str) -> Result<String, AllocError> {
    format!(in alloc; "error: --workers is {value}, and may be 1 to 64, or auto{MORE}")
}
