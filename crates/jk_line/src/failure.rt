//! Why a command was refused, with words for people.

use crate::world::Streams;
use jk_commands::EncodeOptions;
use jk_math::Fault;
use jk_window::View;
use jk_words::{FaultLine, Front, Seen, bad_option, cause_of, not_pnm, not_read};
use std::alloc::{AllocError, AllocFailed, Global};

/// A fault, and its cause in words where it is known closer than by the fault's name.
#[derive(Drop)]
pub(crate) struct Failure {
    pub(crate) fault: Fault,
    pub(crate) words: Option<String>,
}

impl From<Fault> for Failure {
    fn from(fault: Fault) -> Failure {
        Failure { fault, words: None }
    }
}

impl From<AllocError> for Failure {
    fn from(error: AllocError) -> Failure {
        Failure {
            fault: Fault::from(error),
            words: None,
        }
    }
}

impl<T: Drop> From<AllocFailed<T>> for Failure {
    fn from(error: AllocFailed<T>) -> Failure {
        Failure {
            fault: Fault::from(error),
            words: None,
        }
    }
}

/// A fault with words, if there is memory for them.
pub(crate) fn with_words(fault: Fault, words: Result<String, AllocError>) -> Failure {
    let words = match words {
        Ok(text) => Some(text),
        Err(_) => None,
    };
    Failure { fault, words }
}

/// A fault of a JPEG 2000 file, or of the view of it that is asked for, with words for it.
pub(crate) fn of_file(
    alloc: Global,
    fault: Fault,
    name: &str,
    seen: &Seen,
    view: Option<&View>,
) -> Failure {
    let name = called(name, INPUT);
    with_words(fault, not_read(alloc, fault, name, seen, view))
}

/// A fault of an image that is to be encoded, with words for it.
pub(crate) fn of_image(alloc: Global, fault: Fault, name: &str, front: &Front) -> Failure {
    let name = called(name, INPUT);
    if fault == Fault::BadPnm {
        return with_words(fault, not_pnm(alloc, name, front));
    }
    let cause = cause_of(&fault);
    with_words(fault, format!(in alloc; "{name}: {cause}"))
}

/// What standard input is called.
pub(crate) const INPUT: &str = "standard input";

/// What a file is called: its name, or the stream that `-` stands for.
pub(crate) fn called<'a>(name: &'a str, stream: &'a str) -> &'a str {
    if name == "-" { stream } else { name }
}

/// Writes a fault to standard error, and on a second line its cause in words, if these are wanted.
pub(crate) fn report<W: Streams>(world: &mut W, failure: &Failure, in_words: bool) {
    world.tell(&FaultLine {
        fault: failure.fault,
    });
    if !in_words {
        return;
    }
    match &failure.words {
        Some(text) => world.tell(text),
        None => world.tell(&cause_of(&failure.fault)),
    }
    world.tell(&"\n");
}

/// A fault of the world, with what the system said of it.
pub(crate) fn of_world<W: Streams>(
    alloc: Global,
    world: &W,
    fault: Fault,
    subject: &str,
    verb: &str,
) -> Failure {
    match world.said() {
        Some(said) if fault == Fault::Shelf => with_words(
            fault,
            format!(in alloc; "{subject} can't be {verb}: {said}"),
        ),
        _ => Failure::from(fault),
    }
}

/// A fault of options, with the words for the option that is outside its limits.
pub(crate) fn of_options(alloc: Global, fault: Fault, options: &EncodeOptions) -> Failure {
    if fault == Fault::BadParameters {
        with_words(fault, bad_option(alloc, options))
    } else {
        Failure::from(fault)
    }
}
