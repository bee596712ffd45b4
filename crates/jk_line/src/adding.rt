//! `jk add DIR NAME IN`: an image is added to an archive.

use crate::beside::{Unstored, look_and_tell, store};
use crate::encoding::components_in;
use crate::failure::{Failure, of_image, of_options, with_words};
use crate::keeping::{asked, of_encoding};
use crate::streams::read;
use crate::world::{Streams, World};
use jk_beside::Extras;
use jk_commands::{EncodeOptions, Plan, judge, read_image};
use jk_math::{Fault, Image};
use jk_store::Encoded;
use jk_words::{Adding, Front, Kept, Work};
use std::alloc::Global;

/// An image encoded as it is asked for, with what its file is to keep, if anything. What it is
/// refused for is told when it is stored.
pub(crate) fn encoded(
    alloc: Global,
    name: &str,
    image: Image,
    plan: Plan,
    kept: Option<&Extras>,
) -> Result<Encoded, Fault> {
    let placed = match plan.place(image) {
        Ok(placed) => placed,
        Err(fault) => return Encoded::refused(alloc, name, fault),
    };
    let (image, parameters) = (&placed.image, &placed.parameters);
    match kept {
        Some(extras) => Encoded::with_extras(alloc, name, image, parameters, extras),
        None => Encoded::new(alloc, name, image, parameters),
    }
}

/// What the file of an image is to keep beside the samples, where that is asked for.
pub(crate) fn extras<W: Streams>(
    alloc: Global,
    world: &mut W,
    kept: &Kept<'_>,
) -> Result<Option<Extras>, Failure> {
    if kept.is_none() {
        return Ok(None);
    }
    let extras = asked(alloc, world, kept)?;
    Ok(Some(extras))
}

/// An image that is to be added: its folder, its name, the file that it is in, and the options.
#[derive(Clone, Copy)]
pub(crate) struct Asked<'a> {
    pub(crate) folder: &'a str,
    pub(crate) name: &'a str,
    pub(crate) path: &'a str,
    pub(crate) options: &'a EncodeOptions,
}

/// Why an image isn't added to a folder, with words for it.
fn of_adding(alloc: Global, fault: Fault, asked: &Asked<'_>, front: &Front) -> Failure {
    let Asked {
        folder,
        name,
        path,
        options,
    } = *asked;
    match fault {
        Fault::BadParameters => of_options(alloc, fault, options),
        Fault::BadName => with_words(
            fault,
            format!(in alloc;
                "the name {name} isn't 1 to 64 of the characters a to z, 0 to 9, - and _"
            ),
        ),
        Fault::NameTaken => with_words(fault, format!(in alloc; "{folder} has a file {name}.jp2")),
        Fault::Limit => with_words(
            fault,
            format!(in alloc;
                "{folder} has 4096 images, as many as an archive lists, or {path} is too large"
            ),
        ),
        Fault::Shelf => with_words(
            fault,
            format!(in alloc; "{name}.jp2 can't be written to {folder}"),
        ),
        _ => of_image(alloc, fault, path, front),
    }
}

/// Why an image that begins so, and whose file may be to keep something, isn't added.
pub(crate) fn of_unstored(
    alloc: Global,
    unstored: Unstored,
    asked: &Asked<'_>,
    extras: Option<&Extras>,
    front: &Front,
) -> Failure {
    match (unstored, extras) {
        (Unstored::Folder(failure), _) => failure,
        (Unstored::Image(Fault::BadParameters), Some(extras)) => {
            of_encoding(alloc, extras, components_in(front.bytes()), asked.options)
        }
        (Unstored::Image(fault), _) => of_adding(alloc, fault, asked, front),
    }
}

/// `jk add DIR NAME IN`: the options first and what the file is to keep, then the input and its
/// image, a first look at the name, the encoding, and then, while the folder is locked, the name
/// again, what the encoding told, and the adding.
pub(crate) fn add<W: World>(
    alloc: Global,
    world: &mut W,
    line: &Adding<'_>,
) -> Result<(), Failure> {
    let plan = match judge(alloc, &line.options) {
        Ok(plan) => plan,
        Err(fault) => return Err(of_options(alloc, fault, &line.options)),
    };
    let extras = extras(alloc, world, &line.kept)?;
    let extras = extras.as_ref();
    let bytes = read(alloc, world, line.input)?;
    let front = Front::of(alloc, &bytes);
    let image = match read_image(alloc, bytes) {
        Ok(image) => image,
        Err(fault) => return Err(of_image(alloc, fault, line.input, &front)),
    };
    let asked = Asked {
        folder: line.folder,
        name: line.name,
        path: line.input,
        options: &line.options,
    };
    if let Err(unstored) = look_and_tell(alloc, world, line.folder, line.name) {
        return Err(of_unstored(alloc, unstored, &asked, extras, &front));
    }
    world.begin_work(Work::Encoding, Some(front.size()));
    let encoded = encoded(alloc, line.name, image, plan, extras);
    world.end_work();
    match store(alloc, world, line.folder, &encoded?) {
        Ok(()) => Ok(()),
        Err(unstored) => Err(of_unstored(alloc, unstored, &asked, extras, &front)),
    }
}
