//! `jk add DIR --all PATHS..`: the images of many files are added to an archive.

use crate::adding::{Asked, extras, of_unstored};
use crate::beside::{Unstored, look, store, tell_others};
use crate::failure::{Failure, of_options, of_world};
use crate::scans::{Coming, Scan};
use crate::status::Status;
use crate::workers::workers;
use crate::world::{Streams, World};
use jk_beside::Extras;
use jk_commands::judge;
use jk_math::Fault;
use jk_store::{Encoded, added_text, refused_text};
use jk_words::{AddingAll, Front, cause_of};
use std::alloc::Global;
use std::collections::VecDeque;
use std::sync::Arc;
use std::thread::Threads;

/// The name of the image of a file: what the file is called, without its folder and its extension.
fn name_of(path: &str) -> &str {
    let file = match path.rsplit_once('/') {
        Some((_, file)) => file,
        None => path,
    };
    match file.rsplit_once('.') {
        Some((name, _)) if !name.is_empty() => name,
        _ => file,
    }
}

/// What a path is read as: `-` is a file here, and not standard input.
fn place_of(path: &str) -> &str {
    if path == "-" { "./-" } else { path }
}

/// A file that is added: its path, the name of its image, how it begins, and why it isn't read or the
/// name isn't taken, if that is known before it is encoded.
#[derive(Drop)]
struct Source<'a> {
    path: &'a str,
    name: &'a str,
    front: Front,
    refused: Option<Failure>,
}

/// An image that is on its way into an archive.
#[derive(Drop)]
struct OnItsWay<'a> {
    source: Source<'a>,
    coming: Coming,
}

/// An image that is encoded, or why it isn't.
#[derive(Drop)]
struct Arrived<'a> {
    source: Source<'a>,
    encoded: Result<Encoded, Fault>,
}

/// The images of files on their way into an archive.
#[derive(Drop)]
struct Row<'a> {
    /// What the files of images are to keep, if anything.
    kept: Option<Arc<Extras>>,
    /// Those that are encoded, at most as many as there are workers, in the order of their files.
    waiting: VecDeque<OnItsWay<'a>>,
    /// Whether one was refused.
    is_refused: bool,
    /// Whether causes are printed.
    in_words: bool,
}

impl<'a> Row<'a> {
    /// The image that has been on its way for the longest, once it is encoded.
    fn first<R: Threads>(&mut self, rt: &R) -> Option<Arrived<'a>> {
        let OnItsWay { source, coming } = self.waiting.pop_front()?;
        Some(Arrived {
            source,
            encoded: coming.get(rt),
        })
    }

    /// Waits for all that are on their way, and lets them go.
    fn leave<R: Threads>(&mut self, rt: &R) {
        for _ in 0..self.waiting.len() {
            let _ = self.first(rt);
        }
    }
}

/// A file that is to be encoded. Its name is looked at before it is read.
///
/// The first of these: Shelf where the folder can't be listed; BadName; NameTaken; Shelf where the
/// file can't be read.
fn read_scan<W: World>(
    alloc: Global,
    world: &mut W,
    line: &AddingAll<'_>,
    kept: &Option<Arc<Extras>>,
    path: &str,
) -> Result<Scan, Failure> {
    let name = name_of(path);
    if let Err(unstored) = look(alloc, world, line.folder, name) {
        return Err(of_refused(alloc, unstored, line, path, &Front::new(alloc)));
    }
    let kept = match kept {
        Some(extras) => Some(Arc::try_clone(extras)?),
        None => None,
    };
    let bytes = match world.read(alloc, place_of(path)) {
        Ok(bytes) => bytes,
        Err(fault) => return Err(of_world(alloc, world, fault, path, "read")),
    };
    Ok(Scan {
        name: String::from_str(alloc, name)?,
        bytes,
        plan: judge(alloc, &line.options)?,
        kept,
    })
}

/// Why the image of a file isn't added, with words for it.
fn of_refused(
    alloc: Global,
    unstored: Unstored,
    line: &AddingAll<'_>,
    path: &str,
    front: &Front,
) -> Failure {
    let asked = Asked {
        folder: line.folder,
        name: name_of(path),
        path,
        options: &line.options,
    };
    of_unstored(alloc, unstored, &asked, None, front)
}

/// Begins to encode the image of a file. What is refused by now is told in its turn.
fn begin<'a, W: World>(
    alloc: Global,
    world: &mut W,
    line: &AddingAll<'_>,
    kept: &Option<Arc<Extras>>,
    path: &'a str,
) -> OnItsWay<'a> {
    let name = name_of(path);
    match read_scan(alloc, world, line, kept, path) {
        Ok(scan) => OnItsWay {
            source: Source {
                path,
                name,
                front: Front::of(alloc, &scan.bytes),
                refused: None,
            },
            coming: Coming::begin(world.runtime(), alloc, scan),
        },
        Err(failure) => OnItsWay {
            coming: Coming::Now(Encoded::refused(alloc, name, failure.fault)),
            source: Source {
                path,
                name,
                front: Front::new(alloc),
                refused: Some(failure),
            },
        },
    }
}

/// Why an image that was encoded, or wasn't, isn't stored; None where it is.
fn stored<W: World>(
    alloc: Global,
    world: &mut W,
    line: &AddingAll<'_>,
    path: &str,
    front: &Front,
    encoded: Result<Encoded, Fault>,
) -> Option<Failure> {
    let encoded = match encoded {
        Ok(encoded) => encoded,
        Err(fault) => return Some(Failure::from(fault)),
    };
    match store(alloc, world, line.folder, &encoded) {
        Ok(()) => None,
        Err(unstored) => Some(of_refused(alloc, unstored, line, path, front)),
    }
}

/// Whether a text begins with the name of this file.
fn names_first(text: &str, path: &str) -> bool {
    match text.strip_prefix(path) {
        Some(rest) => rest.starts_with(' ') || rest.starts_with(':'),
        None => false,
    }
}

/// Prints to standard error why the image of a file wasn't added.
fn report_path<W: Streams>(
    alloc: Global,
    world: &mut W,
    path: &str,
    failure: &Failure,
) -> Result<(), Failure> {
    let words = match &failure.words {
        Some(words) => words.as_str(),
        None => cause_of(&failure.fault),
    };
    let text = if names_first(words, path) {
        format!(in alloc; "jk: {words}\n")?
    } else {
        format!(in alloc; "jk: {path}: {words}\n")?
    };
    world.tell(&text);
    Ok(())
}

/// Stores an image, and prints what comes of it.
fn end<W: World>(
    alloc: Global,
    world: &mut W,
    line: &AddingAll<'_>,
    row: &mut Row<'_>,
    arrived: Arrived<'_>,
) -> Result<(), Failure> {
    let Arrived { source, encoded } = arrived;
    let Source {
        path,
        name,
        front,
        refused,
    } = source;
    let failure = stored(alloc, world, line, path, &front, encoded);
    let text = match &failure {
        Some(failure) => refused_text(alloc, name, failure.fault)?,
        None => added_text(alloc, name)?,
    };
    if let Err(fault) = world.end_file(&text) {
        return Err(of_world(alloc, world, fault, "standard output", "written"));
    }
    let Some(failure) = failure else {
        return Ok(());
    };
    row.is_refused = true;
    if row.in_words {
        // What was known before the image was encoded has its own words.
        report_path(alloc, world, path, &refused.unwrap_or(failure))?;
    }
    Ok(())
}

/// Adds the images of files in their order. As many as there are workers are encoded side by side,
/// while the one before them is stored.
fn add_each<'a, W: World>(
    alloc: Global,
    world: &mut W,
    line: &AddingAll<'a>,
    workers: usize,
    row: &mut Row<'a>,
) -> Result<(), Failure> {
    for path in &line.paths {
        let first = if workers <= row.waiting.len() {
            row.first(world.runtime())
        } else {
            None
        };
        let next = begin(alloc, world, line, &row.kept, path);
        row.waiting.push_back(next)?;
        if let Some(first) = first {
            end(alloc, world, line, row, first)?;
        }
    }
    for _ in 0..workers {
        if let Some(first) = row.first(world.runtime()) {
            end(alloc, world, line, row, first)?;
        }
    }
    Ok(())
}

/// `jk add DIR --all PATHS..`: how many workers there are, the options and what the files are to
/// keep, the folder, and then the files, each told on a line of standard output in its turn. The
/// status says whether one was refused.
pub(crate) fn add_all<W: World>(
    alloc: Global,
    world: &mut W,
    line: &AddingAll<'_>,
    in_words: bool,
) -> Result<Status, Failure> {
    let workers = workers(alloc, world, line.workers)?;
    if let Err(fault) = judge(alloc, &line.options) {
        return Err(of_options(alloc, fault, &line.options));
    }
    let kept = match extras(alloc, world, &line.kept)? {
        Some(extras) => Some(Arc::new(alloc, extras)?),
        None => None,
    };
    if let Err(unstored) = tell_others(alloc, world, line.folder) {
        return Err(unstored.failure());
    }
    let mut row = Row {
        kept,
        waiting: VecDeque::with_capacity(alloc, workers)?,
        is_refused: false,
        in_words,
    };
    world.begin_files(line.paths.len() as u64);
    let added = add_each(alloc, world, line, workers, &mut row);
    row.leave(world.runtime());
    world.end_work();
    added?;
    if row.is_refused {
        Ok(Status::Refused)
    } else {
        Ok(Status::Done)
    }
}
