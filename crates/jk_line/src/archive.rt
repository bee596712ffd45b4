//! Archives that are opened and served.

use crate::beside::MOST_IMAGES;
use crate::failure::{Failure, of_world, with_words};
use crate::serving::{Meanwhile, Serving};
use crate::unjudged::count_unserved;
use crate::workers::workers;
use crate::world::{Working, World};
use jk_jobs::Open;
use jk_math::Fault;
use jk_store::{Archive, Images, Prepared, Shelf, image_name};
use jk_words::{Server, cause_of};
use std::alloc::Global;

/// Why the folder of an archive can't be read: with the file that can't be, where it is one.
pub(crate) fn of_folder<W: World>(
    alloc: Global,
    world: &mut W,
    fault: Fault,
    name: &str,
    folder: &W::Folder,
) -> Failure {
    let Some(file) = world.trouble(alloc, folder) else {
        return of_world(alloc, world, fault, name, "read");
    };
    match format!(in alloc; "{name}/{file}") {
        Ok(subject) => of_world(alloc, world, fault, subject.as_str(), "read"),
        Err(_) => Failure::from(fault),
    }
}

/// An archive, and the first fault for which a file was left out that might have been listed.
#[derive(Drop)]
struct Opened<F> {
    archive: Archive<F>,
    left_out: Option<Fault>,
}

/// The archive of a folder, whose files so many workers read. If there isn't enough memory for them,
/// or there are too many images, the files are read one by one.
fn open<W: World>(
    alloc: Global,
    world: &mut W,
    workers: usize,
    name: &str,
    in_words: bool,
) -> Result<Opened<W::Folder>, Failure> {
    let mut folder = match world.folder(alloc, name) {
        Ok(folder) => folder,
        Err(fault) => return Err(of_world(alloc, world, fault, name, "opened")),
    };
    world.begin_opening(&mut folder);
    let read = Images::read_with(world.runtime(), alloc, workers, &Open, &mut folder);
    world.end_opening(&mut folder);
    match read {
        Ok(images) => {
            let _ = world.tell_others(&folder);
            let archive = Archive::with(folder, images);
            tell_skipped(alloc, world, &archive, in_words)?;
            Ok(Opened {
                archive,
                left_out: None,
            })
        }
        Err(Fault::Memory(_)) | Err(Fault::Limit) => {
            open_each(alloc, world, name, folder, in_words)
        }
        Err(fault) => Err(of_folder(alloc, world, fault, name, &folder)),
    }
}

/// Reads the file of an image, and lists it.
fn list_one<S: Shelf>(
    alloc: Global,
    folder: &mut S,
    archive: &mut Archive<S>,
    image: &str,
) -> Result<(), Fault> {
    let prepared = Prepared::read(alloc, folder, image)?;
    archive.list_prepared(&prepared)?;
    Ok(())
}

/// The archive of a folder whose files are read and listed one by one. A file for which there isn't
/// enough memory is reported and left out, and so are those after the first 4,096 images.
fn open_each<W: World>(
    alloc: Global,
    world: &mut W,
    name: &str,
    folder: W::Folder,
    in_words: bool,
) -> Result<Opened<W::Folder>, Failure> {
    let (mut reading, files) = listed(alloc, world, name)?;
    let _ = world.tell_others(&reading);
    let mut images = names_of(alloc, &files)?;
    images.sort()?;
    let mut archive = Archive::with(folder, Images::none(alloc));
    let mut left_out = None;
    for number in 0..images.len() {
        let image = images[number].as_str();
        match list_one(alloc, &mut reading, &mut archive, image) {
            Ok(()) => {}
            Err(Fault::Shelf) => {
                return Err(of_folder(alloc, world, Fault::Shelf, name, &reading));
            }
            Err(fault) => {
                let is_full = fault == Fault::Limit && MOST_IMAGES <= archive.list().len();
                if is_full || matches!(fault, Fault::Memory(_)) {
                    left_out = left_out.or(Some(fault));
                }
                if is_full {
                    tell_beyond(alloc, world, image, images.len() - number - 1)?;
                    break;
                }
                tell_unlisted(alloc, world, image, fault, in_words)?;
            }
        }
    }
    Ok(Opened { archive, left_out })
}

/// Writes to standard error that the file of an image isn't listed, nor so many files after it.
fn tell_beyond<W: World>(
    alloc: Global,
    world: &mut W,
    image: &str,
    more: usize,
) -> Result<(), Failure> {
    if more == 0 {
        return tell_unlisted(alloc, world, image, Fault::Limit, false);
    }
    let line = format!(in alloc;
        "jk: {image}.jp2 and {more} files more aren't listed: {}\n",
        Fault::Limit
    )?;
    world.tell(&line);
    Ok(())
}

/// Writes to standard error that the file of an image isn't listed.
fn tell_unlisted<W: World>(
    alloc: Global,
    world: &mut W,
    image: &str,
    fault: Fault,
    in_words: bool,
) -> Result<(), Failure> {
    let line = format!(in alloc; "jk: {image}.jp2 isn't listed: {fault}\n")?;
    world.tell(&line);
    if in_words {
        world.tell(&cause_of(&fault));
        world.tell(&"\n");
    }
    Ok(())
}

/// Writes to standard error which files of an archive aren't listed.
fn tell_skipped<W: World>(
    alloc: Global,
    world: &mut W,
    archive: &Archive<W::Folder>,
    in_words: bool,
) -> Result<(), Failure> {
    for file in archive.skipped() {
        tell_unlisted(alloc, world, file.name.as_str(), file.fault, in_words)?;
    }
    Ok(())
}

/// How long a read or a write may wait at most, in seconds.
const MOST_TIMEOUT: u32 = 3600;

/// How an archive is served, if the options are within their limits. What of its folder isn't
/// served is counted later.
fn serving<W: Working>(alloc: Global, world: &W, line: &Server<'_>) -> Result<Serving, Failure> {
    let workers = workers(alloc, world, line.workers)?;
    let timeout = line.timeout;
    if timeout < 1 || MOST_TIMEOUT < timeout {
        return Err(with_words(
            Fault::BadParameters,
            format!(in alloc; "--timeout is {timeout}, and may be 1 to {MOST_TIMEOUT}"),
        ));
    }
    Ok(Serving {
        port: line.port,
        connections: line.connections,
        workers,
        timeout,
        log: line.log,
        unserved: 0,
        left_out: None,
    })
}

/// After how many seconds each the folder is listed again, if that is within its limits.
fn watch(alloc: Global, line: &Server<'_>) -> Result<Option<u32>, Failure> {
    match line.watch {
        Some(seconds) if seconds < 1 || MOST_TIMEOUT < seconds => Err(with_words(
            Fault::BadParameters,
            format!(in alloc; "--watch is {seconds}, and may be 1 to {MOST_TIMEOUT}"),
        )),
        watch => Ok(watch),
    }
}

/// The names of the hosts that are answered for, where they are given.
fn host_names(alloc: Global, line: &Server<'_>) -> Result<Option<Vec<String>>, Failure> {
    let Some(text) = line.host_names else {
        return Ok(None);
    };
    let mut names = Vec::new(alloc);
    for name in text.split(',') {
        let name = name.trim();
        if name.is_empty() {
            return Err(with_words(
                Fault::BadParameters,
                format!(in alloc;
                    "--host-names is {text}, and may be names with commas between them"
                ),
            ));
        }
        names.push(String::from_str(alloc, name)?)?;
    }
    Ok(Some(names))
}

/// Why an archive can't be served on a port.
fn unserved<W: World>(alloc: Global, world: &mut W, fault: Fault, port: u16) -> Failure {
    match format!(in alloc; "port {port}") {
        Ok(subject) => of_world(alloc, world, fault, subject.as_str(), "served"),
        Err(_) => Failure::from(fault),
    }
}

/// `jk serve DIR`: the options, the folder, what of it isn't listed, and the connections.
pub(crate) fn serve<W: World>(
    alloc: Global,
    world: &mut W,
    line: &Server<'_>,
    in_words: bool,
) -> Result<(), Failure> {
    let mut serving = serving(alloc, world, line)?;
    let watch = watch(alloc, line)?;
    if let Some(names) = host_names(alloc, line)? {
        world.answer_for(names);
    }
    if line.open_while_serving {
        return serve_opening(alloc, world, line.folder, serving, watch);
    }
    let folder = line.folder;
    if let Err(fault) = world.share(alloc, folder) {
        return Err(of_world(alloc, world, fault, folder, "locked"));
    }
    let opened = open(alloc, world, serving.workers, folder, in_words);
    world.release();
    let Opened { archive, left_out } = opened?;
    world.tell_left(archive.shelf());
    serving.unserved = count_unserved(alloc, world, folder)?;
    serving.left_out = left_out;
    match world.serve(alloc, folder, archive, serving) {
        Ok(()) => Ok(()),
        Err(fault) => Err(unserved(alloc, world, fault, serving.port)),
    }
}

/// The folder of an archive, and the files of images in it, none of which was read.
fn listed<W: World>(
    alloc: Global,
    world: &mut W,
    name: &str,
) -> Result<(W::Folder, Vec<String>), Failure> {
    let mut folder = match world.folder(alloc, name) {
        Ok(folder) => folder,
        Err(fault) => return Err(of_world(alloc, world, fault, name, "opened")),
    };
    match folder.list(alloc) {
        Ok(files) => Ok((folder, files)),
        Err(fault) => Err(of_folder(alloc, world, fault, name, &folder)),
    }
}

/// The names of the images of files.
fn names_of(alloc: Global, files: &[String]) -> Result<Vec<String>, Failure> {
    let mut names = Vec::new(alloc);
    for file in files {
        if let Some(name) = image_name(file.as_str()) {
            names.push(String::from_str(alloc, name)?)?;
        }
    }
    Ok(names)
}

/// `jk serve DIR --open-while-serving`: the folder's files, what can't be opened of them, and the
/// connections. The folder is locked while it is listed alone.
fn serve_opening<W: World>(
    alloc: Global,
    world: &mut W,
    name: &str,
    serving: Serving,
    watch: Option<u32>,
) -> Result<(), Failure> {
    let mut serving = serving;
    if let Err(fault) = world.share(alloc, name) {
        return Err(of_world(alloc, world, fault, name, "locked"));
    }
    let listed = listed(alloc, world, name);
    world.release();
    let (folder, files) = listed?;
    let _ = world.tell_others(&folder);
    world.tell_left(&folder);
    let names = names_of(alloc, &files)?;
    let archive = Archive::with(folder, Images::none(alloc));
    let meanwhile = Meanwhile { names, watch };
    serving.unserved = count_unserved(alloc, world, name)?;
    match world.serve_opening(alloc, name, archive, serving, meanwhile) {
        Ok(()) => Ok(()),
        Err(fault) => Err(unserved(alloc, world, fault, serving.port)),
    }
}

/// The line that says how many connections were served at the end.
pub fn served(alloc: Global, connections: u64) -> Result<String, Fault> {
    let line = format!(in alloc; "jk: served {connections} connections\n")?;
    Ok(line)
}

/// The words for how many files and folders of a folder aren't served because of their names.
fn unserved_words(alloc: Global, count: usize) -> Result<String, Fault> {
    let words = match count {
        0 => String::new(alloc),
        count => format!(in alloc; ", {count} not served because of their names")?,
    };
    Ok(words)
}

/// The line that says where an archive is served, and how many files and folders of its folder aren't
/// because of their names, if there are any.
pub fn listening(
    alloc: Global,
    images: usize,
    port: u16,
    unserved: usize,
) -> Result<String, Fault> {
    let more = unserved_words(alloc, unserved)?;
    let line = format!(in alloc; "jk: {images} images on http://127.0.0.1:{port}/images{more}\n")?;
    Ok(line)
}

/// The line that says where an archive is served whose files wait to be opened, with the same number.
pub fn opening(alloc: Global, files: usize, port: u16, unserved: usize) -> Result<String, Fault> {
    let more = unserved_words(alloc, unserved)?;
    let line = format!(in alloc;
        "jk: 0 images on http://127.0.0.1:{port}/images, {files} files are to be opened{more}\n"
    )?;
    Ok(line)
}
