//! The calls that the tests make, without their contracts: a test says what is answered, and proves
//! nothing by it. Where one is refused that a test counts on, the test ends there, and who calls it
//! has no other way to go on.

use crate::contents::Content;
use jk_extras::Extras;
use jk_jobs::Gate;
use jk_marks::Order;
use jk_math::{Fault, Image, Style};
use jk_params::{Container, Parameters};
use jk_store::{Archive, Encoded, Entry, HashedParts, MemoryShelf, Prepared, Shelf};
use jk_window::View;
use std::alloc::Global;
use std::process::Abort;
use std::sync::Arc;
use std::thread::Threads;
use vectors::{Told, bytes_of, drawn};

/// The bytes of what a file holds.
pub(crate) fn bytes(rt: &impl Abort, alloc: Global, content: Content) -> Vec<u8> {
    bytes_of(alloc, &[content.text()]).expect(rt, "bytes")
}

/// Adds bytes.
pub(crate) fn put(rt: &impl Abort, out: &mut Vec<u8>, more: &[u8]) {
    out.extend_from_slice(more).expect(rt, "more bytes");
}

/// A square image of grey samples.
fn image_of(rt: &impl Abort, alloc: Global, side: u32, plane: Vec<i32>) -> Image {
    let mut planes = Vec::new(alloc);
    planes.push(plane).expect(rt, "a plane");
    Image::new(0, 0, side, side, 8, false, planes).expect(rt, "an image")
}

/// An image of one grey sample.
fn pixel(rt: &impl Abort, alloc: Global, sample: i32) -> Image {
    let plane = Vec::from_slice(alloc, &[sample]).expect(rt, "a sample");
    image_of(rt, alloc, 1, plane)
}

/// An image of 256 by 256 grey samples of noise: the high bytes of numbers that are drawn one by
/// another; the first comes so from 1.
fn noise(rt: &impl Abort, alloc: Global) -> Image {
    let mut plane = Vec::new(alloc);
    let mut number = 1u32;
    for _ in 0..256 * 256 {
        number = drawn(number);
        plane.push((number >> 24) as i32).expect(rt, "a sample");
    }
    image_of(rt, alloc, 256, plane)
}

/// No levels, one layer, LRCP, blocks of 64 by 64, and nothing else, in this container.
pub(crate) fn plain(alloc: Global, container: Container) -> Parameters {
    parameters(alloc, 0, container)
}

/// The same with levels, in a JP2 file.
pub(crate) fn with_levels(alloc: Global, levels: u8) -> Parameters {
    parameters(alloc, levels, Container::Jp2)
}

fn parameters(alloc: Global, levels: u8, container: Container) -> Parameters {
    Parameters {
        levels,
        layers: 1,
        order: Order::Lrcp,
        tile: None,
        xcb: 6,
        ycb: 6,
        style: Style::plain(),
        precincts: Vec::new(alloc),
        colour: false,
        sop: false,
        eph: false,
        container,
    }
}

/// A square window, whose upper left corner is as far from both edges.
pub(crate) fn square(corner: u32, side: u32) -> View {
    View {
        reduce: 0,
        x: corner,
        y: corner,
        width: side,
        height: side,
        layers: None,
    }
}

pub(crate) fn view(x: u32, width: u32) -> View {
    View {
        reduce: 0,
        x,
        y: 0,
        width,
        height: 1,
        layers: None,
    }
}

/// Writes a file.
pub(crate) fn write<S: Shelf>(
    rt: &impl Abort,
    shelf: &mut S,
    alloc: Global,
    name: &str,
    bytes: &[u8],
) {
    shelf.write(alloc, name, bytes).expect(rt, "a file");
}

/// A shelf in memory with these files.
pub(crate) fn shelf_of(rt: &impl Abort, alloc: Global, files: &[(&str, Content)]) -> MemoryShelf {
    let mut shelf = MemoryShelf::new(alloc);
    for (name, content) in files {
        write(rt, &mut shelf, alloc, name, &bytes(rt, alloc, *content));
    }
    shelf
}

pub(crate) fn read<S: Shelf>(shelf: &mut S, alloc: Global, name: &str) -> Result<Vec<u8>, Fault> {
    shelf.read(alloc, name)
}

/// Why a file isn't renamed, where it isn't.
pub(crate) fn rename<S: Shelf>(
    shelf: &mut S,
    alloc: Global,
    from: &str,
    to: &str,
) -> Option<Fault> {
    shelf.rename(alloc, from, to).err()
}

/// The archive of a shelf, if it can be opened.
pub(crate) fn opened<S: Shelf + Drop>(alloc: Global, shelf: S) -> Result<Archive<S>, Fault> {
    Archive::open(alloc, shelf)
}

/// The archive of a shelf.
pub(crate) fn open<S: Shelf + Drop>(rt: &impl Abort, alloc: Global, shelf: S) -> Archive<S> {
    opened(alloc, shelf).expect(rt, "an archive")
}

/// The archive of a shelf that workers open, if it can be opened.
pub(crate) fn open_with<S: Shelf + Drop, R: Threads + Sync, G: Gate + Sync>(
    rt: &R,
    alloc: Global,
    workers: usize,
    gate: &G,
    shelf: S,
) -> Result<Archive<S>, Fault> {
    Archive::open_with(rt, alloc, workers, gate, shelf)
}

/// An archive in memory of these files.
pub(crate) fn archive_of(
    rt: &impl Abort,
    alloc: Global,
    files: &[(&str, Content)],
) -> Archive<MemoryShelf> {
    open(rt, alloc, shelf_of(rt, alloc, files))
}

/// What is said to an image that is to be added.
fn added<S: Shelf>(
    archive: &mut Archive<S>,
    alloc: Global,
    name: &str,
    image: &Image,
    parameters: &Parameters,
) -> Result<Arc<Entry>, Fault> {
    archive.add(alloc, name, image, parameters)
}

/// Adds a grey sample in a JP2 file.
pub(crate) fn add<S: Shelf>(
    rt: &impl Abort,
    archive: &mut Archive<S>,
    alloc: Global,
    name: &str,
    sample: i32,
) -> Arc<Entry> {
    let image = pixel(rt, alloc, sample);
    added(archive, alloc, name, &image, &plain(alloc, Container::Jp2)).expect(rt, "an image")
}

/// Adds noise in tiles of 64 by 64, with two levels.
pub(crate) fn add_noise<S: Shelf>(
    rt: &impl Abort,
    archive: &mut Archive<S>,
    alloc: Global,
    name: &str,
) -> Arc<Entry> {
    let image = noise(rt, alloc);
    let mut parameters = with_levels(alloc, 2);
    parameters.tile = Some((64, 64));
    added(archive, alloc, name, &image, &parameters).expect(rt, "an image")
}

/// Adds a grey sample of 255 in eight layers.
pub(crate) fn add_layered<S: Shelf>(
    rt: &impl Abort,
    archive: &mut Archive<S>,
    alloc: Global,
    name: &str,
) -> Arc<Entry> {
    let image = pixel(rt, alloc, 255);
    let mut parameters = plain(alloc, Container::Jp2);
    parameters.layers = 8;
    added(archive, alloc, name, &image, &parameters).expect(rt, "an image")
}

/// Why a grey sample isn't added, where it isn't.
pub(crate) fn refusal<S: Shelf>(
    rt: &impl Abort,
    archive: &mut Archive<S>,
    alloc: Global,
    name: &str,
    sample: i32,
) -> Option<Fault> {
    let image = pixel(rt, alloc, sample);
    added(archive, alloc, name, &image, &plain(alloc, Container::Jp2)).err()
}

/// Why a grey sample of 128 isn't added with these parameters, where it isn't.
pub(crate) fn refusal_with<S: Shelf>(
    rt: &impl Abort,
    archive: &mut Archive<S>,
    alloc: Global,
    name: &str,
    parameters: &Parameters,
) -> Option<Fault> {
    added(archive, alloc, name, &pixel(rt, alloc, 128), parameters).err()
}

/// Adds a grey sample of 128 with levels, whose file is to keep something.
pub(crate) fn add_dressed<S: Shelf>(
    rt: &impl Abort,
    archive: &mut Archive<S>,
    alloc: Global,
    name: &str,
    levels: u8,
    extras: &Extras,
) -> Result<Arc<Entry>, Fault> {
    let image = pixel(rt, alloc, 128);
    archive.add_with_extras(alloc, name, &image, &with_levels(alloc, levels), extras)
}

/// A grey sample of 128 that is encoded with these parameters, and what its file is to keep.
pub(crate) fn encoded(
    rt: &impl Abort,
    alloc: Global,
    name: &str,
    parameters: &Parameters,
    extras: Option<&Extras>,
) -> Encoded {
    let image = pixel(rt, alloc, 128);
    let answer = match extras {
        Some(extras) => Encoded::with_extras(alloc, name, &image, parameters, extras),
        None => Encoded::new(alloc, name, &image, parameters),
    };
    answer.expect(rt, "an image")
}

/// The same with its entry.
pub(crate) fn prepared(
    rt: &impl Abort,
    alloc: Global,
    name: &str,
    parameters: &Parameters,
    extras: Option<&Extras>,
) -> Prepared {
    let image = pixel(rt, alloc, 128);
    let answer = match extras {
        Some(extras) => Prepared::with_extras(alloc, name, &image, parameters, extras),
        None => Prepared::new(alloc, name, &image, parameters),
    };
    answer.expect(rt, "an image")
}

pub(crate) fn store<S: Shelf>(
    encoded: &Encoded,
    alloc: Global,
    shelf: &mut S,
) -> Result<(), Fault> {
    encoded.store(alloc, shelf)
}

pub(crate) fn add_prepared<S: Shelf>(
    archive: &mut Archive<S>,
    alloc: Global,
    prepared: Prepared,
) -> Result<Arc<Entry>, Fault> {
    archive.add_prepared(alloc, prepared)
}

pub(crate) fn whole<S: Shelf>(
    archive: &mut Archive<S>,
    alloc: Global,
    name: &str,
) -> Result<Vec<u8>, Fault> {
    archive.whole(alloc, name)
}

pub(crate) fn window<S: Shelf>(
    archive: &mut Archive<S>,
    alloc: Global,
    name: &str,
    view: View,
) -> Result<Vec<u8>, Fault> {
    archive.window(alloc, name, view)
}

pub(crate) fn entry_whole<S: Shelf>(
    entry: &Entry,
    alloc: Global,
    shelf: &mut S,
) -> Result<Vec<u8>, Fault> {
    entry.whole(alloc, shelf)
}

pub(crate) fn entry_window<S: Shelf>(
    entry: &Entry,
    alloc: Global,
    shelf: &mut S,
    view: View,
) -> Result<Vec<u8>, Fault> {
    entry.window(alloc, shelf, view)
}

pub(crate) fn by_parts<S: Shelf>(
    entry: &Entry,
    alloc: Global,
    shelf: &mut S,
    view: View,
) -> Result<Vec<u8>, Fault> {
    entry.window_by_parts(alloc, shelf, view)
}

pub(crate) fn by_kept_parts<S: Shelf>(
    entry: &Entry,
    alloc: Global,
    shelf: &mut S,
    kept: &mut HashedParts,
    view: View,
) -> Result<Vec<u8>, Fault> {
    entry.window_by_parts_with(alloc, shelf, kept, view)
}

/// The names that are listed, with a space behind each.
pub(crate) fn listed<S: Shelf>(rt: &impl Abort, archive: &Archive<S>, alloc: Global) -> String {
    let mut names = Told::new(alloc);
    for entry in archive.list() {
        names.word(entry.name.as_str());
        names.word(" ");
    }
    names.end().expect(rt, "names")
}

/// The names that are skipped and why, with a semicolon behind each.
pub(crate) fn skipped<S: Shelf>(rt: &impl Abort, archive: &Archive<S>, alloc: Global) -> String {
    let mut names = Told::new(alloc);
    for file in archive.skipped() {
        names.word(file.name.as_str());
        names.word(" ");
        names.said(&file.fault);
        names.word(";");
    }
    names.end().expect(rt, "names")
}

/// Texts with a bar behind each.
pub(crate) fn joined(rt: &impl Abort, alloc: Global, texts: &[&str]) -> String {
    let mut all = Told::new(alloc);
    for text in texts {
        all.word(text);
        all.word("|");
    }
    all.end().expect(rt, "a text")
}

/// Whether what was answered is the JP2 file of one sample.
pub(crate) fn is_page(
    rt: &impl Abort,
    alloc: Global,
    answer: Result<Vec<u8>, Fault>,
) -> Result<bool, Fault> {
    match answer {
        Ok(file) => Ok(file.as_slice() == bytes(rt, alloc, Content::Page).as_slice()),
        Err(fault) => Err(fault),
    }
}
