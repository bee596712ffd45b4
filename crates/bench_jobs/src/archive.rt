//! The operator's work: an archive is opened, and its files are checked.

use crate::calls::{encoded, plain, with_windows};
use crate::chance::Chance;
use crate::digest::Digest;
use crate::drawing::{page, photograph, slice};
use crate::scale::Scale;
use jk_math::Fault;
use jk_store::{Archive, Finding, MemoryShelf, Shelf, check};
use std::alloc::Global;
use std::thread::Threads;

/// Appends a box with a text about the image (T.800 I.7.1), which is another one for each file.
fn with_note(file: &Vec<u8>, mut chance: Chance) -> Result<Vec<u8>, Fault> {
    let mut noted = file.clone()?;
    noted.extend_from_slice(&[0, 0, 1, 8, b'x', b'm', b'l', b' '])?;
    for _ in 0..256 {
        noted.push((chance.next() & 63) as u8 + 32)?;
    }
    Ok(noted)
}

/// A shelf of files of three kinds of images, each with its own note.
fn shelf(alloc: Global, seed: u64, scale: Scale) -> Result<MemoryShelf, Fault> {
    let drawn = [
        photograph(alloc, seed, scale.size(800, 600))?,
        slice(alloc, seed, scale.size(512, 512), 12)?,
        page(alloc, seed, scale.size(1240, 1754))?,
    ];
    let mut shelf = MemoryShelf::new(alloc);
    for (kind, image) in drawn.iter().enumerate() {
        let options = if kind == 1 {
            plain(alloc)
        } else {
            with_windows(alloc)
        };
        let file = encoded(alloc, image.clone()?, options)?;
        for number in 0..scale.count(60) {
            let tag = (number as u64) << 8 | kind as u64;
            let name = format!(in alloc; "image-{kind}-{number:04}.jp2")?;
            shelf.write(
                alloc,
                name.as_str(),
                &with_note(&file, Chance::new(seed, tag))?,
            )?;
        }
    }
    Ok(shelf)
}

/// An archive of such files is opened, and then each file is checked.
pub(crate) fn archive<R: Threads + Sync>(
    rt: &R,
    alloc: Global,
    seed: u64,
    scale: Scale,
) -> Result<Digest, Fault> {
    let mut digest = Digest::new();
    let archive = Archive::open(alloc, shelf(alloc, seed, scale)?)?;
    for entry in archive.list() {
        digest.take(entry.name.as_bytes());
        digest.take(entry.digest.as_slice());
        for part in &entry.parts {
            digest.take(part.as_slice());
        }
    }
    let mut shelf = archive.into_shelf();
    for checked in &check(rt, alloc, 1, &mut shelf, false)? {
        digest.take(checked.name.as_bytes());
        match &checked.finding {
            Finding::Whole(sum) => digest.take(sum.as_slice()),
            Finding::Broken(sum, _) => digest.take(&sum[..1]),
            Finding::Unread(_) => digest.take(b"unread"),
        }
    }
    Ok(digest)
}
