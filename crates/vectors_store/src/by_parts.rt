//! Windows of a large file, of which only the parts are read that they need.

use crate::asserts::{equal, equal_at};
use crate::calls::{
    add, add_noise, by_kept_parts, by_parts, entry_whole, entry_window, open, put, read, square,
    write,
};
use crate::shelves::{Act, act_at};
use jk_math::Fault;
use jk_store::{Archive, Entry, HashedParts, MemoryShelf, Shelf};
use jk_window::View;
use std::alloc::Global;
use std::process::Abort;

/// The side of the image of noise, whose file has five parts.
const SIDE: u32 = 256;

/// The archive of one image `n`, 256 by 256 grey samples of noise in tiles of 64 by 64, and its
/// file.
#[derive(Drop)]
struct Noise {
    archive: Archive<MemoryShelf>,
    file: Vec<u8>,
}

fn made(rt: &impl Abort, alloc: Global) -> Noise {
    let mut archive = open(rt, alloc, MemoryShelf::new(alloc));
    add_noise(rt, &mut archive, alloc, "n");
    let mut shelf = archive.into_shelf();
    let file = read(&mut shelf, alloc, "n.jp2").expect(rt, "a file");
    Noise {
        archive: open(rt, alloc, shelf),
        file,
    }
}

impl Noise {
    fn entry(&self, rt: &impl Abort) -> &Entry {
        self.archive.list().first().expect(rt, "an image")
    }
}

/// A shelf with one file.
fn with_file(rt: &impl Abort, alloc: Global, name: &str, bytes: &[u8]) -> MemoryShelf {
    let mut shelf = MemoryShelf::new(alloc);
    write(rt, &mut shelf, alloc, name, bytes);
    shelf
}

/// The window that is cut of the whole file.
fn due(rt: &impl Abort, alloc: Global, noise: &Noise, asked: View) -> Vec<u8> {
    let mut shelf = with_file(rt, alloc, "n.jp2", &noise.file);
    entry_window(noise.entry(rt), alloc, &mut shelf, asked).expect(rt, "a window")
}

/// Whether what was made is this window, or why it wasn't made.
fn is_window(made: Result<Vec<u8>, Fault>, window: &[u8]) -> Result<bool, Fault> {
    match made {
        Ok(made) => Ok(made.as_slice() == window),
        Err(fault) => Err(fault),
    }
}

/// Whether the window is what is cut of the whole file; and how many stretches of how many bytes
/// were read for it.
fn compared(rt: &impl Abort, alloc: Global, noise: &Noise, asked: View) -> (bool, u64, u64) {
    let mut shelf = act_at(with_file(rt, alloc, "n.jp2", &noise.file), 0, Act::Fail);
    let made = by_parts(noise.entry(rt), alloc, &mut shelf, asked).expect(rt, "a window");
    let same = made.as_slice() == due(rt, alloc, noise, asked).as_slice();
    (same, shelf.stretches, shelf.bytes)
}

/// Upper left corners and sides of windows, and how many parts each may need.
static WINDOWS: [(u32, u32, u64); 4] = [(0, 1, 2), (130, 60, 3), (200, 16, 4), (0, SIDE, 5)];

#[test]
fn of_their_parts_alone(rt: HostRuntime) {
    let noise = made(&rt, rt.alloc());
    for (corner, side, most) in &WINDOWS {
        let asked = square(*corner, *side);
        let (same, stretches, bytes) = compared(&rt, rt.alloc(), &noise, asked);
        let few = stretches <= *most && bytes <= most.saturating_mul(16384);
        equal_at(&rt, *corner, (same, few), (true, true));
    }
}

/// The file with another byte at the front of one of its parts.
fn turned(rt: &impl Abort, alloc: Global, file: &[u8], part: usize) -> Vec<u8> {
    let mut bytes = Vec::from_slice(alloc, file).expect(rt, "bytes");
    if let Some(byte) = bytes.get_mut(part.saturating_mul(16384)) {
        *byte ^= 1;
    }
    bytes
}

/// What is said of the window and of the whole of a file in which one part has changed.
fn with_turned(
    rt: &impl Abort,
    alloc: Global,
    noise: &Noise,
    part: usize,
    asked: View,
    window: &[u8],
) -> (Result<bool, Fault>, Option<Fault>) {
    let bytes = turned(rt, alloc, &noise.file, part);
    let mut shelf = with_file(rt, alloc, "n.jp2", &bytes);
    let entry = noise.entry(rt);
    let answer = is_window(by_parts(entry, alloc, &mut shelf, asked), window);
    (answer, entry_whole(entry, alloc, &mut shelf).err())
}

/// One more where that is so.
fn one_more(count: u64, is_so: bool) -> u64 {
    if is_so {
        count.saturating_add(1)
    } else {
        count
    }
}

/// How many of the files in which one part has changed give the window as it was, how many are told
/// to have changed where the window is asked for, and how many where the whole is.
fn with_each_turned(rt: &impl Abort, alloc: Global, noise: &Noise, asked: View) -> (u64, u64, u64) {
    let window = due(rt, alloc, noise, asked);
    let mut counts = (0u64, 0u64, 0u64);
    for part in 0..noise.entry(rt).parts.len() {
        let (answer, whole) = with_turned(rt, alloc, noise, part, asked, &window);
        counts = (
            one_more(counts.0, answer == Ok(true)),
            one_more(counts.1, answer == Err(Fault::Changed)),
            one_more(counts.2, whole == Some(Fault::Changed)),
        );
    }
    counts
}

/// A file that has changed in a part that is read is told; one that has changed elsewhere gives the
/// window.
#[test]
fn where_a_part_has_changed(rt: HostRuntime) {
    let noise = made(&rt, rt.alloc());
    let parts = noise.entry(&rt).parts.len() as u64;
    for (corner, side, _most) in &WINDOWS[..2] {
        let asked = square(*corner, *side);
        let (_same, stretches, _bytes) = compared(&rt, rt.alloc(), &noise, asked);
        let counts = with_each_turned(&rt, rt.alloc(), &noise, asked);
        let due = (parts.saturating_sub(stretches), stretches, parts);
        equal_at(&rt, *corner, counts, due);
    }
}

/// Whether the window is given, by parts that are kept from then on; what it is where a part has
/// changed; whether it is given where that part is as it was; and how many stretches were read for
/// the last one.
fn with_one_turned(
    rt: &impl Abort,
    alloc: Global,
    noise: &Noise,
    window: &[u8],
    part: usize,
) -> (bool, Option<Fault>, bool, u64) {
    let entry = noise.entry(rt);
    let asked = square(0, SIDE);
    let mut kept = HashedParts::new(alloc);
    let mut shelf = with_file(rt, alloc, "n.jp2", &noise.file);
    let first = by_kept_parts(entry, alloc, &mut shelf, &mut kept, asked).expect(rt, "a window");
    let mut other = with_file(rt, alloc, "n.jp2", &turned(rt, alloc, &noise.file, part));
    let changed = by_kept_parts(entry, alloc, &mut other, &mut kept, asked).err();
    let mut shelf = act_at(shelf, 0, Act::Fail);
    let again = by_kept_parts(entry, alloc, &mut shelf, &mut kept, asked).expect(rt, "a window");
    (
        first.as_slice() == window,
        changed,
        again.as_slice() == window,
        shelf.stretches,
    )
}

/// Parts that were hashed before are read again: each that has changed since is told, and the
/// window is given again where the file is as it was.
#[test]
fn where_a_kept_part_has_changed(rt: HostRuntime) {
    let noise = made(&rt, rt.alloc());
    let asked = square(0, SIDE);
    let (_same, stretches, _bytes) = compared(&rt, rt.alloc(), &noise, asked);
    let window = due(&rt, rt.alloc(), &noise, asked);
    for part in 0..noise.entry(&rt).parts.len() {
        let answer = with_one_turned(&rt, rt.alloc(), &noise, &window, part);
        equal_at(
            &rt,
            part,
            answer,
            (true, Some(Fault::Changed), true, stretches),
        );
    }
}

/// The file with a box before its codestream that has so many bytes of text (T.800 I.7.1): all its
/// parts are others then.
fn moved(rt: &impl Abort, alloc: Global, file: &[u8], by: u32) -> Vec<u8> {
    // Behind the signature, the file type and the header of an image of one component.
    let (front, behind) = file.split_at(file.len().min(77));
    let mut moved = Vec::from_slice(alloc, front).expect(rt, "bytes");
    put(rt, &mut moved, &by.saturating_add(8).to_be_bytes());
    put(rt, &mut moved, b"xml ");
    for _ in 0..by {
        moved.push(b' ').expect(rt, "room");
    }
    put(rt, &mut moved, behind);
    moved
}

/// How many such files there are, each fortieth of the image of noise and the others of one sample.
const FILES: u32 = 264;

/// The file of the image of noise, and that of one sample, which has one part.
#[derive(Drop)]
struct Files {
    noise: Vec<u8>,
    sample: Vec<u8>,
}

fn made_files(rt: &impl Abort, alloc: Global) -> Files {
    let mut archive = open(rt, alloc, MemoryShelf::new(alloc));
    add(rt, &mut archive, alloc, "s", 7);
    let mut shelf = archive.into_shelf();
    Files {
        noise: made(rt, alloc).file,
        sample: read(&mut shelf, alloc, "s.jp2").expect(rt, "a file"),
    }
}

/// Whether the file of this number is of the image of noise.
fn is_noise(by: u32) -> bool {
    by % 40 == 0
}

impl Files {
    /// The file of this number: it tells so many bytes of text.
    fn file(&self, rt: &impl Abort, alloc: Global, by: u32) -> Vec<u8> {
        let file = if is_noise(by) {
            &self.noise
        } else {
            &self.sample
        };
        moved(rt, alloc, file, by)
    }

    /// A shelf of them all.
    fn shelf(&self, rt: &impl Abort, alloc: Global) -> MemoryShelf {
        let mut shelf = MemoryShelf::new(alloc);
        for by in 0..FILES {
            let name = format!(in alloc; "{by:03}.jp2").expect(rt, "a name");
            write(
                rt,
                &mut shelf,
                alloc,
                name.as_str(),
                &self.file(rt, alloc, by),
            );
        }
        shelf
    }
}

/// The whole image of the file of this number.
fn whole(by: u32) -> View {
    square(0, if is_noise(by) { SIDE } else { 1 })
}

/// Whether the whole image of an entry is what is cut of the whole file.
fn is_whole(
    rt: &impl Abort,
    alloc: Global,
    entry: &Entry,
    shelf: &mut MemoryShelf,
    kept: &mut HashedParts,
    by: u32,
) -> bool {
    let window = by_kept_parts(entry, alloc, shelf, kept, whole(by)).expect(rt, "a window");
    let due = entry_window(entry, alloc, shelf, whole(by)).expect(rt, "a window");
    window.as_slice() == due.as_slice()
}

/// Why the whole image of a file isn't given, where a byte at the front of a part has changed.
fn with_file_turned(
    rt: &impl Abort,
    alloc: Global,
    entry: &Entry,
    file: &[u8],
    (by, part): (u32, usize),
    kept: &mut HashedParts,
) -> Option<Fault> {
    let name = format!(in alloc; "{}.jp2", entry.name.as_str()).expect(rt, "a name");
    let mut shelf = with_file(rt, alloc, name.as_str(), &turned(rt, alloc, file, part));
    by_kept_parts(entry, alloc, &mut shelf, kept, whole(by)).err()
}

/// More parts are asked for than are kept, so that new ones take the places of old ones: each window
/// is what is due, and a part that has changed since is told, whether it is still kept or not.
#[test]
fn more_parts_than_are_kept(rt: HostRuntime) {
    let alloc = rt.alloc();
    let files = made_files(&rt, alloc);
    let archive = open(&rt, alloc, files.shelf(&rt, alloc));
    let mut shelf = files.shelf(&rt, alloc);
    let mut kept = HashedParts::new(alloc);
    let mut parts = 0u64;
    for (entry, by) in archive.list().iter().zip(0..FILES) {
        parts = parts.saturating_add(entry.parts.len() as u64);
        let is_due = is_whole(&rt, alloc, entry, &mut shelf, &mut kept, by);
        equal_at(&rt, by, is_due, true);
    }
    equal(&rt, parts, 292);
    for (entry, by) in archive.list().iter().zip(0..FILES) {
        if by % 60 == 0 {
            let file = files.file(&rt, alloc, by);
            for part in 0..entry.parts.len() {
                let answer = with_file_turned(&rt, alloc, entry, &file, (by, part), &mut kept);
                equal_at(&rt, (by, part), answer, Some(Fault::Changed));
            }
            let is_due = is_whole(&rt, alloc, entry, &mut shelf, &mut kept, by);
            equal_at(&rt, by, is_due, true);
        }
    }
}

/// Whether a window of a file without its last bytes, or with so many zeros behind it, is that of
/// the file; what is said of the whole; and the failures.
fn of_length(
    rt: &impl Abort,
    alloc: Global,
    noise: &Noise,
    (cut, more): (usize, usize),
    asked: View,
) -> (Result<bool, Fault>, Option<Fault>, u64) {
    let mut bytes = Vec::from_slice(alloc, &noise.file).expect(rt, "bytes");
    bytes.truncate(bytes.len().saturating_sub(cut));
    for _ in 0..more {
        bytes.push(0).expect(rt, "room");
    }
    let window = due(rt, alloc, noise, asked);
    let mut shelf = with_file(rt, alloc, "n.jp2", &bytes);
    let entry = noise.entry(rt);
    let answer = is_window(by_parts(entry, alloc, &mut shelf, asked), &window);
    let all = entry_whole(entry, alloc, &mut shelf).err();
    (answer, all, shelf.failures())
}

/// Bytes that are cut off, bytes that are added, the corner of a window of 8 by 8, and whether it
/// is given.
static LENGTHS: [(usize, usize, u32, Result<bool, Fault>); 6] = [
    (0, 1, 0, Ok(true)),
    (0, 1, 248, Ok(true)),
    (0, 50_000, 248, Ok(true)),
    (1, 0, 0, Ok(true)),
    (20_000, 0, 248, Err(Fault::Changed)),
    (1_000_000, 0, 0, Err(Fault::Changed)),
];

#[test]
fn longer_and_shorter_files(rt: HostRuntime) {
    let noise = made(&rt, rt.alloc());
    for (cut, more, corner, due) in &LENGTHS {
        let answer = of_length(&rt, rt.alloc(), &noise, (*cut, *more), square(*corner, 8));
        equal_at(&rt, (*cut, *more), answer, (*due, Some(Fault::Changed), 0));
    }
}

/// What a window of a file that isn't there gives, and one that the view hasn't; and the failures.
fn of_no_file(rt: &impl Abort, alloc: Global, noise: &Noise) -> ([Option<Fault>; 2], u64) {
    let mut shelf = with_file(rt, alloc, "m.jp2", &noise.file);
    let entry = noise.entry(rt);
    let faults = [
        by_parts(entry, alloc, &mut shelf, square(0, 8)).err(),
        by_parts(entry, alloc, &mut shelf, square(SIDE, 8)).err(),
    ];
    (faults, shelf.failures())
}

#[test]
fn missing_files(rt: HostRuntime) {
    let noise = made(&rt, rt.alloc());
    let due = [Some(Fault::Shelf), Some(Fault::BadWindow)];
    equal(&rt, of_no_file(&rt, rt.alloc(), &noise), (due, 1));
}

/// Whether a window of a shelf that fails at a call is given as it is due, and the failures.
fn failing_at(
    rt: &impl Abort,
    alloc: Global,
    noise: &Noise,
    asked: View,
    window: &[u8],
    call: u64,
) -> (Result<bool, Fault>, u64) {
    let mut shelf = act_at(with_file(rt, alloc, "n.jp2", &noise.file), call, Act::Fail);
    let answer = is_window(by_parts(noise.entry(rt), alloc, &mut shelf, asked), window);
    (answer, shelf.failures())
}

#[test]
fn failing_at_each_call(rt: HostRuntime) {
    let noise = made(&rt, rt.alloc());
    let asked = square(0, SIDE);
    let (_same, stretches, _bytes) = compared(&rt, rt.alloc(), &noise, asked);
    let window = due(&rt, rt.alloc(), &noise, asked);
    for call in 1..stretches.saturating_add(1) {
        let answer = failing_at(&rt, rt.alloc(), &noise, asked, &window, call);
        equal_at(&rt, call, answer, (Err(Fault::Shelf), 1));
    }
    let last = stretches.saturating_add(1);
    let answer = failing_at(&rt, rt.alloc(), &noise, asked, &window, last);
    equal(&rt, answer, (Ok(true), 0));
}
