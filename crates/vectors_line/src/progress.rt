//! How far work is, in words, and what a world is told of it.

use crate::inputs::world_with;
use crate::lines::{COLUMN, GREY};
use crate::runs::{bytes, put_file, run_line, world_of};
use jk_line::{FilesProgress, Progress, Status, Work};
use std::alloc::Global;
use std::fmt::Display;
use std::process::Abort;
use std::sync::atomic::Ordering;
use std::thread::Threads;
use vectors::{equal, equal_at};

/// Checks the words of how far work is.
fn check_words<P: Display + Copy>(rt: &impl Abort, alloc: Global, progress: P, words: &str) {
    let text = format!(in alloc; "{progress}").expect(rt, "a text");
    equal(text.as_str(), words).expect(rt, "how far work is");
}

/// Size and time are told always; code-blocks and what is written where there are any.
#[test]
fn progress_in_words(rt: HostRuntime) {
    let alloc = rt.alloc();
    let mut progress = Progress {
        work: Work::Encoding,
        size: Some(67_108_901),
        seconds: 12,
        coded: 0,
        written: 0,
    };
    check_words(&rt, alloc, progress, "jk: encoding 67.1 MB, 12 s");
    progress.coded = 4096;
    let words = "jk: encoding 67.1 MB, 12 s, at least 4096 code-blocks coded";
    check_words(&rt, alloc, progress, words);
    progress.size = None;
    let words = "jk: encoding, 12 s, at least 4096 code-blocks coded";
    check_words(&rt, alloc, progress, words);
    progress.work = Work::Decoding;
    progress.size = Some(99_999);
    progress.coded = 0;
    progress.written = 1_234_567_890;
    check_words(
        &rt,
        alloc,
        progress,
        "jk: decoding 0.0 MB, 12 s, 1234.5 MB written",
    )
}

/// Of files it is told how many are done.
#[test]
fn progress_of_files_in_words(rt: HostRuntime) {
    let progress = FilesProgress {
        done: 12,
        files: 300,
        seconds: 34,
    };
    check_words(&rt, rt.alloc(), progress, "jk: 12 of 300 files, 34 s")
}

/// Command lines over an input, and of what work, on how many bytes, the world is told.
fn check_told<R: Abort + Threads + Sync>(
    rt: &R,
    alloc: Global,
    line: &str,
    input: &str,
    status: Status,
    work: Work,
    size: Option<u64>,
) {
    let mut world = world_of(rt, alloc, bytes(rt, alloc, &[input]), &[]);
    put_file(rt, alloc, &mut world, "in", input);
    let found = run_line(rt, alloc, &mut world, line);
    let is_begun = world.begun.as_slice() == [(work, size)].as_slice();
    let found = (found, is_begun, world.ended, world.is_quiet);
    let due = (status, true, 1, line.contains("--quiet"));
    equal_at((line, world.error.as_str()), found, due).expect(rt, "what a world is told");
}

/// Encoding, decoding and adding are told of when they begin and when they end, whether they are
/// refused or not.
#[test]
fn work_is_told_of(rt: HostRuntime) {
    let alloc = rt.alloc();
    let (done, refused) = (Status::Done, Status::Refused);
    let (encoding, decoding) = (Work::Encoding, Work::Decoding);
    check_told(&rt, alloc, "encode - -", GREY, done, encoding, None);
    check_told(
        &rt,
        alloc,
        "encode - - --quiet --workers 2",
        GREY,
        done,
        encoding,
        None,
    );
    check_told(&rt, alloc, "encode - -", "00", refused, encoding, None);
    check_told(&rt, alloc, "encode in -", GREY, done, encoding, Some(12));
    check_told(
        &rt,
        alloc,
        "encode in - --tile-width 1 --tile-height 1",
        GREY,
        done,
        encoding,
        Some(12),
    );
    check_told(&rt, alloc, "add d a -", GREY, done, encoding, Some(12));
    check_told(
        &rt,
        alloc,
        "decode - - --quiet",
        COLUMN,
        done,
        decoding,
        Some(100),
    );
    check_told(
        &rt,
        alloc,
        "decode - - --workers 2",
        COLUMN,
        done,
        decoding,
        Some(100),
    );
    check_told(
        &rt,
        alloc,
        "decode - - --x 0 --y 0 --w 1 --h 1",
        COLUMN,
        done,
        decoding,
        Some(100),
    );
    check_told(&rt, alloc, "decode - -", "FF", refused, decoding, Some(1))
}

/// A command line over an image 130 wide, in standard input and in the file `in`, how many rows it has,
/// and how often workers tell of code-blocks.
static CODED: [(&str, usize, u64); 4] = [
    ("encode in - --levels 0 --workers 2", 70, 3),
    ("encode - - --levels 0 --workers 2", 70, 3),
    (
        "encode in - --levels 0 --workers 2 --tile-width 130 --tile-height 70",
        140,
        6,
    ),
    ("encode - - --levels 0", 70, 0),
];

/// An image three code-blocks wide and two high without levels has six code-blocks (T.800 B.7). Several
/// workers tell of large ones one by one and of small ones together, here of the narrow one at the
/// right and the three low ones behind it, and of two tiles twice as often. One worker tells nothing.
#[test]
fn code_blocks_are_counted(rt: HostRuntime) {
    let alloc = rt.alloc();
    for (line, rows, coded) in CODED {
        let head = format!(in alloc; "P5 130 {rows} 255\n").expect(&rt, "a text");
        let mut image = Vec::from_slice(alloc, head.as_bytes()).expect(&rt, "a head");
        image
            .resize(image.len() + 130 * rows, 7)
            .expect(&rt, "samples");
        let mut world = world_with(&rt, alloc, &image);
        let status = run_line(&rt, alloc, &mut world, line);
        let found = (status, world.counter.coded.load(Ordering::SeqCst));
        equal_at((line, world.error.as_str()), found, (Status::Done, coded)).expect(&rt, "a count");
    }
}
