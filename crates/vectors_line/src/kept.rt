//! Outputs that replace nothing, and what of a folder isn't checked or served.

use crate::lines::{GREY, pixel};
use crate::memory::Memory;
use crate::runs::{bytes, check_run, put_file, run_line, world_of};
use jk_line::Status;
use std::alloc::Global;
use std::process::Abort;
use std::thread::Threads;
use vectors::equal_at;

/// A world with the grey pixel as `x` and its file as `f`, and with another file, `old`.
fn world<'a, R: Abort + Threads + Sync>(rt: &'a R, alloc: Global) -> Memory<'a, R> {
    let mut world = Memory::new(rt, alloc, bytes(rt, alloc, &[GREY]));
    put_file(rt, alloc, &mut world, "x", GREY);
    put_file(rt, alloc, &mut world, "old", "AA");
    let name = String::from_str(alloc, "f").expect(rt, "a name");
    let kept: Result<_, _> = world.files.insert(name, bytes(rt, alloc, &pixel()));
    kept.expect(rt, "a file");
    world
}

/// Whether a file of a world has these bytes.
fn has<R: Abort>(rt: &R, alloc: Global, world: &Memory<'_, R>, name: &str, texts: &[&str]) -> bool {
    match world.files.get(name) {
        Some(found) => found.as_slice() == bytes(rt, alloc, texts).as_slice(),
        None => false,
    }
}

/// Lines whose output is their input.
static SAME: &str = "\
encode x x
encode x x --workers 2
encode x x --resolution 300
decode f f
decode f f --workers 2
decode f f --x 0 --y 0 --w 1 --h 1
cut f f --x 0 --y 0 --w 1 --h 1
encode x x --no-clobber";

/// Lines whose output is there, and may not be replaced.
static THERE: &str = "\
encode x old --no-clobber
encode x old --no-clobber --workers 2
encode - old --no-clobber
decode f old --no-clobber
decode f old --no-clobber --x 0 --y 0 --w 1 --h 1
cut f old --no-clobber --x 0 --y 0 --w 1 --h 1
dress f old --no-clobber
dress f f --no-clobber";

/// A line is refused with F20, and all files stay; with these words for it where they are asked for.
fn is_refused<R: Abort + Threads + Sync>(rt: &R, alloc: Global, line: &str, ends: &str) {
    let mut world = world(rt, alloc);
    let refused = Status::Refused;
    check_run(rt, alloc, &mut world, line, refused, &[], "jk: F20 Shelf\n");
    world.error.clear();
    let explained = format!(in alloc; "{line} --explain").expect(rt, "a text");
    let status = run_line(rt, alloc, &mut world, explained.as_str());
    let said = world.error.as_str();
    let found = (
        status,
        said.starts_with("jk: F20 Shelf\n"),
        said.ends_with(ends),
    );
    equal_at((line, said), found, (refused, true, true)).expect(rt, "words");
    let stay = [
        has(rt, alloc, &world, "x", &[GREY]),
        has(rt, alloc, &world, "f", &pixel()),
        has(rt, alloc, &world, "old", &["AA"]),
    ];
    equal_at(line, stay, [true, true, true]).expect(rt, "files that stay");
}

/// An input is never replaced by what is made of it, nor a file that is there where that is asked.
#[test]
fn files_stay(rt: HostRuntime) {
    let alloc = rt.alloc();
    for line in SAME.split('\n') {
        is_refused(&rt, alloc, line, " is both input and output\n");
    }
    for line in THERE.split('\n') {
        is_refused(
            &rt,
            alloc,
            line,
            " can't be written: entity already exists\n",
        );
    }
}

/// Lines that may write.
static WRITTEN: &str = "\
encode x new --no-clobber
decode f new --no-clobber
dress f new --no-clobber
dress f f
encode x old
encode - - --no-clobber
decode f - --no-clobber";

#[test]
fn others_are_written(rt: HostRuntime) {
    let alloc = rt.alloc();
    for line in WRITTEN.split('\n') {
        let mut world = world(&rt, alloc);
        let status = run_line(&rt, alloc, &mut world, line);
        let found = (status, world.error.as_str());
        equal_at(line, found, (Status::Done, "")).expect(&rt, "a line that writes");
    }
}

/// What a folder has under other names than those of images' files.
static OTHERS: [(&str, bool); 7] = [
    ("B.JP2", false),
    ("Broken.jp2", false),
    ("Scan 1.jp2", false),
    ("a.tmp", false),
    (
        "a0123456789012345678901234567890123456789012345678901234567890123456789.jp2",
        false,
    ),
    ("more", true),
    ("x.j2k", false),
];

/// What is told of it.
const UNCHECKED: &str = "\
jk: B.JP2 isn't checked: its name doesn't end in .jp2
jk: Broken.jp2 isn't checked: its name has other characters than a to z, 0 to 9, - and _
jk: Scan 1.jp2 isn't checked: its name has other characters than a to z, 0 to 9, - and _
jk: a.tmp isn't checked: jk add is writing it, or was interrupted
jk: a0123456789012345678901234567890123456789012345678901234567890123456789.jp2 isn't checked: its name has more than 64 characters before .jp2
jk: more isn't checked: it is a folder
jk: x.j2k isn't checked: its name doesn't end in .jp2
";

/// A world with a folder that has no image, and these.
fn world_with_others<'a, R: Abort + Threads + Sync>(rt: &'a R, alloc: Global) -> Memory<'a, R> {
    let mut world = world_of(rt, alloc, bytes(rt, alloc, &[]), &[]);
    for other in &OTHERS {
        world.others.push(*other).expect(rt, "a name");
    }
    world
}

/// What isn't checked is named, and fails where that is asked; what isn't served is counted, but for
/// the file of an adding.
#[test]
fn nothing_is_passed_over_in_silence(rt: HostRuntime) {
    let alloc = rt.alloc();
    for (line, status, error) in [
        ("check d", Status::Done, UNCHECKED),
        ("check d --strict", Status::Refused, UNCHECKED),
        (
            "serve d --port 8080",
            Status::Done,
            "jk: 0 images on http://127.0.0.1:8080/images, 6 not served because of their names\nNone 1 10 false",
        ),
        (
            "serve d --port 8080 --open-while-serving",
            Status::Done,
            "jk: 0 images on http://127.0.0.1:8080/images, 0 files are to be opened, 6 not served because of their names\n0 None",
        ),
    ] {
        let mut world = world_with_others(&rt, alloc);
        check_run(&rt, alloc, &mut world, line, status, &[], error);
    }
    let mut world = world_of(&rt, alloc, bytes(&rt, alloc, &[]), &[]);
    let line = "check d --strict";
    check_run(&rt, alloc, &mut world, line, Status::Done, &[], "");
}
