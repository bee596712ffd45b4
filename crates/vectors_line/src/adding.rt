//! The images of many files, added to an archive by one line.

use crate::lines::{BOXES, COLOURS, GREY, pixel};
use crate::memory::Memory;
use crate::runs::{check_file, check_run, put_file, run_line, world_of};
use jk_line::Status;
use std::alloc::Global;
use std::process::Abort;
use std::thread::Threads;
use vectors::equal_at;

/// A PGM file of one pixel, 255.
static WHITE: &str = "50350A 312031 0A 323535 0A FF";

/// A world with files, and a folder `d` with a file `c.jp2`, which isn't listed.
fn world<R: Abort + Threads + Sync>(rt: &R, alloc: Global) -> Memory<'_, R> {
    let mut world = world_of(rt, alloc, Vec::new(alloc), &[("c.jp2", &["FF"])]);
    for (name, text) in [
        ("x/one.pgm", GREY),
        ("two.ppm", COLOURS),
        ("bad.pgm", "50350A"),
        ("Three.pgm", GREY),
        ("c.pgm", GREY),
        ("y/one.pgm", WHITE),
        ("./-", GREY),
        ("x.xml", "3C612F3E"),
    ] {
        put_file(rt, alloc, &mut world, name, text);
    }
    world
}

/// What is printed of all files: a line each, in the order of the line.
static ANSWERS: &str = "\
added one
added two
refused bad F14 BadPnm
refused Three F19 BadName
refused c F18 NameTaken
refused no F20 Shelf
refused one F18 NameTaken
added -
";

/// What is printed to standard error of those that aren't added: their paths and the causes.
static CAUSES: &str = "\
jk: bad.pgm has no whole header: after P5 or P6 stand WIDTH, HEIGHT and MAXVAL, each from 1 to 268435456
jk: Three.pgm: the name Three isn't 1 to 64 of the characters a to z, 0 to 9, - and _
jk: c.pgm: d has a file c.jp2
jk: no.pgm can't be read: entity not found
jk: y/one.pgm: d has a file one.jp2
";

/// Each file is told of in its turn, whatever the number of workers; of one name the first is added.
/// The folder is locked for each, and let go.
#[test]
fn files_are_added_in_order(rt: HostRuntime) {
    let alloc = rt.alloc();
    let paths = "x/one.pgm two.ppm bad.pgm Three.pgm c.pgm no.pgm y/one.pgm -";
    for workers in [1, 2, 3, 64] {
        let mut world = world(&rt, alloc);
        let line = format!(in alloc; "add d --all {paths} --workers {workers} --levels 0").expect(
            &rt, "a line",
        );
        let line = line.as_str();
        let due = ANSWERS.as_bytes();
        check_run(&rt, alloc, &mut world, line, Status::Refused, due, CAUSES);
        check_file(&rt, alloc, &mut world, "one.jp2", &pixel(), 4);
        check_file(&rt, alloc, &mut world, "-.jp2", &pixel(), 4);
        check_file(&rt, alloc, &mut world, "c.jp2", &["FF"], 4);
        let files = (world.files_begun, world.files_ended, world.ended);
        let locks = (world.locks, world.is_locked);
        equal_at(line, (files, locks), ((8, 8, 1), (8, false))).expect(&rt, "files and locks");
    }
}

/// Files that are all added, with what they are to keep, behind one or several `--all`.
#[test]
fn files_keep_what_is_asked(rt: HostRuntime) {
    let alloc = rt.alloc();
    for paths in ["--all x/one.pgm two.ppm", "--all x/one.pgm --all two.ppm"] {
        let mut world = world(&rt, alloc);
        let line = format!(in alloc; "add d {paths} --levels 0 --xml x.xml").expect(&rt, "a line");
        let due = b"added one\nadded two\n";
        check_run(&rt, alloc, &mut world, line.as_str(), Status::Done, due, "");
        let codestream = &pixel()[1..];
        let (front, _) = BOXES.split_at(BOXES.len() - 18);
        let file = [
            front,
            "0000000C 786D6C20 3C612F3E",
            "0000005A 6A703263",
            codestream[0],
            codestream[1],
            codestream[2],
            codestream[3],
            codestream[4],
        ];
        check_file(&rt, alloc, &mut world, "one.jp2", &file, 3);
    }
}

/// Lines that add nothing, how they end, and what is told.
static REFUSED: [(&str, Status, &str); 4] = [
    (
        "add d --all x/one.pgm --workers 0",
        Status::Refused,
        "jk: F15 BadParameters\n",
    ),
    (
        "add d --all x/one.pgm --layers 65536",
        Status::Refused,
        "jk: F15 BadParameters\n",
    ),
    ("add no --all x/one.pgm", Status::Refused, "jk: F20 Shelf\n"),
    (
        "add d --all x/one.pgm --xml no",
        Status::Refused,
        "jk: F20 Shelf\n",
    ),
];

#[test]
fn lines_that_add_nothing(rt: HostRuntime) {
    let alloc = rt.alloc();
    for (line, status, error) in REFUSED {
        let mut world = world(&rt, alloc);
        check_run(&rt, alloc, &mut world, line, status, &[], error);
        check_file(&rt, alloc, &mut world, "c.jp2", &["FF"], 1);
    }
}

/// NAME and IN, or the files of several images, and workers for these alone.
#[test]
fn lines_that_are_wrong(rt: HostRuntime) {
    let alloc = rt.alloc();
    for line in [
        "add d",
        "add d a",
        "add d --all",
        "add d a - --all x/one.pgm",
        "add d a - --workers 2",
    ] {
        let mut world = world(&rt, alloc);
        let status = run_line(&rt, alloc, &mut world, line);
        let found = (status, world.output.is_empty(), world.locks);
        equal_at(line, found, (Status::WrongLine, true, 0)).expect(&rt, "a wrong line");
    }
}

/// Where the lines can't be written it ends, behind the file whose line it was.
#[test]
fn lines_that_cant_be_written(rt: HostRuntime) {
    let alloc = rt.alloc();
    let mut world = world(&rt, alloc);
    world.is_full = true;
    let line = "add d --all x/one.pgm two.ppm --workers 2 --levels 0";
    let error = "jk: F20 Shelf\n";
    check_run(&rt, alloc, &mut world, line, Status::Refused, &[], error);
    check_file(&rt, alloc, &mut world, "one.jp2", &pixel(), 2);
}
