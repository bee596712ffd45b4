//! What a file keeps beside the samples: given by `dress`, `encode` and `add`, told and taken out by
//! `extras`. The boxes are laid out as T.800 Annex I has them, and the profile as ICC.1 has it.

use crate::lines::GREY;
use crate::memory::Memory;
use crate::runs::{bytes, check_file, check_output, check_run, put_file, put_folder};
use jk_line::Status;
use jk_store::MemoryShelf;
use std::alloc::Global;
use std::process::Abort;
use std::thread::Threads;
use vectors::{Line, equal};

/// A curve of grey: version 2, of an input device, connected by XYZ, with one tag, `kTRC`.
static PROFILE: &str =
    "000000a0000000000200000073636e724752415958595a200000000000000000000000006163737000000000000000000000000000000000000000000000000000000000000000000000000000000000000000000000000000000000000000000000000000000000000000000000000000000000000000000000000000000000000000016b545243000000900000000e63757276000000000000000101000000";

/// The JP2 file of a grey pixel, 128, in its parts: what stands before the JP2 header box; the image
/// header box; the colour of grey; the head of the codestream's box; and the codestream.
static FRONT: &str = "0000000C 6A502020 0D0A870A 00000014 66747970 6A703220 00000000 6A703220";

static IMAGE: &str = "00000016 69686472 00000001 00000001 0001 07 07 00 00";

static COLOUR: &str = "0000000F 636F6C72 01 00 00 00000011";

static CODE_BOX: &str = "0000005A 6A703263";

static CODE: &str =
    "FF4F FF51 0029 0000 00000001 00000001 00000000 00000000 00000001 00000001 00000000 00000000 0001 07 01 01 FF52 000C 00 00 0001 00 00 04 04 00 01 FF5C 0004 40 40 FF90 000A 0000 0000000F 00 01 FF93 00 FFD9";

/// A world with an input, and with files: a profile, XML, and two bytes.
fn world<'a, R: Abort + Threads + Sync>(rt: &'a R, alloc: Global, input: &[&str]) -> Memory<'a, R> {
    let mut world = Memory::new(rt, alloc, bytes(rt, alloc, input));
    for (name, text) in [("p.icc", PROFILE), ("x.xml", "3C612F3E"), ("u.bin", "4869")] {
        put_file(rt, alloc, &mut world, name, text);
    }
    world
}

/// Runs a command line over an input and the files, which must write an output and nothing else.
fn check_kept<R: Abort + Threads + Sync>(
    rt: &R,
    alloc: Global,
    line: &str,
    input: &[&str],
    output: &[&str],
) {
    let mut world = world(rt, alloc, input);
    let due = bytes(rt, alloc, output);
    check_run(rt, alloc, &mut world, line, Status::Done, &due, "")
}

/// Options, and what they make of the grey pixel's file: the length of its JP2 header box, the
/// resolution at its end, and the boxes before its codestream. 15000/127 * 10^2 by the metre are 300
/// by the inch, 30000/127 600 of them, 15025/127 300.5, and 65535/254 * 10^4 are 65535.
static OPTIONS: &str = "\
|0000002D||
--resolution 300|00000047|0000001A 72657320 00000012 72657363 3A98 007F 3A98 007F 02 02|
--resolution 300x600|00000047|0000001A 72657320 00000012 72657363 7530 007F 3A98 007F 02 02|
--resolution 300.50|00000047|0000001A 72657320 00000012 72657363 3AB1 007F 3AB1 007F 02 02|
--resolution 65535|00000047|0000001A 72657320 00000012 72657363 FFFF 00FE FFFF 00FE 04 04|
--xml x.xml|0000002D||0000000C 786D6C20 3C612F3E
--uuid 000102030405060708090A0B0C0D0E0F:u.bin|0000002D||\
0000001A 75756964 000102030405060708090A0B0C0D0E0F 4869
--uuid be7acfcb97a942e89c71999491e3afac:u.bin --xml x.xml --uuid 4A706754696666457869662D3E4A5032:x.xml|0000002D||\
0000000C 786D6C20 3C612F3E 0000001A 75756964 BE7ACFCB97A942E89C71999491E3AFAC 4869 \
0000001C 75756964 4A706754696666457869662D3E4A5032 3C612F3E";

/// What is asked for stands where it is to stand, and all else as it was; `encode` gives what
/// `dress` gives to what it writes otherwise, with workers too.
#[test]
fn options_give_their_boxes(rt: HostRuntime) {
    let alloc = rt.alloc();
    for row in OPTIONS.split('\n') {
        let mut fields = Line::new(row, '|');
        let (options, head) = (fields.word(), fields.word());
        let (resolution, others) = (fields.word(), fields.word());
        fields.end().expect(&rt, "options and boxes");
        let file = [
            FRONT, head, "6A703268", IMAGE, COLOUR, resolution, others, CODE_BOX, CODE,
        ];
        let plain = [FRONT, "0000002D 6A703268", IMAGE, COLOUR, CODE_BOX, CODE];
        let line = format!(in alloc; "dress - - {options}").expect(&rt, "a text");
        check_kept(&rt, alloc, line.as_str(), &plain, &file);
        for workers in ["", "--workers 2"] {
            let line = format!(in alloc; "encode - - --levels 0 {options} {workers}").expect(
                &rt, "a text",
            );
            check_kept(&rt, alloc, line.as_str(), &[GREY], &file);
        }
    }
}

/// A profile takes the place of the colour, and what a file has beside it stays: with a second
/// profile the first is gone.
#[test]
fn profiles_take_the_place_of_colours(rt: HostRuntime) {
    let alloc = rt.alloc();
    let plain = [FRONT, "0000002D 6A703268", IMAGE, COLOUR, CODE_BOX, CODE];
    let vendor = [
        FRONT,
        "0000003B 6A703268",
        IMAGE,
        "0000000E 636F6C72 03 00 00 616263",
        COLOUR,
        CODE_BOX,
        CODE,
    ];
    let kept = [
        FRONT,
        "000000C9 6A703268",
        IMAGE,
        "000000AB 636F6C72 02 00 00",
        PROFILE,
        CODE_BOX,
        CODE,
    ];
    check_kept(&rt, alloc, "dress - - --profile p.icc", &plain, &kept);
    check_kept(&rt, alloc, "dress - - --profile p.icc", &vendor, &kept);
    check_kept(&rt, alloc, "dress - - --profile p.icc", &kept, &kept);
    check_kept(
        &rt,
        alloc,
        "encode - - --levels 0 --profile p.icc",
        &[GREY],
        &kept,
    );
    check_output(&rt, alloc, "dress - -", &kept, &kept);
    check_output(&rt, alloc, "decode - -", &kept, &[GREY])
}

/// Boxes of a JP2 header box and before the codestream, and the lines that tell them.
static LISTED: &str = "\
0000002D|0000000F 636F6C72 01 00 00 00000011||colour: grey
0000002D|0000000F 636F6C72 01 00 00 00000010||colour: sRGB
0000002D|0000000F 636F6C72 01 00 00 00000012||colour: sYCC
0000002D|0000000F 636F6C72 01 00 00 0000000E||colour: enumerated=14
0000001E|||
0000006B|0000000E 636F6C72 03 00 00 616263 0000000F 636F6C72 01 00 00 00000011 0000000E 636F6C72 02 00 00 616263 \
0000000A 636F6C72 02 00 0000000E 636F6C72 01 00 00 000011 0000000A 66726565 6162||\
colour: method=3;colour: grey;colour: profile=3;colour: broken;colour: broken
0000004A|0000002C 72657320 00000012 72657363 3A98 007F 012C 00FE 02 04 00000012 72657364 0001 FFFF FFFF 0001 80 7F|\
0000000C 786D6C20 3C612F3E 00000008 786D6C20 0000001A 75756964 BE7ACFCB97A942E89C71999491E3AFAC 4869|\
capture: 300/254e4x15000/127e2;display: 65535/1e127x1/65535e-128;xml: 4;xml: 0;\
uuid: be7acfcb97a942e89c71999491e3afac=2;capture-per-inch: 300x300
0000004A|0000002C 72657320 00000012 72657363 0B13 0001 0B13 0001 00 00 00000012 72657364 0001 0003 012C 007F 03 02||\
capture: 2835/1e0x2835/1e0;display: 300/127e2x1/3e3;capture-per-inch: 72.01x72.01;display-per-inch: 6x8.47";

/// Lines that are parted by semicolons, as they are written.
fn spelled(rt: &impl Abort, alloc: Global, lines: &str) -> String {
    let mut text = String::new(alloc);
    for line in lines.split(';') {
        if !line.is_empty() {
            text.push_str(line).expect(rt, "a text");
            text.push('\n').expect(rt, "a text");
        }
    }
    text
}

/// Checks what is listed of a file.
fn check_told<R: Abort + Threads + Sync>(rt: &R, alloc: Global, file: &[&str], lines: &[u8]) {
    let mut world = Memory::new(rt, alloc, bytes(rt, alloc, file));
    check_run(rt, alloc, &mut world, "extras -", Status::Done, lines, "")
}

/// All that a file keeps is listed, behind the codestream too; a bare codestream keeps nothing.
#[test]
fn what_is_kept_is_listed(rt: HostRuntime) {
    let alloc = rt.alloc();
    for row in LISTED.split('\n') {
        let mut fields = Line::new(row, '|');
        let (head, header) = (fields.word(), fields.word());
        let (others, lines) = (fields.word(), fields.word());
        fields.end().expect(&rt, "boxes and lines");
        let due = spelled(&rt, alloc, lines);
        for (before, behind) in [(others, ""), ("", others)] {
            let file = [
                FRONT, head, "6A703268", IMAGE, header, before, CODE_BOX, CODE, behind,
            ];
            check_told(&rt, alloc, &file, due.as_bytes());
        }
    }
    check_told(&rt, alloc, &[CODE], &[])
}

/// What a file of a world has.
fn has_file<R: Abort>(rt: &R, world: &Memory<'_, R>, alloc: Global, name: &str, due: &str) -> bool {
    let due = bytes(rt, alloc, &[due]);
    match world.files.get(name) {
        Some(bytes) => bytes.as_slice() == due.as_slice(),
        None => false,
    }
}

/// What is asked for is taken out into files, or, where the file lacks a part of it, nothing is.
#[test]
fn what_is_kept_is_taken_out(rt: HostRuntime) {
    let alloc = rt.alloc();
    let file = [
        FRONT,
        "000000C9 6A703268",
        IMAGE,
        "000000AB 636F6C72 02 00 00",
        PROFILE,
        "0000001A 75756964 000102030405060708090A0B0C0D0E0F 4869",
        CODE_BOX,
        CODE,
        "0000000C 786D6C20 3C612F3E 0000001A 75756964 000102030405060708090A0B0C0D0E0F 4A6B",
    ];
    let mut world = world(&rt, alloc, &file);
    let line = "extras - --profile 1 --xml 2 --uuid 000102030405060708090A0B0C0D0E0F:3";
    check_run(&rt, alloc, &mut world, line, Status::Done, &[], "");
    let found = (
        has_file(&rt, &world, alloc, "1", PROFILE),
        has_file(&rt, &world, alloc, "2", "3C612F3E"),
        has_file(&rt, &world, alloc, "3", "4869"),
    );
    equal(found, (true, true, true)).expect(&rt, "what is taken out");
    let line = "extras - --xml 4 --uuid ff0102030405060708090A0B0C0D0E0F:5";
    let error = "jk: standard input has no box under this UUID\n";
    check_run(&rt, alloc, &mut world, line, Status::Refused, &[], error);
    let found = (world.files.contains_key("4"), world.files.contains_key("5"));
    equal(found, (false, false)).expect(&rt, "nothing is taken out");
}

/// An image that is added has what it is to keep, under its own name alone.
#[test]
fn added_images_keep_it(rt: HostRuntime) {
    let alloc = rt.alloc();
    let mut world = world(&rt, alloc, &[GREY]);
    put_folder(&rt, alloc, &mut world, MemoryShelf::new(alloc));
    let line = "add d a - --levels 0 --profile p.icc --xml x.xml";
    check_run(&rt, alloc, &mut world, line, Status::Done, &[], "");
    let file = [
        FRONT,
        "000000C9 6A703268",
        IMAGE,
        "000000AB 636F6C72 02 00 00",
        PROFILE,
        "0000000C 786D6C20 3C612F3E",
        CODE_BOX,
        CODE,
    ];
    check_file(&rt, alloc, &mut world, "a.jp2", &file, 1);
    let error = "jk: F18 NameTaken\n";
    check_run(&rt, alloc, &mut world, line, Status::Refused, &[], error)
}

/// Command lines over a grey pixel, bare and in a file, and why each is refused; the options are
/// judged before files are read, and these before the input.
static REFUSED: &str = "\
encode - - --raw --xml x.xml|F15 BadParameters|--raw writes a bare codestream, which keeps nothing beside the samples
add d a - --resolution 1/2|F15 BadParameters|--resolution is 1/2, and may be N or NxM: \
each whole number from 1 to 65535, and those with a point that are a ratio of 16 bits
encode - - --xml none|F20 Shelf|none can't be read: entity not found
encode - - --resolution 0 --xml none|F15 BadParameters|--resolution is 0, and may be N or NxM: \
each whole number from 1 to 65535, and those with a point that are a ratio of 16 bits
encode - - --resolution 65537|F15 BadParameters|--resolution is 65537, and may be N or NxM: \
each whole number from 1 to 65535, and those with a point that are a ratio of 16 bits
encode - - --resolution -300|F15 BadParameters|--resolution is -300, and may be N or NxM: \
each whole number from 1 to 65535, and those with a point that are a ratio of 16 bits
encode - - --resolution 300x|F15 BadParameters|--resolution is 300x, and may be N or NxM: \
each whole number from 1 to 65535, and those with a point that are a ratio of 16 bits
encode - - --uuid 0011:x.xml|F15 BadParameters|--uuid is 0011:x.xml, and may be 32 hexadecimal digits, a colon \
and the name of a file
encode - - --uuid 000102030405060708090A0B0C0D0E0F|F15 BadParameters|--uuid is 000102030405060708090A0B0C0D0E0F, \
and may be 32 hexadecimal digits, a colon and the name of a file
encode - - --profile x.xml|F15 BadParameters|the file may not have this --profile: it is no ICC profile
encode - - --profile p.icc --levels 6|F15 BadParameters|--levels is 6, and may be 0 to 5
dress - - --xml x.xml|F13 BadBox|standard input is a PGM or PPM image, and no JPEG 2000 file; \
`jk encode` makes one of it
extras - --uuid 00:x|F15 BadParameters|--uuid is 00:x, and may be 32 hexadecimal digits, a colon and the name of a file";

#[test]
fn refusals_have_their_causes(rt: HostRuntime) {
    let alloc = rt.alloc();
    for row in REFUSED.split('\n') {
        let mut fields = Line::new(row, '|');
        let (line, fault, cause) = (fields.word(), fields.word(), fields.word());
        fields.end().expect(&rt, "a line and why it is refused");
        let line = format!(in alloc; "{line} --explain").expect(&rt, "a text");
        let error = format!(in alloc; "jk: {fault}\n{cause}\n").expect(&rt, "a text");
        check_refused(&rt, alloc, &[GREY], line.as_str(), error.as_str());
    }
}

/// Runs a command line over an input and the files, which is refused.
fn check_refused<R: Abort + Threads + Sync>(
    rt: &R,
    alloc: Global,
    input: &[&str],
    line: &str,
    error: &str,
) {
    let mut world = world(rt, alloc, input);
    check_run(rt, alloc, &mut world, line, Status::Refused, &[], error)
}

/// One grey sample, 255, in eight layers: in K of them its coefficient, 127, has its K - 1 highest
/// of seven bits.
static LAYERED: &str =
    "FF4F FF51 0029 0000 00000001 00000001 00000000 00000000 00000001 00000001 00000000 00000000 0001 07 01 01 FF52 000C 00 00 0008 00 00 04 04 00 01 FF5C 0004 40 40 FF90 000A 0000 0000001E 00 01 FF93 00 A42000 F000 F000 F000 F000 F000 F000 FFD9";

/// With a number of layers the image of these is decoded.
#[test]
fn layers_are_decoded(rt: HostRuntime) {
    let alloc = rt.alloc();
    for (layers, sample) in [
        (1, "80"),
        (2, "C0"),
        (4, "F0"),
        (7, "FE"),
        (8, "FF"),
        (9, "FF"),
    ] {
        for options in ["", "--workers 2", "--x 0 --y 0 --w 9 --h 1"] {
            let line = format!(in alloc; "decode - - --layers {layers} {options}").expect(
                &rt, "a text",
            );
            check_output(
                &rt,
                alloc,
                line.as_str(),
                &[LAYERED],
                &["50350A 312031 0A 323535 0A", sample],
            );
        }
    }
    let line = "decode - - --layers 0";
    check_refused(&rt, alloc, &[LAYERED], line, "jk: F16 BadWindow\n")
}
