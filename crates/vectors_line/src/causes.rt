//! Errors and notes in words, and what `jk info` prints of several files and in JSON.

use crate::lines::{COLUMN, GREY, pixel};
use crate::memory::Memory;
use crate::runs::{bytes, check_run, put_file, run_line};
use jk_line::Status;
use std::alloc::Global;
use std::process::Abort;
use std::thread::Threads;
use vectors::{Line, equal, equal_at};

/// Inputs of `jk encode in out`, by their bytes, and why each isn't encoded. The first bytes of formats
/// are those that their specifications have.
static IMAGES: &str = "\
|in is empty
89504E47 0D0A1A0A|in is a PNG image; ?
FFD8FFE0 0010|in is a JPEG image; ?
49492A00 08000000|in is a TIFF image; ?
4D4D002A 00000008|in is a TIFF image; ?
49492B00 0800|in is a BigTIFF image; ?
47494638 3961|in is a GIF image; ?
424D 3600|in is a BMP image; ?
50370A 5749445448|in is a PAM image (P7); ?
50310A 31 20 31|in is a PBM image (P1); ?
50340A 31 20 31|in is a PBM image (P4); ?
50320A 31 20 31|in is a plain PGM image (P2); ?
50330A 31 20 31|in is a plain PPM image (P3); ?
0000000C 6A502020 0D0A870A|in is a JPEG 2000 file already; `jk decode` makes a PGM or PPM file of it
FF4F FF51|in is a JPEG 2000 file already; `jk decode` makes a PGM or PPM file of it
00000000 00000000|in isn't a PGM or PPM file: these begin with P5 or P6
50350A 312031 0A 323535 0A|in ends early: its header asks for 1 bytes of samples, and 0 are there
50360A 322031 0A 3635353335 0A 0102|in ends early: its header asks for 12 bytes of samples, and 2 are there
50350A 312031 0A 323535 0A 010203|in has 2 bytes after its samples; jk reads files with one image
50350A 312031 0A 33 0A 04|in has a sample above its greatest value (maxval)
50350A 312031 0A 313030 0A 01|in has the maxval 100; jk reads maxvals 2^B - 1, as 1, 15, 255, 1023, 4095 and 65535
50350A 312031 0A 323535 2E 01|in has no whitespace after its maxval
50350A 3136333835 203136333835 0A 323535 0A 01|\
in has 16385 by 16385 pixels; jk takes images of at most 268435456 (2^28)
50350A 3020310A 323535 0A 01|in has no whole header: after P5 or P6 stand WIDTH, HEIGHT and MAXVAL, each from 1 to 268435456
50350A 31|in has no whole header: after P5 or P6 stand WIDTH, HEIGHT and MAXVAL, each from 1 to 268435456";

/// What stands behind a format.
static TO_CONVERT: &str =
    "jk encodes binary PGM and PPM files. `python3 -m jk.convert` encodes PNG and TIFF files; \
ImageMagick makes PPM of others: convert in ppm:-";

/// The same of JPEG 2000 files, for `jk info in`.
static FILES: &str = "\
|F2 Truncated|in is empty
50350A 312031|F13 BadBox|in is a PGM or PPM image, and no JPEG 2000 file; `jk encode` makes one of it
89504E47 0D0A1A0A 0000000D|F13 BadBox|in is a PNG image, and no JPEG 2000 file
00000000 00000000 00000000|F13 BadBox|in is another file, and no JPEG 2000 file
FF4F FF51 0029|F2 Truncated|in: the file, a box or a tile-part is cut off, or EOC is missing at the end";

/// Runs a command line over a file `in`, which fails with an error and its cause.
fn check_cause<R: Abort + Threads + Sync>(
    rt: &R,
    alloc: Global,
    line: &str,
    input: &str,
    error: &str,
) {
    let mut world = Memory::new(rt, alloc, Vec::new(alloc));
    put_file(rt, alloc, &mut world, "in", input);
    check_run(rt, alloc, &mut world, line, Status::Refused, &[], error);
}

#[test]
fn inputs_that_are_no_image_have_their_causes(rt: HostRuntime) {
    let alloc = rt.alloc();
    for row in IMAGES.split('\n') {
        let mut fields = Line::new(row, '|');
        let (input, cause) = (fields.word(), fields.word());
        fields.end().expect(&rt, "an input and a cause");
        let (cause, more) = match cause.strip_suffix("?") {
            Some(cause) => (cause, TO_CONVERT),
            None => (cause, ""),
        };
        let error = format!(in alloc; "jk: F14 BadPnm\n{cause}{more}\n").expect(&rt, "a text");
        for line in [
            "encode in out",
            "encode in out --workers 3 --tile-width 5 --tile-height 5",
        ] {
            check_cause(&rt, alloc, line, input, error.as_str());
        }
    }
}

#[test]
fn inputs_that_are_no_file_have_their_causes(rt: HostRuntime) {
    let alloc = rt.alloc();
    for row in FILES.split('\n') {
        let mut fields = Line::new(row, '|');
        let (input, fault, cause) = (fields.word(), fields.word(), fields.word());
        fields.end().expect(&rt, "an input and a cause");
        let error = format!(in alloc; "jk: {fault}\n{cause}\n").expect(&rt, "a text");
        check_cause(&rt, alloc, "info in", input, error.as_str());
        check_cause(&rt, alloc, "decode in out", input, error.as_str());
    }
}

/// With `--quiet` an error is one line.
#[test]
fn causes_are_left_out(rt: HostRuntime) {
    let alloc = rt.alloc();
    for line in [
        "info in --quiet",
        "decode in out --quiet",
        "cut in out --x 0 --y 0 --w 1 --h 1 --quiet",
    ] {
        let mut world = Memory::new(&rt, alloc, Vec::new(alloc));
        put_file(&rt, alloc, &mut world, "in", "50350A");
        let status = run_line(&rt, alloc, &mut world, line);
        let found = (status, world.error.as_str());
        equal_at(line, found, (Status::Refused, "jk: F13 BadBox\n")).expect(&rt, "one line");
    }
}

/// Texts of a command line, and what is printed: to standard error for a wrong line, or to standard
/// output.
static TEXTS: &str = "\
encode a b --rate 3|error: jk is lossless and keeps every bit of each sample: there is no --rate
encode a b --quality=40|error: jk is lossless and keeps every bit of each sample: there is no --quality
add d a b -r 3|error: jk is lossless and keeps every bit of each sample: there is no -r
encode a b --rather|error: unexpected argument '--rather' found";

#[test]
fn lossy_options_have_their_answer(rt: HostRuntime) {
    let alloc = rt.alloc();
    for row in TEXTS.split('\n') {
        let mut fields = Line::new(row, '|');
        let (line, wanted) = (fields.word(), fields.word());
        fields.end().expect(&rt, "a line and a text");
        let mut world = Memory::new(&rt, alloc, Vec::new(alloc));
        let status = run_line(&rt, alloc, &mut world, line);
        let found = (status, world.error.as_str().starts_with(wanted));
        equal_at(
            (line, world.error.as_str()),
            found,
            (Status::WrongLine, true),
        )
        .expect(&rt, "why");
    }
}

/// No line of `--version` has blanks at its end, and `--help` has examples.
#[test]
fn versions_and_examples(rt: HostRuntime) {
    let alloc = rt.alloc();
    let mut world = Memory::new(&rt, alloc, Vec::new(alloc));
    let status = run_line(&rt, alloc, &mut world, "--version");
    let text = str::from_utf8(&world.output).ok().expect(&rt, "a text");
    let found = (
        status,
        text.contains(" \n"),
        text.ends_with("\n"),
        text.starts_with("jk "),
    );
    equal(found, (Status::Done, false, true, true)).expect(&rt, "the version");
    world.output.clear();
    let status = run_line(&rt, alloc, &mut world, "--help");
    let text = str::from_utf8(&world.output).ok().expect(&rt, "a text");
    let found = (status, text.contains("jk add archive page-1 scan.ppm"));
    equal(found, (Status::Done, true)).expect(&rt, "the help");
}

/// A file whose name has the extension of another format: what it is is said, but with `--quiet`.
#[test]
fn other_extensions_are_told(rt: HostRuntime) {
    let alloc = rt.alloc();
    for (line, said) in [
        (
            "decode in y.png",
            "jk: note: y.png is a PGM or PPM file, whatever its name says\n",
        ),
        (
            "decode in Y.JP2",
            "jk: note: Y.JP2 is a PGM or PPM file, whatever its name says\n",
        ),
        ("decode in y.png --quiet", ""),
        ("decode in y.pgm", ""),
        ("decode in y", ""),
        ("encode grey y.jp2", ""),
        (
            "encode grey y.pgm",
            "jk: note: y.pgm is a JPEG 2000 file, whatever its name says\n",
        ),
    ] {
        let mut world = Memory::new(&rt, alloc, Vec::new(alloc));
        put_file(&rt, alloc, &mut world, "in", COLUMN);
        put_file(&rt, alloc, &mut world, "grey", GREY);
        check_run(&rt, alloc, &mut world, line, Status::Done, &[], said);
    }
}

/// A world with files: a column, a grey pixel in JP2, and one that is no image.
fn world_of_files<'a, R: Abort + Threads + Sync>(rt: &'a R, alloc: Global) -> Memory<'a, R> {
    let mut world = Memory::new(rt, alloc, Vec::new(alloc));
    put_file(rt, alloc, &mut world, "a.j2k", COLUMN);
    put_file(rt, alloc, &mut world, "bad", "50350A");
    let name = String::from_str(alloc, "b.jp2").expect(rt, "a name");
    let kept: Result<_, _> = world.files.insert(name, bytes(rt, alloc, &pixel()));
    kept.expect(rt, "a file");
    world
}

/// What is printed of several files.
static LINES: &str = "1 9 1 8 1 1 LRCP 1 2 a.j2k\n1 1 1 8 0 1 LRCP 1 1 b.jp2\n";

static OBJECTS: &str = "\
{\"EPH\":false,\"SOP\":false,\"block-style\":[],\"boxes\":[],\"code-blocks\":[64,64],\"colour-transform\":\"none\",\
\"components\":1,\"depth\":8,\"file\":\"a.j2k\",\"height\":9,\"layers\":1,\"levels\":1,\"order\":\"LRCP\",\"packets\":2,\
\"passed-over\":[],\"precincts\":[[32768,32768],[32768,32768]],\"sizes\":[[1,9],[1,5]],\"tile-parts\":1,\"tiles\":1,\
\"width\":1}
{\"error\":\"F13 BadBox\",\"file\":\"bad\"}
{\"EPH\":false,\"SOP\":false,\"block-style\":[],\
\"boxes\":[[\"jP%20%20\",12],[\"ftyp\",20],[\"jp2h\",45],[\"jp2c\",90]],\"code-blocks\":[64,64],\
\"colour-transform\":\"none\",\"components\":1,\"depth\":8,\"file\":\"b.jp2\",\"height\":1,\"layers\":1,\"levels\":0,\
\"order\":\"LRCP\",\"packets\":1,\"passed-over\":[],\"precincts\":[[32768,32768]],\"sizes\":[[1,1]],\"tile-parts\":1,\
\"tiles\":1,\"width\":1}
";

/// The error of the file that is no image.
static BAD: &str =
    "jk: F13 BadBox\nbad is a PGM or PPM image, and no JPEG 2000 file; `jk encode` makes one of it\n";

#[test]
fn several_files_are_listed(rt: HostRuntime) {
    let alloc = rt.alloc();
    for (line, status, output, said) in [
        ("info a.j2k b.jp2", Status::Done, LINES, ""),
        ("info a.j2k bad b.jp2", Status::Refused, LINES, BAD),
        ("info a.j2k bad b.jp2 --json", Status::Refused, OBJECTS, BAD),
    ] {
        let mut world = world_of_files(&rt, alloc);
        check_run(
            &rt,
            alloc,
            &mut world,
            line,
            status,
            output.as_bytes(),
            said,
        );
    }
}

/// Options in two forms, which give the same file.
#[test]
fn options_in_two_forms(rt: HostRuntime) {
    let alloc = rt.alloc();
    for (one, other) in [
        (
            "--precincts 128,128 --levels 2",
            "--precincts 777777 --levels 2",
        ),
        (
            "--precincts 64,32768 --levels 0",
            "--precincts f6 --levels 0",
        ),
        ("--workers auto", "--workers 3"),
    ] {
        let mut world = Memory::new(&rt, alloc, bytes(&rt, alloc, &[GREY]));
        let first = format!(in alloc; "encode - a {one}").expect(&rt, "a line");
        let second = format!(in alloc; "encode - b {other}").expect(&rt, "a line");
        let ends = (
            run_line(&rt, alloc, &mut world, first.as_str()),
            run_line(&rt, alloc, &mut world, second.as_str()),
        );
        let alike = match (world.files.get("a"), world.files.get("b")) {
            (Some(a), Some(b)) => a.as_slice() == b.as_slice(),
            _ => false,
        };
        equal_at(one, (ends, alike), ((Status::Done, Status::Done), true)).expect(&rt, "one file");
    }
}

/// Sizes of precincts that have no exponent.
#[test]
fn sizes_without_an_exponent(rt: HostRuntime) {
    let alloc = rt.alloc();
    for sizes in ["100,128", "128,65536", "128,", "0,128", "128x128"] {
        let line = format!(in alloc; "encode in out --precincts {sizes}").expect(&rt, "a line");
        let error = format!(in alloc;
            "jk: F15 BadParameters\n--precincts is {sizes}, and may be WIDTH,HEIGHT, powers of two up to 32768, or pairs of hexadecimal digits\n"
        ).expect(&rt, "a text");
        check_cause(&rt, alloc, line.as_str(), GREY, error.as_str());
    }
}
