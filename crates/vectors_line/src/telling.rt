//! The lines of `jk info --all`.

use crate::lines::{BOXES, CODING, COLOURS, COLUMN, GREY, SIZE, STEPS};
use crate::runs::{bytes, written};
use std::alloc::Global;
use std::process::Abort;
use std::thread::Threads;
use vectors::{equal, equal_at};

/// The lines of a JP2 file of the grey pixel without levels.
static PIXEL_LINES: &str = "\
1 1 1 8 0 1 LRCP 1 1
boxes: jP%20%20=12 ftyp=20 jp2h=45 jp2c=90
tile-parts: 1
code-blocks: 64x64
block-style: none
precincts: 32768x32768
SOP: no
EPH: no
colour-transform: none
passed-over: none
sizes: 1x1
";

/// Those of the codestream of a column with one level.
static COLUMN_LINES: &str = "\
1 9 1 8 1 1 LRCP 1 2
boxes: none
tile-parts: 1
code-blocks: 64x64
block-style: none
precincts: 32768x32768 32768x32768
SOP: no
EPH: no
colour-transform: none
passed-over: none
sizes: 1x9 1x5
";

/// The packet of the grey pixel without levels, which is empty.
static PIXEL_PART: &str = "FF90 000A 0000 0000000F 00 01 FF93 00 FFD9";

/// The head of a codestream box with a length of eight bytes, in place of the last eight bytes of
/// the boxes; its codestream has 82 bytes.
static LONG_HEAD: &str = "00000001 6A703263 0000000000000062";

/// Behind it a box `xml `, and one whose kind isn't text, up to the end of the file.
static BOXES_BEHIND: &str = "0000000A 786D6C20 3C3E 00000000 FF2F4130 55";

static BEHIND_LINE: &str = "boxes: jP%20%20=12 ftyp=20 jp2h=45 jp2c=98 xml%20=10 %FF%2FA0=9\n";

/// The grey pixel in two layers, each in a tile-part of its own, the last of which is open; in the
/// headers stand TLM, COM, CRG, PLT, and markers of other standards, FF30 without a length.
static TWO_LAYERS: &str = "FF52 000C 00 00 0002 00 00 04 04 00 01";

static PASSED: &str = "FF77 0003 00 FF64 0004 0001 FF30 FF55 0004 0000 FF63 0006 0000 0000";

static TWO_PARTS: &str = "\
FF90 000A 0000 00000019 00 02 FF58 0003 00 FF58 0003 01 FF93 00 \
FF90 000A 0000 00000000 01 02 FF30 FF64 0002 FF58 0003 00 FF93 00 FFD9";

static PASSED_LINES: &str = "\
1 1 1 8 0 2 LRCP 1 2
boxes: none
tile-parts: 2
code-blocks: 64x64
block-style: none
precincts: 32768x32768
SOP: no
EPH: no
colour-transform: none
passed-over: FF30=2 TLM=1 PLT=3 CRG=1 COM=2 FF77=1
sizes: 1x1
";

/// Two tiles of one pixel each, of which the second has a coding of its own: SOP and EPH, no colour
/// transform, other code-blocks and precincts.
static UNLIKE: &str = "\
FF4F FF51 002F 0000 00000002 00000001 00000000 00000000 00000001 00000001 00000000 00000000 0003 \
070101 070101 070101 FF52 000C 00 00 0001 01 00 04 04 00 01 FF5C 0004 40 40 \
FF90 000A 0000 00000011 00 01 FF93 000000 \
FF90 000A 0001 00000026 00 01 FF52 000D 07 00 0001 00 00 03 04 00 01 77 FF93 00FF92 00FF92 00FF92 FFD9";

static UNLIKE_LINES: &str = "\
2 1 3 8 0 1 LRCP 2 6
boxes: none
tile-parts: 2
code-blocks: differ
block-style: none
precincts: differ
SOP: differ
EPH: differ
colour-transform: differ
passed-over: none
sizes: 2x1
";

/// A PPM file three pixels wide and two high.
static SIX: &str = "50360A 332032 0A 323535 0A 010203 040506 070809 0A0B0C 0D0E0F 101112";

/// What `jk info --all` writes of it, encoded with many options; the codestream box is so long.
static SIX_OPTIONS: &str =
    "--levels 1 --sop --eph --reset --causal --segments --precincts 4556 --tile-width 2 --tile-height 4 --block-x 5 --block-y 4";

/// The lines of a file.
fn lines_of<R: Abort + Threads + Sync>(rt: &R, alloc: Global, file: Vec<u8>) -> String {
    let told = written(rt, alloc, "info - --all", file);
    String::from_utf8(told)
        .ok()
        .expect(rt, "the lines are text")
}

/// Checks the lines of a file.
fn check_lines<R: Abort + Threads + Sync>(rt: &R, alloc: Global, file: &[&str], lines: &str) {
    let text = lines_of(rt, alloc, bytes(rt, alloc, file));
    equal(text.as_str(), lines).expect(rt, "the lines of a file");
}

#[test]
fn all_is_told(rt: HostRuntime) {
    let alloc = rt.alloc();
    let pixel = [BOXES, "FF4F", SIZE, CODING, STEPS, PIXEL_PART];
    check_lines(&rt, alloc, &pixel, PIXEL_LINES);
    check_lines(&rt, alloc, &[COLUMN], COLUMN_LINES);
    let parts = ["FF4F", SIZE, TWO_LAYERS, STEPS, PASSED, TWO_PARTS];
    check_lines(&rt, alloc, &parts, PASSED_LINES);
    check_lines(&rt, alloc, &[UNLIKE], UNLIKE_LINES)
}

/// The line of `jk info` stands first, and without the option it stands alone.
#[test]
fn the_first_line_stays(rt: HostRuntime) {
    let alloc = rt.alloc();
    let line = written(&rt, alloc, "info -", bytes(&rt, alloc, &[COLUMN]));
    let lines = written(&rt, alloc, "info - --all", bytes(&rt, alloc, &[COLUMN]));
    let stands_first = lines.as_slice().starts_with(line.as_slice());
    equal((stands_first, line.len() < lines.len()), (true, true)).expect(&rt, "the first line");
}

/// Long and open boxes, and kinds that aren't text.
#[test]
fn boxes_are_told(rt: HostRuntime) {
    let alloc = rt.alloc();
    let front = BOXES
        .strip_suffix("0000005A 6A703263")
        .expect(&rt, "the head of a box");
    let file = [
        front,
        LONG_HEAD,
        "FF4F",
        SIZE,
        CODING,
        STEPS,
        PIXEL_PART,
        BOXES_BEHIND,
    ];
    let text = lines_of(&rt, alloc, bytes(&rt, alloc, &file));
    let is_told = text.as_str().contains(BEHIND_LINE);
    equal_at(text.as_str(), is_told, true).expect(&rt, "the line of boxes");
}

/// A file that was encoded with tiles, precincts, SOP, EPH and styles of code-blocks.
#[test]
fn what_was_asked_for_is_told(rt: HostRuntime) {
    let alloc = rt.alloc();
    let line = format!(in alloc; "encode - - {SIX_OPTIONS}").expect(&rt, "a text");
    let file = written(&rt, alloc, line.as_str(), bytes(&rt, alloc, &[SIX]));
    let size = file.len().saturating_sub(77);
    let wanted = format!(in alloc;
        "\
3 2 3 8 1 1 LRCP 2 12
boxes: jP%20%20=12 ftyp=20 jp2h=45 jp2c={size}
tile-parts: 2
code-blocks: 32x16
block-style: reset causal segments
precincts: 32x16 64x32
SOP: yes
EPH: yes
colour-transform: reversible
passed-over: none
sizes: 3x2 2x1
"
    )
    .expect(&rt, "a text");
    let text = lines_of(&rt, alloc, file);
    equal(text.as_str(), wanted.as_str()).expect(&rt, "what was asked for");
}

/// Checks how the lines of what a command line writes of an input end.
fn check_end<R: Abort + Threads + Sync>(
    rt: &R,
    alloc: Global,
    line: &str,
    input: &str,
    wanted: &str,
) {
    let file = written(rt, alloc, line, bytes(rt, alloc, &[input]));
    let text = lines_of(rt, alloc, file);
    let is_end = text.as_str().ends_with(wanted);
    equal_at((line, text.as_str()), is_end, true).expect(rt, "the last lines");
}

/// A reduced image without a sample has no size.
#[test]
fn empty_reductions_have_no_size(rt: HostRuntime) {
    let alloc = rt.alloc();
    for (line, input, wanted) in [
        ("encode - - --levels 1 --x0 1", GREY, "\nsizes: 1x1\n"),
        ("encode - - --levels 2", GREY, "\nsizes: 1x1 1x1 1x1\n"),
        (
            "encode - - --raw --levels 0 --no-colour",
            COLOURS,
            "\ncolour-transform: none\npassed-over: none\nsizes: 1x1\n",
        ),
    ] {
        check_end(&rt, alloc, line, input, wanted);
    }
}
