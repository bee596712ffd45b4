use crate::calls::{decode, orientation_of, style_of};
use crate::cases::CASES;
use jk_block::{Block, BlockShape, one_meaning, read_is_meant};
use jk_math::{Fault, Orientation, Style};
use jk_mqdec::Decoder;
use jk_scan::{
    Around, Contribution, contributed, gather, members, neighbourhood, nine, quiet, quiet_behind,
    refine_context, sign_context, untouched_context, zero_context,
};
use std::alloc::Global;
use std::process::Abort;
use vectors::{Line, bytes_of, equal, equal_at, folded};

/// Twice a magnitude, and 1 for a negative one.
fn twice(value: i32) -> u32 {
    let negative = if value < 0 { 1 } else { 0 };
    value.unsigned_abs().wrapping_mul(2).wrapping_add(negative)
}

/// A checksum of values.
fn checksum(values: &[i32]) -> u32 {
    let mut sum = 0;
    for value in values {
        sum = folded(sum, twice(*value));
    }
    sum
}

/// The fault of a word of the tables.
fn fault_of(word: &str) -> Option<Fault> {
    match word {
        "F5" => Some(Fault::BadValue),
        "F9" => Some(Fault::TooManyPasses),
        "F10" => Some(Fault::CodeOutOfInterval),
        _ => None,
    }
}

/// Values are those of a word: `#` and a checksum of them, or they themselves.
fn has(rt: &impl Abort, alloc: Global, text: &str, values: &[i32], word: &str) {
    match word.strip_prefix('#') {
        Some(sum) => {
            let mut line = Line::new(sum, ' ');
            let due = line.number(0, 0xFFFF_FFFF);
            line.end().expect(rt, "a checksum");
            equal_at(text, checksum(values) as u64, due).expect(rt, "a checksum");
        }
        None => {
            let mut line = Line::new(word, ' ');
            let due = line.numbers(alloc, ',');
            line.end().expect(rt, "values");
            equal_at(text, values, due.as_slice()).expect(rt, "values");
        }
    }
}

/// What was answered is what the word of a line says.
fn tells(rt: &impl Abort, alloc: Global, text: &str, answer: Result<Block, Fault>, word: &str) {
    match fault_of(word) {
        Some(fault) => equal_at(text, answer.err(), Some(fault)).expect(rt, "a fault"),
        None => {
            let block = answer.expect(rt, text);
            has(rt, alloc, text, &block.values, word);
        }
    }
}

/// Reads one line of the table.
fn reads(rt: &impl Abort, alloc: Global, text: &str) {
    let mut line = Line::new(text, ' ');
    let shape = BlockShape {
        width: line.number(1, 1024) as usize,
        height: line.number(1, 1024) as usize,
        orientation: orientation_of(line.word()),
        style: Style::plain(),
    };
    let planes = line.number(0, 23) as u32;
    let passes = line.number(0, 255) as usize;
    let segment = line.bytes(alloc);
    let word = line.word();
    line.end().expect(rt, "a line");
    let answer = decode(rt, alloc, &segment, shape, planes, passes);
    tells(rt, alloc, text, answer, word);
}

#[test]
fn random_blocks(rt: HostRuntime) {
    let mut count = 0u32;
    for line in CASES.lines() {
        reads(&rt, rt.alloc(), line);
        count = count.saturating_add(1);
    }
    equal(count, 54).expect(&rt, "lines");
}

/// Worked segments: single coefficients, a column in run mode, a column of four with few passes.
static WORKED: &str = "\
1 1 LL 1 1 03 1
1 1 LL 1 1 07 -1
1 1 LL 1 1 - 0
1 1 LL 1 1 00FF80 1
1 1 LL 1 1 FF7F 0
1 1 LL 1 1 FF8F F10
1 1 LL 1 1 FF80 F10
1 1 LL 1 2 03 F9
1 5 LL 6 16 018F0DC8757F -26,-22,-30,-32,-19
1 4 LH 3 7 0FB17F 1,5,1,0
1 4 LH 3 7 0FB176 1,5,1,0
1 1 LL 1 0 FF8F 0
1 1 LL 4 10 00 15";

#[test]
fn worked_blocks(rt: HostRuntime) {
    for line in WORKED.lines() {
        reads(&rt, rt.alloc(), line);
    }
}

/// Reads one line of a column: its style, its height, bit-planes, passes, the segment, and the answer.
fn reads_styled(rt: &impl Abort, alloc: Global, text: &str) {
    let mut line = Line::new(text, ' ');
    let style = style_of(line.word());
    let height = line.number(1, 1024) as usize;
    let planes = line.number(0, 23) as u32;
    let passes = line.number(0, 255) as usize;
    let segment = line.bytes(alloc);
    let word = line.word();
    line.end().expect(rt, "a line");
    let shape = BlockShape {
        width: 1,
        height,
        orientation: Orientation::LL,
        style,
    };
    let answer = decode(rt, alloc, &segment, shape, planes, passes);
    tells(rt, alloc, text, answer, word);
}

/// Columns in styles.
static STYLED: &str = "\
reset 1 4 10 00 14
reset 1 4 10 007F 15
symbols 1 1 1 01 1
symbols 1 1 1 03 F5
symbols 1 1 1 0A41FF8F F10
plain 5 2 4 169F 0,0,0,1,2
causal 5 2 4 16E3 0,0,0,1,2";

/// The same segment means another coefficient with context reset, and none where a segmentation
/// symbol is due and another one stands. A code value that leaves the interval at the fourth of the
/// symbols, behind 1 1 0, is told before these. Vertically causal contexts make another segment of a
/// column whose second stripe is significant before the first.
#[test]
fn styled_blocks(rt: HostRuntime) {
    for line in STYLED.lines() {
        reads_styled(&rt, rt.alloc(), line);
    }
}

/// What a decoder says whose code value has left the interval.
const LEFT: Result<bool, Fault> = Err(Fault::CodeOutOfInterval);

/// A decoder whose code value has left the interval answers so from then on.
#[test]
fn fails_for_ever(rt: HostRuntime) {
    let segment = bytes_of(rt.alloc(), &["FF8F"]).expect(&rt, "a segment");
    let mut decoder = Decoder::new(&segment);
    for cx in [0, 9, 17, 18, 0] {
        equal_at(cx, decoder.decode(cx), LEFT).expect(&rt, "a decision");
    }
}

/// A decoder gives decisions in contexts, whatever they are.
fn gives(rt: &impl Abort, decoder: &mut Decoder<'_>) {
    for cx in [0, 9, 18, 18, 18] {
        equal_at(cx, decoder.decode(cx).is_ok(), true).expect(rt, "a decision");
    }
}

/// One that leaves the interval at its sixth decision stays so where its contexts are to take their
/// first states again.
#[test]
fn fails_behind_a_reset(rt: HostRuntime) {
    let segment = bytes_of(rt.alloc(), &["0A41FF8F"]).expect(&rt, "a segment");
    let mut decoder = Decoder::new(&segment);
    gives(&rt, &mut decoder);
    for cx in [18, 0, 9] {
        equal_at(cx, decoder.decode(cx), LEFT).expect(&rt, "a decision");
        decoder.reset();
    }
}

/// What a block says of itself.
fn says(rt: &impl Abort, alloc: Global) {
    let shape = BlockShape {
        width: 2,
        height: 3,
        orientation: Orientation::HL,
        style: Style::plain(),
    };
    let block = decode(rt, alloc, b"", shape, 0, 0).expect(rt, "a block");
    let sizes = [block.width, block.height, block.values.len()];
    equal(sizes, [2, 3, 6]).expect(rt, "sizes");
    equal(block.orientation, Orientation::HL).expect(rt, "a sub-band");
}

/// One entry of each table of contexts, and what the block says of itself.
#[test]
fn contexts(rt: HostRuntime) {
    equal(zero_context(Orientation::HL, 2, 0, 0), 4).expect(&rt, "of a zero");
    equal(zero_context(Orientation::HH, 1, 1, 1), 5).expect(&rt, "of a zero");
    let sign = sign_context(Contribution::Negative, contributed(1, 0));
    equal((sign.context, sign.flip), (11, true)).expect(&rt, "of a sign");
    equal(refine_context(false, true), 15).expect(&rt, "of refinement");
    says(&rt, rt.alloc());
    one_meaning();
    read_is_meant();
}

/// Words of 32 places: a column of a word, and the places around one.
#[test]
fn words(rt: HostRuntime) {
    let around = Around {
        centre: 0x02,
        west: 0,
        east: 0,
    };
    equal(gather(0x1E, 0x10, 0x02), 0x3F).expect(&rt, "a column");
    equal(members(around, 0x1E1E), 0x604).expect(&rt, "members");
    equal(quiet(0), 0x0202_0202_0202_0202).expect(&rt, "quiet columns");
    let behind = quiet_behind(0x0202_0202_0202_0202, 1);
    equal(behind, 0x0202_0202_0202_0002).expect(&rt, "quiet columns");
    equal(neighbourhood(1 << 9, 0, 0, 10), 0x100).expect(&rt, "neighbours");
    equal(nine(0x100), 8).expect(&rt, "an index");
    untouched_context();
}
