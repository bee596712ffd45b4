ghost use Rattle.std.specs.Prelude.{◌<◌};

use crate::mq::encoded::ENCODED;
use jk_model::{alike_spelling, given_decisions, placed_value};
use jk_mqdec::Decoder;
use jk_mqenc::{Encoder, written_grows};
use std::alloc::Global;
use std::process::Abort;
use vectors::{Line, drawn, equal, equal_at, sum_of};

/// The number of the context of a decision that a byte tells.
fn context(byte: u8) -> usize
    ensures { result < 19 }
{
    (byte & 0x7F) as usize % 19
}

/// Codes the decisions.
fn encode(rt: &impl Abort, encoder: &mut Encoder, decisions: &[u8]) {
    for byte in decisions {
        encoder
            .encode(context(*byte), *byte >= 0x80)
            .expect(rt, "a decision");
    }
}

/// A decoder finds the decisions in the bytes.
fn decodes(rt: &impl Abort, bytes: &[u8], decisions: &[u8]) {
    let mut decoder = Decoder::new(bytes);
    for byte in decisions {
        let bit = decoder.decode(context(*byte)).expect(rt, "a bit");
        equal_at(decisions, bit, *byte >= 0x80).expect(rt, "a decision");
    }
}

/// Codes the decisions and finishes; `written` is asked for before the decision of this number, or
/// at the end. A decoder then finds the decisions in the bytes.
fn encodes(
    rt: &impl Abort,
    alloc: Global,
    decisions: &[u8],
    number: usize,
    written: usize,
    wanted: &[u8],
) {
    assert!(rt; number <= decisions.len());
    let (before, after) = decisions.split_at(number);
    let mut encoder = Encoder::new(alloc);
    encode(rt, &mut encoder, before);
    equal_at(decisions, encoder.written(), written).expect(rt, "bytes placed");
    encode(rt, &mut encoder, after);
    let bytes = encoder.finish().expect(rt, "bytes");
    equal_at(decisions, bytes.as_slice(), wanted).expect(rt, "bytes");
    decodes(rt, &bytes, decisions);
}

/// Codes the decisions of a line.
fn encodes_line(rt: &impl Abort, alloc: Global, text: &str) {
    let mut line = Line::new(text, ' ');
    let decisions = line.bytes(alloc);
    let number = line.number(0, 255) as usize;
    let written = line.number(0, 255) as usize;
    let wanted = line.bytes(alloc);
    line.end().expect(rt, "a line");
    encodes(rt, alloc, &decisions, number, written, &wanted);
}

#[test]
fn random_decisions(rt: HostRuntime) {
    let mut count = 0u32;
    for line in ENCODED.lines() {
        encodes_line(&rt, rt.alloc(), line);
        count = count.saturating_add(1);
    }
    equal(count, 125).expect(&rt, "lines");
    given_decisions();
    alike_spelling();
    placed_value();
    written_grows();
}

/// Two decisions in one call have these bytes, none of which is placed before the end.
fn lists(rt: &impl Abort, alloc: Global, first: u8, second: u8, wanted: u8) {
    assert!(rt; first / 2 < 19 && second / 2 < 19);
    let mut encoder = Encoder::new(alloc);
    encoder.encode_all(&[first, second]).expect(rt, "decisions");
    equal(encoder.written(), 0).expect(rt, "bytes placed");
    let bytes = encoder.finish().expect(rt, "bytes");
    equal(bytes.as_slice(), [wanted].as_slice()).expect(rt, "bytes");
}

/// The decisions of the one cleanup pass of a block of 1 by 1 in LL, in one call.
#[test]
fn listed_decisions(rt: HostRuntime) {
    lists(&rt, rt.alloc(), 0x01, 0x12, 0x03);
    lists(&rt, rt.alloc(), 0x01, 0x13, 0x07);
}

/// Whether a decision by chance is 1.
fn is_one(cx: usize, chance: u32) -> bool {
    if cx % 2 == 0 {
        (chance >> 24) & 7 == 0
    } else {
        (chance >> 28) & 1 == 1
    }
}

/// A million decisions, drawn by a linear congruence; the bytes are those of an independent encoder
/// by their number, the first and the last, and a sum.
#[test]
fn long_run(rt: HostRuntime) {
    let mut encoder = Encoder::new(rt.alloc());
    let mut chance = 1;
    for _ in 0..1_048_576 {
        chance = drawn(chance);
        let cx = (chance >> 16) as usize % 19;
        encoder
            .encode(cx, is_one(cx, chance))
            .expect(&rt, "a decision");
    }
    equal(encoder.written(), 106_551).expect(&rt, "bytes placed");
    let bytes = encoder.finish().expect(&rt, "bytes");
    equal(bytes.len(), 106_552).expect(&rt, "bytes");
    equal(sum_of(&bytes), 0xB1EE_57A7).expect(&rt, "a sum");
}
