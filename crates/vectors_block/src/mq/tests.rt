ghost use Rattle.std.specs.Prelude.{◌<◌};

use crate::mq::cases::CASES;
use jk_math::Fault;
use jk_model::{
    Cx, STATES, first_contexts, joined_spelling, next_state, one_spelling, standard_states,
};
use jk_mqdec::Decoder;
use std::alloc::Global;
use std::process::Abort;
use vectors::{Line, bytes_of, equal, equal_at};

/// What a mark of a table says that the decoder answers: a bit, or `!`.
fn answer(mark: char) -> Result<bool, Fault> {
    match mark {
        '0' => Ok(false),
        '1' => Ok(true),
        '!' => Err(Fault::CodeOutOfInterval),
        // No mark of a table, and no answer of a decoder.
        _ => Err(Fault::BadPnm),
    }
}

/// A decoder that has failed fails again.
fn fails(rt: &impl Abort, decoder: &mut Decoder<'_>, cx: usize)
    requires { cx < 19 }
{
    equal(decoder.decode(cx), answer('!')).expect(rt, "again");
    equal(decoder.decode(0), answer('!')).expect(rt, "at last");
}

/// The number of the context behind an answer.
fn next(cx: usize, mark: char) -> usize {
    cx.wrapping_mul(5)
        .wrapping_add(if mark == '1' { 10 } else { 3 })
}

/// Decodes as many decisions as `wanted` has marks. The first context is `first`; after it each
/// context depends on the bit before. A decoder that has failed fails again.
fn decodes(rt: &impl Abort, segment: &[u8], first: usize, wanted: &str) {
    let mut decoder = Decoder::new(segment);
    let mut number = first;
    for mark in wanted.chars() {
        let cx = number % 19;
        equal_at((wanted, segment), decoder.decode(cx), answer(mark)).expect(rt, "a decision");
        if mark == '!' {
            fails(rt, &mut decoder, cx);
        }
        number = next(cx, mark);
    }
}

/// Decodes the segment of a line.
fn decodes_line(rt: &impl Abort, alloc: Global, text: &str) {
    let mut line = Line::new(text, ' ');
    let segment = line.bytes(alloc);
    let first = line.number(0, 255) as usize;
    let wanted = line.word();
    line.end().expect(rt, "a line");
    decodes(rt, &segment, first, wanted);
}

#[test]
fn random_segments(rt: HostRuntime) {
    let mut count = 0u32;
    for line in CASES.lines() {
        decodes_line(&rt, rt.alloc(), line);
        count = count.saturating_add(1);
    }
    equal(count, 330).expect(&rt, "lines");
}

/// Segments, and what is decoded of them: the significance in context 0, and the sign in context 9.
static SINGLE: [(&str, char, char); 7] = [
    ("03", '1', '0'),
    ("07", '1', '1'),
    ("-", '0', '0'),
    ("00FF80", '1', '0'),
    ("FF7F", '0', '0'),
    ("FF8F", '!', '!'),
    ("FF80", '!', '!'),
];

/// The decisions of the one cleanup pass of a block of 1 by 1 in LL: the significance in context 0,
/// and behind a 1 the sign in context 9.
#[test]
fn single_coefficients(rt: HostRuntime) {
    for (text, significance, sign) in &SINGLE {
        let bytes = bytes_of(rt.alloc(), &[*text]).expect(&rt, "a segment");
        let mut decoder = Decoder::new(&bytes);
        equal_at(*text, decoder.decode(0), answer(*significance)).expect(&rt, "a significance");
        equal_at(*text, decoder.decode(9), answer(*sign)).expect(&rt, "a sign");
    }
}

/// The next eight decisions in one context, the first one highest.
fn byte_of(rt: &impl Abort, decoder: &mut Decoder<'_>) -> u32 {
    let mut byte = 0u32;
    for _ in 0..8 {
        let bit = decoder.decode(1).expect(rt, "a bit");
        byte = byte.wrapping_mul(2).wrapping_add(bit as u32);
    }
    byte
}

/// The test sequence of T.88 H.2, in one context that begins in state 0.
#[test]
fn test_sequence(rt: HostRuntime) {
    let coded = bytes_of(
        rt.alloc(),
        &["84C73BFCE1A1430402200000410DBB86F4317FFF88FF37471ADB6ADFFFAC"],
    );
    let plain = bytes_of(
        rt.alloc(),
        &["00020051000000C00352872AAAAAAAAA82C02000FCD79EF6BF7FED904F46A3BF"],
    );
    let coded = coded.expect(&rt, "a segment");
    let plain = plain.expect(&rt, "the sequence");
    equal(plain.len(), 32).expect(&rt, "bytes");
    let mut decoder = Decoder::new(&coded);
    for byte in &plain {
        equal(byte_of(&rt, &mut decoder), *byte as u32).expect(&rt, "a byte");
    }
}

/// A state and its sense, a bit, and the state and the sense behind it.
static MOVES: [(u8, bool, bool, u8, bool); 8] = [
    (0, false, false, 1, false),
    (0, false, true, 1, true),
    (0, true, false, 1, false),
    (1, false, true, 6, false),
    (5, true, true, 38, true),
    (14, true, false, 14, false),
    (45, false, false, 45, false),
    (46, false, true, 46, false),
];

/// A context of a state and a sense.
fn context(state: u8, mps: bool) -> Cx {
    Cx {
        state: state % 47,
        mps,
    }
}

/// What the tables say of the contexts of zero coding and of uniform ones.
#[test]
fn contexts_move(rt: HostRuntime) {
    equal(STATES.len(), 47).expect(&rt, "states");
    let contexts = first_contexts();
    equal(contexts[0].row().qe, 0x0521).expect(&rt, "an estimate");
    equal(contexts[18], context(46, false)).expect(&rt, "a context");
    for (from, mps, bit, to, sense) in &MOVES {
        let behind = next_state(context(*from, *mps), *bit);
        equal_at(*from, behind, context(*to, *sense)).expect(&rt, "a state");
    }
    standard_states();
    one_spelling();
    joined_spelling();
}
