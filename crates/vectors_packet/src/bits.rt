//! Lists of bits and their bytes.

use jk_bits::{BitReader, BitWriter};
use jk_math::Fault;
use std::alloc::Global;
use std::process::Abort;
use vectors::{Line, equal, equal_at};

/// A line for each text: bits as `0` and `1`, and the bytes that an independent program in Python
/// makes of them; the first rows of ones are also worked by hand.
static TEXTS: &str = "\
|
1|80
1111111|fe
11111111|ff00
111111111|ff40
111111111111111|ff7f
1111111111111111|ff7f80
11111111111111111|ff7fc0
1111111111111111111111|ff7ffe
11111111111111111111111|ff7fff00
111111111111111111111111|ff7fff40
111111111111111111111111111111|ff7fff7f
11111111111111111111111111111|ff7fff7e
111111111111111|ff7f
1111011111111111011|f7ff30
1|80
01000111010000110001111001110110|47431e76
111111111|ff40
011111010110100011001100111110011110|7d68ccf9e0
1111111111111111111111111111111111|ff7fff7ff0
11111111|ff00
111010010110001011110001110111011|e962f1dd80
110010000010100110|c82980
0110100011001110100011000001001101110|68ce8c1370
1|80
111111111001110111111111111111111|ff4eff7fe0
11111111101101111111111111010|ff5bff74
11010111|d7
10000111100111101110000001000000|879ee040
11111111111111|ff7e
0110101101100010|6b62
0111111111111111111111|7fff7e";

/// A reader has these bits, and no more than these bytes.
fn reads(rt: &impl Abort, text: &[u8], bits: &str) {
    let mut reader = BitReader::new(text);
    for bit in bits.as_bytes() {
        equal_at(bits, reader.bit(), Ok(*bit == b'1')).expect(rt, "a bit");
    }
    equal_at(bits, reader.finish(), Ok(text.len())).expect(rt, "the end");
}

/// What is written of bits.
fn written(rt: &impl Abort, alloc: Global, bits: &str) -> Vec<u8> {
    let mut writer = BitWriter::new(alloc);
    for bit in bits.as_bytes() {
        writer.push(*bit == b'1').expect(rt, "a bit");
    }
    writer.finish().expect(rt, "bytes")
}

/// Writes the bits of a line and reads them back.
fn goes_round(rt: &impl Abort, alloc: Global, line: &str) {
    let mut fields = Line::new(line, '|');
    let (bits, due) = (fields.word(), fields.bytes(alloc));
    fields.end().expect(rt, "a text");
    let bytes = written(rt, alloc, bits);
    equal_at(bits, bytes.as_slice(), due.as_slice()).expect(rt, "bytes");
    reads(rt, &bytes, bits);
}

/// Reads to the first fault, which is then the answer to each later call.
fn ends(rt: &impl Abort, bytes: &[u8], count: usize, fault: Fault) {
    let mut reader = BitReader::new(bytes);
    for place in 0..count {
        equal_at(place, reader.bit().is_ok(), true).expect(rt, "a bit");
    }
    equal_at(bytes, reader.bit(), Err(fault)).expect(rt, "the first fault");
    equal_at(bytes, reader.bit(), Err(fault)).expect(rt, "again");
    equal_at(bytes, reader.finish(), Err(fault)).expect(rt, "the end");
}

#[test]
fn texts(rt: HostRuntime) {
    for line in TEXTS.lines() {
        goes_round(&rt, rt.alloc(), line);
    }
}

#[test]
fn faults(rt: HostRuntime) {
    ends(&rt, &[0xFF, 0x80], 8, Fault::PacketHeader);
    ends(&rt, &[0xFF, 0x7F], 15, Fault::Truncated);
    ends(&rt, &[0x12], 8, Fault::Truncated);
    ends(&rt, &[], 0, Fault::Truncated);
}

#[test]
fn unclosed(rt: HostRuntime) {
    let mut reader = BitReader::new(&[0xFF]);
    equal(reader.bit(), Ok(true)).expect(&rt, "a bit");
    equal(reader.finish(), Err(Fault::Truncated)).expect(&rt, "the end");
}
