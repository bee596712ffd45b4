//! SHA-256, against worked examples and the library's, which takes one block after another.

use crate::asserts::{equal, equal_at};
use crate::calls::put;
use jk_digest::{sha256, sha256_of_four};
use sha2::{Digest, Sha256};
use std::alloc::Global;
use std::process::Abort;
use vectors::bytes_of;

/// Messages and their digests: the two examples to FIPS 180-4 of three bytes and of 56, and by
/// another program that of none and that of 112 bytes.
static EXAMPLES: [(&str, &str); 4] = [
    (
        "abc",
        "BA7816BF8F01CFEA414140DE5DAE2223B00361A396177A9CB410FF61F20015AD",
    ),
    (
        "",
        "E3B0C44298FC1C149AFBF4C8996FB92427AE41E4649B934CA495991B7852B855",
    ),
    (
        "abcdbcdecdefdefgefghfghighijhijkijkljklmklmnlmnomnopnopq",
        "248D6A61D20638B8E5C026930C3E6039A33CE45964FF2167F6ECEDD419DB06C1",
    ),
    (
        "abcdefghbcdefghicdefghijdefghijkefghijklfghijklmghijklmnhijklmnoijklmnopjklmnopqklmnopqrlmnopqrsmnopqrstnopqrstu",
        "CF5B16A778AF8380036CE59E7B0492370B249B11E8F07A51AFAC45037AFEE9D1",
    ),
];

/// Each of the texts has its digest, and so have all four at once.
fn compare_examples(rt: &impl Abort, alloc: Global) {
    let [(a, e), (b, f), (c, g), (d, h)] = EXAMPLES;
    let due = bytes_of(alloc, &[e, f, g, h]).expect(rt, "bytes");
    let mut found = Vec::new(alloc);
    for (text, _) in &EXAMPLES {
        put(rt, &mut found, &sha256(text.as_bytes()));
    }
    equal(rt, found.as_slice(), due.as_slice());
    let four = sha256_of_four(a.as_bytes(), b.as_bytes(), c.as_bytes(), d.as_bytes());
    let mut found = Vec::new(alloc);
    for digest in &four {
        put(rt, &mut found, digest);
    }
    equal(rt, found.as_slice(), due.as_slice());
}

#[test]
fn examples(rt: HostRuntime) {
    compare_examples(&rt, rt.alloc());
}

/// Bytes in no order, by a multiplication and an addition.
fn made(rt: &impl Abort, alloc: Global, size: usize) -> Vec<u8> {
    let mut bytes = Vec::new(alloc);
    let mut state = 26_112_700u32;
    for _ in 0..size {
        state = state.wrapping_mul(1_664_525).wrapping_add(1_013_904_223);
        bytes.push((state >> 24) as u8).expect(rt, "room");
    }
    bytes
}

/// So many of the first bytes.
fn begin(bytes: &[u8], size: usize) -> &[u8] {
    &bytes[..size.min(bytes.len())]
}

/// A message of so many bytes has the digest that the library makes of it.
fn compare(rt: &impl Abort, bytes: &[u8], size: usize) {
    let message = begin(bytes, size);
    equal_at(rt, size, sha256(message), Sha256::digest(message));
}

/// Four messages of these sizes have the digests that the library makes of them.
fn compare_four(rt: &impl Abort, bytes: &[u8], sizes: [usize; 4]) {
    let [a, b, c, d] = sizes;
    let found = sha256_of_four(
        begin(bytes, a),
        begin(bytes, b),
        begin(bytes, c),
        begin(bytes, d),
    );
    let due = [
        Sha256::digest(begin(bytes, a)),
        Sha256::digest(begin(bytes, b)),
        Sha256::digest(begin(bytes, c)),
        Sha256::digest(begin(bytes, d)),
    ];
    equal_at(rt, sizes, found, due);
}

#[test]
fn as_the_library(rt: HostRuntime) {
    let bytes = made(&rt, rt.alloc(), 4_100);
    for size in 0..=330 {
        compare(&rt, &bytes, size);
        let others = [330usize.saturating_sub(size), size.saturating_mul(2)];
        compare_four(&rt, &bytes, [size, others[0], 400, others[1]]);
    }
    for size in [1_023, 1_024, 1_025, 4_099] {
        compare(&rt, &bytes, size);
        let others = [size.saturating_add(1), size.saturating_sub(64)];
        compare_four(&rt, &bytes, [others[0], size, others[1], size]);
    }
}
