//! Files, of hexadecimal texts and of samples.

use std::alloc::Global;
use std::process::Abort;
use vectors::bytes_of;

/// The headers of the codestream of one grey pixel.
pub(crate) static MAIN: &str =
    "FF4F FF51 0029 0000 00000001 00000001 00000000 00000000 00000001 00000001 00000000 00000000 0001 07 01 01 FF52 000C 00 00 0001 00 00 04 04 00 01 FF5C 0004 40 40";

/// The bytes of texts.
pub(crate) fn bytes(rt: &impl Abort, alloc: Global, texts: &[&str]) -> Vec<u8> {
    bytes_of(alloc, texts).expect(rt, "bytes")
}

/// These bytes with one of them changed.
pub(crate) fn changed(
    rt: &impl Abort,
    alloc: Global,
    texts: &[&str],
    place: usize,
    byte: u8,
) -> Vec<u8> {
    let mut bytes = bytes(rt, alloc, texts);
    assert!(rt; place < bytes.len());
    bytes[place] = byte;
    bytes
}

/// Adds bytes.
pub(crate) fn add(rt: &impl Abort, file: &mut Vec<u8>, more: &[u8]) {
    file.extend_from_slice(more).expect(rt, "more bytes");
}

/// The PNM file of a header and samples.
pub(crate) fn pnm_of(rt: &impl Abort, alloc: Global, header: &str, samples: &[u8]) -> Vec<u8> {
    let mut file = Vec::new(alloc);
    add(rt, &mut file, header.as_bytes());
    add(rt, &mut file, samples);
    file
}

/// The PNM file of a header and so many bytes of one value.
pub(crate) fn even_pnm(
    rt: &impl Abort,
    alloc: Global,
    header: &str,
    count: usize,
    byte: u8,
) -> Vec<u8> {
    let samples = vec![in alloc; byte; count].expect(rt, "samples");
    pnm_of(rt, alloc, header, &samples)
}
