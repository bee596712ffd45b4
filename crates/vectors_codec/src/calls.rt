//! The calls that the tests make, without their contracts: a test says what is answered, and proves
//! nothing by it.

use jk_jobs::Gate;
use jk_marks::Order;
use jk_math::{Fault, Image, Style};
use jk_params::{Container, Parameters};
use std::alloc::Global;
use std::io::Write;
use std::marker::Sync;
use std::process::Abort;
use std::thread::Threads;

/// One layer, LRCP, blocks of 64 by 64, no precinct sizes, tiles, markers or colour transform; a
/// bare codestream.
pub(crate) fn plain(alloc: Global, levels: u8) -> Parameters {
    Parameters {
        levels,
        layers: 1,
        order: Order::Lrcp,
        tile: None,
        xcb: 6,
        ycb: 6,
        style: Style::plain(),
        precincts: Vec::new(alloc),
        colour: false,
        sop: false,
        eph: false,
        container: Container::Raw,
    }
}

/// The file of an image.
pub(crate) fn encode(
    rt: &impl Abort,
    alloc: Global,
    image: &Image,
    parameters: &Parameters,
) -> Vec<u8> {
    jk_code::encode(alloc, image, parameters).expect(rt, "a file")
}

/// Why an image isn't encoded, where it isn't.
pub(crate) fn encode_refusal(
    alloc: Global,
    image: &Image,
    parameters: &Parameters,
) -> Option<Fault> {
    jk_code::encode(alloc, image, parameters).err()
}

pub(crate) fn encode_with<R: Threads + Sync, G: Gate + Sync>(
    rt: &R,
    alloc: Global,
    workers: usize,
    gate: &G,
    image: &Image,
    parameters: &Parameters,
) -> Result<Vec<u8>, Fault> {
    jk_code::encode_with(rt, alloc, workers, gate, image, parameters)
}

pub(crate) fn encode_into<W: Write>(
    alloc: Global,
    image: &Image,
    parameters: &Parameters,
    writer: &mut W,
) -> Result<(), Fault> {
    jk_code::encode_into(alloc, image, parameters, writer)
}

/// What a file means at a reduction.
pub(crate) fn decode(rt: &impl Abort, alloc: Global, bytes: &[u8], reduce: u32) -> Image {
    jk_code::decode(alloc, bytes, reduce).expect(rt, "an image")
}

/// Why a file isn't decoded at a reduction, where it isn't.
pub(crate) fn refusal(alloc: Global, bytes: &[u8], reduce: u32) -> Option<Fault> {
    jk_code::decode(alloc, bytes, reduce).err()
}

/// The image of a PNM file.
pub(crate) fn read(rt: &impl Abort, alloc: Global, bytes: &[u8]) -> Image {
    jk_pnm::read(alloc, bytes).expect(rt, "an image")
}

/// Why a PNM file isn't read, where it isn't.
pub(crate) fn read_refusal(alloc: Global, bytes: &[u8]) -> Option<Fault> {
    jk_pnm::read(alloc, bytes).err()
}

/// The PNM file of an image.
pub(crate) fn write(rt: &impl Abort, alloc: Global, image: &Image) -> Vec<u8> {
    jk_pnm::write(alloc, image).expect(rt, "a PNM file")
}

/// The file of a PNM file.
pub(crate) fn encode_pnm(
    rt: &impl Abort,
    alloc: Global,
    pnm: &[u8],
    parameters: &Parameters,
) -> Vec<u8> {
    encode(rt, alloc, &read(rt, alloc, pnm), parameters)
}

/// The PNM file of what a file means at a reduction.
pub(crate) fn decode_pnm(rt: &impl Abort, alloc: Global, bytes: &[u8], reduce: u32) -> Vec<u8> {
    write(rt, alloc, &decode(rt, alloc, bytes, reduce))
}
