//! Calls at the sizes of 2^20 elements.

ghost use Rattle.std.specs.Prelude.{◌≡◌};

use jk_bits::{BitReader, BitWriter};
use jk_packet::{BandShape, Header, Precinct, PrecinctShape};
use jk_tree::{ReadTree, WriteTree};
use std::alloc::Global;
use std::process::Abort;
use vectors::equal;

#[test]
fn a_million_bits(rt: HostRuntime) {
    let mut writer = BitWriter::new(rt.alloc());
    for _ in 0..1 << 20 {
        writer.push(false).expect(&rt, "a bit");
    }
    let text = writer.finish().expect(&rt, "bytes");
    equal(text.len(), 1 << 17).expect(&rt, "bytes");
}

/// What is written of the last of 2^20 leaves.
fn last_leaf(rt: &impl Abort, alloc: Global) -> Vec<u8> {
    let values = vec![in alloc; 0u16; 1 << 20].expect(rt, "leaves");
    let mut told = WriteTree::new(alloc, 8192, 128, &values).expect(rt, "a tree");
    let mut writer = BitWriter::new(alloc);
    told.tell((1 << 20) - 1, 1, &mut writer)
        .expect(rt, "a leaf");
    writer.finish().expect(rt, "bytes")
}

/// The last of 2^20 leaves, all 0: fourteen nodes tell a 1 each.
#[test]
fn a_million_leaves(rt: HostRuntime) {
    let text = last_leaf(&rt, rt.alloc());
    equal(text.as_slice(), [0xFF, 0x7E].as_slice()).expect(&rt, "bytes");
    let mut asked = ReadTree::new(rt.alloc(), 8192, 128).expect(&rt, "a tree");
    let mut reader = BitReader::new(&text);
    let answer = asked.ask((1 << 20) - 1, 1, &mut reader);
    equal(answer, Ok(true)).expect(&rt, "a leaf");
}

/// A precinct of 2^20 code-blocks, of which no layer is read.
fn wide_precinct(rt: &impl Abort, alloc: Global) -> Precinct
    ensures { result.layers ≡ 0 }
{
    let band = BandShape {
        across: 8192,
        down: 128,
        planes: 9,
    };
    Precinct::new(alloc, &PrecinctShape::lowest(band, false, false)).expect(rt, "a precinct")
}

/// A header of one byte without a code-block.
fn is_bare(rt: &impl Abort, header: &Header) {
    equal((header.length, header.parts.len()), (1, 0)).expect(rt, "a header");
}

/// A header that isn't empty and includes none of 2^20 code-blocks: a 1, and a 0 of the tree's
/// root.
#[test]
fn a_million_blocks(rt: HostRuntime) {
    let mut precinct = wide_precinct(&rt, rt.alloc());
    let header = precinct.read_header(&[0x80], 0).expect(&rt, "a header");
    is_bare(&rt, &header);
}

/// The same in each of 65,535 layers. Asked leaf by leaf these would be 2^36 questions.
#[test]
fn a_million_blocks_in_all_layers(rt: HostRuntime) {
    let mut precinct = wide_precinct(&rt, rt.alloc());
    for layer in 0..65535u16 {
        let header = precinct.read_header(&[0x80], layer);
        is_bare(&rt, &header.expect(&rt, "a header"));
    }
}
