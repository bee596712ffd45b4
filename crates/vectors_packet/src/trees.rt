//! Trees, their queries and the bytes that tell them.

ghost use Rattle.std.specs.Prelude.{◌≡◌};

use jk_bits::{BitReader, BitWriter};
use jk_math::Fault;
use jk_tree::{ReadTree, WriteTree};
use std::alloc::Global;
use std::process::Abort;
use vectors::{Line, equal, equal_at};

/// A line for each tree: its width and height; the values of the leaves in raster order; queries
/// (the leaf, a threshold, and whether the leaf is below it); and the bytes that an independent
/// program in Python makes of them. The first is worked by hand: its bits are `11`, `0`, `0` and `1`.
static CASES: &str = "\
2 1 0,2 0:1:1,1:1:0,1:2:0,1:3:1 c8
3 1 5,0,2 2:6:1,1:5:1 9e
4 5 5,2,2,2,0,1,3,1,2,5,2,3,1,3,1,1,0,2,2,3 0:3:0,19:1:0 e2
4 3 2,2,1,3,5,1,5,0,3,5,3,1 1:4:1,9:1:0,1:5:1,1:6:1,3:3:0,7:4:1,8:1:0,3:6:1,6:1:0,1:3:1,4:3:0,5:5:1 aa31
8 5 5,0,3,0,5,5,0,3,1,3,3,1,3,5,5,5,0,3,3,3,2,5,3,5,2,2,5,2,3,2,5,2,2,0,0,1,5,0,1,3 24:1:0,20:6:1,25:1:0,37:6:1,20:1:0,14:4:0,30:3:0,15:1:0,33:1:1,29:2:0,15:5:0,7:1:0,39:4:1 e9bc09c090
9 1 1,0,2,5,1,0,2,3,1 6:4:1,4:6:1,6:3:1,8:2:1,4:6:1,2:2:0,7:1:0,8:3:1,8:5:1,5:3:1,4:5:1 e75f20
4 6 2,1,1,1,5,1,0,0,0,2,2,3,0,5,0,0,1,5,2,0,0,1,5,1 11:4:1,15:3:1,6:3:1,10:4:1,23:2:1,2:1:0,14:5:1,6:4:1,13:6:1,8:4:1,4:3:0 e3ceb068
3 6 5,2,2,5,1,3,2,5,0,3,2,0,5,0,3,5,5,3 14:3:0,0:1:0,9:2:0,2:6:1,9:4:1,10:3:1,4:2:1,11:6:1,10:3:1,3:3:0,14:5:1 c41df980
5 4 5,2,3,2,1,3,5,1,0,2,2,0,2,3,5,3,1,5,2,3 4:5:1,18:2:0,5:1:0,14:3:0,0:2:0,16:1:0,17:2:0,18:3:1,0:6:1 bc0b88
8 1 5,5,2,5,0,2,0,2 1:3:0,1:1:0,2:1:0,6:2:1,3:4:0,5:4:1,6:3:1,5:3:1,2:4:1,7:5:1,1:6:1,0:4:0 979326
7 1 3,0,3,5,0,5,2 0:1:0,3:4:0,1:2:1,5:2:0,5:4:0,5:2:0,2:2:0,3:4:0,4:3:1,2:1:0,3:3:0,5:1:0 e17080
5 6 1,1,0,3,0,5,3,0,2,0,1,1,2,1,5,1,5,3,5,5,1,3,1,2,3,1,2,5,5,3 15:4:1,29:3:0,21:5:1,24:1:0,15:2:1 d864
8 1 1,1,3,5,5,2,0,1 7:3:1 e8
9 2 3,5,1,3,1,2,1,2,5,1,5,2,5,5,0,1,5,1 6:2:1 ec
3 1 2,2,5 2:1:0,1:6:1,1:1:0,2:5:0,2:5:0,1:1:0,0:4:1,0:6:1,0:4:1,0:1:0,2:4:0,2:4:0 3880
3 3 2,2,3,0,5,2,3,0,2 2:1:0,6:6:1 a2
9 6 0,3,0,3,3,1,2,5,0,3,0,1,5,1,2,3,5,2,2,3,5,0,2,1,1,3,0,2,2,2,5,3,2,3,3,0,0,1,5,0,1,1,1,1,3,0,3,5,0,0,1,0,1,0 26:1:1,21:4:1,32:2:0,41:2:1,49:2:1,52:6:1,24:4:1 ff5b77
7 4 5,0,3,5,2,1,5,5,0,2,2,1,2,2,3,0,5,3,1,5,2,2,0,5,1,2,5,2 7:3:0,19:5:0,16:2:0,18:6:1,6:5:0,22:6:1,26:2:0,18:1:0,20:6:1 e182a330
4 1 1,1,3,5 2:3:0,0:3:1,2:4:1,0:4:1,1:2:1,0:5:1,2:2:0 4f80
7 5 1,0,0,2,2,1,5,2,1,1,5,5,0,3,0,3,1,1,2,3,5,5,0,1,1,3,3,0,1,5,3,0,5,3,1 33:2:0,16:2:1,21:1:0,2:6:1,9:4:1,31:5:1 abb780
2 4 2,3,5,5,3,2,3,3 6:4:1,1:5:1,1:5:1,5:5:1,6:4:1,0:3:1,0:3:1,6:6:1,6:5:1,5:3:1,1:2:0,1:4:1 36e0
4 5 3,0,3,0,5,1,5,2,3,1,0,2,5,3,5,1,1,3,5,0 3:5:1,4:1:0 f8
9 1 2,1,2,0,2,1,0,3,3 6:2:1,5:6:1,3:1:1,4:1:0,7:3:0,4:3:1,7:2:0,7:2:0,3:3:1 fbe1
1 2 2,2 0:2:0,0:5:1,0:2:0,0:6:1,0:3:1,1:3:1,1:6:1,0:3:1 38";

/// A leaf, a threshold, and whether the leaf is below it.
#[derive(Clone, Copy)]
struct Query {
    leaf: u32,
    threshold: u16,
    is_below: bool,
}

/// The query of a text.
fn query_of(rt: &impl Abort, text: &str) -> Query {
    let mut fields = Line::new(text, ':');
    let query = Query {
        leaf: fields.number(0, 0xFFFF_FFFF) as u32,
        threshold: fields.number(0, 65_535) as u16,
        is_below: fields.number(0, 1) == 1,
    };
    fields.end().expect(rt, "a query");
    query
}

/// The value of a leaf.
fn value_of(rt: &impl Abort, text: &str) -> u16 {
    text.parse::<u16>().expect(rt, "a value")
}

/// The values of leaves.
fn values_of(rt: &impl Abort, alloc: Global, text: &str) -> Vec<u16> {
    let mut values = Vec::new(alloc);
    for value in text.split(',') {
        values.push(value_of(rt, value)).expect(rt, "a value");
    }
    values
}

/// Tells the queries one after another.
fn tell_all(
    rt: &impl Abort,
    tree: &mut WriteTree,
    width: u16,
    height: u16,
    queries: &str,
    writer: &mut BitWriter,
)
    requires { tree.old.shape ≡ record { width = width; height = height } }
{
    let leaves = width as u32 * height as u32;
    for text in queries.split(',') {
        let query = query_of(rt, text);
        assert!(rt; query.leaf < leaves);
        tree.tell(query.leaf, query.threshold, writer)
            .expect(rt, "a leaf");
    }
}

/// Asks them one after another.
fn ask_all(
    rt: &impl Abort,
    tree: &mut ReadTree,
    width: u16,
    height: u16,
    queries: &str,
    reader: &mut BitReader<'_>,
)
    requires { tree.old.shape ≡ record { width = width; height = height } }
{
    let leaves = width as u32 * height as u32;
    for text in queries.split(',') {
        let query = query_of(rt, text);
        assert!(rt; query.leaf < leaves);
        let answer = tree.ask(query.leaf, query.threshold, reader);
        equal_at(text, answer, Ok(query.is_below)).expect(rt, "a leaf");
    }
}

/// What is written of the leaves.
fn written(
    rt: &impl Abort,
    alloc: Global,
    (width, height): (u16, u16),
    values: &[u16],
    queries: &str,
) -> Vec<u8> {
    let leaves = width as usize * height as usize;
    assert!(rt; values.len() == leaves);
    let mut writer = BitWriter::new(alloc);
    let tree = WriteTree::new(alloc, width, height, values);
    let mut tree = tree.expect(rt, "a tree");
    tell_all(rt, &mut tree, width, height, queries, &mut writer);
    writer.finish().expect(rt, "bytes")
}

/// The leaves are read, and no more than these bytes.
fn reads(rt: &impl Abort, alloc: Global, (width, height): (u16, u16), queries: &str, bytes: &[u8]) {
    let mut reader = BitReader::new(bytes);
    let mut tree = ReadTree::new(alloc, width, height).expect(rt, "a tree");
    ask_all(rt, &mut tree, width, height, queries, &mut reader);
    equal_at(queries, reader.finish(), Ok(bytes.len())).expect(rt, "the end");
}

/// The leaves are read of what is written of them.
fn goes_round(rt: &impl Abort, alloc: Global, line: &str) {
    let mut fields = Line::new(line, ' ');
    let width = fields.number(0, 65_535) as u16;
    let height = fields.number(0, 65_535) as u16;
    let values = values_of(rt, alloc, fields.word());
    let (queries, due) = (fields.word(), fields.bytes(alloc));
    fields.end().expect(rt, "a case");
    let bytes = written(rt, alloc, (width, height), &values, queries);
    equal_at(line, bytes.as_slice(), due.as_slice()).expect(rt, "bytes");
    reads(rt, alloc, (width, height), queries, &bytes);
}

#[test]
fn trees(rt: HostRuntime) {
    for line in CASES.lines() {
        goes_round(&rt, rt.alloc(), line);
    }
}

/// A node above its leaves is told as 2, and the leaves as 3 and 3: no written tree does that, and
/// it is read.
#[test]
fn loose_tree(rt: HostRuntime) {
    let mut reader = BitReader::new(&[0b0010_1010]);
    let mut tree = ReadTree::new(rt.alloc(), 2, 1).expect(&rt, "a tree");
    equal(tree.ask(0, 4, &mut reader), Ok(true)).expect(&rt, "the first leaf");
    equal(tree.ask(1, 4, &mut reader), Ok(true)).expect(&rt, "the second leaf");
    equal(tree.ask(1, 3, &mut reader), Ok(false)).expect(&rt, "the second leaf");
}

/// A tree that ran out of bits answers so for ever.
#[test]
fn failed_tree(rt: HostRuntime) {
    let due = Err(Fault::Truncated);
    let mut reader = BitReader::new(&[0x00]);
    let mut tree = ReadTree::new(rt.alloc(), 1, 1).expect(&rt, "a tree");
    equal(tree.ask(0, 9, &mut reader), due).expect(&rt, "a leaf");
    let mut more = BitReader::new(&[0xFF, 0x00]);
    equal(tree.ask(0, 1, &mut more), due).expect(&rt, "a leaf");
}
