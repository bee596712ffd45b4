ghost use Rattle.std.specs.Prelude.{◌^◌, ◌<◌, All, IsTrue, unsigned_abs};
ghost use Rattle.jk_farm.specs.Blocks.{IsBlock, IsCodedSegment};

use crate::farm::cases::BLOCKS;
use jk_block::{Block, BlockShape, CodedBlock};
use jk_farm::{Gate, Open, Segment, map_blocks, map_segments};
use jk_math::{Fault, Orientation, Style};
use std::alloc::Global;
use std::process::Abort;
use std::thread::Threads;
use vectors::{Line, Meeting, bytes_of, equal, equal_at};

/// A gate at which the first job meets the second.
#[derive(Drop)]
struct Held {
    meeting: Meeting,
}

impl Gate for Held {
    fn began(&self, job: usize) {
        self.meeting.began(job);
    }

    fn ended(&self, job: usize) {
        self.meeting.ended(job);
    }
}

/// Is this a segment of the profile?
fn is_segment(segment: &Segment) -> bool
    ensures { IsTrue result → IsCodedSegment segment.now }
{
    let shape = &segment.shape;
    1 <= shape.width
        && shape.width <= 1024
        && 1 <= shape.height
        && shape.height <= 1024
        && shape.width * shape.height <= 4096
        && segment.planes <= 23
}

/// The segment of a code-block of one sample with one bit-plane, by its bytes and passes.
fn segment_of(rt: &impl Abort, alloc: Global, text: &str, passes: usize, style: Style) -> Segment {
    Segment {
        bytes: bytes_of(alloc, &[text]).expect(rt, "a segment"),
        shape: BlockShape {
            width: 1,
            height: 1,
            orientation: Orientation::LL,
            style,
        },
        planes: 1,
        passes,
    }
}

/// The segments of such code-blocks, in a style.
fn segments_in(
    rt: &impl Abort,
    alloc: Global,
    style: Style,
    texts: &[(&str, usize)],
) -> Vec<Segment>
    ensures { All IsCodedSegment result.items }
{
    let mut made = Vec::new(alloc);
    for (text, passes) in texts {
        made.push(segment_of(rt, alloc, *text, *passes, style))
            .expect(rt, "a segment");
    }
    let segments = made;
    let sound = segments.iter().all(|segment| is_segment(segment));
    assert!(rt; sound);
    segments
}

/// The segments of such code-blocks.
fn segments(rt: &impl Abort, alloc: Global, texts: &[(&str, usize)]) -> Vec<Segment>
    ensures { All IsCodedSegment result.items }
{
    segments_in(rt, alloc, Style::plain(), texts)
}

/// Whether each magnitude is below 2^23.
fn is_small(values: &[i32]) -> bool
    ensures { IsTrue result → All (λ v. unsigned_abs v < 2 ^ 23) values.now }
{
    values.iter().all(|value| value.unsigned_abs() < 1 << 23)
}

/// Is this a code-block of the profile?
fn is_block(block: &Block) -> bool
    ensures { IsTrue result → IsBlock block.now }
{
    block.width <= 1024
        && block.height <= 1024
        && block.width * block.height <= 4096
        && block.values.len() == block.width * block.height
        && is_small(&block.values)
}

/// A sub-band by its name.
fn orientation_of(text: &str) -> Orientation {
    match text {
        "HL" => Orientation::HL,
        "LH" => Orientation::LH,
        "HH" => Orientation::HH,
        _ => Orientation::LL,
    }
}

/// A line of the table: the code-block, and what is written of it.
#[derive(Drop)]
struct Row {
    block: Block,
    planes: u64,
    bytes: Vec<u8>,
    marks: Vec<i32>,
}

/// The row of a line.
fn row_of(rt: &impl Abort, alloc: Global, text: &str) -> Row {
    let mut line = Line::new(text, ' ');
    let block = Block {
        width: line.number(0, 1024) as usize,
        height: line.number(0, 1024) as usize,
        orientation: orientation_of(line.word()),
        style: Style::plain(),
        values: line.numbers(alloc, ','),
    };
    let planes = line.number(0, 23);
    let bytes = line.bytes(alloc);
    let marks = line.numbers(alloc, ',');
    line.end().expect(rt, "a line");
    Row {
        block,
        planes,
        bytes,
        marks,
    }
}

/// The code-block of a line.
fn block_of(rt: &impl Abort, alloc: Global, text: &str) -> Block {
    let Row { block, .. } = row_of(rt, alloc, text);
    block
}

/// The code-blocks of all lines.
fn blocks(rt: &impl Abort, alloc: Global) -> Vec<Block>
    ensures { All IsBlock result.items }
{
    let mut made = Vec::new(alloc);
    for line in BLOCKS.split('\n') {
        made.push(block_of(rt, alloc, line))
            .expect(rt, "a code-block");
    }
    let blocks = made;
    let sound = blocks.iter().all(|block| is_block(block));
    assert!(rt; sound);
    blocks
}

/// Whether a mark for each pass is these numbers.
fn are_marks(marks: &[usize], due: &[i32]) -> bool {
    if marks.len() != due.len() {
        return false;
    }
    for (mark, number) in marks.iter().zip(due) {
        if *mark != number.unsigned_abs() as usize {
            return false;
        }
    }
    true
}

/// Whether a code-block is coded as its row says.
fn is_due(coded: &CodedBlock, row: &Row) -> bool {
    coded.planes as u64 == row.planes
        && coded.passes == row.marks.len()
        && coded.bytes.as_slice() == row.bytes.as_slice()
        && are_marks(&coded.marks, &row.marks)
}

/// What segments mean, by so many workers.
fn read<R: Threads + Sync, G: Gate + Sync>(
    rt: &R,
    alloc: Global,
    workers: usize,
    gate: &G,
    jobs: &[Segment],
) -> Result<Vec<Block>, Fault>
    requires { All IsCodedSegment jobs.now }
{
    map_segments(rt, alloc, workers, gate, jobs)
}

/// Blocks have one coefficient each.
fn have(rt: &impl Abort, workers: usize, blocks: &[Block], due: &[i32]) {
    equal_at(workers, blocks.len(), due.len()).expect(rt, "code-blocks");
    for (block, value) in blocks.iter().zip(due) {
        let values = block.values.as_slice();
        equal_at(workers, values, [*value].as_slice()).expect(rt, "a coefficient");
    }
}

/// `03` means 1 and `07` means -1, by one thread, two and five.
#[test]
fn one_coefficient_each(rt: HostRuntime) {
    let jobs = segments(&rt, rt.alloc(), &[("03", 1), ("07", 1), ("03", 1)]);
    for workers in [1, 2, 5, 64] {
        let blocks = read(&rt, rt.alloc(), workers, &Open, &jobs);
        have(
            &rt,
            workers,
            &blocks.expect(&rt, "code-blocks"),
            &[1, -1, 1],
        );
    }
}

/// Segments have a fault, by one thread, two and five.
fn refused<R: Threads + Sync + Abort>(rt: &R, alloc: Global, jobs: &[Segment], fault: Fault)
    requires { All IsCodedSegment jobs.now }
{
    for workers in [1, 2, 5] {
        let found = read(rt, alloc, workers, &Open, jobs).err();
        equal_at(workers, found, Some(fault)).expect(rt, "a fault");
    }
}

/// The fault of the first job that has one: a code value outside the interval, and behind it a
/// block of more passes than its one bit-plane has.
#[test]
fn fault_of_the_least_job(rt: HostRuntime) {
    let jobs = segments(&rt, rt.alloc(), &[("FF8F", 1), ("03", 2)]);
    refused(&rt, rt.alloc(), &jobs, Fault::CodeOutOfInterval);
    let turned = segments(&rt, rt.alloc(), &[("03", 2), ("FF8F", 1)]);
    refused(&rt, rt.alloc(), &turned, Fault::TooManyPasses);
}

/// The same segments, each ended by a segmentation symbol.
fn marked(rt: &impl Abort, alloc: Global, texts: &[(&str, usize)]) -> Vec<Segment>
    ensures { All IsCodedSegment result.items }
{
    let style = Style {
        reset: false,
        causal: false,
        segments: true,
    };
    segments_in(rt, alloc, style, texts)
}

/// A segmentation symbol that isn't the one due is the fault of its job, unless one before it has
/// another.
#[test]
fn symbols_of_each_job(rt: HostRuntime) {
    let right = marked(&rt, rt.alloc(), &[("01", 1), ("01", 1)]);
    for workers in [1, 2, 5] {
        let blocks = read(&rt, rt.alloc(), workers, &Open, &right);
        have(&rt, workers, &blocks.expect(&rt, "code-blocks"), &[1, 1]);
    }
    let wrong = marked(&rt, rt.alloc(), &[("01", 1), ("03", 1), ("FF8F", 1)]);
    refused(&rt, rt.alloc(), &wrong, Fault::BadValue);
    let turned = marked(&rt, rt.alloc(), &[("FF8F", 1), ("03", 1)]);
    refused(&rt, rt.alloc(), &turned, Fault::CodeOutOfInterval);
}

/// How many code-blocks there are.
const COUNT: usize = 78;

/// How many code-blocks so many workers write as they are due, and how many in all.
fn written<R: Threads + Sync + Abort, G: Gate + Sync>(
    rt: &R,
    alloc: Global,
    workers: usize,
    gate: &G,
) -> (usize, usize) {
    let coded = map_blocks(rt, alloc, workers, gate, &blocks(rt, alloc));
    let coded = coded.expect(rt, "code-blocks");
    let mut right: usize = 0;
    for (one, line) in coded.iter().zip(BLOCKS.split('\n')) {
        if is_due(one, &row_of(rt, alloc, line)) {
            right = right.saturating_add(1);
        }
    }
    (right, coded.len())
}

/// What is written by one thread, two and five, bytes and marks.
#[test]
fn blocks_written(rt: HostRuntime) {
    for workers in [1, 2, 5] {
        let found = written(&rt, rt.alloc(), workers, &Open);
        equal_at(workers, found, (COUNT, COUNT)).expect(&rt, "code-blocks");
    }
}

/// So many workers are refused.
fn too_many_or_none<R: Threads + Sync + Abort>(rt: &R, alloc: Global, workers: usize) {
    let due = Some(Fault::BadParameters);
    let read = map_segments(rt, alloc, workers, &Open, &[]).err();
    equal_at(workers, read, due).expect(rt, "segments");
    let written = map_blocks(rt, alloc, workers, &Open, &[]).err();
    equal_at(workers, written, due).expect(rt, "code-blocks");
}

/// No worker, and one more than 64.
#[test]
fn workers_out_of_range(rt: HostRuntime) {
    too_many_or_none(&rt, rt.alloc(), 0);
    too_many_or_none(&rt, rt.alloc(), 65);
    let none = map_segments(&rt, rt.alloc(), 2, &Open, &[]);
    equal(none.expect(&rt, "no segment").len(), 0).expect(&rt, "code-blocks");
}

/// A gate for so many jobs.
fn gate_for(rt: &impl Abort, alloc: Global, jobs: usize) -> Held {
    Held {
        meeting: Meeting::new(alloc, jobs).expect(rt, "a gate"),
    }
}

/// So many workers read segments: each is told once when it begins and once when it has ended, and
/// the first one ends only because the second has begun.
#[test]
fn two_are_read_at_a_time(rt: HostRuntime) {
    let jobs = segments(&rt, rt.alloc(), &[("03", 1), ("07", 1), ("03", 1)]);
    for workers in [2, 3] {
        let held = gate_for(&rt, rt.alloc(), 3);
        read(&rt, rt.alloc(), workers, &held, &jobs).expect(&rt, "code-blocks");
        assert!(rt; held.meeting.was_met(1), "{workers}");
    }
}

/// So it is where code-blocks are written, and what is written is the same.
#[test]
fn two_are_written_at_a_time(rt: HostRuntime) {
    for workers in [2, 3] {
        let held = gate_for(&rt, rt.alloc(), COUNT);
        let found = written(&rt, rt.alloc(), workers, &held);
        equal_at(workers, found, (COUNT, COUNT)).expect(&rt, "code-blocks");
        assert!(rt; held.meeting.was_met(1), "{workers}");
    }
}
