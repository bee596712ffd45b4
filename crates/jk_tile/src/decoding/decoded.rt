//! Code-blocks that are decoded side by side by workers, before the parts that are made of them.

ghost use Rattle.std.specs.Prelude.{◌≡◌, ℕ, List, ◌<◌, ◌≤◌, All, IsTrue, IfSome, IfOk, IfErr, length};
ghost use Rattle.jk_math.specs.Memory.{IsMemory};
ghost use Rattle.jk_tile.specs.decoding.Decoded.{AreDecoded, IsDecoded, AreBlocksOf, IsDecodedAs, IsBlockSegment, IsJobOf};

use crate::decoding::block::read_block;
use crate::decoding::bodies::BodyPlace;
use crate::workers::Workers;
use jk_block::BlockShape;
use jk_jobs::{Gate, Work, map_jobs, map_jobs_beside};
use jk_math::Fault;
use std::alloc::Global;
use std::collections::BTreeMap;
use std::marker::Sync;
use std::thread::Threads;

/// A code-block that is to be decoded: its shape, the bit-planes of its sub-band, and its bodies in
/// the codestream.
#[derive(Drop)]
pub struct BlockSegment {
    pub(crate) shape: BlockShape,
    pub(crate) planes: u32,
    pub(crate) bodies: Vec<BodyPlace>,
}

/// The least number of coefficients that the code-blocks of a job have, where there are so many.
const JOB_COEFFICIENTS: usize = 1024;

/// The codestream and code-blocks of it: one, or several small ones.
#[derive(Clone, Copy)]
pub(crate) struct SegmentJob<'a> {
    pub(crate) bytes: &'a [u8],
    pub(crate) segments: &'a [BlockSegment],
}

/// A code-block that was decoded: of which shape, in a sub-band of how many bit-planes, from which
/// bodies; and its coefficients, row by row.
#[derive(Drop)]
pub(crate) struct DecodedBlock {
    pub(crate) shape: BlockShape,
    pub(crate) planes: u32,
    pub(crate) bodies: Vec<BodyPlace>,
    pub(crate) values: Vec<i32>,
}

/// Code-blocks that were decoded, which are found by where their bytes begin in the codestream.
#[derive(Drop)]
pub struct DecodedBlocks {
    pub(crate) blocks: Vec<DecodedBlock>,
    by_start: BTreeMap<usize, usize>,
}

/// Code-blocks are decoded, one after another.
impl<'a> Work for SegmentJob<'a> {
    ghost use Rattle.jk_tile.specs.decoding.Decoded.{IsSegmentJob, AreDecodedFrom};

    type Job = SegmentJob<'a>;

    type Done = Vec<DecodedBlock>;

    ghost accepts = { IsSegmentJob };

    ghost gives = { AreDecodedFrom };

    fn done(alloc: Global, job: &SegmentJob<'a>) -> Result<Vec<DecodedBlock>, Fault> {
        decode_all(alloc, job.bytes, job.segments)
    }
}

/// Decodes a code-block; `joined` is room for its segment.
fn decode_segment(
    alloc: Global,
    bytes: &[u8],
    segment: &BlockSegment,
    joined: &mut Vec<u8>,
) -> Result<DecodedBlock, Fault>
    requires { IsBlockSegment (length bytes.now) segment.now }
    ensures { IfOk result (IsDecoded bytes.now) }
{
    let (shape, planes) = (segment.shape, segment.planes);
    let bodies = segment.bodies.to_vec(alloc)?;
    let block = read_block(alloc, bytes, &bodies, shape, planes, joined)?;
    Ok(DecodedBlock {
        shape,
        planes,
        bodies,
        values: block.values,
    })
}

/// Decodes code-blocks, one after another.
fn decode_all(
    alloc: Global,
    bytes: &[u8],
    segments: &[BlockSegment],
) -> Result<Vec<DecodedBlock>, Fault>
    requires { All (IsBlockSegment (length bytes.now)) segments.now }
    ensures { IfOk result (AreBlocksOf bytes.now) }
{
    let mut blocks = Vec::with_capacity(alloc, segments.len())?;
    let mut joined = Vec::new(alloc);
    for index in 0..segments.len() {
        blocks.push(decode_segment(alloc, bytes, &segments[index], &mut joined)?)?;
    }
    Ok(blocks)
}

/// Whether two bodies are the same.
fn is_same(one: &BodyPlace, other: &BodyPlace) -> bool
    ensures { IsTrue result → one.now ≡ other.now }
{
    one == other
}

/// Whether bodies are the same.
fn are_same(one: &[BodyPlace], other: &[BodyPlace]) -> bool
    ensures { IsTrue result → one.now ≡ other.now }
{
    if one.len() != other.len() {
        return false;
    }
    for index in 0..one.len() {
        if !is_same(&one[index], &other[index]) {
            return false;
        }
    }
    true
}

/// Whether a block was decoded from these bodies, in this shape and a sub-band of so many
/// bit-planes.
fn is_decoded_from(
    block: &DecodedBlock,
    bodies: &[BodyPlace],
    shape: BlockShape,
    planes: u32,
) -> bool
    ensures bodies { IsTrue result → block.now.bodies.items ≡ bodies.now }
    ensures shape { IsTrue result → block.now.shape ≡ shape }
    ensures planes { IsTrue result → block.now.planes ≡ planes }
{
    block.planes == planes && block.shape == shape && are_same(&block.bodies, bodies)
}

/// How many coefficients a code-block has.
fn coefficients_of(segment: &BlockSegment) -> usize {
    segment.shape.width.saturating_mul(segment.shape.height)
}

/// The end of the code-blocks of a job that begins with code-block `first`, of so many at most.
fn job_end(segments: &[BlockSegment], first: usize, most: usize) -> usize
    requires { first < length segments.now }
    ensures more { first < result }
    ensures to { result ≤ length segments.now }
{
    let mut coefficients = coefficients_of(&segments[first]);
    let mut end = first + 1;
    while end < segments.len() && coefficients < JOB_COEFFICIENTS && end - first < most {
        coefficients = coefficients.saturating_add(coefficients_of(&segments[end]));
        end += 1;
    }
    end
}

/// Jobs of the code-blocks of a codestream: as many at least as there are workers, where there are as
/// many code-blocks.
fn jobs_of<'a>(
    alloc: Global,
    bytes: &'a [u8],
    segments: &'a [BlockSegment],
    workers: usize,
) -> Result<Vec<SegmentJob<'a>>, Fault>
    requires code_blocks { All (IsBlockSegment (length bytes.now)) segments.now }
    requires some { 1 ≤ workers }
    ensures jobs { IfOk result (λ v. All (IsJobOf bytes.now) v.items) }
    ensures memory { IfErr result IsMemory }
{
    let most = segments.len() / workers;
    let mut jobs = Vec::new(alloc);
    let mut first = 0;
    while first < segments.len() {
        let end = job_end(segments, first, most);
        jobs.push(SegmentJob {
            bytes,
            segments: &segments[first..end],
        })?;
        first = end;
    }
    Ok(jobs)
}

/// The code-blocks of all jobs.
fn all_blocks(alloc: Global, groups: Vec<Vec<DecodedBlock>>) -> Result<Vec<DecodedBlock>, Fault>
    ensures decoded { (bytes : List ℕ) → All (AreBlocksOf bytes) groups.items
        → IfOk result (AreBlocksOf bytes) }
    ensures memory { IfErr result IsMemory }
{
    let mut blocks = Vec::new(alloc);
    for mut group in groups {
        blocks.append(&mut group)?;
    }
    Ok(blocks)
}

/// Code-blocks that were decoded, by where their bytes begin.
fn by_start(alloc: Global, blocks: Vec<DecodedBlock>) -> Result<DecodedBlocks, Fault>
    ensures blocks { IfOk result (λ d. d.blocks.items ≡ blocks.items) }
    ensures memory { IfErr result IsMemory }
{
    let mut by_start = BTreeMap::new(alloc);
    for index in 0..blocks.len() {
        if let Some(body) = blocks[index].bodies.first() {
            by_start.insert(body.start, index)?;
        }
    }
    Ok(DecodedBlocks { blocks, by_start })
}

/// Decodes code-blocks of a codestream, side by side by workers. The fault of one of them is answered.
///
/// `gate` is told of each code-block of at least 1,024 coefficients, when it begins and when it has
/// ended; of smaller ones that stand one behind another it is told of as many at once, or of fewer, so
/// that each worker has some.
pub fn decode_segments<R: Threads + Sync, G: Gate + Sync>(
    workers: &Workers<'_, R>,
    alloc: Global,
    gate: &G,
    bytes: &[u8],
    segments: &[BlockSegment],
) -> Result<DecodedBlocks, Fault>
    requires segments { All (IsBlockSegment (length bytes.now)) segments.now }
    ensures { IfOk result (AreDecoded bytes.now) }
{
    let jobs = jobs_of(alloc, bytes, segments, workers.count)?;
    let groups = map_jobs::<SegmentJob<'_>, R, G>(workers.rt, alloc, workers.count, gate, &jobs)?;
    by_start(alloc, all_blocks(alloc, groups)?)
}

/// The code-blocks of what jobs gave, by where their bytes begin; none, where one of them has a fault or
/// memory is refused.
fn blocks_of(alloc: Global, groups: Result<Vec<Vec<DecodedBlock>>, Fault>) -> DecodedBlocks
    ensures { (bytes : List ℕ) → IfOk groups (λ v. All (AreBlocksOf bytes) v.items) → AreDecoded bytes result }
{
    let Ok(groups) = groups else {
        return DecodedBlocks::none(alloc);
    };
    let Ok(blocks) = all_blocks(alloc, groups) else {
        return DecodedBlocks::none(alloc);
    };
    match by_start(alloc, blocks) {
        Ok(decoded) => decoded,
        Err(_) => DecodedBlocks::none(alloc),
    }
}

/// What [`decode_segments`] gives, none where it has a fault or memory is refused, and what `here` does
/// and gives meanwhile in the thread that calls, which decodes too when it has done that.
pub fn decode_segments_beside<R: Threads + Sync, G: Gate + Sync, H: FnMut() -> T, T>(
    workers: &Workers<'_, R>,
    alloc: Global,
    gate: &G,
    bytes: &[u8],
    segments: &[BlockSegment],
    here: &mut H,
) -> (DecodedBlocks, T)
    requires segments { All (IsBlockSegment (length bytes.now)) segments.now }
    requires here { H.pre here.old }
    ensures decoded { AreDecoded bytes.now result.0 }
    ensures here { H.step here.old result.1 here.new }
{
    let jobs = match jobs_of(alloc, bytes, segments, workers.count) {
        Ok(jobs) => jobs,
        Err(_) => return (DecodedBlocks::none(alloc), here()),
    };
    let (groups, given) = map_jobs_beside::<SegmentJob<'_>, R, G, H, T>(
        workers.rt,
        alloc,
        workers.count,
        gate,
        &jobs,
        here,
    );
    (blocks_of(alloc, groups), given)
}

impl DecodedBlocks {
    /// No block.
    pub fn none(alloc: Global) -> DecodedBlocks
        ensures { (bytes : List ℕ) → AreDecoded bytes result }
    {
        DecodedBlocks {
            blocks: Vec::new(alloc),
            by_start: BTreeMap::new(alloc),
        }
    }

    /// The coefficients of a code-block that was decoded from these bodies, if one was.
    pub(crate) fn find(
        &self,
        bodies: &[BodyPlace],
        shape: BlockShape,
        planes: u32,
    ) -> Option<&[i32]>
        ensures { (bytes : List ℕ) → AreDecoded bytes self.now
            → IfSome result (λ v. IsDecodedAs bytes shape planes bodies.now v.now) }
    {
        let start = bodies.first()?.start;
        let index = *self.by_start.get(&start)?;
        let block = self.blocks.get(index)?;
        if is_decoded_from(block, bodies, shape, planes) {
            Some(&block.values)
        } else {
            None
        }
    }
}
