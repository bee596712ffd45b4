//! Code-blocks read on worker threads.

ghost use Rattle.std.specs.Prelude.{◌≡◌, ℕ, ◌≤◌, ◌<◌, ◌*◌, ◌^◌, map, All, Err, IfOk};
ghost use Rattle.std.specs.List.{AllZip};
ghost use Rattle.jk_math.specs.Answer.{Answers};
ghost use Rattle.jk_math.specs.declared.fault.Fault.TheVariants.{BadParameters};
ghost use Rattle.jk_farm.specs.Blocks.{IsCodedSegment, IsBlockOf, segments_at};

use jk_block::{Block, BlockShape, decode};
use jk_jobs::{Gate, Work, map_jobs};
use jk_math::Fault;
use std::alloc::Global;
use std::thread::Threads;

/// The segment of a code-block (T.800 B.10.7.1), and what its packets say of it.
#[derive(Debug, Drop)]
pub struct Segment {
    /// Its bytes.
    pub bytes: Vec<u8>,
    /// The code-block's shape.
    pub shape: BlockShape,
    /// How many bit-planes it has.
    pub planes: u32,
    /// How many coding passes it has.
    pub passes: usize,
}

/// Segments are read.
struct Reading;

impl Work for Reading {
    ghost use Rattle.jk_farm.specs.Blocks.{IsCodedSegment, IsRead};

    type Job = Segment;

    type Done = Block;

    ghost accepts = { IsCodedSegment };

    ghost gives = { IsRead };

    fn done(alloc: Global, job: &Segment) -> Result<Block, Fault> {
        decode(alloc, &job.bytes, job.shape, job.planes, job.passes)
    }
}

/// The code-blocks of segments, read side by side by so many workers: what one thread reads, with
/// the fault of the first segment that has one ([`Fault::TooManyPasses`],
/// [`Fault::CodeOutOfInterval`], or [`Fault::BadValue`] where another segmentation symbol stands
/// than is due).
///
/// [`Fault::BadParameters`], before all else: less than one worker or more than 64.
pub fn map_segments<R: Threads + Sync, G: Gate + Sync>(
    rt: &R,
    alloc: Global,
    workers: usize,
    gate: &G,
    jobs: &[Segment],
) -> Result<Vec<Block>, Fault>
    requires jobs { All IsCodedSegment jobs.now }
    ensures range { (1 ≤ workers → workers ≤ 64 → ⊥) → result ≡ Err BadParameters }
    ensures exact { 1 ≤ workers → workers ≤ 64
        → Answers (λ v. map (λ b. b.values.items) v.items) result (segments_at jobs.now) }
    ensures sized { IfOk result (λ v. AllZip IsBlockOf jobs.now v.items) }
{
    map_jobs::<Reading, R, G>(rt, alloc, workers, gate, jobs)
}
