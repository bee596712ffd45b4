//! Code-blocks written on worker threads.

ghost use Rattle.std.specs.Prelude.{◌≡◌, ℕ, ◌≤◌, ◌<◌, map, All, Err, IfOk, IfErr};
ghost use Rattle.std.specs.List.{AllZip};
ghost use Rattle.jk_math.specs.Memory.{IsMemory};
ghost use Rattle.jk_math.specs.declared.fault.Fault.TheVariants.{BadParameters};
ghost use Rattle.jk_farm.specs.Blocks.{IsBlock, IsCodedAs};

use jk_block::{Block, CodedBlock, code};
use jk_jobs::{Gate, Work, map_jobs};
use jk_math::Fault;
use std::alloc::Global;
use std::thread::Threads;

/// Blocks are written.
struct Writing;

impl Work for Writing {
    ghost use Rattle.jk_farm.specs.Blocks.{IsBlock, IsWritten};

    type Job = Block;

    type Done = CodedBlock;

    ghost accepts = { IsBlock };

    ghost gives = { IsWritten };

    fn done(alloc: Global, job: &Block) -> Result<CodedBlock, Fault> {
        code(alloc, job)
    }
}

/// Code-blocks, each coded with all its passes (T.800 Annex D), side by side by so many workers:
/// what one thread writes.
///
/// [`Fault::BadParameters`], before all else: less than one worker or more than 64.
pub fn map_blocks<R: Threads + Sync, G: Gate + Sync>(
    rt: &R,
    alloc: Global,
    workers: usize,
    gate: &G,
    blocks: &[Block],
) -> Result<Vec<CodedBlock>, Fault>
    requires blocks { All IsBlock blocks.now }
    ensures range { (1 ≤ workers → workers ≤ 64 → ⊥) → result ≡ Err BadParameters }
    ensures exact { IfOk result (λ v. AllZip IsCodedAs blocks.now v.items) }
    ensures memory { 1 ≤ workers → workers ≤ 64 → IfErr result IsMemory }
{
    map_jobs::<Writing, R, G>(rt, alloc, workers, gate, blocks)
}
