//! Code-blocks that workers code side by side, before the rows of code-blocks are coded in which they
//! stand. What was coded of one is taken for another only where both have the same values, so that
//! nothing rests on which of them were coded before.

ghost use Rattle.std.specs.Prelude.{◌≡◌, ◌+◌, ◌<◌, ◌≤◌, ℤ, List, All, IfSome, IfOk, IfErr, length, map, take, drop, reverse};
ghost use Rattle.std.specs.List.{flat_map};
ghost use Rattle.jk_math.specs.Lists.{lists_of};
ghost use Rattle.jk_math.specs.Memory.{IsMemory};
ghost use Rattle.jk_tile.specs.encoding.Ahead.{IsCodable, layered_block, AreUncoded, IsCodedAhead, IsGroup, AreGroupsOf};

use crate::encoding::tables::LayeredBlock;
use crate::workers::Workers;
use jk_block::{Block, code};
use jk_jobs::{Gate, Work, map_jobs, map_jobs_beside};
use jk_math::Fault;
use std::alloc::Global;
use std::marker::Sync;
use std::thread::Threads;

/// How many coefficients the code-blocks of a job have together at most, as far as they are small: as
/// many as the largest code-block has.
const COEFFICIENTS: usize = 4096;

/// Code-blocks that are to be coded and cut into so many layers, and how many rows of them each
/// sub-band has.
#[derive(Drop)]
pub struct UncodedBlocks {
    pub(crate) layers: u16,
    pub(crate) blocks: Vec<Block>,
    pub(crate) rows: Vec<usize>,
}

/// Code-blocks that were coded, what was coded of each, and how many rows of them each sub-band has.
/// The first of each list stands at its end.
#[derive(Drop)]
pub struct CodedBlocks {
    pub(crate) layers: u16,
    pub(crate) blocks: Vec<Block>,
    pub(crate) coded: Vec<LayeredBlock>,
    pub(crate) rows: Vec<usize>,
}

/// A code-block that was coded, and what was coded of it.
#[derive(Drop)]
pub(crate) struct CodedPair {
    pub(crate) block: Block,
    pub(crate) coded: LayeredBlock,
}

/// Code-blocks that are one job: a large one, or several small ones.
#[derive(Clone, Copy)]
pub(crate) struct GroupJob<'a> {
    pub(crate) layers: u16,
    pub(crate) blocks: &'a [Block],
}

/// Each code-block of a group is coded and cut into layers.
impl<'a> Work for GroupJob<'a> {
    ghost use Rattle.jk_tile.specs.encoding.Ahead.{IsGroup, IsGroupCoded};

    type Job = GroupJob<'a>;

    type Done = Vec<LayeredBlock>;

    ghost accepts = { IsGroup };

    ghost gives = { IsGroupCoded };

    fn done(alloc: Global, job: &GroupJob<'a>) -> Result<Vec<LayeredBlock>, Fault> {
        code_group(alloc, job.layers, job.blocks)
    }
}

/// Codes a code-block and cuts it into layers.
pub(crate) fn code_block(alloc: Global, block: &Block, layers: u16) -> Result<LayeredBlock, Fault>
    requires { IsCodable block.now }
    ensures value { IfOk result (λ k. k ≡ layered_block layers block.now) }
    ensures memory { IfErr result IsMemory }
{
    let coded = code(alloc, block)?;
    LayeredBlock::new(alloc, coded, layers)
}

/// Codes code-blocks one after another.
fn code_group(alloc: Global, layers: u16, blocks: &[Block]) -> Result<Vec<LayeredBlock>, Fault>
    requires { All IsCodable blocks.now }
    ensures value { IfOk result (λ v. v.items ≡ map (layered_block layers) blocks.now) }
    ensures memory { IfErr result IsMemory }
{
    let mut coded = Vec::with_capacity(alloc, blocks.len())?;
    for index in 0..blocks.len() {
        coded.push(code_block(alloc, &blocks[index], layers)?)?;
    }
    Ok(coded)
}

/// How many coefficients the code-blocks of a group may have together: no more than the share of each
/// of so many workers, so that few code-blocks are jobs for several.
fn most_of_group(blocks: &[Block], workers: usize) -> usize {
    let mut listed: usize = 0;
    for block in blocks {
        listed = listed.saturating_add(block.values.len());
    }
    COEFFICIENTS.min(listed / workers.max(1))
}

/// How many code-blocks the group has that begins with code-block `from`: one, and those behind it as
/// long as together they have no more than `most` coefficients.
fn group_size(blocks: &[Block], from: usize, most: usize) -> usize
    requires { from < length blocks.now }
    ensures some { 0 < result }
    ensures inside { from + result ≤ length blocks.now }
{
    let mut count = 1;
    let mut held = blocks[from].values.len();
    while count < blocks.len() - from {
        held = held.saturating_add(blocks[from + count].values.len());
        if held > most {
            return count;
        }
        count += 1;
    }
    count
}

/// Some of the code-blocks.
fn part(blocks: &[Block], from: usize, count: usize) -> &[Block]
    requires { from + count ≤ length blocks.now }
    ensures { result.now ≡ take count (drop from blocks.now) }
{
    &blocks[from..from + count]
}

/// The code-blocks in groups for so many workers.
fn groups<'a>(
    alloc: Global,
    layers: u16,
    blocks: &'a [Block],
    workers: usize,
) -> Result<Vec<GroupJob<'a>>, Fault>
    requires { All IsCodable blocks.now }
    ensures groups { IfOk result (λ v. AreGroupsOf layers blocks.now v.items) }
    ensures memory { IfErr result IsMemory }
{
    let most = most_of_group(blocks, workers);
    let mut jobs = Vec::new(alloc);
    let mut from = 0;
    while from < blocks.len() {
        let count = group_size(blocks, from, most);
        jobs.push(GroupJob {
            layers,
            blocks: part(blocks, from, count),
        })?;
        from += count;
    }
    Ok(jobs)
}

/// What was coded of all groups, one behind another, the last one first.
fn joined(
    alloc: Global,
    count: usize,
    lists: Vec<Vec<LayeredBlock>>,
) -> Result<Vec<LayeredBlock>, Fault>
    ensures value { IfOk result (λ v. v.items ≡ reverse (flat_map (λ own. own) (lists_of lists.items))) }
    ensures memory { IfErr result IsMemory }
{
    let mut coded = Vec::with_capacity(alloc, count)?;
    for list in lists {
        let mut own = list;
        coded.append(&mut own)?;
    }
    coded.reverse();
    Ok(coded)
}

/// What is coded of code-blocks side by side by workers, the last one first.
fn coded_lists<R: Threads + Sync, G: Gate + Sync>(
    workers: &Workers<'_, R>,
    alloc: Global,
    gate: &G,
    layers: u16,
    blocks: &[Block],
) -> Result<Vec<LayeredBlock>, Fault>
    requires { All IsCodable blocks.now }
    ensures { IfOk result (λ v. v.items ≡ reverse (map (layered_block layers) blocks.now)) }
{
    let jobs = groups(alloc, layers, blocks, workers.count)?;
    let lists = map_jobs::<GroupJob<'_>, R, G>(workers.rt, alloc, workers.count, gate, &jobs)?;
    joined(alloc, blocks.len(), lists)
}

/// Code-blocks with what was coded of them, the last one first; none, where that was refused memory.
fn with_coded(
    alloc: Global,
    uncoded: UncodedBlocks,
    coded: Result<Vec<LayeredBlock>, Fault>,
) -> CodedBlocks
    requires { IfOk coded (λ v. v.items ≡ reverse (map (layered_block uncoded.layers) uncoded.blocks.items)) }
    ensures { IsCodedAhead result }
{
    let layers = uncoded.layers;
    let mut rows = uncoded.rows;
    rows.reverse();
    match coded {
        Ok(coded) => {
            let mut blocks = uncoded.blocks;
            blocks.reverse();
            CodedBlocks {
                layers,
                blocks,
                coded,
                rows,
            }
        }
        Err(_) => CodedBlocks {
            layers,
            blocks: Vec::new(alloc),
            coded: Vec::new(alloc),
            rows,
        },
    }
}

/// Codes code-blocks side by side by workers. Where memory is refused none is coded, which then are
/// coded with their rows.
///
/// `gate` is told of each job, when it begins and when it has ended: of each code-block, or of some
/// small ones together.
pub fn code_blocks<R: Threads + Sync, G: Gate + Sync>(
    workers: &Workers<'_, R>,
    alloc: Global,
    gate: &G,
    uncoded: UncodedBlocks,
) -> CodedBlocks
    requires { AreUncoded uncoded }
    ensures { IsCodedAhead result }
{
    let coded = coded_lists::<R, G>(workers, alloc, gate, uncoded.layers, &uncoded.blocks);
    with_coded(alloc, uncoded, coded)
}

/// What is coded of code-blocks side by side by workers beside `here`, the last one first, and what
/// that gives.
fn coded_beside<R: Threads + Sync, G: Gate + Sync, H: FnMut() -> T, T>(
    workers: &Workers<'_, R>,
    alloc: Global,
    gate: &G,
    layers: u16,
    blocks: &[Block],
    here: &mut H,
) -> (Result<Vec<LayeredBlock>, Fault>, T)
    requires blocks { All IsCodable blocks.now }
    requires here { H.pre here.old }
    ensures coded { IfOk result.0 (λ v. v.items ≡ reverse (map (layered_block layers) blocks.now)) }
    ensures here { H.step here.old result.1 here.new }
{
    let jobs = match groups(alloc, layers, blocks, workers.count) {
        Ok(jobs) => jobs,
        Err(fault) => return (Err(fault), here()),
    };
    let (lists, given) = map_jobs_beside::<GroupJob<'_>, R, G, H, T>(
        workers.rt,
        alloc,
        workers.count,
        gate,
        &jobs,
        here,
    );
    match lists {
        Ok(lists) => (joined(alloc, blocks.len(), lists), given),
        Err(fault) => (Err(fault), given),
    }
}

/// What [`code_blocks`] gives, and what `here` does and gives meanwhile in the thread that calls, which
/// codes too when it has done that.
pub fn code_blocks_beside<R: Threads + Sync, G: Gate + Sync, H: FnMut() -> T, T>(
    workers: &Workers<'_, R>,
    alloc: Global,
    gate: &G,
    uncoded: UncodedBlocks,
    here: &mut H,
) -> (CodedBlocks, T)
    requires uncoded { AreUncoded uncoded }
    requires here { H.pre here.old }
    ensures coded { IsCodedAhead result.0 }
    ensures here { H.step here.old result.1 here.new }
{
    let (layers, blocks) = (uncoded.layers, &uncoded.blocks);
    let (coded, given) = coded_beside::<R, G, H, T>(workers, alloc, gate, layers, blocks, here);
    (with_coded(alloc, uncoded, coded), given)
}

impl UncodedBlocks {
    /// No code-block, for so many layers.
    pub fn new(alloc: Global, layers: u16) -> UncodedBlocks
        ensures { AreUncoded result }
    {
        UncodedBlocks {
            layers,
            blocks: Vec::new(alloc),
            rows: Vec::new(alloc),
        }
    }

    /// How many rows of code-blocks are listed of each sub-band.
    pub fn counts(&self, alloc: Global) -> Result<Vec<usize>, Fault>
        ensures { IfErr result IsMemory }
    {
        let mut counts = Vec::new(alloc);
        counts.extend_from_slice(&self.rows)?;
        Ok(counts)
    }

    /// How many rows of code-blocks the next sub-band has in a list of such numbers.
    pub(crate) fn next_of(&self, counts: &[usize]) -> usize {
        let index = self.rows.len();
        if index < counts.len() {
            return counts[index];
        }
        0
    }
}

impl CodedBlocks {
    /// No code-block.
    pub fn none(alloc: Global) -> CodedBlocks
        ensures { IsCodedAhead result }
    {
        CodedBlocks {
            layers: 0,
            blocks: Vec::new(alloc),
            coded: Vec::new(alloc),
            rows: Vec::new(alloc),
        }
    }

    /// How many rows of code-blocks the next sub-band has.
    pub(crate) fn next_rows(&mut self) -> usize
        requires ahead { IsCodedAhead self.old }
        ensures ahead { IsCodedAhead self.new }
    {
        self.rows.pop().unwrap_or(0)
    }

    /// The next code-block, and what was coded of it, if that was cut into so many layers.
    pub(crate) fn next_in(&mut self, layers: u16) -> Option<CodedPair>
        requires ahead { IsCodedAhead self.old }
        ensures ahead { IsCodedAhead self.new }
        ensures value { IfSome result (λ p. p.coded ≡ layered_block layers p.block) }
    {
        let (Some(block), Some(coded)) = (self.blocks.pop(), self.coded.pop()) else {
            return None;
        };
        if self.layers != layers {
            return None;
        }
        Some(CodedPair { block, coded })
    }
}
