//! The tiles of an image whose rows come, with workers: they code the code-blocks of the rows before
//! while this thread keeps what was coded last, takes the next rows and lists their code-blocks, and then
//! codes too.

ghost use Rattle.std.specs.Prelude.{◌≡◌, ◌≤◌, ◌⊎◌, IfOk, IfErr, OnOk};
ghost use Rattle.jk_math.specs.Memory.{IsMemory};
ghost use Rattle.jk_math.specs.Picture.{Picture};
ghost use Rattle.jk_tile.specs.encoding.Ahead.{AreUncoded, IsCodedAhead};
ghost use Rattle.jk_code.specs.RowsWritten.{WereAllGiven, HasMetBefore};
ghost use Rattle.jk_code.specs.ComingRows.{IsComing, tiles_coming, AreFallen, AreCoded};
ghost use Rattle.jk_code.specs.ComingWalks.{IsComingWalk, WalksOn, IsBeforeStep, IsStepDone};
ghost use Rattle.jk_code.specs.TeamWork.{IsTeamWork};

use crate::coming::{ComingImage, component_at, give_next};
use crate::coming_walk::{ComingWalk, go_on, walk_from};
use crate::encoding_rows::RowSupply;
use crate::team::Team;
use jk_jobs::Gate;
use jk_math::Fault;
use jk_tile::{CodedBlocks, FallenTile, UncodedBlocks, When, code_blocks, code_blocks_beside};
use std::alloc::Global;
use std::marker::Sync;
use std::thread::Threads;

/// The code-blocks that workers are to code next, and what they coded of those before and isn't kept yet.
#[derive(Drop)]
struct TeamWork {
    uncoded: UncodedBlocks,
    coded: CodedBlocks,
}

/// No code-block.
fn no_work(alloc: Global, coming: &ComingImage<'_>) -> TeamWork
    ensures { IsTeamWork result }
{
    TeamWork {
        uncoded: UncodedBlocks::new(alloc, coming.parameters.layers),
        coded: CodedBlocks::none(alloc),
    }
}

/// The code-blocks that wait in the tiles of a walk, behind those that were `listed`.
fn list_tiles(
    alloc: Global,
    coming: &ComingImage<'_>,
    walk: &ComingWalk,
    listed: &[usize],
) -> Result<UncodedBlocks, Fault>
    requires coming { IsComing coming.now }
    requires walk { IsComingWalk coming.now walk.now }
    ensures uncoded { IfOk result AreUncoded }
    ensures memory { IfErr result IsMemory }
{
    let first = walk.fallen.len();
    let mut uncoded = UncodedBlocks::new(alloc, coming.parameters.layers);
    for k in 0..walk.tiles.len() {
        let source = component_at(coming, first + k);
        walk.tiles[k].list_waiting(alloc, &source, listed, &mut uncoded)?;
    }
    Ok(uncoded)
}

/// Codes the code-blocks that were listed of the tiles of a walk.
fn code_tiles(
    alloc: Global,
    coming: &ComingImage<'_>,
    walk: &mut ComingWalk,
    ahead: &mut CodedBlocks,
) -> Result<(), Fault>
    requires coming { IsComing coming.now }
    requires walk { IsComingWalk coming.now walk.old }
    requires ahead { IsCodedAhead ahead.old }
    ensures walk { OnOk result (WalksOn coming.now walk.old walk.new) }
    ensures end { OnOk result (walk.new.end ≡ walk.old.end) }
    ensures memory { IfErr result IsMemory }
{
    let first = walk.fallen.len();
    for k in 0..walk.tiles.len() {
        let source = component_at(coming, first + k);
        walk.tiles[k].code_listed(alloc, &source, ahead)?;
    }
    Ok(())
}

/// Keeps of the tiles of a walk what was coded ahead, takes their next stripe of rows, and lists the
/// code-blocks that wait then behind those that were `listed` before.
fn take_next<S: RowSupply>(
    alloc: Global,
    coming: &ComingImage<'_>,
    walk: &mut ComingWalk,
    ahead: &mut CodedBlocks,
    listed: &[usize],
    supply: &mut S,
) -> Result<UncodedBlocks, Fault>
    requires coming { IsComing coming.now }
    requires before { IsBeforeStep S.framed S.next S.gave coming.now supply.old walk.old }
    requires ahead { IsCodedAhead ahead.old }
    ensures uncoded { IfOk result AreUncoded }
    ensures step { OnOk result (IsStepDone S.framed S.next S.gave coming.now supply.old supply.new walk.old walk.new) }
    ensures err { IfErr result (λ e. IsMemory e ⊎ S.met supply.old e supply.new) }
{
    code_tiles(alloc, coming, walk, ahead)?;
    give_next(alloc, coming, walk, When::Later, supply)?;
    list_tiles(alloc, coming, walk, listed)
}

/// Takes the next stripe of rows of a walk, while workers code the code-blocks of the one before; this
/// thread keeps what was coded of the one before that, takes the rows, and then codes too.
fn give_next_with<R: Threads + Sync, G: Gate + Sync, S: RowSupply>(
    team: &Team<'_, R, G>,
    alloc: Global,
    coming: &ComingImage<'_>,
    walk: &mut ComingWalk,
    work: TeamWork,
    supply: &mut S,
) -> Result<TeamWork, Fault>
    requires coming { IsComing coming.now }
    requires before { IsBeforeStep S.framed S.next S.gave coming.now supply.old walk.old }
    requires work { IsTeamWork work }
    ensures work { IfOk result IsTeamWork }
    ensures step { OnOk result (IsStepDone S.framed S.next S.gave coming.now supply.old supply.new walk.old walk.new) }
    ensures err { IfErr result (λ e. IsMemory e ⊎ S.met supply.old e supply.new) }
{
    let listed = work.uncoded.counts(alloc)?;
    let mut ahead = work.coded;
    let mut here = || -> Result<UncodedBlocks, Fault>
        requires coming { IsComing coming.now }
        requires before { IsBeforeStep S.framed S.next S.gave coming.now supply.now walk.now }
        requires ahead { IsCodedAhead ahead }
        ensures uncoded { IfOk result AreUncoded }
        ensures step { OnOk result (IsStepDone S.framed S.next S.gave coming.entry.now supply.entry.now supply.exit.now
            walk.entry.now walk.exit.now) }
        ensures err { IfErr result (λ e. IsMemory e ⊎ S.met supply.entry.now e supply.exit.now) }
    { take_next(alloc, coming, walk, &mut ahead, &listed, supply) };
    let (coded, given) = code_blocks_beside::<R, G, _, _>(
        team.workers,
        alloc,
        team.gate,
        work.uncoded,
        &mut here,
    );
    Ok(TeamWork {
        uncoded: given?,
        coded,
    })
}

/// What is left to be coded: nothing behind the last row of a row of tiles, where the code-blocks are
/// coded that wait in the tiles of the walk.
fn end_work<R: Threads + Sync, G: Gate + Sync>(
    team: &Team<'_, R, G>,
    alloc: Global,
    coming: &ComingImage<'_>,
    walk: &mut ComingWalk,
    work: TeamWork,
) -> Result<TeamWork, Fault>
    requires coming { IsComing coming.now }
    requires walk { IsComingWalk coming.now walk.old }
    requires work { IsTeamWork work }
    ensures work { IfOk result IsTeamWork }
    ensures walk { OnOk result (WalksOn coming.now walk.old walk.new) }
    ensures memory { IfErr result IsMemory }
{
    if walk.y < walk.end {
        return Ok(work);
    }
    let mut ahead = work.coded;
    code_tiles(alloc, coming, walk, &mut ahead)?;
    let mut last = code_blocks::<R, G>(team.workers, alloc, team.gate, work.uncoded);
    code_tiles(alloc, coming, walk, &mut last)?;
    Ok(no_work(alloc, coming))
}

/// All tiles of an image, behind their last rows.
pub(crate) fn fallen_tiles_with<R: Threads + Sync, G: Gate + Sync, S: RowSupply>(
    team: &Team<'_, R, G>,
    alloc: Global,
    coming: &ComingImage<'_>,
    step: u32,
    supply: &mut S,
) -> Result<Vec<FallenTile>, Fault>
    requires coming { IsComing coming.now }
    requires step { 1 ≤ step }
    requires framed { S.framed supply.old ≡ coming.now.frame }
    requires first { S.next supply.old ≡ coming.now.frame.y0 }
    ensures fallen { IfOk result (λ v. AreFallen coming.now (tiles_coming coming.now) v.items) }
    ensures given { IfOk result (λ v. (p : Picture) × WereAllGiven S.gave coming.now.frame supply.old supply.new p
        × AreCoded coming.now (tiles_coming coming.now) p v.items) }
    ensures err { IfErr result (λ e. IsMemory e
        ⊎ HasMetBefore S.gave S.met coming.now.frame supply.old supply.new e) }
{
    let mut walk = walk_from(alloc, coming, Vec::new(alloc), coming.frame.y0, step)?;
    let mut work = no_work(alloc, coming);
    while walk.y < walk.end {
        work = give_next_with(team, alloc, coming, &mut walk, work, supply)?;
        work = end_work(team, alloc, coming, &mut walk, work)?;
        walk = go_on(alloc, coming, walk)?;
    }
    Ok(walk.fallen)
}
