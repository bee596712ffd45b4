//! Jobs that workers take one after another, and what they give put together in the order of jobs.

ghost use Rattle.std.specs.Prelude.{◌↔◌, IsTrue, ◌≡◌, ◌⊎◌, ℕ, ◌^◌, ◌<◌, ◌≤◌, All, IfOk, IfErr, Ok, Some, Err};
ghost use Rattle.std.specs.Prelude.{MatchResult, Result, None, length, map, slice_index_or, slice_set};
ghost use Rattle.std.specs.Thread.{IsSync, IsSend};
ghost use Rattle.jk_math.specs.Memory.{IsMemory};
ghost use Rattle.jk_math.specs.declared.fault.Fault.{Fault};
ghost use Rattle.jk_math.specs.declared.fault.Fault.TheVariants.{BadParameters};
ghost use Rattle.jk_jobs.specs.Dealing.{AreTaken, AreFilled, AreGiven, IsFirstFault};

use crate::gate::Gate;
use crate::work::Work;
use jk_math::{Fault, Refused};
use std::alloc::Global;
use std::sync::atomic::{AtomicUsize, Ordering};
use std::thread;
use std::thread::{Threads, join_mut};

/// A job that a worker has done: its number, and what it gave.
#[derive(Drop)]
pub(crate) struct Taken<D> {
    pub(crate) job: usize,
    pub(crate) given: Result<D, Fault>,
}

/// What a worker's jobs gave, if it wasn't refused memory.
type Share<D> = Result<Vec<Taken<D>>, Refused>;

/// What a worker's jobs give. It takes the next job that nobody has, until there is none.
fn share<W: Work, G: Gate>(
    alloc: Global,
    gate: &G,
    jobs: &[W::Job],
    next: &AtomicUsize,
) -> Share<W::Done>
    requires jobs { All W.accepts jobs.now }
    ensures taken { IfOk result (λ v. AreTaken W.gives jobs.now v.items) }
{
    let mut all = Vec::new(alloc);
    for _ in 0..jobs.len() {
        let job = next.fetch_add(1, Ordering::SeqCst);
        if job >= jobs.len() {
            break;
        }
        gate.began(job);
        let given = W::done(alloc, &jobs[job]);
        gate.ended(job);
        all.push(Taken { job, given })?;
    }
    Ok(all)
}

/// The shares, if no worker was refused memory.
fn collected<X: Drop>(alloc: Global, shares: Vec<Result<X, Refused>>) -> Result<Vec<X>, Fault>
    ensures shares { IfOk result (λ v. map Ok v.items ≡ shares.items) }
    ensures memory { IfErr result IsMemory }
{
    let mut all = Vec::with_capacity(alloc, shares.len())?;
    for share in shares {
        match share {
            Ok(share) => all.push(share)?,
            Err(refused) => return Err(Fault::Memory(refused)),
        }
    }
    Ok(all)
}

/// A slot for each of so many jobs, all of them empty.
fn empty_slots<D: Drop>(alloc: Global, count: usize) -> Result<Vec<Option<Result<D, Fault>>>, Fault>
    ensures long { IfOk result (λ v. length v.items ≡ count) }
    ensures empty { IfOk result (λ v. (i : ℕ) → slice_index_or v.items i None ≡ None) }
    ensures memory { IfErr result IsMemory }
{
    let mut slots = Vec::with_capacity(alloc, count)?;
    for _ in 0..count {
        slots.push(None)?;
    }
    Ok(slots)
}

/// Puts what a job gave into its slot.
fn put<D: Drop>(slots: &mut Vec<Option<Result<D, Fault>>>, job: usize, given: Result<D, Fault>)
    requires { job < length slots.old.items }
    ensures { slots.new.items ≡ slice_set slots.old.items job (Some given) }
{
    slots[job] = Some(given);
}

/// Puts what a share has into the slots of its jobs.
fn fill<W: Work>(
    jobs: &[W::Job],
    share: Vec<Taken<W::Done>>,
    slots: &mut Vec<Option<Result<W::Done, Fault>>>,
)
    requires taken { AreTaken W.gives jobs.now share.items }
    requires long { length slots.old.items ≡ length jobs.now }
    requires filled { AreFilled W.gives jobs.now slots.old.items }
    ensures long { length slots.new.items ≡ length jobs.now }
    ensures filled { AreFilled W.gives jobs.now slots.new.items }
{
    for taken in share {
        put(slots, taken.job, taken.given);
    }
}

/// What all shares have, in the slots of their jobs.
fn filled<W: Work>(
    alloc: Global,
    jobs: &[W::Job],
    shares: Vec<Vec<Taken<W::Done>>>,
) -> Result<Vec<Option<Result<W::Done, Fault>>>, Fault>
    requires taken { All (λ v. AreTaken W.gives jobs.now v.items) shares.items }
    ensures long { IfOk result (λ v. length v.items ≡ length jobs.now) }
    ensures filled { IfOk result (λ v. AreFilled W.gives jobs.now v.items) }
    ensures memory { IfErr result IsMemory }
{
    let mut slots = empty_slots::<W::Done>(alloc, jobs.len())?;
    for share in shares {
        fill::<W>(jobs, share, &mut slots);
    }
    Ok(slots)
}

/// What a job gives: what stands in its slot, or what it gives when it is done now.
fn given_of<W: Work>(
    alloc: Global,
    job: &W::Job,
    slot: Option<Result<W::Done, Fault>>,
) -> Result<W::Done, Fault>
    requires accepts { W.accepts job.now }
    requires slot { (r : Result W.Done Fault) → slot ≡ Some r → W.gives job.now r }
    ensures { W.gives job.now result }
{
    match slot {
        Some(given) => given,
        None => W::done(alloc, job),
    }
}

/// What all jobs give, in their order, or the fault of the least job that has one. A job whose slot
/// is empty, which no worker has taken, is done now.
fn merged<W: Work>(
    alloc: Global,
    jobs: &[W::Job],
    slots: Vec<Option<Result<W::Done, Fault>>>,
) -> Result<Vec<W::Done>, Fault>
    requires jobs { All W.accepts jobs.now }
    requires long { length slots.items ≡ length jobs.now }
    requires filled { AreFilled W.gives jobs.now slots.items }
    ensures given { MatchResult result (λ v. AreGiven W.gives jobs.now (length jobs.now) v.items)
        (λ e. IsMemory e ⊎ IsFirstFault W.gives jobs.now e) }
{
    let mut all = Vec::with_capacity(alloc, jobs.len())?;
    for slot in slots {
        let job = &jobs[all.len()];
        all.push(given_of::<W>(alloc, job, slot)?)?;
    }
    Ok(all)
}

/// Whether there may be so many workers.
fn are_allowed(workers: usize) -> bool
    ensures { IsTrue result ↔ (1 ≤ workers) × (workers ≤ 64) }
{
    1 <= workers && workers <= 64
}

/// What so many workers' jobs give, side by side as far as threads can be had.
fn shares<W: Work + Sync, R: Threads + Sync, G: Gate + Sync>(
    rt: &R,
    alloc: Global,
    count: usize,
    gate: &G,
    jobs: &[W::Job],
    next: &AtomicUsize,
) -> Result<Vec<Share<W::Done>>, Fault>
    requires count { count ≤ 64 }
    requires jobs { All W.accepts jobs.now }
    ensures taken { IfOk result (λ v. All (λ s. IfOk s (λ w. AreTaken W.gives jobs.now w.items)) v.items) }
    ensures memory { IfErr result IsMemory }
{
    let share_of = |_worker: usize| -> Share<W::Done>
        requires { IsSync G.row × IsSync W.Job.row × IsSend W.Done.row × All W.accepts jobs.now }
        ensures { IfOk result (λ v. AreTaken W.gives jobs.entry.now v.items) }
    { share::<W, G>(alloc, gate, jobs, next) };
    Ok(thread::map_indices(rt, alloc, count, &share_of)?)
}

/// What jobs give, in their order, or the fault of the least job that has one, from what those gave
/// that were taken; the others are done now.
fn gathered<W: Work>(
    alloc: Global,
    jobs: &[W::Job],
    shares: Vec<Share<W::Done>>,
) -> Result<Vec<W::Done>, Fault>
    requires jobs { All W.accepts jobs.now }
    requires taken { All (λ s. IfOk s (λ w. AreTaken W.gives jobs.now w.items)) shares.items }
    ensures given { MatchResult result (λ v. AreGiven W.gives jobs.now (length jobs.now) v.items)
        (λ e. IsMemory e ⊎ IsFirstFault W.gives jobs.now e) }
{
    let slots = filled::<W>(alloc, jobs, collected(alloc, shares)?)?;
    merged::<W>(alloc, jobs, slots)
}

/// What jobs give, in their order, or the fault of the least job that has one. So many workers do
/// them side by side as far as threads can be had, each the next one that nobody has taken.
fn dealt<W: Work + Sync, R: Threads + Sync, G: Gate + Sync>(
    rt: &R,
    alloc: Global,
    workers: usize,
    gate: &G,
    jobs: &[W::Job],
) -> Result<Vec<W::Done>, Fault>
    requires workers { 1 ≤ workers }
    requires few { workers ≤ 64 }
    requires jobs { All W.accepts jobs.now }
    ensures given { MatchResult result (λ v. AreGiven W.gives jobs.now (length jobs.now) v.items)
        (λ e. IsMemory e ⊎ IsFirstFault W.gives jobs.now e) }
{
    let count = workers.min(jobs.len()).max(1);
    let next = AtomicUsize::new(0);
    let shares = shares::<W, R, G>(rt, alloc, count, gate, jobs, &next)?;
    gathered::<W>(alloc, jobs, shares)
}

/// What jobs give, from what the workers' gave and what those of this thread did.
fn gathered_here<W: Work>(
    alloc: Global,
    jobs: &[W::Job],
    shares: Result<Vec<Share<W::Done>>, Fault>,
    own: Share<W::Done>,
) -> Result<Vec<W::Done>, Fault>
    requires jobs { All W.accepts jobs.now }
    requires taken { IfOk shares (λ v. All (λ s. IfOk s (λ w. AreTaken W.gives jobs.now w.items)) v.items) }
    requires memory { IfErr shares IsMemory }
    requires own { IfOk own (λ w. AreTaken W.gives jobs.now w.items) }
    ensures given { MatchResult result (λ v. AreGiven W.gives jobs.now (length jobs.now) v.items)
        (λ e. IsMemory e ⊎ IsFirstFault W.gives jobs.now e) }
{
    let mut all = shares?;
    all.push(own)?;
    gathered::<W>(alloc, jobs, all)
}

/// What jobs give, which workers do beside `here`, and what that gives.
fn dealt_beside<W: Work + Sync, R: Threads + Sync, G: Gate + Sync, H: FnMut() -> T, T>(
    rt: &R,
    alloc: Global,
    workers: usize,
    gate: &G,
    jobs: &[W::Job],
    here: &mut H,
) -> (Result<Vec<W::Done>, Fault>, T)
    requires few { workers ≤ 64 }
    requires jobs { All W.accepts jobs.now }
    requires here { H.pre here.old }
    ensures given { MatchResult result.0 (λ v. AreGiven W.gives jobs.now (length jobs.now) v.items)
        (λ e. IsMemory e ⊎ IsFirstFault W.gives jobs.now e) }
    ensures here { H.step here.old result.1 here.new }
{
    let count = workers.min(jobs.len());
    let next = AtomicUsize::new(0);
    let mut others = || -> Result<Vec<Share<W::Done>>, Fault>
        requires { IsSync R.row × IsSync G.row × IsSync W.Job.row × IsSend W.Done.row × (count ≤ 64) × All W.accepts jobs.now }
        ensures taken { IfOk result (λ v. All (λ s. IfOk s (λ w. AreTaken W.gives jobs.entry.now w.items)) v.items) }
        ensures memory { IfErr result IsMemory }
    { shares::<W, R, G>(rt, alloc, count, gate, jobs, &next) };
    let mut first = || -> (T, Share<W::Done>)
        requires jobs { All W.accepts jobs.now }
        requires here { H.pre here.now }
        ensures here { H.step here.entry.now result.0 here.exit.now }
        ensures own { IfOk result.1 (λ w. AreTaken W.gives jobs.entry.now w.items) }
    {
        let given = here();
        (given, share::<W, G>(alloc, gate, jobs, &next))
    };
    let (shares, (given, own)) = join_mut(rt, &mut others, &mut first);
    (gathered_here::<W>(alloc, jobs, shares, own), given)
}

/// What jobs give, in their order, or the fault of the first job that has one. So many workers do
/// them side by side, as far as threads can be had: each takes the next job that nobody has, so
/// that all end at about the same time, whatever their jobs and processors take.
///
/// [`Fault::BadParameters`], before all else: less than one worker or more than 64.
pub fn map_jobs<W: Work + Sync, R: Threads + Sync, G: Gate + Sync>(
    rt: &R,
    alloc: Global,
    workers: usize,
    gate: &G,
    jobs: &[W::Job],
) -> Result<Vec<W::Done>, Fault>
    requires jobs { All W.accepts jobs.now }
    ensures range { (1 ≤ workers → workers ≤ 64 → ⊥) → result ≡ Err BadParameters }
    ensures given { 1 ≤ workers → workers ≤ 64
        → MatchResult result (λ v. AreGiven W.gives jobs.now (length jobs.now) v.items)
        (λ e. IsMemory e ⊎ IsFirstFault W.gives jobs.now e) }
{
    if !are_allowed(workers) {
        return Err(Fault::BadParameters);
    }
    dealt::<W, R, G>(rt, alloc, workers, gate, jobs)
}

/// What [`map_jobs`] gives, and what `here` does and gives meanwhile in the thread that calls, which
/// takes jobs too when it has done that. Where there is no job no thread is started.
///
/// [`Fault::BadParameters`] in place of what jobs give: less than one worker or more than 64.
pub fn map_jobs_beside<W: Work + Sync, R: Threads + Sync, G: Gate + Sync, H: FnMut() -> T, T>(
    rt: &R,
    alloc: Global,
    workers: usize,
    gate: &G,
    jobs: &[W::Job],
    here: &mut H,
) -> (Result<Vec<W::Done>, Fault>, T)
    requires jobs { All W.accepts jobs.now }
    requires here { H.pre here.old }
    ensures range { (1 ≤ workers → workers ≤ 64 → ⊥) → result.0 ≡ Err BadParameters }
    ensures given { 1 ≤ workers → workers ≤ 64
        → MatchResult result.0 (λ v. AreGiven W.gives jobs.now (length jobs.now) v.items)
        (λ e. IsMemory e ⊎ IsFirstFault W.gives jobs.now e) }
    ensures here { H.step here.old result.1 here.new }
{
    if !are_allowed(workers) {
        return (Err(Fault::BadParameters), here());
    }
    if jobs.is_empty() {
        return (Ok(Vec::new(alloc)), here());
    }
    dealt_beside::<W, R, G, H, T>(rt, alloc, workers, gate, jobs, here)
}
