//! Decoding on worker threads, with the answer of one thread.

ghost use Rattle.std.specs.Prelude.{◌≡◌, ℕ, ◌≤◌, length, Ok, Err, IfOk};
ghost use Rattle.jk_math.specs.Answer.{Answers};
ghost use Rattle.jk_math.specs.Picture.{Picture};
ghost use Rattle.jk_math.specs.declared.fault.Fault.TheVariants.{BadParameters};
ghost use Rattle.jk_code.specs.Meaning.{Means};
ghost use Rattle.jk_code.specs.MeaningReading.{meaning_at};
ghost use Rattle.jk_code.specs.ReadImages.{IsReadImage};

use crate::keeping::{image_kept, stripe_keeper};
use crate::reading::{ReadImage, read_image};
use crate::rows::ROWS;
use crate::rows_with::all_rows_with;
use crate::team::Team;
use jk_jobs::Gate;
use jk_math::{Fault, Image};
use jk_tile::Workers;
use std::alloc::Global;
use std::marker::Sync;
use std::thread::Threads;

/// The image of a file that is read but for its code-blocks, by its rows, which are kept.
fn kept_picture_with<R: Threads + Sync, G: Gate + Sync>(
    team: &Team<'_, R, G>,
    alloc: Global,
    bytes: &[u8],
    read: &ReadImage,
) -> Result<Image, Fault>
    requires { (d : ℕ) × IsReadImage bytes.now d read.now }
    ensures { (d : ℕ) → IsReadImage bytes.now d read.now → Answers (λ i. i) result (meaning_at bytes.now d) }
{
    let coded = read.coded(bytes);
    let mut kept = stripe_keeper(alloc, &read.area);
    all_rows_with(team, alloc, &coded, ROWS, &mut kept)?;
    image_kept(&read.headers, &read.area, kept)
}

/// The image that a file means, by its rows.
fn kept_meaning_with<R: Threads + Sync, G: Gate + Sync>(
    team: &Team<'_, R, G>,
    alloc: Global,
    bytes: &[u8],
    reduce: u32,
) -> Result<Image, Fault>
    ensures { Answers (λ i. i) result (meaning_at bytes.now reduce) }
{
    let read = read_image(alloc, bytes, reduce)?;
    kept_picture_with(team, alloc, bytes, &read)
}

/// The image that a file means at a reduction, decoded by so many workers side by side as far as
/// threads can be had: what [`decode`](crate::decode) gives, and its first fault.
///
/// The workers decode the code-blocks of some rows while this thread makes the rows before those, and then
/// decodes too. The gate is told of code-blocks, or of several small ones, as jobs; their numbers begin
/// anew with each stripe of rows. A file with a fault in a code-block is judged again, by one thread.
///
/// BadParameters, before all else: less than one worker or more than 64.
pub fn decode_with<R: Threads + Sync, G: Gate + Sync>(
    rt: &R,
    alloc: Global,
    workers: usize,
    gate: &G,
    bytes: &[u8],
    reduce: u32,
) -> Result<Image, Fault>
    ensures range { (1 ≤ workers → workers ≤ 64 → ⊥) → result ≡ Err BadParameters }
    // Which image, or which fault is the first.
    ensures exact { 1 ≤ workers → workers ≤ 64 → Answers (λ i. i) result (meaning_at bytes.now reduce) }
    // What is given is what the file means.
    ensures found { IfOk result (λ i. Means bytes.now reduce i) }
    // What a file means is given.
    ensures only { 1 ≤ workers → workers ≤ 64 → (p : Picture) → Means bytes.now reduce p
        → Answers (λ i. i) result (Ok p) }
{
    if workers < 1 || 64 < workers {
        return Err(Fault::BadParameters);
    }
    let workers = Workers { rt, count: workers };
    let team = Team {
        workers: &workers,
        gate,
    };
    kept_meaning_with(&team, alloc, bytes, reduce)
}
