//! Decoding row by row with workers: they decode the code-blocks of the next rows while this thread
//! makes the rows before, and then decodes too.

ghost use Rattle.std.specs.Prelude.{◌≡◌, ℕ, ◌+◌, ◌%◌, ◌^◌, ◌<◌, ◌≤◌, ◌⊎◌, length, Ok, Err, IfOk, IfErr, OnOk};
ghost use Rattle.jk_math.specs.Answer.{Answers};
ghost use Rattle.jk_math.specs.Memory.{IsMemory};
ghost use Rattle.jk_math.specs.Picture.{Picture};
ghost use Rattle.jk_marks.specs.Siz.{tile_count, tiles_across};
ghost use Rattle.jk_tile.specs.decoding.Decoded.{AreDecoded, AreSegments};
ghost use Rattle.jk_tile.specs.decoding.TileReading.{tested};
ghost use Rattle.jk_code.specs.Meaning.{Means};
ghost use Rattle.jk_code.specs.MeaningReading.{meaning_at, tiles_tested};
ghost use Rattle.jk_code.specs.Rows.{WereTaken, WereRefused, AreRefused, AreTold, picture_of, HasFaultAt};
ghost use Rattle.jk_code.specs.Rows.{IsTileRow, IsRowWalk, rows_left};

use crate::coded::CodedImage;
use crate::reading::read_image;
use crate::row_walk::{RowWalk, next_end, walk_from};
use crate::rows::{Rows, TileRow, give_next, tile_of, tile_row, tiles_across, told};
use crate::team::Team;
use jk_geom::{reduced, tile};
use jk_jobs::Gate;
use jk_math::Fault;
use jk_tile::{BlockSegment, DecodedBlocks, Workers, decode_segments, decode_segments_beside};
use std::alloc::Global;
use std::marker::Sync;
use std::thread::Threads;

/// The code-blocks of rows `y` up to `end` of a row of tiles.
fn stripe_blocks(
    alloc: Global,
    coded: &CodedImage<'_>,
    row: &TileRow,
    y: u32,
    end: u32,
) -> Result<Vec<BlockSegment>, Fault>
    requires row { (v : ℕ) × IsTileRow coded.now row.now.first (tiles_across coded.now.headers.siz) v row.now }
    requires y { y < 2 ^ 31 }
    requires end { end < 2 ^ 31 }
    ensures segments { IfOk result (λ v. AreSegments (length coded.now.bytes) v.items) }
    ensures memory { IfErr result IsMemory }
{
    let mut segments = Vec::new(alloc);
    for k in 0..tiles_across(coded.headers.siz()) {
        let next = tile_of(coded, row.first + k);
        row.tiles[k].add_blocks(alloc, &next, y, end, &mut segments)?;
    }
    Ok(segments)
}

/// Code-blocks that workers decode side by side; none, where one of them has a fault or memory is
/// refused: then they are decoded when their rows are made, and what they have is told there.
fn decoded_by<R: Threads + Sync, G: Gate + Sync>(
    team: &Team<'_, R, G>,
    alloc: Global,
    bytes: &[u8],
    segments: &[BlockSegment],
) -> DecodedBlocks
    requires { AreSegments (length bytes.now) segments.now }
    ensures { AreDecoded bytes.now result }
{
    match decode_segments::<R, G>(team.workers, alloc, team.gate, bytes, segments) {
        Ok(decoded) => decoded,
        Err(_) => DecodedBlocks::none(alloc),
    }
}

/// The code-blocks of the first rows of a row of tiles, from tile `first` on.
fn first_blocks(
    alloc: Global,
    coded: &CodedImage<'_>,
    first: usize,
    step: u32,
) -> Result<Vec<BlockSegment>, Fault>
    requires step { 1 ≤ step }
    requires begins { first % tiles_across coded.now.headers.siz ≡ 0 }
    requires few { first < tile_count coded.now.headers.siz }
    ensures segments { IfOk result (λ v. AreSegments (length coded.now.bytes) v.items) }
    ensures memory { IfErr result IsMemory }
{
    let row = tile_row(alloc, coded, first, tiles_across(coded.headers.siz()))?;
    let area = reduced(&tile(coded.headers.siz(), first as u32), coded.reduce);
    let end = next_end(area.y0, area.y1, step);
    stripe_blocks(alloc, coded, &row, area.y0, end)
}

/// The code-blocks of the rows behind those that come next: of the same row of tiles, or the first ones
/// of the row of tiles below it.
fn blocks_behind(
    alloc: Global,
    coded: &CodedImage<'_>,
    walk: &RowWalk,
) -> Result<Vec<BlockSegment>, Fault>
    requires walk { IsRowWalk coded.now walk.now }
    requires some { walk.now.row.first < tile_count coded.now.headers.siz }
    ensures segments { IfOk result (λ v. AreSegments (length coded.now.bytes) v.items) }
    ensures memory { IfErr result IsMemory }
{
    if walk.end < walk.area.y1 {
        let behind = next_end(walk.end, walk.area.y1, walk.step);
        return stripe_blocks(alloc, coded, &walk.row, walk.end, behind);
    }
    let first = walk.row.first + tiles_across(coded.headers.siz());
    if first >= coded.headers.tile_count() {
        return Ok(Vec::new(alloc));
    }
    first_blocks(alloc, coded, first, walk.step)
}

/// The code-blocks of the rows that come next: those that were decoded before, or at the first row of the
/// image, of which nothing was, those that workers decode now.
fn decoded_next<R: Threads + Sync, G: Gate + Sync>(
    team: &Team<'_, R, G>,
    alloc: Global,
    coded: &CodedImage<'_>,
    walk: &RowWalk,
    decoded: DecodedBlocks,
) -> Result<DecodedBlocks, Fault>
    requires decoded { AreDecoded coded.now.bytes decoded }
    requires walk { IsRowWalk coded.now walk.now }
    requires some { walk.now.row.first < tile_count coded.now.headers.siz }
    ensures decoded { IfOk result (AreDecoded coded.now.bytes) }
    ensures memory { IfErr result IsMemory }
{
    if 0 < walk.row.first || walk.area.y0 < walk.y {
        return Ok(decoded);
    }
    let segments = stripe_blocks(alloc, coded, &walk.row, walk.y, walk.end)?;
    Ok(decoded_by(team, alloc, coded.bytes, &segments))
}

/// Gives the rows that come next, and beside it has the code-blocks of the rows behind them decoded.
fn give_next_with<R: Threads + Sync, G: Gate + Sync, S: Rows>(
    team: &Team<'_, R, G>,
    alloc: Global,
    coded: &CodedImage<'_>,
    walk: &mut RowWalk,
    decoded: DecodedBlocks,
    rows: &mut S,
) -> Result<DecodedBlocks, Fault>
    requires decoded { AreDecoded coded.now.bytes decoded }
    requires walk { IsRowWalk coded.now walk.old }
    requires some { walk.old.row.first < tile_count coded.now.headers.siz }
    ensures decoded { IfOk result (AreDecoded coded.now.bytes) }
    ensures walk { OnOk result (IsRowWalk coded.now walk.new) }
    ensures down { OnOk result (walk.old.y ≤ walk.new.y) }
    ensures less { OnOk result (rows_left coded.now walk.new < rows_left coded.now walk.old) }
    ensures taken { OnOk result (WereTaken S.took (picture_of coded.now) walk.old.y walk.new.y rows.old rows.new) }
    ensures cause { IfErr result (λ e. IsMemory e
        ⊎ WereRefused S.took S.refused (picture_of coded.now) walk.old.y coded.now.area.y1 rows.old rows.new e ⊎ HasFaultAt coded.now e) }
{
    let decoded = decoded_next(team, alloc, coded, walk, decoded)?;
    let segments = blocks_behind(alloc, coded, walk)?;
    let mut here = || -> Result<(), Fault>
        requires decoded { AreDecoded coded.now.bytes decoded }
        requires walk { IsRowWalk coded.now walk.now }
        requires some { walk.now.row.first < tile_count coded.now.headers.siz }
        ensures walk { OnOk result (IsRowWalk coded.entry.now walk.exit.now) }
        ensures down { OnOk result (walk.entry.now.y ≤ walk.exit.now.y) }
        ensures less { OnOk result (rows_left coded.entry.now walk.exit.now < rows_left coded.entry.now walk.entry.now) }
        ensures taken { OnOk result (WereTaken S.took (picture_of coded.entry.now) walk.entry.now.y walk.exit.now.y
            rows.entry.now rows.exit.now) }
        ensures cause { IfErr result (λ e. IsMemory e ⊎ WereRefused S.took S.refused (picture_of coded.entry.now)
            walk.entry.now.y coded.entry.now.area.y1 rows.entry.now rows.exit.now e ⊎ HasFaultAt coded.entry.now e) }
    { give_next(alloc, coded, walk, &decoded, rows) };
    let (next, given) = decode_segments_beside::<R, G, _, _>(
        team.workers,
        alloc,
        team.gate,
        coded.bytes,
        &segments,
        &mut here,
    );
    given?;
    Ok(next)
}

/// Gives all rows.
fn give_rows_with<R: Threads + Sync, G: Gate + Sync, S: Rows>(
    team: &Team<'_, R, G>,
    alloc: Global,
    coded: &CodedImage<'_>,
    step: u32,
    rows: &mut S,
) -> Result<(), Fault>
    requires step { 1 ≤ step }
    ensures taken { OnOk result (WereTaken S.took (picture_of coded.now) coded.now.area.y0 coded.now.area.y1
        rows.old rows.new) }
    ensures fine { OnOk result (tiles_tested coded.now.bytes coded.now.headers coded.now.reduce
        (tile_count coded.now.headers.siz) ≡ Ok tt) }
    ensures cause { IfErr result (λ e. IsMemory e
        ⊎ WereRefused S.took S.refused (picture_of coded.now) coded.now.area.y0 coded.now.area.y1 rows.old rows.new e ⊎ HasFaultAt coded.now e) }
{
    let mut decoded = DecodedBlocks::none(alloc);
    let mut walk = walk_from(alloc, coded, 0, step)?;
    while walk.row.first < coded.headers.tile_count() {
        decoded = give_next_with(team, alloc, coded, &mut walk, decoded, rows)?;
    }
    Ok(())
}

/// Gives all rows of an image whose packets are read, and tells its first fault.
pub(crate) fn all_rows_with<R: Threads + Sync, G: Gate + Sync, S: Rows>(
    team: &Team<'_, R, G>,
    alloc: Global,
    coded: &CodedImage<'_>,
    step: u32,
    rows: &mut S,
) -> Result<(), Fault>
    requires step { 1 ≤ step }
    ensures exact { AreTold S.took S.refused coded.now rows.old rows.new result }
    ensures taken { OnOk result (WereTaken S.took (picture_of coded.now) coded.now.area.y0 coded.now.area.y1
        rows.old rows.new) }
{
    // What is read of it shows that it is sound.
    let _area = coded.area;
    let given = give_rows_with(team, alloc, coded, step, rows);
    told(alloc, coded, given)
}

/// What [`decode_rows`](crate::decode_rows) gives and tells, with workers who decode the code-blocks of
/// a stripe side by side while the rows of the one before are made and given; `rows` takes them in the
/// thread that calls, which then decodes too. It takes the memory of the code-blocks of two stripes
/// beside those rows.
///
/// `gate` is told of each code-block that the workers decode, when it begins and when it has ended: its
/// number is that among those of its stripe.
pub fn decode_rows_with<R: Threads + Sync, G: Gate + Sync, S: Rows>(
    workers: &Workers<'_, R>,
    alloc: Global,
    gate: &G,
    bytes: &[u8],
    reduce: u32,
    step: u32,
    rows: &mut S,
) -> Result<(), Fault>
    requires step { 1 ≤ step }
    // Which fault is the first, or none; or the rows were refused, of a file that means a picture.
    ensures exact { Answers (λ _. tt) result (tested (meaning_at bytes.now reduce))
        ⊎ AreRefused S.took S.refused (meaning_at bytes.now reduce) rows.old rows.new result }
    // All rows of the picture that the file means were taken.
    ensures taken { OnOk result ((p : Picture) × (meaning_at bytes.now reduce ≡ Ok p) × Means bytes.now reduce p
        × WereTaken S.took p p.y0 (p.y0 + p.height) rows.old rows.new) }
{
    let read = read_image(alloc, bytes, reduce)?;
    let coded = read.coded(bytes);
    let team = Team { workers, gate };
    all_rows_with(&team, alloc, &coded, step, rows)
}
