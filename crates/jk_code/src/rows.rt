//! Decoding row by row: an image that is never whole in memory.

ghost use Rattle.std.specs.Prelude.{◌≡◌, ℕ, ◌+◌, ◌%◌, ◌^◌, ◌<◌, ◌≤◌, ◌⊎◌, Ok, Err, IfOk, IfErr, OnOk};
ghost use Rattle.jk_math.specs.Answer.{Answers};
ghost use Rattle.jk_math.specs.Memory.{IsMemory};
ghost use Rattle.jk_math.specs.Lists.{lists_of};
ghost use Rattle.jk_math.specs.Picture.{Picture};
ghost use Rattle.jk_marks.specs.Siz.{IsSiz, tile_count, tiles_across};
ghost use Rattle.jk_geom.specs.Rectangles.{IsArea};
ghost use Rattle.jk_tile.specs.decoding.Decoded.{AreDecoded};
ghost use Rattle.jk_tile.specs.decoding.TileReading.{tested};
ghost use Rattle.jk_rows.specs.Components.{IsStepEnd};
ghost use Rattle.jk_code.specs.Meaning.{Means};
ghost use Rattle.jk_code.specs.MeaningReading.{meaning_at, planes_of_tiles, tiles_tested};
ghost use Rattle.jk_code.specs.Rows.{WereTaken, WereRefused, AreRefused, AreTold, fault_of, picture_of, tile_source};
ghost use Rattle.jk_code.specs.Rows.{area_of_tile, part_of_stripe};
ghost use Rattle.jk_code.specs.Sources.{IsImageSource};
ghost use Rattle.jk_code.specs.Rows.{HasFaultAt, IsFineTile, IsTileRow, IsRowWalk, IsTold, rows_left};

use crate::coded::CodedImage;
use crate::decoding::{blank_planes, image_of, put_tile};
use crate::reading::read_image;
use crate::row_walk::{RowWalk, walk_from};
use jk_geom::{reduced, tile};
use jk_marks::Siz;
use jk_math::{Fault, Image, Rect};
use jk_rows::TileRows;
use jk_tile::{CodedTile, DecodedBlocks, judge_tile};
use std::alloc::Global;

/// How many rows are made at a time where no caller says it.
pub(crate) const ROWS: u32 = 64;

/// What takes the rows of an image, one stripe of them below the other.
pub trait Rows {
    ghost use Rattle.jk_math.specs.Picture.{Picture};
    ghost use Rattle.jk_math.specs.declared.fault.Fault.{Fault};

    // It was in the first state, took these rows, and is in the second.
    ghost took: { Self → Picture → Self → Type 0 };

    // It was in the first state, refused these rows with this fault, and is in the second.
    ghost refused: { Self → Picture → Fault → Self → Type 0 };

    /// Takes the next rows, or refuses them, as a full disk does.
    fn take(&mut self, alloc: Global, rows: Image) -> Result<(), Fault>
        ensures took { OnOk result (took self.old rows self.new) }
        ensures cause { IfErr result (λ e. IsMemory e ⊎ refused self.old rows e self.new) };
}

/// How many tiles lie side by side (T.800 B.3, equation B-5).
pub(crate) fn tiles_across(siz: &Siz) -> usize
    requires siz { IsSiz siz.now }
    ensures value { result ≡ tiles_across siz.now }
    ensures some { 1 ≤ result }
{
    let width = siz.tile_width as u64;
    ((siz.x1 as u64 - siz.tile_x0 as u64 + width - 1) / width) as usize
}

/// Tile `number` of an image.
pub(crate) fn tile_of<'a>(coded: &CodedImage<'a>, number: usize) -> CodedTile<'a>
    requires number { number < tile_count coded.now.headers.siz }
    ensures { result ≡ tile_source coded.now number }
{
    let packets = coded.packets;
    CodedTile {
        headers: coded.headers,
        bytes: coded.bytes,
        number,
        packets: &packets[number],
        reduce: coded.reduce,
    }
}

/// The end of the rows of a step from row `y` on: an odd row or the end, up to which each level
/// makes all and nothing more.
pub(crate) fn step_end(y: u32, end: u32, step: u32) -> u32
    requires order { y < end }
    requires end { end < 2 ^ 31 }
    requires step { 1 ≤ step }
    ensures more { y < result }
    ensures to { result ≤ end }
    ensures odd { result < end → result % 2 ≡ 1 }
    ensures inside { result < end → result + 1 < end }
    // So many rows, or one or two more; fewer at the end alone.
    ensures most { result ≤ y + step + 2 }
    ensures least { result < end → y + step ≤ result }
{
    let to = y.saturating_add(step);
    let odd = to - to % 2 + 1;
    if odd >= end - 1 {
        return end;
    }
    odd
}

/// A row of tiles, from tile `first` on, that are made side by side.
#[derive(Drop)]
pub(crate) struct TileRow {
    pub(crate) first: usize,
    pub(crate) tiles: Vec<TileRows>,
}

/// The tiles of a row before their first row.
pub(crate) fn tile_row(
    alloc: Global,
    coded: &CodedImage<'_>,
    first: usize,
    count: usize,
) -> Result<TileRow, Fault>
    requires some { 1 ≤ count }
    requires whole { first + count ≤ tile_count coded.now.headers.siz }
    requires fits { first + count < 2 ^ 64 }
    requires beside { (k : ℕ) → k < count → (area_of_tile coded.now (first + k)).y0 ≡ (area_of_tile coded.now first).y0 }
    ensures row { IfOk result (IsTileRow coded.now first count (area_of_tile coded.now first).y0) }
    ensures err { IfErr result (λ e. IsMemory e) }
{
    let mut tiles = Vec::new(alloc);
    for k in 0..count {
        tiles.push(TileRows::new(alloc, &tile_of(coded, first + k))?)?;
    }
    Ok(TileRow { first, tiles })
}

/// What a stripe of rows has of a tile.
fn part_of_stripe(coded: &CodedImage<'_>, number: usize, stripe: &Rect) -> Rect
    requires number { number < tile_count coded.now.headers.siz }
    ensures { result ≡ part_of_stripe coded.now number stripe.now }
{
    let area = reduced(&tile(coded.headers.siz(), number as u32), coded.reduce);
    Rect {
        x0: area.x0,
        y0: stripe.y0,
        x1: area.x1,
        y1: stripe.y1,
    }
}

/// The planes of a stripe, put together out of those of a row of tiles.
fn placed_planes(
    alloc: Global,
    coded: &CodedImage<'_>,
    row: &mut TileRow,
    stripe: &Rect,
    decoded: &DecodedBlocks,
) -> Result<Vec<Vec<i32>>, Fault>
    requires decoded { AreDecoded coded.now.bytes decoded.now }
    requires row { IsTileRow coded.now row.old.first (tiles_across coded.now.headers.siz) stripe.now.y0 row.old }
    requires first { row.old.first % tiles_across coded.now.headers.siz ≡ 0 }
    requires stripe { IsArea stripe.now }
    requires left { stripe.now.x0 ≡ coded.now.area.x0 }
    requires right { stripe.now.x1 ≡ coded.now.area.x1 }
    requires from { IsStepEnd (area_of_tile coded.now row.old.first) stripe.now.y0 }
    requires to { IsStepEnd (area_of_tile coded.now row.old.first) stripe.now.y1 }
    ensures row { OnOk result (IsTileRow coded.now row.old.first (tiles_across coded.now.headers.siz) stripe.now.y1 row.new) }
    ensures planes { IfOk result (λ v. lists_of v.items
        ≡ planes_of_tiles coded.now.bytes coded.now.headers coded.now.reduce stripe.now) }
    // Behind the last row no code-block of the tiles has a fault.
    ensures fine { stripe.now.y1 ≡ (area_of_tile coded.now row.old.first).y1 → OnOk result
        ((k : ℕ) → k < tiles_across coded.now.headers.siz → IsFineTile coded.now (row.old.first + k)) }
    ensures cause { IfErr result (λ e. IsMemory e ⊎ HasFaultAt coded.now e) }
{
    let headers = coded.headers;
    let mut planes = blank_planes(alloc, headers.siz().components, stripe)?;
    for k in 0..row.tiles.len() {
        let next = tile_of(coded, row.first + k);
        let part = part_of_stripe(coded, row.first + k, stripe);
        let values = row.tiles[k].step_of(alloc, &next, stripe.y0, stripe.y1, decoded)?;
        put_tile(&next, stripe, &part, &values, &mut planes);
    }
    Ok(planes)
}

/// The planes of a stripe that lies in the only tile of a row, and is as wide as the tile: nothing is
/// copied.
fn planes_of_lone(
    alloc: Global,
    coded: &CodedImage<'_>,
    row: &mut TileRow,
    stripe: &Rect,
    decoded: &DecodedBlocks,
) -> Result<Vec<Vec<i32>>, Fault>
    requires source { IsImageSource coded.now }
    requires lone { tiles_across coded.now.headers.siz ≡ 1 }
    requires wide { part_of_stripe coded.now row.old.first stripe.now ≡ stripe.now }
    requires decoded { AreDecoded coded.now.bytes decoded.now }
    requires row { IsTileRow coded.now row.old.first (tiles_across coded.now.headers.siz) stripe.now.y0 row.old }
    requires first { row.old.first % tiles_across coded.now.headers.siz ≡ 0 }
    requires stripe { IsArea stripe.now }
    requires left { stripe.now.x0 ≡ coded.now.area.x0 }
    requires right { stripe.now.x1 ≡ coded.now.area.x1 }
    requires from { IsStepEnd (area_of_tile coded.now row.old.first) stripe.now.y0 }
    requires to { IsStepEnd (area_of_tile coded.now row.old.first) stripe.now.y1 }
    ensures row { OnOk result (IsTileRow coded.now row.old.first (tiles_across coded.now.headers.siz) stripe.now.y1 row.new) }
    ensures planes { IfOk result (λ v. lists_of v.items
        ≡ planes_of_tiles coded.now.bytes coded.now.headers coded.now.reduce stripe.now) }
    // Behind the last row no code-block of the tiles has a fault.
    ensures fine { stripe.now.y1 ≡ (area_of_tile coded.now row.old.first).y1 → OnOk result
        ((k : ℕ) → k < tiles_across coded.now.headers.siz → IsFineTile coded.now (row.old.first + k)) }
    ensures cause { IfErr result (λ e. IsMemory e ⊎ HasFaultAt coded.now e) }
{
    let next = tile_of(coded, row.first);
    row.tiles[0].step_of(alloc, &next, stripe.y0, stripe.y1, decoded)
}

/// The planes of a stripe, which lies in a row of tiles. Code-blocks that were decoded before aren't
/// decoded again.
pub(crate) fn stripe_planes(
    alloc: Global,
    coded: &CodedImage<'_>,
    row: &mut TileRow,
    stripe: &Rect,
    decoded: &DecodedBlocks,
) -> Result<Vec<Vec<i32>>, Fault>
    requires decoded { AreDecoded coded.now.bytes decoded.now }
    requires row { IsTileRow coded.now row.old.first (tiles_across coded.now.headers.siz) stripe.now.y0 row.old }
    requires first { row.old.first % tiles_across coded.now.headers.siz ≡ 0 }
    requires stripe { IsArea stripe.now }
    requires left { stripe.now.x0 ≡ coded.now.area.x0 }
    requires right { stripe.now.x1 ≡ coded.now.area.x1 }
    requires from { IsStepEnd (area_of_tile coded.now row.old.first) stripe.now.y0 }
    requires to { IsStepEnd (area_of_tile coded.now row.old.first) stripe.now.y1 }
    ensures row { OnOk result (IsTileRow coded.now row.old.first (tiles_across coded.now.headers.siz) stripe.now.y1 row.new) }
    ensures planes { IfOk result (λ v. lists_of v.items
        ≡ planes_of_tiles coded.now.bytes coded.now.headers coded.now.reduce stripe.now) }
    // Behind the last row no code-block of the tiles has a fault.
    ensures fine { stripe.now.y1 ≡ (area_of_tile coded.now row.old.first).y1 → OnOk result
        ((k : ℕ) → k < tiles_across coded.now.headers.siz → IsFineTile coded.now (row.old.first + k)) }
    ensures cause { IfErr result (λ e. IsMemory e ⊎ HasFaultAt coded.now e) }
{
    let area = coded.area;
    let part = part_of_stripe(coded, row.first, stripe);
    if row.tiles.len() == 1 && part.x0 == area.x0 && part.x1 == area.x1 {
        return planes_of_lone(alloc, coded, row, stripe, decoded);
    }
    placed_planes(alloc, coded, row, stripe, decoded)
}

/// Gives rows `y` up to `end`, which lie in a row of tiles; of a row of tiles that has no rows none are
/// given, and its code-blocks are decoded. Those that were decoded before aren't decoded again.
fn give_stripe<S: Rows>(
    alloc: Global,
    coded: &CodedImage<'_>,
    row: &mut TileRow,
    y: u32,
    end: u32,
    decoded: &DecodedBlocks,
    rows: &mut S,
) -> Result<(), Fault>
    requires decoded { AreDecoded coded.now.bytes decoded.now }
    requires row { IsTileRow coded.now row.old.first (tiles_across coded.now.headers.siz) y row.old }
    requires first { row.old.first % tiles_across coded.now.headers.siz ≡ 0 }
    requires order { y ≤ end }
    requires from { IsStepEnd (area_of_tile coded.now row.old.first) y }
    requires to { IsStepEnd (area_of_tile coded.now row.old.first) end }
    ensures row { OnOk result (IsTileRow coded.now row.old.first (tiles_across coded.now.headers.siz) end row.new) }
    ensures taken { OnOk result (WereTaken S.took (picture_of coded.now) y end rows.old rows.new) }
    // Behind the last row no code-block of the tiles has a fault.
    ensures fine { end ≡ (area_of_tile coded.now row.old.first).y1 → OnOk result
        ((k : ℕ) → k < tiles_across coded.now.headers.siz → IsFineTile coded.now (row.old.first + k)) }
    ensures cause { IfErr result (λ e. IsMemory e
        ⊎ WereRefused S.took S.refused (picture_of coded.now) y coded.now.area.y1 rows.old rows.new e ⊎ HasFaultAt coded.now e) }
{
    let stripe = Rect {
        x0: coded.area.x0,
        y0: y,
        x1: coded.area.x1,
        y1: end,
    };
    let planes = stripe_planes(alloc, coded, row, &stripe, decoded)?;
    if y == end {
        return Ok(());
    }
    rows.take(alloc, image_of(coded.headers, &stripe, planes)?)
}

/// Gives the rows that come next. Code-blocks that were decoded before aren't decoded again.
pub(crate) fn give_next<S: Rows>(
    alloc: Global,
    coded: &CodedImage<'_>,
    walk: &mut RowWalk,
    decoded: &DecodedBlocks,
    rows: &mut S,
) -> Result<(), Fault>
    requires decoded { AreDecoded coded.now.bytes decoded.now }
    requires walk { IsRowWalk coded.now walk.old }
    requires some { walk.old.row.first < tile_count coded.now.headers.siz }
    ensures walk { OnOk result (IsRowWalk coded.now walk.new) }
    ensures down { OnOk result (walk.old.y ≤ walk.new.y) }
    ensures less { OnOk result (rows_left coded.now walk.new < rows_left coded.now walk.old) }
    ensures taken { OnOk result (WereTaken S.took (picture_of coded.now) walk.old.y walk.new.y rows.old rows.new) }
    ensures cause { IfErr result (λ e. IsMemory e
        ⊎ WereRefused S.took S.refused (picture_of coded.now) walk.old.y coded.now.area.y1 rows.old rows.new e ⊎ HasFaultAt coded.now e) }
{
    give_stripe(alloc, coded, &mut walk.row, walk.y, walk.end, decoded, rows)?;
    if walk.end < walk.area.y1 {
        walk.y = walk.end;
        walk.end = step_end(walk.y, walk.area.y1, walk.step);
        return Ok(());
    }
    let first = walk.row.first + tiles_across(coded.headers.siz());
    *walk = walk_from(alloc, coded, first, walk.step)?;
    Ok(())
}

/// Gives all rows.
fn give_rows<S: Rows>(
    alloc: Global,
    coded: &CodedImage<'_>,
    step: u32,
    rows: &mut S,
) -> Result<(), Fault>
    requires step { 1 ≤ step }
    ensures taken { OnOk result (WereTaken S.took (picture_of coded.now) coded.now.area.y0 coded.now.area.y1
        rows.old rows.new) }
    ensures fine { OnOk result (tiles_tested coded.now.bytes coded.now.headers coded.now.reduce
        (tile_count coded.now.headers.siz) ≡ Ok tt) }
    ensures cause { IfErr result (λ e. IsMemory e
        ⊎ WereRefused S.took S.refused (picture_of coded.now) coded.now.area.y0 coded.now.area.y1 rows.old rows.new e ⊎ HasFaultAt coded.now e) }
{
    let none = DecodedBlocks::none(alloc);
    let mut walk = walk_from(alloc, coded, 0, step)?;
    while walk.row.first < coded.headers.tile_count() {
        give_next(alloc, coded, &mut walk, &none, rows)?;
    }
    Ok(())
}

/// Judges all code-blocks in their order, tile by tile, of which nothing is kept.
pub(crate) fn judge(alloc: Global, coded: &CodedImage<'_>) -> Result<(), Fault>
    ensures exact { Answers (λ u. u) result
        (tiles_tested coded.now.bytes coded.now.headers coded.now.reduce (tile_count coded.now.headers.siz)) }
    ensures source { IsImageSource coded.now }
{
    for number in 0..coded.headers.tile_count() {
        judge_tile(alloc, &tile_of(coded, number))?;
    }
    Ok(())
}

/// What is told where the giving of rows ended so: the first fault of all code-blocks, whichever it was
/// that ended the giving, and what ended it where they have none.
pub(crate) fn told(
    alloc: Global,
    coded: &CodedImage<'_>,
    given: Result<(), Fault>,
) -> Result<(), Fault>
    requires fine { IfOk given (λ _. fault_of coded.now ≡ Ok tt) }
    ensures exact { IsTold given result (fault_of coded.now) }
    ensures given { OnOk result (given ≡ Ok tt) }
{
    match given {
        Ok(()) => Ok(()),
        Err(Fault::Memory(refused)) => Err(Fault::Memory(refused)),
        Err(fault) => {
            judge(alloc, coded)?;
            Err(fault)
        }
    }
}

/// Gives all rows of an image whose packets are read, and tells its first fault.
pub(crate) fn all_rows<S: Rows>(
    alloc: Global,
    coded: &CodedImage<'_>,
    step: u32,
    rows: &mut S,
) -> Result<(), Fault>
    requires step { 1 ≤ step }
    ensures exact { AreTold S.took S.refused coded.now rows.old rows.new result }
    ensures taken { OnOk result (WereTaken S.took (picture_of coded.now) coded.now.area.y0 coded.now.area.y1
        rows.old rows.new) }
{
    // What is read of it shows that it is sound.
    let _area = coded.area;
    let given = give_rows(alloc, coded, step, rows);
    told(alloc, coded, given)
}

/// Gives the rows of the image that a file, a bare codestream or a JP2 file, means at a reduction, in
/// stripes one below the other: each of `step` rows or one or two more, but for the last one of a row
/// of tiles, which may have fewer. It takes the memory of a stripe and of a row of code-blocks of each
/// sub-band, not of the image, beside what the packets' headers say of all code-blocks.
///
/// The faults are those of [`decode`](crate::decode) in their order: where a code-block has a fault,
/// all are judged from the first one on. Rows were taken before that where those above the code-block
/// have none. What the rows were refused with is told where the file has no fault.
pub fn decode_rows<S: Rows>(
    alloc: Global,
    bytes: &[u8],
    reduce: u32,
    step: u32,
    rows: &mut S,
) -> Result<(), Fault>
    requires step { 1 ≤ step }
    // Which fault is the first, or none; or the rows were refused, of a file that means a picture.
    ensures exact { Answers (λ _. tt) result (tested (meaning_at bytes.now reduce))
        ⊎ AreRefused S.took S.refused (meaning_at bytes.now reduce) rows.old rows.new result }
    // All rows of the picture that the file means were taken.
    ensures taken { OnOk result ((p : Picture) × (meaning_at bytes.now reduce ≡ Ok p) × Means bytes.now reduce p
        × WereTaken S.took p p.y0 (p.y0 + p.height) rows.old rows.new) }
{
    let read = read_image(alloc, bytes, reduce)?;
    let coded = read.coded(bytes);
    all_rows(alloc, &coded, step, rows)
}
