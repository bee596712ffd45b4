//! A tile from its packets.

ghost use Rattle.std.specs.Prelude.{◌≡◌, ℕ, ◌<◌, ◌≤◌, ◌+◌, ◌-◌, ◌*◌, ◌++◌, ◌^◌, length, map, All, IfOk, IfErr, OnOk};
ghost use Rattle.std.specs.Prelude.{Ok};
ghost use Rattle.std.specs.List.{AllByRecursion};
ghost use Rattle.jk_math.specs.Answer.{Answers};
ghost use Rattle.jk_math.specs.Memory.{IsMemory};
ghost use Rattle.jk_math.specs.Lists.{lists_of, list_at};
ghost use Rattle.jk_math.specs.Signed.{IsBelow};
ghost use Rattle.jk_marks.specs.Siz.{tile_count};
ghost use Rattle.jk_params.specs.Headers.{AreHeaders, tile_in};
ghost use Rattle.jk_walk.specs.WalkReading.{place_end};
ghost use Rattle.jk_tile.specs.Filling.{IsPartOf};
ghost use Rattle.jk_tile.specs.TileMeaning.{shown_area};
ghost use Rattle.jk_tile.specs.decoding.TileReading.{part_values_at, part_planes_at, tile_planes_at};
ghost use Rattle.jk_tile.specs.decoding.Source.{source_values};
ghost use Rattle.jk_tile.specs.decoding.Decoded.{AreDecoded};

use crate::decoding::coded::CodedTile;
use crate::decoding::colour::uncolour;
use crate::decoding::component::CodedComponent;
use crate::decoding::decoded::DecodedBlocks;
use crate::decoding::reading::read_resolution;
use crate::samples::all_to_samples;
use jk_geom::{resolution, tile};
use jk_math::{Fault, Rect};
use jk_wave::Region;
use std::alloc::Global;

/// A part of a component of a tile, row by row: resolution upon resolution.
#[tactic(auto, unfolding(crate::specs::decoding::Source::source_values))]
pub(crate) fn read_component(alloc: Global, source: &CodedComponent<'_>) -> Result<Vec<i32>, Fault>
    ensures exact { Answers (λ v. v.items) result (source_values source.now) }
    ensures small { IfOk result (λ v. All (IsBelow (2 ^ 29)) v.items) }
{
    let top = source.region().top;
    let mut segment = Vec::new(alloc);
    let mut values = Vec::new(alloc);
    for r in 0..top + 1 {
        values = read_resolution(alloc, source, r, values, &mut segment)?;
    }
    Ok(values)
}

/// The values of all components of a part of a tile, `reduce` resolutions below their highest, each
/// row by row.
#[tactic(auto, unfolding(crate::specs::decoding::TileReading::part_values_at))]
fn read_components(
    alloc: Global,
    coded: &CodedTile<'_>,
    area: &Rect,
    decoded: &DecodedBlocks,
) -> Result<Vec<Vec<i32>>, Fault>
    requires decoded { AreDecoded coded.now.bytes decoded.now }
    requires inside { IsPartOf area.now (shown_area coded.now.headers.siz coded.now.number coded.now.reduce) }
    ensures exact { Answers (λ v. lists_of v.items) result
        (part_values_at coded.now.bytes coded.now.headers coded.now.number coded.now.reduce area.now
        coded.now.packets) }
    ensures small { IfOk result (λ v. (c : ℕ) → All (IsBelow (2 ^ 29)) (list_at v.items c)) }
{
    let headers = coded.headers;
    let bytes = coded.bytes;
    let number = coded.number;
    let packets = coded.packets;
    let reduce = coded.reduce;
    let codings = headers.codings(number).as_slice();
    let mut values = Vec::new(alloc);
    for c in 0..codings.len() {
        let rect = tile(headers.siz(), number as u32);
        let coding = &codings[c];
        let region = Region {
            rect,
            levels: coding.levels,
            top: coding.levels - reduce,
            area: *area,
        };
        let source = CodedComponent::new(bytes, region, coding, packets, c as u8, decoded);
        values.push(read_component(alloc, &source)?)?;
    }
    Ok(values)
}

/// The samples of a part of a tile at a reduction, component by component, each row by row, from
/// the tile's packets. The part is a rectangle of the reduced image. A code-block among those that were
/// decoded before, from the same codestream, isn't decoded again.
///
/// The faults of [`decode_tile`], of those code-blocks alone that have a coefficient on which a
/// sample of the part depends. Others are not decoded.
#[tactic(auto, unfolding(crate::specs::decoding::TileReading::part_planes_at))]
pub fn decode_part_of(
    alloc: Global,
    coded: &CodedTile<'_>,
    area: &Rect,
    decoded: &DecodedBlocks,
) -> Result<Vec<Vec<i32>>, Fault>
    requires decoded { AreDecoded coded.now.bytes decoded.now }
    requires inside { IsPartOf area.now (shown_area coded.now.headers.siz coded.now.number coded.now.reduce) }
    ensures exact { Answers (λ v. lists_of v.items) result
        (part_planes_at coded.now.bytes coded.now.headers coded.now.number coded.now.reduce area.now
        coded.now.packets) }
{
    let mut values = read_components(alloc, coded, area, decoded)?;
    let headers = coded.headers;
    if headers.cod(coded.number).colour {
        uncolour(alloc, &mut values);
    }
    all_to_samples(headers.siz(), &mut values);
    Ok(values)
}

/// What [`decode_tile`] gives, where a code-block among those that were decoded before, from the same
/// codestream, isn't decoded again.
pub fn decode_tile_of(
    alloc: Global,
    coded: &CodedTile<'_>,
    decoded: &DecodedBlocks,
) -> Result<Vec<Vec<i32>>, Fault>
    requires decoded { AreDecoded coded.now.bytes decoded.now }
    ensures exact { Answers (λ v. lists_of v.items) result
        (tile_planes_at coded.now.bytes coded.now.headers coded.now.number coded.now.reduce coded.now.packets) }
{
    let rect = tile(coded.headers.siz(), coded.number as u32);
    let area = resolution(&rect, coded.reduce, 0);
    decode_part_of(alloc, coded, &area, decoded)
}

/// The samples of a tile at a reduction, component by component, each row by row, from its packets.
///
/// The first of these faults, by component, resolution, precinct, sub-band and code-block:
/// [`Fault::TooManyPasses`], [`Fault::CodeOutOfInterval`], and [`Fault::BadValue`] where another
/// segmentation symbol stands than is due. Code-blocks of resolutions that aren't asked for are not
/// decoded.
pub fn decode_tile(alloc: Global, coded: &CodedTile<'_>) -> Result<Vec<Vec<i32>>, Fault>
    ensures exact { Answers (λ v. lists_of v.items) result
        (tile_planes_at coded.now.bytes coded.now.headers coded.now.number coded.now.reduce coded.now.packets) }
{
    decode_tile_of(alloc, coded, &DecodedBlocks::none(alloc))
}
