//! Decoding a window.

ghost use Rattle.std.specs.Prelude.{◌≡◌, ℕ, ◌≤◌, ◌<◌, true, List, IfOk, IfErr, OnOk, Ok};
ghost use Rattle.jk_math.specs.Answer.{Answers};
ghost use Rattle.jk_math.specs.Picture.{Picture};
ghost use Rattle.jk_math.specs.Lists.{lists_of};
ghost use Rattle.jk_marks.specs.Siz.{tile_count};
ghost use Rattle.jk_geom.specs.Rectangles.{IsArea};
ghost use Rattle.jk_params.specs.Headers.{AreHeaders};
ghost use Rattle.jk_walk.specs.WalkReading.{packets_at};
ghost use Rattle.jk_tile.specs.Filling.{IsPartOf};
ghost use Rattle.jk_tile.specs.TileMeaning.{shown_area};
ghost use Rattle.jk_tile.specs.decoding.Decoded.{AreDecoded};
ghost use Rattle.jk_tile.specs.decoding.TileReading.{tested, part_planes_at};
ghost use Rattle.jk_window.specs.Indexing.{IsIndexOf};
ghost use Rattle.jk_window.specs.Views.{HaveLevels, frame_of};
ghost use Rattle.jk_code.specs.Meaning.{Means};
ghost use Rattle.jk_code.specs.MeaningReading.{planes_of_tiles};
ghost use Rattle.jk_code.specs.Tiles.{AreSeen, ArePlanes, KeepsSamples, ShowsTileAt};
ghost use Rattle.jk_code.specs.Viewing.{picture_of_view};
ghost use Rattle.jk_code.specs.ViewReading.{seen_part, is_seen, seen_packets_tested, seen_parts_tested};
ghost use Rattle.jk_code.specs.ViewReading.{image_view_at, meaning_view_at};
ghost use Rattle.jk_code.specs.Windows.{IsViewByPlan};

use crate::coded::HeadedBytes;
use crate::decoding::{blank_planes, put_tile};
use crate::windows::window;
use jk_boxes::open;
use jk_geom::{meet, reduced, tile, touches};
use jk_math::{Fault, Image, Rect};
use jk_params::{Codestream, read_codestream};
use jk_tile::{CodedTile, DecodedBlocks, decode_part_of};
use jk_walk::{TilePackets, read_packets};
use jk_window::{Index, View, window_area};
use std::alloc::Global;

/// What a tile shows of the image at a reduction.
pub(crate) fn shown(headers: &Codestream, number: usize, reduce: u8) -> Rect
    requires sound { (size : ℕ) × AreHeaders size headers.now }
    requires number { number < tile_count headers.now.siz }
    requires few { reduce ≤ 10 }
    ensures value { result ≡ shown_area headers.now.siz number reduce }
    ensures part { IsPartOf result (frame_of headers.now reduce) }
    ensures area { IsArea result }
{
    reduced(&tile(headers.siz(), number as u32), reduce)
}

/// The packets of the tiles of which a window has samples; of the others none are read.
fn seen_packets(
    alloc: Global,
    source: &HeadedBytes<'_>,
    reduce: u8,
    window: &Rect,
) -> Result<Vec<Option<TilePackets>>, Fault>
    requires few { reduce ≤ 10 }
    ensures exact { Answers (λ _. tt) result
        (seen_packets_tested source.now.bytes source.now.headers reduce window.now
        (tile_count source.now.headers.siz)) }
    ensures read { IfOk result
        (λ v. AreSeen source.now.bytes source.now.headers reduce window.now (tile_count source.now.headers.siz)
        v.items) }
{
    let headers = source.headers;
    let bytes = source.bytes;
    let mut all = Vec::new(alloc);
    for number in 0..headers.tile_count() {
        let packets = if touches(window, &shown(headers, number, reduce)) {
            Some(read_packets(alloc, headers, bytes, number)?)
        } else {
            None
        };
        all.push(packets)?;
    }
    Ok(all)
}

/// Puts what a window has of a tile into its planes. It has a sample of the tile.
pub(crate) fn show_tile(
    alloc: Global,
    tile: &CodedTile<'_>,
    window: &Rect,
    decoded: &DecodedBlocks,
    planes: &mut Vec<Vec<i32>>,
) -> Result<(), Fault>
    requires decoded { AreDecoded tile.now.bytes decoded.now }
    requires packets { packets_at tile.now.bytes tile.now.headers tile.now.number ≡ Ok tile.now.packets }
    requires few { tile.now.reduce ≤ 10 }
    requires window { IsArea window.now }
    requires seen { is_seen tile.now.headers tile.now.reduce window.now tile.now.number ≡ true }
    requires planes { ArePlanes tile.now.headers window.now planes.old.items }
    ensures exact { Answers (λ _. tt) result
        (tested (part_planes_at tile.now.bytes tile.now.headers tile.now.number tile.now.reduce
        (seen_part tile.now.headers tile.now.reduce window.now tile.now.number) tile.now.packets)) }
    ensures planes { OnOk result (ArePlanes tile.now.headers window.now planes.new.items) }
    ensures keeps { OnOk result (KeepsSamples tile.now.bytes tile.now.headers tile.now.reduce window.now
        planes.old.items planes.new.items) }
    ensures shows { OnOk result (ShowsTileAt tile.now.bytes tile.now.headers tile.now.reduce window.now
        tile.now.number tile.now.headers.siz.components planes.new.items) }
{
    let part = meet(window, &shown(tile.headers, tile.number, tile.reduce));
    let values = decode_part_of(alloc, tile, &part, decoded)?;
    put_tile(tile, window, &part, &values, planes);
    Ok(())
}

/// The planes of a window, tile by tile.
fn window_planes(
    alloc: Global,
    source: &HeadedBytes<'_>,
    all: &[Option<TilePackets>],
    reduce: u8,
    window: &Rect,
) -> Result<Vec<Vec<i32>>, Fault>
    requires packets { AreSeen source.now.bytes source.now.headers reduce window.now
        (tile_count source.now.headers.siz) all.now }
    requires levels { HaveLevels source.now.headers reduce }
    requires few { reduce ≤ 10 }
    requires window { IsArea window.now }
    requires inside { IsPartOf window.now (frame_of source.now.headers reduce) }
    ensures exact { Answers (λ _. tt) result
        (seen_parts_tested source.now.bytes source.now.headers reduce window.now
        (tile_count source.now.headers.siz)) }
    ensures planes { IfOk result (λ v. lists_of v.items
        ≡ planes_of_tiles source.now.bytes source.now.headers reduce window.now) }
{
    let headers = source.headers;
    let bytes = source.bytes;
    let none = DecodedBlocks::none(alloc);
    let mut planes = blank_planes(alloc, headers.siz().components, window)?;
    for number in 0..headers.tile_count() {
        if let Some(packets) = &all[number] {
            let next = CodedTile {
                headers,
                bytes,
                number,
                packets,
                reduce,
            };
            show_tile(alloc, &next, window, &none, &mut planes)?;
        }
    }
    Ok(planes)
}

/// The window of a codestream.
#[tactic(auto, unfolding(crate::specs::ViewReading::image_view_at, crate::specs::ViewReading::view_at))]
fn codestream_view(alloc: Global, bytes: &[u8], view: View) -> Result<Image, Fault>
    ensures { Answers (λ i. i) result (image_view_at bytes.now view) }
{
    let headers = read_codestream(alloc, bytes)?;
    let window = window_area(&headers, view)?;
    let reduce = view.reduce as u8;
    let source = HeadedBytes {
        headers: &headers,
        bytes,
    };
    let packets = seen_packets(alloc, &source, reduce, &window)?;
    let planes = window_planes(alloc, &source, &packets, reduce, &window)?;
    let siz = headers.siz();
    let (width, height) = (window.x1 - window.x0, window.y1 - window.y0);
    Image::new(
        window.x0, window.y0, width, height, siz.depth, siz.signed, planes,
    )
}

/// The window of a file.
#[tactic(auto, unfolding(crate::specs::ViewReading::meaning_view_at))]
fn meaning_view(alloc: Global, bytes: &[u8], view: View) -> Result<Image, Fault>
    ensures { Answers (λ i. i) result (meaning_view_at bytes.now view) }
{
    let boxed = open(bytes)?;
    codestream_view(alloc, &bytes[boxed.start..boxed.end], view)
}

/// The window of a view of the image that a file, a bare codestream or a JP2 file, means: what
/// `decode` gives at the view's reduction, on the rectangle of the view, cut with the reduced
/// image. All layers are decoded, whatever layers the view asks for. It takes the time and memory of
/// the window, not of the image, but for the headers of the packets of the tiles that it meets.
///
/// The first of these faults: those of the boxes; those of `read_codestream`; BadWindow for a
/// reduction past the least number of decomposition levels, or where the reduced image or the
/// window has no sample; then, of the tiles of which the window has samples, those of their
/// packets, as `read_packets` names them, tile by tile; then, tile by tile, CodeOutOfInterval and
/// BadValue of the code-blocks that have a coefficient on which a sample of the window depends:
/// BadValue where another segmentation symbol stands than is due. The packets of other tiles and
/// other code-blocks aren't judged: a file that `decode` refuses may have a window.
pub fn decode_window(alloc: Global, bytes: &[u8], view: View) -> Result<Image, Fault>
    // Which image, or which fault is the first.
    ensures exact { Answers (λ i. i) result (meaning_view_at bytes.now view) }
    // Where the file means a picture at the view's reduction, it is that picture on the window, or
    // BadWindow where the window has no sample.
    ensures means { (p : Picture) → Means bytes.now view.reduce p → Answers (λ i. i) result (picture_of_view view p) }
{
    meaning_view(alloc, bytes, view)
}

/// The window of a view of the image that a file means, by the file's index: what [`decode_window`]
/// gives, with all layers. Of the file's packets that the window doesn't need not one byte is read.
///
/// With the index of these bytes the faults are those of `decode_window`; those of boxes, headers
/// and packets don't come, as a file with an index has none. If the index isn't that of these
/// bytes, the answer may be Changed, and any other is that of the file that the index's plan makes
/// of these bytes.
pub fn decode_window_by(
    alloc: Global,
    bytes: &[u8],
    index: &Index,
    view: View,
) -> Result<Image, Fault>
    // With the index of these bytes it is what `decode_window` gives: the image, or the first
    // fault.
    ensures exact { IsIndexOf bytes.now index.now → Answers (λ i. i) result (meaning_view_at bytes.now view) }
    // Where the bytes mean a picture at the view's reduction, it is that picture on the window, or
    // BadWindow where the window has no sample.
    ensures means { IsIndexOf bytes.now index.now → (p : Picture) → Means bytes.now view.reduce p
        → Answers (λ i. i) result (picture_of_view view p) }
    // Whichever index it is: Memory, BadWindow, Changed, or what `decode_window` gives of the file
    // that the index's plan makes of these bytes.
    ensures planned { IsViewByPlan bytes.now index.now view result }
{
    let whole = View {
        layers: None,
        ..view
    };
    let file = window(alloc, bytes, index, whole)?;
    decode_window(alloc, &file, whole)
}
