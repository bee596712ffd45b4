//! Decoding.

ghost use Rattle.std.specs.Prelude.{◌≡◌, ℕ, ◌<◌, ◌-◌, length, IfOk, IfErr, Ok};
ghost use Rattle.jk_math.specs.Answer.{Answers};
ghost use Rattle.jk_math.specs.Memory.{IsMemory};
ghost use Rattle.jk_math.specs.Picture.{Picture, IsPicture};
ghost use Rattle.jk_math.specs.Lists.{lists_of};
ghost use Rattle.jk_math.specs.Raster.{places_of};
ghost use Rattle.jk_marks.specs.Siz.{tile_count};
ghost use Rattle.jk_geom.specs.Rectangles.{IsArea};
ghost use Rattle.jk_params.specs.Headers.{AreHeaders};
ghost use Rattle.jk_walk.specs.WalkReading.{packets_at};
ghost use Rattle.jk_code.specs.Meaning.{Means};
ghost use Rattle.jk_code.specs.MeaningReading.{packets_tested, picture_with, meaning_at};
ghost use Rattle.jk_code.specs.ReadImages.{IsReadImage};
ghost use Rattle.jk_code.specs.Tiles.{AreRead, ArePlanes, KeepsSamples, ShowsTileAt, IsPartSeen, part_lists, plane_in};

use crate::coded::HeadedBytes;
use crate::keeping::{image_kept, stripe_keeper};
use crate::reading::{ReadImage, read_image};
use crate::rows::all_rows;
use jk_math::{Fault, Image, Rect};
use jk_params::Codestream;
use jk_tile::{CodedTile, put};
use jk_walk::{TilePackets, read_packets};
use std::alloc::Global;

/// The packets of all tiles.
pub(crate) fn all_packets(
    alloc: Global,
    source: &HeadedBytes<'_>,
) -> Result<Vec<TilePackets>, Fault>
    ensures exact { Answers (λ _. tt) result
        (packets_tested source.now.bytes source.now.headers (tile_count source.now.headers.siz)) }
    ensures read { IfOk result
        (λ v. AreRead source.now.bytes source.now.headers (tile_count source.now.headers.siz) v.items) }
{
    let headers = source.headers;
    let bytes = source.bytes;
    let mut all = Vec::new(alloc);
    for number in 0..headers.tile_count() {
        all.push(read_packets(alloc, headers, bytes, number)?)?;
    }
    Ok(all)
}

/// Puts the planes of a part of a tile into those of a rectangle of the reduced image. The part has
/// all that the rectangle has of the tile.
pub(crate) fn put_tile(
    tile: &CodedTile<'_>,
    area: &Rect,
    part: &Rect,
    shown: &[Vec<i32>],
    planes: &mut Vec<Vec<i32>>,
)
    requires sound { AreHeaders (length tile.now.bytes) tile.now.headers }
    requires number { tile.now.number < tile_count tile.now.headers.siz }
    requires packets { packets_at tile.now.bytes tile.now.headers tile.now.number ≡ Ok tile.now.packets }
    requires area { IsArea area.now }
    requires part { IsPartSeen tile.now.headers tile.now.reduce tile.now.number area.now part.now }
    requires shown { lists_of shown.now
        ≡ part_lists tile.now.bytes tile.now.headers tile.now.number tile.now.reduce part.now tile.now.packets }
    requires planes { ArePlanes tile.now.headers area.now planes.old.items }
    ensures planes { ArePlanes tile.now.headers area.now planes.new.items }
    ensures keeps { KeepsSamples tile.now.bytes tile.now.headers tile.now.reduce area.now
        planes.old.items planes.new.items }
    ensures shows { ShowsTileAt tile.now.bytes tile.now.headers tile.now.reduce area.now tile.now.number
        tile.now.headers.siz.components planes.new.items }
{
    for c in 0..planes.len() {
        put(area, &mut planes[c], part, &shown[c]);
    }
}

/// A list of zeros for each component.
pub(crate) fn blank_planes(
    alloc: Global,
    components: u16,
    area: &Rect,
) -> Result<Vec<Vec<i32>>, Fault>
    requires { IsArea area.now }
    ensures count { IfOk result (λ v. length v.items ≡ components) }
    ensures each { IfOk result (λ v. (c : ℕ) → c < components → length (plane_in v.items c) ≡ places_of area.now) }
    ensures memory { IfErr result IsMemory }
{
    let width = (area.x1 - area.x0) as usize;
    let height = (area.y1 - area.y0) as usize;
    let mut planes = Vec::new(alloc);
    for _ in 0..components {
        planes.push(vec![in alloc; 0; height * width]?)?;
    }
    Ok(planes)
}

/// An image of the depth and sign that headers tell, over this rectangle.
pub(crate) fn image_of(
    headers: &Codestream,
    area: &Rect,
    planes: Vec<Vec<i32>>,
) -> Result<Image, Fault>
    requires { IsPicture (picture_with headers.now.siz area.now (lists_of planes.items)) }
    ensures { result ≡ Ok (picture_with headers.now.siz area.now (lists_of planes.items)) }
{
    let siz = headers.siz();
    let (width, height) = (area.x1 - area.x0, area.y1 - area.y0);
    Image::new(
        area.x0, area.y0, width, height, siz.depth, siz.signed, planes,
    )
}

/// The image of a file that is read but for its code-blocks, by its rows, which are kept.
fn kept_picture(alloc: Global, bytes: &[u8], read: &ReadImage) -> Result<Image, Fault>
    requires { (d : ℕ) × IsReadImage bytes.now d read.now }
    ensures { (d : ℕ) → IsReadImage bytes.now d read.now → Answers (λ i. i) result (meaning_at bytes.now d) }
{
    let coded = read.coded(bytes);
    let mut kept = stripe_keeper(alloc, &read.area);
    all_rows(alloc, &coded, u32::MAX, &mut kept)?;
    image_kept(&read.headers, &read.area, kept)
}

/// The image that a file means, by its rows.
fn kept_meaning(alloc: Global, bytes: &[u8], reduce: u32) -> Result<Image, Fault>
    ensures { Answers (λ i. i) result (meaning_at bytes.now reduce) }
{
    let read = read_image(alloc, bytes, reduce)?;
    kept_picture(alloc, bytes, &read)
}

/// The image that a file, a bare codestream or a JP2 file, means at a reduction: the image itself
/// at 0, half as large at 1, and so on.
///
/// The first of these faults: those of the boxes; those of `read_codestream`; BadWindow for a
/// reduction past the least number of decomposition levels, or one that leaves no sample; then,
/// tile by tile, those of its packets, as `read_packets` names them, with TooManyPasses among them,
/// as the headers of packets tell the passes; then, tile by tile, CodeOutOfInterval and BadValue of
/// its code-blocks up to the resolution that is asked for: BadValue where another segmentation
/// symbol stands than is due.
pub fn decode(alloc: Global, bytes: &[u8], reduce: u32) -> Result<Image, Fault>
    // Which image, or which fault is the first.
    ensures exact { Answers (λ i. i) result (meaning_at bytes.now reduce) }
    // What is given is what the file means.
    ensures found { IfOk result (λ i. Means bytes.now reduce i) }
    // What a file means is given.
    ensures only { (p : Picture) → Means bytes.now reduce p → Answers (λ i. i) result (Ok p) }
    // A file means one image at most.
    ensures one { (p q : Picture) → Means bytes.now reduce p → Means bytes.now reduce q → p ≡ q }
{
    kept_meaning(alloc, bytes, reduce)
}
