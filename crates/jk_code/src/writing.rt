//! Writing a file, tile by tile, into what takes its text.

ghost use Rattle.std.specs.Prelude.{◌≡◌, ℕ, ◌+◌, ◌<◌, ◌≤◌, ◌^◌, ◌++◌, ◌⊎◌, List, length, nat_lt, true, Ok, IfOk, IfErr};
ghost use Rattle.std.specs.Prelude.{OnOk};
ghost use Rattle.jk_math.specs.Memory.{IsMemory};
ghost use Rattle.jk_math.specs.declared.fault.Fault.TheVariants.{Limit};
ghost use Rattle.jk_marks.specs.Siz.{tile_count};
ghost use Rattle.jk_marks.specs.Codestream.{part_text, only_part_of};
ghost use Rattle.jk_math.specs.Picture.{Picture};
ghost use Rattle.jk_params.specs.Profile.{siz_of, is_profile};
ghost use Rattle.jk_tile.specs.encoding.PacketsWritten.{tile_text};
ghost use Rattle.jk_code.specs.Meaning.{Means};
ghost use Rattle.jk_code.specs.Fronts.{HasFronts};
ghost use Rattle.jk_code.specs.Written.{part_for, part_fits, parts_fit, written};
ghost use Rattle.jk_code.specs.Beginnings.{front_of, parts_upto, text_upto, LeftBy};
ghost use Rattle.jk_code.specs.Sending.{IsTooLong, IsTooLongAhead, IsSent, IsSentAsMade, IsPartSent, IsRestSent};
ghost use Rattle.jk_code.specs.Contents.{HasPicture, HasTiles};
ghost use Rattle.jk_code.specs.DataTold.{IsDataText};

use crate::contents::{TileContents, WrittenFrame, count_tiles};
use crate::encoding::main_header;
use crate::tile_data::TileData;
use jk_marks::{write_main, write_part_head};
use jk_math::Fault;
use jk_params::Container;
use jk_tile::{TextSink, pass_tile};
use std::alloc::Global;

/// The last marker of a codestream, EOC (T.800 A.4.4).
static EOC: [u8; 2] = [0xFF, 0xD9];

/// A number of bytes that no tile-part has room for.
const MOST: u64 = 1 << 32;

/// The head of a tile's only tile-part, which has `size` bytes of data, 2^64 - 1 at most.
///
/// Limit: the tile-part would be longer than 2^32 - 1 bytes.
fn part_head(alloc: Global, tile: u16, size: u64) -> Result<Vec<u8>, Fault>
    ensures text { IfOk result (λ head. (content : List ℕ) → length content ≡ size
        → head.items ++ content ≡ part_text (only_part_of tile content)) }
    ensures size { IfOk result (λ head. length head.items ≡ 14) }
    ensures fits { IfOk result (λ _. 14 + size < 2 ^ 32) }
    ensures err { IfErr result (λ e. IsMemory e ⊎ ((e ≡ Limit) × (2 ^ 32 ≤ 14 + size))) }
{
    let mut head = Vec::with_capacity(alloc, 14)?;
    write_part_head(tile, size.min(MOST), &mut head)?;
    Ok(head)
}

/// How long the tile-parts behind the first are, all together.
///
/// Limit: one would be longer than 2^32 - 1 bytes.
fn rest_size<T: TileContents>(
    alloc: Global,
    source: &WrittenFrame<'_>,
    tiles: &T,
) -> Result<u64, Fault>
    requires some { (p : Picture) × HasTiles T.tells source.now tiles.now p }
    ensures size { IfOk result (λ size. (p : Picture) → HasTiles T.tells source.now tiles.now p
        → length (parts_upto p source.now.parameters.now 1) + size
        ≡ length (parts_upto p source.now.parameters.now (tile_count (siz_of p source.now.parameters.now)))) }
    ensures small { IfOk result (λ size. size < 2 ^ 48) }
    ensures fits { IfOk result (λ _. (p : Picture) → HasTiles T.tells source.now tiles.now p
        → part_fits p source.now.parameters.now 0 ≡ true → parts_fit p source.now.parameters.now ≡ true) }
    ensures err { IfErr result (λ e. (p : Picture) → HasTiles T.tells source.now tiles.now p
        → IsMemory e ⊎ ((e ≡ Limit) × IsTooLong p source.now.parameters.now)) }
{
    let mut size = 0;
    for number in 1..count_tiles(source) {
        let content = tiles.content(alloc, number)?;
        let bytes = content.size(alloc)?;
        let head = part_head(alloc, number as u16, bytes)?;
        size += head.len() as u64 + bytes;
    }
    Ok(size)
}

/// How long the tile-parts behind the first are where that is told before them: in a JP2 file.
fn size_ahead<T: TileContents>(
    alloc: Global,
    source: &WrittenFrame<'_>,
    tiles: &T,
) -> Result<u64, Fault>
    requires some { (p : Picture) × HasTiles T.tells source.now tiles.now p }
    ensures size { IfOk result (λ size. (p : Picture) → HasTiles T.tells source.now tiles.now p
        → source.now.parameters.now.container ≡ Container.Jp2
        → length (parts_upto p source.now.parameters.now 1) + size
        ≡ length (parts_upto p source.now.parameters.now (tile_count (siz_of p source.now.parameters.now)))) }
    ensures small { IfOk result (λ size. size < 2 ^ 48) }
    ensures fits { IfOk result (λ _. (p : Picture) → HasTiles T.tells source.now tiles.now p
        → source.now.parameters.now.container ≡ Container.Jp2
        → part_fits p source.now.parameters.now 0 ≡ true → parts_fit p source.now.parameters.now ≡ true) }
    ensures err { IfErr result (λ e. (p : Picture) → HasTiles T.tells source.now tiles.now p
        → IsMemory e ⊎ ((e ≡ Limit) × (source.now.parameters.now.container ≡ Container.Jp2)
        × IsTooLong p source.now.parameters.now)) }
{
    match source.parameters.container {
        Container::Raw => Ok(0),
        Container::Jp2 => rest_size(alloc, source, tiles),
    }
}

/// What stands before a codestream of `size` bytes in its container.
fn front(alloc: Global, source: &WrittenFrame<'_>, size: u64) -> Result<Vec<u8>, Fault>
    requires some { (p : Picture) × HasPicture source.now p }
    requires size { size + 16 < 2 ^ 64 }
    ensures value { IfOk result (λ v. (p : Picture) → HasPicture source.now p
        → v.items ≡ front_of source.now.parameters.now.container p size) }
    ensures memory { IfErr result IsMemory }
{
    let frame = &source.frame;
    match source.parameters.container {
        Container::Raw => Ok(Vec::new(alloc)),
        Container::Jp2 => jk_boxes::front(
            alloc,
            frame.width,
            frame.height,
            frame.components,
            frame.depth,
            size,
        ),
    }
}

/// The file up to the data of its first tile-part, which are these.
///
/// Limit: that tile-part would be longer than 2^32 - 1 bytes; in a JP2 file also any other.
fn before_data<T: TileContents>(
    alloc: Global,
    source: &WrittenFrame<'_>,
    tiles: &T,
    first: &TileData<'_>,
) -> Result<Vec<u8>, Fault>
    requires some { (p : Picture) × HasTiles T.tells source.now tiles.now p }
    requires first { (p : Picture) → HasTiles T.tells source.now tiles.now p
        → IsDataText first.now (tile_text p source.now.parameters.now 0) }
    ensures text { IfOk result (λ v. (p : Picture) → HasTiles T.tells source.now tiles.now p
        → v.items ++ tile_text p source.now.parameters.now 0 ≡ text_upto p source.now.parameters.now 1) }
    ensures fits { IfOk result (λ _. (p : Picture) → HasTiles T.tells source.now tiles.now p
        → part_fits p source.now.parameters.now 0 ≡ true) }
    ensures all { IfOk result (λ _. (p : Picture) → HasTiles T.tells source.now tiles.now p
        → source.now.parameters.now.container ≡ Container.Jp2 → parts_fit p source.now.parameters.now ≡ true) }
    ensures means { IfOk result (λ _. (p : Picture) → HasTiles T.tells source.now tiles.now p
        → (file : List ℕ) → written p source.now.parameters.now ≡ Ok file
        → Means file 0 p × HasFronts p source.now.parameters.now file) }
    ensures err { IfErr result (λ e. (p : Picture) → HasTiles T.tells source.now tiles.now p
        → IsMemory e ⊎ ((e ≡ Limit) × IsTooLongAhead p source.now.parameters.now)) }
{
    let rest = size_ahead(alloc, source, tiles)?;
    let bytes = first.size(alloc)?;
    let head = part_head(alloc, 0, bytes)?;
    let mut main = Vec::new(alloc);
    write_main(&main_header(source), &mut main)?;
    let part = head.len() as u64 + bytes;
    let size = main.len() as u64 + part + rest + EOC.len() as u64;
    let mut before = front(alloc, source, size)?;
    before.extend_from_slice(&main)?;
    before.extend_from_slice(&head)?;
    Ok(before)
}

/// Writes a text. Where a fault is told, a beginning of the text was written.
fn send<W: TextSink>(writer: &mut W, text: &[u8]) -> Result<(), Fault>
    ensures { (part : List ℕ) × W.took writer.old part writer.new
        × IsSent W.tells text.now part result }
{
    writer.take(text)
}

/// Writes the data of a tile.
///
/// Memory: a header couldn't be made. Then, and where the sink tells a fault, a beginning of the data was
/// written.
fn put_data<W: TextSink>(alloc: Global, writer: &mut W, content: &TileData<'_>) -> Result<(), Fault>
    requires some { (text : List ℕ) × IsDataText content.now text }
    ensures { (part : List ℕ) × W.took writer.old part writer.new
        × ((text : List ℕ) → IsDataText content.now text → IsSentAsMade W.tells text part result) }
{
    match content {
        TileData::Packets(text) => send(writer, text),
        TileData::Tables(tile) => pass_tile(alloc, &tile.outline, tile.tables, writer),
    }
}

/// Writes the start of a file: what stands before the data of its first tile-part, and these data,
/// which are let go of.
fn put_start<W: TextSink>(
    alloc: Global,
    writer: &mut W,
    before: &[u8],
    first: TileData<'_>,
) -> Result<(), Fault>
    requires some { (text : List ℕ) × IsDataText first text }
    ensures { (part : List ℕ) × W.took writer.old part writer.new
        × ((text : List ℕ) → IsDataText first.entry text → IsSentAsMade W.tells (before.now ++ text) part result) }
{
    send(writer, before)?;
    put_data(alloc, writer, &first)
}

/// Writes the only tile-part of a tile with these data.
fn put_part<W: TextSink>(
    alloc: Global,
    writer: &mut W,
    tile: u16,
    content: &TileData<'_>,
) -> Result<(), Fault>
    requires some { (text : List ℕ) × IsDataText content.now text }
    ensures { (part : List ℕ) × W.took writer.old part writer.new
        × ((text : List ℕ) → IsDataText content.now text
        → IsPartSent W.tells (part_text (only_part_of tile text)) (nat_lt (14 + length text) (2 ^ 32)) part result) }
{
    let bytes = content.size(alloc)?;
    let head = part_head(alloc, tile, bytes)?;
    send(writer, &head)?;
    put_data(alloc, writer, content)
}

/// Writes the only tile-part of tile `number`.
fn put_tile<T: TileContents, W: TextSink>(
    alloc: Global,
    source: &WrittenFrame<'_>,
    tiles: &T,
    number: u32,
    writer: &mut W,
) -> Result<(), Fault>
    requires number { (p : Picture) × HasTiles T.tells source.now tiles.now p
        × (number < tile_count (siz_of p source.now.parameters.now)) }
    ensures { (p : Picture) → HasTiles T.tells source.now tiles.now p
        → (part : List ℕ) × W.took writer.old part writer.new
        × IsPartSent W.tells (part_text (part_for p source.now.parameters.now number))
        (part_fits p source.now.parameters.now number) part result }
{
    let content = tiles.content(alloc, number)?;
    put_part(alloc, writer, number as u16, &content)
}

/// Writes the tile-parts of the tiles behind the first, one after another.
fn put_rest<T: TileContents, W: TextSink>(
    alloc: Global,
    source: &WrittenFrame<'_>,
    tiles: &T,
    writer: &mut W,
) -> Result<(), Fault>
    requires some { (p : Picture) × HasTiles T.tells source.now tiles.now p }
    ensures { (p : Picture) → HasTiles T.tells source.now tiles.now p
        → part_fits p source.now.parameters.now 0 ≡ true
        → (text : List ℕ) × W.took writer.old text writer.new
        × IsRestSent W.tells p source.now.parameters.now text result }
{
    for number in 1..count_tiles(source) {
        put_tile(alloc, source, tiles, number, writer)?;
    }
    Ok(())
}

/// Writes a file, whose first tile has these data.
pub(crate) fn put_file<T: TileContents, W: TextSink>(
    alloc: Global,
    source: &WrittenFrame<'_>,
    tiles: &T,
    first: TileData<'_>,
    writer: &mut W,
) -> Result<(), Fault>
    requires some { (p : Picture) × HasTiles T.tells source.now tiles.now p }
    requires first { (p : Picture) → HasTiles T.tells source.now tiles.now p
        → IsDataText first (tile_text p source.now.parameters.now 0) }
    ensures means { OnOk result ((p : Picture) → HasTiles T.tells source.now tiles.now p
        → (file : List ℕ) → written p source.now.parameters.now ≡ Ok file
        → Means file 0 p × HasFronts p source.now.parameters.now file) }
    ensures part { (p : Picture) → HasTiles T.tells source.now tiles.now p
        → is_profile source.now.parameters.now p ≡ true
        → (text : List ℕ) × W.took writer.old text writer.new
        × LeftBy W.tells p source.now.parameters.now text result }
{
    let before = before_data(alloc, source, tiles, &first)?;
    put_start(alloc, writer, &before, first)?;
    put_rest(alloc, source, tiles, writer)?;
    send(writer, &EOC)
}

/// Writes a file, whose tiles are these.
pub(crate) fn put_contents<T: TileContents, W: TextSink>(
    alloc: Global,
    source: &WrittenFrame<'_>,
    tiles: &T,
    writer: &mut W,
) -> Result<(), Fault>
    requires some { (p : Picture) × HasTiles T.tells source.now tiles.now p }
    ensures means { OnOk result ((p : Picture) → HasTiles T.tells source.now tiles.now p
        → (file : List ℕ) → written p source.now.parameters.now ≡ Ok file
        → Means file 0 p × HasFronts p source.now.parameters.now file) }
    ensures part { (p : Picture) → HasTiles T.tells source.now tiles.now p
        → is_profile source.now.parameters.now p ≡ true
        → (text : List ℕ) × W.took writer.old text writer.new
        × LeftBy W.tells p source.now.parameters.now text result }
{
    let first = tiles.content(alloc, 0)?;
    put_file(alloc, source, tiles, first, writer)
}
