//! Reading the headers of a codestream from front to back.

ghost use Rattle.std.specs.Prelude.{◌≡◌, ◌≤◌, ◌<◌, ◌+◌, ◌^◌, ℕ, length, map, slice_range, replicate, IfOk, Ok};
ghost use Rattle.jk_math.specs.Answer.{Answers, AnswersExactly};
ghost use Rattle.jk_marks.specs.Siz.{tile_count};
ghost use Rattle.jk_marks.specs.Codestream.{Tree, of_tile, or_else, IsCodestream};
ghost use Rattle.jk_geom.specs.TileShapes.{AreCodings};
ghost use Rattle.jk_params.specs.Headers.{Headers, headers_of, tile_in, IsHeaders, AreHeaders};
ghost use Rattle.jk_params.specs.HeadersReading.{IsProfileMain, AreCountable, ends_at, main_fields_at, parts_from};
ghost use Rattle.jk_params.specs.HeadersReading.{parts_seen, tiles_at, tiles_with, headers_at};

use crate::coding::codings;
use crate::count::{count_alike, count_own};
use crate::headers::Codestream;
use crate::table::TileTable;
use jk_geom::{Codings, tile_count};
use jk_marks::{
    Cod, CodingStyle, Cursor, Main, TileHead, TilePart, marker, read_main, read_tile_part,
};
use jk_math::Fault;
use std::alloc::Global;

/// How many packets a codestream may have.
const MOST_PACKETS: u64 = 1 << 24;

/// The same coding style segment.
fn copy(cod: &Cod) -> Cod
    ensures { result ≡ cod.now }
{
    let style = &cod.style;
    Cod {
        sop: cod.sop,
        eph: cod.eph,
        order: cod.order,
        layers: cod.layers,
        colour: cod.colour,
        style: CodingStyle {
            levels: style.levels,
            xcb: style.xcb,
            ycb: style.ycb,
            style: style.style,
            precincts: style.precincts.copy(),
        },
    }
}

/// The coding style segment of a tile whose first header says this.
fn cod_of(main: &Main, head: &TileHead) -> Cod
    ensures { result ≡ or_else main.now.cod head.now.cod }
{
    match &head.cod {
        Some(cod) => copy(cod),
        None => copy(&main.cod),
    }
}

/// The main header, its length, and the codings that it says.
#[tactic(auto, unfolding(crate::specs::HeadersReading::main_fields_at))]
fn main_fields(bytes: &[u8]) -> Result<((Main, usize), Codings), Fault>
    ensures exact { result ≡ main_fields_at bytes.now }
    ensures within { IfOk result (λ m. m.0.1 ≤ length bytes.now) }
    ensures good { IfOk result (λ m. IsProfileMain m.0.0) }
    ensures codings { IfOk result (λ m. AreCodings m.1) }
{
    let (main, at) = read_main(bytes)?;
    let codings = codings(&main, &TileHead::none())?;
    if count_alike(&main.siz, main.cod.layers, &codings) > MOST_PACKETS {
        return Err(Fault::Limit);
    }
    Ok(((main, at), codings))
}

/// Whether the codestream ends at a place: EOC, which is the end, or SOT, which begins a tile-part.
#[tactic(auto, unfolding(crate::specs::HeadersReading::ends_at))]
fn ends(bytes: &[u8], at: usize) -> Result<bool, Fault>
    requires { at ≤ length bytes.now }
    ensures { result ≡ ends_at bytes.now at }
{
    let mut cursor = Cursor::new(bytes, at);
    let marker = cursor.two_bytes()?;
    if marker != marker::SOT && marker != marker::EOC {
        return Err(Fault::BadMarker);
    }
    if marker != marker::SOT && !cursor.is_at_end() {
        return Err(Fault::SurplusBytes);
    }
    Ok(marker != marker::SOT)
}

/// Takes a tile-part that begins at a place into the table. The first part of a tile says its
/// coding.
#[tactic(auto, unfolding(crate::specs::HeadersReading::tiles_with))]
fn add_part(tiles: &mut TileTable, main: &Main, at: usize, part: &TilePart) -> Result<(), Fault>
    requires few { main.now.siz.components ≤ 4 }
    requires tile { part.now.tile < length tiles.old }
    requires order { part.now.start ≤ part.now.end }
    requires room { at + part.now.end < 2 ^ 64 }
    ensures { Answers (λ _. tiles.new) result (tiles_with main.now at part.now tiles.old) }
{
    let tile = part.tile as usize;
    let place = (at + part.start, at + part.end);
    if part.part != 0 {
        return tiles.add_place(tile, place);
    }
    let codings = codings(main, &part.head)?;
    tiles.set_coding(tile, cod_of(main, &part.head), codings)?;
    tiles.add_place(tile, place)
}

/// The tile-parts from a place on, and the end behind them.
fn read_parts(
    alloc: Global,
    bytes: &[u8],
    main: &Main,
    at: usize,
    tiles: &mut TileTable,
) -> Result<(), Fault>
    requires few { main.now.siz.components ≤ 4 }
    requires tiles { length tiles.old ≡ tile_count main.now.siz }
    requires blank { parts_seen tiles.old ≡ replicate (length tiles.old) 0 }
    requires within { at ≤ length bytes.now }
    ensures { Answers (λ _. tiles.new) result (parts_from (length bytes.now) main.now bytes.now at tiles.old) }
{
    let mut seen = vec![in alloc; 0u16; tiles.len()]?;
    let mut at = at;
    // A tile-part has 14 bytes or more, so this is more often than it takes.
    for _ in 0..bytes.len() {
        let part = read_tile_part(&bytes[at..], main, &seen)?;
        let tile = part.tile as usize;
        let end = at + part.end;
        add_part(tiles, main, at, &part)?;
        seen[tile] += 1;
        if ends(bytes, end)? {
            return Ok(());
        }
        at = end;
    }
    Err(Fault::Truncated)
}

/// The tiles, by their parts.
#[tactic(auto, unfolding(crate::specs::HeadersReading::tiles_at))]
fn read_tiles(
    alloc: Global,
    bytes: &[u8],
    main: &Main,
    at: usize,
    tiles: &mut TileTable,
) -> Result<(), Fault>
    requires main { IsProfileMain main.now }
    requires tiles { length tiles.old ≡ tile_count main.now.siz }
    requires blank { parts_seen tiles.old ≡ replicate (length tiles.old) 0 }
    requires counted { AreCountable tiles.old }
    requires within { at ≤ length bytes.now }
    ensures { Answers (λ _. tiles.new) result (tiles_at main.now bytes.now at tiles.old) }
{
    read_parts(alloc, bytes, main, at, tiles)?;
    if count_own(&main.siz, tiles) > MOST_PACKETS {
        return Err(Fault::Limit);
    }
    Ok(())
}

/// The main header and the tile-parts.
#[tactic(auto, using(crate::proofs::BlankLaws::blank_length, crate::proofs::BlankLaws::blank_seen, crate::proofs::BlankLaws::blank_counted), unfolding(crate::specs::HeadersReading::headers_at))]
fn headers(alloc: Global, bytes: &[u8]) -> Result<Codestream, Fault>
    ensures { Answers (λ c. c) result (headers_at bytes.now) }
{
    let ((main, at), codings) = main_fields(bytes)?;
    let mut tiles = TileTable::new(alloc, tile_count(&main.siz), copy(&main.cod), codings)?;
    read_tiles(alloc, bytes, &main, at, &mut tiles)?;
    Ok(Codestream::new(main.siz, tiles))
}

/// What the headers of a codestream say: the main header, the tile-parts and EOC, which is the end
/// (T.800 A.3).
///
/// The faults of the main header are those of `read_main`; then, of each component's coding,
/// BadValue for fewer exponents than sub-bands or less than no magnitude plane, and Limit for more
/// than 23; then Limit for more than 2^24 packets by these codings. Of each tile-part, those of
/// `read_tile_part`, and of a tile's first part those of its codings; behind it BadMarker where
/// neither SOT nor EOC stands, and SurplusBytes after EOC. Last, Limit for more than 2^24 packets
/// by the tiles' own codings.
pub fn read_codestream(alloc: Global, bytes: &[u8]) -> Result<Codestream, Fault>
    ensures exact { Answers (λ c. c) result (headers_at bytes.now) }
    // What is read are the headers of a codestream.
    ensures found { IfOk result (λ c. IsHeaders bytes.now c) }
    // The headers of a codestream are read.
    ensures only { (h : Headers) → IsHeaders bytes.now h → Answers (λ c. c) result (Ok h) }
    // The data of each tile's parts stand at its places.
    ensures contents { IfOk result (λ c. (tree : Tree) × IsCodestream bytes.now tree × (c ≡ headers_of tree)
        × ((t : ℕ) → t < length c.tiles
        → map (λ p. slice_range bytes.now p.0 p.1) (tile_in c.tiles t).data_places
        ≡ map (λ p. p.content) (of_tile t tree.parts))) }
    // The places lie in the codestream, and the fields are of the profile.
    ensures sound { IfOk result (λ c. AreHeaders (length bytes.now) c) }
{
    headers(alloc, bytes)
}
