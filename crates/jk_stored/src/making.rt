//! The codestream of a window of a stored codestream.

ghost use Rattle.std.specs.Prelude.{◌≡◌, ◌+◌, ◌≤◌, ◌<◌, ◌^◌, ◌++◌, ℕ, List, [], ◌∷◌, length, map, drop, false, Some, slice_index_or, IfOk, OnOk};
ghost use Rattle.std.specs.List.{flat_map};
ghost use Rattle.jk_math.specs.declared.rect.Rect.{Rect as Area};
ghost use Rattle.jk_marks.specs.Siz.{tile_count};
ghost use Rattle.jk_marks.specs.Markers.{eoc, marker_text};
ghost use Rattle.jk_marks.specs.Copying.{main_kept_at};
ghost use Rattle.jk_marks.specs.Copying.{part_kept_at};
ghost use Rattle.jk_marks.specs.PartHeads.{part_head_at, part_head};
ghost use Rattle.jk_params.specs.Headers.{tile_in, AreHeaders};
ghost use Rattle.jk_stored.specs.Hands.{IsHeld};
ghost use Rattle.jk_stored.specs.Contents.{IsContent};
ghost use Rattle.jk_stored.specs.Making.{Made, made_text, no_size, IsMade, data_in, Shows, AreMade};

use crate::content::{Seen, content_size, put_due};
use crate::entries::read_stored;
use crate::hand::Hand;
use crate::needed::needed_in;
use crate::outline::{Outline, PartSize};
use crate::stored::Stored;
use jk_geom::{meet, reduced};
use jk_marks::{PartHead, copy_main, copy_part_segments, put_part_head};
use jk_math::{Fault, Rect};
use jk_params::{Codestream, PacketMarkers};
use jk_walk::shape_of;
use std::alloc::Global;

/// A window of the image that is reduced by so many levels.
#[derive(Clone, Copy)]
pub(crate) struct Sight {
    pub(crate) window: Rect,
    pub(crate) reduce: u8,
}

/// What the codestream of a window is made of: a stored codestream, its outline, what its headers
/// say, but for where the data stand, and the window.
#[derive(Drop)]
pub(crate) struct Sources<'a, S> {
    pub(crate) stored: &'a S,
    pub(crate) outline: &'a Outline,
    pub(crate) headers: &'a Codestream,
    pub(crate) sight: Sight,
}

/// Where the data of a tile's only tile-part stand in the codestream, where the part begins at these
/// places of the outline and of the codestream.
///
/// A fault where the tile has several, or the headers contradict it.
fn data_in(
    headers: &Codestream,
    tile: usize,
    at: usize,
    place: usize,
    size: usize,
) -> Result<(usize, usize), Fault>
    requires tile { tile < length headers.now.tiles }
    requires fits { place + size < 2 ^ 64 }
    ensures one { OnOk result (length (tile_in headers.now.tiles tile).data_places ≡ 1) }
    ensures value { IfOk result (λ p. p ≡ data_in headers.now tile at place size) }
    ensures order { IfOk result (λ p. p.0 ≤ p.1) }
{
    let places = headers.data_places(tile);
    if places.len() != 1 {
        return Err(Fault::Limit);
    }
    let (data, _) = places[0];
    if data < at || size < data - at {
        return Err(Fault::BadLength);
    }
    Ok((place + (data - at), place + size))
}

/// The head of a tile-part, and its segments without PLT.
#[derive(Drop)]
struct Head {
    head: PartHead,
    segments: Vec<u8>,
}

/// The head of a tile's only tile-part, which stands at a place of the outline.
///
/// A fault where another head stands there.
fn head_of(alloc: Global, outline: &[u8], at: usize, tile: usize) -> Result<Head, Fault>
    requires { at ≤ length outline.now }
    ensures head { IfOk result (λ h. part_head_at (drop at outline.now) ≡ Some h.head) }
    ensures kept { IfOk result (λ h. h.segments.items ≡ part_kept_at (drop at outline.now)) }
    ensures own { IfOk result (λ h. (h.head.tile ≡ tile) × (h.head.number ≡ 0) × (h.head.is_open ≡ false)) }
{
    let mut segments = Vec::new(alloc);
    let Some(head) = copy_part_segments(&outline[at..], &mut segments)? else {
        return Err(Fault::BadMarker);
    };
    if head.tile as usize != tile || head.number != 0 || head.is_open {
        return Err(Fault::Limit);
    }
    Ok(Head { head, segments })
}

/// Appends the head of a tile-part whose data are to have so many bytes, and takes room for these.
///
/// Limit: it would be too long.
fn put_head(head: &Head, due: usize, out: &mut Vec<u8>) -> Result<(), Fault>
    ensures { OnOk result (out.new.items ≡ out.old.items ++ part_head head.now.head head.now.segments.items due) }
{
    if head.head.size >= 1 << 31 || due >= 1 << 30 {
        return Err(Fault::Limit);
    }
    put_part_head(&head.head, &head.segments, due, out)?;
    out.reserve(due)?;
    Ok(())
}

/// Appends the tile-part of a tile, whose data stand at a place of the stored codestream, as a window
/// keeps them: how many bytes they have then is known by the entries of the packets, so that the head
/// stands before they are read.
fn put_tile<S: Stored>(
    alloc: Global,
    sources: &Sources<'_, S>,
    tile: usize,
    part: (usize, usize),
    head: &Head,
    hand: &mut Hand,
    out: &mut Vec<u8>,
) -> Result<(), Fault>
    requires sound { (size : ℕ) × AreHeaders size sources.now.headers.now }
    requires tile { tile < tile_count sources.now.headers.now.siz }
    requires part { part.0 ≤ part.1 }
    requires right { sources.now.sight.window.x1 < 2 ^ 31 }
    requires lower { sources.now.sight.window.y1 < 2 ^ 31 }
    requires few { sources.now.sight.reduce ≤ 10 }
    ensures put { OnOk result ((content : List ℕ) × (out.new.items
        ≡ out.old.items ++ (part_head head.now.head head.now.segments.items (length content) ++ content))
        × ((c : List ℕ) → S.keeps sources.now.stored.now c → part.1 ≤ length c → IsHeld c hand.old
        → IsContent c sources.now.headers.now sources.now.sight.window sources.now.sight.reduce tile part content)) }
    ensures held { (c : List ℕ) → S.keeps sources.now.stored.now c → IsHeld c hand.old → OnOk result (IsHeld c hand.new) }
{
    let shape = shape_of(sources.headers, tile);
    let cod = sources.headers.cod(tile);
    let markers = PacketMarkers {
        sop: cod.sop,
        eph: cod.eph,
    };
    let packets = read_stored(alloc, sources.stored, &shape, markers, part, hand)?;
    let names = packets.names.as_slice();
    let entries = packets.entries.as_slice();
    let Sight { window, reduce } = sources.sight;
    let top = meet(&window, &reduced(&shape.rect, reduce));
    let needed = needed_in(alloc, &shape, &top, reduce)?;
    let seen = Seen {
        shape: &shape,
        eph: cod.eph,
        top,
        reduce,
        needed: &needed,
    };
    let due = content_size(&seen, names, entries);
    put_head(head, due, out)?;
    put_due(sources.stored, &seen, names, entries, due, hand, out)?;
    Ok(())
}

/// Appends the tile-part of a tile, which begins at these places of the outline and of the
/// codestream.
fn put_part<S: Stored>(
    alloc: Global,
    sources: &Sources<'_, S>,
    tile: usize,
    at: usize,
    place: usize,
    hand: &mut Hand,
    out: &mut Vec<u8>,
) -> Result<(), Fault>
    requires sound { (size : ℕ) × AreHeaders size sources.now.headers.now }
    requires tile { tile < tile_count sources.now.headers.now.siz }
    requires part { tile < length sources.now.outline.now.parts.items }
    requires at { at ≤ length sources.now.outline.now.bytes.items }
    requires right { sources.now.sight.window.x1 < 2 ^ 31 }
    requires lower { sources.now.sight.window.y1 < 2 ^ 31 }
    requires few { sources.now.sight.reduce ≤ 10 }
    requires fits { place + (slice_index_or sources.now.outline.now.parts.items tile no_size).size < 2 ^ 64 }
    ensures put { OnOk result ((m : Made) × (out.new.items ≡ out.old.items ++ made_text m)
        × (m.size ≡ slice_index_or sources.now.outline.now.parts.items tile no_size)
        × IsMade sources.now.outline.now.bytes.items sources.now.headers.now tile at m
        × ((c : List ℕ) → S.keeps sources.now.stored.now c → place + m.size.size ≤ length c → IsHeld c hand.old
        → Shows c sources.now.headers.now sources.now.sight.window sources.now.sight.reduce tile at place m)) }
    ensures held { (c : List ℕ) → S.keeps sources.now.stored.now c → IsHeld c hand.old → OnOk result (IsHeld c hand.new) }
{
    let size = sources.outline.parts[tile].size;
    let head = head_of(alloc, &sources.outline.bytes, at, tile)?;
    let data = data_in(sources.headers, tile, at, place, size)?;
    put_tile(alloc, sources, tile, data, &head, hand, out)?;
    Ok(())
}

/// The codestream of a window: the main header without TLM; the only tile-part of each tile, without
/// PLT, in which the packets that the window doesn't need are empty (T.800 B.10.3); and EOC.
///
/// A fault where a tile has no tile-part of its own in the order of the tiles, or its packets aren't
/// read.
pub(crate) fn make<S: Stored>(
    alloc: Global,
    sources: &Sources<'_, S>,
    hand: &mut Hand,
    size: usize,
) -> Result<Vec<u8>, Fault>
    requires sound { (size : ℕ) × AreHeaders size sources.now.headers.now }
    requires right { sources.now.sight.window.x1 < 2 ^ 31 }
    requires lower { sources.now.sight.window.y1 < 2 ^ 31 }
    requires few { sources.now.sight.reduce ≤ 10 }
    requires long { 2 ≤ length sources.now.outline.now.bytes.items }
    ensures { IfOk result (λ v. (made : List Made)
        × (v.items ≡ main_kept_at sources.now.outline.now.bytes.items ++ (flat_map made_text made ++ marker_text eoc))
        × (map (λ m. m.size) made ≡ sources.now.outline.now.parts.items)
        × (length made ≡ tile_count sources.now.headers.now.siz)
        × AreMade (λ t at place m. IsMade sources.now.outline.now.bytes.items sources.now.headers.now t at m)
        0 sources.now.outline.now.main sources.now.outline.now.main made
        × ((c : List ℕ) → S.keeps sources.now.stored.now c → length c ≡ size → IsHeld c hand.old
        → AreMade (Shows c sources.now.headers.now sources.now.sight.window sources.now.sight.reduce)
        0 sources.now.outline.now.main sources.now.outline.now.main made)) }
{
    let outline = sources.outline;
    let count = sources.headers.tile_count();
    if outline.parts.len() != count {
        return Err(Fault::Limit);
    }
    let mut out = Vec::new(alloc);
    copy_main(&outline.bytes, &mut out)?;
    let mut at = outline.main;
    let mut place = outline.main;
    for tile in 0..count {
        let part = outline.parts[tile];
        if outline.bytes.len() < at || outline.bytes.len() - at < part.held {
            return Err(Fault::Truncated);
        }
        if size < place || size - place < part.size {
            return Err(Fault::Truncated);
        }
        put_part(alloc, sources, tile, at, place, hand, &mut out)?;
        at += part.held;
        place += part.size;
    }
    out.extend_from_slice(&[0xFF, 0xD9])?;
    Ok(out)
}
