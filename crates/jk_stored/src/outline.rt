//! The outline of a stored codestream.

ghost use Rattle.std.specs.Prelude.{◌≡◌, ◌+◌, ◌≤◌, ◌<◌, ◌^◌, ◌++◌, ℕ, List, [], ◌∷◌, length, take, drop, map, true, IfOk};
ghost use Rattle.byteorder.specs.Endian.{big_bytes};
ghost use Rattle.jk_marks.specs.Markers.{eoc, marker_text};
ghost use Rattle.jk_stored.specs.Outlines.{Front, IsFront, shortened, outline, HasOutline, size_of};

use crate::stored::Stored;
use byteorder::{BigEndian, ByteOrder};
use jk_marks::read_main;
use jk_math::Fault;
use std::alloc::Global;

/// How many bytes of a tile-part stand in an outline at most: its head with them.
const HEAD_ROOM: usize = 4096;

/// How many tile-parts are read at most.
const MOST_PARTS: usize = 1 << 14;

/// How many bytes a tile-part has in the outline, and how many in the codestream.
#[derive(Clone, Copy, Debug, PartialEq, Eq, Drop)]
pub(crate) struct PartSize {
    pub(crate) held: usize,
    pub(crate) size: usize,
}

/// The outline of a codestream: its main header, and each tile-part up to a place behind its head, as
/// if it ended there (T.800 A.4.2).
#[derive(Drop)]
pub(crate) struct Outline {
    pub(crate) bytes: Vec<u8>,
    /// How many bytes the main header has.
    pub(crate) main: usize,
    pub(crate) parts: Vec<PartSize>,
}

/// Psot of the tile-part that these bytes begin (T.800 A.4.2).
fn psot(head: &[u8]) -> u32
    requires { 10 ≤ length head.now }
    ensures { take 4 (drop 6 head.now) ≡ big_bytes 4 result }
{
    BigEndian::read_u32(&head[6..])
}

/// Appends the front of the tile-part that begins at a place of a codestream of so many bytes.
///
/// A fault where none begins there that its Psot tells.
fn put_front<S: Stored>(
    stored: &S,
    at: usize,
    size: usize,
    room: &mut [u8],
    bytes: &mut Vec<u8>,
) -> Result<PartSize, Fault>
    requires { at ≤ size }
    ensures front { IfOk result (λ p. (f : Front) × (bytes.new.items ≡ bytes.old.items ++ shortened f)
        × (p.held ≡ length f.bytes) × (p.size ≡ f.size)
        × ((c : List ℕ) → S.keeps stored.now c → length c ≡ size → IsFront c at f)) }
    ensures within { IfOk result (λ p. at + p.size ≤ size) }
{
    let count = stored.read_at(at, room)?;
    if count < 14 {
        return Err(Fault::Truncated);
    }
    let size_told = psot(room) as usize;
    if size_told < 14 || size_told > size - at {
        return Err(Fault::BadLength);
    }
    let held = size_told.min(count);
    bytes.extend_from_slice(&room[..6])?;
    bytes.extend_from_slice(&(held as u32).to_be_bytes())?;
    bytes.extend_from_slice(&room[10..held])?;
    Ok(PartSize {
        held,
        size: size_told,
    })
}

/// Whether EOC stands at a place of a codestream of so many bytes, and ends it.
fn ends<S: Stored>(stored: &S, at: usize, size: usize) -> Result<bool, Fault>
    requires { at ≤ size }
    ensures { IfOk result (λ b. b ≡ true → (c : List ℕ) → S.keeps stored.now c → length c ≡ size
        → drop at c ≡ marker_text eoc) }
{
    let mut last = [0u8; 2];
    let count = stored.read_at(at, &mut last)?;
    Ok(count == 2 && size - at == 2 && last == [0xFF, 0xD9])
}

/// The outline of a codestream of so many bytes, of which these are the first.
///
/// A fault where it has no main header in these, where its tile-parts aren't told by their Psot, one
/// after another up to EOC, or where there are more than 16,384 of them.
pub(crate) fn read_outline<S: Stored>(
    alloc: Global,
    stored: &S,
    front: &[u8],
    size: usize,
) -> Result<Outline, Fault>
    requires { (c : List ℕ) → S.keeps stored.now c → front.now ≡ take (length front.now) c }
    ensures { IfOk result (λ o. (main : List ℕ) × (fronts : List Front) × (o.bytes.items ≡ outline main fronts)
        × (o.main ≡ length main) × (o.parts.items ≡ map size_of fronts)
        × ((c : List ℕ) → S.keeps stored.now c → length c ≡ size → HasOutline c main fronts)) }
{
    let (_, main) = read_main(front)?;
    if main > size {
        return Err(Fault::Truncated);
    }
    let mut bytes = Vec::from_slice(alloc, &front[..main])?;
    let mut parts = Vec::new(alloc);
    let mut room = vec![in alloc; 0u8; HEAD_ROOM]?;
    let mut at = main;
    for _ in 0..MOST_PARTS {
        let is_end = ends(stored, at, size)?;
        if is_end {
            bytes.extend_from_slice(&[0xFF, 0xD9])?;
            return Ok(Outline { bytes, main, parts });
        }
        let part = put_front(stored, at, size, &mut room, &mut bytes)?;
        at += part.size;
        parts.push(part)?;
    }
    Err(Fault::Limit)
}
