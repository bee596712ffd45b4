//! Reading the file of an entry by parts.

ghost use Rattle.std.specs.Prelude.{◌≡◌, ◌<◌, ◌≤◌, ◌++◌, ◌∷◌, [], ℕ, List, length, true, false, IfOk, IfErr, OnOk};
ghost use Rattle.jk_math.specs.Memory.{IsMemory};
ghost use Rattle.jk_walk.specs.TilePackets.{slice_of};
ghost use Rattle.jk_store.specs.Parts.{part_length, part_count};
ghost use Rattle.jk_store.specs.PartsGiven.{file_of, size_of, GivenPart, IsPartOfFile, HasParts, PartsRead, PartsRefused};
ghost use Rattle.jk_store.specs.Readings.{IsReading, HoldsOf};

use crate::entry::Entry;
use crate::hashed::HashedParts;
use crate::names;
use crate::parts::PART_SIZE;
use crate::shelf::Shelf;
use jk_math::Fault;
use std::alloc::Global;

/// The file of an entry while parts of it are read: its name, its length, and the part that was
/// read last. No part is empty, so where no bytes are held none was read.
#[derive(Drop)]
pub(crate) struct Reading {
    name: String,
    size: usize,
    number: usize,
    part: Vec<u8>,
}

impl Reading {
    /// The file of an entry, so long, of which nothing is read yet.
    pub(crate) fn new(alloc: Global, entry: &Entry, size: usize) -> Result<Reading, Fault>
        requires { size ≡ size_of entry.now }
        ensures ok { IfOk result (λ r. IsReading entry.now r) }
        ensures empty { IfOk result (λ r. r.part.items ≡ []) }
        ensures err { IfErr result IsMemory }
    {
        Ok(Reading {
            name: names::file_name(alloc, entry.name.as_str())?,
            size,
            number: 0,
            part: Vec::new(alloc),
        })
    }
}

/// Whether bytes pass for a part of an entry's file, which has so many.
fn is_part(
    entry: &Entry,
    hashed: &mut HashedParts,
    number: usize,
    length: usize,
    bytes: &[u8],
) -> bool
    requires { length ≡ part_length (size_of entry.now) number }
    ensures yes { result ≡ true → IsPartOfFile entry.now number bytes.now }
    ensures no { result ≡ false → IsPartOfFile entry.now number bytes.now → ⊥ }
{
    match entry.parts.get(number) {
        Some(digest) => bytes.len() == length && hashed.judge(bytes, digest),
        None => false,
    }
}

/// A part of an entry's file.
///
/// Changed: the shelf gave bytes of another length or another digest.
fn read_part<S: Shelf>(
    alloc: Global,
    entry: &Entry,
    shelf: &mut S,
    hashed: &mut HashedParts,
    reading: &Reading,
    number: usize,
) -> Result<Vec<u8>, Fault>
    requires reading { IsReading entry.now reading.now }
    requires there { number < part_count (size_of entry.now) }
    ensures read { IfOk result
        (λ b. PartsRead S.keeps S.gave_at S.failed entry.now shelf.old ((number, b.items) ∷ []) shelf.new) }
    ensures passes { IfOk result (λ b. IsPartOfFile entry.now number b.items) }
    ensures refused { IfErr result (λ x. PartsRefused S.keeps S.gave_at S.failed entry.now shelf.old x shelf.new) }
{
    let size = reading.size;
    let start = number * PART_SIZE;
    let most = PART_SIZE.min(size - start);
    let bytes = shelf.read_at(alloc, reading.name.as_str(), start as u64, most)?;
    if !is_part(entry, hashed, number, most, &bytes) {
        return Err(Fault::Changed);
    }
    Ok(bytes)
}

/// Sees to it that a part of an entry's file is the one that is held.
fn hold<S: Shelf>(
    alloc: Global,
    entry: &Entry,
    shelf: &mut S,
    hashed: &mut HashedParts,
    reading: &mut Reading,
    number: usize,
) -> Result<(), Fault>
    requires reading { IsReading entry.now reading.old }
    requires there { number < part_count (size_of entry.now) }
    ensures reading { OnOk result (IsReading entry.now reading.new) }
    ensures number { OnOk result (reading.new.number ≡ number) }
    ensures whole { OnOk result (length reading.new.part.items ≡ part_length (size_of entry.now) number) }
    ensures read { OnOk result
        ((given : List GivenPart) × PartsRead S.keeps S.gave_at S.failed entry.now shelf.old given shelf.new
        × ((f : List ℕ) → HasParts given f → HoldsOf reading.old f → HoldsOf reading.new f)) }
    // A part that is held isn't read again.
    ensures unread { (reading.old.part.items ≡ [] → ⊥) → reading.old.number ≡ number → shelf.new ≡ shelf.old }
    ensures refused { IfErr result (λ x. PartsRefused S.keeps S.gave_at S.failed entry.now shelf.old x shelf.new) }
{
    if !reading.part.is_empty() && reading.number == number {
        return Ok(());
    }
    reading.part = read_part(alloc, entry, shelf, hashed, &*reading, number)?;
    reading.number = number;
    Ok(())
}

/// Appends a stretch of an entry's file, read part by part.
pub(crate) fn put_stretch<S: Shelf>(
    alloc: Global,
    entry: &Entry,
    shelf: &mut S,
    hashed: &mut HashedParts,
    reading: &mut Reading,
    start: usize,
    end: usize,
    out: &mut Vec<u8>,
) -> Result<(), Fault>
    requires reading { IsReading entry.now reading.old }
    requires order { start ≤ end }
    requires within { end ≤ size_of entry.now }
    ensures reading { OnOk result (IsReading entry.now reading.new) }
    ensures read { OnOk result
        ((given : List GivenPart) × PartsRead S.keeps S.gave_at S.failed entry.now shelf.old given shelf.new
        × ((f : List ℕ) → HasParts given f → HoldsOf reading.old f
        → HoldsOf reading.new f × (out.new.items ≡ out.old.items ++ slice_of f (start, end)))) }
    ensures refused { IfErr result (λ x. PartsRefused S.keeps S.gave_at S.failed entry.now shelf.old x shelf.new) }
{
    let mut at = start;
    while at < end {
        let number = at / PART_SIZE;
        let first = number * PART_SIZE;
        hold(alloc, entry, shelf, hashed, reading, number)?;
        let stop = first + PART_SIZE.min(end - first);
        out.extend_from_slice(&reading.part[at - first..stop - first])?;
        at = stop;
    }
    Ok(())
}
