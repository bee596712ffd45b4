//! Indexing a file.

ghost use Rattle.std.specs.Prelude.{◌≡◌, ◌≤◌, length, slice_range, IfOk, Ok};
ghost use Rattle.jk_math.specs.Answer.{Answers};
ghost use Rattle.jk_marks.specs.Siz.{tile_count};
ghost use Rattle.jk_boxes.specs.Reading.{boxes_at, form_at};
ghost use Rattle.jk_params.specs.Headers.{AreHeaders};
ghost use Rattle.jk_window.specs.Indexing.{IndexFields, IsIndexOf, AreIndexed, entries_upto, fields_at, index_at};

use crate::around::read_around;
use crate::kept::Index;
use crate::packed::PackedEntries;
use crate::packing::pack;
use crate::parts::all_part_ends;
use jk_boxes::{Boxed, Form, code_form, open};
use jk_marks::read_main;
use jk_math::Fault;
use jk_params::{Codestream, read_codestream};
use jk_walk::read_entries;
use std::alloc::Global;

/// The entries of the packets of all tiles.
fn all_entries(
    alloc: Global,
    headers: &Codestream,
    bytes: &[u8],
) -> Result<Vec<PackedEntries>, Fault>
    requires { AreHeaders (length bytes.now) headers.now }
    ensures exact { Answers (λ v. v.items) result (entries_upto bytes.now headers.now (tile_count headers.now.siz)) }
    ensures within { IfOk result (λ v. AreIndexed (length bytes.now) headers.now v.items) }
{
    let mut all = Vec::with_capacity(alloc, headers.tile_count())?;
    for number in 0..headers.tile_count() {
        let entries = read_entries(alloc, headers, bytes, number)?;
        all.push(pack(alloc, entries.as_slice())?)?;
    }
    Ok(all)
}

/// The index of a file, whose codestream stands at a place, and the length of whose box is told so.
#[tactic(auto, unfolding(crate::specs::Indexing::fields_at))]
fn read_index(alloc: Global, file: &[u8], place: Boxed, form: Form) -> Result<Index, Fault>
    requires opened { boxes_at file.now ≡ Ok place }
    requires told { form_at file.now ≡ Ok form }
    requires order { place.start ≤ place.end }
    requires within { place.end ≤ length file.now }
    ensures { Answers (λ i. i) result
        (fields_at place form (length file.now) (slice_range file.now place.start place.end)) }
{
    let bytes = &file[place.start..place.end];
    let (main, _) = read_main(bytes)?;
    let headers = read_codestream(alloc, bytes)?;
    let packets = all_entries(alloc, &headers, bytes)?;
    let around = read_around(alloc, &headers, bytes, form, file.len())?;
    let parts = all_part_ends(alloc, &headers, &packets)?;
    let cod = &main.cod;
    Ok(Index::new(
        place, cod.layers, cod.order, headers, packets, around, parts,
    ))
}

/// The index of a file.
#[tactic(auto, unfolding(crate::specs::Indexing::index_at))]
fn indexing(alloc: Global, bytes: &[u8]) -> Result<Index, Fault>
    ensures { Answers (λ i. i) result (index_at bytes.now) }
{
    let place = open(bytes)?;
    let form = code_form(bytes)?;
    read_index(alloc, bytes, place, form)
}

/// The index of a file, bare or JP2: its boxes, all headers and all packets are read.
///
/// The first of these faults: those of the boxes, as `open` names them; those of `read_codestream`;
/// then, tile by tile, those of its packets, as `read_packets` names them. Code-blocks aren't
/// decoded.
pub fn index(alloc: Global, bytes: &[u8]) -> Result<Index, Fault>
    // Which index, or which fault is the first.
    ensures exact { Answers (λ i. i) result (index_at bytes.now) }
    // What is given is the index of the file.
    ensures found { IfOk result (λ i. IsIndexOf bytes.now i) }
    // A file that has an index gives it.
    ensures only { (i : IndexFields) → IsIndexOf bytes.now i → Answers (λ x. x) result (Ok i) }
{
    indexing(alloc, bytes)
}
