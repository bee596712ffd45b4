//! What a file holds, in lines.

ghost use Rattle.std.specs.Prelude.{◌≡◌, ◌≤◌, ◌+◌, ◌++◌, ◌==◌, ℕ, List, length, slice_range, Ok, Err, IfOk, OnOk};
ghost use Rattle.std.specs.List.{count_by};
ghost use Rattle.std.specs.String.{string_bytes};
ghost use Rattle.jk_math.specs.Answer.{Answers};
ghost use Rattle.jk_math.specs.declared.fault.Fault.{Fault as FaultValue};
ghost use Rattle.jk_marks.specs.Siz.{IsSiz, tile_count};
ghost use Rattle.jk_marks.specs.Copying.{main_size_at};
ghost use Rattle.jk_geom.specs.Rectangles.{IsArea};
ghost use Rattle.jk_geom.specs.Partitions.{image_area, reduced_area};
ghost use Rattle.jk_params.specs.Headers.{AreHeaders};
ghost use Rattle.jk_window.specs.Indexing.{IndexFields, IsIndexOf};
ghost use Rattle.jk_params.specs.Levels.{least_levels};
ghost use Rattle.jk_commands.specs.HeaderMarkers.{is_read};
ghost use Rattle.jk_commands.specs.Lines.{line_of, info_at};
ghost use Rattle.jk_commands.specs.AllLines.{box_values, boxes_in, marker_value, passed_values, frame_value};
ghost use Rattle.jk_commands.specs.AllLines.{frame_values, coding_lines, lines_below, lines_of, all_at};

use crate::box_list::boxes;
use crate::coding_values::{Flag, block_values, flag_values, precinct_values, style_values};
use crate::markers::header_markers;
use crate::telling::line;
use crate::values::{kind_name, name_of_marker, put_line, put_number, put_pair, put_size};
use jk_boxes::{Boxed, open};
use jk_geom::resolution;
use jk_marks::{Siz, marker, read_main};
use jk_math::{Fault, Rect};
use jk_params::{Codestream, read_codestream};
use jk_window::{Index, index};
use std::alloc::{AllocError, Global};

/// The kind and the length of each box of a file, in order.
#[tactic(auto, unfolding(crate::specs::AllLines::box_values))]
fn box_values(alloc: Global, place: Boxed, bytes: &[u8]) -> Result<String, AllocError>
    ensures { IfOk result (λ s. string_bytes s ≡ box_values (boxes_in place bytes.now)) }
{
    let mut values = String::new(alloc);
    if place.jp2 {
        let boxes = boxes(alloc, bytes)?;
        for (kind, size) in &boxes {
            let name = kind_name(alloc, *kind)?;
            put_pair(alloc, &mut values, name.as_str(), *size as u64)?;
        }
    }
    Ok(values)
}

/// How often a marker stands among others.
fn count(markers: &[u16], marker: u16) -> usize
    ensures { result ≡ count_by (λ k. k == marker) markers.now }
{
    markers.iter().filter(|other| **other == marker).count()
}

/// Whether a marker segment says something: all others in a header are passed over.
fn is_read(marker: u16) -> bool
    ensures { result ≡ is_read marker }
{
    matches!(
        marker,
        marker::SIZ | marker::COD | marker::COC | marker::QCD | marker::QCC
    )
}

/// Appends how many segments of a marker are passed over, if there are any.
fn put_marker(
    alloc: Global,
    values: &mut String,
    marker: u16,
    count: usize,
) -> Result<(), AllocError>
    ensures { OnOk result (string_bytes values.new ≡ string_bytes values.old ++ marker_value marker count) }
{
    if is_read(marker) || count == 0 {
        return Ok(());
    }
    let name = name_of_marker(alloc, marker)?;
    put_pair(alloc, values, name.as_str(), count as u64)
}

/// How many segments of each marker are passed over.
#[tactic(auto, using(crate::proofs::WalkLoops::texts_none, crate::proofs::WalkLoops::texts_more), unfolding(crate::specs::AllLines::passed_values))]
fn passed_values(alloc: Global, markers: &[u16]) -> Result<String, AllocError>
    ensures { IfOk result (λ s. string_bytes s ≡ passed_values (λ m. count_by (λ k. k == m) markers.now)) }
{
    let mut values = String::new(alloc);
    for number in 0..256u16 {
        let marker = 0xFF00 + number;
        put_marker(alloc, &mut values, marker, count(markers, marker))?;
    }
    Ok(values)
}

/// The place of the image on the reference grid.
fn image_area(siz: &Siz) -> Rect
    requires { IsSiz siz.now }
    ensures value { result ≡ image_area siz.now }
    ensures area { IsArea result }
{
    Rect {
        x0: siz.x0,
        y0: siz.y0,
        x1: siz.x1,
        y1: siz.y1,
    }
}

/// Appends the size of a reduced image, if that has a sample.
fn put_frame(alloc: Global, values: &mut String, area: &Rect) -> Result<(), AllocError>
    requires { IsArea area.now }
    ensures { OnOk result (string_bytes values.new ≡ string_bytes values.old ++ frame_value area.now) }
{
    if area.x1 <= area.x0 || area.y1 <= area.y0 {
        return Ok(());
    }
    put_size(
        alloc,
        values,
        (area.x1 - area.x0) as u64,
        (area.y1 - area.y0) as u64,
    )
}

/// The size of the image at each reduction up to this one.
#[tactic(auto, using(crate::proofs::WalkLoops::texts_none, crate::proofs::WalkLoops::texts_more), unfolding(crate::specs::AllLines::frame_values))]
fn frame_values(alloc: Global, headers: &Codestream, levels: u8) -> Result<String, AllocError>
    requires headers { (size : ℕ) × AreHeaders size headers.now }
    requires levels { levels ≡ least_levels headers.now.tiles (tile_count headers.now.siz) }
    requires few { levels ≤ 10 }
    ensures { IfOk result (λ s. string_bytes s ≡ frame_values headers.now) }
{
    let mut values = String::new(alloc);
    let area = image_area(headers.siz());
    for reduce in 0..levels + 1 {
        put_frame(alloc, &mut values, &resolution(&area, reduce, 0))?;
    }
    Ok(values)
}

/// Appends what decides the size of windows.
fn put_coding(alloc: Global, lines: &mut String, headers: &Codestream) -> Result<(), AllocError>
    requires { (size : ℕ) × AreHeaders size headers.now }
    ensures { OnOk result (string_bytes lines.new ≡ string_bytes lines.old ++ coding_lines headers.now) }
{
    let blocks = block_values(alloc, headers)?;
    put_line(lines, "code-blocks", blocks.as_str())?;
    let style = style_values(alloc, headers)?;
    put_line(lines, "block-style", style.as_str())?;
    let precincts = precinct_values(alloc, headers)?;
    put_line(lines, "precincts", precincts.as_str())?;
    let sop = flag_values(alloc, headers, Flag::Sop, "yes", "no")?;
    put_line(lines, "SOP", sop.as_str())?;
    let eph = flag_values(alloc, headers, Flag::Eph, "yes", "no")?;
    put_line(lines, "EPH", eph.as_str())?;
    let colour = flag_values(alloc, headers, Flag::Colour, "reversible", "none")?;
    put_line(lines, "colour-transform", colour.as_str())?;
    Ok(())
}

/// The lines of a file, whose codestream has these headers, of which the main header takes `size`
/// bytes.
fn lines(
    alloc: Global,
    bytes: &[u8],
    index: &Index,
    place: Boxed,
    headers: &Codestream,
    size: usize,
) -> Result<String, AllocError>
    requires sound { (n : ℕ) × AreHeaders n headers.now }
    requires same { headers.now ≡ index.now.headers }
    requires order { place.start ≤ place.end }
    requires within { place.end ≤ length bytes.now }
    requires size { size ≡ main_size_at (slice_range bytes.now place.start place.end) }
    requires main { size ≤ length (slice_range bytes.now place.start place.end) }
    ensures { IfOk result (λ s. string_bytes s ≡ line_of index.now ++ lines_below bytes.now place headers.now) }
{
    let carried = header_markers(alloc, &bytes[place.start..place.end], size)?;
    let mut lines = line(alloc, index)?;
    let boxes = box_values(alloc, place, bytes)?;
    put_line(&mut lines, "boxes", boxes.as_str())?;
    let mut parts = String::new(alloc);
    put_number(alloc, &mut parts, carried.parts as u64)?;
    put_line(&mut lines, "tile-parts", parts.as_str())?;
    put_coding(alloc, &mut lines, headers)?;
    let passed = passed_values(alloc, &carried.markers)?;
    put_line(&mut lines, "passed-over", passed.as_str())?;
    let frames = frame_values(alloc, headers, index.levels())?;
    put_line(&mut lines, "sizes", frames.as_str())?;
    Ok(lines)
}

/// What `jk info --all` writes of a file: the line of `jk info`, and below it a line each, LABEL:
/// VALUE VALUE .., in this order.
///
/// - `boxes`: KIND=LENGTH of each box of the file, in order; what isn't a letter or a digit of a
///   kind stands as % and two hexadecimal digits. `none` for a bare codestream.
/// - `tile-parts`: how many there are.
/// - `code-blocks`: WIDTHxHEIGHT.
/// - `block-style`: `reset`, `causal` and `segments`, those that the code-blocks have, or `none`.
/// - `precincts`: WIDTHxHEIGHT of each resolution, from the lowest on.
/// - `SOP`, `EPH`: `yes` or `no`.
/// - `colour-transform`: `reversible` or `none`.
/// - `passed-over`: NAME=COUNT of the marker segments in all headers that say nothing of the image;
///   the name of a marker of another standard is four hexadecimal digits. `none` without them.
/// - `sizes`: WIDTHxHEIGHT of the image at each reduction, from 0 on.
///
/// Where tiles or components aren't alike in what a line from `code-blocks` to `colour-transform`
/// tells, it has the value `differ`.
///
/// The faults are those of `info_file`.
pub fn info_all_file(alloc: Global, bytes: &[u8]) -> Result<String, Fault>
    ensures exact { Answers string_bytes result (all_at bytes.now) }
    // What has an index has these lines: of its boxes, of the segments and tile-parts of its tree,
    // and of its headers.
    ensures means { (i : IndexFields) (is : IsIndexOf bytes.now i) → Answers string_bytes result (Ok (lines_of is)) }
    // The faults are those of `info_file`, and the first line is its line.
    ensures refused { (e : FaultValue) → info_at bytes.now ≡ Err e → Answers string_bytes result (Err e) }
    ensures first { (text : List ℕ) → info_at bytes.now ≡ Ok text
        → (others : List ℕ) × (all_at bytes.now ≡ Ok (text ++ others)) }
{
    told(alloc, bytes)
}

/// The lines of a file.
#[tactic(auto, unfolding(crate::specs::AllLines::all_at))]
fn told(alloc: Global, bytes: &[u8]) -> Result<String, Fault>
    ensures { Answers string_bytes result (all_at bytes.now) }
{
    let index = index(alloc, bytes)?;
    let place = open(bytes)?;
    let (_, size) = read_main(&bytes[place.start..place.end])?;
    let headers = read_codestream(alloc, &bytes[place.start..place.end])?;
    Ok(lines(alloc, bytes, &index, place, &headers, size)?)
}
