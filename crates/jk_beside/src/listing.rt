//! The lines that list what a file keeps.

ghost use Rattle.std.specs.Prelude.{◌≡◌, ◌≤◌, ◌++◌, ◌⊎◌, ℕ, List, Ok, length, IfOk, OnOk, IfErr};
ghost use Rattle.std.specs.String.{string_bytes};
ghost use Rattle.jk_math.specs.Answer.{Answers};
ghost use Rattle.jk_math.specs.Memory.{IsMemory};
ghost use Rattle.jk_boxes.specs.Boxes.{head_size};
ghost use Rattle.jk_beside.specs.Listing.{colour_step, colours_in, colours_at, IsOthersText, IsOthersFault, IsListing, IsUnlisted};

use crate::lines::{put_colour, put_grid, put_other};
use jk_boxes::{BoxHead, COLOUR, open, read_box};
use jk_extras::{Wanted, extras_at, find, find_header};
use jk_math::Fault;
use std::alloc::Global;

/// Appends the line of a box of a JP2 header box, which begins the rest, if it has one.
fn put_header_box(
    alloc: Global,
    lines: &mut String,
    head: &BoxHead,
    rest: &[u8],
) -> Result<(), Fault>
    requires head { head_size head.now.form ≤ head.now.size }
    requires whole { head.now.size ≤ length rest.now }
    ensures ok { OnOk result (colour_step (string_bytes lines.old) 0 head.now rest.now ≡ Ok (string_bytes lines.new)) }
    ensures err { IfErr result (λ e. IsMemory e) }
{
    if head.kind == COLOUR {
        put_colour(alloc, lines, head.contents(rest))?;
    }
    Ok(())
}

/// The lines of the boxes of a JP2 header box.
fn colours(alloc: Global, header: &[u8]) -> Result<String, Fault>
    ensures { Answers string_bytes result (colours_in header.now) }
{
    let mut lines = String::new(alloc);
    let mut at = 0;
    while at < header.len() {
        let rest = &header[at..];
        let head = read_box(rest, false)?;
        put_header_box(alloc, &mut lines, &head, rest)?;
        at += head.size;
    }
    Ok(lines)
}

/// The lines of the colour specification boxes of a file.
#[tactic(auto, unfolding(crate::specs::Listing::colours_at))]
fn colour_lines(alloc: Global, file: &[u8]) -> Result<String, Fault>
    ensures { Answers string_bytes result (colours_at file.now) }
{
    if !open(file)?.jp2 {
        return Ok(String::new(alloc));
    }
    let (start, end) = find_header(file)?;
    colours(alloc, &file[start..end])
}

/// Appends the lines of boxes of XML and under UUIDs of a file, from a place on.
fn put_others(alloc: Global, lines: &mut String, file: &[u8], from: usize) -> Result<(), Fault>
    ensures ok { OnOk result ((text : List ℕ) × IsOthersText file.now from text
        × (string_bytes lines.new ≡ string_bytes lines.old ++ text)) }
    ensures err { IfErr result (λ e. IsMemory e ⊎ IsOthersFault file.now from e) }
{
    let mut at = from;
    while at < file.len() {
        let found = match find(file, at, Wanted::Others)? {
            Some(found) => found,
            None => return Ok(()),
        };
        let contents = found.head.contents(&file[found.at..]);
        put_other(alloc, lines, found.head.kind, contents)?;
        at = found.at + found.head.size;
    }
    Ok(())
}

fn listed(alloc: Global, file: &[u8]) -> Result<String, Fault>
    ensures ok { IfOk result (λ lines. IsListing file.now (string_bytes lines)) }
    ensures err { IfErr result (λ e. IsMemory e ⊎ IsUnlisted file.now e) }
{
    let told = extras_at(file)?;
    let mut lines = colour_lines(alloc, file)?;
    put_grid(alloc, &mut lines, "capture", &told.capture)?;
    put_grid(alloc, &mut lines, "display", &told.display)?;
    put_others(alloc, &mut lines, file, told.others)?;
    Ok(lines)
}

/// What `jk extras` writes of a file: a line each, `LABEL: VALUE`, in this order.
///
/// - `colour`: of each colour specification box in the JP2 header box. An enumerated one is `sRGB`,
///   `grey`, `sYCC` or `enumerated=NUMBER`, a profile `profile=SIZE`, one of another method
///   `method=NUMBER`, and one that is too short or too long `broken`. The first that is enumerated or
///   a profile counts.
/// - `capture`, `display`: the resolutions that are told, samples of a row, `x`, samples of a column,
///   each `N/DeE`: N / D * 10^E by the metre.
/// - `xml`: the size of each box of XML.
/// - `uuid`: of each box under a UUID `HEX=SIZE`, the size without the UUID.
///
/// A bare codestream has no line. The faults are those of `extras_at`, and then of `other_after`.
pub fn extras_lines(alloc: Global, file: &[u8]) -> Result<String, Fault>
    ensures ok { IfOk result (λ lines. IsListing file.now (string_bytes lines)) }
    ensures err { IfErr result (λ e. IsMemory e ⊎ IsUnlisted file.now e) }
{
    listed(alloc, file)
}
