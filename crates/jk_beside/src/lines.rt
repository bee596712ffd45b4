//! A line for each thing that a file keeps.

ghost use Rattle.std.specs.Prelude.{◌≡◌, ◌<◌, ◌++◌, length, codes, OnOk, IfErr};
ghost use Rattle.std.specs.String.{string_bytes};
ghost use Rattle.std.specs.Fmt.{decimal};
ghost use Rattle.jk_math.specs.Answer.{Answers};
ghost use Rattle.jk_math.specs.Memory.{IsMemory};
ghost use Rattle.jk_beside.specs.Listing.{told_line, space_name, enumerated_value, profile_value, method_value, colour_value, ratio_text, grid_value, grid_line};
ghost use Rattle.jk_beside.specs.Listing.{other_behind};

use byteorder::{BigEndian, ByteOrder};
use jk_extras::{Grid, Ratio, XML};
use jk_math::Fault;
use std::alloc::{AllocError, Global};

/// Appends a line: a label, and a value.
fn put_line(lines: &mut String, label: &str, value: &str) -> Result<(), AllocError>
    ensures { OnOk result (string_bytes lines.new ≡ string_bytes lines.old ++ told_line label.now value.now) }
{
    lines.push_str(label)?;
    lines.push_str(": ")?;
    lines.push_str(value)?;
    lines.push_str("\n")
}

/// Appends a word, and a number.
fn put_number(alloc: Global, value: &mut String, word: &str, number: u64) -> Result<(), AllocError>
    ensures { OnOk result (string_bytes value.new ≡ string_bytes value.old ++ (word.now ++ decimal number)) }
{
    value.push_str(word)?;
    value.push_str(number.to_string(alloc)?.as_str())
}

/// Appends the name of an enumerated colour space.
fn put_space(alloc: Global, value: &mut String, number: u32) -> Result<(), AllocError>
    ensures { OnOk result (string_bytes value.new ≡ string_bytes value.old ++ space_name number) }
{
    match number {
        16 => value.push_str("sRGB"),
        17 => value.push_str("grey"),
        18 => value.push_str("sYCC"),
        _ => put_number(alloc, value, "enumerated=", number as u64),
    }
}

/// Appends what the contents of a colour specification box say of an enumerated colour space.
fn put_enumerated(alloc: Global, value: &mut String, contents: &[u8]) -> Result<(), AllocError>
    ensures { OnOk result (string_bytes value.new ≡ string_bytes value.old ++ enumerated_value contents.now) }
{
    if contents.len() != 7 {
        return value.push_str("broken");
    }
    put_space(alloc, value, BigEndian::read_u32(&contents[3..]))
}

/// Appends how long the profile in the contents of a colour specification box is.
fn put_profile(alloc: Global, value: &mut String, contents: &[u8]) -> Result<(), AllocError>
    ensures { OnOk result (string_bytes value.new ≡ string_bytes value.old ++ profile_value contents.now) }
{
    if contents.len() <= 3 {
        return value.push_str("broken");
    }
    put_number(alloc, value, "profile=", (contents.len() - 3) as u64)
}

/// Appends the number of another method.
fn put_method(alloc: Global, value: &mut String, contents: &[u8]) -> Result<(), AllocError>
    requires { 0 < length contents.now }
    ensures { OnOk result (string_bytes value.new ≡ string_bytes value.old ++ method_value contents.now) }
{
    put_number(alloc, value, "method=", contents[0] as u64)
}

/// Appends what the contents of a colour specification box say.
#[tactic(auto, unfolding(crate::specs::Listing::colour_value))]
fn put_colour_value(alloc: Global, value: &mut String, contents: &[u8]) -> Result<(), AllocError>
    ensures { OnOk result (string_bytes value.new ≡ string_bytes value.old ++ colour_value contents.now) }
{
    if contents.len() < 3 {
        return value.push_str("broken");
    }
    let method = contents[0];
    if method == 1 {
        return put_enumerated(alloc, value, contents);
    }
    if method == 2 {
        return put_profile(alloc, value, contents);
    }
    put_method(alloc, value, contents)
}

/// Appends the line of a colour specification box.
pub(crate) fn put_colour(alloc: Global, lines: &mut String, contents: &[u8]) -> Result<(), Fault>
    ensures ok { OnOk result
        (string_bytes lines.new ≡ string_bytes lines.old ++ told_line (codes "colour") (colour_value contents.now)) }
    ensures err { IfErr result (λ e. IsMemory e) }
{
    let mut value = String::new(alloc);
    put_colour_value(alloc, &mut value, contents)?;
    put_line(lines, "colour", value.as_str())?;
    Ok(())
}

/// Appends a number of samples by the metre.
fn put_ratio(alloc: Global, value: &mut String, ratio: Ratio) -> Result<(), AllocError>
    ensures { OnOk result (string_bytes value.new ≡ string_bytes value.old ++ ratio_text ratio) }
{
    put_number(alloc, value, "", ratio.numerator as u64)?;
    put_number(alloc, value, "/", ratio.denominator as u64)?;
    value.push_str("e")?;
    value.push_str(ratio.exponent.to_string(alloc)?.as_str())
}

/// Appends what a resolution says.
fn put_grid_value(alloc: Global, value: &mut String, grid: &Grid) -> Result<(), AllocError>
    ensures { OnOk result (string_bytes value.new ≡ string_bytes value.old ++ grid_value grid.now) }
{
    put_ratio(alloc, value, grid.across)?;
    value.push_str("x")?;
    put_ratio(alloc, value, grid.down)
}

/// Appends the line of a resolution, where there is one.
pub(crate) fn put_grid(
    alloc: Global,
    lines: &mut String,
    label: &str,
    grid: &Option<Grid>,
) -> Result<(), Fault>
    ensures ok { OnOk result (string_bytes lines.new ≡ string_bytes lines.old ++ grid_line label.now grid.now) }
    ensures err { IfErr result (λ e. IsMemory e) }
{
    let Some(grid) = grid else {
        return Ok(());
    };
    let mut value = String::new(alloc);
    put_grid_value(alloc, &mut value, grid)?;
    put_line(lines, label, value.as_str())?;
    Ok(())
}

/// Appends the line of a box of XML, or of one under a UUID.
#[tactic(auto, unfolding(crate::specs::Listing::other_line))]
pub(crate) fn put_other(
    alloc: Global,
    lines: &mut String,
    kind: u32,
    contents: &[u8],
) -> Result<(), Fault>
    ensures { Answers (λ _. string_bytes lines.new) result (other_behind (string_bytes lines.old) kind contents.now) }
{
    if kind == XML {
        put_line(lines, "xml", contents.len().to_string(alloc)?.as_str())?;
        return Ok(());
    }
    if contents.len() < 16 {
        return Err(Fault::BadBox);
    }
    let mut value = hex::encode(alloc, &contents[..16])?;
    put_number(alloc, &mut value, "=", (contents.len() - 16) as u64)?;
    put_line(lines, "uuid", value.as_str())?;
    Ok(())
}
