//! What a file holds, in one line.

ghost use Rattle.std.specs.Prelude.{◌≡◌, ◌++◌, OnOk, IfOk};
ghost use Rattle.std.specs.String.{string_bytes};
ghost use Rattle.jk_math.specs.Answer.{Answers};
ghost use Rattle.jk_commands.specs.Lines.{spaced, image_text, coding_text, counts_text, line_of, info_at};

use jk_math::Fault;
use jk_options::order_name;
use jk_window::{Index, index};
use std::alloc::{AllocError, Global};

/// Appends a number and a space.
fn put_number(alloc: Global, line: &mut String, number: u64) -> Result<(), AllocError>
    ensures { OnOk result (string_bytes line.new ≡ string_bytes line.old ++ spaced number) }
{
    line.push_str(number.to_string(alloc)?.as_str())?;
    line.push_str(" ")
}

/// Appends what an index says of the image.
fn put_image(alloc: Global, line: &mut String, index: &Index) -> Result<(), AllocError>
    ensures { OnOk result (string_bytes line.new ≡ string_bytes line.old ++ image_text index.now) }
{
    put_number(alloc, line, index.width() as u64)?;
    put_number(alloc, line, index.height() as u64)?;
    put_number(alloc, line, index.components() as u64)?;
    put_number(alloc, line, index.depth() as u64)
}

/// Appends what an index says of the coding.
fn put_coding(alloc: Global, line: &mut String, index: &Index) -> Result<(), AllocError>
    ensures { OnOk result (string_bytes line.new ≡ string_bytes line.old ++ coding_text index.now) }
{
    put_number(alloc, line, index.levels() as u64)?;
    put_number(alloc, line, index.layers() as u64)?;
    line.push_str(order_name(index.order()))?;
    line.push_str(" ")
}

/// Appends how many tiles and packets an index counts.
fn put_counts(alloc: Global, line: &mut String, index: &Index) -> Result<(), AllocError>
    ensures { OnOk result (string_bytes line.new ≡ string_bytes line.old ++ counts_text index.now) }
{
    put_number(alloc, line, index.tiles() as u64)?;
    line.push_str(index.packets().to_string(alloc)?.as_str())
}

/// The line of an index.
pub(crate) fn line(alloc: Global, index: &Index) -> Result<String, AllocError>
    ensures { IfOk result (λ s. string_bytes s ≡ line_of index.now) }
{
    let mut line = String::new(alloc);
    put_image(alloc, &mut line, index)?;
    put_coding(alloc, &mut line, index)?;
    put_counts(alloc, &mut line, index)?;
    line.push_str("\n")?;
    Ok(line)
}

/// What `jk info` writes of a file: width, height, components, depth, the least number of
/// decomposition levels, layers, the order of packets, tiles and packets. Layers and order are
/// those of the main header.
///
/// The faults are those of `jk_window::index`.
#[tactic(auto, unfolding(crate::specs::Lines::info_at))]
pub fn info_file(alloc: Global, bytes: &[u8]) -> Result<String, Fault>
    ensures exact { Answers string_bytes result (info_at bytes.now) }
{
    let index = index(alloc, bytes)?;
    Ok(line(alloc, &index)?)
}
