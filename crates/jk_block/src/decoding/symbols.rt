//! The segmentation symbol.

ghost use Rattle.std.specs.Prelude.{◌≡◌};
ghost use Rattle.jk_block.specs.Reading.{symbol_at, closing_at};
ghost use Rattle.jk_block.specs.Steps.{number_of};
ghost use Rattle.jk_block.specs.Symbols.{is_symbol};
ghost use Rattle.jk_block.specs.decoding.BlockStates.{Draft, TakesStep};

use crate::contexts::UNIFORM;
use crate::word_place::{Pass, ends_with_symbol};
use jk_math::{Fault, Style};
use jk_mqdec::PassDecoder;

/// Whether four bits are those of the symbol.
#[inline(always)]
fn is_symbol(first: bool, second: bool, third: bool, fourth: bool) -> bool
    ensures { result ≡ is_symbol first second third fourth }
{
    first && !second && third && !fourth
}

/// Reads a segmentation symbol (T.800 D.5). All of its decisions are read before they are compared.
#[inline(always)]
fn read_symbol(decoder: &mut PassDecoder) -> Result<(), Fault>
    ensures bytes { decoder.new.bytes ≡ decoder.old.bytes }
    ensures takes { (d : Draft) → TakesStep (symbol_at decoder.old.bytes) d d decoder.old decoder.new result }
{
    let first = decoder.decode(UNIFORM as usize)?;
    let second = decoder.decode(UNIFORM as usize)?;
    let third = decoder.decode(UNIFORM as usize)?;
    let fourth = decoder.decode(UNIFORM as usize)?;
    if !is_symbol(first, second, third, fourth) {
        return Err(Fault::BadValue);
    }
    Ok(())
}

/// Reads what ends a pass.
#[inline(always)]
pub fn end_pass(decoder: &mut PassDecoder, style: Style, pass: Pass) -> Result<(), Fault>
    ensures bytes { decoder.new.bytes ≡ decoder.old.bytes }
    ensures takes { (d : Draft)
        → TakesStep (closing_at decoder.old.bytes style (number_of pass)) d d decoder.old decoder.new result }
{
    if ends_with_symbol(style, pass) {
        return read_symbol(decoder);
    }
    Ok(())
}
