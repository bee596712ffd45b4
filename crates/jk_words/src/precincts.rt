//! Precinct sizes as they are written on a command line.

use std::alloc::{AllocError, Global};

/// The greatest precinct side that has an exponent (T.800 A.6.1).
const MOST: u32 = 1 << 15;

/// The exponent of a side that a text writes, if it is a power of two that a precinct may have.
fn exponent_of(text: &str) -> Option<u32> {
    let side = text.trim().parse::<u32>().ok()?;
    if side.is_power_of_two() && side <= MOST {
        Some(side.trailing_zeros())
    } else {
        None
    }
}

/// The two digits of a size WIDTH,HEIGHT, as they stand in COD: the exponent of the height and that of
/// the width.
fn digits_of(alloc: Global, text: &str) -> Result<Option<String>, AllocError> {
    let Some((width, height)) = text.split_once(',') else {
        return Ok(None);
    };
    match (exponent_of(width), exponent_of(height)) {
        (Some(width), Some(height)) => Ok(Some(format!(in alloc; "{height:x}{width:x}")?)),
        _ => Ok(None),
    }
}

/// Precinct sizes as digits, two for each resolution: those of a size WIDTH,HEIGHT for each of so many
/// levels and the lowest resolution. Any other text stays as it is, and is judged as it is.
pub(crate) fn precinct_digits(
    alloc: Global,
    text: &str,
    levels: u32,
) -> Result<String, AllocError> {
    let Some(size) = digits_of(alloc, text)? else {
        return String::from_str(alloc, text);
    };
    let mut digits = String::new(alloc);
    for _resolution in 0..levels.min(32) + 1 {
        digits.push_str(size.as_str())?;
    }
    Ok(digits)
}
