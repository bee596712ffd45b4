//! Resolutions by the inch, for people: a file tells them by the metre.

use jk_extras::{Grid, Ratio, extras_at};
use jk_math::Fault;
use std::alloc::{AllocError, Global};

/// The greatest power of ten that is shown by the inch, and the least with a minus.
const MOST_EXPONENT: u8 = 9;

/// Hundredths of samples on an inch, which is 127 / 5000 of a metre: rounded to the nearest. None where
/// the number by the metre is past all sizes.
fn hundredths(ratio: &Ratio) -> Option<u64> {
    let powers = ratio.exponent.unsigned_abs();
    if MOST_EXPONENT < powers || ratio.denominator == 0 {
        return None;
    }
    let mut numerator = ratio.numerator as u64 * 12_700;
    let mut denominator = ratio.denominator as u64 * 5_000;
    for _power in 0..powers {
        if ratio.exponent < 0 {
            denominator = denominator.saturating_mul(10);
        } else {
            numerator = numerator.saturating_mul(10);
        }
    }
    let half = denominator / 2;
    Some(numerator.saturating_add(half) / denominator.max(1))
}

/// A number of hundredths, without zeros at its end.
fn spelled(alloc: Global, hundredths: u64) -> Result<String, AllocError> {
    let (whole, part) = (hundredths / 100, hundredths % 100);
    if part == 0 {
        return whole.to_string(alloc);
    }
    if part % 10 == 0 {
        let tenths = part / 10;
        return format!(in alloc; "{whole}.{tenths}");
    }
    format!(in alloc; "{whole}.{part:02}")
}

/// Appends the line of a resolution by the inch, where there is one.
fn put_inches(
    alloc: Global,
    lines: &mut String,
    label: &str,
    grid: &Option<Grid>,
) -> Result<(), AllocError> {
    let Some(grid) = grid else {
        return Ok(());
    };
    let (Some(across), Some(down)) = (hundredths(&grid.across), hundredths(&grid.down)) else {
        return Ok(());
    };
    let (across, down) = (spelled(alloc, across)?, spelled(alloc, down)?);
    let line = format!(in alloc; "{label}: {across}x{down}\n")?;
    lines.push_str(line.as_str())
}

/// The resolutions of a file by the inch, a line each: `capture-per-inch` and `display-per-inch`,
/// ACROSSxDOWN, rounded to hundredths.
///
/// The faults are those of `extras_at`.
pub fn inch_lines(alloc: Global, file: &[u8]) -> Result<String, Fault> {
    let told = extras_at(file)?;
    let mut lines = String::new(alloc);
    put_inches(alloc, &mut lines, "capture-per-inch", &told.capture)?;
    put_inches(alloc, &mut lines, "display-per-inch", &told.display)?;
    Ok(lines)
}
