//! Precinct sizes as text.

ghost use Rattle.std.specs.Prelude.{◌≡◌};
ghost use Rattle.jk_math.specs.Answer.{Answers};
ghost use Rattle.jk_options.specs.Sizes.{digit_at, sizes_at};

use jk_math::Fault;
use std::alloc::Global;

/// The value of a hexadecimal digit.
///
/// BadParameters: it is none.
fn digit(byte: u8) -> Result<u8, Fault>
    ensures { result ≡ digit_at byte }
{
    match byte {
        b'0'..=b'9' => Ok(byte - b'0'),
        b'A'..=b'F' => Ok(byte - b'A' + 10),
        b'a'..=b'f' => Ok(byte - b'a' + 10),
        _ => Err(Fault::BadParameters),
    }
}

/// The precinct sizes of a text that has two hexadecimal digits for each: the exponent of the
/// height, and that of the width.
///
/// BadParameters: another text.
pub(crate) fn sizes(alloc: Global, digits: &[u8]) -> Result<Vec<(u8, u8)>, Fault>
    ensures { Answers (λ v. v.items) result (sizes_at digits.now) }
{
    let mut sizes = Vec::new(alloc);
    for i in 0..digits.len() / 2 {
        let height = digit(digits[2 * i])?;
        let width = digit(digits[2 * i + 1])?;
        sizes.push((width, height))?;
    }
    if digits.len() % 2 != 0 {
        return Err(Fault::BadParameters);
    }
    Ok(sizes)
}
