//! The exponents that sub-bands need (T.800 E.1).

ghost use Rattle.std.specs.Prelude.{◌≡◌, ◌≤◌, slice_index};
ghost use Rattle.jk_tile.specs.encoding.Needs.{gain, exponents_with};

use jk_marks::Exponents;

/// By how many bits a sub-band may pass the depth of the samples.
fn gain(band: usize) -> u8
    ensures value { result ≡ gain band }
    ensures few { result ≤ 2 }
{
    if band == 0 {
        0
    } else if band % 3 == 0 {
        2
    } else {
        1
    }
}

/// The exponents of the sub-bands of so many levels, in the order of QCD, where there are two guard
/// bits and their greatest magnitudes have so many bits: the depth and the gain of the sub-band, or
/// more where a coefficient needs it (T.800 E.1).
pub fn exponents_with(depth: u8, levels: u8, needs: &[u8; 16]) -> Exponents
    requires depth { depth ≤ 16 }
    requires levels { levels ≤ 5 }
    ensures { result ≡ exponents_with depth levels (slice_index needs.now) }
{
    let count = 3 * levels as usize + 1;
    let mut exponents = [0; 16];
    for band in 0..count {
        exponents[band] = (depth + gain(band)).max(needs[band].saturating_sub(1));
    }
    Exponents::new(&exponents[..count])
}
