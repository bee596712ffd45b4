//! Resolutions by the inch.

ghost use Rattle.std.specs.Prelude.{◌≡◌, ℕ, ◌+◌, ◌*◌, ◌<◌, ◌≤◌, ◌^◌, negsuc, IfSome, IsSome, IfNone};
ghost use Rattle.std.specs.Int.{IsGcd};
ghost use Rattle.jk_extras.specs.Inches.{IsPerInch, IsRaised, IsLowered, IsReduced, HasSixteenBits};

use crate::grids::Ratio;

/// The greatest common divisor.
fn common(a: u128, b: u128) -> u128
    ensures { IsGcd a b result }
{
    let mut x = a;
    let mut y = b;
    while y > 0 {
        (x, y) = (y, x % y);
    }
    x
}

/// A numerator and a denominator of 16 bits of a ratio of two numbers.
///
/// None: no two numbers of 16 bits have this ratio.
fn reduced(above: u128, below: u128) -> Option<(u16, u16)>
    requires above { 0 < above }
    requires below { 0 < below }
    ensures same { IfSome result (λ r. IsReduced above below r.0 r.1) }
    ensures only { IfNone result ((x y : ℕ) → x < 2 ^ 16 → y < 2 ^ 16 → IsReduced above below x y → ⊥) }
{
    let divisor = common(above, below);
    let numerator = above / divisor;
    let denominator = below / divisor;
    if numerator > 65_535 || denominator > 65_535 {
        return None;
    }
    Some((numerator as u16, denominator as u16))
}

/// The ratio with the least exponent from the first on, and less than the second, that is `n / d`
/// samples by the inch. The third is ten to the first.
fn raised(n: u32, d: u32, from: u8, to: u8, first: u128) -> Option<Ratio>
    requires some { (0 < n) × (0 < d) }
    requires range { (from ≤ to) × (to ≤ 17) × (first ≡ 10 ^ from) }
    ensures exact { IfSome result (λ r. IsPerInch n d r) }
    ensures only { IfNone result ((r : Ratio) (power : ℕ) → from ≤ power → power < to → HasSixteenBits r
        → 0 < r.numerator → 0 < r.denominator → IsRaised n d r power → ⊥) }
{
    let mut scale = first;
    for power in from..to {
        let below = 254 * d as u128 * scale;
        if let Some((numerator, denominator)) = reduced(10_000 * n as u128, below) {
            return Some(Ratio {
                numerator,
                denominator,
                exponent: power as i8,
            });
        }
        scale *= 10;
    }
    None
}

/// A number less than 0: -1, less another one.
fn below_zero(less: u8) -> i8
    requires { less < 128 }
    ensures { result ≡ negsuc less }
{
    -1 - less as i8
}

/// The ratio with the greatest exponent below 0, and from -12 on, that is `n / d` samples by the inch.
fn lowered(n: u32, d: u32) -> Option<Ratio>
    requires some { (0 < n) × (0 < d) }
    ensures exact { IfSome result (λ r. IsPerInch n d r) }
    ensures only { IfNone result ((r : Ratio) (less : ℕ) → less < 12 → HasSixteenBits r
        → 0 < r.numerator → 0 < r.denominator → IsLowered n d r less → ⊥) }
{
    let mut above = 10_000 * n as u128;
    for less in 0..12u8 {
        above *= 10;
        if let Some((numerator, denominator)) = reduced(above, 254 * d as u128) {
            return Some(Ratio {
                numerator,
                denominator,
                exponent: below_zero(less),
            });
        }
    }
    None
}

/// Samples per metre by samples per inch, exactly: `n / d` samples stand on an inch. The exponent
/// is the first that has a ratio of 2 to 16, then of 0 and 1, then of -1 down to -12.
///
/// None: `n` or `d` is 0, or no numerator and denominator of 16 bits have this value with any
/// exponent. Every whole number of 1 to 65,535 has one.
pub fn per_inch(n: u32, d: u32) -> Option<Ratio>
    ensures exact { IfSome result (λ r. IsPerInch n d r) }
    ensures only { IfNone result ((r : Ratio) → HasSixteenBits r → 0 < d → IsPerInch n d r → ⊥) }
    ensures whole { 1 ≤ n → n < 2 ^ 16 → d ≡ 1 → IsSome result }
{
    if n == 0 || d == 0 {
        return None;
    }
    if let Some(ratio) = raised(n, d, 2, 17, 100) {
        return Some(ratio);
    }
    if let Some(ratio) = raised(n, d, 0, 2, 1) {
        return Some(ratio);
    }
    lowered(n, d)
}
