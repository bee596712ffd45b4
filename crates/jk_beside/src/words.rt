//! Resolutions and UUIDs in words.

ghost use Rattle.std.specs.Prelude.{◌≡◌, ◌+◌, ◌*◌, ◌^◌, ◌<◌, ◌≤◌, [], Some, true, ℕ, List, IfSome, IsSome, IfNone, IfOk, IsOk, IfErr};
ghost use Rattle.std.specs.List.{list_all};
ghost use Rattle.std.specs.Char.{is_ascii_digit, digit_value};
ghost use Rattle.std.specs.Str.Parse.{digits_value_after};
ghost use Rattle.jk_math.specs.declared.fault.Fault.TheVariants.{BadParameters};
ghost use Rattle.jk_beside.specs.Words.{IsWhole, IsQuotient, IsDecimal, IsInches, IsHeldInches, IsResolution, IsHeldResolution, IsNamed};

use hex::FromHex;
use jk_extras::{Grid, Ratio, per_inch};
use jk_math::Fault;

/// A number with one more digit behind it.
#[tactic(auto, using(crate::proofs::Digits::digit_is))]
fn with_digit(number: u32, digit: u8) -> Option<u32>
    requires { is_ascii_digit digit ≡ true }
    ensures value { IfSome result (λ n. n ≡ number * 10 + digit_value digit) }
    ensures some { number * 10 + digit_value digit < 2 ^ 32 → IsSome result }
{
    number.checked_mul(10)?.checked_add((digit - b'0') as u32)
}

/// The number of digits that stand behind those of another number.
fn digits_behind(before: u32, digits: &[u8]) -> Option<u32>
    ensures number { IfSome result (λ n. n ≡ digits_value_after 10 before digits.now) }
    ensures digits { IfSome result (λ _. list_all is_ascii_digit digits.now ≡ true) }
    ensures some { list_all is_ascii_digit digits.now ≡ true → digits_value_after 10 before digits.now < 2 ^ 32
        → IsSome result }
{
    let mut number = before;
    for byte in digits {
        if !byte.is_ascii_digit() {
            return None;
        }
        number = with_digit(number, *byte)?;
    }
    Some(number)
}

/// Ten to a number, up to 9.
fn power_of_ten(exponent: usize) -> Option<u32>
    ensures value { IfSome result (λ n. n ≡ 10 ^ exponent) }
    ensures some { 10 ^ exponent < 2 ^ 32 → IsSome result }
{
    let mut power = 1u32;
    for _ in 0..exponent {
        power = power.checked_mul(10)?;
    }
    Some(power)
}

/// The number of digits before a point and behind it, as its numerator and its denominator.
fn quotient(whole: &[u8], fraction: &[u8]) -> Option<(u32, u32)>
    ensures value { IfSome result (λ r. IsQuotient whole.now fraction.now r.0 r.1) }
    ensures some { (n d : ℕ) → IsQuotient whole.now fraction.now n d → n < 2 ^ 32 → d < 2 ^ 32 → IsSome result }
{
    if whole.is_empty() {
        return None;
    }
    let before = digits_behind(0, whole)?;
    let numerator = digits_behind(before, fraction)?;
    let denominator = power_of_ten(fraction.len())?;
    Some((numerator, denominator))
}

/// A decimal number, as its numerator and its denominator.
fn decimal(text: &str) -> Option<(u32, u32)>
    ensures value { IfSome result (λ r. IsDecimal text.now r.0 r.1) }
    ensures some { (n d : ℕ) → IsDecimal text.now n d → n < 2 ^ 32 → d < 2 ^ 32 → result ≡ Some (n, d) }
{
    match text.split_once('.') {
        Some((whole, fraction)) => quotient(whole.as_bytes(), fraction.as_bytes()),
        None => quotient(text.as_bytes(), &[]),
    }
}

/// So many samples by the inch.
fn inches(text: &str) -> Option<Ratio>
    ensures found { IfSome result (λ r. IsInches text.now r) }
    ensures some { (r : Ratio) → IsHeldInches text.now r → IsSome result }
{
    let (numerator, denominator) = decimal(text)?;
    per_inch(numerator, denominator)
}

/// The resolution of a text.
fn grid(text: &str) -> Option<Grid>
    ensures found { IfSome result (λ g. IsResolution text.now g) }
    ensures some { (g : Grid) → IsHeldResolution text.now g → IsSome result }
{
    match text.split_once('x') {
        None => {
            let both = inches(text)?;
            Some(Grid {
                down: both,
                across: both,
            })
        }
        Some((across, down)) => {
            let across = inches(across)?;
            let down = inches(down)?;
            Some(Grid { down, across })
        }
    }
}

/// The resolution that a text names by the inch: `N`, or `NxM` for the samples of a row and of a
/// column. Each is digits, and may have a point and digits behind it.
///
/// BadParameters: another text; a number that no ratio of 16 bits with a power of ten is (`per_inch`);
/// more than 9 digits after a point, or digits that are a number of more than 32 bits without it.
pub fn resolution_named(text: &str) -> Result<Grid, Fault>
    ensures found { IfOk result (λ g. IsResolution text.now g) }
    ensures err { IfErr result (λ e. e ≡ BadParameters) }
    // Each text that names a resolution that a file can hold is read,
    ensures some { (g : Grid) → IsHeldResolution text.now g → IsOk result }
    // and each whole number from 1 to 65,535.
    ensures whole { (n : ℕ) → IsWhole text.now n → 1 ≤ n → n < 2 ^ 16 → IsOk result }
{
    match grid(text) {
        Some(grid) => Ok(grid),
        None => Err(Fault::BadParameters),
    }
}

fn named(text: &str) -> Option<([u8; 16], &str)>
    ensures found { IfSome result (λ r. IsNamed text.now r.0 r.1.now) }
    ensures only { IfNone result ((id file : List ℕ) → IsNamed text.now id file → ⊥) }
{
    let (digits, file) = text.split_once(':')?;
    let id = <[u8; 16] as FromHex>::from_hex(digits).ok()?;
    Some((id, file))
}

/// The UUID and the file that a text names, as `HEX:FILE`: 32 hexadecimal digits, a colon, and the
/// file's name.
///
/// BadParameters: another text.
pub fn named_uuid(text: &str) -> Result<([u8; 16], &str), Fault>
    ensures found { IfOk result (λ r. IsNamed text.now r.0 r.1.now) }
    // Every other text is refused, and no text that names them.
    ensures only { IfErr result (λ e. (e ≡ BadParameters) × ((id file : List ℕ) → IsNamed text.now id file → ⊥)) }
{
    match named(text) {
        Some(found) => Ok(found),
        None => Err(Fault::BadParameters),
    }
}
