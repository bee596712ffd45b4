//! Choices without a branch, since half of all decisions can't be foreseen.

ghost use Rattle.std.specs.Prelude.{◌≡◌, ◌+◌, ◌-◌, ◌^◌, ◌≤◌, if◌then◌else◌};
ghost use Rattle.std.specs.Int.{w64, leading_zeros};

/// All bits of a number, or none.
#[inline(always)]
fn mask(all: bool) -> u64
    ensures { result ≡ (if all then 2 ^ 64 - 1 else 0) }
{
    (all as u64).wrapping_neg()
}

/// One of two numbers.
#[inline(always)]
pub fn chosen(first: bool, one: u64, other: u64) -> u64
    ensures { result ≡ (if first then one else other) }
{
    other ^ ((other ^ one) & mask(first))
}

/// A number, or 0.
#[inline(always)]
pub fn kept(keep: bool, number: u64) -> u64
    ensures { result ≡ (if keep then number else 0) }
{
    number & mask(keep)
}

/// The place of a number's highest bit. The lowest one is set on the way, which changes nothing but
/// that the compiler sees that the number isn't 0.
#[inline(always)]
pub fn highest_bit(number: u64) -> u32
    requires { 1 ≤ number }
    ensures place { result + leading_zeros w64 number ≡ 63 }
{
    (number | 1).ilog2()
}
