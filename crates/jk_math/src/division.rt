//! Division that rounds down or up, and reflection at the ends of a line.

ghost use Rattle.std.specs.Prelude.{◌≡◌, ℕ, ◌+◌, ◌-◌, ◌/◌, ◌<◌, ◌^◌};
ghost use Rattle.jk_math.specs.Division.{floor_of, ceiling_of, remainder_of, reflected};

/// `a / b` rounded down, for negative numbers too.
pub fn floor_div(a: i64, b: u32) -> i64
    requires { 0 < b }
    ensures { result ≡ floor_of a b }
{
    a.div_euclid(b as i64)
}

/// `a / b` rounded up, for negative numbers too.
#[tactic(auto, using(crate::proofs::DivisionLemmas::ceiling_zero, crate::proofs::DivisionLemmas::ceiling_more))]
pub fn ceil_div(a: i64, b: u32) -> i64
    requires { 0 < b }
    ensures { result ≡ ceiling_of a b }
{
    let quotient = floor_div(a, b);
    if remainder(a, b as u64) == 0 {
        quotient
    } else {
        quotient + 1
    }
}

/// What is left of `value` when `floor_div(value, divisor)` times `divisor` is taken off it.
fn remainder(value: i64, divisor: u64) -> u64
    requires positive { 0 < divisor }
    requires narrow { divisor < 2 ^ 63 }
    ensures value { result ≡ remainder_of value divisor }
    ensures below { result < divisor }
{
    value.rem_euclid(divisor as i64) as u64
}

/// The place of the line `[i0, i1)` whose sample stands at place `i` of the line's whole-sample
/// symmetric extension (T.800 F.3.7).
pub fn reflect(i: i32, i0: u32, i1: u32) -> u32
    requires { i0 < i1 }
    ensures { result ≡ reflected i i0 i1 }
{
    if i1 - i0 == 1 {
        return i0;
    }
    let period = 2 * (i1 as u64 - i0 as u64 - 1);
    let j = remainder(i as i64 - i0 as i64, period);
    i0 + j.min(period - j) as u32
}
