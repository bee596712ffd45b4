//! The four lifting steps at one sample.

ghost use Rattle.std.specs.Prelude.{◌≡◌, ◌^◌, ◌+◌, ◌-◌, pos, ◌+ℤ◌};
ghost use Rattle.jk_math.specs.Division.{floor_of};
ghost use Rattle.jk_lift.specs.Lifting.{high_pass, low_pass, even_sample, odd_sample};
ghost use Rattle.jk_math.specs.Signed.{IsBelow};

/// Half of `a + b`, rounded down.
#[inline(always)]
fn half_of_sum(a: i32, b: i32) -> i32
    requires a { IsBelow (2 ^ 30 - 1) a }
    requires b { IsBelow (2 ^ 30 - 1) b }
    ensures value { result ≡ floor_of (a +ℤ b) 2 }
    ensures within { IsBelow (2 ^ 30) result }
    ensures near { IsBelow (2 ^ 29) a → IsBelow (2 ^ 29) b → IsBelow (2 ^ 29) result }
{
    (a + b) >> 1
}

/// A quarter of `a + b`, rounded to the nearest whole number, a half upwards.
#[inline(always)]
fn quarter_of_sum(a: i32, b: i32) -> i32
    requires a { IsBelow (2 ^ 30 - 1) a }
    requires b { IsBelow (2 ^ 30 - 1) b }
    ensures value { result ≡ floor_of (a +ℤ b +ℤ pos 2) 4 }
    ensures within { IsBelow (2 ^ 30) result }
    ensures near { IsBelow (2 ^ 29) a → IsBelow (2 ^ 29) b → IsBelow (2 ^ 29) result }
{
    (a + b + 2) >> 2
}

/// The high-pass coefficient of the sample between `before` and `after`.
#[inline(always)]
pub fn high_pass(sample: i32, before: i32, after: i32) -> i32
    requires sample { IsBelow (2 ^ 29) sample }
    requires before { IsBelow (2 ^ 30 - 1) before }
    requires after { IsBelow (2 ^ 30 - 1) after }
    ensures value { result ≡ high_pass sample before after }
    ensures within { IsBelow (2 ^ 29) before → IsBelow (2 ^ 29) after → IsBelow (2 ^ 30 - 1) result }
{
    sample - half_of_sum(before, after)
}

/// The low-pass coefficient of the sample between two high-pass coefficients.
#[inline(always)]
pub fn low_pass(sample: i32, before: i32, after: i32) -> i32
    requires sample { IsBelow (2 ^ 29) sample }
    requires before { IsBelow (2 ^ 30 - 1) before }
    requires after { IsBelow (2 ^ 30 - 1) after }
    ensures value { result ≡ low_pass sample before after }
{
    sample + quarter_of_sum(before, after)
}

/// The sample of the low-pass coefficient between two high-pass coefficients.
#[inline(always)]
pub fn even_sample(low: i32, before: i32, after: i32) -> i32
    requires sample { IsBelow (2 ^ 29) low }
    requires before { IsBelow (2 ^ 30 - 1) before }
    requires after { IsBelow (2 ^ 30 - 1) after }
    ensures value { result ≡ even_sample low before after }
    ensures within { IsBelow (2 ^ 29) before → IsBelow (2 ^ 29) after → IsBelow (2 ^ 30 - 1) result }
{
    low - quarter_of_sum(before, after)
}

/// The sample of the high-pass coefficient between two samples.
#[inline(always)]
pub fn odd_sample(high: i32, before: i32, after: i32) -> i32
    requires sample { IsBelow (2 ^ 29) high }
    requires before { IsBelow (2 ^ 30 - 1) before }
    requires after { IsBelow (2 ^ 30 - 1) after }
    ensures value { result ≡ odd_sample high before after }
{
    high + half_of_sum(before, after)
}
