use jk_extras::{Ratio, per_inch};
use vectors::{equal, equal_at};

/// Samples on so many inches, and the numerator, the denominator and the exponent of samples per
/// metre: 5000 / 127 times as many, by the first exponent of 2 to 16, 0, 1, and -1 down to -12 with
/// numbers of 16 bits.
static INCHES: [(u32, u32, Option<(u16, u16, i8)>); 24] = [
    (300, 1, Some((15_000, 127, 2))),
    (1, 1, Some((50, 127, 2))),
    (1310, 1, Some((65_500, 127, 2))),
    (1311, 1, Some((6555, 127, 3))),
    (13_107, 1, Some((65_535, 127, 3))),
    (13_108, 1, Some((6554, 127, 4))),
    (65_535, 1, Some((65_535, 254, 4))),
    (65_536, 1, Some((32_768, 127, 4))),
    (65_537, 1, None),
    (601, 2, Some((15_025, 127, 2))),
    (30_001, 100, Some((30_001, 254, 2))),
    (3_000_001, 10_000, None),
    (254, 100, Some((1, 1, 2))),
    (u32::MAX, u32::MAX, Some((50, 127, 2))),
    (1, u32::MAX, None),
    (1, 1000, Some((1, 2540, 2))),
    (1, 1_000_000_000, Some((1, 25_400, -3))),
    (127, 1_000_000_000, Some((1, 20_000, -1))),
    (1, 4_000_000_000, Some((1, 10_160, -4))),
    (4_000_000_000, 1, Some((20_000, 127, 9))),
    (10_000, 1, Some((50_000, 127, 3))),
    (300_123, 1000, None),
    (0, 1, None),
    (300, 0, None),
];

fn ratio_of(n: u32, d: u32) -> Option<(u16, u16, i8)> {
    let ratio = per_inch(n, d)?;
    Some((ratio.numerator, ratio.denominator, ratio.exponent))
}

#[test]
fn by_the_inch(rt: HostRuntime) {
    for (n, d, want) in &INCHES {
        equal_at((*n, *d), ratio_of(*n, *d), *want).expect(&rt, "a ratio");
    }
}

/// Whether this many samples stand on an inch, which is 127 of 5,000 parts of a metre.
fn is_of(ratio: Ratio, n: u64) -> bool {
    let power = match ratio.exponent {
        2 => 100u64,
        3 => 1000,
        4 => 10_000,
        _ => 0,
    };
    let found = (ratio.numerator as u64)
        .wrapping_mul(power)
        .wrapping_mul(127);
    found > 0
        && found
            == (ratio.denominator as u64)
                .wrapping_mul(n)
                .wrapping_mul(5000)
}

/// Whether this many samples on an inch are told exactly.
fn is_exact(n: u32) -> bool {
    match per_inch(n, 1) {
        Some(ratio) => is_of(ratio, n as u64),
        None => false,
    }
}

/// Each whole number is told exactly.
#[test]
fn whole_numbers_by_the_inch(rt: HostRuntime) {
    let mut exact = 0u32;
    for n in 1..65_536u32 {
        if is_exact(n) {
            exact = exact.wrapping_add(1);
        }
    }
    equal(exact, 65_535).expect(&rt, "whole numbers");
}
