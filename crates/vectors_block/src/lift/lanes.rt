//! Tests of rows of every length from 0 to 33, which fill vectors of eight numbers whole, in part or not at all, with
//! numbers at both ends of what the calls take.

ghost use Rattle.std.specs.Prelude.{◌<◌};

use crate::lift::calls::{
    analyse_rows, forward, high_pass_row, inverse, low_pass_row, synthesise_rows,
};
use crate::lift::formula::{columns_are_coefficients, columns_are_samples};
use std::process::Abort;
use vectors::{drawn, equal_at};

/// The greatest number below 2^29, and the greatest below 2^30 - 1.
const MOST: i32 = 536870911;

const WIDE: i32 = 1073741822;

/// Fills a row with a number and the one of the same magnitude below 0, by chance.
fn ends(seed: u32, most: i32, row: &mut [i32]) {
    let mut state = seed;
    for number in row.iter_mut() {
        state = drawn(state);
        *number = if state >> 31 == 0 {
            most
        } else {
            most.wrapping_neg()
        };
    }
}

/// Number k of a row.
fn at(row: &[i32], k: usize) -> i64 {
    i64::from(row.get(k).copied().unwrap_or(0))
}

/// The quarter of a sum, rounded down.
fn quarter(sum: i64) -> i64 {
    sum.div_euclid(4)
}

/// A pixel by its red, green and blue sample.
type Pixel = (i64, i64, i64);

/// Pixel k of three rows.
fn pixel(a: &[i32], b: &[i32], c: &[i32], k: usize) -> Pixel {
    (at(a, k), at(b, k), at(c, k))
}

/// The colour transform of a pixel, by its formulas.
fn transformed(pixel: Pixel) -> Pixel {
    let (i0, i1, i2) = pixel;
    let sum = i0.wrapping_add(i1).wrapping_add(i1).wrapping_add(i2);
    (quarter(sum), i2.wrapping_sub(i1), i0.wrapping_sub(i1))
}

/// The colour transform backwards, by its formulas.
fn restored(pixel: Pixel) -> Pixel {
    let (y0, y1, y2) = pixel;
    let i1 = y0.wrapping_sub(quarter(y1.wrapping_add(y2)));
    (y2.wrapping_add(i1), i1, y1.wrapping_add(i1))
}

/// The colour transform, against its formulas.
fn check_forward(rt: &impl Abort, seed: u32, n: usize)
    requires { n < 34 }
{
    let (mut a, mut b, mut c) = ([0; 33], [0; 33], [0; 33]);
    let (a, b, c) = (&mut a[..n], &mut b[..n], &mut c[..n]);
    ends(seed, MOST, a);
    ends(seed.wrapping_add(1), MOST, b);
    ends(seed.wrapping_add(2), MOST, c);
    let (mut x, mut y, mut z) = ([0; 33], [0; 33], [0; 33]);
    let (x, y, z) = (&mut x[..n], &mut y[..n], &mut z[..n]);
    x.copy_from_slice(a);
    y.copy_from_slice(b);
    z.copy_from_slice(c);
    forward(rt, a, b, c);
    for k in 0..n {
        let due = transformed(pixel(x, y, z, k));
        equal_at((k, n), pixel(a, b, c, k), due).expect(rt, "Y0, Y1, Y2");
    }
}

/// The colour transform backwards, against its formulas.
fn check_inverse(rt: &impl Abort, seed: u32, n: usize)
    requires { n < 34 }
{
    let (mut a, mut b, mut c) = ([0; 33], [0; 33], [0; 33]);
    let (a, b, c) = (&mut a[..n], &mut b[..n], &mut c[..n]);
    ends(seed, MOST, a);
    ends(seed.wrapping_add(1), MOST, b);
    ends(seed.wrapping_add(2), MOST, c);
    let (mut x, mut y, mut z) = ([0; 33], [0; 33], [0; 33]);
    let (x, y, z) = (&mut x[..n], &mut y[..n], &mut z[..n]);
    x.copy_from_slice(a);
    y.copy_from_slice(b);
    z.copy_from_slice(c);
    inverse(rt, a, b, c);
    for k in 0..n {
        let due = restored(pixel(x, y, z, k));
        equal_at((k, n), pixel(a, b, c, k), due).expect(rt, "I0, I1, I2");
    }
}

/// The sum of numbers k of two rows.
fn around(before: &[i32], after: &[i32], k: usize) -> i64 {
    at(before, k).wrapping_add(at(after, k))
}

/// A row lifted between two others, against the formula of high-pass coefficients.
fn check_high(rt: &impl Abort, seed: u32, n: usize)
    requires { n < 34 }
{
    let (mut row, mut before, mut after, mut given) = ([0; 33], [0; 33], [0; 33], [0; 33]);
    let (row, given) = (&mut row[..n], &mut given[..n]);
    let (before, after) = (&mut before[..n], &mut after[..n]);
    ends(seed, MOST, row);
    ends(seed.wrapping_add(1), MOST, before);
    ends(seed.wrapping_add(2), MOST, after);
    given.copy_from_slice(row);
    high_pass_row(rt, row, before, after);
    for k in 0..n {
        let half = around(before, after, k).div_euclid(2);
        equal_at((k, n), at(row, k), at(given, k).wrapping_sub(half)).expect(rt, "high-pass");
    }
}

/// The same, against the formula of low-pass coefficients.
fn check_low(rt: &impl Abort, seed: u32, n: usize)
    requires { n < 34 }
{
    let (mut row, mut before, mut after, mut given) = ([0; 33], [0; 33], [0; 33], [0; 33]);
    let (row, given) = (&mut row[..n], &mut given[..n]);
    let (before, after) = (&mut before[..n], &mut after[..n]);
    ends(seed, MOST, row);
    ends(seed.wrapping_add(3), WIDE, before);
    ends(seed.wrapping_add(4), WIDE, after);
    given.copy_from_slice(row);
    low_pass_row(rt, row, before, after);
    for k in 0..n {
        let part = quarter(around(before, after, k).wrapping_add(2));
        equal_at((k, n), at(row, k), at(given, k).wrapping_add(part)).expect(rt, "low-pass");
    }
}

/// Three rows of columns both ways, against the formula of each sample of each column.
fn check_plane(rt: &impl Abort, start: u32, width: usize)
    requires { width < 34 }
{
    let (mut given, mut rows) = ([0; 99], [0; 99]);
    let (given, rows) = (&mut given[..3 * width], &mut rows[..3 * width]);
    ends(start.wrapping_add(width as u32), MOST, given);
    rows.copy_from_slice(given);
    analyse_rows(rt, start, width, rows);
    columns_are_coefficients(rt, start, (width, 3), given, rows);
    rows.copy_from_slice(given);
    synthesise_rows(rt, start, width, rows);
    columns_are_samples(rt, start, (width, 3), given, rows);
}

#[test]
fn every_width(rt: HostRuntime) {
    for n in 0..34 {
        for seed in 0..8 {
            check_forward(&rt, seed, n);
            check_inverse(&rt, seed, n);
            check_high(&rt, seed, n);
            check_low(&rt, seed, n);
        }
        check_plane(&rt, 0, n);
        check_plane(&rt, 1, n);
    }
}
