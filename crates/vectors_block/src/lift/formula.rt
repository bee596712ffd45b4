//! The transform of one sample, from the formula alone: an index is reflected by remainders where it is used, and halves
//! and quarters are divisions.

use std::process::Abort;
use vectors::equal_at;

/// The index that stands for index `j` of the extension of a line of `n` entries.
fn reflected(j: i64, n: i64) -> i64 {
    let period = n.wrapping_sub(1).wrapping_mul(2);
    if period > 0 {
        let ahead = j.rem_euclid(period);
        ahead.min(period.wrapping_sub(ahead))
    } else {
        0
    }
}

fn length_of(line: &[i32]) -> i64 {
    line.len() as i64
}

/// Entry `j` of the extended line.
fn entry(line: &[i32], j: i64) -> i64 {
    let at = reflected(j, length_of(line)).unsigned_abs();
    i64::from(line.get(at as usize).copied().unwrap_or(0))
}

fn is_even(start: u32, j: i64) -> bool {
    i64::from(start).wrapping_add(j).rem_euclid(2) == 0
}

fn high(line: &[i32], j: i64) -> i64 {
    let j = reflected(j, length_of(line));
    let around = entry(line, j.wrapping_sub(1)).wrapping_add(entry(line, j.wrapping_add(1)));
    entry(line, j).wrapping_sub(around.div_euclid(2))
}

/// The coefficient at index `j` of the line of samples whose first place is `start`.
fn coefficient(start: u32, line: &[i32], j: i64) -> i64 {
    let sample = entry(line, j);
    if line.len() == 1 {
        return if is_even(start, j) {
            sample
        } else {
            sample.wrapping_mul(2)
        };
    }
    if !is_even(start, j) {
        return high(line, j);
    }
    let around = high(line, j.wrapping_sub(1)).wrapping_add(high(line, j.wrapping_add(1)));
    sample.wrapping_add(around.wrapping_add(2).div_euclid(4))
}

fn even(line: &[i32], j: i64) -> i64 {
    let j = reflected(j, length_of(line));
    let around = entry(line, j.wrapping_sub(1)).wrapping_add(entry(line, j.wrapping_add(1)));
    entry(line, j).wrapping_sub(around.wrapping_add(2).div_euclid(4))
}

/// The sample at index `j` of the line of coefficients whose first place is `start`.
fn sample(start: u32, line: &[i32], j: i64) -> i64 {
    let coefficient = entry(line, j);
    if line.len() == 1 {
        return if is_even(start, j) {
            coefficient
        } else {
            coefficient.div_euclid(2)
        };
    }
    if is_even(start, j) {
        return even(line, j);
    }
    let around = even(line, j.wrapping_sub(1)).wrapping_add(even(line, j.wrapping_add(1)));
    coefficient.wrapping_add(around.div_euclid(2))
}

/// Numbers are the coefficients of a line of samples: of this column of so many, from a place on.
pub(crate) fn has_coefficients(
    rt: &impl Abort,
    column: (usize, usize),
    start: u32,
    line: &[i32],
    numbers: &[i32],
) {
    equal_at((column, start), numbers.len(), line.len()).expect(rt, "coefficients");
    for (j, number) in numbers.iter().enumerate() {
        let due = coefficient(start, line, j as i64);
        let case = (column, start, line.len(), j);
        equal_at(case, i64::from(*number), due).expect(rt, "a coefficient");
    }
}

/// Numbers are the samples of a line of coefficients.
pub(crate) fn has_samples(
    rt: &impl Abort,
    column: (usize, usize),
    start: u32,
    line: &[i32],
    numbers: &[i32],
) {
    equal_at((column, start), numbers.len(), line.len()).expect(rt, "samples");
    for (j, number) in numbers.iter().enumerate() {
        let due = sample(start, line, j as i64);
        let case = (column, start, line.len(), j);
        equal_at(case, i64::from(*number), due).expect(rt, "a sample");
    }
}

/// Column `x` of rows of this width.
fn column_of(rows: &[i32], width: usize, x: usize, column: &mut [i32]) {
    let mut at = x;
    for number in column.iter_mut() {
        *number = rows.get(at).copied().unwrap_or(0);
        at = at.wrapping_add(width);
    }
}

/// Each column of rows, of so many columns and rows, has the coefficients of that column of samples.
pub(crate) fn columns_are_coefficients(
    rt: &impl Abort,
    start: u32,
    size: (usize, usize),
    samples: &[i32],
    rows: &[i32],
) {
    let (width, height) = size;
    assert!(rt; height < 34);
    let (mut column, mut made) = ([0; 33], [0; 33]);
    let (column, made) = (&mut column[..height], &mut made[..height]);
    for x in 0..width {
        column_of(samples, width, x, column);
        column_of(rows, width, x, made);
        has_coefficients(rt, (x, width), start, column, made);
    }
}

/// Each column of rows has the samples of that column of coefficients.
pub(crate) fn columns_are_samples(
    rt: &impl Abort,
    start: u32,
    size: (usize, usize),
    coefficients: &[i32],
    rows: &[i32],
) {
    let (width, height) = size;
    assert!(rt; height < 34);
    let (mut column, mut made) = ([0; 33], [0; 33]);
    let (column, made) = (&mut column[..height], &mut made[..height]);
    for x in 0..width {
        column_of(coefficients, width, x, column);
        column_of(rows, width, x, made);
        has_samples(rt, (x, width), start, column, made);
    }
}
