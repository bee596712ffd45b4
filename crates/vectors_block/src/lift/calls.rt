//! The calls that the tests make. What a call wants of its caller is asked for here, once, and what it
//! promises is left out: a test says what is answered, and proves nothing by it.

ghost use Rattle.std.specs.Prelude.{◌≡◌, ◌+◌, ◌-◌, ◌*◌, ◌^◌, ◌<◌, IsTrue, All};
ghost use Rattle.jk_math.specs.Signed.{IsBelow};
ghost use Rattle.jk_lift.specs.Samples.{low_length};

use std::process::Abort;

/// Are all numbers below 2^29 in magnitude?
fn are_small(numbers: &[i32]) -> bool
    ensures { IsTrue result → All (IsBelow (2 ^ 29)) numbers.now }
{
    for number in numbers {
        if *number >= 536870912 || *number <= -536870912 {
            return false;
        }
    }
    true
}

/// Are all numbers below 2^30 - 1 in magnitude?
fn are_wide(numbers: &[i32]) -> bool
    ensures { IsTrue result → All (IsBelow (2 ^ 30 - 1)) numbers.now }
{
    for number in numbers {
        if *number >= 1073741823 || *number <= -1073741823 {
            return false;
        }
    }
    true
}

/// How many even places the `n` places from `start` on have.
pub(crate) fn even_places(start: u32, n: usize) -> usize
    requires { n < 34 }
    ensures { result ≡ low_length start n }
{
    (start as usize + n + 1) / 2 - (start as usize + 1) / 2
}

/// The parts of a line of less than 34 numbers.
pub(crate) fn analyse_line(
    rt: &impl Abort,
    start: u32,
    line: &[i32],
    low: &mut [i32],
    high: &mut [i32],
) {
    let n = line.len();
    assert!(rt; n < 34);
    let lows = even_places(start, n);
    assert!(rt; low.len() == lows && lows <= n && high.len() == n - lows);
    assert!(rt; are_small(line));
    jk_lift::analyse_line(start, line, low, high);
}

/// The line of less than 34 numbers that has these parts.
pub(crate) fn synthesise_line(
    rt: &impl Abort,
    start: u32,
    low: &[i32],
    high: &[i32],
    line: &mut [i32],
) {
    let n = line.len();
    assert!(rt; n < 34);
    let lows = even_places(start, n);
    assert!(rt; low.len() == lows && lows <= n && high.len() == n - lows);
    assert!(rt; are_small(low) && are_small(high));
    jk_lift::synthesise_line(start, low, high, line);
}

/// The parts of each column of rows.
pub(crate) fn analyse_rows(rt: &impl Abort, start: u32, width: usize, rows: &mut [i32]) {
    assert!(rt; width == 0 || rows.len() % width == 0);
    assert!(rt; width > 0 || rows.is_empty());
    assert!(rt; are_small(rows));
    jk_lift::analyse_rows(start, width, rows);
}

/// The rows that have these parts of columns.
pub(crate) fn synthesise_rows(rt: &impl Abort, start: u32, width: usize, rows: &mut [i32]) {
    assert!(rt; width == 0 || rows.len() % width == 0);
    assert!(rt; width > 0 || rows.is_empty());
    assert!(rt; are_small(rows));
    jk_lift::synthesise_rows(start, width, rows);
}

/// A row without what two rows around it tell of it.
pub(crate) fn high_pass_row(rt: &impl Abort, row: &mut [i32], before: &[i32], after: &[i32]) {
    assert!(rt; before.len() == row.len() && after.len() == row.len());
    assert!(rt; are_small(row) && are_small(before) && are_small(after));
    jk_lift::high_pass_row(row, before, after);
}

/// A row with a part of two rows around it.
pub(crate) fn low_pass_row(rt: &impl Abort, row: &mut [i32], before: &[i32], after: &[i32]) {
    assert!(rt; before.len() == row.len() && after.len() == row.len());
    assert!(rt; are_small(row) && are_wide(before) && are_wide(after));
    jk_lift::low_pass_row(row, before, after);
}

/// The colour transform.
pub(crate) fn forward(rt: &impl Abort, a: &mut [i32], b: &mut [i32], c: &mut [i32]) {
    assert!(rt; b.len() == a.len() && c.len() == a.len());
    assert!(rt; are_small(a) && are_small(b) && are_small(c));
    jk_rct::forward(a, b, c);
}

/// The colour transform backwards.
pub(crate) fn inverse(rt: &impl Abort, a: &mut [i32], b: &mut [i32], c: &mut [i32]) {
    assert!(rt; b.len() == a.len() && c.len() == a.len());
    assert!(rt; are_small(a) && are_small(b) && are_small(c));
    jk_rct::inverse(a, b, c);
}
