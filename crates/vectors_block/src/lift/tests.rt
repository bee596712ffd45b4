ghost use Rattle.std.specs.Prelude.{◌<◌};

use crate::lift::calls::{
    analyse_line, analyse_rows, even_places, forward, inverse, synthesise_line, synthesise_rows,
};
use crate::lift::formula::{
    columns_are_coefficients, columns_are_samples, has_coefficients, has_samples,
};
use std::process::Abort;
use vectors::{drawn, equal};

/// Fills a line with numbers of twenty bits and a sign.
fn fill(seed: u32, line: &mut [i32]) {
    let mut state = seed;
    for number in line.iter_mut() {
        state = drawn(state);
        *number = (state >> 11) as i32 - 1048576;
    }
}

/// The numbers of both parts by their places: `low` stands at the even places, `high` at the odd ones.
fn weave(start: u32, low: &[i32], high: &[i32], line: &mut [i32]) {
    let (mut lows, mut highs) = (low.iter(), high.iter());
    let mut even = start % 2 == 0;
    for number in line.iter_mut() {
        let next = if even { lows.next() } else { highs.next() };
        *number = next.copied().unwrap_or(i32::MAX);
        even = !even;
    }
}

const STARTS: [u32; 4] = [0, 1, u32::MAX - 1, u32::MAX];

/// A line that is worked by hand.
const LINE: [i32; 9] = [1, 2, 3, 4, 5, 6, 7, 8, 9];

/// The worked line has these parts from a place on, and they give it back.
fn parts_are(rt: &impl Abort, start: u32, low: &[i32], high: &[i32]) {
    let (mut lows, mut highs, mut back) = ([0; 5], [0; 5], [0; 9]);
    assert!(rt; low.len() <= 5 && high.len() <= 5);
    let (lows, highs) = (&mut lows[..low.len()], &mut highs[..high.len()]);
    analyse_line(rt, start, &LINE, lows, highs);
    equal(&*lows, low).expect(rt, "low-pass coefficients");
    equal(&*highs, high).expect(rt, "high-pass coefficients");
    synthesise_line(rt, start, low, high, &mut back);
    equal(back, LINE).expect(rt, "the line again");
}

#[test]
fn worked_lines(rt: HostRuntime) {
    parts_are(&rt, 0, &[1, 3, 5, 7, 9], &[0; 4]);
    parts_are(&rt, 1, &[2, 4, 6, 8], &[-1, 0, 0, 0, 1]);
}

#[test]
fn worked_colour(rt: HostRuntime) {
    let (mut a, mut b, mut c) = ([32767], [-32768], [32767]);
    forward(&rt, &mut a, &mut b, &mut c);
    equal((a, b, c), ([-1], [65535], [65535])).expect(&rt, "forward");
    inverse(&rt, &mut a, &mut b, &mut c);
    equal((a, b, c), ([32767], [-32768], [32767])).expect(&rt, "inverse");
}

/// One line is analysed, against the formula of each coefficient.
fn analyses_line(rt: &impl Abort, start: u32, n: usize)
    requires { n < 34 }
{
    let (mut line, mut low, mut high, mut woven) = ([0; 33], [0; 33], [0; 33], [0; 33]);
    let lows = even_places(start, n);
    let (line, woven) = (&mut line[..n], &mut woven[..n]);
    let (low, high) = (&mut low[..lows], &mut high[..n - lows]);
    fill(start.wrapping_add(n as u32), line);
    analyse_line(rt, start, line, low, high);
    weave(start, low, high, woven);
    has_coefficients(rt, (0, 1), start, line, woven);
}

/// One line is synthesised, against the formula of each sample.
fn synthesises_line(rt: &impl Abort, start: u32, n: usize)
    requires { n < 34 }
{
    let (mut line, mut low, mut high, mut woven) = ([0; 33], [0; 33], [0; 33], [0; 33]);
    let lows = even_places(start, n);
    let (line, woven) = (&mut line[..n], &mut woven[..n]);
    let (low, high) = (&mut low[..lows], &mut high[..n - lows]);
    fill(start.wrapping_mul(7).wrapping_add(n as u32), low);
    fill(start.wrapping_mul(5).wrapping_add(n as u32), high);
    weave(start, low, high, woven);
    synthesise_line(rt, start, low, high, line);
    has_samples(rt, (0, 1), start, woven, line);
}

/// Rows of columns both ways, against the formula of each sample of each column.
fn check_rows(rt: &impl Abort, start: u32, height: usize, width: usize)
    requires tall { height < 34 }
    requires wide { width < 10 }
{
    let (mut given, mut rows) = ([0; 297], [0; 297]);
    let size = height * width;
    let (given, rows) = (&mut given[..size], &mut rows[..size]);
    fill(start.wrapping_add(height as u32), given);
    rows.copy_from_slice(given);
    analyse_rows(rt, start, width, rows);
    columns_are_coefficients(rt, start, (width, height), given, rows);
    rows.copy_from_slice(given);
    synthesise_rows(rt, start, width, rows);
    columns_are_samples(rt, start, (width, height), given, rows);
}

#[test]
fn every_length(rt: HostRuntime) {
    for start in STARTS {
        for n in 0..34 {
            analyses_line(&rt, start, n);
            synthesises_line(&rt, start, n);
            check_rows(&rt, start, n, 1);
            check_rows(&rt, start, n, 7);
            check_rows(&rt, start, n, 8);
            check_rows(&rt, start, n, 9);
        }
    }
}
