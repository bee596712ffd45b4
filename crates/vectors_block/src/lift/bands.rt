//! Tests of sub-bands and resolutions against outside values.

ghost use Rattle.std.specs.Prelude.{◌≡◌, ◌+◌, ◌*◌, ◌^◌, ◌<◌, ◌≤◌, [], IsTrue, length, All, slice_index_or};
ghost use Rattle.jk_math.specs.Raster.{places_of};
ghost use Rattle.jk_math.specs.Signed.{IsBelow};
ghost use Rattle.jk_geom.specs.Rectangles.{IsArea};
ghost use Rattle.jk_wave.specs.Bands.{AreBands, numbered_area};

use jk_geom::band;
use jk_math::{Orientation, Planes, Rect};
use jk_wave::{Bands, Falling, analyse, analyse_by_rows, synthesise, synthesise_by_rows};
use std::alloc::Global;
use std::process::Abort;
use vectors::{Line, equal};

/// A tile-component: its samples row by row, and the coefficients of all sub-bands in the order of QCD.
#[derive(Clone, Copy)]
struct Row<'a> {
    rect: Rect,
    levels: u8,
    samples: &'a [i32],
    coefficients: &'a [i32],
}

/// A line for each tile-component: its left, upper, right and lower end, levels, samples and
/// coefficients. Rectangles at even and odd places, of one row or column or none in a part, with up to
/// ten levels; the first two are worked by hand, one column, and a square that would be another with HL
/// and LH exchanged.
static ROWS: &str = "\
0 0 1 9 1 -27,-25,-24,-23,-32,-31,-32,-26,-19 -26,-22,-30,-32,-19,1,5,1,0
0 0 2 2 1 0,1,0,0 1,1,0,-1
0 0 5 3 1 230,-178,-53,78,-231,-218,165,19,-207,-68,43,-226,210,4,-146 64,-57,-130,-166,123,-169,21,80,-65,-168,-67,15,-18,574,-279
1 1 4 6 2 -3,0,0,-3,-2,-3,1,0,-3,3,1,-3,-2,2,2 0,-6,-2,-1,0,-4,2,1,1,-2,1,0,-1,-6,4
3 2 10 7 3 58683,-57427,10107,11213,-13542,-59036,62424,-36558,-59430,7428,46986,-48080,-27576,-10598,-46628,5333,-50096,9295,-25102,7899,41436,23856,-41847,-52028,10696,9333,18208,-40911,-16725,-52765,6258,27802,-57306,8437,-57723 -13678,-41068,34000,29430,-10199,7751,-6226,67658,36998,111509,46089,-12691,91199,-35846,-55252,-32868,7705,72872,10181,-50703,-87563,-29246,31639,-28667,-3994,230,11699,-9202,25749,-46120,-60521,73664,-17117,49443,-42807
1 0 2 1 1 -38540 -77080
1 1 2 2 3 93 372
7 5 8 12 2 -9490,36337,-24360,-4508,11215,55502,-6136 29624,-36294,73044,-91654,-80548,-28564,-123276
5 7 13 8 2 -102,-128,151,-163,102,144,-131,-214 -95,-122,296,-524,52,593,223,-192
6 6 6 9 1 - -
2 3 9 9 0 13,-2,193,-80,118,-26,-108,56,246,-218,-195,7,-41,-171,132,-80,-178,222,-5,-40,-235,237,87,-216,136,30,38,149,193,163,-95,-81,100,-76,49,-1,41,153,-22,-220,175,-208 13,-2,193,-80,118,-26,-108,56,246,-218,-195,7,-41,-171,132,-80,-178,222,-5,-40,-235,237,87,-216,136,30,38,149,193,163,-95,-81,100,-76,49,-1,41,153,-22,-220,175,-208
1023 2047 1030 2052 10 -13,101,85,-222,-224,119,104,-97,76,40,253,93,165,-27,-110,111,-58,199,87,-78,-244,226,-19,-74,-169,57,-196,-3,-225,-144,138,-108,-189,123,-129 10,-32,22,-70,-200,-106,-222,-97,-139,-189,99,41,122,40,107,-421,-16,-21,108,-112,-145,13,99,59,270,-56,177,-257,-161,-35,-167,-326,244,-436,-445
0 0 1 1 10 -55 -55
2147483640 2147483641 2147483647 2147483646 5 -214,-170,-26,-50,26,-113,197,-185,164,-35,187,26,-113,106,-43,250,-72,94,197,-61,235,-137,-178,-213,-165,-178,-137,82,-136,-249,-7,170,46,-162,-121 -69,154,6,31,115,145,102,-93,237,112,-226,-3,41,-133,-191,-132,-71,69,204,75,218,70,-86,193,245,-220,-324,-241,-45,172,-79,-143,-174,120,-35";

/// Is this a rectangle below 2^31?
pub(crate) fn is_area(rect: &Rect) -> bool
    ensures { IsTrue result → IsArea rect.now }
{
    rect.x0 <= rect.x1 && rect.y0 <= rect.y1 && rect.x1 < 1 << 31 && rect.y1 < 1 << 31
}

/// Are all numbers below 2^17 in magnitude?
fn are_small(numbers: &[i32]) -> bool
    ensures { IsTrue result → All (IsBelow (2 ^ 17)) numbers.now }
{
    for number in numbers {
        if *number >= 131072 || *number <= -131072 {
            return false;
        }
    }
    true
}

/// Are all numbers below 2^23 in magnitude?
pub(crate) fn are_coefficients(numbers: &[i32]) -> bool
    ensures { IsTrue result → All (IsBelow (2 ^ 23)) numbers.now }
{
    for number in numbers {
        if *number >= 8388608 || *number <= -8388608 {
            return false;
        }
    }
    true
}

/// The rectangle of a sub-band by its number in QCD.
pub(crate) fn numbered(rect: &Rect, levels: u8, b: u8) -> Rect
    requires area { IsArea rect.now }
    requires levels { levels ≤ 10 }
    requires b { b ≤ 3 * levels }
    ensures value { result ≡ numbered_area rect.now levels b }
    ensures area { IsArea result }
{
    if b == 0 {
        return band(rect, levels, 0, Orientation::LL);
    }
    let orientation = match (b - 1) % 3 {
        0 => Orientation::HL,
        1 => Orientation::LH,
        _ => Orientation::HH,
    };
    band(rect, levels, (b - 1) / 3 + 1, orientation)
}

/// Are these the sub-bands of the resolutions up to `r`, each as long as its rectangle and below 2^23 in magnitude?
fn are_bands(bands: &Bands, r: u8) -> bool
    requires area { IsArea bands.now.rect }
    requires levels { bands.now.levels ≤ 10 }
    requires r { r ≤ bands.now.levels }
    ensures { IsTrue result → AreBands bands.now.rect bands.now.levels r bands.now.bands }
{
    if bands.bands.len() <= 3 * r as usize {
        return false;
    }
    for b in 0..3 * r + 1 {
        if !is_band(bands, b) {
            return false;
        }
    }
    true
}

/// Is sub-band `b` as long as its rectangle and below 2^23 in magnitude?
fn is_band(bands: &Bands, b: u8) -> bool
    requires area { IsArea bands.now.rect }
    requires levels { bands.now.levels ≤ 10 }
    requires b { b ≤ 3 * bands.now.levels }
    requires inside { b < length bands.now.bands }
    ensures length { IsTrue result → length (slice_index_or bands.now.bands b []) ≡ places_of (numbered_area bands.now.rect bands.now.levels b) }
    ensures small { IsTrue result → All (IsBelow (2 ^ 23)) (slice_index_or bands.now.bands b []) }
{
    let area = numbered(&bands.rect, bands.levels, b);
    let places = (area.y1 - area.y0) as usize * (area.x1 - area.x0) as usize;
    let values = bands.bands.plane(b as usize);
    values.len() == places && are_coefficients(values)
}

/// All coefficients in the order of QCD.
fn listed(rt: &impl Abort, alloc: Global, bands: &Planes) -> Vec<i32> {
    let mut all = Vec::new(alloc);
    for b in 0..bands.len() {
        all.extend_from_slice(bands.plane(b))
            .expect(rt, "coefficients");
    }
    all
}

/// Is a list of samples as long as the rectangle, and below 2^17 in magnitude?
fn are_samples(rect: &Rect, samples: &[i32]) -> bool
    requires { IsArea rect.now }
    ensures length { IsTrue result → length samples.now ≡ places_of rect.now }
    ensures small { IsTrue result → All (IsBelow (2 ^ 17)) samples.now }
{
    let places = (rect.y1 - rect.y0) as usize * (rect.x1 - rect.x0) as usize;
    samples.len() == places && are_small(samples)
}

/// The sub-bands of samples.
fn analysed(rt: &impl Abort, alloc: Global, row: &Row<'_>) -> Bands {
    let (rect, levels) = (row.rect, row.levels);
    assert!(rt; is_area(&rect) && levels <= 10);
    assert!(rt; are_samples(&rect, row.samples));
    let samples = Vec::from_slice(alloc, row.samples).expect(rt, "samples");
    analyse(alloc, &rect, levels, samples).expect(rt, "sub-bands")
}

/// The samples of sub-bands.
fn synthesised(rt: &impl Abort, alloc: Global, bands: &Bands) -> Vec<i32> {
    assert!(rt; is_area(&bands.rect) && bands.levels <= 10);
    assert!(rt; are_bands(bands, bands.levels));
    synthesise(alloc, bands, bands.levels).expect(rt, "samples")
}

/// Makes the samples of sub-bands in steps of so many rows.
fn has_rows(rt: &impl Abort, alloc: Global, bands: &Bands, step: u32, samples: &[i32])
    requires { 1 ≤ step }
{
    assert!(rt; is_area(&bands.rect) && bands.levels <= 10);
    assert!(rt; are_bands(bands, bands.levels));
    if bands.levels == 0 {
        return;
    }
    let rows = synthesise_by_rows(alloc, bands, bands.levels, step).expect(rt, "samples");
    equal(rows.as_slice(), samples).expect(rt, "samples by rows");
}

/// Makes the sub-bands of samples that are given in steps of so many rows.
fn has_bands(rt: &impl Abort, alloc: Global, row: &Row<'_>, step: u32)
    requires { 1 ≤ step }
{
    let (rect, levels) = (row.rect, row.levels);
    assert!(rt; is_area(&rect) && levels <= 10);
    assert!(rt; are_samples(&rect, row.samples));
    let bands = analyse_by_rows(alloc, &rect, levels, row.samples, step).expect(rt, "sub-bands");
    equal((bands.rect, bands.levels), (row.rect, row.levels)).expect(rt, "a tile-component");
    let found = listed(rt, alloc, &bands.bands);
    equal(found.as_slice(), row.coefficients).expect(rt, "coefficients by rows");
}

/// Gives the levels all samples, and takes the rows of each sub-band that they made.
fn hands_out(rt: &impl Abort, alloc: Global, row: &Row<'_>) {
    let (rect, levels) = (row.rect, row.levels);
    assert!(rt; is_area(&rect) && levels <= 10);
    assert!(rt; are_samples(&rect, row.samples));
    let mut falling = Falling::new(alloc, &rect, levels).expect(rt, "levels");
    let mut rows = Vec::from_slice(alloc, row.samples).expect(rt, "samples");
    falling.give(rect.y1, &mut rows).expect(rt, "rows");
    let mut found = Vec::new(alloc);
    for b in 0..3 * levels + 1 {
        found
            .extend_from_slice(falling.rows(b))
            .expect(rt, "coefficients");
    }
    equal(found.as_slice(), row.coefficients).expect(rt, "coefficients that were taken");
    falling.clear();
    equal(falling.rows(0).len(), 0).expect(rt, "no coefficient");
}

/// Analyses the samples of a row, and synthesises them again, at once and row by row.
fn there_and_back(rt: &impl Abort, alloc: Global, row: &Row<'_>) {
    let bands = analysed(rt, alloc, row);
    equal((bands.rect, bands.levels), (row.rect, row.levels)).expect(rt, "a tile-component");
    let found = listed(rt, alloc, &bands.bands);
    equal(found.as_slice(), row.coefficients).expect(rt, "coefficients");
    hands_out(rt, alloc, row);
    let back = synthesised(rt, alloc, &bands);
    equal(back.as_slice(), row.samples).expect(rt, "samples");
    for step in [1u32, 2, 3, 64] {
        has_rows(rt, alloc, &bands, step, row.samples);
        has_bands(rt, alloc, row, step);
    }
}

/// The rectangle that a line tells next.
pub(crate) fn rect_of(fields: &mut Line<'_>) -> Rect {
    Rect {
        x0: fields.number(0, 0xFFFF_FFFF) as u32,
        y0: fields.number(0, 0xFFFF_FFFF) as u32,
        x1: fields.number(0, 0xFFFF_FFFF) as u32,
        y1: fields.number(0, 0xFFFF_FFFF) as u32,
    }
}

/// The tile-component of a line, both ways.
fn is_right(rt: &impl Abort, alloc: Global, line: &str) {
    let mut fields = Line::new(line, ' ');
    let rect = rect_of(&mut fields);
    let levels = fields.number(0, 10) as u8;
    let samples = fields.numbers(alloc, ',');
    let coefficients = fields.numbers(alloc, ',');
    fields.end().expect(rt, "a tile-component");
    let row = Row {
        rect,
        levels,
        samples: &samples,
        coefficients: &coefficients,
    };
    there_and_back(rt, alloc, &row);
}

#[test]
fn outside_values(rt: HostRuntime) {
    for line in ROWS.lines() {
        is_right(&rt, rt.alloc(), line);
    }
}
