//! Tests of regions of resolutions against outside values.

ghost use Rattle.std.specs.Prelude.{◌≡◌, ◌+◌, ◌*◌, ◌^◌, ◌<◌, ◌≤◌, [], IsTrue, length, All, slice_index_or};
ghost use Rattle.jk_math.specs.Raster.{places_of};
ghost use Rattle.jk_math.specs.Signed.{IsBelow};
ghost use Rattle.jk_wave.specs.Regions.{IsPartOf, IsRegion, AreBandParts, part_area};

use crate::lift::bands::{are_coefficients, is_area, numbered};
use jk_geom::resolution;
use jk_math::{Planes, Rect};
use jk_wave::{BandParts, Region, part_area, synthesise_part};
use std::alloc::Global;
use std::process::Abort;
use vectors::{Line, equal_at};

/// A tile-component: the coefficients of all sub-bands in the order of QCD.
#[derive(Clone, Copy)]
struct Plane {
    rect: Rect,
    levels: u8,
    coefficients: &'static str,
}

/// A tile-component of 13 by 11 at (3, 2) with three levels.
static WIDE: &str = "\
-31 5 75 -70 -24 163 -77 169 -269 -47 8 -50 -51 53 -109 19 243 250 232 79 41 160 53 -13 108 -116 -40 -5 -203 \
-113 -3 85 174 100 -359 -486 65 445 164 -41 -178 70 50 413 148 -117 113 -117 84 332 -275 -335 -111 -69 79 -185 \
-155 255 171 79 14 135 135 -3 252 -30 142 -44 -18 -194 -44 9 156 262 4 17 -270 -186 -8 205 -41 167 1 -245 -148 \
317 -146 167 -144 -196 -143 -60 68 33 -47 21 132 -122 -35 105 -104 81 123 -149 146 155 -319 218 342 201 -340 227 \
-47 -190 -174 6 112 281 108 -173 236 103 60 426 333 -579 -210 -102 -687 -706 10 400 -49 86 -269 -191 -141 -574 \
-78 218 -132 -79 -115";

/// Regions of it, a line for each: the number of its resolution, its rectangle and its samples.
static WIDE_REGIONS: &str = "\
3 9 7 10 8 -282
3 3 2 16 13 -39 67 242 -271 176 -45 -247 -140 -185 80 180 -48 89 256 -196 287 -45 -287 -79 117 -14 -114 98 -137 \
-227 -158 155 -171 -165 -299 -295 -86 -80 -131 -130 -4 21 -97 252 -91 -114 -99 92 5 -278 69 124 -131 -151 -30 \
-234 39 8 300 -297 46 -233 17 63 13 192 23 -111 192 183 -120 -242 -38 -277 66 113 -282 262 128 74 85 292 -291 \
163 -253 -115 -99 -179 -49 173 52 224 63 237 -44 173 -190 76 2 -263 143 -207 -87 48 225 71 -149 48 -18 258 -206 \
19 24 13 -119 -220 -148 16 195 -135 -251 -218 246 115 -268 -57 52 -44 166 131 -151 -243 -267 205 42 -88 -167 277 \
-165 123 -191 -128 144 81 -148 -240 130 1
3 3 2 4 3 -39
3 15 12 16 13 1
3 3 7 6 9 -120 -242 -38 163 -253 -115
3 8 11 11 13 -44 166 131 -191 -128 144
3 9 7 9 8
3 5 11 9 12 -268 -57 52 -44
3 11 9 15 12 225 71 -149 48 16 195 -135 -251 -151 -243 -267 205
3 10 6 13 10 13 192 23 262 128 74 52 224 63 48 225 71
3 9 3 11 7 117 -14 -80 -131 69 124 63 13
2 5 4 6 5 171
2 6 1 8 4 83 -95 -37 -102 -35 91
1 2 2 3 3 -28
1 2 1 4 4 -120 -36 -28 133 -27 -135
0 1 1 2 2 -31";

/// Regions of one column at an odd place.
static COLUMN_REGIONS: &str = "\
2 5 4 6 5 -116
2 5 0 6 9 244 -117 211 46 -116 -209 203 -22 227
2 5 0 6 1 244
2 5 8 6 9 227
2 5 4 6 6 -116 -209
2 5 7 6 9 -22 227
2 5 4 5 5
2 5 5 6 6 -209";

/// Regions of one row at an odd place.
static ROW_REGIONS: &str = "\
2 9 7 10 8 294
2 4 7 14 8 197 -29 0 48 -118 294 -289 185 260 -44
2 4 7 5 8 197
2 13 7 14 8 -44
2 4 7 7 8 197 -29 0
2 8 7 11 8 -118 294 -289
2 9 7 9 8
2 9 7 12 8 294 -289 185
2 12 7 14 8 260 -44";

/// Regions of one place that is odd both ways.
static PLACE_REGIONS: &str = "\
3 1 1 2 2 53
3 1 1 1 2";

/// Is a rectangle with its ends in order a part of another one?
fn is_part(part: &Rect, area: &Rect) -> bool
    ensures { IsTrue result → IsPartOf part.now area.now }
{
    let across = area.x0 <= part.x0 && part.x0 <= part.x1 && part.x1 <= area.x1;
    let down = area.y0 <= part.y0 && part.y0 <= part.y1 && part.y1 <= area.y1;
    across && down
}

/// Is this a part of a resolution?
fn is_region(region: &Region) -> bool
    ensures { IsTrue result → IsRegion region.now }
{
    if !is_area(&region.rect) || region.levels > 10 || region.top > region.levels {
        return false;
    }
    is_part(
        &region.area,
        &resolution(&region.rect, region.levels, region.top),
    )
}

/// Is the list of sub-band `b` as long as its part, and below 2^23 in magnitude?
fn is_band_part(parts: &BandParts, b: usize) -> bool
    requires region { IsRegion parts.now.region }
    requires b { b ≤ 3 * parts.now.region.top }
    requires inside { b < length parts.now.bands }
    ensures length { IsTrue result → length (slice_index_or parts.now.bands b []) ≡ places_of (part_area parts.now.region b) }
    ensures small { IsTrue result → All (IsBelow (2 ^ 23)) (slice_index_or parts.now.bands b []) }
{
    let area = part_area(&parts.region, b);
    let places = (area.y1 - area.y0) as usize * (area.x1 - area.x0) as usize;
    let values = parts.bands.plane(b);
    values.len() == places && are_coefficients(values)
}

/// Are these the parts of the sub-bands that the region depends on?
fn are_parts(parts: &BandParts) -> bool
    requires { IsRegion parts.now.region }
    ensures { IsTrue result → AreBandParts parts.now.region parts.now.bands }
{
    let last = 3 * parts.region.top as usize;
    if parts.bands.len() <= last {
        return false;
    }
    for b in 0..last + 1 {
        if !is_band_part(parts, b) {
            return false;
        }
    }
    true
}

/// The numbers of a text.
fn numbers(rt: &impl Abort, alloc: Global, text: &str) -> Vec<i32> {
    let mut line = Line::new(text, '|');
    let numbers = line.numbers(alloc, ' ');
    line.end().expect(rt, "numbers");
    numbers
}

/// The place of a row and a column of a rectangle in the list of its values.
fn place(area: &Rect, x: u32, y: u32) -> usize {
    let width = area.x1.saturating_sub(area.x0) as usize;
    let row = y.saturating_sub(area.y0) as usize;
    let column = x.saturating_sub(area.x0) as usize;
    row.saturating_mul(width).saturating_add(column)
}

/// What a list of the values of a rectangle has of a part of it.
fn cut(rt: &impl Abort, alloc: Global, values: &[i32], area: &Rect, part: &Rect) -> Vec<i32> {
    let mut all = Vec::new(alloc);
    for y in part.y0..part.y1 {
        for x in part.x0..part.x1 {
            let value = values.get(place(area, x, y)).expect(rt, "a coefficient");
            all.push(*value).expect(rt, "a coefficient");
        }
    }
    all
}

/// Number k of a line, which isn't below 0.
fn number(rt: &impl Abort, line: &[i32], k: usize) -> u32 {
    let number = line.get(k).copied().unwrap_or(-1);
    assert!(rt; number >= 0);
    number.unsigned_abs()
}

/// The region that a line begins with.
fn region(rt: &impl Abort, plane: &Plane, line: &[i32]) -> Region {
    let top = number(rt, line, 0);
    assert!(rt; top < 256);
    Region {
        rect: plane.rect,
        levels: plane.levels,
        top: top as u8,
        area: Rect {
            x0: number(rt, line, 1),
            y0: number(rt, line, 2),
            x1: number(rt, line, 3),
            y1: number(rt, line, 4),
        },
    }
}

/// The parts of the sub-bands that a region depends on, of all coefficients.
fn parts(rt: &impl Abort, alloc: Global, region: Region, coefficients: &[i32]) -> BandParts
    requires { IsRegion region }
{
    let mut bands = Vec::new(alloc);
    let mut from = 0usize;
    for b in 0..3 * region.top + 1 {
        let area = numbered(&region.rect, region.levels, b);
        let places = (area.y1 - area.y0) as usize * (area.x1 - area.x0) as usize;
        let end = from.saturating_add(places);
        let values = coefficients.get(from..end).expect(rt, "a sub-band");
        let part = part_area(&region, b as usize);
        bands
            .push(cut(rt, alloc, values, &area, &part))
            .expect(rt, "a sub-band");
        from = end;
    }
    BandParts {
        region,
        bands: Planes::new(bands),
    }
}

/// The samples of a region, of the parts that it depends on alone.
fn synthesised(rt: &impl Abort, alloc: Global, region: Region, coefficients: &[i32]) -> Vec<i32> {
    assert!(rt; is_region(&region));
    let parts = parts(rt, alloc, region, coefficients);
    assert!(rt; is_region(&parts.region) && are_parts(&parts));
    synthesise_part(alloc, &parts).expect(rt, "samples")
}

/// Makes a region of the parts that it depends on alone.
fn has_samples(rt: &impl Abort, alloc: Global, plane: &Plane, text: &str) {
    let line = numbers(rt, alloc, text);
    let coefficients = numbers(rt, alloc, plane.coefficients);
    let region = region(rt, plane, &line);
    let samples = synthesised(rt, alloc, region, &coefficients);
    let due = line.get(5..).expect(rt, "samples");
    equal_at(text, samples.as_slice(), due).expect(rt, "samples");
}

/// Makes each region of a tile-component.
fn has_regions(rt: &impl Abort, alloc: Global, plane: Plane, regions: &str) {
    for line in regions.lines() {
        has_samples(rt, alloc, &plane, line);
    }
}

/// A tile-component.
fn plane_of(ends: [u32; 4], levels: u8, coefficients: &'static str) -> Plane {
    let [x0, y0, x1, y1] = ends;
    Plane {
        rect: Rect { x0, y0, x1, y1 },
        levels,
        coefficients,
    }
}

#[test]
fn regions_of_resolutions(rt: HostRuntime) {
    has_regions(
        &rt,
        rt.alloc(),
        plane_of([3, 2, 16, 13], 3, WIDE),
        WIDE_REGIONS,
    );
    has_regions(
        &rt,
        rt.alloc(),
        plane_of([5, 0, 6, 9], 2, "144 250 -358 162 218 -688 -2 -504 -474"),
        COLUMN_REGIONS,
    );
    has_regions(
        &rt,
        rt.alloc(),
        plane_of(
            [4, 7, 14, 8],
            2,
            "267 -10 66 -229 468 -255 214 995 399 -608",
        ),
        ROW_REGIONS,
    );
    has_regions(
        &rt,
        rt.alloc(),
        plane_of([1, 1, 2, 2], 3, "212"),
        PLACE_REGIONS,
    );
}
