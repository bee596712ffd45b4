//! From the samples of a tile to what the wavelet takes (T.800 G.1.1, G.2.1), a row at a time.

ghost use Rattle.std.specs.Prelude.{◌≡◌, ℕ, ℤ, ◌+◌, ◌-◌, ◌<◌, ◌≤◌, ◌^◌, length, All, true, ◌-ℤ◌, IfErr, OnOk};
ghost use Rattle.jk_math.specs.Memory.{IsMemory};
ghost use Rattle.jk_math.specs.Picture.{IsPicture, sample_at};
ghost use Rattle.jk_math.specs.Raster.{columns_of, raster};
ghost use Rattle.jk_math.specs.Signed.{IsBelow, signed_at};
ghost use Rattle.jk_rct.specs.Colour.{y0_of, y1_of, y2_of};
ghost use Rattle.jk_geom.specs.Rectangles.{IsArea};
ghost use Rattle.jk_tile.specs.Filling.{IsPartOf};
ghost use Rattle.jk_tile.specs.encoding.Forward.{picture_area, levelled, tile_value};
ghost use Rattle.jk_tile.specs.Samples.{shift};

use crate::samples::level_shift;
use jk_math::{Fault, Image, Rect};
use jk_rct::forward_pixel;
use jk_wave::RowSource;
use std::alloc::Global;

/// The samples of a component on the row at place `y` of a rectangle.
fn row_of<'a>(image: &'a Image, component: usize, rect: &Rect, y: u32) -> &'a [i32]
    requires picture { IsPicture image.now }
    requires component { component < length image.now.planes }
    requires rect { IsPartOf rect.now (picture_area image.now) }
    requires inside { (rect.now.y0 ≤ y) × (y < rect.now.y1) }
    ensures long { length result.now ≡ columns_of rect.now }
    ensures small { All (IsBelow (2 ^ 28)) result.now }
    ensures value { (k : ℕ) → k < columns_of rect.now → signed_at result.now k
        ≡ sample_at image.now component (rect.now.x0 + k - image.now.x0) (y - image.now.y0) }
{
    let row = (y - image.y0()) as usize * image.width() as usize;
    let at = row + (rect.x0 - image.x0()) as usize;
    &image.planes().plane(component)[at..at + (rect.x1 - rect.x0) as usize]
}

/// A sample less the level shift.
#[inline(always)]
#[tactic(auto, using(crate::proofs::encoding::Forwards::shift_range))]
fn lowered(sample: i32, depth: u8, signed: bool) -> i32
    requires sample { IsBelow (2 ^ 28) sample }
    requires some { 1 ≤ depth }
    requires few { depth ≤ 16 }
    ensures value { result ≡ sample -ℤ shift depth signed }
    ensures small { IsBelow (2 ^ 29) result }
{
    sample - level_shift(depth, signed)
}

/// Puts samples less the level shift into a row.
fn put_lowered(row: &mut [i32], samples: &[i32], depth: u8, signed: bool)
    requires long { length samples.now ≡ length row.old }
    requires small { All (IsBelow (2 ^ 28)) samples.now }
    requires some { 1 ≤ depth }
    requires few { depth ≤ 16 }
    ensures { (k : ℕ) → k < length row.old → signed_at row.new k ≡ signed_at samples.now k -ℤ shift depth signed }
{
    for k in 0..row.len() {
        row[k] = lowered(samples[k], depth, signed);
    }
}

/// One of the three components that the component transform makes of a pixel (T.800 G.2.1).
trait Transformed {
    /// What it is by the samples of components 0, 1 and 2.
    ghost formula: { ℤ → ℤ → ℤ → ℤ };

    fn of(first: i32, second: i32, third: i32) -> i32
        requires first { IsBelow (2 ^ 29) first }
        requires second { IsBelow (2 ^ 29) second }
        requires third { IsBelow (2 ^ 29) third }
        ensures { result ≡ formula first second third };
}

/// Y0, which stands for component 0.
struct Y0;

impl Transformed for Y0 {
    ghost formula = { y0_of };

    #[inline(always)]
    fn of(first: i32, second: i32, third: i32) -> i32 {
        forward_pixel(first, second, third).0
    }
}

/// Y1, which stands for component 1.
struct Y1;

impl Transformed for Y1 {
    ghost formula = { y1_of };

    #[inline(always)]
    fn of(first: i32, second: i32, third: i32) -> i32 {
        forward_pixel(first, second, third).1
    }
}

/// Y2, which stands for component 2.
struct Y2;

impl Transformed for Y2 {
    ghost formula = { y2_of };

    #[inline(always)]
    fn of(first: i32, second: i32, third: i32) -> i32 {
        forward_pixel(first, second, third).2
    }
}

/// Puts what the component transform makes of samples less the level shift into a row.
fn put_transformed<T: Transformed>(
    row: &mut [i32],
    first: &[i32],
    second: &[i32],
    third: &[i32],
    depth: u8,
    signed: bool,
)
    requires first_long { length first.now ≡ length row.old }
    requires second_long { length second.now ≡ length row.old }
    requires third_long { length third.now ≡ length row.old }
    requires first_small { All (IsBelow (2 ^ 28)) first.now }
    requires second_small { All (IsBelow (2 ^ 28)) second.now }
    requires third_small { All (IsBelow (2 ^ 28)) third.now }
    requires some { 1 ≤ depth }
    requires few { depth ≤ 16 }
    ensures { (k : ℕ) → k < length row.old → signed_at row.new k
        ≡ T.formula (signed_at first.now k -ℤ shift depth signed) (signed_at second.now k -ℤ shift depth signed)
        (signed_at third.now k -ℤ shift depth signed) }
{
    for k in 0..row.len() {
        row[k] = T::of(
            lowered(first[k], depth, signed),
            lowered(second[k], depth, signed),
            lowered(third[k], depth, signed),
        );
    }
}

/// A component of an image on a rectangle as the wavelet takes it: less the level shift, and behind
/// the component transform where that is asked for.
#[derive(Drop)]
pub(crate) struct ComponentRows<'a> {
    pub(crate) image: &'a Image,
    pub(crate) component: usize,
    pub(crate) colours: bool,
    pub(crate) rect: Rect,
}

impl<'a> ComponentRows<'a> {
    /// Puts the row at place `y` of the component into a row, less the level shift.
    fn put_plain(&self, y: u32, row: &mut [i32])
        requires picture { IsPicture self.now.image.now }
        requires component { self.now.component < length self.now.image.now.planes }
        requires rect { IsPartOf self.now.rect (picture_area self.now.image.now) }
        requires inside { (self.now.rect.y0 ≤ y) × (y < self.now.rect.y1) }
        requires long { length row.old ≡ columns_of self.now.rect }
        ensures { (k : ℕ) → k < columns_of self.now.rect → signed_at row.new k
            ≡ levelled self.now.image.now self.now.component (self.now.rect.x0 + k) y }
    {
        let samples = row_of(self.image, self.component, &self.rect, y);
        put_lowered(row, samples, self.image.depth(), self.image.signed());
    }

    /// Puts the row at place `y` of a transformed component into a row.
    fn put_coloured<T: Transformed>(&self, y: u32, row: &mut [i32])
        requires picture { IsPicture self.now.image.now }
        requires three { 3 ≤ length self.now.image.now.planes }
        requires rect { IsPartOf self.now.rect (picture_area self.now.image.now) }
        requires inside { (self.now.rect.y0 ≤ y) × (y < self.now.rect.y1) }
        requires long { length row.old ≡ columns_of self.now.rect }
        ensures { (k : ℕ) → k < columns_of self.now.rect → signed_at row.new k
            ≡ T.formula (levelled self.now.image.now 0 (self.now.rect.x0 + k) y)
            (levelled self.now.image.now 1 (self.now.rect.x0 + k) y)
            (levelled self.now.image.now 2 (self.now.rect.x0 + k) y) }
    {
        let image = self.image;
        let first = row_of(image, 0, &self.rect, y);
        let second = row_of(image, 1, &self.rect, y);
        let third = row_of(image, 2, &self.rect, y);
        put_transformed::<T>(row, first, second, third, image.depth(), image.signed());
    }
}

impl<'a> RowSource for ComponentRows<'a> {
    ghost stands = { λ s. IsPicture s.image.now × (s.component < length s.image.now.planes)
        × IsPartOf s.rect (picture_area s.image.now) × (s.colours ≡ true → 3 ≤ length s.image.now.planes) };

    ghost area_of = { λ s. s.rect };

    ghost value_at = { λ s. tile_value s.image.now s.colours s.component };

    fn put_row(&self, y: u32, row: &mut [i32]) {
        if !self.colours {
            return self.put_plain(y, row);
        }
        match self.component {
            0 => self.put_coloured::<Y0>(y, row),
            1 => self.put_coloured::<Y1>(y, row),
            2 => self.put_coloured::<Y2>(y, row),
            _ => self.put_plain(y, row),
        }
    }
}

/// The rows of a component of an image on a rectangle as the wavelet takes them: less the level
/// shift, and behind the component transform where that is asked for. They take the place of what
/// is in `values`. Memory is the only fault.
pub fn put_values(
    alloc: Global,
    image: &Image,
    colours: bool,
    component: usize,
    rect: &Rect,
    values: &mut Vec<i32>,
) -> Result<(), Fault>
    requires picture { IsPicture image.now }
    requires component { component < length image.now.planes }
    requires colours { colours ≡ true → 3 ≤ length image.now.planes }
    requires rect { IsPartOf rect.now (picture_area image.now) }
    ensures values { OnOk result (values.new.items ≡ raster rect.now (tile_value image.now colours component)) }
    ensures memory { IfErr result IsMemory }
{
    let source = ComponentRows {
        image,
        component,
        colours,
        rect: *rect,
    };
    let mut row = vec![in alloc; 0; (rect.x1 - rect.x0) as usize]?;
    values.clear();
    for y in rect.y0..rect.y1 {
        source.put_row(y, &mut row);
        values.extend_from_slice(&row)?;
    }
    Ok(())
}
