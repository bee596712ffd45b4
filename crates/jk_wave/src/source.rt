//! Where the rows of a plane come from.

ghost use Rattle.std.specs.Prelude.{◌≡◌, ℕ, ℤ, ◌+◌, ◌<◌, ◌≤◌, length};
ghost use Rattle.jk_math.specs.Raster.{columns_of, places_of, plane_at};
ghost use Rattle.jk_math.specs.Signed.{signed_at};
ghost use Rattle.jk_geom.specs.Rectangles.{IsArea};

use jk_math::Rect;

/// The values of a rectangle, given a row at a time.
pub trait RowSource {
    ghost use Rattle.jk_math.specs.declared.rect.Rect.{Rect};

    // It is in order.
    ghost stands: { Self → Type 0 };

    // The rectangle.
    ghost area_of: { Self → Rect };

    // The value at (x, y).
    ghost value_at: { Self → ℕ → ℕ → ℤ };

    /// Puts the values of the row at place `y` into a row of the rectangle's width.
    fn put_row(&self, y: u32, row: &mut [i32])
        requires stands { stands self.now }
        requires inside { ((area_of self.now).y0 ≤ y) × (y < (area_of self.now).y1) }
        requires long { length row.old ≡ columns_of (area_of self.now) }
        ensures { (k : ℕ) → k < columns_of (area_of self.now) → signed_at row.new k
            ≡ value_at self.now ((area_of self.now).x0 + k) y };
}

/// The values of a rectangle row by row in one list.
#[derive(Drop)]
pub(crate) struct PlaneRows<'a> {
    pub(crate) area: Rect,
    pub(crate) values: &'a [i32],
}

impl<'a> RowSource for PlaneRows<'a> {
    ghost stands = { λ s. IsArea s.area × (length s.values.now ≡ places_of s.area) };

    ghost area_of = { λ s. s.area };

    ghost value_at = { λ s. plane_at s.area s.values.now };

    fn put_row(&self, y: u32, row: &mut [i32]) {
        let width = row.len();
        let at = (y - self.area.y0) as usize * width;
        row.copy_from_slice(&self.values[at..at + width]);
    }
}
