//! Rectangles of the reference grid, and of the grids that are reduced by decomposition levels.

ghost use Rattle.std.specs.Prelude.{◌≡◌, ◌≤◌};
ghost use Rattle.jk_marks.specs.Siz.{IsSiz};
ghost use Rattle.jk_geom.specs.Rectangles.{IsArea, is_empty, meet, touches};
ghost use Rattle.jk_geom.specs.Partitions.{image_area, reduced_area};

use crate::bands::resolution;
use jk_marks::Siz;
use jk_math::Rect;

/// Whether a rectangle has no place.
pub fn is_empty(area: &Rect) -> bool
    ensures { result ≡ is_empty area.now }
{
    area.x1 <= area.x0 || area.y1 <= area.y0
}

/// What two rectangles have in common.
pub fn meet(a: &Rect, b: &Rect) -> Rect
    ensures { result ≡ meet a.now b.now }
{
    Rect {
        x0: a.x0.max(b.x0),
        y0: a.y0.max(b.y0),
        x1: a.x1.min(b.x1),
        y1: a.y1.min(b.y1),
    }
}

/// Whether two rectangles have a place in common.
pub fn touches(a: &Rect, b: &Rect) -> bool
    ensures { result ≡ touches a.now b.now }
{
    !is_empty(&meet(a, b))
}

/// A rectangle on the grid that is reduced by so many levels (T.800 B.5).
pub fn reduced(area: &Rect, levels: u8) -> Rect
    requires area { IsArea area.now }
    requires levels { levels ≤ 10 }
    ensures value { result ≡ reduced_area area.now levels }
    ensures area { IsArea result }
{
    resolution(area, levels, 0)
}

/// The place of the image on the grid that is reduced by so many levels.
pub fn reduced_image(siz: &Siz, levels: u8) -> Rect
    requires siz { IsSiz siz.now }
    requires levels { levels ≤ 10 }
    ensures value { result ≡ reduced_area (image_area siz.now) levels }
    ensures area { IsArea result }
{
    let image = Rect {
        x0: siz.x0,
        y0: siz.y0,
        x1: siz.x1,
        y1: siz.y1,
    };
    reduced(&image, levels)
}
