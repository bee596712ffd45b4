//! Tiles.

ghost use Rattle.std.specs.Prelude.{◌≡◌, ◌+◌, ◌-◌, ◌*◌, ◌/◌, ◌^◌, ◌<◌, ◌≤◌, min, max};
ghost use Rattle.jk_marks.specs.Siz.{IsSiz, tile_count, tiles_across, tiles_down};
ghost use Rattle.jk_geom.specs.Rectangles.{ceil_div, IsArea, tile_area};

use jk_marks::Siz;
use jk_math::Rect;

/// How many tiles lie side by side from `first` up to `end`.
fn tiles_between(first: u32, end: u32, side: u32) -> u32
    requires order { first ≤ end }
    requires side { 0 < side }
    ensures { result ≡ ceil_div (end - first) side }
{
    ((end as u64 - first as u64 + side as u64 - 1) / side as u64) as u32
}

/// How many tiles there are side by side.
fn across(siz: &Siz) -> u32
    requires { IsSiz siz.now }
    ensures { result ≡ tiles_across siz.now }
{
    tiles_between(siz.tile_x0, siz.x1, siz.tile_width)
}

/// How many tiles there are (T.800 B.3, equation B-5).
pub fn tile_count(siz: &Siz) -> u32
    requires { IsSiz siz.now }
    ensures { result ≡ tile_count siz.now }
{
    across(siz) * tiles_between(siz.tile_y0, siz.y1, siz.tile_height)
}

/// The bounds of tile `n` of those that begin at `first` and are `side` wide, within `start` and
/// `end`.
fn bounds(first: u32, side: u32, n: u32, start: u32, end: u32) -> (u32, u32)
    requires side { 0 < side }
    requires first { start < first + side }
    requires order { start < end }
    requires place { n < ceil_div (end - first) side }
    ensures lower { result.0 ≡ max (first + n * side) start }
    ensures upper { result.1 ≡ min (first + (n + 1) * side) end }
    ensures some { result.0 < result.1 }
{
    let left = first as u64 + n as u64 * side as u64;
    let right = left + side as u64;
    (left.max(start as u64) as u32, right.min(end as u64) as u32)
}

/// The part of the image that is tile number `tile`, in raster order (T.800 B.3, equations B-6 to
/// B-10). No tile is empty.
#[tactic(auto, unfolding(crate::specs::Rectangles::tile_area))]
pub fn tile(siz: &Siz, tile: u32) -> Rect
    requires siz { IsSiz siz.now }
    requires tile { tile < tile_count siz.now }
    ensures value { result ≡ tile_area siz.now tile }
    ensures area { IsArea result }
    ensures some { (result.x0 < result.x1) × (result.y0 < result.y1) }
{
    let across = across(siz);
    let (x0, x1) = bounds(siz.tile_x0, siz.tile_width, tile % across, siz.x0, siz.x1);
    let (y0, y1) = bounds(siz.tile_y0, siz.tile_height, tile / across, siz.y0, siz.y1);
    Rect { x0, y0, x1, y1 }
}
