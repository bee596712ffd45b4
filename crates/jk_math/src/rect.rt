//! Rectangles on the reference grid.

/// The columns from `x0` up to `x1` and the rows from `y0` up to `y1`, the ends not counted, on the
/// reference grid of T.800 B.2 or on one of its reduced grids.
#[derive(Clone, Copy, Debug, PartialEq, Eq)]
pub struct Rect {
    pub x0: u32,
    pub y0: u32,
    pub x1: u32,
    pub y1: u32,
}
