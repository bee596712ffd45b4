//! A tile of an image that is written, but for its samples.

use jk_marks::Coding;
use jk_math::Rect;
use jk_params::Parameters;

/// A tile of an image that is written, but for its samples: how the image is written, how each
/// component is coded, the tile's rectangle, and how many components there are.
#[derive(Clone, Copy)]
pub struct TileOutline<'a> {
    /// How the image is written.
    pub parameters: &'a Parameters,
    /// How each component is coded, with its exponents.
    pub coding: &'a Coding,
    /// The tile's rectangle.
    pub rect: Rect,
    /// How many components there are, 1 to 4.
    pub components: usize,
}
