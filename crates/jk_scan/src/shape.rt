//! Which code-block it is.

use jk_math::{Orientation, Style};

/// The size of a code-block in coefficients, the sub-band that it lies in, and its style.
#[derive(Clone, Copy, Debug, PartialEq, Eq)]
pub struct BlockShape {
    /// How many columns it has.
    pub width: usize,
    /// How many rows it has.
    pub height: usize,
    /// Its sub-band.
    pub orientation: Orientation,
    /// Its style.
    pub style: Style,
}
