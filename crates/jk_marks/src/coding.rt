//! The coding of a tile-component.

ghost use Rattle.std.specs.Prelude.{◌≡◌};

use crate::segments::{Exponents, Precincts};
use jk_math::Style;

/// How one component of one tile is coded: what the segments that go before others say of it
/// (T.800 A.6).
#[derive(Debug, Drop)]
pub struct Coding {
    /// How many decomposition levels there are.
    pub levels: u8,
    /// The exponent of a code-block's width.
    pub xcb: u8,
    /// The exponent of a code-block's height.
    pub ycb: u8,
    /// The precinct sizes: a pair for each resolution, from the lowest on.
    pub precincts: Precincts,
    /// The code-block style.
    pub style: Style,
    /// How many guard bits there are.
    pub guard: u8,
    /// The exponents: one for each sub-band.
    pub exponents: Exponents,
}

impl Coding {
    /// The same coding.
    pub fn copy(&self) -> Coding
        ensures { result ≡ self.now }
    {
        Coding {
            levels: self.levels,
            xcb: self.xcb,
            ycb: self.ycb,
            precincts: self.precincts.copy(),
            style: self.style,
            guard: self.guard,
            exponents: self.exponents.copy(),
        }
    }
}
