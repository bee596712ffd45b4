//! The sub-bands of a tile-component, and parts of them.

use crate::region::Region;
use jk_math::{Planes, Rect};

/// The sub-bands of a tile-component on the rectangle `rect` with so many decomposition levels, in
/// the order of QCD: LL, then HL, LH and HH of each resolution from 1 on. Each is a list of
/// coefficients row by row on its own rectangle (T.800 B.5).
#[derive(Debug, Drop)]
pub struct Bands {
    pub rect: Rect,
    pub levels: u8,
    pub bands: Planes,
}

/// The parts of the sub-bands that a region of a resolution depends on, in the order of QCD, each a
/// list of coefficients row by row on its [`part_area`](crate::part_area).
#[derive(Debug, Drop)]
pub struct BandParts {
    pub region: Region,
    pub bands: Planes,
}
