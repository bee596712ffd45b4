//! Sub-bands of a decomposition level.

/// Which filters made a sub-band, across and then down (T.800 B.5).
#[derive(Clone, Copy, Debug, PartialEq, Eq)]
pub enum Orientation {
    /// Low-pass both ways.
    LL,
    /// High-pass across.
    HL,
    /// High-pass down.
    LH,
    /// High-pass both ways.
    HH,
}
