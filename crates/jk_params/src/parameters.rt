//! The parameters of an encoding.

use jk_marks::Order;
use jk_math::Style;

/// What holds the codestream.
#[derive(Clone, Copy, Debug, PartialEq, Eq)]
pub enum Container {
    /// Nothing: a bare codestream.
    Raw,
    /// A JP2 file (T.800 Annex I).
    Jp2,
}

/// How an image is encoded.
#[derive(Debug, Drop)]
pub struct Parameters {
    /// Decomposition levels, 0 to 5.
    pub levels: u8,
    /// Layers, 1 to 32.
    pub layers: u16,
    /// The progression order.
    pub order: Order,
    /// The width and height of a tile, 1 to 2^31 - 1 each; without them there is one tile.
    pub tile: Option<(u32, u32)>,
    /// The exponent of a code-block's width, 2 to 10; with `ycb` at most 12.
    pub xcb: u8,
    /// The exponent of a code-block's height, 2 to 10.
    pub ycb: u8,
    /// The style of code-blocks.
    pub style: Style,
    /// Pairs of exponents PPx and PPy of precinct sizes, 0 to 15, one for each resolution from the
    /// lowest on, with 0 only there; none where they aren't given.
    pub precincts: Vec<(u8, u8)>,
    /// Whether components 0 to 2 go through the colour transform; only with 3 or 4 components.
    pub colour: bool,
    /// Whether SOP stands before each packet.
    pub sop: bool,
    /// Whether EPH stands after each packet header.
    pub eph: bool,
    /// What holds the codestream; JP2 only with 1 or 3 unsigned components.
    pub container: Container,
}
