//! The options of an encoding.

ghost use Rattle.std.specs.Prelude.{◌≡◌, [], None, false};
ghost use Rattle.std.specs.String.{string_bytes};
ghost use Rattle.jk_math.specs.Styles.{plain_style};
ghost use Rattle.jk_options.specs.Options.{layers_for, order_for};

use jk_marks::Order;
use jk_math::Style;
use std::alloc::Global;

/// How many layers a file has out of which windows are cut. They cost less than 1 % of the file,
/// and a window in the first of them is a small part of its bytes.
const WINDOW_LAYERS: u32 = 8;

/// The options of an encoding, as they are given: no number of them is judged yet.
#[derive(Debug, Drop)]
pub struct EncodeOptions {
    /// Decomposition levels.
    pub levels: u32,
    /// Layers, where their number is given.
    pub layers: Option<u32>,
    /// The progression order, where one is given.
    pub order: Option<Order>,
    /// The width of a tile.
    pub tile_width: Option<u32>,
    /// The height of a tile.
    pub tile_height: Option<u32>,
    /// The exponent of a code-block's width.
    pub block_x: u32,
    /// The exponent of a code-block's height.
    pub block_y: u32,
    /// The style of code-blocks.
    pub style: Style,
    /// Precinct sizes, two hexadecimal digits for each resolution from the lowest on: the exponent
    /// of the height, and that of the width. Without a digit none are given.
    pub precincts: String,
    /// Whether the file is one out of which windows are cut: where they aren't given, the order is
    /// RPCL, there are 8 layers, and precincts are 128 by 128 at each resolution.
    pub windows: bool,
    /// The column of the upper left sample on the reference grid.
    pub x0: u32,
    /// The row of the upper left sample on the reference grid.
    pub y0: u32,
    /// Whether the components of a colour image stay as they are.
    pub no_colour: bool,
    /// Whether SOP stands before each packet.
    pub sop: bool,
    /// Whether EPH stands after each packet header.
    pub eph: bool,
    /// Whether a bare codestream is written, and no JP2 file.
    pub raw: bool,
}

impl EncodeOptions {
    /// The options that stand where none is given.
    pub fn new(alloc: Global) -> EncodeOptions
        ensures levels { result.levels ≡ 5 }
        ensures layers { result.layers ≡ None }
        ensures order { result.order ≡ None }
        ensures tile { (result.tile_width ≡ None) × (result.tile_height ≡ None) }
        ensures blocks { (result.block_x ≡ 6) × (result.block_y ≡ 6) }
        ensures style { result.style ≡ plain_style }
        ensures precincts { string_bytes result.precincts ≡ [] }
        ensures place { (result.x0 ≡ 0) × (result.y0 ≡ 0) }
        ensures flags { (result.windows ≡ false) × (result.no_colour ≡ false) × (result.sop ≡ false)
            × (result.eph ≡ false) × (result.raw ≡ false) }
    {
        EncodeOptions {
            levels: 5,
            layers: None,
            order: None,
            tile_width: None,
            tile_height: None,
            block_x: 6,
            block_y: 6,
            style: Style::plain(),
            precincts: String::new(alloc),
            windows: false,
            x0: 0,
            y0: 0,
            no_colour: false,
            sop: false,
            eph: false,
            raw: false,
        }
    }

    /// The number of layers: the given one, or the one that stands where none is given.
    pub fn layers(&self) -> u32
        ensures { result ≡ layers_for self.now.layers self.now.windows }
    {
        match self.layers {
            Some(layers) => layers,
            None if self.windows => WINDOW_LAYERS,
            None => 1,
        }
    }

    /// The order of the packets: the given one, or the one that stands where none is given.
    pub fn order(&self) -> Order
        ensures { result ≡ order_for self.now.order self.now.windows }
    {
        match self.order {
            Some(order) => order,
            None if self.windows => Order::Rpcl,
            None => Order::Lrcp,
        }
    }
}
