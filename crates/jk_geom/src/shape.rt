//! What the packets of a tile depend on, and the names of packets.

ghost use Rattle.std.specs.Prelude.{◌≡◌, ◌+◌, ◌<◌, ◌≤◌, ◌++◌, [], ◌∷◌, length};
ghost use Rattle.jk_marks.specs.Siz.{IsSiz, tile_count};
ghost use Rattle.jk_geom.specs.Rectangles.{tile_area, IsArea};
ghost use Rattle.jk_geom.specs.TileShapes.{AreCodings, IsTileShape};

use crate::tiling;
use jk_marks::{Coding, Exponents, Order, Precincts, Siz};
use jk_math::{Rect, Style};
use std::marker::Model;

/// The codings of a tile's components, at most 4.
#[derive(Debug, Drop)]
pub struct Codings {
    count: usize,
    codings: [Coding; 4],
}

impl Model for Codings {
    ghost use Rattle.std.specs.Prelude.{List, take, ◌≤◌};
    ghost use Rattle.jk_marks.specs.declared.coding.Coding.{Coding};

    ghost Value = { List Coding };

    ghost view = { λ c. take c.count c.codings };

    ghost invariant = { λ c. c.count ≤ 4 };
}

/// A coding for a place that has none.
fn blank() -> Coding {
    Coding {
        levels: 0,
        xcb: 2,
        ycb: 2,
        precincts: Precincts::none(),
        style: Style::plain(),
        guard: 0,
        exponents: Exponents::new(&[]),
    }
}

impl Codings {
    /// No codings.
    pub fn none() -> Codings
        ensures { result ≡ [] }
    {
        Codings {
            count: 0,
            codings: [blank(), blank(), blank(), blank()],
        }
    }

    /// Appends the coding of one component more.
    pub fn push(&mut self, coding: Coding)
        requires { length self.old < 4 }
        ensures { self.new ≡ self.old ++ coding ∷ [] }
    {
        self.codings[self.count] = coding;
        self.count += 1;
    }

    /// The same codings.
    pub fn copy(&self) -> Codings
        ensures { result ≡ self.now }
    {
        let [first, second, third, fourth] = &self.codings;
        Codings {
            count: self.count,
            codings: [first.copy(), second.copy(), third.copy(), fourth.copy()],
        }
    }

    /// The codings.
    pub fn as_slice(&self) -> &[Coding]
        ensures { result.now ≡ self.now }
    {
        &self.codings[..self.count]
    }
}

/// What the packets of a tile depend on.
#[derive(Debug, Drop)]
pub struct TileShape {
    /// The part of the image that is the tile.
    pub rect: Rect,
    /// How many layers there are.
    pub layers: u16,
    /// The order of the packets.
    pub order: Order,
    /// The codings of the components.
    pub codings: Codings,
}

/// The name of a packet: whose packet it is.
#[derive(Clone, Copy, Debug, PartialEq, Eq)]
pub struct PacketName {
    pub layer: u16,
    pub resolution: u8,
    pub component: u8,
    pub precinct: u32,
}

/// The shape of tile number `tile`, with a coding for each of the image's components.
pub fn tile_shape(siz: &Siz, tile: u32, layers: u16, order: Order, codings: Codings) -> TileShape
    requires siz { IsSiz siz.now }
    requires tile { tile < tile_count siz.now }
    ensures value { result
        ≡ record { rect = tile_area siz.now tile; layers = layers; order = order; codings = codings } }
    ensures area { IsArea result.rect }
    ensures shape { AreCodings codings → 1 ≤ layers → IsTileShape result }
{
    TileShape {
        rect: tiling::tile(siz, tile),
        layers,
        order,
        codings,
    }
}
