//! A component of a tile that is written row by row.

ghost use Rattle.std.specs.Prelude.{◌≡◌};
ghost use Rattle.jk_wave.specs.climbing.Held.{rows_between};
ghost use Rattle.jk_tile.specs.encoding.Strips.{IsFrame};

use jk_marks::Coding;
use jk_math::Rect;
use std::marker::Model;

/// A component of a tile that is written row by row: the tile's rectangle, how the component is
/// coded, and the number of layers. While its rows come its exponents aren't known, and those of
/// the coding aren't asked for.
#[derive(Drop)]
pub struct WrittenComponent<'a> {
    rect: Rect,
    coding: &'a Coding,
    layers: u16,
}

impl<'a> Model for WrittenComponent<'a> {
    ghost use Rattle.jk_tile.specs.encoding.Strips.{ComponentFrame, IsFrame};

    ghost Value = { ComponentFrame };

    ghost view = { λ s. record { rect = s.rect; coding = s.coding.now; layers = s.layers } };

    ghost invariant = { λ s. IsFrame (record { rect = s.rect; coding = s.coding.now; layers = s.layers }) };
}

impl<'a> WrittenComponent<'a> {
    /// A component of a tile.
    pub fn new(rect: Rect, coding: &'a Coding, layers: u16) -> WrittenComponent<'a>
        requires { IsFrame (record { rect = rect; coding = coding.now; layers = layers }) }
        ensures { result ≡ record { rect = rect; coding = coding.now; layers = layers } }
    {
        WrittenComponent {
            rect,
            coding,
            layers,
        }
    }

    /// The tile's rectangle.
    pub fn rect(&self) -> Rect
        ensures value { result ≡ self.now.rect }
        ensures frame { IsFrame self.now }
    {
        self.rect
    }

    /// Rows `from` up to `end` of the tile.
    pub(crate) fn rows(&self, from: u32, end: u32) -> Rect
        ensures value { result ≡ rows_between self.now.rect from end }
        ensures frame { IsFrame self.now }
    {
        Rect {
            y0: from,
            y1: end,
            ..self.rect
        }
    }

    /// How the component is coded.
    pub fn coding(&self) -> &'a Coding
        ensures value { result.now ≡ self.now.coding }
        ensures frame { IsFrame self.now }
    {
        self.coding
    }

    /// How many layers there are.
    pub fn layers(&self) -> u16
        ensures { result ≡ self.now.layers }
    {
        self.layers
    }
}
