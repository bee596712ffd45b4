//! The caller's pixels, which give the rows of an image one stripe below the other: no image is whole
//! in planes.

ghost use Rattle.std.specs.Prelude.{◌≡◌, ◌*◌, length};
ghost use Rattle.jk_params.specs.PictureFrames.{IsPictureFrame};

use crate::pixel_rows::Sample;
use crate::stripes::stripe;
use jk_code::RowSupply;
use jk_math::{Fault, Image};
use jk_params::PictureFrame;
use std::alloc::Global;

/// What gives the rows of an image of which all pixels are in a list. The first ones were given.
#[derive(Drop)]
pub(crate) struct PixelSupply<'a, T> {
    pub(crate) frame: PictureFrame,
    pub(crate) pixels: &'a [T],
    pub(crate) given: u32,
    ghost known: { IsPictureFrame frame },
    ghost whole: { length pixels.now ≡ frame.width * frame.height * frame.components },
}

impl<'a, T: Sample> RowSupply for PixelSupply<'a, T> {
    ghost use Rattle.std.specs.Prelude.{◌+◌};
    ghost use Rattle.jk_c.specs.PixelsGiven.{HasGivenRows, HasRefusedRows};

    ghost framed = { λ s. s.frame };

    ghost next = { λ s. s.frame.y0 + s.given };

    ghost gave = { HasGivenRows T.value };

    ghost met = { HasRefusedRows T.value };

    fn give(&mut self, alloc: Global, end: u32) -> Result<Image, Fault> {
        let from = self.given;
        let to = end - self.frame.y0;
        let rows = stripe(alloc, &self.frame, self.pixels, from, to)?;
        self.given = to;
        Ok(rows)
    }
}
