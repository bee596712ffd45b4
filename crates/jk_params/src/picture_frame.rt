//! Where an image lies and what its samples are, without the samples.

ghost use Rattle.std.specs.Prelude.{◌≡◌};
ghost use Rattle.jk_math.specs.Picture.{IsPicture};
ghost use Rattle.jk_params.specs.PictureFrames.{frame_of, IsPictureFrame};

use jk_math::Image;

/// Where an image that is written lies, how large it is, and what its samples are.
#[derive(Clone, Copy)]
pub struct PictureFrame {
    /// The column of the upper left sample on the reference grid.
    pub x0: u32,
    /// The row of the upper left sample on the reference grid.
    pub y0: u32,
    /// Samples in a row.
    pub width: u32,
    /// Rows.
    pub height: u32,
    /// How many components there are, 1 to 4.
    pub components: u16,
    /// Bits of a sample, the sign counted, 1 to 16.
    pub depth: u8,
    /// Whether samples may be negative.
    pub signed: bool,
}

/// The frame of an image.
#[tactic(auto, using(crate::proofs::ProfileLaws::frame_is))]
pub fn frame_of(image: &Image) -> PictureFrame
    ensures value { result ≡ frame_of image.now }
    ensures frame { IsPictureFrame result }
    ensures picture { IsPicture image.now }
{
    PictureFrame {
        x0: image.x0(),
        y0: image.y0(),
        width: image.width(),
        height: image.height(),
        components: image.planes().len() as u16,
        depth: image.depth(),
        signed: image.signed(),
    }
}
