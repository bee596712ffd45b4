//! What the options ask for, and the image at its place.

ghost use Rattle.std.specs.Prelude.{◌≡◌, ◌^◌, IfOk};
ghost use Rattle.jk_math.specs.Answer.{Answers, AnswersExactly};
ghost use Rattle.jk_math.specs.Picture.{Picture, IsFrame};
ghost use Rattle.jk_params.specs.PictureFrames.{frame_of};
ghost use Rattle.jk_options.specs.Options.{field_at, tile_at, precincts_for, wishes_at};
ghost use Rattle.jk_options.specs.Plans.{wishes_of, is_frame, placing, placed_on};

use crate::options::EncodeOptions;
use crate::sizes::sizes;
use jk_math::{Fault, Image};
use jk_params::{Container, Parameters, PictureFrame};
use std::alloc::Global;

/// How an image is encoded, before the image is known.
#[derive(Debug, Drop)]
pub struct Plan {
    /// The parameters, without the colour transform.
    pub parameters: Parameters,
    /// Whether an image of three components goes through the colour transform.
    pub colour: bool,
    /// The column of the upper left sample on the reference grid.
    pub x0: u32,
    /// The row of the upper left sample on the reference grid.
    pub y0: u32,
}

/// An image at its place, and how it is encoded.
#[derive(Debug, Drop)]
pub struct Placed {
    pub image: Image,
    pub parameters: Parameters,
}

/// The frame of an image at its place, and how the image is encoded.
#[derive(Drop)]
pub struct PlacedFrame {
    pub frame: PictureFrame,
    pub parameters: Parameters,
}

/// Whether an image of this size may stand at this place.
fn is_frame(x0: u32, y0: u32, width: u32, height: u32) -> bool
    ensures { result ≡ is_frame x0 y0 width height }
{
    width > 0
        && height > 0
        && x0 as u64 + (width as u64) < 1 << 31
        && y0 as u64 + (height as u64) < 1 << 31
        && width as u64 * height as u64 <= 1 << 28
}

/// A number that fits a byte.
///
/// BadParameters: it is larger.
fn byte(number: u32) -> Result<u8, Fault>
    ensures { result ≡ field_at number (2 ^ 8) }
{
    if number <= 255 {
        Ok(number as u8)
    } else {
        Err(Fault::BadParameters)
    }
}

/// A number that fits two bytes.
///
/// BadParameters: it is larger.
fn two_bytes(number: u32) -> Result<u16, Fault>
    ensures { result ≡ field_at number (2 ^ 16) }
{
    if number <= 65535 {
        Ok(number as u16)
    } else {
        Err(Fault::BadParameters)
    }
}

/// The size of a tile, where it is given.
///
/// BadParameters: one side is given and the other isn't.
fn tile(width: Option<u32>, height: Option<u32>) -> Result<Option<(u32, u32)>, Fault>
    ensures { result ≡ tile_at width height }
{
    match (width, height) {
        (None, None) => Ok(None),
        (Some(width), Some(height)) => Ok(Some((width, height))),
        _ => Err(Fault::BadParameters),
    }
}

/// The precinct sizes of a text; without a digit, those of a file out of which windows are cut, or
/// none.
///
/// BadParameters: the text isn't pairs of hexadecimal digits.
fn precincts(
    alloc: Global,
    digits: &[u8],
    windows: bool,
    levels: u8,
) -> Result<Vec<(u8, u8)>, Fault>
    ensures { Answers (λ v. v.items) result (precincts_for digits.now windows levels) }
{
    if windows && digits.is_empty() {
        return Ok(vec![in alloc; (7, 7); levels as usize + 1]?);
    }
    sizes(alloc, digits)
}

/// What the options ask for.
///
/// BadParameters: a number is too large for its field, one side of a tile is given without the
/// other, or precinct sizes aren't pairs of hexadecimal digits. Whether an image may be encoded so
/// is judged by `jk_code::encode`.
#[tactic(auto, unfolding(crate::specs::Options::wishes_at))]
pub fn judge(alloc: Global, options: &EncodeOptions) -> Result<Plan, Fault>
    ensures exact { Answers wishes_of result (wishes_at options.now) }
{
    let levels = byte(options.levels)?;
    let layers = two_bytes(options.layers())?;
    let tile = tile(options.tile_width, options.tile_height)?;
    let xcb = byte(options.block_x)?;
    let ycb = byte(options.block_y)?;
    let precincts = precincts(alloc, options.precincts.as_bytes(), options.windows, levels)?;
    let container = if options.raw {
        Container::Raw
    } else {
        Container::Jp2
    };
    Ok(Plan {
        parameters: Parameters {
            levels,
            layers,
            order: options.order(),
            tile,
            xcb,
            ycb,
            style: options.style,
            precincts,
            colour: false,
            sop: options.sop,
            eph: options.eph,
            container,
        },
        colour: !options.no_colour,
        x0: options.x0,
        y0: options.y0,
    })
}

impl Plan {
    /// The image at the place that is asked for, and how it is encoded: with the colour transform
    /// where it has three components and the transform isn't refused.
    ///
    /// BadParameters: a right or lower edge at 2^31 or beyond.
    #[tactic(auto, unfolding(crate::specs::Plans::placing))]
    pub fn place(self, image: Image) -> Result<Placed, Fault>
        ensures exact { AnswersExactly (λ x. x) result (placing image self) }
    {
        let Plan {
            mut parameters,
            colour,
            x0,
            y0,
        } = self;
        let image = image.place(x0, y0)?;
        parameters.colour = image.planes().len() == 3 && colour;
        Ok(Placed { image, parameters })
    }
    /// The frame of an image at the place that is asked for, and how the image is encoded, as
    /// [`Plan::place`] says of the image.
    ///
    /// BadParameters: a right or lower edge at 2^31 or beyond.
    #[tactic(auto, unfolding(crate::specs::Plans::placing))]
    pub fn place_frame(self, frame: PictureFrame) -> Result<PlacedFrame, Fault>
        // What placing each image with this frame gives.
        ensures exact { (p : Picture) → frame_of p ≡ frame → AnswersExactly (placed_on p) result (placing p self) }
        ensures place { IfOk result (λ x. x.frame ≡ record frame { x0 = self.x0; y0 = self.y0 }) }
        ensures size { IfOk result (λ x. IsFrame x.frame.x0 x.frame.y0 x.frame.width x.frame.height) }
    {
        let Plan {
            mut parameters,
            colour,
            x0,
            y0,
        } = self;
        if !is_frame(x0, y0, frame.width, frame.height) {
            return Err(Fault::BadParameters);
        }
        parameters.colour = frame.components == 3 && colour;
        Ok(PlacedFrame {
            frame: PictureFrame { x0, y0, ..frame },
            parameters,
        })
    }
}
