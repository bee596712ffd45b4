//! What a file is to keep beside the samples.

ghost use Rattle.std.specs.Prelude.{◌≡◌};
ghost use Rattle.jk_extras.specs.Extras.{IsNone, goes, has_colour, has_grids};

use crate::grids::Grid;
use crate::header::RESOLUTION;
use jk_boxes::COLOUR;
use std::alloc::Global;

/// The colour of a file (T.800 I.5.3.3).
#[derive(Debug, Drop)]
pub enum Colour {
    /// What the file tells already.
    AsItIs,
    /// Greyscale where there is one component, sRGB where there are three.
    Enumerated,
    /// A restricted ICC profile.
    Profile(Vec<u8>),
}

/// A box that T.800 leaves to others (I.7).
#[derive(Debug, Drop)]
pub enum Other {
    /// XML.
    Xml(Vec<u8>),
    /// What these 16 bytes name, and what stands behind them.
    Uuid([u8; 16], Vec<u8>),
}

/// What a file is to keep beside the samples.
#[derive(Debug, Drop)]
pub struct Extras {
    pub colour: Colour,
    /// The resolution at which the image was captured. With this or the next, what the file tells
    /// of resolutions gives way to both.
    pub capture: Option<Grid>,
    /// The resolution at which it is to be displayed.
    pub display: Option<Grid>,
    /// In this order, behind those that the file keeps before its codestream.
    pub others: Vec<Other>,
}

impl Extras {
    /// Nothing: a file stays as it is.
    pub fn none(alloc: Global) -> Extras
        ensures { IsNone result }
    {
        Extras {
            colour: Colour::AsItIs,
            capture: None,
            display: None,
            others: Vec::new(alloc),
        }
    }
}

/// Whether the colour of a file gives way.
pub(crate) fn has_colour(colour: &Colour) -> bool
    ensures { result ≡ has_colour colour.now }
{
    match colour {
        Colour::AsItIs => false,
        Colour::Enumerated | Colour::Profile(_) => true,
    }
}

/// Whether the resolutions of a file give way.
pub(crate) fn has_grids(extras: &Extras) -> bool
    ensures { result ≡ has_grids extras.now }
{
    extras.capture.is_some() || extras.display.is_some()
}

/// Whether a box of the JP2 header box of this kind gives way.
pub(crate) fn goes(extras: &Extras, kind: u32) -> bool
    ensures { result ≡ goes extras.now kind }
{
    (kind == COLOUR && has_colour(&extras.colour)) || (kind == RESOLUTION && has_grids(extras))
}
