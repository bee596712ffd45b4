//! Views.

/// A rectangle of an image at a reduction, counted from the upper left sample of the reduced image,
/// in its first layers. What passes the edge of the image is left out.
#[derive(Clone, Copy, Debug, PartialEq, Eq)]
pub struct View {
    /// How often the image is halved.
    pub reduce: u32,
    pub x: u32,
    pub y: u32,
    pub width: u32,
    pub height: u32,
    /// How many layers are kept of each precinct, and all where there are fewer; `None`: all.
    pub layers: Option<u32>,
}
