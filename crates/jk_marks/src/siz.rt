//! The image and tile size segment.

/// The fields of the image and tile size segment (T.800 A.5.1). All components have one depth and
/// sign, and none is subsampled.
#[derive(Clone, Copy, Debug, PartialEq, Eq)]
pub struct Siz {
    /// Rsiz, the capabilities.
    pub rsiz: u16,
    /// Xsiz, the right edge of the image on the reference grid.
    pub x1: u32,
    /// Ysiz, the lower edge.
    pub y1: u32,
    /// XOsiz, the left edge.
    pub x0: u32,
    /// YOsiz, the upper edge.
    pub y0: u32,
    /// XTsiz, the width of a tile.
    pub tile_width: u32,
    /// YTsiz, the height of a tile.
    pub tile_height: u32,
    /// XTOsiz, the left edge of the first tile.
    pub tile_x0: u32,
    /// YTOsiz, the upper edge of the first tile.
    pub tile_y0: u32,
    /// Csiz, how many components there are.
    pub components: u16,
    /// Bits of a sample, the sign counted.
    pub depth: u8,
    /// Whether samples may be negative.
    pub signed: bool,
}
