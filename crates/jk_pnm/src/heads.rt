//! The head of a PGM or PPM file, behind which its raster comes in parts of some rows each.

ghost use Rattle.std.specs.Prelude.{◌≡◌, ◌*◌, ◌<◌, ◌≤◌, length, IfOk};
ghost use Rattle.jk_math.specs.Answer.{Answers, AnswersExactly};
ghost use Rattle.jk_math.specs.Picture.{IsFrame};
ghost use Rattle.jk_pnm.specs.Reading.{header_at, raster_size, picture_at};
ghost use Rattle.jk_pnm.specs.Heads.{frame_headed, row_bytes, with_rows};

use crate::header::{Header, read_header};
use crate::rasters::RasterFrame;
use crate::reading::picture;
use jk_math::{Fault, Image};
use std::alloc::Global;
use std::marker::Model;

/// What a PGM or PPM file says before its raster.
#[derive(Drop)]
pub struct RasterHead {
    header: Header,
}

impl Model for RasterHead {
    ghost use Rattle.jk_pnm.specs.declared.header.Header.{Header};
    ghost use Rattle.jk_pnm.specs.Heads.{IsHead};

    ghost Value = { Header };

    ghost view = { λ h. h.header };

    ghost invariant = { λ h. IsHead h.header };
}

/// The head of a file, and what of its raster stands behind it: of a file, or of its beginning if the
/// head is whole there.
///
/// BadPnm: the bytes have no head in the grammar, or its maxval isn't one less than a power of two.
pub fn read_head(bytes: &[u8]) -> Result<(RasterHead, &[u8]), Fault>
    ensures exact { AnswersExactly (λ x. (x.0, x.1.now)) result (header_at bytes.now) }
{
    let (header, raster) = read_header(bytes)?;
    Ok((RasterHead { header }, raster))
}

impl RasterHead {
    /// How large the image is, and what its samples are: unsigned, of one component or three.
    pub fn frame(&self) -> RasterFrame
        ensures value { result ≡ frame_headed self.now }
        ensures size { IsFrame 0 0 result.width result.height }
        ensures bits { (1 ≤ result.depth) × (result.depth ≤ 16) }
    {
        self.header.frame()
    }

    /// How many bytes a row of the raster has.
    pub fn row_size(&self) -> usize
        ensures { result ≡ row_bytes self.now }
    {
        self.header.row_size()
    }

    /// How many bytes the raster has.
    pub fn raster_size(&self) -> usize
        ensures { result ≡ raster_size self.now }
    {
        self.header.raster_size()
    }

    /// So many rows, of which these are the bytes, as an image of their own whose upper left sample
    /// stands at (0, 0).
    ///
    /// BadPnm: a sample is above maxval.
    pub fn rows(&self, alloc: Global, count: u32, bytes: &[u8]) -> Result<Image, Fault>
        requires some { 0 < count }
        requires inside { count ≤ self.now.height }
        requires whole { length bytes.now ≡ count * row_bytes self.now }
        ensures exact { Answers (λ i. i) result (picture_at (with_rows self.now count) bytes.now) }
    {
        let part = Header {
            height: count,
            ..self.header
        };
        picture(alloc, &part, bytes)
    }
}
