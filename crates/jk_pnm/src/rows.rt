//! Rows of a raster, read stripe by stripe out of a file in memory.

ghost use Rattle.std.specs.Prelude.{◌≡◌, ◌*◌, ◌<◌, ◌≤◌, Ok, IfOk, IfErr};
ghost use Rattle.jk_math.specs.Answer.{Answers, AnswersExactly, Refuses};
ghost use Rattle.jk_math.specs.Picture.{Picture, IsPicture, IsFrame};
ghost use Rattle.jk_pnm.specs.Pnm.{IsPnm};
ghost use Rattle.jk_pnm.specs.Reading.{pnm_at};
ghost use Rattle.jk_pnm.specs.RasterRows.{IsDrawing, drawing_at, drawn, picture_told, frame_drawn, rows_moved, rows_told};

use crate::header::{Header, read_header};
use crate::rasters::RasterFrame;
use crate::reading::picture;
use jk_math::{Fault, Image};
use std::alloc::Global;
use std::marker::Model;

/// The raster of a PGM or PPM file in memory, of which rows are read when they are asked for.
/// Samples above maxval are met where their rows are read.
#[derive(Drop)]
pub struct RasterRows<'a> {
    header: Header,
    raster: &'a [u8],
}

impl<'a> Model for RasterRows<'a> {
    ghost use Rattle.jk_pnm.specs.RasterRows.{Drawing, IsDrawing};

    ghost Value = { Drawing };

    ghost view = { λ r.
        record {
          header = r.header;
          raster = r.raster.now;
        } };

    ghost invariant = { λ r. IsDrawing
        (record {
          header = r.header;
          raster = r.raster.now;
        }) };
}

/// The header and the raster of a file.
#[tactic(auto, unfolding(crate::specs::RasterRows::drawing_at))]
fn drawing(bytes: &[u8]) -> Result<RasterRows<'_>, Fault>
    ensures exact { AnswersExactly (λ r. r) result (drawing_at bytes.now) }
    ensures sound { IfOk result (λ r. IsDrawing r) }
{
    let (header, raster) = read_header(bytes)?;
    if raster.len() != header.raster_size() {
        return Err(Fault::BadPnm);
    }
    Ok(RasterRows { header, raster })
}

/// The raster of a PGM or PPM file, none of whose samples is read.
///
/// BadPnm: the file isn't in the grammar, its maxval isn't one less than a power of two, or its
/// raster has another length than the header asks for.
pub fn raster_rows(bytes: &[u8]) -> Result<RasterRows<'_>, Fault>
    ensures exact { AnswersExactly (λ r. r) result (drawing_at bytes.now) }
    // The file is one of what is drawn, if no sample is above maxval,
    ensures found { IfOk result (λ r. IsPicture (drawn r) → IsPnm bytes.now (drawn r)) }
    // and what is drawn is the picture of a file that has one.
    ensures only { (p : Picture) → IsPnm bytes.now p → AnswersExactly drawn result (Ok p) }
    // As `read` names the first fault.
    ensures read { IfOk result (λ r. pnm_at bytes.now ≡ picture_told r) }
    ensures refused { IfErr result (λ e. pnm_at bytes.now ≡ Err e) }
{
    drawing(bytes)
}

impl<'a> RasterRows<'a> {
    /// How large the image is, and what its samples are: unsigned, of one component or three.
    pub fn frame(&self) -> RasterFrame
        ensures value { result ≡ frame_drawn self.now }
        ensures size { IsFrame 0 0 result.width result.height }
        ensures bits { (1 ≤ result.depth) × (result.depth ≤ 16) }
        // What is drawn is a picture where no sample is above maxval.
        ensures picture_told { IsPicture (drawn self.now) → picture_told self.now ≡ Ok (drawn self.now) }
    {
        self.header.frame()
    }

    /// Rows `y` up to `z` of the image, counted from its first one, as an image of their own whose
    /// upper left sample stands at (0, 0).
    ///
    /// BadPnm: a sample of these rows is above maxval.
    pub fn rows(&self, alloc: Global, y: u32, z: u32) -> Result<Image, Fault>
        requires order { y < z }
        requires inside { z ≤ self.now.header.height }
        ensures exact { Answers (λ i. i) result (rows_told self.now y z) }
        // They are the rows of what is drawn.
        ensures rows { IfOk result (λ i. i ≡ rows_moved (drawn self.now) y z) }
        // Where they are refused, what is drawn has a sample above maxval.
        ensures refused { IfErr result (λ e. Refuses e (picture_told self.now)) }
    {
        let part = Header {
            height: z - y,
            ..self.header
        };
        let row = self.header.row_size();
        picture(
            alloc,
            &part,
            &self.raster[y as usize * row..z as usize * row],
        )
    }
}
