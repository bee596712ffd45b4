//! What a file is written from: the frame of its image, and what gives the data of its tiles.

ghost use Rattle.std.specs.Prelude.{◌≡◌, ◌≤◌, ◌<◌, IfOk, IfErr};
ghost use Rattle.jk_math.specs.Memory.{IsMemory};
ghost use Rattle.jk_math.specs.Picture.{Picture};
ghost use Rattle.jk_marks.specs.Siz.{tile_count};
ghost use Rattle.jk_params.specs.Profile.{siz_of};
ghost use Rattle.jk_code.specs.Contents.{HasPicture};

use crate::tile_data::TileData;
use jk_geom::tile_count;
use jk_marks::Exponents;
use jk_math::Fault;
use jk_params::{Parameters, PictureFrame, siz_for};
use std::alloc::Global;

/// What tells how an image is written, but for its samples: its frame, the parameters, and the
/// exponents that its sub-bands need, in the order of QCD.
#[derive(Clone, Copy)]
pub(crate) struct WrittenFrame<'a> {
    pub(crate) frame: PictureFrame,
    pub(crate) parameters: &'a Parameters,
    pub(crate) exponents: &'a Exponents,
}

/// How many tiles there are.
pub(crate) fn count_tiles(source: &WrittenFrame<'_>) -> u32
    requires some { (p : Picture) × HasPicture source.now p }
    ensures value { (p : Picture) → HasPicture source.now p → result ≡ tile_count (siz_of p source.now.parameters.now) }
    ensures some { 1 ≤ result }
    ensures few { result ≤ 65535 }
{
    tile_count(&siz_for(&source.frame, source.parameters))
}

/// What gives the data of the tiles of an image that is written.
pub(crate) trait TileContents {
    ghost use Rattle.jk_math.specs.Picture.{Picture};
    ghost use Rattle.jk_params.specs.declared.parameters.Parameters.{Parameters};
    ghost use Rattle.jk_tile.specs.encoding.PacketsWritten.{tile_text};
    ghost use Rattle.jk_code.specs.DataTold.{IsDataText};

    // The tiles are those of this picture, written with these parameters.
    ghost tells: { Self → Picture → Parameters → Type 0 };

    /// The data of the only part of tile `number`.
    fn content(&self, alloc: Global, number: u32) -> Result<TileData<'_>, Fault>
        requires number { (p : Picture) × (q : Parameters) × tells self.now p q × (number < tile_count (siz_of p q)) }
        ensures value { IfOk result
            (λ v. (p : Picture) (q : Parameters) → tells self.now p q → IsDataText v (tile_text p q number)) }
        ensures memory { IfErr result IsMemory };
}
