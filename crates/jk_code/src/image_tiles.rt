//! The tiles of an image in memory, each coded by itself: what their sub-bands need, and their packets.

ghost use Rattle.std.specs.Prelude.{◌≡◌, ℕ, ◌+◌, ◌<◌, ◌≤◌, max, slice_index, IfOk, IfErr, OnOk};
ghost use Rattle.jk_math.specs.Memory.{IsMemory};
ghost use Rattle.jk_math.specs.Picture.{IsPicture};
ghost use Rattle.jk_params.specs.Coding.{band_count};
ghost use Rattle.jk_params.specs.PictureFrames.{frame_of};
ghost use Rattle.jk_tile.specs.encoding.Forward.{tile_value};
ghost use Rattle.jk_tile.specs.encoding.FallenTiles.{IsCodedTile};
ghost use Rattle.jk_tile.specs.encoding.Needs.{need, tile_need};
ghost use Rattle.jk_tile.specs.encoding.PacketsWritten.{tile_text};
ghost use Rattle.jk_code.specs.ComingRows.{IsComing, component_of, tiles_coming, IsTileFallen};
ghost use Rattle.jk_code.specs.ImageTold.{AreTilesOf};

use crate::coming::{ComingImage, component_at};
use crate::contents::TileContents;
use crate::encoding_rows::step_end;
use crate::tabled::outline_at;
use crate::tile_data::TileData;
use jk_geom::tile_count;
use jk_marks::Coding;
use jk_math::{Fault, Image};
use jk_params::siz_for;
use jk_tile::{FallenTile, FallingTile, GivenRows, When, packets_of, raise_needs};
use std::alloc::Global;

/// How many rows a tile is given at a time.
const ROWS: u32 = 64;

/// Tile `number` of an image behind its last row, its code-blocks coded.
pub(crate) fn coded_tile(
    alloc: Global,
    coming: &ComingImage<'_>,
    image: &Image,
    number: usize,
) -> Result<FallenTile, Fault>
    requires coming { IsComing coming.now }
    requires picture { IsPicture image.now }
    requires frame { frame_of image.now ≡ coming.now.frame }
    requires number { number < tiles_coming coming.now }
    ensures fallen { IfOk result (IsTileFallen coming.now number) }
    ensures coded { IfOk result (IsCodedTile (component_of coming.now number)
        (tile_value image.now coming.now.parameters.now.colour)) }
    ensures memory { IfErr result IsMemory }
{
    let source = component_at(coming, number);
    let rect = source.rect();
    let mut tile = FallingTile::new(alloc, &source, coming.frame.components as usize)?;
    let mut values = Vec::new(alloc);
    let mut y = rect.y0;
    while y < rect.y1 {
        let end = step_end(y, rect.y1, ROWS);
        let rows = GivenRows {
            image,
            colours: coming.parameters.colour,
            end,
        };
        tile.give(alloc, &source, &rows, &mut values, When::Now)?;
        y = end;
    }
    tile.finish(alloc, &source)
}

/// Raises how many bits sub-bands need by those of tile `number` of an image.
fn raise_by_tile(
    alloc: Global,
    coming: &ComingImage<'_>,
    image: &Image,
    number: usize,
    needs: &mut [u8; 16],
) -> Result<(), Fault>
    requires coming { IsComing coming.now }
    requires picture { IsPicture image.now }
    requires frame { frame_of image.now ≡ coming.now.frame }
    requires number { number < tiles_coming coming.now }
    ensures needs { OnOk result ((b : ℕ) → b < band_count coming.now.parameters.now.levels → slice_index needs.new b
        ≡ max (slice_index needs.old b) (tile_need image.now coming.now.parameters.now number b)) }
    ensures memory { IfErr result IsMemory }
{
    let source = component_at(coming, number);
    for c in 0..coming.frame.components as usize {
        raise_needs(alloc, &source, image, coming.parameters.colour, c, needs)?;
    }
    Ok(())
}

/// How many bits the greatest magnitude of each sub-band has in all tiles of an image, of which `first`
/// is coded and the others go down through the levels alone.
pub(crate) fn needs_of_image(
    alloc: Global,
    coming: &ComingImage<'_>,
    image: &Image,
    first: &FallenTile,
) -> Result<[u8; 16], Fault>
    requires coming { IsComing coming.now }
    requires picture { IsPicture image.now }
    requires frame { frame_of image.now ≡ coming.now.frame }
    requires fallen { IsTileFallen coming.now 0 first.now }
    requires coded { IsCodedTile (component_of coming.now 0) (tile_value image.now coming.now.parameters.now.colour)
        first.now }
    ensures needs { IfOk result (λ v. (b : ℕ) → b < band_count coming.now.parameters.now.levels
        → slice_index v b ≡ need image.now coming.now.parameters.now b) }
    ensures memory { IfErr result IsMemory }
{
    let mut needs = [0; 16];
    first.raise(&component_at(coming, 0), &mut needs);
    let count = tile_count(&siz_for(&coming.frame, coming.parameters)) as usize;
    for number in 1..count {
        raise_by_tile(alloc, coming, image, number, &mut needs)?;
    }
    Ok(needs)
}

/// An image in memory whose tiles are coded when they are asked for.
#[derive(Drop)]
pub(crate) struct ImageTiles<'a> {
    pub(crate) coming: ComingImage<'a>,
    /// How each component is coded, with its exponents.
    pub(crate) coding: &'a Coding,
    pub(crate) image: &'a Image,
}

impl<'a> ImageTiles<'a> {
    /// The packets of tile `number`, whose code-blocks are coded.
    pub(crate) fn packets(
        &self,
        alloc: Global,
        number: usize,
        tile: FallenTile,
    ) -> Result<Vec<u8>, Fault>
        requires told { AreTilesOf self.now self.now.image.now }
        requires number { number < tiles_coming self.now.coming }
        requires fallen { IsTileFallen self.now.coming number tile }
        requires coded { IsCodedTile (component_of self.now.coming number)
            (tile_value self.now.image.now self.now.coming.parameters.now.colour) tile }
        ensures value { IfOk result (λ v. v.items ≡ tile_text self.now.image.now self.now.coming.parameters.now number) }
        ensures memory { IfErr result IsMemory }
    {
        let source = component_at(&self.coming, number);
        let tables = tile.tables(alloc, &source, self.coding)?;
        let outline = outline_at(&self.coming, self.coding, number);
        packets_of(alloc, &outline, &tables)
    }
}

impl<'a> TileContents for ImageTiles<'a> {
    ghost use Rattle.std.specs.Prelude.{◌≡◌};
    ghost use Rattle.jk_code.specs.ImageTold.{AreTilesOf};

    ghost tells = { λ s p q. (s.coming.parameters.now ≡ q) × AreTilesOf s p };

    fn content(&self, alloc: Global, number: u32) -> Result<TileData<'_>, Fault> {
        let tile = coded_tile(alloc, &self.coming, self.image, number as usize)?;
        let packets = self.packets(alloc, number as usize, tile)?;
        Ok(TileData::Packets(packets))
    }
}
