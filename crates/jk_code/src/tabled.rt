//! An image whose code-blocks are coded and whose tables wait for its file.

ghost use Rattle.std.specs.Prelude.{◌≡◌, ℕ, ◌+◌, ◌<◌, ◌≤◌, length, slice_index, slice_index_or, IfOk, IfErr};
ghost use Rattle.jk_math.specs.Memory.{IsMemory};
ghost use Rattle.jk_math.specs.Lists.{lists_of};
ghost use Rattle.jk_math.specs.Picture.{Picture, IsPicture};
ghost use Rattle.jk_params.specs.Coding.{band_count, coding_with, HasPlanes};
ghost use Rattle.jk_params.specs.Profile.{cod_of};
ghost use Rattle.jk_walk.specs.TilePackets.{planes_of};
ghost use Rattle.jk_tile.specs.encoding.Needs.{need, exponents_for};
ghost use Rattle.jk_tile.specs.encoding.PacketsWritten.{written_coding};
ghost use Rattle.jk_params.specs.PictureFrames.{frame_of};
ghost use Rattle.jk_tile.specs.encoding.LateTables.{AreAlike};
ghost use Rattle.jk_tile.specs.encoding.FallenTiles.{HasTileRoom};
ghost use Rattle.jk_tile.specs.encoding.TilesFrom.{IsOutlineOf};
ghost use Rattle.jk_tile.specs.declared.encoding.fallen_tile.FallenTile.{FallenTile};
ghost use Rattle.std.specs.Global.{Vec};
ghost use Rattle.jk_packet.specs.Written.{Table};
ghost use Rattle.jk_code.specs.ComingRows.{IsComing, component_of, tiles_coming, AreFallen, AreCoded, lists_coming};

use crate::coming::{ComingImage, component_at};
use crate::contents::TileContents;
use crate::tile_data::{TabledTile, TileData};
use jk_geom::tile;
use jk_marks::{Coding, Exponents, Quantisation};
use jk_math::Fault;
use jk_packet::BlockTable;
use jk_params::{coding_with, siz_for};
use jk_tile::{FallenTile, TileOutline, exponents_with, packets_of};
use std::alloc::Global;

/// How many bits the greatest magnitude of each sub-band has, in all tiles and components.
pub(crate) fn needs_of(coming: &ComingImage<'_>, tiles: &[FallenTile]) -> [u8; 16]
    requires coming { IsComing coming.now }
    requires tiles { AreFallen coming.now (tiles_coming coming.now) tiles.now }
    ensures needs { (p : Picture) → frame_of p ≡ coming.now.frame → AreCoded coming.now (tiles_coming coming.now) p tiles.now
        → (b : ℕ) → b < band_count coming.now.parameters.now.levels → slice_index result b ≡ need p coming.now.parameters.now b }
    ensures room { (t : ℕ) (other : FallenTile) → t < tiles_coming coming.now
        → HasTileRoom (component_of coming.now t) (slice_index result) (slice_index_or tiles.now t other) }
{
    let mut needs = [0; 16];
    for t in 0..tiles.len() {
        let source = component_at(coming, t);
        tiles[t].raise(&source, &mut needs);
    }
    needs
}

/// The exponents of the sub-bands, in the order of QCD, with two guard bits.
pub(crate) fn exponents_of(coming: &ComingImage<'_>, tiles: &[FallenTile]) -> Exponents
    requires coming { IsComing coming.now }
    requires tiles { AreFallen coming.now (tiles_coming coming.now) tiles.now }
    ensures value { (p : Picture) → IsPicture p → frame_of p ≡ coming.now.frame
        → AreCoded coming.now (tiles_coming coming.now) p tiles.now → result ≡ exponents_for p coming.now.parameters.now }
    ensures room { (p : Picture) → IsPicture p → frame_of p ≡ coming.now.frame
        → AreCoded coming.now (tiles_coming coming.now) p tiles.now
        → (t : ℕ) (other : FallenTile) → t < tiles_coming coming.now
        → HasTileRoom (component_of coming.now t) (planes_of (written_coding p coming.now.parameters.now))
        (slice_index_or tiles.now t other) }
{
    let needs = needs_of(coming, tiles);
    exponents_with(coming.frame.depth, coming.parameters.levels, &needs)
}

/// How each component is coded, with these exponents.
pub(crate) fn coding_known(coming: &ComingImage<'_>, exponents: &Exponents) -> Coding
    requires coming { IsComing coming.now }
    ensures value { result ≡ coding_with (cod_of coming.now.parameters.now).style
        (record { guard = 2; exponents = exponents.now }) }
    ensures alike { AreAlike coming.now.coding.now result }
{
    let steps = Quantisation {
        guard: 2,
        exponents: exponents.copy(),
    };
    coding_with(coming.parameters, &steps)
}

/// The tables of the precincts of all tiles.
pub(crate) fn all_tables(
    alloc: Global,
    coming: &ComingImage<'_>,
    coding: &Coding,
    tiles: Vec<FallenTile>,
) -> Result<Vec<Vec<Vec<BlockTable>>>, Fault>
    requires coming { IsComing coming.now }
    requires tiles { AreFallen coming.now (tiles_coming coming.now) tiles.items }
    requires alike { AreAlike coming.now.coding.now coding.now }
    requires planes { HasPlanes coding.now }
    requires room { (t : ℕ) (other : FallenTile) → t < tiles_coming coming.now
        → HasTileRoom (component_of coming.now t) (planes_of coding.now) (slice_index_or tiles.items t other) }
    ensures count { IfOk result (λ v. length v.items ≡ tiles_coming coming.now) }
    ensures tables { IfOk result (λ v. (p : Picture) → AreCoded coming.now (tiles_coming coming.now) p tiles.items
        → (t : ℕ) (other : Vec (Vec Table)) → t < tiles_coming coming.now
        → lists_of (slice_index_or v.items t other).items ≡ lists_coming coming.now coding.now p t) }
    ensures memory { IfErr result IsMemory }
{
    let mut tables = Vec::new(alloc);
    for tile in tiles {
        let source = component_at(coming, tables.len());
        tables.push(tile.tables(alloc, &source, coding)?)?;
    }
    Ok(tables)
}

/// Tile `number` of an image, but for its samples, whose components are coded so.
pub(crate) fn outline_at<'a>(
    coming: &ComingImage<'a>,
    coding: &'a Coding,
    number: usize,
) -> TileOutline<'a>
    requires coming { IsComing coming.now }
    requires number { number < tiles_coming coming.now }
    ensures outline { (p : Picture) → IsPicture p → frame_of p ≡ coming.now.frame
        → coding.now ≡ written_coding p coming.now.parameters.now → IsOutlineOf result p number }
    ensures parameters { result.parameters.now ≡ coming.now.parameters.now }
{
    let siz = siz_for(&coming.frame, coming.parameters);
    TileOutline {
        parameters: coming.parameters,
        coding,
        rect: tile(&siz, number as u32),
        components: coming.frame.components as usize,
    }
}

/// The tiles of an image whose code-blocks are coded.
#[derive(Drop)]
pub(crate) struct TableTiles<'a> {
    pub(crate) coming: ComingImage<'a>,
    /// How each component is coded, with its exponents.
    pub(crate) coding: &'a Coding,
    /// The tables of the precincts of each tile.
    pub(crate) tables: &'a [Vec<Vec<BlockTable>>],
    /// Whether the packets of a tile are held while they are written, or made twice.
    pub(crate) held: bool,
}

impl<'a> TileContents for TableTiles<'a> {
    ghost use Rattle.std.specs.Prelude.{◌≡◌};
    ghost use Rattle.jk_code.specs.TablesTold.{AreTablesOf};

    ghost tells = { λ s p q. (s.coming.parameters.now ≡ q) × AreTablesOf s p };

    fn content(&self, alloc: Global, number: u32) -> Result<TileData<'_>, Fault> {
        let outline = outline_at(&self.coming, self.coding, number as usize);
        let tables = &self.tables[number as usize];
        if self.held {
            return Ok(TileData::Packets(packets_of(alloc, &outline, tables)?));
        }
        Ok(TileData::Tables(TabledTile { outline, tables }))
    }
}
