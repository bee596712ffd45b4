//! The fields of all tiles, as they are kept.

ghost use Rattle.std.specs.Prelude.{◌≡◌, ◌<◌, ◌++◌, [], ◌∷◌, length, slice_set, OnOk, IfErr, MatchResult};
ghost use Rattle.jk_math.specs.Memory.{IsMemory};
ghost use Rattle.jk_params.specs.Headers.{tile_in};
ghost use Rattle.jk_params.specs.HeadersReading.{blank_tiles, with_place, with_coding};

use jk_geom::Codings;
use jk_marks::Cod;
use jk_math::Fault;
use std::alloc::Global;
use std::marker::Model;

/// How the components of a tile are coded.
#[derive(Debug, Drop)]
pub(crate) struct TileCoding {
    pub(crate) cod: Cod,
    pub(crate) codings: Codings,
}

/// A tile: the number of its coding, and the places of its data.
#[derive(Debug, Drop)]
pub(crate) struct TileEntry {
    pub(crate) coding: usize,
    pub(crate) places: Vec<(usize, usize)>,
}

/// The fields of all tiles. The coding of the main header is number 0, and serves each tile that
/// has no own.
#[derive(Debug, Drop)]
pub(crate) struct TileTable {
    codings: Vec<TileCoding>,
    tiles: Vec<TileEntry>,
}

impl Model for TileTable {
    ghost use Rattle.std.specs.Prelude.{List};
    ghost use Rattle.jk_params.specs.Headers.{TileFields};
    ghost use Rattle.jk_params.specs.Tables.{tiles_in, IsTable};

    ghost Value = { List TileFields };

    ghost view = { λ t. tiles_in t.codings.items t.tiles.items };

    ghost invariant = { λ t. IsTable t.codings.items t.tiles.items };
}

impl TileTable {
    /// So many tiles of one coding, and no data.
    pub(crate) fn new(
        alloc: Global,
        count: u32,
        cod: Cod,
        codings: Codings,
    ) -> Result<TileTable, Fault>
        ensures { MatchResult result (λ t. t ≡ blank_tiles count cod codings) (λ e. IsMemory e) }
    {
        let mut all = Vec::new(alloc);
        all.push(TileCoding { cod, codings })?;
        let mut tiles = Vec::new(alloc);
        for _ in 0..count {
            tiles.push(TileEntry {
                coding: 0,
                places: Vec::new(alloc),
            })?;
        }
        Ok(TileTable {
            codings: all,
            tiles,
        })
    }

    /// How many tiles there are.
    pub(crate) fn len(&self) -> usize
        ensures { result ≡ length self.now }
    {
        self.tiles.len()
    }

    /// The COD of a tile.
    pub(crate) fn cod(&self, tile: usize) -> &Cod
        requires { tile < length self.now }
        ensures { result.now ≡ (tile_in self.now tile).cod }
    {
        &self.codings[self.tiles[tile].coding].cod
    }

    /// The codings of its components.
    pub(crate) fn codings(&self, tile: usize) -> &Codings
        requires { tile < length self.now }
        ensures { result.now ≡ (tile_in self.now tile).codings }
    {
        &self.codings[self.tiles[tile].coding].codings
    }

    /// The places of its data.
    pub(crate) fn places(&self, tile: usize) -> &[(usize, usize)]
        requires { tile < length self.now }
        ensures { result.now ≡ (tile_in self.now tile).data_places }
    {
        &self.tiles[tile].places
    }

    /// Gives a tile its own coding.
    pub(crate) fn set_coding(
        &mut self,
        tile: usize,
        cod: Cod,
        codings: Codings,
    ) -> Result<(), Fault>
        requires { tile < length self.old }
        ensures ok { OnOk result
            (self.new ≡ slice_set self.old tile (with_coding (tile_in self.old tile) cod codings)) }
        ensures err { IfErr result (λ e. IsMemory e) }
    {
        let coding = self.codings.len();
        self.codings.push(TileCoding { cod, codings })?;
        self.tiles[tile].coding = coding;
        Ok(())
    }

    /// Appends a place to those of a tile's data.
    pub(crate) fn add_place(&mut self, tile: usize, place: (usize, usize)) -> Result<(), Fault>
        requires { tile < length self.old }
        ensures ok { OnOk result (self.new ≡ slice_set self.old tile (with_place (tile_in self.old tile) place)) }
        ensures err { IfErr result (λ e. IsMemory e) }
    {
        self.tiles[tile].places.push(place)?;
        Ok(())
    }
}
