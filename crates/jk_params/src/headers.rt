//! The headers of a codestream as a whole.

ghost use Rattle.std.specs.Prelude.{◌≡◌, ◌<◌, ℕ, length};
ghost use Rattle.jk_marks.specs.Siz.{tile_count};
ghost use Rattle.jk_params.specs.Headers.{tile_in, packets_of, AreHeaders};
ghost use Rattle.jk_params.specs.Levels.{have_levels, least_levels};

use crate::count::count_own;
use crate::levels::{least_of_tiles, tiles_have_levels};
use crate::table::TileTable;
use jk_geom::Codings;
use jk_marks::{Cod, Siz};
use std::marker::Model;

/// What the headers of a codestream say, and where the data of its tiles stand.
#[derive(Debug, Drop)]
pub struct Codestream {
    siz: Siz,
    tiles: TileTable,
}

impl Model for Codestream {
    ghost use Rattle.jk_params.specs.Headers.{Headers};

    ghost Value = { Headers };

    ghost view = { λ c. record { siz = c.siz; tiles = c.tiles } };
}

impl Codestream {
    /// What these fields say.
    pub(crate) fn new(siz: Siz, tiles: TileTable) -> Codestream
        ensures { result ≡ record { siz = siz; tiles = tiles } }
    {
        Codestream { siz, tiles }
    }

    /// The image and tile size (T.800 A.5.1).
    pub fn siz(&self) -> &Siz
        ensures { result.now ≡ self.now.siz }
    {
        &self.siz
    }

    /// How many tiles there are.
    pub fn tile_count(&self) -> usize
        ensures { result ≡ length self.now.tiles }
    {
        self.tiles.len()
    }

    /// The coding style of a tile (T.800 A.6.1).
    pub fn cod(&self, tile: usize) -> &Cod
        requires { tile < length self.now.tiles }
        ensures { result.now ≡ (tile_in self.now.tiles tile).cod }
    {
        self.tiles.cod(tile)
    }

    /// The codings of a tile's components.
    pub fn codings(&self, tile: usize) -> &Codings
        requires { tile < length self.now.tiles }
        ensures { result.now ≡ (tile_in self.now.tiles tile).codings }
    {
        self.tiles.codings(tile)
    }

    /// Where the data of a tile's parts begin and end in the codestream, part by part.
    pub fn data_places(&self, tile: usize) -> &[(usize, usize)]
        requires { tile < length self.now.tiles }
        ensures { result.now ≡ (tile_in self.now.tiles tile).data_places }
    {
        self.tiles.places(tile)
    }

    /// Whether each component of each tile has so many decomposition levels, so that the image can
    /// be halved so often.
    pub fn has_levels(&self, levels: u32) -> bool
        requires { length self.now.tiles ≡ tile_count self.now.siz }
        ensures { result ≡ have_levels self.now levels }
    {
        tiles_have_levels(self, levels)
    }

    /// The least number of decomposition levels of a component of a tile: so often the image can be
    /// halved.
    pub fn least_levels(&self) -> u8
        requires { (size : ℕ) × AreHeaders size self.now }
        ensures { result ≡ least_levels self.now.tiles (tile_count self.now.siz) }
    {
        least_of_tiles(self)
    }

    /// How many packets the tiles have.
    pub fn packet_count(&self) -> u64
        requires { (size : ℕ) × AreHeaders size self.now }
        ensures { result ≡ packets_of self.now.siz self.now.tiles }
    {
        count_own(&self.siz, &self.tiles)
    }
}
