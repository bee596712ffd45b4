//! How often an image can be halved.

ghost use Rattle.std.specs.Prelude.{◌≡◌, ℕ, length, nat_le};
ghost use Rattle.std.specs.List.{list_all};
ghost use Rattle.jk_marks.specs.Siz.{tile_count};
ghost use Rattle.jk_params.specs.Headers.{AreHeaders};
ghost use Rattle.jk_params.specs.Levels.{have_levels, least_in, least_levels};

use crate::headers::Codestream;
use jk_geom::Codings;

/// Whether each component of a tile has so many decomposition levels.
fn codings_have_levels(codings: &Codings, levels: u32) -> bool
    ensures { result ≡ list_all (λ k. nat_le levels k.levels) codings.now }
{
    codings
        .as_slice()
        .iter()
        .all(|coding| levels <= coding.levels as u32)
}

/// Whether each component of each tile has so many decomposition levels.
#[tactic(auto, using(crate::proofs::Below::below_none, crate::proofs::Below::below_more, crate::proofs::Below::below_fails))]
pub(crate) fn tiles_have_levels(headers: &Codestream, levels: u32) -> bool
    requires { length headers.now.tiles ≡ tile_count headers.now.siz }
    ensures { result ≡ have_levels headers.now levels }
{
    for number in 0..headers.tile_count() {
        if !codings_have_levels(headers.codings(number), levels) {
            return false;
        }
    }
    true
}

/// The most decomposition levels that a tile-component may have.
const MOST_LEVELS: u8 = 10;

/// The least number of decomposition levels of components, and 10 where there are none.
#[tactic(auto, using(crate::proofs::LeastLevels::least_none, crate::proofs::LeastLevels::least_more))]
fn least_in(codings: &Codings) -> u8
    ensures { result ≡ least_in codings.now (length codings.now) }
{
    let codings = codings.as_slice();
    let mut least = MOST_LEVELS;
    for i in 0..codings.len() {
        least = least.min(codings[i].levels);
    }
    least
}

/// The least number of decomposition levels of the components of all tiles.
#[tactic(auto, using(crate::proofs::LeastLevels::levels_none, crate::proofs::LeastLevels::levels_more))]
pub(crate) fn least_of_tiles(headers: &Codestream) -> u8
    requires { (size : ℕ) × AreHeaders size headers.now }
    ensures { result ≡ least_levels headers.now.tiles (tile_count headers.now.siz) }
{
    let mut least = MOST_LEVELS;
    for number in 0..headers.tile_count() {
        least = least.min(least_in(headers.codings(number)));
    }
    least
}
