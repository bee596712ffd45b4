//! How many bits the sub-bands of a component of a tile need, where nothing is coded: its rows go down
//! through the levels of the wavelet, and nothing is kept of them.

ghost use Rattle.std.specs.Prelude.{◌≡◌, ℕ, ℤ, ◌<◌, ◌≤◌, length, max, slice_index, true, IfErr, OnOk};
ghost use Rattle.jk_math.specs.Memory.{IsMemory};
ghost use Rattle.jk_math.specs.Picture.{IsPicture};
ghost use Rattle.jk_wave.specs.falling.Stack.{IsGivenSmall};
ghost use Rattle.jk_tile.specs.Filling.{IsPartOf};
ghost use Rattle.jk_tile.specs.encoding.Forward.{picture_area, tile_value};
ghost use Rattle.jk_tile.specs.encoding.Strips.{bands_in};
ghost use Rattle.jk_tile.specs.encoding.FallingComponents.{AreFew, AreSixteen, HasMade, made_need};
ghost use Rattle.jk_tile.specs.encoding.FallenTiles.{band_need};

use crate::encoding::component::WrittenComponent;
use crate::encoding::values::put_values;
use jk_block::top_bits;
use jk_math::{Fault, Image};
use jk_wave::Falling;
use jk_wave::theorems::{level_fallen, levels_fallen};
use std::alloc::Global;

/// How many rows go down at a time.
const ROWS: u32 = 64;

/// Raises how many bits sub-bands need by their rows that the levels made.
fn raise_by_rows(source: &WrittenComponent<'_>, falling: &Falling, needs: &mut [u8; 16])
    requires standing { IsGivenSmall falling.now }
    requires levels { falling.now.levels ≡ source.now.coding.levels }
    requires made { (d e : ℕ) × (f : ℕ → ℕ → ℕ → ℤ) × AreFew source.now f × HasMade source.now d e f falling.now
        × (source.now.rect.y0 ≤ d) × (d ≤ e) × (e ≤ source.now.rect.y1) }
    ensures { (d e : ℕ) (f : ℕ → ℕ → ℕ → ℤ) → HasMade source.now d e f falling.now → (b : ℕ) → b < bands_in source.now
        → slice_index needs.new b ≡ max (slice_index needs.old b) (made_need source.now d e f b) }
{
    level_fallen();
    levels_fallen();
    for b in 0..3 * source.coding().levels + 1 {
        let bits = top_bits(falling.rows(b)) as u8;
        needs[b as usize] = needs[b as usize].max(bits);
    }
}

/// Raises how many bits the greatest magnitudes of the sub-bands of a component have, in the order of
/// QCD, by those of a tile. Memory is the only fault.
pub fn raise_needs(
    alloc: Global,
    source: &WrittenComponent<'_>,
    image: &Image,
    colours: bool,
    component: usize,
    needs: &mut [u8; 16],
) -> Result<(), Fault>
    requires picture { IsPicture image.now }
    requires component { component < length image.now.planes }
    requires colours { colours ≡ true → 3 ≤ length image.now.planes }
    requires inside { IsPartOf source.now.rect (picture_area image.now) }
    requires sixteen { AreSixteen source.now (tile_value image.now colours component) }
    ensures needs { OnOk result ((b : ℕ) → b < bands_in source.now → slice_index needs.new b
        ≡ max (slice_index needs.old b) (band_need source.now (tile_value image.now colours component) b)) }
    ensures memory { IfErr result IsMemory }
{
    level_fallen();
    levels_fallen();
    let rect = source.rect();
    let mut falling = Falling::new(alloc, &rect, source.coding().levels)?;
    let mut values = Vec::new(alloc);
    let mut y = rect.y0;
    while y < rect.y1 {
        let end = y.saturating_add(ROWS).min(rect.y1);
        let part = source.rows(y, end);
        put_values(alloc, image, colours, component, &part, &mut values)?;
        falling.give(end, &mut values)?;
        raise_by_rows(source, &falling, needs);
        falling.clear();
        y = end;
    }
    Ok(())
}
