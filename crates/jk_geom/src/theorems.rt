//! Laws of tiles, resolutions and code-blocks: the contract of an empty function is the law.

ghost use Rattle.std.specs.Prelude.{◌≡◌, ◌+◌, ◌*◌, ◌<◌, ◌≤◌, ◌↔◌, ℕ, List, length, false};
ghost use Rattle.jk_math.specs.declared.rect.Rect.{Rect};
ghost use Rattle.jk_marks.specs.declared.siz.Siz.{Siz};
ghost use Rattle.jk_marks.specs.declared.coding.Coding.{Coding};
ghost use Rattle.jk_marks.specs.Siz.{IsSiz};
ghost use Rattle.jk_marks.specs.Coding.{IsCoding};
ghost use Rattle.jk_math.specs.declared.orientation.Orientation.{Orientation};
ghost use Rattle.jk_geom.specs.Rectangles.{IsWithin, is_empty, resolution_area, band_area};
ghost use Rattle.jk_geom.specs.Blocks.{block_grid, block_area};
ghost use Rattle.jk_geom.specs.TileShapes.{coding_of};
ghost use Rattle.jk_geom.specs.Counts.{precincts_below, precincts_before, packet_number};
ghost use Rattle.jk_geom.specs.Partitions.{image_area, reduced_area, TileHolds, IsBand, woven_area, woven_x, woven_y};
ghost use Rattle.jk_geom.specs.Partitions.{IsWoven, block_number, BlockHolds};

/// Each place of an image that is reduced by `d` levels is in exactly one tile, reduced likewise.
pub fn tiles_share_the_image()
    ensures cover { (s : Siz) (d x y : ℕ) → IsSiz s → IsWithin (reduced_area (image_area s) d) x y
        → (t : ℕ) × TileHolds s d t x y }
    ensures one { (s : Siz) (d t u x y : ℕ) → IsSiz s → TileHolds s d t x y → TileHolds s d u x y → t ≡ u }
    ensures inside { (s : Siz) (d t x y : ℕ) → IsSiz s → TileHolds s d t x y
        → IsWithin (reduced_area (image_area s) d) x y }
{}

/// Resolution `r + 1` is woven of resolution `r` and its own three sub-bands, which share no place.
pub fn resolutions_are_woven()
    ensures same { (a : Rect) (levels r : ℕ) (o : Orientation) (u v : ℕ) → r < levels
        → (IsWithin (resolution_area a levels (r + 1)) (woven_x o u) (woven_y o v)
        ↔ IsWithin (woven_area a levels r o) u v) }
    ensures cover { (x y : ℕ) → IsWoven x y }
    ensures one { (o p : Orientation) (u v w z : ℕ) → woven_x o u ≡ woven_x p w → woven_y o v ≡ woven_y p z
        → (o ≡ p) × (u ≡ w) × (v ≡ z) }
{}

/// Each place of a sub-band is in exactly one code-block of exactly one precinct, and no code-block
/// is empty.
pub fn blocks_share_a_band()
    ensures cover { (a : Rect) (k : Coding) (r : ℕ) (o : Orientation) (x y : ℕ) → IsCoding k → r ≤ k.levels → IsBand r o
        → IsWithin (band_area a k.levels r o) x y → (n : ℕ) × (i : ℕ) × BlockHolds a k r o n i x y }
    ensures one { (a : Rect) (k : Coding) (r : ℕ) (o : Orientation) (n i m j x y : ℕ)
        → BlockHolds a k r o n i x y → BlockHolds a k r o m j x y → (n ≡ m) × (i ≡ j) }
    ensures inside { (a : Rect) (k : Coding) (r : ℕ) (o : Orientation) (n i x y : ℕ)
        → BlockHolds a k r o n i x y → IsWithin (band_area a k.levels r o) x y }
    ensures some { (a : Rect) (k : Coding) (r n i : ℕ) (o : Orientation)
        → i < block_number (block_grid a k r n o) → is_empty (block_area (block_grid a k r n o) i) ≡ false }
{}

/// The precincts of all components, layer by layer, are the packets of a tile (T.800 B.9), and
/// components that are coded alike have as many precincts each.
pub fn precincts_are_counted()
    ensures all { (a : Rect) (layers : ℕ) (codings : List Coding)
        → packet_number a layers codings ≡ precincts_before a codings (length codings) * layers }
    ensures alike { (a : Rect) (codings : List Coding) (k : Coding) (c : ℕ)
        → ((i : ℕ) → i < c → coding_of codings i ≡ k)
        → precincts_before a codings c ≡ c * precincts_below a k (k.levels + 1) }
{}
