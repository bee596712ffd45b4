//! The places next to each place of a word, in words of their own.

ghost use Rattle.std.specs.Prelude.{◌≡◌, ℕ, ◌%◌, ◌^◌, ◌<◌, true};
ghost use Rattle.jk_scan.specs.Words.{Truths, of_rows, bordered};
ghost use Rattle.jk_scan.specs.WordPlaces.{column, row};
ghost use Rattle.jk_scan.specs.Surroundings.{IsAround, Turns};
ghost use Rattle.jk_scan.specs.WordNumbers.{IsNear};

use crate::around::Around;

/// Words of the neighbours of places: bit k of each is the neighbour on that side of the place at
/// bit k.
#[derive(Clone, Copy)]
pub struct Nearby {
    pub west: u64,
    pub east: u64,
    pub north: u64,
    pub south: u64,
    pub north_west: u64,
    pub north_east: u64,
    pub south_west: u64,
    pub south_east: u64,
}

/// The neighbours of each place of a word, where a place sees those before it in `seen` and those
/// behind it in `old`.
#[inline(always)]
pub fn near_words(seen: Around, old: u64) -> Nearby
    ensures { (f : Truths) (j s centre k : ℕ) → k < 64 → of_rows (k % 8) ≡ true → centre < 2 ^ 64
        → Turns centre seen.centre old k
        → IsAround (bordered f) j s (record { centre = centre; west = seen.west; east = seen.east })
        → IsNear f (column j k) (row s k) result k }
{
    let west = seen.centre << 8 | seen.west >> 56;
    let east = old >> 8 | seen.east << 56;
    Nearby {
        west,
        east,
        north: seen.centre << 1,
        south: old >> 1,
        north_west: west << 1,
        north_east: east << 1,
        south_west: west >> 1,
        south_east: east >> 1,
    }
}
