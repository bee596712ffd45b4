//! The places of a word that the significance propagation pass codes. While a block is written all
//! its bits are known, so these places are known before the first of them is listed.

ghost use Rattle.std.specs.Prelude.{◌≡◌, ℕ, ◌&&◌, ◌||◌, ◌<◌};
ghost use Rattle.jk_scan.specs.Bits.{on};
ghost use Rattle.jk_block.specs.encoding.Reached.{is_reached};

/// The later places that these touch, by their distances. Some fall on bits that aren't places.
#[inline(always)]
fn reached(known_significant: u64) -> u64
    ensures { (m : ℕ) → m < 64 → on result m ≡ is_reached (on known_significant) m }
{
    known_significant << 1
        | known_significant << 7
        | known_significant << 8
        | known_significant << 9
}

/// The candidates, and of the free places those that one of all these with the bit 1 reaches.
#[inline(always)]
pub fn with_reached(candidates: u64, ones: u64, free: u64) -> u64
    ensures { (m : ℕ) → m < 64
        → on result m ≡ (on candidates m || (on free m && is_reached (λ k. on result k && on ones k) m)) }
{
    let mut all = candidates;
    let mut more = candidates | reached(all & ones) & free;
    while more != all {
        all = more;
        more = candidates | reached(all & ones) & free;
    }
    all
}
