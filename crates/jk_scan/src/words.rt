//! Words of 32 places: eight columns of a stripe of four rows, its bit `8c + 1 + r` the place in
//! column c and row r. The other bits of a byte are for what stands above and below, and are not
//! set in a word that is kept.

ghost use Rattle.std.specs.Prelude.{◌≡◌, ℕ, Bool, ◌+◌, ◌-◌, ◌*◌, ◌^◌, ◌<◌, not, nat_eq, ◌&&◌, ◌||◌};
ghost use Rattle.jk_scan.specs.Bits.{on};
ghost use Rattle.jk_scan.specs.Words.{Truths, of_rows, of_gathered, Shows, ShowsAt, IsLine, up_down, upright, aside};
ghost use Rattle.jk_scan.specs.Words.{near, is_member, in_six};
ghost use Rattle.jk_scan.specs.Surroundings.{IsAround, Turns};

use crate::around::{Around, quiet};

/// A word with the rows above and below its stripe.
pub fn gather(centre: u64, above: u64, below: u64) -> u64
    ensures { (f : Truths) (j s : ℕ) → Shows of_rows f j (s + 1) centre → Shows of_rows f j s above
        → Shows of_rows f j (s + 2) below
        → Shows of_gathered f j (s + 1) result }
{
    centre | above >> 4 & 0x0101_0101_0101_0101 | (below & 0x0202_0202_0202_0202) << 4
}

/// Each place of a gathered word, with the places above and below it.
fn with_rows(x: u64) -> u64
    ensures { (f : Truths) (j s : ℕ) → ShowsAt of_gathered f j (s + 1) x
        → ShowsAt of_rows (up_down f) j (s + 1) result }
{
    x | x << 1 | x >> 1
}

/// The places above and below each place of a gathered word.
fn rows_beside(x: u64) -> u64
    ensures { (f : Truths) (j s : ℕ) → ShowsAt of_gathered f j (s + 1) x
        → ShowsAt of_rows (upright f) j (s + 1) result }
{
    x << 1 | x >> 1
}

/// The places left and right of each place of a word, line by line.
fn columns_beside(v: u64, west: u64, east: u64) -> u64
    ensures { (h : ℕ → Bool) (j i : ℕ) → i < 8 → IsLine h i (j + 1) v → IsLine h i j west → IsLine h i (j + 2) east
        → (c : ℕ) → c < 8 → on result (8 * c + i) ≡ (h (8 * (j + 1) + c - 1) || h (8 * (j + 1) + c + 1)) }
{
    v << 8 | v >> 8 | west >> 56 | east << 56
}

/// Each place of a word, with the places left and right of it, line by line.
fn with_columns(v: u64, west: u64, east: u64) -> u64
    ensures { (h : ℕ → Bool) (j i : ℕ) → i < 8 → IsLine h i (j + 1) v → IsLine h i j west → IsLine h i (j + 2) east
        → (c : ℕ) → c < 8 → on result (8 * c + i)
        ≡ ((h (8 * (j + 1) + c) || h (8 * (j + 1) + c - 1)) || h (8 * (j + 1) + c + 1)) }
{
    v | columns_beside(v, west, east)
}

/// The places of a word that are members of the significance pass.
pub fn members(seen: Around, inside: u64) -> u64
    ensures { (f m : Truths) (j s : ℕ) → IsAround f j s seen → Shows of_rows m (j + 1) (s + 1) inside
        → Shows of_rows (is_member m f) (j + 1) (s + 1) result }
{
    with_columns(
        with_rows(seen.centre),
        with_rows(seen.west),
        with_rows(seen.east),
    ) & inside
        & !seen.centre
}

/// The places of a word that have a significant neighbour.
pub fn touched_places(seen: Around) -> u64
    ensures { (f : Truths) (j s : ℕ) → IsAround f j s seen → ShowsAt of_rows (near f) (j + 1) (s + 1) result }
{
    rows_beside(seen.centre)
        | columns_beside(
            with_rows(seen.centre),
            with_rows(seen.west),
            with_rows(seen.east),
        )
}

/// The columns inside in which nothing is significant, nor around them, by the bits of their first
/// rows.
pub fn quiet_columns(seen: Around, inside: u64) -> u64
    ensures { (f m : Truths) (j s : ℕ) → IsAround f j s seen → Shows of_rows m (j + 1) (s + 1) inside
        → (c i : ℕ) → c < 8 → i < 8 → on result (8 * c + i)
        ≡ (nat_eq i 1 && (m (8 * (j + 1) + c) (4 * (s + 1)) && not (in_six (aside f) (8 * (j + 1) + c) (s + 1)))) }
{
    quiet(with_columns(seen.centre, seen.west, seen.east) & 0x3F3F_3F3F_3F3F_3F3F) & inside
}

/// The same, each column as it is in its turn: it sees the columns before it in `seen`, itself and
/// those behind it in `old`.
#[inline(always)]
pub fn quiet_in_turn(seen: Around, old: u64, inside: u64) -> u64
    ensures { (f m : Truths) (j s centre c i : ℕ) → c < 8 → i < 8 → centre < 2 ^ 64
        → Turns centre seen.centre old (8 * c)
        → IsAround f j s (record { centre = centre; west = seen.west; east = seen.east })
        → Shows of_rows m (j + 1) (s + 1) inside
        → on result (8 * c + i) ≡ (nat_eq i 1
        && (m (8 * (j + 1) + c) (4 * (s + 1)) && not (in_six (aside f) (8 * (j + 1) + c) (s + 1)))) }
{
    let west = seen.centre << 8 | seen.west >> 56;
    let east = old >> 8 | seen.east << 56;
    quiet((west | old | east) & 0x3F3F_3F3F_3F3F_3F3F) & inside
}
