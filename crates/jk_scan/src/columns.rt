//! The three columns around a place, out of gathered words.

ghost use Rattle.std.specs.Prelude.{◌≡◌, ℕ, ◌+◌, ◌-◌, ◌*◌, ◌<◌, ◌≤◌, ◌/◌, ◌%◌, true};
ghost use Rattle.jk_scan.specs.Bits.{on};
ghost use Rattle.jk_scan.specs.Words.{Truths, of_rows, of_gathered, Shows, IsColumn};
ghost use Rattle.jk_scan.specs.Surroundings.{IsAround};

use crate::around::Around;

/// The column left of a place, its own, and the one right of it: the row above the place, its row
/// and the row below it in bits 0 to 2 of each word.
#[derive(Clone, Copy)]
pub struct Beside {
    /// The column left of it.
    pub west: u64,
    /// Its own column.
    pub centre: u64,
    /// The column right of it.
    pub east: u64,
}

/// A gathered word with each column one further on.
#[inline(always)]
fn moved_right(x: u64, west: u64) -> u64
    ensures { (f : Truths) (j s c i : ℕ) → Shows of_gathered f (j + 1) s x → Shows of_gathered f j s west
        → c < 8 → i < 6 → on result (8 * c + i) ≡ f (8 * (j + 1) + c - 1) (4 * s + i - 1) }
{
    x << 8 | west >> 56
}

/// A gathered word with each column one further back.
#[inline(always)]
fn moved_left(x: u64, east: u64) -> u64
    ensures { (f : Truths) (j s c i : ℕ) → Shows of_gathered f (j + 1) s x → Shows of_gathered f (j + 2) s east
        → c < 8 → i < 6 → on result (8 * c + i) ≡ f (8 * (j + 1) + c + 1) (4 * s + i - 1) }
{
    x >> 8 | east << 56
}

/// The three columns around the place at bit k.
#[inline(always)]
pub fn columns_at(seen: Around, k: u32) -> Beside
    requires within { k < 64 }
    requires on_row { of_rows (k % 8) ≡ true }
    ensures west { (f : Truths) (j s : ℕ) → IsAround f j s seen
        → IsColumn f (8 * (j + 1) + k / 8 + 0 - 1) (4 * (s + 1) + k % 8 - 1) result.west }
    ensures centre { (f : Truths) (j s : ℕ) → IsAround f j s seen
        → IsColumn f (8 * (j + 1) + k / 8 + 1 - 1) (4 * (s + 1) + k % 8 - 1) result.centre }
    ensures east { (f : Truths) (j s : ℕ) → IsAround f j s seen
        → IsColumn f (8 * (j + 1) + k / 8 + 2 - 1) (4 * (s + 1) + k % 8 - 1) result.east }
{
    let low = k - 1;
    Beside {
        west: moved_right(seen.centre, seen.west) >> low,
        centre: seen.centre >> low,
        east: moved_left(seen.centre, seen.east) >> low,
    }
}

/// The nine places of three columns, without gaps.
#[inline(always)]
pub fn nine_beside(columns: Beside) -> usize
    ensures small { result < 512 }
    ensures west { (t : ℕ) → t < 3 → on result (3 * 0 + t) ≡ on columns.west t }
    ensures centre { (t : ℕ) → t < 3 → on result (3 * 1 + t) ≡ on columns.centre t }
    ensures east { (t : ℕ) → t < 3 → on result (3 * 2 + t) ≡ on columns.east t }
{
    (columns.west & 7 | columns.centre << 3 & 0x38 | columns.east << 6 & 0x1c0) as usize
}

/// The places left, above, below and right of the middle of three columns.
#[inline(always)]
pub fn four_beside(columns: Beside) -> usize
    ensures small { result < 16 }
    ensures west { on result 0 ≡ on columns.west 1 }
    ensures above { on result 1 ≡ on columns.centre 0 }
    ensures below { on result 2 ≡ on columns.centre 2 }
    ensures east { on result 3 ≡ on columns.east 1 }
{
    (columns.west >> 1 & 1
        | columns.centre << 1 & 2
        | columns.centre & 4
        | columns.east << 2 & 8) as usize
}
