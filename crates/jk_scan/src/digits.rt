//! The contexts of all places of a word at once, in words of their binary digits.

ghost use Rattle.std.specs.Prelude.{◌≡◌, ℕ, ◌+◌, ◌*◌, ◌<◌, not, ◌&&◌};
ghost use Rattle.jk_scan.specs.Bits.{on};
ghost use Rattle.jk_scan.specs.Contexts.{low_context_of, high_context_of, zero_context_of};
ghost use Rattle.jk_scan.specs.Contexts.{contribution_of, sign_context_of};
ghost use Rattle.jk_scan.specs.Neighbours.{count};
ghost use Rattle.jk_scan.specs.WordNumbers.{number_at, sign_byte, plus, minus};

use crate::nearby::Nearby;
use jk_math::Orientation;

/// A number below 16 for each place of a word: bit k of each word is a binary digit of the number
/// of the place at bit k.
#[derive(Clone, Copy)]
pub struct Digits {
    pub ones: u64,
    pub twos: u64,
    pub fours: u64,
    pub eights: u64,
}

/// The bits of a word that another one hasn't.
#[inline(always)]
fn without(a: u64, b: u64) -> u64
    ensures { (k : ℕ) → k < 64 → on result k ≡ (on a k && not (on b k)) }
{
    a & !b
}

/// The contexts of LL and LH, and those of HL where the neighbours across and down change places
/// (T.800 Table D.1).
#[inline(always)]
fn low_digits(west: u64, east: u64, north: u64, south: u64, near: Nearby) -> Digits
    ensures { (k : ℕ) → k < 64 → number_at result k
        ≡ low_context_of (count (on west k) (on east k)) (count (on north k) (on south k))
        (count (on near.north_west k) (on near.north_east k) + count (on near.south_west k) (on near.south_east k)) }
{
    let across = west | east;
    let down = north | south;
    let above = near.north_west | near.north_east;
    let below = near.south_west | near.south_east;
    let diagonal = above | below;
    let diagonals = above & below
        | near.north_west & near.north_east
        | near.south_west & near.south_east;
    let one_across = without(across, west & east);
    let one_down = without(down, north & south);
    let one_diagonal = without(without(diagonal, diagonals), down);
    let five_or_seven = without(one_across, without(diagonal, down));
    Digits {
        ones: five_or_seven | without(one_down | one_diagonal, across),
        twos: one_across & (down | diagonal) | without(one_down | without(diagonals, down), across),
        fours: one_across | without(north & south, across),
        eights: west & east,
    }
}

/// The contexts of HH.
#[inline(always)]
fn high_digits(near: Nearby) -> Digits
    ensures { (k : ℕ) → k < 64 → number_at result k
        ≡ high_context_of (count (on near.west k) (on near.east k) + count (on near.north k) (on near.south k))
        (count (on near.north_west k) (on near.north_east k) + count (on near.south_west k) (on near.south_east k)) }
{
    let across = near.west | near.east;
    let down = near.north | near.south;
    let beside = across | down;
    let besides = across & down | near.west & near.east | near.north & near.south;
    let above = near.north_west | near.north_east;
    let below = near.south_west | near.south_east;
    let both_above = near.north_west & near.north_east;
    let both_below = near.south_west & near.south_east;
    let diagonal = above | below;
    let diagonals = above & below | both_above | both_below;
    let three = both_above & below | both_below & above;
    let two = without(diagonals, three);
    let one = without(diagonal, diagonals);
    let one_beside = without(beside, besides);
    Digits {
        ones: two & beside | without(one, one_beside) | without(one_beside, diagonal),
        twos: two | without(one, beside) | without(besides, diagonal),
        fours: two | one & beside,
        eights: three,
    }
}

/// The contexts of places that aren't significant.
#[inline(always)]
#[tactic(auto, unfolding(crate::specs::Contexts::zero_context_of))]
pub fn zero_digits(orientation: Orientation, near: Nearby) -> Digits
    ensures { (k : ℕ) → k < 64 → number_at result k
        ≡ zero_context_of orientation (count (on near.west k) (on near.east k))
        (count (on near.north k) (on near.south k))
        (count (on near.north_west k) (on near.north_east k) + count (on near.south_west k) (on near.south_east k)) }
{
    match orientation {
        Orientation::LL | Orientation::LH => {
            low_digits(near.west, near.east, near.north, near.south, near)
        }
        Orientation::HL => low_digits(near.north, near.south, near.west, near.east, near),
        Orientation::HH => high_digits(near),
    }
}

/// The decisions of signs but for 16: the contexts, and below them the sign or, where the context
/// flips it, its opposite (T.800 Tables D.2 and D.3).
#[inline(always)]
pub fn sign_digits(near: Nearby, signs: Nearby, own: u64) -> Digits
    ensures { (k : ℕ) → k < 64 → 16 + number_at result k ≡ sign_byte (sign_context_of
        (contribution_of (count (plus near.west signs.west k) (plus near.east signs.east k))
        (count (minus near.west signs.west k) (minus near.east signs.east k)))
        (contribution_of (count (plus near.north signs.north k) (plus near.south signs.south k))
        (count (minus near.north signs.north k) (minus near.south signs.south k)))) (on own k) }
{
    let positive_across = without(near.west, signs.west) | without(near.east, signs.east);
    let negative_across = near.west & signs.west | near.east & signs.east;
    let positive_down = without(near.north, signs.north) | without(near.south, signs.south);
    let negative_down = near.north & signs.north | near.south & signs.south;
    let plus_across = without(positive_across, negative_across);
    let minus_across = without(negative_across, positive_across);
    let plus_down = without(positive_down, negative_down);
    let minus_down = without(negative_down, positive_down);
    let across = plus_across | minus_across;
    let down = plus_down | minus_down;
    let ten_or_eleven = without(down, plus_across & plus_down | minus_across & minus_down);
    let flip = minus_across | without(minus_down, across);
    Digits {
        ones: without(flip, own) | without(own, flip),
        twos: without(u64::MAX, without(across, down) | without(down, across)),
        fours: ten_or_eleven,
        eights: without(across, ten_or_eleven),
    }
}
