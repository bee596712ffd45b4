//! Truth values of the places of a block in an array of words, with a border of words that show
//! nothing.

ghost use Rattle.std.specs.Prelude.{◌≡◌, ℕ, ◌+◌, ◌-◌, ◌*◌, ◌<◌, ◌≤◌, nat_le, ◌&&◌, length};
ghost use Rattle.jk_scan.specs.Bits.{on};
ghost use Rattle.jk_scan.specs.Neighbours.{is_inside, seen_from};
ghost use Rattle.jk_scan.specs.Moments.{stripes};
ghost use Rattle.jk_scan.specs.Words.{Truths, of_rows, of_gathered, Shows, bordered};
ghost use Rattle.jk_scan.specs.Surroundings.{IsAround};
ghost use Rattle.jk_scan.specs.Flags.{IsSized, IsDrawn, across, word_at, words_shown};

use crate::around::Around;
use crate::shape::BlockShape;
use crate::words::gather;

/// How many words the largest block takes with its border: that of 4 by 1024.
pub const WORDS: usize = 774;

/// How many words a stripe has.
pub fn words_across(shape: BlockShape) -> usize
    requires { shape.width ≤ 1024 }
    ensures { result ≡ across shape }
{
    (shape.width + 7) / 8
}

/// The place of a word in the array, its word and its stripe counted with the border.
pub fn word_place(shape: BlockShape, word: usize, stripe: usize) -> usize
    requires sized { IsSized shape }
    requires word { word < across shape + 2 }
    requires stripe { stripe < stripes shape + 2 }
    ensures place { result ≡ word_at shape word stripe }
    ensures fits { result < 774 }
    ensures within { result < words_shown shape }
{
    stripe * (words_across(shape) + 2) + word
}

/// The word below a word of a stripe, as the stripe sees it: with vertically causal contexts it
/// shows nothing (T.800 D.7).
#[inline(always)]
fn seen_below(words: &[u64], shape: BlockShape, word: usize, stripe: usize) -> u64
    requires sized { IsSized shape }
    requires room { words_shown shape ≤ length words.now }
    requires word { word < across shape + 2 }
    requires stripe { stripe < stripes shape }
    ensures { (f : Truths) → IsDrawn shape f words.now
        → Shows of_rows (bordered (seen_from shape stripe f)) word (stripe + 2) result }
{
    if shape.style.causal {
        0
    } else {
        words[word_place(shape, word, stripe + 2)]
    }
}

/// A word of a stripe with the rows above and below it, as the stripe sees them. The word is
/// counted with the border.
fn gathered(words: &[u64], shape: BlockShape, word: usize, stripe: usize) -> u64
    requires sized { IsSized shape }
    requires room { words_shown shape ≤ length words.now }
    requires word { word < across shape + 2 }
    requires stripe { stripe < stripes shape }
    ensures { (f : Truths) → IsDrawn shape f words.now
        → Shows of_gathered (bordered (seen_from shape stripe f)) word (stripe + 1) result }
{
    let centre = words[word_place(shape, word, stripe + 1)];
    let above = words[word_place(shape, word, stripe)];
    gather(centre, above, seen_below(words, shape, word, stripe))
}

/// A word of a stripe and those beside it, each with the rows above and below as the stripe sees
/// them, out of as many words as the block needs or more.
#[inline(always)]
pub fn seen_among(words: &[u64], shape: BlockShape, word: usize, stripe: usize) -> Around
    requires sized { IsSized shape }
    requires room { words_shown shape ≤ length words.now }
    requires word { word < across shape }
    requires stripe { stripe < stripes shape }
    ensures { (f : Truths) → IsDrawn shape f words.now
        → IsAround (bordered (seen_from shape stripe f)) word stripe result }
{
    Around {
        centre: gathered(words, shape, word + 1, stripe),
        west: gathered(words, shape, word, stripe),
        east: gathered(words, shape, word + 2, stripe),
    }
}

/// A word of a stripe and those beside it, each with the rows above and below as the stripe sees
/// them. The older form of `seen_among`, over an array of the greatest length; no crate calls it.
#[inline(always)]
pub fn seen_around(words: &[u64; WORDS], shape: BlockShape, word: usize, stripe: usize) -> Around
    requires sized { IsSized shape }
    requires word { word < across shape }
    requires stripe { stripe < stripes shape }
    ensures { (f : Truths) → IsDrawn shape f words.now
        → IsAround (bordered (seen_from shape stripe f)) word stripe result }
{
    seen_among(words, shape, word, stripe)
}

/// The first rows of each column.
fn first_rows(rows: usize) -> u64
    requires some { 1 ≤ rows }
    requires few { rows ≤ 4 }
    ensures { (c i : ℕ) → c < 8 → i < 8 → on result (8 * c + i) ≡ (nat_le 1 i && nat_le i rows) }
{
    match rows {
        1 => 0x0202_0202_0202_0202,
        2 => 0x0606_0606_0606_0606,
        3 => 0x0E0E_0E0E_0E0E_0E0E,
        _ => 0x1E1E_1E1E_1E1E_1E1E,
    }
}

/// The places of a word that lie in the block.
pub fn inside(shape: BlockShape, word: usize, stripe: usize) -> u64
    requires sized { IsSized shape }
    requires word { word < across shape }
    requires stripe { stripe < stripes shape }
    ensures { Shows of_rows (bordered (is_inside shape)) (word + 1) (stripe + 1) result }
{
    let rows = (shape.height - 4 * stripe).min(4);
    let columns = (shape.width - 8 * word).min(8);
    first_rows(rows) & u64::MAX >> (64 - 8 * columns)
}
