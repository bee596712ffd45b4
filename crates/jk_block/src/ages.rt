//! What was significant as the last two planes of a block began.

ghost use Rattle.std.specs.Prelude.{◌≡◌, ℕ, ◌<◌, ◌≤◌, length, replicate, get_or};
ghost use Rattle.jk_scan.specs.Flags.{IsSized};
ghost use Rattle.jk_block.specs.Fields.{words_of, AreSameWords};

use jk_scan::{BlockShape, words_across};
use std::marker::Model;

/// No place is marked.
pub fn unmarked<const N: usize>() -> [u64; N]
    ensures { result ≡ replicate N 0 }
{
    [0; N]
}

/// How many words show a block once, with their border.
pub fn words_of(shape: BlockShape) -> usize
    requires { IsSized shape }
    ensures is { result ≡ words_of shape }
    ensures few { result ≤ 774 }
{
    (words_across(shape) + 2) * ((shape.height + 3) / 4 + 2)
}

/// No place of a block is marked any more.
pub fn unmark(shape: BlockShape, words: &mut [u64])
    requires sized { IsSized shape }
    requires room { words_of shape ≤ length words.old }
    ensures unmarked { (k : ℕ) → k < words_of shape → get_or words.new k 0 ≡ 0 }
    ensures length { length words.new ≡ length words.old }
{
    for at in 0..words_of(shape) {
        words[at] = 0;
    }
}

/// Copies the words that show a block.
fn copy(shape: BlockShape, from: &[u64], to: &mut [u64])
    requires sized { IsSized shape }
    requires given { words_of shape ≤ length from.now }
    requires room { words_of shape ≤ length to.old }
    ensures same { AreSameWords shape from.now to.new }
    ensures length { length to.new ≡ length to.old }
{
    for at in 0..words_of(shape) {
        to[at] = from[at];
    }
}

/// What was significant before a plane, and what was so before the plane above. The two change
/// places with each plane.
#[derive(Drop)]
pub struct Ages<'a> {
    even: &'a mut [u64],
    odd: &'a mut [u64],
    is_odd: bool,
}

impl<'a> Model for Ages<'a> {
    ghost use Rattle.std.specs.Prelude.{if◌then◌else◌};
    ghost use Rattle.jk_block.specs.Ages.{AgesView};

    ghost Value = { AgesView };

    ghost view = { λ a. record {
      refined = if a.is_odd then a.odd.now else a.even.now;
      older = if a.is_odd then a.even.now else a.odd.now;
    } };
}

impl<'a> Ages<'a> {
    ghost use Rattle.jk_block.specs.Ages.{HasRoom};

    /// What these words show was significant, the first before the plane above.
    #[inline(always)]
    pub fn new(even: &'a mut [u64], odd: &'a mut [u64]) -> Ages<'a>
        ensures refined { result.refined ≡ even.old }
        ensures older { result.older ≡ odd.old }
    {
        Ages {
            even,
            odd,
            is_odd: false,
        }
    }

    /// What was significant before the plane above.
    #[inline(always)]
    pub fn refined(&self) -> &[u64]
        ensures { result.now ≡ self.now.refined }
    {
        if self.is_odd { &self.odd } else { &self.even }
    }

    /// Notes what is significant as a plane begins.
    pub fn note(&mut self, shape: BlockShape, significant: &[u64])
        requires sized { IsSized shape }
        requires given { words_of shape ≤ length significant.now }
        requires room { HasRoom shape self.old }
        ensures refined { self.new.refined ≡ self.old.older }
        ensures older { AreSameWords shape significant.now self.new.older }
        ensures room { HasRoom shape self.new }
    {
        if self.is_odd {
            copy(shape, significant, self.odd);
        } else {
            copy(shape, significant, self.even);
        }
        self.is_odd = !self.is_odd;
    }
}
