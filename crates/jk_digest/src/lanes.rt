//! Blocks of four messages at once, in vectors of four numbers, one of each message.

ghost use Rattle.std.specs.Prelude.{◌≡◌, ℕ, ◌+◌, ◌*◌, ◌<◌, ◌≤◌, length, slice_index, List, map};
ghost use Rattle.sha2.specs.Sha256.{add_state, big_sigma0, big_sigma1, ch, compress, hash_after};
ghost use Rattle.sha2.specs.Sha256.{initial_hash_256, maj, temp1, temp2};
ghost use Rattle.jk_digest.specs.Schedules.{HasWords, one_of};
ghost use Rattle.jk_digest.specs.Lanes.{AreBehind, AreFours, lane};

use crate::blocks::block;
use crate::rounds::{CONSTANTS, INITIAL};
use crate::schedule::{load, rotated, schedules};
use std::simd::prelude::*;

/// Eight numbers of each message: the working variables, or a hash value.
#[derive(Clone, Copy)]
pub(crate) struct EightWords {
    a: u32x4,
    b: u32x4,
    c: u32x4,
    d: u32x4,
    e: u32x4,
    f: u32x4,
    g: u32x4,
    h: u32x4,
}

/// Ch of each (4.1.2).
#[inline(always)]
fn ch(x: u32x4, y: u32x4, z: u32x4) -> u32x4
    requires x { length x ≡ 4 }
    requires y { length y ≡ 4 }
    requires z { length z ≡ 4 }
    ensures lanes { length result ≡ 4 }
    ensures each { (k : ℕ) → k < 4
        → slice_index result k ≡ ch (slice_index x k) (slice_index y k) (slice_index z k) }
{
    (x & y) ^ (!x & z)
}

/// Maj of each (4.1.2).
#[inline(always)]
fn maj(x: u32x4, y: u32x4, z: u32x4) -> u32x4
    requires x { length x ≡ 4 }
    requires y { length y ≡ 4 }
    requires z { length z ≡ 4 }
    ensures lanes { length result ≡ 4 }
    ensures each { (k : ℕ) → k < 4
        → slice_index result k ≡ maj (slice_index x k) (slice_index y k) (slice_index z k) }
{
    ((x ^ y) & (y ^ z)) ^ y
}

/// Σ 0 of each (4.1.2).
#[inline(always)]
fn big_sigma0(x: u32x4) -> u32x4
    requires { length x ≡ 4 }
    ensures { result ≡ map big_sigma0 x }
{
    rotated(x, 2) ^ rotated(x, 13) ^ rotated(x, 22)
}

/// Σ 1 of each (4.1.2).
#[inline(always)]
fn big_sigma1(x: u32x4) -> u32x4
    requires { length x ≡ 4 }
    ensures { result ≡ map big_sigma1 x }
{
    rotated(x, 6) ^ rotated(x, 11) ^ rotated(x, 25)
}

/// T 1 of a round of each, with this constant and these words (6.2.2, step 3).
#[inline(always)]
fn first_sum(v: EightWords, constant: u32, words: u32x4) -> u32x4
    requires fours { AreFours v }
    requires words { length words ≡ 4 }
    ensures lanes { length result ≡ 4 }
    ensures each { (k : ℕ) → k < 4 → slice_index result k ≡ temp1 (lane v k) constant (slice_index words k) }
{
    v.h + big_sigma1(v.e) + ch(v.e, v.f, v.g) + u32x4::splat(constant) + words
}

/// T 2 of a round of each (6.2.2, step 3).
#[inline(always)]
fn second_sum(v: EightWords) -> u32x4
    requires { AreFours v }
    ensures lanes { length result ≡ 4 }
    ensures each { (k : ℕ) → k < 4 → slice_index result k ≡ temp2 (lane v k) }
{
    big_sigma0(v.a) + maj(v.a, v.b, v.c)
}

/// The variables behind round `t` of each.
#[inline(always)]
fn behind_round(v: EightWords, words: &[u32; 256], t: usize) -> EightWords
    requires fours { AreFours v }
    requires round { t < 64 }
    ensures fours { AreFours result }
    ensures each { (b h : ℕ → List ℕ) → HasWords b words.now 64 → AreBehind h b t v → AreBehind h b (t + 1) result }
{
    let first = first_sum(v, CONSTANTS[t], load(words, t));
    let second = second_sum(v);
    EightWords {
        h: v.g,
        g: v.f,
        f: v.e,
        e: v.d + first,
        d: v.c,
        c: v.b,
        b: v.a,
        a: first + second,
    }
}

/// The variables behind two rounds more.
#[inline(always)]
fn behind_two(v: EightWords, words: &[u32; 256], t: usize) -> EightWords
    requires fours { AreFours v }
    requires rounds { t + 2 ≤ 64 }
    ensures fours { AreFours result }
    ensures each { (b h : ℕ → List ℕ) → HasWords b words.now 64 → AreBehind h b t v → AreBehind h b (t + 2) result }
{
    behind_round(behind_round(v, words, t), words, t + 1)
}

/// The variables behind four rounds more.
#[inline(always)]
fn behind_four(v: EightWords, words: &[u32; 256], t: usize) -> EightWords
    requires fours { AreFours v }
    requires rounds { t + 4 ≤ 64 }
    ensures fours { AreFours result }
    ensures each { (b h : ℕ → List ℕ) → HasWords b words.now 64 → AreBehind h b t v → AreBehind h b (t + 4) result }
{
    behind_two(behind_two(v, words, t), words, t + 2)
}

/// The variables behind eight rounds more, in which each variable is made anew twice.
#[inline(always)]
fn behind_eight(v: EightWords, words: &[u32; 256], t: usize) -> EightWords
    requires fours { AreFours v }
    requires rounds { t + 8 ≤ 64 }
    ensures fours { AreFours result }
    ensures each { (b h : ℕ → List ℕ) → HasWords b words.now 64 → AreBehind h b t v → AreBehind h b (t + 8) result }
{
    behind_four(behind_four(v, words, t), words, t + 4)
}

/// The hash values with the working variables added to them (6.2.2, step 4).
#[inline(always)]
fn added(hash: EightWords, v: EightWords) -> EightWords
    requires hash { AreFours hash }
    requires variables { AreFours v }
    ensures fours { AreFours result }
    ensures each { (k : ℕ) → k < 4 → lane result k ≡ add_state (lane hash k) (lane v k) }
{
    EightWords {
        a: hash.a + v.a,
        b: hash.b + v.b,
        c: hash.c + v.c,
        d: hash.d + v.d,
        e: hash.e + v.e,
        f: hash.f + v.f,
        g: hash.g + v.g,
        h: hash.h + v.h,
    }
}

/// The hash values behind a block of each message.
fn compressed(hash: EightWords, words: &[u32; 256]) -> EightWords
    requires { AreFours hash }
    ensures fours { AreFours result }
    ensures each { (b : ℕ → List ℕ) → HasWords b words.now 64
        → (k : ℕ) → k < 4 → lane result k ≡ compress (lane hash k) (b k) }
{
    let mut v = hash;
    for eight in 0..8 {
        v = behind_eight(v, words, 8 * eight);
    }
    added(hash, v)
}

/// The initial hash value, of each message (5.3.3).
fn initial() -> EightWords
    ensures fours { AreFours result }
    ensures each { (k : ℕ) → k < 4 → lane result k ≡ initial_hash_256 }
{
    EightWords {
        a: u32x4::splat(INITIAL[0]),
        b: u32x4::splat(INITIAL[1]),
        c: u32x4::splat(INITIAL[2]),
        d: u32x4::splat(INITIAL[3]),
        e: u32x4::splat(INITIAL[4]),
        f: u32x4::splat(INITIAL[5]),
        g: u32x4::splat(INITIAL[6]),
        h: u32x4::splat(INITIAL[7]),
    }
}

/// The hash values behind the first blocks of four messages. `words` is room that is written.
pub(crate) fn absorbed(
    a: &[u8],
    b: &[u8],
    c: &[u8],
    d: &[u8],
    count: usize,
    words: &mut [u32; 256],
) -> EightWords
    requires a { count * 64 ≤ length a.now }
    requires b { count * 64 ≤ length b.now }
    requires c { count * 64 ≤ length c.now }
    requires d { count * 64 ≤ length d.now }
    ensures fours { AreFours result }
    ensures each { (k : ℕ) → k < 4
        → lane result k ≡ hash_after initial_hash_256 (one_of a.now b.now c.now d.now k) count }
{
    let mut hash = initial();
    for n in 0..count {
        schedules(block(a, n), block(b, n), block(c, n), block(d, n), words);
        hash = compressed(hash, words);
    }
    hash
}

impl EightWords {
    /// The numbers of the message at `k`.
    pub(crate) fn lane(&self, k: usize) -> [u32; 8]
        requires fours { AreFours self.now }
        requires few { k < 4 }
        ensures { result ≡ lane self.now k }
    {
        [
            self.a.to_array()[k],
            self.b.to_array()[k],
            self.c.to_array()[k],
            self.d.to_array()[k],
            self.e.to_array()[k],
            self.f.to_array()[k],
            self.g.to_array()[k],
            self.h.to_array()[k],
        ]
    }
}
