//! The message schedules of four blocks at once.

ghost use Rattle.std.specs.Prelude.{◌≡◌, ℕ, ◌+◌, ◌-◌, ◌*◌, ◌<◌, ◌≤◌, ◌^◌, ◌/◌, map, length, slice_index, List};
ghost use Rattle.std.specs.Int.{w32, rotate_right};
ghost use Rattle.sha2.specs.Sha256.{add32, schedule, small_sigma0, small_sigma1, word_at};
ghost use Rattle.jk_digest.specs.Schedules.{HasWords, one_of};

use std::simd::prelude::*;

/// Each number rotated to the right.
#[inline(always)]
pub(crate) fn rotated(x: u32x4, by: u32) -> u32x4
    requires some { 0 < by }
    requires within { by < 32 }
    requires lanes { length x ≡ 4 }
    ensures { result ≡ map (λ w. rotate_right w32 w by) x }
{
    (x >> u32x4::splat(by)) | (x << u32x4::splat(32 - by))
}

/// The lower case σ 0 of each (4.1.2).
#[inline(always)]
fn small_sigma0(x: u32x4) -> u32x4
    requires { length x ≡ 4 }
    ensures { result ≡ map small_sigma0 x }
{
    rotated(x, 7) ^ rotated(x, 18) ^ (x >> u32x4::splat(3))
}

/// The lower case σ 1 of each (4.1.2).
#[inline(always)]
fn small_sigma1(x: u32x4) -> u32x4
    requires { length x ≡ 4 }
    ensures { result ≡ map small_sigma1 x }
{
    rotated(x, 17) ^ rotated(x, 19) ^ (x >> u32x4::splat(10))
}

/// Word `t` of each block.
#[inline(always)]
pub(crate) fn load(words: &[u32; 256], t: usize) -> u32x4
    requires { t < 64 }
    ensures lanes { length result ≡ 4 }
    ensures each { (k : ℕ) → k < 4 → slice_index result k ≡ slice_index words.now (4 * t + k) }
{
    u32x4::from_slice(&words[4 * t..])
}

/// Word `t` of each block, of the words before it (6.2.2, step 1).
#[inline(always)]
fn next(words: &[u32; 256], t: usize) -> u32x4
    requires first { 16 ≤ t }
    requires last { t < 64 }
    ensures lanes { length result ≡ 4 }
    ensures each { (k : ℕ) → k < 4 → slice_index result k ≡ add32 (add32 (add32
        (small_sigma1 (slice_index words.now (4 * (t - 2) + k))) (slice_index words.now (4 * (t - 7) + k)))
        (small_sigma0 (slice_index words.now (4 * (t - 15) + k)))) (slice_index words.now (4 * (t - 16) + k)) }
{
    small_sigma1(load(words, t - 2))
        + load(words, t - 7)
        + small_sigma0(load(words, t - 15))
        + load(words, t - 16)
}

/// The word at a byte.
#[inline(always)]
fn word(bytes: &[u8], at: usize) -> u32
    requires { at + 4 ≤ length bytes.now }
    ensures { result ≡ word_at bytes.now at }
{
    u32::from_be_bytes([bytes[at], bytes[at + 1], bytes[at + 2], bytes[at + 3]])
}

/// Word `t` of each block, of the first 16, which are the block's own.
#[inline(always)]
fn first(a: &[u8], b: &[u8], c: &[u8], d: &[u8], t: usize) -> u32x4
    requires a { length a.now ≡ 64 }
    requires b { length b.now ≡ 64 }
    requires c { length c.now ≡ 64 }
    requires d { length d.now ≡ 64 }
    requires few { t < 16 }
    ensures lanes { length result ≡ 4 }
    ensures each { (k : ℕ) → k < 4
        → slice_index result k ≡ slice_index (schedule (one_of a.now b.now c.now d.now k) 48) t }
{
    let at = 4 * t;
    u32x4::from_array([word(a, at), word(b, at), word(c, at), word(d, at)])
}

/// Puts word `t` of each block in its place.
#[inline(always)]
fn store(words: &mut [u32], t: usize, each: u32x4)
    requires all { length words.old ≡ 256 }
    requires within { t < 64 }
    requires lanes { length each ≡ 4 }
    ensures { (b : ℕ → List ℕ) → HasWords b words.old t
        → ((k : ℕ) → k < 4 → slice_index each k ≡ slice_index (schedule (b k) 48) t) → HasWords b words.new (t + 1) }
{
    each.copy_to_slice(&mut words[4 * t..]);
}

/// The schedules of four blocks.
pub(crate) fn schedules(a: &[u8], b: &[u8], c: &[u8], d: &[u8], words: &mut [u32; 256])
    requires a { length a.now ≡ 64 }
    requires b { length b.now ≡ 64 }
    requires c { length c.now ≡ 64 }
    requires d { length d.now ≡ 64 }
    ensures { HasWords (one_of a.now b.now c.now d.now) words.new 64 }
{
    for t in 0..16 {
        let each = first(a, b, c, d, t);
        store(words, t, each);
    }
    for t in 16..64 {
        let each = next(words, t);
        store(words, t, each);
    }
}
