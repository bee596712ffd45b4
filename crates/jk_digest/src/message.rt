//! The digest of a whole message.

ghost use Rattle.std.specs.Prelude.{◌≡◌, ◌+◌, ◌*◌, ◌/◌, ◌%◌, ◌<◌, ◌≤◌, ◌++◌, ◌∷◌, [], length, drop, take};
ghost use Rattle.sha2.specs.Sha256.{digest_bytes, hash_after, initial_hash_256, padding, sha256};

use crate::blocks::{BLOCK, absorbed};
use crate::lanes;
use crate::rounds::INITIAL;

/// How many bytes four blocks have.
const GROUP: usize = 256;

/// What is left of a message behind its groups of four blocks, and the padding (5.1.1), which
/// together are one to five blocks.
fn padded(rest: &[u8], size: usize) -> [u8; 512]
    requires short { length rest.now < 256 }
    requires same { length rest.now % 64 ≡ size % 64 }
    ensures { take (((length rest.now + 8) / 64 + 1) * 64) result ≡ rest.now ++ padding size }
{
    let mut padded = [0; 512];
    let used = rest.len();
    let end = ((used + 8) / 64 + 1) * 64;
    padded[..used].copy_from_slice(rest);
    padded[used] = 0x80;
    padded[end - 8..end].copy_from_slice(&(size as u64).wrapping_mul(8).to_be_bytes());
    padded
}

/// The words of a hash value, high byte first (6.2.2).
fn bytes_of(hash: &[u32; 8]) -> [u8; 32]
    ensures { result ≡ digest_bytes hash.now 8 }
{
    let [a0, a1, a2, a3] = hash[0].to_be_bytes();
    let [b0, b1, b2, b3] = hash[1].to_be_bytes();
    let [c0, c1, c2, c3] = hash[2].to_be_bytes();
    let [d0, d1, d2, d3] = hash[3].to_be_bytes();
    let [e0, e1, e2, e3] = hash[4].to_be_bytes();
    let [f0, f1, f2, f3] = hash[5].to_be_bytes();
    let [g0, g1, g2, g3] = hash[6].to_be_bytes();
    let [h0, h1, h2, h3] = hash[7].to_be_bytes();
    [
        a0, a1, a2, a3, b0, b1, b2, b3, c0, c1, c2, c3, d0, d1, d2, d3, e0, e1, e2, e3, f0, f1, f2,
        f3, g0, g1, g2, g3, h0, h1, h2, h3,
    ]
}

/// Puts the hash value behind the first blocks of eight in place of the one before them (6.2.2).
fn finished(hash: &mut [u32; 8], blocks: &[u8; 512], count: usize, words: &mut [u32; 256])
    requires { count ≤ 8 }
    ensures { hash.new ≡ hash_after hash.old blocks.now count }
{
    absorbed(hash, &blocks[..GROUP], count.min(4), words);
    if 4 < count {
        absorbed(hash, &blocks[GROUP..], count - 4, words);
    }
}

/// Four blocks of a message.
fn four_blocks(message: &[u8], first: usize) -> &[u8]
    requires { (first + 4) * 64 ≤ length message.now }
    ensures blocks { result.now ≡ take (4 * 64) (drop (first * 64) message.now) }
    ensures whole { length result.now ≡ 256 }
{
    let start = BLOCK * first;
    &message[start..start + GROUP]
}

/// What stands behind the first blocks of a message.
fn behind(message: &[u8], blocks: usize) -> &[u8]
    requires { blocks * 64 ≤ length message.now }
    ensures { result.now ≡ drop (blocks * 64) message.now }
{
    &message[BLOCK * blocks..]
}

/// The digest of a message, of which the first blocks are in the hash value.
fn completed(mut hash: [u32; 8], message: &[u8], done: usize, words: &mut [u32; 256]) -> [u8; 32]
    requires within { done * 64 ≤ length message.now }
    requires behind { hash ≡ hash_after initial_hash_256 message.now done }
    ensures { result ≡ sha256 message.now }
{
    let fours = (message.len() / BLOCK - done) / 4;
    for four in 0..fours {
        absorbed(&mut hash, four_blocks(message, done + 4 * four), 4, words);
    }
    let rest = behind(message, done + 4 * fours);
    let last = padded(rest, message.len());
    finished(&mut hash, &last, (rest.len() + 8) / 64 + 1, words);
    bytes_of(&hash)
}

/// The SHA-256 digest of a message (FIPS 180-4, 6.2).
pub fn sha256(message: &[u8]) -> [u8; 32]
    ensures { result ≡ sha256 message.now }
{
    completed(INITIAL, message, 0, &mut [0; 256])
}

/// The SHA-256 digests of four messages (FIPS 180-4, 6.2). As far as all four go their blocks are
/// taken at once, which takes half as long as one message after another.
pub fn sha256_of_four(a: &[u8], b: &[u8], c: &[u8], d: &[u8]) -> [[u8; 32]; 4]
    ensures { result ≡ sha256 a.now ∷ sha256 b.now ∷ sha256 c.now ∷ sha256 d.now ∷ [] }
{
    let mut words = [0; 256];
    let count = a.len().min(b.len()).min(c.len()).min(d.len()) / BLOCK;
    let hashes = lanes::absorbed(a, b, c, d, count, &mut words);
    [
        completed(hashes.lane(0), a, count, &mut words),
        completed(hashes.lane(1), b, count, &mut words),
        completed(hashes.lane(2), c, count, &mut words),
        completed(hashes.lane(3), d, count, &mut words),
    ]
}
