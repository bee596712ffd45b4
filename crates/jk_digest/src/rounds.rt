//! The rounds of one block, on numbers.

ghost use Rattle.std.specs.Prelude.{◌≡◌, ℕ, ◌+◌, ◌<◌, ◌≤◌, List, bit_xor};
ghost use Rattle.std.specs.Int.{w32, rotate_right};
ghost use Rattle.sha2.specs.Sha256.{add_state, ch, compress, maj, temp1, temp2};
ghost use Rattle.jk_digest.specs.Schedules.{HasColumn};
ghost use Rattle.jk_digest.specs.Rounds.{IsBehind, listed};

/// The initial hash value (5.3.3).
pub(crate) const INITIAL: [u32; 8] = [
    0x6A09E667, 0xBB67AE85, 0x3C6EF372, 0xA54FF53A, 0x510E527F, 0x9B05688C, 0x1F83D9AB, 0x5BE0CD19,
];

/// K of each round (4.2.2).
pub(crate) const CONSTANTS: [u32; 64] = [
    0x428A2F98, 0x71374491, 0xB5C0FBCF, 0xE9B5DBA5, 0x3956C25B, 0x59F111F1, 0x923F82A4, 0xAB1C5ED5,
    0xD807AA98, 0x12835B01, 0x243185BE, 0x550C7DC3, 0x72BE5D74, 0x80DEB1FE, 0x9BDC06A7, 0xC19BF174,
    0xE49B69C1, 0xEFBE4786, 0x0FC19DC6, 0x240CA1CC, 0x2DE92C6F, 0x4A7484AA, 0x5CB0A9DC, 0x76F988DA,
    0x983E5152, 0xA831C66D, 0xB00327C8, 0xBF597FC7, 0xC6E00BF3, 0xD5A79147, 0x06CA6351, 0x14292967,
    0x27B70A85, 0x2E1B2138, 0x4D2C6DFC, 0x53380D13, 0x650A7354, 0x766A0ABB, 0x81C2C92E, 0x92722C85,
    0xA2BFE8A1, 0xA81A664B, 0xC24B8B70, 0xC76C51A3, 0xD192E819, 0xD6990624, 0xF40E3585, 0x106AA070,
    0x19A4C116, 0x1E376C08, 0x2748774C, 0x34B0BCB5, 0x391C0CB3, 0x4ED8AA4A, 0x5B9CCA4F, 0x682E6FF3,
    0x748F82EE, 0x78A5636F, 0x84C87814, 0x8CC70208, 0x90BEFFFA, 0xA4506CEB, 0xBEF9A3F7, 0xC67178F2,
];

/// The working variables of a block, or a hash value (6.2.2).
#[derive(Clone, Copy)]
pub(crate) struct Variables {
    a: u32,
    b: u32,
    c: u32,
    d: u32,
    e: u32,
    f: u32,
    g: u32,
    h: u32,
}

/// Where a bit of `mask` is set that bit of `set`, else that of `unset`.
#[inline(always)]
fn chosen(mask: u32, set: u32, unset: u32) -> u32
    ensures { result ≡ ch mask set unset }
{
    ((set ^ unset) & mask) ^ unset
}

/// What most of three have at each bit: where the first two differ the third decides.
#[inline(always)]
fn most(x: u32, y: u32, z: u32) -> u32
    ensures { result ≡ maj x y z }
{
    chosen(x ^ y, z, y)
}

/// The xor of three rotations to the right: by `first`, by `second` more and by `third` more. Each
/// later one is made inside the one before it, so that a copy less of `x` is held.
#[inline(always)]
fn rotations(x: u32, first: u32, second: u32, third: u32) -> u32
    requires first { 0 < first }
    requires second { 0 < second }
    requires third { 0 < third }
    requires within { first + second + third < 32 }
    ensures { result ≡ bit_xor (bit_xor (rotate_right w32 x first) (rotate_right w32 x (first + second)))
        (rotate_right w32 x (first + second + third)) }
{
    let inner = x.rotate_right(third) ^ x;
    let outer = inner.rotate_right(second) ^ x;
    outer.rotate_right(first)
}

impl Variables {
    /// The variables that have these numbers.
    pub(crate) fn of(numbers: [u32; 8]) -> Variables
        ensures { listed result ≡ numbers }
    {
        let [a, b, c, d, e, f, g, h] = numbers;
        Variables {
            a,
            b,
            c,
            d,
            e,
            f,
            g,
            h,
        }
    }

    /// T 1 of a round with this constant and word (6.2.2, step 3).
    #[inline(always)]
    fn first_sum(self, constant: u32, word: u32) -> u32
        ensures { result ≡ temp1 (listed self) constant word }
    {
        let sigma = rotations(self.e, 6, 5, 14);
        let choice = chosen(self.e, self.f, self.g);
        let before = self.h.wrapping_add(sigma).wrapping_add(choice);
        before.wrapping_add(constant).wrapping_add(word)
    }

    /// T 2 of a round (6.2.2, step 3).
    #[inline(always)]
    fn second_sum(self) -> u32
        ensures { result ≡ temp2 (listed self) }
    {
        rotations(self.a, 2, 11, 9).wrapping_add(most(self.a, self.b, self.c))
    }

    /// The variables behind round `t` of block `k`.
    #[inline(always)]
    fn behind_round(self, words: &[u32; 256], k: usize, t: usize) -> Variables
        requires block { k < 4 }
        requires round { t < 64 }
        ensures { (b h : List ℕ) → HasColumn b words.now k → IsBehind h b t self → IsBehind h b (t + 1) result }
    {
        let first = self.first_sum(CONSTANTS[t], words[4 * t + k]);
        let second = self.second_sum();
        Variables {
            h: self.g,
            g: self.f,
            f: self.e,
            e: self.d.wrapping_add(first),
            d: self.c,
            c: self.b,
            b: self.a,
            a: first.wrapping_add(second),
        }
    }

    /// The variables behind two rounds more.
    #[inline(always)]
    fn behind_two(self, words: &[u32; 256], k: usize, t: usize) -> Variables
        requires block { k < 4 }
        requires rounds { t + 2 ≤ 64 }
        ensures { (b h : List ℕ) → HasColumn b words.now k → IsBehind h b t self → IsBehind h b (t + 2) result }
    {
        self.behind_round(words, k, t).behind_round(words, k, t + 1)
    }

    /// The variables behind eight rounds more, in which each variable is made anew twice.
    #[inline(always)]
    fn behind_eight(self, words: &[u32; 256], k: usize, t: usize) -> Variables
        requires block { k < 4 }
        requires rounds { t + 8 ≤ 64 }
        ensures { (b h : List ℕ) → HasColumn b words.now k → IsBehind h b t self → IsBehind h b (t + 8) result }
    {
        self.behind_two(words, k, t)
            .behind_two(words, k, t + 2)
            .behind_two(words, k, t + 4)
            .behind_two(words, k, t + 6)
    }

    /// Each variable added to that of the hash value before (6.2.2, step 4).
    #[inline(always)]
    fn added_to(self, hash: &[u32; 8]) -> [u32; 8]
        ensures { result ≡ add_state hash.now (listed self) }
    {
        [
            hash[0].wrapping_add(self.a),
            hash[1].wrapping_add(self.b),
            hash[2].wrapping_add(self.c),
            hash[3].wrapping_add(self.d),
            hash[4].wrapping_add(self.e),
            hash[5].wrapping_add(self.f),
            hash[6].wrapping_add(self.g),
            hash[7].wrapping_add(self.h),
        ]
    }
}

/// Puts the hash value behind block `k` in place of the one before it.
pub(crate) fn compressed(hash: &mut [u32; 8], words: &[u32; 256], k: usize)
    requires { k < 4 }
    ensures { (b : List ℕ) → HasColumn b words.now k → hash.new ≡ compress hash.old b }
{
    let mut variables = Variables::of(*hash);
    for eight in 0..8 {
        variables = variables.behind_eight(words, k, 8 * eight);
    }
    *hash = variables.added_to(hash);
}
