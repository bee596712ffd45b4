//! Blocks of a message, four at a time.

ghost use Rattle.std.specs.Prelude.{◌≡◌, ◌+◌, ◌*◌, ◌≤◌, length};
ghost use Rattle.sha2.specs.Sha256.{hash_after};
ghost use Rattle.jk_digest.specs.Schedules.{message_block};

use crate::rounds::compressed;
use crate::schedule::schedules;

/// How many bytes a block has.
pub(crate) const BLOCK: usize = 64;

/// A block of a message.
#[inline(always)]
pub(crate) fn block(message: &[u8], number: usize) -> &[u8]
    requires { (number + 1) * 64 ≤ length message.now }
    ensures block { result.now ≡ message_block message.now number }
    ensures whole { length result.now ≡ 64 }
{
    &message[BLOCK * number..BLOCK * (number + 1)]
}

/// Puts the hash value behind the first blocks of four in place of the one before them (6.2.2).
/// `words` is room that is written.
pub(crate) fn absorbed(hash: &mut [u32; 8], blocks: &[u8], count: usize, words: &mut [u32; 256])
    requires four { length blocks.now ≡ 256 }
    requires few { count ≤ 4 }
    ensures { hash.new ≡ hash_after hash.old blocks.now count }
{
    schedules(
        block(blocks, 0),
        block(blocks, 1),
        block(blocks, 2),
        block(blocks, 3),
        words,
    );
    for k in 0..count {
        compressed(hash, words, k);
    }
}
