//! The parts of a file, and their digests.

ghost use Rattle.std.specs.Prelude.{◌≡◌, ◌+◌, ◌<◌, ◌≤◌, length, IfOk, IfErr, OnOk};
ghost use Rattle.jk_math.specs.Memory.{IsMemory};
ghost use Rattle.jk_store.specs.Parts.{first_digests, file_part, part_count, part_digests};

use jk_digest::{sha256, sha256_of_four};
use jk_math::Fault;
use std::alloc::Global;

/// How many bytes a part of a file has; the last one may have fewer.
pub(crate) const PART_SIZE: usize = 1 << 14;

/// A part of a file.
fn part(bytes: &[u8], number: usize) -> &[u8]
    requires { number < part_count (length bytes.now) }
    ensures { result.now ≡ file_part number bytes.now }
{
    let rest = &bytes[number * PART_SIZE..];
    &rest[..PART_SIZE.min(rest.len())]
}

/// Puts the digests of four parts behind those of the parts before them.
fn push_four(digests: &mut Vec<[u8; 32]>, bytes: &[u8], first: usize) -> Result<(), Fault>
    requires within { first + 4 ≤ part_count (length bytes.now) }
    ensures ok { digests.old.items ≡ first_digests first bytes.now
        → OnOk result (digests.new.items ≡ first_digests (first + 4) bytes.now) }
    ensures err { IfErr result IsMemory }
{
    let four = sha256_of_four(
        part(bytes, first),
        part(bytes, first + 1),
        part(bytes, first + 2),
        part(bytes, first + 3),
    );
    digests.extend_from_slice(&four)?;
    Ok(())
}

/// The digests of the parts of a file, in order.
pub(crate) fn part_digests(alloc: Global, bytes: &[u8]) -> Result<Vec<[u8; 32]>, Fault>
    ensures ok { IfOk result (λ v. v.items ≡ part_digests bytes.now) }
    ensures err { IfErr result IsMemory }
{
    let count = bytes.len().div_ceil(PART_SIZE);
    let mut digests = Vec::with_capacity(alloc, count)?;
    let fours = bytes.len() / (4 * PART_SIZE);
    for four in 0..fours {
        push_four(&mut digests, bytes, 4 * four)?;
    }
    for number in 4 * fours..count {
        digests.push(sha256(part(bytes, number)))?;
    }
    Ok(digests)
}
