//! Parts of files whose digests were made before.

ghost use Rattle.std.specs.Prelude.{◌≡◌, ◌≤◌, length, true, false, IfSome};
ghost use Rattle.sha2.specs.Sha256.{sha256};

use crate::entry::has_digest;
use std::alloc::Global;

/// How many parts are kept.
const MOST: usize = 256;

/// Bytes and their SHA-256.
#[derive(Drop)]
pub(crate) struct HashedPart {
    pub(crate) digest: [u8; 32],
    pub(crate) bytes: Vec<u8>,
    ghost right: { sha256 bytes.items ≡ digest },
}

/// Parts of files with their digests, so many at most: those that were hashed last. Bytes that are the
/// same as such a part have its digest, which isn't made again.
#[derive(Drop)]
pub struct HashedParts {
    alloc: Global,
    most: usize,
    parts: Vec<HashedPart>,
    /// Which is replaced next.
    oldest: usize,
    ghost bound: { most ≤ 256 },
    ghost few: { length parts.items ≤ most },
}

impl HashedParts {
    /// No part, where up to 256 are kept: four mebibytes.
    pub fn new(alloc: Global) -> HashedParts
        ensures { result.most ≡ 256 }
    {
        HashedParts {
            alloc,
            most: MOST,
            parts: Vec::new(alloc),
            oldest: 0,
        }
    }

    /// No part, where none is kept.
    pub fn none(alloc: Global) -> HashedParts
        ensures { result.most ≡ 0 }
    {
        HashedParts {
            alloc,
            most: 0,
            parts: Vec::new(alloc),
            oldest: 0,
        }
    }

    /// The part of a digest.
    fn find(&self, digest: &[u8; 32]) -> Option<&HashedPart>
        ensures { IfSome result (λ p. p.now.digest ≡ digest.now) }
    {
        for part in &self.parts {
            if part.digest == *digest {
                return Some(part);
            }
        }
        None
    }

    /// Whether bytes are a part that is kept, of this digest.
    fn has(&self, bytes: &[u8], digest: &[u8; 32]) -> bool
        ensures { result ≡ true → sha256 bytes.now ≡ digest.now }
    {
        match self.find(digest) {
            Some(part) => part.bytes.as_slice() == bytes,
            None => false,
        }
    }

    /// Keeps a part, in place of the oldest one where there are as many as may be kept.
    fn put(&mut self, part: HashedPart) {
        if self.parts.len() < self.most {
            let _ = self.parts.push(part);
            return;
        }
        if let Some(place) = self.parts.get_mut(self.oldest) {
            *place = part;
            let next = self.oldest.wrapping_add(1);
            self.oldest = if next < self.most { next } else { 0 };
        }
    }

    /// Keeps bytes with their digest, if memory allows.
    fn keep(&mut self, bytes: &[u8], digest: &[u8; 32])
        requires { sha256 bytes.now ≡ digest.now }
    {
        if self.most == 0 {
            return;
        }
        if let Ok(bytes) = Vec::from_slice(self.alloc, bytes) {
            self.put(HashedPart {
                digest: *digest,
                bytes,
            });
        }
    }

    /// Whether bytes have a digest. Those that have it are kept.
    pub(crate) fn judge(&mut self, bytes: &[u8], digest: &[u8; 32]) -> bool
        ensures yes { result ≡ true → sha256 bytes.now ≡ digest.now }
        ensures no { result ≡ false → sha256 bytes.now ≡ digest.now → ⊥ }
    {
        if self.has(bytes, digest) {
            return true;
        }
        if !has_digest(bytes, digest) {
            return false;
        }
        self.keep(bytes, digest);
        true
    }
}
