//! The front of an input, which is kept to explain why it was rejected.

use std::alloc::Global;

/// How many bytes are kept at most.
const KEPT: usize = 1 << 16;

/// The front of an input, and how many bytes it has.
#[derive(Drop)]
pub struct Front {
    bytes: Vec<u8>,
    size: u64,
}

impl Front {
    /// Of an input of which nothing was read.
    pub fn new(alloc: Global) -> Front {
        Front {
            bytes: Vec::new(alloc),
            size: 0,
        }
    }

    /// Of an input with these bytes.
    pub fn of(alloc: Global, bytes: &[u8]) -> Front {
        let mut front = Front::new(alloc);
        front.add(bytes);
        front
    }

    /// More bytes of it were read. Those that there is no memory for are counted and not kept.
    pub fn add(&mut self, bytes: &[u8]) {
        let room = KEPT.saturating_sub(self.bytes.len());
        if room > 0 {
            let more = &bytes[..room.min(bytes.len())];
            let _ = self.bytes.extend_from_slice(more);
        }
        self.size = self.size.saturating_add(bytes.len() as u64);
    }

    /// The bytes that are kept.
    pub fn bytes(&self) -> &[u8] {
        self.bytes.as_slice()
    }

    /// How many bytes the input has.
    pub fn size(&self) -> u64 {
        self.size
    }
}
