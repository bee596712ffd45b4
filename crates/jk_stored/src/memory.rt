//! A file in memory.

use crate::stored::Stored;
use jk_math::Fault;

/// A file in memory, which keeps its bytes.
#[derive(Drop)]
pub struct MemoryStored {
    bytes: Vec<u8>,
}

impl MemoryStored {
    ghost use Rattle.std.specs.Prelude.{◌≡◌};

    /// A file of these bytes.
    pub fn new(bytes: Vec<u8>) -> MemoryStored
        ensures { result.bytes ≡ bytes }
    {
        MemoryStored { bytes }
    }

    /// How many bytes it has.
    pub fn size(&self) -> usize {
        self.bytes.len()
    }
}

impl Stored for MemoryStored {
    ghost use Rattle.std.specs.Prelude.{◌≡◌};

    ghost keeps = { λ s f. s.bytes.items ≡ f };

    fn read_at(&self, start: usize, room: &mut [u8]) -> Result<usize, Fault> {
        let from = start.min(self.bytes.len());
        let rest = &self.bytes[from..];
        let count = rest.len().min(room.len());
        room[..count].copy_from_slice(&rest[..count]);
        Ok(count)
    }
}
