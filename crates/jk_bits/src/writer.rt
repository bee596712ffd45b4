//! Bits into stuffed bytes (T.800 B.10.1).

ghost use Rattle.std.specs.Prelude.{◌≡◌, if◌then◌else◌, ◌++◌, [], ◌∷◌, Err, false, true, IfOk, MatchResult, length};
ghost use Rattle.std.specs.Prelude.{take, Ok, List, ℕ};
ghost use Rattle.jk_math.specs.Memory.{IsMemory};
ghost use Rattle.jk_bits.specs.Stuffing.{Packs, spread, size, stuffed};

use crate::room::room_after;
use jk_math::{Fault, Refused};
use std::alloc::Global;
use std::marker::Model;

/// Packs bits into stuffed bytes, the highest of a byte first.
#[derive(Drop)]
pub struct BitWriter {
    bytes: Vec<u8>,
    byte: u8,
    begun: u8,
    room: u8,
    refused: Option<Refused>,
}

impl Model for BitWriter {
    ghost use Rattle.std.specs.Prelude.{◌++◌, false, is_some};
    ghost use Rattle.jk_bits.specs.Stuffing.{binary, spread};
    ghost use Rattle.jk_bits.specs.Writing.{Written, IsWriting};

    ghost Value = { Written };

    ghost view = { λ w. record {
      bits = spread false w.bytes.items ++ binary w.begun w.byte;
      failed = is_some w.refused;
    } };

    ghost invariant = { λ w. IsWriting w.bytes.items w.byte w.begun w.room };
}

/// A bit as a number.
fn digit(bit: bool) -> u8
    ensures { result ≡ (if bit then 1 else 0) }
{
    bit as u8
}

impl BitWriter {
    /// A writer of no bits yet.
    pub fn new(alloc: Global) -> BitWriter
        ensures { result ≡ record { bits = []; failed = false } }
    {
        BitWriter {
            bytes: Vec::new(alloc),
            byte: 0,
            begun: 0,
            room: 8,
            refused: None,
        }
    }

    /// Writes one bit. After `Memory` the writer answers `Memory` for ever.
    pub fn push(&mut self, bit: bool) -> Result<(), Fault>
        ensures { MatchResult result
            (λ _. (self.old.failed ≡ false) × (self.new ≡ record self.old { bits = self.old.bits ++ bit ∷ [] }))
            (λ e. IsMemory e × (self.new ≡ record self.old { failed = true })) }
    {
        if let Some(refused) = self.refused {
            return Err(Fault::Memory(refused));
        }
        let byte = self.byte * 2 + digit(bit);
        if self.begun + 1 < self.room {
            self.byte = byte;
            self.begun += 1;
            return Ok(());
        }
        match self.bytes.push(byte) {
            Ok(()) => {
                self.room = room_after(byte);
                self.byte = 0;
                self.begun = 0;
                Ok(())
            }
            Err(error) => {
                let refused = Refused::from(error);
                self.refused = Some(refused);
                Err(Fault::Memory(refused))
            }
        }
    }

    /// The bytes of the bits written, the rest of the last one 0. They never end in FF.
    pub fn finish(mut self) -> Result<Vec<u8>, Fault>
        ensures exact { MatchResult result
            (λ v. (self.failed ≡ false) × (v.items ≡ stuffed self.bits)) (λ e. IsMemory e) }
        ensures packs { IfOk result (λ v. Packs false self.bits v.items) }
        ensures back { IfOk result (λ v. (rest : List ℕ)
            → (take (length self.bits) (spread false (v.items ++ rest)) ≡ self.bits)
            × (size false (length self.bits) (v.items ++ rest) ≡ Ok (length v.items))) }
    {
        if let Some(refused) = self.refused {
            return Err(Fault::Memory(refused));
        }
        if self.begun == 0 && self.room == 8 {
            return Ok(self.bytes);
        }
        self.bytes.push(self.byte << (self.room - self.begun))?;
        Ok(self.bytes)
    }
}
