//! Bits out of stuffed bytes (T.800 B.10.1).

ghost use Rattle.std.specs.Prelude.{◌≡◌, ℕ, ◌+◌, ◌<◌, ◌≤◌, ◌==◌, ◌++◌, Bool, List, false, true, length, take, drop};
ghost use Rattle.std.specs.Prelude.{IfOk, OnErr, Ok};
ghost use Rattle.jk_math.specs.Answer.{Reads};
ghost use Rattle.jk_bits.specs.Stuffing.{Packs, first_byte};
ghost use Rattle.jk_bits.specs.Reading.{ahead, bit_at, end_from, finish_at, given};

use crate::room::{FULL, room_after};
use jk_math::Fault;
use std::marker::Model;

/// Reads bits from the front of stuffed bytes, the highest of a byte first.
#[derive(Drop)]
pub struct BitReader<'a> {
    bytes: &'a [u8],
    position: usize,
    byte: u8,
    left: u8,
    failed: Option<Fault>,
}

impl<'a> Model for BitReader<'a> {
    ghost use Rattle.std.specs.Prelude.{is_some};
    ghost use Rattle.jk_bits.specs.Reading.{Bits, read_of, IsReading};

    ghost Value = { Bits };

    ghost view = { λ r. record {
      bytes = r.bytes.now;
      read = read_of r.bytes.now r.position r.byte r.left;
      failed = is_some r.failed;
    } };

    ghost invariant = { λ r. IsReading r.bytes.now r.position r.byte r.left r.failed };
}

/// The byte at `position`; `before` is the one before it.
#[tactic(auto, using(crate::proofs::Spreading::first_byte_past, crate::proofs::Spreading::first_byte_at))]
fn next_byte(bytes: &[u8], position: usize, before: u8) -> Result<u8, Fault>
    ensures { result ≡ first_byte (before == 255) (drop position bytes.now) }
{
    if position >= bytes.len() {
        return Err(Fault::Truncated);
    }
    let byte = bytes[position];
    if before == FULL && byte >= 0x80 {
        return Err(Fault::PacketHeader);
    }
    Ok(byte)
}

/// The place behind `byte`, which stands before `position`, and the byte that is stuffed behind it.
#[tactic(auto, unfolding(crate::specs::Stuffing::size))]
fn end_of(bytes: &[u8], position: usize, byte: u8) -> Result<usize, Fault>
    requires { position ≤ length bytes.now }
    ensures { result ≡ end_from bytes.now position byte }
{
    if byte != FULL {
        return Ok(position);
    }
    match next_byte(bytes, position, byte) {
        Ok(_) => Ok(position + 1),
        Err(fault) => Err(fault),
    }
}

impl<'a> BitReader<'a> {
    /// A reader at the first bit of `bytes`.
    pub fn new(bytes: &'a [u8]) -> BitReader<'a>
        ensures made { result ≡ record { bytes = bytes.now; read = 0; failed = false } }
        ensures texts { (bits : List Bool) (text rest : List ℕ) → bytes.now ≡ text ++ rest
            → Packs false bits text → take (length bits) (ahead result) ≡ bits }
    {
        BitReader {
            bytes,
            position: 0,
            byte: 0,
            left: 0,
            failed: None,
        }
    }

    /// The next bit.
    ///
    /// `Truncated` where the bytes end before it, `PacketHeader` where a stuffed bit before it is
    /// 1.
    pub fn bit(&mut self) -> Result<bool, Fault>
        ensures exact { Reads bit_at self.old self.new result }
        ensures failed { OnErr result (self.new ≡ record self.old { failed = true }) }
    {
        if self.left == 0 {
            match next_byte(self.bytes, self.position, self.byte) {
                Ok(byte) => {
                    self.left = room_after(self.byte);
                    self.byte = byte;
                    self.position += 1;
                }
                Err(fault) => {
                    self.failed = Some(fault);
                    return Err(fault);
                }
            }
        }
        self.left -= 1;
        Ok(self.byte >> self.left & 1 == 1)
    }

    /// How many bytes hold the bits read so far, with their padding and the byte that is stuffed
    /// behind a last byte FF.
    ///
    /// `Truncated` where that byte is missing, `PacketHeader` where its stuffed bit is 1, and the
    /// fault of `bit` where that has failed.
    pub fn finish(self) -> Result<usize, Fault>
        ensures exact { result ≡ finish_at self.entry }
        ensures found { IfOk result (λ n. Packs false (given self.entry) (take n self.entry.bytes)) }
        ensures only { self.entry.failed ≡ false → (n : ℕ) → n ≤ length self.entry.bytes
            → Packs false (given self.entry) (take n self.entry.bytes) → result ≡ Ok n }
    {
        match self.failed {
            Some(fault) => Err(fault),
            None => end_of(self.bytes, self.position, self.byte),
        }
    }
}
