//! The registers of the encoder, and the bytes that it has placed.

ghost use Rattle.std.specs.Prelude.{◌≡◌, ℕ, List, ◌+◌, ◌-◌, ◌*◌, ◌^◌, ◌<◌, ◌≤◌, [], ◌∷◌, IfOk, None, IsNone, length};
ghost use Rattle.std.specs.Prelude.{if◌then◌else◌};
ghost use Rattle.jk_model.specs.Decisions.{State};
ghost use Rattle.jk_mqenc.specs.Machine.{Machine, HoldsInterval, byte_out, placed_after};
ghost use Rattle.jk_mqenc.specs.Holding.{before};
ghost use Rattle.jk_model.specs.Placed.{onto};
ghost use Rattle.jk_mqenc.specs.Encoded.{started, without_last_ff, with_registers};
ghost use Rattle.jk_mqenc.specs.Coding.{renorme, set_bits, pushed_out, flushed};

use crate::registers::{DeferredRegisters, Registers, Subinterval};
use jk_math::Refused;
use std::alloc::Global;
use std::marker::Model;

/// The registers C, A and CT of T.800 C.2, the bytes that are written, and the last one, which a
/// carry may still reach.
#[derive(Drop)]
pub struct Coder {
    code: u32,
    width: u32,
    count: u32,
    out: Vec<u8>,
    held: Option<u8>,
}

impl Model for Coder {
    ghost use Rattle.jk_mqenc.specs.Machine.{Machine};
    ghost use Rattle.jk_mqenc.specs.Holding.{placed_of, IsBegun};

    ghost Value = { Machine };

    ghost view = { λ c. record {
      code = c.code;
      width = c.width;
      count = c.count;
      placed = placed_of c.out.items c.held;
    } };

    ghost invariant = { λ c. IsBegun c.out.items c.held };
}

/// What BYTEOUT makes of C and of the held byte.
#[derive(Clone, Copy)]
struct Placement {
    /// The held byte with its carry, which goes out.
    out: Option<u8>,
    /// The byte that is held now.
    byte: u8,
    code: u32,
    count: u32,
}

/// The byte that is placed after an FF: seven new bits.
fn after_ff(out: Option<u8>, code: u32) -> Placement
    requires { code < 150994944 }
    ensures out { result.out ≡ out }
    ensures byte { result.byte * 2 ^ 20 + result.code ≡ code }
    ensures code { result.code < 2 ^ 20 }
    ensures count { result.count ≡ 7 }
{
    Placement {
        out,
        byte: (code >> 20) as u8,
        code: code & 0xFFFFF,
        count: 7,
    }
}

/// The byte that is placed after any other byte.
fn plain(out: Option<u8>, code: u32) -> Placement
    requires { code < 2 ^ 27 }
    ensures out { result.out ≡ out }
    ensures byte { result.byte * 2 ^ 19 + result.code ≡ code }
    ensures code { result.code < 2 ^ 19 }
    ensures count { result.count ≡ 8 }
{
    Placement {
        out,
        byte: (code >> 19) as u8,
        code: code & 0x7FFFF,
        count: 8,
    }
}

/// BYTEOUT (T.800 C.2.7), on C and on the held byte.
fn placing(held: Option<u8>, code: u32) -> Placement
    requires room { code < 150994944 }
    requires first { IsNone held → code < 2 ^ 27 }
    ensures kept { result.out ≡ None → held ≡ None }
    ensures placed { (o : List ℕ) (w : ℕ) → placed_after (before held o) code w
        ≡ record { code = result.code; width = w; count = result.count; placed = result.byte ∷ before result.out o } }
{
    match held {
        None => plain(held, code),
        Some(byte) => {
            if byte == 0xFF {
                return after_ff(held, code);
            }
            let carried = byte + (code >> 27) as u8;
            let rest = code % (1 << 27);
            if carried == 0xFF {
                after_ff(Some(carried), rest)
            } else {
                plain(Some(carried), rest)
            }
        }
    }
}

impl Coder {
    /// INITENC (T.800 C.2.8).
    pub fn new(alloc: Global) -> Coder
        ensures { result ≡ started }
    {
        Coder {
            code: 0,
            width: 0x8000,
            count: 12,
            out: Vec::new(alloc),
            held: None,
        }
    }

    /// How many bytes are placed. The held one is counted.
    pub fn written(&self) -> usize
        ensures { result ≡ length self.now.placed }
    {
        match self.held {
            None => 0,
            Some(_) => self.out.len() + 1,
        }
    }

    /// BYTEOUT (T.800 C.2.7) of this C. The registers that are kept here stay as they are.
    #[inline(always)]
    fn put(&mut self, code: u32) -> Result<Placement, Refused>
        requires room { code < 150994944 }
        requires first { self.old.placed ≡ [] → code < 2 ^ 27 }
        ensures rest { IfOk result (λ _. self.new ≡ record self.old { placed = self.new.placed }) }
        ensures placed { IfOk result (λ p. (w : ℕ) → placed_after self.old.placed code w
            ≡ record { code = p.code; width = w; count = p.count; placed = self.new.placed }) }
    {
        let placement = placing(self.held, code);
        if let Some(byte) = placement.out {
            self.out.push(byte)?;
        }
        self.held = Some(placement.byte);
        Ok(placement)
    }

    /// BYTEOUT (T.800 C.2.7).
    #[inline(always)]
    fn place(&mut self) -> Result<(), Refused>
        requires room { self.old.code < 150994944 }
        requires first { self.old.placed ≡ [] → self.old.code < 2 ^ 27 }
        ensures done { IfOk result (λ _. self.new ≡ byte_out self.old) }
    {
        let placement = self.put(self.code)?;
        self.code = placement.code;
        self.count = placement.count;
        Ok(())
    }

    /// The registers.
    #[inline(always)]
    pub fn registers(&self) -> Registers
        ensures { with_registers self.now result ≡ self.now }
    {
        Registers {
            code: self.code,
            width: self.width,
            count: self.count,
        }
    }

    /// Other registers over the same bytes.
    #[inline(always)]
    pub fn restore(&mut self, registers: Registers)
        ensures { self.new ≡ with_registers self.old registers }
    {
        self.code = registers.code;
        self.width = registers.width;
        self.count = registers.count;
    }

    /// RENORME of a subinterval of which a byte is due. C and CT don't go through those that are kept
    /// here.
    #[inline(always)]
    fn through(&mut self, taken: Subinterval) -> Result<DeferredRegisters, Refused>
        requires count { 1 ≤ taken.count }
        requires due { taken.width * 2 ^ taken.count < 2 ^ 16 }
        requires holds { (s : State) × HoldsInterval (with_registers self.old taken) s }
        ensures done { IfOk result (λ r. with_registers self.new r
            ≡ renorme 15 (with_registers self.old taken)) }
    {
        let mut due = taken.doublings_behind_byte();
        let mut placed = self.put(taken.code_at_byte())?;
        while due >= placed.count {
            due -= placed.count;
            placed = self.put(placed.code << placed.count)?;
        }
        Ok(taken.renormalised(placed.code << due, placed.count - due))
    }

    /// A subinterval, renormalised (RENORME, T.800 C.2.6). These are the registers over the bytes,
    /// and not those that are kept here.
    #[inline(always)]
    pub fn code(&mut self, taken: Subinterval) -> Result<DeferredRegisters, Refused>
        requires count { 1 ≤ taken.count }
        requires holds { (s : State) × HoldsInterval (with_registers self.old taken) s }
        ensures done { IfOk result (λ r. with_registers self.new r
            ≡ renorme 15 (with_registers self.old taken)) }
    {
        if let Some(registers) = taken.deferred() {
            return Ok(registers);
        }
        self.through(taken)
    }

    /// `C <<= CT`, and BYTEOUT.
    fn push_out(&mut self) -> Result<(), Refused>
        requires width { self.old.width ≡ 1 }
        requires holds { (s : State) × HoldsInterval self.old s }
        ensures done { IfOk result (λ _. self.new ≡ pushed_out self.old) }
    {
        self.code <<= self.count;
        self.width = 1 << self.count;
        self.count = 0;
        self.place()
    }

    /// The bytes at the end (FLUSH, T.800 C.2.9). A last byte FF is left off.
    pub fn finish(mut self) -> Result<Vec<u8>, Refused>
        requires count { 1 ≤ self.count }
        requires width { 2 ^ 15 ≤ self.width }
        requires holds { (s : State) × HoldsInterval self s }
        ensures bytes { IfOk result (λ v. v.items ≡ onto (without_last_ff (flushed self).placed) []) }
    {
        self.code = set_bits(self.code, self.width);
        self.width = 1;
        self.push_out()?;
        self.width = 1;
        self.push_out()?; // the second of two bytes
        if let Some(byte) = self.held {
            if byte != 0xFF {
                self.out.push(byte)?;
            }
        }
        Ok(self.out)
    }
}

/// C with as many of its last bits set as the interval allows (SETBITS).
#[tactic(auto, unfolding(crate::specs::Coding::set_bits))]
fn set_bits(code: u32, width: u32) -> u32
    requires { code + width < 2 ^ 29 }
    ensures { result ≡ set_bits code width }
{
    let all = (code >> 16 << 16) + 0xFFFF;
    if code + width <= all {
        all - 0x8000
    } else {
        all
    }
}
