//! The registers of the encoder: as T.800 has them, and with their doublings put off until a byte
//! is due. No branch hangs on a decision: half of them can't be foreseen.

ghost use Rattle.std.specs.Prelude.{◌≡◌, ℕ, ◌+◌, ◌-◌, ◌*◌, ◌/◌, ◌^◌, ◌<◌, ◌≤◌, true, not, nat_lt, if◌then◌else◌};
ghost use Rattle.std.specs.Prelude.{IfSome, IsNone};
ghost use Rattle.std.specs.Bool.{beq};
ghost use Rattle.jk_model.specs.Contexts.{row_of};
ghost use Rattle.jk_mqenc.specs.Deferred.{IsDoubled};

use jk_model::{Step, chosen, highest_bit, kept};
use std::marker::Model;

/// The registers C, A and CT of T.800 C.2.
#[derive(Clone, Copy)]
pub struct Registers {
    /// C, the low end of the interval.
    pub code: u32,
    /// A, the width of the interval.
    pub width: u32,
    /// CT, how many doublings there are before the next byte.
    pub count: u32,
}

/// The same between two decisions, with doublings put off. C and A are 64 bits wide, and A has its
/// highest bit as many places below 51 as doublings are put off.
#[derive(Drop)]
pub struct DeferredRegisters {
    code: u64,
    width: u64,
    /// CT before those doublings.
    count: u32,
    /// The least width of which no byte is due.
    least: u64,
}

impl Model for DeferredRegisters {
    ghost use Rattle.jk_mqenc.specs.declared.registers.Registers.{Registers};
    ghost use Rattle.jk_mqenc.specs.Deferred.{registers_at, scale_of, IsDeferred};

    ghost Value = { Registers };

    ghost view = { λ r. registers_at (scale_of r.width) r.code r.width r.count };

    ghost invariant = { λ r. IsDeferred r.code r.width r.count r.least };
}

/// The subinterval that a decision takes (CODEMPS and CODELPS, T.800 C.2.4), at the scale of the
/// interval, whose width has its highest bit at the place `top`.
#[derive(Drop)]
pub struct Subinterval {
    code: u64,
    width: u64,
    count: u32,
    least: u64,
    top: u32,
}

impl Model for Subinterval {
    ghost use Rattle.std.specs.Prelude.{◌-◌};
    ghost use Rattle.jk_mqenc.specs.declared.registers.Registers.{Registers};
    ghost use Rattle.jk_mqenc.specs.Deferred.{registers_at, IsTaken};

    ghost Value = { Registers };

    ghost view = { λ r. registers_at (r.top - 15) r.code r.width r.count };

    ghost invariant = { λ r. IsTaken (r.top - 15) r.code r.width r.count r.least };
}

/// What the width of a whole interval stays below.
const LIMIT: u64 = 0x10_0000_0000_0000;

impl DeferredRegisters {
    /// Registers of which no doubling is put off, the width at the scale of those that put them off.
    #[inline(always)]
    fn begun(code: u32, width: u64, count: u32) -> DeferredRegisters
        requires code { code < 2 ^ 28 }
        requires whole { width ≡ width / 2 ^ 36 * 2 ^ 36 }
        requires wide { 2 ^ 51 ≤ width }
        requires fits { width < 2 ^ 52 }
        requires some { 1 ≤ count }
        requires few { count ≤ 12 }
        ensures { result ≡ record { code = code; width = width / 2 ^ 36; count = count } }
    {
        DeferredRegisters {
            code: (code as u64) << 36,
            width,
            count,
            least: LIMIT >> count,
        }
    }

    /// Registers of which no doubling is put off.
    #[inline(always)]
    pub fn new(registers: Registers) -> DeferredRegisters
        requires code { registers.code < 2 ^ 28 }
        requires wide { 2 ^ 15 ≤ registers.width }
        requires fits { registers.width < 2 ^ 16 }
        requires some { 1 ≤ registers.count }
        requires few { registers.count ≤ 12 }
        ensures { result ≡ registers }
    {
        DeferredRegisters::begun(
            registers.code,
            (registers.width as u64) << 36,
            registers.count,
        )
    }

    /// The registers after the doublings that are put off.
    #[inline(always)]
    pub fn caught_up(self) -> Registers
        requires { self.code < 2 ^ 32 }
        ensures { result ≡ self }
    {
        let zeros = self.width.leading_zeros();
        Registers {
            code: (self.code >> (48 - zeros)) as u32,
            width: (self.width >> (48 - zeros)) as u32,
            count: self.count + 12 - zeros,
        }
    }

    /// The subinterval that a decision takes, where it is for the less probable symbol or not. The
    /// less probable symbol has the smaller subinterval: of the size Qe, or what is left where that
    /// is less.
    #[inline(always)]
    pub fn taken(self, context: Step, less: bool) -> Subinterval
        requires { 8 * (self.code + self.width) ≤ 9 * 2 ^ (27 - self.count) }
        ensures code { result.code
            ≡ self.code + (if not (beq less (nat_lt (self.width - (row_of context.state).qe) (row_of context.state).qe))
            then 0 else (row_of context.state).qe) }
        ensures width { result.width
            ≡ (if not (beq less (nat_lt (self.width - (row_of context.state).qe) (row_of context.state).qe))
            then (row_of context.state).qe else self.width - (row_of context.state).qe) }
        ensures count { result.count ≡ self.count }
        ensures narrow { less ≡ true → result.width < 2 ^ 15 }
        ensures smallest { 1 ≤ (row_of context.state).qe }
        ensures largest { (row_of context.state).qe < self.width }
    {
        let top = highest_bit(self.width);
        let size = context.scaled(top);
        let upper = self.width - size;
        let lower = less != (upper < size);
        Subinterval {
            code: self.code + kept(!lower, size),
            width: chosen(lower, size, upper),
            count: self.count,
            least: self.least,
            top,
        }
    }
}

impl Subinterval {
    /// 1 where no renormalisation is due, else 0.
    #[inline(always)]
    pub fn wide(&self) -> u64
        ensures { result ≡ (if nat_lt self.now.width (2 ^ 15) then 0 else 1) }
    {
        self.width >> self.top
    }

    /// The registers of the subinterval, if no byte is due: its doublings are put off.
    #[inline(always)]
    pub fn deferred(&self) -> Option<DeferredRegisters>
        ensures doubled { IfSome result (λ r. IsDoubled self.now r) }
        ensures due { IsNone result → self.now.width * 2 ^ self.now.count < 2 ^ 16 }
    {
        if self.width < self.least {
            return None;
        }
        Some(DeferredRegisters {
            code: self.code,
            width: self.width,
            count: self.count,
            least: self.least,
        })
    }

    /// C where the next byte goes out: after CT doublings.
    #[inline(always)]
    pub fn code_at_byte(&self) -> u32
        requires { self.now.code * 2 ^ self.now.count < 2 ^ 32 }
        ensures { result ≡ self.now.code * 2 ^ self.now.count }
    {
        (self.code >> (36 - self.count)) as u32
    }

    /// How many doublings are due behind the next byte, if it is due.
    #[inline(always)]
    pub fn doublings_behind_byte(&self) -> u32
        requires { self.now.width * 2 ^ self.now.count < 2 ^ 16 }
        ensures fits { self.now.width * 2 ^ (self.now.count + result) < 2 ^ 16 }
        ensures wide { 2 ^ 15 ≤ self.now.width * 2 ^ (self.now.count + result) }
    {
        self.width.leading_zeros() - 12 - self.count
    }

    /// The registers after all doublings that are due, with what C and CT are then.
    #[inline(always)]
    pub fn renormalised(self, code: u32, count: u32) -> DeferredRegisters
        requires code { code < 2 ^ 28 }
        requires some { 1 ≤ count }
        requires few { count ≤ 12 }
        ensures { (times : ℕ) → self.width * 2 ^ times < 2 ^ 16 → 2 ^ 15 ≤ self.width * 2 ^ times
            → result ≡ record { code = code; width = self.width * 2 ^ times; count = count } }
    {
        DeferredRegisters::begun(code, self.width << (self.width.leading_zeros() - 12), count)
    }
}
