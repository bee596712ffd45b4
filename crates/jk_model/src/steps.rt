//! The contexts of a coder, each one number, and their moves by a table.

ghost use Rattle.std.specs.Prelude.{◌≡◌, ◌+◌, ◌-◌, ◌*◌, ◌^◌, ◌<◌, ◌≤◌, ◌==◌, not, true, false, if◌then◌else◌};
ghost use Rattle.std.specs.Prelude.{slice_index};
ghost use Rattle.jk_model.specs.Contexts.{row_of, moved, begins, first_contexts};
ghost use Rattle.jk_model.specs.Steps.{steps, context_of, IsEntry};

use std::marker::Model;

/// The moves of all contexts (T.800 Table C.2): a row for each state and symbol, and in it the
/// context as it is, after a more probable symbol, and after a less probable one.
///
/// An entry has Qe in its upper fifteen bits, the more probable symbol in bit 31, and the place of
/// its own row in the lower sixteen bits.
#[rattlefmt::skip]
static STEPS: [u64; 282] = [
    0xAC02_0000_0000_0000, 0x6802_0000_0000_0006, 0x6802_0000_8000_0009,
    0xAC02_0000_8000_0003, 0x6802_0000_8000_0009, 0x6802_0000_0000_0006,
    0x6802_0000_0000_0006, 0x3002_0000_0000_000C, 0xAC02_0000_0000_0024,
    0x6802_0000_8000_0009, 0x3002_0000_8000_000F, 0xAC02_0000_8000_0027,
    0x3002_0000_0000_000C, 0x1582_0000_0000_0012, 0x7002_0000_0000_0036,
    0x3002_0000_8000_000F, 0x1582_0000_8000_0015, 0x7002_0000_8000_0039,
    0x1582_0000_0000_0012, 0x0A42_0000_0000_0018, 0x3802_0000_0000_0048,
    0x1582_0000_8000_0015, 0x0A42_0000_8000_001B, 0x3802_0000_8000_004B,
    0x0A42_0000_0000_0018, 0x0442_0000_0000_001E, 0x2202_0000_0000_00AE,
    0x0A42_0000_8000_001B, 0x0442_0000_8000_0021, 0x2202_0000_8000_00B1,
    0x0442_0000_0000_001E, 0x0222_0000_0000_00E4, 0x0A42_0000_0000_00C6,
    0x0442_0000_8000_0021, 0x0222_0000_8000_00E7, 0x0A42_0000_8000_00C9,
    0xAC02_0000_0000_0024, 0xA802_0000_0000_002A, 0xAC02_0000_8000_0027,
    0xAC02_0000_8000_0027, 0xA802_0000_8000_002D, 0xAC02_0000_0000_0024,
    0xA802_0000_0000_002A, 0x9002_0000_0000_0030, 0xAC02_0000_0000_0054,
    0xA802_0000_8000_002D, 0x9002_0000_8000_0033, 0xAC02_0000_8000_0057,
    0x9002_0000_0000_0030, 0x7002_0000_0000_0036, 0xAC02_0000_0000_0054,
    0x9002_0000_8000_0033, 0x7002_0000_8000_0039, 0xAC02_0000_8000_0057,
    0x7002_0000_0000_0036, 0x6002_0000_0000_003C, 0xAC02_0000_0000_0054,
    0x7002_0000_8000_0039, 0x6002_0000_8000_003F, 0xAC02_0000_8000_0057,
    0x6002_0000_0000_003C, 0x4802_0000_0000_0042, 0x9002_0000_0000_0066,
    0x6002_0000_8000_003F, 0x4802_0000_8000_0045, 0x9002_0000_8000_0069,
    0x4802_0000_0000_0042, 0x3802_0000_0000_0048, 0x7002_0000_0000_006C,
    0x4802_0000_8000_0045, 0x3802_0000_8000_004B, 0x7002_0000_8000_006F,
    0x3802_0000_0000_0048, 0x2C02_0000_0000_004E, 0x6002_0000_0000_0078,
    0x3802_0000_8000_004B, 0x2C02_0000_8000_0051, 0x6002_0000_8000_007B,
    0x2C02_0000_0000_004E, 0x2202_0000_0000_00AE, 0x5002_0000_0000_007E,
    0x2C02_0000_8000_0051, 0x2202_0000_8000_00B1, 0x5002_0000_8000_0081,
    0xAC02_0000_0000_0054, 0xA802_0000_0000_005A, 0xAC02_0000_8000_0057,
    0xAC02_0000_8000_0057, 0xA802_0000_8000_005D, 0xAC02_0000_0000_0054,
    0xA802_0000_0000_005A, 0xA202_0000_0000_0060, 0xAC02_0000_0000_0054,
    0xA802_0000_8000_005D, 0xA202_0000_8000_0063, 0xAC02_0000_8000_0057,
    0xA202_0000_0000_0060, 0x9002_0000_0000_0066, 0xA802_0000_0000_005A,
    0xA202_0000_8000_0063, 0x9002_0000_8000_0069, 0xA802_0000_8000_005D,
    0x9002_0000_0000_0066, 0x7002_0000_0000_006C, 0xA202_0000_0000_0060,
    0x9002_0000_8000_0069, 0x7002_0000_8000_006F, 0xA202_0000_8000_0063,
    0x7002_0000_0000_006C, 0x6802_0000_0000_0072, 0x9002_0000_0000_0066,
    0x7002_0000_8000_006F, 0x6802_0000_8000_0075, 0x9002_0000_8000_0069,
    0x6802_0000_0000_0072, 0x6002_0000_0000_0078, 0x7002_0000_0000_006C,
    0x6802_0000_8000_0075, 0x6002_0000_8000_007B, 0x7002_0000_8000_006F,
    0x6002_0000_0000_0078, 0x5002_0000_0000_007E, 0x6802_0000_0000_0072,
    0x6002_0000_8000_007B, 0x5002_0000_8000_0081, 0x6802_0000_8000_0075,
    0x5002_0000_0000_007E, 0x4802_0000_0000_0084, 0x6802_0000_0000_0072,
    0x5002_0000_8000_0081, 0x4802_0000_8000_0087, 0x6802_0000_8000_0075,
    0x4802_0000_0000_0084, 0x4402_0000_0000_008A, 0x6002_0000_0000_0078,
    0x4802_0000_8000_0087, 0x4402_0000_8000_008D, 0x6002_0000_8000_007B,
    0x4402_0000_0000_008A, 0x3802_0000_0000_0090, 0x5002_0000_0000_007E,
    0x4402_0000_8000_008D, 0x3802_0000_8000_0093, 0x5002_0000_8000_0081,
    0x3802_0000_0000_0090, 0x3002_0000_0000_0096, 0x4802_0000_0000_0084,
    0x3802_0000_8000_0093, 0x3002_0000_8000_0099, 0x4802_0000_8000_0087,
    0x3002_0000_0000_0096, 0x2C02_0000_0000_009C, 0x4402_0000_0000_008A,
    0x3002_0000_8000_0099, 0x2C02_0000_8000_009F, 0x4402_0000_8000_008D,
    0x2C02_0000_0000_009C, 0x2802_0000_0000_00A2, 0x3802_0000_0000_0090,
    0x2C02_0000_8000_009F, 0x2802_0000_8000_00A5, 0x3802_0000_8000_0093,
    0x2802_0000_0000_00A2, 0x2402_0000_0000_00A8, 0x3002_0000_0000_0096,
    0x2802_0000_8000_00A5, 0x2402_0000_8000_00AB, 0x3002_0000_8000_0099,
    0x2402_0000_0000_00A8, 0x2202_0000_0000_00AE, 0x2C02_0000_0000_009C,
    0x2402_0000_8000_00AB, 0x2202_0000_8000_00B1, 0x2C02_0000_8000_009F,
    0x2202_0000_0000_00AE, 0x1582_0000_0000_00B4, 0x2802_0000_0000_00A2,
    0x2202_0000_8000_00B1, 0x1582_0000_8000_00B7, 0x2802_0000_8000_00A5,
    0x1582_0000_0000_00B4, 0x1382_0000_0000_00BA, 0x2402_0000_0000_00A8,
    0x1582_0000_8000_00B7, 0x1382_0000_8000_00BD, 0x2402_0000_8000_00AB,
    0x1382_0000_0000_00BA, 0x1142_0000_0000_00C0, 0x2202_0000_0000_00AE,
    0x1382_0000_8000_00BD, 0x1142_0000_8000_00C3, 0x2202_0000_8000_00B1,
    0x1142_0000_0000_00C0, 0x0A42_0000_0000_00C6, 0x1582_0000_0000_00B4,
    0x1142_0000_8000_00C3, 0x0A42_0000_8000_00C9, 0x1582_0000_8000_00B7,
    0x0A42_0000_0000_00C6, 0x0882_0000_0000_00CC, 0x1382_0000_0000_00BA,
    0x0A42_0000_8000_00C9, 0x0882_0000_8000_00CF, 0x1382_0000_8000_00BD,
    0x0882_0000_0000_00CC, 0x0542_0000_0000_00D2, 0x1142_0000_0000_00C0,
    0x0882_0000_8000_00CF, 0x0542_0000_8000_00D5, 0x1142_0000_8000_00C3,
    0x0542_0000_0000_00D2, 0x0442_0000_0000_00D8, 0x0A42_0000_0000_00C6,
    0x0542_0000_8000_00D5, 0x0442_0000_8000_00DB, 0x0A42_0000_8000_00C9,
    0x0442_0000_0000_00D8, 0x0282_0000_0000_00DE, 0x0882_0000_0000_00CC,
    0x0442_0000_8000_00DB, 0x0282_0000_8000_00E1, 0x0882_0000_8000_00CF,
    0x0282_0000_0000_00DE, 0x0222_0000_0000_00E4, 0x0542_0000_0000_00D2,
    0x0282_0000_8000_00E1, 0x0222_0000_8000_00E7, 0x0542_0000_8000_00D5,
    0x0222_0000_0000_00E4, 0x010A_0000_0000_00EA, 0x0442_0000_0000_00D8,
    0x0222_0000_8000_00E7, 0x010A_0000_8000_00ED, 0x0442_0000_8000_00DB,
    0x010A_0000_0000_00EA, 0x0092_0000_0000_00F0, 0x0282_0000_0000_00DE,
    0x010A_0000_8000_00ED, 0x0092_0000_8000_00F3, 0x0282_0000_8000_00E1,
    0x0092_0000_0000_00F0, 0x004A_0000_0000_00F6, 0x0222_0000_0000_00E4,
    0x0092_0000_8000_00F3, 0x004A_0000_8000_00F9, 0x0222_0000_8000_00E7,
    0x004A_0000_0000_00F6, 0x002A_0000_0000_00FC, 0x010A_0000_0000_00EA,
    0x004A_0000_8000_00F9, 0x002A_0000_8000_00FF, 0x010A_0000_8000_00ED,
    0x002A_0000_0000_00FC, 0x0012_0000_0000_0102, 0x0092_0000_0000_00F0,
    0x002A_0000_8000_00FF, 0x0012_0000_8000_0105, 0x0092_0000_8000_00F3,
    0x0012_0000_0000_0102, 0x000A_0000_0000_0108, 0x004A_0000_0000_00F6,
    0x0012_0000_8000_0105, 0x000A_0000_8000_010B, 0x004A_0000_8000_00F9,
    0x000A_0000_0000_0108, 0x0002_0000_0000_010E, 0x002A_0000_0000_00FC,
    0x000A_0000_8000_010B, 0x0002_0000_8000_0111, 0x002A_0000_8000_00FF,
    0x0002_0000_0000_010E, 0x0002_0000_0000_010E, 0x0012_0000_0000_0102,
    0x0002_0000_8000_0111, 0x0002_0000_8000_0111, 0x0012_0000_8000_0105,
    0xAC02_0000_0000_0114, 0xAC02_0000_0000_0114, 0xAC02_0000_0000_0114,
    0xAC02_0000_8000_0117, 0xAC02_0000_8000_0117, 0xAC02_0000_8000_0117,
];

/// A context (I(CX) and MPS(CX) of T.800 C.2.3), as an entry of the table.
#[derive(Clone, Copy)]
pub struct Step {
    entry: u64,
}

impl Model for Step {
    ghost use Rattle.std.proofs.Common.{ap, sym};
    ghost use Rattle.jk_model.specs.Contexts.{Context};
    ghost use Rattle.jk_model.specs.Steps.{context_of, context_number, IsEntry};

    ghost Value = { Context };

    ghost view = { λ s. context_of s.entry };

    ghost invariant = { λ s. IsEntry s.entry };

    ghost inverse = { λ c. record { entry = context_number c } };

    ghost inverse_ok = { λ s is. ap (λ e. record { entry = e }) (sym is.same) };
}

/// An entry of the table.
#[inline(always)]
fn entry_at(place: usize) -> u64
    requires { place < 282 }
    ensures { result ≡ slice_index steps place }
{
    STEPS[place]
}

/// A truth value as a number.
#[inline(always)]
fn digit(bit: bool) -> usize
    ensures { result ≡ (if bit then 1 else 0) }
{
    bit as usize
}

impl Step {
    /// A context in a state, with 0 as the more probable symbol.
    pub fn new(state: u8) -> Step
        requires { state < 47 }
        ensures { result ≡ begins state }
    {
        Step {
            entry: entry_at(6 * state as usize),
        }
    }

    /// The size of the lower subinterval, Qe, in units of the width's register.
    pub fn qe(self) -> u32
        ensures value { result ≡ (row_of self.state).qe * 2 ^ 16 }
        ensures smallest { 2 ^ 16 ≤ result }
        ensures largest { result ≤ 0x5601_0000 }
    {
        self.size() << 16
    }

    /// The size of the lower subinterval, Qe.
    #[inline(always)]
    pub fn size(self) -> u32
        ensures value { result ≡ (row_of self.state).qe }
        ensures smallest { 1 ≤ result }
        ensures largest { result ≤ 0x5601 }
    {
        (self.entry >> 49) as u32
    }

    /// The size of the lower subinterval, Qe, in the units of an interval whose width has its
    /// highest bit at the place `top`: it would have it at 15 in units of Qe.
    #[inline(always)]
    pub fn scaled(self, top: u32) -> u64
        requires least { 15 ≤ top }
        requires most { top < 64 }
        ensures value { result ≡ (row_of self.state).qe * 2 ^ (top - 15) }
        ensures smallest { 1 ≤ result }
        ensures below { result < 2 ^ top }
    {
        (self.entry >> 32 << 32).rotate_left(top)
    }

    /// The more probable symbol.
    #[inline(always)]
    pub fn mps(self) -> bool
        ensures { result ≡ self.mps }
    {
        self.entry >> 31 & 1 == 1
    }

    /// The context after a decision, which was for the less probable symbol where `less`. It moves
    /// where a renormalisation is due.
    #[inline(always)]
    pub fn after(self, moves: bool, less: bool) -> Step
        ensures { result ≡ (if moves then moved self (if less then not self.mps else self.mps) else self) }
    {
        let row = (self.entry & 0xFFFF) as usize;
        Step {
            entry: entry_at(row + digit(moves) + digit(moves & less)),
        }
    }

    /// The context after a decision, which was for the less probable symbol where `less`. `wide` is
    /// 1 where the interval needs no renormalisation, and else 0: then the context moves. The less
    /// probable symbol leaves no interval that needs none.
    #[inline(always)]
    pub fn followed(self, less: bool, wide: u64) -> Step
        requires digit { wide ≤ 1 }
        requires narrow { less ≡ true → wide ≡ 0 }
        ensures { result ≡ (if wide == 0 then moved self (if less then not self.mps else self.mps) else self) }
    {
        let row = (self.entry & 0xFFFF) as usize;
        Step {
            entry: entry_at(row + 1 + digit(less) - wide as usize),
        }
    }
}

/// The contexts as they are at the start of a code-block (T.800 Table D.7).
pub fn first_steps() -> [Step; 19]
    ensures { result ≡ first_contexts }
{
    let mut contexts = [Step::new(0); 19];
    contexts[0] = Step::new(4);
    contexts[17] = Step::new(3);
    contexts[18] = Step::new(46);
    contexts
}
