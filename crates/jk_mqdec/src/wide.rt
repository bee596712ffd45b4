//! The registers of the decoder with room for bytes that are fed before they are due, so that most
//! decisions wait for none.

ghost use Rattle.std.specs.Prelude.{◌≡◌, ℕ, ◌+◌, ◌-◌, ◌*◌, ◌/◌, ◌^◌, ◌<◌, ◌≤◌, not, nat_lt, length, List, IfSome};
ghost use Rattle.std.specs.Prelude.{MatchOption};
ghost use Rattle.std.specs.Bool.{beq};
ghost use Rattle.jk_model.specs.Code.{byte_at};
ghost use Rattle.jk_model.specs.Decisions.{State, initial, renormalised, doubled_by};
ghost use Rattle.jk_mqdec.specs.Registers.{HoldsInterval, IsOutside};
ghost use Rattle.jk_mqdec.specs.Wide.{HoldsWide, HasLeftWide, IsReadyWide, IsSteadyWide};

use crate::registers::{Registers, byte, fed_through, loaded};
use jk_model::{chosen, kept};

/// The registers C, A, CT and BP of T.800 C.3.1, C and A with 32 bits more below the others.
#[derive(Clone, Copy)]
pub struct WideRegisters {
    /// C: the code value as far as it was fed, less the low end of the interval.
    pub code: u64,
    /// A: the width of the interval, in the units of `code`.
    pub width: u64,
    /// CT: how many doublings need no further byte.
    pub count: u32,
    /// BP: the place of the byte that was fed last.
    pub place: usize,
}

/// A subinterval of a divided interval, and whether it stands for the less probable symbol.
#[derive(Drop)]
pub struct Subinterval {
    /// The registers that hold the subinterval.
    pub registers: WideRegisters,
    /// Whether it stands for the less probable symbol.
    pub less: bool,
}

/// Half the range of the width: it is at least this large between two decisions.
const HALF: u64 = 0x8000_0000_0000_0000;

/// One of the interval, in the units of the registers.
const ONE: u64 = 0x1_0000_0000_0000;

/// The registers with room for bytes ahead.
#[inline(always)]
pub fn widened(old: Registers) -> WideRegisters
    ensures code { result.code ≡ old.code * 2 ^ 32 }
    ensures width { result.width ≡ old.width * 2 ^ 32 }
    ensures count { result.count ≡ old.count }
    ensures place { result.place ≡ old.place }
    ensures holds { (bytes : List ℕ) (s : State) → HoldsInterval bytes old s → HoldsWide bytes result s }
{
    WideRegisters {
        code: (old.code as u64) << 32,
        width: (old.width as u64) << 32,
        count: old.count,
        place: old.place,
    }
}

/// The registers after the doublings that need no further byte: then no byte stands ahead.
#[inline(always)]
fn emptied(old: WideRegisters) -> Registers
    requires few { old.count < 64 }
    requires code { old.code * 2 ^ old.count < 2 ^ 64 }
    requires width { old.width * 2 ^ old.count < 2 ^ 64 }
    ensures code { result.code ≡ old.code * 2 ^ old.count / 2 ^ 32 }
    ensures width { result.width ≡ old.width * 2 ^ old.count / 2 ^ 32 }
    ensures count { result.count ≡ 0 }
    ensures place { result.place ≡ old.place }
    ensures holds { (bytes : List ℕ) (s : State) → HoldsWide bytes old s → HoldsInterval bytes result (doubled_by old.count s) }
{
    let code = old.code << old.count;
    let width = old.width << old.count;
    Registers {
        code: (code >> 32) as u32,
        width: (width >> 32) as u32,
        count: 0,
        place: old.place,
    }
}

/// Feeds the next byte where it is no stuffed one and the code value has room, before it is due.
#[inline(always)]
fn fed_ahead(bytes: &[u8], old: WideRegisters) -> WideRegisters
    requires code { old.code + 2 ^ 48 ≤ old.width }
    requires count { old.count ≤ 40 }
    requires place { old.place ≤ length bytes.now }
    requires plain { byte_at bytes.now old.place < 255 }
    ensures code { result.code < result.width }
    ensures width { result.width ≡ old.width }
    ensures count { result.count ≡ old.count + 8 }
    ensures place { result.place ≤ length bytes.now }
    ensures holds { (s : State) → HoldsWide bytes.now old s → HoldsWide bytes.now result s }
{
    WideRegisters {
        code: old.code + ((byte(bytes, old.place + 1) as u64) << (40 - old.count)),
        count: old.count + 8,
        place: old.place + 1,
        ..old
    }
}

/// Feeds bytes as far as there is room for them, up to an FF.
#[inline(always)]
fn filled(bytes: &[u8], old: WideRegisters) -> WideRegisters
    requires code { old.code < old.width }
    requires count { old.count ≤ 48 }
    requires place { old.place ≤ length bytes.now }
    ensures code { result.code < result.width }
    ensures width { result.width ≡ old.width }
    ensures count { result.count ≤ 48 }
    ensures place { result.place ≤ length bytes.now }
    ensures holds { (s : State) → HoldsWide bytes.now old s → HoldsWide bytes.now result s }
{
    let mut now = old;
    while now.count <= 40 && now.width - now.code >= ONE && byte(bytes, now.place) < 0xFF {
        now = fed_ahead(bytes, now);
    }
    now
}

/// The registers after so many doublings, for which no byte is due.
#[inline(always)]
pub fn shifted(old: WideRegisters, times: u32) -> WideRegisters
    requires code { old.code < old.width }
    requires width { old.width * 2 ^ times < 2 ^ 64 }
    requires times { times ≤ old.count }
    requires few { times < 64 }
    ensures code { result.code ≡ old.code * 2 ^ times }
    ensures width { result.width ≡ old.width * 2 ^ times }
    ensures count { result.count + times ≡ old.count }
    ensures place { result.place ≡ old.place }
{
    WideRegisters {
        code: old.code << times,
        width: old.width << times,
        count: old.count - times,
        ..old
    }
}

/// Doubles so many times, with bytes fed between and behind. `None` where the code value has left
/// the interval.
#[inline(always)]
pub fn refilled(bytes: &[u8], old: WideRegisters, times: u32) -> Option<WideRegisters>
    requires code { old.code < old.width }
    requires place { old.place ≤ length bytes.now }
    requires due { old.count < times }
    requires few { times ≤ 15 }
    requires least { 2 ^ 63 ≤ old.width * 2 ^ times }
    requires width { old.width * 2 ^ times < 2 ^ 64 }
    ensures ready { IfSome result (IsReadyWide bytes.now) }
    ensures holds { (s : State) → HoldsWide bytes.now old s
        → MatchOption result (IsOutside bytes.now (doubled_by times s))
        (λ r. HoldsWide bytes.now r (doubled_by times s)) }
{
    let now = emptied(old);
    if now.code >= now.width {
        return None;
    }
    let ready = fed_through(bytes, now, times - old.count)?;
    Some(filled(bytes, widened(ready)))
}

/// Doubles until the width is at least half its range (RENORMD, T.800 C.3.3). `None` where the code
/// value has left the interval.
#[inline(always)]
pub fn renormalised(bytes: &[u8], old: WideRegisters) -> Option<WideRegisters>
    requires code { old.code < old.width }
    requires count { old.count ≤ 48 }
    requires place { old.place ≤ length bytes.now }
    requires wide { 2 ^ 48 ≤ old.width }
    ensures ready { IfSome result (IsReadyWide bytes.now) }
    ensures holds { (s : State) → HoldsWide bytes.now old s
        → MatchOption result (IsOutside bytes.now (renormalised 15 s))
        (λ r. HoldsWide bytes.now r (renormalised 15 s)) }
{
    let times = old.width.leading_zeros();
    if times <= old.count {
        return Some(shifted(old, times));
    }
    refilled(bytes, old, times)
}

/// The subinterval that the code value lies in, where the lower subinterval is so large (T.800
/// C.3.2).
///
/// No branch hangs on the choice.
#[inline(always)]
pub fn divided(now: WideRegisters, lower_width: u64) -> Subinterval
    requires { lower_width ≤ now.width }
    ensures lower { now.code < lower_width
        → result.registers ≡ record now { width = lower_width } }
    ensures upper { lower_width ≤ now.code
        → result.registers ≡ record now { code = now.code - lower_width; width = now.width - lower_width } }
    ensures less { result.less
        ≡ not (beq (nat_lt now.code lower_width) (nat_lt (now.width - lower_width) lower_width)) }
{
    let upper_width = now.width - lower_width;
    let is_lower = now.code < lower_width;
    Subinterval {
        registers: WideRegisters {
            code: now.code - kept(!is_lower, lower_width),
            width: chosen(is_lower, lower_width, upper_width),
            ..now
        },
        less: is_lower != (upper_width < lower_width),
    }
}

/// Whether a renormalisation is due.
#[inline(always)]
pub fn is_narrow(registers: WideRegisters) -> bool
    ensures { result ≡ nat_lt registers.width (2 ^ 63) }
{
    registers.width < HALF
}

/// The size of the lower subinterval, in the units of the registers.
#[inline(always)]
pub fn scaled(size: u32) -> u64
    requires { size < 2 ^ 16 }
    ensures { result ≡ size * 2 ^ 48 }
{
    (size as u64) << 48
}

/// The registers at the start of a segment, with no doubling before the next byte where the code
/// value has left the interval already.
pub fn begun(bytes: &[u8]) -> WideRegisters
    ensures steady { IsSteadyWide bytes.now result }
    ensures holds { result.code < result.width → HoldsWide bytes.now result initial }
    ensures left { HasLeftWide result → IsOutside bytes.now initial }
{
    let loaded = widened(loaded(bytes));
    if loaded.code < loaded.width {
        return loaded;
    }
    WideRegisters { count: 0, ..loaded }
}
