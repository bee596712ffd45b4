//! The registers of the decoder with their doublings put off until a byte is due: at a decision the
//! lower subinterval is scaled down, and not the registers up.

ghost use Rattle.std.specs.Prelude.{◌≡◌, ℕ, ◌*◌, ◌^◌, ◌<◌, ◌≤◌, length, List, IfSome, MatchOption};
ghost use Rattle.jk_model.specs.Decisions.{State, renormalised};
ghost use Rattle.jk_mqdec.specs.Registers.{IsOutside};
ghost use Rattle.jk_mqdec.specs.Wide.{HoldsWide, HasLeftWide};
ghost use Rattle.jk_mqdec.specs.Deferred.{doubled_wide, caught_up, IsDeferred, IsSteadyDeferred};

use crate::wide::{WideRegisters, refilled, shifted};

/// Registers that are doubled only where a byte is due. How many doublings are put off shows in the
/// width: it is so many places below half its range.
#[derive(Clone, Copy)]
pub struct DeferredRegisters {
    /// C, A, CT and BP before those doublings.
    pub registers: WideRegisters,
    /// The least width of which no byte is due: half the range of the width, halved CT times.
    pub least: u64,
}

/// Half the range of the width.
const HALF: u64 = 0x8000_0000_0000_0000;

/// Registers of which no doubling is put off.
#[inline(always)]
pub fn deferred(registers: WideRegisters) -> DeferredRegisters
    requires width { 2 ^ 63 ≤ registers.width }
    requires count { registers.count ≤ 48 }
    ensures registers { result.registers ≡ registers }
    ensures least { result.least * 2 ^ registers.count ≡ 2 ^ 63 }
    ensures enough { result.least ≤ registers.width }
    ensures same { caught_up registers ≡ registers }
{
    DeferredRegisters {
        registers,
        least: HALF >> registers.count,
    }
}

/// Registers whose code value has left the interval, as that of a segment may at its start.
#[inline(always)]
pub fn left() -> DeferredRegisters
    ensures steady { (bytes : List ℕ) → IsSteadyDeferred bytes result }
    ensures left { HasLeftWide (caught_up result.registers) }
{
    DeferredRegisters {
        registers: WideRegisters {
            code: u64::MAX,
            width: HALF,
            count: 0,
            place: 0,
        },
        least: HALF,
    }
}

/// The registers of a subinterval of which a byte is due, doubled until the width is at least half
/// its range (RENORMD, T.800 C.3.3). So many doublings were put off before it was taken. `None`
/// where the code value has left the interval; it may have left it before.
#[inline(always)]
pub fn caught_up(bytes: &[u8], old: DeferredRegisters, before: u32) -> Option<DeferredRegisters>
    requires count { old.registers.count ≤ 48 }
    requires place { old.registers.place ≤ length bytes.now }
    requires least { old.least * 2 ^ old.registers.count ≡ 2 ^ 63 }
    requires due { old.registers.width < old.least }
    requires before { before ≤ old.registers.count }
    requires wide { 2 ^ 48 ≤ old.registers.width * 2 ^ before }
    requires fits { old.registers.width * 2 ^ before < 2 ^ 64 }
    ensures ready { IfSome result (IsDeferred bytes.now) }
    ensures code { IfSome result (λ r. r.registers.code < r.registers.width) }
    ensures inside { IfSome result (λ _. old.registers.code < old.registers.width) }
    ensures holds { (s : State) → old.registers.code < old.registers.width
        → HoldsWide bytes.now (doubled_wide before old.registers) s
        → MatchOption result (IsOutside bytes.now (renormalised 15 s))
        (λ r. HoldsWide bytes.now (caught_up r.registers) (renormalised 15 s)) }
{
    let registers = old.registers;
    if registers.code >= registers.width {
        return None;
    }
    let times = registers.width.leading_zeros() - before;
    let ready = refilled(bytes, shifted(registers, before), times)?;
    Some(deferred(ready))
}
