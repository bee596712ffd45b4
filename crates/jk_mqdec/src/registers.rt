//! The registers of the decoder (T.800 C.3).

ghost use Rattle.std.specs.Prelude.{◌≡◌, ℕ, suc, ◌+◌, ◌*◌, ◌^◌, ◌<◌, ◌≤◌, length, IfSome, MatchOption};
ghost use Rattle.jk_model.specs.Code.{byte_at};
ghost use Rattle.jk_model.specs.Decisions.{State, initial, doubled, doubled_by};
ghost use Rattle.jk_mqdec.specs.Registers.{IsAt, Feeds, HoldsInterval, Supplied, IsOutside, CanDouble, IsReady};

/// The registers C, A and CT of T.800 C.3.1, and the place of the byte that was fed last, BP.
#[derive(Clone, Copy)]
pub struct Registers {
    /// C: the code value as far as it was fed, less the low end of the interval.
    pub code: u32,
    /// A: the width of the interval, in the units of `code`.
    pub width: u32,
    /// CT: how many doublings need no further byte.
    pub count: u32,
    /// BP: the place of the byte that was fed last.
    pub place: usize,
}

/// Half the range of the width: it is at least this large between two decisions.
const HALF: u32 = 0x8000_0000;

/// A byte of the segment. Past its end stand bytes FF.
pub fn byte(bytes: &[u8], place: usize) -> u32
    ensures value { result ≡ byte_at bytes.now place }
    ensures byte { result < 256 }
{
    match bytes.get(place) {
        Some(byte) => *byte as u32,
        None => 0xFF,
    }
}

/// Feeds the next byte (BYTEIN, T.800 C.3.4).
#[inline(always)]
fn fed(bytes: &[u8], old: Registers) -> Registers
    requires place { old.place ≤ length bytes.now }
    requires room { old.code < 2 ^ 31 }
    ensures feeds { (last : ℕ) → IsAt bytes.now old.place last → Feeds bytes.now old result last }
    ensures bound { result.code < old.code + 2 ^ 17 }
    ensures width { result.width ≡ old.width }
    ensures least_count { 7 ≤ result.count }
    ensures largest_count { result.count ≤ 8 }
    ensures place { result.place ≤ length bytes.now }
{
    let next = byte(bytes, old.place + 1);
    if byte(bytes, old.place) != 0xFF {
        Registers {
            code: old.code + (next << 8),
            count: 8,
            place: old.place + 1,
            ..old
        }
    } else if next <= 0x8F {
        Registers {
            code: old.code + (next << 9),
            count: 7,
            place: old.place + 1,
            ..old
        }
    } else {
        Registers {
            code: old.code + 0xFF00,
            count: 8,
            ..old
        }
    }
}

/// Feeds the byte that is due before the next doubling. `None` where the code value has left the
/// interval.
#[inline(always)]
fn supplied(bytes: &[u8], old: Registers) -> Option<Registers>
    requires can { CanDouble bytes.now old }
    requires small { old.width < 2 ^ 31 }
    requires empty { old.count ≡ 0 }
    ensures code { IfSome result (λ r. r.code < r.width) }
    ensures width { IfSome result (λ r. r.width ≡ old.width) }
    ensures least_count { IfSome result (λ r. 7 ≤ r.count) }
    ensures largest_count { IfSome result (λ r. r.count ≤ 8) }
    ensures place { IfSome result (λ r. r.place ≤ length bytes.now) }
    ensures holds { (s : State) → HoldsInterval bytes.now old s
        → MatchOption result (IsOutside bytes.now (doubled s)) (λ r. Supplied bytes.now r s) }
{
    let new = fed(bytes, old);
    if new.code < new.width {
        Some(new)
    } else {
        None
    }
}

/// The registers after so many doublings, for which no byte is due.
#[inline(always)]
fn shifted(old: Registers, times: u32) -> Registers
    requires code { old.code < old.width }
    requires width { old.width * 2 ^ times < 2 ^ 32 }
    requires times { times ≤ old.count }
    requires few { times < 32 }
    ensures code { result.code ≡ old.code * 2 ^ times }
    ensures width { result.width ≡ old.width * 2 ^ times }
    ensures count { result.count + times ≡ old.count }
    ensures place { result.place ≡ old.place }
{
    Registers {
        code: old.code << times,
        width: old.width << times,
        count: old.count - times,
        ..old
    }
}

/// Doubles so many times, with bytes fed between. `None` where the code value has left the
/// interval.
#[inline(always)]
pub fn fed_through(bytes: &[u8], old: Registers, times: u32) -> Option<Registers>
    requires can { CanDouble bytes.now old }
    requires due { old.count < times }
    requires few { times ≤ 15 }
    requires least { 2 ^ 31 ≤ old.width * 2 ^ times }
    requires width { old.width * 2 ^ times < 2 ^ 32 }
    ensures ready { IfSome result (IsReady bytes.now) }
    ensures holds { (s : State) → HoldsInterval bytes.now old s
        → MatchOption result (IsOutside bytes.now (doubled_by times s)) (λ r. HoldsInterval bytes.now r (doubled_by times s)) }
{
    let mut left = times - old.count;
    let mut now = shifted(old, old.count);
    while left > 0 {
        let ready = supplied(bytes, now)?;
        let next = left.min(ready.count);
        now = shifted(ready, next);
        left -= next;
    }
    Some(now)
}

/// The registers at the start of a segment (INITDEC, T.800 C.3.5).
pub fn loaded(bytes: &[u8]) -> Registers
    ensures width { result.width ≡ 2 ^ 31 }
    ensures count { result.count < 8 }
    ensures place { result.place ≤ length bytes.now }
    ensures holds { HoldsInterval bytes.now result initial }
{
    let first = Registers {
        code: byte(bytes, 0) << 16,
        width: HALF,
        count: 0,
        place: 0,
    };
    let second = fed(bytes, first);
    Registers {
        code: second.code << 7,
        count: second.count - 7,
        ..second
    }
}
