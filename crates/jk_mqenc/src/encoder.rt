//! The encoder: registers, placed bytes, and the contexts.

ghost use Rattle.std.specs.Prelude.{◌≡◌, ℕ, Bool, ◌+◌, ◌-◌, ◌/◌, ◌%◌, ◌<◌, ◌≤◌, List, [], ◌∷◌, ◌++◌, All, IfOk};
ghost use Rattle.std.specs.Prelude.{MatchResult, false, true, map, take, get_or, length};
ghost use Rattle.jk_math.specs.Memory.{IsMemory};
ghost use Rattle.jk_model.specs.Code.{is_last};
ghost use Rattle.jk_model.specs.Decisions.{State, Decision};
ghost use Rattle.jk_model.specs.CodingPasses.{SpellsPasses};
ghost use Rattle.jk_mqenc.specs.Machine.{Machine};
ghost use Rattle.jk_mqenc.specs.Encoded.{CodesFrom, Codes, HasCodedFrom, decision_of, written_by, finished};
ghost use Rattle.jk_mqenc.specs.Encoded.{with_registers, lasting};

use crate::coder::Coder;
use crate::registers::DeferredRegisters;
use jk_math::{Fault, Refused};
use jk_model::{Step, first_steps};
use std::alloc::Global;
use std::marker::Model;

/// The MQ encoder (T.800 Annex C), its contexts as they are at the start of a code-block. After
/// `Memory` it answers `Memory` for ever.
#[derive(Drop)]
pub struct Encoder {
    coder: Coder,
    contexts: [Step; 19],
    refused: Option<Refused>,
}

impl Model for Encoder {
    ghost use Rattle.std.specs.Prelude.{is_some};
    ghost use Rattle.jk_mqenc.specs.Encoded.{EncoderView, HasCoded};

    ghost Value = { EncoderView };

    ghost view = { λ e. record { machine = e.coder; contexts = e.contexts; failed = is_some e.refused } };

    ghost invariant = { λ e. HasCoded
        (record { machine = e.coder; contexts = e.contexts; failed = is_some e.refused }) };
}

/// Codes a decision in the context of this number (ENCODE, T.800 C.2.2), with these registers over
/// the coder's bytes.
#[inline(always)]
fn encode_one(
    coder: &mut Coder,
    contexts: &mut [Step; 19],
    registers: DeferredRegisters,
    cx: usize,
    bit: bool,
) -> Result<DeferredRegisters, Refused>
    requires cx { cx < 19 }
    requires coded { HasCodedFrom (lasting (with_registers coder.old registers) contexts.old) }
    ensures codes { IfOk result (λ r. (m : Machine) (s : State) (ds : List Decision)
        → CodesFrom m s (lasting (with_registers coder.old registers) contexts.old) ds
        → CodesFrom m s (lasting (with_registers coder.new r) contexts.new) (ds ++ (cx, bit) ∷ [])) }
{
    let context = contexts[cx];
    let less = bit != context.mps();
    let taken = registers.taken(context, less);
    contexts[cx] = context.followed(less, taken.wide());
    coder.code(taken)
}

/// Codes these decisions. The registers leave the coder until the last of them is coded.
#[inline(never)]
fn encode_list(
    coder: &mut Coder,
    contexts: &mut [Step; 19],
    decisions: &[u8],
) -> Result<(), Refused>
    requires decisions { All (λ byte. byte / 2 < 19) decisions.now }
    requires coded { HasCodedFrom (lasting coder.old contexts.old) }
    ensures codes { IfOk result (λ _. (m : Machine) (s : State) (ds : List Decision)
        → CodesFrom m s (lasting coder.old contexts.old) ds
        → CodesFrom m s (lasting coder.new contexts.new) (ds ++ map decision_of decisions.now)) }
{
    let mut registers = DeferredRegisters::new(coder.registers());
    for byte in decisions {
        registers = encode_one(
            coder,
            contexts,
            registers,
            (*byte / 2) as usize,
            *byte % 2 == 1,
        )?;
    }
    coder.restore(registers.caught_up());
    Ok(())
}

impl Encoder {
    /// An encoder of no passes yet.
    pub fn new(alloc: Global) -> Encoder
        ensures { (reset : Bool) → Codes result reset [] }
    {
        Encoder {
            coder: Coder::new(alloc),
            contexts: first_steps(),
            refused: None,
        }
    }

    /// How many bytes are placed by now. A carry may still reach the last of them, which is
    /// counted.
    pub fn written(&self) -> usize
        ensures { (reset : Bool) (dss : List (List Decision))
            → Codes self.now reset dss → result ≡ written_by reset dss }
    {
        self.coder.written()
    }

    /// With context reset a pass begins: the contexts take their first states again (T.800 Table
    /// D.7), and the interval goes on. An encoder that has failed stays as it is.
    pub fn reset(&mut self)
        ensures codes { (dss : List (List Decision)) → Codes self.old true dss → Codes self.new true (dss ++ [] ∷ []) }
        ensures failed { self.new.failed ≡ self.old.failed }
        ensures stays { self.old.failed ≡ true → self.new ≡ self.old }
    {
        if self.refused.is_none() {
            self.contexts = first_steps();
        }
    }

    /// Codes a decision of the last pass, in the context of this number (ENCODE, T.800 C.2.2).
    pub fn encode(&mut self, cx: usize, bit: bool) -> Result<(), Fault>
        requires { cx < 19 }
        ensures codes { IfOk result (λ _. (reset : Bool) (before : List (List Decision)) (ds : List Decision)
            → Codes self.old reset (before ++ ds ∷ [])
            → Codes self.new reset (before ++ (ds ++ (cx, bit) ∷ []) ∷ [])) }
        ensures fault { MatchResult result
            (λ _. self.old.failed ≡ false) (λ e. IsMemory e × (self.new.failed ≡ true)) }
        ensures stays { self.old.failed ≡ true → self.new ≡ self.old }
    {
        if let Some(refused) = self.refused {
            return Err(Fault::Memory(refused));
        }
        let registers = DeferredRegisters::new(self.coder.registers());
        match encode_one(&mut self.coder, &mut self.contexts, registers, cx, bit) {
            Ok(registers) => {
                self.coder.restore(registers.caught_up());
                Ok(())
            }
            Err(refused) => {
                self.refused = Some(refused);
                Err(Fault::Memory(refused))
            }
        }
    }

    /// Codes these decisions of the last pass, each in one byte: its lowest bit is the decision's,
    /// those above it are the number of its context.
    pub fn encode_all(&mut self, decisions: &[u8]) -> Result<(), Fault>
        requires { All (λ byte. byte / 2 < 19) decisions.now }
        ensures codes { IfOk result (λ _. (reset : Bool) (before : List (List Decision)) (ds : List Decision)
            → Codes self.old reset (before ++ ds ∷ [])
            → Codes self.new reset (before ++ (ds ++ map decision_of decisions.now) ∷ [])) }
        ensures fault { MatchResult result
            (λ _. self.old.failed ≡ false) (λ e. IsMemory e × (self.new.failed ≡ true)) }
        ensures stays { self.old.failed ≡ true → self.new ≡ self.old }
    {
        if let Some(refused) = self.refused {
            return Err(Fault::Memory(refused));
        }
        match encode_list(&mut self.coder, &mut self.contexts, decisions) {
            Ok(()) => Ok(()),
            Err(memory) => {
                self.refused = Some(memory);
                Err(Fault::Memory(memory))
            }
        }
    }

    /// The bytes of the passes (FLUSH, T.800 C.2.9). They spell the passes, and what is four bytes
    /// longer than was [`written`](Encoder::written) after an earlier pass spells those up to it.
    pub fn finish(self) -> Result<Vec<u8>, Fault>
        ensures exact { IfOk result (λ v. (reset : Bool) (dss : List (List Decision))
            → Codes self reset dss → v.items ≡ finished reset dss) }
        ensures spells { IfOk result (λ v. (reset : Bool) (dss : List (List Decision))
            → Codes self reset dss → SpellsPasses reset v.items dss) }

        // So does such a part without its last byte, if that is FF.
        ensures prefix { IfOk result (λ v. (reset : Bool) (dss rest : List (List Decision)) (z : ℕ)
            → Codes self reset (dss ++ rest) → written_by reset dss + 4 ≤ z → SpellsPasses reset (take z v.items) dss) }
        ensures shorter { IfOk result (λ v. (reset : Bool) (dss rest : List (List Decision)) (z : ℕ)
            → Codes self reset (dss ++ rest) → written_by reset dss + 4 ≤ z → get_or v.items (z - 1) 0 ≡ 255
            → SpellsPasses reset (take (z - 1) v.items) dss) }

        // No byte above 8F follows an FF, and the last byte isn't FF.
        ensures unmarked { IfOk result (λ v. (i : ℕ) → i < length v.items → is_last v.items i ≡ false) }
        ensures fault { MatchResult result (λ _. self.failed ≡ false) (λ e. IsMemory e) }
    {
        if let Some(refused) = self.refused {
            return Err(Fault::Memory(refused));
        }
        match self.coder.finish() {
            Ok(bytes) => Ok(bytes),
            Err(refused) => Err(Fault::Memory(refused)),
        }
    }
}
