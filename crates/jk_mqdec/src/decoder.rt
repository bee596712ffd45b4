//! The decoder: registers over a segment, and the contexts.

ghost use Rattle.std.specs.Prelude.{◌≡◌, ℕ, Bool, suc, ◌+◌, ◌*◌, ◌^◌, ◌<◌, ◌≤◌, [], ◌∷◌, ◌++◌, List, length, set, IfOk};
ghost use Rattle.std.specs.Prelude.{IfErr, OnOk, OnErr, MatchResult, Ok, Err};
ghost use Rattle.jk_math.specs.declared.fault.Fault.TheVariants.{CodeOutOfInterval};
ghost use Rattle.jk_model.specs.Decisions.{State, Decision, initial, Spells};
ghost use Rattle.jk_model.specs.CodingPasses.{restarted};
ghost use Rattle.jk_mqdec.specs.Standing.{DecoderView, Stands, HasFailed, Reached};
ghost use Rattle.jk_mqdec.specs.Answers.{answer, next};

use crate::registers::loaded;
use crate::wide::{WideRegisters, divided, is_narrow, renormalised, scaled, widened};
use jk_math::Fault;
use jk_model::{Step, first_steps};
use std::marker::Model;

/// The MQ decoder over the bytes of a segment (T.800 Annex C). It takes no memory.
#[derive(Drop)]
pub struct Decoder<'a> {
    bytes: &'a [u8],
    registers: WideRegisters,
    contexts: [Step; 19],
}

impl<'a> Model for Decoder<'a> {
    ghost use Rattle.jk_mqdec.specs.Standing.{DecoderView, IsSound};

    ghost Value = { DecoderView };

    ghost view = { λ d. record { bytes = d.bytes.now; registers = d.registers; contexts = d.contexts } };

    ghost invariant = { λ d. IsSound (record { bytes = d.bytes.now; registers = d.registers; contexts = d.contexts }) };
}

impl<'a> Decoder<'a> {
    /// A decoder at the start of a segment (INITDEC, T.800 C.3.5), its contexts as they are at the
    /// start of a code-block.
    pub fn new(bytes: &'a [u8]) -> Decoder<'a>
        ensures bytes { result.bytes ≡ bytes.now }
        ensures stands { Stands result initial }
        ensures reached { Reached result bytes.now [] }
    {
        Decoder {
            bytes,
            registers: widened(loaded(bytes)),
            contexts: first_steps(),
        }
    }

    /// The contexts take their first states again (T.800 Table D.7). The interval goes on, and a
    /// decoder that has failed stays as it is.
    pub fn reset(&mut self)
        ensures bytes { self.new.bytes ≡ self.old.bytes }
        ensures stands { (s : State) → Stands self.old s → Stands self.new (restarted s) }
        ensures stays { HasFailed self.old → self.new ≡ self.old }
    {
        if self.registers.code < self.registers.width {
            self.contexts = first_steps();
        }
    }

    /// The bit of the next decision, in the context of this number (DECODE, T.800 C.3.2), or
    /// [`Fault::CodeOutOfInterval`].
    #[inline(always)]
    pub fn decode(&mut self, cx: usize) -> Result<bool, Fault>
        requires { cx < 19 }
        ensures bytes { self.new.bytes ≡ self.old.bytes }

        // The bit, or the fault, is that of the definition.
        ensures answer { (s : State) → Stands self.old s → result ≡ answer self.old.bytes s cx }
        ensures next { (s : State) → Stands self.old s → Stands self.new (next self.old.bytes s cx) }

        // A decoder that has failed stays as it is.
        ensures fault { IfErr result (λ e. e ≡ CodeOutOfInterval) }
        ensures failed { OnErr result (HasFailed self.new) }
        ensures stays { HasFailed self.old → (result ≡ Err CodeOutOfInterval) × (self.new ≡ self.old) }

        // What was decoded is spelled, and what is spelled is decoded.
        ensures reached { IfOk result (λ bit. (bytes : List ℕ) (done : List Decision)
            → Reached self.old bytes done → Reached self.new bytes (done ++ (cx, bit) ∷ [])) }
        ensures only { (bytes : List ℕ) (done : List Decision) (bit : Bool)
            → Reached self.old bytes done → Spells bytes (done ++ (cx, bit) ∷ []) → result ≡ Ok bit }
    {
        let now = self.registers;
        if now.code >= now.width {
            return Err(Fault::CodeOutOfInterval);
        }
        let contexts = &mut self.contexts;
        let context = contexts[cx];
        let subinterval = divided(now, scaled(context.size()));
        contexts[cx] = context.after(is_narrow(subinterval.registers), subinterval.less);
        match renormalised(self.bytes, subinterval.registers) {
            Some(registers) => {
                self.registers = registers;
                Ok(context.mps() != subinterval.less)
            }
            None => {
                self.registers = WideRegisters {
                    width: 0,
                    ..subinterval.registers
                };
                Err(Fault::CodeOutOfInterval)
            }
        }
    }
}
