//! A decoder that is used up to its first fault: the contexts lie with the caller, and whether the
//! code value has left the interval is asked only where a byte is due.

ghost use Rattle.std.specs.Prelude.{◌≡◌, ◌<◌, Err, OnOk, OnErr};
ghost use Rattle.jk_math.specs.declared.fault.Fault.TheVariants.{CodeOutOfInterval};
ghost use Rattle.jk_model.specs.Contexts.{first_contexts as start};
ghost use Rattle.jk_model.specs.Decisions.{State, initial};
ghost use Rattle.jk_model.specs.CodingPasses.{restarted};
ghost use Rattle.jk_mqdec.specs.Standing.{DecoderView, Stands, HasFailed};
ghost use Rattle.jk_mqdec.specs.Answers.{answer, next};

use crate::deferred::{DeferredRegisters, caught_up, deferred, left};
use crate::wide::{Subinterval, begun, divided};
use jk_math::Fault;
use jk_model::{Step, first_steps, highest_bit};
use std::marker::Model;

/// The MQ decoder over the bytes of a segment (T.800 Annex C), up to its first fault.
#[derive(Drop)]
pub struct PassDecoder<'a> {
    bytes: &'a [u8],
    registers: DeferredRegisters,
    contexts: &'a mut [Step; 19],
}

impl<'a> Model for PassDecoder<'a> {
    ghost use Rattle.jk_mqdec.specs.Standing.{DecoderView};
    ghost use Rattle.jk_mqdec.specs.Deferred.{caught_up, IsSteadyDeferred};

    ghost Value = { DecoderView };

    ghost view = { λ d. record {
      bytes = d.bytes.now;
      registers = caught_up d.registers.registers;
      contexts = d.contexts.now;
    } };

    ghost invariant = { λ d. IsSteadyDeferred d.bytes.now d.registers };
}

impl<'a> PassDecoder<'a> {
    /// A decoder at the start of a segment (INITDEC, T.800 C.3.5).
    #[inline(always)]
    pub fn new(bytes: &'a [u8], contexts: &'a mut [Step; 19]) -> PassDecoder<'a>
        requires { contexts.old ≡ start }
        ensures bytes { result.bytes ≡ bytes.now }
        ensures stands { Stands result initial }
    {
        PassDecoder {
            bytes,
            registers: deferred(begun(bytes)),
            contexts,
        }
    }

    /// The contexts take their first states again (T.800 Table D.7). The interval goes on, and a
    /// decoder that has failed stays so.
    #[inline(always)]
    pub fn reset(&mut self)
        ensures bytes { self.new.bytes ≡ self.old.bytes }
        ensures stands { (s : State) → Stands self.old s → Stands self.new (restarted s) }
        ensures stays { HasFailed self.old → HasFailed self.new }
    {
        *self.contexts = first_steps();
    }

    /// The bit of the next decision, in the context of this number (DECODE, T.800 C.3.2), or
    /// [`Fault::CodeOutOfInterval`], behind which nothing more is decoded.
    #[inline(always)]
    pub fn decode(&mut self, cx: usize) -> Result<bool, Fault>
        requires { cx < 19 }
        ensures bytes { self.new.bytes ≡ self.old.bytes }
        ensures answer { (s : State) → Stands self.old s → result ≡ answer self.old.bytes s cx }
        ensures next { OnOk result ((s : State) → Stands self.old s → Stands self.new (next self.old.bytes s cx)) }

        // A decoder that has failed answers the same again.
        ensures failed { OnErr result (HasFailed self.new) }
        ensures stays { HasFailed self.old → (result ≡ Err CodeOutOfInterval) × HasFailed self.new }
    {
        let now = self.registers.registers;
        let top = highest_bit(now.width);
        let contexts = &mut *self.contexts;
        let context = contexts[cx];
        let Subinterval { registers, less } = divided(now, context.scaled(top));
        contexts[cx] = context.followed(less, registers.width >> top);
        let bit = context.mps() != less;
        if registers.width >= self.registers.least {
            self.registers.registers.code = registers.code;
            self.registers.registers.width = registers.width;
            return Ok(bit);
        }
        let taken = DeferredRegisters {
            registers,
            least: self.registers.least,
        };
        match caught_up(self.bytes, taken, 63 - top) {
            Some(registers) => {
                self.registers = registers;
                Ok(bit)
            }
            None => {
                self.registers = left();
                Err(Fault::CodeOutOfInterval)
            }
        }
    }
}
