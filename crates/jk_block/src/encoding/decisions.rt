//! The decisions of a pass.

ghost use Rattle.std.specs.Prelude.{◌≡◌, ℕ, Bool, [], ◌∷◌, ◌+◌, ◌++◌, List, ◌/◌, ◌<◌, ◌≤◌, IfOk, IfErr, if◌then◌else◌};
ghost use Rattle.std.specs.Prelude.{◌%◌, ◌==◌, replicate};
ghost use Rattle.jk_math.specs.Memory.{IsMemory};
ghost use Rattle.jk_model.specs.Decisions.{Decision};
ghost use Rattle.jk_mqenc.specs.Encoded.{Codes, decision_of};
ghost use Rattle.jk_block.specs.encoding.Sheets.{IsSheet, told};

use jk_math::Fault;
use jk_mqenc::Encoder;
use std::alloc::Global;
use std::marker::Model;

/// How much room is made at a time.
const ROOM: usize = 2048;

/// How much room is made for a word: more than the decisions of its places and columns.
const WORD_ROOM: usize = 136;

/// Decisions, each in one byte: the lowest bit is the decision's, those above it are the number of
/// its context.
#[derive(Drop)]
pub struct DecisionList {
    /// The decisions, and room behind them.
    pub bytes: Vec<u8>,
    /// How many of the bytes are decisions.
    pub count: usize,
}

impl Model for DecisionList {
    ghost use Rattle.std.specs.Prelude.{List};
    ghost use Rattle.jk_model.specs.Decisions.{Decision};
    ghost use Rattle.jk_block.specs.encoding.Sheets.{IsSheet, told};

    ghost Value = { List Decision };

    ghost view = { λ l. told l.bytes.items l.count };

    ghost invariant = { λ l. IsSheet l.bytes.items l.count };
}

/// More bytes.
#[inline(never)]
fn widen(bytes: &mut Vec<u8>) -> Result<(), Fault>
    ensures wider { IfOk result (λ _. bytes.new.items ≡ bytes.old.items ++ replicate 2048 0) }
    ensures same { IfErr result (λ _. bytes.new.items ≡ bytes.old.items) }
    ensures memory { IfErr result IsMemory }
{
    bytes.extend_from_slice(&[0; ROOM])?;
    Ok(())
}

/// Room for the decisions of a word behind those that are there.
#[inline(always)]
pub fn make_room(bytes: &mut Vec<u8>, count: usize) -> Result<(), Fault>
    requires { IsSheet bytes.old.items count }
    ensures room { IfOk result (λ _. IsSheet bytes.new.items (count + 136)) }
    ensures sheet { IsSheet bytes.new.items count }
    ensures told { told bytes.new.items count ≡ told bytes.old.items count }
    ensures memory { IfErr result IsMemory }
{
    if bytes.len() - count < WORD_ROOM {
        widen(bytes)?;
    }
    Ok(())
}

impl DecisionList {
    /// No decisions yet.
    pub fn new(alloc: Global) -> DecisionList
        ensures { result ≡ [] }
    {
        DecisionList {
            bytes: Vec::new(alloc),
            count: 0,
        }
    }

    /// Forgets all decisions.
    pub fn clear(&mut self)
        ensures { self.new ≡ [] }
    {
        self.count = 0;
    }

    /// Codes all decisions, in the last pass.
    pub fn encode(&self, encoder: &mut Encoder) -> Result<(), Fault>
        ensures codes { IfOk result (λ _. (reset : Bool) (before : List (List Decision)) (ds : List Decision)
            → Codes encoder.old reset (before ++ ds ∷ [])
            → Codes encoder.new reset (before ++ (ds ++ self.now) ∷ [])) }
        ensures memory { IfErr result IsMemory }
    {
        encoder.encode_all(&self.bytes[..self.count])
    }
}
