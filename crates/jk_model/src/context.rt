//! The contexts of the coder and their moves.

ghost use Rattle.std.specs.Prelude.{◌≡◌, ◌<◌, ◌≤◌, ◌+◌};
ghost use Rattle.jk_model.specs.Contexts.{row_of, moved, begins, first_contexts as start};

use crate::table::{Row, STATES};
use std::marker::Model;

/// A context: the index of its state in the table, and the symbol that is more probable in it
/// (I(CX) and MPS(CX) of T.800 C.2.3). The state is below 47.
#[derive(Clone, Copy, Debug, PartialEq, Eq)]
pub struct Cx {
    /// The index of the state.
    pub state: u8,
    /// The more probable symbol.
    pub mps: bool,
}

impl Model for Cx {
    ghost use Rattle.std.specs.Prelude.{◌<◌};
    ghost use Rattle.jk_model.specs.Contexts.{Context};

    ghost Value = { Context };

    ghost view = { λ c. record { state = c.state; mps = c.mps } };

    ghost invariant = { λ c. c.state < 47 };

    ghost inverse = { λ v. record { state = v.state; mps = v.mps } };
}

impl Cx {
    /// A context in a state, with 0 as the more probable symbol.
    fn new(state: u8) -> Cx
        requires { state < 47 }
        ensures { result ≡ begins state }
    {
        Cx { state, mps: false }
    }

    /// The row of the context's state.
    pub fn row(self) -> Row
        ensures row { result ≡ row_of self.state }
        ensures smallest { 1 ≤ result.qe }
        ensures largest { result.qe ≤ 0x5601 }
        ensures after_mps { result.next_mps < 47 }
        ensures after_lps { result.next_lps < 47 }
    {
        STATES[self.state as usize]
    }
}

/// Contexts 0 to 18 as they are at the start (T.800 Table D.7).
pub fn first_contexts() -> [Cx; 19]
    ensures { result ≡ start }
{
    let mut contexts = [Cx::new(0); 19];
    contexts[0] = Cx::new(4);
    contexts[17] = Cx::new(3);
    contexts[18] = Cx::new(46);
    contexts
}

/// The context after a renormalisation that `bit` caused (T.800 C.2.5, C.3.2).
pub fn next_state(cx: Cx, bit: bool) -> Cx
    ensures { result ≡ moved cx bit }
{
    let row = cx.row();
    if bit == cx.mps {
        Cx {
            state: row.next_mps,
            mps: cx.mps,
        }
    } else {
        Cx {
            state: row.next_lps,
            mps: if row.switch { !cx.mps } else { cx.mps },
        }
    }
}
