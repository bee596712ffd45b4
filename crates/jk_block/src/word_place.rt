//! Which pass it is, and at which word of a block.

ghost use Rattle.std.specs.Prelude.{◌≡◌, ◌<◌};
ghost use Rattle.jk_block.specs.Meaning.{kind_of};
ghost use Rattle.jk_block.specs.Steps.{number_of};
ghost use Rattle.jk_block.specs.Symbols.{ends_with_symbol};

use jk_math::Style;

/// The three passes of a bit-plane.
#[derive(Clone, Copy, Debug, PartialEq, Eq)]
pub enum Pass {
    /// Significance propagation (T.800 D.3.1).
    Propagation,
    /// Magnitude refinement (T.800 D.3.3).
    Refinement,
    /// Cleanup (T.800 D.3.4).
    Cleanup,
}

/// Which pass of a bit-plane is the n-th of a block.
pub fn pass_of(n: usize) -> Pass
    requires { n < 100 }
    ensures { number_of result ≡ kind_of n }
{
    match (n + 2) % 3 {
        0 => Pass::Propagation,
        1 => Pass::Refinement,
        _ => Pass::Cleanup,
    }
}

/// Whether a segmentation symbol ends a pass of this style (T.800 D.5).
pub fn ends_with_symbol(style: Style, pass: Pass) -> bool
    ensures { result ≡ ends_with_symbol style (number_of pass) }
{
    match pass {
        Pass::Cleanup => style.segments,
        _ => false,
    }
}

/// A word of a stripe in a bit-plane.
#[derive(Clone, Copy)]
pub struct WordPlace {
    /// The bit-plane.
    pub plane: u32,
    /// Which word of the stripe.
    pub word: usize,
    /// The stripe.
    pub stripe: usize,
}
