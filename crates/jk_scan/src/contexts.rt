//! The contexts of the three kinds of decisions (T.800 Tables D.1 to D.4).

ghost use Rattle.std.specs.Prelude.{◌≡◌, ◌<◌, ◌≤◌};
ghost use Rattle.jk_scan.specs.Contexts.{low_context_of, high_context_of, zero_context_of, contribution_of};
ghost use Rattle.jk_scan.specs.Contexts.{sign_context_of, refine_context_of};

use jk_math::Orientation;

/// What two neighbours across, or two down, contribute to the context of a sign (T.800 Table D.2).
#[derive(Clone, Copy, Debug, PartialEq, Eq)]
pub enum Contribution {
    /// One or both are negative.
    Negative,
    /// Neither is significant, or their signs differ.
    Balanced,
    /// One or both are positive.
    Positive,
}

/// The context of a sign, and whether the decision there is the sign's opposite (T.800 Table D.3).
#[derive(Clone, Copy, Debug, PartialEq, Eq)]
pub struct SignContext {
    /// The number of the context.
    pub context: u8,
    /// Whether a negative sign is decided as 0.
    pub flip: bool,
}

/// The context of the bit of a coefficient that isn't significant yet, from its significant
/// neighbours across, down and diagonal (T.800 Table D.1).
#[tactic(auto, unfolding(crate::specs::Contexts::zero_context_of))]
pub fn zero_context(orientation: Orientation, horizontal: u8, vertical: u8, diagonal: u8) -> u8
    requires horizontal { horizontal ≤ 2 }
    requires vertical { vertical ≤ 2 }
    ensures value { result ≡ zero_context_of orientation horizontal vertical diagonal }
    ensures small { result < 9 }
{
    match orientation {
        Orientation::LL | Orientation::LH => low_context(horizontal, vertical, diagonal),
        Orientation::HL => low_context(vertical, horizontal, diagonal),
        Orientation::HH => high_context(horizontal + vertical, diagonal),
    }
}

/// The column of LL and LH.
fn low_context(horizontal: u8, vertical: u8, diagonal: u8) -> u8
    ensures value { result ≡ low_context_of horizontal vertical diagonal }
    ensures small { result < 9 }
{
    match (horizontal, vertical, diagonal) {
        (2.., _, _) => 8,
        (1, 1.., _) => 7,
        (1, 0, 1..) => 6,
        (1, 0, 0) => 5,
        (0, 2.., _) => 4,
        (0, 1, _) => 3,
        (0, 0, 2..) => 2,
        (0, 0, 1) => 1,
        (0, 0, 0) => 0,
    }
}

/// The column of HH.
fn high_context(beside: u8, diagonal: u8) -> u8
    ensures value { result ≡ high_context_of beside diagonal }
    ensures small { result < 9 }
{
    match (diagonal, beside) {
        (3.., _) => 8,
        (2, 1..) => 7,
        (2, 0) => 6,
        (1, 2..) => 5,
        (1, 1) => 4,
        (1, 0) => 3,
        (0, 2..) => 2,
        (0, 1) => 1,
        (0, 0) => 0,
    }
}

/// What two neighbours contribute, by how many of them are significant and positive, and
/// significant and negative.
#[tactic(auto, unfolding(crate::specs::Contexts::contribution_of))]
pub fn contributed(positive: u8, negative: u8) -> Contribution
    ensures { result ≡ contribution_of positive negative }
{
    if positive > negative {
        Contribution::Positive
    } else if positive < negative {
        Contribution::Negative
    } else {
        Contribution::Balanced
    }
}

/// The context of a sign (T.800 Table D.3).
#[tactic(auto, unfolding(crate::specs::Contexts::sign_context_of))]
pub fn sign_context(horizontal: Contribution, vertical: Contribution) -> SignContext
    ensures value { result ≡ sign_context_of horizontal vertical }
    ensures least { 9 ≤ result.context }
    ensures largest { result.context ≤ 13 }
{
    let (context, flip) = match (horizontal, vertical) {
        (Contribution::Positive, Contribution::Positive) => (13, false),
        (Contribution::Positive, Contribution::Balanced) => (12, false),
        (Contribution::Positive, Contribution::Negative) => (11, false),
        (Contribution::Balanced, Contribution::Positive) => (10, false),
        (Contribution::Balanced, Contribution::Balanced) => (9, false),
        (Contribution::Balanced, Contribution::Negative) => (10, true),
        (Contribution::Negative, Contribution::Positive) => (11, true),
        (Contribution::Negative, Contribution::Balanced) => (12, true),
        (Contribution::Negative, Contribution::Negative) => (13, true),
    };
    SignContext { context, flip }
}

/// The context of the bit of a coefficient that is significant, by whether a bit of it was refined
/// before, and whether one of its eight neighbours is significant (T.800 Table D.4).
#[tactic(auto, unfolding(crate::specs::Contexts::refine_context_of))]
pub fn refine_context(refined: bool, touched: bool) -> u8
    ensures value { result ≡ refine_context_of refined touched }
    ensures least { 14 ≤ result }
    ensures largest { result ≤ 16 }
{
    if refined {
        16
    } else if touched {
        15
    } else {
        14
    }
}
