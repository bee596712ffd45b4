//! What holds of the table and of the definitions. None of these functions does anything at run
//! time.

ghost use Rattle.std.specs.Prelude.{◌≡◌, ◌↔◌, ℕ, ◌+◌, ◌*◌, ◌^◌, ◌<◌, ◌≤◌, List, [], ◌∷◌, ◌++◌, length, map};
ghost use Rattle.std.specs.Prelude.{Bool, false};
ghost use Rattle.jk_model.specs.Code.{code_value};
ghost use Rattle.jk_model.specs.Contexts.{rows};
ghost use Rattle.jk_model.specs.Deciding.{state_by, Follows, Alike};
ghost use Rattle.jk_model.specs.Placed.{placed_number, end, Clean, onto};
ghost use Rattle.jk_model.specs.Decisions.{State, Decision, SpellsFrom, Spells, state_after, chosen};
ghost use Rattle.jk_model.specs.CodingPasses.{SpellsPassesFrom, SpellsPasses, state_after_passes, state_by_passes};
ghost use Rattle.jk_model.specs.CodingPasses.{chosen_passes};
ghost use Rattle.std.specs.List.{flat_map};

use crate::table::STATES;

/// [`STATES`] is the table of T.800 Table C.2.
pub fn standard_states()
    ensures { STATES ≡ rows }
{}

/// A segment spells at most one list of bits of each length, also where each context is chosen by
/// the bits before it.
pub fn one_spelling()
    ensures { (bytes : List ℕ) (choose : List Bool → ℕ) (xs ys : List Bool) → length xs ≡ length ys
        → Spells bytes (chosen choose [] xs) → Spells bytes (chosen choose [] ys) → xs ≡ ys }
{}

/// Decisions are spelled one list after another.
pub fn joined_spelling()
    ensures spelled { (bytes : List ℕ) (s : State) (xs ys : List Decision) → SpellsFrom bytes s (xs ++ ys)
        ↔ (SpellsFrom bytes s xs × SpellsFrom bytes (state_after bytes s xs) ys) }
    ensures state { (bytes : List ℕ) (s : State) (xs ys : List Decision)
        → state_after bytes s (xs ++ ys) ≡ state_after bytes (state_after bytes s xs) ys }
{}

/// A segment spells at most one list of bits of each length in each pass, with context reset or
/// without, also where each context is chosen by the bits before it.
pub fn one_spelling_by_passes()
    ensures { (reset : Bool) (bytes : List ℕ) (choose : List (List Bool) → List Bool → ℕ) (xss yss : List (List Bool))
        → map length xss ≡ map length yss → SpellsPasses reset bytes (chosen_passes choose [] xss)
        → SpellsPasses reset bytes (chosen_passes choose [] yss) → xss ≡ yss }
{}

/// The decisions of passes are spelled pass by pass. Without context reset they are one list.
pub fn spelling_by_passes()
    ensures spelled { (reset : Bool) (bytes : List ℕ) (s : State) (xss yss : List (List Decision))
        → SpellsPassesFrom reset bytes s (xss ++ yss) ↔ (SpellsPassesFrom reset bytes s xss
        × SpellsPassesFrom reset bytes (state_after_passes reset bytes s xss) yss) }
    ensures state { (reset : Bool) (bytes : List ℕ) (s : State) (dss : List (List Decision))
        → SpellsPassesFrom reset bytes s dss
        → state_after_passes reset bytes s dss ≡ state_by_passes reset s dss }
    ensures flat { (bytes : List ℕ) (dss : List (List Decision))
        → SpellsPasses false bytes dss ↔ Spells bytes (flat_map (λ ds. ds) dss) }
{}

/// The states that decisions lead to need no bytes: they are those of all bytes that spell the
/// decisions, and bytes spell them just where the code value follows the subintervals that stand
/// for their bits.
pub fn given_decisions()
    ensures state { (bytes : List ℕ) (s : State) (ds : List Decision)
        → SpellsFrom bytes s ds → state_after bytes s ds ≡ state_by s ds }
    ensures spelled { (bytes : List ℕ) (s : State) (ds : List Decision) → Follows bytes s ds ↔ SpellsFrom bytes s ds }
    ensures joined { (s : State) (xs ys : List Decision) → state_by s (xs ++ ys) ≡ state_by (state_by s xs) ys }
{}

/// Bytes that read alike spell the same decisions, and a last FF can be left off.
pub fn alike_spelling()
    ensures spelled { (a b : List ℕ) (s : State) (ds : List Decision)
        → Alike a b → SpellsFrom a s ds → SpellsFrom b s ds }
    ensures value { (a b : List ℕ) (n : ℕ) → Alike a b → code_value a n ≡ code_value b n }
    ensures last { (bytes : List ℕ) → Alike (bytes ++ 255 ∷ []) bytes }
{}

/// The code value of bytes that are placed, the last one first, before further bytes: what they
/// decide by their number, that no further byte changes what they decide, and what the ones past
/// the end add.
pub fn placed_value()
    ensures decided { (xs : List ℕ) (x : ℕ) (q : List ℕ) (n t : ℕ) → Clean (x ∷ xs) → end xs ≤ n + 14
        → t + end (x ∷ xs) ≡ n + 22 → t < 8 → code_value (onto (x ∷ xs) q) n ≡ placed_number (x ∷ xs) * 2 ^ t }
    ensures kept { (bs p q : List ℕ) (n : ℕ) → Clean bs → n + 15 ≤ end bs
        → code_value (onto bs p) n ≡ code_value (onto bs q) n }
    ensures ones { (xs : List ℕ) (x n t : ℕ) → Clean (x ∷ xs) → end xs ≤ n + 14 → t + end (x ∷ xs) ≡ n + 22
        → (r : ℕ) × (r < 8) × (code_value (onto (x ∷ xs) []) n + 2 ^ r ≡ (placed_number (x ∷ xs) + 1) * 2 ^ t) }
{}
