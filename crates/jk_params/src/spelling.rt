//! What a codestream spells.

ghost use Rattle.std.specs.Prelude.{◌≡◌, List, ℕ};
ghost use Rattle.jk_marks.specs.Codestream.{Tree, IsCodestream};
ghost use Rattle.jk_params.specs.Headers.{Headers, IsHeaders};

/// A codestream is spelled by one tree at most, and its headers say one thing at most (T.800 A.3).
pub fn one_parse()
    ensures tree { (bytes : List ℕ) (t u : Tree) → IsCodestream bytes t → IsCodestream bytes u → t ≡ u }
    ensures headers { (bytes : List ℕ) (g h : Headers) → IsHeaders bytes g → IsHeaders bytes h → g ≡ h }
{}
