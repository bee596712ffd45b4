//! What a codestream spells.

ghost use Rattle.std.specs.Prelude.{◌≡◌, List, ℕ};
ghost use Rattle.jk_marks.specs.Codestream.{Tree, IsCodestream};

/// A codestream is spelled by one tree at most (T.800 A.3).
pub fn one_tree()
    ensures { (bytes : List ℕ) (t u : Tree) → IsCodestream bytes t → IsCodestream bytes u → t ≡ u }
{}
