//! The lines of the operator.

ghost use Rattle.std.specs.Prelude.{◌≡◌, ℕ, List, None, IfSome};
ghost use Rattle.jk_serve.specs.OperatorLines.{IsAdding};

/// What a line of the operator asks for: that the image of a file is added under a name.
#[derive(Clone, Copy, Debug, PartialEq, Eq)]
pub struct Adding<'a> {
    pub name: &'a str,
    pub path: &'a str,
}

/// What a line asks for: `add NAME PATH`, where NAME has no space and PATH is the rest of the line.
/// Other lines ask for nothing.
pub fn adding_of(line: &str) -> Option<Adding<'_>>
    ensures found { IfSome result (λ a. IsAdding line.now a.name.now a.path.now) }
    ensures only { result ≡ None → (name path : List ℕ) → IsAdding line.now name path → ⊥ }
{
    let rest = line.strip_prefix("add ")?;
    let (name, path) = rest.split_once(' ')?;
    Some(Adding { name, path })
}
