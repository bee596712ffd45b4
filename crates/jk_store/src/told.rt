//! What is told of an image that was to be added.

ghost use Rattle.std.specs.Prelude.{◌≡◌, ◌++◌, ◌∷◌, [], ℕ, List, IfOk};
ghost use Rattle.std.specs.String.{string_bytes};
ghost use Rattle.jk_store.specs.Told.{added_word, refused_word};

use jk_math::Fault;
use std::alloc::{AllocError, Global};

/// What is told where an image was added: `added NAME`, and the end of the line.
pub fn added_text(alloc: Global, name: &str) -> Result<String, AllocError>
    ensures { IfOk result (λ t. string_bytes t ≡ added_word ++ name.now ++ 10 ∷ []) }
{
    format!(in alloc; "added {name}\n")
}

/// What is told where it was refused for this.
fn refused_for(alloc: Global, name: &str, why: &str) -> Result<String, AllocError>
    ensures { IfOk result (λ t. string_bytes t ≡ refused_word ++ (name.now ++ 32 ∷ (why.now ++ 10 ∷ []))) }
{
    format!(in alloc; "refused {name} {why}\n")
}

/// What is told where it was refused: `refused NAME FAULT`, and the end of the line.
pub fn refused_text(alloc: Global, name: &str, fault: Fault) -> Result<String, AllocError>
    ensures { IfOk result (λ t. (why : List ℕ) × (string_bytes t ≡ refused_word ++ (name.now ++ 32 ∷ (why ++ 10 ∷ [])))) }
{
    let why = fault.to_string(alloc)?;
    refused_for(alloc, name, why.as_str())
}
