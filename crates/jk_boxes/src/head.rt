//! The head of the codestream box.

ghost use Rattle.std.specs.Prelude.{◌≡◌, List, ℕ, Ok, MatchResult, nat_eq};
ghost use Rattle.std.specs.List.{starts_with};
ghost use Rattle.jk_math.specs.Memory.{IsMemory};
ghost use Rattle.jk_boxes.specs.declared.place.Boxed.{Boxed};
ghost use Rattle.jk_boxes.specs.Boxes.{HoldsAt, FitsForm, head_text, code_kind, form_of};
ghost use Rattle.jk_boxes.specs.Reading.{form_at};

use crate::boxes::{self, Form};
use crate::place::{code_place, is_bare};
use crate::writing::put_head;
use jk_math::Fault;
use std::alloc::Global;

#[tactic(auto, unfolding(crate::specs::Reading::form_at))]
fn read_form(bytes: &[u8]) -> Result<Form, Fault>
    ensures { result ≡ form_at bytes.now }
{
    if is_bare(bytes) {
        return Ok(Form::Open);
    }
    let place = code_place(bytes)?;
    Ok(place.form)
}

/// How the length of the codestream box of a file is told (T.800 I.4). A bare codestream has no
/// box: it goes on to the end of the file, which is `Open`.
///
/// Faults as those of `open`, but for a file of less than two bytes.
pub fn code_form(bytes: &[u8]) -> Result<Form, Fault>
    ensures exact { result ≡ form_at bytes.now }
    // A file that holds a codestream at a place has the form of its box.
    ensures holds { (codestream : List ℕ) (place : Boxed) (holds : HoldsAt bytes.now codestream place)
        → result ≡ Ok (form_of holds) }
{
    read_form(bytes)
}

/// The head of a codestream box: LBox, TBox and, in the long form, XLBox (T.800 I.4). The size is
/// that of the whole box.
pub fn code_head(alloc: Global, form: Form, size: usize) -> Result<Vec<u8>, Fault>
    requires { FitsForm form size }
    ensures { MatchResult result (λ v. v.items ≡ head_text form code_kind size) (λ e. IsMemory e) }
{
    let mut head = Vec::with_capacity(alloc, 16)?;
    put_head(&mut head, form, boxes::CODE, size)?;
    Ok(head)
}
