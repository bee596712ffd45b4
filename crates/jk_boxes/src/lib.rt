//! The boxes of JP2 files (T.800 Annex I), both ways.
#![tactic(auto)]

mod boxes;
mod head;
mod place;
mod writing;

pub use boxes::{BoxHead, COLOUR, Form, HEADER, read_box};
pub use head::{code_form, code_head};
pub use place::{Boxed, open};
pub use writing::{box_front, front, replace_codestream, wrap};
