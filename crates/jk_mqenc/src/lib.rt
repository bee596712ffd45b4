//! The MQ encoder of T.800 Annex C.
#![tactic(auto)]

mod coder;
mod encoder;
mod registers;
mod theorems;

pub use encoder::Encoder;
pub use theorems::written_grows;
