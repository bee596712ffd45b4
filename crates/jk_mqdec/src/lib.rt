//! The MQ decoder of T.800 Annex C.
#![tactic(auto)]

mod decoder;
mod deferred;
mod pass_decoder;
mod registers;
mod wide;

pub use decoder::Decoder;
pub use pass_decoder::PassDecoder;
