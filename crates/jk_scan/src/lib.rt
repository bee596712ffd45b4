//! The coefficient bit modelling of T.800 Annex D: the order in which the coefficients of a
//! code-block are visited, their neighbours, the contexts, and the definition of what each coding
//! pass decides.
#![tactic(auto)]

mod around;
mod bytes;
mod columns;
mod contexts;
mod digits;
mod flags;
mod nearby;
mod shape;
mod tables;
mod theorems;
mod words;

pub use around::{
    Around, neighbourhood, nine, quiet, quiet_behind, sign_context_at, zero_context_at,
};
pub use bytes::{DecisionBytes, byte_in, decision_bytes};
pub use contexts::{
    Contribution, SignContext, contributed, refine_context, sign_context, zero_context,
};
pub use flags::{WORDS, inside, seen_among, seen_around, word_place, words_across};
pub use shape::BlockShape;
pub use tables::{sign_context_of_eight, zero_context_of_nine};
pub use theorems::untouched_context;
pub use words::{gather, members, quiet_columns, quiet_in_turn, touched_places};
