//! The MQ coder of T.800 Annex C as both directions see it: the table of states, the contexts and
//! their moves, and the definitions of the code value and of the decisions that bytes spell.
#![tactic(auto)]

mod choices;
mod context;
mod steps;
mod table;
mod theorems;

pub use choices::{chosen, highest_bit, kept};
pub use context::{Cx, first_contexts, next_state};
pub use steps::{Step, first_steps};
pub use table::{Row, STATES};
pub use theorems::{
    alike_spelling, given_decisions, joined_spelling, one_spelling, one_spelling_by_passes,
    placed_value, spelling_by_passes, standard_states,
};
