//! Synthesis row by row (T.800 F.3). A `climb` holds two rows of a level, and `rows` lifts one of
//! them between two; a `plane` gives it rows in pairs, which `parts` weaves of the resolution below
//! and of the sub-bands. A `level` climbs in steps, so far as `intervals` tells, and levels stand
//! one over another in a `stack`.

mod climb;
mod intervals;
mod level;
mod parts;
mod plane;
mod rows;
mod stack;

pub use intervals::{rows_asked, rows_reached, rows_taken};
pub use level::{ClimbingLevel, HighRows};
pub use parts::GivenRows;
pub use stack::synthesise_by_rows;
