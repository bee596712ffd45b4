//! Analysis row by row (T.800 F.4). A `fall` is given the rows of a level one by one, and `rows`
//! lifts one of them between two; a `level` takes as many as there are and hands out rows of its four
//! parts, so far as `intervals` tells, and levels stand one under another in a `stack`.

mod fall;
mod intervals;
mod level;
mod rows;
mod stack;

pub use intervals::rows_fallen;
pub use level::FallingLevel;
pub use stack::{Falling, analyse_by_rows};
