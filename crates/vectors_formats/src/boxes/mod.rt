//! Tests of the boxes: what no clause says, and whether the clauses say what T.800 does.

mod cases;
mod tests;
