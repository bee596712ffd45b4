//! Tests of what a JP2 file keeps beside the samples: what no clause says, and whether the clauses
//! say what T.800 does.

mod boxes;
mod claims;
mod given;
mod inches;
mod judging;
mod reading;
mod told;
mod writing;
