//! JP2 boxes, what a file keeps beside the samples, and PGM and PPM files: what no clause says, and whether the clauses
//! say what the formats do.
#![tactic(auto)]

#[cfg(test)]
mod boxes;
#[cfg(test)]
mod extras;
#[cfg(test)]
mod pnm;
