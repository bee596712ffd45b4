//! Tests of PGM and PPM files: what no clause says, and whether the definitions say what the format
//! does.

mod cases;
mod tests;
