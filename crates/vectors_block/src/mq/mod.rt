//! Segments that the MQ decoder and decisions that the MQ encoder are tried on, with answers from
//! outside.

mod cases;
mod encoded;
mod encoding;
mod refusals;
mod tests;
