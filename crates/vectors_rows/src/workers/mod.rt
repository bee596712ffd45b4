//! Images decoded by several workers, with answers from outside, and jobs that are done beside something else.

mod beside;
mod decoded;
