//! Code-blocks on worker threads, with answers from outside.

mod cases;
mod tests;
