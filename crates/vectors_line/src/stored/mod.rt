//! Windows of stored files, with answers from outside.

mod calls;
mod ends;
mod forms;
mod reads;
mod rows;
