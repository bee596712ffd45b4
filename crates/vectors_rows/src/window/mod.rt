//! Windows of files, cut out, with answers from outside.

mod asserts;
mod calls;
mod cuts;
mod decoded;
mod fronts;
mod limits;
mod many;
mod meanings;
mod views;
mod walked;
