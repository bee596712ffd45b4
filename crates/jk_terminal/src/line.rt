//! The line on which it is told how far something is: it is written anew in its place.

/// How long nothing is told, in milliseconds.
pub(crate) const FIRST: u64 = 1000;

/// How long it takes between two lines, in milliseconds.
pub(crate) const PAUSE: u64 = 200;

/// What the line is overwritten with at the end.
pub(crate) const BLANK: &str =
    "                                                                               ";
