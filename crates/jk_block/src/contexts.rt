//! The contexts of decisions that hang on no neighbour (T.800 Table D.5).

/// Whether a column in run mode has a place that becomes significant.
pub const RUN_LENGTH: u8 = 17;

/// Which row of such a column it is, and the segmentation symbol.
pub const UNIFORM: u8 = 18;
