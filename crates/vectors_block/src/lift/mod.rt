//! Tests of the colour transform and of the wavelet transform on lines, rows, sub-bands and
//! regions of resolutions.

mod bands;
mod calls;
mod formula;
mod lanes;
mod regions;
mod tests;
