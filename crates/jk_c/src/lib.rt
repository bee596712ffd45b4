//! jk for C programs: each call works over the caller's memory and answers a number.
//!
//! An image lies pixel by pixel and row by row, the components of a pixel side by side, in bytes or
//! in words of two bytes in the machine's order. No call keeps anything, and none has a `requires`.
#![tactic(auto)]

mod answers;
mod codes;
mod coding;
mod decoding;
mod encoding;
mod frames;
mod info;
mod keeping;
mod pixel_rows;
mod pixel_supply;
mod samples;
mod signed;
mod stripes;
mod version;
mod windows;

pub use coding::CallerCoding;
pub use decoding::{jk_decode_i8, jk_decode_i16, jk_decode_u8, jk_decode_u16};
pub use encoding::{jk_encode_i8, jk_encode_i16, jk_encode_u8, jk_encode_u16};
pub use frames::CallerFrame;
pub use info::jk_info;
pub use keeping::{jk_extras, jk_with_extras};
pub use version::jk_version;
pub use windows::{
    jk_cut, jk_decode_window_i8, jk_decode_window_i16, jk_decode_window_u8, jk_decode_window_u16,
};
