//! Encoding and decoding: what a file means.
#![tactic(auto)]

mod coded;
mod coming;
mod coming_walk;
mod coming_with;
mod contents;
mod decoding;
mod decoding_with;
mod encoding;
mod encoding_image;
mod encoding_rows;
mod encoding_rows_with;
mod frames;
mod image_rows;
mod image_tiles;
mod keeping;
mod reading;
mod reduction;
mod row_walk;
mod rows;
mod rows_with;
mod tabled;
mod team;
mod tile_data;
mod viewing;
mod windows;
mod writing;

pub use decoding::decode;
pub use decoding_with::decode_with;
pub use encoding_image::{encode, encode_into, encode_with};
pub use encoding_rows::{RowSupply, encode_rows, encode_rows_to};
pub use encoding_rows_with::{encode_rows_with, encode_rows_with_to};
pub use frames::{ImageFrame, frame};
pub use jk_tile::{TextSink, TextWriter};
pub use keeping::judge_file;
pub use rows::{Rows, decode_rows};
pub use rows_with::decode_rows_with;
pub use team::Team;
pub use viewing::{decode_window, decode_window_by};
pub use windows::{
    cut_files_show_the_window, pictures_have_indexes, window, windows_show_the_picture,
};
