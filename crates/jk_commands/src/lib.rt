//! What each command of jk makes of byte strings: no file is opened here, and nothing is printed.
#![tactic(auto)]

mod box_list;
mod coding_values;
mod comparing;
mod cutting;
mod decoding;
mod decoding_rows;
mod dressing;
mod encoding;
mod encoding_from;
mod encoding_rows;
mod encoding_rows_by;
mod layers;
mod markers;
mod row_decoders;
mod sums;
mod telling;
mod telling_all;
mod theorems;
mod values;
mod viewing;

pub use comparing::{Change, Difference, differences, differences_text};
pub use cutting::cut_file;
pub use decoding::{check_workers, decode_file};
pub use decoding_rows::{decode_rows_into, decode_rows_into_with};
pub use dressing::{
    components_of, dress_file, encode_file_dressed, encode_file_dressed_with, encode_image_dressed,
    encode_image_dressed_into, encode_image_dressed_with,
};
pub use encoding::{encode_file, encode_file_into, read_image};
pub use encoding_from::encode_rows_from;
pub use encoding_rows::encode_rows_into;
pub use jk_options::{EncodeOptions, Placed, Plan, judge, order_name, order_named};
pub use layers::first_layers;
pub use sums::{BadList, Sum, read_sums, sums_text};
pub use telling::info_file;
pub use telling_all::info_all_file;
pub use theorems::encode_and_decode;
pub use viewing::decode_window_file_into;
