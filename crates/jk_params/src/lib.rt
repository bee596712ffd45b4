//! The parameters of an encoding, and the headers of a codestream as a whole.
#![tactic(auto)]

mod coding;
mod count;
mod headers;
mod levels;
mod markers;
mod parameters;
mod picture_frame;
mod placing;
mod profile;
mod spelling;
mod table;
mod walk;

pub use coding::effective;
pub use headers::Codestream;
pub use markers::PacketMarkers;
pub use parameters::{Container, Parameters};
pub use picture_frame::{PictureFrame, frame_of};
pub use placing::parts_are_placed;
pub use profile::{cod_of, coding_with, codings_for, siz_for, siz_of};
pub use spelling::one_parse;
pub use walk::read_codestream;
