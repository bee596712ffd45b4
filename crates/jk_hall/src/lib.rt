//! The catalogue that the connections of a server share: one writer adds images to a list, and
//! readers that wait for nobody answer requests from beginnings of it.
#![tactic(auto)]

mod appending;
mod attending;
mod hall;
mod history;
mod law;
mod looking;
mod looks;
mod place;
mod reader;
mod rule;
mod serving;
mod shown;
mod start;
mod told;
mod writer;

pub use hall::Hall;
pub use jk_web::{Connection, Nobody, Source, Witness};
pub use law::{cut_texts_begin_whole_ones, lists_looked_at_grow};
pub use place::Place;
pub use reader::Reader;
pub use serving::serve_all;
pub use start::Start;
pub use told::Told;
pub use writer::Writer;
