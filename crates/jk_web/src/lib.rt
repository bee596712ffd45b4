//! HTTP/1.1 for images: requests out of the bytes of a connection in any pieces, and the bytes of
//! the replies.
#![tactic(auto)]

mod answering;
mod budget;
mod cache;
mod explaining;
mod fields;
mod head;
mod octets;
mod query;
mod reply;
mod request;
mod resource;
mod running;
mod service;
mod serving;
mod session;
mod source;
mod theorems;
mod windows;
mod witness;

pub use answering::{answer, answer_with};
pub use cache::Cache;
pub use explaining::why;
pub use head::{FIELD_LIMIT, HEAD_LIMIT};
pub use jk_catalogue::{Catalogue, View as Asked};
pub use octets::Octets;
pub use query::window_asked;
pub use reply::{Media, Reply, bad};
pub use request::Request;
pub use resource::{NamedResource, resource_of};
pub use running::{run, run_with};
pub use service::Service;
pub use serving::{End, serve_connection};
pub use session::{Next, Session};
pub use source::{Connection, Source};
pub use theorems::cut_texts_begin_whole_ones;
pub use witness::{Nobody, Witness};
