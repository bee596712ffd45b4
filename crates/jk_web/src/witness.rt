//! Who is told of requests.

use crate::reply::Reply;
use crate::request::Request;

/// Is told of the requests of a connection.
pub trait Witness {
    /// A request is answered so. The reply is sent next.
    fn answered(&self, request: &Request, reply: &Reply);
}

/// A witness that keeps nothing.
#[derive(Clone, Copy, Debug)]
pub struct Nobody;

impl Witness for Nobody {
    fn answered(&self, _request: &Request, _reply: &Reply) {}
}
