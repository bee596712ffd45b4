//! Requests.

use crate::octets::Octets;

/// What the head of a request asks for.
#[derive(Debug, Drop)]
pub struct Request {
    /// The method, as it was sent.
    pub method: Octets,
    /// The request target, as it was sent.
    pub target: Octets,
    /// Whether the connection closes after the reply.
    pub closes: bool,
}
