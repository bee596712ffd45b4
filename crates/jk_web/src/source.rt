//! Where connections come from.

use crate::serving::End;
use crate::witness::Witness;
use std::io::{Read, Write};

/// A connection: what is read of it, where replies are written, and who is told of its requests.
#[derive(Drop)]
pub struct Connection<I, O, W> {
    pub input: I,
    pub output: O,
    pub witness: W,
}

/// Where connections come from.
pub trait Source {
    type In: Read + Drop + Send;

    type Out: Write + Drop + Send;

    type Told: Witness + Drop + Send;

    /// The next connection, or None where no more come.
    fn take(&self) -> Option<Connection<Self::In, Self::Out, Self::Told>>;

    /// Is given back a connection that has ended: why, or None where a request was refused.
    fn ended(&self, connection: Connection<Self::In, Self::Out, Self::Told>, end: Option<End>) {
        let _ = (connection, end);
    }
}
