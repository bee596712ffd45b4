//! Connections of a source, whose beginning others wait for.

use jk_hall::{Connection, Source, Start};
use jk_web::End;
use std::sync::Wait;

/// The connections of a source. Those who wait for the beginning are told when it comes.
#[derive(Drop)]
pub(crate) struct Beginning<'a, R, C> {
    pub(crate) rt: &'a R,
    pub(crate) source: &'a C,
    pub(crate) start: &'a Start,
}

impl<'a, R: Wait, C: Source> Source for Beginning<'a, R, C> {
    type In = C::In;

    type Out = C::Out;

    type Told = C::Told;

    fn take(&self) -> Option<Connection<C::In, C::Out, C::Told>> {
        self.start.begin(self.rt);
        self.source.take()
    }

    fn ended(&self, connection: Connection<C::In, C::Out, C::Told>, end: Option<End>) {
        self.source.ended(connection, end);
    }
}
