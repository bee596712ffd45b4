//! Connections of which it is noticed which images are asked for and aren't listed.

use crate::post::Post;
use jk_hall::{Connection, Source, Witness};
use jk_store::is_good_name;
use jk_web::{End, NamedResource, Reply, Request, resource_of};

/// The status of a reply where there is no such image.
const NOT_FOUND: u16 = 404;

/// The name of the image that a request target asks for, if it is a good one.
fn name_asked(target: &[u8]) -> Option<&str> {
    let path = match target.iter().position(|byte| *byte == b'?') {
        Some(at) => &target[..at],
        None => target,
    };
    let name = match resource_of(path) {
        NamedResource::Whole(name) | NamedResource::Window(name) => name,
        NamedResource::Listing | NamedResource::Nowhere => return None,
    };
    let name = str::from_utf8(name).ok()?;
    if is_good_name(name) { Some(name) } else { None }
}

/// A witness who keeps the names that weren't found.
#[derive(Drop)]
pub struct Noticed<'a, W> {
    witness: W,
    post: &'a Post,
}

impl<'a, W: Witness> Witness for Noticed<'a, W> {
    fn answered(&self, request: &Request, reply: &Reply) {
        if reply.status == NOT_FOUND {
            if let Some(name) = name_asked(request.target.as_slice()) {
                self.post.put(name);
            }
        }
        self.witness.answered(request, reply);
    }
}

/// The connections of a source, of which it is noticed what isn't found.
#[derive(Drop)]
pub(crate) struct Noticing<'s, 'a, C> {
    pub(crate) source: &'s C,
    pub(crate) post: &'a Post,
}

impl<'s, 'a, C: Source> Source for Noticing<'s, 'a, C> {
    type In = C::In;

    type Out = C::Out;

    type Told = Noticed<'a, C::Told>;

    fn take(&self) -> Option<Connection<C::In, C::Out, Noticed<'a, C::Told>>> {
        let Connection {
            input,
            output,
            witness,
        } = self.source.take()?;
        Some(Connection {
            input,
            output,
            witness: Noticed {
                witness,
                post: self.post,
            },
        })
    }

    fn ended(&self, connection: Connection<C::In, C::Out, Noticed<'a, C::Told>>, end: Option<End>) {
        let Connection {
            input,
            output,
            witness: Noticed { witness, .. },
        } = connection;
        self.source.ended(
            Connection {
                input,
                output,
                witness,
            },
            end,
        );
    }
}
