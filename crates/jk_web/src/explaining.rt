//! Why a request wasn't answered with what it asks for, for a log. It decides nothing.

use crate::query::{is_empty, window_asked};
use crate::resource::{NamedResource, resource_of, split_target};
use std::alloc::Global;

/// Why a query of an image or of the list is bad, or of a window.
fn why_bad(alloc: Global, resource: NamedResource<'_>, query: &[u8]) -> &'static str {
    match resource {
        NamedResource::Window(_) => match window_asked(alloc, query) {
            Ok(None) =>
                "a window takes x, y, w and h, and may take r and layers, each once and a number",
            _ => "the window has no sample of the image",
        },
        _ if is_empty(query) => "the request is bad",
        _ => "this path takes no query",
    }
}

/// Why a request for this target was answered with this status, where that is one for an error.
pub fn why(alloc: Global, target: &[u8], status: u16) -> Option<&'static str> {
    let (path, query) = split_target(target);
    let resource = resource_of(path);
    match status {
        400 => Some(why_bad(alloc, resource, query)),
        404 => match resource {
            NamedResource::Nowhere => Some("there is no such path"),
            _ => Some("no image of this name is listed"),
        },
        405 => Some("GET alone is answered"),
        500 => Some("the stored file can't be read, or has changed"),
        _ => None,
    }
}
