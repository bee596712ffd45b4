use crate::asserts::{equal, equal_at};
use crate::calls::{feed, named, next};
use crate::cases::{BAD, LAYERS, PATHS, QUERIES, STREAMS};
use jk_web::{Asked, NamedResource, Next, Request, Session, bad, window_asked};
use std::alloc::Global;
use std::process::Abort;

/// Adds bytes.
fn add(rt: &impl Abort, out: &mut Vec<u8>, bytes: &[u8]) {
    out.extend_from_slice(bytes).expect(rt, "bytes");
}

/// Adds a line on a request.
fn tell(rt: &impl Abort, out: &mut Vec<u8>, request: &Request) {
    add(rt, out, request.method.as_slice());
    add(rt, out, b" ");
    add(rt, out, request.target.as_slice());
    let end: &[u8] = if request.closes { b" close\n" } else { b"\n" };
    add(rt, out, end);
}

/// Adds a line on a bad request.
fn tell_bad(rt: &impl Abort, alloc: Global, out: &mut Vec<u8>, status: u16) {
    let text = status.to_string(alloc).expect(rt, "a status");
    add(rt, out, text.as_bytes());
    add(rt, out, b"\n");
}

/// Takes all that is asked so far, and tells whether more may come.
fn drain(rt: &impl Abort, alloc: Global, session: &mut Session, out: &mut Vec<u8>) -> bool {
    for _ in 0..100 {
        match next(rt, session) {
            Next::Request(request) => tell(rt, out, &request),
            Next::More => return true,
            Next::Bad(status) => {
                tell_bad(rt, alloc, out, status);
                return false;
            }
        }
    }
    false
}

/// What is asked in a stream that comes in pieces of this size, up to where no more may come.
fn told(rt: &impl Abort, alloc: Global, stream: &[u8], size: usize) -> Vec<u8> {
    let mut session = Session::new(alloc);
    let mut out = Vec::new(alloc);
    let mut is_open = true;
    for piece in stream.chunks(size.max(1)) {
        if is_open {
            feed(rt, &mut session, piece);
            is_open = drain(rt, alloc, &mut session, &mut out);
        }
    }
    out
}

/// This is asked in a stream that comes in pieces of this size.
fn tells(rt: &impl Abort, alloc: Global, stream: &[u8], size: usize, want: &[u8]) {
    let found = told(rt, alloc, stream, size);
    equal_at(rt, "in pieces of", size, found.as_slice(), want);
}

#[test]
fn streams_in_pieces(rt: HostRuntime) {
    for (stream, want) in &STREAMS {
        for size in [1, 2, 3, 7, 1000] {
            tells(&rt, rt.alloc(), *stream, size, *want);
        }
    }
}

/// A head whose middle is repeated so often.
fn head_of(
    rt: &impl Abort,
    alloc: Global,
    (front, middle, end): (&[u8], &[u8], &[u8]),
    count: usize,
) -> Vec<u8> {
    let mut head = Vec::new(alloc);
    add(rt, &mut head, front);
    for _ in 0..count {
        add(rt, &mut head, middle);
    }
    add(rt, &mut head, end);
    head
}

/// A head with a target of `a`s.
static LONG: (&[u8], &[u8], &[u8]) = (b"GET /", b"a", b" HTTP/1.1\r\n\r\n");

/// A head with fields.
static WIDE: (&[u8], &[u8], &[u8]) = (b"GET / HTTP/1.1\r\n", b"a: b\r\n", b"\r\n");

/// A stream is a request, or else a bad one with status 431.
fn is_request(rt: &impl Abort, alloc: Global, stream: &[u8], size: usize, due: bool) {
    let told = told(rt, alloc, stream, size);
    let told = told.as_slice();
    let case = (stream.len(), size);
    equal_at(rt, "a request", case, told.starts_with(b"GET /"), due);
    equal_at(rt, "a bad request", case, told == b"431\n".as_slice(), !due);
}

/// A head of so many bytes is a request where it has 8,192 at most.
fn has_length(rt: &impl Abort, alloc: Global, length: usize) {
    let head = head_of(rt, alloc, LONG, length.saturating_sub(18));
    equal(rt, "bytes", head.len(), length);
    for size in [4096, 8191, 8192, 8193] {
        is_request(rt, alloc, &head, size, length <= 8192);
    }
}

#[test]
fn the_longest_head(rt: HostRuntime) {
    for length in [8191, 8192, 8193] {
        has_length(&rt, rt.alloc(), length);
    }
}

/// A head with so many fields is a request where it has 64 at most.
fn has_fields(rt: &impl Abort, alloc: Global, fields: usize) {
    let head = head_of(rt, alloc, WIDE, fields);
    for size in [100, 1000] {
        is_request(rt, alloc, &head, size, fields <= 64);
    }
}

#[test]
fn the_most_fields(rt: HostRuntime) {
    for fields in [63, 64, 65, 66] {
        has_fields(&rt, rt.alloc(), fields);
    }
}

/// What comes next is a bad request.
fn is_bad(rt: &impl Abort, session: &mut Session) {
    let found = match next(rt, session) {
        Next::Bad(status) => Some(status),
        _ => None,
    };
    equal(rt, "a bad request", found, Some(400));
}

#[test]
fn a_bad_request_stays(rt: HostRuntime) {
    let mut session = Session::new(rt.alloc());
    feed(&rt, &mut session, b"\x00");
    is_bad(&rt, &mut session);
    feed(&rt, &mut session, b"GET / HTTP/1.1\r\n\r\n");
    is_bad(&rt, &mut session);
    is_bad(&rt, &mut session);
}

/// The reply to a bad request.
fn replies(rt: &impl Abort, alloc: Global, status: u16, want: &[u8]) {
    let reply = bad(alloc, status).expect(rt, "a reply");
    equal_at(rt, "a reply", status, reply.bytes.as_slice(), want);
    equal_at(
        rt,
        "a reply",
        status,
        (reply.status, reply.close),
        (status, true),
    );
}

#[test]
fn replies_to_bad_requests(rt: HostRuntime) {
    for (status, want) in &BAD {
        replies(&rt, rt.alloc(), *status, *want);
    }
}

/// A query asks for this.
type Window = Option<(u32, u32, u32, u32, u32)>;

/// The window that is asked for, or none.
fn window_of(asked: Option<Asked>) -> Window {
    match asked {
        Some(asked) => Some((asked.reduce, asked.x, asked.y, asked.width, asked.height)),
        None => None,
    }
}

fn asks(rt: &impl Abort, alloc: Global, query: &[u8], want: Window) {
    let asked = window_asked(alloc, query).expect(rt, "a query");
    equal_at(rt, "a query", query, window_of(asked), want);
}

/// How many layers are asked for, where a window is.
fn layers_of(asked: Option<Asked>) -> Option<Option<u32>> {
    match asked {
        Some(asked) => Some(asked.layers),
        None => None,
    }
}

/// The query of one sample with this end asks for so many layers.
fn asks_layers(rt: &impl Abort, alloc: Global, end: &[u8], want: Option<Option<u32>>) {
    let mut query = Vec::new(alloc);
    add(rt, &mut query, b"x=0&y=0&w=1&h=1");
    add(rt, &mut query, end);
    let asked = window_asked(alloc, &query).expect(rt, "a query");
    equal_at(rt, "layers", end, layers_of(asked), want);
}

#[test]
fn queries(rt: HostRuntime) {
    for (query, want) in &QUERIES {
        asks(&rt, rt.alloc(), *query, *want);
    }
    for (end, want) in &LAYERS {
        asks_layers(&rt, rt.alloc(), *end, *want);
    }
}

/// A path's place in words, the second of which is the name.
fn place_told(path: &[u8]) -> (&'static [u8], &[u8]) {
    match named(path) {
        NamedResource::Listing => (b"list", b""),
        NamedResource::Whole(name) => (b"whole ", name),
        NamedResource::Window(name) => (b"window ", name),
        NamedResource::Nowhere => (b"none", b""),
    }
}

/// A path's place is this one.
fn stands(rt: &impl Abort, path: &[u8], want: &[u8]) {
    let (word, name) = place_told(path);
    let rest = want.strip_prefix(word);
    equal_at(rt, "a place", (path, word), Some(name), rest);
}

#[test]
fn paths(rt: HostRuntime) {
    for (path, want) in &PATHS {
        stands(&rt, *path, *want);
    }
}
