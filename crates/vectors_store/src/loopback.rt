//! An archive served over loopback.

use crate::asserts::equal;
use crate::calls::{archive_of, bytes, put};
use crate::contents::Content;
use jk_store::{Archive, MemoryShelf};
use jk_web::{End, run};
use std::alloc::Global;
use std::io::{Read, Write};
use std::net::{TcpListener, TcpStream};
use std::process::Abort;
use std::{io, thread};

/// What is sent on the first connection: two requests at once, of which the second one closes.
static FIRST: &str =
    "GET /images HTTP/1.1\r\nHost: a\r\n\r\nGET /images/a HTTP/1.1\r\nConnection: close\r\n\r\n";

/// What is sent on the second one, which closes behind a request of HTTP/1.0.
static SECOND: &str = "GET /images/b HTTP/1.0\r\n\r\n";

/// The reply to the first request, and the head of the one to the second.
static REPLIED: &str =
    "HTTP/1.1 200 OK\r\nContent-Type: text/plain\r\nContent-Length: 12\r\n\r\na 1 1 1 8 0\nHTTP/1.1 200 OK\r\nContent-Type: image/jp2\r\nContent-Length: 167\r\nConnection: close\r\n\r\n";

static REFUSED: &str =
    "HTTP/1.1 404 Not Found\r\nContent-Type: text/plain\r\nContent-Length: 14\r\nConnection: close\r\n\r\n404 Not Found\n";

/// What is replied on a connection to this port up to its end.
fn asked(rt: &HostRuntime, port: u16, requests: &str) -> io::Result<Vec<u8>> {
    let stream = TcpStream::connect(rt, ("127.0.0.1", port))?;
    let mut replies = Vec::new(rt.alloc());
    (&stream).write_all(requests.as_bytes())?;
    (&stream).read_to_end(&mut replies)?;
    Ok(replies)
}

/// What is replied on two connections, one after the other. The second is made in any case, since
/// it is waited for.
fn asked_twice(rt: &HostRuntime, port: u16) -> io::Result<(Vec<u8>, Vec<u8>)> {
    let first = asked(rt, port, FIRST);
    let second = asked(rt, port, SECOND);
    Ok((first?, second?))
}

/// Serves a connection, and says how it ended.
fn attend(
    rt: &impl Abort,
    alloc: Global,
    listener: &TcpListener,
    archive: &mut Archive<MemoryShelf>,
) -> End {
    let (stream, _) = listener.accept().expect(rt, "a connection");
    run(alloc, &mut &stream, &mut &stream, archive, 100).expect(rt, "a connection")
}

/// The replies on the first connection.
fn replied(rt: &impl Abort, alloc: Global) -> Vec<u8> {
    let mut due = Vec::new(alloc);
    put(rt, &mut due, REPLIED.as_bytes());
    put(rt, &mut due, &bytes(rt, alloc, Content::Page));
    due
}

#[test]
fn two_connections(rt: HostRuntime) {
    let alloc = rt.alloc();
    let mut archive = archive_of(&rt, alloc, &[("a.jp2", Content::Page)]);
    let listener = TcpListener::bind(&rt, ("127.0.0.1", 0)).expect(&rt, "a listener");
    let port = listener.local_addr().expect(&rt, "an address").port();
    let client = thread::spawn(&rt, move || asked_twice(&rt, port)).expect(&rt, "a client");
    let ends = [
        attend(&rt, alloc, &listener, &mut archive),
        attend(&rt, alloc, &listener, &mut archive),
    ];
    let (first, second) = client.join(&rt).expect(&rt, "replies");
    let due = replied(&rt, alloc);
    equal(&rt, ends, [End::Closed, End::Closed]);
    equal(&rt, first.as_slice(), due.as_slice());
    equal(&rt, second.as_slice(), REFUSED.as_bytes());
}
