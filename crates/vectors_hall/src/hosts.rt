//! Requests for the hosts of a server, and for others, as they come in pieces.

use jk_serve::{HostGate, HostNames};
use std::alloc::Global;
use std::process::Abort;
use std::sync::Arc;
use vectors::{Pieces, equal_at};

/// The most bytes of a read.
const LONGEST: usize = 512;

/// The reply to a request for another host.
static FORBIDDEN: &[u8] = b"HTTP/1.1 403 Forbidden\r\nContent-Type: text/plain\r\n\
Content-Length: 14\r\nConnection: close\r\n\r\n403 Forbidden\n";

/// What comes; how many bytes of it are given on; and whether 403 is sent.
type Case = (&'static [u8], usize, bool);

/// Of a server whose names are localhost, images.example.org and [::1].
static CASES: [Case; 18] = [
    (
        b"GET /images HTTP/1.1\r\nHost: localhost\r\n\r\n",
        41,
        false,
    ),
    (b"GET / HTTP/1.1\r\nHost: LocalHost:8080\r\n\r\n", 40, false),
    (
        b"GET / HTTP/1.1\r\nhost:images.example.org\r\n\r\n",
        43,
        false,
    ),
    (b"GET / HTTP/1.1\r\nHost: [::1]\r\n\r\n", 31, false),
    (b"GET / HTTP/1.1\r\nHost: [::1]:80\r\n\r\n", 34, false),
    (b"GET / HTTP/1.1\r\nHost: [::2]:80\r\n\r\n", 0, true),
    (b"GET / HTTP/1.1\r\nHost: evil.example\r\n\r\n", 0, true),
    (
        b"GET / HTTP/1.1\r\nHost: localhost.evil.example\r\n\r\n",
        0,
        true,
    ),
    (b"GET / HTTP/1.1\r\nHost: local\r\n\r\n", 0, true),
    (b"GET / HTTP/1.1\r\nHost:\r\n\r\n", 0, true),
    (b"GET / HTTP/1.1\r\n\r\n", 0, true),
    (b"GET / HTTP/1.0\r\n\r\n", 0, true),
    (
        b"GET / HTTP/1.1\r\nHost: localhost\r\nHost: evil.example\r\n\r\n",
        0,
        true,
    ),
    (b"GET / HTTP/1.1\r\nHosts: localhost\r\n\r\n", 0, true),
    // A second request behind a first one.
    (
        b"GET /a HTTP/1.1\r\nHost: localhost\r\n\r\nGET /b HTTP/1.1\r\nHost: localhost\r\n\r\n",
        72,
        false,
    ),
    (
        b"GET /a HTTP/1.1\r\nHost: localhost\r\n\r\nGET /b HTTP/1.1\r\nHost: b\r\n\r\nGET /c",
        36,
        true,
    ),
    // What is no head, or ends before its end, is told by who answers.
    (b"GET  / HTTP/1.1\r\nHost: b\r\n\r\n", 28, false),
    (b"GET / HTTP/1.1\r\nHost: b\r\n", 25, false),
];

/// Gives what comes to a gate, which is read in pieces of so many bytes: what is given on, and what is
/// sent.
fn passed(
    rt: &impl Abort,
    alloc: Global,
    names: &Arc<HostNames>,
    mut coming: Pieces,
    piece: usize,
) -> (Vec<u8>, Vec<u8>) {
    let names = Arc::try_clone(names).expect(rt, "names");
    let mut gate = HostGate::new(alloc, names);
    let (mut given, mut sent) = (Vec::new(alloc), Vec::new(alloc));
    let mut buffer = [0u8; LONGEST];
    let most = piece.min(LONGEST);
    for _read in 0..1000 {
        let count = gate
            .read(&mut coming, &mut sent, &mut buffer[..most])
            .expect(rt, "a read");
        if count == 0 {
            break;
        }
        let count = count.min(LONGEST);
        given
            .extend_from_slice(&buffer[..count])
            .expect(rt, "memory");
    }
    (given, sent)
}

/// The names of the server.
fn names(rt: &impl Abort, alloc: Global) -> Arc<HostNames> {
    let mut names = Vec::new(alloc);
    for name in ["localhost", "Images.Example.org:443", "[::1]"] {
        let name = String::from_str(alloc, name).expect(rt, "memory");
        names.push(name).expect(rt, "memory");
    }
    Arc::new(alloc, HostNames::new(names)).expect(rt, "memory")
}

/// Each request is given on as it came if it is for one of the names, in whatever pieces it comes and
/// is read; for another 403 is sent, once, and nothing more is given on.
#[test]
fn hosts_are_told_apart(rt: HostRuntime) {
    let alloc = rt.alloc();
    let names = names(&rt, alloc);
    for (bytes, length, is_forbidden) in CASES {
        for (most, piece) in [(1, 1), (3, LONGEST), (1000, 7), (1000, LONGEST)] {
            let all = Vec::from_slice(alloc, bytes).expect(&rt, "memory");
            let (given, sent) = passed(&rt, alloc, &names, Pieces::new(all, most, false), piece);
            let found = (given.as_slice(), sent.as_slice());
            let front = &bytes[..length.min(bytes.len())];
            let due: &[u8] = if is_forbidden { FORBIDDEN } else { b"" };
            equal_at(bytes, found, (front, due)).expect(&rt, "a request");
        }
    }
}
