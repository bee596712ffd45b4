//! What a reader replies on a connection, how often it reads of it, and why that ends.

use crate::calls::{attend, equal, opened_for_one, page, put, shelf};
use jk_web::End;
use std::alloc::Global;
use std::process::Abort;
use std::sync::Wait;
use vectors::Pieces;

/// Requests, and the head and the text of the reply to each; where there is no text, the file of
/// one sample follows. The last request closes, and one more stands behind it.
static ASKED: [(&[u8], &[u8]); 13] = [
    (
        b"GET /images HTTP/1.1\r\nHost: x\r\n\r\n",
        b"HTTP/1.1 200 OK\r\nContent-Type: text/plain\r\nContent-Length: 12\r\n\r\na 1 1 1 8 0\n",
    ),
    (
        b"GET /b HTTP/1.1\r\n\r\n",
        b"HTTP/1.1 404 Not Found\r\nContent-Type: text/plain\r\nContent-Length: 14\r\n\r\n404 Not Found\n",
    ),
    (
        b"GET /images/a HTTP/1.1\r\n\r\n",
        b"HTTP/1.1 200 OK\r\nContent-Type: image/jp2\r\nContent-Length: 167\r\n\r\n",
    ),
    (
        b"GET /images/b HTTP/1.1\r\n\r\n",
        b"HTTP/1.1 404 Not Found\r\nContent-Type: text/plain\r\nContent-Length: 14\r\n\r\n404 Not Found\n",
    ),
    (
        b"GET /images/b/window?x=0&y=0&w=1&h=1 HTTP/1.1\r\n\r\n",
        b"HTTP/1.1 404 Not Found\r\nContent-Type: text/plain\r\nContent-Length: 14\r\n\r\n404 Not Found\n",
    ),
    (
        b"POST /images HTTP/1.1\r\n\r\n",
        b"HTTP/1.1 405 Method Not Allowed\r\nAllow: GET\r\nContent-Type: text/plain\r\nContent-Length: 23\r\n\r\n405 Method Not Allowed\n",
    ),
    (
        b"GET /images/a/window?x=0&y=0&w=1&h=1 HTTP/1.1\r\n\r\n",
        b"HTTP/1.1 200 OK\r\nContent-Type: image/jp2\r\nContent-Length: 167\r\n\r\n",
    ),
    (
        b"GET /images/a/window?x=0&y=0&w=0&h=1 HTTP/1.1\r\n\r\n",
        b"HTTP/1.1 400 Bad Request\r\nContent-Type: text/plain\r\nContent-Length: 16\r\n\r\n400 Bad Request\n",
    ),
    (
        b"GET /images/a/window?x=0&y=0&w=1&h=1&layers=0 HTTP/1.1\r\n\r\n",
        b"HTTP/1.1 400 Bad Request\r\nContent-Type: text/plain\r\nContent-Length: 16\r\n\r\n400 Bad Request\n",
    ),
    (
        b"GET /images/a/window?x=0&y=0&w=9&h=1&r=0 HTTP/1.1\r\n\r\n",
        b"HTTP/1.1 200 OK\r\nContent-Type: image/jp2\r\nContent-Length: 167\r\n\r\n",
    ),
    (
        b"HEAD /images/a HTTP/1.1\r\n\r\n",
        b"HTTP/1.1 405 Method Not Allowed\r\nAllow: GET\r\nContent-Type: text/plain\r\nContent-Length: 23\r\n\r\n405 Method Not Allowed\n",
    ),
    (
        b"GET /images HTTP/1.0\r\n\r\n",
        b"HTTP/1.1 200 OK\r\nContent-Type: text/plain\r\nContent-Length: 12\r\nConnection: close\r\n\r\na 1 1 1 8 0\n",
    ),
    (b"GET /images HTTP/1.1\r\n\r\n", b""),
];

/// All requests, and the replies to them.
fn exchange(rt: &impl Abort, alloc: Global) -> (Vec<u8>, Vec<u8>) {
    let page = page(rt, alloc);
    let mut requests = Vec::new(alloc);
    let mut replies = Vec::new(alloc);
    for (request, reply) in &ASKED {
        put(rt, &mut requests, request);
        put(rt, &mut replies, reply);
        if reply.ends_with(b"Content-Length: 167\r\n\r\n") {
            put(rt, &mut replies, &page);
        }
    }
    (requests, replies)
}

/// What the reader of a new hall writes where this comes, in at most so many reads; how often it
/// reads; and why it ends.
fn attended<R: Wait + Abort>(
    rt: &R,
    alloc: Global,
    input: Pieces,
    turns: u64,
) -> (Vec<u8>, u64, End) {
    let mut input = input;
    let mut files = shelf(rt, alloc);
    let mut output = Vec::new(alloc);
    let (writer, mut reader) = opened_for_one(rt, alloc, &["a"]);
    let end = attend(
        rt,
        alloc,
        &mut reader,
        &mut files,
        &mut input,
        &mut output,
        turns,
    );
    writer.close(rt);
    (output, input.reads(), end)
}

#[test]
fn a_stream_of_requests(rt: HostRuntime) {
    let alloc = rt.alloc();
    for size in [1, 7, 1000] {
        let (requests, replies) = exchange(&rt, alloc);
        let input = Pieces::new(requests, size, true);
        let (output, _reads, end) = attended(&rt, alloc, input, 100_000);
        equal(&rt, output.as_slice(), replies.as_slice());
        equal(&rt, end, End::Closed);
    }
}

/// Two requests of 24 bytes each, one that closes, and a bad one.
const TWO: &[u8] = b"GET /images HTTP/1.1\r\n\r\nGET /images HTTP/1.1\r\n\r\n";

const CLOSING: &[u8] = b"GET /images HTTP/1.0\r\n\r\nGET /images HTTP/1.1\r\n\r\n";

const BAD: &[u8] = b"GET /images HTTP/1.1\r\n\r\n\0\0\0\0\0\0\0\0\0\0\0\0\0\0\0\0\0\0\0\0\0\0\0\0";

/// What comes, 12 bytes a read, whether a read fails behind it, and how many reads there may be at
/// most; then how many are made, how many replies are written, and why it ends.
static TURNS: [(&[u8], bool, u64, u64, usize, End); 13] = [
    (TWO, false, 0, 0, 0, End::TurnsSpent),
    (TWO, true, 1, 1, 0, End::TurnsSpent),
    (TWO, true, 2, 2, 1, End::TurnsSpent),
    (TWO, false, 3, 3, 1, End::TurnsSpent),
    (TWO, false, 4, 4, 2, End::TurnsSpent),
    (TWO, true, 4, 4, 2, End::TurnsSpent),
    (TWO, false, 5, 5, 2, End::Closed),
    (TWO, true, 5, 5, 2, End::ReadFailed),
    (TWO, false, 9, 5, 2, End::Closed),
    (TWO, true, 9, 5, 2, End::ReadFailed),
    (CLOSING, true, 9, 2, 1, End::Closed),
    (BAD, true, 9, 3, 2, End::Bad),
    (b"", true, 9, 1, 0, End::ReadFailed),
];

/// How many replies a text begins.
fn count_of(text: &[u8]) -> usize {
    let mut count: usize = 0;
    for at in 0..text.len() {
        if text[at..].starts_with(b"HTTP/1.1 ") {
            count = count.saturating_add(1);
        }
    }
    count
}

/// No more reads are made than there may be, and it ends as by a failed read only where one failed.
#[test]
fn reads_are_counted(rt: HostRuntime) {
    let alloc = rt.alloc();
    for (bytes, fails, turns, reads, replies, end) in &TURNS {
        let mut stream = Vec::new(alloc);
        put(&rt, &mut stream, bytes);
        let input = Pieces::new(stream, 12, *fails);
        let (output, made, found) = attended(&rt, alloc, input, *turns);
        let found = (made, count_of(&output), found);
        equal(&rt, found, (*reads, *replies, *end));
    }
}
