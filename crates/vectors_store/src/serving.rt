//! An archive in memory, asked over HTTP.

use crate::asserts::{equal, equal_at};
use crate::calls::{add_layered, archive_of, bytes, open, put, shelf_of};
use crate::contents::Content;
use crate::shelves::{Act, Acting, act_at};
use jk_store::{Archive, MemoryShelf, Shelf};
use jk_web::{Cache, End, run, run_with};
use std::alloc::Global;
use std::io;
use std::io::Read;
use std::process::Abort;
use vectors::bytes_of;

/// Gives at most so many bytes a read.
#[derive(Drop)]
struct Source {
    bytes: Vec<u8>,
    at: usize,
    most: usize,
}

impl Read for Source {
    fn read(&mut self, buf: &mut [u8]) -> io::Result<usize> {
        let left = self.bytes.len().saturating_sub(self.at);
        let count = left.min(self.most).min(buf.len());
        for i in 0..count {
            if self.at < self.bytes.len() && i < buf.len() {
                buf[i] = self.bytes[self.at];
                self.at = self.at.saturating_add(1);
            }
        }
        Ok(count)
    }
}

fn requests(rt: &impl Abort, alloc: Global, text: &[u8], most: usize) -> Source {
    Source {
        bytes: Vec::from_slice(alloc, text).expect(rt, "bytes"),
        at: 0,
        most,
    }
}

/// The archive of one image `a`, which is one grey sample of 128.
fn one_image(rt: &impl Abort, alloc: Global) -> Archive<MemoryShelf> {
    archive_of(rt, alloc, &[("a.jp2", Content::Page)])
}

/// The same archive, whose file is another one at its nth read. The listing and the read of `open`
/// come before.
fn changed_at(rt: &impl Abort, alloc: Global, read: u64) -> Archive<Acting> {
    let shelf = shelf_of(rt, alloc, &[("a.jp2", Content::Page)]);
    open(
        rt,
        alloc,
        act_at(shelf, read.saturating_add(2), Act::Change),
    )
}

/// What an archive replies to a stream that comes in pieces of this size, and how it ends.
fn served<S: Shelf>(
    rt: &impl Abort,
    alloc: Global,
    archive: &mut Archive<S>,
    stream: &[u8],
    size: usize,
) -> (Vec<u8>, End) {
    let mut out = Vec::new(alloc);
    let mut reader = requests(rt, alloc, stream, size);
    let end = run(alloc, &mut reader, &mut out, archive, 1000).expect(rt, "a connection");
    (out, end)
}

/// The same through a cache with room for so many windows.
fn served_with<S: Shelf>(
    rt: &impl Abort,
    alloc: Global,
    archive: &mut Archive<S>,
    stream: &[u8],
    room: usize,
) -> (Vec<u8>, End) {
    let mut out = Vec::new(alloc);
    let mut reader = requests(rt, alloc, stream, 1000);
    let mut cache = Cache::new(alloc, room.max(1)).expect(rt, "a cache");
    let end = run_with(alloc, &mut reader, &mut out, archive, &mut cache, 1000);
    (out, end.expect(rt, "a connection"))
}

/// What an archive of one image replies to a stream that comes in pieces of this size, and how it
/// ends.
fn replied(rt: &impl Abort, alloc: Global, stream: &[u8], size: usize) -> (Vec<u8>, End) {
    served(rt, alloc, &mut one_image(rt, alloc), stream, size)
}

/// The same where the image's file is another one at its nth read.
fn replied_to_changed(rt: &impl Abort, alloc: Global, stream: &[u8], read: u64) -> (Vec<u8>, End) {
    served(rt, alloc, &mut changed_at(rt, alloc, read), stream, 1000)
}

/// What is asked, and the reply.
static REPLIES: [(&[u8], &[u8]); 11] = [
    (
        b"GET /images HTTP/1.1\r\nHost: x\r\n\r\n",
        b"HTTP/1.1 200 OK\r\nContent-Type: text/plain\r\nContent-Length: 12\r\n\r\na 1 1 1 8 0\n",
    ),
    (
        b"GET /images HTTP/1.1\r\nHost: x\r\n\r\nGET /images HTTP/1.1\r\nHost: x\r\n\r\n",
        b"HTTP/1.1 200 OK\r\nContent-Type: text/plain\r\nContent-Length: 12\r\n\r\na 1 1 1 8 0\nHTTP/1.1 200 OK\r\nContent-Type: text/plain\r\nContent-Length: 12\r\n\r\na 1 1 1 8 0\n",
    ),
    (
        b"GET /b HTTP/1.1\r\n\r\n",
        b"HTTP/1.1 404 Not Found\r\nContent-Type: text/plain\r\nContent-Length: 14\r\n\r\n404 Not Found\n",
    ),
    (
        b"GET /images/b HTTP/1.1\r\n\r\n",
        b"HTTP/1.1 404 Not Found\r\nContent-Type: text/plain\r\nContent-Length: 14\r\n\r\n404 Not Found\n",
    ),
    (
        b"POST /images HTTP/1.1\r\n\r\n",
        b"HTTP/1.1 405 Method Not Allowed\r\nAllow: GET\r\nContent-Type: text/plain\r\nContent-Length: 23\r\n\r\n405 Method Not Allowed\n",
    ),
    (
        b"HEAD /images/a HTTP/1.1\r\n\r\n",
        b"HTTP/1.1 405 Method Not Allowed\r\nAllow: GET\r\nContent-Type: text/plain\r\nContent-Length: 23\r\n\r\n405 Method Not Allowed\n",
    ),
    (
        b"GET /images/a/window?x=0&y=0&w=0&h=1 HTTP/1.1\r\n\r\n",
        b"HTTP/1.1 400 Bad Request\r\nContent-Type: text/plain\r\nContent-Length: 16\r\n\r\n400 Bad Request\n",
    ),
    (
        b"GET /images/a/window?x=1&y=0&w=1&h=1 HTTP/1.1\r\n\r\n",
        b"HTTP/1.1 400 Bad Request\r\nContent-Type: text/plain\r\nContent-Length: 16\r\n\r\n400 Bad Request\n",
    ),
    (
        b"GET /images/a/window?x=0&y=0&w=1&h=1&r=1 HTTP/1.1\r\n\r\n",
        b"HTTP/1.1 400 Bad Request\r\nContent-Type: text/plain\r\nContent-Length: 16\r\n\r\n400 Bad Request\n",
    ),
    (
        b"GET /images HTTP/1.0\r\n\r\nGET /b HTTP/1.1\r\n\r\n",
        b"HTTP/1.1 200 OK\r\nContent-Type: text/plain\r\nContent-Length: 12\r\nConnection: close\r\n\r\na 1 1 1 8 0\n",
    ),
    (
        b"GET /b HTTP/1.1\r\nConnection: CLOSE\r\n\r\nGET /images HTTP/1.1\r\n\r\n",
        b"HTTP/1.1 404 Not Found\r\nContent-Type: text/plain\r\nContent-Length: 14\r\nConnection: close\r\n\r\n404 Not Found\n",
    ),
];

#[test]
fn replies(rt: HostRuntime) {
    for (stream, want) in &REPLIES {
        for size in [1000, 1] {
            let (bytes, end) = replied(&rt, rt.alloc(), stream, size);
            equal_at(&rt, size, bytes.as_slice(), *want);
            equal_at(&rt, size, end, End::Closed);
        }
    }
}

/// A bad request has a reply that closes, behind the replies to those before it, and is the end.
#[test]
fn a_bad_request(rt: HostRuntime) {
    let stream = b"GET /b HTTP/1.1\r\n\r\nGET / HTTP/9\r\n\r\nGET /b HTTP/1.1\r\n\r\n";
    let want =
        b"HTTP/1.1 404 Not Found\r\nContent-Type: text/plain\r\nContent-Length: 14\r\n\r\n404 Not Found\nHTTP/1.1 400 Bad Request\r\nContent-Type: text/plain\r\nContent-Length: 16\r\nConnection: close\r\n\r\n400 Bad Request\n";
    for size in [1000, 1] {
        let (bytes, end) = replied(&rt, rt.alloc(), stream, size);
        equal_at(&rt, size, bytes.as_slice(), want.as_slice());
        equal_at(&rt, size, end, End::Bad);
    }
}

/// The head of a reply that is the image's file.
static FILE_FOLLOWS: &[u8] =
    b"HTTP/1.1 200 OK\r\nContent-Type: image/jp2\r\nContent-Length: 167\r\n\r\n";

/// The reply where the file isn't the one that was indexed.
static CHANGED: &[u8] =
    b"HTTP/1.1 500 Internal Server Error\r\nContent-Type: text/plain\r\nContent-Length: 26\r\n\r\n500 Internal Server Error\n";

/// So many times the reply that is the image's file.
fn files(rt: &impl Abort, alloc: Global, out: &mut Vec<u8>, count: usize) {
    for _ in 0..count {
        put(rt, out, FILE_FOLLOWS);
        put(rt, out, &bytes(rt, alloc, Content::Page));
    }
}

/// The file, and a window of it, which is the file again since it has one sample.
static BOTH: &[u8] =
    b"GET /images/a HTTP/1.1\r\n\r\nGET /images/a/window?x=0&y=0&w=9&h=1&r=0 HTTP/1.1\r\n\r\n";

#[test]
fn files_and_windows(rt: HostRuntime) {
    let alloc = rt.alloc();
    let mut want = Vec::new(alloc);
    files(&rt, alloc, &mut want, 2);
    for size in [1000, 1] {
        let (bytes, end) = replied(&rt, alloc, BOTH, size);
        equal_at(&rt, size, bytes.as_slice(), want.as_slice());
        equal_at(&rt, size, end, End::Closed);
    }
}

/// Looks at the replies to a file and a window of which the nth one is made from a file that has
/// changed.
fn one_changed(rt: &impl Abort, alloc: Global, read: u64) {
    let mut want = Vec::new(alloc);
    if read == 1 {
        put(rt, &mut want, CHANGED);
        files(rt, alloc, &mut want, 1);
    } else {
        files(rt, alloc, &mut want, 1);
        put(rt, &mut want, CHANGED);
    }
    let (bytes, end) = replied_to_changed(rt, alloc, BOTH, read);
    equal_at(rt, read, bytes.as_slice(), want.as_slice());
    equal_at(rt, read, end, End::Closed);
}

#[test]
fn a_file_that_has_changed(rt: HostRuntime) {
    one_changed(&rt, rt.alloc(), 1);
    one_changed(&rt, rt.alloc(), 2);
}

/// The same where windows are kept, one at a time.
fn replied_with_cache(rt: &impl Abort, alloc: Global, stream: &[u8], read: u64) -> (Vec<u8>, End) {
    served_with(rt, alloc, &mut changed_at(rt, alloc, read), stream, 1)
}

/// A window, which is asked for twice. The second query has the reduction that the first leaves
/// out.
static TWICE: &[u8] =
    b"GET /images/a/window?x=0&y=0&w=9&h=1 HTTP/1.1\r\n\r\nGET /images/a/window?x=0&y=0&w=9&h=1&r=0 HTTP/1.1\r\n\r\n";

/// The shelf has another file at its second read. Without a cache the second reply tells of it;
/// through a cache there is no second read.
#[test]
fn a_window_that_is_kept(rt: HostRuntime) {
    let alloc = rt.alloc();
    let mut want = Vec::new(alloc);
    files(&rt, alloc, &mut want, 1);
    put(&rt, &mut want, CHANGED);
    let (bytes, _end) = replied_to_changed(&rt, alloc, TWICE, 2);
    equal(&rt, bytes.as_slice(), want.as_slice());
    let mut kept = Vec::new(alloc);
    files(&rt, alloc, &mut kept, 2);
    let (bytes, end) = replied_with_cache(&rt, alloc, TWICE, 2);
    equal(&rt, bytes.as_slice(), kept.as_slice());
    equal(&rt, end, End::Closed);
}

/// The boxes of a JP2 file of one grey sample up to the length of its codestream box, and from the
/// kind of that box on its codestream up to Psot: the sample is 255, in eight layers.
static LAYERED_BOXES: &str =
    "0000000C 6A502020 0D0A870A 00000014 66747970 6A703220 00000000 6A703220 0000002D 6A703268 00000016 69686472 00000001 00000001 0001 07 07 00 00 0000000F 636F6C72 01 00 00 00000011";

static LAYERED: &str =
    "6A703263 FF4F FF51 0029 0000 00000001 00000001 00000000 00000000 00000001 00000001 00000000 00000000 0001 07 01 01 FF52 000C 00 00 0008 00 00 04 04 00 01 FF5C 0004 40 40 FF90 000A 0000";

static ALL_LAYERS: &str = "0000001E 00 01 FF93 00 A42000 F000 F000 F000 F000 F000 F000 FFD9";

static FOUR_LAYERS: &str = "0000001A 00 01 FF93 00 A42000 F000 F000 00 00 00 00 FFD9";

/// Four of the layers, all of them, none, and four again.
static IN_LAYERS: &[u8] =
    b"GET /images/q/window?x=0&y=0&w=1&h=1&layers=4 HTTP/1.1\r\n\r\nGET /images/q/window?x=0&y=0&w=1&h=1 HTTP/1.1\r\n\r\nGET /images/q/window?x=0&y=0&w=1&h=1&layers=0 HTTP/1.1\r\n\r\nGET /images/q/window?x=0&y=0&w=1&h=1&layers=4 HTTP/1.1\r\n\r\n";

/// The reply where a view has no window.
static NO_WINDOW: &[u8] =
    b"HTTP/1.1 400 Bad Request\r\nContent-Type: text/plain\r\nContent-Length: 16\r\n\r\n400 Bad Request\n";

/// The reply that is a file of 178 or 182 bytes.
fn layered_reply(rt: &impl Abort, alloc: Global, out: &mut Vec<u8>, all: bool) {
    let (head, parts): (&[u8], [&str; 4]) = if all {
        (
            b"HTTP/1.1 200 OK\r\nContent-Type: image/jp2\r\nContent-Length: 182\r\n\r\n",
            [LAYERED_BOXES, "00000069", LAYERED, ALL_LAYERS],
        )
    } else {
        (
            b"HTTP/1.1 200 OK\r\nContent-Type: image/jp2\r\nContent-Length: 178\r\n\r\n",
            [LAYERED_BOXES, "00000065", LAYERED, FOUR_LAYERS],
        )
    };
    put(rt, out, head);
    put(rt, out, &bytes_of(alloc, &parts).expect(rt, "bytes"));
}

/// The replies to them.
fn replies_in_layers(rt: &impl Abort, alloc: Global) -> Vec<u8> {
    let mut want = Vec::new(alloc);
    layered_reply(rt, alloc, &mut want, false);
    layered_reply(rt, alloc, &mut want, true);
    put(rt, &mut want, NO_WINDOW);
    layered_reply(rt, alloc, &mut want, false);
    want
}

/// With no cache, and with one that keeps one window or two.
#[test]
fn windows_in_layers(rt: HostRuntime) {
    let alloc = rt.alloc();
    let want = replies_in_layers(&rt, alloc);
    let mut archive = open(&rt, alloc, MemoryShelf::new(alloc));
    add_layered(&rt, &mut archive, alloc, "q");
    let (bytes, _end) = served(&rt, alloc, &mut archive, IN_LAYERS, 1000);
    equal(&rt, bytes.as_slice(), want.as_slice());
    for room in [1, 2] {
        let (bytes, _end) = served_with(&rt, alloc, &mut archive, IN_LAYERS, room);
        equal_at(&rt, room, bytes.as_slice(), want.as_slice());
    }
}
