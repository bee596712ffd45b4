//! Connections that several readers attend to.

use crate::calls::{entry_of_b, equal, opened, refusal, served, served_anew};
use crate::streams::{Held, Streams, wait_for};
use jk_hall::Writer;
use jk_jobs::Open;
use jk_store::Entry;
use std::sync::atomic::Ordering;
use std::sync::{Arc, Wait};
use std::thread;

/// Two connections that ask for the list.
static LISTS: [(&[u8], &[u8]); 2] = [
    (
        b"GET /images HTTP/1.1\r\nHost: x\r\n\r\n",
        b"HTTP/1.1 200 OK\r\nContent-Type: text/plain\r\nContent-Length: 12\r\n\r\na 1 1 1 8 0\n",
    ),
    (
        b"GET /images HTTP/1.0\r\n\r\nGET /b HTTP/1.1\r\n\r\n",
        b"HTTP/1.1 200 OK\r\nContent-Type: text/plain\r\nContent-Length: 12\r\nConnection: close\r\n\r\na 1 1 1 8 0\n",
    ),
];

/// Two connections, between which `b` is published: the list and its file. The file is that of one
/// grey sample, 128, without levels.
static BETWEEN: [(&[u8], &[u8]); 2] = [
    (
        b"GET /images HTTP/1.1\r\nHost: x\r\n\r\nGET /images/b HTTP/1.1\r\n\r\n",
        b"HTTP/1.1 200 OK\r\nContent-Type: text/plain\r\nContent-Length: 12\r\n\r\na 1 1 1 8 0\nHTTP/1.1 404 Not Found\r\nContent-Type: text/plain\r\nContent-Length: 14\r\n\r\n404 Not Found\n",
    ),
    (
        b"GET /images HTTP/1.1\r\nHost: x\r\n\r\nGET /images/b HTTP/1.1\r\n\r\n",
        b"HTTP/1.1 200 OK\r\nContent-Type: text/plain\r\nContent-Length: 24\r\n\r\na 1 1 1 8 0\nb 1 1 1 8 0\nHTTP/1.1 200 OK\r\nContent-Type: image/jp2\r\nContent-Length: 167\r\n\r\n\0\0\0\x0CjP  \r\n\x87\n\0\0\0\x14ftypjp2 \0\0\0\0jp2 \0\0\0-jp2h\0\0\0\x16ihdr\0\0\0\x01\0\0\0\x01\0\x01\x07\x07\0\0\0\0\0\x0Fcolr\x01\0\0\0\0\0\x11\0\0\0Zjp2c\xFFO\xFFQ\0)\0\0\0\0\0\x01\0\0\0\x01\0\0\0\0\0\0\0\0\0\0\0\x01\0\0\0\x01\0\0\0\0\0\0\0\0\0\x01\x07\x01\x01\xFFR\0\x0C\0\0\0\x01\0\0\x04\x04\0\x01\xFF\x5C\0\x04@@\xFF\x90\0\n\0\0\0\0\0\x0F\0\x01\xFF\x93\0\xFF\xD9",
    ),
];

#[test]
fn two_connections_at_a_time(rt: HostRuntime) {
    let alloc = rt.alloc();
    let streams = Streams::new(alloc, &LISTS, 1);
    let held = Held::new(&rt, alloc, 2);
    let ended = served_anew(&rt, alloc, 2, &held, &streams);
    equal(&rt, ended, Ok(2));
    equal(&rt, streams.counts(), (2, 0));
    equal(&rt, held.meeting.was_met(1), true);
}

/// Publishes an entry once a connection has ended, and lets the next one come.
fn publish_behind<R: Wait>(
    rt: &R,
    writer: &mut Writer,
    entry: Arc<Entry>,
    streams: &Streams,
) -> bool {
    wait_for(&streams.ended);
    let published = refusal(rt, writer, entry).is_none();
    streams.open.store(1, Ordering::SeqCst);
    published
}

#[test]
fn published_between_two_connections(rt: HostRuntime) {
    let alloc = rt.alloc();
    let streams = Streams::new(alloc, &BETWEEN, 0);
    let entry = entry_of_b(&rt, alloc);
    let (mut writer, readers) = opened(&rt, alloc, 1, &["a"]);
    let (ended, published) = thread::join(
        &rt,
        || served(&rt, alloc, readers, &["a", "b"], &Open, &streams),
        || publish_behind(&rt, &mut writer, entry, &streams),
    );
    writer.close(&rt);
    equal(&rt, published, true);
    equal(&rt, ended, Ok(2));
    equal(&rt, streams.counts(), (2, 0));
}
