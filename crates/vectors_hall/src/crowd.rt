//! Clients that ask all the time, while images are published.

use crate::calls::{equal, opened, page, page_entries, put, refusal, served};
use crate::streams::TURNS;
use jk_hall::{Connection, Nobody, Source, Writer};
use jk_jobs::Open;
use jk_store::Entry;
use jk_web::End;
use std::alloc::{AllocError, Global};
use std::io::{self, Read};
use std::process::Abort;
use std::sync::atomic::{AtomicU64, Ordering};
use std::sync::{Arc, Wait};
use std::thread;

/// How many clients there are.
const CLIENTS: u64 = 8;

/// How many connections are made behind each publishing and before the next, of three requests each.
const CONNECTIONS: u64 = 30;

/// The names of the images, in the order in which they are listed; the first one from the start.
static NAMES: [&str; 8] = ["a", "b", "c", "d", "e", "f", "g", "h"];

/// The requests of a connection, and how many images its client must see: as many as it has seen,
/// and as were published.
#[derive(Drop)]
struct Asked {
    bytes: Vec<u8>,
    at: usize,
    client: usize,
    least: u64,
}

impl Read for Asked {
    fn read(&mut self, buf: &mut [u8]) -> io::Result<usize> {
        let left = self.bytes.len().saturating_sub(self.at);
        let count = left.min(buf.len());
        for i in 0..count {
            if self.at < self.bytes.len() && i < buf.len() {
                buf[i] = self.bytes[self.at];
                self.at = self.at.saturating_add(1);
            }
        }
        Ok(count)
    }
}

/// The heads of the replies that are an image's file, and the last of them.
static FILE_FOLLOWS: &[u8] =
    b"HTTP/1.1 200 OK\r\nContent-Type: image/jp2\r\nContent-Length: 167\r\n\r\n";

static LAST_FOLLOWS: &[u8] =
    b"HTTP/1.1 200 OK\r\nContent-Type: image/jp2\r\nContent-Length: 167\r\nConnection: close\r\n\r\n";

/// The name of the last of so many images.
fn last_of(count: u64) -> &'static str {
    let last = count.saturating_sub(1) as usize;
    match NAMES.get(last) {
        Some(name) => name,
        None => "",
    }
}

/// Requests for the list, for the last of so many images and for a window of it.
fn requests(alloc: Global, count: u64) -> Result<Vec<u8>, AllocError> {
    let name = last_of(count);
    let text = format!(in alloc;
        "GET /images HTTP/1.1\r\n\r\nGET /images/{name} HTTP/1.1\r\n\r\nGET /images/{name}/window?x=0&y=0&w=1&h=1 HTTP/1.1\r\nConnection: close\r\n\r\n"
    )?;
    Vec::from_slice(alloc, text.as_bytes())
}

/// The replies to them where so many images are listed.
fn replies(rt: &impl Abort, alloc: Global, count: usize) -> Vec<u8> {
    let page = page(rt, alloc);
    let size = count.saturating_mul(12);
    let head = format!(in alloc;
        "HTTP/1.1 200 OK\r\nContent-Type: text/plain\r\nContent-Length: {size}\r\n\r\n"
    ).expect(rt, "a head");
    let mut text = Vec::new(alloc);
    put(rt, &mut text, head.as_bytes());
    for name in &NAMES[..count.min(NAMES.len())] {
        put(rt, &mut text, name.as_bytes());
        put(rt, &mut text, b" 1 1 1 8 0\n");
    }
    put(rt, &mut text, FILE_FOLLOWS);
    put(rt, &mut text, &page);
    put(rt, &mut text, LAST_FOLLOWS);
    put(rt, &mut text, &page);
    text
}

/// The same for each number of images, from none to all.
fn all_replies(rt: &impl Abort, alloc: Global) -> Vec<Vec<u8>> {
    let mut all = Vec::new(alloc);
    for count in 0..NAMES.len().saturating_add(1) {
        all.push(replies(rt, alloc, count)).expect(rt, "replies");
    }
    all
}

/// The connections of the clients.
#[derive(Drop)]
struct Crowd {
    alloc: Global,
    taken: AtomicU64,
    published: AtomicU64,
    right: AtomicU64,
    // How many ended early, or were asked nothing, since memory was refused.
    early: AtomicU64,
    // The replies that are due where so many images are listed.
    due: Vec<Vec<u8>>,
    // How many images each client has seen.
    seen: Vec<AtomicU64>,
}

impl Crowd {
    fn new(rt: &impl Abort, alloc: Global) -> Crowd {
        let mut seen = Vec::new(alloc);
        for _ in 0..CLIENTS {
            seen.push(AtomicU64::new(1)).expect(rt, "a client");
        }
        Crowd {
            alloc,
            taken: AtomicU64::new(0),
            published: AtomicU64::new(0),
            right: AtomicU64::new(0),
            early: AtomicU64::new(0),
            due: all_replies(rt, alloc),
            seen,
        }
    }

    /// What comes of a client now.
    fn asked(&self, client: usize) -> Asked {
        let seen = match self.seen.get(client) {
            Some(seen) => seen.load(Ordering::SeqCst),
            None => 0,
        };
        let published = self.published.load(Ordering::SeqCst).saturating_add(1);
        Asked {
            bytes: requests(self.alloc, seen).unwrap_or(Vec::new(self.alloc)),
            at: 0,
            client,
            least: seen.max(published),
        }
    }
}

/// Waits until a number has come so far, so many turns at most.
fn wait_until(number: &AtomicU64, least: u64) {
    for _ in 0..TURNS {
        if number.load(Ordering::SeqCst) >= least {
            return;
        }
        thread::yield_now();
    }
}

impl Source for Crowd {
    type In = Asked;

    type Out = Vec<u8>;

    type Told = Nobody;

    fn take(&self) -> Option<Connection<Asked, Vec<u8>, Nobody>> {
        let number = self.taken.fetch_add(1, Ordering::SeqCst);
        if number >= CONNECTIONS * NAMES.len() as u64 {
            return None;
        }
        wait_until(&self.published, number / CONNECTIONS);
        let client = (number % CLIENTS) as usize;
        Some(Connection {
            input: self.asked(client),
            output: Vec::new(self.alloc),
            witness: Nobody,
        })
    }

    fn ended(&self, connection: Connection<Asked, Vec<u8>, Nobody>, end: Option<End>) {
        let Connection { input, output, .. } = connection;
        if end != Some(End::Closed) || input.bytes.is_empty() {
            self.early.fetch_add(1, Ordering::SeqCst);
            return;
        }
        for count in input.least..(NAMES.len() as u64).saturating_add(1) {
            let Some(due) = self.due.get(count as usize) else {
                return;
            };
            if output.as_slice() == due.as_slice() {
                self.right.fetch_add(1, Ordering::SeqCst);
                if let Some(seen) = self.seen.get(input.client) {
                    seen.fetch_max(count, Ordering::SeqCst);
                }
                return;
            }
        }
    }
}

/// Publishes one image after another, each before the connections that wait for it. How many were
/// published.
fn publish_all<R: Wait>(
    rt: &R,
    writer: &mut Writer,
    entries: Vec<Arc<Entry>>,
    crowd: &Crowd,
) -> u64 {
    let mut published: u64 = 0;
    for entry in entries {
        let next = published.saturating_add(1);
        wait_until(
            &crowd.taken,
            next.saturating_mul(CONNECTIONS)
                .saturating_sub(CONNECTIONS / 2),
        );
        if refusal(rt, writer, entry).is_some() {
            return published;
        }
        published = next;
        crowd.published.store(published, Ordering::SeqCst);
    }
    published
}

/// Eight clients ask three workers for lists, files and windows while seven images are published:
/// each reply is that to a list which has all that the client has seen and all that was published
/// before the connection was taken.
#[test]
fn nothing_seen_vanishes(rt: HostRuntime) {
    let alloc = rt.alloc();
    let crowd = Crowd::new(&rt, alloc);
    let rest = page_entries(&rt, alloc, &NAMES[1..]);
    let (mut writer, readers) = opened(&rt, alloc, 3, &NAMES[..1]);
    let (ended, published) = thread::join(
        &rt,
        || served(&rt, alloc, readers, &NAMES, &Open, &crowd),
        || publish_all(&rt, &mut writer, rest, &crowd),
    );
    writer.close(&rt);
    let all = CONNECTIONS * NAMES.len() as u64;
    equal(&rt, ended, Ok(all));
    let right = crowd.right.load(Ordering::SeqCst);
    let early = crowd.early.load(Ordering::SeqCst);
    equal(&rt, (published, right, early), (7, all, 0));
}
