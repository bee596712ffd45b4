use crate::asserts::{equal, equal_at};
use crate::calls::{feed, next};
use crate::cases::CACHED;
use crate::serving::{read_from, write_to};
use jk_math::Fault;
use jk_web::{Asked, Cache, Catalogue, End, Next, Request, Session, answer, answer_with, run_with};
use std::alloc::Global;
use std::process::Abort;

/// From here on the height of a window is the number of its bytes.
const LONG: u32 = 1000000;

/// Adds a space and a number.
fn put_number(alloc: Global, out: &mut Vec<u8>, number: u32) -> Result<(), Fault> {
    out.push(b' ')?;
    out.extend_from_slice(number.to_string(alloc)?.as_bytes())?;
    Ok(())
}

/// Adds the numbers of a window.
fn put_window(alloc: Global, out: &mut Vec<u8>, asked: Asked) -> Result<(), Fault> {
    for number in [asked.reduce, asked.x, asked.y, asked.width, asked.height] {
        put_number(alloc, out, number)?;
    }
    match asked.layers {
        Some(layers) => put_number(alloc, out, layers),
        None => Ok(()),
    }
}

/// Adds full stops up to so many bytes.
fn lengthen(out: &mut Vec<u8>, length: u32) -> Result<(), Fault> {
    for _ in out.len()..length as usize {
        out.push(b'.')?;
    }
    Ok(())
}

/// The images `a` and `b`, whose windows say what was asked for. It counts the windows that it
/// makes; nothing is claimed of it.
#[derive(Drop)]
pub(crate) struct Counting {
    pub(crate) made: u64,
}

impl Catalogue for Counting {
    ghost stands = { λ _ _. ⊥ };

    ghost keeps = { λ _ _. ⊥ };

    ghost broke = { λ _ _ _. Unit {0} };

    ghost reads = { λ _ _ _ _. Unit {0} };

    ghost cuts = { λ _ _ _ _ _. Unit {0} };

    ghost made = { λ _ _ _ _. Unit {0} };

    ghost steps = { λ _ _. Unit {0} };

    fn lines(&self, alloc: Global) -> Result<Vec<u8>, Fault> {
        Ok(Vec::from_slice(alloc, b"a\nb\n")?)
    }

    fn has(&self, name: &[u8]) -> bool {
        name == b"a".as_slice() || name == b"b".as_slice()
    }

    fn whole(&mut self, alloc: Global, name: &[u8]) -> Result<Vec<u8>, Fault> {
        Ok(Vec::from_slice(alloc, name)?)
    }

    fn window(&mut self, alloc: Global, name: &[u8], asked: Asked) -> Result<Vec<u8>, Fault> {
        self.made = self.made.saturating_add(1);
        if asked.width == 0 {
            return Err(Fault::BadWindow);
        }
        let mut cut = Vec::from_slice(alloc, name)?;
        put_window(alloc, &mut cut, asked)?;
        if asked.height >= LONG {
            lengthen(&mut cut, asked.height)?;
        }
        Ok(cut)
    }

    ghost stays = { λ _. tt };
}

/// Answers a request through a cache, and without one: the replies are alike.
fn answers_one(
    rt: &impl Abort,
    alloc: Global,
    request: &Request,
    counting: &mut Counting,
    cache: &mut Cache,
) {
    let mut plain = Counting { made: 0 };
    let reply = answer_with(alloc, request, counting, cache).expect(rt, "a reply");
    let want = answer(alloc, request, &mut plain).expect(rt, "a reply");
    equal(rt, "a reply", reply.bytes.as_slice(), want.bytes.as_slice());
}

/// A cache with room for so many windows.
pub(crate) fn cache_of(rt: &impl Abort, alloc: Global, capacity: usize) -> Cache {
    let room = capacity.max(1);
    equal(rt, "room for a window at least", room, capacity);
    Cache::new(alloc, room).expect(rt, "a cache")
}

/// Answers the requests of a stream through a cache with room for so many windows: each reply is
/// the one that no cache gives, and so many windows are made.
fn answers_alike(rt: &impl Abort, alloc: Global, capacity: usize, stream: &[u8], made: u64) {
    let mut cache = cache_of(rt, alloc, capacity);
    let mut counting = Counting { made: 0 };
    let mut session = Session::new(alloc);
    feed(rt, &mut session, stream);
    for _ in 0..100 {
        if let Next::Request(request) = next(rt, &mut session) {
            answers_one(rt, alloc, &request, &mut counting, &mut cache);
        }
    }
    equal_at(rt, "windows", stream, counting.made, made);
}

#[test]
fn kept_windows(rt: HostRuntime) {
    for (capacity, stream, made) in &CACHED {
        answers_alike(&rt, rt.alloc(), *capacity, *stream, *made);
    }
}

/// Two requests for one window, and the replies to them.
static ASKED: &[u8] =
    b"GET /images/a/window?x=0&y=0&w=1&h=1 HTTP/1.1\r\n\r\nGET /images/a/window?x=0&y=0&w=1&h=1 HTTP/1.0\r\n\r\n";

static REPLIED: &[u8] =
    b"HTTP/1.1 200 OK\r\nContent-Type: image/jp2\r\nContent-Length: 11\r\n\r\na 0 0 0 1 1HTTP/1.1 200 OK\r\nContent-Type: image/jp2\r\nContent-Length: 11\r\nConnection: close\r\n\r\na 0 0 0 1 1";

/// Two requests for one window are answered on a connection.
fn is_served(rt: &impl Abort, alloc: Global, counting: &mut Counting, cache: &mut Cache) {
    let mut reader = read_from(rt, alloc, ASKED, 7, false);
    let mut writer = write_to(alloc, 5, 100000, false);
    let end = run_with(alloc, &mut reader, &mut writer, counting, cache, 100000);
    equal(rt, "an end", end, Ok(End::Closed));
    equal(rt, "replies", writer.bytes.as_slice(), REPLIED);
}

#[test]
fn kept_on_a_connection(rt: HostRuntime) {
    let mut cache = cache_of(&rt, rt.alloc(), 1);
    let mut counting = Counting { made: 0 };
    is_served(&rt, rt.alloc(), &mut counting, &mut cache);
    is_served(&rt, rt.alloc(), &mut counting, &mut cache);
    equal(&rt, "windows", counting.made, 1);
}
