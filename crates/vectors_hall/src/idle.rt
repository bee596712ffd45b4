//! Clients on sockets that send nothing, or a byte at a time, before one that asks.

ghost use Rattle.std.specs.Prelude.{◌≡◌, ◌<◌, vec_len};

use crate::calls::{self, equal, opened, put};
use jk_hall::Reader;
use jk_jobs::Open;
use jk_math::Fault;
use jk_serve::{Arriving, bind};
use std::alloc::Global;
use std::io::{Read, Write};
use std::net::{Net, TcpListener, TcpStream};
use std::process::Abort;
use std::sync::Wait;
use std::thread;
use std::thread::Threads;
use std::time::{Clock, Duration};

/// How long a read or a write of the server may wait, in milliseconds.
const WAIT: u32 = 100;

/// How often the asking client looks for its reply, each time half as long.
const LOOKS: u32 = 200;

/// What the second client asks, and its reply.
static ASKED: &[u8] = b"GET /images HTTP/1.1\r\nConnection: close\r\n\r\n";

static REPLIED: &[u8] =
    b"HTTP/1.1 200 OK\r\nContent-Type: text/plain\r\nContent-Length: 12\r\nConnection: close\r\n\r\na 1 1 1 8 0\n";

/// What is replied to a client that asks while another, which came first, sends nothing, or a byte
/// of a request each time that a look is over.
fn replied<R: Net<Listener = TcpListener, Stream = TcpStream> + Abort>(
    rt: &R,
    alloc: Global,
    port: u16,
    trickles: bool,
) -> Vec<u8> {
    let first = connected(rt, port);
    let second = connected(rt, port);
    (&second).write_all(ASKED).expect(rt, "a request");
    second
        .set_read_timeout(Some(Duration::from_millis(WAIT as u64 / 2)))
        .expect(rt, "a timeout");
    let mut reply = Vec::new(alloc);
    let mut piece = [0u8; 256];
    for _look in 0..LOOKS {
        match (&second).read(&mut piece) {
            Ok(0) => break,
            Ok(count) => put(rt, &mut reply, &piece[..count]),
            Err(_) => {
                if trickles {
                    let _ = (&first).write(b"G");
                }
            }
        }
    }
    reply
}

/// A client on a port.
fn connected<R: Net<Listener = TcpListener, Stream = TcpStream> + Abort>(
    rt: &R,
    port: u16,
) -> TcpStream {
    TcpStream::connect(rt, ("127.0.0.1", port)).expect(rt, "a client")
}

/// How many connections end, and what is replied to the second.
fn served<R>(
    rt: &R,
    alloc: Global,
    readers: Vec<Reader>,
    trickles: bool,
) -> (Result<u64, Fault>, Vec<u8>)
where
    R: Threads + Wait + Clock + Eprint + Clone + Drop + Send + Sync + Abort,
    R: Net<Listener = TcpListener, Stream = TcpStream>,
    requires { vec_len readers ≡ 1 }
{
    let port = bind(rt, 0).expect(rt, "a port");
    let number = port.number;
    let again = rt.clone().expect(rt, "a runtime");
    let arriving = Arriving::new(again, alloc, port, 2, WAIT, None, String::new(alloc));
    thread::join(
        rt,
        || -> Result<u64, Fault>
            requires { 0 < vec_len readers }
        { calls::served(rt, alloc, readers, &["a", "b"], &Open, &arriving) },
        || replied(rt, alloc, number, trickles),
    )
}

/// A worker that is held by such a client comes free, and answers the next one.
fn comes_free<R>(rt: &R, alloc: Global, trickles: bool)
where
    R: Threads + Wait + Clock + Eprint + Clone + Drop + Send + Sync,
    R: Net<Listener = TcpListener, Stream = TcpStream> + Abort,
{
    let (writer, readers) = opened(rt, alloc, 1, &["a"]);
    let (ended, reply) = served(rt, alloc, readers, trickles);
    writer.close(rt);
    equal(rt, ended, Ok(2));
    equal(rt, reply.as_slice(), REPLIED);
}

#[test]
fn silent_clients_are_left(rt: HostRuntime) {
    comes_free(&rt, rt.alloc(), false);
}

#[test]
fn trickling_clients_are_left(rt: HostRuntime) {
    comes_free(&rt, rt.alloc(), true);
}
